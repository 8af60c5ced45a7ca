// Tests of a slot, by which slots are found and cleared.
ghost use Rattle.std.specs.Prelude.{◌≡◌, Bool};
ghost use Rattle.header.specs.Finds.{name_of_label};
ghost use Rattle.slots.specs.Seen.{seen};
ghost use Rattle.slots.specs.Slides as slides;
ghost use Rattle.slots.specs.Slides.{is_free, ends, comes, named, versioned, sent_under, numbered};

use crate::records::{Slot, State};
use header::kinds::Label;

// A test that a slot passes or not, by what is seen of it. A trait and no closure: a public function that calls a closure
// has to require that it may be called, and those here require nothing.
pub trait SlotTest {
    ghost test: { Self → slides.Slot → Bool };

    fn passes(&self, slot: &Slot) -> bool
        ensures { result ≡ test self.now (seen slot.now) };
}

// It is free.
#[derive(Clone, Copy)]
pub struct Free;

impl SlotTest for Free {
    ghost test = { λ _ x. is_free x };

    fn passes(&self, slot: &Slot) -> bool {
        matches!(slot.state, State::Free)
    }
}

// Its object arrives under this TransportId.
#[derive(Clone, Copy)]
pub struct Arriving(pub u16);

impl SlotTest for Arriving {
    ghost test = { λ t x. comes t.0 x };

    fn passes(&self, slot: &Slot) -> bool {
        matches!(slot.state, State::Arriving(arrival) if arrival.transport == self.0)
    }
}

// It has expired by this moment.
#[derive(Clone, Copy)]
pub struct Ending(pub u64);

impl SlotTest for Ending {
    ghost test = { λ t x. ends t.0 x };

    fn passes(&self, slot: &Slot) -> bool {
        slot.state.ends_by(self.0)
    }
}

// It holds the slide with this accession number.
#[derive(Clone, Copy)]
pub struct Numbered(pub u32);

impl SlotTest for Numbered {
    ghost test = { λ t x. numbered t.0 x };

    fn passes(&self, slot: &Slot) -> bool {
        matches!(slot.state, State::Held(holding) if holding.number == self.0)
    }
}

// It holds the slide of this name.
#[derive(Clone, Copy)]
pub struct Named<'a>(pub Label<'a>);

impl<'a> SlotTest for Named<'a> {
    ghost test = { λ t x. named (name_of_label t.0) x };

    fn passes(&self, slot: &Slot) -> bool {
        matches!(slot.state, State::Held(_) if slot.name.is(self.0))
    }
}

// It holds the slide of this name and version.
#[derive(Clone, Copy)]
pub struct Versioned<'a> {
    pub name: Label<'a>,
    pub version: u8,
}

impl<'a> SlotTest for Versioned<'a> {
    ghost test = { λ t x. versioned (name_of_label t.name) t.version x };

    fn passes(&self, slot: &Slot) -> bool {
        matches!(slot.state, State::Held(holding)
            if slot.name.is(self.name) && holding.version == self.version)
    }
}

// The slide that it holds was last sent under this TransportId.
#[derive(Clone, Copy)]
pub struct SentUnder(pub u16);

impl SlotTest for SentUnder {
    ghost test = { λ t x. sent_under t.0 x };

    fn passes(&self, slot: &Slot) -> bool {
        matches!(slot.state, State::Held(holding) if holding.transport == self.0)
    }
}
