// Tests of slots and of entries, by which slides leave with their triggers and places.
ghost use Rattle.std.specs.Prelude.{◌≡◌, not, ◌&&◌, ◌||◌, ◌==◌, nat_le, slice_index_or};
ghost use Rattle.header.specs.Kept.{name_of};
ghost use Rattle.rules.specs.Worlds.{any};
ghost use Rattle.slots.specs.Seen.{seen, all_seen};
ghost use Rattle.slots.specs.Slides.{free, named, numbered};

use header::kinds::Category;
use header::names::Name;
use rack::sieves::EntryTest;
use shelf::entries::Entry;
use slots::indices::SlotIndex;
use slots::records::{Slot, Slots, State};
use slots::sought::{Numbered, SlotTest};

// It holds the slide of this name, which is kept: a kept name is compared with kept names by `Name::equals`, while `Named` takes
// a label.
#[derive(Drop)]
pub(crate) struct Called(pub(crate) Name);

impl SlotTest for Called {
    ghost test = { λ t x. named (name_of t.0) x };

    fn passes(&self, slot: &Slot) -> bool {
        matches!(slot.state, State::Held(_) if slot.name.equals(&self.0))
    }
}

// It passes the test and holds the slide with this accession number.
#[derive(Drop)]
pub(crate) struct AlsoNumbered<'a, T> {
    pub(crate) test: &'a T,
    pub(crate) number: u32,
}

impl<'a, T: SlotTest> SlotTest for AlsoNumbered<'a, T> {
    ghost test = { λ t x. T.SlotTest.test t.test.now x && numbered t.number x };

    fn passes(&self, slot: &Slot) -> bool {
        self.test.passes(slot) && Numbered(self.number).passes(slot)
    }
}

// What stays where the slots that pass the test are freed.
#[derive(Drop)]
pub(crate) struct Staying<'a, T> {
    pub(crate) slots: &'a Slots,
    pub(crate) test: &'a T,
}

// A trigger stays where its slot does not pass.
impl<'a, T: SlotTest> EntryTest<u64> for Staying<'a, T> {
    ghost test = { λ t e. not (T.SlotTest.test t.test.now (slice_index_or (all_seen t.slots.now) e.load free)) };

    fn passes(&self, entry: &Entry<u64>) -> bool {
        let Some(k) = SlotIndex::new(entry.load as usize) else {
            return !self.test.passes(&Slot {
                state: State::Free,
                name: Name::blank(),
            });
        };
        !self.test.passes(self.slots.at(k))
    }
}

// A category place stays where its slide is in no slot that passes.
impl<'a, T: SlotTest> EntryTest<(u8, u8)> for Staying<'a, T> {
    ghost test = { λ t e. not (any (λ x. T.SlotTest.test t.test.now x && numbered e.load x) (all_seen t.slots.now)) };

    fn passes(&self, entry: &Entry<(u8, u8)>) -> bool {
        let both = AlsoNumbered {
            test: self.test,
            number: entry.load,
        };
        self.slots.find(&both).is_none()
    }
}

// A trigger above a moment.
#[derive(Drop)]
pub(crate) struct After(pub(crate) u64);

impl EntryTest<u64> for After {
    ghost test = { λ t e. not (nat_le e.key t.0) };

    fn passes(&self, entry: &Entry<u64>) -> bool {
        entry.key > self.0
    }
}

// A trigger at a moment or above it.
#[derive(Drop)]
pub(crate) struct NotBefore(pub(crate) u64);

impl EntryTest<u64> for NotBefore {
    ghost test = { λ t e. nat_le t.0 e.key };

    fn passes(&self, entry: &Entry<u64>) -> bool {
        self.0 <= entry.key
    }
}

// A category place of another slide and of another category.
#[derive(Drop)]
pub(crate) struct Elsewhere {
    pub(crate) number: u32,
    pub(crate) category: Category,
}

impl EntryTest<(u8, u8)> for Elsewhere {
    ghost test = { λ t e. not (e.load == t.number || (e.key.0 == t.category.category && e.key.1 == t.category.slide)) };

    fn passes(&self, entry: &Entry<(u8, u8)>) -> bool {
        entry.load != self.number && entry.key != self.category.into()
    }
}
