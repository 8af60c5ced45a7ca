// What a header says, and what it is to a receiver.
ghost use Rattle.std.specs.Prelude.{◌≡◌, ℕ, List, Ok, IfOk};
ghost use Rattle.display.specs.Meaning.{Meaning};
ghost use Rattle.header.specs.Headers.{seen, record_of};
ghost use Rattle.header.specs.Sound.{Sound};
ghost use Rattle.receiver.specs.Heard.{HeardFits, heard_by, heard_by_effects};
ghost use Rattle.receiver.specs.Views.{state_of, world_of};
ghost use Rattle.rules.specs.Effects.{on_header_effects, header_effects};
ghost use Rattle.rules.specs.Headers.{on_header, header_step};

use crate::parts::Parts;
use header::kinds::{Header, Kind};
use header::read_header;
use refusal::Fault;
use slots::indices::SlotIndex;

// What a header is.
pub(crate) enum Heard {
    // an image's, of a new object
    New,
    // a repeat, of the slide or the object with this number
    Again(u32),
    // a changed header, for the slide held in this slot
    Changed(SlotIndex),
    // an update of the slide held in this slot
    Update(SlotIndex),
    // an update of a slide that is not held
    Stray,
}

impl Parts {
    // What the bytes of a header say, or why they say nothing.
    #[inline]
    pub(crate) fn header_in<'b>(&self, memory: &[u8], bytes: &'b [u8]) -> Result<Header<'b>, Fault>
        ensures steps { (m : Meaning) (transport : ℕ) → header_step (world_of self.now memory.now m) transport bytes.now ≡ on_header (seen result) (world_of self.now memory.now m) transport }
        ensures tells { (m : Meaning) (transport : ℕ) → header_effects (world_of self.now memory.now m) transport bytes.now ≡ on_header_effects (seen result) (world_of self.now memory.now m) transport }
        ensures sound { IfOk (seen result) (Sound self.now.room) }
    {
        self.admit(memory)?;
        read_header(bytes, self.room)
    }

    // What a header is, by the slides that are held and the objects that arrive.
    pub(crate) fn heard(&self, transport: u16, header: &Header<'_>) -> Heard
        requires { Sound self.now.room (record_of header.now) }
        ensures steps { (m : Meaning) (memory : List ℕ) → on_header (Ok (record_of header.now)) (world_of self.now memory m) transport ≡ heard_by result (world_of self.now memory m) transport (record_of header.now) }
        ensures tells { (m : Meaning) (memory : List ℕ) → on_header_effects (Ok (record_of header.now)) (world_of self.now memory m) transport ≡ heard_by_effects result (world_of self.now memory m) transport (record_of header.now) }
        ensures fits { HeardFits result (state_of self.now) transport (record_of header.now) }
    {
        match header.kind {
            Kind::Image => self.image_heard(transport, header),
            Kind::Update => self.update_heard(header),
        }
    }
}
