// The records of the slots: numbers by state, with the name's bytes beside them.
ghost use Rattle.std.specs.Prelude.{◌≡◌, length};

use crate::progress::{Progress, Segment};
use header::kinds::Category;
use header::names::Name;
use moment::times::Time;

// An object that arrives under a TransportId: its accession number, what its header said, and what has come of it.
#[derive(Clone, Copy)]
pub struct Arrival {
    pub transport: u16,
    pub number: u32,
    pub subtype: u16,
    pub version: u8,
    pub expire: Option<Time>,
    pub trigger: Option<Time>,
    pub category: Option<Category>,
    pub progress: Progress,
}

// A slide that is held: the TransportId of its header, or of the last changed one, its accession number, its version, when it
// expires and how long its body is.
#[derive(Clone, Copy)]
pub struct Holding {
    pub transport: u16,
    pub number: u32,
    pub version: u8,
    pub expire: Option<Time>,
    pub size: u32,
}

// What a slot is in.
#[derive(Clone, Copy)]
pub enum State {
    Free,
    Arriving(Arrival),
    Held(Holding),
}

// What moves a slot.
#[derive(Clone, Copy)]
pub enum Event {
    // a header takes the slot for its object, under the name that the slot has been given
    Header(Arrival),
    // the object takes a segment
    Segment(Segment),
    // a moment comes
    Expiry(u64),
    // the slide is sent again under this TransportId
    Resent(u16),
    // the slot is cleared
    Clearing,
}

// A slot: its state, and the name of what it holds.
#[derive(Clone, Copy)]
pub struct Slot {
    pub state: State,
    pub name: Name,
}

// The twelve slots of a receiver.
#[derive(Clone, Copy)]
pub struct Slots {
    pub records: [Slot; 12],
    ghost twelve: { length records ≡ 12 },
}
