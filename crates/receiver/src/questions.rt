// What a receiver answers, and changes nothing.
ghost use Rattle.std.specs.Prelude.{◌≡◌, ℕ, List};
ghost use Rattle.display.specs.Meaning.{Byte};
ghost use Rattle.header.specs.Finds.{name_of_label};
ghost use Rattle.receiver.specs.Bodies.{bytes_of};
ghost use Rattle.receiver.specs.Receivers.{world};
ghost use Rattle.rules.specs.Questions.{card_numbers, number_of_name, place_above, body_of_number};
ghost use Rattle.shelf.specs.Kinds.{by_place};
ghost use Rattle.shelf.specs.Places.{first_above};

use crate::faults::NOT_HELD;
use crate::receivers::Receiver;
use display::Display;
use display::cards::CardNumbers;
use header::kinds::Label;
use refusal::Fault;
use shelf::entries::Entry;
use shelf::first_above;
use slots::sought::{Named, Numbered};

// The first of these category places that is strictly above a given one.
fn above(list: &[Entry<(u8, u8)>], place: (u8, u8)) -> Option<Entry<(u8, u8)>>
    ensures { result ≡ first_above by_place place list.now }
{
    first_above(list, list.len(), &place)
}

impl<D: Display, P> Receiver<D, P> {
    // The card's numbers, or none without a card. The card is what the display shows: an accession number, the moment since
    // when, and a body.
    pub fn card(&self) -> Option<CardNumbers>
        ensures { (memory : List ℕ) → result ≡ card_numbers (world D.Display.meaning self.now memory) }
    {
        self.display.card()
    }

    // The card's byte at an index from 0, or none past the end or without a card.
    pub fn card_byte(&self, at: usize) -> Option<u8>
        ensures { (memory : List ℕ) → Byte (world D.Display.meaning self.now memory).display.card at result }
    {
        self.display.byte(at)
    }

    // The accession number of the held slide of a name.
    pub fn find_name(&self, name: Label<'_>) -> Option<u32>
        ensures { (memory : List ℕ) → result ≡ number_of_name (world D.Display.meaning self.now memory) (name_of_label name.entry) }
    {
        let k = self.parts.slots.find(&Named(name))?;
        Some(self.parts.number_at(k))
    }

    // The first category place strictly above a given one, with its slide's accession number. A place is a category and the
    // slide's number in it.
    pub fn next_place(&self, place: (u8, u8)) -> Option<Entry<(u8, u8)>>
        ensures { (memory : List ℕ) → result ≡ place_above (world D.Display.meaning self.now memory) place }
    {
        above(self.parts.places.list(), place)
    }

    // The body of the held slide with an accession number, as a part of body memory.
    pub fn body<'m>(&self, accession: u32, memory: &'m [u8]) -> Result<&'m [u8], Fault>
        ensures { bytes_of result ≡ body_of_number (world D.Display.meaning self.now memory.now) accession }
    {
        self.parts.admit(memory)?;
        let k = self.parts.slots.find(&Numbered(accession)).ok_or(NOT_HELD)?;
        Ok(self.parts.body_in(k, memory))
    }

    // The size of a slot: body memory has twelve times as many bytes.
    pub fn slot_size(&self) -> u32
        ensures { (memory : List ℕ) → result ≡ (world D.Display.meaning self.now memory).state.room }
    {
        self.parts.room
    }
}
