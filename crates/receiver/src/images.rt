// What an image header is, and what one of a new object does.
ghost use Rattle.std.specs.Prelude.{◌≡◌, ℕ, ◌<◌, ◌≤◌, not, List, false, filter, slice_index_or};
ghost use Rattle.display.specs.Meaning.{Meaning};
ghost use Rattle.header.specs.Finds.{name_of_label};
ghost use Rattle.header.specs.Headers.{record_of};
ghost use Rattle.header.specs.Kept.{name_of};
ghost use Rattle.rack.specs.Listed.{filed};
ghost use Rattle.receiver.specs.Answers.{Stays};
ghost use Rattle.receiver.specs.Heard.{HeardFits, heard_by, heard_by_effects};
ghost use Rattle.receiver.specs.Images.{AnnouncesImage};
ghost use Rattle.receiver.specs.Views.{state_of, world_of, said};
ghost use Rattle.rules.specs.Effects.{image_effects};
ghost use Rattle.rules.specs.Headers.{begun, new_image, image_step};
ghost use Rattle.slots.specs.Seen.{all_seen};
ghost use Rattle.slots.specs.Slides.{free, image_of, numbered, passed};

use crate::faults::{EXPIRY_NOT_AHEAD, NO_SLOT_TO_USE};
use crate::headers::Heard;
use crate::parts::Parts;
use header::kinds::Header;
use header::names::Name;
use rack::racks::Places;
use rack::sieves::Other;
use refusal::Fault;
use rules::answers::Answer;
use slots::images::{ComesAgain, version_of};
use slots::indices::SlotIndex;
use slots::moves::passed;
use slots::records::{Arrival, Slots};
use slots::sought::{SentUnder, SlotTest, Versioned};

// The last accession number that can be given.
const LAST_NUMBER: u32 = u32::MAX;

// Takes the slide in slot k off the places; a slot that holds no slide leaves them as they are.
fn forget(places: &mut Places, slots: &Slots, k: SlotIndex)
    ensures { filed places.new ≡ filter (λ e. not (numbered e.load (slice_index_or (all_seen slots.now) k.index free))) (filed places.old) }
{
    if let Some(holding) = slots.at(k).holding() {
        places.keep(&Other(holding.number));
    }
}

impl Parts {
    // Gives slot k to an object, with the next number; what the slot held leaves, with its waiting trigger and its
    // category place.
    pub(crate) fn begin(&mut self, k: SlotIndex, transport: u16, header: &Header<'_>, name: Name)
        requires number { self.old.given < 4294967295 }
        requires name { name_of name ≡ name_of_label header.now.name }
        requires fits { (0 < header.now.body_size) × (header.now.body_size ≤ self.old.room) }
        requires lasts { passed self.old.clock header.now.expire ≡ false }
        ensures { state_of self.new ≡ begun k.index transport (image_of (record_of header.now)) (state_of self.old) }
    {
        forget(&mut self.places, &self.slots, k);
        self.waiting.keep(&Other(k.into()));
        self.given += 1;
        self.slots
            .take(k.get(), Arrival::new(transport, self.given, header), name);
        self.recent = k;
    }

    // Begins the object of a new image: it must expire above the clock, and there must be a slot and a number for it.
    pub(crate) fn new_image(&mut self, transport: u16, header: &Header<'_>) -> Result<Answer, Fault>
        requires { AnnouncesImage self.old.room (record_of header.now) }
        ensures world { (m : Meaning) (memory : List ℕ) → (said result, world_of self.new memory m) ≡ new_image (world_of self.old memory m) transport (image_of (record_of header.now)) }
        ensures refused { Stays (said result) self.old self.new }
    {
        if passed(self.clock, header.expire) {
            return Err(EXPIRY_NOT_AHEAD);
        }
        if self.given == LAST_NUMBER {
            return Err(NO_SLOT_TO_USE);
        }
        let k = self.slot_for(transport).ok_or(NO_SLOT_TO_USE)?;
        let Some(name) = Name::new(header.name) else {
            unreachable!()
        };
        self.begin(k, transport, header, name);
        Ok(Answer::Taken(self.given))
    }

    // What an image header is, by the slides that are held and the objects that arrive.
    pub(crate) fn image_heard(&self, transport: u16, header: &Header<'_>) -> Heard
        requires { AnnouncesImage self.now.room (record_of header.now) }
        ensures steps { (m : Meaning) (memory : List ℕ) → image_step (world_of self.now memory m) transport (record_of header.now) ≡ heard_by result (world_of self.now memory m) transport (record_of header.now) }
        ensures tells { (m : Meaning) (memory : List ℕ) → image_effects (world_of self.now memory m) transport (record_of header.now) ≡ heard_by_effects result (world_of self.now memory m) transport (record_of header.now) }
        ensures fits { HeardFits result (state_of self.now) transport (record_of header.now) }
    {
        let versioned = Versioned {
            name: header.name,
            version: version_of(header),
        };
        if let Some(k) = self.slots.find(&versioned) {
            if SentUnder(transport).passes(self.slots.at(k)) {
                return Heard::Again(self.number_at(k));
            }
            return Heard::Changed(k);
        }
        let again = ComesAgain {
            transport,
            header: *header,
        };
        match self.slots.find(&again) {
            Some(k) => Heard::Again(self.number_at(k)),
            None => Heard::New,
        }
    }
}
