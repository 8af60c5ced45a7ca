// A segment is laid into its object, and a complete object becomes a held slide.
ghost use Rattle.std.specs.Prelude.{◌≡◌, if◌then◌else◌};
ghost use Rattle.receiver.specs.Arrivals.{object_at, stored, KeptIn};
ghost use Rattle.receiver.specs.Views.{state_of};
ghost use Rattle.receiver.specs.declared.filings.Received.TheVariants.{Whole, Part};
ghost use Rattle.rules.specs.Worlds.{slot_at};
ghost use Rattle.slots.specs.Segments.{after_segment, complete};
ghost use Rattle.slots.specs.Slides.{arriving};

use crate::parts::Parts;
use crate::sieves::Called;
use slots::indices::SlotIndex;
use slots::progress::Segment;
use slots::records::{Arrival, Event};

// What a segment that is received comes to: it was there before, it is a part of the object with this number, or with it
// the body is whole and its slide is held in that slot.
pub(crate) enum Received {
    Again(u32),
    Part(u32),
    Whole(SlotIndex, Arrival),
}

impl Parts {
    // Lets the object in slot k take a segment whose bytes are in memory. With the last one missing its slide is held, and
    // the held slide of its name is released.
    pub(crate) fn lay(&mut self, k: SlotIndex, arrival: Arrival, segment: Segment) -> Received
        requires { slot_at (state_of self.old) k.index ≡ arriving (object_at self.old k.index arrival) }
        ensures answer { result ≡ (if complete (after_segment arrival.progress segment) then Whole k arrival else Part arrival.number) }
        ensures state { state_of self.new ≡ stored k.index (object_at self.old k.index arrival) (after_segment arrival.progress segment) (state_of self.old) }
        ensures holds { KeptIn result (state_of self.new) }
    {
        let mut progress = arrival.progress;
        let _ = progress.take(segment);
        if progress.is_complete() {
            let name = self.name_at(k);
            self.vacate(&Called(name));
            self.slots.on(k.get(), Event::Segment(segment));
            return Received::Whole(k, arrival);
        }
        self.slots.on(k.get(), Event::Segment(segment));
        Received::Part(arrival.number)
    }
}
