// What stands in a slot.
ghost use Rattle.std.specs.Prelude.{◌≡◌, slice_index_or};
ghost use Rattle.header.specs.Kept.{name_of, no_name};
ghost use Rattle.receiver.specs.Arrivals.{Arrives};
ghost use Rattle.receiver.specs.Views.{state_of};
ghost use Rattle.rules.specs.Worlds.{slot_at};
ghost use Rattle.slots.specs.Seen.{all_names};
ghost use Rattle.slots.specs.Slides.{number_in};

use crate::parts::Parts;
use header::names::Name;
use slots::indices::SlotIndex;
use slots::records::Arrival;

impl Parts {
    // The object that arrives in slot k.
    pub(crate) fn arrival_at(&self, k: SlotIndex) -> Option<Arrival>
        ensures { Arrives self.now k.index result }
    {
        self.slots.at(k).arrival()
    }

    // The name beside slot k.
    pub(crate) fn name_at(&self, k: SlotIndex) -> Name
        ensures { name_of result ≡ slice_index_or (all_names self.now.slots) k.index no_name }
    {
        self.slots.at(k).name
    }

    // The number in slot k, 0 where it is free, as the rules take it.
    pub(crate) fn number_at(&self, k: SlotIndex) -> u32
        ensures { result ≡ number_in (slot_at (state_of self.now) k.index) }
    {
        self.slots.at(k).number()
    }
}
