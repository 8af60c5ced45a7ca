// Slots are freed, and what belongs to their slides goes along.
ghost use Rattle.std.specs.Prelude.{◌≡◌, false};
ghost use Rattle.receiver.specs.Views.{state_of};
ghost use Rattle.rules.specs.Worlds.{vacate};
ghost use Rattle.slots.specs.Slides.{free};

use crate::parts::Parts;
use crate::sieves::Staying;
use slots::sought::SlotTest;

impl Parts {
    // Frees the slots that pass the test; their waiting triggers and their category places go along.
    pub(crate) fn vacate<T: SlotTest>(&mut self, test: &T)
        requires { T.SlotTest.test test.now free ≡ false }
        ensures { state_of self.new ≡ vacate (T.SlotTest.test test.now) (state_of self.old) }
    {
        if self.slots.find(test).is_none() {
            return;
        }
        let staying = Staying {
            slots: &self.slots,
            test,
        };
        self.waiting.keep(&staying);
        self.places.keep(&staying);
        self.slots.clear(test);
    }
}
