// Opening and closing a receiver.
ghost use Rattle.std.specs.Prelude.{◌≡◌, ℕ, List};
ghost use Rattle.receiver.specs.Receivers.{world};
ghost use Rattle.receiver.specs.Views.{state_of, fresh_state};
ghost use Rattle.rules.specs.Runs.{opened};

use crate::parts::Parts;
use crate::phases::Unset;
use crate::receivers::Receiver;
use display::Display;
use rack::racks::{Places, Waiting};
use slots::indices::SlotIndex;
use slots::records::Slots;

impl Parts {
    // Nothing has come yet: the clock is not set, and slot 0 is the first to be given.
    fn fresh(room: u32) -> Parts
        ensures { state_of result ≡ fresh_state room }
    {
        Parts {
            clock: 0,
            given: 0,
            recent: SlotIndex::last(),
            room,
            slots: Slots::new(),
            waiting: Waiting::new(),
            places: Places::new(),
        }
    }
}

impl<D: Display> Receiver<D, Unset> {
    // Opens a receiver over a display, with twelve slots of the given size, or of the display's frame where that is less.
    pub fn open(display: D, slot_size: u32) -> Receiver<D, Unset>
        ensures opens { (memory : List ℕ) → world D.Display.meaning result memory ≡ opened (D.Display.meaning display) slot_size memory }
        ensures keeps { result.display ≡ display }
    {
        let room = slot_size.min(display.frame());
        Receiver {
            parts: Parts::fresh(room),
            display,
            phase: Unset,
        }
    }
}

impl<D: Display, P: Drop> Receiver<D, P> {
    // Gives the display back; the receiver and its slides are gone.
    pub fn close(self) -> D
        ensures { result ≡ self.display }
    {
        self.display
    }
}
