// A held slide is sent again.
ghost use Rattle.std.specs.Prelude.{◌≡◌, true};
ghost use Rattle.receiver.specs.Views.{state_of};
ghost use Rattle.rules.specs.Headers.{is_held, with_transport};
ghost use Rattle.rules.specs.Worlds.{slot_at};

use crate::parts::Parts;
use slots::indices::SlotIndex;
use slots::records::Event;

impl Parts {
    // The slide in slot k takes the TransportId under which it is sent again.
    pub(crate) fn resend(&mut self, k: SlotIndex, transport: u16)
        requires { is_held (slot_at (state_of self.old) k.index) ≡ true }
        ensures state { state_of self.new ≡ with_transport k.index transport (state_of self.old) }
        ensures held { is_held (slot_at (state_of self.new) k.index) ≡ true }
    {
        self.slots.on(k.get(), Event::Resent(transport));
    }
}
