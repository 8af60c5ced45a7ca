// The receiver's plain data.
ghost use Rattle.receiver.specs.States.{state_from};
ghost use Rattle.rules.specs.Soundness.{Sound};

use rack::racks::{Places, Waiting};
use slots::indices::SlotIndex;
use slots::records::Slots;

// The clock, how many accession numbers were given, the slot given last, the slot size, the slots, the waiting triggers and the
// category places. They are sound together: what the rules keep of a state is a fact of the type. The clock is 0 until it is set,
// as the rules count it, and no moment is 0: an option would be taken apart at each comparison.
#[derive(Drop)]
pub(crate) struct Parts {
    pub(crate) clock: u64,
    pub(crate) given: u32,
    pub(crate) recent: SlotIndex,
    pub(crate) room: u32,
    pub(crate) slots: Slots,
    pub(crate) waiting: Waiting,
    pub(crate) places: Places,
    ghost sound: { ∥ Sound (state_from clock given recent room slots waiting places) ∥₁ },
}
