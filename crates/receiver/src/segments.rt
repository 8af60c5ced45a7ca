// What a segment does.
ghost use Rattle.std.specs.Prelude.{◌≡◌, ◌*◌, length, IfOk, OnErr};
ghost use Rattle.display.specs.Meaning.{Meaning};
ghost use Rattle.receiver.specs.Arrivals.{Holds, InSlot, Looks, Receives};
ghost use Rattle.receiver.specs.Views.{state_of, world_of};

use crate::faults::{NOT_ARRIVING, SEGMENT_MISFIT};
use crate::filings::Received;
use crate::parts::Parts;
use packed::paste;
use refusal::Fault;
use slots::bodies::Sent;
use slots::indices::SlotIndex;
use slots::progress::{Landing, Segment};
use slots::records::Arrival;
use slots::sought::Arriving;

impl Parts {
    // The object that arrives under a TransportId, with its slot, or why there is none.
    fn arriving(&self, memory: &[u8], transport: u16) -> Result<(SlotIndex, Arrival), Fault>
        ensures fits { IfOk result (λ _. length memory.now ≡ 12 * self.now.room) }
        ensures slot { InSlot result self.now }
        ensures steps { (m : Meaning) → Looks result self.now (world_of self.now memory.now m) transport }
    {
        self.admit(memory)?;
        let k = self.slots.find(&Arriving(transport)).ok_or(NOT_ARRIVING)?;
        let arrival = self.arrival_at(k).ok_or(NOT_ARRIVING)?;
        Ok((k, arrival))
    }

    // Receives a segment of the object that is sent under a TransportId: its bytes go into body memory.
    pub(crate) fn receive(
        &mut self,
        memory: &mut [u8],
        transport: u16,
        sent: &Sent<'_>,
    ) -> Result<Received, Fault>
        ensures receives { (m : Meaning) → Receives result (world_of self.old memory.old m) (world_of self.new memory.new m) transport sent.now.number sent.now.last sent.now.bytes.now }
        ensures holds { Holds result (state_of self.new) }
        ensures refused { OnErr result (self.new ≡ self.old) }
    {
        let (k, arrival) = self.arriving(memory, transport)?;
        let segment = Segment::from(*sent);
        match arrival.progress.landing(segment) {
            Landing::Misfit => Err(SEGMENT_MISFIT),
            Landing::Again => Ok(Received::Again(arrival.number)),
            Landing::At(offset) => {
                let _ = paste(memory, k.get() * self.room as usize + offset, sent.bytes);
                Ok(self.lay(k, arrival, segment))
            }
        }
    }
}
