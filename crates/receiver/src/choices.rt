// Which slot a header gets.
ghost use Rattle.std.specs.Prelude.{◌≡◌, ◌&&◌, None};
ghost use Rattle.receiver.specs.Views.{state_of};
ghost use Rattle.rules.specs.Headers.{is_held, idle, oldest_from, slot_for};
ghost use Rattle.rules.specs.Worlds.{slot_at};
ghost use Rattle.slots.specs.Searches.{first_free};
ghost use Rattle.slots.specs.Seen.{all_seen, index_of};

use crate::parts::Parts;
use shelf::entries::Entry;
use slots::indices::SlotIndex;
use slots::sought::Arriving;

// Whether no trigger waits for slot k.
fn is_idle(waiting: &[Entry<u64>], k: u32) -> bool
    ensures { result ≡ idle waiting.now k }
{
    waiting.iter().all(|entry| entry.load != k)
}

impl Parts {
    // Whether slot k holds a slide, and no trigger waits for it.
    fn may_go(&self, k: SlotIndex) -> bool
        ensures { result ≡ (is_held (slot_at (state_of self.now) k.index) && idle (state_of self.now).waiting k.index) }
    {
        self.slots.at(k).holding().is_some() && is_idle(self.waiting.list(), k.into())
    }

    // The slot of the held slide with the lowest number among those for which no trigger waits.
    pub(crate) fn oldest(&self) -> Option<SlotIndex>
        ensures { index_of result ≡ oldest_from (state_of self.now) 0 (all_seen self.now.slots) None }
    {
        (0..12)
            .filter_map(SlotIndex::new)
            .filter(|k| self.may_go(*k))
            .min_by_key(|k| self.number_at(*k))
    }

    // The next free slot behind the one given last.
    fn next_free(&self) -> Option<SlotIndex>
        ensures { index_of result ≡ first_free (state_of self.now).slots (state_of self.now).recent }
    {
        self.slots.first_free(self.recent.get())
    }

    // The slot for an object: where its TransportId arrives, else the next free one, else that of the oldest slide which
    // no trigger keeps.
    pub(crate) fn slot_for(&self, transport: u16) -> Option<SlotIndex>
        ensures { index_of result ≡ slot_for (state_of self.now) transport }
    {
        self.slots
            .find(&Arriving(transport))
            .or_else(|| self.next_free())
            .or_else(|| self.oldest())
    }
}
