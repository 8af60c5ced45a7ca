// Finding slots, and clearing those that pass a test.
ghost use Rattle.std.specs.Prelude.{◌≡◌, ◌<◌, map, length, IfSome, if◌then◌else◌, None, nat_lt, slice_index_or};
ghost use Rattle.slots.specs.Searches.{first_slot, free_from, first_free, vacated};
ghost use Rattle.slots.specs.Seen.{seen, label, all_seen, all_names, index_of};
ghost use Rattle.slots.specs.Slides.{free};
ghost use Rattle.header.specs.Kept.{no_name};

use crate::indices::SlotIndex;
use crate::records::{Event, Slot, Slots};
use crate::sought::{Free, SlotTest};
use std::iter::successors;

// The first slot that passes the test.
pub fn find<T: SlotTest>(records: &[Slot], test: &T) -> Option<usize>
    ensures value { result ≡ first_slot (T.SlotTest.test test.now) (map seen records.now) }
    ensures within { IfSome result (λ k. k < length records.now) }
{
    records.iter().position(|slot| test.passes(slot))
}

// Clears every slot of these that passes the test.
fn clear_all<T: SlotTest>(records: &mut [Slot], test: &T)
    ensures seen { map seen records.new ≡ vacated (T.SlotTest.test test.now) (map seen records.old) }
    ensures names { map label records.new ≡ map label records.old }
{
    for slot in records.iter_mut() {
        if test.passes(slot) {
            slot.on(Event::Clearing);
        }
    }
}

impl Slots {
    // The first slot that passes the test.
    pub fn find<T: SlotTest>(&self, test: &T) -> Option<SlotIndex>
        ensures { index_of result ≡ first_slot (T.SlotTest.test test.now) (all_seen self.now) }
    {
        SlotIndex::new(find(&self.records, test)?)
    }

    // Slot k.
    pub fn at(&self, k: SlotIndex) -> &Slot
        ensures seen { seen result.now ≡ slice_index_or (all_seen self.now) k.index free }
        ensures name { label result.now ≡ slice_index_or (all_names self.now) k.index no_name }
    {
        &self.records[k.get()]
    }

    // The first free one among n slots, from slot k on, going round.
    fn free_from(&self, n: usize, k: SlotIndex) -> Option<SlotIndex>
        ensures { index_of result ≡ free_from (all_seen self.now) n k.index }
    {
        successors(Some(k), |at| Some(at.next()))
            .take(n)
            .find(|at| Free.passes(self.at(*at)))
    }

    // The first free slot behind slot `recent`, which was given last, going round and ending with that one; none where
    // no slot is free, or where there is no slot `recent`.
    pub fn first_free(&self, recent: usize) -> Option<SlotIndex>
        ensures { index_of result ≡ (if nat_lt recent 12 then first_free (all_seen self.now) recent else None) }
    {
        let recent = SlotIndex::new(recent)?;
        self.free_from(12, recent.next())
    }

    // Clears every slot that passes the test.
    pub fn clear<T: SlotTest>(&mut self, test: &T)
        ensures seen { all_seen self.new ≡ vacated (T.SlotTest.test test.now) (all_seen self.old) }
        ensures names { all_names self.new ≡ all_names self.old }
    {
        clear_all(&mut self.records, test);
    }
}
