// Which slot: an index that is proved to be that of a slot.
ghost use Rattle.std.specs.Prelude.{◌≡◌, ◌<◌, ◌≤◌, MatchOption};
ghost use Rattle.slots.specs.Searches.{next};

// The index of one of the twelve slots, 0 to 11.
#[derive(Clone, Copy, PartialEq, Eq, Debug)]
pub struct SlotIndex {
    index: usize,
    ghost within: { index < 12 },
}

impl SlotIndex {
    // The slot of that index, if there is one.
    pub fn new(index: usize) -> Option<SlotIndex>
        ensures { MatchOption result (12 ≤ index) (λ k. (index < 12) × (k.index ≡ index)) }
    {
        if index < 12 {
            Some(SlotIndex { index })
        } else {
            None
        }
    }

    // The slot behind which the first begins a round.
    pub fn last() -> SlotIndex
        ensures { result.index ≡ 11 }
    {
        SlotIndex { index: 11 }
    }

    // The index as a number.
    pub fn get(self) -> usize
        ensures { (result ≡ self.index) × (result < 12) }
    {
        self.index
    }

    // The slot behind it, going round.
    pub fn next(self) -> SlotIndex
        ensures { result.index ≡ next self.index }
    {
        let behind = if self.index == 11 { 0 } else { self.index + 1 };
        SlotIndex { index: behind }
    }
}

// The index as an entry carries it.
impl From<SlotIndex> for u32 {
    ghost from_gives = { λ k n. n ≡ k.index };

    fn from(k: SlotIndex) -> u32 {
        k.index as u32
    }
}
