// The record of a rack.
ghost use Rattle.std.specs.Prelude.{◌≡◌, ◌≤◌, length};
ghost use Rattle.std.specs.Bool.{⊤};

use shelf::entries::Entry;
use std::alloc::AllocError;

// Room for twelve entries, of which the first `used` are on the shelf. An array and a count: a receiver has no heap.
#[derive(Copy)]
pub struct Rack<K> {
    pub(crate) entries: [Entry<K>; 12],
    pub(crate) used: usize,
    ghost twelve: { length entries ≡ 12 },
    ghost within: { used ≤ 12 },
}

// The waiting triggers: a moment with its slot.
pub type Waiting = Rack<u64>;

// The category places: category and slide with an accession number.
pub type Places = Rack<(u8, u8)>;

// By hand: `Clone` is not derived for a struct that has a type parameter and a ghost field.
impl<K: Copy> Clone for Rack<K> {
    ghost is_clone = { λ x y. y ≡ x };

    ghost is_infallible = { λ _. ⊤ };

    fn clone(&self) -> Result<Self, AllocError> {
        Ok(*self)
    }
}
