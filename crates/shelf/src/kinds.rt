// The orders of the two kinds of key: moments, and category places. Their contracts carry the laws of the two orders, and say
// that the library's comparison of such keys is that order.
ghost use Rattle.std.specs.Prelude.{◌≡◌};
ghost use Rattle.shelf.specs.Kinds.{by_moment, by_place, Later, Further};
ghost use Rattle.shelf.specs.Places.{above};

use crate::entries::Entry;
use crate::walks::is_above;

// Whether the entry's moment is later than this one.
pub fn is_later(entry: &Entry<u64>, moment: u64) -> bool
    ensures value { result ≡ above by_moment moment entry.now }
    ensures means { Later }
{
    is_above(entry, &moment)
}

// Whether the entry's category place is further on than this one: by category, then by slide.
pub fn is_further(entry: &Entry<(u8, u8)>, place: (u8, u8)) -> bool
    ensures value { result ≡ above by_place place entry.now }
    ensures means { Further }
{
    is_above(entry, &place)
}
