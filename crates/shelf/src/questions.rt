// What a shelf answers, and changes nothing.
ghost use Rattle.std.specs.Prelude.{◌≡◌, ◌≤◌, length, take};
ghost use Rattle.shelf.specs.Laws.{Next, Reach};
ghost use Rattle.shelf.specs.Places.{carries, found, place_of, first_above, Ascending};
ghost use Rattle.shelf.specs.Searches.{First};

use crate::entries::Entry;
use crate::walks::{first_of_load, first_past, listed, place};

// How many entries the shelf holds.
pub fn count<K: Copy>(entries: &[Entry<K>], used: usize) -> usize
    ensures value { result ≡ length (take used entries.now) }
    ensures bound { (result ≤ used) × (result ≤ length entries.now) }
{
    listed(entries, used).len()
}

// How many entries, from the front, are not above the key.
pub fn count_to<K: Ord + Copy>(entries: &[Entry<K>], used: usize, key: &K) -> usize
    ensures bound { result ≤ length (take used entries.now) }
    ensures value { result ≡ place_of K.Ord.cmp key.now (take used entries.now) }
    ensures law { Ascending K.Ord.cmp (take used entries.now) → Reach K.Ord.cmp key.now (take used entries.now) result }
{
    place(listed(entries, used), key)
}

// The first entry that is strictly above the key, or none.
pub fn first_above<K: Ord + Copy>(entries: &[Entry<K>], used: usize, key: &K) -> Option<Entry<K>>
    ensures value { result ≡ first_above K.Ord.cmp key.now (take used entries.now) }
    ensures law { Ascending K.Ord.cmp (take used entries.now) → Next K.Ord.cmp key.now (take used entries.now) result }
{
    first_past(listed(entries, used), key)
}

// The first entry that carries the load, or none.
pub fn find<K: Copy>(entries: &[Entry<K>], used: usize, load: u32) -> Option<Entry<K>>
    ensures value { result ≡ found load (take used entries.now) }
    ensures law { First (carries load) (take used entries.now) result }
{
    first_of_load(listed(entries, used), load)
}
