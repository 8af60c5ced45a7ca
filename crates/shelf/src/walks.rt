// Walks along a shelf's list, which every call makes.
ghost use Rattle.std.specs.Prelude.{◌≡◌, ◌≤◌, length, take, position};
ghost use Rattle.shelf.specs.Places.{above, carries, found, place_of, first_above};

use crate::entries::Entry;

// The entries of the shelf: the first `used` of those lent, or all where there are no more.
pub(crate) fn listed<K: Copy>(entries: &[Entry<K>], used: usize) -> &[Entry<K>]
    ensures value { result.now ≡ take used entries.now }
    ensures bound { (length result.now ≤ used) × (length result.now ≤ length entries.now) }
{
    &entries[..used.min(entries.len())]
}

// Whether the entry is strictly above the key.
pub(crate) fn is_above<K: Ord + Copy>(entry: &Entry<K>, key: &K) -> bool
    ensures { result ≡ above K.Ord.cmp key.now entry.now }
{
    entry.key.cmp(key).is_gt()
}

// How many entries of the list, from the front, are not above the key.
// No binary search: the answer is said of every list, also of one that is not ascending.
pub(crate) fn place<K: Ord + Copy>(list: &[Entry<K>], key: &K) -> usize
    ensures bound { result ≤ length list.now }
    ensures value { result ≡ place_of K.Ord.cmp key.now list.now }
{
    list.iter()
        .take_while(|entry| !is_above(entry, key))
        .count()
}

// The first entry of the list that is above the key, or none.
pub(crate) fn first_past<K: Ord + Copy>(list: &[Entry<K>], key: &K) -> Option<Entry<K>>
    ensures { result ≡ first_above K.Ord.cmp key.now list.now }
{
    list.iter().copied().find(|entry| is_above(entry, key))
}

// The place of the first entry of the list that carries the load, or none.
pub(crate) fn place_of_load<K: Copy>(list: &[Entry<K>], load: u32) -> Option<usize>
    ensures { result ≡ position (carries load) list.now }
{
    list.iter().position(|entry| entry.load == load)
}

// The first entry of the list that carries the load, or none.
pub(crate) fn first_of_load<K: Copy>(list: &[Entry<K>], load: u32) -> Option<Entry<K>>
    ensures { result ≡ found load list.now }
{
    list.iter().copied().find(|entry| entry.load == load)
}
