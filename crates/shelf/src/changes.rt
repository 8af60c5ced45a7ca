// What changes a shelf: an entry comes, or one goes.
ghost use Rattle.std.specs.Prelude.{◌≡◌, ◌+◌, ◌-◌, ◌<◌, length, take, drop, IfSome, IfOk};
ghost use Rattle.std.specs.declared.cmp.Ordering.{Ordering};
ghost use Rattle.std.specs.List.{remove};
ghost use Rattle.std.specs.Option.{unwrap_or};
ghost use Rattle.shelf.specs.Calls.{Received, Released, Headed};
ghost use Rattle.shelf.specs.Laws.{Arrived, InTurn};
ghost use Rattle.shelf.specs.Places.{carries, shelved, without, Ascending};
ghost use Rattle.shelf.specs.Searches.{Lost};

use crate::entries::Entry;
use crate::questions::count;
use crate::walks::{listed, place, place_of_load};

// Puts an entry behind every entry that is not above it, and answers how many are used now.
// Where all entries are used it is handed back, and nothing is changed.
pub fn insert<K: Ord + Copy>(
    entries: &mut [Entry<K>],
    used: usize,
    entry: Entry<K>,
) -> Result<usize, Entry<K>>
    ensures answer { Received used entry entries.old result entries.new }
    ensures list { IfOk result (λ n. take n entries.new ≡ shelved K.Ord.cmp entry (take used entries.old)) }
    ensures rest { drop (used + 1) entries.new ≡ drop (used + 1) entries.old }
    ensures len { length entries.new ≡ length entries.old }
    ensures order { Ascending K.Ord.cmp (take used entries.old) → IfOk result (λ n. Ascending K.Ord.cmp (take n entries.new)) }
    ensures law { Ascending K.Ord.cmp (take used entries.old) → IfOk result (λ n. Arrived K.Ord.cmp entry (take used entries.old) (take n entries.new)) }
    ensures turn { Ascending K.Ord.cmp (take used entries.old) → IfOk result (λ n. InTurn K.Ord.cmp entry (take used entries.old) (take n entries.new)) }
{
    if used >= entries.len() {
        return Err(entry);
    }
    let at = place(listed(entries, used), &entry.key);
    let end = used + 1;
    entries[used] = entry;
    entries[at..end].rotate_right(1);
    Ok(end)
}

// Takes the entry at a place out, the others close up, and answers how many are used now.
fn lift<K: Copy>(entries: &mut [Entry<K>], used: usize, at: usize) -> usize
    requires { at < length (take used entries.old) }
    ensures count { result + 1 ≡ length (take used entries.old) }
    ensures list { take result entries.new ≡ remove (take used entries.old) at }
    ensures rest { drop used entries.new ≡ drop used entries.old }
    ensures len { length entries.new ≡ length entries.old }
{
    let end = count(entries, used);
    entries[at..end].rotate_left(1);
    end - 1
}

// Takes the first entry that carries the load out, and answers how many are used now.
// Where no entry carries it, nothing is changed.
pub fn remove<K: Copy>(entries: &mut [Entry<K>], used: usize, load: u32) -> Option<usize>
    ensures answer { Released used load entries.old result entries.new }
    ensures list { take (unwrap_or result used) entries.new ≡ without load (take used entries.old) }
    ensures rest { drop used entries.new ≡ drop used entries.old }
    ensures len { length entries.new ≡ length entries.old }
    ensures order { (cmp : K → K → Ordering) → Ascending cmp (take used entries.old) → Ascending cmp (take (unwrap_or result used) entries.new) }
    ensures law { IfSome result (λ n. Lost (carries load) (take used entries.old) (take n entries.new)) }
{
    let at = place_of_load(listed(entries, used), load)?;
    Some(lift(entries, used, at))
}

// Takes the first entry out and answers it: the shelf then holds one entry less.
// Where it holds none, nothing is changed.
pub fn take_first<K: Copy>(entries: &mut [Entry<K>], used: usize) -> Option<Entry<K>>
    ensures answer { Headed used entries.old result entries.new }
    ensures list { take (length (take used entries.old) - 1) entries.new ≡ drop 1 (take used entries.old) }
    ensures rest { drop used entries.new ≡ drop used entries.old }
    ensures len { length entries.new ≡ length entries.old }
    ensures order { (cmp : K → K → Ordering) → Ascending cmp (take used entries.old) → Ascending cmp (take (length (take used entries.old) - 1) entries.new) }
{
    let first = *listed(entries, used).first()?;
    let _ = lift(entries, used, 0);
    Some(first)
}
