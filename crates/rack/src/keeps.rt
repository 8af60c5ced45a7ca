// Keeping some entries of a shelf, and letting the others go.
ghost use Rattle.std.specs.Prelude.{◌≡◌, ◌≤◌, length, take, drop, filter};

use crate::sieves::EntryTest;
use shelf::count;
use shelf::entries::Entry;

// Moves those of the first `end` entries that pass the test to the front, in their order, and answers how many there are.
fn sift<K: Copy, T: EntryTest<K>>(entries: &mut [Entry<K>], end: usize, test: &T) -> usize
    requires { end ≤ length entries.old }
    ensures list { take result entries.new ≡ filter (T.EntryTest.test test.now) (take end entries.old) }
    ensures rest { drop end entries.new ≡ drop end entries.old }
    ensures len { length entries.new ≡ length entries.old }
    ensures bound { result ≤ end }
{
    let mut next = 0;
    // in place, and `next` runs behind `i`: no iterator reads and writes one slice
    for i in 0..end {
        let entry = entries[i];
        if test.passes(&entry) {
            entries[next] = entry;
            next += 1;
        }
    }
    next
}

// Moves the entries of the shelf that pass the test to the front, in their order, and answers how many there are. What
// stands behind the shelf is left as it is.
#[tactic(auto, using(shelf::proofs::Counted::take_counted, crate::proofs::Later::same_later))]
pub fn keep<K: Copy, T: EntryTest<K>>(entries: &mut [Entry<K>], used: usize, test: &T) -> usize
    ensures list { take result entries.new ≡ filter (T.EntryTest.test test.now) (take used entries.old) }
    ensures rest { drop used entries.new ≡ drop used entries.old }
    ensures len { length entries.new ≡ length entries.old }
    ensures bound { (result ≤ used) × (result ≤ length entries.old) }
{
    let end = count(entries, used);
    sift(entries, end, test)
}
