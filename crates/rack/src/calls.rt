// A rack, for entries of any key: putting one in, keeping some, reading them.
ghost use Rattle.std.specs.Prelude.{◌≡◌, ◌≤◌, [], length, if◌then◌else◌, filter, is_ok, nat_lt, IfErr};
ghost use Rattle.rack.specs.Listed.{listed};
ghost use Rattle.shelf.specs.Kinds.{Later, Further};
ghost use Rattle.shelf.specs.Places.{shelved};

use crate::keeps::keep;
use crate::racks::Rack;
use crate::sieves::EntryTest;
use shelf::entries::Entry;
use shelf::insert;

impl<K: Ord + Copy + Default> Rack<K> {
    // Nothing stands on it.
    pub fn new() -> Rack<K>
        ensures { listed result ≡ [] }
    {
        let key = K::default();
        Rack {
            entries: [Entry { key, load: 0 }; 12],
            used: 0,
        }
    }

    // What stands on it, in order.
    pub fn list(&self) -> &[Entry<K>]
        ensures value { result.now ≡ listed self.now }
        ensures bound { length result.now ≤ 12 }
    {
        &self.entries[..self.used]
    }

    // Puts an entry behind all that are not above it. Without room it is handed back, and nothing is changed. At moments above is
    // later; at category places it is further on, by category and then by slide.
    #[tactic(auto, using(shelf::proofs::Keys::later, shelf::proofs::Keys::further))]
    pub fn put(&mut self, key: K, load: u32) -> Result<(), Entry<K>>
        ensures room { is_ok result ≡ nat_lt (length (listed self.old)) 12 }
        ensures list { listed self.new ≡ (if is_ok result then shelved K.Ord.cmp (record { key = key; load = load }) (listed self.old) else listed self.old) }
        ensures back { IfErr result (λ e. e ≡ record { key = key; load = load }) }
        ensures moments { Later }
        ensures places { Further }
    {
        self.used = insert(&mut self.entries, self.used, Entry { key, load })?;
        Ok(())
    }

    // Keeps the entries that pass the test.
    pub fn keep<T: EntryTest<K>>(&mut self, test: &T)
        ensures { listed self.new ≡ filter (T.EntryTest.test test.now) (listed self.old) }
    {
        self.used = keep(&mut self.entries, self.used, test);
    }
}
