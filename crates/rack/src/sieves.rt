// Tests of an entry, by which a rack keeps some of its entries.
ghost use Rattle.std.specs.Prelude.{◌≡◌, Bool, not, ◌==◌};
ghost use Rattle.shelf.specs.declared.entries.Entry as entries;

use shelf::entries::Entry;

// A test that an entry passes or not. No closure: a function that calls a closure passed to it has a `requires`, and a public
// function here has none.
pub trait EntryTest<K> {
    ghost test: { Self → entries.Entry K → Bool };

    fn passes(&self, entry: &Entry<K>) -> bool
        ensures { result ≡ test self.now entry.now };
}

// It carries another load than this.
#[derive(Clone, Copy)]
pub struct Other(pub u32);

impl<K> EntryTest<K> for Other {
    ghost test = { λ t e. not (e.load == t.0) };

    fn passes(&self, entry: &Entry<K>) -> bool {
        entry.load != self.0
    }
}
