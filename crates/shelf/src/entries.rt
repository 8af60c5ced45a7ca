// An entry of a shelf.

// What stands on a shelf: the key that gives it its place, and the number that it carries.
#[derive(Clone, Copy, PartialEq, Eq, Debug)]
pub struct Entry<K> {
    pub key: K,
    // what the entry is about: a slot, or the accession number of a slide. A number, as the rules' lists carry: of another type
    // each list would be mapped to those before any law of runs could speak of it
    pub load: u32,
}
