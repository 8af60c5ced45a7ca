// The numbers of a card.

// What a card says beside its body: the slide's accession number, the moment since when it shows, and the body's length.
#[derive(Clone, Copy, PartialEq, Eq, Debug)]
pub struct CardNumbers {
    pub accession: u32,
    pub since: u64,
    pub length: u32,
}
