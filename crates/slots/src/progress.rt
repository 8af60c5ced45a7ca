// How far an arriving object has come.

// An object's body and what has come of it so far: its size, the piece size once that is known, the number of the last
// segment once that has come, and the numbers taken, one bit each: a set that needs no heap.
#[derive(Clone, Copy)]
pub struct Progress {
    pub size: u32,
    pub piece: Option<usize>,
    pub last: Option<u16>,
    pub taken: u64,
}

// A segment, but for its bytes: its number, whether it is the last, and how many bytes it has.
#[derive(Clone, Copy)]
pub struct Segment {
    pub number: u16,
    pub last: bool,
    pub length: usize,
}

// Where a segment goes. A Result would be no plainer: a number that was taken before is an answer of its own, and no error.
#[derive(Clone, Copy, PartialEq, Eq, Debug)]
pub enum Landing {
    // nowhere: it does not fit its object
    Misfit,
    // nowhere: its number was taken before
    Again,
    // to this offset of the body
    At(usize),
}
