// What a line says, and how it is printed.
ghost use Rattle.std.specs.Prelude.{Some};
ghost use Rattle.records.specs.Texts.{line_text};

use std::fmt;

// The record's number, the number of its refusal or 0, and the card's accession number and moment, or 0 and 0. Numbers and no
// options, since any number prints, and since a list of lines is half as long in memory.
#[derive(Clone, Copy)]
pub struct Line {
    pub number: usize,
    pub refusal: u8,
    pub accession: u32,
    pub since: u64,
}

// Four numbers parted by spaces, for whoever prints a line by itself.
impl fmt::Display for Line {
    ghost output = { λ l. Some (line_text l) };

    fn fmt<W: fmt::Write>(&self, f: &mut fmt::Formatter<W>) -> fmt::Result {
        let Line {
            number,
            refusal,
            accession,
            since,
        } = *self;
        write!(f, "{number} {refusal} {accession} {since}")
    }
}
