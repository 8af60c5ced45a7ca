// The film: a display that appends each card to a tape and reads it back from the tape's own bytes.
ghost use Rattle.std.specs.Prelude.{◌≡◌, ℕ, ◌+◌, ◌-◌, ◌^◌, ◌<◌, ◌≤◌, min, length, None, vec_len};
ghost use Rattle.display.specs.Meaning.{blank, shown, Accepts, ByShow};
ghost use Rattle.display.specs.Tape.{film, end_of, head_at, place_for, entry_bytes, Recorded};
ghost use Rattle.packed.specs.Parts.{pasted};
ghost use Rattle.display.specs.Lifted.{film_keeps};
ghost use Rattle.display.specs.Lasting.{film_steady};

use crate::cards::CardNumbers;
use crate::copying::copy_in;
use crate::plain::{admit, settled};
use crate::{Display, LARGEST_FRAME};
use refusal::Fault;

// How many bytes an entry has before its body.
const HEAD: usize = 12;

// A display by its tape and where the last entry begins. An entry is a head and a body; one that does not fit behind
// the last goes to the tape's start, and those before it then count as lost.
#[derive(Drop)]
pub struct Film {
    tape: Vec<u8>,
    last: Option<usize>,
    ghost within: { end_of tape.items last ≤ vec_len tape },
}

// The numbers in an entry's head. Bytes and a place in them stay two arguments, as of any slice.
fn numbers_at(tape: &[u8], at: usize) -> CardNumbers
    requires { at + 12 ≤ length tape.now }
    ensures { result ≡ head_at tape.now at }
{
    let (first, rest) = tape[at..].split_first_chunk::<4>().unwrap();
    let (second, _) = rest.split_first_chunk::<8>().unwrap();
    let word = u64::from_be_bytes(*second);
    CardNumbers {
        accession: u32::from_be_bytes(*first),
        since: word / 0x10_0000,
        length: (word % 0x10_0000) as u32,
    }
}

impl Film {
    // A film without a card over a tape of any length.
    pub fn new(tape: Vec<u8>) -> Film
        ensures fields { (result.tape ≡ tape) × (result.last ≡ None) }
        ensures means { film result.tape.items result.last ≡ blank (min (vec_len tape - 12) 65536) }
    {
        Film { tape, last: None }
    }

    // The tape's bytes.
    pub fn tape(&self) -> &[u8]
        ensures { result.now ≡ self.now.tape.items }
    {
        self.tape.as_slice()
    }

    // Where the last entry ends.
    fn end(&self) -> usize
        ensures { result ≡ end_of self.now.tape.items self.now.last }
    {
        match self.last {
            None => 0,
            Some(at) => at + HEAD + numbers_at(self.tape.as_slice(), at).length as usize,
        }
    }

    // Where an entry with a body of `size` bytes goes: behind the last, or to the tape's start.
    fn place(&self, size: usize) -> usize
        requires { 12 + size ≤ vec_len self.now.tape }
        ensures value { result ≡ place_for self.now.tape.items self.now.last size }
        ensures fits { result + 12 + size ≤ vec_len self.now.tape }
    {
        let end = self.end();
        if size <= self.tape.len() - HEAD && end <= self.tape.len() - HEAD - size {
            end
        } else {
            0
        }
    }

    // Writes an entry at its place.
    fn append(&mut self, accession: u32, since: u64, body: &[u8])
        requires { Accepts (film self.old.tape.items self.old.last) accession since body.now }
        ensures recorded { Recorded self.old.tape.items self.old.last accession since body.now self.new.tape.items self.new.last }
        ensures means { film self.new.tape.items self.new.last ≡ shown (film self.old.tape.items self.old.last) accession since body.now }
    {
        let at = self.place(body.len());
        write_entry(&mut self.tape, at, accession, since, body);
        self.last = Some(at);
    }
}

// Writes an entry on the tape, where it fits.
fn write_entry(tape: &mut Vec<u8>, at: usize, accession: u32, since: u64, body: &[u8])
    requires within { at + 12 + length body.now ≤ vec_len tape.old }
    requires small { length body.now ≤ 65536 }
    requires early { since < 2 ^ 44 }
    ensures items { tape.new.items ≡ pasted tape.old.items at (entry_bytes accession since body.now) }
    ensures len { vec_len tape.new ≡ vec_len tape.old }
{
    let first = accession.to_be_bytes();
    let second = (since * 0x10_0000 + body.len() as u64).to_be_bytes();
    copy_in(tape, at, &first);
    copy_in(tape, at + 4, &second);
    copy_in(tape, at + HEAD, body);
}

impl Display for Film {
    ghost meaning = { λ f. film f.tape.items f.last };

    ghost told = { λ f a t b g. ByShow (film f.tape.items f.last) a t b (Recorded f.tape.items f.last a t b g.tape.items g.last) (g ≡ f) };

    ghost keeps = { λ f. film_keeps f.tape.items f.last };

    ghost steady = { λ f g a t b. film_steady f.tape.items g.tape.items f.last g.last a t b (λ e i. (e i).tape.items) };

    fn show(&mut self, accession: u32, moment: u64, body: &[u8]) -> Result<(), Fault> {
        admit(self.frame(), accession, moment, body.len())?;
        self.append(accession, moment, body);
        Ok(())
    }

    fn frame(&self) -> u32 {
        self.tape.len().saturating_sub(HEAD).min(LARGEST_FRAME) as u32
    }

    fn lag(&self) -> u64 {
        0
    }

    fn settle(&self, moment: u64) -> Option<u64> {
        settled(moment)
    }

    fn card(&self) -> Option<CardNumbers> {
        let at = self.last?;
        Some(numbers_at(self.tape.as_slice(), at))
    }

    fn byte(&self, at: usize) -> Option<u8> {
        let start = self.last?;
        let size = numbers_at(self.tape.as_slice(), start).length as usize;
        self.tape[start + HEAD..][..size].get(at).copied()
    }
}
