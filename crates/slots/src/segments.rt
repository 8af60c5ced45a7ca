// What a segment does to an arriving object.
ghost use Rattle.std.specs.Prelude.{◌≡◌, ◌<◌, true};
ghost use Rattle.slots.specs.Slides.{fresh};
ghost use Rattle.slots.specs.Segments.{has, agrees, inner_fits, last_fits, fits, landing, grown, after_segment, covers, complete};

use crate::progress::{Landing, Progress, Segment};

impl Progress {
    // An object of that size, of which nothing has come yet.
    pub fn new(size: u32) -> Progress
        ensures { result ≡ fresh size }
    {
        Progress {
            size,
            piece: None,
            last: None,
            taken: 0,
        }
    }

    // Whether the number is among those taken.
    #[tactic(auto, using(crate::proofs::Numbers::has_past))]
    fn has(&self, number: u16) -> bool
        ensures { result ≡ has number self.now.taken }
    {
        let taken = self.taken;
        number < 64 && (taken >> number) % 2 == 1
    }

    // Whether a piece of that size agrees with the piece size, if that is fixed.
    fn agrees(&self, piece: usize) -> bool
        ensures { result ≡ agrees self.now.piece piece }
    {
        self.piece.is_none_or(|fixed| piece == fixed)
    }

    // Whether a segment that is not the last fits.
    fn inner_fits(&self, segment: Segment) -> bool
        requires { segment.number < 64 }
        ensures { result ≡ inner_fits self.now.piece self.now.size segment.number segment.length }
    {
        let Segment { number, length, .. } = segment;
        let size = self.size as usize;
        self.agrees(length) && length < size && (usize::from(number) + 1) * length < size
    }

    // Whether a last segment fits.
    fn last_fits(&self, segment: Segment) -> bool
        ensures { result ≡ last_fits self.now.piece self.now.size segment.number segment.length }
    {
        let Segment { number, length, .. } = segment;
        let size = self.size as usize;
        if number == 0 {
            return length == size && self.piece.is_none();
        }
        if length >= size {
            return false;
        }
        let before = size - length;
        let count = usize::from(number);
        before % count == 0 && length <= before / count && self.agrees(before / count)
    }

    // Where the segment goes.
    pub fn landing(&self, segment: Segment) -> Landing
        ensures { result ≡ landing self.now segment }
    {
        let Segment {
            number,
            last,
            length,
        } = segment;
        let size = self.size as usize;
        if number > 63 || length == 0 {
            return Landing::Misfit;
        }
        if self.has(number) {
            return Landing::Again;
        }
        if last {
            if self.last_fits(segment) {
                return Landing::At(size - length);
            }
        } else if self.inner_fits(segment) {
            return Landing::At(usize::from(number) * length);
        }
        Landing::Misfit
    }

    // The object with a segment that fits.
    fn grow(&mut self, segment: Segment)
        requires small { segment.number < 64 }
        requires fits { fits self.old.piece self.old.size segment.number segment.last segment.length ≡ true }
        ensures { self.new ≡ grown self.old segment }
    {
        let Segment {
            number,
            last,
            length,
        } = segment;
        self.taken |= 1 << number;
        if !last {
            self.piece = Some(length);
            return;
        }
        self.last = Some(number);
        if number == 0 {
            self.piece = Some(length);
        } else {
            self.piece = Some((self.size as usize - length) / usize::from(number));
        }
    }

    // Takes a segment where it fits, and answers where it goes.
    pub fn take(&mut self, segment: Segment) -> Landing
        ensures answer { result ≡ landing self.old segment }
        ensures after { self.new ≡ after_segment self.old segment }
    {
        let landing = self.landing(segment);
        if let Landing::At(_) = landing {
            self.grow(segment);
        }
        landing
    }

    // Whether all numbers below n are among those taken.
    fn covers(&self, n: u16) -> bool
        ensures { result ≡ covers n self.now.taken }
    {
        (0..n).all(|number| self.has(number))
    }

    // Whether the last segment and all before it have come.
    pub fn is_complete(&self) -> bool
        ensures { result ≡ complete self.now }
    {
        self.last.is_some_and(|last| self.covers(last))
    }
}
