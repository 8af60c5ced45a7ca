// Worked examples of segments that fit a body of ten bytes or not, proved from the definitions. Each is a function of its
// own, whose contract names its figure.
ghost use Rattle.std.specs.Prelude.{◌≡◌, true, Some};
ghost use Rattle.slots.specs.Segments.{landing, after_segment};
ghost use Rattle.slots.specs.Slides.{fresh};
ghost use Rattle.slots.specs.declared.progress.Landing.TheVariants.{Misfit, At};

use crate::progress::{Landing, Progress, Segment};

// A last segment 2 of two bytes fixes the piece size 4.
pub fn last_of_three() -> Progress
    ensures figure { after_segment (fresh 10) (record { number = 2; last = true; length = 2 }) ≡ record { size = 10; piece = Some 4; last = Some 2; taken = 4 } }
    ensures answer { result ≡ record { size = 10; piece = Some 4; last = Some 2; taken = 4 } }
{
    let mut progress = Progress::new(10);
    let _ = progress.take(Segment {
        number: 2,
        last: true,
        length: 2,
    });
    progress
}

// A last segment 1 of five bytes fits.
pub fn second_half() -> Landing
    ensures figure { landing (fresh 10) (record { number = 1; last = true; length = 5 }) ≡ At 5 }
    ensures answer { result ≡ At 5 }
{
    Progress::new(10).landing(Segment {
        number: 1,
        last: true,
        length: 5,
    })
}

// A last segment 1 of six bytes does not.
pub fn more_than_half() -> Landing
    ensures figure { landing (fresh 10) (record { number = 1; last = true; length = 6 }) ≡ Misfit }
    ensures answer { result ≡ Misfit }
{
    Progress::new(10).landing(Segment {
        number: 1,
        last: true,
        length: 6,
    })
}
