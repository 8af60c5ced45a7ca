// What a time field says.
ghost use Rattle.std.specs.Prelude.{Some};
ghost use Rattle.moment.specs.Shown.{time_text};

use std::fmt;

// A moment counts milliseconds from midnight UTC of day 0 of the Modified Julian Date. No Option<u64>: both are times, and
// Option<Time> beside it says that none was given.
#[derive(Clone, Copy, PartialEq, Eq, Debug)]
pub enum Time {
    // at once: the clock's own moment, whatever it is
    Now,
    // at this moment
    At(u64),
}

impl fmt::Display for Time {
    ghost output = { λ t. Some (time_text t) };

    fn fmt<W: fmt::Write>(&self, f: &mut fmt::Formatter<W>) -> fmt::Result {
        match self {
            Time::Now => write!(f, "now"),
            Time::At(moment) => write!(f, "{moment}"),
        }
    }
}
