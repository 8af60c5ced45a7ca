// The settings of the displays: a period and a delay.
ghost use Rattle.frametime.specs.Settings.{made_from, seen};
ghost use Rattle.frametime.specs.Texts.{out_of_range_text};
ghost use Rattle.std.specs.Prelude.{◌≡◌, Some};

use crate::lines::Numbers;
use display::settings::{Delay, Period};
use refusal::Fault;
use std::error::Error;
use std::fmt;

// When displays show: at frame edges a period apart, at the end of a cable with a delay.
#[derive(Clone, Copy)]
pub struct Timing {
    pub period: Period,
    pub delay: Delay,
}

// The setting that is out of range.
#[derive(Clone, Copy, Debug)]
pub enum OutOfRange {
    Period(Fault),
    Delay(Fault),
}

impl fmt::Display for OutOfRange {
    ghost output = { λ e. Some (out_of_range_text e) };

    fn fmt<W: fmt::Write>(&self, f: &mut fmt::Formatter<W>) -> fmt::Result {
        match self {
            OutOfRange::Period(fault) => write!(f, "period {}", Numbers(*fault)),
            OutOfRange::Delay(fault) => write!(f, "delay {}", Numbers(*fault)),
        }
    }
}

impl Error for OutOfRange {}

impl Timing {
    // The settings by their milliseconds, or the first that is out of range.
    pub fn new(period: u64, delay: u64) -> Result<Timing, OutOfRange>
        ensures { seen result ≡ made_from period delay }
    {
        Ok(Timing {
            period: Period::new(period).map_err(OutOfRange::Period)?,
            delay: Delay::new(delay).map_err(OutOfRange::Delay)?,
        })
    }
}
