// The answer to a line of input, and how it prints.
ghost use Rattle.frametime.specs.Texts.{refusal_text, frames_text, shown_text, no_time_text};
ghost use Rattle.frametime.specs.declared.lines.NoTime.TheVariants.{Refused};
ghost use Rattle.std.specs.Prelude.{◌≡◌, Some};

use hexpairs::dashes::OrDash;
use refusal::Fault;
use std::error::Error;
use std::fmt;

// A moment, its day and milliseconds, and when each pile of displays shows it.
#[derive(Clone, Copy)]
pub struct Frames {
    pub moment: u64,
    pub day: u64,
    pub millis: u32,
    pub panel: Option<u64>,
    pub edge: Option<u64>,
    pub lag_over_edge: Option<u64>,
    pub edge_over_lag: Option<u64>,
}

// When what a line tells is shown. No Option<Frames>: both are answers, and both print.
#[derive(Clone, Copy)]
pub enum Shown {
    AtOnce,
    Settled(Frames),
}

// Why a line tells no time.
#[derive(Clone, Copy, Debug)]
pub enum NoTime {
    NotHexadecimal,
    Refused(Fault),
}

// What a line of input comes to.
pub type Answer = Result<Shown, NoTime>;

// The `?` in `told` needs it.
impl From<Fault> for NoTime {
    ghost from_gives = { λ fault reason. reason ≡ Refused fault };

    fn from(fault: Fault) -> NoTime {
        NoTime::Refused(fault)
    }
}

// A refusal by its numbers.
#[derive(Clone, Copy)]
pub struct Numbers(pub Fault);

impl fmt::Display for Numbers {
    ghost output = { λ n. Some (refusal_text n.0) };

    fn fmt<W: fmt::Write>(&self, f: &mut fmt::Formatter<W>) -> fmt::Result {
        let Numbers(fault) = self;
        write!(
            f,
            "refused {} {} {}",
            fault.number(),
            fault.layer.number(),
            fault.place
        )
    }
}

impl fmt::Display for Frames {
    ghost output = { λ f. Some (frames_text f) };

    fn fmt<W: fmt::Write>(&self, f: &mut fmt::Formatter<W>) -> fmt::Result {
        write!(f, "{} {} {}", self.moment, self.day, self.millis)?;
        write!(f, " {} {}", OrDash(self.panel), OrDash(self.edge))?;
        write!(
            f,
            " {} {}",
            OrDash(self.lag_over_edge),
            OrDash(self.edge_over_lag)
        )
    }
}

impl fmt::Display for Shown {
    ghost output = { λ s. Some (shown_text s) };

    fn fmt<W: fmt::Write>(&self, f: &mut fmt::Formatter<W>) -> fmt::Result {
        match self {
            Shown::AtOnce => write!(f, "now"),
            Shown::Settled(frames) => write!(f, "{frames}"),
        }
    }
}

// By hand: the `Display` that thiserror derives promises no text.
impl fmt::Display for NoTime {
    ghost output = { λ e. Some (no_time_text e) };

    fn fmt<W: fmt::Write>(&self, f: &mut fmt::Formatter<W>) -> fmt::Result {
        match self {
            NoTime::NotHexadecimal => write!(f, "not hexadecimal"),
            NoTime::Refused(fault) => write!(f, "{}", Numbers(*fault)),
        }
    }
}

impl Error for NoTime {}
