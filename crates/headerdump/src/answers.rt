// Why a line of the input says no header. An enum of its own beside the one of `frametime`: what they print differs, and one of
// type parameters for the texts would be no plainer.
ghost use Rattle.headerdump.specs.Texts.{no_header_text};
ghost use Rattle.std.specs.Prelude.{Some};

use refusal::Fault;
use std::error::Error;
use std::fmt;

#[derive(Debug, Drop)]
pub enum NoHeader {
    // its text spells no bytes
    NoBytes,
    // the bytes that it spells are no header
    Refused(Fault),
}

// By hand: the `Display` that thiserror derives promises no text.
impl fmt::Display for NoHeader {
    ghost output = { λ e. Some (no_header_text e) };

    fn fmt<W: fmt::Write>(&self, f: &mut fmt::Formatter<W>) -> fmt::Result {
        match self {
            NoHeader::NoBytes => write!(f, "no hexadecimal text"),
            NoHeader::Refused(fault) => write!(
                f,
                "refused {} layer {} place {}",
                fault.number(),
                fault.layer.number(),
                fault.place
            ),
        }
    }
}

impl Error for NoHeader {}
