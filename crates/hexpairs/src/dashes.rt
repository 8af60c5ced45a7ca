// A value that may be missing, as it is printed.
ghost use Rattle.hexpairs.specs.Dashes.{or_dash};

use std::fmt;

// A value, or a dash where none is given.
#[derive(Drop)]
pub struct OrDash<T>(pub Option<T>);

impl<T: fmt::Display> fmt::Display for OrDash<T> {
    ghost output = { λ d. or_dash T.output d.0 };

    fn fmt<W: fmt::Write>(&self, f: &mut fmt::Formatter<W>) -> fmt::Result {
        match &self.0 {
            Some(value) => write!(f, "{value}"),
            None => write!(f, "-"),
        }
    }
}
