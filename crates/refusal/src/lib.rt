// Refusals: what was refused, by which layer, and where.
#![tactic(auto)]

ghost use Rattle.std.specs.Prelude.{◌≡◌};
ghost use Rattle.refusal.specs.Numbers.{number_of, layer_number};

pub mod causes;

use causes::{Cause, Layer};

// A refusal as it stands in an answer. The place is 0 but for a header's parameters.
#[derive(Clone, Copy, PartialEq, Eq, Debug)]
pub struct Fault {
    pub cause: Cause,
    pub layer: Layer,
    pub place: u16,
}

impl Cause {
    // The number by which a buyer knows the cause.
    pub fn number(&self) -> u8
        ensures { result ≡ number_of self.now }
    {
        *self as u8
    }
}

impl Layer {
    // The layer's number, lowest layer first.
    pub fn number(&self) -> u8
        ensures { result ≡ layer_number self.now }
    {
        *self as u8
    }
}

impl Fault {
    // The number of the fault's cause.
    pub fn number(&self) -> u8
        ensures { result ≡ number_of self.now.cause }
    {
        self.cause.number()
    }
}
