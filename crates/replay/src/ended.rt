// The receiver at the end of a replay.
ghost use Rattle.std.specs.Prelude.{◌≡◌};
ghost use Rattle.replay.specs.Ends.{display_in};

use display::Display;
use receiver::phases::{Running, Unset};
use receiver::receivers::Receiver;

// A receiver in either phase.
#[derive(Drop)]
pub enum Ended<D> {
    // no setting was accepted
    StillUnset(Receiver<D, Unset>),
    // the clock was set
    NowRunning(Receiver<D, Running>),
}

impl<D: Display> Ended<D> {
    // Gives the display back.
    pub fn close(self) -> D
        ensures { result ≡ display_in self }
    {
        match self {
            Ended::StillUnset(receiver) => receiver.close(),
            Ended::NowRunning(receiver) => receiver.close(),
        }
    }
}
