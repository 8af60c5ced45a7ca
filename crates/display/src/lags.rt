// The lag layer: a display at the end of a cable.
ghost use Rattle.std.specs.Prelude.{◌≡◌, ℕ, ◌+◌, ◌≤◌};
ghost use Rattle.display.specs.Layering.{acting_delay};
ghost use Rattle.display.specs.Lifted.{lag_not_early, lag_within, lag_in_order, lag_fits};

use crate::layers::{Layer, Shift};
use crate::settings::Delay;

// A display at the end of a cable: it is told every moment with a delay.
pub type Lag<D> = Layer<D, Delay>;

// By the delay; by nothing where the delay would lift the lag too high.
impl Shift for Delay {
    ghost most = { λ d lag. acting_delay d.value lag };

    ghost later = { λ d lag t. t + acting_delay d.value lag };

    fn most(&self, lag: u64) -> u64 {
        self.acting(lag)
    }

    fn later(&self, lag: u64, moment: u64) -> Option<u64> {
        moment.checked_add(self.acting(lag))
    }

    ghost not_early = { λ d lag t. lag_not_early d.value lag t };

    ghost within = { λ d lag t. lag_within d.value lag t };

    ghost in_order = { λ d lag t u. lag_in_order d.value lag t u };

    ghost fits = { λ d lag. lag_fits d.value lag };
}
