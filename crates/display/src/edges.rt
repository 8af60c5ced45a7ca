// The edge layer: a display that shows only at frame edges, a period apart.
ghost use Rattle.std.specs.Prelude.{◌≡◌, ℕ, ◌+◌, ◌-◌, ◌≤◌};
ghost use Rattle.display.specs.Layering.{up, acting_period};
ghost use Rattle.display.specs.Lifted.{edge_not_early, edge_within, edge_in_order, edge_fits};

use crate::layers::{Layer, Shift};
use crate::settings::Period;

// A display that shows only at frame edges, a period apart.
pub type Edge<D> = Layer<D, Period>;

// To the first multiple of the period that acts.
impl Shift for Period {
    ghost most = { λ p lag. acting_period p.value lag - 1 };

    ghost later = { λ p lag t. up (acting_period p.value lag) t };

    fn most(&self, lag: u64) -> u64 {
        self.acting(lag) - 1
    }

    #[tactic(auto, using(crate::proofs::Multiples::up_at, crate::proofs::Multiples::up_over))]
    fn later(&self, lag: u64, moment: u64) -> Option<u64> {
        let p = self.acting(lag);
        match moment % p {
            0 => Some(moment),
            over => moment.checked_add(p - over),
        }
    }

    ghost not_early = { λ p lag t. edge_not_early p.value p.low lag t };

    ghost within = { λ p lag t. edge_within p.value lag t };

    ghost in_order = { λ p lag t u. edge_in_order p.value p.low lag t u };

    ghost fits = { λ p lag. edge_fits p.value lag };
}
