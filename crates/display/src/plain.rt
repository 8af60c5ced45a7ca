// What panel and film share: both have no lag, settle each moment to itself, and take the same shows but for their frame.
ghost use Rattle.std.specs.Prelude.{◌≡◌, ℕ, ◌<◌, ◌≤◌, MatchOption, MatchResult};
ghost use Rattle.display.specs.Meaning.{show_fault};

use crate::{LAST_MOMENT, SHOW_REFUSED};
use refusal::Fault;

// Refuses a show that a display of this frame and no lag does not take.
pub(crate) fn admit(frame: u32, accession: u32, moment: u64, size: usize) -> Result<(), Fault>
    ensures { MatchResult result (λ _. (0 < size) × (size ≤ frame) × (0 < accession) × (moment ≤ 17592186044415)) (λ e. ((0 < size) × (size ≤ frame) × (0 < accession) × (moment ≤ 17592186044415) → ⊥) × (e ≡ show_fault)) }
{
    if size == 0 || size > frame as usize || accession == 0 || moment > LAST_MOMENT {
        return Err(SHOW_REFUSED);
    }
    Ok(())
}

// The moment itself, or none above the last that a show takes.
pub(crate) fn settled(moment: u64) -> Option<u64>
    ensures { MatchOption result (17592186044415 < moment) (λ s. (moment ≤ 17592186044415) × (s ≡ moment)) }
{
    if moment > LAST_MOMENT {
        return None;
    }
    Some(moment)
}
