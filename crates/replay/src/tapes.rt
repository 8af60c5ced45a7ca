// A replay over a display with a film at the bottom: the tape holds the history of triggers, entry by entry, and nothing else.
ghost use Rattle.std.specs.Prelude.{◌≡◌, map, take, IfOk, IfErr, vec_len};
ghost use Rattle.calls.specs.Plain.{call_of};
ghost use Rattle.replay.specs.Ends.{Replays, display_in};
ghost use Rattle.replay.specs.Tapes.{entered_all};
ghost use Rattle.rules.specs.Laws.{account};

use crate::replays::{Interrupted, Replayed, replay};
use calls::Call;
use display::films::Film;
use display::tapes::Taped;
use std::alloc::Global;

// A replay, and what it leaves on the tape.
fn record<D: Taped>(
    heap: Global,
    display: D,
    slot_size: u32,
    memory: &mut [u8],
    calls: &[Call<'_>],
) -> Result<Replayed<D>, Interrupted<D>>
    ensures taped { IfOk result (λ x. D.Taped.reel (display_in x.receiver) ≡ entered_all (D.Display.meaning display).settle (D.Taped.reel display) (account (D.Display.meaning display) slot_size memory.old (map call_of calls.now)).history) }
    ensures interrupted { IfErr result (λ e. Replays D.Display.meaning D.Display.told display slot_size memory.old (take (vec_len e.replayed.replies) (map call_of calls.now)) e.replayed memory.new) }
{
    replay(heap, display, slot_size, memory, calls)
}

// Sends the calls to a receiver over a film, bare or below any pile of layers, and gives the film back. Its tape is the one
// given, with the slides of the history entered one behind the other, each with the moment at which it really shows.
pub fn replay_film<D: Taped>(
    heap: Global,
    display: D,
    slot_size: u32,
    memory: &mut [u8],
    calls: &[Call<'_>],
) -> Result<Film, Interrupted<D>>
    ensures taped { IfOk result (λ f. (f.tape.items, f.last) ≡ entered_all (D.Display.meaning display).settle (D.Taped.reel display) (account (D.Display.meaning display) slot_size memory.old (map call_of calls.now)).history) }
    ensures interrupted { IfErr result (λ e. Replays D.Display.meaning D.Display.told display slot_size memory.old (take (vec_len e.replayed.replies) (map call_of calls.now)) e.replayed memory.new) }
{
    let replayed = record(heap, display, slot_size, memory, calls)?;
    Ok(replayed.receiver.close().into_film())
}
