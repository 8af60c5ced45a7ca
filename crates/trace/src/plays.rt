// From the bytes of a trace to the text of its lines.
ghost use Rattle.std.specs.Prelude.{◌≡◌, map, IfOk};
ghost use Rattle.calls.specs.Plain.{call_of, reply_of};
ghost use Rattle.rules.specs.Runs.{replies};
ghost use Rattle.trace.specs.Printed.{opening, printed};

use calls::Call;
use display::panels::Panel;
use records::lines::lines_of;
use records::lists::{calls_of, read_records};
use records::texts::text_of;
use replay::replays::{Replayed, replay};
use std::alloc::{AllocError, Global};

// The size of the panel's frame and of a slot, and of the memory for twelve bodies.
const FRAME_SIZE: usize = 4096;

const SLOT_SIZE: u32 = 4096;

const BODY_MEMORY: usize = 49_152;

// The replies to calls of a receiver that is opened for them.
fn replies_to(heap: Global, calls: &[Call<'_>]) -> Result<Replayed<Panel>, AllocError>
    ensures { IfOk result (λ x. map reply_of x.replies.items ≡ replies opening (map call_of calls.now)) }
{
    let panel = Panel::new(vec![in heap; 0u8; FRAME_SIZE]?);
    let mut memory = vec![in heap; 0u8; BODY_MEMORY]?;
    Ok(replay(heap, panel, SLOT_SIZE, memory.as_mut_slice(), calls)?)
}

// What is printed of an input.
pub fn play(heap: Global, input: &[u8]) -> Result<Vec<u8>, AllocError>
    ensures { IfOk result (λ v. v.items ≡ printed input.now) }
{
    let records = read_records(heap, input)?;
    let calls = calls_of(heap, records.as_slice())?;
    let played = replies_to(heap, calls.as_slice())?;
    let lines = lines_of(heap, records.as_slice(), played.replies.as_slice())?;
    text_of(heap, lines.as_slice())
}
