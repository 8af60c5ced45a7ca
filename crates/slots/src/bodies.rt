// A body put together in memory, out of the segments that are sent.
ghost use Rattle.std.specs.Prelude.{◌≡◌, ◌+◌, ◌≤◌, length, if◌then◌else◌, Some, None, nat_le};
ghost use Rattle.slots.specs.Bodies.{sent_of, assembled};
ghost use Rattle.slots.specs.Pieces.{segment_of, memory_with, PiecesMakeTheBody};
ghost use Rattle.slots.specs.Segments.{landing, after_segment};

use crate::progress::{Landing, Progress, Segment};
use packed::paste;

// A segment with its bytes.
#[derive(Clone, Copy)]
pub struct Sent<'a> {
    pub number: u16,
    pub last: bool,
    pub bytes: &'a [u8],
}

// What a segment is, but for its bytes.
impl From<Sent<'_>> for Segment {
    ghost from_gives = { λ s r. r ≡ segment_of (sent_of s) };

    fn from(sent: Sent<'_>) -> Segment {
        Segment {
            number: sent.number,
            last: sent.last,
            length: sent.bytes.len(),
        }
    }
}

// Takes a segment, and lays it down in the memory of the body, which begins at `base`.
fn receive(progress: &mut Progress, memory: &mut [u8], base: usize, sent: &Sent<'_>)
    requires { base + progress.old.size ≤ length memory.old }
    ensures progress { progress.new ≡ after_segment progress.old (segment_of (sent_of sent.now)) }
    ensures memory { memory.new ≡ memory_with (landing progress.old (segment_of (sent_of sent.now))) base (sent_of sent.now).bytes memory.old }
{
    if let Landing::At(offset) = progress.take(Segment::from(*sent)) {
        let _ = paste(memory, base + offset, sent.bytes);
    }
}

// Puts a body of that size together at `base`, and answers how far it has come; none, and nothing written, where the
// memory has no room for it.
pub fn assemble(memory: &mut [u8], base: usize, size: u32, sent: &[Sent<'_>]) -> Option<Progress>
    ensures answer { result ≡ (if nat_le (base + size) (length memory.old) then Some (assembled base size memory.old sent.now).progress else None) }
    ensures after { memory.new ≡ (if nat_le (base + size) (length memory.old) then (assembled base size memory.old sent.now).memory else memory.old) }
    ensures law { PiecesMakeTheBody }
{
    let room = memory.len();
    if base > room || size as usize > room - base {
        return None;
    }
    let mut progress = Progress::new(size);
    for segment in sent {
        receive(&mut progress, memory, base, segment);
    }
    Some(progress)
}
