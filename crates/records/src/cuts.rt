// One record off the front of a trace.
ghost use Rattle.std.specs.Prelude.{◌≡◌, [], ◌∷◌};
ghost use Rattle.packed.specs.Bits.{field, whole};
ghost use Rattle.records.specs.Records.{first_record, record_with, said_by, seen};

use calls::Call;
use refusal::Fault;
use refusal::causes::{Cause, Layer};
use slots::bodies::Sent;

// What a record says: a call, or that it is malformed.
pub type Record<'a> = Result<Call<'a>, Fault>;

pub const MALFORMED: Fault = Fault {
    cause: Cause::RecordMalformed,
    layer: Layer::Trace,
    place: 0,
};

// Two bytes as one number.
fn pair(high: u8, low: u8) -> u16
    ensures { result ≡ whole (high ∷ low ∷ []) }
{
    u16::from_be_bytes([high, low])
}

// What a payload of that kind says. The wire's numbers become the enum `Call` right here, so there is no enum of kinds.
fn say<'a>(kind: u16, payload: &'a [u8]) -> Record<'a>
    ensures { seen result ≡ said_by kind payload.now }
{
    match (kind, payload) {
        (1, bytes) => Ok(Call::Time { bytes }),
        (2, [a, b, bytes @ ..]) => Ok(Call::Header {
            transport: pair(*a, *b),
            bytes,
        }),
        (3, [a, b, c, d, bytes @ ..]) => Ok(Call::Segment {
            transport: pair(*a, *b),
            sent: Sent {
                number: pair(*c, *d) % 32768,
                last: pair(*c, *d) >= 32768,
                bytes,
            },
        }),
        _ => Err(MALFORMED),
    }
}

// The record whose kind and size that number holds, and the bytes behind it; behind a record that runs past the end there
// are none.
fn cut<'a>(head: u16, rest: &'a [u8]) -> (Record<'a>, &'a [u8])
    ensures { (seen result.0, result.1.now) ≡ record_with (field 16 0 3 head) (field 16 3 13 head) rest.now }
{
    match rest.split_at_checked(usize::from(head % 8192)) {
        Some((payload, behind)) => (say(head / 8192, payload), behind),
        None => (Err(MALFORMED), &[]),
    }
}

// The first record and the bytes behind it; behind a record that runs past the end there are none.
pub fn read_record<'a>(bytes: &'a [u8]) -> (Record<'a>, &'a [u8])
    ensures { (seen result.0, result.1.now) ≡ first_record bytes.now }
{
    let [a, b, rest @ ..] = bytes else {
        return (Err(MALFORMED), &[]);
    };
    cut(pair(*a, *b), rest)
}
