// All records of a trace, and the calls that they make.
ghost use Rattle.std.specs.Prelude.{◌≡◌, ◌++◌, map, take, IfOk, OnOk};
ghost use Rattle.calls.specs.Plain.{call_of};
ghost use Rattle.records.specs.Records.{records_of, seen};
ghost use Rattle.records.specs.Sent.{calls_from, sends};
ghost use Rattle.records.specs.Written.{GivesBack};

use crate::cuts::{Record, read_record};
use calls::Call;
use std::alloc::{AllocError, Global};

// How many bytes of an input count.
pub const TRACE_LIMIT: usize = 32_768;

// The bytes of an input that count.
#[tactic(auto, using(std::proofs::lemmas::List::take_min))]
fn counted<'a>(input: &'a [u8]) -> &'a [u8]
    ensures { result.now ≡ take 32768 input.now }
{
    &input[..TRACE_LIMIT.min(input.len())]
}

// All records of an input, in order.
pub fn read_records<'a>(heap: Global, input: &'a [u8]) -> Result<Vec<Record<'a>>, AllocError>
    ensures value { IfOk result (λ v. map seen v.items ≡ records_of input.now) }
    ensures law { IfOk result (λ v. GivesBack input.now (map seen v.items)) }
{
    let mut all = Vec::new(heap);
    let mut left = counted(input);
    while !left.is_empty() {
        let (record, rest) = read_record(left);
        all.push(record)?;
        left = rest;
    }
    Ok(all)
}

// Adds the calls that a record makes: its own, if it has one, and the question for the card.
fn send<'a>(all: &mut Vec<Call<'a>>, said: &Record<'a>) -> Result<(), AllocError>
    ensures { OnOk result (all.new.items ≡ all.old.items ++ sends said.now) }
{
    if let Ok(call) = said {
        all.push(*call)?;
    }
    all.push(Call::Card)?;
    Ok(())
}

// The calls that records make, in order.
pub fn calls_of<'a>(heap: Global, records: &[Record<'a>]) -> Result<Vec<Call<'a>>, AllocError>
    ensures { IfOk result (λ v. map call_of v.items ≡ calls_from (map seen records.now)) }
{
    let mut all = Vec::new(heap);
    for record in records {
        send(&mut all, record)?;
    }
    Ok(all)
}
