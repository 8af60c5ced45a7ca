// Data groups made by another program, sent to receivers over a panel of sixteen bytes.
use calls::{Call, Reply};
use display::panels::Panel;
use refusal::Fault;
use replay::replays::{Replayed, replay};
use rules::answers::Answer;
use slots::bodies::Sent;
use std::alloc::{AllocError, Global};
use std::test::Fail;

// The start of day 60,000, and 1.016 seconds later.
const START: [u8; 6] = *b"\xBA\x98\x08\x00\x00\x00";

const LATER: [u8; 6] = *b"\xBA\x98\x08\x00\x04\x10";

// An image of three bytes, named A, with its trigger at the later moment; and as a data group under TransportId 7.
const HEADER: [u8; 19] =
    *b"\x00\x00\x00\x30\x09\x84\x01\xCC\x02\x00\x41\xC5\x06\xBA\x98\x08\x00\x04\x10";

const HEADER_GROUP: [u8; 30] =
    *b"\x73\x00\x80\x00\x12\x00\x07\x00\x13\x00\x00\x00\x30\x09\x84\x01\xCC\x02\x00\x41\xC5\x06\xBA\x98\x08\x00\x04\x10\xA7\x84";

// Its one segment as a data group.
const SEGMENT_GROUP: [u8; 14] = *b"\x74\x00\x80\x00\x12\x00\x07\x00\x03\x61\x62\x63\x6A\x0F";

// The segment with a wrong checksum, a header that is not the last segment, a group of type 5, one of type 4 that is cut.
const WRONG_SUM: [u8; 14] = *b"\x74\x00\x80\x00\x12\x00\x07\x00\x03\x61\x62\x63\x6A\x0E";

const IN_PARTS: [u8; 9] = *b"\x33\x00\x00\x00\x12\x00\x07\x00\x00";

const OTHER: [u8; 4] = *b"\x45\x00\x10\xC9";

const CUT: [u8; 11] = *b"\x34\x00\x80\x00\x12\x00\x07\x00\x03\x61\x62";

// The replies to calls of a receiver with that body memory.
fn replies(heap: Global, memory: usize, calls: &[Call<'_>]) -> Result<Vec<Reply>, AllocError> {
    let panel = Panel::new(vec![in heap; 0u8; 16]?);
    let mut memory = vec![in heap; 0u8; memory]?;
    Ok(replay(heap, panel, 16, memory.as_mut_slice(), calls)?.replies)
}

// What a reply says, with a number: an accession number, a count, the moment of a card, or a refusal.
fn said(reply: &Reply) -> (&'static str, u64) {
    match reply {
        Reply::Answered(Answer::Taken(n)) => ("taken", u64::from(*n)),
        Reply::Answered(Answer::Repeat(n)) => ("repeat", u64::from(*n)),
        Reply::Answered(Answer::Filed(n)) => ("filed", u64::from(*n)),
        Reply::Answered(Answer::Refused(fault)) => ("refused", u64::from(fault.number())),
        Reply::PassedOver => ("passed over", 0),
        Reply::Counted(Ok(n)) => ("counted", *n as u64),
        Reply::Shows(Some(card)) => ("shows", card.since),
        _ => ("other", 0),
    }
}

#[test]
fn sample_as_groups_and_as_calls(rt: HostRuntime) -> Result<(), Fail> {
    let start = Call::Time { bytes: &START };
    let later = Call::Time { bytes: &LATER };
    let groups = [
        start,
        Call::Group {
            bytes: &HEADER_GROUP,
        },
        Call::Group {
            bytes: &SEGMENT_GROUP,
        },
        later,
        Call::Card,
    ];
    let calls = [
        start,
        Call::Header {
            transport: 7,
            bytes: &HEADER,
        },
        Call::Segment {
            transport: 7,
            sent: Sent {
                number: 0,
                last: true,
                bytes: b"abc",
            },
        },
        later,
        Call::Card,
    ];
    let expected = [
        ("counted", 0),
        ("taken", 1),
        ("filed", 1),
        ("counted", 1),
        ("shows", 5_184_000_001_016),
    ];
    let by_groups = replies(rt.alloc(), 192, &groups)?;
    let by_calls = replies(rt.alloc(), 192, &calls)?;
    assert_eq!(rt; by_groups.len(), 5);
    assert_eq!(rt; by_calls.len(), 5);
    for ((group, call), reply) in by_groups.iter().zip(by_calls.iter()).zip(expected) {
        assert_eq!(rt; said(group), reply);
        assert_eq!(rt; said(call), reply);
    }
    Ok(())
}

#[test]
fn groups_that_ask_for_nothing(rt: HostRuntime) -> Result<(), Fail> {
    let calls = [
        Call::Group { bytes: &OTHER },
        Call::Group { bytes: &WRONG_SUM },
        Call::Group { bytes: &IN_PARTS },
        Call::Group { bytes: &CUT },
        Call::Group {
            bytes: &SEGMENT_GROUP,
        },
    ];
    let expected = [
        ("passed over", 0),
        ("refused", 21),
        ("refused", 22),
        ("refused", 20),
        ("refused", 16),
    ];
    let answers = replies(rt.alloc(), 192, &calls)?;
    for (answer, reply) in answers.iter().zip(expected) {
        assert_eq!(rt; said(answer), reply);
    }
    // body memory comes first
    for answer in replies(rt.alloc(), 191, &calls)?.iter() {
        assert_eq!(rt; said(answer), ("refused", 3));
    }
    Ok(())
}
