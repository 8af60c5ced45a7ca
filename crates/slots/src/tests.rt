// Bodies put together out of segments, segments that fit or not, and slots as events move them.
use crate::bodies::{Sent, assemble};
use crate::finds::find;
use crate::images::ComesAgain;
use crate::indices::SlotIndex;
use crate::progress::{Landing, Progress, Segment};
use crate::records::{Arrival, Event, Slots};
use crate::sought::{Arriving, Ending, Named, Numbered, SentUnder};
use header::figures::slide_a;
use header::names::Name;
use std::test::Fail;

fn sent(number: u16, last: bool, bytes: &[u8]) -> Sent<'_> {
    Sent {
        number,
        last,
        bytes,
    }
}

fn segment(number: u16, last: bool, length: usize) -> Segment {
    Segment {
        number,
        last,
        length,
    }
}

// A body of ten bytes with one byte of other memory on each side, and whether it is all there.
fn ten_bytes(sent: &[Sent<'_>]) -> ([u8; 12], bool) {
    let mut memory = *b"<..........>";
    match assemble(&mut memory, 1, 10, sent) {
        Some(progress) => (memory, progress.is_complete()),
        None => (memory, false),
    }
}

#[test]
fn pieces_come_in_any_order(rt: HostRuntime) {
    let a = sent(0, false, b"abcd");
    let b = sent(1, false, b"efgh");
    let c = sent(2, true, b"ij");
    let whole = (*b"<abcdefghij>", true);
    assert_eq!(rt; ten_bytes(&[a, b, c]), whole);
    assert_eq!(rt; ten_bytes(&[a, c, b]), whole);
    assert_eq!(rt; ten_bytes(&[c, a, b]), whole);
    assert_eq!(rt; ten_bytes(&[c, b, a]), whole);
    assert_eq!(rt; ten_bytes(&[sent(0, true, b"abcdefghij")]), whole);
    let again = sent(0, true, b"zz");
    assert_eq!(rt; ten_bytes(&[a, again, c, b]), whole);
    let other = sent(1, false, b"efg");
    assert_eq!(rt; ten_bytes(&[a, other, c]), (*b"<abcd....ij>", false));
}

#[test]
fn a_body_needs_room(rt: HostRuntime) {
    let mut memory = *b"....";
    let whole = [sent(0, true, b"abc")];
    assert!(rt; assemble(&mut memory, 2, 3, &whole).is_none());
    assert_eq!(rt; memory, *b"....");
    assert!(rt; assemble(&mut memory, 1, 3, &whole).is_some());
    assert_eq!(rt; memory, *b".abc");
}

#[test]
fn segments_of_ten_bytes(rt: HostRuntime) {
    let mut progress = Progress::new(10);
    let landings = [
        (segment(64, false, 4), Landing::Misfit),
        (segment(0, false, 0), Landing::Misfit),
        (segment(0, false, 10), Landing::Misfit),
        (segment(1, true, 6), Landing::Misfit),
        (segment(2, true, 2), Landing::At(8)),
        (segment(2, true, 0), Landing::Misfit),
        (segment(2, false, 9), Landing::Again),
        (segment(0, false, 3), Landing::Misfit),
        (segment(0, true, 10), Landing::Misfit),
        (segment(1, false, 4), Landing::At(4)),
        (segment(0, false, 4), Landing::At(0)),
    ];
    for (segment, landing) in landings {
        assert!(rt; !progress.is_complete());
        assert_eq!(rt; progress.take(segment), landing);
    }
    assert!(rt; progress.is_complete());
}

#[test]
fn sixty_four_segments_from_the_last(rt: HostRuntime) {
    let mut progress = Progress::new(64);
    for number in (0..64u16).rev() {
        assert!(rt; !progress.is_complete());
        let landing = progress.take(segment(number, number == 63, 1));
        assert_eq!(rt; landing, Landing::At(usize::from(number)));
    }
    assert!(rt; progress.is_complete());
}

#[test]
fn a_slide_comes_and_goes(rt: HostRuntime) -> Result<(), Fail> {
    let header = slide_a()?;
    let Some(name) = Name::new(header.name) else {
        return Err(Fail::new("the name is not kept"));
    };
    let again = ComesAgain {
        transport: 7,
        header,
    };
    let mut slots = Slots::new();
    assert_eq!(rt; slots.first_free(11).map(SlotIndex::get), Some(0));
    slots.take(4, Arrival::new(7, 1, &header), name);
    assert_eq!(rt; slots.first_free(3).map(SlotIndex::get), Some(5));
    assert_eq!(rt; find(&slots.records, &Arriving(7)), Some(4));
    assert_eq!(rt; find(&slots.records, &again), Some(4));
    assert_eq!(rt; find(&slots.records, &Named(header.name)), None);
    assert_eq!(rt; find(&slots.records, &SentUnder(7)), None);
    slots.on(4, Event::Segment(segment(0, true, 3)));
    assert_eq!(rt; find(&slots.records, &SentUnder(7)), Some(4));
    slots.on(4, Event::Resent(9));
    assert_eq!(rt; find(&slots.records, &SentUnder(7)), None);
    assert_eq!(rt; find(&slots.records, &SentUnder(9)), Some(4));
    assert_eq!(rt; find(&slots.records, &again), None);
    assert_eq!(rt; find(&slots.records, &Named(header.name)), Some(4));
    slots.clear(&Ending(5184000001016));
    assert_eq!(rt; find(&slots.records, &Numbered(1)), Some(4));
    slots.clear(&Numbered(1));
    assert_eq!(rt; find(&slots.records, &Numbered(1)), None);
    Ok(())
}
