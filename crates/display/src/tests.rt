// Tests of the displays at the edges of their bounds.
use crate::Display;
use crate::cards::CardNumbers;
use crate::edges::Edge;
use crate::films::Film;
use crate::lags::Lag;
use crate::layers::Shift;
use crate::panels::Panel;
use crate::settings::{Delay, Period};
use crate::tapes::{Taped, show_on_tape};
use crate::unmoved::show_or_leave;
use refusal::Fault;
use refusal::causes::{Cause, Layer};
use std::alloc::{AllocError, Global};
use std::test::Fail;

const LAST: u64 = 17_592_186_044_415;

fn zeros(heap: Global, n: usize) -> Result<Vec<u8>, AllocError> {
    vec![in heap; 0u8; n]
}

// Refused with 2 by the display layer, at place 0.
fn refused(answer: Result<(), Fault>) -> bool {
    answer
        == Err(Fault {
            cause: Cause::ShowOutOfBounds,
            layer: Layer::Display,
            place: 0,
        })
}

#[test]
fn settings_have_their_range(rt: HostRuntime) {
    for (value, period, delay) in [
        (0u64, false, true),
        (1, true, true),
        (1000, true, true),
        (1001, false, false),
        (u64::MAX, false, false),
    ] {
        assert_eq!(rt; Period::new(value).is_ok(), period);
        assert_eq!(rt; Delay::new(value).is_ok(), delay);
    }
}

// What a display answers to the shows that it must refuse: nothing in the body, one byte too many, number 0, and a
// moment one past its bound.
fn refusals<D: Display>(display: &mut D, body: &[u8]) -> [bool; 4] {
    let past = LAST - display.lag() + 1;
    [
        refused(display.show(8, 1, b"")),
        refused(display.show(8, 1, body)),
        refused(display.show(0, 1, b"x")),
        refused(display.show(8, past, b"x")),
    ]
}

#[test]
fn panel_takes_up_to_its_frame(rt: HostRuntime) -> Result<(), Fail> {
    let heap = rt.alloc();
    let empty = Panel::new(zeros(heap, 0)?);
    let mut large = Panel::new(zeros(heap, 70_000)?);
    assert_eq!(rt; [empty.frame(), large.frame()], [0, 65_536]);
    let body = zeros(heap, 65_537)?;
    assert!(rt; body.len() == 65_537);
    assert_eq!(rt; refusals(&mut large, body.as_slice()), [true; 4]);
    assert!(rt; large.show(1, 5, &body.as_slice()[0..65_536]).is_ok());
    assert_eq!(rt; [large.byte(65_535), large.byte(65_536)], [Some(0), None]);
    Ok(())
}

#[test]
fn refused_show_leaves_the_card(rt: HostRuntime) -> Result<(), Fail> {
    let mut panel = Panel::new(zeros(rt.alloc(), 3)?);
    assert!(rt; panel.show(7, LAST, b"abc").is_ok());
    assert_eq!(rt; refusals(&mut panel, b"abcd"), [true; 4]);
    let card = CardNumbers {
        accession: 7,
        since: LAST,
        length: 3,
    };
    assert_eq!(rt; panel.card(), Some(card));
    assert_eq!(rt;
        [panel.byte(0), panel.byte(2), panel.byte(3)],
        [Some(b'a'), Some(b'c'), None]
    );
    assert_eq!(rt;
        [panel.settle(LAST), panel.settle(LAST + 1)],
        [Some(LAST), None]
    );
    Ok(())
}

#[test]
fn short_tapes(rt: HostRuntime) -> Result<(), Fail> {
    for (length, frame) in [
        (0usize, 0u32),
        (11, 0),
        (12, 0),
        (13, 1),
        (65_548, 65_536),
        (65_549, 65_536),
    ] {
        let mut film = Film::new(zeros(rt.alloc(), length)?);
        assert_eq!(rt; film.frame(), frame);
        let answers = [
            film.card().is_some(),
            film.show(1, 1, b"ab").is_ok(),
            film.show(1, 1, b"a").is_ok(),
            film.card().is_some(),
        ];
        assert_eq!(rt; answers, [false, frame > 1, frame > 0, frame > 0]);
    }
    Ok(())
}

#[test]
fn tape_wraps_past_its_end(rt: HostRuntime) -> Result<(), Fail> {
    // 12 + 3 bytes, then 12 + 2 that end on the last byte
    let mut film = Film::new(zeros(rt.alloc(), 29)?);
    assert!(rt; film.show(0x0102_0304, 0x5_6789_ABCD, b"abc").is_ok());
    assert!(rt; film.show(2, 6, b"de").is_ok());
    assert_eq!(rt;
        film.tape(),
        b"\x01\x02\x03\x04\x00\x56\x78\x9A\xBC\xD0\x00\x03abc\x00\x00\x00\x02\x00\x00\x00\x00\x00\x60\x00\x02de".as_slice()
    );
    // one byte past the end goes to the start, and so does the next
    assert!(rt; film.show(3, 7, b"fgh").is_ok() && film.show(4, 8, b"ijk").is_ok());
    assert_eq!(rt;
        film.tape(),
        b"\x00\x00\x00\x04\x00\x00\x00\x00\x00\x80\x00\x03ijk\x00\x00\x00\x02\x00\x00\x00\x00\x00\x60\x00\x02de".as_slice()
    );
    assert_eq!(rt; [film.byte(0), film.byte(3)], [Some(b'i'), None]);
    Ok(())
}

#[test]
fn order_of_layers(rt: HostRuntime) -> Result<(), Fail> {
    let heap = rt.alloc();
    let p = Period::new(16)?;
    let d = Delay::new(10)?;
    let mut a = Lag::new(Edge::new(Panel::new(zeros(heap, 4)?), p), d);
    let b = Edge::new(Lag::new(Film::new(zeros(heap, 16)?), d), p);
    assert_eq!(rt;
        [
            a.settle(1000),
            b.settle(1000),
            a.settle(LAST - 25),
            a.settle(LAST - 24),
        ],
        [Some(1024), Some(1018), Some(LAST - 15), None]
    );
    assert_eq!(rt; refusals(&mut a, b"abcde"), [true; 4]);
    assert!(rt; a.show(1, 1000, b"x").is_ok());
    let card = CardNumbers {
        accession: 1,
        since: 1024,
        length: 1,
    };
    assert_eq!(rt; a.card(), Some(card));
    Ok(())
}

#[test]
fn film_below_layers(rt: HostRuntime) -> Result<(), Fail> {
    let film = Film::new(zeros(rt.alloc(), 15)?);
    let mut glass = Lag::new(Edge::new(film, Period::new(16)?), Delay::new(10)?);
    assert!(rt; show_on_tape(&mut glass, 1, 1000, b"abc").is_ok());
    assert!(rt; show_or_leave(&mut glass, 2, LAST - 24, b"x").is_err());
    assert_eq!(rt; glass.below().below().byte(2), Some(b'c'));
    assert_eq!(rt;
        glass.into_film().tape(),
        b"\x00\x00\x00\x01\x00\x00\x00\x00\x40\x00\x00\x03abc".as_slice()
    );
    Ok(())
}

#[test]
fn moments_put_off_past_64_bits(rt: HostRuntime) -> Result<(), Fail> {
    let p = Period::new(10)?;
    let d = Delay::new(1)?;
    assert_eq!(rt;
        [p.later(0, u64::MAX - 5), p.later(0, u64::MAX - 4)],
        [Some(u64::MAX - 5), None]
    );
    assert_eq!(rt;
        [d.later(0, u64::MAX - 1), d.later(0, u64::MAX)],
        [Some(u64::MAX), None]
    );
    Ok(())
}

// Five layers more.
fn five<D: Display>(display: D, d: Delay) -> Lag<Lag<Lag<Lag<Lag<D>>>>> {
    Lag::new(
        Lag::new(Lag::new(Lag::new(Lag::new(display, d), d), d), d),
        d,
    )
}

#[test]
fn lag_stays_within_ten_thousand(rt: HostRuntime) -> Result<(), Fail> {
    let d = Delay::new(1000)?;
    let full = five(five(Panel::new(zeros(rt.alloc(), 1)?), d), d);
    assert_eq!(rt; full.lag(), 10_000);
    let edge = Edge::new(Lag::new(full, Delay::new(1)?), Period::new(2)?);
    assert_eq!(rt; (edge.lag(), edge.settle(5)), (10_000, Some(10_005)));
    Ok(())
}
