// Groups made by another program, and what is read of them.
use crate::groups::Group;
use crate::read_group;
use std::test::Fail;

// A segment of three bytes with every part that is not read: indices, an extension, unused bits, an address of four bytes, a
// repetition count.
const SEGMENT: [u8; 18] = [
    0xF4, 0x5A, 0xAA, 0xBB, 0x80, 0x00, 0xB4, 0x00, 0x07, 0x01, 0x02, 0x60, 0x03, 0x61, 0x62, 0x63,
    0xC2, 0x30,
];

// The number of the refusal, or 0.
fn number(bytes: &[u8]) -> u8 {
    match read_group(bytes) {
        Ok(_) => 0,
        Err(fault) => fault.number(),
    }
}

#[test]
fn parts_that_are_not_read_are_stepped_over(rt: HostRuntime) -> Result<(), Fail> {
    match read_group(&SEGMENT) {
        Ok(
            Group::Segment {
                transport,
                number,
                last,
                bytes,
            },
        ) => {
            assert_eq!(rt; (transport, number, last), (7, 0, true));
            assert_eq!(rt; bytes, b"abc".as_slice());
            Ok(())
        }
        _ => Err(Fail::new("no segment")),
    }
}

#[test]
fn groups_are_refused_by_number(rt: HostRuntime) {
    // bytes 0 and 1, or a flagged checksum, missing; a wrong checksum; another type with a right one
    assert_eq!(rt; number(&[]), 20);
    assert_eq!(rt; number(&[0x40, 0, 0]), 20);
    assert_eq!(rt; number(&[0x40, 0, 0, 0]), 21);
    assert_eq!(rt; number(&[0x45, 0, 0x10, 0xC9]), 0);
    // no fields; a header in segment 0 that is not the last; the same as the last
    assert_eq!(rt; number(&[0x03, 0]), 20);
    assert_eq!(rt; number(&[0x33, 0, 0, 0, 0x12, 0, 7, 0, 0]), 22);
    assert_eq!(rt; number(&[0x33, 0, 0x80, 0, 0x12, 0, 7, 0, 0]), 0);
    // no TransportId flag; an address of one byte
    assert_eq!(rt; number(&[0x33, 0, 0x80, 0, 0x02, 0, 7, 0, 0]), 20);
    assert_eq!(rt; number(&[0x33, 0, 0x80, 0, 0x11, 0, 0, 0]), 20);
}
