// Tests of the time field and of days: lengths, each part at its limit and one past it.
use crate::times::Time;
use crate::{join, read_time, split};
use std::test::Fail;

// Long fields with the moment each names, or 0 where it is refused.
const LONG: [([u8; 6], u64); 11] = [
    ([0xBA, 0x98, 0x0D, 0xFB, 0xEF, 0xE7], 5184086399999),
    ([0xBA, 0x98, 0x0E, 0x00, 0x00, 0x00], 0),
    ([0xBA, 0x98, 0x08, 0x3C, 0x00, 0x00], 0),
    ([0xBA, 0x98, 0x08, 0x00, 0xF0, 0x00], 0),
    ([0xBA, 0x98, 0x08, 0x00, 0x03, 0xE8], 0),
    ([0x80, 0x00, 0x08, 0x00, 0x00, 0x00], 0),
    ([0x80, 0x00, 0x08, 0x00, 0x00, 0x01], 1),
    ([0xFF, 0xFF, 0xCD, 0xFB, 0xEF, 0xE7], 11324620799999),
    ([0xFF, 0xFF, 0xCF, 0xFF, 0xFF, 0xFF], 0),
    ([0xBA, 0x98, 0x38, 0x00, 0x04, 0x10], 5184000001016),
    ([0xBA, 0x98, 0x00, 0x00, 0x04, 0x10], 0),
];

// The same of short ones.
const SHORT: [([u8; 4], u64); 8] = [
    ([0xBA, 0x98, 0x05, 0xFB], 5184086340000),
    ([0xBA, 0x98, 0x06, 0x00], 0),
    ([0xBA, 0x98, 0x00, 0x3C], 0),
    ([0x80, 0x00, 0x00, 0x00], 0),
    ([0x80, 0x00, 0x00, 0x01], 60000),
    ([0xFF, 0xFF, 0xC5, 0xFB], 11324620740000),
    ([0xBA, 0x98, 0x30, 0x42], 5184003720000),
    ([0xBA, 0x98, 0x08, 0x42], 0),
];

fn moment_or_0(bytes: &[u8]) -> u64 {
    match read_time(bytes) {
        Ok(Time::At(moment)) => moment,
        _ => 0,
    }
}

#[test]
fn each_part_has_its_limit(rt: HostRuntime) {
    for (bytes, moment) in LONG.iter() {
        assert_eq!(rt; moment_or_0(bytes), *moment);
    }
    for (bytes, moment) in SHORT.iter() {
        assert_eq!(rt; moment_or_0(bytes), *moment);
    }
}

#[test]
fn only_four_or_six_bytes_are_read(rt: HostRuntime) {
    let set = [0xBA, 0x98, 0x08, 0x00, 0x04, 0x10, 0x00, 0x00];
    let unset = [0x3A, 0x98, 0x08, 0x00, 0x04, 0x10, 0x00, 0x00];
    for n in 0..9usize {
        let at = read_time(&set[0..n]);
        let none = read_time(&unset[0..n]);
        assert_eq!(rt; at == Ok(Time::At(5_184_000_001_016)), n == 6);
        assert_eq!(rt; at.is_ok(), n == 6);
        assert_eq!(rt; none == Ok(Time::Now), n == 4 || n == 6);
        assert_eq!(rt; none.is_ok(), n == 4 || n == 6);
    }
    assert_eq!(rt; read_time(&[]).is_err(), true);
}

#[test]
fn a_refusal_says_number_layer_and_place(rt: HostRuntime) -> Result<(), Fail> {
    match read_time(&[0xBA]) {
        Ok(_) => Err(Fail::new("not refused")),
        Err(fault) => {
            assert_eq!(rt; fault.number(), 10);
            assert_eq!(rt; fault.layer.number(), 1);
            assert_eq!(rt; fault.place, 0);
            Ok(())
        }
    }
}

#[test]
fn days_split_and_join(rt: HostRuntime) {
    assert_eq!(rt; split(5_184_000_001_016), (60_000, 1016));
    assert_eq!(rt; split(0), (0, 0));
    assert_eq!(rt; join(60_000, 1016), Some(5_184_000_001_016));
    assert_eq!(rt; join(131_071, 86_399_999), Some(11_324_620_799_999));
    assert_eq!(rt; join(0, 86_400_000), None);
    assert_eq!(rt; join(u64::MAX, 0), None);
}
