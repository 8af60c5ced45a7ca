// Hexadecimal text: its lines, bytes written as pairs of digits, and a dash for a value that is not given.
// The kit's `hex` takes no blanks between pairs.
#![tactic(auto)]

ghost use Rattle.std.specs.Prelude.{◌≡◌, ◌<◌, IfSome, IfOk, vec_items};
ghost use Rattle.std.specs.Option.{option_map};
ghost use Rattle.hexpairs.specs.Text.{digit_of, blank, byte_of, bytes_of};

pub mod dashes;
pub mod lines;

use std::alloc::{AllocError, Global};

// The value of a hexadecimal digit in either case, or none.
fn digit(c: u8) -> Option<u8>
    ensures value { result ≡ digit_of c }
    ensures bound { IfSome result (λ d. d < 16) }
{
    Some(char::from(c).to_digit(16)? as u8)
}

// The byte of two digits, the upper half first.
fn byte(high: u8, low: u8) -> Option<u8>
    ensures { result ≡ byte_of high low }
{
    Some(digit(high)? * 16 + digit(low)?)
}

fn is_blank(c: u8) -> bool
    ensures { result ≡ blank c }
{
    c == b' ' || c == b'\t' || c == b'\r'
}

// The bytes that a text spells in pairs of hexadecimal digits; blanks may stand around a pair. None for any other text.
pub fn hex_bytes(heap: Global, text: &[u8]) -> Result<Option<Vec<u8>>, AllocError>
    ensures { IfOk result (λ o. option_map vec_items o ≡ bytes_of text.now) }
{
    let mut bytes = Vec::new(heap);
    let mut left = text;
    while let [first, behind @ ..] = left {
        if is_blank(*first) {
            left = behind;
        } else {
            let [second, rest @ ..] = behind else {
                return Ok(None);
            };
            let Some(b) = byte(*first, *second) else {
                return Ok(None);
            };
            bytes.push(b)?;
            left = rest;
        }
    }
    Ok(Some(bytes))
}

#[cfg(test)]
mod tests {
    use super::*;
    use std::process::Abort;
    use std::test::Fail;

    // What a text spells, or nothing.
    fn spelled(rt: &impl Abort, heap: Global, text: &[u8], bytes: &[u8]) -> Result<(), Fail> {
        match hex_bytes(heap, text)? {
            Some(v) => {
                assert!(rt; v.as_slice() == bytes);
                Ok(())
            },
            None => Err(Fail::new("no hexadecimal text")),
        }
    }

    #[test]
    fn texts(rt: HostRuntime) -> Result<(), Fail> {
        let heap = rt.alloc();
        spelled(&rt, heap, b"", b"")?;
        spelled(&rt, heap, b" \t\r", b"")?;
        spelled(&rt, heap, b"00ff 7F\t0aA0\r", &[0, 255, 127, 10, 160])?;
        let refused: [&[u8]; 6] = [b"0", b"00 1", b"0 0", b"0g", b"00,11", b"0x00"];
        for text in refused {
            assert!(rt; hex_bytes(heap, text)?.is_none());
        }
        Ok(())
    }
}
