// The parameter reader: the first parameter of some bytes, its data a part of them.
ghost use Rattle.std.specs.Prelude.{◌≡◌, ◌<◌};
ghost use Rattle.header.specs.Params.{long_extent, extent_of, first_of, seen_first};

use crate::marks::marked_length;
use crate::parts::Parameter;

// Behind mark 3: a flag bit, then the length in 7 or in 15 bits.
fn long_extent(bytes: &[u8]) -> Option<(usize, usize)>
    ensures { result ≡ long_extent bytes.now }
{
    match bytes {
        [n, ..] if *n < 128 => Some((2, usize::from(*n))),
        [n, m, ..] => Some((3, usize::from(*n) % 128 * 256 + usize::from(*m))),
        _ => None,
    }
}

// Where the data of the first parameter begins, and how long it is.
fn extent(bytes: &[u8]) -> Option<(usize, usize)>
    ensures { result ≡ extent_of bytes.now }
{
    let (head, behind) = bytes.split_first()?;
    match marked_length(*head / 64) {
        Some(size) => Some((1, size)),
        None => long_extent(behind),
    }
}

// The first parameter, or none where it runs past the end.
pub fn first<'a>(bytes: &'a [u8]) -> Option<Parameter<'a>>
    ensures { seen_first result ≡ first_of bytes.now }
{
    let (start, size) = extent(bytes)?;
    let (_, behind) = bytes.split_at_checked(start)?;
    let (held, rest) = behind.split_at_checked(size)?;
    Some(Parameter {
        id: bytes[0] % 64,
        bytes: held,
        rest,
    })
}
