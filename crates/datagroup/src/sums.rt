// The checksum behind a data group, and how a group is refused.
ghost use Rattle.std.specs.Prelude.{◌≡◌};
ghost use Rattle.std.specs.Result.{result_map_both};
ghost use Rattle.datagroup.specs.Groups.{group_fault, unsummed, checked};

use checksum::checksum;
use refusal::Fault;
use refusal::causes::{Cause, Layer};

// A refusal of a data group, at place 0.
pub(crate) fn refused(cause: Cause) -> Fault
    ensures { result ≡ group_fault cause }
{
    Fault {
        cause,
        layer: Layer::DataGroup,
        place: 0,
    }
}

// The bytes before a checksum, which are two or more, where the last two are their checksum. Refused with 20 under four bytes,
// else with 21.
pub fn unsummed(bytes: &[u8]) -> Result<&[u8], Fault>
    ensures { result_map_both (λ x. x.now) (λ e. e) result ≡ unsummed bytes.now }
{
    match bytes {
        [_, _, .., high, low] => {
            let before = &bytes[..bytes.len() - 2];
            if u16::from_be_bytes([*high, *low]) == checksum(before) {
                Ok(before)
            } else {
                Err(refused(Cause::ChecksumDiffers))
            }
        }
        _ => Err(refused(Cause::GroupMalformed)),
    }
}

// The bytes before a checksum, where the first byte flags one. Refused with 20 and 21.
pub fn checked(bytes: &[u8]) -> Result<&[u8], Fault>
    ensures { result_map_both (λ x. x.now) (λ e. e) result ≡ checked bytes.now }
{
    match bytes {
        [head, ..] if *head / 64 % 2 == 1 => unsummed(bytes),
        _ => Ok(bytes),
    }
}
