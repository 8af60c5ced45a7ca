// The checksum that stands behind a data group.
#![tactic(auto)]

ghost use Rattle.std.specs.Prelude.{◌≡◌, ◌-◌};
ghost use Rattle.checksum.specs.Divisions.{Leaves};
ghost use Rattle.checksum.specs.Registers.{bits, register, checksum_of};

pub mod figures;
pub mod registers;

use registers::{bits, shifted};

// The register after some bytes, from all ones.
fn filled(bytes: &[u8]) -> u16
    ensures { result ≡ register 65535 (bits bytes.now) }
{
    let mut register = 0xFFFF;
    for byte in bytes {
        for bit in bits(*byte) {
            register = shifted(register, bit);
        }
    }
    register
}

// The checksum of some bytes, of any number: 16 bits.
#[tactic(auto, using(crate::proofs::Divided::divided))]
pub fn checksum(bytes: &[u8]) -> u16
    ensures value { result ≡ checksum_of bytes.now }
    ensures division { Leaves (bits bytes.now) (65535 - result) }
{
    0xFFFF - filled(bytes)
}

#[cfg(test)]
mod tests {
    use super::*;

    // Worked out by another program.
    #[test]
    fn known_checksums(rt: HostRuntime) {
        assert_eq!(rt; checksum(b"123456789"), 0xD64E);
        assert_eq!(rt; checksum(&[]), 0x0000);
        assert_eq!(rt; checksum(&[0]), 0x1E0F);
    }
}
