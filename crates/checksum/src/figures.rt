// The check value of this checksum, proved from the definition.
ghost use Rattle.std.specs.Prelude.{◌≡◌, [], ◌∷◌};
ghost use Rattle.checksum.specs.Registers.{checksum_of};

use crate::checksum;

// The checksum of the nine characters 1 to 9.
pub fn check_value() -> u16
    ensures figure { checksum_of (0x31 ∷ 0x32 ∷ 0x33 ∷ 0x34 ∷ 0x35 ∷ 0x36 ∷ 0x37 ∷ 0x38 ∷ 0x39 ∷ []) ≡ 0xD64E }
    ensures answer { result ≡ 0xD64E }
{
    checksum(b"123456789")
}
