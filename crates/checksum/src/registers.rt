// The shift register of sixteen bits, from which a checksum is taken.
ghost use Rattle.std.specs.Prelude.{◌≡◌};
ghost use Rattle.checksum.specs.Registers.{bits_of, shifted};

// x^12 + x^5 + 1: the polynomial without its highest term, x^16.
const TAPS: u16 = 0x1021;

// The register moved on by a bit, 0 or 1; of a greater number its lowest bit.
pub fn shifted(register: u16, bit: u8) -> u16
    ensures { result ≡ shifted register bit }
{
    let feedback = (register / 0x8000 + u16::from(bit)) % 2;
    (register % 0x8000 * 2) ^ (feedback * TAPS)
}

// The bits of a byte, highest first, each 0 or 1.
pub fn bits(byte: u8) -> [u8; 8]
    ensures { result ≡ bits_of 8 byte }
{
    [
        byte / 128,
        byte / 64 % 2,
        byte / 32 % 2,
        byte / 16 % 2,
        byte / 8 % 2,
        byte / 4 % 2,
        byte / 2 % 2,
        byte % 2,
    ]
}
