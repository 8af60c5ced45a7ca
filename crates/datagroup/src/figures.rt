// Worked examples of data groups, proved from the definitions.
ghost use Rattle.std.specs.Prelude.{◌≡◌, [], ◌∷◌, true, Ok};
ghost use Rattle.datagroup.specs.Examples.{header_bytes, segment_bytes, slide_header};
ghost use Rattle.datagroup.specs.Groups.{header, segment, group_of, seen};

use crate::groups::Group;
use crate::read_group;
use refusal::Fault;

// A header under TransportId 7, with a checksum.
#[tactic(auto, unfolding(crate::specs::Groups::group_of))]
pub fn header_group() -> Result<Group<'static>, Fault>
    ensures figure { group_of header_bytes ≡ Ok (header 7 slide_header) }
    ensures answer { seen result ≡ Ok (header 7 slide_header) }
{
    read_group(
        b"\x73\x00\x80\x00\x12\x00\x07\x00\x13\x00\x00\x00\x30\x09\x84\x01\xCC\x02\x00\x41\xC5\x06\xBA\x98\x08\x00\x04\x10\xA7\x84",
    )
}

// Its one segment, the bytes `abc`, with a checksum.
#[tactic(auto, unfolding(crate::specs::Groups::group_of))]
pub fn segment_group() -> Result<Group<'static>, Fault>
    ensures figure { group_of segment_bytes ≡ Ok (segment 7 0 true (0x61 ∷ 0x62 ∷ 0x63 ∷ [])) }
    ensures answer { seen result ≡ Ok (segment 7 0 true (0x61 ∷ 0x62 ∷ 0x63 ∷ [])) }
{
    read_group(b"\x74\x00\x80\x00\x12\x00\x07\x00\x03\x61\x62\x63\x6A\x0F")
}
