// The fields of a data group, each behind the one before.
ghost use Rattle.std.specs.Prelude.{◌≡◌};
ghost use Rattle.std.specs.Option.{option_map};
ghost use Rattle.datagroup.specs.Fields.{behind_extension, segment_field, access_field, sized, fields_of, seen_fields};
ghost use Rattle.datagroup.specs.Groups.{as_header, as_segment, seen, seen_group};

use crate::groups::Group;
use crate::sums::refused;
use refusal::Fault;
use refusal::causes::Cause;

// What the fields of a group of type 3 or 4 say.
#[derive(Clone, Copy)]
pub struct Fields<'a> {
    pub last: bool,
    pub number: u16,
    pub transport: u16,
    pub segment: &'a [u8],
}

impl<'a> Fields<'a> {
    // The header call that they ask: a header comes whole, in segment 0, which is the last. Else refused with 22.
    pub fn header(self) -> Result<Group<'a>, Fault>
        ensures { seen result ≡ as_header (seen_fields self.entry) }
    {
        if !self.last || self.number != 0 {
            return Err(refused(Cause::HeaderInParts));
        }
        Ok(Group::Header {
            transport: self.transport,
            bytes: self.segment,
        })
    }

    // The segment call that they ask.
    pub fn segment(self) -> Group<'a>
        ensures { seen_group result ≡ as_segment (seen_fields self.entry) }
    {
        Group::Segment {
            transport: self.transport,
            number: self.number,
            last: self.last,
            bytes: self.segment,
        }
    }
}

// What stands behind an extension field, where one is flagged; none where that is cut.
pub fn behind_extension(flagged: bool, bytes: &[u8]) -> Option<&[u8]>
    ensures { option_map (λ x. x.now) result ≡ behind_extension flagged bytes.now }
{
    match bytes {
        _ if !flagged => Some(bytes),
        [_, _, rest @ ..] => Some(rest),
        _ => None,
    }
}

// The last flag and the number in a flagged segment field, and what stands behind it.
pub fn segment_field(flagged: bool, bytes: &[u8]) -> Option<(bool, u16, &[u8])>
    ensures { option_map (λ x. (x.0, x.1, x.2.now)) result ≡ segment_field flagged bytes.now }
{
    match bytes {
        [c, d, rest @ ..] if flagged => {
            let word = u16::from_be_bytes([*c, *d]);
            Some((word / 0x8000 == 1, word % 0x8000, rest))
        }
        _ => None,
    }
}

// The TransportId in a flagged user access field, and what stands behind that field.
pub fn access_field(flagged: bool, bytes: &[u8]) -> Option<(u16, &[u8])>
    ensures { option_map (λ x. (x.0, x.1.now)) result ≡ access_field flagged bytes.now }
{
    let (head, behind) = bytes.split_first()?;
    let (address, rest) = behind.split_at_checked(usize::from(*head % 16))?;
    match address {
        [s, t, ..] if flagged && *head / 16 % 2 == 1 => {
            Some((u16::from_be_bytes([*s, *t]), rest))
        }
        _ => None,
    }
}

// The segment behind a repetition count and a segment size, where it has that size.
pub fn sized(bytes: &[u8]) -> Option<&[u8]>
    ensures { option_map (λ x. x.now) result ≡ sized bytes.now }
{
    match bytes {
        [r, s, rest @ ..] if usize::from(*r % 32) * 256 + usize::from(*s) == rest.len() => {
            Some(rest)
        }
        _ => None,
    }
}

// The fields behind the two head bytes, of which the first is given; none where one is missing.
pub fn read_fields(head: u8, bytes: &[u8]) -> Option<Fields<'_>>
    ensures { option_map seen_fields result ≡ fields_of head bytes.now }
{
    let behind = behind_extension(head / 128 % 2 == 1, bytes)?;
    let (last, number, behind) = segment_field(head / 32 % 2 == 1, behind)?;
    let (transport, behind) = access_field(head / 16 % 2 == 1, behind)?;
    let segment = sized(behind)?;
    Some(Fields {
        last,
        number,
        transport,
        segment,
    })
}
