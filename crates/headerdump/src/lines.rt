// What a line of the input says.
ghost use Rattle.std.specs.Prelude.{◌≡◌, vec_items};
ghost use Rattle.std.specs.Option.{option_map};
ghost use Rattle.headerdump.specs.Lines.{line_of, seen_line};

use crate::answers::NoHeader;
use header::kinds::Header;
use header::read_header;

// What a line says, if it spells bytes.
pub fn read_line<'a>(bytes: &'a Option<Vec<u8>>, slot_size: u32) -> Result<Header<'a>, NoHeader>
    ensures { seen_line result ≡ line_of (option_map vec_items bytes.now) slot_size }
{
    let bytes = bytes.as_ref().ok_or(NoHeader::NoBytes)?;
    read_header(bytes.as_slice(), slot_size).map_err(NoHeader::Refused)
}
