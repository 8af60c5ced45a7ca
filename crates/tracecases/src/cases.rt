// One case off the front of a list of cases.
ghost use Rattle.std.specs.Prelude.{◌≡◌};
ghost use Rattle.tracecases.specs.Cases.{name_in, trace_in, first_case, seen_parts, seen_case};

// A trace and its name.
#[derive(Clone, Copy)]
pub struct Case<'a> {
    pub name: &'a [u8],
    pub trace: &'a [u8],
}

// A name behind its length of one byte, and the bytes behind it.
fn read_name<'a>(bytes: &'a [u8]) -> Option<(&'a [u8], &'a [u8])>
    ensures { seen_parts result ≡ name_in bytes.now }
{
    let (size, rest) = bytes.split_first()?;
    rest.split_at_checked(usize::from(*size))
}

// A trace behind its length of two bytes, and the bytes behind it.
fn read_trace<'a>(bytes: &'a [u8]) -> Option<(&'a [u8], &'a [u8])>
    ensures { seen_parts result ≡ trace_in bytes.now }
{
    let (size, rest) = bytes.split_first_chunk::<2>()?;
    rest.split_at_checked(usize::from(u16::from_be_bytes(*size)))
}

// The first case and the bytes behind it; none where it runs past the end.
pub fn read_case<'a>(bytes: &'a [u8]) -> Option<(Case<'a>, &'a [u8])>
    ensures { seen_case result ≡ first_case bytes.now }
{
    let (name, behind) = read_name(bytes)?;
    let (trace, rest) = read_trace(behind)?;
    Some((Case { name, trace }, rest))
}
