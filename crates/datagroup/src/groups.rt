// What a data group can ask.

// The call that a data group asks for.
#[derive(Clone, Copy)]
pub enum Group<'a> {
    // a header, under its TransportId
    Header {
        transport: u16,
        bytes: &'a [u8],
    },
    // a segment of an object
    Segment {
        transport: u16,
        number: u16,
        last: bool,
        bytes: &'a [u8],
    },
    // none: a group of another type
    Other,
}
