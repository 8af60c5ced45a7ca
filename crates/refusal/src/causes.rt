// The causes of a refusal and the layers that refuse, one variant for each row of the table.

// Why a call was refused. The discriminant is the number by which a buyer knows the cause.
#[derive(Clone, Copy, PartialEq, Eq, Debug)]
pub enum Cause {
    // a period or a delay that is out of range
    SettingOutOfRange = 1,
    // a show with an empty or too long body, accession 0 or a moment above the display's bound
    ShowOutOfBounds = 2,
    // body memory that is not twelve slots long
    BodyMemoryMisfit = 3,
    // a header of under seven bytes
    HeaderCut = 4,
    // a header whose stated size is not that of the bytes given
    HeaderSizeDiffers = 5,
    // a content type that is neither an image nor an update
    NeitherImageNorUpdate = 6,
    // an image of body size 0 or above the slot size, an update with a body
    BodySizeMisfit = 7,
    // a parameter that runs past the header's end
    ParameterPastEnd = 8,
    // a known parameter that was there before
    ParameterAgain = 9,
    // a parameter with a wrong data length, or a time field that names no moment
    ParameterMalformed = 10,
    // a header without a name
    NameMissing = 11,
    // an update with neither trigger time nor category
    UpdateWithoutEffect = 12,
    // an image that expires now or not above the clock
    ExpiryNotAhead = 13,
    // an update or a question for a slide that is not held
    SlideNotHeld = 14,
    // no slot to use, or all accession numbers given
    NoSlotToUse = 15,
    // a segment for an object that is not arriving
    NotArriving = 16,
    // a segment that does not fit its object
    SegmentMisfit = 17,
    // a reading below the clock
    ReadingBelowClock = 18,
    // a trace record of no known form
    RecordMalformed = 19,
    // a data group with a part missing, or with more or less behind its segment size than that says
    GroupMalformed = 20,
    // a data group whose checksum is not that of the bytes before it
    ChecksumDiffers = 21,
    // a data group with a header that is not segment 0 and last
    HeaderInParts = 22,
}

// Which layer refused, lowest layer first. The discriminant is the layer's number.
#[derive(Clone, Copy, PartialEq, Eq, Debug)]
pub enum Layer {
    TimeField = 1,
    Header = 2,
    Assembly = 3,
    Receiver = 4,
    Display = 5,
    Trace = 6,
    DataGroup = 7,
}
