// The refusals that a receiver answers with by itself; those of headers and time fields come from below. A constant may not call
// a function, so each is written out.
use refusal::Fault;
use refusal::causes::{Cause, Layer};

// Body memory is not twelve slots long.
pub(crate) const MEMORY_MISFIT: Fault = Fault {
    cause: Cause::BodyMemoryMisfit,
    layer: Layer::Receiver,
    place: 0,
};

// A reading is below the clock.
pub(crate) const BELOW_CLOCK: Fault = Fault {
    cause: Cause::ReadingBelowClock,
    layer: Layer::Receiver,
    place: 0,
};

// An image expires Now or not above the clock.
pub(crate) const EXPIRY_NOT_AHEAD: Fault = Fault {
    cause: Cause::ExpiryNotAhead,
    layer: Layer::Receiver,
    place: 0,
};

// No slot can be used, or all accession numbers are given.
pub(crate) const NO_SLOT_TO_USE: Fault = Fault {
    cause: Cause::NoSlotToUse,
    layer: Layer::Receiver,
    place: 0,
};

// An update or a question is for a slide that is not held.
pub(crate) const NOT_HELD: Fault = Fault {
    cause: Cause::SlideNotHeld,
    layer: Layer::Receiver,
    place: 0,
};

// A segment is for an object that is not arriving.
pub(crate) const NOT_ARRIVING: Fault = Fault {
    cause: Cause::NotArriving,
    layer: Layer::Assembly,
    place: 0,
};

// A segment does not fit its object.
pub(crate) const SEGMENT_MISFIT: Fault = Fault {
    cause: Cause::SegmentMisfit,
    layer: Layer::Assembly,
    place: 0,
};
