// What headers, segments and data groups answer.
use refusal::Fault;

// The answer to a header or a segment, with the accession number of the slide that it is about. The refusal is one of its
// cases and no Err: a rule of the project, for an answer that holds its fault.
#[derive(Clone, Copy)]
pub enum Answer {
    // a header began an object, or a segment was taken into one
    Taken(u32),
    // a header or a segment that had come before
    Repeat(u32),
    // the object is complete: its slide is held, and its trigger waits or it has none
    Filed(u32),
    // a trigger took effect in this call
    Shown(u32),
    // a trigger lies below the clock and never takes effect
    Late(u32),
    // an update or a changed header changed a slide, and its trigger waits or it has none
    Changed(u32),
    // nothing changed
    Refused(Fault),
}

// The answer to a data group.
#[derive(Clone, Copy)]
pub enum GroupAnswer {
    // that of the header or the segment call that it asked for, or the group's own refusal
    Answered(Answer),
    // the group asked for none: nothing changed
    PassedOver,
}
