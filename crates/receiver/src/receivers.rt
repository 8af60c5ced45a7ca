// The receiver, and what a setting of its clock gives.

use crate::parts::Parts;
use crate::phases::{Running, Unset};
use refusal::Fault;

// A receiver over a display. Its phase, Unset or Running, says whether the clock was set: one that is unset can be set and
// not read, one that runs can be read and not set.
#[derive(Drop)]
pub struct Receiver<D, P> {
    pub(crate) parts: Parts,
    pub(crate) display: D,
    pub(crate) phase: P,
}

// A receiver whose clock was just set, and how many shows that took.
#[derive(Drop)]
pub struct Started<D> {
    pub receiver: Receiver<D, Running>,
    pub shows: usize,
}

// A receiver whose setting was refused, as it was, and why.
#[derive(Drop)]
pub struct Unmoved<D> {
    pub receiver: Receiver<D, Unset>,
    pub fault: Fault,
}
