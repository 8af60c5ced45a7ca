// Replay: a list of calls is sent to a fresh receiver, and the laws of whole runs stand on it.
#![tactic(auto)]

pub mod ended;
pub mod figures;
pub mod replays;
mod steps;
pub mod tapes;
