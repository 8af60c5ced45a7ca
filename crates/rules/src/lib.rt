// The receiver's rules as definitions, and the laws of whole runs proved of them.
#![tactic(auto)]

pub mod answers;
pub mod laws;
pub mod samples;
