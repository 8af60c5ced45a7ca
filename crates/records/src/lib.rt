// Trace records: read from bytes, sent as calls, told as lines.
#![tactic(auto)]

pub mod cuts;
pub mod facts;
pub mod figures;
pub mod lines;
pub mod lists;
pub mod texts;
