// Racks. A rack is our word for a shelf that has room for twelve entries of its own: one for each slot.
#![tactic(auto)]

mod calls;
pub mod keeps;
pub mod racks;
pub mod sieves;
