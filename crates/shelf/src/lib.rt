// Shelves. A shelf is our word for a list of entries ascending by key, equal keys in order of arrival,
// kept at the front of lent entries: a slice, and how many of its entries are used.
// Where more are said to be used than there are, the list is the whole slice.
// Slice and count are two arguments: a struct over the lent slice would be made anew for each call of a rack, and be no plainer.
#![tactic(auto)]

pub(crate) mod changes;
pub mod entries;
pub(crate) mod kinds;
pub(crate) mod questions;
pub(crate) mod walks;

pub use changes::{insert, remove, take_first};
pub use kinds::{is_further, is_later};
pub use questions::{count, count_to, find, first_above};

#[cfg(test)]
mod tests;
