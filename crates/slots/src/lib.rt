// Slots: what segments do to an arriving object, and the twelve records that hold the slides.
#![tactic(auto)]

pub mod bodies;
pub mod figures;
pub mod finds;
pub mod images;
pub mod indices;
pub mod moves;
pub mod progress;
pub mod questions;
pub mod records;
pub mod segments;
pub mod sought;
#[cfg(test)]
mod tests;
