// The receiver: headers, segments and time fields come in, slides go to a display.
#![tactic(auto)]

mod arrivals;
mod categories;
mod choices;
mod clocks;
mod faults;
mod filings;
mod headers;
mod images;
mod objects;
mod openings;
mod parts;
pub mod phases;
mod questions;
pub mod receivers;
mod resent;
mod segments;
mod settings;
mod sieves;
mod times;
mod triggers;
mod updates;
mod vacates;
mod verdicts;
