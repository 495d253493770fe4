//! Sums of inequalities of whole numbers that come to a contradiction.
#![tactic(auto)]

mod equations;
mod rows;
mod told;

pub use rows::{NONE, Part, Rows, Source};
