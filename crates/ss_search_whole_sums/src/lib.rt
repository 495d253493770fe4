//! Lines of a derivation that close a case where known literals and equalities of whole numbers of one class contradict each other by sums.
#![tactic(auto)]

mod contradicting;
mod summing;
mod whole_sums;

pub use whole_sums::close_whole_sums;
