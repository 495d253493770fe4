//! Candidates for models of ground formulas, by congruence and cases without instances. Nothing trusts them: whether one is a model is
//! checked elsewhere.
#![tactic(auto)]

mod candidate;
mod numbers;
mod ranges;

pub use candidate::{Candidate, find_candidate};
