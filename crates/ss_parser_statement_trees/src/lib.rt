//! Trees of statements from their parts, and the tokens that a statement and its parts begin with.
#![tactic(auto)]

pub mod build;
pub mod heads;
