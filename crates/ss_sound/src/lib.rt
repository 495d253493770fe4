//! Verification of a core program: each obligation is given a derivation, a model that refutes it, or the budget that ran out.
#![tactic(auto)]

mod decision;
mod verdict;

pub use ss_search::Verdict;
pub use verdict::verify;
