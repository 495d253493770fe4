//! The search for a derivation of an obligation, or for a model that refutes its ground form. A derivation is answered only where it derives the
//! obligation, and that a budget isn't enough only where it isn't.
#![tactic(auto)]

mod refuting;
mod search;

pub use search::{Search, prove};
pub use ss_search_answers::{Budget, Countered, Countermodel, Found, Options, Undecided, Verdict};
