//! Known facts that contradict each other by weighted sums. The definitions stand in `specs/`; here are the laws.
#![tactic(auto)]

mod laws;

pub use laws::{cancelling_differences_contradict, met_differences_never_contradict};
