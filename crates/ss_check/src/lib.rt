//! The checker of derivations over stores.
#![tactic(auto)]

mod choices;
mod context;
mod delayed;
mod facts;
mod instances;
mod steps;
mod sums;
mod told;

pub use steps::{CheckStop, check};
