//! The instances of all rules, that on invariants among them, over the bank of terms and formulas over stores.
#![tactic(auto)]

mod good;
mod instances;
mod rules;

pub use good::good_instance;
pub use instances::invariants;
pub use rules::instance;
