//! Which terms of a bank are equal by congruence, where merges can be taken back.
#![tactic(auto)]

mod classes;
mod closing;
mod congruence;
mod reasons;
mod signatures;

pub use congruence::Congruence;
pub use ss_equality_rules::Merge;
