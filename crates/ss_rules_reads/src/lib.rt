//! The instances of the rule on reads: what a read gives over a changed store, and over a store that equals another one.
#![tactic(auto)]

mod changes;
mod context;
mod new;
mod owners;
mod placed;
mod read;
mod same;

pub use read::read_rule;
