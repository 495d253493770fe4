//! Default conditions as formulas of a bank.
#![tactic(auto)]

mod defaults;
mod fields;
mod levels;
mod objects;

pub use defaults::default_said;
