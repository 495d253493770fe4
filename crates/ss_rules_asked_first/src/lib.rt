//! The instances that are asked for first in a round: those of the rules on good stores, on invariants and on whole numbers.
#![tactic(auto)]

mod first;
mod gathered;
mod goods;
mod names;
mod near;
mod owners;
mod parts;

pub use first::asked_first;
