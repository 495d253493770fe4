//! What follows of known formulas without a split, with the lines that make it known, and lines that close the case in which one formula more is
//! known.
#![tactic(auto)]

mod basic;
mod branches;
mod closing;
mod guarded;
mod reaching;
mod spreading;
mod turns;

pub use basic::Refuting;
pub use closing::{Cases, FactParts, split};
pub use reaching::{Marks, Reaching};
