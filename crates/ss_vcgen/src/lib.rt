//! The obligations of core programs, over a bank of terms and formulas.
#![tactic(auto)]

mod behind;
mod bodies;
mod changes;
mod programs;
mod statements;
mod watch;

pub use programs::{Positions, locate, obligations};
pub use ss_vcgen_builder::{Listed, Obligations};
pub use watch::Located;
