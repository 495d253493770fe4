//! The edges between terms that known differences are, and the contradiction among them.
#![tactic(auto)]

mod network;
mod nodes;

pub use network::{Difference, Network, Numbers, Solved};
pub use nodes::Nodes;
