//! Numbers of nodes that meet each of a list of edges with weights, or a cycle with a negative sum.
#![tactic(auto)]

mod edges;
mod reached;
mod rounds;

pub use edges::{Edge, Found};
pub use rounds::shortest;
