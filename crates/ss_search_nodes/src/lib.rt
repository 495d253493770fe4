//! What the formulas inside known `or`s come to, on a trail.
#![tactic(auto)]

mod nodes;

pub use nodes::{Ground, LONG, Nodes, is_held_kind, or_of};
