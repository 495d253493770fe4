//! Trees of expressions from their parts, and the tokens that a part begins with. What stands above expressions makes its parts so too.
#![tactic(auto)]

pub mod build;
pub mod heads;
