//! Lifting of calls out of expressions, and statements without a body: everything happens in the order of the source.
#![tactic(auto)]

mod assignments;
mod code;
mod context;
mod fronts;
mod lefts;
mod lifting;
mod operations;
mod settled;
mod simple;

pub use assignments::{OwnField, assign_field};
pub use code::Code;
pub use context::ElaborationContext;
pub use lifting::{arguments, right_side, value};
pub use simple::{base_call, declare, simple_statement};
