//! The faults of names in expressions, statements and members, each after those that were noted before.
#![tactic(auto)]

mod found;
mod members;
mod stmts;
mod walk;

pub use found::{add, add_unless, check_class};
pub use members::check_members;
