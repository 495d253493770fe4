//! The faults of types in statements, members and programs, and the first of them.
#![tactic(auto)]

mod bases;
mod body;
mod clauses;
mod members;
mod program;
mod simple;
mod stmts;

pub use program::first_type_fault;
