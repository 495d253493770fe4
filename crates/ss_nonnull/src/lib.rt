//! The phase of non-null types: the first place where a value that may be null stands where none is wanted, or where a method has types
//! that differ by `!` from those of the one that it overrides.
#![tactic(auto)]

mod bodies;
mod expr;
mod initializers;
mod overrides;
mod program;
mod simple;
mod stmts;

pub use program::check_nulls;
