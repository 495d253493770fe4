//! The phase of construction: which constructors let their object out before its non-null fields are assigned, or leave such a
//! field without a value. The definitions stand in `ss_delayed_rules`.
#![tactic(auto)]

mod constructors;
mod ends;
mod escapes;
mod noting;
mod opening;
mod program;
mod statements;

pub use program::check_construction;
