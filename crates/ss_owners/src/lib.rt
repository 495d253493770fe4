//! The phase of ownership: which invariants read what their object doesn't own, where words of conditions stand outside of
//! conditions, and which attributes may not stand where they do. The definitions stand in `ss_owners_rules`.
#![tactic(auto)]

mod attributes;
mod marks;
mod noting;
mod program;
mod reads;
mod statements;
mod words;

pub use program::check_ownership;
