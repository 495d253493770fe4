//! The text of a core program of the whole language.
#![tactic(auto)]

mod exprs;
mod groups;
mod stmts;
mod whole;
mod words;

pub use whole::core_text;
