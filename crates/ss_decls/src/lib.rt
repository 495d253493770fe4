//! Declarations and programs from tokens: the program that they are, or the first token that cannot go on.
#![tactic(auto)]

mod classes;
mod clauses;
mod heads;
mod members;
mod modified;
mod params;
mod program;
mod usings;

pub use program::parse_program;
