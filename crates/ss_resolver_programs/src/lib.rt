//! The resolved program that a source means: names become numbers, and each part gets its type. What it is stands in the definitions of
//! `ss_resolver_rules`.
#![tactic(auto)]

mod bodies;
mod classes;
mod contracts;
mod fields;
mod locals;
mod mains;
mod marks;
mod program;
mod whole;

pub use program::resolve_program;
