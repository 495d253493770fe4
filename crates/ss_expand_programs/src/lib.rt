//! The elaboration: the core program of a resolved program.
#![tactic(auto)]

mod bodies;
mod constructors;
mod declarations;
mod exposing;
mod heads;
mod inherited;
mod initial;
mod initializers;
mod leaving;
mod looping;
mod program;
mod statements;

pub use program::expand;
