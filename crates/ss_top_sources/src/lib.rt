//! From the bytes of a source to its resolved program and its core program, by the phases of the front end. What a source means, and its first fault
//! where it means nothing. Every source is accepted or refused, and the program of an accepted one is formed.
#![tactic(auto)]

mod laws;
mod programs;
mod source;
mod total_laws;

pub use laws::{no_fault, one_fault, one_meaning};
pub use programs::read_program;
pub use source::{Accepted, elaborate, read_source};
pub use total_laws::accepted_or_refused;
