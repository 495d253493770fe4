//! The program, over any files and any output.
#![tactic(auto)]

mod front;
mod laws;
mod runs;
mod source;
mod top;

pub use laws::{no_fault, one_core};
pub use ss_top_sources::{one_fault, read_program};
pub use top::specsharp;
