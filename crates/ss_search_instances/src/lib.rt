//! What is asked for, and by which reads quantified formulas are asked for their instances.
#![tactic(auto)]

mod asked;
mod heads;

pub use asked::{Asked, Clause, Held, Marks};
pub use heads::{Heads, Pattern, is_newer, is_read};
