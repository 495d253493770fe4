//! The derivation that is written of the facts and blocks of a search, and what its lines name.
#![tactic(auto)]

mod names;
mod writing;

pub use names::Names;
pub use writing::{good_of, name_of, plan_lines, write_lines};
