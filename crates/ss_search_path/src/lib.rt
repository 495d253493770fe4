//! The lines of a derivation as they are written: a case that goes on, and trials within it. Where reached formulas stand among the facts, and how a
//! fact is opened.
#![tactic(auto)]

mod cases;
mod facts;
mod finishing;
mod guarding;
mod opening;
mod path;
mod standing;
mod trials;

pub use cases::{Branching, add_case};
pub use guarding::line_from;
pub use path::{Mark, Path};
pub use standing::{Given, Standing};
