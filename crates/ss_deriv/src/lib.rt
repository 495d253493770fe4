//! Derivations over the numbers of a bank, and a builder that keeps their shape: each case ends, and is followed by the next one.
#![tactic(auto)]

mod draft;
mod laws;
mod line;

pub use draft::Draft;
pub use laws::what_derives_ends_each_case;
pub use line::{Derivation, Line, Sum};
