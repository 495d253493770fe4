//! Contradictions of known facts by weighted sums.
#![tactic(auto)]

mod adding;
mod differences;
mod elimination;
mod ends;
mod facts;
mod few;
mod many;
mod meeting;
mod met;
mod numbers;
mod refuted;
mod steps;

pub use met::are_met;
pub use numbers::{is_so, numbers_of};
pub use refuted::{refute, refute_with};
pub use ss_deriv::Sum;
