//! A checker of models: whether a candidate makes each formula of a list come out true. It has to respect equality, functions and different values
//! too, and what sums say of numbers.
#![tactic(auto)]

mod agreeing;
mod candidate;
mod checking;
mod outcomes;
mod pairs;
mod signatures;
mod sums;
mod telling;
mod values;
mod wholes;

pub use checking::countermodel;
pub use telling::told;
