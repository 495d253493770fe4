//! The values that a model gives to locals and fields at an obligation, as a text for a person.
#![tactic(auto)]

mod fields;
mod index;
mod laws;
mod literals;
mod named;
mod telling;
mod texts;

pub use index::Index;
pub use laws::{fields_are_those_of_the_model, values_are_those_of_the_model};
pub use literals::{Reading, Value};
pub use named::Position;
pub use texts::values_text;
