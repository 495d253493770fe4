//! Instances of rules, and the ground forms of obligations, over the bank of terms and formulas of a program. What is asked for is made and added,
//! round by round.
#![tactic(auto)]

mod arguments;
mod context;
mod form;
mod ground_context;
mod instances;
mod made;
mod names;
mod rounds;
mod rules;
mod saying;

pub use form::{GroundForm, Grounded};
pub use ground_context::GroundContext;
pub use instances::instance;
pub use made::Made;
pub use names::RuleName;
pub use rules::{GroundStop, ground, ground_with_origins};
pub use saying::add_said;
