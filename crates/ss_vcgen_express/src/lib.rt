//! Expressions of core programs as terms and formulas of a bank, and what has to be so for them to have a value.
#![tactic(auto)]

mod chains;
mod classes;
mod context;
mod decided;
mod functions;
mod meant;
mod operations;
mod operators;
mod quantifiers;
mod sayings;
mod truths;
mod words;

pub use chains::{all_with, any_with};
pub use classes::as_class;
pub use context::{Context, local_term};
pub use decided::has_truth_of;
pub use functions::{Function, mapped, paired};
pub use meant::{Choice, Meant};
pub use operations::{either, iff, implies, same_truths};
pub use operators::operated;
pub use quantifiers::{bound_name, for_all, for_each, out_of_range, quantified};
pub use sayings::{Relation, Saying, related, said_so};
pub use truths::{all, any, both, over, over_two, said, say};
pub use words::{owners_said, word_said};
