//! Terms, formulas and the names of rules, read from texts into a bank, for tests.
#![tactic(auto)]

mod reader;
mod words;

pub use reader::{Reader, are_formed, has_formulas, has_terms, is_formed};
pub use words::{any_rule, free_rule, good_rule};
