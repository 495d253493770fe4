//! What occurs in a list of formulas of a bank: atoms, terms and quantified formulas, each once, in the order in which they come.
#![tactic(auto)]

mod forms;
mod found;
mod seeking;
mod walking;

pub use forms::QuantifiedFormula;
pub use found::{FormulaList, TermList};
pub use seeking::{all_atoms, atoms, quantified};
pub use walking::terms;
