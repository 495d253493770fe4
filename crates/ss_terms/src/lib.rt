//! A bank of terms and formulas over stores of objects, in which equal ones have one number.
#![tactic(auto)]

mod bank;
mod constants;
mod formed;
mod forms;
mod index;
mod lists;
mod makers;
mod obligation;
mod sorts;

pub use bank::{Bank, BankMark};
pub use forms::{Formula, FormulaId, Predicate, Symbol, Term, TermId};
pub use lists::{Arguments, Parts};
pub use obligation::Obligation;
pub use sorts::{field_sorts, is_bound_sort, same_sort, sort_of_type};
