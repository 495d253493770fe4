//! The instances of rules that are asked for at the terms and atoms of a list.
#![tactic(auto)]

mod among;
mod asked;
mod closing;
mod context;
mod couples;
mod forms;
mod gathered;
mod lists;
mod reads;
mod sentences;

pub use asked::{Argument, Asked, Rule, ask};
pub use closing::asked_to_close;
pub use forms::{Others, Reading, good_of, length_of};
pub use gathered::readings;
pub use lists::{AtAtom, AtTerm, ask_at_atoms, ask_at_terms};
