//! The frame condition and growth over the numbers of a bank, as formulas over two stores.
#![tactic(auto)]

mod bound;
mod calls;
mod context;
mod fields;
mod frame;
mod growth;
mod laws;
mod marks;
mod objects;
mod parts;
mod same;

pub use calls::{CallTerms, NamedTerm};
pub use frame::kept;
pub use growth::grown;
pub use laws::{grown_is_true_where_stores_have_grown, kept_is_true_where_stores_are_kept};
