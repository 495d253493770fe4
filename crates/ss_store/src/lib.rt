//! The object store, its changes, and the values of expressions over it.
#![tactic(auto)]

mod arithmetic;
mod before;
mod calls;
mod context;
mod copies;
mod defaults;
mod effects;
mod eval;
mod fields;
mod inputs;
mod invariants;
mod levels;
mod listed;
mod making;
mod names;
mod object;
mod owners;
mod reads;
mod ready;
mod refused;
mod store;
mod words;
mod writes;

pub use arithmetic::{as_bool, as_int, same_value};
pub use before::Before;
pub use context::owner_of_pair;
pub use inputs::{admitted, first_store};
pub use making::NewStop;
pub use object::{NO_CLASS, Slot};
pub use owners::{is_group, is_pair_upto, same_owner};
pub use ss_store_rules::{Refused, Undefined, Value};
pub use store::{Store, slot_value};
