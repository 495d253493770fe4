//! Contracts as formulas of a bank: of a body, at its entry and where it is left, and as its callers see it.
#![tactic(auto)]

mod captured;
mod changes;
mod conditions;
mod contexts;
mod contract;
mod names;
mod typed;

pub use changes::{frame, frame_terms, grown};
pub use conditions::{entry_conditions, exit_conditions};
pub use contexts::contract_context;
pub use contract::{Contract, Run, called};
pub use typed::is_of_type;
