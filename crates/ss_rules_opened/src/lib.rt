//! The formulas with which a ground form starts: premises and the denied goal. Fresh constants stand for what an `exists` says that there is. The
//! instances of a `forall` where its triggers match, and where each formula comes from.
#![tactic(auto)]

mod constants;
mod instances;
mod matching;
mod opening;
mod origins;
mod places;
mod replacing;
mod starting;
mod triggers;

pub use instances::add_forall_instances;
pub use opening::Choice;
pub use origins::{Origin, OriginList, Source, add_from};
pub use starting::{Started, start};
