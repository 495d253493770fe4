//! Expressions of core programs over a bank: what each means, and what has to be so for it to have a value.
#![tactic(auto)]

mod asks;
mod contexts;
mod contracts;
mod guards;
mod null_context;
mod parts;
mod reading_context;
mod singles;
mod twos;
mod walk;

pub use contracts::{conditions, holds, naming};
pub use null_context::NullContext;
pub use parts::Part;
pub use reading_context::ReadingContext;
pub use ss_vcgen_express::Context;
pub use walk::express;
