//! Statements of core programs, over a list of obligations under construction: their expressions at the position, what is said of values, writes,
//! unpacking and packing.
#![tactic(auto)]

mod contexts;
mod expressions;
mod levels;
mod said;
mod writes;

pub use contexts::context;
pub use expressions::{check_parts, evaluate, evaluate_all, holds_at, meaning};
pub use levels::{pack, unpack};
pub use said::{
    applied, applied_local, change_store, deny, deny_local, each_of, good, is_null, one_of, say,
    say_local,
};
pub use writes::{ElementTarget, FieldTarget, check_not_null, write, write_element};
