//! The fields of a class by number, those that a constructor has assigned, and the assignments with which it begins.
#![tactic(auto)]

mod assigned;
mod beginning;
mod fields;
mod opening;

pub use assigned::Assigned;
pub use beginning::{assigned_by_initializers, assigned_first, started_in};
pub use fields::{Fields, Numbers, class_at, members_at};
pub use opening::count_first;
