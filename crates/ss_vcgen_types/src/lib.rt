//! What is read off core expressions without a bank: their types, the bodies that calls name, and what a test tells of locals.
#![tactic(auto)]

mod atoms;
mod bodies;
mod code;
mod expressions;
mod names;
mod told;
mod type_context;
mod types;

pub use atoms::{is_literal_true, is_null_literal, is_this, local_of};
pub use bodies::{argument_types, callee_of, local_types};
pub use code::code_type;
pub use expressions::{link_type, step_type, type_of};
pub use told::{Told, tell_link, told_by};
pub use type_context::TypeContext;
pub use types::{element_of, field_class, field_type, is_bool};
