//! The names of a core program as texts: of classes, fields and locals, by tables that are made once. And lists of texts, joined.
#![tactic(auto)]

mod context;
mod fields;
mod joins;
mod locals;
mod names;
mod scopes;
mod tables;

pub use context::{Context, Locals, Program};
pub use fields::field_name;
pub use joins::{push_both, push_class_between};
pub use names::{body_name, method_name, push_class, push_element, push_title, push_title_of};
pub use scopes::{push_bound, push_bytes, push_local};
