//! Resolved expressions: names become numbers, and each part gets its type. What they are stands in the definitions of `ss_resolver_rules`.
#![tactic(auto)]

mod bare;
mod build;
mod calls;
mod context;
mod exprs;
mod finishing;
mod leaves;
mod local_names;
mod parts;
mod wholes;

pub use calls::Asked;
pub use context::ResolutionContext;
pub use exprs::{resolve, resolve_boxed, resolve_given, resolve_values, walk, walk_postfixes};
pub use finishing::called;
pub use leaves::asked_of;
pub use local_names::LocalNames;
pub use parts::Part;
pub use wholes::Given;
