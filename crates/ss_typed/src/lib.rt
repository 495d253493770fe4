//! Resolved programs: the trees of a source in which names are numbers and the type of every part is known. Implied steps
//! aren't written out yet.
#![tactic(auto)]

mod assigned;
mod body;
mod expr;
mod lookups;
mod mentions;
mod program;
mod shapes;
mod static_types;
mod stmt;
mod targets;
mod types;

pub use assigned::{assigned_in_block, assigned_in_loop, assigned_within};
pub use body::{TypedBase, TypedBody, TypedFlags, TypedModifies, TypedParam};
pub use expr::{TypedExpr, TypedLink, TypedStep};
pub use lookups::{body_at, class_at, constructor_of, members_in, members_of};
pub use mentions::mentions_this;
pub use program::{Typed, TypedClass, TypedField, TypedInvariant};
pub use shapes::{has_base, is_base, is_this, is_true, place_of};
pub use static_types::{link_type, path_type, step_type, type_of};
pub use stmt::{TypedBlock, TypedDeclarator, TypedInit, TypedSimple, TypedStmt};
pub use targets::{local_of, own_field};
pub use types::{class_type, element_of, operation_type};
