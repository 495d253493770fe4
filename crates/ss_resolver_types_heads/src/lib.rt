//! Definitions: the faults of types of an expression, and what is wanted where it stands. In code: what is wanted, calls, what operations
//! take, and how an expression ends.
#![tactic(auto)]

mod calls;
mod context;
mod heads;
mod operations;
mod wants;

pub use calls::{Called, call_above, call_new, is_wrong_call, takes_nothing, want_at};
pub use context::ExprContext;
pub use heads::{
    Form, Head, called_at, callee_at, note_class_test, settle, settle_as, value, walk_dot,
};
pub use operations::{gives_nothing, is_question, note_mark, note_no_class, note_operands};
pub use wants::{Known, Want, note_bad_type, note_call, note_end, note_misfit};
