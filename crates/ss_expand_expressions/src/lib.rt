//! What the elaboration asks of resolved expressions, and expressions without calls in the numbers of the core program.
#![tactic(auto)]

mod arguments;
mod assigned;
mod calls;
mod ends;
mod expressions;
mod joined;
mod kinds;
mod locals;
mod operands;
mod operators;
mod sources;
mod types;

pub use arguments::{first_type, have_call, other_params};
pub use assigned::assigned_locals;
pub use calls::{has_call, link_has_call, links_have_call, step_has_call, steps_have_call};
pub use ends::{block_can_end, can_end};
pub use expressions::{PlainSteps, plain, plain_links, plain_steps, whole_chain, whole_path};
pub use joined::{
    as_of, binary, cast_of, element_of, field_of, iff_of, is_of, length_of, negate_of, not_of,
    with_link, with_step,
};
pub use kinds::{is_lazy, is_lazy_link, is_lazy_operator};
pub use locals::Numbers;
pub use operands::{LazyRight, Operand, begin_lazy, end_lazy, keep};
pub use operators::{compound, default_of, step_operator};
pub use sources::{
    Source, add_stmt, dispatched, dropped, in_local, in_temporary, next, put, valued,
};
pub use types::{any_object, class_of_type, temporary_type};
