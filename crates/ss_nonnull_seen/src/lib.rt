//! What is known of null at a point of a body, and all that is asked of an expression there, so that it is walked once. What is read off a resolved
//! program for that: the types of parts, and the bodies that calls name.
#![tactic(auto)]

mod calls;
mod context;
mod known;
mod seen;

pub use calls::{
    Called, above, base_method, body_of_entry, constructor, entry_at, method_of, static_method,
    type_at,
};
pub use context::NullContext;
pub use known::{Known, assign, begin, declare, forget, learn, learned, leave, meet, set_left};
pub use seen::{
    Seen, aged, called, class_tested, element_read, field_read, learn_side, learnt_at, literal,
    local_read, negated, note_lacking, note_null, null_literal, operated, plain, this_object,
};
