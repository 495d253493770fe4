//! The locals that are in scope within a body, and the static types of names, members, links and calls.
#![tactic(auto)]

mod class_context;
mod local;
mod modifiers;
mod scopes;
mod scoping;
mod statics;
mod types;
mod words;

pub use class_context::ClassContext;
pub use local::{LocalInfo, Scopes, is_parameter, local_type};
pub use modifiers::{has_attribute, is_open_word, is_override_word, is_static_word};
pub use scopes::NameScopes;
pub use scoping::{
    declare_declaration, declare_init, declare_local, declare_param, declare_params,
};
pub use statics::{
    Callee, Receiver, call_type, called_with, cast_type, class_of_type, count, is_known, is_member,
    is_of_kind, is_static, may_have_levels, member_callee, name_callee, name_receiver, name_type,
    new_type, place_of_class, read_type, result_type,
};
pub use types::{link_type, type_of_cast, type_of_element};
pub use words::{
    is_console, is_length, is_owner, is_owner_word, is_print, is_state_call, is_state_read,
    is_state_word,
};
