//! What bodies of the core program have around their code: contracts, locals, numbers and tables.
#![tactic(auto)]

mod clauses;
mod contracts;
mod defaults;
mod exposes;
mod lookups;
mod named;
mod numbering;
mod origins;
mod tables;
mod wrappers;

pub use clauses::{entry_conditions, exit_conditions, named_terms};
pub use contracts::{add_plain, list_terms};
pub use defaults::{conditions, default_entry, default_exit, first_param};
pub use exposes::{Opened, add_pack_this, add_packs, list_exposed, pack_of};
pub use lookups::{
    above_of, declared_at, field_at, has_delayed_constructor, is_declared_by, is_own, is_wrapped,
    method_at, params_in, table,
};
pub use named::{add_copies, add_locals, add_params, add_temporaries};
pub use numbering::{first_copy, numbers, numbers_from};
pub use origins::{Origin, list_bodies, number_among, number_of_written};
pub use tables::{elaborate_classes, number_in_table};
pub use wrappers::{Wrapped, core_flags, own_params, wrapper_code, wrapper_flags, wrapper_types};
