//! What holds of the elaboration of every program that the phases find no fault in, part by part: its invariants are admissible, and last it is
//! formed. Of each part the laws stand in a module of its own. No step of the program calls these functions: each says one law over the definitions.
#![tactic(auto)]

mod admissible_laws;
mod assigned_laws;
mod construction_laws;
mod contracts_laws;
mod fields_laws;
mod keep_nulls_laws;
mod known_laws;
mod laws;
mod locals_laws;
mod members_laws;
mod nulls_laws;
mod tables_laws;
mod typed_laws;
mod types_laws;
mod whole_laws;

pub use admissible_laws::{are_admissible, refuses_no_more};
pub use assigned_laws::read_what_is_assigned;
pub use construction_laws::{have_opening, keep_this_in, start_in_order, write_this_first};
pub use contracts_laws::{have_defaults, have_entries, have_exits, have_invariants, have_named};
pub use fields_laws::{are_ready_with_fields, return_with_fields};
pub use keep_nulls_laws::keep_nulls_out;
pub use known_laws::{holds_with_more, keeps_facts, keeps_fields, keeps_the_order};
pub use laws::{
    ends_in_a_return, has_chain, has_limits, has_main, has_nothing_beside, have_classes,
    have_constructors, have_delayed_base, have_flags, have_own_methods, have_param_types,
    have_result_types, have_table_methods, have_table_names,
};
pub use locals_laws::{have_numbers, have_targets, name_open_exposes, pack_at_returns};
pub use members_laws::{have_declared_types, have_fields, have_params, require_nothing_of_this};
pub use nulls_laws::{
    constructors_keep_nulls_out, methods_keep_nulls_out, statements_keep_nulls_out,
    wrappers_keep_nulls_out,
};
pub use tables_laws::{have_inherited, have_tables};
pub use typed_laws::{expose_by_class, have_typed_code};
pub use types_laws::have_locals;
pub use whole_laws::elaboration_is_formed;
