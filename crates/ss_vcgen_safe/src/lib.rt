//! Formed programs whose obligations are valid, or derived. From a position at which it is a run goes on safely, and so does each body from its
//! entry: no check of a run fails. Each obligation is well formed. No step of the program calls these functions: each says one law over the
//! definitions.
#![tactic(auto)]

mod changes_laws;
mod formed_laws;
mod laws;
mod parts_laws;

pub use changes_laws::{
    a_checked_array_is_done, a_checked_capture_is_done, a_checked_join_is_done,
    a_checked_pack_is_done, a_checked_unpack_is_done, a_checked_write_is_done,
    a_checked_write_of_an_element_is_done, a_term_for_a_good_heap_has_its_objects,
    the_next_reference_is_the_new_object, the_store_of_a_term_is_good,
    the_term_has_a_field_written, the_term_has_a_new_array, the_term_has_a_new_object,
    the_term_has_an_element_written, the_term_is_made_ready, the_term_is_packed,
    the_term_is_unpacked,
};
pub use formed_laws::obligations_are_well_formed;
pub use laws::{
    derived_obligations_never_fail, valid_obligations_make_bodies_safe,
    valid_obligations_never_fail,
};
pub use parts_laws::{
    conditions_of_code_are_true_where_they_hold, conditions_of_code_are_well_formed,
    contexts_are_sorted_where_locals_are_assigned, contexts_of_positions_are_sorted,
    contexts_of_positions_stand, parts_are_well_formed, parts_of_all_values_are_true,
    parts_of_values_are_true, positions_are_read, true_parts_are_enough,
    true_parts_are_enough_for_all, unchecked_parts_are_true,
};
