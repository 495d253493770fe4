//! Heaps of a structure and the lists of objects that they have: each list has its heap, each store term is its change of the list, and frame
//! conditions say the same of both. The definitions stand in `specs/`; here are the laws.
#![tactic(auto)]

mod laws;
mod spans_laws;

pub use laws::{
    a_heap_goes_on_at_the_length_of_its_list, a_list_has_a_heap, a_list_has_its_heap,
    a_new_heap_is_as_before, a_table_fits_the_objects_of_a_heap,
    an_object_of_the_list_is_one_of_the_heap, the_heap_has_a_field_written,
    the_heap_has_a_new_array, the_heap_has_a_new_object, the_heap_has_an_element_written,
    the_heap_has_the_owners_of_a_write, the_heap_is_made_ready, the_heap_is_packed,
    the_heap_is_unpacked,
};
pub use spans_laws::{
    contracts_are_true_where_they_hold, contracts_are_well_formed, entries_have_their_locals,
    exits_have_their_locals, formed_bodies_are_typed, frame_terms_are_sorted, growth_is_true,
    kept_formulas_are_true, plain_exits_have_their_locals, seen_bodies_are_typed,
    terms_are_arguments, true_formulas_are_kept, true_growth_is_growth,
};
