//! What the terms and formulas of expressions mean. In a structure that tables the stores of a run they say what the expression's value is.
//! Derivations and origins of formulas are defined here too: what lines derive is valid, and what a line may make known is well formed. No step of
//! the program calls these functions: each says one law over the definitions.
#![tactic(auto)]

mod derivations_laws;
mod instances_laws;
mod laws;
mod origins_laws;

pub use derivations_laws::{
    a_bad_line_derives_nothing, lines_without_a_bad_one_derive, what_is_derived_is_valid,
};
pub use instances_laws::{
    every_case_is_well_formed, every_choice_is_well_formed, every_good_instance_is_well_formed,
    every_instance_is_well_formed, every_instance_of_a_forall_is_well_formed,
    every_instance_of_the_invariants_is_well_formed, every_negation_is_well_formed,
    every_part_is_well_formed, every_sum_is_well_formed,
};
pub use laws::{
    a_good_store_meets_every_sentence, a_good_store_meets_its_invariants, closed_terms_are_sorted,
    closed_terms_stand, closed_terms_stay, conditions_are_true_where_they_hold,
    conditions_are_true_where_they_hold_where_read, conditions_are_well_formed,
    conditions_are_well_formed_where_read, conditions_of_bodies_are_true_where_they_hold,
    conditions_of_bodies_are_well_formed, conditions_of_code_are_stated,
    contexts_of_bodies_are_sorted, contexts_of_bodies_stand, contexts_of_bodies_stay,
    contracts_are_stated, contracts_speak_of_their_locals,
    default_conditions_are_true_where_they_hold, default_conditions_are_well_formed,
    expressions_are_well_formed, expressions_are_well_formed_where_read,
    expressions_mean_their_values, expressions_mean_their_values_where_read,
    instances_on_invariants_are_well_formed, locals_have_the_sorts_of_their_types,
    packed_invariants_are_well_formed, sentences_on_good_stores_may_be_premises,
    some_structure_gives_the_values, stated_expressions_are_well_formed,
    typed_expressions_have_no_default,
};
pub use origins_laws::what_comes_from_well_formed_formulas_is_well_formed;
