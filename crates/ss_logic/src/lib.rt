//! Terms and formulas over stores of objects, what they mean in a structure, and when a formula is true. Rules, expressions as terms and formulas,
//! frame conditions, linear sums, and the ground form. The definitions stand in `specs/`; here are the enums that they share with code, and the laws.
#![tactic(auto)]

mod frames_laws;
mod laws;
mod rules_laws;
mod sums_laws;

pub use frames_laws::{
    grown_is_true_of_grown_stores, grown_is_true_only_of_grown_stores, kept_is_true_of_kept_stores,
    kept_is_true_only_of_kept_stores,
};
pub use laws::{
    a_forall_is_true_at_terms, a_new_owner_is_a_new_owner, a_write_is_a_write,
    a_write_of_an_element_is_a_write_of_it, being_made_ready_is_being_made_ready,
    not_both_are_true, one_of_them_is_true, packing_is_packing, unpacking_is_unpacking,
};
pub use rules_laws::{a_good_store_meets_every_instance, every_instance_is_true};
pub use sums_laws::{a_linear_sum_is_its_term, what_a_sum_of_facts_gives_is_true};

/// What a term stands for.
#[derive(Clone, Copy, PartialEq, Eq, Debug, Hash)]
pub enum Sort {
    /// A store of objects.
    Store,
    /// A whole number.
    Whole,
    /// A truth value.
    Truth,
    /// A reference, null, a class or an owner.
    Rest,
}

/// A rule whose instances are true in every structure.
#[derive(Clone, Copy, PartialEq, Eq, Debug, Hash)]
pub enum RuleName {
    /// What a read gives over a changed store, or over an equal one.
    Read,
    /// The reference that a store allocates next.
    Fresh,
    /// Which classes count as others.
    Class,
    /// Owners are groups or pairs.
    Split,
    /// Two whole numbers are equal, or one is below the other.
    Apart,
    /// A quotient and its remainder.
    Quorem,
    /// A truth value is true or false.
    Bool,
}

/// A rule whose instances are true of every good store.
#[derive(Clone, Copy, PartialEq, Eq, Debug, Hash)]
pub enum GoodRule {
    /// A committed object is at its full level.
    Full,
    /// An owned object is committed exactly where its owner is packed.
    Owned,
    /// What a marked field refers to has the owner that the mark says.
    Marks,
    /// Values are in range, allocated and of their classes.
    Typed,
    /// Fields of ready objects aren't null, and values refer to ready objects.
    Ready,
}
