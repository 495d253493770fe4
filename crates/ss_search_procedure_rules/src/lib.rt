//! When formulas are closed without a split, when by nested splits, and when splits are enough. The definitions stand in `specs/`; here are
//! the laws.
#![tactic(auto)]

mod laws;

pub use laws::{
    what_has_fitting_classes_fits, what_has_no_contradicting_sum_refutes,
    what_is_closed_has_no_model, what_is_saturated_and_total_has_a_model,
    what_stays_open_is_not_closed,
};
