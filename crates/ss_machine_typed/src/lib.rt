//! What holds of stores and values along runs of the checked machine: types of values, older stores, and state 0. No step of the program
//! calls these functions: each says one law over the definitions.
#![tactic(auto)]

mod laws;

pub use laws::{
    changes_leave_older, first_store_is_good, locals_are_good_at_entry, locals_are_good_at_start,
    locals_stay_good, older_begins, older_goes_on, put_keeps_good_locals, values_are_ready,
    values_have_their_types,
};
