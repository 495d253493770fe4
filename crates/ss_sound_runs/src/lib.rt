//! Runs of formed programs whose bodies go on safely: no check fails in them. What a single step leaves of the store, and what a contract says at the
//! two ends of a call. No step of the program calls these functions: each says one law over the definitions.
#![tactic(auto)]

mod contracts_laws;
mod laws;
mod steps_laws;

pub use contracts_laws::{
    assignments_keep_arguments, dispatch_serves, dispatched_arguments_are_passed,
    dispatched_bodies_are_entered, dispatched_returns_are_seen, entries_have_arguments,
    exits_read_arguments, frames_read_arguments, seen_arguments_are_passed,
};
pub use laws::safe_bodies_never_fail;
pub use steps_laws::{
    base_calls_pass, calls_lead_after, changes_grow, constructor_calls_pass, dispatched_calls_pass,
    frames_are_sound, good_stores_have_tables, grown_begins, grown_goes_on, news_lead_after,
    news_pass, reached_begins, reached_goes_on, returns_answer, short_stores_have_tables,
    statements_lead_after, static_calls_pass, steps_grow, steps_lead_later, tables_fit_before,
};
