//! What is tried and measured beside the suite: how many obligations programs have, derivations of many lines and of many steps, and changes, evaluations
//! and calls that are repeated.
#![tactic(auto)]

mod calls;
mod counts;
mod lines;
mod listed;
mod listing;
mod part;
mod repeats;

pub use counts::count_file;
pub use repeats::repeat;
