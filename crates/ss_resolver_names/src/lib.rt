//! The phase of names: which names are unknown or declared twice, which classes run into a cycle, which methods override badly,
//! whether there is one `Main`, and what is past a limit.
#![tactic(auto)]

mod assigned;
mod chains;
mod classes;
mod counts;
mod declared;
mod overrides;
mod program;

pub use program::check_names;
