//! The phase of names: which names are unknown or declared twice, which classes run into a cycle, which methods override badly,
//! whether there is one `Main`, and what is past a limit. The definitions stand in `specs/`.
#![tactic(auto)]

/// How many locals a body has at most.
pub const MOST_LOCALS: usize = 4096;
