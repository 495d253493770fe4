//! Ownership: an invariant reads what its object owns, words of conditions stand in conditions, and attributes where they mean something.
#![tactic(auto)]
