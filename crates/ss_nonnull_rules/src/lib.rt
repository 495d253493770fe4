//! Non-null types: a value that may be null stands nowhere where none is wanted.
#![tactic(auto)]
