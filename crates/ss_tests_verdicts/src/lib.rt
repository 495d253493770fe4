//! Programs with what is expected of `verify`, tried by a command: which it proves, and checks that it leaves unproved.
#![tactic(auto)]

mod files;
mod program;

pub use files::{Command, try_all};
