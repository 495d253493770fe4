//! The undo log of a run: what objects were at the entries of the bodies that run, so that the stores at these entries can be read.
#![tactic(auto)]

mod changes;
mod journal;
mod places;
mod saving;

pub use changes::{OldContent, OldHeader};
pub use journal::Journal;
pub use saving::header_at;
