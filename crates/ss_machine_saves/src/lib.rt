//! What a change of the store saves in the undo log before it is made, and which objects are listed as not at their full level.
#![tactic(auto)]

mod levels;
mod logs;
mod owners;

pub use levels::{drop_all_full, list};
pub use logs::{log_content, log_level, log_write};
pub use owners::mark_of;
