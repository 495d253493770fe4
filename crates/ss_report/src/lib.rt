//! What the program says: its status, the line of a status, and the texts of verdicts and of core programs.
#![tactic(auto)]

mod status;
mod texts;
mod verdict;

pub use ss_report_core::core_text;
pub use status::{Status, status_line};
pub use texts::kind_name;
pub use verdict::verdict_text;
