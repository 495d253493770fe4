//! The tokens of a source, or its first fault: a byte or an escape that the language has not (rule 1), a comment or a
//! string that nothing closes (2, 3), a number that is too large (4), or more bytes than a source may have (5).
#![tactic(auto)]

mod lexer;
mod literals;
mod meaning;
mod pieces;
mod scans;
mod spelling;

pub use lexer::{MAX_BYTES, one_answer, tokens};
