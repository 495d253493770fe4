//! Facts with their reasons, and the blocks of cases in which they are known. Nothing trusts them: what is written of them is checked.
#![tactic(auto)]

mod facts;
mod proof;
mod reasons;

pub use facts::{Fact, Facts, GoodName, Range, Reason, RuleKind, Said};
pub use proof::{Block, End, Proof};
pub use reasons::{Reasons, is_equality};
