//! Sets of numbers, for what is known of locals and fields.
#![tactic(auto)]

mod bit_set;

pub use bit_set::BitSet;
