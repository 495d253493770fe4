//! The procedure after the search: it decides of a ground form within the splits, or says that they are too few. It begins with choices, premises,
//! the denied goal and instances of rules.
#![tactic(auto)]

mod beginning;
mod choosing;
mod nested;
mod powers;
mod setting;
mod settling;
mod starting;
mod stating;
mod total;
mod trials;

pub use beginning::{Begun, start};
pub use choosing::{Chosen, chosen_formulas};
pub use settling::Settled;
pub use starting::{Unsettled, settle_by};
