//! Lists of obligations, in a bank, and their construction: what is known at a position, one function for each word of the positions.
#![tactic(auto)]

mod branches;
mod builder;
mod guard;
mod joins;
mod list;
mod terms;

pub use branches::Spot;
pub use builder::{Builder, Counters, Listed, Walk};
pub use guard::Guard;
pub use list::Obligations;
