//! Known formulas, kept with undo; what may hold beside them; and the model that they are where nothing more follows.
#![tactic(auto)]

mod basics;
mod equalities;
mod linking;
mod looking;
mod modelling;
mod outcomes;
mod reached;
mod summing;

pub use basics::is_basic;
pub use equalities::whole_pairs;
pub use linking::whole_links;
pub use looking::Looking;
pub use outcomes::Outcomes;
pub use reached::Reached;
pub use summing::numbers_are_seen;
