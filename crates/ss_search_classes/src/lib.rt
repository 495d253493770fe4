//! Which terms are equal, by congruence on a trail, with the facts that say so.
#![tactic(auto)]

mod classes;

pub use classes::{CONGRUENT, Classes, Conflict, Event, Step, Why};
