//! The instances that what is asked for asks for.
#![tactic(auto)]

mod equalities;
mod fresh;
mod good;
mod levels;
mod looks;
mod numbers;
mod positions;
mod reads;
mod typed;
mod wants;

pub use numbers::use_levels;
pub use positions::use_positions;
pub use wants::work;
