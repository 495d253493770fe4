//! Definitions of the resolved program that a source without faults of names and types means: names become numbers, and each part gets its
//! type. They stand in `specs/`.
#![tactic(auto)]

mod known;

pub use known::Known;
