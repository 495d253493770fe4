//! Lists of positions that spare walks over all objects of a store.
#![tactic(auto)]

mod lists;

pub use lists::Lists;
