//! Grammars as relations between lists of tokens and what they are read as, for any kind of token: the ways
//! to build one, reading from left to right with one token of sight, and that the reading is the relation.
#![tactic(auto)]

pub mod fault;
