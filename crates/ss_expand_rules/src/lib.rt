//! Definitions of the elaboration: the core program that a resolved program means, rule by rule. They stand in `specs/`.
#![tactic(auto)]
