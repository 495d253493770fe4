//! Definitions: models that refute the ground form of an obligation. They stand in `specs/`; here is the type of models that code and clauses share.
#![tactic(auto)]

/// A model of a ground form: a class for each of its terms, and a truth value for each of its atoms and quantified formulas, each numbered by
/// first occurrence.
#[derive(Drop)]
pub struct Countermodel {
    pub classes: Vec<usize>,
    pub truth: Vec<bool>,
}
