// Lists of obligations.

use crate::builder::Listed;
use ss_terms::{Bank, FormulaId};

/// The obligations of a program, in their order, body by body. Each has for its premises a part of the one trail.
#[derive(Drop)]
pub struct Obligations {
    /// The terms and formulas.
    pub bank: Bank,
    /// What is known, in the order of the bodies.
    pub trail: Vec<FormulaId>,
    /// The obligations.
    pub list: Vec<Listed>,
}
