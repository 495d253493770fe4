// Quantified formulas by their parts.

use ss_logic::Sort;
use ss_terms::FormulaId;

/// A quantified formula of a bank, with the sorts of its bound names and its body.
#[derive(Clone, Copy)]
pub struct QuantifiedFormula<'a> {
    /// The formula itself.
    pub whole: FormulaId,
    /// The sorts of its bound names.
    pub sorts: &'a [Sort],
    /// Its body.
    pub body: FormulaId,
}
