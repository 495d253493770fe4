// What is settled.

use ss_search_path::Given;
use ss_terms::FormulaId;

/// Formulas of a bank with what they come from, and the atoms and quantified formulas that occur in them.
#[derive(Clone, Copy)]
pub(crate) struct Settling<'a> {
    pub(crate) given: Given<'a>,
    pub(crate) formulas: &'a [FormulaId],
    pub(crate) decisions: &'a [FormulaId],
}
