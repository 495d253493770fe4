// The context in which lines are checked.

use ss_core::Classes;
use ss_terms::FormulaId;
use std::alloc::Global;

/// The classes of a program, and the premises and the goal of the obligation that a derivation is for.
#[derive(Clone, Copy)]
pub(crate) struct CheckContext<'a> {
    pub(crate) alloc: Global,
    pub(crate) classes: &'a Classes,
    pub(crate) premises: &'a [FormulaId],
    pub(crate) goal: FormulaId,
}
