// What a call or a body may change, over the numbers of a bank.

use ss_core::{ClassId, FieldId};
use ss_terms::{FormulaId, TermId};

/// What may change, where the formula is true.
#[derive(Clone, Copy)]
pub enum NamedTerm {
    /// A field of an object.
    At(FormulaId, TermId, FieldId),
    /// All of an object.
    All(FormulaId, TermId),
    /// What the class and those above it declare of an object.
    Upto(FormulaId, TermId, ClassId),
    /// The elements of an array.
    Elements(FormulaId, TermId),
}

/// Two stores, and what may differ between them. No term or formula has a bound name that it doesn't bind.
#[derive(Drop)]
pub struct CallTerms {
    /// The store at entry.
    pub before: TermId,
    /// A later one.
    pub after: TermId,
    /// What is named.
    pub named: Vec<NamedTerm>,
    /// The objects whose groups are captured.
    pub captured: Vec<TermId>,
    /// The owners whose objects are free: an object and a class.
    pub owned: Vec<(TermId, ClassId)>,
    /// The objects of enclosing exposes.
    pub outside: Vec<TermId>,
}
