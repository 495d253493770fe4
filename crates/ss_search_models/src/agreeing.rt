// Whether equal terms have equal functions and atoms of them, and equality is that of the classes.

ghost use Rattle.std.specs.Prelude.{◌≡◌, true, IfOk, OnOk};
ghost use Rattle.std.specs.List.{list_all};
ghost use Rattle.ss_logic.specs.Terms.{terms_from};
ghost use Rattle.ss_logic_countermodels.specs.Refuting.{is_equal_inside};
ghost use Rattle.ss_terms.specs.Forms.{term_at, terms_at, formula_at, HasTerm, HasTerms, HasFormula};
ghost use Rattle.ss_rules_occurring.specs.Found.{terms_of, formulas_of};
ghost use Rattle.ss_search_models.specs.Candidates.{model_at, HasCandidate};
ghost use Rattle.ss_search_models.specs.Keys.{Keeps};
ghost use Rattle.ss_search_models.specs.Said.{IsFunctionSaid, IsAtomSaid, are_functions_of_classes, are_atoms_of_classes, equality_of, is_right};

use crate::candidate::Candidate;
use crate::signatures::{Given, Signature, Signatures};
use crate::telling::told_of;
use ss_terms::{Bank, Formula, FormulaId, Predicate, Term, TermId};
use std::alloc::{AllocError, Global};

// ---- functions

// Whether no other class was given to the function at these classes.
fn function_agrees(
    alloc: Global,
    bank: &Bank,
    candidate: &Candidate<'_>,
    signatures: &mut Signatures,
    t: TermId,
) -> Result<bool, AllocError>
    requires candidate { HasCandidate bank.now candidate.now }
    requires term { HasTerm bank.now t }
    ensures said { IfOk result (λ r. r ≡ true → IsFunctionSaid signatures.new (model_at bank.now candidate.now) (term_at bank.now t)) }
    ensures kept { OnOk result (Keeps signatures.old signatures.new) }
{
    match bank.term_node(t) {
        Term::Bound(_) => Ok(true),
        Term::App(symbol, arguments) => {
            let classes = candidate.classes_of(alloc, bank, arguments)?;
            signatures.agrees(
                Signature::Function(*symbol, classes),
                Given::Class(candidate.class(bank, t)),
            )
        }
    }
}

/// Whether one function at arguments of equal classes has equal classes. An error is want of memory.
pub(crate) fn functions_agree(
    alloc: Global,
    bank: &Bank,
    candidate: &Candidate<'_>,
) -> Result<bool, AllocError>
    requires { HasCandidate bank.now candidate.now }
    ensures { IfOk result (λ r. r ≡ true → are_functions_of_classes (model_at bank.now candidate.now) (terms_of bank.now candidate.now.terms.now) ≡ true) }
{
    let mut signatures = Signatures::new(alloc);
    for t in &candidate.terms.list {
        if !function_agrees(alloc, bank, candidate, &mut signatures, *t)? {
            return Ok(false);
        }
    }
    Ok(true)
}

// ---- atoms

// Whether no other truth value was given to the atom at these classes.
fn atom_agrees(
    alloc: Global,
    bank: &Bank,
    candidate: &Candidate<'_>,
    signatures: &mut Signatures,
    f: FormulaId,
) -> Result<bool, AllocError>
    requires candidate { HasCandidate bank.now candidate.now }
    requires formula { HasFormula bank.now f }
    ensures said { IfOk result (λ r. r ≡ true → IsAtomSaid signatures.new (model_at bank.now candidate.now) (formula_at bank.now f)) }
    ensures kept { OnOk result (Keeps signatures.old signatures.new) }
{
    match bank.formula_node(f) {
        Formula::Literal {
            predicate,
            arguments,
            ..
        } => {
            let classes = candidate.classes_of(alloc, bank, arguments)?;
            signatures.agrees(
                Signature::Atom(*predicate, classes),
                Given::Truth(candidate.truth(bank, f)),
            )
        }
        Formula::And(_) => Ok(true),
        Formula::Or(_) => Ok(true),
        Formula::Forall(_, _) => Ok(true),
        Formula::Exists(_, _) => Ok(true),
    }
}

/// Whether atoms of one name at arguments of equal classes have equal truth values. An error is want of memory.
pub(crate) fn atoms_agree(
    alloc: Global,
    bank: &Bank,
    candidate: &Candidate<'_>,
) -> Result<bool, AllocError>
    requires { HasCandidate bank.now candidate.now }
    ensures { IfOk result (λ r. r ≡ true → are_atoms_of_classes (model_at bank.now candidate.now) (formulas_of bank.now candidate.now.told.now) ≡ true) }
{
    let mut signatures = Signatures::new(alloc);
    for f in &candidate.told.list {
        if !atom_agrees(alloc, bank, candidate, &mut signatures, *f)? {
            return Ok(false);
        }
    }
    Ok(true)
}

// ---- equalities

// Whether two terms are in one class.
fn are_in_one_class(bank: &Bank, candidate: &Candidate<'_>, ts: &[TermId]) -> Option<bool>
    requires candidate { HasCandidate bank.now candidate.now }
    requires terms { HasTerms bank.now ts.now }
    ensures { result ≡ equality_of (model_at bank.now candidate.now) (terms_from (terms_at bank.now ts.now)) }
{
    match ts {
        [x, y] => Some(candidate.class(bank, *x) == candidate.class(bank, *y)),
        _ => None,
    }
}

// Whether an equality of these terms may have the truth value.
fn may_be(bank: &Bank, candidate: &Candidate<'_>, ts: &[TermId], truth: bool) -> bool
    requires candidate { HasCandidate bank.now candidate.now }
    requires terms { HasTerms bank.now ts.now }
    ensures { result ≡ is_right truth (equality_of (model_at bank.now candidate.now) (terms_from (terms_at bank.now ts.now))) }
{
    match are_in_one_class(bank, candidate, ts) {
        Some(is_one) => truth == is_one,
        None => true,
    }
}

// Whether the formula is no equality, or one that is true exactly inside a class.
fn is_inside(bank: &Bank, candidate: &Candidate<'_>, f: FormulaId) -> bool
    requires candidate { HasCandidate bank.now candidate.now }
    requires formula { HasFormula bank.now f }
    ensures { result ≡ is_equal_inside (model_at bank.now candidate.now) (formula_at bank.now f) }
{
    match bank.formula_node(f) {
        Formula::Literal {
            predicate: Predicate::Equal,
            arguments,
            ..
        } => may_be(
            bank,
            candidate,
            arguments,
            candidate.truth(bank, told_of(bank, f)),
        ),
        _ => true,
    }
}

/// Whether each equality is true exactly inside a class.
pub(crate) fn equalities_are_inside(bank: &Bank, candidate: &Candidate<'_>) -> bool
    requires { HasCandidate bank.now candidate.now }
    ensures { result ≡ list_all (is_equal_inside (model_at bank.now candidate.now)) (formulas_of bank.now candidate.now.told.now) }
{
    for f in &candidate.told.list {
        if !is_inside(bank, candidate, *f) {
            return false;
        }
    }
    true
}
