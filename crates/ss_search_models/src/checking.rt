// Whether a candidate is a model that refutes.

ghost use Rattle.std.specs.Prelude.{◌≡◌, List, true, IfOk, IfSome};
ghost use Rattle.ss_core.specs.Tree.{ClassTree};
ghost use Rattle.ss_logic_countermodels.specs.Refuting.{IsCountermodel, Agrees, Refutes};
ghost use Rattle.ss_terms.specs.Forms.{formulas_at, HasFormulas, IsBankOf};
ghost use Rattle.ss_search_models.specs.Candidates.{model_at, IsFor};

use crate::agreeing::{atoms_agree, equalities_are_inside, functions_agree};
use crate::candidate::Candidate;
use crate::outcomes::come_true;
use crate::sums::numbers_agree;
use crate::telling::told;
use crate::values::values_differ;
use ss_logic_countermodels::Countermodel;
use ss_rules_occurring::terms;
use ss_terms::{Bank, FormulaId};
use std::alloc::{AllocError, Global};

// Whether the model of the candidate agrees with the formulas.
fn agrees(
    alloc: Global,
    bank: &Bank,
    candidate: &Candidate<'_>,
    formulas: &[FormulaId],
) -> Result<bool, AllocError>
    requires candidate { IsFor bank.now candidate.now (formulas_at bank.now formulas.now) }
    requires formulas { HasFormulas bank.now formulas.now }
    ensures { IfOk result (λ r. r ≡ true → Agrees (model_at bank.now candidate.now) (formulas_at bank.now formulas.now)) }
{
    if !come_true(alloc, bank, candidate, formulas)? {
        return Ok(false);
    }
    if !functions_agree(alloc, bank, candidate)? {
        return Ok(false);
    }
    if !atoms_agree(alloc, bank, candidate)? {
        return Ok(false);
    }
    if !values_differ(alloc, bank, candidate)? {
        return Ok(false);
    }
    Ok(equalities_are_inside(bank, candidate))
}

// Whether it refutes the formulas.
fn refutes(
    alloc: Global,
    bank: &Bank,
    candidate: &Candidate<'_>,
    formulas: &[FormulaId],
) -> Result<bool, AllocError>
    requires candidate { IsFor bank.now candidate.now (formulas_at bank.now formulas.now) }
    requires formulas { HasFormulas bank.now formulas.now }
    ensures { (cs : List ClassTree) → IsBankOf cs bank.now → IfOk result (λ r. r ≡ true → Refutes cs (model_at bank.now candidate.now) (formulas_at bank.now formulas.now)) }
{
    if !agrees(alloc, bank, candidate, formulas)? {
        return Ok(false);
    }
    numbers_agree(alloc, bank, candidate)
}

// The model of the candidate, where it refutes the formulas.
fn model(
    alloc: Global,
    bank: &Bank,
    candidate: &Candidate<'_>,
    formulas: &[FormulaId],
) -> Result<Option<Countermodel>, AllocError>
    requires candidate { IsFor bank.now candidate.now (formulas_at bank.now formulas.now) }
    requires formulas { HasFormulas bank.now formulas.now }
    ensures { (cs : List ClassTree) → IsBankOf cs bank.now → IfOk result (λ o. IfSome o (IsCountermodel cs (formulas_at bank.now formulas.now))) }
{
    if refutes(alloc, bank, candidate, formulas)? {
        Ok(Some(candidate.model(alloc)?))
    } else {
        Ok(None)
    }
}

/// The model that a candidate is, where it refutes the formulas. `classes` is a class for each term, by the terms' numbers, and 0 past its end.
/// `truths` is a truth value for each pair of a formula and its negation, by half of their numbers, and false past its end. It is that of the atom or
/// the `forall`. An error is want of memory.
pub fn countermodel(
    alloc: Global,
    bank: &Bank,
    formulas: &[FormulaId],
    classes: &[usize],
    truths: &[bool],
) -> Result<Option<Countermodel>, AllocError>
    requires { HasFormulas bank.now formulas.now }
    ensures { (cs : List ClassTree) → IsBankOf cs bank.now → IfOk result (λ o. IfSome o (IsCountermodel cs (formulas_at bank.now formulas.now))) }
{
    let told = told(alloc, bank, formulas)?;
    let terms = terms(alloc, bank, &told.list)?;
    let candidate = Candidate {
        terms: &terms,
        told: &told,
        classes,
        truths,
    };
    model(alloc, bank, &candidate, formulas)
}
