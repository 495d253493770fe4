// Whether sums of what a candidate makes true are no contradiction.

ghost use Rattle.std.specs.Prelude.{◌≡◌, List, ◌++◌, map, filter, true, IfOk};
ghost use Rattle.ss_core.specs.Tree.{ClassTree};
ghost use Rattle.ss_linear.specs.Contradictions.{HasPairs, equalities_at};
ghost use Rattle.ss_linear.specs.Met.{Follow};
ghost use Rattle.ss_linear_rules.specs.Two.{Two};
ghost use Rattle.ss_logic_countermodels.specs.Refuting as spec;
ghost use Rattle.ss_terms.specs.Forms.{formula_at, formulas_at, HasFormula, HasFormulas, IsBankOf};
ghost use Rattle.ss_rules_occurring.specs.Found.{terms_of, formulas_of};
ghost use Rattle.ss_search_models.specs.Candidates.{model_at, HasCandidate};
ghost use Rattle.ss_search_models.specs.Facts.{facts_in};

use crate::candidate::Candidate;
use crate::pairs::{equal_pairs, next_pairs};
use crate::wholes::whole_terms;
use ss_linear::{are_met, refute_with};
use ss_terms::{Bank, FormulaId, TermId};
use std::alloc::{AllocError, Global};

// The formula, where the candidate makes it true, and else its negation.
fn as_told(bank: &Bank, candidate: &Candidate<'_>, f: FormulaId) -> FormulaId
    requires candidate { HasCandidate bank.now candidate.now }
    requires formula { HasFormula bank.now f }
    ensures in_bank { HasFormula bank.now result }
    ensures told { formula_at bank.now result ≡ spec.as_told (model_at bank.now candidate.now) (formula_at bank.now f) }
{
    if candidate.truth(bank, f) {
        f
    } else {
        bank.negation(f)
    }
}

// What has a truth value, as the candidate has it.
fn told_facts(
    alloc: Global,
    bank: &Bank,
    candidate: &Candidate<'_>,
) -> Result<Vec<FormulaId>, AllocError>
    requires { HasCandidate bank.now candidate.now }
    ensures in_bank { IfOk result (λ v. HasFormulas bank.now v.items) }
    ensures told { IfOk result (λ v. formulas_at bank.now v.items ≡ map (spec.as_told (model_at bank.now candidate.now)) (formulas_of bank.now candidate.now.told.now)) }
{
    let mut facts = Vec::new(alloc);
    for f in &candidate.told.list {
        facts.push(as_told(bank, candidate, *f))?;
    }
    Ok(facts)
}

// Each two whole numbers of one class.
fn equal_terms(
    alloc: Global,
    bank: &Bank,
    candidate: &Candidate<'_>,
) -> Result<Vec<(TermId, TermId)>, AllocError>
    requires { HasCandidate bank.now candidate.now }
    ensures in_bank { IfOk result (λ v. HasPairs bank.now v.items) }
    ensures equal { (cs : List ClassTree) → IsBankOf cs bank.now → IfOk result (λ v. equalities_at bank.now v.items ≡ spec.equalities (model_at bank.now candidate.now) (filter (spec.is_whole cs) (terms_of bank.now candidate.now.terms.now))) }
{
    let found = whole_terms(alloc, bank, candidate)?;
    let terms = found.as_slice();
    equal_pairs(alloc, terms)
}

// Each whole number with the next one of its class. Where their equalities are so, that of each two of one class is.
fn next_terms(
    alloc: Global,
    bank: &Bank,
    candidate: &Candidate<'_>,
) -> Result<Vec<(TermId, TermId)>, AllocError>
    requires { HasCandidate bank.now candidate.now }
    ensures in_bank { IfOk result (λ v. HasPairs bank.now v.items) }
    ensures follow { (cs : List ClassTree) → IsBankOf cs bank.now → IfOk result (λ v. Follow cs (spec.equalities (model_at bank.now candidate.now) (filter (spec.is_whole cs) (terms_of bank.now candidate.now.terms.now))) (equalities_at bank.now v.items)) }
{
    let found = whole_terms(alloc, bank, candidate)?;
    let terms = found.as_slice();
    next_pairs(alloc, terms)
}

// Whether some numbers are seen at which what is known is so, and each two whole numbers of one class are equal.
fn are_so(
    alloc: Global,
    bank: &Bank,
    candidate: &Candidate<'_>,
    known: &[FormulaId],
) -> Result<bool, AllocError>
    requires candidate { HasCandidate bank.now candidate.now }
    requires known { HasFormulas bank.now known.now }
    ensures { (cs : List ClassTree) → IsBankOf cs bank.now → IfOk result (λ r. r ≡ true → Two cs (formulas_at bank.now known.now ++ spec.equalities (model_at bank.now candidate.now) (filter (spec.is_whole cs) (terms_of bank.now candidate.now.terms.now))) → ⊥) }
{
    let next = next_terms(alloc, bank, candidate)?;
    let pairs = next.as_slice();
    are_met(alloc, bank, known, pairs)
}

// Whether no contradiction is found among what is known and the equality of each two whole numbers of one class.
fn are_unrefuted(
    alloc: Global,
    bank: &Bank,
    candidate: &Candidate<'_>,
    known: &[FormulaId],
) -> Result<bool, AllocError>
    requires candidate { HasCandidate bank.now candidate.now }
    requires known { HasFormulas bank.now known.now }
    ensures { (cs : List ClassTree) → IsBankOf cs bank.now → IfOk result (λ r. r ≡ true → Two cs (formulas_at bank.now known.now ++ spec.equalities (model_at bank.now candidate.now) (filter (spec.is_whole cs) (terms_of bank.now candidate.now.terms.now))) → ⊥) }
{
    let equal = equal_terms(alloc, bank, candidate)?;
    let pairs = equal.as_slice();
    let sums = refute_with(alloc, bank, known, pairs)?;
    Ok(sums.is_none())
}

/// Whether no contradiction is found among what the candidate makes true and the equalities of whole numbers of one class. An error is want
/// of memory.
pub(crate) fn numbers_agree(
    alloc: Global,
    bank: &Bank,
    candidate: &Candidate<'_>,
) -> Result<bool, AllocError>
    requires { HasCandidate bank.now candidate.now }
    ensures { (cs : List ClassTree) → IsBankOf cs bank.now → IfOk result (λ r. r ≡ true → Two cs (facts_in cs (model_at bank.now candidate.now) (formulas_of bank.now candidate.now.told.now) (terms_of bank.now candidate.now.terms.now)) → ⊥) }
{
    let facts = told_facts(alloc, bank, candidate)?;
    let known = facts.as_slice();
    let so = are_so(alloc, bank, candidate, known)?;
    if so {
        return Ok(true);
    }
    are_unrefuted(alloc, bank, candidate, known)
}
