// Owners are groups or pairs.

ghost use Rattle.std.specs.Prelude.{◌≡◌, List, [], ◌∷◌, IfOk};
ghost use Rattle.ss_core.specs.Tree.{ClassTree};
ghost use Rattle.ss_logic.specs.Formulas.{neg};
ghost use Rattle.ss_logic.specs.Shapes.{group};
ghost use Rattle.ss_logic.specs.Rules.{pairs_agree, split_of};
ghost use Rattle.ss_terms.specs.Forms.{term_at, terms_at, formula_at, HasTerm, HasTerms, HasFormula, IsGrown, IsBankOf};
ghost use Rattle.ss_terms.specs.Numbered.{IsNumberOf};

use crate::arguments::{is_pair_at, pair_parts};
use crate::{Claim, Clause, Slot, fill};
use ss_logic::Sort;
use ss_terms::{Bank, FormulaId, Predicate, TermId};
use std::alloc::{AllocError, Global};

// It isn't a group.
fn no_group(alloc: Global, b: &mut Bank, p: TermId) -> Result<FormulaId, AllocError>
    requires { HasTerm b.old p }
    ensures at { IfOk result (λ f. HasFormula b.new f × (formula_at b.new f ≡ neg (group (term_at b.old p)))) }
    ensures grown { IsGrown b.old b.new }
{
    fill(
        alloc,
        b,
        &[],
        &[Clause::Fact(Claim::NoGroup(Slot::Known(p)))],
    )
}

// Equal pairs have equal parts.
fn agreeing_pairs(
    alloc: Global,
    b: &mut Bank,
    pairs: (TermId, TermId),
    left: (TermId, TermId),
    right: (TermId, TermId),
) -> Result<FormulaId, AllocError>
    requires first_pair { HasTerm b.old pairs.0 }
    requires second_pair { HasTerm b.old pairs.1 }
    requires first_left { HasTerm b.old left.0 }
    requires second_left { HasTerm b.old left.1 }
    requires first_right { HasTerm b.old right.0 }
    requires second_right { HasTerm b.old right.1 }
    ensures at { IfOk result (λ f. HasFormula b.new f × (formula_at b.new f ≡ pairs_agree (term_at b.old pairs.0) (term_at b.old pairs.1) (term_at b.old left.0) (term_at b.old left.1) (term_at b.old right.0) (term_at b.old right.1))) }
    ensures grown { IsGrown b.old b.new }
{
    let (p, q) = pairs;
    let ((o, t), (u, v)) = (left, right);
    let objects = Claim::Is(Predicate::Equal, Slot::Known(o), Slot::Known(u));
    let classes = Claim::Is(Predicate::Equal, Slot::Known(t), Slot::Known(v));
    if b.is_same_term(p, q) {
        let clauses = [Clause::Fact(objects), Clause::Fact(classes)];
        return fill(alloc, b, &[], &clauses);
    }
    let equal = Claim::Is(Predicate::Equal, Slot::Known(p), Slot::Known(q));
    let clauses = [Clause::If(equal, objects), Clause::If(equal, classes)];
    fill(alloc, b, &[], &clauses)
}

// The sentence of this number on an owner.
fn split_one(
    alloc: Global,
    b: &mut Bank,
    number: u128,
    p: TermId,
) -> Result<Option<FormulaId>, AllocError>
    requires { HasTerm b.old p }
    ensures at { (cs : List ClassTree) → IsBankOf cs b.old → IfOk result (λ o. IsNumberOf b.new o (split_of cs number (term_at b.old p ∷ []))) }
    ensures grown { IsGrown b.old b.new }
{
    if !is_pair_at(b, p) || number != 0 || !b.have_sorts(&[Sort::Rest], &[p]) {
        return Ok(None);
    }
    let f = no_group(alloc, b, p)?;
    Ok(Some(f))
}

// The sentence of this number on two owners.
fn split_two(
    alloc: Global,
    b: &mut Bank,
    number: u128,
    p: TermId,
    q: TermId,
) -> Result<Option<FormulaId>, AllocError>
    requires left { HasTerm b.old p }
    requires right { HasTerm b.old q }
    ensures at { (cs : List ClassTree) → IsBankOf cs b.old → IfOk result (λ o. IsNumberOf b.new o (split_of cs number (term_at b.old p ∷ term_at b.old q ∷ []))) }
    ensures grown { IsGrown b.old b.new }
{
    let Some(left) = pair_parts(b, p) else {
        return Ok(None);
    };
    let Some(right) = pair_parts(b, q) else {
        return Ok(None);
    };
    if number != 1 {
        return Ok(None);
    }
    if !b.have_sorts(&[Sort::Rest, Sort::Rest], &[p, q]) {
        return Ok(None);
    }
    let f = agreeing_pairs(alloc, b, (p, q), left, right)?;
    Ok(Some(f))
}

/// The sentence of this number on pairs: they are no groups, and equal ones have equal parts. An error is want of memory.
pub fn split_rule(
    alloc: Global,
    b: &mut Bank,
    number: u128,
    arguments: &[TermId],
) -> Result<Option<FormulaId>, AllocError>
    requires { HasTerms b.old arguments.now }
    ensures at { (cs : List ClassTree) → IsBankOf cs b.old → IfOk result (λ o. IsNumberOf b.new o (split_of cs number (terms_at b.old arguments.now))) }
    ensures grown { IsGrown b.old b.new }
{
    match arguments {
        [p] => split_one(alloc, b, number, *p),
        [p, q] => split_two(alloc, b, number, *p, *q),
        _ => Ok(None),
    }
}
