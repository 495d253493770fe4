// The reference that a store allocates next.

ghost use Rattle.std.specs.Prelude.{◌≡◌, List, [], ◌∷◌, IfOk, option_map};
ghost use Rattle.ss_core.specs.Tree.{ClassTree};
ghost use Rattle.ss_logic.specs.Rules.{next_is_new, new_is_grouped, group_is_new, store_before, fresh_of};
ghost use Rattle.ss_terms.specs.Forms.{term_at, terms_at, formula_at, HasTerm, HasTerms, HasFormula, IsGrown, IsBankOf};
ghost use Rattle.ss_terms.specs.Numbered.{IsNumberOf};

use crate::arguments::before_new;
use crate::{Claim, Clause, Plan, Slot, fill};
use ss_logic::Sort;
use ss_terms::{Bank, FormulaId, Predicate, Symbol, TermId};
use std::alloc::{AllocError, Global};

// It isn't allocated, and isn't null.
fn next_new(alloc: Global, b: &mut Bank, s: TermId) -> Result<FormulaId, AllocError>
    requires { HasTerm b.old s }
    ensures at { IfOk result (λ f. HasFormula b.new f × (formula_at b.new f ≡ next_is_new (term_at b.old s))) }
    ensures grown { IsGrown b.old b.new }
{
    let s = Slot::Known(s);
    let plans = [Plan::One(Symbol::Next, s), Plan::Leaf(Symbol::Null)];
    let clauses = [
        Clause::Fact(Claim::Not(Predicate::Allocated, s, Slot::Made(0))),
        Clause::Fact(Claim::Not(Predicate::Equal, Slot::Made(0), Slot::Made(1))),
    ];
    fill(alloc, b, &plans, &clauses)
}

// In the store with a new object its owner is a group.
fn new_grouped(
    alloc: Global,
    b: &mut Bank,
    after: TermId,
    s: TermId,
) -> Result<FormulaId, AllocError>
    requires after { HasTerm b.old after }
    requires store { HasTerm b.old s }
    ensures at { IfOk result (λ f. HasFormula b.new f × (formula_at b.new f ≡ new_is_grouped (term_at b.old after) (term_at b.old s))) }
    ensures grown { IsGrown b.old b.new }
{
    let plans = [
        Plan::One(Symbol::Next, Slot::Known(s)),
        Plan::Two(Symbol::Owner, Slot::Known(after), Slot::Made(0)),
    ];
    fill(
        alloc,
        b,
        &plans,
        &[Clause::Fact(Claim::Group(Slot::Made(1)))],
    )
}

// Which is the owner of no object that was allocated.
fn group_new(
    alloc: Global,
    b: &mut Bank,
    after: TermId,
    s: TermId,
    o: TermId,
) -> Result<FormulaId, AllocError>
    requires after { HasTerm b.old after }
    requires store { HasTerm b.old s }
    requires object { HasTerm b.old o }
    ensures at { IfOk result (λ f. HasFormula b.new f × (formula_at b.new f ≡ group_is_new (term_at b.old after) (term_at b.old s) (term_at b.old o))) }
    ensures grown { IsGrown b.old b.new }
{
    let (s, o) = (Slot::Known(s), Slot::Known(o));
    let plans = [
        Plan::Two(Symbol::Owner, s, o),
        Plan::One(Symbol::Next, s),
        Plan::Two(Symbol::Owner, Slot::Known(after), Slot::Made(1)),
    ];
    let clause = Clause::If(
        Claim::Is(Predicate::Allocated, s, o),
        Claim::Not(Predicate::Equal, Slot::Made(0), Slot::Made(2)),
    );
    fill(alloc, b, &plans, &[clause])
}

// The sentence of this number on a store.
fn fresh_store(
    alloc: Global,
    b: &mut Bank,
    number: u128,
    s: TermId,
) -> Result<Option<FormulaId>, AllocError>
    requires { HasTerm b.old s }
    ensures at { (cs : List ClassTree) → IsBankOf cs b.old → IfOk result (λ o. IsNumberOf b.new o (fresh_of cs number (term_at b.old s ∷ []))) }
    ensures grown { IsGrown b.old b.new }
{
    if !b.have_sorts(&[Sort::Store], &[s]) {
        return Ok(None);
    }
    if number == 0 {
        let f = next_new(alloc, b, s)?;
        return Ok(Some(f));
    }
    if number != 1 {
        return Ok(None);
    }
    let Some(before) = before_new(b, s) else {
        return Ok(None);
    };
    let f = new_grouped(alloc, b, s, before)?;
    Ok(Some(f))
}

// The sentence of this number on a store and an object.
fn fresh_object(
    alloc: Global,
    b: &mut Bank,
    number: u128,
    s: TermId,
    o: TermId,
) -> Result<Option<FormulaId>, AllocError>
    requires store { HasTerm b.old s }
    requires object { HasTerm b.old o }
    ensures at { (cs : List ClassTree) → IsBankOf cs b.old → IfOk result (λ r. IsNumberOf b.new r (fresh_of cs number (term_at b.old s ∷ term_at b.old o ∷ []))) }
    ensures grown { IsGrown b.old b.new }
{
    if number != 2 || !b.have_sorts(&[Sort::Store, Sort::Rest], &[s, o]) {
        return Ok(None);
    }
    let Some(before) = before_new(b, s) else {
        return Ok(None);
    };
    let f = group_new(alloc, b, s, before, o)?;
    Ok(Some(f))
}

/// The sentence of this number on the reference that a store allocates next. An error is want of memory.
pub fn fresh_rule(
    alloc: Global,
    b: &mut Bank,
    number: u128,
    arguments: &[TermId],
) -> Result<Option<FormulaId>, AllocError>
    requires { HasTerms b.old arguments.now }
    ensures at { (cs : List ClassTree) → IsBankOf cs b.old → IfOk result (λ o. IsNumberOf b.new o (fresh_of cs number (terms_at b.old arguments.now))) }
    ensures grown { IsGrown b.old b.new }
{
    match arguments {
        [s] => fresh_store(alloc, b, number, *s),
        [s, o] => fresh_object(alloc, b, number, *s, *o),
        _ => Ok(None),
    }
}
