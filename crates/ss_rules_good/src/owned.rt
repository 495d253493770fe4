// An owned object is committed exactly where its owner is packed, and a member of a group isn't.

ghost use Rattle.std.specs.Prelude.{◌≡◌, List, [], ◌∷◌, IfOk};
ghost use Rattle.ss_core.specs.Tree.{ClassTree};
ghost use Rattle.ss_logic.specs.Good.{grouped_uncommitted, owned_committed, owned_by_number, owned_of};
ghost use Rattle.ss_terms.specs.Forms.{term_at, terms_at, formula_at, HasTerm, HasTerms, HasFormula, IsGrown, IsBankOf};
ghost use Rattle.ss_terms.specs.Numbered.{IsNumberOf};

use ss_logic::Sort;
use ss_rules_basic::{Claim, Clause, Plan, Slot, fill, natural};
use ss_terms::{Bank, FormulaId, Predicate, Symbol, TermId};
use std::alloc::{AllocError, Global};

// A member of a group isn't committed.
fn uncommitted(alloc: Global, b: &mut Bank, s: TermId, p: TermId) -> Result<FormulaId, AllocError>
    requires store { HasTerm b.old s }
    requires object { HasTerm b.old p }
    ensures at { IfOk result (λ f. HasFormula b.new f × (formula_at b.new f ≡ grouped_uncommitted (term_at b.old s) (term_at b.old p))) }
    ensures grown { IsGrown b.old b.new }
{
    let (s, p) = (Slot::Known(s), Slot::Known(p));
    let clause = Clause::IfTwo(
        Claim::Is(Predicate::Allocated, s, p),
        Claim::Group(Slot::Made(0)),
        Claim::Not(Predicate::Committed, s, p),
    );
    fill(alloc, b, &[Plan::Two(Symbol::Owner, s, p)], &[clause])
}

// It is committed exactly where its owner is packed at the class.
fn committed_owned(
    alloc: Global,
    b: &mut Bank,
    s: TermId,
    p: TermId,
    owner: (TermId, TermId),
) -> Result<FormulaId, AllocError>
    requires store { HasTerm b.old s }
    requires object { HasTerm b.old p }
    requires owner { HasTerm b.old owner.0 }
    requires class { HasTerm b.old owner.1 }
    ensures at { IfOk result (λ f. HasFormula b.new f × (formula_at b.new f ≡ owned_committed (term_at b.old s) (term_at b.old p) (term_at b.old owner.0) (term_at b.old owner.1))) }
    ensures grown { IsGrown b.old b.new }
{
    let (s, p) = (Slot::Known(s), Slot::Known(p));
    let (o, t) = (Slot::Known(owner.0), Slot::Known(owner.1));
    let plans = [
        Plan::Two(Symbol::Owner, s, p),
        Plan::Two(Symbol::Pair, o, t),
        Plan::Two(Symbol::Level, s, o),
    ];
    let allocated = Claim::Is(Predicate::Allocated, s, p);
    let owned = Claim::Is(Predicate::Equal, Slot::Made(0), Slot::Made(1));
    let clauses = [
        Clause::IfThree(
            allocated,
            owned,
            Claim::Is(Predicate::Committed, s, p),
            Claim::Is(Predicate::Sub, Slot::Made(2), t),
        ),
        Clause::IfThree(
            allocated,
            owned,
            Claim::Not(Predicate::Committed, s, p),
            Claim::Not(Predicate::Sub, Slot::Made(2), t),
        ),
    ];
    fill(alloc, b, &plans, &clauses)
}

// The sentence of this number on a member of a group.
fn owned_one(
    alloc: Global,
    b: &mut Bank,
    s: TermId,
    number: u128,
    p: TermId,
) -> Result<Option<FormulaId>, AllocError>
    requires store { HasTerm b.old s }
    requires object { HasTerm b.old p }
    ensures at { (cs : List ClassTree) → IsBankOf cs b.old → IfOk result (λ r. IsNumberOf b.new r (owned_by_number cs (term_at b.old s) number (term_at b.old p ∷ []))) }
    ensures grown { IsGrown b.old b.new }
{
    if number != 1 || !b.have_sorts(&[Sort::Rest], &[p]) {
        return Ok(None);
    }
    let f = uncommitted(alloc, b, s, p)?;
    Ok(Some(f))
}

// The sentence of this number on an owned object, its owner and the class.
fn owned_three(
    alloc: Global,
    b: &mut Bank,
    s: TermId,
    number: u128,
    p: TermId,
    owner: (TermId, TermId),
) -> Result<Option<FormulaId>, AllocError>
    requires store { HasTerm b.old s }
    requires object { HasTerm b.old p }
    requires owner { HasTerm b.old owner.0 }
    requires class { HasTerm b.old owner.1 }
    ensures at { (cs : List ClassTree) → IsBankOf cs b.old → IfOk result (λ r. IsNumberOf b.new r (owned_by_number cs (term_at b.old s) number (term_at b.old p ∷ term_at b.old owner.0 ∷ term_at b.old owner.1 ∷ []))) }
    ensures grown { IsGrown b.old b.new }
{
    let (o, t) = owner;
    if number != 0 || !b.have_sorts(&[Sort::Rest, Sort::Rest, Sort::Rest], &[p, o, t]) {
        return Ok(None);
    }
    let f = committed_owned(alloc, b, s, p, owner)?;
    Ok(Some(f))
}

// The sentence of this number on owned objects.
fn owned_numbered(
    alloc: Global,
    b: &mut Bank,
    s: TermId,
    number: u128,
    arguments: &[TermId],
) -> Result<Option<FormulaId>, AllocError>
    requires store { HasTerm b.old s }
    requires arguments { HasTerms b.old arguments.now }
    ensures at { (cs : List ClassTree) → IsBankOf cs b.old → IfOk result (λ r. IsNumberOf b.new r (owned_by_number cs (term_at b.old s) number (terms_at b.old arguments.now))) }
    ensures grown { IsGrown b.old b.new }
{
    match arguments {
        [p] => owned_one(alloc, b, s, number, *p),
        [p, o, t] => owned_three(alloc, b, s, number, *p, (*o, *t)),
        _ => Ok(None),
    }
}

// The rule on owned objects.
pub(crate) fn owned_rule(
    alloc: Global,
    b: &mut Bank,
    s: TermId,
    arguments: &[TermId],
) -> Result<Option<FormulaId>, AllocError>
    requires store { HasTerm b.old s }
    requires arguments { HasTerms b.old arguments.now }
    ensures at { (cs : List ClassTree) → IsBankOf cs b.old → IfOk result (λ r. IsNumberOf b.new r (owned_of cs (term_at b.old s) (terms_at b.old arguments.now))) }
    ensures grown { IsGrown b.old b.new }
{
    let [number, rest @ ..] = arguments else {
        return Ok(None);
    };
    let Some(number) = natural(b, *number) else {
        return Ok(None);
    };
    owned_numbered(alloc, b, s, number, rest)
}
