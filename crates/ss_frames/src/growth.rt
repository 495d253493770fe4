// Growth of a store.

ghost use Rattle.std.specs.Prelude.{◌≡◌, ◌↔◌, List, [], ◌∷◌, true, IfOk};
ghost use Rattle.ss_core.specs.Tree.{ClassTree};
ghost use Rattle.ss_logic.specs.declared.Sort.TheVariants as sort;
ghost use Rattle.ss_logic.specs.Values.{Structure};
ghost use Rattle.ss_logic.specs.Terms.{have_sorts};
ghost use Rattle.ss_logic.specs.Formulas.{True};
ghost use Rattle.ss_logic.specs.Frames.{the_object, object_grown, grown};
ghost use Rattle.ss_logic.specs.FrameMeans.{store_of};
ghost use Rattle.ss_logic.specs.FrameMeans as means;
ghost use Rattle.ss_terms.specs.Forms.{term_at, formula_at, HasTerm, HasFormula, IsGrown};
ghost use Rattle.ss_frames.specs.Calls.{IsTerm, IsMade};

use crate::parts::unless;
use ss_logic::Sort;
use ss_rules_basic::{Claim, Clause, Plan, Slot, fill};
use ss_terms::{Bank, FormulaId, Predicate, Symbol, Term, TermId};
use std::alloc::{AllocError, Global};

// The object is allocated, is ready where it was, and keeps an owner that is no group.
fn object_grown(
    alloc: Global,
    b: &mut Bank,
    before: TermId,
    after: TermId,
    object: TermId,
) -> Result<FormulaId, AllocError>
    requires before { HasTerm b.old before }
    requires after { HasTerm b.old after }
    requires object { IsTerm b.old object the_object }
    ensures at { IfOk result (λ f. IsMade b.new f (object_grown (term_at b.old before) (term_at b.old after))) }
    ensures grown { IsGrown b.old b.new }
{
    let (s, r, o) = (Slot::Known(before), Slot::Known(after), Slot::Known(object));
    let (f, was_owner, owner) = (Symbol::Owner, Slot::Made(0), Slot::Made(1));
    let was_ready = Claim::Is(Predicate::Ready, s, o);
    let is_ready = Claim::Is(Predicate::Ready, r, o);
    let same = Claim::Is(Predicate::Equal, owner, was_owner);
    let clauses = [
        Clause::Fact(Claim::Is(Predicate::Allocated, r, o)),
        Clause::If(was_ready, is_ready),
        Clause::If(Claim::NoGroup(was_owner), same),
    ];
    fill(
        alloc,
        b,
        &[Plan::Two(f, s, o), Plan::Two(f, r, o)],
        &clauses,
    )
}

// Each object that was allocated has grown.
fn objects_grown(
    alloc: Global,
    b: &mut Bank,
    before: TermId,
    after: TermId,
    object: TermId,
) -> Result<FormulaId, AllocError>
    requires before { HasTerm b.old before }
    requires after { HasTerm b.old after }
    requires object { IsTerm b.old object the_object }
    ensures at { IfOk result (λ f. IsMade b.new f (grown (term_at b.old before) (term_at b.old after))) }
    ensures grown { IsGrown b.old b.new }
{
    let has_grown = object_grown(alloc, b, before, after, object)?;
    let new = b.atom(false, Predicate::Allocated, &[before, object])?;
    let body = unless(alloc, b, &[new], has_grown)?;
    b.forall(&[Sort::Rest], body)
}

/// The later store has grown out of the earlier one: what was allocated is, what was ready is, and an owner that is no group stays.
/// An error is want of memory; what the bank had before stays.
pub fn grown(
    alloc: Global,
    b: &mut Bank,
    before: TermId,
    after: TermId,
) -> Result<FormulaId, AllocError>
    requires before { HasTerm b.old before }
    requires after { HasTerm b.old after }
    ensures at { IfOk result (λ f. HasFormula b.new f × (formula_at b.new f ≡ grown (term_at b.old before) (term_at b.old after))) }
    ensures means { IfOk result (λ f. (cs : List ClassTree) (s : Structure) → have_sorts cs (sort.Store ∷ sort.Store ∷ []) (term_at b.old before ∷ term_at b.old after ∷ []) ≡ true →
        True cs s [] (formula_at b.new f) ↔ means.IsGrown (store_of cs s (term_at b.old before)) (store_of cs s (term_at b.old after))) }
    ensures grown { IsGrown b.old b.new }
{
    let object = b.term(Term::Bound(0))?;
    objects_grown(alloc, b, before, after, object)
}
