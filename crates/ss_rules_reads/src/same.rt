// Reads that give the same over two stores.

ghost use Rattle.std.specs.Prelude.{◌≡◌, [], ◌∷◌, IfOk};
ghost use Rattle.ss_logic.specs.Shapes.{equal, all_of};
ghost use Rattle.ss_logic.specs.Reads.{AtomLooked, agreeing, same_over};
ghost use Rattle.ss_terms.specs.Forms.{term_at, formula_at, predicate_of, HasTerm, HasFormula, IsGrown};
ghost use Rattle.ss_rules_basic.specs.Looks.{atom_of, look_in, HasLook};

use ss_rules_basic::{Claim, Clause, Look, Plan, Slot, fill};
use ss_terms::{Bank, FormulaId, Predicate, Symbol, TermId};
use std::alloc::{AllocError, Global};

// The read gives the same over the second store as over the first.
pub(crate) fn same_read(
    alloc: Global,
    b: &mut Bank,
    look: Look,
    stores: (TermId, TermId),
) -> Result<FormulaId, AllocError>
    requires look { HasLook b.old look }
    requires first { HasTerm b.old stores.0 }
    requires second { HasTerm b.old stores.1 }
    ensures at { IfOk result (λ f. HasFormula b.new f × (formula_at b.new f ≡ all_of (same_over (look_in b.old look) (term_at b.old stores.0) (term_at b.old stores.1) []))) }
    ensures grown { IsGrown b.old b.new }
{
    let same = Clause::Fact(Claim::Is(Predicate::Equal, Slot::Made(0), Slot::Made(1)));
    let (s, r) = (Slot::Known(stores.0), Slot::Known(stores.1));
    match look {
        Look::Field(o, f) => {
            let (o, f) = (Slot::Known(o), Symbol::Field(f));
            fill(alloc, b, &[Plan::Two(f, s, o), Plan::Two(f, r, o)], &[same])
        }
        Look::Element(sort, a, i) => {
            let (a, i, f) = (Slot::Known(a), Slot::Known(i), Symbol::Element(sort));
            fill(
                alloc,
                b,
                &[Plan::Three(f, s, a, i), Plan::Three(f, r, a, i)],
                &[same],
            )
        }
        Look::Level(o) => {
            let (o, f) = (Slot::Known(o), Symbol::Level);
            fill(alloc, b, &[Plan::Two(f, s, o), Plan::Two(f, r, o)], &[same])
        }
        Look::Owner(o) => {
            let (o, f) = (Slot::Known(o), Symbol::Owner);
            fill(alloc, b, &[Plan::Two(f, s, o), Plan::Two(f, r, o)], &[same])
        }
        Look::Next => {
            let f = Symbol::Next;
            fill(alloc, b, &[Plan::One(f, s), Plan::One(f, r)], &[same])
        }
        Look::Allocated(o) => same_atoms(alloc, b, Predicate::Allocated, stores, o),
        Look::Committed(o) => same_atoms(alloc, b, Predicate::Committed, stores, o),
        Look::Ready(o) => same_atoms(alloc, b, Predicate::Ready, stores, o),
        Look::Length(_) => fill(alloc, b, &[], &[]),
    }
}

// The atom of the object has one truth in both stores.
fn same_atoms(
    alloc: Global,
    b: &mut Bank,
    predicate: Predicate,
    stores: (TermId, TermId),
    o: TermId,
) -> Result<FormulaId, AllocError>
    requires first { HasTerm b.old stores.0 }
    requires second { HasTerm b.old stores.1 }
    requires object { HasTerm b.old o }
    ensures at { IfOk result (λ f. HasFormula b.new f × (formula_at b.new f ≡ all_of (agreeing [] (AtomLooked (atom_of (predicate_of predicate) (term_at b.old stores.0) (term_at b.old o))) (AtomLooked (atom_of (predicate_of predicate) (term_at b.old stores.1) (term_at b.old o)))))) }
    ensures grown { IsGrown b.old b.new }
{
    let (s, r, o) = (Slot::Known(stores.0), Slot::Known(stores.1), Slot::Known(o));
    let clauses = [
        Clause::If(Claim::Is(predicate, s, o), Claim::Is(predicate, r, o)),
        Clause::If(Claim::Not(predicate, s, o), Claim::Not(predicate, r, o)),
    ];
    fill(alloc, b, &[], &clauses)
}

// The read gives the same over the second store as over the first, where these two stores are equal.
pub(crate) fn equal_read(
    alloc: Global,
    b: &mut Bank,
    look: Look,
    stores: (TermId, TermId),
) -> Result<FormulaId, AllocError>
    requires look { HasLook b.old look }
    requires first { HasTerm b.old stores.0 }
    requires second { HasTerm b.old stores.1 }
    ensures at { IfOk result (λ f. HasFormula b.new f × (formula_at b.new f ≡ all_of (same_over (look_in b.old look) (term_at b.old stores.0) (term_at b.old stores.1) (equal (term_at b.old stores.0) (term_at b.old stores.1) ∷ [])))) }
    ensures grown { IsGrown b.old b.new }
{
    let (s, r) = (Slot::Known(stores.0), Slot::Known(stores.1));
    let equal = Claim::Is(Predicate::Equal, s, r);
    let same = Clause::If(
        equal,
        Claim::Is(Predicate::Equal, Slot::Made(0), Slot::Made(1)),
    );
    match look {
        Look::Field(o, f) => {
            let (o, f) = (Slot::Known(o), Symbol::Field(f));
            fill(alloc, b, &[Plan::Two(f, s, o), Plan::Two(f, r, o)], &[same])
        }
        Look::Element(sort, a, i) => {
            let (a, i, f) = (Slot::Known(a), Slot::Known(i), Symbol::Element(sort));
            fill(
                alloc,
                b,
                &[Plan::Three(f, s, a, i), Plan::Three(f, r, a, i)],
                &[same],
            )
        }
        Look::Level(o) => {
            let (o, f) = (Slot::Known(o), Symbol::Level);
            fill(alloc, b, &[Plan::Two(f, s, o), Plan::Two(f, r, o)], &[same])
        }
        Look::Owner(o) => {
            let (o, f) = (Slot::Known(o), Symbol::Owner);
            fill(alloc, b, &[Plan::Two(f, s, o), Plan::Two(f, r, o)], &[same])
        }
        Look::Next => {
            let f = Symbol::Next;
            fill(alloc, b, &[Plan::One(f, s), Plan::One(f, r)], &[same])
        }
        Look::Allocated(o) => equal_atoms(alloc, b, Predicate::Allocated, stores, o),
        Look::Committed(o) => equal_atoms(alloc, b, Predicate::Committed, stores, o),
        Look::Ready(o) => equal_atoms(alloc, b, Predicate::Ready, stores, o),
        Look::Length(_) => fill(alloc, b, &[], &[]),
    }
}

// The atom of the object has one truth in both stores, where they are equal.
fn equal_atoms(
    alloc: Global,
    b: &mut Bank,
    predicate: Predicate,
    stores: (TermId, TermId),
    o: TermId,
) -> Result<FormulaId, AllocError>
    requires first { HasTerm b.old stores.0 }
    requires second { HasTerm b.old stores.1 }
    requires object { HasTerm b.old o }
    ensures at { IfOk result (λ f. HasFormula b.new f × (formula_at b.new f ≡ all_of (agreeing (equal (term_at b.old stores.0) (term_at b.old stores.1) ∷ []) (AtomLooked (atom_of (predicate_of predicate) (term_at b.old stores.0) (term_at b.old o))) (AtomLooked (atom_of (predicate_of predicate) (term_at b.old stores.1) (term_at b.old o)))))) }
    ensures grown { IsGrown b.old b.new }
{
    let (s, r, o) = (Slot::Known(stores.0), Slot::Known(stores.1), Slot::Known(o));
    let equal = Claim::Is(Predicate::Equal, s, r);
    let clauses = [
        Clause::IfTwo(
            equal,
            Claim::Is(predicate, s, o),
            Claim::Is(predicate, r, o),
        ),
        Clause::IfTwo(
            equal,
            Claim::Not(predicate, s, o),
            Claim::Not(predicate, r, o),
        ),
    ];
    fill(alloc, b, &[], &clauses)
}
