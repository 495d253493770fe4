// What reads give over stores with a new object.

ghost use Rattle.std.specs.Prelude.{◌≡◌, [], ◌∷◌, IfOk};
ghost use Rattle.ss_core.specs.View as view;
ghost use Rattle.ss_logic.specs.Equal.{same_term};
ghost use Rattle.ss_logic.specs.Terms as tree;
ghost use Rattle.ss_logic.specs.Terms.{app, field_sort};
ghost use Rattle.ss_logic.specs.Formulas.{neg};
ghost use Rattle.ss_logic.specs.Shapes.{all_of, next_of, class_term, level_of, differ, committed, ready, where_different};
ghost use Rattle.ss_logic.specs.Reads.{default_term, same_over, new_at, new_atom, over_new};
ghost use Rattle.ss_terms.specs.Forms.{symbol_of, term_at, formula_at, HasTerm, HasFormula, IsGrown, IsBankOf};
ghost use Rattle.ss_rules_basic.specs.Looks.{look_in, HasLook};
ghost use Rattle.ss_rules_reads.specs.New.{signed, newly_allocated};

use crate::changes::Stores;
use crate::placed::{Places, added_atom, placed_atom, placed_term};
use ss_core::Classes;
use ss_logic::Sort;
use ss_rules_basic::{Claim, Clause, Look, Plan, Slot, fill, next_store};
use ss_terms::{Bank, FormulaId, Predicate, Symbol, TermId};
use std::alloc::{AllocError, Global};

// Whether the term is the reference that the store allocates next.
fn is_next(b: &Bank, t: TermId, s: TermId) -> bool
    requires term { HasTerm b.now t }
    requires store { HasTerm b.now s }
    ensures { result ≡ same_term (term_at b.now t) (next_of (term_at b.now s)) }
{
    match next_store(b, t) {
        Some(r) => b.is_same_term(r, s),
        None => false,
    }
}

// The sort of a field.
fn sort_of_field(b: &Bank, classes: &Classes, f: u32) -> Sort
    requires { IsBankOf (view.classes classes.now) b.now }
    ensures { result ≡ field_sort (view.classes classes.now) f }
{
    let _ = classes;
    b.sort_of_field(f)
}

// What a new field or element of the sort has.
fn default_of(sort: Sort) -> Symbol
    ensures { app (symbol_of result) [] ≡ default_term sort }
{
    match sort {
        Sort::Whole => Symbol::Number(0),
        Sort::Truth => Symbol::Fixed(false),
        Sort::Rest => Symbol::Null,
        Sort::Store => Symbol::Null,
    }
}

// A field of an object, where there is a new one.
fn new_field(
    alloc: Global,
    b: &mut Bank,
    classes: &Classes,
    stores: Stores,
    p: TermId,
    f: u32,
) -> Result<FormulaId, AllocError>
    requires bank { IsBankOf (view.classes classes.now) b.old }
    requires after { HasTerm b.old stores.after }
    requires before { HasTerm b.old stores.before }
    requires read { HasTerm b.old p }
    ensures at { IfOk result (λ r. HasFormula b.new r × (formula_at b.new r ≡ all_of (new_at (FieldLook (term_at b.old p) f) (term_at b.old stores.after) (term_at b.old stores.before) (term_at b.old p) (app (tree.Field f) (term_at b.old stores.after ∷ term_at b.old p ∷ [])) (default_term (field_sort (view.classes classes.now) f))))) }
    ensures grown { IsGrown b.old b.new }
{
    let is_same = is_next(b, p, stores.before);
    let value = default_of(sort_of_field(b, classes, f));
    let (after, before) = (Slot::Known(stores.after), Slot::Known(stores.before));
    let p = Slot::Known(p);
    let plans = [
        Plan::Two(Symbol::Field(f), after, p),
        Plan::Two(Symbol::Field(f), before, p),
        Plan::One(Symbol::Next, before),
        Plan::Leaf(value),
    ];
    let places = Places {
        read: p,
        changed: Slot::Made(2),
        is_same,
    };
    placed_term(alloc, b, &plans, places, Slot::Made(3))
}

ghost use Rattle.ss_logic.specs.Reads.{FieldLook, ElementLook, LevelLook, OwnerLook, CommittedLook, ReadyLook};

// An element of an array, where there is a new object.
fn new_element(
    alloc: Global,
    b: &mut Bank,
    stores: Stores,
    sort: Sort,
    a: TermId,
    i: TermId,
) -> Result<FormulaId, AllocError>
    requires after { HasTerm b.old stores.after }
    requires before { HasTerm b.old stores.before }
    requires array { HasTerm b.old a }
    requires index { HasTerm b.old i }
    ensures at { IfOk result (λ r. HasFormula b.new r × (formula_at b.new r ≡ all_of (new_at (ElementLook sort (term_at b.old a) (term_at b.old i)) (term_at b.old stores.after) (term_at b.old stores.before) (term_at b.old a) (app (tree.Element sort) (term_at b.old stores.after ∷ term_at b.old a ∷ term_at b.old i ∷ [])) (default_term sort)))) }
    ensures grown { IsGrown b.old b.new }
{
    let is_same = is_next(b, a, stores.before);
    let value = default_of(sort);
    let (after, before) = (Slot::Known(stores.after), Slot::Known(stores.before));
    let (a, i) = (Slot::Known(a), Slot::Known(i));
    let plans = [
        Plan::Three(Symbol::Element(sort), after, a, i),
        Plan::Three(Symbol::Element(sort), before, a, i),
        Plan::One(Symbol::Next, before),
        Plan::Leaf(value),
    ];
    let places = Places {
        read: a,
        changed: Slot::Made(2),
        is_same,
    };
    placed_term(alloc, b, &plans, places, Slot::Made(3))
}

// The level of an object, where there is a new one at this level.
fn new_level(
    alloc: Global,
    b: &mut Bank,
    stores: Stores,
    t: u16,
    p: TermId,
) -> Result<FormulaId, AllocError>
    requires after { HasTerm b.old stores.after }
    requires before { HasTerm b.old stores.before }
    requires read { HasTerm b.old p }
    ensures at { IfOk result (λ r. HasFormula b.new r × (formula_at b.new r ≡ all_of (new_at (LevelLook (term_at b.old p)) (term_at b.old stores.after) (term_at b.old stores.before) (term_at b.old p) (level_of (term_at b.old stores.after) (term_at b.old p)) (class_term t)))) }
    ensures grown { IsGrown b.old b.new }
{
    let is_same = is_next(b, p, stores.before);
    let (after, before) = (Slot::Known(stores.after), Slot::Known(stores.before));
    let p = Slot::Known(p);
    let plans = [
        Plan::Two(Symbol::Level, after, p),
        Plan::Two(Symbol::Level, before, p),
        Plan::One(Symbol::Next, before),
        Plan::Leaf(Symbol::ClassName(t)),
    ];
    let places = Places {
        read: p,
        changed: Slot::Made(2),
        is_same,
    };
    placed_term(alloc, b, &plans, places, Slot::Made(3))
}

// The owner of an object, where there is a new one.
fn new_owner(
    alloc: Global,
    b: &mut Bank,
    stores: Stores,
    p: TermId,
) -> Result<FormulaId, AllocError>
    requires after { HasTerm b.old stores.after }
    requires before { HasTerm b.old stores.before }
    requires read { HasTerm b.old p }
    ensures at { IfOk result (λ r. HasFormula b.new r × (formula_at b.new r ≡ all_of (where_different (term_at b.old p) (next_of (term_at b.old stores.before)) (same_over (OwnerLook (term_at b.old p)) (term_at b.old stores.after) (term_at b.old stores.before))))) }
    ensures grown { IsGrown b.old b.new }
{
    if is_next(b, p, stores.before) {
        return fill(alloc, b, &[], &[]);
    }
    let (after, before) = (Slot::Known(stores.after), Slot::Known(stores.before));
    let p = Slot::Known(p);
    let plans = [
        Plan::Two(Symbol::Owner, after, p),
        Plan::Two(Symbol::Owner, before, p),
        Plan::One(Symbol::Next, before),
    ];
    let clause = Clause::If(
        Claim::Not(Predicate::Equal, p, Slot::Made(2)),
        Claim::Is(Predicate::Equal, Slot::Made(0), Slot::Made(1)),
    );
    fill(alloc, b, &plans, &[clause])
}

// The next reference, where there is a new object.
fn new_next(alloc: Global, b: &mut Bank, stores: Stores) -> Result<FormulaId, AllocError>
    requires after { HasTerm b.old stores.after }
    requires before { HasTerm b.old stores.before }
    ensures at { IfOk result (λ r. HasFormula b.new r × (formula_at b.new r ≡ all_of (differ (next_of (term_at b.old stores.after)) (next_of (term_at b.old stores.before)) ∷ []))) }
    ensures grown { IsGrown b.old b.new }
{
    let plans = [
        Plan::One(Symbol::Next, Slot::Known(stores.after)),
        Plan::One(Symbol::Next, Slot::Known(stores.before)),
    ];
    let clause = Clause::Fact(Claim::Not(Predicate::Equal, Slot::Made(0), Slot::Made(1)));
    fill(alloc, b, &plans, &[clause])
}

// Whether an object is allocated, where there is a new one.
fn new_allocated(
    alloc: Global,
    b: &mut Bank,
    stores: Stores,
    p: TermId,
) -> Result<FormulaId, AllocError>
    requires after { HasTerm b.old stores.after }
    requires before { HasTerm b.old stores.before }
    requires read { HasTerm b.old p }
    ensures at { IfOk result (λ r. HasFormula b.new r × (formula_at b.new r ≡ all_of (newly_allocated (term_at b.old stores.after) (term_at b.old stores.before) (term_at b.old p)))) }
    ensures grown { IsGrown b.old b.new }
{
    let is_same = is_next(b, p, stores.before);
    let (after, before) = (Slot::Known(stores.after), Slot::Known(stores.before));
    let plans = [Plan::One(Symbol::Next, before)];
    let places = Places {
        read: Slot::Known(p),
        changed: Slot::Made(0),
        is_same,
    };
    let atoms = (Predicate::Allocated, after, before);
    added_atom(alloc, b, &plans, places, atoms)
}

// Whether an object is committed, where there is a new one.
fn new_committed(
    alloc: Global,
    b: &mut Bank,
    stores: Stores,
    p: TermId,
) -> Result<FormulaId, AllocError>
    requires after { HasTerm b.old stores.after }
    requires before { HasTerm b.old stores.before }
    requires read { HasTerm b.old p }
    ensures at { IfOk result (λ r. HasFormula b.new r × (formula_at b.new r ≡ all_of (new_atom (CommittedLook (term_at b.old p)) (term_at b.old stores.after) (term_at b.old stores.before) (term_at b.old p) (neg (committed (term_at b.old stores.after) (term_at b.old p)))))) }
    ensures grown { IsGrown b.old b.new }
{
    let is_same = is_next(b, p, stores.before);
    let (after, before) = (Slot::Known(stores.after), Slot::Known(stores.before));
    let plans = [Plan::One(Symbol::Next, before)];
    let places = Places {
        read: Slot::Known(p),
        changed: Slot::Made(0),
        is_same,
    };
    let claim = Claim::Not(Predicate::Committed, after, Slot::Known(p));
    let atoms = (Predicate::Committed, after, before);
    placed_atom(alloc, b, &plans, places, claim, atoms)
}

// Whether an object is ready, where there is a new one that is ready.
fn new_ready(
    alloc: Global,
    b: &mut Bank,
    stores: Stores,
    is_ready: bool,
    p: TermId,
) -> Result<FormulaId, AllocError>
    requires after { HasTerm b.old stores.after }
    requires before { HasTerm b.old stores.before }
    requires read { HasTerm b.old p }
    ensures at { IfOk result (λ r. HasFormula b.new r × (formula_at b.new r ≡ all_of (new_atom (ReadyLook (term_at b.old p)) (term_at b.old stores.after) (term_at b.old stores.before) (term_at b.old p) (signed is_ready (ready (term_at b.old stores.after) (term_at b.old p)))))) }
    ensures grown { IsGrown b.old b.new }
{
    let is_same = is_next(b, p, stores.before);
    let (after, before) = (Slot::Known(stores.after), Slot::Known(stores.before));
    let plans = [Plan::One(Symbol::Next, before)];
    let places = Places {
        read: Slot::Known(p),
        changed: Slot::Made(0),
        is_same,
    };
    let atoms = (Predicate::Ready, after, before);
    if is_ready {
        let claim = Claim::Is(Predicate::Ready, after, Slot::Known(p));
        return placed_atom(alloc, b, &plans, places, claim, atoms);
    }
    let claim = Claim::Not(Predicate::Ready, after, Slot::Known(p));
    placed_atom(alloc, b, &plans, places, claim, atoms)
}

// A read where there is a new object at this level, ready or not.
pub(crate) fn new_read(
    alloc: Global,
    b: &mut Bank,
    classes: &Classes,
    stores: Stores,
    made: (u16, bool),
    look: Look,
) -> Result<FormulaId, AllocError>
    requires bank { IsBankOf (view.classes classes.now) b.old }
    requires after { HasTerm b.old stores.after }
    requires before { HasTerm b.old stores.before }
    requires look { HasLook b.old look }
    ensures at { IfOk result (λ r. HasFormula b.new r × (formula_at b.new r ≡ all_of (over_new (view.classes classes.now) (term_at b.old stores.after) made.0 (signed made.1) (term_at b.old stores.before) (look_in b.old look)))) }
    ensures grown { IsGrown b.old b.new }
{
    let (t, is_ready) = made;
    match look {
        Look::Field(p, f) => new_field(alloc, b, classes, stores, p, f),
        Look::Element(sort, a, i) => new_element(alloc, b, stores, sort, a, i),
        Look::Level(p) => new_level(alloc, b, stores, t, p),
        Look::Owner(p) => new_owner(alloc, b, stores, p),
        Look::Next => new_next(alloc, b, stores),
        Look::Allocated(p) => new_allocated(alloc, b, stores, p),
        Look::Committed(p) => new_committed(alloc, b, stores, p),
        Look::Ready(p) => new_ready(alloc, b, stores, is_ready, p),
        Look::Length(_) => fill(alloc, b, &[], &[]),
    }
}
