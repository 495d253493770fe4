// What is said of the value of an expression.

ghost use Rattle.std.specs.Prelude.{◌≡◌, [], ◌∷◌, true, IfOk};
ghost use Rattle.ss_logic.specs.Terms.{app, terms_from};
ghost use Rattle.ss_logic.specs.Formulas as logic;
ghost use Rattle.ss_logic.specs.Shapes.{class_term, level_of, owner_of, pair_of, equal, committed, group};
ghost use Rattle.ss_logic.specs.Express as spec;
ghost use Rattle.ss_terms.specs.Forms.{symbol_of, predicate_of, term_at, formula_at, HasTerm, HasFormula, IsGrown};
ghost use Rattle.ss_vcgen_express.specs.Sayings.{of_class, related, said_so, HasRelation, HasSaying};
ghost use Rattle.ss_vcgen_heaps.specs.Obligations.{is_index};

use ss_rules_basic::{Claim, Clause, Plan, Slot, fill};
use ss_terms::{Bank, FormulaId, Predicate, Symbol, TermId};
use std::alloc::{AllocError, Global};

/// What is said of two values.
#[derive(Clone, Copy)]
pub enum Relation {
    /// They are equal.
    Equal,
    /// The first is less.
    Less,
    /// The first is at most the second.
    AtMost,
    /// The first is greater.
    Greater,
    /// The first is at least the second.
    AtLeast,
    /// The array has an element at the index.
    HasElement,
    /// The function of them has 32 bits.
    Fits(Symbol),
    /// They have one owner in this store.
    SameOwner(TermId),
    /// The owner of the first in this store is the second at this class.
    OwnedAt(TermId, u16),
}

/// What is said of a value.
#[derive(Clone, Copy)]
pub enum Saying {
    /// It isn't null.
    NotNull,
    /// It is true.
    IsTrue,
    /// It isn't 0.
    NotZero,
    /// This store has it.
    Allocated(TermId),
    /// This store doesn't have it.
    New(TermId),
    /// It is an object of this class or below.
    IsOf(u16),
    /// It is null, or an object of this class or below.
    FitsClass(u16),
    /// It is full in this store, and not committed.
    Consistent(TermId),
    /// It is committed in this store.
    Committed(TermId),
    /// Its level in this store is this class.
    AtLevel(TermId, u16),
    /// Its level in this store is this class or below.
    Packed(TermId, u16),
    /// Its owner in this store is a group.
    Unowned(TermId),
    /// This is so of another value and it.
    Behind(Relation, TermId),
    /// This is so of it and another value.
    Before(Relation, TermId),
}

// An atom of two terms, or its negation.
fn literal(
    bank: &mut Bank,
    holds: bool,
    predicate: Predicate,
    x: TermId,
    y: TermId,
) -> Result<FormulaId, AllocError>
    requires first { HasTerm bank.old x }
    requires second { HasTerm bank.old y }
    ensures at { IfOk result (λ f. HasFormula bank.new f × (formula_at bank.new f ≡ logic.Literal holds (predicate_of predicate) (terms_from (term_at bank.old x ∷ term_at bank.old y ∷ [])))) }
    ensures grown { IsGrown bank.old bank.new }
{
    bank.atom(holds, predicate, &[x, y])
}

// That a result has 32 bits.
fn fits(
    alloc: Global,
    bank: &mut Bank,
    symbol: Symbol,
    x: TermId,
    y: TermId,
) -> Result<FormulaId, AllocError>
    requires first { HasTerm bank.old x }
    requires second { HasTerm bank.old y }
    ensures at { IfOk result (λ f. HasFormula bank.new f × (formula_at bank.new f ≡ spec.fits_int (app (symbol_of symbol) (term_at bank.old x ∷ term_at bank.old y ∷ [])))) }
    ensures grown { IsGrown bank.old bank.new }
{
    let plans = [
        Plan::Two(symbol, Slot::Known(x), Slot::Known(y)),
        Plan::Leaf(Symbol::Number(-2147483648)),
        Plan::Leaf(Symbol::Number(2147483647)),
    ];
    let clauses = [
        Clause::Fact(Claim::Is(Predicate::AtMost, Slot::Made(1), Slot::Made(0))),
        Clause::Fact(Claim::Is(Predicate::AtMost, Slot::Made(0), Slot::Made(2))),
    ];
    fill(alloc, bank, &plans, &clauses)
}

// That an array has an element at an index.
fn has_element(
    alloc: Global,
    bank: &mut Bank,
    array: TermId,
    index: TermId,
) -> Result<FormulaId, AllocError>
    requires array { HasTerm bank.old array }
    requires index { HasTerm bank.old index }
    ensures at { IfOk result (λ f. HasFormula bank.new f × (formula_at bank.new f ≡ is_index (term_at bank.old array) (term_at bank.old index))) }
    ensures grown { IsGrown bank.old bank.new }
{
    let plans = [
        Plan::Leaf(Symbol::Number(0)),
        Plan::One(Symbol::Length, Slot::Known(array)),
    ];
    let index = Slot::Known(index);
    let clauses = [
        Clause::Fact(Claim::Is(Predicate::AtMost, Slot::Made(0), index)),
        Clause::Fact(Claim::Not(Predicate::AtMost, Slot::Made(1), index)),
    ];
    fill(alloc, bank, &plans, &clauses)
}

// That two objects have one owner.
fn same_owner(
    alloc: Global,
    bank: &mut Bank,
    store: TermId,
    x: TermId,
    y: TermId,
) -> Result<FormulaId, AllocError>
    requires store { HasTerm bank.old store }
    requires first { HasTerm bank.old x }
    requires second { HasTerm bank.old y }
    ensures at { IfOk result (λ f. HasFormula bank.new f × (formula_at bank.new f ≡ equal (owner_of (term_at bank.old store) (term_at bank.old x)) (owner_of (term_at bank.old store) (term_at bank.old y)))) }
    ensures grown { IsGrown bank.old bank.new }
{
    let store = Slot::Known(store);
    let plans = [
        Plan::Two(Symbol::Owner, store, Slot::Known(x)),
        Plan::Two(Symbol::Owner, store, Slot::Known(y)),
    ];
    let equal = Claim::Is(Predicate::Equal, Slot::Made(0), Slot::Made(1));
    fill(alloc, bank, &plans, &[Clause::Fact(equal)])
}

// That the owner of an object is another one at a class.
fn owned_at(
    alloc: Global,
    bank: &mut Bank,
    store: TermId,
    class: u16,
    x: TermId,
    y: TermId,
) -> Result<FormulaId, AllocError>
    requires store { HasTerm bank.old store }
    requires first { HasTerm bank.old x }
    requires second { HasTerm bank.old y }
    ensures at { IfOk result (λ f. HasFormula bank.new f × (formula_at bank.new f ≡ equal (owner_of (term_at bank.old store) (term_at bank.old x)) (pair_of (term_at bank.old y) (class_term class)))) }
    ensures grown { IsGrown bank.old bank.new }
{
    let plans = [
        Plan::Two(Symbol::Owner, Slot::Known(store), Slot::Known(x)),
        Plan::Leaf(Symbol::ClassName(class)),
        Plan::Two(Symbol::Pair, Slot::Known(y), Slot::Made(1)),
    ];
    let equal = Claim::Is(Predicate::Equal, Slot::Made(0), Slot::Made(2));
    fill(alloc, bank, &plans, &[Clause::Fact(equal)])
}

// What is said of two values.
pub fn related(
    alloc: Global,
    bank: &mut Bank,
    relation: Relation,
    x: TermId,
    y: TermId,
) -> Result<FormulaId, AllocError>
    requires relation { HasRelation bank.old relation }
    requires first { HasTerm bank.old x }
    requires second { HasTerm bank.old y }
    ensures at { IfOk result (λ f. HasFormula bank.new f × (formula_at bank.new f ≡ related (term_at bank.old) relation (term_at bank.old x) (term_at bank.old y))) }
    ensures grown { IsGrown bank.old bank.new }
{
    match relation {
        Relation::Equal => literal(bank, true, Predicate::Equal, x, y),
        Relation::Less => literal(bank, false, Predicate::AtMost, y, x),
        Relation::AtMost => literal(bank, true, Predicate::AtMost, x, y),
        Relation::Greater => literal(bank, false, Predicate::AtMost, x, y),
        Relation::AtLeast => literal(bank, true, Predicate::AtMost, y, x),
        Relation::HasElement => has_element(alloc, bank, x, y),
        Relation::Fits(symbol) => fits(alloc, bank, symbol, x, y),
        Relation::SameOwner(store) => same_owner(alloc, bank, store, x, y),
        Relation::OwnedAt(store, class) => owned_at(alloc, bank, store, class, x, y),
    }
}

// An atom of a term and what this symbol stands for, or its negation.
fn with_leaf(
    alloc: Global,
    bank: &mut Bank,
    holds: bool,
    x: TermId,
    symbol: Symbol,
) -> Result<FormulaId, AllocError>
    requires { HasTerm bank.old x }
    ensures at { IfOk result (λ f. HasFormula bank.new f × (formula_at bank.new f ≡ logic.Literal holds logic.Equal (terms_from (term_at bank.old x ∷ app (symbol_of symbol) [] ∷ [])))) }
    ensures grown { IsGrown bank.old bank.new }
{
    let plans = [Plan::Leaf(symbol)];
    let claim = if holds {
        Claim::Is(Predicate::Equal, Slot::Known(x), Slot::Made(0))
    } else {
        Claim::Not(Predicate::Equal, Slot::Known(x), Slot::Made(0))
    };
    fill(alloc, bank, &plans, &[Clause::Fact(claim)])
}

// That an object is of a class or below; null is or isn't let through.
fn is_of(
    alloc: Global,
    bank: &mut Bank,
    or_null: bool,
    class: u16,
    x: TermId,
) -> Result<FormulaId, AllocError>
    requires { HasTerm bank.old x }
    ensures at { IfOk result (λ f. HasFormula bank.new f × (formula_at bank.new f ≡ of_class or_null class (term_at bank.old x))) }
    ensures grown { IsGrown bank.old bank.new }
{
    let plans = [
        Plan::Leaf(Symbol::Null),
        Plan::One(Symbol::TypeOf, Slot::Known(x)),
        Plan::Leaf(Symbol::ClassName(class)),
    ];
    let not_null = Claim::Not(Predicate::Equal, Slot::Known(x), Slot::Made(0));
    let is_below = Claim::Is(Predicate::Sub, Slot::Made(1), Slot::Made(2));
    if or_null {
        fill(alloc, bank, &plans, &[Clause::If(not_null, is_below)])
    } else {
        fill(
            alloc,
            bank,
            &plans,
            &[Clause::Fact(not_null), Clause::Fact(is_below)],
        )
    }
}

// That an object is at a level, or below it.
fn has_level(
    alloc: Global,
    bank: &mut Bank,
    store: TermId,
    predicate: Predicate,
    class: u16,
    x: TermId,
) -> Result<FormulaId, AllocError>
    requires store { HasTerm bank.old store }
    requires object { HasTerm bank.old x }
    ensures at { IfOk result (λ f. HasFormula bank.new f × (formula_at bank.new f ≡ logic.Literal true (predicate_of predicate) (terms_from (level_of (term_at bank.old store) (term_at bank.old x) ∷ class_term class ∷ [])))) }
    ensures grown { IsGrown bank.old bank.new }
{
    let plans = [
        Plan::Two(Symbol::Level, Slot::Known(store), Slot::Known(x)),
        Plan::Leaf(Symbol::ClassName(class)),
    ];
    let claim = Claim::Is(predicate, Slot::Made(0), Slot::Made(1));
    fill(alloc, bank, &plans, &[Clause::Fact(claim)])
}

// That an object is full and not committed.
fn is_consistent(
    alloc: Global,
    bank: &mut Bank,
    store: TermId,
    x: TermId,
) -> Result<FormulaId, AllocError>
    requires store { HasTerm bank.old store }
    requires object { HasTerm bank.old x }
    ensures at { IfOk result (λ f. HasFormula bank.new f × (formula_at bank.new f ≡ spec.and_of (spec.is_full (term_at bank.old store) (term_at bank.old x) ∷ logic.neg (committed (term_at bank.old store) (term_at bank.old x)) ∷ []))) }
    ensures grown { IsGrown bank.old bank.new }
{
    let plans = [
        Plan::Two(Symbol::Level, Slot::Known(store), Slot::Known(x)),
        Plan::One(Symbol::TypeOf, Slot::Known(x)),
    ];
    let clauses = [
        Clause::Fact(Claim::Is(Predicate::Equal, Slot::Made(0), Slot::Made(1))),
        Clause::Fact(Claim::Not(Predicate::Committed, Slot::Known(store), Slot::Known(x))),
    ];
    fill(alloc, bank, &plans, &clauses)
}

// That the owner of an object is a group.
fn is_unowned(
    alloc: Global,
    bank: &mut Bank,
    store: TermId,
    x: TermId,
) -> Result<FormulaId, AllocError>
    requires store { HasTerm bank.old store }
    requires object { HasTerm bank.old x }
    ensures at { IfOk result (λ f. HasFormula bank.new f × (formula_at bank.new f ≡ group (owner_of (term_at bank.old store) (term_at bank.old x)))) }
    ensures grown { IsGrown bank.old bank.new }
{
    let plans = [Plan::Two(Symbol::Owner, Slot::Known(store), Slot::Known(x))];
    fill(
        alloc,
        bank,
        &plans,
        &[Clause::Fact(Claim::Group(Slot::Made(0)))],
    )
}

// What is said of a value.
pub fn said_so(
    alloc: Global,
    bank: &mut Bank,
    saying: Saying,
    x: TermId,
) -> Result<FormulaId, AllocError>
    requires saying { HasSaying bank.old saying }
    requires value { HasTerm bank.old x }
    ensures at { IfOk result (λ f. HasFormula bank.new f × (formula_at bank.new f ≡ said_so (term_at bank.old) saying (term_at bank.old x))) }
    ensures grown { IsGrown bank.old bank.new }
{
    match saying {
        Saying::NotNull => with_leaf(alloc, bank, false, x, Symbol::Null),
        Saying::IsTrue => with_leaf(alloc, bank, true, x, Symbol::Fixed(true)),
        Saying::NotZero => with_leaf(alloc, bank, false, x, Symbol::Number(0)),
        Saying::Allocated(store) => literal(bank, true, Predicate::Allocated, store, x),
        Saying::New(store) => literal(bank, false, Predicate::Allocated, store, x),
        Saying::IsOf(class) => is_of(alloc, bank, false, class, x),
        Saying::FitsClass(class) => is_of(alloc, bank, true, class, x),
        Saying::Consistent(store) => is_consistent(alloc, bank, store, x),
        Saying::Committed(store) => literal(bank, true, Predicate::Committed, store, x),
        Saying::AtLevel(store, class) => {
            has_level(alloc, bank, store, Predicate::Equal, class, x)
        }
        Saying::Packed(store, class) => has_level(alloc, bank, store, Predicate::Sub, class, x),
        Saying::Unowned(store) => is_unowned(alloc, bank, store, x),
        Saying::Behind(relation, y) => related(alloc, bank, relation, y, x),
        Saying::Before(relation, y) => related(alloc, bank, relation, x, y),
    }
}
