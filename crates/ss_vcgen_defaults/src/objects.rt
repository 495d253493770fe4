// What default conditions say of objects.

ghost use Rattle.std.specs.Prelude.{◌≡◌, [], ◌∷◌, IfOk, map};
ghost use Rattle.ss_logic.specs.Express as spec;
ghost use Rattle.ss_logic.specs.Shapes.{null_term, equal, allocated};
ghost use Rattle.ss_logic.specs.declared.Sort.TheVariants as sort;
ghost use Rattle.ss_logic.specs.Formulas as logic;
ghost use Rattle.ss_terms.specs.Forms.{term_at, formula_at, HasTerm, HasFormula, IsGrown};
ghost use Rattle.ss_vcgen_defaults.specs.Defaults.{slot_of, at_default, at_level, full_if_owned, full_if_peer, no_peer, number_of};
ghost use Rattle.ss_vcgen_express.specs.Numbers.{IsTerm, IsFormula, AreFormulas};

use crate::fields::Held;
use ss_core::ClassId;
use ss_logic::Sort;
use ss_rules_basic::{Claim, Clause, Plan, Slot, fill};
use ss_terms::{Bank, FormulaId, Predicate, Symbol, TermId};
use ss_vcgen_express::{either, for_all};
use std::alloc::{AllocError, Global};

// What a field of this sort holds at first.
fn default_term(bank: &mut Bank, sort: Sort) -> Result<TermId, AllocError>
    ensures at { IfOk result (λ t. IsTerm bank.new t (λ b. spec.default_of_sort sort)) }
    ensures grown { IsGrown bank.old bank.new }
{
    match sort {
        Sort::Whole => bank.number(0),
        Sort::Truth => bank.apply(Symbol::Fixed(false), &[]),
        Sort::Store => bank.null(),
        Sort::Rest => bank.null(),
    }
}

// That a field of the object is at its default.
fn is_default(
    bank: &mut Bank,
    store: TermId,
    x: TermId,
    held: Held,
) -> Result<FormulaId, AllocError>
    requires store { HasTerm bank.old store }
    requires object { HasTerm bank.old x }
    ensures at { IfOk result (λ f. IsFormula bank.new f (λ b. at_default (term_at b store) (term_at b x) (slot_of held))) }
    ensures grown { IsGrown bank.old bank.new }
{
    let value = default_term(bank, held.sort)?;
    let read = bank.read(store, x, held.field)?;
    bank.equality(read, value)
}

// The same of each field.
pub(crate) fn are_default(
    alloc: Global,
    bank: &mut Bank,
    store: TermId,
    x: TermId,
    list: &[Held],
) -> Result<Vec<FormulaId>, AllocError>
    requires store { HasTerm bank.old store }
    requires object { HasTerm bank.old x }
    ensures at { IfOk result (λ v. AreFormulas bank.new v.items (λ b. map (at_default (term_at b store) (term_at b x)) (map slot_of list.now))) }
    ensures grown { IsGrown bank.old bank.new }
{
    let mut made = Vec::new(alloc);
    for held in list {
        let f = is_default(bank, store, x, *held)?;
        made.push(f)?;
    }
    Ok(made)
}

// That the object is at this level and not committed.
pub(crate) fn is_at_level(
    alloc: Global,
    bank: &mut Bank,
    store: TermId,
    x: TermId,
    class: u16,
) -> Result<FormulaId, AllocError>
    requires store { HasTerm bank.old store }
    requires object { HasTerm bank.old x }
    ensures at { IfOk result (λ f. IsFormula bank.new f (λ b. at_level class (term_at b store) (term_at b x))) }
    ensures grown { IsGrown bank.old bank.new }
{
    let plans = [
        Plan::Two(Symbol::Level, Slot::Known(store), Slot::Known(x)),
        Plan::Leaf(Symbol::ClassName(class)),
    ];
    let clauses = [
        Clause::Fact(Claim::Is(Predicate::Equal, Slot::Made(0), Slot::Made(1))),
        Clause::Fact(Claim::Not(Predicate::Committed, Slot::Known(store), Slot::Known(x))),
    ];
    fill(alloc, bank, &plans, &clauses)
}

// That the object is full.
pub(crate) fn is_full(
    alloc: Global,
    bank: &mut Bank,
    store: TermId,
    x: TermId,
) -> Result<FormulaId, AllocError>
    requires store { HasTerm bank.old store }
    requires object { HasTerm bank.old x }
    ensures at { IfOk result (λ f. IsFormula bank.new f (λ b. spec.is_full (term_at b store) (term_at b x))) }
    ensures grown { IsGrown bank.old bank.new }
{
    let plans = [
        Plan::Two(Symbol::Level, Slot::Known(store), Slot::Known(x)),
        Plan::One(Symbol::TypeOf, Slot::Known(x)),
    ];
    let full = Claim::Is(Predicate::Equal, Slot::Made(0), Slot::Made(1));
    fill(alloc, bank, &plans, &[Clause::Fact(full)])
}

// That the object isn't owned by another one at this class, or is full.
fn is_full_if_owned(
    alloc: Global,
    bank: &mut Bank,
    store: TermId,
    v: TermId,
    x: TermId,
    class: u16,
) -> Result<FormulaId, AllocError>
    requires store { HasTerm bank.old store }
    requires object { HasTerm bank.old v }
    requires owner { HasTerm bank.old x }
    ensures at { IfOk result (λ f. IsFormula bank.new f (λ b. full_if_owned (term_at b store) (term_at b v) (term_at b x) class)) }
    ensures grown { IsGrown bank.old bank.new }
{
    let (s, o) = (Slot::Known(store), Slot::Known(v));
    let plans = [
        Plan::Two(Symbol::Owner, s, o),
        Plan::Leaf(Symbol::ClassName(class)),
        Plan::Two(Symbol::Pair, Slot::Known(x), Slot::Made(1)),
        Plan::Two(Symbol::Level, s, o),
        Plan::One(Symbol::TypeOf, o),
    ];
    let owned = Claim::Is(Predicate::Equal, Slot::Made(0), Slot::Made(2));
    let full = Claim::Is(Predicate::Equal, Slot::Made(3), Slot::Made(4));
    fill(alloc, bank, &plans, &[Clause::If(owned, full)])
}

// The same at each of these classes.
pub(crate) fn are_full_if_owned(
    alloc: Global,
    bank: &mut Bank,
    store: TermId,
    v: TermId,
    x: TermId,
    classes: &[ClassId],
) -> Result<Vec<FormulaId>, AllocError>
    requires store { HasTerm bank.old store }
    requires object { HasTerm bank.old v }
    requires owner { HasTerm bank.old x }
    ensures at { IfOk result (λ r. AreFormulas bank.new r.items (λ b. map (full_if_owned (term_at b store) (term_at b v) (term_at b x)) (map number_of classes.now))) }
    ensures grown { IsGrown bank.old bank.new }
{
    let mut made = Vec::new(alloc);
    for class in classes {
        let f = is_full_if_owned(alloc, bank, store, v, x, class.0)?;
        made.push(f)?;
    }
    Ok(made)
}

// That the object isn't of the group of another one, or is full.
pub(crate) fn is_full_if_peer(
    alloc: Global,
    bank: &mut Bank,
    store: TermId,
    v: TermId,
    x: TermId,
) -> Result<FormulaId, AllocError>
    requires store { HasTerm bank.old store }
    requires object { HasTerm bank.old v }
    requires peer { HasTerm bank.old x }
    ensures at { IfOk result (λ f. IsFormula bank.new f (λ b. full_if_peer (term_at b store) (term_at b v) (term_at b x))) }
    ensures grown { IsGrown bank.old bank.new }
{
    let (s, o) = (Slot::Known(store), Slot::Known(v));
    let plans = [
        Plan::Two(Symbol::Owner, s, o),
        Plan::Two(Symbol::Owner, s, Slot::Known(x)),
        Plan::Two(Symbol::Level, s, o),
        Plan::One(Symbol::TypeOf, o),
    ];
    let there = Claim::Is(Predicate::Allocated, s, o);
    let peer = Claim::Is(Predicate::Equal, Slot::Made(0), Slot::Made(1));
    let full = Claim::Is(Predicate::Equal, Slot::Made(2), Slot::Made(3));
    fill(alloc, bank, &plans, &[Clause::IfTwo(there, peer, full)])
}

// That the object is null, or isn't of the group of another one.
pub(crate) fn is_no_peer(
    alloc: Global,
    bank: &mut Bank,
    store: TermId,
    y: TermId,
    x: TermId,
) -> Result<FormulaId, AllocError>
    requires store { HasTerm bank.old store }
    requires object { HasTerm bank.old y }
    requires other { HasTerm bank.old x }
    ensures at { IfOk result (λ f. IsFormula bank.new f (λ b. no_peer (term_at b store) (term_at b y) (term_at b x))) }
    ensures grown { IsGrown bank.old bank.new }
{
    let (s, o) = (Slot::Known(store), Slot::Known(y));
    let plans = [
        Plan::Leaf(Symbol::Null),
        Plan::Two(Symbol::Owner, s, o),
        Plan::Two(Symbol::Owner, s, Slot::Known(x)),
    ];
    let not_null = Claim::Not(Predicate::Equal, o, Slot::Made(0));
    let apart = Claim::Not(Predicate::Equal, Slot::Made(1), Slot::Made(2));
    fill(alloc, bank, &plans, &[Clause::If(not_null, apart)])
}

// That this is so of each object, where the bound name is one that the store has.
pub(crate) fn of_each(
    bank: &mut Bank,
    store: TermId,
    v: TermId,
    f: FormulaId,
) -> Result<FormulaId, AllocError>
    requires store { HasTerm bank.old store }
    requires object { HasTerm bank.old v }
    requires formula { HasFormula bank.old f }
    ensures at { IfOk result (λ h. IsFormula bank.new h (λ b. logic.Forall (sort.Rest ∷ []) (spec.or_of (logic.neg (allocated (term_at b store) (term_at b v)) ∷ formula_at b f ∷ [])))) }
    ensures grown { IsGrown bank.old bank.new }
{
    let new = bank.atom(false, Predicate::Allocated, &[store, v])?;
    let body = either(bank, new, f)?;
    for_all(bank, Sort::Rest, body)
}

// That the object is null, or the formula holds.
pub(crate) fn unless_null(bank: &mut Bank, x: TermId, f: FormulaId) -> Result<FormulaId, AllocError>
    requires object { HasTerm bank.old x }
    requires formula { HasFormula bank.old f }
    ensures at { IfOk result (λ h. IsFormula bank.new h (λ b. spec.or_of (equal (term_at b x) null_term ∷ formula_at b f ∷ []))) }
    ensures grown { IsGrown bank.old bank.new }
{
    let null = bank.null()?;
    let is_null = bank.equality(x, null)?;
    either(bank, is_null, f)
}
