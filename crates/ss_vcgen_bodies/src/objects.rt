// New objects and new arrays.

ghost use Rattle.std.specs.Prelude.{◌≡◌, [], ◌∷◌, option_map, pos, IfOk, OnOk};
ghost use Rattle.ss_core.specs.View.{body, expr, exprs};
ghost use Rattle.ss_logic.specs.Terms.{Length, app};
ghost use Rattle.ss_logic.specs.Shapes as shape;
ghost use Rattle.ss_logic.specs.Shapes.{number, class_term, next_of, equal, at_most};
ghost use Rattle.ss_terms.specs.Forms.{term_at, HasTerm, HasTerms, IsGrown};
ghost use Rattle.ss_vcgen_heaps.specs.Obligations as spec;
ghost use Rattle.ss_vcgen_express.specs.Numbers.{IsTerm, IsFormula};
ghost use Rattle.ss_vcgen_builder.specs.Builder.{position_at, walk_at, IsFine, IsWalk, Becomes};
ghost use Rattle.ss_vcgen_contracts.specs.Views.{ones_at};
ghost use Rattle.ss_vcgen_statements.specs.Words.{Stays};
ghost use Rattle.ss_vcgen_bodies.specs.CallWords.{object_there, array_there, length_term, length_checked};

use crate::arguments::{behind, settle_list};
use crate::calls::{check_entry, keep, returned};
use ss_core::{Body, ClassId, Expr, Kind, Place};
use ss_core_bodies::constructor_of;
use ss_logic::Sort;
use ss_rules_basic::{Claim, Clause, Plan, Slot, fill};
use ss_terms::{Bank, FormulaId, Predicate, Symbol, TermId};
use ss_vcgen_builder::{Builder, Walk};
use ss_vcgen_contracts::Contract;
use ss_vcgen_statements::{applied, change_store, evaluate};
use std::alloc::{AllocError, Global};

// That the class of an object is this one.
fn class_is(
    alloc: Global,
    bank: &mut Bank,
    o: TermId,
    class: ClassId,
) -> Result<FormulaId, AllocError>
    requires { HasTerm bank.old o }
    ensures at { IfOk result (λ f. IsFormula bank.new f (λ b. equal (shape.type_of (term_at b o)) (class_term class.0))) }
    ensures grown { IsGrown bank.old bank.new }
{
    let plans = [
        Plan::One(Symbol::TypeOf, Slot::Known(o)),
        Plan::Leaf(Symbol::ClassName(class.0)),
    ];
    let same = Claim::Is(Predicate::Equal, Slot::Made(0), Slot::Made(1));
    fill(alloc, bank, &plans, &[Clause::Fact(same)])
}

// That the length of an array is this.
fn length_is(alloc: Global, bank: &mut Bank, a: TermId, n: TermId) -> Result<FormulaId, AllocError>
    requires array { HasTerm bank.old a }
    requires length { HasTerm bank.old n }
    ensures at { IfOk result (λ f. IsFormula bank.new f (λ b. equal (app Length (term_at b a ∷ [])) (term_at b n))) }
    ensures grown { IsGrown bank.old bank.new }
{
    let plans = [Plan::One(Symbol::Length, Slot::Known(a))];
    let same = Claim::Is(Predicate::Equal, Slot::Made(0), Slot::Known(n));
    fill(alloc, bank, &plans, &[Clause::Fact(same)])
}

// That a number isn't negative.
fn not_negative(alloc: Global, bank: &mut Bank, n: TermId) -> Result<FormulaId, AllocError>
    requires { HasTerm bank.old n }
    ensures at { IfOk result (λ f. IsFormula bank.new f (λ b. at_most (number (pos 0)) (term_at b n))) }
    ensures grown { IsGrown bank.old bank.new }
{
    let plans = [Plan::Leaf(Symbol::Number(0))];
    let least = Claim::Is(Predicate::AtMost, Slot::Made(0), Slot::Known(n));
    fill(alloc, bank, &plans, &[Clause::Fact(least)])
}

// The class of the object is this one.
fn class_said(builder: &mut Builder, o: TermId, class: ClassId) -> Result<FormulaId, AllocError>
    requires fine { IsFine builder.old }
    requires object { HasTerm builder.old.bank o }
    ensures at { IfOk result (λ f. IsFormula builder.new.bank f (λ b. equal (shape.type_of (term_at b o)) (class_term class.0))) }
    ensures stays { IfOk result (λ f. Stays builder.old builder.new) }
{
    class_is(builder.alloc, &mut builder.bank, o, class)
}

// The length of the array is this.
fn length_said(builder: &mut Builder, a: TermId, n: TermId) -> Result<FormulaId, AllocError>
    requires fine { IsFine builder.old }
    requires array { HasTerm builder.old.bank a }
    requires length { HasTerm builder.old.bank n }
    ensures at { IfOk result (λ f. IsFormula builder.new.bank f (λ b. equal (app Length (term_at b a ∷ [])) (term_at b n))) }
    ensures stays { IfOk result (λ f. Stays builder.old builder.new) }
{
    length_is(builder.alloc, &mut builder.bank, a, n)
}

// The number isn't negative.
fn not_negative_said(builder: &mut Builder, n: TermId) -> Result<FormulaId, AllocError>
    requires fine { IsFine builder.old }
    requires number { HasTerm builder.old.bank n }
    ensures at { IfOk result (λ f. IsFormula builder.new.bank f (λ b. at_most (number (pos 0)) (term_at b n))) }
    ensures stays { IfOk result (λ f. Stays builder.old builder.new) }
{
    not_negative(builder.alloc, &mut builder.bank, n)
}

// A new object of the class is there.
fn new_object(builder: &mut Builder, class: ClassId) -> Result<TermId, AllocError>
    requires { IsFine builder.old }
    ensures at { IfOk result (λ t. IsTerm builder.new.bank t (λ b. next_of (term_at b builder.old.store))) }
    ensures becomes { IfOk result (λ t. Becomes builder.old builder.new (λ b. object_there class.0 (position_at b builder.old))) }
{
    let store = builder.store;
    let o = applied(builder, Symbol::Next, &[store])?;
    let typed = class_said(builder, o, class)?;
    let there = applied(builder, Symbol::New(class.0), &[store])?;
    builder.assume(typed)?;
    builder.with_store(there)?;
    Ok(o)
}

// The object is ready, where its constructor was delayed.
fn with_ready(builder: &mut Builder, delayed: bool, o: TermId) -> Result<(), AllocError>
    requires fine { IsFine builder.old }
    requires object { HasTerm builder.old.bank o }
    ensures { OnOk result (Becomes builder.old builder.new (λ b. spec.with_ready delayed (term_at b o) (position_at b builder.old))) }
{
    let store = builder.store;
    if delayed {
        change_store(builder, Symbol::MakeReady, &[store, o])
    } else {
        Ok(())
    }
}

// The object after a constructor that is there.
fn constructed_by(
    builder: &mut Builder,
    walk: &Walk<'_>,
    at: Place,
    o: TermId,
    callee: &Body,
    arguments: &[TermId],
) -> Result<(), AllocError>
    requires fine { IsFine builder.old }
    requires walk { IsWalk builder.old.bank walk.now }
    requires object { HasTerm builder.old.bank o }
    requires arguments { HasTerms builder.old.bank arguments.now }
    ensures { OnOk result (Becomes builder.old builder.new (λ b. spec.constructed (walk_at b walk.now) at (term_at b o) (Some (body callee.now)) (ones_at b arguments.now) (position_at b builder.old))) }
{
    let contract = Contract {
        body: callee,
        seen: false,
    };
    let all = behind(builder.alloc, o, arguments)?;
    check_entry(builder, walk, at, contract, &all)?;
    let _results = returned(builder, walk, contract, &all)?;
    with_ready(builder, callee.flags.delayed, o)?;
    Ok(())
}

// The object after its constructor.
fn constructed(
    builder: &mut Builder,
    walk: &Walk<'_>,
    at: Place,
    o: TermId,
    callee: Option<&Body>,
    arguments: &[TermId],
) -> Result<(), AllocError>
    requires fine { IsFine builder.old }
    requires walk { IsWalk builder.old.bank walk.now }
    requires object { HasTerm builder.old.bank o }
    requires arguments { HasTerms builder.old.bank arguments.now }
    ensures { OnOk result (Becomes builder.old builder.new (λ b. spec.constructed (walk_at b walk.now) at (term_at b o) (option_map (λ d. body d.now) callee.entry) (ones_at b arguments.now) (position_at b builder.old))) }
{
    match callee {
        Some(callee) => constructed_by(builder, walk, at, o, callee, arguments),
        None => Ok(()),
    }
}

/// A new object.
pub fn construct(
    builder: &mut Builder,
    walk: &Walk<'_>,
    at: Place,
    x: Option<usize>,
    class: ClassId,
    es: &[Expr],
) -> Result<(), AllocError>
    requires fine { IsFine builder.old }
    requires walk { IsWalk builder.old.bank walk.now }
    ensures { OnOk result (Becomes builder.old builder.new (λ b. spec.construct (walk_at b walk.now) at x class.0 (exprs es.now) (position_at b builder.old))) }
{
    let arguments = settle_list(builder, walk, es)?;
    let o = new_object(builder, class)?;
    constructed(
        builder,
        walk,
        at,
        o,
        constructor_of(walk.core, class),
        &arguments,
    )?;
    keep(builder, x, &[o]);
    Ok(())
}

// The length of a new array isn't negative.
fn check_length(
    builder: &mut Builder,
    walk: &Walk<'_>,
    at: Place,
    e: &Expr,
) -> Result<TermId, AllocError>
    requires fine { IsFine builder.old }
    requires walk { IsWalk builder.old.bank walk.now }
    ensures at { IfOk result (λ t. IsTerm builder.new.bank t (λ b. length_term (walk_at b walk.now) (expr e.now) (position_at b builder.old))) }
    ensures becomes { IfOk result (λ t. Becomes builder.old builder.new (λ b. length_checked (walk_at b walk.now) at (expr e.now) (position_at b builder.old))) }
{
    let meant = evaluate(builder, walk, e)?;
    let n = builder.settle(Sort::Whole, &meant)?;
    let said = not_negative_said(builder, n)?;
    builder.check(walk, Kind::NegativeLength, at, said)?;
    Ok(n)
}

// A new array of this length is there.
fn new_array_object(builder: &mut Builder, class: ClassId, n: TermId) -> Result<TermId, AllocError>
    requires fine { IsFine builder.old }
    requires length { HasTerm builder.old.bank n }
    ensures at { IfOk result (λ t. IsTerm builder.new.bank t (λ b. next_of (term_at b builder.old.store))) }
    ensures becomes { IfOk result (λ t. Becomes builder.old builder.new (λ b. array_there class.0 (term_at b n) (position_at b builder.old))) }
{
    let store = builder.store;
    let o = applied(builder, Symbol::Next, &[store])?;
    let typed = class_said(builder, o, class)?;
    let length = length_said(builder, o, n)?;
    let there = applied(builder, Symbol::NewArray(class.0), &[store, n])?;
    builder.assume_all(&[typed, length])?;
    builder.with_store(there)?;
    Ok(o)
}

/// A new array.
pub fn new_array(
    builder: &mut Builder,
    walk: &Walk<'_>,
    at: Place,
    x: Option<usize>,
    class: ClassId,
    e: &Expr,
) -> Result<(), AllocError>
    requires fine { IsFine builder.old }
    requires walk { IsWalk builder.old.bank walk.now }
    ensures { OnOk result (Becomes builder.old builder.new (λ b. spec.new_array (walk_at b walk.now) at x class.0 (expr e.now) (position_at b builder.old))) }
{
    let n = check_length(builder, walk, at, e)?;
    let o = new_array_object(builder, class, n)?;
    keep(builder, x, &[o]);
    Ok(())
}
