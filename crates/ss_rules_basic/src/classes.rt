// Which classes count as others.

ghost use Rattle.std.specs.Prelude.{◌≡◌, List, [], ◌∷◌, IfOk};
ghost use Rattle.std.specs.List.{list_any};
ghost use Rattle.ss_core.specs.View as view;
ghost use Rattle.ss_logic.specs.Shapes.{sub_atom};
ghost use Rattle.ss_logic.specs.Rules.{class_fact, class_above, class_apart, class_pair, class_up, class_two, stands_beside, are_unrelated, class_of};
ghost use Rattle.ss_terms.specs.Forms.{term_at, terms_at, formula_at, HasTerm, HasTerms, HasFormula, IsGrown, IsBankOf};
ghost use Rattle.ss_terms.specs.Numbered.{IsNumberOf};

use crate::arguments::{class_name, is_class};
use crate::{Claim, Clause, Plan, Slot, fill};
use ss_core::{Class, ClassId, Classes};
use ss_logic::Sort;
use ss_terms::{Bank, FormulaId, Predicate, Symbol, TermId};
use std::alloc::{AllocError, Global};

// Whether the class stands beside this one's levels.
fn is_beside(class: &Class, t: u16) -> bool
    ensures { result ≡ list_any (λ u. u == t) (view.class_of class.now).also }
{
    class
        .also
        .iter()
        .map(|beside| beside.0)
        .any(|beside| beside == t)
}

ghost use Rattle.std.specs.Prelude.{◌==◌};

// Whether the class stands beside the levels of another one.
fn is_beside_any(classes: &Classes, t: u16) -> bool
    ensures { result ≡ stands_beside (view.classes classes.now) t }
{
    for class in &classes.list {
        if is_beside(class, t) {
            return true;
        }
    }
    false
}

// Whether neither class counts as the other.
fn unrelated(classes: &Classes, c: u16, t: u16) -> bool
    ensures { result ≡ are_unrelated (view.classes classes.now) c t }
{
    !classes.is_subclass(ClassId(c), ClassId(t))
        && !classes.is_subclass(ClassId(t), ClassId(c))
        && !is_beside_any(classes, c)
        && !is_beside_any(classes, t)
}

// A class term counts as itself.
fn class_itself(alloc: Global, b: &mut Bank, x: TermId) -> Result<FormulaId, AllocError>
    requires { HasTerm b.old x }
    ensures at { IfOk result (λ f. HasFormula b.new f × (formula_at b.new f ≡ sub_atom (term_at b.old x) (term_at b.old x))) }
    ensures grown { IsGrown b.old b.new }
{
    let x = Slot::Known(x);
    fill(
        alloc,
        b,
        &[],
        &[Clause::Fact(Claim::Is(Predicate::Sub, x, x))],
    )
}

// The class counts as the other, or doesn't.
fn class_fact_at(
    alloc: Global,
    b: &mut Bank,
    classes: &Classes,
    c: u16,
    t: u16,
) -> Result<FormulaId, AllocError>
    ensures at { IfOk result (λ f. HasFormula b.new f × (formula_at b.new f ≡ class_fact (view.classes classes.now) c t)) }
    ensures grown { IsGrown b.old b.new }
{
    let plans = [
        Plan::Leaf(Symbol::ClassName(c)),
        Plan::Leaf(Symbol::ClassName(t)),
    ];
    let (left, right) = (Slot::Made(0), Slot::Made(1));
    if classes.is_subclass(ClassId(c), ClassId(t)) {
        let clause = Clause::Fact(Claim::Is(Predicate::Sub, left, right));
        return fill(alloc, b, &plans, &[clause]);
    }
    let clause = Clause::Fact(Claim::Not(Predicate::Sub, left, right));
    fill(alloc, b, &plans, &[clause])
}

// What counts as the class counts as the class above it.
fn class_above_at(
    alloc: Global,
    b: &mut Bank,
    classes: &Classes,
    x: TermId,
    t: u16,
) -> Result<FormulaId, AllocError>
    requires { HasTerm b.old x }
    ensures at { IfOk result (λ f. HasFormula b.new f × (formula_at b.new f ≡ class_above (view.classes classes.now) (term_at b.old x) t)) }
    ensures grown { IsGrown b.old b.new }
{
    let above = classes.above(ClassId(t));
    let plans = [
        Plan::Leaf(Symbol::ClassName(t)),
        Plan::Leaf(Symbol::ClassName(above.0)),
    ];
    let x = Slot::Known(x);
    let clause = Clause::If(
        Claim::Is(Predicate::Sub, x, Slot::Made(0)),
        Claim::Is(Predicate::Sub, x, Slot::Made(1)),
    );
    fill(alloc, b, &plans, &[clause])
}

// Nothing counts as both classes.
fn class_apart_at(
    alloc: Global,
    b: &mut Bank,
    x: TermId,
    c: u16,
    t: u16,
) -> Result<FormulaId, AllocError>
    requires { HasTerm b.old x }
    ensures at { IfOk result (λ f. HasFormula b.new f × (formula_at b.new f ≡ class_apart (term_at b.old x) c t)) }
    ensures grown { IsGrown b.old b.new }
{
    let plans = [
        Plan::Leaf(Symbol::ClassName(c)),
        Plan::Leaf(Symbol::ClassName(t)),
    ];
    let x = Slot::Known(x);
    let clause = Clause::If(
        Claim::Is(Predicate::Sub, x, Slot::Made(0)),
        Claim::Not(Predicate::Sub, x, Slot::Made(1)),
    );
    fill(alloc, b, &plans, &[clause])
}

// The sentence of this number on a class term.
fn class_one(
    alloc: Global,
    b: &mut Bank,
    classes: &Classes,
    number: u128,
    x: TermId,
) -> Result<Option<FormulaId>, AllocError>
    requires bank { IsBankOf (view.classes classes.now) b.old }
    requires term { HasTerm b.old x }
    ensures at { IfOk result (λ o. IsNumberOf b.new o (class_of (view.classes classes.now) number (term_at b.old x ∷ []))) }
    ensures grown { IsGrown b.old b.new }
{
    let _ = classes;
    if number != 3 || !is_class(b, x) || !b.have_sorts(&[Sort::Rest], &[x]) {
        return Ok(None);
    }
    let f = class_itself(alloc, b, x)?;
    Ok(Some(f))
}

// Of two class names, whether the first counts as the second.
fn class_names(
    alloc: Global,
    b: &mut Bank,
    classes: &Classes,
    x: TermId,
    t: TermId,
) -> Result<Option<FormulaId>, AllocError>
    requires left { HasTerm b.old x }
    requires right { HasTerm b.old t }
    ensures at { IfOk result (λ o. IsNumberOf b.new o (class_pair (view.classes classes.now) (class_of_term (term_at b.old x)) (class_of_term (term_at b.old t)))) }
    ensures grown { IsGrown b.old b.new }
{
    let Some(c) = class_name(b, x) else {
        return Ok(None);
    };
    let Some(t) = class_name(b, t) else {
        return Ok(None);
    };
    let f = class_fact_at(alloc, b, classes, c, t)?;
    Ok(Some(f))
}

ghost use Rattle.ss_logic.specs.Shapes.{class_of_term};

// The sentence of this number on two class terms.
fn class_pairs(
    alloc: Global,
    b: &mut Bank,
    classes: &Classes,
    number: u128,
    x: TermId,
    t: TermId,
) -> Result<Option<FormulaId>, AllocError>
    requires bank { IsBankOf (view.classes classes.now) b.old }
    requires left { HasTerm b.old x }
    requires right { HasTerm b.old t }
    ensures at { IfOk result (λ o. IsNumberOf b.new o (class_of (view.classes classes.now) number (term_at b.old x ∷ term_at b.old t ∷ []))) }
    ensures grown { IsGrown b.old b.new }
{
    if number == 0 {
        return class_names(alloc, b, classes, x, t);
    }
    if number != 1 || !b.have_sorts(&[Sort::Rest], &[x]) {
        return Ok(None);
    }
    let Some(t) = class_name(b, t) else {
        return Ok(None);
    };
    if t == 0 {
        return Ok(None);
    }
    let f = class_above_at(alloc, b, classes, x, t)?;
    Ok(Some(f))
}

// The sentence of this number on a class term and two class names.
fn class_three(
    alloc: Global,
    b: &mut Bank,
    classes: &Classes,
    number: u128,
    x: TermId,
    names: (TermId, TermId),
) -> Result<Option<FormulaId>, AllocError>
    requires bank { IsBankOf (view.classes classes.now) b.old }
    requires term { HasTerm b.old x }
    requires first { HasTerm b.old names.0 }
    requires second { HasTerm b.old names.1 }
    ensures at { IfOk result (λ o. IsNumberOf b.new o (class_of (view.classes classes.now) number (term_at b.old x ∷ term_at b.old names.0 ∷ term_at b.old names.1 ∷ []))) }
    ensures grown { IsGrown b.old b.new }
{
    if number != 2 || !b.have_sorts(&[Sort::Rest], &[x]) {
        return Ok(None);
    }
    let Some(c) = class_name(b, names.0) else {
        return Ok(None);
    };
    let Some(t) = class_name(b, names.1) else {
        return Ok(None);
    };
    if !unrelated(classes, c, t) {
        return Ok(None);
    }
    let f = class_apart_at(alloc, b, x, c, t)?;
    Ok(Some(f))
}

/// The sentence of this number on classes. An error is want of memory.
pub fn class_rule(
    alloc: Global,
    b: &mut Bank,
    classes: &Classes,
    number: u128,
    arguments: &[TermId],
) -> Result<Option<FormulaId>, AllocError>
    requires bank { IsBankOf (view.classes classes.now) b.old }
    requires arguments { HasTerms b.old arguments.now }
    ensures at { IfOk result (λ o. IsNumberOf b.new o (class_of (view.classes classes.now) number (terms_at b.old arguments.now))) }
    ensures grown { IsGrown b.old b.new }
{
    match arguments {
        [x] => class_one(alloc, b, classes, number, *x),
        [x, t] => class_pairs(alloc, b, classes, number, *x, *t),
        [x, c, t] => class_three(alloc, b, classes, number, *x, (*c, *t)),
        _ => Ok(None),
    }
}
