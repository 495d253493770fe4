// What reads give over stores with other owners.

ghost use Rattle.std.specs.Prelude.{◌≡◌, List, [], ◌∷◌, ◌++◌, map, IfOk, OnOk};
ghost use Rattle.ss_logic.specs.Equal.{same_term};
ghost use Rattle.ss_logic.specs.Shapes.{all_of, null_term, owner_of};
ghost use Rattle.ss_logic.specs.Reads.{OwnerLook, over_capture, over_join};
ghost use Rattle.ss_terms.specs.Forms.{term_at, formula_at, HasTerm, HasFormula, IsGrown};
ghost use Rattle.ss_rules_basic.specs.Looks.{look_in, HasLook};
ghost use Rattle.ss_rules_reads.specs.Captured.{captured_clauses, owned_clause, left_clauses};
ghost use Rattle.ss_rules_reads.specs.Joined.{joined_clauses};

use crate::changes::Stores;
use crate::same::same_read;
use ss_rules_basic::{Claim, Clause, Look, Plan, Slot, fill, is_null};
use ss_terms::{Bank, FormulaId, Predicate, Symbol, TermId};
use std::alloc::{AllocError, Global};

// What is said of the owner of an object where the group of another was captured, by which terms are one: whether the captured one is
// null, and whether the two have one owner.
fn capture_clauses(
    alloc: Global,
    is_null: bool,
    is_captured: bool,
    e: Slot,
) -> Result<Vec<Clause>, AllocError>
    ensures { IfOk result (λ v. v.items ≡ captured_clauses is_null is_captured e) }
{
    let mut clauses = Vec::new(alloc);
    add_null(&mut clauses, is_null, e)?;
    if !is_null {
        add_captured(&mut clauses, is_captured, e)?;
    }
    add_left(&mut clauses, is_captured)?;
    Ok(clauses)
}

// What is in the group has the pair as its owner.
fn add_captured(clauses: &mut Vec<Clause>, is_captured: bool, e: Slot) -> Result<(), AllocError>
    ensures { OnOk result (clauses.new.items ≡ clauses.old.items ++ owned_clause is_captured e ∷ []) }
{
    let (now, was) = (Slot::Made(0), Slot::Made(1));
    let (captured, pair) = (Slot::Made(2), Slot::Made(5));
    let not_null = Claim::Not(Predicate::Equal, e, Slot::Made(4));
    let group = Claim::Group(captured);
    let owned = Claim::Is(Predicate::Equal, now, pair);
    let clause = if is_captured {
        Clause::IfTwo(not_null, group, owned)
    } else {
        let here = Claim::Is(Predicate::Equal, was, captured);
        Clause::IfThree(not_null, group, here, owned)
    };
    clauses.push(clause)?;
    Ok(())
}

// What isn't in the group keeps its owner.
fn add_left(clauses: &mut Vec<Clause>, is_captured: bool) -> Result<(), AllocError>
    ensures { OnOk result (clauses.new.items ≡ clauses.old.items ++ left_clauses is_captured) }
{
    let (now, was, captured) = (Slot::Made(0), Slot::Made(1), Slot::Made(2));
    let kept = Claim::Is(Predicate::Equal, now, was);
    clauses.push(Clause::If(Claim::NoGroup(captured), kept))?;
    if !is_captured {
        let apart = Claim::Not(Predicate::Equal, was, captured);
        clauses.push(Clause::If(apart, kept))?;
    }
    Ok(())
}

// The owner of an object where the group of another one was captured.
fn captured_owner(
    alloc: Global,
    b: &mut Bank,
    stores: Stores,
    t: u16,
    objects: (TermId, TermId),
    p: TermId,
) -> Result<FormulaId, AllocError>
    requires after { HasTerm b.old stores.after }
    requires before { HasTerm b.old stores.before }
    requires object { HasTerm b.old objects.0 }
    requires captured { HasTerm b.old objects.1 }
    requires read { HasTerm b.old p }
    ensures at { IfOk result (λ r. HasFormula b.new r × (formula_at b.new r ≡ all_of (over_capture (term_at b.old stores.after) t (term_at b.old stores.before) (term_at b.old objects.0) (term_at b.old objects.1) (OwnerLook (term_at b.old p))))) }
    ensures grown { IsGrown b.old b.new }
{
    let (o, e) = objects;
    let none_captured = is_none(b, e);
    let is_captured = is_same_owner(b, stores.before, p, e);
    let clauses = capture_clauses(alloc, none_captured, is_captured, Slot::Known(e))?;
    let (after, before) = (Slot::Known(stores.after), Slot::Known(stores.before));
    let plans = [
        Plan::Two(Symbol::Owner, after, Slot::Known(p)),
        Plan::Two(Symbol::Owner, before, Slot::Known(p)),
        Plan::Two(Symbol::Owner, before, Slot::Known(e)),
        Plan::Leaf(Symbol::ClassName(t)),
        Plan::Leaf(Symbol::Null),
        Plan::Two(Symbol::Pair, Slot::Known(o), Slot::Made(3)),
    ];
    fill(alloc, b, &plans, &clauses)
}

// A read where the group of an object was captured.
pub(crate) fn captured_read(
    alloc: Global,
    b: &mut Bank,
    stores: Stores,
    t: u16,
    objects: (TermId, TermId),
    look: Look,
) -> Result<FormulaId, AllocError>
    requires after { HasTerm b.old stores.after }
    requires before { HasTerm b.old stores.before }
    requires object { HasTerm b.old objects.0 }
    requires captured { HasTerm b.old objects.1 }
    requires look { HasLook b.old look }
    ensures at { IfOk result (λ r. HasFormula b.new r × (formula_at b.new r ≡ all_of (over_capture (term_at b.old stores.after) t (term_at b.old stores.before) (term_at b.old objects.0) (term_at b.old objects.1) (look_in b.old look)))) }
    ensures grown { IsGrown b.old b.new }
{
    match look {
        Look::Owner(p) => captured_owner(alloc, b, stores, t, objects, p),
        _ => same_read(alloc, b, look, (stores.after, stores.before)),
    }
}

// Whether the term is null.
fn is_none(b: &Bank, t: TermId) -> bool
    requires { HasTerm b.now t }
    ensures { result ≡ same_term (term_at b.now t) null_term }
{
    is_null(b, t)
}

// Whether the two objects are one term, and so are their owners.
fn is_same_owner(b: &Bank, s: TermId, x: TermId, y: TermId) -> bool
    requires left { HasTerm b.now x }
    requires right { HasTerm b.now y }
    ensures { result ≡ same_term (owner_of (term_at b.now s) (term_at b.now x)) (owner_of (term_at b.now s) (term_at b.now y)) }
{
    let _ = s;
    b.is_same_term(x, y)
}

// What is said of the owner of an object where two others were joined, by which terms are one: whether the joined one is null, and
// whether the object is the joined one or the other.
fn join_clauses(
    alloc: Global,
    is_null: bool,
    is_joined: bool,
    is_other: bool,
    e: Slot,
) -> Result<Vec<Clause>, AllocError>
    ensures { IfOk result (λ v. v.items ≡ joined_clauses is_null is_joined is_other e) }
{
    let mut clauses = Vec::new(alloc);
    add_null(&mut clauses, is_null, e)?;
    if !is_null {
        add_joined(&mut clauses, is_joined, is_other, e)?;
    }
    add_kept(&mut clauses, is_joined, is_other)?;
    Ok(clauses)
}

ghost use Rattle.ss_rules_reads.specs.Joined.{null_clauses, given_clauses, kept_clauses};

// Null joins nothing.
fn add_null(clauses: &mut Vec<Clause>, is_null: bool, e: Slot) -> Result<(), AllocError>
    ensures { OnOk result (clauses.new.items ≡ clauses.old.items ++ null_clauses is_null e) }
{
    let kept = Claim::Is(Predicate::Equal, Slot::Made(0), Slot::Made(1));
    if is_null {
        clauses.push(Clause::Fact(kept))?;
        return Ok(());
    }
    let null = Claim::Is(Predicate::Equal, e, Slot::Made(4));
    clauses.push(Clause::If(null, kept))?;
    Ok(())
}

// The one has the owner of the other.
fn add_joined(
    clauses: &mut Vec<Clause>,
    is_joined: bool,
    is_other: bool,
    e: Slot,
) -> Result<(), AllocError>
    ensures { OnOk result (clauses.new.items ≡ clauses.old.items ++ given_clauses is_joined is_other e) }
{
    let (now, was) = (Slot::Made(0), Slot::Made(1));
    let (joined, other) = (Slot::Made(2), Slot::Made(3));
    let some = Claim::Not(Predicate::Equal, e, Slot::Made(4));
    let (group, no_group) = (Claim::Group(joined), Claim::NoGroup(joined));
    let other_group = Claim::Group(other);
    let to_other = Claim::Is(Predicate::Equal, now, other);
    let to_joined = Claim::Is(Predicate::Equal, now, joined);
    let here = Claim::Is(Predicate::Equal, was, joined);
    let there = Claim::Is(Predicate::Equal, was, other);
    let first = if is_joined {
        Clause::IfTwo(some, group, to_other)
    } else {
        Clause::IfThree(some, group, here, to_other)
    };
    let second = if is_other {
        Clause::IfThree(some, no_group, other_group, to_joined)
    } else {
        Clause::IfFour(some, no_group, other_group, there, to_joined)
    };
    clauses.push(first)?;
    clauses.push(second)?;
    Ok(())
}

// What is in neither group keeps its owner.
fn add_kept(clauses: &mut Vec<Clause>, is_joined: bool, is_other: bool) -> Result<(), AllocError>
    ensures { OnOk result (clauses.new.items ≡ clauses.old.items ++ kept_clauses is_joined is_other) }
{
    let (now, was) = (Slot::Made(0), Slot::Made(1));
    let (joined, other) = (Slot::Made(2), Slot::Made(3));
    let kept = Claim::Is(Predicate::Equal, now, was);
    if !is_joined {
        let apart = Claim::Not(Predicate::Equal, was, joined);
        clauses.push(Clause::IfTwo(Claim::Group(joined), apart, kept))?;
    }
    if !is_other {
        let apart = Claim::Not(Predicate::Equal, was, other);
        clauses.push(Clause::IfTwo(Claim::NoGroup(joined), apart, kept))?;
    }
    clauses.push(Clause::IfTwo(Claim::NoGroup(joined), Claim::NoGroup(other), kept))?;
    Ok(())
}

// The owner of an object where two others were joined.
fn joined_owner(
    alloc: Global,
    b: &mut Bank,
    stores: Stores,
    objects: (TermId, TermId),
    p: TermId,
) -> Result<FormulaId, AllocError>
    requires after { HasTerm b.old stores.after }
    requires before { HasTerm b.old stores.before }
    requires object { HasTerm b.old objects.0 }
    requires joined { HasTerm b.old objects.1 }
    requires read { HasTerm b.old p }
    ensures at { IfOk result (λ r. HasFormula b.new r × (formula_at b.new r ≡ all_of (over_join (term_at b.old stores.after) (term_at b.old stores.before) (term_at b.old objects.0) (term_at b.old objects.1) (OwnerLook (term_at b.old p))))) }
    ensures grown { IsGrown b.old b.new }
{
    let (o, e) = objects;
    let none_joined = is_none(b, e);
    let is_joined = is_same_owner(b, stores.before, p, e);
    let is_other = is_same_owner(b, stores.before, p, o);
    let clauses = join_clauses(alloc, none_joined, is_joined, is_other, Slot::Known(e))?;
    let (after, before) = (Slot::Known(stores.after), Slot::Known(stores.before));
    let plans = [
        Plan::Two(Symbol::Owner, after, Slot::Known(p)),
        Plan::Two(Symbol::Owner, before, Slot::Known(p)),
        Plan::Two(Symbol::Owner, before, Slot::Known(e)),
        Plan::Two(Symbol::Owner, before, Slot::Known(o)),
        Plan::Leaf(Symbol::Null),
    ];
    fill(alloc, b, &plans, &clauses)
}

// A read where two objects were joined.
pub(crate) fn joined_read(
    alloc: Global,
    b: &mut Bank,
    stores: Stores,
    objects: (TermId, TermId),
    look: Look,
) -> Result<FormulaId, AllocError>
    requires after { HasTerm b.old stores.after }
    requires before { HasTerm b.old stores.before }
    requires object { HasTerm b.old objects.0 }
    requires joined { HasTerm b.old objects.1 }
    requires look { HasLook b.old look }
    ensures at { IfOk result (λ r. HasFormula b.new r × (formula_at b.new r ≡ all_of (over_join (term_at b.old stores.after) (term_at b.old stores.before) (term_at b.old objects.0) (term_at b.old objects.1) (look_in b.old look)))) }
    ensures grown { IsGrown b.old b.new }
{
    match look {
        Look::Owner(p) => joined_owner(alloc, b, stores, objects, p),
        _ => same_read(alloc, b, look, (stores.after, stores.before)),
    }
}
