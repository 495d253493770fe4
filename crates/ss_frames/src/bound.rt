// Objects that are free, and those that enclosing exposes have.

ghost use Rattle.std.specs.Prelude.{◌≡◌, ◌<◌, ◌++◌, length, [], ◌∷◌, map, IfOk};
ghost use Rattle.ss_core.specs.declared.names.ClassId.{ClassId};
ghost use Rattle.ss_logic.specs.Formulas.{neg};
ghost use Rattle.ss_logic.specs.Shapes.{equal, allocated, committed};
ghost use Rattle.ss_logic.specs.Frames.{the_object, is_free, is_outside};
ghost use Rattle.ss_terms.specs.Forms.{term_at, terms_at, HasTerm, HasTerms, IsGrown};
ghost use Rattle.ss_frames.specs.Calls.{call_at, HasOwned, HasCall, IsTerm, IsMade, AreMade, group_at, owned_at};

use crate::calls::CallTerms;
use crate::parts::joined;
use ss_core::ClassId;
use ss_rules_basic::{Claim, Clause, Plan, Slot, fill};
use ss_terms::{Bank, FormulaId, Predicate, Symbol, TermId};
use std::alloc::{AllocError, Global};

// The object is in the group of a captured one.
fn in_group(
    alloc: Global,
    b: &mut Bank,
    store: TermId,
    object: TermId,
    captured: TermId,
) -> Result<FormulaId, AllocError>
    requires store { HasTerm b.old store }
    requires object { IsTerm b.old object the_object }
    requires captured { HasTerm b.old captured }
    ensures at { IfOk result (λ f. IsMade b.new f (group_at b.old store captured)) }
    ensures grown { IsGrown b.old b.new }
{
    let (s, o, e) = (
        Slot::Known(store),
        Slot::Known(object),
        Slot::Known(captured),
    );
    let f = Symbol::Owner;
    let (group, owner) = (Slot::Made(0), Slot::Made(1));
    let clauses = [
        Clause::Fact(Claim::Group(group)),
        Clause::Fact(Claim::Is(Predicate::Equal, owner, group)),
    ];
    fill(
        alloc,
        b,
        &[Plan::Two(f, s, e), Plan::Two(f, s, o)],
        &clauses,
    )
}

// The same of each.
fn in_groups(
    alloc: Global,
    b: &mut Bank,
    store: TermId,
    object: TermId,
    captured: &[TermId],
) -> Result<Vec<FormulaId>, AllocError>
    requires store { HasTerm b.old store }
    requires object { IsTerm b.old object the_object }
    requires captured { HasTerms b.old captured.now }
    ensures at { IfOk result (λ v. AreMade b.new v.items (map (group_at b.old store) captured.now)) }
    ensures grown { IsGrown b.old b.new }
{
    let mut made = Vec::new(alloc);
    for e in captured {
        let f = in_group(alloc, b, store, object, *e)?;
        made.push(f)?;
    }
    Ok(made)
}

// The object is owned by another one at a class.
fn owned(
    alloc: Global,
    b: &mut Bank,
    store: TermId,
    object: TermId,
    owner: (TermId, ClassId),
) -> Result<FormulaId, AllocError>
    requires store { HasTerm b.old store }
    requires object { IsTerm b.old object the_object }
    requires owner { HasTerm b.old owner.0 }
    ensures at { IfOk result (λ f. IsMade b.new f (owned_at b.old store owner)) }
    ensures grown { IsGrown b.old b.new }
{
    let (s, o, w) = (
        Slot::Known(store),
        Slot::Known(object),
        Slot::Known(owner.0),
    );
    let plans = [
        Plan::Two(Symbol::Owner, s, o),
        Plan::Leaf(Symbol::ClassName(owner.1.0)),
        Plan::Two(Symbol::Pair, w, Slot::Made(1)),
    ];
    let same = Clause::Fact(Claim::Is(Predicate::Equal, Slot::Made(0), Slot::Made(2)));
    fill(alloc, b, &plans, &[same])
}

// The same of each.
fn owned_by_any(
    alloc: Global,
    b: &mut Bank,
    store: TermId,
    object: TermId,
    owners: &[(TermId, ClassId)],
) -> Result<Vec<FormulaId>, AllocError>
    requires store { HasTerm b.old store }
    requires object { IsTerm b.old object the_object }
    requires owners { HasOwned b.old owners.now }
    ensures at { IfOk result (λ v. AreMade b.new v.items (map (owned_at b.old store) owners.now)) }
    ensures grown { IsGrown b.old b.new }
{
    let mut made = Vec::new(alloc);
    for owner in owners {
        let f = owned(alloc, b, store, object, *owner)?;
        made.push(f)?;
    }
    Ok(made)
}

// The object isn't allocated, or it is committed.
fn new_or_committed(
    alloc: Global,
    b: &mut Bank,
    store: TermId,
    object: TermId,
) -> Result<Vec<FormulaId>, AllocError>
    requires store { HasTerm b.old store }
    requires object { IsTerm b.old object the_object }
    ensures at { IfOk result (λ v. AreMade b.new v.items (neg (allocated (term_at b.old store) the_object) ∷ committed (term_at b.old store) the_object ∷ [])) }
    ensures grown { IsGrown b.old b.new }
{
    let new = b.atom(false, Predicate::Allocated, &[store, object])?;
    let committed = b.atom(true, Predicate::Committed, &[store, object])?;
    Vec::from_slice(alloc, &[new, committed])
}

// The object was not allocated at entry, or it is free.
pub(crate) fn not_bound(
    alloc: Global,
    b: &mut Bank,
    m: &CallTerms,
    object: TermId,
) -> Result<Vec<FormulaId>, AllocError>
    requires call { HasCall b.old m.now }
    requires object { IsTerm b.old object the_object }
    ensures at { IfOk result (λ v. AreMade b.new v.items (neg (allocated (term_at b.old m.now.before) the_object) ∷ is_free (call_at b.old m.now))) }
    ensures grown { IsGrown b.old b.new }
{
    let mut made = new_or_committed(alloc, b, m.before, object)?;
    let groups = in_groups(alloc, b, m.before, object, &m.captured)?;
    let owners = owned_by_any(alloc, b, m.before, object, &m.owned)?;
    made.extend_from_slice(&groups)?;
    made.extend_from_slice(&owners)?;
    Ok(made)
}

// The object is one of an enclosing expose.
pub(crate) fn outside(
    alloc: Global,
    b: &mut Bank,
    m: &CallTerms,
    object: TermId,
) -> Result<Vec<FormulaId>, AllocError>
    requires call { HasCall b.old m.now }
    requires object { IsTerm b.old object the_object }
    ensures at { IfOk result (λ v. AreMade b.new v.items (is_outside (call_at b.old m.now))) }
    ensures grown { IsGrown b.old b.new }
{
    let mut made = Vec::new(alloc);
    for o in &m.outside {
        let f = b.equality(object, *o)?;
        made.push(f)?;
    }
    Ok(made)
}
