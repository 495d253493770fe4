// What reads give over stores with a change at an object.

ghost use Rattle.std.specs.Prelude.{◌≡◌, ℕ, List, [], ◌∷◌, IfOk};
ghost use Rattle.ss_core.specs.Tree.{ClassTree};
ghost use Rattle.ss_core.specs.Chain.{above};
ghost use Rattle.ss_core.specs.View as view;
ghost use Rattle.ss_logic.specs.Terms as tree;
ghost use Rattle.ss_logic.specs.Shapes.{all_of};
ghost use Rattle.ss_logic.specs.Reads.{FieldLook, ElementLook, CommittedLook, leveled, over_set, over_put, over_unpack, over_pack, over_ready};
ghost use Rattle.ss_terms.specs.Forms.{term_at, formula_at, HasTerm, HasFormula, IsGrown, IsBankOf};
ghost use Rattle.ss_rules_basic.specs.Looks.{look_in, HasLook};
ghost use Rattle.ss_rules_reads.specs.Changes.{element_placed, cleared};

use crate::context::ReadContext;
use crate::placed::{Places, added_atom, placed_term};
use crate::same::same_read;
use ss_core::ClassId;
use ss_logic::Sort;
use ss_rules_basic::{Claim, Clause, Look, Plan, Slot, fill};
use ss_terms::{Bank, FormulaId, Predicate, Symbol, TermId};
use std::alloc::{AllocError, Global};

/// The stores after and before a change.
#[derive(Clone, Copy)]
pub(crate) struct Stores {
    pub(crate) after: TermId,
    pub(crate) before: TermId,
}

/// A field, the object of which it was set, and to what.
#[derive(Clone, Copy)]
pub(crate) struct FieldWrite {
    pub(crate) field: u32,
    pub(crate) object: TermId,
    pub(crate) value: TermId,
}

/// An array, the place of it that was written, and what was put there.
#[derive(Clone, Copy)]
pub(crate) struct ElementWrite {
    pub(crate) array: TermId,
    pub(crate) index: TermId,
    pub(crate) value: TermId,
}

// A field of an object where that field of one was set.
fn set_field(
    alloc: Global,
    b: &mut Bank,
    stores: Stores,
    p: TermId,
    written: FieldWrite,
) -> Result<FormulaId, AllocError>
    requires after { HasTerm b.old stores.after }
    requires before { HasTerm b.old stores.before }
    requires read { HasTerm b.old p }
    requires object { HasTerm b.old written.object }
    requires value { HasTerm b.old written.value }
    ensures at { IfOk result (λ r. HasFormula b.new r × (formula_at b.new r ≡ all_of (over_set (term_at b.old stores.after) written.field (term_at b.old stores.before) (term_at b.old written.object) (term_at b.old written.value) (FieldLook (term_at b.old p) written.field)))) }
    ensures grown { IsGrown b.old b.new }
{
    let FieldWrite {
        field,
        object,
        value,
    } = written;
    let is_same = b.is_same_term(p, object);
    let (p, o, v) = (Slot::Known(p), Slot::Known(object), Slot::Known(value));
    let plans = [
        Plan::Two(Symbol::Field(field), Slot::Known(stores.after), p),
        Plan::Two(Symbol::Field(field), Slot::Known(stores.before), p),
    ];
    let places = Places {
        read: p,
        changed: o,
        is_same,
    };
    placed_term(alloc, b, &plans, places, v)
}

// A read where a field of an object was set.
pub(crate) fn set_read(
    alloc: Global,
    b: &mut Bank,
    stores: Stores,
    written: FieldWrite,
    look: Look,
) -> Result<FormulaId, AllocError>
    requires after { HasTerm b.old stores.after }
    requires before { HasTerm b.old stores.before }
    requires object { HasTerm b.old written.object }
    requires value { HasTerm b.old written.value }
    requires look { HasLook b.old look }
    ensures at { IfOk result (λ r. HasFormula b.new r × (formula_at b.new r ≡ all_of (over_set (term_at b.old stores.after) written.field (term_at b.old stores.before) (term_at b.old written.object) (term_at b.old written.value) (look_in b.old look)))) }
    ensures grown { IsGrown b.old b.new }
{
    match look {
        Look::Field(p, g) => {
            if g == written.field {
                return set_field(alloc, b, stores, p, written);
            }
            same_read(alloc, b, look, (stores.after, stores.before))
        }
        _ => same_read(alloc, b, look, (stores.after, stores.before)),
    }
}

// An element where one of that sort was put into an array.
fn put_element(
    alloc: Global,
    b: &mut Bank,
    stores: Stores,
    sort: Sort,
    read: (TermId, TermId),
    written: ElementWrite,
) -> Result<FormulaId, AllocError>
    requires after { HasTerm b.old stores.after }
    requires before { HasTerm b.old stores.before }
    requires read_array { HasTerm b.old read.0 }
    requires read_index { HasTerm b.old read.1 }
    requires array { HasTerm b.old written.array }
    requires index { HasTerm b.old written.index }
    requires value { HasTerm b.old written.value }
    ensures at { IfOk result (λ r. HasFormula b.new r × (formula_at b.new r ≡ all_of (element_placed (term_at b.old stores.after) (term_at b.old stores.before) (term_at b.old written.array) (term_at b.old written.index) (term_at b.old written.value) sort (term_at b.old read.0) (term_at b.old read.1)))) }
    ensures grown { IsGrown b.old b.new }
{
    let same_array = b.is_same_term(read.0, written.array);
    let same_index = b.is_same_term(read.1, written.index);
    let (array, index) = (Slot::Known(read.0), Slot::Known(read.1));
    let (a, i) = (Slot::Known(written.array), Slot::Known(written.index));
    let (after, before) = (Slot::Known(stores.after), Slot::Known(stores.before));
    let plans = [
        Plan::Three(Symbol::Element(sort), after, array, index),
        Plan::Three(Symbol::Element(sort), before, array, index),
    ];
    let changed = Claim::Is(Predicate::Equal, Slot::Made(0), Slot::Known(written.value));
    let kept = Claim::Is(Predicate::Equal, Slot::Made(0), Slot::Made(1));
    let at_array = Claim::Is(Predicate::Equal, array, a);
    let at_index = Claim::Is(Predicate::Equal, index, i);
    let other_array = Clause::If(Claim::Not(Predicate::Equal, array, a), kept);
    let other_index = Clause::If(Claim::Not(Predicate::Equal, index, i), kept);
    if same_array && same_index {
        return fill(alloc, b, &plans, &[Clause::Fact(changed)]);
    }
    if same_array {
        return fill(
            alloc,
            b,
            &plans,
            &[Clause::If(at_index, changed), other_index],
        );
    }
    if same_index {
        return fill(
            alloc,
            b,
            &plans,
            &[Clause::If(at_array, changed), other_array],
        );
    }
    let here = Clause::IfTwo(at_array, at_index, changed);
    fill(alloc, b, &plans, &[here, other_array, other_index])
}

// A read where an element was put into an array.
pub(crate) fn put_read(
    alloc: Global,
    b: &mut Bank,
    stores: Stores,
    written: ElementWrite,
    look: Look,
) -> Result<FormulaId, AllocError>
    requires after { HasTerm b.old stores.after }
    requires before { HasTerm b.old stores.before }
    requires array { HasTerm b.old written.array }
    requires index { HasTerm b.old written.index }
    requires value { HasTerm b.old written.value }
    requires look { HasLook b.old look }
    ensures at { (cs : List ClassTree) → IsBankOf cs b.old → IfOk result (λ r. HasFormula b.new r × (formula_at b.new r ≡ all_of (over_put cs (term_at b.old stores.after) (term_at b.old stores.before) (term_at b.old written.array) (term_at b.old written.index) (term_at b.old written.value) (look_in b.old look)))) }
    ensures grown { IsGrown b.old b.new }
{
    match look {
        Look::Element(sort, a, i) => {
            if has_sort(b, written.value, sort) {
                return put_element(alloc, b, stores, sort, (a, i), written);
            }
            same_read(alloc, b, look, (stores.after, stores.before))
        }
        _ => same_read(alloc, b, look, (stores.after, stores.before)),
    }
}

// Whether the term has the sort.
fn has_sort(b: &Bank, t: TermId, sort: Sort) -> bool
    requires { HasTerm b.now t }
    ensures { (cs : List ClassTree) → IsBankOf cs b.now → result ≡ tree.same_sort (tree.sort_of cs [] (term_at b.now t)) sort }
{
    is_same_sort(b.sort(t), sort)
}

// Whether the two sorts are one.
fn is_same_sort(x: Sort, y: Sort) -> bool
    ensures { result ≡ tree.same_sort x y }
{
    x == y
}

// The level of an object where one has the level of a class.
fn placed_level(
    alloc: Global,
    b: &mut Bank,
    stores: Stores,
    t: u16,
    o: TermId,
    p: TermId,
) -> Result<FormulaId, AllocError>
    requires after { HasTerm b.old stores.after }
    requires before { HasTerm b.old stores.before }
    requires object { HasTerm b.old o }
    requires read { HasTerm b.old p }
    ensures at { IfOk result (λ r. HasFormula b.new r × (formula_at b.new r ≡ all_of (leveled (term_at b.old stores.after) t (term_at b.old stores.before) (term_at b.old o) (term_at b.old p)))) }
    ensures grown { IsGrown b.old b.new }
{
    let is_same = b.is_same_term(p, o);
    let (p, o) = (Slot::Known(p), Slot::Known(o));
    let plans = [
        Plan::Two(Symbol::Level, Slot::Known(stores.after), p),
        Plan::Two(Symbol::Level, Slot::Known(stores.before), p),
        Plan::Leaf(Symbol::ClassName(t)),
    ];
    let places = Places {
        read: p,
        changed: o,
        is_same,
    };
    placed_term(alloc, b, &plans, places, Slot::Made(2))
}

// Whether an object is committed, where one was unpacked from a class.
fn unpacked_committed(
    alloc: Global,
    b: &mut Bank,
    stores: Stores,
    t: u16,
    o: TermId,
    p: TermId,
) -> Result<FormulaId, AllocError>
    requires after { HasTerm b.old stores.after }
    requires before { HasTerm b.old stores.before }
    requires object { HasTerm b.old o }
    requires read { HasTerm b.old p }
    ensures at { IfOk result (λ r. HasFormula b.new r × (formula_at b.new r ≡ all_of (cleared (term_at b.old stores.after) t (term_at b.old stores.before) (term_at b.old o) (term_at b.old p)))) }
    ensures grown { IsGrown b.old b.new }
{
    let (after, before) = (Slot::Known(stores.after), Slot::Known(stores.before));
    let (p, o) = (Slot::Known(p), Slot::Known(o));
    let plans = [
        Plan::Two(Symbol::Owner, before, p),
        Plan::Leaf(Symbol::ClassName(t)),
        Plan::Two(Symbol::Pair, o, Slot::Made(1)),
    ];
    let owned = Claim::Is(Predicate::Equal, Slot::Made(0), Slot::Made(2));
    let not_owned = Claim::Not(Predicate::Equal, Slot::Made(0), Slot::Made(2));
    let cleared = Claim::Not(Predicate::Committed, after, p);
    let clauses = [
        Clause::If(owned, cleared),
        Clause::IfTwo(
            not_owned,
            Claim::Is(Predicate::Committed, before, p),
            Claim::Is(Predicate::Committed, after, p),
        ),
        Clause::If(Claim::Not(Predicate::Committed, before, p), cleared),
    ];
    fill(alloc, b, &plans, &clauses)
}

// Whether an object is committed, where one was packed at a class.
fn packed_committed(
    alloc: Global,
    b: &mut Bank,
    stores: Stores,
    t: u16,
    o: TermId,
    p: TermId,
) -> Result<FormulaId, AllocError>
    requires after { HasTerm b.old stores.after }
    requires before { HasTerm b.old stores.before }
    requires object { HasTerm b.old o }
    requires read { HasTerm b.old p }
    ensures at { IfOk result (λ r. HasFormula b.new r × (formula_at b.new r ≡ all_of (over_pack (term_at b.old stores.after) t (term_at b.old stores.before) (term_at b.old o) (CommittedLook (term_at b.old p))))) }
    ensures grown { IsGrown b.old b.new }
{
    let (after, before) = (Slot::Known(stores.after), Slot::Known(stores.before));
    let (p, o) = (Slot::Known(p), Slot::Known(o));
    let plans = [
        Plan::Two(Symbol::Owner, before, p),
        Plan::Leaf(Symbol::ClassName(t)),
        Plan::Two(Symbol::Pair, o, Slot::Made(1)),
    ];
    let owned = Claim::Is(Predicate::Equal, Slot::Made(0), Slot::Made(2));
    let not_owned = Claim::Not(Predicate::Equal, Slot::Made(0), Slot::Made(2));
    let set = Claim::Is(Predicate::Committed, after, p);
    let clauses = [
        Clause::If(owned, set),
        Clause::If(Claim::Is(Predicate::Committed, before, p), set),
        Clause::IfTwo(
            not_owned,
            Claim::Not(Predicate::Committed, before, p),
            Claim::Not(Predicate::Committed, after, p),
        ),
    ];
    fill(alloc, b, &plans, &clauses)
}

// A read where an object was unpacked from a class.
pub(crate) fn unpacked_read(
    context: &ReadContext<'_>,
    b: &mut Bank,
    stores: Stores,
    t: u16,
    o: TermId,
) -> Result<FormulaId, AllocError>
    requires after { HasTerm b.old stores.after }
    requires before { HasTerm b.old stores.before }
    requires object { HasTerm b.old o }
    requires look { HasLook b.old context.now.look }
    ensures at { IfOk result (λ r. HasFormula b.new r × (formula_at b.new r ≡ all_of (over_unpack (view.classes context.now.classes.now) (term_at b.old stores.after) t (term_at b.old stores.before) (term_at b.old o) (look_in b.old context.now.look)))) }
    ensures grown { IsGrown b.old b.new }
{
    let look = context.look;
    match look {
        Look::Level(p) => {
            let above = context.classes.above(ClassId(t));
            placed_level(context.alloc, b, stores, above.0, o, p)
        }
        Look::Committed(p) => unpacked_committed(context.alloc, b, stores, t, o, p),
        _ => same_read(context.alloc, b, look, (stores.after, stores.before)),
    }
}

// A read where an object was packed at a class.
pub(crate) fn packed_read(
    alloc: Global,
    b: &mut Bank,
    stores: Stores,
    t: u16,
    o: TermId,
    look: Look,
) -> Result<FormulaId, AllocError>
    requires after { HasTerm b.old stores.after }
    requires before { HasTerm b.old stores.before }
    requires object { HasTerm b.old o }
    requires look { HasLook b.old look }
    ensures at { IfOk result (λ r. HasFormula b.new r × (formula_at b.new r ≡ all_of (over_pack (term_at b.old stores.after) t (term_at b.old stores.before) (term_at b.old o) (look_in b.old look)))) }
    ensures grown { IsGrown b.old b.new }
{
    match look {
        Look::Level(p) => placed_level(alloc, b, stores, t, o, p),
        Look::Committed(p) => packed_committed(alloc, b, stores, t, o, p),
        _ => same_read(alloc, b, look, (stores.after, stores.before)),
    }
}

// A read where an object was made ready.
pub(crate) fn ready_read(
    alloc: Global,
    b: &mut Bank,
    stores: Stores,
    o: TermId,
    look: Look,
) -> Result<FormulaId, AllocError>
    requires after { HasTerm b.old stores.after }
    requires before { HasTerm b.old stores.before }
    requires object { HasTerm b.old o }
    requires look { HasLook b.old look }
    ensures at { IfOk result (λ r. HasFormula b.new r × (formula_at b.new r ≡ all_of (over_ready (term_at b.old stores.after) (term_at b.old stores.before) (term_at b.old o) (look_in b.old look)))) }
    ensures grown { IsGrown b.old b.new }
{
    let Look::Ready(p) = look else {
        return same_read(alloc, b, look, (stores.after, stores.before));
    };
    let is_same = b.is_same_term(p, o);
    let places = Places {
        read: Slot::Known(p),
        changed: Slot::Known(o),
        is_same,
    };
    let atoms = (
        Predicate::Ready,
        Slot::Known(stores.after),
        Slot::Known(stores.before),
    );
    added_atom(alloc, b, &[], places, atoms)
}
