// Writes of fields and of elements.

ghost use Rattle.std.specs.Prelude.{◌≡◌, [], ◌∷◌, IfOk, OnOk};
ghost use Rattle.ss_core.specs.View.{expr};
ghost use Rattle.ss_logic.specs.Formulas.{neg};
ghost use Rattle.ss_logic.specs.Shapes.{owner_of, committed, group};
ghost use Rattle.ss_logic.specs.Express.{and_of};
ghost use Rattle.ss_terms.specs.Forms.{term_at, HasTerm};
ghost use Rattle.ss_vcgen_heaps.specs.Obligations as spec;
ghost use Rattle.ss_vcgen_express.specs.Numbers.{IsTerm, IsFormula};
ghost use Rattle.ss_vcgen_builder.specs.Builder.{position_at, walk_at, IsFine, IsWalk, Becomes};
ghost use Rattle.ss_vcgen_statements.specs.Words.{Stays, checked_write, written_store, checked_element};

use crate::said::{applied, deny, each_of, is_null, one_of, say};
use ss_core::{ClassId, Expr, FieldId, Kind, Mark, Place};
use ss_terms::{FormulaId, Symbol, TermId};
use ss_vcgen_builder::{Builder, Walk};
use ss_vcgen_express::{Relation, Saying};
use ss_vcgen_known::{Tests, is_never_null};
use ss_vcgen_types::TypeContext;
use std::alloc::AllocError;

/// A field as the target of a write: the place of the write, the object, and the field with its mark and its class.
#[derive(Clone, Copy)]
pub struct FieldTarget<'a> {
    pub place: Place,
    pub object: &'a Expr,
    pub field: FieldId,
    pub mark: Mark,
    pub class: ClassId,
}

impl<'a> FieldTarget<'a> {
    /// The field of this object, at this place.
    pub fn new(
        place: Place,
        object: &'a Expr,
        field: FieldId,
        mark: Mark,
        class: ClassId,
    ) -> FieldTarget<'a>
        ensures place { result.place ≡ place }
        ensures object { result.object.now ≡ object.now }
        ensures field { result.field ≡ field }
        ensures mark { result.mark ≡ mark }
        ensures class { result.class ≡ class }
    {
        FieldTarget {
            place,
            object,
            field,
            mark,
            class,
        }
    }
}

/// An element as the target of a write: the place of the write, the array and the index.
#[derive(Clone, Copy)]
pub struct ElementTarget<'a> {
    pub place: Place,
    pub array: &'a Expr,
    pub index: &'a Expr,
}

/// The value isn't null, or the check is listed.
pub fn check_not_null(
    builder: &mut Builder,
    walk: &Walk<'_>,
    at: Place,
    e: &Expr,
    o: TermId,
) -> Result<(), AllocError>
    requires fine { IsFine builder.old }
    requires walk { IsWalk builder.old.bank walk.now }
    requires object { HasTerm builder.old.bank o }
    ensures { OnOk result (Becomes builder.old builder.new (λ b. spec.check_not_null (walk_at b walk.now) at (expr e.now) (term_at b o) (position_at b builder.old))) }
{
    let typing = TypeContext {
        classes: &walk.core.classes,
        types: walk.types,
        constructs: walk.body.flags.ctor,
    };
    let known = is_never_null(typing, &builder.known, &Tests::Nothing, false, e);
    let f = say(builder, Saying::NotNull, o)?;
    builder.check_unless(known, walk, Kind::Null, at, f)?;
    Ok(())
}

// The owner of the value is a group, or already the pair.
fn may_be_owned(
    builder: &mut Builder,
    o: TermId,
    class: ClassId,
    v: TermId,
) -> Result<FormulaId, AllocError>
    requires fine { IsFine builder.old }
    requires object { HasTerm builder.old.bank o }
    requires value { HasTerm builder.old.bank v }
    ensures at { IfOk result (λ f. IsFormula builder.new.bank f (λ b. spec.may_be_owned (term_at b builder.old.store) (term_at b o) class.0 (term_at b v))) }
    ensures stays { IfOk result (λ f. Stays builder.old builder.new) }
{
    let store = builder.store;
    let null = is_null(builder, v)?;
    let group = say(builder, Saying::Unowned(store), v)?;
    let owned = say(
        builder,
        Saying::Before(Relation::OwnedAt(store, class.0), o),
        v,
    )?;
    let f = one_of(builder, &[null, group, owned])?;
    Ok(f)
}

// The owner of the object is a group, and the value isn't committed.
fn may_be_taken(
    builder: &mut Builder,
    store: TermId,
    o: TermId,
    v: TermId,
) -> Result<FormulaId, AllocError>
    requires fine { IsFine builder.old }
    requires store { HasTerm builder.old.bank store }
    requires object { HasTerm builder.old.bank o }
    requires value { HasTerm builder.old.bank v }
    ensures at { IfOk result (λ f. IsFormula builder.new.bank f (λ b. and_of (group (owner_of (term_at b store) (term_at b o)) ∷ neg (committed (term_at b store) (term_at b v)) ∷ []))) }
    ensures stays { IfOk result (λ f. Stays builder.old builder.new) }
{
    let group = say(builder, Saying::Unowned(store), o)?;
    let free = deny(builder, Saying::Committed(store), v)?;
    let f = each_of(builder, &[group, free])?;
    Ok(f)
}

// The owners are equal, or one of them can be given up.
fn may_be_joined(builder: &mut Builder, o: TermId, v: TermId) -> Result<FormulaId, AllocError>
    requires fine { IsFine builder.old }
    requires object { HasTerm builder.old.bank o }
    requires value { HasTerm builder.old.bank v }
    ensures at { IfOk result (λ f. IsFormula builder.new.bank f (λ b. spec.may_be_joined (term_at b builder.old.store) (term_at b o) (term_at b v))) }
    ensures stays { IfOk result (λ f. Stays builder.old builder.new) }
{
    let store = builder.store;
    let null = is_null(builder, v)?;
    let same = say(builder, Saying::Behind(Relation::SameOwner(store), o), v)?;
    let group = say(builder, Saying::Unowned(store), v)?;
    let taken = may_be_taken(builder, store, o, v)?;
    let f = one_of(builder, &[null, same, group, taken])?;
    Ok(f)
}

fn check_owners(
    builder: &mut Builder,
    walk: &Walk<'_>,
    target: &FieldTarget<'_>,
    o: TermId,
    v: TermId,
) -> Result<(), AllocError>
    requires fine { IsFine builder.old }
    requires object { HasTerm builder.old.bank o }
    requires value { HasTerm builder.old.bank v }
    ensures { OnOk result (Becomes builder.old builder.new (λ b. spec.check_owners target.now.mark (walk_at b walk.now) target.now.place (term_at b o) target.now.class.0 (term_at b v) (position_at b builder.old))) }
{
    match target.mark {
        Mark::Plain => Ok(()),
        Mark::Rep => {
            let f = may_be_owned(builder, o, target.class, v)?;
            builder.check(walk, Kind::RepOwner, target.place, f)?;
            Ok(())
        }
        Mark::Peer => {
            let f = may_be_joined(builder, o, v)?;
            builder.check(walk, Kind::PeerOwner, target.place, f)?;
            Ok(())
        }
    }
}

// The store with the owners that the write gives.
fn owned_store(
    builder: &mut Builder,
    mark: Mark,
    o: TermId,
    class: ClassId,
    v: TermId,
) -> Result<TermId, AllocError>
    requires fine { IsFine builder.old }
    requires object { HasTerm builder.old.bank o }
    requires value { HasTerm builder.old.bank v }
    ensures at { IfOk result (λ t. IsTerm builder.new.bank t (λ b. spec.owned_store mark (term_at b builder.old.store) (term_at b o) class.0 (term_at b v))) }
    ensures stays { IfOk result (λ t. Stays builder.old builder.new) }
{
    let store = builder.store;
    match mark {
        Mark::Plain => Ok(store),
        Mark::Rep => applied(builder, Symbol::Capture(class.0), &[store, o, v]),
        Mark::Peer => applied(builder, Symbol::Join, &[store, o, v]),
    }
}

// What a write of a field asks for.
fn check_write(
    builder: &mut Builder,
    walk: &Walk<'_>,
    target: &FieldTarget<'_>,
    o: TermId,
    v: TermId,
) -> Result<(), AllocError>
    requires fine { IsFine builder.old }
    requires walk { IsWalk builder.old.bank walk.now }
    requires object { HasTerm builder.old.bank o }
    requires value { HasTerm builder.old.bank v }
    ensures { OnOk result (Becomes builder.old builder.new (λ b. checked_write (walk_at b walk.now) target.now.place (expr target.now.object.now) target.now.mark target.now.class.0 (term_at b o) (term_at b v) (position_at b builder.old))) }
{
    let packed = Saying::Packed(builder.store, target.class.0);
    let unpacked = deny(builder, packed, o)?;
    check_not_null(builder, walk, target.place, target.object, o)?;
    builder.check(walk, Kind::WriteLevel, target.place, unpacked)?;
    check_owners(builder, walk, target, o, v)?;
    Ok(())
}

// The store in which the field has the value.
fn written_store(
    builder: &mut Builder,
    field: FieldId,
    mark: Mark,
    class: ClassId,
    o: TermId,
    v: TermId,
) -> Result<TermId, AllocError>
    requires fine { IsFine builder.old }
    requires object { HasTerm builder.old.bank o }
    requires value { HasTerm builder.old.bank v }
    ensures at { IfOk result (λ t. IsTerm builder.new.bank t (λ b. written_store field.0 mark class.0 (term_at b o) (term_at b v) (position_at b builder.old))) }
    ensures stays { IfOk result (λ t. Stays builder.old builder.new) }
{
    let owned = owned_store(builder, mark, o, class, v)?;
    let written = applied(builder, Symbol::Set(field.0), &[owned, o, v])?;
    Ok(written)
}

/// A write of a field.
pub fn write(
    builder: &mut Builder,
    walk: &Walk<'_>,
    target: &FieldTarget<'_>,
    o: TermId,
    v: TermId,
) -> Result<(), AllocError>
    requires fine { IsFine builder.old }
    requires walk { IsWalk builder.old.bank walk.now }
    requires object { HasTerm builder.old.bank o }
    requires value { HasTerm builder.old.bank v }
    ensures { OnOk result (Becomes builder.old builder.new (λ b. spec.write (walk_at b walk.now) target.now.place (expr target.now.object.now) target.now.field.0 target.now.mark target.now.class.0 (term_at b o) (term_at b v) (position_at b builder.old))) }
{
    let written = written_store(builder, target.field, target.mark, target.class, o, v)?;
    check_write(builder, walk, target, o, v)?;
    builder.with_store(written)?;
    Ok(())
}

// What a write of an element asks for.
fn check_element(
    builder: &mut Builder,
    walk: &Walk<'_>,
    target: &ElementTarget<'_>,
    a: TermId,
    i: TermId,
) -> Result<(), AllocError>
    requires fine { IsFine builder.old }
    requires walk { IsWalk builder.old.bank walk.now }
    requires array { HasTerm builder.old.bank a }
    requires index { HasTerm builder.old.bank i }
    ensures { OnOk result (Becomes builder.old builder.new (λ b. checked_element (walk_at b walk.now) target.now.place (expr target.now.array.now) (term_at b a) (term_at b i) (position_at b builder.old))) }
{
    let store = builder.store;
    let there = say(builder, Saying::Behind(Relation::HasElement, a), i)?;
    let free = deny(builder, Saying::Committed(store), a)?;
    check_not_null(builder, walk, target.place, target.array, a)?;
    builder.check(walk, Kind::Index, target.place, there)?;
    builder.check(walk, Kind::WriteCommitted, target.place, free)?;
    Ok(())
}

/// A write of an element.
pub fn write_element(
    builder: &mut Builder,
    walk: &Walk<'_>,
    target: &ElementTarget<'_>,
    a: TermId,
    i: TermId,
    v: TermId,
) -> Result<(), AllocError>
    requires fine { IsFine builder.old }
    requires walk { IsWalk builder.old.bank walk.now }
    requires array { HasTerm builder.old.bank a }
    requires index { HasTerm builder.old.bank i }
    requires value { HasTerm builder.old.bank v }
    ensures { OnOk result (Becomes builder.old builder.new (λ b. spec.write_element (walk_at b walk.now) target.now.place (expr target.now.array.now) (term_at b a) (term_at b i) (term_at b v) (position_at b builder.old))) }
{
    let store = builder.store;
    let written = applied(builder, Symbol::Put, &[store, a, i, v])?;
    check_element(builder, walk, target, a, i)?;
    builder.with_store(written)?;
    Ok(())
}
