// Levels: unpacking and packing.

ghost use Rattle.std.specs.Prelude.{◌≡◌, [], ◌∷◌, ◌||◌, slice_get, IfOk, OnOk};
ghost use Rattle.ss_core.specs.Chain.{IsWithinLimits};
ghost use Rattle.ss_core.specs.View.{classes, exprs};
ghost use Rattle.ss_store_rules.specs.NonNull.{is_non_null_type};
ghost use Rattle.ss_logic.specs.declared.Sort.TheVariants as sort;
ghost use Rattle.ss_logic.specs.Terms.{Bound};
ghost use Rattle.ss_logic.specs.Formulas.{Forall};
ghost use Rattle.ss_logic.specs.Invariants.{invariant_context};
ghost use Rattle.ss_terms.specs.Forms.{Forms, term_at, formula_at, HasTerm, HasFormula};
ghost use Rattle.ss_vcgen_heaps.specs.Contracts as contract;
ghost use Rattle.ss_vcgen_heaps.specs.Obligations as spec;
ghost use Rattle.ss_vcgen_express.specs.Numbers.{IsTerm, IsFormula, AreFormulas};
ghost use Rattle.ss_vcgen_express.specs.Contexts.{context_at, HasContext};
ghost use Rattle.ss_vcgen_known.specs.Views.{known_of};
ghost use Rattle.ss_vcgen_builder.specs.Builder.{position_at, walk_at, IsFine, IsWalk, Becomes};
ghost use Rattle.ss_vcgen_statements.specs.Words.{Stays, checked_unpack, checked_level, checked_invariants, full_where_owned};

use crate::said::{applied_local, deny, deny_local, one_of, say, say_local};
use ss_core::{ClassId, Expr, Kind, Place, Ty};
use ss_logic::Sort;
use ss_terms::{FormulaId, Symbol, Term, TermId};
use ss_vcgen_builder::{Builder, Walk};
use ss_vcgen_express::{Context, Relation, Saying};
use ss_vcgen_known::is_non_null_local;
use ss_vcgen_walk::conditions;
use std::alloc::AllocError;

// Whether the type of a local, or what is known, says that it isn't null.
fn is_known_local(builder: &Builder, walk: &Walk<'_>, x: usize) -> bool
    ensures { result ≡ (is_non_null_type (slice_get walk.now.types.now x) || (known_of builder.now.known).facts x) }
{
    is_non_null_local(walk.types, x) || builder.known.knows(x)
}

// The local isn't null, or the check is listed.
fn check_local(
    builder: &mut Builder,
    walk: &Walk<'_>,
    at: Place,
    x: usize,
) -> Result<(), AllocError>
    requires fine { IsFine builder.old }
    requires walk { IsWalk builder.old.bank walk.now }
    ensures { OnOk result (Becomes builder.old builder.new (λ b. spec.check_local (walk_at b walk.now) at x (position_at b builder.old))) }
{
    let known = is_known_local(builder, walk, x);
    let f = say_local(builder, Saying::NotNull, x)?;
    builder.check_unless(known, walk, Kind::Null, at, f)?;
    Ok(())
}

// What unpacking asks for.
fn check_unpack(
    builder: &mut Builder,
    walk: &Walk<'_>,
    at: Place,
    x: usize,
    class: ClassId,
) -> Result<(), AllocError>
    requires fine { IsFine builder.old }
    requires walk { IsWalk builder.old.bank walk.now }
    ensures { OnOk result (Becomes builder.old builder.new (λ b. checked_unpack (walk_at b walk.now) at x class.0 (position_at b builder.old))) }
{
    let store = builder.store;
    let level = say_local(builder, Saying::AtLevel(store, class.0), x)?;
    let free = deny_local(builder, Saying::Committed(store), x)?;
    check_local(builder, walk, at, x)?;
    builder.check(walk, Kind::UnpackLevel, at, level)?;
    builder.check(walk, Kind::UnpackCommitted, at, free)?;
    Ok(())
}

/// The object of a local is unpacked from a class.
pub fn unpack(
    builder: &mut Builder,
    walk: &Walk<'_>,
    at: Place,
    x: usize,
    class: ClassId,
) -> Result<(), AllocError>
    requires fine { IsFine builder.old }
    requires walk { IsWalk builder.old.bank walk.now }
    ensures { OnOk result (Becomes builder.old builder.new (λ b. spec.unpack (walk_at b walk.now) at x class.0 (position_at b builder.old))) }
{
    let unpacked = applied_local(builder, Symbol::Unpack(class.0), x)?;
    check_unpack(builder, walk, at, x, class)?;
    builder.with_store(unpacked)?;
    Ok(())
}

// Where an invariant of the class stands, of this object.
fn invariant_context<'p>(
    builder: &Builder,
    walk: &Walk<'p>,
    store: TermId,
    class: ClassId,
    o: TermId,
) -> Result<Context<'p>, AllocError>
    requires store { HasTerm builder.now.bank store }
    requires limits { IsWithinLimits (classes walk.now.core.now.classes) }
    requires object { HasTerm builder.now.bank o }
    ensures at { IfOk result (λ c. (b : Forms) → context_at b c ≡ invariant_context (classes walk.now.core.now.classes) (term_at b store) (term_at b o) class.0) }
    ensures has { IfOk result (λ c. HasContext builder.now.bank c) }
{
    let object = Ty::Ref {
        class,
        non_null: true,
    };
    let types = Vec::from_slice(builder.alloc, &[object])?;
    let locals = Vec::from_slice(builder.alloc, &[o])?;
    Ok(Context {
        classes: &walk.core.classes,
        now: store,
        entry: store,
        inside_old: false,
        types,
        locals,
        bound: 0,
    })
}

// These conditions in this context.
fn conditions_said(
    builder: &mut Builder,
    context: &Context<'_>,
    es: &[Expr],
) -> Result<Vec<FormulaId>, AllocError>
    requires fine { IsFine builder.old }
    requires context { HasContext builder.old.bank context.now }
    ensures at { IfOk result (λ v. AreFormulas builder.new.bank v.items (λ b. contract.conditions (exprs es.now) (context_at b context.entry.now))) }
    ensures stays { IfOk result (λ v. Stays builder.old builder.new) }
{
    conditions(builder.alloc, &mut builder.bank, context, es)
}

// Each invariant of the class has a value, and that is true.
fn invariants_said(
    builder: &mut Builder,
    store: TermId,
    walk: &Walk<'_>,
    class: ClassId,
    o: TermId,
) -> Result<Vec<FormulaId>, AllocError>
    requires fine { IsFine builder.old }
    requires store { HasTerm builder.old.bank store }
    requires walk { IsWalk builder.old.bank walk.now }
    requires object { HasTerm builder.old.bank o }
    ensures at { IfOk result (λ v. AreFormulas builder.new.bank v.items (λ b. spec.invariants_said (classes walk.now.core.now.classes) (term_at b store) (term_at b o) class.0)) }
    ensures stays { IfOk result (λ v. Stays builder.old builder.new) }
{
    let context = invariant_context(builder, walk, store, class, o)?;
    match walk.core.classes.declared(class) {
        Some(declared) => {
            let said = conditions_said(builder, &context, &declared.invariants)?;
            Ok(said)
        }
        None => Ok(Vec::new(builder.alloc)),
    }
}

// That an object isn't owned by another at a class, or is full and not committed.
fn is_full_where_owned(
    builder: &mut Builder,
    store: TermId,
    class: ClassId,
    o: TermId,
    v: TermId,
) -> Result<FormulaId, AllocError>
    requires fine { IsFine builder.old }
    requires store { HasTerm builder.old.bank store }
    requires object { HasTerm builder.old.bank o }
    requires owned { HasTerm builder.old.bank v }
    ensures at { IfOk result (λ f. IsFormula builder.new.bank f (λ b. full_where_owned (term_at b store) (term_at b o) class.0 (term_at b v))) }
    ensures stays { IfOk result (λ f. Stays builder.old builder.new) }
{
    let new = say(builder, Saying::New(store), v)?;
    let other = deny(
        builder,
        Saying::Before(Relation::OwnedAt(store, class.0), o),
        v,
    )?;
    let full = say(builder, Saying::Consistent(store), v)?;
    let f = one_of(builder, &[new, other, full])?;
    Ok(f)
}

// What an object owns at a class is at its full level and not committed.
fn owned_are_full(
    builder: &mut Builder,
    store: TermId,
    class: ClassId,
    o: TermId,
) -> Result<FormulaId, AllocError>
    requires fine { IsFine builder.old }
    requires store { HasTerm builder.old.bank store }
    requires object { HasTerm builder.old.bank o }
    ensures at { IfOk result (λ f. IsFormula builder.new.bank f (λ b. spec.owned_are_full (term_at b store) (term_at b o) class.0)) }
    ensures stays { IfOk result (λ f. Stays builder.old builder.new) }
{
    let v = bound_name(builder)?;
    let body = is_full_where_owned(builder, store, class, o, v)?;
    let f = each_object(builder, body)?;
    Ok(f)
}

// The first bound name.
fn bound_name(builder: &mut Builder) -> Result<TermId, AllocError>
    requires { IsFine builder.old }
    ensures at { IfOk result (λ t. IsTerm builder.new.bank t (λ b. Bound 0)) }
    ensures stays { IfOk result (λ t. Stays builder.old builder.new) }
{
    builder.bank.term(Term::Bound(0))
}

// The formula, for each object.
fn each_object(builder: &mut Builder, f: FormulaId) -> Result<FormulaId, AllocError>
    requires fine { IsFine builder.old }
    requires formula { HasFormula builder.old.bank f }
    ensures at { IfOk result (λ g. IsFormula builder.new.bank g (λ b. Forall (sort.Rest ∷ []) (formula_at b f))) }
    ensures stays { IfOk result (λ g. Stays builder.old builder.new) }
{
    builder.bank.forall(&[Sort::Rest], f)
}

// The local isn't null, and it is at the level above the class.
fn check_level(
    builder: &mut Builder,
    walk: &Walk<'_>,
    at: Place,
    x: usize,
    class: ClassId,
) -> Result<(), AllocError>
    requires fine { IsFine builder.old }
    requires walk { IsWalk builder.old.bank walk.now }
    ensures { OnOk result (Becomes builder.old builder.new (λ b. checked_level (walk_at b walk.now) at x class.0 (position_at b builder.old))) }
{
    let above = walk.core.classes.above(class);
    let at_level = Saying::AtLevel(builder.store, above.0);
    let level = say_local(builder, at_level, x)?;
    check_local(builder, walk, at, x)?;
    builder.check(walk, Kind::PackLevel, at, level)?;
    Ok(())
}

// The invariants of the class hold, and what is owned there is full.
fn check_invariants(
    builder: &mut Builder,
    walk: &Walk<'_>,
    at: Place,
    x: usize,
    class: ClassId,
) -> Result<(), AllocError>
    requires fine { IsFine builder.old }
    requires walk { IsWalk builder.old.bank walk.now }
    ensures { OnOk result (Becomes builder.old builder.new (λ b. checked_invariants (walk_at b walk.now) at x class.0 (position_at b builder.old))) }
{
    let store = builder.store;
    let o = builder.local_term(x)?;
    let said = invariants_said(builder, store, walk, class, o)?;
    let full = owned_are_full(builder, store, class, o)?;
    builder.check_all(walk, Kind::Invariant, at, &said)?;
    builder.check(walk, Kind::PackOwned, at, full)?;
    Ok(())
}

/// The object of a local is packed at a class.
pub fn pack(
    builder: &mut Builder,
    walk: &Walk<'_>,
    at: Place,
    x: usize,
    class: ClassId,
) -> Result<(), AllocError>
    requires fine { IsFine builder.old }
    requires walk { IsWalk builder.old.bank walk.now }
    ensures { OnOk result (Becomes builder.old builder.new (λ b. spec.pack (walk_at b walk.now) at x class.0 (position_at b builder.old))) }
{
    let packed = applied_local(builder, Symbol::Pack(class.0), x)?;
    check_level(builder, walk, at, x, class)?;
    check_invariants(builder, walk, at, x, class)?;
    builder.with_store(packed)?;
    Ok(())
}
