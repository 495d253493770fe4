// That locals have values of their types.

ghost use Rattle.std.specs.Prelude.{◌≡◌, true, [], ◌∷◌, Some, slice_get, IfOk};
ghost use Rattle.ss_logic.specs.Shapes.{null_term, equal, differ};
ghost use Rattle.ss_logic.specs.Express.{or_of};
ghost use Rattle.ss_terms.specs.Forms.{Forms, term_at, HasTerm};
ghost use Rattle.ss_vcgen_heaps.specs.Obligations as spec;
ghost use Rattle.ss_vcgen_express.specs.Numbers.{IsFormula, AreFormulas};
ghost use Rattle.ss_vcgen_builder.specs.Builder.{position_at, local_at, locals_at, walk_at, HasLocals, IsFine};
ghost use Rattle.ss_terms.specs.Numbered.{HasTermOf};
ghost use Rattle.ss_vcgen_statements.specs.Words.{Stays};
ghost use Rattle.ss_vcgen_bodies.specs.Words.{flat, kept_type, entry_type, not_lost};

use crate::type_said;
use ss_core::{Ty, is_non_null, nullable};
use ss_terms::{FormulaId, TermId};
use ss_vcgen_builder::{Builder, Walk};
use ss_vcgen_express::Saying;
use ss_vcgen_statements::{is_null, one_of, say};
use std::alloc::AllocError;

// The `this` of a constructor need not be ready.
fn is_asked_ready(walk: &Walk<'_>, x: usize) -> bool
    ensures { (b : Forms) → result ≡ spec.is_asked_ready (walk_at b walk.now) x }
{
    !(walk.body.flags.ctor && x == 0)
}

// The term of a local, where it has one.
fn local_in(locals: &[Option<TermId>], x: usize) -> Option<TermId>
    ensures { result ≡ flat (slice_get locals.now x) }
{
    match locals.get(x) {
        Some(local) => *local,
        None => None,
    }
}

// No formulas.
fn no_formulas(builder: &mut Builder) -> Result<Vec<FormulaId>, AllocError>
    requires { IsFine builder.old }
    ensures at { IfOk result (λ v. AreFormulas builder.new.bank v.items (λ b. [])) }
    ensures stays { IfOk result (λ v. Stays builder.old builder.new) }
{
    Ok(Vec::new(builder.alloc))
}

// It was null before, or it isn't now.
fn stays_there(builder: &mut Builder, before: TermId, now: TermId) -> Result<FormulaId, AllocError>
    requires fine { IsFine builder.old }
    requires before { HasTerm builder.old.bank before }
    requires now { HasTerm builder.old.bank now }
    ensures at { IfOk result (λ f. IsFormula builder.new.bank f (λ b. or_of (equal (term_at b before) null_term ∷ differ (term_at b now) null_term ∷ []))) }
    ensures stays { IfOk result (λ f. Stays builder.old builder.new) }
{
    let null = is_null(builder, before)?;
    let other = say(builder, Saying::NotNull, now)?;
    let f = one_of(builder, &[null, other])?;
    Ok(f)
}

// The same, alone.
fn stays_alone(
    builder: &mut Builder,
    before: TermId,
    now: TermId,
) -> Result<Vec<FormulaId>, AllocError>
    requires fine { IsFine builder.old }
    requires before { HasTerm builder.old.bank before }
    requires now { HasTerm builder.old.bank now }
    ensures at { IfOk result (λ v. AreFormulas builder.new.bank v.items (λ b. not_lost true (term_at b before) (term_at b now))) }
    ensures stays { IfOk result (λ v. Stays builder.old builder.new) }
{
    let f = stays_there(builder, before, now)?;
    let alone = Vec::from_slice(builder.alloc, &[f])?;
    Ok(alone)
}

// The same, where null isn't of the type.
fn not_lost(
    builder: &mut Builder,
    non_null: bool,
    before: TermId,
    now: TermId,
) -> Result<Vec<FormulaId>, AllocError>
    requires fine { IsFine builder.old }
    requires before { HasTerm builder.old.bank before }
    requires now { HasTerm builder.old.bank now }
    ensures at { IfOk result (λ v. AreFormulas builder.new.bank v.items (λ b. not_lost non_null (term_at b before) (term_at b now))) }
    ensures stays { IfOk result (λ v. Stays builder.old builder.new) }
{
    if non_null {
        stays_alone(builder, before, now)
    } else {
        no_formulas(builder)
    }
}

// The value now is of the type, or null. Where null isn't of the type, it isn't null if the value before wasn't.
fn stays_of_type(
    builder: &mut Builder,
    asks_ready: bool,
    store: TermId,
    ty: Ty,
    before: TermId,
    now: TermId,
) -> Result<Vec<FormulaId>, AllocError>
    requires fine { IsFine builder.old }
    requires store { HasTerm builder.old.bank store }
    requires before { HasTerm builder.old.bank before }
    requires now { HasTerm builder.old.bank now }
    ensures at { IfOk result (λ v. AreFormulas builder.new.bank v.items (λ b. spec.stays_of_type asks_ready (term_at b store) ty (term_at b before) (term_at b now))) }
    ensures stays { IfOk result (λ v. Stays builder.old builder.new) }
{
    let lost = is_non_null(ty);
    let mut said = type_said(builder, store, asks_ready, nullable(ty), now)?;
    let more = not_lost(builder, lost, before, now)?;
    said.extend_from_slice(&more)?;
    Ok(said)
}

// A local: its number, its type, and its term, where it has one.
#[derive(Clone, Copy)]
struct TypedLocal {
    number: usize,
    ty: Ty,
    term: Option<TermId>,
}

// What is known at the head of a loop of one local, which had this term before.
fn kept_since(
    builder: &mut Builder,
    walk: &Walk<'_>,
    store: TermId,
    local: TypedLocal,
    before: TermId,
) -> Result<Vec<FormulaId>, AllocError>
    requires fine { IsFine builder.old }
    requires store { HasTerm builder.old.bank store }
    requires before { HasTerm builder.old.bank before }
    requires now { HasTermOf builder.old.bank local.term }
    ensures at { IfOk result (λ v. AreFormulas builder.new.bank v.items (λ b. kept_type (walk_at b walk.now) (term_at b store) local.number local.ty (Some (term_at b before)) (local_at b local.term))) }
    ensures stays { IfOk result (λ v. Stays builder.old builder.new) }
{
    let asks_ready = is_asked_ready(walk, local.number);
    match local.term {
        Some(new) => stays_of_type(builder, asks_ready, store, local.ty, before, new),
        None => no_formulas(builder),
    }
}

// The same, where it had one.
fn kept_type(
    builder: &mut Builder,
    walk: &Walk<'_>,
    store: TermId,
    local: TypedLocal,
    before: Option<TermId>,
) -> Result<Vec<FormulaId>, AllocError>
    requires fine { IsFine builder.old }
    requires store { HasTerm builder.old.bank store }
    requires before { HasTermOf builder.old.bank before }
    requires now { HasTermOf builder.old.bank local.term }
    ensures at { IfOk result (λ v. AreFormulas builder.new.bank v.items (λ b. kept_type (walk_at b walk.now) (term_at b store) local.number local.ty (local_at b before) (local_at b local.term))) }
    ensures stays { IfOk result (λ v. Stays builder.old builder.new) }
{
    match before {
        Some(old) => kept_since(builder, walk, store, local, old),
        None => no_formulas(builder),
    }
}

// What is known at the head of a loop of each local that had a term before.
pub(crate) fn kept_types(
    builder: &mut Builder,
    walk: &Walk<'_>,
    types: &[Ty],
    before: &[Option<TermId>],
) -> Result<Vec<FormulaId>, AllocError>
    requires fine { IsFine builder.old }
    requires before { HasLocals builder.old.bank before.now }
    ensures at { IfOk result (λ v. AreFormulas builder.new.bank v.items (λ b. spec.types_from (walk_at b walk.now) (term_at b builder.old.store) 0 types.now (locals_at b before.now) (position_at b builder.old).locals)) }
    ensures stays { IfOk result (λ v. Stays builder.old builder.new) }
{
    let store = builder.store;
    let mut made = Vec::new(builder.alloc);
    for x in 0..types.len() {
        let old = local_in(before, x);
        let new = local_in(&builder.locals, x);
        let local = TypedLocal {
            number: x,
            ty: types[x],
            term: new,
        };
        let typed = kept_type(builder, walk, store, local, old)?;
        made.extend_from_slice(&typed)?;
    }
    Ok(made)
}

// What is known at an entry of one argument.
fn entry_type(
    builder: &mut Builder,
    walk: &Walk<'_>,
    store: TermId,
    local: TypedLocal,
) -> Result<Vec<FormulaId>, AllocError>
    requires fine { IsFine builder.old }
    requires store { HasTerm builder.old.bank store }
    requires now { HasTermOf builder.old.bank local.term }
    ensures at { IfOk result (λ v. AreFormulas builder.new.bank v.items (λ b. entry_type (walk_at b walk.now) (term_at b store) local.number local.ty (local_at b local.term))) }
    ensures stays { IfOk result (λ v. Stays builder.old builder.new) }
{
    let asks_ready = is_asked_ready(walk, local.number);
    match local.term {
        Some(new) => type_said(builder, store, asks_ready, local.ty, new),
        None => no_formulas(builder),
    }
}

/// What is known at an entry of arguments of these types: each has a value of its type.
pub fn argument_types_said(
    builder: &mut Builder,
    walk: &Walk<'_>,
    types: &[Ty],
) -> Result<Vec<FormulaId>, AllocError>
    requires { IsFine builder.old }
    ensures at { IfOk result (λ v. AreFormulas builder.new.bank v.items (λ b. spec.argument_types_from (walk_at b walk.now) (position_at b builder.old).store 0 types.now (position_at b builder.old).locals)) }
    ensures stays { IfOk result (λ v. Stays builder.old builder.new) }
{
    let store = builder.store;
    let mut made = Vec::new(builder.alloc);
    for x in 0..types.len() {
        let now = local_in(&builder.locals, x);
        let local = TypedLocal {
            number: x,
            ty: types[x],
            term: now,
        };
        let typed = entry_type(builder, walk, store, local)?;
        made.extend_from_slice(&typed)?;
    }
    Ok(made)
}
