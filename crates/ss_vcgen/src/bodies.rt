// Bodies: what is known at the entry, and the obligations of the code.

ghost use Rattle.std.specs.Prelude.{◌≡◌, ◌+◌, [], ◌∷◌, ◌++◌, map, None, IfOk, OnOk};
ghost use Rattle.ss_core.specs.Chain.{IsWithinLimits};
ghost use Rattle.ss_core.specs.View as view;
ghost use Rattle.ss_store_rules.specs.Locals.{argument_types};
ghost use Rattle.ss_logic.specs.declared.Sort.TheVariants as sort;
ghost use Rattle.ss_logic.specs.Terms.{Constant, app};
ghost use Rattle.ss_terms.specs.Forms.{Forms, term_at, IsBankOf};
ghost use Rattle.ss_vcgen_heaps.specs.Obligations as spec;
ghost use Rattle.ss_vcgen_express.specs.Numbers.{IsTerm, AreFormulas};
ghost use Rattle.ss_vcgen_builder.specs.Builder.{counters_of, position_at, walk_at, IsFine, IsWalk, Becomes};
ghost use Rattle.ss_vcgen_statements.specs.Words.{Stays};
ghost use Rattle.ss_vcgen.specs.Bodies.{blank, Begins, argument_entered, locals_entered, result_entered, entered, entry_formulas, entry_known, filled};

use crate::behind::behind_all;
use crate::watch::Watch;
use ss_core::{Body, BodyId, Core, Local, Ty};
use ss_logic::Sort;
use ss_terms::{FormulaId, TermId};
use ss_vcgen_bodies::{argument_types_said, element_sort, entries_said};
use ss_vcgen_builder::{Builder, Guard, Walk};
use ss_vcgen_known::Known;
use ss_vcgen_statements::good;
use ss_vcgen_types::{argument_types, local_types};
use std::alloc::AllocError;

// Nothing is known of the body yet.
fn clear(builder: &mut Builder, body: &Body)
    requires { IsFine builder.old }
    ensures { Begins builder.old builder.new (λ b. blank (view.body body.now) (term_at b builder.old.store) (counters_of builder.old.next)) }
{
    builder.first = builder.trail.len();
    builder.list = Vec::new(builder.alloc);
    builder.locals = Vec::new(builder.alloc);
    builder.guard = Guard::Always;
    builder.known = Known::at_entry(builder.alloc, body);
}

// The next new store.
fn new_store(builder: &mut Builder) -> Result<TermId, AllocError>
    requires { IsFine builder.old }
    ensures at { IfOk result (λ t. IsTerm builder.new.bank t (λ b. app (Constant sort.Store builder.old.next.stores) [])) }
    ensures becomes { IfOk result (λ t. Becomes builder.old builder.new (λ b. record (position_at b builder.old) {
      store = app (Constant sort.Store builder.old.next.stores) [];
      next = record (counters_of builder.old.next) { stores = builder.old.next.stores + 1 };
    })) }
{
    let store = builder.new_term(Sort::Store)?;
    builder.set_store(store);
    Ok(store)
}

// Begins a body. The result is the store at its entry.
fn begin(builder: &mut Builder, body: &Body) -> Result<TermId, AllocError>
    requires { IsFine builder.old }
    ensures at { IfOk result (λ t. IsTerm builder.new.bank t (λ b. app (Constant sort.Store builder.old.next.stores) [])) }
    ensures begins { IfOk result (λ t. Begins builder.old builder.new (λ b. spec.first_position (view.body body.now) (counters_of builder.old.next))) }
{
    clear(builder, body);
    let store = new_store(builder)?;
    Ok(store)
}

// An argument is a new constant.
fn enter_argument(builder: &mut Builder, ty: Ty) -> Result<(), AllocError>
    requires { IsFine builder.old }
    ensures { OnOk result (Becomes builder.old builder.new (λ b. argument_entered ty (position_at b builder.old))) }
{
    let t = builder.new_term(element_sort(Some(ty)))?;
    builder.add_local(Some(t))?;
    Ok(())
}

// Each argument is.
fn enter_arguments(builder: &mut Builder, types: &[Ty]) -> Result<(), AllocError>
    requires { IsFine builder.old }
    ensures { OnOk result (Becomes builder.old builder.new (λ b. spec.enter_arguments types.now (position_at b builder.old))) }
{
    for ty in types {
        enter_argument(builder, *ty)?;
    }
    Ok(())
}

// A local has no value.
fn enter_local(builder: &mut Builder, _local: &Local) -> Result<(), AllocError>
    requires { IsFine builder.old }
    ensures { OnOk result (Becomes builder.old builder.new (λ b. record (position_at b builder.old) { locals = (position_at b builder.old).locals ++ None ∷ [] })) }
{
    builder.add_local(None)
}

// The other locals have no values.
fn enter_locals(builder: &mut Builder, body: &Body) -> Result<(), AllocError>
    requires { IsFine builder.old }
    ensures { OnOk result (Becomes builder.old builder.new (λ b. locals_entered (view.body body.now) (position_at b builder.old))) }
{
    enter_each(builder, &body.locals)
}

// Each of these has none.
fn enter_each(builder: &mut Builder, locals: &[Local]) -> Result<(), AllocError>
    requires { IsFine builder.old }
    ensures { OnOk result (Becomes builder.old builder.new (λ b. record (position_at b builder.old) { locals = (position_at b builder.old).locals ++ map (λ l. None) (map view.local_of locals.now) })) }
{
    for local in locals {
        enter_local(builder, local)?;
    }
    Ok(())
}

// The result, where there is one, has none.
fn enter_result(builder: &mut Builder, result_type: Option<Ty>) -> Result<(), AllocError>
    requires { IsFine builder.old }
    ensures { OnOk result (Becomes builder.old builder.new (λ b. result_entered result_type (position_at b builder.old))) }
{
    match result_type {
        Some(_) => builder.add_local(None),
        None => Ok(()),
    }
}

// The locals at the entry.
fn enter(builder: &mut Builder, body: &Body, types: &[Ty]) -> Result<(), AllocError>
    requires fine { IsFine builder.old }
    requires types { types.now ≡ argument_types (view.body body.now) }
    ensures { OnOk result (Becomes builder.old builder.new (λ b. entered (view.body body.now) (position_at b builder.old))) }
{
    enter_arguments(builder, types)?;
    enter_locals(builder, body)?;
    enter_result(builder, body.result)?;
    Ok(())
}

// What is known at the entry: the store is good, the arguments have their types, and the conditions at entry hold.
fn entry_formulas(
    builder: &mut Builder,
    walk: &Walk<'_>,
    types: &[Ty],
) -> Result<Vec<FormulaId>, AllocError>
    requires fine { IsFine builder.old }
    requires walk { IsWalk builder.old.bank walk.now }
    ensures at { IfOk result (λ v. AreFormulas builder.new.bank v.items (λ b. entry_formulas (walk_at b walk.now) types.now (position_at b builder.old))) }
    ensures stays { IfOk result (λ v. Stays builder.old builder.new) }
{
    let store = builder.store;
    let is_good = good(builder, store)?;
    let typed = argument_types_said(builder, walk, types)?;
    let said = entries_said(builder, walk)?;
    let mut all = Vec::from_slice(builder.alloc, &[is_good])?;
    all.extend_from_slice(&typed)?;
    all.extend_from_slice(&said)?;
    Ok(all)
}

// It is known.
fn know_entry(builder: &mut Builder, walk: &Walk<'_>, types: &[Ty]) -> Result<(), AllocError>
    requires fine { IsFine builder.old }
    requires walk { IsWalk builder.old.bank walk.now }
    ensures { OnOk result (Becomes builder.old builder.new (λ b. entry_known (walk_at b walk.now) types.now (position_at b builder.old))) }
{
    let said = entry_formulas(builder, walk, types)?;
    builder.assume_all(&said)?;
    Ok(())
}

// Goes from a position of which nothing is known to after the code.
fn fill(builder: &mut Builder, walk: &Walk<'_>, watch: &mut Watch) -> Result<(), AllocError>
    requires fine { IsFine builder.old }
    requires walk { IsWalk builder.old.bank walk.now }
    ensures { OnOk result (Becomes builder.old builder.new (λ b. filled (walk_at b walk.now) (position_at b builder.old))) }
{
    let types = argument_types(builder.alloc, walk.body)?;
    enter(builder, walk.body, &types)?;
    know_entry(builder, walk, &types)?;
    behind_all(builder, walk, &walk.body.code, watch)?;
    watch.see(builder)?;
    Ok(())
}

/// The obligations of a body are listed; those of the body before are no longer.
pub(crate) fn add_body(
    builder: &mut Builder,
    core: &Core,
    body: &Body,
    number: BodyId,
    watch: &mut Watch,
) -> Result<(), AllocError>
    requires fine { IsFine builder.old }
    requires bank { IsBankOf (view.classes core.now.classes) builder.old.bank }
    requires limits { IsWithinLimits (view.classes core.now.classes) }
    ensures { OnOk result (Begins builder.old builder.new (λ b. spec.at_end (spec.walk_of (view.core core.now) number.0 (view.body body.now) (counters_of builder.old.next)) (counters_of builder.old.next))) }
{
    let types = local_types(builder.alloc, body)?;
    let entry = begin(builder, body)?;
    let walk = Walk {
        core,
        body,
        types: &types,
        number,
        entry,
    };
    fill(builder, &walk, watch)?;
    Ok(())
}
