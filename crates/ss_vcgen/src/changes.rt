// What statements change, but for what is known of null.

ghost use Rattle.std.specs.Prelude.{◌≡◌, [], ◌∷◌, IfOk, OnOk};
ghost use Rattle.ss_core.specs.Chain.{IsWithinLimits};
ghost use Rattle.ss_core.specs.View.{classes, body, expr};
ghost use Rattle.ss_store_rules.specs.Locals.{local_types};
ghost use Rattle.ss_store_rules.specs.Types.{element_of, code_type};
ghost use Rattle.ss_logic.specs.Terms.{field_sort};
ghost use Rattle.ss_logic.specs.Express.{element_sort};
ghost use Rattle.ss_terms.specs.Forms.{Forms};
ghost use Rattle.ss_vcgen_heaps.specs.Positions as position;
ghost use Rattle.ss_vcgen_heaps.specs.Obligations as spec;
ghost use Rattle.ss_vcgen_express.specs.Numbers.{meant_at, HasMeant, IsMeant, IsTerm};
ghost use Rattle.ss_vcgen_builder.specs.Builder.{position_at, walk_at, IsFine, IsWalk, Becomes};
ghost use Rattle.ss_vcgen.specs.Behind.{with_two, assigned, written, element_written, made_ready};

use ss_core::{Expr, FieldId};
use ss_logic::Sort;
use ss_terms::{Symbol, TermId};
use ss_vcgen_bodies::element_sort;
use ss_vcgen_builder::{Builder, Walk};
use ss_vcgen_express::Meant;
use ss_vcgen_statements::{
    ElementTarget, FieldTarget, applied_local, evaluate, write, write_element,
};
use ss_vcgen_types::{code_type, element_of, field_type};
use std::alloc::AllocError;

// The sort of a local.
fn local_sort(walk: &Walk<'_>, x: usize) -> Sort
    requires { walk.now.types.now ≡ local_types (body walk.now.body.now) }
    ensures { (b : Forms) → result ≡ spec.local_sort (walk_at b walk.now) x }
{
    element_sort(walk.types.get(x).copied())
}

// The sort of a field.
fn sort_of_field(walk: &Walk<'_>, field: FieldId) -> Sort
    requires { IsWithinLimits (classes walk.now.core.now.classes) }
    ensures { result ≡ field_sort (classes walk.now.core.now.classes) field.0 }
{
    element_sort(Some(field_type(&walk.core.classes, field)))
}

// The sort of the elements of an array.
fn sort_of_elements(walk: &Walk<'_>, a: &Expr) -> Sort
    requires limits { IsWithinLimits (classes walk.now.core.now.classes) }
    requires types { walk.now.types.now ≡ local_types (body walk.now.body.now) }
    ensures { result ≡ element_sort (element_of (classes walk.now.core.now.classes) (code_type (classes walk.now.core.now.classes) (body walk.now.body.now) (expr a.now))) }
{
    let ty = code_type(&walk.core.classes, walk.body, walk.types, a);
    element_sort(element_of(&walk.core.classes, ty))
}

/// `x = e`
pub(crate) fn assign(
    builder: &mut Builder,
    walk: &Walk<'_>,
    x: usize,
    e: &Expr,
) -> Result<(), AllocError>
    requires fine { IsFine builder.old }
    requires walk { IsWalk builder.old.bank walk.now }
    ensures { OnOk result (Becomes builder.old builder.new (λ b. assigned (walk_at b walk.now) x (expr e.now) (position_at b builder.old))) }
{
    let sort = local_sort(walk, x);
    let meant = evaluate(builder, walk, e)?;
    let t = builder.define(sort, &meant)?;
    builder.set_local(x, t);
    Ok(())
}

// What two expressions mean; their parts are checked, one after the other.
fn evaluate_two(
    builder: &mut Builder,
    walk: &Walk<'_>,
    first: &Expr,
    second: &Expr,
) -> Result<(Meant, Meant), AllocError>
    requires fine { IsFine builder.old }
    requires walk { IsWalk builder.old.bank walk.now }
    ensures first { IfOk result (λ r. IsMeant builder.new.bank r.0 (λ b. position.meant_at (walk_at b walk.now) (expr first.now) (position_at b builder.old))) }
    ensures second { IfOk result (λ r. IsMeant builder.new.bank r.1 (λ b. position.meant_at (walk_at b walk.now) (expr second.now) (position_at b builder.old))) }
    ensures becomes { IfOk result (λ r. Becomes builder.old builder.new (λ b. position.evaluate_all (walk_at b walk.now) (expr first.now ∷ expr second.now ∷ []) (position_at b builder.old))) }
{
    let one = evaluate(builder, walk, first)?;
    let other = evaluate(builder, walk, second)?;
    Ok((one, other))
}

// What two values mean gets terms.
fn settle_two(
    builder: &mut Builder,
    first_sort: Sort,
    first: &Meant,
    second_sort: Sort,
    second: &Meant,
) -> Result<(TermId, TermId), AllocError>
    requires fine { IsFine builder.old }
    requires first { HasMeant builder.old.bank first.now }
    requires second { HasMeant builder.old.bank second.now }
    ensures first { IfOk result (λ r. IsTerm builder.new.bank r.0 (λ b. position.term_for first_sort (meant_at b first.now) (position_at b builder.old))) }
    ensures second { IfOk result (λ r. IsTerm builder.new.bank r.1 (λ b. position.term_for second_sort (meant_at b second.now) (position.with_term first_sort (meant_at b first.now) (position_at b builder.old)))) }
    ensures becomes { IfOk result (λ r. Becomes builder.old builder.new (λ b. with_two first_sort (meant_at b first.now) second_sort (meant_at b second.now) (position_at b builder.old))) }
{
    let one = builder.settle(first_sort, first)?;
    let other = builder.settle(second_sort, second)?;
    Ok((one, other))
}

/// `o.f = e`
pub(crate) fn write_field(
    builder: &mut Builder,
    walk: &Walk<'_>,
    target: &FieldTarget<'_>,
    value: &Expr,
) -> Result<(), AllocError>
    requires fine { IsFine builder.old }
    requires walk { IsWalk builder.old.bank walk.now }
    ensures { OnOk result (Becomes builder.old builder.new (λ b. written (walk_at b walk.now) target.now.place (expr target.now.object.now) target.now.field.0 target.now.mark target.now.class.0 (expr value.now) (position_at b builder.old))) }
{
    let sort = sort_of_field(walk, target.field);
    let meant = evaluate_two(builder, walk, target.object, value)?;
    let terms = settle_two(builder, Sort::Rest, &meant.0, sort, &meant.1)?;
    write(builder, walk, target, terms.0, terms.1)?;
    Ok(())
}

/// `a[i] = e`
pub(crate) fn write_at(
    builder: &mut Builder,
    walk: &Walk<'_>,
    target: &ElementTarget<'_>,
    value: &Expr,
) -> Result<(), AllocError>
    requires fine { IsFine builder.old }
    requires walk { IsWalk builder.old.bank walk.now }
    ensures { OnOk result (Becomes builder.old builder.new (λ b. element_written (walk_at b walk.now) target.now.place (expr target.now.array.now) (expr target.now.index.now) (expr value.now) (position_at b builder.old))) }
{
    let sort = sort_of_elements(walk, target.array);
    let meant = evaluate_two(builder, walk, target.array, target.index)?;
    let element = evaluate(builder, walk, value)?;
    let terms = settle_two(builder, Sort::Rest, &meant.0, Sort::Whole, &meant.1)?;
    let v = builder.settle(sort, &element)?;
    write_element(builder, walk, target, terms.0, terms.1, v)?;
    Ok(())
}

/// `this` of a constructor becomes ready.
pub(crate) fn make_ready(builder: &mut Builder) -> Result<(), AllocError>
    requires { IsFine builder.old }
    ensures { OnOk result (Becomes builder.old builder.new (λ b. made_ready (position_at b builder.old))) }
{
    let store = applied_local(builder, Symbol::MakeReady, 0)?;
    builder.with_store(store)?;
    Ok(())
}
