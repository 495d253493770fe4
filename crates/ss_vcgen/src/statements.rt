// Statements without others in them.

ghost use Rattle.std.specs.Prelude.{◌≡◌, ◌++◌, option_map, IfOk, OnOk};
ghost use Rattle.ss_core.specs.Chain.{IsWithinLimits};
ghost use Rattle.ss_core.specs.declared.names.Kind.TheVariants as kind;
ghost use Rattle.ss_core.specs.View as view;
ghost use Rattle.ss_core.specs.View.{expr, exprs, callee_tree, stmt_of};
ghost use Rattle.ss_store_rules.specs.Locals.{local_types, receiver};
ghost use Rattle.ss_store_rules.specs.NonNull.{known_after};
ghost use Rattle.ss_vcgen_heaps.specs.Positions as position;
ghost use Rattle.ss_vcgen_heaps.specs.Obligations as spec;
ghost use Rattle.ss_vcgen_heaps.specs.Obligations.{with_known};
ghost use Rattle.ss_vcgen_known.specs.Views.{known_of};
ghost use Rattle.ss_vcgen_builder.specs.Builder.{position_at, walk_at, IsFine, IsWalk, Becomes};
ghost use Rattle.ss_vcgen.specs.Behind.{place_of, assigned, written, element_written, made_ready};

use crate::changes;
use ss_core::{Callee, ClassId, Expr, Kind, Place, Stmt};
use ss_vcgen_bodies::{call_with, construct, new_array};
use ss_vcgen_builder::{Builder, Walk};
use ss_vcgen_known::{BodyContext, Known};
use ss_vcgen_statements::{ElementTarget, FieldTarget, evaluate, holds_at};
use std::alloc::AllocError;

fn place_of(stmt: &Stmt) -> Place
    ensures { result ≡ place_of (stmt_of stmt.now) }
{
    match stmt {
        Stmt::Assign(place, ..)
        | Stmt::Write { place, .. }
        | Stmt::WriteElement(place, ..)
        | Stmt::New(place, ..)
        | Stmt::NewArray(place, ..)
        | Stmt::Call(place, ..)
        | Stmt::Ready(place)
        | Stmt::If(place, ..)
        | Stmt::Unpack(place, ..)
        | Stmt::Pack(place, ..)
        | Stmt::Assert(place, _)
        | Stmt::Assume(place, _)
        | Stmt::Print(place, ..)
        | Stmt::PrintText(place, ..)
        | Stmt::Return(place, _) => *place,
        Stmt::Loop(l) => l.place,
    }
}

// What is known of null after a statement that is neither an `if`, a loop nor a return.
fn known_behind(builder: &Builder, walk: &Walk<'_>, stmt: &Stmt) -> Result<Known, AllocError>
    requires limits { IsWithinLimits (view.classes walk.now.core.now.classes) }
    requires types { walk.now.types.now ≡ local_types (view.body walk.now.body.now) }
    ensures { IfOk result (λ k. known_of k ≡ known_after (view.core walk.now.core.now) (view.body walk.now.body.now) (stmt_of stmt.now) (known_of builder.now.known)) }
{
    let mut known = builder.known.copy(builder.alloc)?;
    let context = BodyContext {
        core: walk.core,
        body: walk.body,
        types: walk.types,
    };
    known.step(builder.alloc, context, stmt)?;
    Ok(known)
}

/// `x = e`
pub(crate) fn assign(
    builder: &mut Builder,
    walk: &Walk<'_>,
    stmt: &Stmt,
    x: usize,
    e: &Expr,
) -> Result<(), AllocError>
    requires fine { IsFine builder.old }
    requires walk { IsWalk builder.old.bank walk.now }
    ensures { OnOk result (Becomes builder.old builder.new (λ b. with_known (walk_at b walk.now) (stmt_of stmt.now) (position_at b builder.old).known (assigned (walk_at b walk.now) x (expr e.now) (position_at b builder.old)))) }
{
    let known = known_behind(builder, walk, stmt)?;
    changes::assign(builder, walk, x, e)?;
    builder.set_known(known);
    Ok(())
}

/// `o.f = e`
pub(crate) fn write(
    builder: &mut Builder,
    walk: &Walk<'_>,
    stmt: &Stmt,
    target: &FieldTarget<'_>,
    value: &Expr,
) -> Result<(), AllocError>
    requires fine { IsFine builder.old }
    requires walk { IsWalk builder.old.bank walk.now }
    ensures { OnOk result (Becomes builder.old builder.new (λ b. with_known (walk_at b walk.now) (stmt_of stmt.now) (position_at b builder.old).known (written (walk_at b walk.now) target.now.place (expr target.now.object.now) target.now.field.0 target.now.mark target.now.class.0 (expr value.now) (position_at b builder.old)))) }
{
    let known = known_behind(builder, walk, stmt)?;
    changes::write_field(builder, walk, target, value)?;
    builder.set_known(known);
    Ok(())
}

/// `a[i] = e`
pub(crate) fn write_element(
    builder: &mut Builder,
    walk: &Walk<'_>,
    stmt: &Stmt,
    a: &Expr,
    i: &Expr,
    value: &Expr,
) -> Result<(), AllocError>
    requires fine { IsFine builder.old }
    requires walk { IsWalk builder.old.bank walk.now }
    ensures { OnOk result (Becomes builder.old builder.new (λ b. with_known (walk_at b walk.now) (stmt_of stmt.now) (position_at b builder.old).known (element_written (walk_at b walk.now) (place_of (stmt_of stmt.now)) (expr a.now) (expr i.now) (expr value.now) (position_at b builder.old)))) }
{
    let known = known_behind(builder, walk, stmt)?;
    let target = ElementTarget {
        place: place_of(stmt),
        array: a,
        index: i,
    };
    changes::write_at(builder, walk, &target, value)?;
    builder.set_known(known);
    Ok(())
}

/// `x = new C(..)`
pub(crate) fn create(
    builder: &mut Builder,
    walk: &Walk<'_>,
    stmt: &Stmt,
    x: Option<usize>,
    class: ClassId,
    es: &[Expr],
) -> Result<(), AllocError>
    requires fine { IsFine builder.old }
    requires walk { IsWalk builder.old.bank walk.now }
    ensures { OnOk result (Becomes builder.old builder.new (λ b. with_known (walk_at b walk.now) (stmt_of stmt.now) (position_at b builder.old).known (spec.construct (walk_at b walk.now) (place_of (stmt_of stmt.now)) x class.0 (exprs es.now) (position_at b builder.old)))) }
{
    let known = known_behind(builder, walk, stmt)?;
    construct(builder, walk, place_of(stmt), x, class, es)?;
    builder.set_known(known);
    Ok(())
}

/// `x = new E[n]`
pub(crate) fn create_array(
    builder: &mut Builder,
    walk: &Walk<'_>,
    stmt: &Stmt,
    x: Option<usize>,
    class: ClassId,
    e: &Expr,
) -> Result<(), AllocError>
    requires fine { IsFine builder.old }
    requires walk { IsWalk builder.old.bank walk.now }
    ensures { OnOk result (Becomes builder.old builder.new (λ b. with_known (walk_at b walk.now) (stmt_of stmt.now) (position_at b builder.old).known (spec.new_array (walk_at b walk.now) (place_of (stmt_of stmt.now)) x class.0 (expr e.now) (position_at b builder.old)))) }
{
    let known = known_behind(builder, walk, stmt)?;
    new_array(builder, walk, place_of(stmt), x, class, e)?;
    builder.set_known(known);
    Ok(())
}

/// A call.
pub(crate) fn call(
    builder: &mut Builder,
    walk: &Walk<'_>,
    stmt: &Stmt,
    x: Option<usize>,
    callee: &Callee,
    es: &[Expr],
) -> Result<(), AllocError>
    requires fine { IsFine builder.old }
    requires walk { IsWalk builder.old.bank walk.now }
    ensures { OnOk result (Becomes builder.old builder.new (λ b. with_known (walk_at b walk.now) (stmt_of stmt.now) (position_at b builder.old).known (spec.call_with (walk_at b walk.now) (place_of (stmt_of stmt.now)) x (callee_tree callee.now) (receiver (callee_tree callee.now) ++ exprs es.now) (position_at b builder.old)))) }
{
    let known = known_behind(builder, walk, stmt)?;
    call_with(builder, walk, place_of(stmt), x, callee, es)?;
    builder.set_known(known);
    Ok(())
}

/// `this` of a constructor becomes ready.
pub(crate) fn ready(builder: &mut Builder, walk: &Walk<'_>, stmt: &Stmt) -> Result<(), AllocError>
    requires fine { IsFine builder.old }
    requires walk { IsWalk builder.old.bank walk.now }
    ensures { OnOk result (Becomes builder.old builder.new (λ b. with_known (walk_at b walk.now) (stmt_of stmt.now) (position_at b builder.old).known (made_ready (position_at b builder.old)))) }
{
    let known = known_behind(builder, walk, stmt)?;
    changes::make_ready(builder)?;
    builder.set_known(known);
    Ok(())
}

/// `assert e`
pub(crate) fn check_condition(
    builder: &mut Builder,
    walk: &Walk<'_>,
    at: Place,
    e: &Expr,
) -> Result<(), AllocError>
    requires fine { IsFine builder.old }
    requires walk { IsWalk builder.old.bank walk.now }
    ensures { OnOk result (Becomes builder.old builder.new (λ b. position.check (walk_at b walk.now) kind.Assert at (position.holds_at (walk_at b walk.now) (position_at b builder.old) (expr e.now)) (position_at b builder.old))) }
{
    let f = holds_at(builder, walk, e)?;
    builder.check(walk, Kind::Assert, at, f)?;
    Ok(())
}

/// `assume e`
pub(crate) fn assume_condition(
    builder: &mut Builder,
    walk: &Walk<'_>,
    e: &Expr,
) -> Result<(), AllocError>
    requires fine { IsFine builder.old }
    requires walk { IsWalk builder.old.bank walk.now }
    ensures { OnOk result (Becomes builder.old builder.new (λ b. position.assume (position.holds_at (walk_at b walk.now) (position_at b builder.old) (expr e.now)) (position_at b builder.old))) }
{
    let f = holds_at(builder, walk, e)?;
    builder.assume(f)?;
    Ok(())
}

// A value is printed.
fn print_value(builder: &mut Builder, walk: &Walk<'_>, e: &Expr) -> Result<(), AllocError>
    requires fine { IsFine builder.old }
    requires walk { IsWalk builder.old.bank walk.now }
    ensures { OnOk result (Becomes builder.old builder.new (λ b. position.evaluate (walk_at b walk.now) (expr e.now) (position_at b builder.old))) }
{
    evaluate(builder, walk, e)?;
    Ok(())
}

/// A value is printed, where there is one.
pub(crate) fn print(
    builder: &mut Builder,
    walk: &Walk<'_>,
    e: &Option<Expr>,
) -> Result<(), AllocError>
    requires fine { IsFine builder.old }
    requires walk { IsWalk builder.old.bank walk.now }
    ensures { OnOk result (Becomes builder.old builder.new (λ b. spec.evaluate_result (walk_at b walk.now) (option_map expr e.now) (position_at b builder.old))) }
{
    match e {
        Some(e) => print_value(builder, walk, e),
        None => Ok(()),
    }
}
