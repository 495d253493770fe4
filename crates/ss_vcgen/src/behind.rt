// Statements, one after the other.

ghost use Rattle.std.specs.Prelude.{map, OnOk};
ghost use Rattle.ss_core.specs.View.{expr, exprs, exposed_tree, stmt_of, block};
ghost use Rattle.ss_core.specs.declared.stmt.Loop.{out-Loop};
ghost use Rattle.ss_vcgen_heaps.specs.Obligations as spec;
ghost use Rattle.ss_vcgen_builder.specs.Builder.{position_at, walk_at, IsFine, IsWalk, Becomes};
ghost use Rattle.ss_vcgen.specs.Behind.{gone_round, gone_if_reached, looped};

use crate::statements::{
    assign, assume_condition, call, check_condition, create, create_array, print, ready, write,
    write_element,
};
use crate::watch::Watch;
use ss_core::{Loop, Stmt};
use ss_vcgen_bodies::{enter_loop, enter_side, exit_spot, is_never, leave_loop, return_with};
use ss_vcgen_builder::{Builder, Walk};
use ss_vcgen_statements::{FieldTarget, pack, unpack};
use std::alloc::AllocError;

// Goes after a statement.
#[cycle(statements)]
fn behind(
    builder: &mut Builder,
    walk: &Walk<'_>,
    stmt: &Stmt,
    watch: &mut Watch,
) -> Result<(), AllocError>
    requires fine { IsFine builder.old }
    requires walk { IsWalk builder.old.bank walk.now }
    ensures { OnOk result (Becomes builder.old builder.new (λ b. spec.behind (walk_at b walk.now) (stmt_of stmt.now) (position_at b builder.old))) }
{
    match stmt {
        Stmt::Assign(_, x, e) => assign(builder, walk, stmt, *x, e),
        Stmt::Write {
            place,
            object,
            field,
            mark,
            class,
            value,
        } => {
            let target = FieldTarget::new(*place, object, *field, *mark, *class);
            write(builder, walk, stmt, &target, value)
        }
        Stmt::WriteElement(_, a, i, value) => write_element(builder, walk, stmt, a, i, value),
        Stmt::New(_, x, class, es) => create(builder, walk, stmt, *x, *class, es),
        Stmt::NewArray(_, x, class, e) => create_array(builder, walk, stmt, *x, *class, e),
        Stmt::Call(_, x, callee, es) => call(builder, walk, stmt, *x, callee, es),
        Stmt::Ready(_) => ready(builder, walk, stmt),
        Stmt::If(_, e, one, other) => {
            let second = enter_side(builder, walk, e)?;
            behind_all(builder, walk, one, watch)?;
            let first = builder.go_to(second);
            behind_all(builder, walk, other, watch)?;
            builder.join(walk, first)
        }
        Stmt::Loop(l) => {
            enter_loop(builder, walk, stmt, l.place, &l.invariants, &l.exposes)?;
            after_loop(builder, walk, l, watch)
        }
        Stmt::Unpack(at, x, class) => unpack(builder, walk, *at, *x, *class),
        Stmt::Pack(at, x, class) => pack(builder, walk, *at, *x, *class),
        Stmt::Assert(at, e) => check_condition(builder, walk, *at, e),
        Stmt::Assume(_, e) => assume_condition(builder, walk, e),
        Stmt::Print(_, e, _) => print(builder, walk, e),
        Stmt::PrintText(..) => Ok(()),
        Stmt::Return(at, e) => return_with(builder, walk, *at, e),
    }
}

// Goes from the head of a loop to after it.
#[cycle(statements)]
fn after_loop(
    builder: &mut Builder,
    walk: &Walk<'_>,
    l: &Loop,
    watch: &mut Watch,
) -> Result<(), AllocError>
    requires fine { IsFine builder.old }
    requires walk { IsWalk builder.old.bank walk.now }
    ensures { OnOk result (Becomes builder.old builder.new (λ b. looped (walk_at b walk.now) (out-Loop l.now).place (exprs (out-Loop l.now).invariants.items) (block (out-Loop l.now).prelude.items) (expr (out-Loop l.now).test)
        (block (out-Loop l.now).body.items) (map exposed_tree (out-Loop l.now).exposes.items) (position_at b builder.old))) }
{
    behind_all(builder, walk, &l.prelude, watch)?;
    go_if_reached(builder, walk, l, watch)?;
    Ok(())
}

// Goes from the test of a loop to after it, where the test is reached.
#[cycle(statements)]
fn go_if_reached(
    builder: &mut Builder,
    walk: &Walk<'_>,
    l: &Loop,
    watch: &mut Watch,
) -> Result<(), AllocError>
    requires fine { IsFine builder.old }
    requires walk { IsWalk builder.old.bank walk.now }
    ensures { OnOk result (Becomes builder.old builder.new (λ b. gone_if_reached (walk_at b walk.now) (out-Loop l.now).place (exprs (out-Loop l.now).invariants.items) (expr (out-Loop l.now).test) (block (out-Loop l.now).body.items)
        (map exposed_tree (out-Loop l.now).exposes.items) (position_at b builder.old))) }
{
    if is_never(builder) {
        Ok(())
    } else {
        go_round(builder, walk, l, watch)
    }
}

// Goes from the test of a loop to after it.
#[cycle(statements)]
fn go_round(
    builder: &mut Builder,
    walk: &Walk<'_>,
    l: &Loop,
    watch: &mut Watch,
) -> Result<(), AllocError>
    requires fine { IsFine builder.old }
    requires walk { IsWalk builder.old.bank walk.now }
    ensures { OnOk result (Becomes builder.old builder.new (λ b. gone_round (walk_at b walk.now) (out-Loop l.now).place (exprs (out-Loop l.now).invariants.items) (expr (out-Loop l.now).test) (block (out-Loop l.now).body.items)
        (map exposed_tree (out-Loop l.now).exposes.items) (position_at b builder.old))) }
{
    let side = enter_side(builder, walk, &l.test)?;
    behind_all(builder, walk, &l.body, watch)?;
    let exit = exit_spot(side, &l.test);
    leave_loop(builder, walk, l.place, &l.invariants, &l.exposes, exit)?;
    Ok(())
}

/// Goes after statements, one after the other; those that can't be reached tell nothing.
#[cycle(statements)]
pub(crate) fn behind_all(
    builder: &mut Builder,
    walk: &Walk<'_>,
    code: &[Stmt],
    watch: &mut Watch,
) -> Result<(), AllocError>
    requires fine { IsFine builder.old }
    requires walk { IsWalk builder.old.bank walk.now }
    ensures { OnOk result (Becomes builder.old builder.new (λ b. spec.behind_all (walk_at b walk.now) (block code.now) (position_at b builder.old))) }
{
    for stmt in code {
        if is_never(builder) {
            return Ok(());
        }
        watch.see(builder)?;
        behind(builder, walk, stmt, watch)?;
    }
    watch.see(builder)?;
    Ok(())
}
