// What a loop may change: its locals and the store.

ghost use Rattle.std.specs.Prelude.{◌≡◌, true, IfOk, OnOk};
ghost use Rattle.ss_core.specs.View.{stmt_of};
ghost use Rattle.ss_store_rules.specs.NonNull.{known_head};
ghost use Rattle.ss_vcgen_heaps.specs.Obligations as spec;
ghost use Rattle.ss_vcgen_known.specs.Views.{known_of};
ghost use Rattle.ss_vcgen_builder.specs.Builder.{position_at, walk_at, IsFine, IsWalk, Becomes};
ghost use Rattle.ss_vcgen_bodies.specs.Words.{renewed_one, come_to_head};

use crate::element_sort;
use ss_core::{Stmt, Ty};
use ss_logic::Sort;
use ss_vcgen_builder::{Builder, Walk};
use ss_vcgen_known::{Known, assigned};
use std::alloc::AllocError;

// A local that is assigned has a new constant.
fn renew_one(builder: &mut Builder, assigned: bool, x: usize, ty: Ty) -> Result<(), AllocError>
    requires { IsFine builder.old }
    ensures { OnOk result (Becomes builder.old builder.new (λ b. renewed_one assigned x ty (position_at b builder.old))) }
{
    if assigned {
        renew_local(builder, x, ty)
    } else {
        Ok(())
    }
}

// The local has a new constant.
fn renew_local(builder: &mut Builder, x: usize, ty: Ty) -> Result<(), AllocError>
    requires { IsFine builder.old }
    ensures { OnOk result (Becomes builder.old builder.new (λ b. renewed_one true x ty (position_at b builder.old))) }
{
    let t = builder.new_term(element_sort(Some(ty)))?;
    builder.set_local(x, t);
    Ok(())
}

// Each local that the statement assigns has a new constant.
fn renew_locals(builder: &mut Builder, stmt: &Stmt, types: &[Ty]) -> Result<(), AllocError>
    requires { IsFine builder.old }
    ensures { OnOk result (Becomes builder.old builder.new (λ b. spec.renew_from (stmt_of stmt.now) 0 types.now (position_at b builder.old))) }
{
    let among = assigned(builder.alloc, stmt)?;
    for x in 0..types.len() {
        renew_one(builder, among.has(x), x, types[x])?;
    }
    Ok(())
}

// And so has the store.
fn renew(builder: &mut Builder, walk: &Walk<'_>, stmt: &Stmt) -> Result<(), AllocError>
    requires fine { IsFine builder.old }
    requires walk { IsWalk builder.old.bank walk.now }
    ensures { OnOk result (Becomes builder.old builder.new (λ b. spec.renewed (walk_at b walk.now) (stmt_of stmt.now) (position_at b builder.old))) }
{
    renew_locals(builder, stmt, walk.types)?;
    let store = builder.new_term(Sort::Store)?;
    builder.set_store(store);
    Ok(())
}

// What is known at the head of a loop, of the locals that it doesn't assign.
fn known_at_head(builder: &Builder, stmt: &Stmt) -> Result<Known, AllocError>
    ensures { IfOk result (λ k. known_of k ≡ known_head (stmt_of stmt.now) (known_of builder.now.known)) }
{
    let mut known = builder.known.copy(builder.alloc)?;
    known.head(builder.alloc, stmt)?;
    Ok(known)
}

// Goes to the head, of which nothing is known yet.
pub(crate) fn come_to_head(
    builder: &mut Builder,
    walk: &Walk<'_>,
    stmt: &Stmt,
) -> Result<(), AllocError>
    requires fine { IsFine builder.old }
    requires walk { IsWalk builder.old.bank walk.now }
    ensures { OnOk result (Becomes builder.old builder.new (λ b. come_to_head (walk_at b walk.now) (stmt_of stmt.now) (position_at b builder.old))) }
{
    let known = known_at_head(builder, stmt)?;
    renew(builder, walk, stmt)?;
    builder.set_known(known);
    Ok(())
}
