// Heads of loops: what is checked there, and what is known each time.

ghost use Rattle.std.specs.Prelude.{◌≡◌, map, IfOk, OnOk};
ghost use Rattle.ss_core.specs.View.{exprs, exposed_tree, stmt_of};
ghost use Rattle.ss_vcgen_heaps.specs.Positions as position;
ghost use Rattle.ss_vcgen_express.specs.Numbers.{AreFormulas};
ghost use Rattle.ss_vcgen_builder.specs.Builder.{guard_of, position_at, locals_at, walk_at, at_spot, HasLocals, HasSpot, IsFine, IsWalk, Becomes};
ghost use Rattle.ss_vcgen_statements.specs.Words.{Stays};
ghost use Rattle.ss_vcgen_bodies.specs.Words.{is_never, each_turn, head_checked, head_formulas, head_reached, turned};

use crate::frames::frame_at_head;
use crate::grown_said;
use crate::levels::levels_at_head;
use crate::renewal::come_to_head;
use crate::types::kept_types;
use ss_core::{Exposed, Expr, Kind, Place, Stmt};
use ss_terms::{FormulaId, TermId};
use ss_vcgen_builder::{Builder, Guard, Spot, Walk};
use ss_vcgen_statements::{good, holds_at};
use std::alloc::AllocError;

// That each of the conditions holds here.
fn all_hold(
    builder: &mut Builder,
    walk: &Walk<'_>,
    es: &[Expr],
) -> Result<Vec<FormulaId>, AllocError>
    requires fine { IsFine builder.old }
    requires walk { IsWalk builder.old.bank walk.now }
    ensures at { IfOk result (λ v. AreFormulas builder.new.bank v.items (λ b. map (position.holds_at (walk_at b walk.now) (position_at b builder.old)) (exprs es.now))) }
    ensures stays { IfOk result (λ v. Stays builder.old builder.new) }
{
    let mut made = Vec::new(builder.alloc);
    for e in es {
        let f = holds_at(builder, walk, e)?;
        made.push(f)?;
    }
    Ok(made)
}

/// At the head of a loop: the invariants, the frame condition, and the levels of what is exposed around it are checked.
pub fn check_head(
    builder: &mut Builder,
    walk: &Walk<'_>,
    at: Place,
    asked: &[Expr],
    exposes: &[Exposed],
) -> Result<(), AllocError>
    requires fine { IsFine builder.old }
    requires walk { IsWalk builder.old.bank walk.now }
    ensures { OnOk result (Becomes builder.old builder.new (λ b. head_checked (walk_at b walk.now) at (exprs asked.now) (map exposed_tree exposes.now) (position_at b builder.old))) }
{
    let held = all_hold(builder, walk, asked)?;
    let frame = frame_at_head(builder, walk, exposes)?;
    let levels = levels_at_head(builder, walk, exposes)?;
    builder.check_all(walk, Kind::LoopInvariant, at, &held)?;
    builder.check(walk, Kind::LoopFrame, at, frame)?;
    builder.check(walk, Kind::LoopLevel, at, levels)?;
    Ok(())
}

// What no turn changes.
fn each_turn(
    builder: &mut Builder,
    walk: &Walk<'_>,
    exposes: &[Exposed],
) -> Result<Vec<FormulaId>, AllocError>
    requires fine { IsFine builder.old }
    requires walk { IsWalk builder.old.bank walk.now }
    ensures at { IfOk result (λ v. AreFormulas builder.new.bank v.items (λ b. each_turn (walk_at b walk.now) (map exposed_tree exposes.now) (position_at b builder.old))) }
    ensures stays { IfOk result (λ v. Stays builder.old builder.new) }
{
    let store = builder.store;
    let frame = frame_at_head(builder, walk, exposes)?;
    let levels = levels_at_head(builder, walk, exposes)?;
    let larger = grown_said(builder, walk.entry, store)?;
    let is_good = good(builder, store)?;
    let all = Vec::from_slice(builder.alloc, &[frame, levels, larger, is_good])?;
    Ok(all)
}

// What is known at the head, where these are the locals before the loop.
fn head_formulas(
    builder: &mut Builder,
    walk: &Walk<'_>,
    asked: &[Expr],
    exposes: &[Exposed],
    before: &[Option<TermId>],
) -> Result<Vec<FormulaId>, AllocError>
    requires fine { IsFine builder.old }
    requires walk { IsWalk builder.old.bank walk.now }
    requires before { HasLocals builder.old.bank before.now }
    ensures at { IfOk result (λ v. AreFormulas builder.new.bank v.items (λ b. head_formulas (walk_at b walk.now) (exprs asked.now) (map exposed_tree exposes.now) (locals_at b before.now) (position_at b builder.old))) }
    ensures stays { IfOk result (λ v. Stays builder.old builder.new) }
{
    let mut said = all_hold(builder, walk, asked)?;
    let kept = each_turn(builder, walk, exposes)?;
    let typed = kept_types(builder, walk, walk.types, before)?;
    said.extend_from_slice(&kept)?;
    said.extend_from_slice(&typed)?;
    Ok(said)
}

// At the head, each time.
fn head_reached(
    builder: &mut Builder,
    walk: &Walk<'_>,
    stmt: &Stmt,
    asked: &[Expr],
    exposes: &[Exposed],
) -> Result<(), AllocError>
    requires fine { IsFine builder.old }
    requires walk { IsWalk builder.old.bank walk.now }
    ensures { OnOk result (Becomes builder.old builder.new (λ b. head_reached (walk_at b walk.now) (stmt_of stmt.now) (exprs asked.now) (map exposed_tree exposes.now) (position_at b builder.old))) }
{
    let before = Vec::from_slice(builder.alloc, &builder.locals)?;
    come_to_head(builder, walk, stmt)?;
    let said = head_formulas(builder, walk, asked, exposes, &before)?;
    builder.assume_all(&said)?;
    Ok(())
}

/// Comes to a loop: its head is checked, and the builder stands there, each time.
pub fn enter_loop(
    builder: &mut Builder,
    walk: &Walk<'_>,
    stmt: &Stmt,
    at: Place,
    asked: &[Expr],
    exposes: &[Exposed],
) -> Result<(), AllocError>
    requires fine { IsFine builder.old }
    requires walk { IsWalk builder.old.bank walk.now }
    ensures { OnOk result (Becomes builder.old builder.new (λ b. head_reached (walk_at b walk.now) (stmt_of stmt.now) (exprs asked.now) (map exposed_tree exposes.now)
        (head_checked (walk_at b walk.now) at (exprs asked.now) (map exposed_tree exposes.now) (position_at b builder.old)))) }
{
    check_head(builder, walk, at, asked, exposes)?;
    head_reached(builder, walk, stmt, asked, exposes)?;
    Ok(())
}

/// Whether the position can't be reached.
pub fn is_never(builder: &Builder) -> bool
    ensures { result ≡ is_never (guard_of builder.now.guard) }
{
    match builder.guard {
        Guard::Never => true,
        Guard::Always => false,
        Guard::When(_) => false,
    }
}

// The head is come to again, where the end of the body is reached.
fn turn(
    builder: &mut Builder,
    walk: &Walk<'_>,
    at: Place,
    asked: &[Expr],
    exposes: &[Exposed],
) -> Result<(), AllocError>
    requires fine { IsFine builder.old }
    requires walk { IsWalk builder.old.bank walk.now }
    ensures { OnOk result (Becomes builder.old builder.new (λ b. turned (walk_at b walk.now) at (exprs asked.now) (map exposed_tree exposes.now) (position_at b builder.old))) }
{
    if is_never(builder) {
        Ok(())
    } else {
        check_head(builder, walk, at, asked, exposes)
    }
}

/// Goes after a loop, from the end of its body: the spot is after it.
pub fn leave_loop(
    builder: &mut Builder,
    walk: &Walk<'_>,
    at: Place,
    asked: &[Expr],
    exposes: &[Exposed],
    spot: Spot,
) -> Result<(), AllocError>
    requires fine { IsFine builder.old }
    requires walk { IsWalk builder.old.bank walk.now }
    requires spot { HasSpot builder.old.bank spot }
    ensures { OnOk result (Becomes builder.old builder.new (λ b. at_spot b spot (turned (walk_at b walk.now) at (exprs asked.now) (map exposed_tree exposes.now) (position_at b builder.old)))) }
{
    turn(builder, walk, at, asked, exposes)?;
    builder.go_to(spot);
    Ok(())
}
