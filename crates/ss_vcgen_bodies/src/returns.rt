// Returns.

ghost use Rattle.std.specs.Prelude.{[], option_map, Some, IfOk, OnOk};
ghost use Rattle.ss_core.specs.View.{expr};
ghost use Rattle.ss_terms.specs.Forms.{HasTerms};
ghost use Rattle.ss_vcgen_heaps.specs.Obligations as spec;
ghost use Rattle.ss_vcgen_contracts.specs.Views.{ones_at, AreOnes};
ghost use Rattle.ss_vcgen_builder.specs.Builder.{position_at, walk_at, IsFine, IsWalk, Becomes};
ghost use Rattle.ss_vcgen_bodies.specs.Words.{left, reached_result, result_reached};

use crate::element_sort;
use crate::frames::{exits_said, frame_formula};
use ss_core::{Expr, Kind, Place};
use ss_terms::TermId;
use ss_vcgen_builder::{Builder, Walk};
use ss_vcgen_statements::evaluate;
use std::alloc::AllocError;

// What a result means gets a term; its parts are checked.
fn settle_there(builder: &mut Builder, walk: &Walk<'_>, e: &Expr) -> Result<Vec<TermId>, AllocError>
    requires fine { IsFine builder.old }
    requires walk { IsWalk builder.old.bank walk.now }
    ensures at { IfOk result (λ v. AreOnes builder.new.bank v.items (λ b. result_reached (walk_at b walk.now) (Some (expr e.now)) (position_at b builder.old))) }
    ensures becomes { IfOk result (λ v. Becomes builder.old builder.new (λ b. reached_result (walk_at b walk.now) (Some (expr e.now)) (position_at b builder.old))) }
{
    let meant = evaluate(builder, walk, e)?;
    let t = builder.settle(element_sort(walk.body.result), &meant)?;
    let terms = Vec::from_slice(builder.alloc, &[t])?;
    Ok(terms)
}

// No result.
fn no_terms(builder: &mut Builder) -> Result<Vec<TermId>, AllocError>
    requires { IsFine builder.old }
    ensures at { IfOk result (λ v. AreOnes builder.new.bank v.items (λ b. [])) }
    ensures stays { IfOk result (λ v. Becomes builder.old builder.new (λ b. position_at b builder.old)) }
{
    Ok(Vec::new(builder.alloc))
}

// The same, where there is a result.
fn settle_result(
    builder: &mut Builder,
    walk: &Walk<'_>,
    e: &Option<Expr>,
) -> Result<Vec<TermId>, AllocError>
    requires fine { IsFine builder.old }
    requires walk { IsWalk builder.old.bank walk.now }
    ensures at { IfOk result (λ v. AreOnes builder.new.bank v.items (λ b. result_reached (walk_at b walk.now) (option_map expr e.now) (position_at b builder.old))) }
    ensures becomes { IfOk result (λ v. Becomes builder.old builder.new (λ b. reached_result (walk_at b walk.now) (option_map expr e.now) (position_at b builder.old))) }
{
    match e {
        Some(e) => settle_there(builder, walk, e),
        None => no_terms(builder),
    }
}

// The conditions at exit and the frame condition are checked, and nothing is reached after.
fn leave(
    builder: &mut Builder,
    walk: &Walk<'_>,
    at: Place,
    results: &[TermId],
) -> Result<(), AllocError>
    requires fine { IsFine builder.old }
    requires walk { IsWalk builder.old.bank walk.now }
    requires results { HasTerms builder.old.bank results.now }
    ensures { OnOk result (Becomes builder.old builder.new (λ b. left (walk_at b walk.now) at (ones_at b results.now) (position_at b builder.old))) }
{
    let said = exits_said(builder, walk, results)?;
    let frame = frame_formula(builder, walk, &[])?;
    builder.check_all(walk, Kind::Postcondition, at, &said)?;
    builder.check(walk, Kind::Frame, at, frame)?;
    builder.end();
    Ok(())
}

/// A return.
pub fn return_with(
    builder: &mut Builder,
    walk: &Walk<'_>,
    at: Place,
    e: &Option<Expr>,
) -> Result<(), AllocError>
    requires fine { IsFine builder.old }
    requires walk { IsWalk builder.old.bank walk.now }
    ensures { OnOk result (Becomes builder.old builder.new (λ b. spec.return_with (walk_at b walk.now) at (option_map expr e.now) (position_at b builder.old))) }
{
    let results = settle_result(builder, walk, e)?;
    leave(builder, walk, at, &results)?;
    Ok(())
}
