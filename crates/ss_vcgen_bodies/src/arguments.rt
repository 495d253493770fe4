// Arguments: their parts are checked one after the other, and then what each means gets a term.

ghost use Rattle.std.specs.Prelude.{◌≡◌, ◌∷◌, ◌++◌, IfOk};
ghost use Rattle.ss_core.specs.Chain.{IsWithinLimits};
ghost use Rattle.ss_core.specs.View.{classes, body, expr, exprs, callee_tree};
ghost use Rattle.ss_store_rules.specs.Locals.{local_types, receiver};
ghost use Rattle.ss_store_rules.specs.Types.{code_type};
ghost use Rattle.ss_logic.specs.Express.{element_sort};
ghost use Rattle.ss_vcgen_heaps.specs.Positions as position;
ghost use Rattle.ss_vcgen_heaps.specs.Obligations as spec;
ghost use Rattle.ss_vcgen_express.specs.Numbers.{IsTerm};
ghost use Rattle.ss_vcgen_builder.specs.Builder.{position_at, walk_at, IsFine, IsWalk, Becomes};
ghost use Rattle.ss_vcgen_contracts.specs.Views.{AreOnes};
ghost use Rattle.ss_vcgen_bodies.specs.CallWords.{argument_sort, reached_arguments, arguments_reached};

use ss_core::{Callee, Expr, Ty};
use ss_logic::Sort;
use ss_terms::TermId;
use ss_vcgen_builder::{Builder, Walk};
use ss_vcgen_statements::{evaluate, evaluate_all, meaning};
use ss_vcgen_types::code_type;
use std::alloc::{AllocError, Global};

/// The sort of the values of a type.
pub fn element_sort(ty: Option<Ty>) -> Sort
    ensures { result ≡ element_sort ty }
{
    match ty {
        Some(Ty::Int) => Sort::Whole,
        Some(Ty::Bool) => Sort::Truth,
        Some(Ty::Null) => Sort::Rest,
        Some(Ty::Ref { .. }) => Sort::Rest,
        None => Sort::Rest,
    }
}

// The sort of the values of an expression of the body.
fn sort_in_code(walk: &Walk<'_>, e: &Expr) -> Sort
    requires limits { IsWithinLimits (classes walk.now.core.now.classes) }
    requires types { walk.now.types.now ≡ local_types (body walk.now.body.now) }
    ensures { result ≡ element_sort (code_type (classes walk.now.core.now.classes) (body walk.now.body.now) (expr e.now)) }
{
    element_sort(code_type(&walk.core.classes, walk.body, walk.types, e))
}

// What an argument means gets a term.
fn settle_one(builder: &mut Builder, walk: &Walk<'_>, e: &Expr) -> Result<TermId, AllocError>
    requires fine { IsFine builder.old }
    requires walk { IsWalk builder.old.bank walk.now }
    ensures at { IfOk result (λ t. IsTerm builder.new.bank t (λ b. position.term_for (argument_sort (walk_at b walk.now) (expr e.now)) (position.meant_at (walk_at b walk.now) (expr e.now) (position_at b builder.old)) (position_at b builder.old))) }
    ensures becomes { IfOk result (λ t. Becomes builder.old builder.new (λ b. position.settled (position.meant_at (walk_at b walk.now) (expr e.now) (position_at b builder.old)) (argument_sort (walk_at b walk.now) (expr e.now)) (position_at b builder.old))) }
{
    let sort = sort_in_code(walk, e);
    let meant = meaning(builder, walk, e)?;
    let t = builder.settle(sort, &meant)?;
    Ok(t)
}

// What each argument means gets a term.
fn settle_each(
    builder: &mut Builder,
    walk: &Walk<'_>,
    es: &[Expr],
) -> Result<Vec<TermId>, AllocError>
    requires fine { IsFine builder.old }
    requires walk { IsWalk builder.old.bank walk.now }
    ensures at { IfOk result (λ v. AreOnes builder.new.bank v.items (λ b. spec.arguments_settled (walk_at b walk.now) (exprs es.now) (position_at b builder.old))) }
    ensures becomes { IfOk result (λ v. Becomes builder.old builder.new (λ b. spec.settle_all (walk_at b walk.now) (exprs es.now) (position_at b builder.old))) }
{
    let mut terms = Vec::new(builder.alloc);
    for e in es {
        let t = settle_one(builder, walk, e)?;
        terms.push(t)?;
    }
    Ok(terms)
}

/// Arguments: their parts are checked, and what each means gets a term.
pub fn settle_list(
    builder: &mut Builder,
    walk: &Walk<'_>,
    es: &[Expr],
) -> Result<Vec<TermId>, AllocError>
    requires fine { IsFine builder.old }
    requires walk { IsWalk builder.old.bank walk.now }
    ensures at { IfOk result (λ v. AreOnes builder.new.bank v.items (λ b. arguments_reached (walk_at b walk.now) (exprs es.now) (position_at b builder.old))) }
    ensures becomes { IfOk result (λ v. Becomes builder.old builder.new (λ b. reached_arguments (walk_at b walk.now) (exprs es.now) (position_at b builder.old))) }
{
    evaluate_all(builder, walk, es)?;
    let terms = settle_each(builder, walk, es)?;
    Ok(terms)
}

/// A term and then others.
pub fn behind(alloc: Global, first: TermId, rest: &[TermId]) -> Result<Vec<TermId>, AllocError>
    ensures { IfOk result (λ v. v.items ≡ first ∷ rest.now) }
{
    let mut all = Vec::from_slice(alloc, &[first])?;
    all.extend_from_slice(rest)?;
    Ok(all)
}

// Arguments after a receiver.
fn settle_with(
    builder: &mut Builder,
    walk: &Walk<'_>,
    e: &Expr,
    es: &[Expr],
) -> Result<Vec<TermId>, AllocError>
    requires fine { IsFine builder.old }
    requires walk { IsWalk builder.old.bank walk.now }
    ensures at { IfOk result (λ v. AreOnes builder.new.bank v.items (λ b. arguments_reached (walk_at b walk.now) (expr e.now ∷ exprs es.now) (position_at b builder.old))) }
    ensures becomes { IfOk result (λ v. Becomes builder.old builder.new (λ b. reached_arguments (walk_at b walk.now) (expr e.now ∷ exprs es.now) (position_at b builder.old))) }
{
    let _meant = evaluate(builder, walk, e)?;
    evaluate_all(builder, walk, es)?;
    let first = settle_one(builder, walk, e)?;
    let rest = settle_each(builder, walk, es)?;
    let all = behind(builder.alloc, first, &rest)?;
    Ok(all)
}

/// The arguments of a call, its receiver included.
pub fn settle_call(
    builder: &mut Builder,
    walk: &Walk<'_>,
    callee: &Callee,
    es: &[Expr],
) -> Result<Vec<TermId>, AllocError>
    requires fine { IsFine builder.old }
    requires walk { IsWalk builder.old.bank walk.now }
    ensures at { IfOk result (λ v. AreOnes builder.new.bank v.items (λ b. arguments_reached (walk_at b walk.now) (receiver (callee_tree callee.now) ++ exprs es.now) (position_at b builder.old))) }
    ensures becomes { IfOk result (λ v. Becomes builder.old builder.new (λ b. reached_arguments (walk_at b walk.now) (receiver (callee_tree callee.now) ++ exprs es.now) (position_at b builder.old))) }
{
    match callee {
        Callee::Dispatched(e, _, _) => settle_with(builder, walk, e, es),
        Callee::Static(_) => settle_list(builder, walk, es),
        Callee::Base(_) => settle_list(builder, walk, es),
        Callee::Constructor(_) => settle_list(builder, walk, es),
    }
}
