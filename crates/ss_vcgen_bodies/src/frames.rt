// The contract of the body itself: its arguments, its conditions and its frame condition.

ghost use Rattle.std.specs.Prelude.{IfOk, map};
ghost use Rattle.ss_core.specs.View.{exposed_tree};
ghost use Rattle.ss_terms.specs.Forms.{terms_at, HasTerms};
ghost use Rattle.ss_vcgen_heaps.specs.Obligations as spec;
ghost use Rattle.ss_vcgen_express.specs.Numbers.{IsFormula, AreFormulas};
ghost use Rattle.ss_vcgen_contracts.specs.Views.{ones_at, AreOnes};
ghost use Rattle.ss_vcgen_builder.specs.Builder.{position_at, walk_at, IsFine, IsWalk};
ghost use Rattle.ss_vcgen_statements.specs.Words.{Stays};
ghost use Rattle.ss_vcgen_bodies.specs.Words.{entries_said, exits_said};

use crate::levels::exposed_terms;
use crate::lists::first_terms;
use crate::{entry_said, exit_said, frame_said};
use ss_core::Exposed;
use ss_terms::{FormulaId, TermId};
use ss_vcgen_builder::{Builder, Walk};
use ss_vcgen_contracts::{Contract, Run};
use ss_vcgen_statements::context;
use ss_vcgen_types::argument_types;
use std::alloc::AllocError;

// What the arguments of the body mean now.
fn arguments_now(builder: &mut Builder, walk: &Walk<'_>) -> Result<Vec<TermId>, AllocError>
    requires fine { IsFine builder.old }
    requires walk { IsWalk builder.old.bank walk.now }
    ensures at { IfOk result (λ v. AreOnes builder.new.bank v.items (λ b. spec.arguments_at (walk_at b walk.now) (position_at b builder.old))) }
    ensures stays { IfOk result (λ v. Stays builder.old builder.new) }
{
    let context = context(builder, walk)?;
    let types = argument_types(builder.alloc, walk.body)?;
    let terms = first_terms(builder.alloc, &context.locals, types.len())?;
    Ok(terms)
}

// The frame condition of the body, but for these objects.
pub(crate) fn frame_formula(
    builder: &mut Builder,
    walk: &Walk<'_>,
    outside: &[TermId],
) -> Result<FormulaId, AllocError>
    requires fine { IsFine builder.old }
    requires walk { IsWalk builder.old.bank walk.now }
    requires outside { HasTerms builder.old.bank outside.now }
    ensures at { IfOk result (λ f. IsFormula builder.new.bank f (λ b. spec.frame_formula (walk_at b walk.now) (terms_at b outside.now) (position_at b builder.old))) }
    ensures stays { IfOk result (λ f. Stays builder.old builder.new) }
{
    let contract = Contract {
        body: walk.body,
        seen: false,
    };
    let arguments = arguments_now(builder, walk)?;
    let f = frame_said(builder, walk, contract, walk.entry, &arguments, outside)?;
    Ok(f)
}

// The frame condition of the body at the head of a loop, but for what is exposed around that.
pub(crate) fn frame_at_head(
    builder: &mut Builder,
    walk: &Walk<'_>,
    exposes: &[Exposed],
) -> Result<FormulaId, AllocError>
    requires fine { IsFine builder.old }
    requires walk { IsWalk builder.old.bank walk.now }
    ensures at { IfOk result (λ f. IsFormula builder.new.bank f (λ b. spec.frame_formula (walk_at b walk.now) (spec.exposed_terms (map exposed_tree exposes.now) (position_at b builder.old)) (position_at b builder.old))) }
    ensures stays { IfOk result (λ f. Stays builder.old builder.new) }
{
    let outside = exposed_terms(builder, exposes)?;
    let f = frame_formula(builder, walk, &outside)?;
    Ok(f)
}

/// The conditions at entry, where the builder stands there.
pub fn entries_said(builder: &mut Builder, walk: &Walk<'_>) -> Result<Vec<FormulaId>, AllocError>
    requires fine { IsFine builder.old }
    requires walk { IsWalk builder.old.bank walk.now }
    ensures at { IfOk result (λ v. AreFormulas builder.new.bank v.items (λ b. entries_said (walk_at b walk.now) (position_at b builder.old))) }
    ensures stays { IfOk result (λ v. Stays builder.old builder.new) }
{
    let contract = Contract {
        body: walk.body,
        seen: false,
    };
    let arguments = arguments_now(builder, walk)?;
    let said = entry_said(builder, walk, contract, &arguments)?;
    Ok(said)
}

// The conditions at exit, with this result.
pub(crate) fn exits_said(
    builder: &mut Builder,
    walk: &Walk<'_>,
    results: &[TermId],
) -> Result<Vec<FormulaId>, AllocError>
    requires fine { IsFine builder.old }
    requires walk { IsWalk builder.old.bank walk.now }
    requires results { HasTerms builder.old.bank results.now }
    ensures at { IfOk result (λ v. AreFormulas builder.new.bank v.items (λ b. exits_said (walk_at b walk.now) (ones_at b results.now) (position_at b builder.old))) }
    ensures stays { IfOk result (λ v. Stays builder.old builder.new) }
{
    let contract = Contract {
        body: walk.body,
        seen: false,
    };
    let store = builder.store;
    let arguments = arguments_now(builder, walk)?;
    let run = Run {
        before: walk.entry,
        after: store,
        arguments: &arguments,
    };
    let said = exit_said(builder, walk, contract, run, results)?;
    Ok(said)
}
