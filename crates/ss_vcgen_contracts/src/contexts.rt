// Where the conditions of a contract stand.

ghost use Rattle.std.specs.Prelude.{◌≤◌, [], ◌∷◌, ◌++◌, length, map, IfOk};
ghost use Rattle.ss_core.specs.Chain.{most_classes};
ghost use Rattle.ss_core.specs.View as view;
ghost use Rattle.ss_logic.specs.Terms.{sort_of_type};
ghost use Rattle.ss_logic.specs.Express.{default_of_sort};
ghost use Rattle.ss_store_rules.specs.Locals.{types_of};
ghost use Rattle.ss_terms.specs.Forms.{term_at, HasTerm, HasTerms, IsGrown};
ghost use Rattle.ss_vcgen_express.specs.Numbers.{IsTerm};
ghost use Rattle.ss_vcgen_heaps.specs.Contracts as heaps;
ghost use Rattle.ss_vcgen_contracts.specs.Views.{contract_of, ones_at, AreOnes};
ghost use Rattle.ss_vcgen_express.specs.Contexts.{IsContext};

use crate::contract::{Contract, Run};
use ss_core::{Body, Classes, Local, Ty};
use ss_terms::{Bank, Symbol, TermId};
use ss_vcgen_express::Context;
use ss_vcgen_types::local_types;
use std::alloc::{AllocError, Global};

// What a local of the type is at an entry.
fn default_term(bank: &mut Bank, ty: Ty) -> Result<TermId, AllocError>
    ensures at { IfOk result (λ t. IsTerm bank.new t (λ b. default_of_sort (sort_of_type ty))) }
    ensures grown { IsGrown bank.old bank.new }
{
    match ty {
        Ty::Int => bank.number(0),
        Ty::Bool => bank.apply(Symbol::Fixed(false), &[]),
        Ty::Null | Ty::Ref { .. } => bank.null(),
    }
}

fn add_default(bank: &mut Bank, terms: &mut Vec<TermId>, ty: Ty) -> Result<(), AllocError>
    requires { HasTerms bank.old terms.old.items }
    ensures at { IfOk result (λ u. AreOnes bank.new terms.new.items (λ b. ones_at b terms.old.items ++ heaps.defaults_meant (ty ∷ []))) }
    ensures grown { IsGrown bank.old bank.new }
{
    let t = default_term(bank, ty)?;
    terms.push(t)?;
    Ok(())
}

fn add_defaults(
    bank: &mut Bank,
    terms: &mut Vec<TermId>,
    locals: &[Local],
) -> Result<(), AllocError>
    requires { HasTerms bank.old terms.old.items }
    ensures at { IfOk result (λ u. AreOnes bank.new terms.new.items (λ b. ones_at b terms.old.items ++ heaps.defaults_meant (types_of (map view.local_of locals.now)))) }
    ensures grown { IsGrown bank.old bank.new }
{
    for local in locals {
        add_default(bank, terms, local.ty)?;
    }
    Ok(())
}

// The result before there is one.
pub(crate) fn no_result(
    alloc: Global,
    bank: &mut Bank,
    body: &Body,
) -> Result<Vec<TermId>, AllocError>
    ensures at { IfOk result (λ v. AreOnes bank.new v.items (λ b. heaps.no_result (view.body body.now))) }
    ensures grown { IsGrown bank.old bank.new }
{
    let mut terms = Vec::new(alloc);
    if let Some(ty) = body.result {
        add_default(bank, &mut terms, ty)?;
    }
    Ok(terms)
}

// The terms of all locals.
fn locals_of(
    alloc: Global,
    bank: &mut Bank,
    body: &Body,
    arguments: &[TermId],
    results: &[TermId],
) -> Result<Vec<TermId>, AllocError>
    requires arguments { HasTerms bank.old arguments.now }
    requires results { HasTerms bank.old results.now }
    ensures at { IfOk result (λ v. AreOnes bank.new v.items (λ b. ones_at b arguments.now ++ heaps.defaults_meant (types_of (map view.local_of body.now.locals.items)) ++ ones_at b results.now)) }
    ensures grown { IsGrown bank.old bank.new }
{
    let mut terms = Vec::from_slice(alloc, arguments)?;
    add_defaults(bank, &mut terms, &body.locals)?;
    terms.extend_from_slice(results)?;
    Ok(terms)
}

/// Where the conditions of a contract stand at the end of a run with this result. The other locals are as at an entry.
pub fn contract_context<'p>(
    alloc: Global,
    bank: &mut Bank,
    classes: &'p Classes,
    contract: Contract<'_>,
    run: Run<'_>,
    results: &[TermId],
) -> Result<Context<'p>, AllocError>
    requires limit { length (view.classes classes.now) ≤ most_classes }
    requires before { HasTerm bank.old run.before }
    requires after { HasTerm bank.old run.after }
    requires arguments { HasTerms bank.old run.arguments.now }
    requires results { HasTerms bank.old results.now }
    ensures at { IfOk result (λ s. IsContext bank.new s (λ b. heaps.contract_context (view.classes classes.now) (contract_of contract.entry) (term_at b run.entry.after) (term_at b run.entry.before) (ones_at b run.entry.arguments.now) (ones_at b results.now))) }
    ensures grown { IsGrown bank.old bank.new }
{
    let locals = locals_of(alloc, bank, contract.body, run.arguments, results)?;
    let types = local_types(alloc, contract.body)?;
    Ok(Context {
        classes,
        now: run.after,
        entry: run.before,
        inside_old: false,
        types,
        locals,
        bound: 0,
    })
}
