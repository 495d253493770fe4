// What a call or a body may change.

ghost use Rattle.std.specs.Prelude.{◌≤◌, length, map, IfOk};
ghost use Rattle.ss_core.specs.Chain.{most_classes, IsWithinLimits};
ghost use Rattle.ss_core.specs.View as view;
ghost use Rattle.ss_logic.specs.Express.{local_meant};
ghost use Rattle.ss_logic.specs.Frames as logic;
ghost use Rattle.ss_terms.specs.Forms.{term_at, terms_at, HasTerm, HasTerms, IsGrown, IsBankOf};
ghost use Rattle.ss_frames.specs.Calls.{call_at, HasCall};
ghost use Rattle.ss_vcgen_express.specs.declared.meant.Meant.TheVariants as meant;
ghost use Rattle.ss_vcgen_express.specs.Numbers.{IsFormula, IsMeant};
ghost use Rattle.ss_vcgen_heaps.specs.Contracts as heaps;
ghost use Rattle.ss_vcgen_contracts.specs.Names.{name_seen, names_context};
ghost use Rattle.ss_vcgen_contracts.specs.Views.{contract_of, ones_at, AreNames, IsCall};
ghost use Rattle.ss_vcgen_express.specs.Contexts.{IsContext};

use crate::captured::{captured_terms, owned_terms};
use crate::contexts::{contract_context, no_result};
use crate::contract::{Contract, Run};
use crate::names::named_terms;
use ss_core::{Classes, Core};
use ss_frames::{CallTerms, NamedTerm};
use ss_terms::{Bank, FormulaId, TermId};
use ss_vcgen_express::{Context, local_term};
use std::alloc::{AllocError, Global};

// Where what is named stands: inside `old`, before there is a result.
fn names_context<'p>(
    alloc: Global,
    bank: &mut Bank,
    classes: &'p Classes,
    contract: Contract<'_>,
    before: TermId,
    arguments: &[TermId],
) -> Result<Context<'p>, AllocError>
    requires limit { length (view.classes classes.now) ≤ most_classes }
    requires before { HasTerm bank.old before }
    requires arguments { HasTerms bank.old arguments.now }
    ensures at { IfOk result (λ s. IsContext bank.new s (λ b. names_context (view.classes classes.now) (contract_of contract.entry) (term_at b before) (ones_at b arguments.now))) }
    ensures grown { IsGrown bank.old bank.new }
{
    let results = no_result(alloc, bank, contract.body)?;
    let run = Run {
        before,
        after: before,
        arguments,
    };
    let mut context = contract_context(alloc, bank, classes, contract, run, &results)?;
    context.inside_old = true;
    Ok(context)
}

// What the contract names, and the object that a method or constructor is called for.
fn names_and_object(
    alloc: Global,
    bank: &mut Bank,
    classes: &Classes,
    contract: Contract<'_>,
    before: TermId,
    arguments: &[TermId],
) -> Result<(Vec<NamedTerm>, TermId), AllocError>
    requires limit { length (view.classes classes.now) ≤ most_classes }
    requires before { HasTerm bank.old before }
    requires arguments { HasTerms bank.old arguments.now }
    ensures names { IfOk result (λ r. AreNames bank.new r.0.items (λ b.
        heaps.named_terms (map (name_seen contract.entry.seen) (map view.named_of contract.entry.body.now.named.items))
        (names_context (view.classes classes.now) (contract_of contract.entry) (term_at b before) (ones_at b arguments.now)))) }
    ensures object { IfOk result (λ r. IsMeant bank.new (meant.One r.1) (λ b.
        local_meant (names_context (view.classes classes.now) (contract_of contract.entry) (term_at b before) (ones_at b arguments.now)) 0)) }
    ensures grown { IsGrown bank.old bank.new }
{
    let context = names_context(alloc, bank, classes, contract, before, arguments)?;
    let names = named_terms(alloc, bank, &context, contract.seen, &contract.body.named)?;
    let object = local_term(bank, &context, 0)?;
    Ok((names, object))
}

/// What a run of a body with this contract may change, but for these objects of enclosing exposes.
pub fn frame_terms(
    alloc: Global,
    bank: &mut Bank,
    classes: &Classes,
    contract: Contract<'_>,
    run: Run<'_>,
    outside: &[TermId],
) -> Result<CallTerms, AllocError>
    requires limit { length (view.classes classes.now) ≤ most_classes }
    requires before { HasTerm bank.old run.before }
    requires after { HasTerm bank.old run.after }
    requires arguments { HasTerms bank.old run.arguments.now }
    requires outside { HasTerms bank.old outside.now }
    ensures at { IfOk result (λ m. IsCall bank.new m (λ b. heaps.frame_terms (view.classes classes.now) (contract_of contract.entry) (term_at b run.entry.before) (term_at b run.entry.after) (ones_at b run.entry.arguments.now) (terms_at b outside.now))) }
    ensures grown { IsGrown bank.old bank.new }
{
    let found = names_and_object(alloc, bank, classes, contract, run.before, run.arguments)?;
    let owned = owned_terms(alloc, classes, contract.body, found.1)?;
    let captured = captured_terms(alloc, contract.body, run.arguments)?;
    let outside = Vec::from_slice(alloc, outside)?;
    Ok(CallTerms {
        before: run.before,
        after: run.after,
        named: found.0,
        captured,
        owned,
        outside,
    })
}

// The frame condition of a call.
fn kept(alloc: Global, bank: &mut Bank, core: &Core, m: &CallTerms) -> Result<FormulaId, AllocError>
    requires bank { IsBankOf (view.classes core.now.classes) bank.old }
    requires limits { IsWithinLimits (view.classes core.now.classes) }
    requires call { HasCall bank.old m.now }
    ensures at { IfOk result (λ f. IsFormula bank.new f (λ b. logic.kept (view.classes core.now.classes) (call_at b m.now))) }
    ensures grown { IsGrown bank.old bank.new }
{
    ss_frames::kept(alloc, bank, core, m)
}

/// The frame condition of a run of a body with this contract: no more has changed than it may change.
pub fn frame(
    alloc: Global,
    bank: &mut Bank,
    core: &Core,
    contract: Contract<'_>,
    run: Run<'_>,
    outside: &[TermId],
) -> Result<FormulaId, AllocError>
    requires bank { IsBankOf (view.classes core.now.classes) bank.old }
    requires limits { IsWithinLimits (view.classes core.now.classes) }
    requires before { HasTerm bank.old run.before }
    requires after { HasTerm bank.old run.after }
    requires arguments { HasTerms bank.old run.arguments.now }
    requires outside { HasTerms bank.old outside.now }
    ensures at { IfOk result (λ f. IsFormula bank.new f (λ b. logic.kept (view.classes core.now.classes) (heaps.frame_terms (view.classes core.now.classes) (contract_of contract.entry) (term_at b run.entry.before) (term_at b run.entry.after) (ones_at b run.entry.arguments.now) (terms_at b outside.now)))) }
    ensures grown { IsGrown bank.old bank.new }
{
    let m = frame_terms(alloc, bank, &core.classes, contract, run, outside)?;
    kept(alloc, bank, core, &m)
}

/// The later store has grown out of the earlier one.
pub fn grown(
    alloc: Global,
    bank: &mut Bank,
    before: TermId,
    after: TermId,
) -> Result<FormulaId, AllocError>
    requires before { HasTerm bank.old before }
    requires after { HasTerm bank.old after }
    ensures at { IfOk result (λ f. IsFormula bank.new f (λ b. logic.grown (term_at b before) (term_at b after))) }
    ensures grown { IsGrown bank.old bank.new }
{
    ss_frames::grown(alloc, bank, before, after)
}
