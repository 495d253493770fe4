// The conditions of a contract.

ghost use Rattle.std.specs.Prelude.{◌≡◌, ◌≤◌, [], ◌∷◌, length, map, false, if◌then◌else◌, IfOk};
ghost use Rattle.ss_core.specs.Chain.{most_classes};
ghost use Rattle.ss_core.specs.Tree as tree;
ghost use Rattle.ss_core.specs.View as view;
ghost use Rattle.ss_logic.specs.Express.{and_of, default_said, holds_formula};
ghost use Rattle.ss_terms.specs.Forms.{term_at, HasTerm, HasTerms, IsGrown};
ghost use Rattle.ss_vcgen_express.specs.Numbers.{IsFormula, AreFormulas};
ghost use Rattle.ss_vcgen_express.specs.Contexts.{context_at, HasContext};
ghost use Rattle.ss_vcgen_heaps.specs.Contracts as heaps;
ghost use Rattle.ss_vcgen_contracts.specs.Seen.{is_level, is_at_level, condition_of};
ghost use Rattle.ss_vcgen_contracts.specs.Views.{contract_of, ones_at};

use crate::contexts::{contract_context, no_result};
use crate::contract::{Contract, Run};
use ss_core::{Classes, DefaultCondition, Expr};
use ss_terms::{Bank, FormulaId, TermId};
use ss_vcgen_defaults::default_said;
use ss_vcgen_express::Context;
use ss_vcgen_walk::holds;
use std::alloc::{AllocError, Global};

// Whether it is that `this` is at a level.
fn is_level(condition: DefaultCondition) -> bool
    ensures { result ≡ is_level (view.default_tree condition) }
{
    match condition {
        DefaultCondition::AtLevel(_) => true,
        DefaultCondition::Unpacked
        | DefaultCondition::Unowned
        | DefaultCondition::Defaults(_)
        | DefaultCondition::OwnedFull(_)
        | DefaultCondition::Full
        | DefaultCondition::ConsistentArgument(_)
        | DefaultCondition::FullArgument(_)
        | DefaultCondition::Captured { .. } => false,
    }
}

// Whether it is the condition that `this` is at a level.
fn is_at_level(e: &Expr) -> bool
    ensures { result ≡ is_at_level (view.expr e.now) }
{
    match e {
        Expr::Default(_, condition) => is_level(*condition),
        Expr::Chain(_, first, links) => {
            if links.is_empty() {
                is_at_level(first)
            } else {
                false
            }
        }
        Expr::Path(_, first, steps) => {
            if steps.is_empty() {
                is_at_level(first)
            } else {
                false
            }
        }
        Expr::Int(..)
        | Expr::Bool(..)
        | Expr::Null(..)
        | Expr::Local(..)
        | Expr::Iff(..)
        | Expr::Implies(..)
        | Expr::Negate(..)
        | Expr::Not(..)
        | Expr::Cast(..)
        | Expr::Old(..)
        | Expr::Quantified(..)
        | Expr::State(..)
        | Expr::Owners(..) => false,
    }
}

// `this` is consistent: a default condition is defined.
fn consistent_this(
    alloc: Global,
    bank: &mut Bank,
    context: &Context<'_>,
) -> Result<FormulaId, AllocError>
    requires { HasContext bank.old context.now }
    ensures at { IfOk result (λ f. IsFormula bank.new f (λ b. and_of (default_said (context_at b context.entry.now) (tree.ConsistentArgument 0) ∷ []))) }
    ensures grown { IsGrown bank.old bank.new }
{
    let said = default_said(
        alloc,
        bank,
        context,
        DefaultCondition::ConsistentArgument(0),
    )?;
    bank.and(&[said])
}

// Whether a caller sees another condition in its place.
fn is_replaced(seen: bool, e: &Expr) -> bool
    ensures { result ≡ (if seen then is_at_level (view.expr e.now) else false) }
{
    seen && is_at_level(e)
}

// The condition, as it is written or as a caller sees it.
fn condition(
    alloc: Global,
    bank: &mut Bank,
    context: &Context<'_>,
    seen: bool,
    e: &Expr,
) -> Result<FormulaId, AllocError>
    requires { HasContext bank.old context.now }
    ensures at { IfOk result (λ f. IsFormula bank.new f (λ b. holds_formula (condition_of seen (view.expr e.now)) (context_at b context.entry.now))) }
    ensures grown { IsGrown bank.old bank.new }
{
    let replaced = is_replaced(seen, e);
    if replaced {
        consistent_this(alloc, bank, context)
    } else {
        holds(alloc, bank, context, e)
    }
}

fn all_conditions(
    alloc: Global,
    bank: &mut Bank,
    context: &Context<'_>,
    seen: bool,
    es: &[Expr],
) -> Result<Vec<FormulaId>, AllocError>
    requires { HasContext bank.old context.now }
    ensures at { IfOk result (λ v. AreFormulas bank.new v.items (λ b. heaps.conditions (map (condition_of seen) (view.exprs es.now)) (context_at b context.entry.now))) }
    ensures grown { IsGrown bank.old bank.new }
{
    let mut made = Vec::new(alloc);
    for e in es {
        let f = condition(alloc, bank, context, seen, e)?;
        made.push(f)?;
    }
    Ok(made)
}

/// The conditions at entry, in this store and with these arguments.
pub fn entry_conditions(
    alloc: Global,
    bank: &mut Bank,
    classes: &Classes,
    contract: Contract<'_>,
    store: TermId,
    arguments: &[TermId],
) -> Result<Vec<FormulaId>, AllocError>
    requires limit { length (view.classes classes.now) ≤ most_classes }
    requires store { HasTerm bank.old store }
    requires arguments { HasTerms bank.old arguments.now }
    ensures at { IfOk result (λ v. AreFormulas bank.new v.items (λ b.
        let callee = contract_of contract.entry in
        heaps.conditions callee.entry (heaps.contract_context (view.classes classes.now) callee (term_at b store) (term_at b store) (ones_at b arguments.now) (heaps.no_result callee)))) }
    ensures grown { IsGrown bank.old bank.new }
{
    let results = no_result(alloc, bank, contract.body)?;
    let run = Run {
        before: store,
        after: store,
        arguments,
    };
    let context = contract_context(alloc, bank, classes, contract, run, &results)?;
    let made = all_conditions(alloc, bank, &context, contract.seen, &contract.body.entry)?;
    Ok(made)
}

/// The conditions at exit, after a run with this result.
pub fn exit_conditions(
    alloc: Global,
    bank: &mut Bank,
    classes: &Classes,
    contract: Contract<'_>,
    run: Run<'_>,
    results: &[TermId],
) -> Result<Vec<FormulaId>, AllocError>
    requires limit { length (view.classes classes.now) ≤ most_classes }
    requires before { HasTerm bank.old run.before }
    requires after { HasTerm bank.old run.after }
    requires arguments { HasTerms bank.old run.arguments.now }
    requires results { HasTerms bank.old results.now }
    ensures at { IfOk result (λ v. AreFormulas bank.new v.items (λ b.
        let callee = contract_of contract.entry in
        heaps.conditions callee.exit (heaps.contract_context (view.classes classes.now) callee (term_at b run.entry.after) (term_at b run.entry.before) (ones_at b run.entry.arguments.now) (ones_at b results.now)))) }
    ensures grown { IsGrown bank.old bank.new }
{
    let context = contract_context(alloc, bank, classes, contract, run, results)?;
    let made = all_conditions(alloc, bank, &context, contract.seen, &contract.body.exit)?;
    Ok(made)
}
