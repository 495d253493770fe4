// The instances of rules that lines make known.

ghost use Rattle.std.specs.Prelude.{option_and_then, slice_get, IfOk};
ghost use Rattle.ss_core.specs.Chain.{IsWithinLimits};
ghost use Rattle.ss_core.specs.View as view;
ghost use Rattle.ss_logic.specs.Rules.{instance_of};
ghost use Rattle.ss_logic.specs.GoodRules.{good_instance_of};
ghost use Rattle.ss_logic.specs.Invariants.{invariants_of};
ghost use Rattle.ss_logic_means.specs.Steps.{good_store};
ghost use Rattle.ss_terms.specs.Forms.{formulas_at, terms_at, HasTerms, HasFormulas, IsGrown, IsBankOf};
ghost use Rattle.ss_terms.specs.Numbered.{IsNumberOf};

use crate::context::CheckContext;
use ss_check_steps::{good_store_at, known_at};
use ss_core::Classes;
use ss_logic::{GoodRule, RuleName};
use ss_rules_instances::{good_instance, instance};
use ss_terms::{Bank, FormulaId, TermId};
use std::alloc::{AllocError, Global};

/// The instance of a rule.
pub(crate) fn rule(
    alloc: Global,
    bank: &mut Bank,
    classes: &Classes,
    name: RuleName,
    ts: &[TermId],
) -> Result<Option<FormulaId>, AllocError>
    requires bank { IsBankOf (view.classes classes.now) bank.old }
    requires terms { HasTerms bank.old ts.now }
    requires limits { IsWithinLimits (view.classes classes.now) }
    ensures fact { IfOk result (λ o. IsNumberOf bank.new o (instance_of (view.classes classes.now) name (terms_at bank.old ts.now))) }
    ensures grown { IsGrown bank.old bank.new }
{
    instance(alloc, bank, classes, name, ts)
}

/// The instance of a rule on good stores, of the store of a known `good`.
pub(crate) fn good(
    bank: &mut Bank,
    context: &CheckContext<'_>,
    known: &[FormulaId],
    name: GoodRule,
    i: usize,
    ts: &[TermId],
) -> Result<Option<FormulaId>, AllocError>
    requires bank { IsBankOf (view.classes context.now.classes.now) bank.old }
    requires known { HasFormulas bank.old known.now }
    requires terms { HasTerms bank.old ts.now }
    requires limits { IsWithinLimits (view.classes context.now.classes.now) }
    ensures fact { IfOk result (λ o. IsNumberOf bank.new o (option_and_then (λ s. good_instance_of (view.classes context.now.classes.now) name s (terms_at bank.old ts.now)) (option_and_then good_store (slice_get (formulas_at bank.old known.now) i)))) }
    ensures grown { IsGrown bank.old bank.new }
{
    let Some(f) = known_at(bank, known, i) else {
        return Ok(None);
    };
    let Some(store) = good_store_at(bank, f) else {
        return Ok(None);
    };
    good_instance(context.alloc, bank, context.classes, name, store, ts)
}

/// The instance of the rule on invariants, of the store of a known `good`.
pub(crate) fn invariants(
    alloc: Global,
    bank: &mut Bank,
    classes: &Classes,
    known: &[FormulaId],
    i: usize,
    ts: &[TermId],
) -> Result<Option<FormulaId>, AllocError>
    requires bank { IsBankOf (view.classes classes.now) bank.old }
    requires known { HasFormulas bank.old known.now }
    requires terms { HasTerms bank.old ts.now }
    requires limits { IsWithinLimits (view.classes classes.now) }
    ensures fact { IfOk result (λ o. IsNumberOf bank.new o (option_and_then (λ s. invariants_of (view.classes classes.now) s (terms_at bank.old ts.now)) (option_and_then good_store (slice_get (formulas_at bank.old known.now) i)))) }
    ensures grown { IsGrown bank.old bank.new }
{
    let Some(f) = known_at(bank, known, i) else {
        return Ok(None);
    };
    let Some(store) = good_store_at(bank, f) else {
        return Ok(None);
    };
    ss_rules_instances::invariants(alloc, bank, classes, store, ts)
}
