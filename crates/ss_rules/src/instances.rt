// The instances of the rules, by name.

ghost use Rattle.std.specs.Prelude.{◌≡◌, [], true, false, IfOk, IfSome};
ghost use Rattle.ss_core.specs.Chain.{IsChain, NoAlso, IsWithinLimits};
ghost use Rattle.ss_core.specs.View as view;
ghost use Rattle.ss_logic.specs.Formulas.{IsValid};
ghost use Rattle.ss_logic.specs.GoodRules.{good_instance_of};
ghost use Rattle.ss_logic.specs.Invariants.{invariants_of};
ghost use Rattle.ss_logic_means.specs.Scenes.{AreInvariants};
ghost use Rattle.ss_terms.specs.Forms.{terms_at, formula_at, HasTerms, IsFormulaNumber, IsGrown, IsBankOf};
ghost use Rattle.ss_rules.specs.Instances.{of_store, sentence_of, is_everywhere, store_is_good};

use crate::names::RuleName;
use ss_core::{Classes, Core};
use ss_logic::{GoodRule, RuleName as EveryRule};
use ss_rules_instances::{good_instance, instance as every_instance, invariants};
use ss_terms::{Bank, FormulaId, TermId};
use std::alloc::{AllocError, Global};

// What a rule on good stores says of its first argument, the store, and the others.
fn of_good_store(
    alloc: Global,
    bank: &mut Bank,
    classes: &Classes,
    rule: GoodRule,
    arguments: &[TermId],
) -> Result<Option<FormulaId>, AllocError>
    requires bank { IsBankOf (view.classes classes.now) bank.old }
    requires limits { IsWithinLimits (view.classes classes.now) }
    requires arguments { HasTerms bank.old arguments.now }
    ensures at { IfOk result (λ o. IsFormulaNumber bank.new (of_store (good_instance_of (view.classes classes.now) rule) (terms_at bank.old arguments.now)) o) }
    ensures grown { IsGrown bank.old bank.new }
{
    match arguments {
        [store, rest @ ..] => good_instance(alloc, bank, classes, rule, *store, rest),
        [] => Ok(None),
    }
}

// The same of the rule on invariants.
fn of_invariants(
    alloc: Global,
    bank: &mut Bank,
    classes: &Classes,
    arguments: &[TermId],
) -> Result<Option<FormulaId>, AllocError>
    requires bank { IsBankOf (view.classes classes.now) bank.old }
    requires limits { IsWithinLimits (view.classes classes.now) }
    requires arguments { HasTerms bank.old arguments.now }
    ensures at { IfOk result (λ o. IsFormulaNumber bank.new (of_store (invariants_of (view.classes classes.now)) (terms_at bank.old arguments.now)) o) }
    ensures grown { IsGrown bank.old bank.new }
{
    match arguments {
        [store, rest @ ..] => invariants(alloc, bank, classes, *store, rest),
        [] => Ok(None),
    }
}

// What the rule says of these arguments.
fn sentence(
    alloc: Global,
    bank: &mut Bank,
    classes: &Classes,
    rule: RuleName,
    arguments: &[TermId],
) -> Result<Option<FormulaId>, AllocError>
    requires bank { IsBankOf (view.classes classes.now) bank.old }
    requires limits { IsWithinLimits (view.classes classes.now) }
    requires arguments { HasTerms bank.old arguments.now }
    ensures at { IfOk result (λ o. IsFormulaNumber bank.new (sentence_of (view.classes classes.now) rule (terms_at bank.old arguments.now)) o) }
    ensures grown { IsGrown bank.old bank.new }
{
    match rule {
        RuleName::Read => every_instance(alloc, bank, classes, EveryRule::Read, arguments),
        RuleName::Fresh => every_instance(alloc, bank, classes, EveryRule::Fresh, arguments),
        RuleName::Class => every_instance(alloc, bank, classes, EveryRule::Class, arguments),
        RuleName::Split => every_instance(alloc, bank, classes, EveryRule::Split, arguments),
        RuleName::Apart => every_instance(alloc, bank, classes, EveryRule::Apart, arguments),
        RuleName::Quorem => every_instance(alloc, bank, classes, EveryRule::Quorem, arguments),
        RuleName::Bool => every_instance(alloc, bank, classes, EveryRule::Bool, arguments),
        RuleName::Invariants => of_invariants(alloc, bank, classes, arguments),
        RuleName::Full => of_good_store(alloc, bank, classes, GoodRule::Full, arguments),
        RuleName::Owned => of_good_store(alloc, bank, classes, GoodRule::Owned, arguments),
        RuleName::Marks => of_good_store(alloc, bank, classes, GoodRule::Marks, arguments),
        RuleName::Typed => of_good_store(alloc, bank, classes, GoodRule::Typed, arguments),
        RuleName::Ready => of_good_store(alloc, bank, classes, GoodRule::Ready, arguments),
    }
}

/// What a rule says of these arguments, where they fit it; of a rule on good stores the store is the first. It is true in every structure,
/// or wherever the store is good. An error is want of memory; what the bank had before stays.
pub fn instance(
    alloc: Global,
    bank: &mut Bank,
    program: &Core,
    rule: RuleName,
    arguments: &[TermId],
) -> Result<Option<FormulaId>, AllocError>
    requires bank { IsBankOf (view.classes program.now.classes) bank.old }
    requires limits { IsWithinLimits (view.classes program.now.classes) }
    requires arguments { HasTerms bank.old arguments.now }
    ensures at { IfOk result (λ o. IsFormulaNumber bank.new (sentence_of (view.classes program.now.classes) rule (terms_at bank.old arguments.now)) o) }
    ensures everywhere { is_everywhere rule ≡ true → IsChain (view.classes program.now.classes) → NoAlso (view.classes program.now.classes) → IfOk result (λ o. IfSome o (λ f. IsValid (view.classes program.now.classes) [] (formula_at bank.new f))) }
    ensures in_good_stores { is_everywhere rule ≡ false → IsChain (view.classes program.now.classes) → NoAlso (view.classes program.now.classes) → AreInvariants (view.classes program.now.classes) → IfOk result (λ o. IfSome o (λ f. IsValid (view.classes program.now.classes) (store_is_good (terms_at bank.old arguments.now)) (formula_at bank.new f))) }
    ensures grown { IsGrown bank.old bank.new }
{
    sentence(alloc, bank, &program.classes, rule, arguments)
}
