// What instances say.

ghost use Rattle.std.specs.Prelude.{◌≡◌, option_map, IfOk, IfSome, OnOk, List, Some};
ghost use Rattle.ss_core.specs.Chain.{IsWithinLimits};
ghost use Rattle.ss_core.specs.Tree.{ClassTree};
ghost use Rattle.ss_core.specs.View as view;
ghost use Rattle.ss_logic.specs.Invariants.{invariants_of};
ghost use Rattle.ss_logic.specs.GoodRules.{good_instance_of};
ghost use Rattle.ss_logic.specs.Asked.{if_good, said, all_said};
ghost use Rattle.ss_logic.specs.Occurring.{with_formula, with_formulas};
ghost use Rattle.ss_terms.specs.Forms.{term_at, terms_at, formula_at, HasTerm, HasTerms, HasFormula, IsFormulaNumber, IsGrown, IsBankOf};
ghost use Rattle.ss_rules_asked.specs.Numbers.{rule_at, asked_at, asked_in, asked_with, HasRule, HasArguments, HasAsked};
ghost use Rattle.ss_rules_occurring.specs.Found.{formulas_of, HasFound, Holds};
ghost use Rattle.ss_rules_opened.specs.Views.{StillCome};
ghost use Rattle.ss_rules.specs.Said.{with_said};

use crate::arguments::terms_of_arguments;
use ss_core::Classes;
use ss_logic::GoodRule;
use ss_rules_asked::{Asked, Rule};
use ss_rules_instances::{good_instance, instance, invariants};
use ss_rules_opened::{Origin, OriginList, Source};
use ss_terms::{Bank, FormulaId, Predicate, TermId};
use std::alloc::{AllocError, Global};

// The formula, where the store is good.
fn where_good(bank: &mut Bank, s: TermId, f: FormulaId) -> Result<FormulaId, AllocError>
    requires store { HasTerm bank.old s }
    requires formula { HasFormula bank.old f }
    ensures at { IfOk result (λ g. HasFormula bank.new g × (formula_at bank.new g ≡ if_good (term_at bank.old s) (formula_at bank.old f))) }
    ensures grown { IsGrown bank.old bank.new }
{
    let not_good = bank.atom(false, Predicate::Good, &[s])?;
    bank.or(&[not_good, f])
}

// What was found, where the store is good.
fn only_where_good(
    bank: &mut Bank,
    s: TermId,
    found: Option<FormulaId>,
) -> Result<Option<FormulaId>, AllocError>
    requires store { HasTerm bank.old s }
    requires found { IfSome found (HasFormula bank.old) }
    ensures at { IfOk result (λ o. IsFormulaNumber bank.new (option_map (if_good (term_at bank.old s)) (option_map (formula_at bank.old) found)) o) }
    ensures grown { IsGrown bank.old bank.new }
{
    match found {
        Some(f) => {
            let g = where_good(bank, s, f)?;
            Ok(Some(g))
        }
        None => Ok(None),
    }
}

// What a rule on good stores says, where the store is good.
fn say_of_good(
    alloc: Global,
    bank: &mut Bank,
    classes: &Classes,
    rule: GoodRule,
    s: TermId,
    arguments: &[TermId],
) -> Result<Option<FormulaId>, AllocError>
    requires bank { IsBankOf (view.classes classes.now) bank.old }
    requires limits { IsWithinLimits (view.classes classes.now) }
    requires store { HasTerm bank.old s }
    requires arguments { HasTerms bank.old arguments.now }
    ensures at { IfOk result (λ o. IsFormulaNumber bank.new (option_map (if_good (term_at bank.old s)) (good_instance_of (view.classes classes.now) rule (term_at bank.old s) (terms_at bank.old arguments.now))) o) }
    ensures grown { IsGrown bank.old bank.new }
{
    let found = good_instance(alloc, bank, classes, rule, s, arguments)?;
    only_where_good(bank, s, found)
}

// What the rule on invariants says, where the store is good.
fn say_of_invariants(
    alloc: Global,
    bank: &mut Bank,
    classes: &Classes,
    s: TermId,
    arguments: &[TermId],
) -> Result<Option<FormulaId>, AllocError>
    requires bank { IsBankOf (view.classes classes.now) bank.old }
    requires limits { IsWithinLimits (view.classes classes.now) }
    requires store { HasTerm bank.old s }
    requires arguments { HasTerms bank.old arguments.now }
    ensures at { IfOk result (λ o. IsFormulaNumber bank.new (option_map (if_good (term_at bank.old s)) (invariants_of (view.classes classes.now) (term_at bank.old s) (terms_at bank.old arguments.now))) o) }
    ensures grown { IsGrown bank.old bank.new }
{
    let found = invariants(alloc, bank, classes, s, arguments)?;
    only_where_good(bank, s, found)
}

// What a rule says at these terms, where they fit it.
fn say_at(
    alloc: Global,
    bank: &mut Bank,
    classes: &Classes,
    rule: Rule,
    arguments: &[TermId],
) -> Result<Option<FormulaId>, AllocError>
    requires bank { IsBankOf (view.classes classes.now) bank.old }
    requires limits { IsWithinLimits (view.classes classes.now) }
    requires rule { HasRule bank.old rule }
    requires arguments { HasTerms bank.old arguments.now }
    ensures at { IfOk result (λ o. IsFormulaNumber bank.new (said (view.classes classes.now) (asked_with (rule_at bank.old rule) (terms_at bank.old arguments.now))) o) }
    ensures grown { IsGrown bank.old bank.new }
{
    match rule {
        Rule::True(name) => instance(alloc, bank, classes, name, arguments),
        Rule::Good(name, s) => say_of_good(alloc, bank, classes, name, s, arguments),
        Rule::Invariants(s) => say_of_invariants(alloc, bank, classes, s, arguments),
    }
}

// What an instance says, where its arguments fit the rule.
pub(crate) fn say(
    alloc: Global,
    bank: &mut Bank,
    classes: &Classes,
    asked: &Asked,
) -> Result<Option<FormulaId>, AllocError>
    requires bank { IsBankOf (view.classes classes.now) bank.old }
    requires limits { IsWithinLimits (view.classes classes.now) }
    requires rule { HasRule bank.old asked.now.rule }
    requires arguments { HasArguments bank.old asked.now.arguments.items }
    ensures at { IfOk result (λ o. IsFormulaNumber bank.new (said (view.classes classes.now) (asked_at bank.old asked.now)) o) }
    ensures grown { IsGrown bank.old bank.new }
{
    let arguments = terms_of_arguments(alloc, bank, &asked.arguments)?;
    say_at(alloc, bank, classes, asked.rule, &arguments)
}

// Adds what an instance says, where it isn't there yet, and then notes where it comes from.
fn add_new(
    alloc: Global,
    bank: &mut Bank,
    listed: &mut OriginList,
    asked: &Asked,
    f: FormulaId,
) -> Result<(), AllocError>
    requires list { HasFound bank.old listed.old.list }
    requires formula { HasFormula bank.old f }
    requires rule { HasRule bank.old asked.now.rule }
    requires arguments { HasArguments bank.old asked.now.arguments.items }
    ensures added { OnOk result (Holds bank.new listed.new.list (with_formula (formulas_of bank.old listed.old.list) (formula_at bank.old f))) }
    ensures noted { OnOk result ((cs : List ClassTree) → said cs (asked_at bank.old asked.now) ≡ Some (formula_at bank.old f) → StillCome cs bank.old (formulas_of bank.old listed.old.list) listed.old.origins.items bank.new (formulas_of bank.new listed.new.list) listed.new.origins.items) }
    ensures grown { IsGrown bank.old bank.new }
{
    let before = listed.list.list.len();
    listed.list.add(bank, f)?;
    let after = listed.list.list.len();
    if after == before {
        return Ok(());
    }
    let terms = terms_of_arguments(alloc, bank, &asked.arguments)?;
    let source = Source::Rule(asked.rule);
    listed.origins.push(Origin { source, terms })?;
    Ok(())
}

// Adds what an instance says, if it says something.
pub(crate) fn add_found(
    alloc: Global,
    bank: &mut Bank,
    listed: &mut OriginList,
    asked: &Asked,
    found: Option<FormulaId>,
) -> Result<(), AllocError>
    requires list { HasFound bank.old listed.old.list }
    requires rule { HasRule bank.old asked.now.rule }
    requires arguments { HasArguments bank.old asked.now.arguments.items }
    requires found { IfSome found (HasFormula bank.old) }
    ensures added { OnOk result (Holds bank.new listed.new.list (with_said (formulas_of bank.old listed.old.list) (option_map (formula_at bank.old) found))) }
    ensures noted { OnOk result ((cs : List ClassTree) → said cs (asked_at bank.old asked.now) ≡ option_map (formula_at bank.old) found → StillCome cs bank.old (formulas_of bank.old listed.old.list) listed.old.origins.items bank.new (formulas_of bank.new listed.new.list) listed.new.origins.items) }
    ensures grown { IsGrown bank.old bank.new }
{
    match found {
        Some(f) => add_new(alloc, bank, listed, asked, f),
        None => Ok(()),
    }
}

// Adds what an instance says to the list, where it isn't there yet.
fn add_one_said(
    alloc: Global,
    bank: &mut Bank,
    classes: &Classes,
    listed: &mut OriginList,
    asked: &Asked,
) -> Result<(), AllocError>
    requires bank { IsBankOf (view.classes classes.now) bank.old }
    requires limits { IsWithinLimits (view.classes classes.now) }
    requires list { HasFound bank.old listed.old.list }
    requires rule { HasRule bank.old asked.now.rule }
    requires arguments { HasArguments bank.old asked.now.arguments.items }
    ensures added { OnOk result (Holds bank.new listed.new.list (with_said (formulas_of bank.old listed.old.list) (said (view.classes classes.now) (asked_at bank.old asked.now)))) }
    ensures noted { OnOk result (StillCome (view.classes classes.now) bank.old (formulas_of bank.old listed.old.list) listed.old.origins.items bank.new (formulas_of bank.new listed.new.list) listed.new.origins.items) }
    ensures grown { IsGrown bank.old bank.new }
{
    let found = say(alloc, bank, classes, asked)?;
    add_found(alloc, bank, listed, asked, found)
}

/// Adds what each of the instances says to the list, where it isn't there yet, and then notes where it comes from. An error is want of
/// memory.
pub fn add_said(
    alloc: Global,
    bank: &mut Bank,
    classes: &Classes,
    listed: &mut OriginList,
    asked: &[Asked],
) -> Result<(), AllocError>
    requires bank { IsBankOf (view.classes classes.now) bank.old }
    requires limits { IsWithinLimits (view.classes classes.now) }
    requires list { HasFound bank.old listed.old.list }
    requires asked { HasAsked bank.old asked.now }
    ensures added { OnOk result (Holds bank.new listed.new.list (with_formulas (formulas_of bank.old listed.old.list) (all_said (view.classes classes.now) (asked_in bank.old asked.now)))) }
    ensures noted { OnOk result (StillCome (view.classes classes.now) bank.old (formulas_of bank.old listed.old.list) listed.old.origins.items bank.new (formulas_of bank.new listed.new.list) listed.new.origins.items) }
    ensures grown { IsGrown bank.old bank.new }
{
    for one in asked {
        add_one_said(alloc, bank, classes, listed, one)?;
    }
    Ok(())
}
