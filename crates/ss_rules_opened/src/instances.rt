// The instances of a `forall`.

ghost use Rattle.std.specs.Prelude.{◌≡◌, map, IfOk, OnOk, Contains};
ghost use Rattle.ss_core.specs.View as view;
ghost use Rattle.ss_logic.specs.Formulas.{Forall};
ghost use Rattle.ss_logic.specs.Matching.{forall_instances};
ghost use Rattle.ss_logic.specs.Occurring.{quantified, with_formula, with_formulas};
ghost use Rattle.ss_logic_means.specs.Origins.{IsInstance};
ghost use Rattle.ss_terms.specs.Forms.{terms_at, formula_at, HasTerms, HasFormula, IsGrown, IsBankOf};
ghost use Rattle.ss_rules_occurring.specs.Found.{formulas_of, HasFound, Holds};
ghost use Rattle.ss_rules_opened.specs.Views.{StillCome};
ghost use Rattle.ss_rules_opened.specs.Matches.{tuples_at, HasTuples, places, instance_there, AreInstances};

use crate::places::{Tuple, places};
use crate::{OriginList, Source, add_from};
use ss_core::Classes;
use ss_rules_occurring::QuantifiedFormula;
use ss_terms::{Bank, Formula, FormulaId, TermId};
use ss_terms_puts::put;
use std::alloc::{AllocError, Global};

// The instance at these terms.
fn instance(
    alloc: Global,
    bank: &mut Bank,
    classes: &Classes,
    whole: FormulaId,
    body: FormulaId,
    ts: &[TermId],
) -> Result<FormulaId, AllocError>
    requires bank { IsBankOf (view.classes classes.now) bank.old }
    requires whole { HasFormula bank.old whole }
    requires body { HasFormula bank.old body }
    requires terms { HasTerms bank.old ts.now }
    ensures at { IfOk result (λ g. HasFormula bank.new g × (formula_at bank.new g ≡ instance_there (formula_at bank.old whole) (formula_at bank.old body) (terms_at bank.old ts.now))) }
    ensures grown { IsGrown bank.old bank.new }
{
    let denied = bank.negation(whole);
    let there = put(alloc, bank, classes, ts, body)?;
    bank.or(&[denied, there])
}

// Adds it, and notes that it is one.
fn add_instance(
    alloc: Global,
    bank: &mut Bank,
    classes: &Classes,
    listed: &mut OriginList,
    formula: &QuantifiedFormula<'_>,
    ts: &[TermId],
) -> Result<(), AllocError>
    requires bank { IsBankOf (view.classes classes.now) bank.old }
    requires list { HasFound bank.old listed.old.list }
    requires whole { HasFormula bank.old formula.now.whole }
    requires body { HasFormula bank.old formula.now.body }
    requires terms { HasTerms bank.old ts.now }
    ensures added { OnOk result (Holds bank.new listed.new.list (with_formula (formulas_of bank.old listed.old.list) (instance_there (formula_at bank.old formula.now.whole) (formula_at bank.old formula.now.body) (terms_at bank.old ts.now)))) }
    ensures noted { OnOk result (IsInstance (view.classes classes.now) (formulas_of bank.old listed.old.list) (formula_at bank.old formula.now.whole) (terms_at bank.old ts.now) (instance_there (formula_at bank.old formula.now.whole) (formula_at bank.old formula.now.body) (terms_at bank.old ts.now)) → StillCome (view.classes classes.now) bank.old (formulas_of bank.old listed.old.list) listed.old.origins.items bank.new (formulas_of bank.new listed.new.list) listed.new.origins.items) }
    ensures grown { IsGrown bank.old bank.new }
{
    let f = instance(alloc, bank, classes, formula.whole, formula.body, ts)?;
    let source = Source::Forall(formula.whole);
    add_from(alloc, bank, listed, f, source, ts)
}

// Adds those at each place.
fn add_instances(
    alloc: Global,
    bank: &mut Bank,
    classes: &Classes,
    listed: &mut OriginList,
    formula: &QuantifiedFormula<'_>,
    places: &[Tuple],
) -> Result<(), AllocError>
    requires bank { IsBankOf (view.classes classes.now) bank.old }
    requires list { HasFound bank.old listed.old.list }
    requires whole { HasFormula bank.old formula.now.whole }
    requires body { HasFormula bank.old formula.now.body }
    requires places { HasTuples bank.old places.now }
    ensures added { OnOk result (Holds bank.new listed.new.list (with_formulas (formulas_of bank.old listed.old.list) (map (instance_there (formula_at bank.old formula.now.whole) (formula_at bank.old formula.now.body)) (tuples_at bank.old places.now)))) }
    ensures noted { OnOk result (AreInstances (view.classes classes.now) (formulas_of bank.old listed.old.list) (formula_at bank.old formula.now.whole) (formula_at bank.old formula.now.body) (tuples_at bank.old places.now) → StillCome (view.classes classes.now) bank.old (formulas_of bank.old listed.old.list) listed.old.origins.items bank.new (formulas_of bank.new listed.new.list) listed.new.origins.items) }
    ensures grown { IsGrown bank.old bank.new }
{
    for place in places {
        add_instance(alloc, bank, classes, listed, formula, &place.terms)?;
    }
    Ok(())
}

// Adds those of a `forall` of these sorts.
fn add_at_places(
    alloc: Global,
    bank: &mut Bank,
    classes: &Classes,
    listed: &mut OriginList,
    formula: &QuantifiedFormula<'_>,
) -> Result<(), AllocError>
    requires bank { IsBankOf (view.classes classes.now) bank.old }
    requires list { HasFound bank.old listed.old.list }
    requires whole { HasFormula bank.old formula.now.whole }
    requires body { HasFormula bank.old formula.now.body }
    ensures added { OnOk result (Holds bank.new listed.new.list (with_formulas (formulas_of bank.old listed.old.list) (map (instance_there (formula_at bank.old formula.now.whole) (formula_at bank.old formula.now.body)) (places (formulas_of bank.old listed.old.list) formula.now.sorts.now (formula_at bank.old formula.now.body))))) }
    ensures noted { OnOk result (AreInstances (view.classes classes.now) (formulas_of bank.old listed.old.list) (formula_at bank.old formula.now.whole) (formula_at bank.old formula.now.body) (places (formulas_of bank.old listed.old.list) formula.now.sorts.now (formula_at bank.old formula.now.body)) → StillCome (view.classes classes.now) bank.old (formulas_of bank.old listed.old.list) listed.old.origins.items bank.new (formulas_of bank.new listed.new.list) listed.new.origins.items) }
    ensures grown { IsGrown bank.old bank.new }
{
    let found = places(
        alloc,
        bank,
        classes,
        &listed.list.list,
        formula.sorts,
        formula.body,
    )?;
    add_instances(alloc, bank, classes, listed, formula, &found)
}

/// Adds the instances of a formula at the terms of the list, where it is a `forall`, and notes of what they are instances. An error is want
/// of memory.
pub fn add_forall_instances(
    alloc: Global,
    bank: &mut Bank,
    classes: &Classes,
    listed: &mut OriginList,
    f: FormulaId,
) -> Result<(), AllocError>
    requires bank { IsBankOf (view.classes classes.now) bank.old }
    requires list { HasFound bank.old listed.old.list }
    requires formula { HasFormula bank.old f }
    ensures added { OnOk result (Holds bank.new listed.new.list (with_formulas (formulas_of bank.old listed.old.list) (forall_instances (formulas_of bank.old listed.old.list) (formula_at bank.old f)))) }
    ensures noted { OnOk result (Contains (quantified (formulas_of bank.old listed.old.list)) (formula_at bank.old f) → StillCome (view.classes classes.now) bank.old (formulas_of bank.old listed.old.list) listed.old.origins.items bank.new (formulas_of bank.new listed.new.list) listed.new.origins.items) }
    ensures grown { IsGrown bank.old bank.new }
{
    match bank.formula_node(f) {
        Formula::Forall(sorts, body) => {
            let body = *body;
            let sorts = Vec::from_slice(alloc, sorts)?;
            let formula = QuantifiedFormula {
                whole: f,
                sorts: &sorts,
                body,
            };
            add_at_places(alloc, bank, classes, listed, &formula)
        }
        _ => Ok(()),
    }
}
