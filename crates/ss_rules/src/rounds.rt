// Closing a list, and rounds.

ghost use Rattle.std.specs.Prelude.{option_and_then, reverse, IfOk, OnOk, Contains};
ghost use Rattle.ss_core.specs.Chain.{IsWithinLimits};
ghost use Rattle.ss_core.specs.View as view;
ghost use Rattle.ss_logic.specs.Asked as asking;
ghost use Rattle.ss_logic.specs.Ground as spec;
ghost use Rattle.ss_logic.specs.Matching.{forall_instances};
ghost use Rattle.ss_logic.specs.Occurring as occurring;
ghost use Rattle.ss_logic.specs.Occurring.{with_formulas};
ghost use Rattle.ss_rules_asked.specs.Numbers.{Asks};
ghost use Rattle.ss_logic.specs.Includes.{Includes};
ghost use Rattle.ss_terms.specs.Forms.{formula_at, formulas_at, HasFormula, HasFormulas, IsGrown, IsBankOf};
ghost use Rattle.ss_rules.specs.AreMade.{AreMade};
ghost use Rattle.ss_rules_occurring.specs.Found.{formulas_of, HasFound, Holds};
ghost use Rattle.ss_rules_opened.specs.Views.{StillCome};
ghost use Rattle.ss_rules.specs.Comes.{Comes, IsClosed};

use crate::ground_context::GroundContext;
use crate::{Made, add_said};
use ss_core::Classes;
use ss_rules_asked::{Asked, asked_to_close};
use ss_rules_asked_first::asked_first;
use ss_rules_occurring::{FormulaList, atoms, quantified, terms};
use ss_rules_opened::{OriginList, add_forall_instances};
use ss_terms::{Bank, FormulaId};
use std::alloc::{AllocError, Global};

// What is asked for to close the list.
fn due(
    alloc: Global,
    bank: &Bank,
    classes: &Classes,
    list: &FormulaList,
) -> Result<Vec<Asked>, AllocError>
    requires bank { IsBankOf (view.classes classes.now) bank.now }
    requires list { HasFound bank.now list.now }
    ensures { IfOk result (λ v. Asks bank.now v.items (asking.asked_to_close (view.classes classes.now) (occurring.atoms (formulas_of bank.now list.now)) (occurring.terms (formulas_of bank.now list.now)))) }
{
    let atoms = atoms(alloc, bank, &list.list)?;
    let terms = terms(alloc, bank, &atoms.list)?;
    asked_to_close(alloc, bank, classes, &atoms.list, &terms.list)
}

// Adds what is due.
fn add_due(
    alloc: Global,
    bank: &mut Bank,
    classes: &Classes,
    listed: &mut OriginList,
    made: &mut Made,
) -> Result<(), AllocError>
    requires bank { IsBankOf (view.classes classes.now) bank.old }
    requires limits { IsWithinLimits (view.classes classes.now) }
    requires list { HasFound bank.old listed.old.list }
    requires made { AreMade (view.classes classes.now) bank.old made.old }
    ensures added { OnOk result (Holds bank.new listed.new.list (with_formulas (formulas_of bank.old listed.old.list) (spec.due (view.classes classes.now) (formulas_of bank.old listed.old.list)))) }
    ensures noted { OnOk result (StillCome (view.classes classes.now) bank.old (formulas_of bank.old listed.old.list) listed.old.origins.items bank.new (formulas_of bank.new listed.new.list) listed.new.origins.items) }
    ensures made { OnOk result (AreMade (view.classes classes.now) bank.new made.new) }
    ensures grown { IsGrown bank.old bank.new }
{
    let asked = due(alloc, bank, classes, &listed.list)?;
    made.add_said(alloc, bank, classes, listed, asked)
}

/// Adds what is due again until nothing is new. Answers whether there are at most `limit` formulas.
pub(crate) fn close(
    context: &GroundContext<'_>,
    bank: &mut Bank,
    listed: &mut OriginList,
    made: &mut Made,
) -> Result<bool, AllocError>
    requires bank { IsBankOf (view.classes context.now.classes.now) bank.old }
    requires limits { IsWithinLimits (view.classes context.now.classes.now) }
    requires list { HasFound bank.old listed.old.list }
    requires made { AreMade (view.classes context.now.classes.now) bank.old made.old }
    ensures closed { IfOk result (λ few. Comes bank.new few listed.new.list (spec.closed (view.classes context.now.classes.now) context.now.limit (formulas_of bank.old listed.old.list))) }
    ensures noted { OnOk result (StillCome (view.classes context.now.classes.now) bank.old (formulas_of bank.old listed.old.list) listed.old.origins.items bank.new (formulas_of bank.new listed.new.list) listed.new.origins.items) }
    ensures made { OnOk result (AreMade (view.classes context.now.classes.now) bank.new made.new) }
    ensures grown { IsGrown bank.old bank.new }
{
    let limit = context.limit;
    for step in 0..limit {
        let _ = step;
        let before = listed.list.list.len();
        add_due(context.alloc, bank, context.classes, listed, made)?;
        let after = listed.list.list.len();
        if after > limit {
            return Ok(false);
        }
        if after == before {
            return Ok(true);
        }
    }
    Ok(false)
}

// What is asked for first in a round.
fn due_first(
    alloc: Global,
    bank: &Bank,
    classes: &Classes,
    list: &FormulaList,
) -> Result<Vec<Asked>, AllocError>
    requires bank { IsBankOf (view.classes classes.now) bank.now }
    requires limits { IsWithinLimits (view.classes classes.now) }
    requires list { HasFound bank.now list.now }
    ensures { IfOk result (λ v. Asks bank.now v.items (asking.asked_first (view.classes classes.now) (occurring.atoms (formulas_of bank.now list.now)) (occurring.terms (formulas_of bank.now list.now)))) }
{
    let atoms = atoms(alloc, bank, &list.list)?;
    let terms = terms(alloc, bank, &atoms.list)?;
    asked_first(alloc, bank, classes, &atoms.list, &terms.list)
}

// Adds the first instances of a round.
fn add_first(
    alloc: Global,
    bank: &mut Bank,
    classes: &Classes,
    listed: &mut OriginList,
) -> Result<(), AllocError>
    requires bank { IsBankOf (view.classes classes.now) bank.old }
    requires limits { IsWithinLimits (view.classes classes.now) }
    requires list { HasFound bank.old listed.old.list }
    ensures added { OnOk result (Holds bank.new listed.new.list (with_formulas (formulas_of bank.old listed.old.list) (spec.first_step (view.classes classes.now) (formulas_of bank.old listed.old.list)))) }
    ensures noted { OnOk result (StillCome (view.classes classes.now) bank.old (formulas_of bank.old listed.old.list) listed.old.origins.items bank.new (formulas_of bank.new listed.new.list) listed.new.origins.items) }
    ensures grown { IsGrown bank.old bank.new }
{
    let asked = due_first(alloc, bank, classes, &listed.list)?;
    add_said(alloc, bank, classes, listed, &asked)
}

// Adds the instances of a quantified formula, and closes the list, which stays closed where nothing is new.
fn at_forall(
    context: &GroundContext<'_>,
    bank: &mut Bank,
    listed: &mut OriginList,
    made: &mut Made,
    f: FormulaId,
) -> Result<bool, AllocError>
    requires bank { IsBankOf (view.classes context.now.classes.now) bank.old }
    requires limits { IsWithinLimits (view.classes context.now.classes.now) }
    requires list { HasFound bank.old listed.old.list }
    requires made { AreMade (view.classes context.now.classes.now) bank.old made.old }
    requires was_closed { IsClosed (view.classes context.now.classes.now) context.now.limit (formulas_of bank.old listed.old.list) }
    requires formula { HasFormula bank.old f }
    ensures closed { IfOk result (λ few. Comes bank.new few listed.new.list (spec.closed (view.classes context.now.classes.now) context.now.limit (with_formulas (formulas_of bank.old listed.old.list) (forall_instances (formulas_of bank.old listed.old.list) (formula_at bank.old f))))) }
    ensures noted { OnOk result (Contains (occurring.quantified (formulas_of bank.old listed.old.list)) (formula_at bank.old f) → StillCome (view.classes context.now.classes.now) bank.old (formulas_of bank.old listed.old.list) listed.old.origins.items bank.new (formulas_of bank.new listed.new.list) listed.new.origins.items) }
    ensures made { OnOk result (AreMade (view.classes context.now.classes.now) bank.new made.new) }
    ensures grown { IsGrown bank.old bank.new }
{
    let before = listed.list.list.len();
    add_forall_instances(context.alloc, bank, context.classes, listed, f)?;
    let after = listed.list.list.len();
    if after == before {
        return Ok(true);
    }
    close(context, bank, listed, made)
}

// Does so with each of them, from the last to the first.
fn at_foralls(
    context: &GroundContext<'_>,
    bank: &mut Bank,
    listed: &mut OriginList,
    made: &mut Made,
    fs: &[FormulaId],
) -> Result<bool, AllocError>
    requires bank { IsBankOf (view.classes context.now.classes.now) bank.old }
    requires limits { IsWithinLimits (view.classes context.now.classes.now) }
    requires list { HasFound bank.old listed.old.list }
    requires made { AreMade (view.classes context.now.classes.now) bank.old made.old }
    requires was_closed { IsClosed (view.classes context.now.classes.now) context.now.limit (formulas_of bank.old listed.old.list) }
    requires formulas { HasFormulas bank.old fs.now }
    ensures closed { IfOk result (λ few. Comes bank.new few listed.new.list (spec.foralls_step (view.classes context.now.classes.now) context.now.limit (reverse (formulas_at bank.old fs.now)) (formulas_of bank.old listed.old.list))) }
    ensures noted { OnOk result (Includes (occurring.quantified (formulas_of bank.old listed.old.list)) (formulas_at bank.old fs.now) → StillCome (view.classes context.now.classes.now) bank.old (formulas_of bank.old listed.old.list) listed.old.origins.items bank.new (formulas_of bank.new listed.new.list) listed.new.origins.items) }
    ensures made { OnOk result (AreMade (view.classes context.now.classes.now) bank.new made.new) }
    ensures grown { IsGrown bank.old bank.new }
{
    let mut i = fs.len();
    while i > 0 {
        i -= 1;
        let few = at_forall(context, bank, listed, made, fs[i])?;
        if !few {
            return Ok(false);
        }
    }
    Ok(true)
}

// Adds the first instances of a round and closes the list.
fn first(
    context: &GroundContext<'_>,
    bank: &mut Bank,
    listed: &mut OriginList,
    made: &mut Made,
) -> Result<bool, AllocError>
    requires bank { IsBankOf (view.classes context.now.classes.now) bank.old }
    requires limits { IsWithinLimits (view.classes context.now.classes.now) }
    requires list { HasFound bank.old listed.old.list }
    requires made { AreMade (view.classes context.now.classes.now) bank.old made.old }
    ensures closed { IfOk result (λ few. Comes bank.new few listed.new.list (spec.closed (view.classes context.now.classes.now) context.now.limit (with_formulas (formulas_of bank.old listed.old.list) (spec.first_step (view.classes context.now.classes.now) (formulas_of bank.old listed.old.list))))) }
    ensures noted { OnOk result (StillCome (view.classes context.now.classes.now) bank.old (formulas_of bank.old listed.old.list) listed.old.origins.items bank.new (formulas_of bank.new listed.new.list) listed.new.origins.items) }
    ensures made { OnOk result (AreMade (view.classes context.now.classes.now) bank.new made.new) }
    ensures grown { IsGrown bank.old bank.new }
{
    add_first(context.alloc, bank, context.classes, listed)?;
    close(context, bank, listed, made)
}

// Does a round, of which these are the quantified formulas.
fn round_with(
    context: &GroundContext<'_>,
    bank: &mut Bank,
    listed: &mut OriginList,
    made: &mut Made,
    fs: &[FormulaId],
) -> Result<bool, AllocError>
    requires bank { IsBankOf (view.classes context.now.classes.now) bank.old }
    requires limits { IsWithinLimits (view.classes context.now.classes.now) }
    requires list { HasFound bank.old listed.old.list }
    requires made { AreMade (view.classes context.now.classes.now) bank.old made.old }
    requires formulas { HasFormulas bank.old fs.now }
    ensures done { IfOk result (λ few. Comes bank.new few listed.new.list (option_and_then (spec.foralls_step (view.classes context.now.classes.now) context.now.limit (reverse (formulas_at bank.old fs.now))) (spec.closed (view.classes context.now.classes.now) context.now.limit (with_formulas (formulas_of bank.old listed.old.list) (spec.first_step (view.classes context.now.classes.now) (formulas_of bank.old listed.old.list)))))) }
    ensures noted { OnOk result (Includes (occurring.quantified (formulas_of bank.old listed.old.list)) (formulas_at bank.old fs.now) → StillCome (view.classes context.now.classes.now) bank.old (formulas_of bank.old listed.old.list) listed.old.origins.items bank.new (formulas_of bank.new listed.new.list) listed.new.origins.items) }
    ensures made { OnOk result (AreMade (view.classes context.now.classes.now) bank.new made.new) }
    ensures grown { IsGrown bank.old bank.new }
{
    let few = first(context, bank, listed, made)?;
    if !few {
        return Ok(false);
    }
    at_foralls(context, bank, listed, made, fs)
}

// Does a round.
fn round(
    context: &GroundContext<'_>,
    bank: &mut Bank,
    listed: &mut OriginList,
    made: &mut Made,
) -> Result<bool, AllocError>
    requires bank { IsBankOf (view.classes context.now.classes.now) bank.old }
    requires limits { IsWithinLimits (view.classes context.now.classes.now) }
    requires list { HasFound bank.old listed.old.list }
    requires made { AreMade (view.classes context.now.classes.now) bank.old made.old }
    ensures done { IfOk result (λ few. Comes bank.new few listed.new.list (spec.round (view.classes context.now.classes.now) context.now.limit (formulas_of bank.old listed.old.list))) }
    ensures noted { OnOk result (StillCome (view.classes context.now.classes.now) bank.old (formulas_of bank.old listed.old.list) listed.old.origins.items bank.new (formulas_of bank.new listed.new.list) listed.new.origins.items) }
    ensures made { OnOk result (AreMade (view.classes context.now.classes.now) bank.new made.new) }
    ensures grown { IsGrown bank.old bank.new }
{
    let found = quantified(context.alloc, bank, &listed.list.list)?;
    round_with(context, bank, listed, made, &found.list)
}

// Does so many rounds.
fn rounds(
    context: &GroundContext<'_>,
    bank: &mut Bank,
    listed: &mut OriginList,
    made: &mut Made,
    count: usize,
) -> Result<bool, AllocError>
    requires bank { IsBankOf (view.classes context.now.classes.now) bank.old }
    requires limits { IsWithinLimits (view.classes context.now.classes.now) }
    requires list { HasFound bank.old listed.old.list }
    requires made { AreMade (view.classes context.now.classes.now) bank.old made.old }
    ensures done { IfOk result (λ few. Comes bank.new few listed.new.list (spec.rounds_of (view.classes context.now.classes.now) context.now.limit count (formulas_of bank.old listed.old.list))) }
    ensures noted { OnOk result (StillCome (view.classes context.now.classes.now) bank.old (formulas_of bank.old listed.old.list) listed.old.origins.items bank.new (formulas_of bank.new listed.new.list) listed.new.origins.items) }
    ensures made { OnOk result (AreMade (view.classes context.now.classes.now) bank.new made.new) }
    ensures grown { IsGrown bank.old bank.new }
{
    for number in 0..count {
        let _ = number;
        let few = round(context, bank, listed, made)?;
        if !few {
            return Ok(false);
        }
    }
    Ok(true)
}

/// Closes a list and does so many rounds. Answers whether there were never more than `limit` formulas.
pub(crate) fn closed_rounds(
    context: &GroundContext<'_>,
    bank: &mut Bank,
    listed: &mut OriginList,
    made: &mut Made,
    count: usize,
) -> Result<bool, AllocError>
    requires bank { IsBankOf (view.classes context.now.classes.now) bank.old }
    requires limits { IsWithinLimits (view.classes context.now.classes.now) }
    requires list { HasFound bank.old listed.old.list }
    requires made { AreMade (view.classes context.now.classes.now) bank.old made.old }
    ensures done { IfOk result (λ few. Comes bank.new few listed.new.list (option_and_then (spec.rounds_of (view.classes context.now.classes.now) context.now.limit count) (spec.closed (view.classes context.now.classes.now) context.now.limit (formulas_of bank.old listed.old.list)))) }
    ensures noted { OnOk result (StillCome (view.classes context.now.classes.now) bank.old (formulas_of bank.old listed.old.list) listed.old.origins.items bank.new (formulas_of bank.new listed.new.list) listed.new.origins.items) }
    ensures made { OnOk result (AreMade (view.classes context.now.classes.now) bank.new made.new) }
    ensures grown { IsGrown bank.old bank.new }
{
    let few = close(context, bank, listed, made)?;
    if !few {
        return Ok(false);
    }
    rounds(context, bank, listed, made, count)
}
