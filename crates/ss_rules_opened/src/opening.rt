// Opening each `exists`.

ghost use Rattle.std.specs.Prelude.{◌≡◌, [], ◌∷◌, ◌++◌, find, map, sum_by, IfOk, OnOk};
ghost use Rattle.ss_core.specs.View as view;
ghost use Rattle.ss_logic.specs.Formulas as logic;
ghost use Rattle.ss_logic.specs.Occurring as occurring;
ghost use Rattle.ss_logic.specs.Opened as spec;
ghost use Rattle.ss_terms.specs.Forms.{terms_at, formula_at, formulas_at, HasTerms, HasFormula, HasFormulas, IsFormulaNumber, IsGrown, IsBankOf};
ghost use Rattle.ss_rules_opened.specs.Opening.{used_after, list_after, IsOpened, IsOpening, HasOpening};
ghost use Rattle.ss_rules_opened.specs.Choices.{choice_of, choices_after, choices_at, HasChoices, StillStart};

use crate::constants::{fresh_constants, joined};
use crate::replacing::all_replaced;
use ss_core::Classes;
use ss_logic::Sort;
use ss_rules_occurring::{QuantifiedFormula, quantified};
use ss_terms::{Bank, Formula, FormulaId, TermId};
use ss_terms_puts::{is_exists, put};
use std::alloc::{AllocError, Global};

/// The terms that are in use, and the list so far.
#[derive(Drop)]
pub(crate) struct Opening {
    pub(crate) used: Vec<TermId>,
    pub(crate) list: Vec<FormulaId>,
}

/// A choice with which a ground form starts.
#[derive(Drop)]
pub struct Choice {
    /// The `exists` that was opened.
    pub whole: FormulaId,
    /// The constants at which it was opened.
    pub constants: Vec<TermId>,
}

/// Fresh constants, and a body at them.
#[derive(Drop)]
pub(crate) struct Opened {
    pub(crate) constants: Vec<TermId>,
    pub(crate) body: FormulaId,
}

// The first `exists` among formulas.
fn found_exists(bank: &Bank, fs: &[FormulaId]) -> Option<FormulaId>
    requires { HasFormulas bank.now fs.now }
    ensures { IsFormulaNumber bank.now (find spec.is_exists (formulas_at bank.now fs.now)) result }
{
    for f in fs {
        if is_exists(bank, *f) {
            return Some(*f);
        }
    }
    None
}

// The first `exists` in formulas, outside quantified ones.
fn first_exists(
    alloc: Global,
    bank: &Bank,
    fs: &[FormulaId],
) -> Result<Option<FormulaId>, AllocError>
    requires { HasFormulas bank.now fs.now }
    ensures { IfOk result (λ o. IsFormulaNumber bank.now (find spec.is_exists (occurring.quantified (formulas_at bank.now fs.now))) o) }
{
    let found = quantified(alloc, bank, fs)?;
    Ok(found_exists(bank, &found.list))
}

// A body at fresh constants of these sorts.
fn at_fresh(
    alloc: Global,
    bank: &mut Bank,
    classes: &Classes,
    used: &[TermId],
    sorts: &[Sort],
    body: FormulaId,
) -> Result<Opened, AllocError>
    requires bank { IsBankOf (view.classes classes.now) bank.old }
    requires used { HasTerms bank.old used.now }
    requires body { HasFormula bank.old body }
    ensures at { IfOk result (λ r. IsOpened bank.new r (spec.fresh_constants sorts.now (terms_at bank.old used.now)) (logic.put (spec.fresh_constants sorts.now (terms_at bank.old used.now)) (formula_at bank.old body))) }
    ensures grown { IsGrown bank.old bank.new }
{
    let constants = fresh_constants(alloc, bank, sorts, used)?;
    let body = put(alloc, bank, classes, &constants, body)?;
    Ok(Opened { constants, body })
}

// Puts what was opened in place of the formula.
fn put_in_place(
    alloc: Global,
    bank: &mut Bank,
    state: &mut Opening,
    f: FormulaId,
    opened: &Opened,
) -> Result<(), AllocError>
    requires state { HasOpening bank.old state.old }
    requires formula { HasFormula bank.old f }
    requires constants { HasTerms bank.old opened.now.constants.items }
    requires body { HasFormula bank.old opened.now.body }
    ensures is { OnOk result (IsOpening bank.new state.new (terms_at bank.old opened.now.constants.items ++ terms_at bank.old state.old.used.items) (map (spec.replaced (formula_at bank.old f) (formula_at bank.old opened.now.body)) (formulas_at bank.old state.old.list.items))) }
    ensures grown { IsGrown bank.old bank.new }
{
    state.list = all_replaced(alloc, bank, f, opened.body, &state.list)?;
    state.used = joined(alloc, &opened.constants, &state.used)?;
    Ok(())
}

// Notes that the formula was opened at the constants.
fn note(
    bank: &Bank,
    choices: &mut Vec<Choice>,
    whole: FormulaId,
    opened: Opened,
) -> Result<(), AllocError>
    requires choices { HasChoices bank.now choices.old.items }
    requires whole { HasFormula bank.now whole }
    requires constants { HasTerms bank.now opened.constants.items }
    ensures has { OnOk result (HasChoices bank.now choices.new.items) }
    ensures noted { OnOk result (choices_at bank.now choices.new.items ≡ choices_at bank.now choices.old.items ++ choice_of (formula_at bank.now whole) (terms_at bank.now opened.constants.items) ∷ []) }
{
    let _ = bank;
    let Opened { constants, body } = opened;
    let _ = body;
    choices.push(Choice { whole, constants })?;
    Ok(())
}

// Opens an `exists`.
fn open_with(
    alloc: Global,
    bank: &mut Bank,
    classes: &Classes,
    state: &mut Opening,
    choices: &mut Vec<Choice>,
    formula: &QuantifiedFormula<'_>,
) -> Result<(), AllocError>
    requires bank { IsBankOf (view.classes classes.now) bank.old }
    requires state { HasOpening bank.old state.old }
    requires choices { HasChoices bank.old choices.old.items }
    requires formula { HasFormula bank.old formula.now.whole }
    requires body { HasFormula bank.old formula.now.body }
    ensures is { OnOk result (IsOpening bank.new state.new (spec.fresh_constants formula.now.sorts.now (terms_at bank.old state.old.used.items) ++ terms_at bank.old state.old.used.items) (map (spec.replaced (formula_at bank.old formula.now.whole) (logic.put (spec.fresh_constants formula.now.sorts.now (terms_at bank.old state.old.used.items)) (formula_at bank.old formula.now.body))) (formulas_at bank.old state.old.list.items))) }
    ensures has { OnOk result (HasChoices bank.new choices.new.items) }
    ensures noted { OnOk result (choices_at bank.new choices.new.items ≡ choices_at bank.old choices.old.items ++ choice_of (formula_at bank.old formula.now.whole) (spec.fresh_constants formula.now.sorts.now (terms_at bank.old state.old.used.items)) ∷ []) }
    ensures grown { IsGrown bank.old bank.new }
{
    let found = at_fresh(
        alloc,
        bank,
        classes,
        &state.used,
        formula.sorts,
        formula.body,
    )?;
    put_in_place(alloc, bank, state, formula.whole, &found)?;
    note(bank, choices, formula.whole, found)
}

// Opens a formula, where it is an `exists`.
fn open_at(
    alloc: Global,
    bank: &mut Bank,
    classes: &Classes,
    state: &mut Opening,
    choices: &mut Vec<Choice>,
    f: FormulaId,
) -> Result<(), AllocError>
    requires bank { IsBankOf (view.classes classes.now) bank.old }
    requires state { HasOpening bank.old state.old }
    requires choices { HasChoices bank.old choices.old.items }
    requires formula { HasFormula bank.old f }
    ensures is { OnOk result (IsOpening bank.new state.new (used_after (formula_at bank.old f) (terms_at bank.old state.old.used.items)) (list_after (formula_at bank.old f) (terms_at bank.old state.old.used.items) (formulas_at bank.old state.old.list.items))) }
    ensures has { OnOk result (HasChoices bank.new choices.new.items) }
    ensures noted { OnOk result (choices_at bank.new choices.new.items ≡ choices_after (formula_at bank.old f) (terms_at bank.old state.old.used.items) (choices_at bank.old choices.old.items)) }
    ensures grown { IsGrown bank.old bank.new }
{
    match bank.formula_node(f) {
        Formula::Exists(sorts, body) => {
            let body = *body;
            let sorts = Vec::from_slice(alloc, sorts)?;
            let formula = QuantifiedFormula {
                whole: f,
                sorts: &sorts,
                body,
            };
            open_with(alloc, bank, classes, state, choices, &formula)
        }
        _ => Ok(()),
    }
}

/// Opens the first `exists` of the list, until there is none, and notes each choice. An error is want of memory.
pub(crate) fn open_all(
    alloc: Global,
    bank: &mut Bank,
    classes: &Classes,
    state: &mut Opening,
    choices: &mut Vec<Choice>,
) -> Result<(), AllocError>
    requires bank { IsBankOf (view.classes classes.now) bank.old }
    requires state { HasOpening bank.old state.old }
    requires choices { HasChoices bank.old choices.old.items }
    ensures has { OnOk result (HasFormulas bank.new state.new.list.items) }
    ensures is { OnOk result (formulas_at bank.new state.new.list.items ≡ spec.opened_from (sum_by spec.exists_count (formulas_at bank.old state.old.list.items)) (terms_at bank.old state.old.used.items) (formulas_at bank.old state.old.list.items)) }
    ensures has_choices { OnOk result (HasChoices bank.new choices.new.items) }
    ensures noted { OnOk result (StillStart (view.classes classes.now) (terms_at bank.old state.old.used.items) (formulas_at bank.old state.old.list.items) (choices_at bank.old choices.old.items) (formulas_at bank.new state.new.list.items) (choices_at bank.new choices.new.items)) }
    ensures grown { IsGrown bank.old bank.new }
{
    while let Some(f) = first_exists(alloc, bank, &state.list)? {
        open_at(alloc, bank, classes, state, choices, f)?;
    }
    Ok(())
}
