// Lines that open and close cases, and what is known more in one.

ghost use Rattle.std.specs.Prelude.{◌≡◌, ℕ, List, [], ◌∷◌, ◌++◌, Some, None, true, false, slice_get, IfOk};
ghost use Rattle.ss_core.specs.View as view;
ghost use Rattle.ss_logic_means.specs.Steps.{State, Open, Between, cases_of, open_cases, split_case, cut_case, close_case};
ghost use Rattle.ss_terms.specs.Forms.{formula_at, formulas_at, HasFormula, HasFormulas, IsBankOf};
ghost use Rattle.ss_check_steps.specs.Numbered.{AreNumbersOf, IsStepped};
ghost use Rattle.ss_check_steps.specs.Stack.{AreCases, state_of, waiting_of};

use crate::cases::{Cases, open_all};
use crate::literals::is_cut_at;
use crate::reads::{is_clash_at, known_at};
use ss_core::Classes;
use ss_terms::{Bank, Formula, FormulaId};
use std::alloc::{AllocError, Global};

/// The cases of an `or` with this many parts.
fn cases_at(
    alloc: Global,
    bank: &Bank,
    f: FormulaId,
    count: usize,
) -> Result<Option<Vec<FormulaId>>, AllocError>
    requires { HasFormula bank.now f }
    ensures { IfOk result (λ o. AreNumbersOf bank.now o (cases_of count (formula_at bank.now f))) }
{
    match bank.formula_node(f) {
        Formula::Or(parts) => {
            if parts.len() != count {
                return Ok(None);
            }
            let parts = Vec::from_slice(alloc, parts)?;
            Ok(Some(parts))
        }
        _ => Ok(None),
    }
}

/// Closes the case, and lets one case wait for each of the formulas.
fn open_at(bank: &Bank, cases: &mut Cases, fs: &[FormulaId]) -> Result<(), AllocError>
    requires fine { AreCases bank.now cases.old.known.items cases.old.waiting.items }
    requires formulas { HasFormulas bank.now fs.now }
    ensures fine { IfOk result (λ _. AreCases bank.now cases.new.known.items cases.new.waiting.items) }
    ensures state { IfOk result (λ _. open_cases (formulas_at bank.now cases.old.known.items) (waiting_of bank.now cases.old.known.items cases.old.waiting.items) (formulas_at bank.now fs.now) ≡ state_of bank.now cases.new.is_open cases.new.known.items cases.new.waiting.items) }
{
    let _ = bank;
    open_all(cases, fs)?;
    Ok(())
}

/// Opens the cases of an `or`.
pub fn split(
    alloc: Global,
    bank: &Bank,
    cases: &mut Cases,
    i: usize,
    k: usize,
) -> Result<bool, AllocError>
    requires { AreCases bank.now cases.old.known.items cases.old.waiting.items }
    ensures fine { IfOk result (λ _. AreCases bank.now cases.new.known.items cases.new.waiting.items) }
    ensures step { IfOk result (λ yes. IsStepped yes (split_case (formulas_at bank.now cases.old.known.items) (waiting_of bank.now cases.old.known.items cases.old.waiting.items) k (slice_get (formulas_at bank.now cases.old.known.items) i)) (state_of bank.now cases.new.is_open cases.new.known.items cases.new.waiting.items)) }
{
    let Some(f) = known_at(bank, &cases.known, i) else {
        return Ok(false);
    };
    let Some(fs) = cases_at(alloc, bank, f, k)? else {
        return Ok(false);
    };
    open_at(bank, cases, &fs)?;
    Ok(true)
}

/// Opens the cases of an atom and its negation.
pub fn cut(
    bank: &Bank,
    classes: &Classes,
    cases: &mut Cases,
    f: FormulaId,
) -> Result<bool, AllocError>
    requires bank { IsBankOf (view.classes classes.now) bank.now }
    requires fine { AreCases bank.now cases.old.known.items cases.old.waiting.items }
    requires formula { HasFormula bank.now f }
    ensures fine { IfOk result (λ _. AreCases bank.now cases.new.known.items cases.new.waiting.items) }
    ensures step { IfOk result (λ yes. IsStepped yes (cut_case (view.classes classes.now) (formulas_at bank.now cases.old.known.items) (waiting_of bank.now cases.old.known.items cases.old.waiting.items) (formula_at bank.now f)) (state_of bank.now cases.new.is_open cases.new.known.items cases.new.waiting.items)) }
{
    if !is_cut_at(bank, f) {
        return Ok(false);
    }
    if !bank.is_well_formed(f) {
        return Ok(false);
    }
    open_at(bank, cases, &[f, bank.negation(f)])?;
    Ok(true)
}

/// Closes the case by a clash of two facts.
pub fn close(bank: &Bank, cases: &mut Cases, i: usize, j: usize) -> bool
    requires fine { AreCases bank.now cases.old.known.items cases.old.waiting.items }
    requires is_open { cases.old.is_open ≡ true }
    ensures fine { AreCases bank.now cases.new.known.items cases.new.waiting.items }
    ensures step { IsStepped result (close_case (formulas_at bank.now cases.old.known.items) (waiting_of bank.now cases.old.known.items cases.old.waiting.items) i j) (state_of bank.now cases.new.is_open cases.new.known.items cases.new.waiting.items) }
{
    if !is_clash_at(bank, &cases.known, i, j) {
        return false;
    }
    cases.is_open = false;
    true
}

/// One more formula is known.
pub fn learn(bank: &Bank, cases: &mut Cases, f: FormulaId) -> Result<(), AllocError>
    requires fine { AreCases bank.now cases.old.known.items cases.old.waiting.items }
    requires formula { HasFormula bank.now f }
    requires is_open { cases.old.is_open ≡ true }
    ensures fine { IfOk result (λ _. AreCases bank.now cases.new.known.items cases.new.waiting.items) }
    ensures state { IfOk result (λ _. Open (formulas_at bank.now cases.old.known.items ++ formula_at bank.now f ∷ []) (waiting_of bank.now cases.old.known.items cases.old.waiting.items) ≡ state_of bank.now cases.new.is_open cases.new.known.items cases.new.waiting.items) }
{
    let _ = bank;
    cases.known.push(f)?;
    Ok(())
}
