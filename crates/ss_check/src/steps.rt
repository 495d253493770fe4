// The check of a derivation, line by line.

ghost use Rattle.std.specs.Prelude.{◌≡◌, ℕ, [], Some, Err, true, false, IfOk, OnOk, IsTrue, ◌↔◌};
ghost use Rattle.ss_core.specs.View as view;
ghost use Rattle.ss_core.specs.Chain.{IsChain, IsWithinLimits, NoAlso};
ghost use Rattle.ss_logic.specs.Formulas.{IsValid};
ghost use Rattle.ss_logic_means.specs.Scenes.{AreInvariants};
ghost use Rattle.ss_logic_means.specs.Steps.{add_fact, fact_of, step_open, step, Derives, first_bad};
ghost use Rattle.ss_terms.specs.Forms.{formula_at, formulas_at, HasFormula, HasFormulas, IsGrown, IsBankOf};
ghost use Rattle.ss_deriv.specs.Lines.{line_in, lines_of, is_within, all_below};
ghost use Rattle.ss_check_steps.specs.Numbered.{IsStepped};
ghost use Rattle.ss_check.specs.Delayed.{meant_state};
ghost use Rattle.ss_check.specs.Within.{LineWithin};
ghost use Rattle.ss_check.specs.declared.steps.CheckStop.TheVariants.{Memory};
ghost use Rattle.ss_check_steps.specs.Stack.{AreCases, state_of, waiting_of};

use crate::context::CheckContext;
use crate::facts::fact;
use crate::told::{Told, told_line};
use ss_check_steps::{Cases, close, cut, learn, reopen, split};
use ss_core::{Classes, Core};
use ss_deriv::{Derivation, Line};
use ss_terms::{Bank, FormulaId, Obligation, TermId};
use std::alloc::{AllocError, Global};

/// Why a derivation is refused.
#[derive(Clone, Copy, Debug, PartialEq, Eq)]
pub enum CheckStop {
    /// The line with this number, counted from 1, is no step. One more than the number of lines stands for an end before
    /// which a case is left.
    BadStep { at: usize },
    /// Memory ran out.
    Memory,
}

impl From<AllocError> for CheckStop {
    ghost from_gives = { λ _ stop. stop ≡ Memory };

    fn from(_error: AllocError) -> CheckStop {
        CheckStop::Memory
    }
}

/// Makes known what a line gives.
fn add(
    bank: &mut Bank,
    context: &CheckContext<'_>,
    cases: &mut Cases,
    line: &Line,
) -> Result<bool, AllocError>
    requires bank { IsBankOf (view.classes context.now.classes.now) bank.old }
    requires limits { IsWithinLimits (view.classes context.now.classes.now) }
    requires premises { HasFormulas bank.old context.now.premises.now }
    requires goal { HasFormula bank.old context.now.goal }
    requires line { LineWithin bank.old line.now }
    requires fine { AreCases bank.old cases.old.known.items cases.old.waiting.items }
    requires is_open { cases.old.is_open ≡ true }
    ensures grown { IsGrown bank.old bank.new }
    ensures fine { IfOk result (λ _. AreCases bank.new cases.new.known.items cases.new.waiting.items) }
    ensures step { IfOk result (λ yes. IsStepped yes (add_fact (view.classes context.now.classes.now) (formulas_at bank.old cases.old.known.items) (waiting_of bank.old cases.old.known.items cases.old.waiting.items) (fact_of (view.classes context.now.classes.now) (formulas_at bank.old context.now.premises.now) (formula_at bank.old context.now.goal) (formulas_at bank.old cases.old.known.items) (line_in bank.old line.now))) (state_of bank.new cases.new.is_open cases.new.known.items cases.new.waiting.items)) }
{
    let Some(f) = fact(bank, context, &cases.known, line)? else {
        return Ok(false);
    };
    if !bank.is_well_formed(f) {
        return Ok(false);
    }
    learn(bank, cases, f)?;
    Ok(true)
}

/// A line in an open case.
fn step_in_case(
    bank: &mut Bank,
    context: &CheckContext<'_>,
    cases: &mut Cases,
    line: &Line,
) -> Result<bool, AllocError>
    requires bank { IsBankOf (view.classes context.now.classes.now) bank.old }
    requires limits { IsWithinLimits (view.classes context.now.classes.now) }
    requires premises { HasFormulas bank.old context.now.premises.now }
    requires goal { HasFormula bank.old context.now.goal }
    requires line { LineWithin bank.old line.now }
    requires fine { AreCases bank.old cases.old.known.items cases.old.waiting.items }
    requires is_open { cases.old.is_open ≡ true }
    ensures grown { IsGrown bank.old bank.new }
    ensures fine { IfOk result (λ _. AreCases bank.new cases.new.known.items cases.new.waiting.items) }
    ensures step { IfOk result (λ yes. IsStepped yes (step_open (view.classes context.now.classes.now) (formulas_at bank.old context.now.premises.now) (formula_at bank.old context.now.goal) (formulas_at bank.old cases.old.known.items) (waiting_of bank.old cases.old.known.items cases.old.waiting.items) (line_in bank.old line.now)) (state_of bank.new cases.new.is_open cases.new.known.items cases.new.waiting.items)) }
{
    match line {
        Line::Split { of, cases: count } => split(context.alloc, bank, cases, *of, *count),
        Line::Cut { formula } => cut(bank, context.classes, cases, *formula),
        Line::Clash { left, right } => Ok(close(bank, cases, *left, *right)),
        _ => add(bank, context, cases, line),
    }
}

/// A line, where each formula that is known stands for itself.
fn step_line(
    bank: &mut Bank,
    context: &CheckContext<'_>,
    cases: &mut Cases,
    line: &Line,
) -> Result<bool, AllocError>
    requires bank { IsBankOf (view.classes context.now.classes.now) bank.old }
    requires limits { IsWithinLimits (view.classes context.now.classes.now) }
    requires premises { HasFormulas bank.old context.now.premises.now }
    requires goal { HasFormula bank.old context.now.goal }
    requires line { LineWithin bank.old line.now }
    requires fine { AreCases bank.old cases.old.known.items cases.old.waiting.items }
    ensures grown { IsGrown bank.old bank.new }
    ensures fine { IfOk result (λ _. AreCases bank.new cases.new.known.items cases.new.waiting.items) }
    ensures step { IfOk result (λ yes. IsStepped yes (step (view.classes context.now.classes.now) (formulas_at bank.old context.now.premises.now) (formula_at bank.old context.now.goal) (state_of bank.old cases.old.is_open cases.old.known.items cases.old.waiting.items) (line_in bank.old line.now)) (state_of bank.new cases.new.is_open cases.new.known.items cases.new.waiting.items)) }
{
    if cases.is_open {
        return step_in_case(bank, context, cases, line);
    }
    match line {
        Line::Case => {
            let yes = reopen(cases)?;
            Ok(yes)
        }
        _ => Ok(false),
    }
}

/// A line in an open case, where formulas that are known stand for others.
fn step_in_open(
    bank: &mut Bank,
    context: &CheckContext<'_>,
    cases: &mut Cases,
    line: &Line,
) -> Result<bool, AllocError>
    requires bank { IsBankOf (view.classes context.now.classes.now) bank.old }
    requires limits { IsWithinLimits (view.classes context.now.classes.now) }
    requires premises { HasFormulas bank.old context.now.premises.now }
    requires goal { HasFormula bank.old context.now.goal }
    requires line { LineWithin bank.old line.now }
    requires fine { AreCases bank.old cases.old.known.items cases.old.waiting.items }
    requires is_open { cases.old.is_open ≡ true }
    ensures grown { IsGrown bank.old bank.new }
    ensures fine { IfOk result (λ _. AreCases bank.new cases.new.known.items cases.new.waiting.items) }
    ensures step { IfOk result (λ yes. IsStepped yes (step (view.classes context.now.classes.now) (formulas_at bank.old context.now.premises.now) (formula_at bank.old context.now.goal) (meant_state (view.classes context.now.classes.now) (state_of bank.old cases.old.is_open cases.old.known.items cases.old.waiting.items)) (line_in bank.old line.now)) (meant_state (view.classes context.now.classes.now) (state_of bank.new cases.new.is_open cases.new.known.items cases.new.waiting.items))) }
{
    let told = told_line(bank, context, &cases.known, line)?;
    match told {
        Told::Plain => {
            let yes = step_line(bank, context, cases, line)?;
            Ok(yes)
        }
        Told::Nothing => Ok(false),
        Told::Fact(f) => {
            learn(bank, cases, f)?;
            Ok(true)
        }
    }
}

/// A line, where formulas that are known stand for others.
fn step_meant(
    bank: &mut Bank,
    context: &CheckContext<'_>,
    cases: &mut Cases,
    line: &Line,
) -> Result<bool, AllocError>
    requires bank { IsBankOf (view.classes context.now.classes.now) bank.old }
    requires limits { IsWithinLimits (view.classes context.now.classes.now) }
    requires premises { HasFormulas bank.old context.now.premises.now }
    requires goal { HasFormula bank.old context.now.goal }
    requires line { LineWithin bank.old line.now }
    requires fine { AreCases bank.old cases.old.known.items cases.old.waiting.items }
    ensures grown { IsGrown bank.old bank.new }
    ensures fine { IfOk result (λ _. AreCases bank.new cases.new.known.items cases.new.waiting.items) }
    ensures step { IfOk result (λ yes. IsStepped yes (step (view.classes context.now.classes.now) (formulas_at bank.old context.now.premises.now) (formula_at bank.old context.now.goal) (meant_state (view.classes context.now.classes.now) (state_of bank.old cases.old.is_open cases.old.known.items cases.old.waiting.items)) (line_in bank.old line.now)) (meant_state (view.classes context.now.classes.now) (state_of bank.new cases.new.is_open cases.new.known.items cases.new.waiting.items))) }
{
    if cases.is_open {
        return step_in_open(bank, context, cases, line);
    }
    let yes = step_line(bank, context, cases, line)?;
    Ok(yes)
}

/// No case is left.
fn is_done(cases: &Cases) -> bool
    ensures { IsTrue result ↔ ((cases.now.is_open ≡ false) × (cases.now.waiting.items ≡ [])) }
{
    !cases.is_open && cases.waiting.is_empty()
}

/// Whether the terms have numbers below this one.
fn are_below(ts: &[TermId], count: usize) -> bool
    ensures { result ≡ all_below count ts.now }
{
    ts.iter().all(|t| t.0 < count)
}

/// Whether a line names terms and formulas below these numbers.
fn is_line_within(line: &Line, terms: usize, formulas: usize) -> bool
    ensures { result ≡ is_within terms formulas line.now }
{
    match line {
        Line::Cut { formula } => formula.0 < formulas,
        Line::Inst { terms: ts, .. } => are_below(ts, terms),
        Line::Choose { formula, constants } => formula.0 < formulas && are_below(constants, terms),
        Line::Rule { arguments, .. } => are_below(arguments, terms),
        Line::Good { arguments, .. } => are_below(arguments, terms),
        Line::Invariants { arguments, .. } => are_below(arguments, terms),
        Line::Chain { left, right, .. } => left.0 < terms && right.0 < terms,
        Line::Cong { left, right, .. } => left.0 < terms && right.0 < terms,
        Line::Swap { formula, .. } => formula.0 < formulas,
        _ => true,
    }
}

/// Checks that a derivation derives the goal of an obligation from its premises. So, in a program whose invariants are
/// admissible, the goal is true in every structure in which the premises are. The first line that is no step is refused, also
/// one that names a term or a formula that the bank doesn't have.
pub fn check(
    alloc: Global,
    bank: &mut Bank,
    program: &Core,
    obligation: &Obligation<'_>,
    derivation: &Derivation,
) -> Result<(), CheckStop>
    requires bank { IsBankOf (view.classes program.now.classes) bank.old }
    requires limits { IsWithinLimits (view.classes program.now.classes) }
    requires premises { HasFormulas bank.old obligation.now.premises.now }
    requires goal { HasFormula bank.old obligation.now.goal }
    ensures derives { OnOk result (Derives (view.classes program.now.classes) (formulas_at bank.old obligation.now.premises.now) (formula_at bank.old obligation.now.goal) (lines_of bank.old derivation.now)) }
    ensures valid { OnOk result (IsChain (view.classes program.now.classes) → NoAlso (view.classes program.now.classes) → AreInvariants (view.classes program.now.classes) → IsValid (view.classes program.now.classes) (formulas_at bank.old obligation.now.premises.now) (formula_at bank.old obligation.now.goal)) }
    ensures refused { (n : ℕ) → result ≡ Err (CheckStop.BadStep n) → Derives (view.classes program.now.classes) (formulas_at bank.old obligation.now.premises.now) (formula_at bank.old obligation.now.goal) (lines_of bank.old derivation.now) → ⊥ }
    ensures first { (n : ℕ) → result ≡ Err (CheckStop.BadStep n) → first_bad (view.classes program.now.classes) (formulas_at bank.old obligation.now.premises.now) (formula_at bank.old obligation.now.goal) (lines_of bank.old derivation.now) ≡ Some n }
    ensures grown { IsGrown bank.old bank.new }
{
    let classes = &program.classes;
    let lines = derivation.lines();
    check_lines(
        alloc,
        bank,
        classes,
        obligation.premises,
        obligation.goal,
        lines,
    )
}

fn check_lines(
    alloc: Global,
    bank: &mut Bank,
    classes: &Classes,
    premises: &[FormulaId],
    goal: FormulaId,
    lines: &[Line],
) -> Result<(), CheckStop>
    requires bank { IsBankOf (view.classes classes.now) bank.old }
    requires limits { IsWithinLimits (view.classes classes.now) }
    requires premises { HasFormulas bank.old premises.now }
    requires goal { HasFormula bank.old goal }
    ensures derives { OnOk result (Derives (view.classes classes.now) (formulas_at bank.old premises.now) (formula_at bank.old goal) (lines_of bank.old lines.now)) }
    ensures valid { OnOk result (IsChain (view.classes classes.now) → NoAlso (view.classes classes.now) → AreInvariants (view.classes classes.now) → IsValid (view.classes classes.now) (formulas_at bank.old premises.now) (formula_at bank.old goal)) }
    ensures first { (n : ℕ) → result ≡ Err (CheckStop.BadStep n) → first_bad (view.classes classes.now) (formulas_at bank.old premises.now) (formula_at bank.old goal) (lines_of bank.old lines.now) ≡ Some n }
    ensures grown { IsGrown bank.old bank.new }
{
    let terms = bank.term_count();
    let formulas = bank.formula_count();
    let context = CheckContext {
        alloc,
        classes,
        premises,
        goal,
    };
    let mut cases = Cases::new(alloc);
    for (i, line) in lines.iter().enumerate() {
        if !is_line_within(line, terms, formulas) {
            return Err(CheckStop::BadStep { at: i + 1 });
        }
        let is_step = step_meant(bank, &context, &mut cases, line)?;
        if !is_step {
            return Err(CheckStop::BadStep { at: i + 1 });
        }
    }
    if !is_done(&cases) {
        return Err(CheckStop::BadStep {
            at: lines.len() + 1,
        });
    }
    Ok(())
}
