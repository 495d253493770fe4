// Derivations of many lines, and of a line of many steps.

ghost use Rattle.std.specs.Prelude.{◌≡◌};
ghost use Rattle.ss_core.specs.View as view;
ghost use Rattle.ss_core.specs.Chain.{IsWithinLimits};
ghost use Rattle.ss_terms.specs.Forms.{IsBankOf};

use ss_check::check;
use ss_core::{BodyId, Classes, Core, Kind, Place};
use ss_deriv::{Draft, Line};
use ss_logic::{RuleName, Sort};
use ss_terms::{Bank, FormulaId, Obligation, Predicate, Symbol, TermId, field_sorts};
use std::alloc::{AllocError, Global};

// No class is declared, and there is no body.
fn no_class(alloc: Global) -> Core
    ensures { IsWithinLimits (view.classes result.classes) }
{
    Core {
        classes: Classes {
            list: Vec::new(alloc),
        },
        bodies: Vec::new(alloc),
        main: BodyId(0),
    }
}

// Adds the line, where it may come next.
fn add(draft: &mut Draft, line: Line) -> Result<(), AllocError> {
    if draft.allows(&line) {
        draft.add(line)
    } else {
        Ok(())
    }
}

// The first two of these lines give a clash; between are `count` times the two values of a truth value.
fn many(alloc: Global, count: usize, b: TermId) -> Result<Draft, AllocError> {
    let mut draft = Draft::new(alloc);
    add(&mut draft, Line::Premise { number: 0 })?;
    add(&mut draft, Line::Denied)?;
    for i in 0..count {
        let _ = i;
        let arguments = Vec::from_slice(alloc, &[b])?;
        let name = RuleName::Bool;
        add(&mut draft, Line::Rule { name, arguments })?;
    }
    add(&mut draft, Line::Clash { left: 0, right: 1 })?;
    Ok(draft)
}

// From one term to the other and back, `count` times, and to the other.
fn long(alloc: Global, count: usize, left: TermId, right: TermId) -> Result<Draft, AllocError> {
    let mut path = Vec::new(alloc);
    for i in 0..count {
        let _ = i;
        path.push(0)?;
        path.push(0)?;
    }
    path.push(0)?;
    let mut draft = Draft::new(alloc);
    add(&mut draft, Line::Premise { number: 0 })?;
    add(&mut draft, Line::Denied)?;
    add(&mut draft, Line::Chain { left, right, path })?;
    add(&mut draft, Line::Clash { left: 2, right: 1 })?;
    Ok(draft)
}

// Whether the goal follows from itself by the lines.
fn is_accepted(
    alloc: Global,
    bank: &mut Bank,
    program: &Core,
    goal: FormulaId,
    draft: Draft,
) -> bool
    requires bank { IsBankOf (view.classes program.now.classes) bank.old }
    requires limits { IsWithinLimits (view.classes program.now.classes) }
{
    if !bank.has_formula(goal) || !draft.is_finished() {
        return false;
    }
    let obligation = Obligation {
        premises: &[goal],
        goal,
        kind: Kind::Assert,
        place: Place { line: 1, column: 1 },
        body: BodyId(0),
    };
    check(alloc, bank, program, &obligation, &draft.finish()).is_ok()
}

// That a truth value is true, and its term and that of `true`.
fn truth(bank: &mut Bank) -> Result<(FormulaId, TermId, TermId), AllocError>
    ensures { bank.new.fields ≡ bank.old.fields }
{
    let b = bank.apply(Symbol::Constant(Sort::Truth, 0), &[])?;
    let t = bank.apply(Symbol::Fixed(true), &[])?;
    if !bank.has_term(b) || !bank.has_term(t) {
        return Err(AllocError);
    }
    let f = bank.atom(true, Predicate::Equal, &[b, t])?;
    Ok((f, b, t))
}

// Whether the checker accepts so many lines, or one line of so many steps.
fn answer_to(
    alloc: Global,
    bank: &mut Bank,
    program: &Core,
    lines: usize,
    steps: usize,
) -> Result<bool, AllocError>
    requires bank { IsBankOf (view.classes program.now.classes) bank.old }
    requires limits { IsWithinLimits (view.classes program.now.classes) }
{
    let (f, b, t) = truth(bank)?;
    let draft = if lines > 0 {
        many(alloc, lines, b)?
    } else {
        long(alloc, steps / 2, b, t)?
    };
    Ok(is_accepted(alloc, bank, program, f, draft))
}

/// Whether the checker accepts a derivation of so many lines between three others; where there are none, one with a line of so many steps.
pub fn are_accepted(alloc: Global, lines: usize, steps: usize) -> Result<bool, AllocError> {
    let program = no_class(alloc);
    let mut bank = Bank::new(alloc, field_sorts(alloc, &program.classes)?);
    answer_to(alloc, &mut bank, &program, lines, steps)
}
