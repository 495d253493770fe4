// The formulas that lines make known, where formulas that are known stand for others.

ghost use Rattle.std.specs.Prelude.{◌≡◌, [], ◌∷◌, ◌++◌, Option, Some, false, map, option_map, option_and_then, slice_get, IfOk, IfSome};
ghost use Rattle.ss_core.specs.View as view;
ghost use Rattle.ss_logic.specs.Formulas as logic;
ghost use Rattle.ss_logic.specs.Formulas.{formulas_from, are_well_formed};
ghost use Rattle.ss_logic_means.specs.Steps.{body_at, part_of, choice, fact_of};
ghost use Rattle.ss_terms.specs.Forms.{term_at, terms_at, formula_at, formulas_at, HasTerm, HasTerms, HasFormula, HasFormulas, IsGrown, IsBankOf};
ghost use Rattle.ss_deriv.specs.Lines.{line_in};
ghost use Rattle.ss_terms.specs.Numbered.{IsNumberOf};
ghost use Rattle.ss_check.specs.Within.{LineWithin};
ghost use Rattle.ss_check.specs.Delayed.{meant, is_plain, AddsFact, IsTold};

use crate::choices::choose;
use crate::context::CheckContext;
use crate::delayed::{all_meant_at, delayed_at, delayed_instance};
use ss_check_steps::{known_at, part};
use ss_core::Classes;
use ss_deriv::Line;
use ss_terms::{Bank, FormulaId, TermId};
use ss_terms_puts::put;
use std::alloc::{AllocError, Global};

/// What a line makes known.
#[derive(Clone, Copy)]
pub(crate) enum Told {
    /// The same, whether known formulas stand for others or not.
    Plain,
    /// Nothing.
    Nothing,
    /// What this formula stands for.
    Fact(FormulaId),
}

/// The fact, where it is well formed.
fn checked(bank: &Bank, classes: &Classes, f: FormulaId) -> Told
    requires bank { IsBankOf (view.classes classes.now) bank.now }
    requires formula { HasFormula bank.now f }
    ensures { (plain : Option logic.Formula) → IsTold (view.classes classes.now) bank.now result (Some (formula_at bank.now f)) plain }
{
    if bank.is_well_formed(f) {
        return Told::Fact(f);
    }
    Told::Nothing
}

/// The fact, where there is one and it is well formed.
fn told_by(bank: &Bank, classes: &Classes, made: Option<FormulaId>) -> Told
    requires bank { IsBankOf (view.classes classes.now) bank.now }
    requires formula { IfSome made (λ f. HasFormula bank.now f) }
    ensures { (fact plain : Option logic.Formula) → IsNumberOf bank.now made fact → IsTold (view.classes classes.now) bank.now result fact plain }
{
    match made {
        Some(f) => checked(bank, classes, f),
        None => Told::Nothing,
    }
}

/// The body of a known `forall` at these terms.
fn told_instance(
    alloc: Global,
    bank: &mut Bank,
    classes: &Classes,
    known: &[FormulaId],
    i: usize,
    ts: &[TermId],
) -> Result<Told, AllocError>
    requires bank { IsBankOf (view.classes classes.now) bank.old }
    requires known { HasFormulas bank.old known.now }
    requires terms { HasTerms bank.old ts.now }
    ensures at { IfOk result (λ r. IsTold (view.classes classes.now) bank.new r (option_and_then (body_at (view.classes classes.now) (terms_at bank.old ts.now)) (slice_get (map (meant (view.classes classes.now)) (formulas_at bank.old known.now)) i)) (option_and_then (body_at (view.classes classes.now) (terms_at bank.old ts.now)) (slice_get (formulas_at bank.old known.now) i))) }
    ensures grown { IsGrown bank.old bank.new }
{
    let Some(g) = delayed_instance(alloc, bank, classes, known, i, ts)? else {
        return Ok(Told::Plain);
    };
    Ok(Told::Fact(g))
}

/// A part of an `and` at a term.
#[tactic(auto, using(crate::proofs::Meant::none_put))]
fn piece(
    alloc: Global,
    bank: &mut Bank,
    classes: &Classes,
    p: FormulaId,
    t: TermId,
    j: usize,
) -> Result<Told, AllocError>
    requires bank { IsBankOf (view.classes classes.now) bank.old }
    requires formula { HasFormula bank.old p }
    requires term { HasTerm bank.old t }
    ensures at { (plain : Option logic.Formula) → IfOk result (λ r. IsTold (view.classes classes.now) bank.new r (option_map (logic.put (term_at bank.old t ∷ [])) (part_of j (formula_at bank.old p))) plain) }
    ensures grown { IsGrown bank.old bank.new }
{
    let Some(q) = part(bank, &[p], 0, j) else {
        return Ok(Told::Nothing);
    };
    let g = put(alloc, bank, classes, &[t], q)?;
    let told = checked(bank, classes, g);
    Ok(told)
}

/// A part of an `and`.
#[tactic(auto, using(crate::proofs::Meant::part_plain))]
fn part_told(
    alloc: Global,
    bank: &mut Bank,
    classes: &Classes,
    f: FormulaId,
    j: usize,
) -> Result<Told, AllocError>
    requires bank { IsBankOf (view.classes classes.now) bank.old }
    requires formula { HasFormula bank.old f }
    ensures at { IfOk result (λ r. IsTold (view.classes classes.now) bank.new r (part_of j (meant (view.classes classes.now) (formula_at bank.old f))) (part_of j (formula_at bank.old f))) }
    ensures grown { IsGrown bank.old bank.new }
{
    let Some((p, t)) = delayed_at(bank, classes, f) else {
        return Ok(Told::Plain);
    };
    piece(alloc, bank, classes, p, t, j)
}

/// A part of a known `and`.
#[tactic(auto, using(crate::proofs::Meant::none_same))]
fn told_part(
    alloc: Global,
    bank: &mut Bank,
    classes: &Classes,
    known: &[FormulaId],
    i: usize,
    j: usize,
) -> Result<Told, AllocError>
    requires bank { IsBankOf (view.classes classes.now) bank.old }
    requires known { HasFormulas bank.old known.now }
    ensures at { IfOk result (λ r. IsTold (view.classes classes.now) bank.new r (option_and_then (part_of j) (slice_get (map (meant (view.classes classes.now)) (formulas_at bank.old known.now)) i)) (option_and_then (part_of j) (slice_get (formulas_at bank.old known.now) i))) }
    ensures grown { IsGrown bank.old bank.new }
{
    let Some(f) = known_at(bank, known, i) else {
        return Ok(Told::Plain);
    };
    part_told(alloc, bank, classes, f, j)
}

/// Whether the formulas are well formed.
fn are_formed(bank: &Bank, classes: &Classes, fs: &[FormulaId]) -> bool
    requires bank { IsBankOf (view.classes classes.now) bank.now }
    requires formulas { HasFormulas bank.now fs.now }
    ensures { result ≡ are_well_formed (view.classes classes.now) [] (formulas_from (formulas_at bank.now fs.now)) }
{
    for f in fs {
        if !bank.is_well_formed(*f) {
            return false;
        }
    }
    true
}

/// For an `exists`: there is nothing of the kind, or these new constants are such.
fn told_choice(
    bank: &mut Bank,
    context: &CheckContext<'_>,
    known: &[FormulaId],
    f: FormulaId,
    ts: &[TermId],
) -> Result<Told, AllocError>
    requires bank { IsBankOf (view.classes context.now.classes.now) bank.old }
    requires premises { HasFormulas bank.old context.now.premises.now }
    requires goal { HasFormula bank.old context.now.goal }
    requires known { HasFormulas bank.old known.now }
    requires formula { HasFormula bank.old f }
    requires terms { HasTerms bank.old ts.now }
    ensures at { IfOk result (λ r. IsTold (view.classes context.now.classes.now) bank.new r (choice (formula_at bank.old context.now.goal ∷ formulas_at bank.old context.now.premises.now ++ map (meant (view.classes context.now.classes.now)) (formulas_at bank.old known.now)) (formula_at bank.old f) (terms_at bank.old ts.now)) (choice (formula_at bank.old context.now.goal ∷ formulas_at bank.old context.now.premises.now ++ formulas_at bank.old known.now) (formula_at bank.old f) (terms_at bank.old ts.now))) }
    ensures grown { IsGrown bank.old bank.new }
{
    if are_formed(bank, context.classes, known) {
        return Ok(Told::Plain);
    }
    let count = bank.formula_count();
    let all = all_meant_at(context.alloc, bank, context.classes, known, count)?;
    let made = choose(bank, context, &all, f, ts)?;
    let told = told_by(bank, context.classes, made);
    Ok(told)
}

/// What a line makes known.
pub(crate) fn told_line(
    bank: &mut Bank,
    context: &CheckContext<'_>,
    known: &[FormulaId],
    line: &Line,
) -> Result<Told, AllocError>
    requires bank { IsBankOf (view.classes context.now.classes.now) bank.old }
    requires premises { HasFormulas bank.old context.now.premises.now }
    requires goal { HasFormula bank.old context.now.goal }
    requires known { HasFormulas bank.old known.now }
    requires line { LineWithin bank.old line.now }
    ensures at { IfOk result (λ r. IsTold (view.classes context.now.classes.now) bank.new r (fact_of (view.classes context.now.classes.now) (formulas_at bank.old context.now.premises.now) (formula_at bank.old context.now.goal) (map (meant (view.classes context.now.classes.now)) (formulas_at bank.old known.now)) (line_in bank.old line.now)) (fact_of (view.classes context.now.classes.now) (formulas_at bank.old context.now.premises.now) (formula_at bank.old context.now.goal) (formulas_at bank.old known.now) (line_in bank.old line.now))) }
    ensures adds { IfOk result (λ r. is_plain r ≡ false → AddsFact (view.classes context.now.classes.now) (formulas_at bank.old context.now.premises.now) (formula_at bank.old context.now.goal) (line_in bank.old line.now)) }
    ensures grown { IsGrown bank.old bank.new }
{
    match line {
        Line::Inst { of, terms } => {
            told_instance(context.alloc, bank, context.classes, known, *of, terms)
        }
        Line::Part { of, part } => {
            told_part(context.alloc, bank, context.classes, known, *of, *part)
        }
        Line::Choose { formula, constants } => {
            told_choice(bank, context, known, *formula, constants)
        }
        _ => Ok(Told::Plain),
    }
}
