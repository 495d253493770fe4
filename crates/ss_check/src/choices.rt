// New constants for what there is.

ghost use Rattle.std.specs.Prelude.{◌≡◌, [], ◌∷◌, ◌++◌, ◌&&◌, IfOk};
ghost use Rattle.ss_core.specs.View as view;
ghost use Rattle.ss_logic.specs.Formulas as logic;
ghost use Rattle.ss_logic.specs.Formulas.{neg, formulas_from};
ghost use Rattle.ss_logic_means.specs.Steps as steps;
ghost use Rattle.ss_logic_means.specs.Steps.{choice};
ghost use Rattle.ss_terms.specs.Forms.{formula_at, formulas_at, terms_at, HasTerms, HasFormula, HasFormulas, IsGrown, IsBankOf};
ghost use Rattle.ss_terms.specs.Numbered.{IsNumberOf};

use crate::context::CheckContext;
use ss_core::Classes;
use ss_logic::Sort;
use ss_terms::{Bank, Formula, FormulaId, TermId};
use ss_terms_puts::{are_constants, are_new, put};
use std::alloc::{AllocError, Global};

/// The formulas in which new constants must not occur.
fn used(
    alloc: Global,
    body: FormulaId,
    goal: FormulaId,
    premises: &[FormulaId],
    known: &[FormulaId],
) -> Result<Vec<FormulaId>, AllocError>
    ensures { IfOk result (λ v. v.items ≡ body ∷ goal ∷ premises.now ++ known.now) }
{
    let mut all = vec![in alloc; body, goal]?;
    all.extend_from_slice(premises)?;
    all.extend_from_slice(known)?;
    Ok(all)
}

/// Whether the terms are new constants of these sorts.
fn are_choices(
    bank: &Bank,
    context: &CheckContext<'_>,
    known: &[FormulaId],
    sorts: &[Sort],
    body: FormulaId,
    ts: &[TermId],
) -> Result<bool, AllocError>
    requires premises { HasFormulas bank.now context.now.premises.now }
    requires goal { HasFormula bank.now context.now.goal }
    requires known { HasFormulas bank.now known.now }
    requires body { HasFormula bank.now body }
    requires terms { HasTerms bank.now ts.now }
    ensures { IfOk result (λ yes. yes ≡ (steps.are_constants sorts.now (terms_at bank.now ts.now) && steps.are_new (formula_at bank.now body ∷ formula_at bank.now context.now.goal ∷ formulas_at bank.now context.now.premises.now ++ formulas_at bank.now known.now) (terms_at bank.now ts.now))) }
{
    if !are_constants(bank, sorts, ts) {
        return Ok(false);
    }
    let used = used(context.alloc, body, context.goal, context.premises, known)?;
    are_new(context.alloc, bank, &used, ts)
}

/// There is nothing of the kind, or the constants are such.
fn chosen(
    alloc: Global,
    bank: &mut Bank,
    classes: &Classes,
    f: FormulaId,
    body: FormulaId,
    ts: &[TermId],
) -> Result<Option<FormulaId>, AllocError>
    requires bank { IsBankOf (view.classes classes.now) bank.old }
    requires formula { HasFormula bank.old f }
    requires body { HasFormula bank.old body }
    requires terms { HasTerms bank.old ts.now }
    ensures fact { IfOk result (λ o. IsNumberOf bank.new o (Some (logic.Or (formulas_from (neg (formula_at bank.old f) ∷ logic.put (terms_at bank.old ts.now) (formula_at bank.old body) ∷ []))))) }
    ensures grown { IsGrown bank.old bank.new }
{
    let none = bank.negation(f);
    let such = put(alloc, bank, classes, ts, body)?;
    let either = bank.or(&[none, such])?;
    Ok(Some(either))
}

/// For an `exists`: there is nothing of the kind, or these new constants are such.
pub(crate) fn choose(
    bank: &mut Bank,
    context: &CheckContext<'_>,
    known: &[FormulaId],
    f: FormulaId,
    ts: &[TermId],
) -> Result<Option<FormulaId>, AllocError>
    requires bank { IsBankOf (view.classes context.now.classes.now) bank.old }
    requires premises { HasFormulas bank.old context.now.premises.now }
    requires goal { HasFormula bank.old context.now.goal }
    requires known { HasFormulas bank.old known.now }
    requires formula { HasFormula bank.old f }
    requires terms { HasTerms bank.old ts.now }
    ensures fact { IfOk result (λ o. IsNumberOf bank.new o (choice (formula_at bank.old context.now.goal ∷ formulas_at bank.old context.now.premises.now ++ formulas_at bank.old known.now) (formula_at bank.old f) (terms_at bank.old ts.now))) }
    ensures grown { IsGrown bank.old bank.new }
{
    match bank.formula_node(f) {
        Formula::Exists(sorts, body) => {
            let body = *body;
            if !are_choices(bank, context, known, sorts, body, ts)? {
                return Ok(None);
            }
            chosen(context.alloc, bank, context.classes, f, body, ts)
        }
        _ => Ok(None),
    }
}
