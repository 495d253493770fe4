// The instances of quantified formulas that lines make known.

ghost use Rattle.std.specs.Prelude.{◌≡◌, ℕ, List, [], ◌∷◌, ◌++◌, Some, None, true, option_and_then, slice_get, IfOk};
ghost use Rattle.ss_core.specs.View as view;
ghost use Rattle.ss_logic_means.specs.Steps.{body_at};
ghost use Rattle.ss_terms.specs.Forms.{formula_at, formulas_at, term_at, terms_at, HasTerm, HasTerms, HasFormula, HasFormulas, IsGrown, IsBankOf};
ghost use Rattle.ss_terms.specs.Numbered.{IsNumberOf};

use crate::reads::known_at;
use ss_core::Classes;
use ss_terms::{Bank, Formula, FormulaId, TermId};
use ss_terms_puts::put;
use std::alloc::{AllocError, Global};

/// The body of a known `forall` at these terms.
pub fn inst(
    alloc: Global,
    bank: &mut Bank,
    classes: &Classes,
    known: &[FormulaId],
    i: usize,
    ts: &[TermId],
) -> Result<Option<FormulaId>, AllocError>
    requires bank { IsBankOf (view.classes classes.now) bank.old }
    requires known { HasFormulas bank.old known.now }
    requires terms { HasTerms bank.old ts.now }
    ensures fact { IfOk result (λ o. IsNumberOf bank.new o (option_and_then (body_at (view.classes classes.now) (terms_at bank.old ts.now)) (slice_get (formulas_at bank.old known.now) i))) }
    ensures grown { IsGrown bank.old bank.new }
{
    let Some(f) = known_at(bank, known, i) else {
        return Ok(None);
    };
    body(alloc, bank, classes, f, ts)
}

/// The body of a `forall` at these terms, where they have the sorts that it binds.
fn body(
    alloc: Global,
    bank: &mut Bank,
    classes: &Classes,
    f: FormulaId,
    ts: &[TermId],
) -> Result<Option<FormulaId>, AllocError>
    requires bank { IsBankOf (view.classes classes.now) bank.old }
    requires formula { HasFormula bank.old f }
    requires terms { HasTerms bank.old ts.now }
    ensures fact { IfOk result (λ o. IsNumberOf bank.new o (body_at (view.classes classes.now) (terms_at bank.old ts.now) (formula_at bank.old f))) }
    ensures grown { IsGrown bank.old bank.new }
{
    match bank.formula_node(f) {
        Formula::Forall(sorts, body) => {
            if !bank.have_sorts(sorts, ts) {
                return Ok(None);
            }
            let body = *body;
            let g = put(alloc, bank, classes, ts, body)?;
            Ok(Some(g))
        }
        _ => Ok(None),
    }
}
