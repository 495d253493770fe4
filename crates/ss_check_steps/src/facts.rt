// The formulas that lines make known.

ghost use Rattle.std.specs.Prelude.{◌≡◌, ℕ, List, [], ◌∷◌, ◌++◌, Some, None, true, option_and_then, slice_get, IfOk};
ghost use Rattle.ss_logic.specs.Equal.{same_term};
ghost use Rattle.ss_logic.specs.Shapes.{when, equal};
ghost use Rattle.ss_logic_means.specs.Steps.{part_of, walk, is_congruent, is_swapped};
ghost use Rattle.ss_terms.specs.Forms.{formula_at, formulas_at, term_at, HasTerm, HasFormula, HasFormulas, IsGrown};
ghost use Rattle.ss_terms.specs.Numbered.{IsNumberOf};

use crate::reads::{is_congruent_at, is_swapped_at, known_at, part_at, walk_at};
use ss_terms::{Arguments, Bank, Formula, FormulaId, Predicate, TermId};
use std::alloc::{AllocError, Global};

/// A part of a known `and`.
pub fn part(bank: &Bank, known: &[FormulaId], i: usize, j: usize) -> Option<FormulaId>
    requires { HasFormulas bank.now known.now }
    ensures { IsNumberOf bank.now result (option_and_then (part_of j) (slice_get (formulas_at bank.now known.now) i)) }
{
    match known_at(bank, known, i) {
        Some(f) => part_at(bank, f, j),
        None => None,
    }
}

/// The equality of two terms.
fn equality(alloc: Global, bank: &mut Bank, x: TermId, y: TermId) -> Result<FormulaId, AllocError>
    requires left { HasTerm bank.old x }
    requires right { HasTerm bank.old y }
    ensures at { IfOk result (λ f. HasFormula bank.new f × (formula_at bank.new f ≡ equal (term_at bank.old x) (term_at bank.old y))) }
    ensures grown { IsGrown bank.old bank.new }
{
    let arguments = Arguments::from_slice(alloc, &[x, y])?;
    bank.formula(Formula::Literal {
        holds: true,
        predicate: Predicate::Equal,
        arguments,
    })
}

/// The equality at the ends of a path.
pub fn chain(
    alloc: Global,
    bank: &mut Bank,
    known: &[FormulaId],
    x: TermId,
    y: TermId,
    path: &[usize],
) -> Result<Option<FormulaId>, AllocError>
    requires known { HasFormulas bank.old known.now }
    requires left { HasTerm bank.old x }
    requires right { HasTerm bank.old y }
    ensures fact { IfOk result (λ o. IsNumberOf bank.new o (option_and_then (λ z. when (same_term z (term_at bank.old y)) (equal (term_at bank.old x) (term_at bank.old y))) (walk (formulas_at bank.old known.now) (term_at bank.old x) path.now))) }
    ensures grown { IsGrown bank.old bank.new }
{
    let Some(z) = walk_at(bank, known, x, path) else {
        return Ok(None);
    };
    if !bank.is_same_term(z, y) {
        return Ok(None);
    }
    let f = equality(alloc, bank, x, y)?;
    Ok(Some(f))
}

/// The equality of one function at equal arguments.
pub fn cong(
    alloc: Global,
    bank: &mut Bank,
    known: &[FormulaId],
    x: TermId,
    y: TermId,
    js: &[usize],
) -> Result<Option<FormulaId>, AllocError>
    requires known { HasFormulas bank.old known.now }
    requires left { HasTerm bank.old x }
    requires right { HasTerm bank.old y }
    ensures fact { IfOk result (λ o. IsNumberOf bank.new o (when (is_congruent (formulas_at bank.old known.now) js.now (term_at bank.old x) (term_at bank.old y)) (equal (term_at bank.old x) (term_at bank.old y)))) }
    ensures grown { IsGrown bank.old bank.new }
{
    if !is_congruent_at(bank, known, js, x, y) {
        return Ok(None);
    }
    let f = equality(alloc, bank, x, y)?;
    Ok(Some(f))
}

/// The literal that is a known one at equal arguments.
pub fn swap(
    bank: &Bank,
    known: &[FormulaId],
    i: usize,
    f: FormulaId,
    js: &[usize],
) -> Option<FormulaId>
    requires known { HasFormulas bank.now known.now }
    requires formula { HasFormula bank.now f }
    ensures { IsNumberOf bank.now result (option_and_then (λ g. when (is_swapped (formulas_at bank.now known.now) js.now g (formula_at bank.now f)) (formula_at bank.now f)) (slice_get (formulas_at bank.now known.now) i)) }
{
    let Some(g) = known_at(bank, known, i) else {
        return None;
    };
    if is_swapped_at(bank, known, js, g, f) {
        Some(f)
    } else {
        None
    }
}
