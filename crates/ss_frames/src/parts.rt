// Formulas with one more part, and lists of formulas.

ghost use Rattle.std.specs.Prelude.{◌≡◌, ◌++◌, [], ◌∷◌, IfOk};
ghost use Rattle.ss_logic.specs.Frames.{unless};
ghost use Rattle.ss_logic.specs.Express.{or_of};
ghost use Rattle.ss_terms.specs.Forms.{formula_at, formulas_at, HasFormula, HasFormulas, IsGrown};
ghost use Rattle.ss_frames.specs.Calls.{IsMade};

use ss_terms::{Bank, FormulaId};
use std::alloc::{AllocError, Global};

// One of these, or the last; the last alone, where there is no other.
pub(crate) fn unless(
    alloc: Global,
    b: &mut Bank,
    parts: &[FormulaId],
    last: FormulaId,
) -> Result<FormulaId, AllocError>
    requires parts { HasFormulas b.old parts.now }
    requires last { HasFormula b.old last }
    ensures at { IfOk result (λ f. IsMade b.new f (unless (formulas_at b.old parts.now) (formula_at b.old last))) }
    ensures grown { IsGrown b.old b.new }
{
    match parts {
        [] => Ok(last),
        [_, ..] => either(alloc, b, parts, last),
    }
}

// One of these, or the last.
fn either(
    alloc: Global,
    b: &mut Bank,
    parts: &[FormulaId],
    last: FormulaId,
) -> Result<FormulaId, AllocError>
    requires parts { HasFormulas b.old parts.now }
    requires last { HasFormula b.old last }
    ensures at { IfOk result (λ f. IsMade b.new f (or_of (formulas_at b.old parts.now ++ formula_at b.old last ∷ []))) }
    ensures grown { IsGrown b.old b.new }
{
    let all = joined(alloc, parts, &[last])?;
    b.or(&all)
}

// The formulas of two lists.
pub(crate) fn joined(
    alloc: Global,
    first: &[FormulaId],
    second: &[FormulaId],
) -> Result<Vec<FormulaId>, AllocError>
    ensures { IfOk result (λ v. v.items ≡ first.now ++ second.now) }
{
    let mut all = Vec::from_slice(alloc, first)?;
    all.extend_from_slice(second)?;
    Ok(all)
}
