// Known formulas at their places, and the line that closes a case.

ghost use Rattle.std.specs.Prelude.{◌≡◌, ◌<◌, ◌∷◌, ◌++◌, [], Some, length, slice_get, IfOk};
ghost use Rattle.ss_deriv.specs.declared.line.Line.TheVariants as line;

use ss_deriv::Line;
use ss_terms::FormulaId;
use std::alloc::{AllocError, Global};

/// A formula, and its place among those that are known.
#[derive(Clone, Copy, Drop)]
pub struct Fact {
    /// The formula.
    pub formula: FormulaId,
    /// Its place.
    pub place: usize,
}

/// The formula with this number among some, and its place.
pub(crate) fn fact_at(formulas: &[FormulaId], places: &[usize], number: usize) -> Fact
    requires formula { number < length formulas.now }
    requires place { number < length places.now }
    ensures formula { slice_get formulas.now number ≡ Some result.formula }
    ensures place { slice_get places.now number ≡ Some result.place }
{
    Fact {
        formula: formulas[number],
        place: places[number],
    }
}

/// The lines, and one that closes the case by the formulas at two places.
pub(crate) fn end(mut lines: Vec<Line>, left: usize, right: usize) -> Result<Vec<Line>, AllocError>
    ensures { IfOk result (λ v. v.items ≡ lines.items ++ line.Clash left right ∷ []) }
{
    lines.push(Line::Clash { left, right })?;
    Ok(lines)
}

/// The line alone that closes the case by the formulas at two places.
pub(crate) fn end_at_once(alloc: Global, left: usize, right: usize) -> Result<Vec<Line>, AllocError>
    ensures { IfOk result (λ v. v.items ≡ line.Clash left right ∷ []) }
{
    end(Vec::new(alloc), left, right)
}
