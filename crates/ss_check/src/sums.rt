// The weighted sums that lines make known.

ghost use Rattle.std.specs.Prelude.{IfOk};
ghost use Rattle.ss_core.specs.View as view;
ghost use Rattle.ss_logic.specs.Sums.{sum_of};
ghost use Rattle.ss_terms.specs.Forms.{formulas_at, HasFormulas, IsGrown, IsBankOf};
ghost use Rattle.ss_terms.specs.Numbered.{IsNumberOf};

use ss_core::Classes;
use ss_deriv::Sum;
use ss_terms::{Bank, FormulaId};
use std::alloc::{AllocError, Global};

/// What a weighted sum of known facts gives.
pub(crate) fn sum(
    alloc: Global,
    bank: &mut Bank,
    classes: &Classes,
    known: &[FormulaId],
    line: &Sum,
) -> Result<Option<FormulaId>, AllocError>
    requires bank { IsBankOf (view.classes classes.now) bank.old }
    requires known { HasFormulas bank.old known.now }
    ensures fact { IfOk result (λ o. IsNumberOf bank.new o (sum_of (view.classes classes.now) (formulas_at bank.old known.now) line.now.divisor line.now.parts.items)) }
    ensures grown { IsGrown bank.old bank.new }
{
    let _ = classes;
    ss_linear_sums::sum(alloc, bank, known, &line.parts, line.divisor)
}
