// The check of a derivation.

ghost use Rattle.std.specs.Prelude.{◌≡◌, ℕ, Some, Err, OnOk};
ghost use Rattle.ss_core.specs.View as view;
ghost use Rattle.ss_core.specs.Chain.{IsWithinLimits};
ghost use Rattle.ss_logic_means.specs.Steps.{Derives, first_bad};
ghost use Rattle.ss_terms.specs.Forms.{formula_at, formulas_at, HasFormula, HasFormulas, IsBankOf};
ghost use Rattle.ss_deriv.specs.Lines.{lines_of};

use ss_check::{CheckStop, check};
use ss_core::Core;
use ss_deriv::Derivation;
use ss_terms::{Bank, Obligation};
use std::alloc::Global;

/// Whether the lines derive the goal.
pub fn check_of_lines(
    alloc: Global,
    bank: &mut Bank,
    program: &Core,
    obligation: &Obligation<'_>,
    derivation: &Derivation,
) -> Result<(), CheckStop>
    requires bank { IsBankOf (view.classes program.now.classes) bank.old }
    requires limits { IsWithinLimits (view.classes program.now.classes) }
    requires premises { HasFormulas bank.old obligation.now.premises.now }
    requires goal { HasFormula bank.old obligation.now.goal }
    ensures derives { OnOk result (Derives (view.classes program.now.classes) (formulas_at bank.old obligation.now.premises.now) (formula_at bank.old obligation.now.goal) (lines_of bank.old derivation.now)) }
    ensures first { (n : ℕ) → result ≡ Err (CheckStop.BadStep n) → first_bad (view.classes program.now.classes) (formulas_at bank.old obligation.now.premises.now) (formula_at bank.old obligation.now.goal) (lines_of bank.old derivation.now) ≡ Some n }
{
    check(alloc, bank, program, obligation, derivation)
}
