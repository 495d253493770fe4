// One obligation.

ghost use Rattle.std.specs.Prelude.{◌≡◌, ◌∷◌, [], ◌≤◌, length};
ghost use Rattle.ss_core.specs.View as view;
ghost use Rattle.ss_core.specs.Chain.{IsWithinLimits};
ghost use Rattle.ss_terms.specs.Forms.{formula_at, formulas_at, HasFormula, HasFormulas, IsBankOf, IsGrown};
ghost use Rattle.ss_logic_means.specs.Steps.{Derives};
ghost use Rattle.ss_logic_means.specs.Scenes.{AreInvariants};
ghost use Rattle.ss_logic_means.specs.Sorts.{AreWellFormed};
ghost use Rattle.ss_deriv.specs.Lines.{lines_of};
ghost use Rattle.ss_vcgen_builder.specs.Builder.{obligation_at, IsPlaced};
ghost use Rattle.ss_search_answers.specs.Found.{IsRefutedBy};
ghost use Rattle.ss_vcgen_safe.specs.Formed.{IsWellFormed};
ghost use Rattle.ss_sound.specs.Decided.{IsDerivedBy, IsCountered, IsOverBudget, IsSpentOn, IfDerived, IfRefuted, IfOver};

use ss_core::Core;
use ss_deriv::Derivation;
use ss_search::{Budget, Countermodel, Found, Options, Search};
use ss_terms::{Bank, FormulaId, Obligation};
use ss_vcgen_builder::Listed;
use std::alloc::AllocError;

/// What was found of one obligation.
#[derive(Drop)]
pub(crate) enum Decision {
    /// It has this derivation.
    Derived(Derivation),
    /// This model refutes its ground form.
    Refuted(Countermodel),
    /// Neither was found within this budget.
    Over(Budget),
}

// What the search finds of an obligation. An error is want of memory.
fn decide_lent(
    search: &mut Search,
    bank: &mut Bank,
    program: &Core,
    obligation: &Obligation<'_>,
    options: &Options,
) -> Result<Decision, AllocError>
    requires bank { IsBankOf (view.classes program.now.classes) bank.old }
    requires limits { IsWithinLimits (view.classes program.now.classes) }
    requires invariants { AreInvariants (view.classes program.now.classes) }
    requires premises { HasFormulas bank.old obligation.now.premises.now }
    requires goal { HasFormula bank.old obligation.now.goal }
    requires formed { AreWellFormed (view.classes program.now.classes) [] (formula_at bank.old obligation.now.goal ∷ formulas_at bank.old obligation.now.premises.now) }
    ensures derived { IfDerived result (λ d. Derives (view.classes program.now.classes) (formulas_at bank.old obligation.now.premises.now) (formula_at bank.old obligation.now.goal) (lines_of bank.new d)) }
    ensures refuted { IfRefuted result (IsRefutedBy (view.classes program.now.classes) options.now (formulas_at bank.old obligation.now.premises.now) (formula_at bank.old obligation.now.goal)) }
    ensures over { IfOver result (IsSpentOn (view.classes program.now.classes) options.now (formulas_at bank.old obligation.now.premises.now) (formula_at bank.old obligation.now.goal)) }
    ensures grown { IsGrown bank.old bank.new }
{
    match search.prove(bank, program, obligation, options) {
        Found::Memory => Err(AllocError),
        Found::Spent { splits } => Ok(Decision::Over(Budget::Splits(splits))),
        Found::TooMany { limit } => Ok(Decision::Over(Budget::Instances(limit))),
        Found::Countered(model) => Ok(Decision::Refuted(model)),
        Found::Proved(derivation) => Ok(Decision::Derived(derivation)),
    }
}

/// Decides an obligation whose premises are a part of the trail. An error is want of memory.
pub(crate) fn decide(
    search: &mut Search,
    bank: &mut Bank,
    program: &Core,
    trail: &[FormulaId],
    listed: &Listed,
    options: &Options,
) -> Result<Decision, AllocError>
    requires bank { IsBankOf (view.classes program.now.classes) bank.old }
    requires limits { IsWithinLimits (view.classes program.now.classes) }
    requires invariants { AreInvariants (view.classes program.now.classes) }
    requires trail { HasFormulas bank.old trail.now }
    requires placed { IsPlaced bank.old (length trail.now) listed.now }
    requires formed { IsWellFormed (view.classes program.now.classes) (obligation_at bank.old trail.now listed.now) }
    ensures derived { IfDerived result (λ d. IsDerivedBy (view.classes program.now.classes) (obligation_at bank.old trail.now listed.now) (lines_of bank.new d)) }
    ensures refuted { IfRefuted result (IsCountered (view.classes program.now.classes) options.now (obligation_at bank.old trail.now listed.now)) }
    ensures over { IfOver result (IsOverBudget (view.classes program.now.classes) options.now (obligation_at bank.old trail.now listed.now)) }
    ensures grown { IsGrown bank.old bank.new }
{
    let obligation = listed.obligation(trail);
    decide_lent(search, bank, program, &obligation, options)
}
