// Obligations for which the engine finds no derivation.

ghost use Rattle.std.specs.Prelude.{◌≡◌, List, [], ◌∷◌, Some, None, IfOk, IfSome};
ghost use Rattle.ss_core.specs.Tree.{ClassTree};
ghost use Rattle.ss_core.specs.View as view;
ghost use Rattle.ss_core.specs.Chain.{IsWithinLimits};
ghost use Rattle.ss_logic_means.specs.Scenes.{AreInvariants};
ghost use Rattle.ss_logic_means.specs.Sorts.{AreWellFormed};
ghost use Rattle.ss_logic_means.specs.Steps.{Derives};
ghost use Rattle.ss_logic_countermodels.specs.Refuting.{IsCountermodel};
ghost use Rattle.ss_terms.specs.Forms.{formula_at, formulas_at, HasFormula, HasFormulas, IsBankOf, IsGrown};
ghost use Rattle.ss_deriv.specs.Lines.{lines_of};
ghost use Rattle.ss_search_procedure_rules.specs.Closed.{AreEnough};
ghost use Rattle.ss_search_procedure.specs.Ground.{IsGroundOf};
ghost use Rattle.ss_search_answers.specs.Found.{IfProved, IfCountered, IfSpent, IfTooMany, IsRefutedBy, IsShort, IsOver};

use ss_core::{Classes, Core};
use ss_logic_countermodels::Countermodel;
use ss_rules::{GroundStop, Grounded, ground_with_origins};
use ss_search_answers::{Found, Options};
use ss_search_candidates::find_candidate;
use ss_search_models::{countermodel, told};
use ss_search_procedure::{Settled, Unsettled, settle_by};
use ss_terms::{Bank, FormulaId, Obligation};
use std::alloc::{AllocError, Global};

/// Searches for a model that refutes the ground form of an obligation. Where none is found, a procedure decides of it, as far as the splits go.
pub(crate) fn refute(
    alloc: Global,
    bank: &mut Bank,
    program: &Core,
    obligation: &Obligation<'_>,
    options: &Options,
) -> Found
    requires bank { IsBankOf (view.classes program.now.classes) bank.old }
    requires limits { IsWithinLimits (view.classes program.now.classes) }
    requires invariants { AreInvariants (view.classes program.now.classes) }
    requires premises { HasFormulas bank.old obligation.now.premises.now }
    requires goal { HasFormula bank.old obligation.now.goal }
    requires formed { AreWellFormed (view.classes program.now.classes) [] (formula_at bank.old obligation.now.goal ∷ formulas_at bank.old obligation.now.premises.now) }
    ensures proved { IfProved result (λ d. Derives (view.classes program.now.classes) (formulas_at bank.old obligation.now.premises.now) (formula_at bank.old obligation.now.goal) (lines_of bank.new d)) }
    ensures countered { IfCountered result (IsRefutedBy (view.classes program.now.classes) options.now (formulas_at bank.old obligation.now.premises.now) (formula_at bank.old obligation.now.goal)) }
    ensures spent { IfSpent result (IsShort (view.classes program.now.classes) options.now (formulas_at bank.old obligation.now.premises.now) (formula_at bank.old obligation.now.goal)) }
    ensures too_many { IfTooMany result (IsOver (view.classes program.now.classes) options.now (formulas_at bank.old obligation.now.premises.now) (formula_at bank.old obligation.now.goal)) }
    ensures grown { IsGrown bank.old bank.new }
{
    let Options {
        rounds,
        splits,
        instances,
    } = *options;
    match ground_with_origins(alloc, bank, program, obligation, rounds, instances) {
        Ok(grounded) => find_model(alloc, bank, &program.classes, obligation, &grounded, splits),
        Err(GroundStop::TooMany { limit }) => Found::TooMany { limit },
        Err(GroundStop::Memory) => Found::Memory,
    }
}

// Searches for a model that refutes the ground form, and lets the procedure decide where none is found.
fn find_model(
    alloc: Global,
    bank: &mut Bank,
    classes: &Classes,
    obligation: &Obligation<'_>,
    grounded: &Grounded,
    splits: u64,
) -> Found
    requires bank { IsBankOf (view.classes classes.now) bank.old }
    requires premises { HasFormulas bank.old obligation.now.premises.now }
    requires goal { HasFormula bank.old obligation.now.goal }
    requires grounded { IsGroundOf (view.classes classes.now) (formulas_at bank.old obligation.now.premises.now) (formula_at bank.old obligation.now.goal) bank.old grounded.now }
    ensures proved { IfProved result (λ d. Derives (view.classes classes.now) (formulas_at bank.old obligation.now.premises.now) (formula_at bank.old obligation.now.goal) (lines_of bank.new d)) }
    ensures countered { IfCountered result (IsCountermodel (view.classes classes.now) (formulas_at bank.old grounded.now.formulas.items)) }
    ensures spent { IfSpent result (λ n. (n ≡ splits) × (AreEnough (view.classes classes.now) (formulas_at bank.old grounded.now.formulas.items) splits → ⊥)) }
    ensures too_many { IfTooMany result (λ limit. ⊥) }
    ensures grown { IsGrown bank.old bank.new }
{
    match candidate_model(alloc, bank, &grounded.formulas) {
        Ok(Some(model)) => Found::Countered(model),
        Ok(None) => decide(alloc, bank, classes, obligation, grounded, splits),
        Err(_) => Found::Memory,
    }
}

// A candidate for a model, where it refutes the formulas.
fn candidate_model(
    alloc: Global,
    bank: &mut Bank,
    formulas: &[FormulaId],
) -> Result<Option<Countermodel>, AllocError>
    requires { HasFormulas bank.old formulas.now }
    ensures refutes { (cs : List ClassTree) → IsBankOf cs bank.old → IfOk result (λ o. IfSome o (IsCountermodel cs (formulas_at bank.old formulas.now))) }
    ensures grown { IsGrown bank.old bank.new }
{
    match find_candidate(alloc, bank, formulas)? {
        Some(found) => countermodel(alloc, bank, formulas, &found.classes, &found.truths),
        None => Ok(None),
    }
}

// What the procedure finds of the ground form.
fn decide(
    alloc: Global,
    bank: &mut Bank,
    classes: &Classes,
    obligation: &Obligation<'_>,
    grounded: &Grounded,
    splits: u64,
) -> Found
    requires bank { IsBankOf (view.classes classes.now) bank.old }
    requires premises { HasFormulas bank.old obligation.now.premises.now }
    requires goal { HasFormula bank.old obligation.now.goal }
    requires grounded { IsGroundOf (view.classes classes.now) (formulas_at bank.old obligation.now.premises.now) (formula_at bank.old obligation.now.goal) bank.old grounded.now }
    ensures proved { IfProved result (λ d. Derives (view.classes classes.now) (formulas_at bank.old obligation.now.premises.now) (formula_at bank.old obligation.now.goal) (lines_of bank.new d)) }
    ensures countered { IfCountered result (IsCountermodel (view.classes classes.now) (formulas_at bank.old grounded.now.formulas.items)) }
    ensures spent { IfSpent result (λ n. (n ≡ splits) × (AreEnough (view.classes classes.now) (formulas_at bank.old grounded.now.formulas.items) splits → ⊥)) }
    ensures too_many { IfTooMany result (λ limit. ⊥) }
    ensures grown { IsGrown bank.old bank.new }
{
    let Ok(decisions) = told(alloc, bank, &grounded.formulas) else {
        return Found::Memory;
    };
    let unsettled = Unsettled {
        grounded,
        decisions: &decisions.list,
    };
    match settle_by(alloc, bank, classes, obligation, &unsettled, splits) {
        Ok(Settled::Closed(derivation)) => Found::Proved(derivation),
        Ok(Settled::Countered(model)) => Found::Countered(model),
        Ok(Settled::Spent) => Found::Spent { splits },
        Err(_) => Found::Memory,
    }
}
