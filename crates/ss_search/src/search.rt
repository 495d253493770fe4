// The obligations of a program, one after the other.

ghost use Rattle.std.specs.Prelude.{◌≡◌, [], ◌∷◌, None, IfOk, IfSome};
ghost use Rattle.ss_core.specs.View as view;
ghost use Rattle.ss_core.specs.Chain.{IsWithinLimits};
ghost use Rattle.ss_logic_means.specs.Scenes.{AreInvariants};
ghost use Rattle.ss_logic_means.specs.Sorts.{AreWellFormed};
ghost use Rattle.ss_logic_means.specs.Steps.{Derives};
ghost use Rattle.ss_terms.specs.Forms.{formula_at, formulas_at, HasFormula, HasFormulas, IsBankOf, IsGrown};
ghost use Rattle.ss_deriv.specs.Lines.{lines_of};
ghost use Rattle.ss_search_answers.specs.Found.{IfProved, IfCountered, IfSpent, IfTooMany, IsRefutedBy, IsShort, IsOver, HasNoModelWithin, IsProvedOrMemory};

use crate::refuting::refute;
use ss_check::{CheckStop, check};
use ss_core::{Classes, Core};
use ss_deriv::Derivation;
use ss_search_answers::{Found, Options};
use ss_search_engine::{Answer, Engine, Limits};
use ss_terms::{Bank, Obligation};
use std::alloc::{AllocError, Global};

// What serves nearly every obligation.
const FIRST: Limits = Limits {
    instances: 6_000,
    splits: 300,
    trials: 6_000,
};

// What is tried where that was spent.
const SECOND: Limits = Limits {
    instances: 20_000,
    splits: 3_000,
    trials: 60_000,
};

// The limits, with no more splits than these, and no more literals that are tried. How many instances may be made stays.
fn with_splits(limits: Limits, splits: u64) -> Limits {
    let most = usize::try_from(splits).unwrap_or(usize::MAX);
    Limits {
        splits: limits.splits.min(most),
        trials: limits.trials.min(most),
        ..limits
    }
}

// Whether nothing is left of a limit that is higher the second time.
fn is_stopped(left: Limits, first: Limits, second: Limits) -> bool {
    left.instances == 0 && first.instances < second.instances
        || left.splits == 0 && first.splits < second.splits
        || left.trials == 0 && first.trials < second.trials
}

// The derivation, where the checker accepts it. What the checker makes is forgotten.
fn accepted(
    alloc: Global,
    bank: &mut Bank,
    program: &Core,
    obligation: &Obligation<'_>,
    derivation: Derivation,
) -> Result<Option<Derivation>, AllocError>
    requires bank { IsBankOf (view.classes program.now.classes) bank.old }
    requires limits { IsWithinLimits (view.classes program.now.classes) }
    requires premises { HasFormulas bank.old obligation.now.premises.now }
    requires goal { HasFormula bank.old obligation.now.goal }
    ensures derives { IfOk result (λ o. IfSome o (λ d. Derives (view.classes program.now.classes) (formulas_at bank.old obligation.now.premises.now) (formula_at bank.old obligation.now.goal) (lines_of bank.new d))) }
    ensures grown { IsGrown bank.old bank.new }
{
    let mark = bank.mark();
    let checked = check(alloc, bank, program, obligation, &derivation);
    bank.forget(mark);
    match checked {
        Ok(()) => Ok(Some(derivation)),
        Err(CheckStop::BadStep { .. }) => Ok(None),
        Err(CheckStop::Memory) => Err(AllocError),
    }
}

/// What the search keeps from one obligation of a program to the next.
#[derive(Drop)]
pub struct Search {
    alloc: Global,
    engine: Engine,
}

impl Search {
    /// The search over a bank that has all terms and formulas of the obligations. An error is want of memory.
    pub fn new(alloc: Global, bank: &mut Bank) -> Result<Search, AllocError>
        ensures { IsGrown bank.old bank.new }
    {
        let engine = Engine::new(alloc, bank)?;
        Ok(Search { alloc, engine })
    }

    /// Searches for a derivation of an obligation whose premises and goal are well formed. Where none is found, it makes the ground form, and
    /// decides whether that has a model, as far as the options go.
    pub fn prove(
        &mut self,
        bank: &mut Bank,
        program: &Core,
        obligation: &Obligation<'_>,
        options: &Options,
    ) -> Found
        requires bank { IsBankOf (view.classes program.now.classes) bank.old }
        requires limits { IsWithinLimits (view.classes program.now.classes) }
        requires invariants { AreInvariants (view.classes program.now.classes) }
        requires premises { HasFormulas bank.old obligation.now.premises.now }
        requires goal { HasFormula bank.old obligation.now.goal }
        requires formed { AreWellFormed (view.classes program.now.classes) [] (formula_at bank.old obligation.now.goal ∷ formulas_at bank.old obligation.now.premises.now) }
        ensures proved { IfProved result (λ d. Derives (view.classes program.now.classes) (formulas_at bank.old obligation.now.premises.now) (formula_at bank.old obligation.now.goal) (lines_of bank.new d)) }
        ensures countered { IfCountered result (IsRefutedBy (view.classes program.now.classes) options.now (formulas_at bank.old obligation.now.premises.now) (formula_at bank.old obligation.now.goal)) }
        ensures spent { IfSpent result (IsShort (view.classes program.now.classes) options.now (formulas_at bank.old obligation.now.premises.now) (formula_at bank.old obligation.now.goal)) }
        ensures too_many { IfTooMany result (IsOver (view.classes program.now.classes) options.now (formulas_at bank.old obligation.now.premises.now) (formula_at bank.old obligation.now.goal)) }
        ensures complete { HasNoModelWithin (view.classes program.now.classes) options.now (formulas_at bank.old obligation.now.premises.now) (formula_at bank.old obligation.now.goal) → IsProvedOrMemory result }
        ensures grown { IsGrown bank.old bank.new }
    {
        let alloc = self.alloc;
        match self.derive(bank, program, obligation, options.splits) {
            Ok(Some(derivation)) => Found::Proved(derivation),
            Ok(None) => refute(alloc, bank, program, obligation, options),
            Err(_) => Found::Memory,
        }
    }

    // Searches for a derivation that the checker accepts.
    fn derive(
        &mut self,
        bank: &mut Bank,
        program: &Core,
        obligation: &Obligation<'_>,
        splits: u64,
    ) -> Result<Option<Derivation>, AllocError>
        requires bank { IsBankOf (view.classes program.now.classes) bank.old }
        requires limits { IsWithinLimits (view.classes program.now.classes) }
        requires premises { HasFormulas bank.old obligation.now.premises.now }
        requires goal { HasFormula bank.old obligation.now.goal }
        ensures derives { IfOk result (λ o. IfSome o (λ d. Derives (view.classes program.now.classes) (formulas_at bank.old obligation.now.premises.now) (formula_at bank.old obligation.now.goal) (lines_of bank.new d))) }
        ensures grown { IsGrown bank.old bank.new }
    {
        let alloc = self.alloc;
        match self.run_engine(bank, &program.classes, obligation, splits)? {
            Answer::Proved(derivation) => accepted(alloc, bank, program, obligation, derivation),
            Answer::Stuck => Ok(None),
        }
    }

    // What the engine finds, and again with more where a limit stopped it that is higher then.
    fn run_engine(
        &mut self,
        bank: &mut Bank,
        classes: &Classes,
        obligation: &Obligation<'_>,
        splits: u64,
    ) -> Result<Answer, AllocError>
        requires bank { IsBankOf (view.classes classes.now) bank.old }
        requires limits { IsWithinLimits (view.classes classes.now) }
        ensures grown { IsGrown bank.old bank.new }
    {
        let Obligation { premises, goal, .. } = *obligation;
        let (first, second) = (with_splits(FIRST, splits), with_splits(SECOND, splits));
        let answer = self.engine.search(bank, classes, premises, goal, first)?;
        match answer {
            Answer::Stuck if is_stopped(self.engine.left(), first, second) => {
                self.engine.search(bank, classes, premises, goal, second)
            }
            _ => Ok(answer),
        }
    }
}

/// Decides one obligation alone, as `Search::prove` does.
pub fn prove(
    alloc: Global,
    bank: &mut Bank,
    program: &Core,
    obligation: &Obligation<'_>,
    options: &Options,
) -> Found
    requires bank { IsBankOf (view.classes program.now.classes) bank.old }
    requires limits { IsWithinLimits (view.classes program.now.classes) }
    requires invariants { AreInvariants (view.classes program.now.classes) }
    requires premises { HasFormulas bank.old obligation.now.premises.now }
    requires goal { HasFormula bank.old obligation.now.goal }
    requires formed { AreWellFormed (view.classes program.now.classes) [] (formula_at bank.old obligation.now.goal ∷ formulas_at bank.old obligation.now.premises.now) }
    ensures proved { IfProved result (λ d. Derives (view.classes program.now.classes) (formulas_at bank.old obligation.now.premises.now) (formula_at bank.old obligation.now.goal) (lines_of bank.new d)) }
    ensures countered { IfCountered result (IsRefutedBy (view.classes program.now.classes) options.now (formulas_at bank.old obligation.now.premises.now) (formula_at bank.old obligation.now.goal)) }
    ensures spent { IfSpent result (IsShort (view.classes program.now.classes) options.now (formulas_at bank.old obligation.now.premises.now) (formula_at bank.old obligation.now.goal)) }
    ensures too_many { IfTooMany result (IsOver (view.classes program.now.classes) options.now (formulas_at bank.old obligation.now.premises.now) (formula_at bank.old obligation.now.goal)) }
    ensures complete { HasNoModelWithin (view.classes program.now.classes) options.now (formulas_at bank.old obligation.now.premises.now) (formula_at bank.old obligation.now.goal) → IsProvedOrMemory result }
    ensures grown { IsGrown bank.old bank.new }
{
    match Search::new(alloc, bank) {
        Ok(mut search) => search.prove(bank, program, obligation, options),
        Err(_) => Found::Memory,
    }
}
