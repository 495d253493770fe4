// The ground forms of obligations.

ghost use Rattle.std.specs.Prelude.{◌≡◌, ℕ, [], ◌∷◌, Some, None, Err, IfOk};
ghost use Rattle.ss_core.specs.Chain.{IsWithinLimits};
ghost use Rattle.ss_core.specs.View as view;
ghost use Rattle.ss_logic.specs.Ground.{ground_form};
ghost use Rattle.ss_logic_means.specs.Sorts.{AreWellFormed};
ghost use Rattle.ss_logic_means.specs.Origins.{AreAccepted};
ghost use Rattle.ss_rules.specs.declared.rules.GroundStop.TheVariants.{Memory};
ghost use Rattle.ss_rules_opened.specs.Choices.{choices_at, HasChoices};
ghost use Rattle.ss_rules_opened.specs.Views.{ComeFrom};
ghost use Rattle.ss_terms.specs.Forms.{formula_at, formulas_at, HasFormula, HasFormulas, IsGrown, IsBankOf};

use crate::form::{self, GroundForm, Grounded};
use crate::ground_context::GroundContext;
use ss_core::Core;
use ss_terms::{Bank, FormulaId, Obligation};
use std::alloc::{AllocError, Global};

/// Why a ground form isn't made.
#[derive(Clone, Copy, Debug, PartialEq, Eq)]
pub enum GroundStop {
    /// It has more formulas than this.
    TooMany { limit: u32 },
    /// Memory ran out.
    Memory,
}

impl From<AllocError> for GroundStop {
    ghost from_gives = { λ _ stop. stop ≡ Memory };

    fn from(_error: AllocError) -> GroundStop {
        GroundStop::Memory
    }
}

/// The formulas of the ground form of an obligation after so many rounds, where they are at most `limit`. What the bank had before stays.
pub fn ground(
    alloc: Global,
    bank: &mut Bank,
    program: &Core,
    obligation: &Obligation<'_>,
    rounds: u8,
    limit: u32,
) -> Result<Vec<FormulaId>, GroundStop>
    requires bank { IsBankOf (view.classes program.now.classes) bank.old }
    requires limits { IsWithinLimits (view.classes program.now.classes) }
    requires premises { HasFormulas bank.old obligation.now.premises.now }
    requires goal { HasFormula bank.old obligation.now.goal }
    ensures exact { IfOk result (λ fs. ground_form (view.classes program.now.classes) (formulas_at bank.old obligation.now.premises.now) (formula_at bank.old obligation.now.goal) rounds limit ≡ Some (formulas_at bank.new fs.items)) }
    ensures in_bank { IfOk result (λ fs. HasFormulas bank.new fs.items) }
    ensures too_many { (n : ℕ) → result ≡ Err (GroundStop.TooMany n) → (n ≡ limit) × (ground_form (view.classes program.now.classes) (formulas_at bank.old obligation.now.premises.now) (formula_at bank.old obligation.now.goal) rounds limit ≡ None) }
    ensures grown { IsGrown bank.old bank.new }
{
    let Obligation { premises, goal, .. } = *obligation;
    let context = GroundContext {
        alloc,
        classes: &program.classes,
        limit: limit as usize,
    };
    let rounds = rounds as usize;
    let found = form::ground(&context, bank, premises, goal, rounds)?;
    match found {
        GroundForm::Formulas(formulas) => Ok(formulas),
        GroundForm::TooMany => Err(GroundStop::TooMany { limit }),
    }
}

/// What `ground` makes, and where each formula comes from. Where the premises and the goal are well formed, the lines that make the choices
/// are steps of a derivation.
pub fn ground_with_origins(
    alloc: Global,
    bank: &mut Bank,
    program: &Core,
    obligation: &Obligation<'_>,
    rounds: u8,
    limit: u32,
) -> Result<Grounded, GroundStop>
    requires bank { IsBankOf (view.classes program.now.classes) bank.old }
    requires limits { IsWithinLimits (view.classes program.now.classes) }
    requires premises { HasFormulas bank.old obligation.now.premises.now }
    requires goal { HasFormula bank.old obligation.now.goal }
    ensures exact { IfOk result (λ g. ground_form (view.classes program.now.classes) (formulas_at bank.old obligation.now.premises.now) (formula_at bank.old obligation.now.goal) rounds limit ≡ Some (formulas_at bank.new g.formulas.items)) }
    ensures in_bank { IfOk result (λ g. HasFormulas bank.new g.formulas.items) }
    ensures has_choices { IfOk result (λ g. HasChoices bank.new g.choices.items) }
    ensures origins { IfOk result (λ g. ComeFrom (view.classes program.now.classes) (formulas_at bank.old obligation.now.premises.now) (formula_at bank.old obligation.now.goal) (choices_at bank.new g.choices.items) bank.new (formulas_at bank.new g.formulas.items) g.origins.items) }
    ensures accepted { IfOk result (λ g. AreWellFormed (view.classes program.now.classes) [] (formula_at bank.old obligation.now.goal ∷ formulas_at bank.old obligation.now.premises.now) → AreAccepted (view.classes program.now.classes) (formulas_at bank.old obligation.now.premises.now) (formula_at bank.old obligation.now.goal) (choices_at bank.new g.choices.items)) }
    ensures too_many { (n : ℕ) → result ≡ Err (GroundStop.TooMany n) → (n ≡ limit) × (ground_form (view.classes program.now.classes) (formulas_at bank.old obligation.now.premises.now) (formula_at bank.old obligation.now.goal) rounds limit ≡ None) }
    ensures grown { IsGrown bank.old bank.new }
{
    let Obligation { premises, goal, .. } = *obligation;
    let context = GroundContext {
        alloc,
        classes: &program.classes,
        limit: limit as usize,
    };
    let rounds = rounds as usize;
    let found = form::ground_with_origins(&context, bank, premises, goal, rounds)?;
    match found {
        Some(grounded) => Ok(grounded),
        None => Err(GroundStop::TooMany { limit }),
    }
}
