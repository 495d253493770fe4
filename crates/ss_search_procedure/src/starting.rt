// The ground form of an obligation is reached, and then settled.

ghost use Rattle.std.specs.Prelude.{◌≡◌, ◌+◌, ◌<◌, ◌≤◌, ◌^◌, List, length, map, false, Some, slice_get, IfOk, OnOk};
ghost use Rattle.ss_core.specs.Tree.{ClassTree};
ghost use Rattle.ss_core.specs.View as view;
ghost use Rattle.ss_logic.specs.Formulas.{Formula};
ghost use Rattle.ss_logic_means.specs.Steps.{Derives};
ghost use Rattle.ss_logic_countermodels.specs.Refuting.{IsCountermodel, told};
ghost use Rattle.ss_logic_means.specs.Origins.{chosen_by};
ghost use Rattle.ss_terms.specs.Forms.{formula_at, formulas_at, HasFormula, HasFormulas, IsGrown, IsBankOf};
ghost use Rattle.ss_deriv.specs.Lines.{lines_of};
ghost use Rattle.ss_rules_opened.specs.Choices.{choices_at};
ghost use Rattle.ss_search_path.specs.Paths.{IsSame};
ghost use Rattle.ss_search_procedure_rules.specs.Closed.{AreEnough};
ghost use Rattle.ss_search_path.specs.Standing.{body_of, choices_in, Stands, AreStanding};
ghost use Rattle.ss_search_procedure.specs.Starting.{IsGround};
ghost use Rattle.ss_search_reaching.specs.Reaching.{facts_of, Shows};
ghost use Rattle.ss_search_procedure.specs.declared.settling.Settled.TheVariants as settled;
ghost use Rattle.ss_search_procedure.specs.Decisions.{bank_of, settled_ones, IsSetting, IsState, HasLed};
ghost use Rattle.ss_search_procedure.specs.Answers.{IfCountered, IfClosed};
ghost use Rattle.ss_search_procedure.specs.Ground.{IsGroundOf, AreFirst};

use crate::powers::is_within;
use crate::setting::Settling;
use crate::settling::Settled;
use crate::{Begun, Chosen, chosen_formulas, start};
use ss_core::Classes;
use ss_rules::Grounded;
use ss_search_path::{Given, Standing};
use ss_search_reaching::Reaching;
use ss_terms::{Bank, FormulaId, Obligation};
use std::alloc::{AllocError, Global};

/// The ground form of an obligation, and its decisions: its atoms and quantified formulas.
#[derive(Clone, Copy)]
pub struct Unsettled<'a> {
    pub grounded: &'a Grounded,
    pub decisions: &'a [FormulaId],
}

impl Settling<'_> {
    // The next formula is reached too, where it wasn't before.
    fn reach_next(
        &self,
        reaching: &mut Reaching,
        k: usize,
        standing: Standing,
    ) -> Result<(), AllocError>
        requires setting { IsSetting self.now }
        requires next { k < length self.now.formulas.now }
        requires first { AreFirst self.now k reaching.old }
        ensures first { OnOk result (AreFirst self.now (k + 1) reaching.new) }
        ensures path { OnOk result (IsSame reaching.old.path reaching.new.path) }
        ensures shown { OnOk result ((cs : List ClassTree) (f : Formula) → slice_get (settled_ones self.now) k ≡ Some f → Shows cs self.now.given reaching.old → Stands cs self.now.given (facts_of self.now.given reaching.old) standing f → Shows cs self.now.given reaching.new) }
    {
        let f = self.formulas[k];
        if reaching.reached.knows(self.given.bank, f) {
            return Ok(());
        }
        reaching.enter(&self.given, f, standing)
    }

    // The formulas are reached, where nothing was before.
    fn reach_all(&self, reaching: &mut Reaching, standings: &[Standing]) -> Result<(), AllocError>
        requires setting { IsSetting self.now }
        requires count { length standings.now ≡ length self.now.formulas.now }
        requires first { AreFirst self.now 0 reaching.old }
        ensures state { OnOk result (IsState self.now reaching.new) }
        ensures path { OnOk result (IsSame reaching.old.path reaching.new.path) }
        ensures shown { OnOk result ((cs : List ClassTree) → Shows cs self.now.given reaching.old → AreStanding cs self.now.given (facts_of self.now.given reaching.old) (settled_ones self.now) standings.now → Shows cs self.now.given reaching.new) }
    {
        for k in 0..self.formulas.len() {
            self.reach_next(reaching, k, standings[k])?;
        }
        Ok(())
    }

    // The formulas are reached at the end of a path that makes known what they come from.
    fn begin(
        &self,
        chosen: &[FormulaId],
        obligation: &Obligation<'_>,
    ) -> Result<Reaching, AllocError>
        requires setting { IsSetting self.now }
        requires chosen { formulas_at (bank_of self.now) chosen.now ≡ map chosen_by (choices_in self.now.given) }
        requires goal { HasFormula (bank_of self.now) obligation.now.goal }
        requires count { length self.now.given.origins.now ≡ length self.now.formulas.now }
        ensures state { IfOk result (IsState self.now) }
        ensures led { IfOk result (λ r. (cs : List ClassTree) → IsBankOf cs (bank_of self.now) → IsGround cs (formulas_at (bank_of self.now) obligation.now.premises.now) (formula_at (bank_of self.now) obligation.now.goal) self.now.given (settled_ones self.now) → HasLed cs (formulas_at (bank_of self.now) obligation.now.premises.now) (formula_at (bank_of self.now) obligation.now.goal) self.now r) }
    {
        let Obligation { premises, goal, .. } = *obligation;
        let begun = start(&self.given, chosen, premises, goal, self.formulas)?;
        let Begun { path, standings } = begun;
        let mut reaching = Reaching::new(&self.given, path)?;
        self.reach_all(&mut reaching, &standings)?;
        Ok(reaching)
    }

    // Whether all splits of the decisions are allowed.
    fn are_few(&self, splits: u64) -> bool
        ensures some { result ≡ false → 0 < length self.now.decisions.now }
        ensures many { result ≡ false → 2 ^ length self.now.decisions.now ≤ splits → ⊥ }
    {
        self.decisions.is_empty() || is_within(2, self.decisions.len(), splits)
    }

    // Decides of the formulas, as the ground form of an obligation.
    fn settle(
        &self,
        chosen: &[FormulaId],
        obligation: &Obligation<'_>,
        splits: u64,
    ) -> Result<Settled, AllocError>
        requires setting { IsSetting self.now }
        requires chosen { formulas_at (bank_of self.now) chosen.now ≡ map chosen_by (choices_in self.now.given) }
        requires goal { HasFormula (bank_of self.now) obligation.now.goal }
        requires grounded { (cs : List ClassTree) × IsBankOf cs (bank_of self.now) × IsGround cs (formulas_at (bank_of self.now) obligation.now.premises.now) (formula_at (bank_of self.now) obligation.now.goal) self.now.given (settled_ones self.now) }
        ensures closed { (cs : List ClassTree) → IsBankOf cs (bank_of self.now) → IsGround cs (formulas_at (bank_of self.now) obligation.now.premises.now) (formula_at (bank_of self.now) obligation.now.goal) self.now.given (settled_ones self.now) → IfOk result (IfClosed (λ d. Derives cs (formulas_at (bank_of self.now) obligation.now.premises.now) (formula_at (bank_of self.now) obligation.now.goal) (lines_of (bank_of self.now) d))) }
        ensures countered { (cs : List ClassTree) → IsBankOf cs (bank_of self.now) → IfOk result (IfCountered (IsCountermodel cs (settled_ones self.now))) }
        ensures spent { (cs : List ClassTree) → IsBankOf cs (bank_of self.now) → IfOk result (λ s. s ≡ settled.Spent → AreEnough cs (settled_ones self.now) splits → ⊥) }
    {
        let reaching = self.begin(chosen, obligation)?;
        if self.are_few(splits) {
            self.settle_by_all(reaching)
        } else {
            self.settle_nested(reaching, splits)
        }
    }
}

// Decides of the ground form of an obligation, where what the choices make known is in the bank.
fn settle_over<'g>(
    alloc: Global,
    bank: &'g Bank,
    obligation: &Obligation<'_>,
    unsettled: &Unsettled<'g>,
    said: &'g Chosen,
    splits: u64,
) -> Result<Settled, AllocError>
    requires goal { HasFormula bank.now obligation.now.goal }
    requires grounded { (cs : List ClassTree) × IsBankOf cs bank.now × IsGroundOf cs (formulas_at bank.now obligation.now.premises.now) (formula_at bank.now obligation.now.goal) bank.now unsettled.now.grounded.now }
    requires formulas { formulas_at bank.now said.now.formulas.items ≡ map chosen_by (choices_at bank.now unsettled.now.grounded.now.choices.items) }
    requires bodies { formulas_at bank.now said.now.bodies.items ≡ map body_of (choices_at bank.now unsettled.now.grounded.now.choices.items) }
    requires in_bank { HasFormulas bank.now unsettled.now.decisions.now }
    requires decisions { formulas_at bank.now unsettled.now.decisions.now ≡ told (formulas_at bank.now unsettled.now.grounded.now.formulas.items) }
    ensures closed { (cs : List ClassTree) → IsBankOf cs bank.now → IsGroundOf cs (formulas_at bank.now obligation.now.premises.now) (formula_at bank.now obligation.now.goal) bank.now unsettled.now.grounded.now → IfOk result (IfClosed (λ d. Derives cs (formulas_at bank.now obligation.now.premises.now) (formula_at bank.now obligation.now.goal) (lines_of bank.now d))) }
    ensures countered { (cs : List ClassTree) → IsBankOf cs bank.now → IfOk result (IfCountered (IsCountermodel cs (formulas_at bank.now unsettled.now.grounded.now.formulas.items))) }
    ensures spent { (cs : List ClassTree) → IsBankOf cs bank.now → IfOk result (λ s. s ≡ settled.Spent → AreEnough cs (formulas_at bank.now unsettled.now.grounded.now.formulas.items) splits → ⊥) }
{
    let given = Given {
        alloc,
        bank,
        choices: &unsettled.grounded.choices,
        bodies: &said.bodies,
        origins: &unsettled.grounded.origins,
    };
    let settling = Settling {
        given,
        formulas: &unsettled.grounded.formulas,
        decisions: unsettled.decisions,
    };
    settling.settle(&said.formulas, obligation, splits)
}

/// Decides of the ground form of an obligation. As many splits of its decisions are taken as are needed, where so many are allowed. An
/// error is want of memory; what the bank had before stays.
pub fn settle_by(
    alloc: Global,
    bank: &mut Bank,
    classes: &Classes,
    obligation: &Obligation<'_>,
    unsettled: &Unsettled<'_>,
    splits: u64,
) -> Result<Settled, AllocError>
    requires bank { IsBankOf (view.classes classes.now) bank.old }
    requires premises { HasFormulas bank.old obligation.now.premises.now }
    requires goal { HasFormula bank.old obligation.now.goal }
    requires grounded { IsGroundOf (view.classes classes.now) (formulas_at bank.old obligation.now.premises.now) (formula_at bank.old obligation.now.goal) bank.old unsettled.now.grounded.now }
    requires in_bank { HasFormulas bank.old unsettled.now.decisions.now }
    requires decisions { formulas_at bank.old unsettled.now.decisions.now ≡ told (formulas_at bank.old unsettled.now.grounded.now.formulas.items) }
    ensures closed { (cs : List ClassTree) → IsBankOf cs bank.old → IsGroundOf cs (formulas_at bank.old obligation.now.premises.now) (formula_at bank.old obligation.now.goal) bank.old unsettled.now.grounded.now → IfOk result (IfClosed (λ d. Derives cs (formulas_at bank.old obligation.now.premises.now) (formula_at bank.old obligation.now.goal) (lines_of bank.new d))) }
    ensures countered { (cs : List ClassTree) → IsBankOf cs bank.old → IfOk result (IfCountered (IsCountermodel cs (formulas_at bank.old unsettled.now.grounded.now.formulas.items))) }
    ensures spent { (cs : List ClassTree) → IsBankOf cs bank.old → IfOk result (λ s. s ≡ settled.Spent → AreEnough cs (formulas_at bank.old unsettled.now.grounded.now.formulas.items) splits → ⊥) }
    ensures grown { IsGrown bank.old bank.new }
{
    let said = chosen_formulas(alloc, bank, classes, &unsettled.grounded.choices)?;
    let unsettled = Unsettled {
        grounded: &*unsettled.grounded,
        decisions: &*unsettled.decisions,
    };
    settle_over(alloc, bank, obligation, &unsettled, &said, splits)
}
