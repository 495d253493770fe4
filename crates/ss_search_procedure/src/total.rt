// All splits, one decision after the other.

ghost use Rattle.std.specs.Prelude.{◌≤◌, ◌<◌, List, length, IfOk, OnOk};
ghost use Rattle.ss_core.specs.Tree.{ClassTree};
ghost use Rattle.ss_logic_countermodels.specs.Refuting.{IsCountermodel};
ghost use Rattle.ss_terms.specs.Forms.{formula_at, HasFormula, IsBankOf};
ghost use Rattle.ss_search_reached.specs.Following.{IsOpen};
ghost use Rattle.ss_search_procedure.specs.Decisions.{bank_of, settled_ones, decisions_of, first_decisions, reached_in, IsSetting, IsState, IsSide, GoesOn, AreDecided, IsNext, ReachesBy, ClosesBy, IsLast};
ghost use Rattle.ss_search_procedure.specs.Answers.{IfModel, IfLines};

use crate::setting::Settling;
use ss_deriv::Line;
use ss_logic_countermodels::Countermodel;
use ss_search_reaching::Reaching;
use ss_terms::FormulaId;
use std::alloc::AllocError;

/// What all splits end in: a model, or lines that close the case at the end of the path.
#[derive(Drop)]
pub(crate) enum Decided {
    Model(Countermodel),
    Closed(Vec<Line>),
}

impl Settling<'_> {
    // The model that what is reached is, where of each decision one side is.
    fn model(&self, reaching: &Reaching) -> Result<Decided, AllocError>
        requires setting { IsSetting self.now }
        requires state { IsState self.now reaching.now }
        requires decided { AreDecided (reached_in self.now reaching.now) (decisions_of self.now) }
        requires is_open { (cs : List ClassTree) → IsBankOf cs (bank_of self.now) → IsOpen cs (bank_of self.now) reaching.now.reached }
        ensures model { (cs : List ClassTree) → IsBankOf cs (bank_of self.now) → IfOk result (IfModel (IsCountermodel cs (settled_ones self.now))) }
        ensures lines { IfOk result (IfLines (λ lines. ⊥)) }
    {
        let given = &self.given;
        let model = reaching
            .reached
            .model(given.alloc, given.bank, self.formulas, self.decisions)?;
        Ok(Decided::Model(model))
    }

    /// A model of the formulas, or closing lines, where of the first so many decisions one side is reached.
    #[cycle(deciding)]
    pub(crate) fn decide(
        &self,
        reaching: &mut Reaching,
        decided: usize,
    ) -> Result<Decided, AllocError>
        requires setting { IsSetting self.now }
        requires state { IsState self.now reaching.old }
        requires decided { AreDecided (reached_in self.now reaching.old) (first_decisions self.now decided) }
        requires few { decided ≤ length self.now.decisions.now }
        ensures goes_on { OnOk result (GoesOn self.now reaching.old reaching.new) }
        ensures model { (cs : List ClassTree) → IsBankOf cs (bank_of self.now) → IfOk result (IfModel (IsCountermodel cs (settled_ones self.now))) }
        ensures reaches { IfOk result (IfLines (λ lines. ReachesBy self.now reaching.old reaching.new)) }
        ensures closes { IfOk result (IfLines (ClosesBy self.now reaching.old reaching.new)) }
    {
        if let Some(lines) = reaching.reach(&self.given)? {
            return Ok(Decided::Closed(lines));
        }
        if decided < self.decisions.len() {
            self.split(reaching, decided)
        } else {
            self.model(reaching)
        }
    }

    // The same, where some decision is left.
    #[cycle(deciding)]
    fn split(&self, reaching: &mut Reaching, decided: usize) -> Result<Decided, AllocError>
        requires setting { IsSetting self.now }
        requires state { IsState self.now reaching.old }
        requires decided { AreDecided (reached_in self.now reaching.old) (first_decisions self.now decided) }
        requires few { decided < length self.now.decisions.now }
        ensures goes_on { OnOk result (GoesOn self.now reaching.old reaching.new) }
        ensures model { (cs : List ClassTree) → IsBankOf cs (bank_of self.now) → IfOk result (IfModel (IsCountermodel cs (settled_ones self.now))) }
        ensures reaches { IfOk result (IfLines (λ lines. ReachesBy self.now reaching.old reaching.new)) }
        ensures closes { IfOk result (IfLines (ClosesBy self.now reaching.old reaching.new)) }
    {
        let p = self.decisions[decided];
        if self.is_decided(reaching, p) {
            return self.decide(reaching, decided + 1);
        }
        let other = self.given.bank.negation(p);
        let marks = reaching.mark();
        self.suppose(reaching, p)?;
        match self.decide(reaching, decided + 1)? {
            Decided::Model(model) => Ok(Decided::Model(model)),
            Decided::Closed(lines) => {
                self.deny(reaching, marks, p, lines)?;
                self.with_side(reaching, decided, other)
            }
        }
    }

    // The same, where this side of the next decision is the last fact.
    #[cycle(deciding)]
    fn with_side(
        &self,
        reaching: &mut Reaching,
        decided: usize,
        side: FormulaId,
    ) -> Result<Decided, AllocError>
        requires setting { IsSetting self.now }
        requires state { IsState self.now reaching.old }
        requires decided { AreDecided (reached_in self.now reaching.old) (first_decisions self.now decided) }
        requires few { decided < length self.now.decisions.now }
        requires formula { HasFormula (bank_of self.now) side }
        requires side { IsSide self.now (formula_at (bank_of self.now) side) }
        requires next { IsNext self.now decided (formula_at (bank_of self.now) side) }
        requires last { IsLast (bank_of self.now) (formula_at (bank_of self.now) side) reaching.old.path }
        ensures goes_on { OnOk result (GoesOn self.now reaching.old reaching.new) }
        ensures model { (cs : List ClassTree) → IsBankOf cs (bank_of self.now) → IfOk result (IfModel (IsCountermodel cs (settled_ones self.now))) }
        ensures reaches { IfOk result (IfLines (λ lines. ReachesBy self.now reaching.old reaching.new)) }
        ensures closes { IfOk result (IfLines (ClosesBy self.now reaching.old reaching.new)) }
    {
        self.learn_last(reaching, side)?;
        self.decide(reaching, decided + 1)
    }
}
