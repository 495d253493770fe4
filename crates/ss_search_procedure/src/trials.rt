// Trials of decisions in one path.

ghost use Rattle.std.specs.Prelude.{List, OnOk};
ghost use Rattle.std.specs.List.{Contains};
ghost use Rattle.ss_core.specs.Tree.{ClassTree};
ghost use Rattle.ss_logic.specs.Formulas.{neg};
ghost use Rattle.ss_terms.specs.Forms.{formula_at, HasFormula};
ghost use Rattle.ss_search_path.specs.Paths.{IsSame, IsSupposed};
ghost use Rattle.ss_search_reaching.specs.declared.reaching.Reaching.{Reaching};
ghost use Rattle.ss_search_procedure.specs.Decisions.{bank_of, reached_in, IsSetting, IsState, IsSide, GoesOn, IsShown, ReachesBy, ClosesBy, IsLast, IsTrialOf, IsAsBefore};

use crate::setting::Settling;
use ss_deriv::Line;
use ss_search_reaching::{Marks, Reaching};
use ss_terms::FormulaId;
use std::alloc::AllocError;

impl Settling<'_> {
    /// The last fact is reached from now on, where it wasn't before.
    pub(crate) fn learn_last(&self, reaching: &mut Reaching, f: FormulaId) -> Result<(), AllocError>
        requires setting { IsSetting self.now }
        requires state { IsState self.now reaching.old }
        requires formula { HasFormula (bank_of self.now) f }
        requires side { IsSide self.now (formula_at (bank_of self.now) f) }
        requires last { IsLast (bank_of self.now) (formula_at (bank_of self.now) f) reaching.old.path }
        ensures goes_on { OnOk result (GoesOn self.now reaching.old reaching.new) }
        ensures known { OnOk result (Contains (reached_in self.now reaching.new) (formula_at (bank_of self.now) f)) }
        ensures path { OnOk result (IsSame reaching.old.path reaching.new.path) }
        ensures shown { OnOk result ((cs : List ClassTree) → IsShown cs self.now reaching.old → IsShown cs self.now reaching.new) }
    {
        let place = reaching.path.known.len() - 1;
        let standing = self.given.itself(place);
        reaching.learn(&self.given, f, standing)
    }

    /// A side of a decision is supposed, and reached.
    pub(crate) fn suppose(&self, reaching: &mut Reaching, p: FormulaId) -> Result<(), AllocError>
        requires setting { IsSetting self.now }
        requires state { IsState self.now reaching.old }
        requires formula { HasFormula (bank_of self.now) p }
        requires side { IsSide self.now (formula_at (bank_of self.now) p) }
        ensures goes_on { OnOk result (GoesOn self.now reaching.old reaching.new) }
        ensures known { OnOk result (Contains (reached_in self.now reaching.new) (formula_at (bank_of self.now) p)) }
        ensures begun { OnOk result (IsSupposed (bank_of self.now) p reaching.old.path reaching.new.path) }
        ensures shown { OnOk result ((cs : List ClassTree) → IsShown cs self.now reaching.old → IsShown cs self.now reaching.new) }
    {
        let _mark = reaching.path.suppose(self.given.bank, p)?;
        self.learn_last(reaching, p)
    }

    /// Takes back a trial that stays open. It takes no memory.
    pub(crate) fn take_back(&self, reaching: &mut Reaching, marks: Marks, p: FormulaId)
        requires trial { (at : Reaching) × IsTrialOf self.now marks p at reaching.old }
        ensures before { (at : Reaching) → IsTrialOf self.now marks p at reaching.old → IsAsBefore self.now at reaching.new }
        ensures reaches { (at : Reaching) → IsTrialOf self.now marks p at reaching.old → ReachesBy self.now at reaching.new }
    {
        let _ = p;
        reaching.forget(&self.given, marks);
        reaching.path.undo(marks.path);
    }

    /// The negation of a supposed side is the last fact, where these lines close the trial.
    pub(crate) fn deny(
        &self,
        reaching: &mut Reaching,
        marks: Marks,
        p: FormulaId,
        closing: Vec<Line>,
    ) -> Result<(), AllocError>
        requires setting { IsSetting self.now }
        requires formula { HasFormula (bank_of self.now) p }
        requires side { IsSide self.now (formula_at (bank_of self.now) p) }
        requires trial { (at : Reaching) × IsTrialOf self.now marks p at reaching.old }
        ensures before { OnOk result ((at : Reaching) → IsTrialOf self.now marks p at reaching.old → IsAsBefore self.now at reaching.new) }
        ensures last { OnOk result (IsLast (bank_of self.now) (neg (formula_at (bank_of self.now) p)) reaching.new.path) }
        ensures reaches { OnOk result ((at : Reaching) (trial : IsTrialOf self.now marks p at reaching.old) → ClosesBy self.now trial.trial reaching.old closing.items → ReachesBy self.now at reaching.new) }
    {
        reaching.forget(&self.given, marks);
        reaching
            .path
            .refuted(self.given.bank, marks.path, p, closing)
    }
}
