// What is found of a ground form.

ghost use Rattle.std.specs.Prelude.{◌≡◌, [], ℕ, ◌≤◌, ◌<◌, ◌*◌, ◌^◌, List, length, IfOk};
ghost use Rattle.ss_core.specs.Tree.{ClassTree};
ghost use Rattle.ss_logic.specs.Formulas.{Formula};
ghost use Rattle.ss_logic_means.specs.Steps.{Derives};
ghost use Rattle.ss_logic_countermodels.specs.Refuting.{IsCountermodel};
ghost use Rattle.ss_terms.specs.Forms.{IsBankOf};
ghost use Rattle.ss_deriv.specs.Lines.{lines_of};
ghost use Rattle.ss_search_clashes.specs.Closing.{Closes};
ghost use Rattle.ss_search_path.specs.Paths.{IsPath};
ghost use Rattle.ss_search_procedure_rules.specs.Closed.{AreEnough};
ghost use Rattle.ss_search_reaching.specs.Reaching.{facts_of};
ghost use Rattle.ss_search_procedure.specs.declared.settling.Settled.TheVariants as settled;
ghost use Rattle.ss_search_procedure.specs.Decisions.{bank_of, settled_ones, IsSetting, IsState, HasLed};
ghost use Rattle.ss_search_procedure.specs.Answers.{IfCountered, IfClosed};

use crate::powers::greatest_depth;
use crate::setting::Settling;
use crate::total::Decided;
use ss_deriv::{Derivation, Line};
use ss_logic_countermodels::Countermodel;
use ss_search_reaching::Reaching;
use std::alloc::AllocError;

/// What was found of a ground form.
#[derive(Drop)]
pub enum Settled {
    /// It is closed, as this derivation shows.
    Closed(Derivation),
    /// This model refutes it.
    Countered(Countermodel),
    /// The splits aren't enough.
    Spent,
}

impl Settling<'_> {
    // The derivation that the path is, where these lines close it.
    fn finish(&self, reaching: Reaching, lines: Vec<Line>) -> Result<Settled, AllocError>
        requires { (cs : List ClassTree) × (premises : List Formula) × (goal : Formula) × IsPath cs premises goal (bank_of self.now) [] reaching.path × Closes cs premises goal (facts_of self.now.given reaching) (lines_of (bank_of self.now) lines.items) }
        ensures closed { (cs : List ClassTree) (premises : List Formula) (goal : Formula) → IsPath cs premises goal (bank_of self.now) [] reaching.path → Closes cs premises goal (facts_of self.now.given reaching) (lines_of (bank_of self.now) lines.items) → IfOk result (IfClosed (λ d. Derives cs premises goal (lines_of (bank_of self.now) d))) }
        ensures countered { IfOk result (IfCountered (λ m. ⊥)) }
        ensures settled { IfOk result (λ s. s ≡ settled.Spent → ⊥) }
    {
        let Reaching { path, .. } = reaching;
        match path.finish(self.given.alloc, lines)? {
            Some(derivation) => Ok(Settled::Closed(derivation)),
            None => Ok(Settled::Spent),
        }
    }

    // All splits of the decisions.
    pub(crate) fn settle_by_all(&self, mut reaching: Reaching) -> Result<Settled, AllocError>
        requires setting { IsSetting self.now }
        requires state { IsState self.now reaching }
        requires led { (cs : List ClassTree) × (premises : List Formula) × (goal : Formula) × HasLed cs premises goal self.now reaching }
        ensures closed { (cs : List ClassTree) (premises : List Formula) (goal : Formula) → HasLed cs premises goal self.now reaching → IfOk result (IfClosed (λ d. Derives cs premises goal (lines_of (bank_of self.now) d))) }
        ensures countered { (cs : List ClassTree) → IsBankOf cs (bank_of self.now) → IfOk result (IfCountered (IsCountermodel cs (settled_ones self.now))) }
        ensures settled { IfOk result (λ s. s ≡ settled.Spent → ⊥) }
    {
        match self.decide(&mut reaching, 0)? {
            Decided::Model(model) => Ok(Settled::Countered(model)),
            Decided::Closed(lines) => self.finish(reaching, lines),
        }
    }

    // The greatest depth of nested splits that is allowed.
    fn depth(&self, limit: u64) -> usize
        requires { 0 < length self.now.decisions.now }
        ensures { (depth : ℕ) → (2 * length self.now.decisions.now) ^ (2 * depth) ≤ limit → depth ≤ result }
    {
        greatest_depth(2 * self.decisions.len() as u64, limit)
    }

    // Nested splits of decisions that are too many to try all.
    pub(crate) fn settle_nested(
        &self,
        mut reaching: Reaching,
        limit: u64,
    ) -> Result<Settled, AllocError>
        requires setting { IsSetting self.now }
        requires state { IsState self.now reaching }
        requires led { (cs : List ClassTree) × (premises : List Formula) × (goal : Formula) × HasLed cs premises goal self.now reaching }
        requires some { 0 < length self.now.decisions.now }
        requires many { 2 ^ length self.now.decisions.now ≤ limit → ⊥ }
        ensures closed { (cs : List ClassTree) (premises : List Formula) (goal : Formula) → HasLed cs premises goal self.now reaching → IfOk result (IfClosed (λ d. Derives cs premises goal (lines_of (bank_of self.now) d))) }
        ensures countered { IfOk result (IfCountered (λ m. ⊥)) }
        ensures spent { (cs : List ClassTree) → IsBankOf cs (bank_of self.now) → IfOk result (λ s. s ≡ settled.Spent → AreEnough cs (settled_ones self.now) limit → ⊥) }
    {
        let depth = self.depth(limit);
        match self.lower(&mut reaching, depth)? {
            Some(lines) => self.finish(reaching, lines),
            None => Ok(Settled::Spent),
        }
    }
}
