// Nested splits: what is closed with one side of a decision at less depth makes the other side known.

ghost use Rattle.std.specs.Prelude.{◌≡◌, ◌⊎◌, List, true, false, None, IfOk, IfSome, OnOk, suc};
ghost use Rattle.std.specs.List.{Contains};
ghost use Rattle.ss_core.specs.Tree.{ClassTree};
ghost use Rattle.ss_logic.specs.Formulas.{Formula, neg};
ghost use Rattle.ss_terms.specs.Forms.{formula_at, HasFormula, IsBankOf};
ghost use Rattle.ss_search_procedure_rules.specs.Closed.{IsSaturated, StaysOpen};
ghost use Rattle.ss_search_reaching.specs.Reaching.{IsReaching};
ghost use Rattle.ss_search_procedure.specs.Decisions.{bank_of, decisions_of, reached_in, IsSetting, IsState, IsSide, GoesOn, IsUnknown, IsOpenDecision, IsTried, AreTried, ReachesBy, ClosesBy, IsLast};

use crate::setting::Settling;
use ss_deriv::Line;
use ss_search_reaching::Reaching;
use ss_terms::FormulaId;
use std::alloc::AllocError;

impl Settling<'_> {
    /// Whether a formula or its negation is reached.
    pub(crate) fn is_decided(&self, reaching: &Reaching, p: FormulaId) -> bool
        requires state { IsReaching self.now.given reaching.now }
        requires formula { HasFormula (bank_of self.now) p }
        ensures yes { result ≡ true → Contains (reached_in self.now reaching.now) (formula_at (bank_of self.now) p) ⊎ Contains (reached_in self.now reaching.now) (neg (formula_at (bank_of self.now) p)) }
        ensures no { result ≡ false → IsUnknown (reached_in self.now reaching.now) (formula_at (bank_of self.now) p) }
    {
        if reaching.reached.knows(self.given.bank, p) {
            return true;
        }
        let other = self.given.bank.negation(p);
        reaching.reached.knows(self.given.bank, other)
    }

    /// Makes known what follows by splits nested this deep. Lines that close the case at the end of the path; none where it is open.
    #[cycle(nested)]
    pub(crate) fn lower(
        &self,
        reaching: &mut Reaching,
        depth: usize,
    ) -> Result<Option<Vec<Line>>, AllocError>
        requires setting { IsSetting self.now }
        requires state { IsState self.now reaching.old }
        ensures goes_on { OnOk result (GoesOn self.now reaching.old reaching.new) }
        ensures stays_open { (cs : List ClassTree) → IsBankOf cs (bank_of self.now) → IfOk result (λ o. o ≡ None → StaysOpen cs depth (reached_in self.now reaching.new)) }
        ensures reaches { OnOk result (ReachesBy self.now reaching.old reaching.new) }
        ensures closes { IfOk result (λ o. IfSome o (λ v. ClosesBy self.now reaching.old reaching.new v.items)) }
    {
        if let Some(lines) = reaching.reach(&self.given)? {
            return Ok(Some(lines));
        }
        if depth == 0 {
            return Ok(None);
        }
        self.settle_decisions(reaching, depth - 1)
    }

    // Adds the negation of each decision that is closed at this depth, and what follows, until there is none.
    #[cycle(nested)]
    fn settle_decisions(
        &self,
        reaching: &mut Reaching,
        depth: usize,
    ) -> Result<Option<Vec<Line>>, AllocError>
        requires setting { IsSetting self.now }
        requires state { IsState self.now reaching.old }
        requires saturated { (cs : List ClassTree) → IsBankOf cs (bank_of self.now) → IsSaturated cs (reached_in self.now reaching.old) }
        ensures goes_on { OnOk result (GoesOn self.now reaching.old reaching.new) }
        ensures stays_open { (cs : List ClassTree) → IsBankOf cs (bank_of self.now) → IfOk result (λ o. o ≡ None → StaysOpen cs (suc depth) (reached_in self.now reaching.new)) }
        ensures reaches { OnOk result (ReachesBy self.now reaching.old reaching.new) }
        ensures closes { IfOk result (λ o. IfSome o (λ v. ClosesBy self.now reaching.old reaching.new v.items)) }
    {
        while let Some(p) = self.closed_decision(reaching, depth)? {
            let other = self.given.bank.negation(p);
            self.learn_last(reaching, other)?;
            if let Some(lines) = reaching.reach(&self.given)? {
                return Ok(Some(lines));
            }
        }
        Ok(None)
    }

    // A decision, or the negation of one, that is closed at this depth, where there is one. What denies it is the last fact then.
    #[cycle(nested)]
    fn closed_decision(
        &self,
        reaching: &mut Reaching,
        depth: usize,
    ) -> Result<Option<FormulaId>, AllocError>
        requires setting { IsSetting self.now }
        requires state { IsState self.now reaching.old }
        ensures goes_on { OnOk result (GoesOn self.now reaching.old reaching.new) }
        ensures same { OnOk result (reached_in self.now reaching.new ≡ reached_in self.now reaching.old) }
        ensures found { IfOk result (λ o. IfSome o (IsOpenDecision self.now reaching.old)) }
        ensures none { (cs : List ClassTree) → IsBankOf cs (bank_of self.now) → IfOk result (λ o. o ≡ None → (p : Formula) → Contains (decisions_of self.now) p → AreTried cs depth (reached_in self.now reaching.old) p) }
        ensures reaches { OnOk result (ReachesBy self.now reaching.old reaching.new) }
        ensures denied { IfOk result (λ o. IfSome o (λ p. IsLast (bank_of self.now) (neg (formula_at (bank_of self.now) p)) reaching.new.path)) }
    {
        for p in self.decisions {
            if self.is_closed(reaching, depth, *p)? {
                return Ok(Some(*p));
            }
            let other = self.given.bank.negation(*p);
            if self.is_closed(reaching, depth, other)? {
                return Ok(Some(other));
            }
        }
        Ok(None)
    }

    // Whether the formula, where it is reached too, is closed at this depth: then its negation is the last fact. Where it is reached or
    // denied already the answer is no.
    #[cycle(nested)]
    fn is_closed(
        &self,
        reaching: &mut Reaching,
        depth: usize,
        p: FormulaId,
    ) -> Result<bool, AllocError>
        requires setting { IsSetting self.now }
        requires state { IsState self.now reaching.old }
        requires formula { HasFormula (bank_of self.now) p }
        requires side { IsSide self.now (formula_at (bank_of self.now) p) }
        ensures goes_on { OnOk result (GoesOn self.now reaching.old reaching.new) }
        ensures same { OnOk result (reached_in self.now reaching.new ≡ reached_in self.now reaching.old) }
        ensures closed { IfOk result (λ closed. closed ≡ true → IsUnknown (reached_in self.now reaching.old) (formula_at (bank_of self.now) p)) }
        ensures tried { (cs : List ClassTree) → IsBankOf cs (bank_of self.now) → IfOk result (λ closed. closed ≡ false → IsTried cs depth (reached_in self.now reaching.old) (formula_at (bank_of self.now) p)) }
        ensures reaches { OnOk result (ReachesBy self.now reaching.old reaching.new) }
        ensures denied { IfOk result (λ closed. closed ≡ true → IsLast (bank_of self.now) (neg (formula_at (bank_of self.now) p)) reaching.new.path) }
    {
        if self.is_decided(reaching, p) {
            return Ok(false);
        }
        let marks = reaching.mark();
        self.suppose(reaching, p)?;
        match self.lower(reaching, depth)? {
            Some(lines) => {
                self.deny(reaching, marks, p, lines)?;
                Ok(true)
            }
            None => {
                self.take_back(reaching, marks, p);
                Ok(false)
            }
        }
    }
}
