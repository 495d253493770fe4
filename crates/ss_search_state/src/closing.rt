// How cases are closed: what a block stands on, and what is put in front of it.

use crate::state::State;
use ss_search_classes::Conflict;
use ss_search_facts::{End, Range, Reason, Said};
use ss_search_question::opposite;
use ss_terms::Bank;
use std::alloc::AllocError;

impl State {
    /// Why a fact is known.
    pub fn reason(&self, fact: usize) -> Option<Reason> {
        match self.reasons.facts.fact(fact) {
            Some(known) => Some(known.reason),
            None => None,
        }
    }

    /// Where a fact comes from.
    pub fn origin(&self, fact: usize) -> usize {
        self.reasons.facts.origin(fact)
    }

    /// Puts numbers after the paths. Gives where they stand.
    pub fn keep(&mut self, numbers: &[usize]) -> Result<Range, AllocError> {
        self.reasons.facts.keep(numbers)
    }

    /// Whether a fact can be put in front of a block: it is a unit, or known by a cut.
    pub fn is_derived(&self, fact: usize) -> bool {
        match self.reason(fact) {
            Some(Reason::Unit(_, _)) => true,
            Some(Reason::Cut(_, _)) => true,
            _ => false,
        }
    }

    /// The newest hypothesis that the newest block stands on.
    pub fn newest(&self) -> Option<usize> {
        self.reasons.proof.newest()
    }

    /// A block that closes a conflict.
    pub fn close_conflict(&mut self, bank: &Bank, conflict: Conflict) -> Result<usize, AllocError> {
        self.drop_pending();
        self.reasons.begin();
        self.reasons
            .close_conflict(bank, &self.equal, &self.nodes, conflict)
    }

    /// A block for the cases of a fact that is an `or`, which has none yet.
    pub fn open_cases(&mut self, fact: usize) -> Result<usize, AllocError> {
        self.reasons.proof.open(End::Split(fact))
    }

    /// One more case of a block, for a part that is refuted. The hypotheses that it stands on are handed over.
    pub fn close_part(
        &mut self,
        bank: &Bank,
        above: usize,
        part: usize,
        handed: &mut Vec<usize>,
    ) -> Result<(), AllocError> {
        self.reasons.begin();
        self.reasons
            .close_case(bank, &self.equal, &self.nodes, above, part)?;
        self.reasons.proof.hand_over(handed)
    }

    /// One more case of a block, by a block of its own. The hypotheses that it stands on are handed over.
    pub fn close_case(
        &mut self,
        above: usize,
        block: usize,
        fact: usize,
        handed: &mut Vec<usize>,
    ) -> Result<(), AllocError> {
        self.reasons.proof.attach(above, block, fact);
        self.reasons.proof.hand_over(handed)
    }

    /// All cases of an `or` are closed: the block stands on what was handed over, and on the fact of the `or`.
    pub fn close_cases(
        &mut self,
        fact: usize,
        handed: &mut Vec<usize>,
        to: usize,
    ) -> Result<(), AllocError> {
        self.reasons.proof.take_back(handed, to)?;
        self.reasons.begin();
        self.reasons.stand_on(fact)
    }

    /// The block doesn't stand on this newest hypothesis any more.
    pub fn discharge(&mut self, fact: usize) {
        self.reasons.proof.discharge(fact);
    }

    /// Puts the split of a unit, or the cut, in front of a block.
    pub fn wrap(&mut self, bank: &Bank, fact: usize, block: usize) -> Result<usize, AllocError> {
        self.discharge(fact);
        match self.reason(fact) {
            Some(Reason::Unit(whole, _)) => self.wrap_unit(bank, whole, fact, block),
            _ => self.reasons.cut(bank, fact, block),
        }
    }

    fn wrap_unit(
        &mut self,
        bank: &Bank,
        whole: usize,
        fact: usize,
        block: usize,
    ) -> Result<usize, AllocError> {
        self.reasons
            .split(bank, &self.equal, &self.nodes, (whole, fact, block))
    }

    /// A literal that was tried is refuted by a block: its negation is known by a cut.
    pub fn learn_cut(
        &mut self,
        literal: usize,
        case: usize,
        block: usize,
    ) -> Result<(), AllocError> {
        self.discharge(case);
        self.reasons.proof.own(block, case);
        let mut hypotheses = Vec::new(self.alloc);
        self.reasons.proof.hand_over(&mut hypotheses)?;
        let range = self.reasons.facts.keep(&hypotheses)?;
        self.learn(
            Said::Formula(opposite(literal)),
            Reason::Cut(block, range),
            1,
        )?;
        Ok(())
    }
}
