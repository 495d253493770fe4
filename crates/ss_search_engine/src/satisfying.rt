// Cases of ground formulas, in which each `or` has a part that is known.

use crate::cases::Closed;
use crate::engine::Engine;
use ss_search_facts::{Reason, Said};
use ss_search_question::{
    AT_MOST, EQUAL, EXISTS, LITERAL, NONE, is_first, is_truth, kind_of, of_pair, pair_argument,
    pair_head, pair_of, part_at, part_count,
};
use ss_search_state::{Mark, State, Step};
use ss_terms::{Bank, FormulaId};
use std::alloc::AllocError;

/// Which of the open clauses with the fewest open parts is split.
#[derive(Clone, Copy)]
pub enum Order {
    First,
    Last,
}

// The place that comes after so many, from a place on. After the last one comes the first.
fn place_in(order: Order, from: usize, turn: usize, count: usize) -> usize {
    let at = from.saturating_add(turn);
    let place = if at < count {
        at
    } else {
        at.saturating_sub(count)
    };
    match order {
        Order::First => place,
        Order::Last => count.saturating_sub(place).saturating_sub(1),
    }
}

impl Engine {
    /// What is known.
    pub fn state(&self) -> &State {
        &self.state
    }

    /// Makes the formulas known, and goes through cases to one in which each known `or` has a part that is known. No other instance is made. The
    /// classes of the atoms and of the terms in them are told apart. Whether there is such a case within so many splits. Nothing else was known to
    /// the search. Numbers are looked at once the clauses of which cases were refuted are met, and at the end.
    pub fn satisfy(
        &mut self,
        bank: &Bank,
        formulas: &[FormulaId],
        atoms: &[FormulaId],
        order: Order,
        splits: usize,
    ) -> Result<bool, AllocError> {
        self.state.has_numbers = false;
        self.state.nodes.look_at_all();
        self.literals_first = true;
        self.state.left.splits = splits;
        self.state.nodes.grow(bank)?;
        for atom in atoms {
            self.state.equal.add(bank, of_pair(pair_of(atom.0)))?;
        }
        for _ in 0..bank.formula_count() / 2 {
            self.weights.push(0)?;
        }
        let step = self.learn_ground(bank, formulas)?;
        self.run_ground(bank, order, step)
    }

    fn learn_ground(&mut self, bank: &Bank, formulas: &[FormulaId]) -> Result<Step, AllocError> {
        let mut step = Step::Rests;
        for (number, formula) in formulas.iter().enumerate() {
            if let Step::Conflict(_) = &step {
                break;
            }
            self.state
                .learn(Said::Formula(formula.0), Reason::Premise(number), 0)?;
            step = self.settle_ground(bank)?;
        }
        Ok(step)
    }

    // Finds what follows. Nothing is made in the bank.
    fn settle_ground(&mut self, bank: &Bank) -> Result<Step, AllocError> {
        let step = self.state.settle(bank)?;
        self.state.requests.truncate(0);
        Ok(step)
    }

    // The open clause of which cases were refuted most often, by its place, or NONE.
    fn heavy_clause(&self, bank: &Bank) -> usize {
        let mut best = NONE;
        let mut heaviest = 0usize;
        for place in &self.heavy {
            let formula = self.state.asked.clause(*place).formula;
            let weight = self.weight(formula);
            if weight > heaviest
                && !self.state.nodes.is_settled(formula)
                && !is_of_truth(bank, formula)
                && !self.is_met(bank, formula)
            {
                heaviest = weight;
                best = *place;
            }
        }
        best
    }

    // How often a case of the `or` was refuted.
    fn weight(&self, formula: usize) -> usize {
        match self.weights.get(pair_of(formula)) {
            Some(weight) => *weight,
            None => 0,
        }
    }

    // A case of the `or` was refuted, whose clause stands at this place.
    pub(crate) fn add_weight(&mut self, formula: usize, place: usize) -> Result<(), AllocError> {
        let Some(weight) = self.weights.get_mut(pair_of(formula)) else {
            return Ok(());
        };
        let was = *weight;
        *weight = was.saturating_add(1);
        self.refuted = self.refuted.saturating_add(1);
        if was == 0 {
            self.heavy.push(place)?;
        }
        Ok(())
    }

    // Takes back all cases.
    fn begin_again(&mut self, start: Mark) {
        self.state.drop_pending();
        self.state.undo(start);
        self.splits.truncate(0);
        self.handed.truncate(0);
    }

    fn run_ground(&mut self, bank: &Bank, order: Order, first: Step) -> Result<bool, AllocError> {
        let mut step = first;
        let start = self.state.mark();
        let mut most = 50usize;
        for _turn in 0..u64::MAX {
            if self.refuted > most {
                self.refuted = 0;
                most = most.saturating_add(most / 2);
                self.begin_again(start);
                step = Step::Goes;
            }
            match self.advance_ground(bank, order, step)? {
                Closed::Root(_) => return Ok(false),
                Closed::Next(Step::Rests) => break,
                Closed::Next(next) => step = next,
                Closed::Split(_) => step = Step::Goes,
            }
        }
        Ok(self.open_clause(bank, order) == NONE)
    }

    fn advance_ground(
        &mut self,
        bank: &Bank,
        order: Order,
        step: Step,
    ) -> Result<Closed, AllocError> {
        if let Step::Conflict(conflict) = step {
            self.looked = false;
            return self.close(bank, conflict);
        }
        let step = self.settle_ground(bank)?;
        if let Step::Conflict(_) = &step {
            return Ok(Closed::Next(step));
        }
        if !self.looked && self.heavy_clause(bank) == NONE {
            self.looked = true;
            let step = self.look_at_numbers(bank)?;
            if let Step::Conflict(_) = &step {
                return Ok(Closed::Next(step));
            }
        }
        let place = self.open_clause(bank, order);
        if place == NONE {
            return Ok(Closed::Next(self.look_at_numbers(bank)?));
        }
        let clauses = self.state.asked.clause_count();
        self.scan_from = place_in(order, 0, place, clauses);
        self.open_split(bank, place)
    }

    // Finds what follows, with numbers.
    fn look_at_numbers(&mut self, bank: &Bank) -> Result<Step, AllocError> {
        self.state.has_numbers = true;
        let step = self.settle_ground(bank)?;
        self.state.has_numbers = false;
        Ok(step)
    }

    // A known `or` that isn't met, with the fewest open parts, by its place, or NONE.
    fn open_clause(&self, bank: &Bank, order: Order) -> usize {
        let heavy = self.heavy_clause(bank);
        if heavy != NONE {
            return heavy;
        }
        let best = self.open_clause_of(bank, order, false);
        if best == NONE {
            self.open_clause_of(bank, order, true)
        } else {
            best
        }
    }

    // The same of the clauses that say a truth value alone, or of the others.
    fn open_clause_of(&self, bank: &Bank, order: Order, of_truth: bool) -> usize {
        let mut best = NONE;
        let mut fewest = NONE;
        let clauses = self.state.asked.clause_count();
        for turn in 0..clauses {
            let place = place_in(order, self.scan_from, turn, clauses);
            let formula = self.state.asked.clause(place).formula;
            let count = self.state.nodes.open_count(formula);
            if count < fewest
                && !self.state.nodes.is_settled(formula)
                && is_of_truth(bank, formula) == of_truth
                && !self.is_met(bank, formula)
            {
                fewest = count;
                best = place;
                if count <= 2 {
                    break;
                }
            }
        }
        best
    }

    // Whether a part of an `or` that isn't settled is known, or denies something of which nothing is known. What isn't known is made false, but for
    // comparisons of numbers.
    fn is_met(&self, bank: &Bank, formula: usize) -> bool {
        if self.state.nodes.has_held_part(bank, formula) {
            return true;
        }
        for place in 0..part_count(bank, formula) {
            let part = part_at(bank, formula, place);
            let kind = kind_of(bank, part);
            if (kind == LITERAL || kind == EXISTS)
                && !is_first(part)
                && !compares(bank, part)
                && self.state.nodes.value(part).is_none()
            {
                return true;
            }
        }
        false
    }
}

// Whether a literal compares numbers.
fn compares(bank: &Bank, part: usize) -> bool {
    kind_of(bank, part) == LITERAL && pair_head(bank, pair_of(part)).kind == AT_MOST
}

// Whether each part says that a term is a truth value.
fn is_of_truth(bank: &Bank, formula: usize) -> bool {
    for place in 0..part_count(bank, formula) {
        let part = part_at(bank, formula, place);
        if kind_of(bank, part) != LITERAL || !is_first(part) {
            return false;
        }
        let pair = pair_of(part);
        if pair_head(bank, pair).kind != EQUAL || !is_truth(bank, pair_argument(bank, pair, 0)) {
            return false;
        }
    }
    true
}
