// What is split and tried next.

use crate::engine::Engine;
use ss_search_question::{
    AND, AT_MOST, LITERAL, NONE, OR, is_first, kind_of, opposite, pair_head, pair_of, part_at,
    part_count,
};
use ss_terms::Bank;
use std::alloc::AllocError;

impl Engine {
    // The open `or` of the goal with the fewest open parts, by its place, where these are few, or NONE.
    pub(crate) fn short_choice(&self, bank: &Bank) -> usize {
        let choice = self.choice_of(bank, true);
        let clause = self.state.asked.clause(choice);
        if self.state.nodes.open_count(clause.formula) <= 4 {
            choice
        } else {
            NONE
        }
    }

    // The clause that is split next, by its place, or NONE: which way was taken, an `or` of the goal, or another one.
    pub(crate) fn next_choice(&self, bank: &Bank) -> usize {
        let join = self.join_choice(bank);
        if join != NONE {
            return join;
        }
        let choice = self.choice_of(bank, true);
        if choice != NONE {
            return choice;
        }
        self.choice_of(bank, false)
    }

    // The relevant clause, or the `or` of the goal, with the fewest open parts, by its place, or NONE.
    fn choice_of(&self, bank: &Bank, of_goal: bool) -> usize {
        let mut best = NONE;
        let mut fewest = NONE;
        for at in 0..self.state.asked.live_count() {
            let place = self.state.asked.live(at);
            let clause = self.state.asked.clause(place);
            if of_goal && clause.origin != 2
                || self.is_spared(place, clause.origin)
                || !self.is_open_clause(bank, clause.formula)
            {
                continue;
            }
            let count = self.state.nodes.open_count(clause.formula);
            if count < fewest {
                fewest = count;
                best = place;
            }
        }
        best
    }

    pub(crate) fn is_open_clause(&self, bank: &Bank, formula: usize) -> bool {
        self.state.asked.is_relevant(pair_of(formula))
            && !self.state.nodes.is_settled(formula)
            && !self.state.nodes.has_held_part(bank, formula)
    }

    // A relevant clause of truth values of the program alone: which way was taken.
    fn join_choice(&self, bank: &Bank) -> usize {
        for at in 0..self.state.asked.live_count() {
            let place = self.state.asked.live(at);
            let clause = self.state.asked.clause(place);
            if self.is_open_clause(bank, clause.formula) && self.is_join(bank, clause.formula) {
                return place;
            }
        }
        NONE
    }

    fn is_join(&self, bank: &Bank, formula: usize) -> bool {
        for place in 0..part_count(bank, formula) {
            let part = part_at(bank, formula, place);
            if kind_of(bank, part) != LITERAL
                || !is_first(part)
                || !self.state.is_negated_guard(bank, opposite(part))
            {
                return false;
            }
        }
        true
    }

    // Tries the open literals of relevant clauses. Whether one was refuted.
    pub(crate) fn look_ahead(&mut self, bank: &Bank) -> Result<bool, AllocError> {
        if self.quiet == self.state.progress {
            return Ok(false);
        }
        let count = self.state.asked.live_count();
        let from = self.look_from;
        for turn in 0..count {
            let place = turned(from, turn, count);
            let clause = self.state.asked.clause(self.state.asked.live(place));
            if self.is_open_clause(bank, clause.formula)
                && self.state.nodes.open_count(clause.formula) <= 4
                && self.look_in(bank, clause.formula)?
            {
                self.look_from = place;
                return Ok(true);
            }
        }
        self.quiet = self.state.progress;
        Ok(false)
    }

    // Tries that two numbers differ which come to the same. Whether a literal was refuted.
    pub(crate) fn look_at_same(&mut self, bank: &Bank) -> Result<bool, AllocError> {
        for _ in 0..u64::MAX {
            let Some(formula) = self.state.same.last().copied() else {
                break;
            };
            if self.look_at_orders(bank, formula)? {
                return Ok(true);
            }
            let _ = self.state.same.pop();
        }
        Ok(false)
    }

    // Tries the open comparisons of a clause. Whether one was refuted.
    fn look_at_orders(&mut self, bank: &Bank, formula: usize) -> Result<bool, AllocError> {
        for place in 0..part_count(bank, formula) {
            let part = part_at(bank, formula, place);
            if pair_head(bank, pair_of(part)).kind == AT_MOST && self.look_at(bank, part)? {
                return Ok(true);
            }
        }
        Ok(false)
    }

    fn look_in(&mut self, bank: &Bank, formula: usize) -> Result<bool, AllocError> {
        for place in 0..part_count(bank, formula) {
            let part = part_at(bank, formula, place);
            let kind = kind_of(bank, part);
            if kind == LITERAL && self.look_at(bank, part)? {
                return Ok(true);
            }
            if kind == OR || kind == AND {
                for inner in 0..part_count(bank, part) {
                    let literal = part_at(bank, part, inner);
                    if kind_of(bank, literal) == LITERAL && self.look_at(bank, literal)? {
                        return Ok(true);
                    }
                }
            }
        }
        Ok(false)
    }

    fn look_at(&mut self, bank: &Bank, literal: usize) -> Result<bool, AllocError> {
        if self.state.nodes.value(literal).is_some() || self.state.left.trials == 0 {
            return Ok(false);
        }
        self.state.left.trials = self.state.left.trials.saturating_sub(1);
        self.try_literal(bank, literal)
    }
}

// The place that is reached from another one by some steps, where the first one follows the last.
fn turned(from: usize, steps: usize, count: usize) -> usize {
    if count == 0 {
        0
    } else {
        from.saturating_add(steps) % count
    }
}
