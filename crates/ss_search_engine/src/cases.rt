// Cases: how they are opened, tried and closed.

ghost use Rattle.ss_core.specs.Chain.{IsWithinLimits};
ghost use Rattle.ss_core.specs.View as view;
ghost use Rattle.ss_terms.specs.Forms.{IsGrown, IsBankOf};

use crate::engine::{Engine, Split};
use ss_core::Classes;
use ss_search_classes::Conflict;
use ss_search_facts::{Reason, Said};
use ss_search_question::{LITERAL, NONE, kind_of, part_at, part_count};
use ss_search_state::{Mark, Step};
use ss_search_wants::{use_levels, use_positions, work};
use ss_terms::Bank;
use std::alloc::AllocError;

/// What the closing of a case came to.
#[derive(Clone, Copy)]
pub(crate) enum Closed {
    /// Everything is closed, by this block.
    Root(usize),
    /// The split is closed, by this block.
    Split(usize),
    /// The next case is open.
    Next(Step),
}

impl Engine {
    // Goes through the cases. The outermost block, where all are closed; nothing, where one has nothing left to do.
    pub(crate) fn run(
        &mut self,
        bank: &mut Bank,
        program: &Classes,
        first: Step,
    ) -> Result<Option<usize>, AllocError>
        requires bank { IsBankOf (view.classes program.now) bank.old }
        requires limits { IsWithinLimits (view.classes program.now) }
        ensures grown { IsGrown bank.old bank.new }
    {
        let mut step = first;
        for _turn in 0..u64::MAX {
            match self.advance(bank, program, step)? {
                Closed::Root(block) => return Ok(Some(block)),
                Closed::Next(Step::Rests) => return Ok(None),
                Closed::Next(next) => step = next,
                Closed::Split(_) => step = Step::Goes,
            }
            self.make_all(bank, program)?;
        }
        Ok(None)
    }

    // Does the next step where nothing is to be made.
    fn advance(
        &mut self,
        bank: &Bank,
        program: &Classes,
        step: Step,
    ) -> Result<Closed, AllocError> {
        if let Step::Conflict(conflict) = step {
            return self.close(bank, conflict);
        }
        let step = self.state.settle(bank)?;
        if let Step::Conflict(_) = &step {
            return Ok(Closed::Next(step));
        }
        if !self.state.requests.is_empty() {
            return Ok(Closed::Next(Step::Goes));
        }
        let closed = self.go_on(bank, program)?;
        Ok(self.unless_lemma(closed))
    }

    // Asks for instances, looks ahead or opens a case. `Rests` where there is nothing left.
    fn go_on(&mut self, bank: &Bank, program: &Classes) -> Result<Closed, AllocError> {
        if self.look_at_same(bank)? {
            return self.after_look(bank);
        }
        for stage in 1..4 {
            if self.works(bank, program, stage)? {
                return Ok(Closed::Next(Step::Goes));
            }
            let choice = if stage == 2 {
                self.short_choice(bank)
            } else {
                NONE
            };
            if choice != NONE {
                return self.look_or_split(bank, choice);
            }
        }
        let choice = self.next_choice(bank);
        if choice != NONE {
            return self.look_or_split(bank, choice);
        }
        self.look_or_widen(bank, program)
    }

    // Whether what is asked for asks for an instance of a stage.
    fn works(&mut self, bank: &Bank, program: &Classes, stage: usize) -> Result<bool, AllocError> {
        let has_worked = work(&mut self.state, bank, program, stage)?;
        Ok(self.state.open_bundles(bank)? || has_worked || !self.state.equal.is_settled())
    }

    // Looks ahead. Where that finds nothing, all parts of a long `or` of the goal are asked for. Then lemmas are tried, and then
    // the cases of a clause are opened.
    fn look_or_split(&mut self, bank: &Bank, place: usize) -> Result<Closed, AllocError> {
        if self.look_ahead(bank)? {
            return self.after_look(bank);
        }
        if self.state.ask_parts(bank, place)? {
            return Ok(Closed::Next(Step::Goes));
        }
        let literal = self.next_lemma(bank, place);
        if literal == NONE {
            self.open_split(bank, place)
        } else {
            self.open_lemma(literal)
        }
    }

    // Looks ahead, and asks for more where that finds nothing; at the end looks at all numbers together. In a lemma no more is asked for.
    fn look_or_widen(&mut self, bank: &Bank, program: &Classes) -> Result<Closed, AllocError> {
        if self.look_ahead(bank)? {
            return self.after_look(bank);
        }
        if self.lemma.is_some() {
            return Ok(Closed::Next(Step::Rests));
        }
        if self.state.open_rest(bank)?
            || self.state.widen(bank)?
            || use_positions(&mut self.state, bank)?
            || use_levels(&mut self.state, bank, program)?
        {
            Ok(Closed::Next(Step::Goes))
        } else {
            Ok(Closed::Next(self.state.refute_numbers(bank)?))
        }
    }

    // A look ahead found a contradiction of its own, or a literal.
    fn after_look(&mut self, bank: &Bank) -> Result<Closed, AllocError> {
        let pending = self.pending_block;
        self.pending_block = None;
        match pending {
            Some(block) => self.go_out_all(bank, block),
            None => self.settle_next(bank),
        }
    }

    // Finds what follows. There may be more to do after it.
    fn settle_next(&mut self, bank: &Bank) -> Result<Closed, AllocError> {
        let step = self.state.settle(bank)?;
        Ok(Closed::Next(goes(step)))
    }

    // Opens the cases of a clause, one for each part.
    pub(crate) fn open_split(&mut self, bank: &Bank, place: usize) -> Result<Closed, AllocError> {
        if self.state.left.splits == 0 {
            return Ok(Closed::Next(Step::Rests));
        }
        self.state.left.splits = self.state.left.splits.saturating_sub(1);
        let clause = self.state.asked.clause(place);
        let block = self.state.open_cases(clause.fact)?;
        let split = Split {
            block,
            fact: clause.fact,
            formula: clause.formula,
            place: 0,
            case: NONE,
            start: self.state.mark(),
            handed: self.handed.len(),
            clause: place,
        };
        self.next_case(bank, split)
    }

    // Opens the next case of a split that isn't refuted, where there is one.
    fn next_case(&mut self, bank: &Bank, split: Split) -> Result<Closed, AllocError> {
        for place in split.place..self.turn_count(bank, split.formula) {
            let part = self.part_in_turn(bank, split.formula, place);
            if part == NONE {
                continue;
            }
            if self.state.nodes.value(part) == Some(false) {
                self.state
                    .close_part(bank, split.block, part, &mut self.handed)?;
            } else {
                return self.open_case(bank, split, place, part);
            }
        }
        self.end_split(split)
    }

    // How many turns the cases of an `or` take: with literals first, each part has two.
    fn turn_count(&self, bank: &Bank, formula: usize) -> usize {
        let count = part_count(bank, formula);
        if self.literals_first {
            count.saturating_add(count)
        } else {
            count
        }
    }

    // The part of an `or` that comes in a turn, or NONE.
    fn part_in_turn(&self, bank: &Bank, formula: usize, turn: usize) -> usize {
        if !self.literals_first {
            return part_at(bank, formula, turn);
        }
        let count = part_count(bank, formula);
        let comes_first = turn < count;
        let place = if comes_first {
            turn
        } else {
            turn.saturating_sub(count)
        };
        let part = part_at(bank, formula, place);
        if (kind_of(bank, part) == LITERAL) == comes_first {
            part
        } else {
            NONE
        }
    }

    // Opens the case of a split at a place, for this part.
    fn open_case(
        &mut self,
        bank: &Bank,
        split: Split,
        place: usize,
        part: usize,
    ) -> Result<Closed, AllocError> {
        let case = self.state.learn(Said::Formula(part), Reason::Case, 2)?;
        self.splits.push(Split {
            block: split.block,
            fact: split.fact,
            formula: split.formula,
            place: place.saturating_add(1),
            case,
            start: split.start,
            handed: split.handed,
            clause: split.clause,
        })?;
        self.settle_next(bank)
    }

    // All cases of a split are closed.
    fn end_split(&mut self, split: Split) -> Result<Closed, AllocError> {
        self.state
            .close_cases(split.fact, &mut self.handed, split.handed)?;
        Ok(Closed::Split(split.block))
    }

    // Closes the case in which there is a conflict, and those around it that have no case left.
    pub(crate) fn close(&mut self, bank: &Bank, conflict: Conflict) -> Result<Closed, AllocError> {
        let block = self.state.close_conflict(bank, conflict)?;
        self.go_out_all(bank, block)
    }

    fn go_out_all(&mut self, bank: &Bank, first: usize) -> Result<Closed, AllocError> {
        let mut block = first;
        for _ in 0..u64::MAX {
            match self.go_out(bank, block)? {
                Closed::Split(outer) => block = outer,
                closed => return Ok(closed),
            }
        }
        Ok(Closed::Root(block))
    }

    // Puts what makes the newest hypothesis of a block known in front of the block.
    fn go_out(&mut self, bank: &Bank, block: usize) -> Result<Closed, AllocError> {
        let Some(fact) = self.state.newest() else {
            return Ok(Closed::Root(block));
        };
        if self.state.is_derived(fact) {
            let outer = self.state.wrap(bank, fact, block)?;
            return Ok(Closed::Split(outer));
        }
        self.close_case(bank, fact, block)
    }

    // The split whose open case this fact is the own one of. Splits inside it aren't needed, and are dropped.
    fn find_split(&mut self, fact: usize) -> Option<Split> {
        for _ in 0..self.splits.len() {
            let split = self.splits.pop()?;
            if split.case == fact {
                return Some(split);
            }
            self.handed.truncate(split.handed);
        }
        None
    }

    // A block closes the case that this fact is the own one of. Goes on with the next case, or with what is around.
    fn close_case(&mut self, bank: &Bank, fact: usize, block: usize) -> Result<Closed, AllocError> {
        if let Some(lemma) = self.lemma_of(fact) {
            return self.end_lemma(lemma, block);
        }
        self.state.discharge(fact);
        let Some(split) = self.find_split(fact) else {
            return Ok(Closed::Root(block));
        };
        self.add_weight(split.formula, split.clause)?;
        self.state.drop_pending();
        self.state.undo(split.start);
        self.state
            .close_case(split.block, block, fact, &mut self.handed)?;
        self.next_case(bank, split)
    }

    // Tries a literal. Whether it is refuted: then its negation is learned, or what the refutation comes to without it is put
    // into `pending_block`.
    pub(crate) fn try_literal(&mut self, bank: &Bank, literal: usize) -> Result<bool, AllocError> {
        let start = self.state.mark();
        self.state.is_trial = true;
        let case = self.state.learn(Said::Formula(literal), Reason::Case, 0)?;
        let step = self.state.settle(bank)?;
        self.state.is_trial = false;
        match step {
            Step::Conflict(conflict) => self.end_trial(bank, (literal, case), start, conflict),
            _ => {
                self.state.drop_pending();
                self.state.undo_trial(start);
                Ok(false)
            }
        }
    }

    fn end_trial(
        &mut self,
        bank: &Bank,
        tried: (usize, usize),
        start: Mark,
        conflict: Conflict,
    ) -> Result<bool, AllocError> {
        let (literal, case) = tried;
        let first = self.state.close_conflict(bank, conflict)?;
        let block = self.wrap_newer(bank, case, first)?;
        self.state.undo_trial(start);
        if self.state.newest() == Some(case) {
            self.state.learn_cut(literal, case, block)?;
        } else {
            self.pending_block = Some(block);
        }
        Ok(true)
    }

    // Puts what makes the hypotheses of a block known that are newer than a fact in front of the block.
    fn wrap_newer(&mut self, bank: &Bank, than: usize, first: usize) -> Result<usize, AllocError> {
        let mut block = first;
        for _ in 0..u64::MAX {
            let Some(fact) = self.state.newest() else {
                break;
            };
            if fact <= than {
                break;
            }
            block = self.state.wrap(bank, fact, block)?;
        }
        Ok(block)
    }
}

// A step after which there may be more to do.
fn goes(step: Step) -> Step {
    match step {
        Step::Rests => Step::Goes,
        _ => step,
    }
}
