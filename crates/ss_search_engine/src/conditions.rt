// Lemmas: that a condition under which an object isn't kept fails, found by the whole search in front of the cases of a frame.

use crate::cases::Closed;
use crate::engine::{Engine, Lemma};
use ss_search_facts::{Reason, Said};
use ss_search_instances::is_newer;
use ss_search_question::{
    ALLOCATED, AND, COMMITTED, EQUAL, LITERAL, NONE, OWNER, argument, kind_of, node_head, of_pair,
    of_term, pair_argument, pair_of, part_at, part_count, term_argument, term_head,
};
use ss_search_state::{Limits, Step};
use ss_terms::Bank;
use std::alloc::AllocError;

// How much of the limits a lemma may use.
const MOST: Limits = Limits {
    instances: 300,
    splits: 15,
    trials: 300,
};

// The kind of key of a literal of which a lemma was tried.
const TRIED: usize = 950;

impl Engine {
    // The literal of the lemma that is tried next in front of the cases of a clause, by its place. NONE where there is none, or
    // the clause is no long `or` of the goal.
    pub(crate) fn next_lemma(&self, bank: &Bank, place: usize) -> usize {
        let goal = self.state.asked.clause(place);
        let left = self.state.left;
        if goal.origin != 2
            || self.state.nodes.open_count(goal.formula) <= 4
            || left.splits == 0
            || left.trials == 0
            || self.lemma.is_some()
        {
            return NONE;
        }
        let object = object_of(bank, goal.formula);
        if object == NONE {
            return NONE;
        }
        self.oldest_condition(bank, object)
    }

    // The open literal over the oldest store in a condition under which an object isn't kept, or NONE.
    fn oldest_condition(&self, bank: &Bank, object: usize) -> usize {
        let mut oldest = NONE;
        for at in 0..self.state.asked.live_count() {
            let clause = self.state.asked.clause(self.state.asked.live(at));
            let count = part_count(bank, clause.formula);
            let last = part_at(bank, clause.formula, count.saturating_sub(1));
            if clause.origin == 1
                && kind_of(bank, last) == AND
                && self.is_open_clause(bank, clause.formula)
            {
                oldest = self.oldest_in(bank, clause.formula, object, oldest);
            }
        }
        oldest
    }

    // The same of one clause and another literal. All parts of the clause but the last are conditions.
    fn oldest_in(&self, bank: &Bank, formula: usize, object: usize, other: usize) -> usize {
        let mut oldest = other;
        for place in 0..part_count(bank, formula).saturating_sub(1) {
            let part = part_at(bank, formula, place);
            oldest = self.older(bank, part, object, oldest);
            if kind_of(bank, part) == AND && self.state.nodes.value(part).is_none() {
                for inner in 0..part_count(bank, part) {
                    oldest = self.older(bank, part_at(bank, part, inner), object, oldest);
                }
            }
        }
        oldest
    }

    // A literal, where a lemma may be tried of it, and its store is older than that of another one; else the other one.
    fn older(&self, bank: &Bank, literal: usize, object: usize, other: usize) -> usize {
        let store = self.store_at(bank, literal, object);
        if store == NONE
            || self.state.nodes.value(literal).is_some()
            || self.state.seen.value(TRIED, literal, 0) != NONE
        {
            return other;
        }
        if other == NONE || is_newer(bank, self.store_at(bank, other, object), store) {
            literal
        } else {
            other
        }
    }

    // The store in which a literal speaks of an object: of its owner, or of whether it is committed or allocated. NONE where it doesn't.
    fn store_at(&self, bank: &Bank, literal: usize, object: usize) -> usize {
        if kind_of(bank, literal) != LITERAL {
            return NONE;
        }
        let atom = of_pair(pair_of(literal));
        let read = if node_head(bank, atom).kind == EQUAL {
            of_term(argument(bank, atom, 0))
        } else {
            atom
        };
        let kind = node_head(bank, read).kind;
        let speaker = of_term(argument(bank, read, 1));
        if (kind == OWNER || kind == COMMITTED || kind == ALLOCATED)
            && self.state.equal.are_equal(speaker, of_term(object))
        {
            argument(bank, read, 0)
        } else {
            NONE
        }
    }

    // Opens a lemma: a literal is tried, with a part of the limits.
    pub(crate) fn open_lemma(&mut self, literal: usize) -> Result<Closed, AllocError> {
        self.state.seen.add(TRIED, literal, 0, 1)?;
        let start = self.state.mark();
        let clauses = self.state.asked.clause_count();
        let case = self.state.learn(Said::Formula(literal), Reason::Case, 2)?;
        let kept = self.keep_limits();
        self.lemma = Some(Lemma {
            literal,
            case,
            start,
            splits: self.splits.len(),
            handed: self.handed.len(),
            clauses,
            kept,
        });
        Ok(Closed::Next(Step::Goes))
    }

    // Keeps what a lemma may not use. That it is tried counts as a trial.
    fn keep_limits(&mut self) -> Limits {
        let (left, most) = (self.state.left, MOST);
        let trials = left.trials.saturating_sub(1);
        let used = Limits {
            instances: left.instances.min(most.instances),
            splits: left.splits.min(most.splits),
            trials: trials.min(most.trials),
        };
        self.state.left = used;
        Limits {
            instances: left.instances.saturating_sub(used.instances),
            splits: left.splits.saturating_sub(used.splits),
            trials: trials.saturating_sub(used.trials),
        }
    }

    // Whether a clause is of the goal, and a lemma is open: that splits none that was known before.
    pub(crate) fn is_spared(&self, place: usize, origin: usize) -> bool {
        match self.lemma {
            Some(lemma) => origin == 2 && place < lemma.clauses,
            None => false,
        }
    }

    // The open lemma, where this fact is its own. One that is newer than the fact is needed by nothing, and is dropped.
    pub(crate) fn lemma_of(&mut self, fact: usize) -> Option<Lemma> {
        let Some(lemma) = self.lemma else {
            return None;
        };
        if fact == lemma.case {
            return Some(lemma);
        }
        if fact < lemma.case {
            self.close_lemma(lemma);
        }
        None
    }

    // No lemma is open any more. What it didn't use is given back.
    fn close_lemma(&mut self, lemma: Lemma) {
        let left = self.state.left;
        self.state.left = Limits {
            instances: left.instances.saturating_add(lemma.kept.instances),
            splits: left.splits.saturating_add(lemma.kept.splits),
            trials: left.trials.saturating_add(lemma.kept.trials),
        };
        self.lemma = None;
    }

    // Takes back what a lemma made known.
    fn undo_lemma(&mut self, lemma: Lemma) {
        self.close_lemma(lemma);
        self.splits.truncate(lemma.splits);
        self.handed.truncate(lemma.handed);
        self.state.drop_pending();
        self.state.undo(lemma.start);
    }

    // A block closes the lemma: the negation of its literal is known by a cut.
    pub(crate) fn end_lemma(&mut self, lemma: Lemma, block: usize) -> Result<Closed, AllocError> {
        self.undo_lemma(lemma);
        self.state.learn_cut(lemma.literal, lemma.case, block)?;
        Ok(Closed::Next(Step::Goes))
    }

    // Where nothing is left to do in a lemma, it is given up. All stands as it did then, when a look ahead had found nothing.
    pub(crate) fn unless_lemma(&mut self, closed: Closed) -> Closed {
        let Some(lemma) = self.lemma else {
            return closed;
        };
        match closed {
            Closed::Next(Step::Rests) => {
                self.undo_lemma(lemma);
                self.quiet = self.state.progress;
                Closed::Next(Step::Goes)
            }
            _ => closed,
        }
    }
}

// The object of which a long `or` of the goal speaks: that whose owner a part compares; NONE where there is none.
fn object_of(bank: &Bank, formula: usize) -> usize {
    for place in 0..part_count(bank, formula) {
        let owner = pair_argument(bank, pair_of(part_at(bank, formula, place)), 0);
        if term_head(bank, owner).kind == OWNER {
            return term_argument(bank, owner, 1);
        }
    }
    NONE
}
