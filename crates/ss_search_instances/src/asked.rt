// What is asked for, the clauses that are known, and what is known of stores, classes and quantified formulas.

use ss_search_question::NONE;
use std::alloc::{AllocError, Global};

/// A known `or`: its formula, its fact, and what it comes from.
#[derive(Clone, Copy)]
pub struct Clause {
    pub formula: usize,
    pub fact: usize,
    pub origin: usize,
}

/// A formula or a term with the fact that says something of it.
#[derive(Clone, Copy)]
pub struct Held {
    pub number: usize,
    pub fact: usize,
}

/// How much of each list stands.
#[derive(Clone, Copy)]
pub struct Marks {
    list: usize,
    relevant: usize,
    clauses: usize,
    live: usize,
    foralls: usize,
    goods: usize,
    subs: usize,
    bundles: usize,
    goals: usize,
}

/// What is asked for and what is known, in the order in which it came. Of the clauses some are live: the places of those for which there may be
/// something left to do. The bundles are the long `and`s that instances say; of the long `or`s of the goal the number stands alone.
#[derive(Drop)]
pub struct Asked {
    marks: Vec<bool>,
    list: Vec<usize>,
    relevant_marks: Vec<bool>,
    relevant: Vec<usize>,
    clauses: Vec<Clause>,
    live: Vec<usize>,
    foralls: Vec<Held>,
    goods: Vec<Held>,
    subs: Vec<usize>,
    bundles: Vec<Held>,
    goals: usize,
}

fn set_mark(marks: &mut Vec<bool>, place: usize, value: bool) -> Result<(), AllocError> {
    for _ in marks.len()..place.saturating_add(1) {
        marks.push(false)?;
    }
    if let Some(mark) = marks.get_mut(place) {
        *mark = value;
    }
    Ok(())
}

fn clear_mark(marks: &mut [bool], place: usize) {
    if let Some(mark) = marks.get_mut(place) {
        *mark = false;
    }
}

fn mark_at(marks: &[bool], place: usize) -> bool {
    match marks.get(place) {
        Some(mark) => *mark,
        None => false,
    }
}

fn place_at(list: &[usize], place: usize) -> usize {
    match list.get(place) {
        Some(number) => *number,
        None => NONE,
    }
}

fn held_at(list: &[Held], place: usize) -> Held {
    match list.get(place) {
        Some(held) => *held,
        None => Held {
            number: NONE,
            fact: NONE,
        },
    }
}

impl Marks {
    /// Nothing stands.
    pub fn none() -> Self {
        Marks {
            list: 0,
            relevant: 0,
            clauses: 0,
            live: 0,
            foralls: 0,
            goods: 0,
            subs: 0,
            bundles: 0,
            goals: 0,
        }
    }
}

impl Asked {
    /// Nothing.
    pub fn new(alloc: Global) -> Self {
        Asked {
            marks: Vec::new(alloc),
            list: Vec::new(alloc),
            relevant_marks: Vec::new(alloc),
            relevant: Vec::new(alloc),
            clauses: Vec::new(alloc),
            live: Vec::new(alloc),
            foralls: Vec::new(alloc),
            goods: Vec::new(alloc),
            subs: Vec::new(alloc),
            bundles: Vec::new(alloc),
            goals: 0,
        }
    }

    /// How much stands.
    pub fn mark(&self) -> Marks {
        Marks {
            list: self.list.len(),
            relevant: self.relevant.len(),
            clauses: self.clauses.len(),
            live: self.live.len(),
            foralls: self.foralls.len(),
            goods: self.goods.len(),
            subs: self.subs.len(),
            bundles: self.bundles.len(),
            goals: self.goals,
        }
    }

    /// Whether more is asked for, or relevant, than at a mark.
    pub fn has_grown(&self, marks: Marks) -> bool {
        self.list.len() > marks.list || self.relevant.len() > marks.relevant
    }

    /// Takes back what came after a mark.
    pub fn undo(&mut self, marks: Marks) {
        for _ in marks.list..self.list.len() {
            if let Some(node) = self.list.pop() {
                clear_mark(&mut self.marks, node);
            }
        }
        for _ in marks.relevant..self.relevant.len() {
            if let Some(pair) = self.relevant.pop() {
                clear_mark(&mut self.relevant_marks, pair);
            }
        }
        self.clauses.truncate(marks.clauses);
        self.live.truncate(marks.live);
        self.foralls.truncate(marks.foralls);
        self.goods.truncate(marks.goods);
        self.subs.truncate(marks.subs);
        self.bundles.truncate(marks.bundles);
        self.goals = marks.goals;
    }

    /// Whether a node is asked for.
    pub fn is_asked(&self, node: usize) -> bool {
        mark_at(&self.marks, node)
    }

    /// A node is asked for. Whether it wasn't before.
    pub fn ask(&mut self, node: usize) -> Result<bool, AllocError> {
        if self.is_asked(node) {
            return Ok(false);
        }
        set_mark(&mut self.marks, node, true)?;
        self.list.push(node)?;
        Ok(true)
    }

    /// How many nodes are asked for, and clauses relevant.
    pub fn size(&self) -> usize {
        self.list.len().saturating_add(self.relevant.len())
    }

    /// How many nodes are asked for.
    pub fn len(&self) -> usize {
        self.list.len()
    }

    /// A node that is asked for, or NONE.
    pub fn node(&self, place: usize) -> usize {
        place_at(&self.list, place)
    }

    /// Whether the clause of a pair is relevant.
    pub fn is_relevant(&self, pair: usize) -> bool {
        mark_at(&self.relevant_marks, pair)
    }

    /// The clause of a pair is relevant.
    pub fn set_relevant(&mut self, pair: usize) -> Result<(), AllocError> {
        if !self.is_relevant(pair) {
            set_mark(&mut self.relevant_marks, pair, true)?;
            self.relevant.push(pair)?;
        }
        Ok(())
    }

    /// One more clause.
    pub fn add_clause(&mut self, clause: Clause) -> Result<(), AllocError> {
        self.live.push(self.clauses.len())?;
        self.clauses.push(clause)?;
        Ok(())
    }

    /// How many clauses are live.
    pub fn live_count(&self) -> usize {
        self.live.len()
    }

    /// The place of a live clause, or NONE.
    pub fn live(&self, at: usize) -> usize {
        place_at(&self.live, at)
    }

    /// This clause is live here, in place of another one.
    pub fn put_live(&mut self, at: usize, clause: usize) {
        if let Some(place) = self.live.get_mut(at) {
            *place = clause;
        }
    }

    /// Only the first clauses are live.
    pub fn cut_live(&mut self, to: usize) {
        self.live.truncate(to);
    }

    /// How many clauses there are.
    pub fn clause_count(&self) -> usize {
        self.clauses.len()
    }

    /// The clause at a place.
    pub fn clause(&self, place: usize) -> Clause {
        match self.clauses.get(place) {
            Some(clause) => *clause,
            None => Clause {
                formula: NONE,
                fact: NONE,
                origin: 0,
            },
        }
    }

    /// One more known `forall`.
    pub fn add_forall(&mut self, formula: usize, fact: usize) -> Result<(), AllocError> {
        self.foralls.push(Held {
            number: formula,
            fact,
        })?;
        Ok(())
    }

    /// How many there are.
    pub fn forall_count(&self) -> usize {
        self.foralls.len()
    }

    /// The `forall` at a place.
    pub fn forall(&self, place: usize) -> Held {
        held_at(&self.foralls, place)
    }

    /// One more store that is known to be good.
    pub fn add_good(&mut self, store: usize, fact: usize) -> Result<(), AllocError> {
        self.goods.push(Held {
            number: store,
            fact,
        })?;
        Ok(())
    }

    /// The fact that a store is good, or NONE.
    pub fn good(&self, store: usize) -> usize {
        for held in &self.goods {
            if held.number == store {
                return held.fact;
            }
        }
        NONE
    }

    /// How many good stores there are.
    pub fn good_count(&self) -> usize {
        self.goods.len()
    }

    /// The good store at a place.
    pub fn good_at(&self, place: usize) -> Held {
        held_at(&self.goods, place)
    }

    /// One more known literal on a class.
    pub fn add_sub(&mut self, pair: usize) -> Result<(), AllocError> {
        self.subs.push(pair)?;
        Ok(())
    }

    /// How many there are.
    pub fn sub_count(&self) -> usize {
        self.subs.len()
    }

    /// The pair of the literal at a place.
    pub fn sub(&self, place: usize) -> usize {
        place_at(&self.subs, place)
    }

    /// One more bundle.
    pub fn add_bundle(&mut self, bundle: Held) -> Result<(), AllocError> {
        self.bundles.push(bundle)?;
        Ok(())
    }

    /// How many bundles there are.
    pub fn bundle_count(&self) -> usize {
        self.bundles.len()
    }

    /// The bundle at a place.
    pub fn bundle(&self, place: usize) -> Held {
        held_at(&self.bundles, place)
    }

    /// One more long `or` of the goal.
    pub fn add_goal(&mut self) {
        self.goals = self.goals.saturating_add(1);
    }

    /// Whether there is a long `or` of the goal.
    pub fn has_goal(&self) -> bool {
        self.goals > 0
    }
}
