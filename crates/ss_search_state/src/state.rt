// What is known on the trail, and what follows of it without an instance and a case.

use crate::bundles::Piece;
use crate::requests::{Request, Wanted, new_request};
use ss_search_classes::{Classes as Equal, Conflict};
use ss_search_facts::{Reason, Reasons, RuleKind, Said};
use ss_search_instances::{Asked, Clause, Heads, Held, Marks};
use ss_search_nodes::{Ground, LONG, Nodes, or_of};
use ss_search_numbers::Rows;
use ss_search_question::{
    AND, AT_MOST, EQUAL, EXISTS, FORALL, GOOD, Keys, LITERAL, NONE, OR, OWNER, SUB, arguments_of,
    is_delayed, is_first, is_truth, is_value, is_whole, kind_of, of_pair, of_term, opposite,
    pair_argument, pair_head, pair_of, part_at, part_count,
};
use ss_terms::Bank;
use std::alloc::{AllocError, Global};

/// How much a search may do for an obligation.
#[derive(Clone, Copy)]
pub struct Limits {
    /// How many instances it may make.
    pub instances: usize,
    /// How many cases it may open.
    pub splits: usize,
    /// How many literals it may try.
    pub trials: usize,
}

/// How much of each part stands.
#[derive(Clone, Copy)]
pub struct Mark {
    pub equal: usize,
    pub nodes: usize,
    pub asked: Marks,
    pub seen: usize,
    pub facts: usize,
    pub paths: usize,
    pub weights: usize,
    pub bounds: usize,
    pub equations: usize,
    pub same: usize,
}

/// How much stands of what isn't taken back with cases, and the next constant that is new.
#[derive(Clone, Copy)]
pub struct Extent {
    heads: (usize, usize, usize),
    pieces: usize,
    places: usize,
    depths: usize,
    elements: usize,
    fresh: usize,
}

/// What a step of the search came to.
#[derive(Clone, Copy)]
pub enum Step {
    Goes,
    /// There is nothing to do.
    Rests,
    Conflict(Conflict),
}

/// What is known, what it was known by, and what waits to be done.
#[derive(Drop)]
pub struct State {
    pub alloc: Global,
    pub equal: Equal,
    pub nodes: Nodes,
    pub reasons: Reasons,
    pub asked: Asked,
    pub heads: Heads,
    pub seen: Keys,
    /// The facts that are taken apart, and how many of them have been.
    pub queue: Vec<usize>,
    pub done: usize,
    pub(crate) waiting: Vec<usize>,
    /// What is to be made in the bank, and how much of it is.
    pub requests: Vec<Request>,
    pub made: usize,
    /// The next constant that is new.
    pub fresh: usize,
    /// The depth beyond which nothing is asked for, and how deep reads of fields nest in each term.
    pub deepest: usize,
    pub(crate) depths: Vec<u32>,
    pub left: Limits,
    /// How many facts were learned outside of trials.
    pub progress: usize,
    pub is_trial: bool,
    /// Whether contradictions of whole numbers are looked for.
    pub has_numbers: bool,
    /// The known literals that compare numbers, each with its fact, and what they come to.
    pub(crate) bounds: Vec<(usize, usize)>,
    pub(crate) rows: Rows,
    /// The known equations of whole numbers, each with its fact.
    pub(crate) equations: Vec<(usize, usize)>,
    /// The clauses that say that two numbers differ or are equal which come to the same. That they differ is still to be tried.
    pub same: Vec<usize>,
    /// The terms of the bank that read or change an element.
    pub elements: Vec<usize>,
    /// The terms of whole numbers from 0 on that rules were asked for by, or NONE.
    pub numerals: Vec<usize>,
    /// How many merges of numbers and comparisons there had been when they were last looked at, and how many comparisons.
    pub(crate) counted: (usize, usize),
    pub(crate) compared: usize,
    /// How many nodes were asked for when bundles were last looked at, or NONE.
    pub(crate) scanned: usize,
    /// Of each bundle, how the classes that it speaks of stood when it was last looked at, and how many nodes were asked for.
    pub(crate) looked: Vec<(usize, usize)>,
    /// The parts of delayed `and`s that were made, by `and` and place, and the last one of each `and`.
    pub(crate) pieces: Vec<Piece>,
    pub(crate) places: Keys,
    /// How often something was taken back.
    pub(crate) undone: usize,
    // How much was known and asked for when all was last looked through for what else is asked for.
    passed: (usize, usize, usize),
    // How all stood when the nodes that are asked for were last looked at for first instances, and how many there were.
    swept: (usize, usize, usize),
    // Of each node that is asked for, how the classes that it speaks of stood when it was last looked at.
    watched: Vec<usize>,
    // How many of the first clauses that may be open were looked at since they were made known for good.
    unsettled: usize,
}

/// Nothing stands.
pub fn first_mark() -> Mark {
    Mark {
        equal: 0,
        nodes: 0,
        asked: Marks::none(),
        seen: 0,
        facts: 0,
        paths: 0,
        weights: 0,
        bounds: 0,
        equations: 0,
        same: 0,
    }
}

fn no_limits() -> Limits {
    Limits {
        instances: 0,
        splits: 0,
        trials: 0,
    }
}

impl State {
    /// Nothing is known. The terms `true` and `false` are these, and constants from a number on are new.
    pub fn new(alloc: Global, yes: usize, no: usize, fresh: usize) -> Self {
        State {
            alloc,
            equal: Equal::new(alloc, yes, no),
            nodes: Nodes::new(alloc),
            reasons: Reasons::new(alloc),
            asked: Asked::new(alloc),
            heads: Heads::new(alloc),
            seen: Keys::new(alloc),
            queue: Vec::new(alloc),
            done: 0,
            waiting: Vec::new(alloc),
            requests: Vec::new(alloc),
            made: 0,
            fresh,
            deepest: 0,
            depths: Vec::new(alloc),
            left: no_limits(),
            progress: 0,
            is_trial: false,
            has_numbers: false,
            bounds: Vec::new(alloc),
            rows: Rows::new(alloc),
            equations: Vec::new(alloc),
            same: Vec::new(alloc),
            elements: Vec::new(alloc),
            numerals: Vec::new(alloc),
            counted: (0, 0),
            compared: 0,
            scanned: NONE,
            looked: Vec::new(alloc),
            pieces: Vec::new(alloc),
            places: Keys::new(alloc),
            undone: 0,
            passed: (NONE, NONE, NONE),
            swept: (NONE, NONE, 0),
            watched: Vec::new(alloc),
            unsettled: 0,
        }
    }

    /// How much of each part stands.
    pub fn mark(&self) -> Mark {
        Mark {
            equal: self.equal.mark(),
            nodes: self.nodes.mark(),
            asked: self.asked.mark(),
            seen: self.seen.len(),
            facts: self.reasons.facts.len(),
            paths: self.reasons.facts.paths_len(),
            weights: self.reasons.facts.weights.len(),
            bounds: self.bounds.len(),
            equations: self.equations.len(),
            same: self.same.len(),
        }
    }

    /// Takes back what came after a mark, but for the facts.
    pub fn undo(&mut self, mark: Mark) {
        self.equal.undo(mark.equal);
        self.nodes.undo(mark.nodes);
        self.asked.undo(mark.asked);
        self.seen.undo(mark.seen);
        self.bounds.truncate(mark.bounds);
        self.equations.truncate(mark.equations);
        self.same.truncate(mark.same);
        self.scanned = NONE;
        self.undone = self.undone.saturating_add(1);
    }

    /// Takes back a trial. All stands as it did before, so nothing is looked at again.
    pub fn undo_trial(&mut self, mark: Mark) {
        let (undone, scanned) = (self.undone, self.scanned);
        self.undo(mark);
        self.undone = undone;
        self.scanned = scanned;
    }

    /// Takes back what came after a mark, facts too, and forgets all blocks.
    pub fn forget(&mut self, mark: Mark) {
        self.drop_pending();
        self.undo(mark);
        self.reasons.facts.forget(mark.facts, mark.paths);
        self.reasons.facts.weights.truncate(mark.weights);
        self.reasons.proof.forget();
        self.reasons.begin();
        self.is_trial = false;
    }

    /// How much stands of what isn't taken back with cases.
    pub fn extent(&self) -> Extent {
        Extent {
            heads: self.heads.mark(),
            pieces: self.pieces.len(),
            places: self.places.len(),
            depths: self.depths.len(),
            elements: self.elements.len(),
            fresh: self.fresh,
        }
    }

    /// Takes back all but so much of it: what came after speaks of numbers that the bank forgot.
    pub fn cut(&mut self, extent: Extent) {
        self.heads.cut(extent.heads);
        self.pieces.truncate(extent.pieces);
        self.places.undo(extent.places);
        self.depths.truncate(extent.depths);
        self.elements.truncate(extent.elements);
        self.numerals.truncate(0);
        self.fresh = extent.fresh;
    }

    /// One more fact, which waits to be taken apart. Gives its number.
    pub fn learn(
        &mut self,
        said: Said,
        reason: Reason,
        origin: usize,
    ) -> Result<usize, AllocError> {
        let fact = self.reasons.facts.add(said, reason, origin)?;
        self.queue.push(fact)?;
        if !self.is_trial {
            self.progress = self.progress.saturating_add(1);
        }
        Ok(fact)
    }

    /// Whether there is more known or asked for than when this was asked last.
    pub fn has_more(&mut self) -> bool {
        let known = self
            .progress
            .wrapping_add(self.undone.wrapping_mul(0x1_0000_0000));
        let now = (known, self.asked.size(), self.equal.mark());
        if self.passed.0 == now.0 && self.passed.1 == now.1 && self.passed.2 == now.2 {
            return false;
        }
        self.passed = now;
        true
    }

    /// Whether what the first instances for a node depend on isn't as it was when this was asked last. The node is asked for at a
    /// place. What is known of all objects and of classes is what it was when `first_moved` was called last.
    pub fn has_moved(
        &mut self,
        bank: &Bank,
        place: usize,
        node: usize,
    ) -> Result<bool, AllocError> {
        let stamp = self.stamp_of_all(bank, node);
        for _ in self.watched.len()..place.saturating_add(1) {
            self.watched.push(NONE)?;
        }
        let Some(watched) = self.watched.get_mut(place) else {
            return Ok(true);
        };
        let has_moved = *watched != stamp;
        *watched = stamp;
        Ok(has_moved)
    }

    /// From which place on the nodes that are asked for are looked at for first instances: those before stand as they did. All are looked at then.
    pub fn first_moved(&mut self) -> usize {
        let (shifts, known) = (self.equal.shifts(), self.stamp_of_rest());
        let from = if self.swept.0 == shifts && self.swept.1 == known {
            self.swept.2
        } else {
            0
        };
        self.swept = (shifts, known, self.asked.len());
        from
    }

    // How much is known of all objects and of classes, and how often something was taken back.
    fn stamp_of_rest(&self) -> usize {
        self.stamp_of(NONE)
            .wrapping_add(self.heads.len())
            .wrapping_add(self.asked.forall_count())
            .wrapping_add(self.asked.sub_count())
    }

    // How the classes stand of which a node speaks. Also how much was known of all objects and of classes when the nodes were last
    // looked at.
    fn stamp_of_all(&self, bank: &Bank, node: usize) -> usize {
        let mut stamp = self.swept.1;
        if self.equal.kind(node) == OWNER {
            stamp = stamp.wrapping_add(self.equal.members(node));
        }
        for argument in arguments_of(bank, node) {
            stamp = stamp.wrapping_add(self.equal.members(of_term(argument.0)));
        }
        stamp
    }

    /// Clauses for which there is nothing left to do aren't looked at any more. What is known stands for good.
    pub fn drop_settled(&mut self) {
        let from = if self.unsettled > self.asked.live_count() {
            0
        } else {
            self.unsettled
        };
        let mut kept = from;
        for at in from..self.asked.live_count() {
            let place = self.asked.live(at);
            if !self.nodes.is_settled(self.asked.clause(place).formula) {
                self.asked.put_live(kept, place);
                kept = kept.saturating_add(1);
            }
        }
        self.asked.cut_live(kept);
        self.unsettled = kept;
    }

    /// Finds what follows without an instance and a split.
    pub fn settle(&mut self, bank: &Bank) -> Result<Step, AllocError> {
        for _ in 0..u64::MAX {
            let step = self.step(bank)?;
            match step {
                Step::Goes => {}
                _ => return Ok(step),
            }
        }
        Ok(Step::Rests)
    }

    // Makes the merges that wait, and tells and counts the values that come of them. Then makes the last part of an `or` known, or takes a fact apart.
    fn step(&mut self, bank: &Bank) -> Result<Step, AllocError> {
        if let Some(conflict) = self.equal.settle(bank)? {
            return Ok(Step::Conflict(conflict));
        }
        self.hear_all()?;
        self.nodes.spread()?;
        if let Some(pair) = self.nodes.next_unit() {
            return self.look_at_unit(bank, pair);
        }
        let Some(fact) = self.queue.get(self.done).copied() else {
            return self.look_at_numbers(bank);
        };
        self.done = self.done.saturating_add(1);
        self.take_apart(bank, fact)
    }

    // Tells the values that atoms got.
    fn hear_all(&mut self) -> Result<(), AllocError> {
        for _ in 0..u64::MAX {
            let Some(event) = self.equal.next_event() else {
                break;
            };
            self.nodes
                .come(event.pair, event.value, Ground::Atom(event.why))?;
        }
        Ok(())
    }

    // Makes the last part of an `or` known, where the others are refuted.
    fn look_at_unit(&mut self, bank: &Bank, pair: usize) -> Result<Step, AllocError> {
        let or = or_of(pair);
        let fact = self.nodes.held(or);
        if fact == NONE || self.nodes.is_taken(or) || !self.nodes.is_unit(pair) {
            return Ok(Step::Goes);
        }
        if self.nodes.is_settled(or) {
            return self.look_at_value(bank, or, fact);
        }
        let place = self.nodes.first_open(bank, or, 0);
        if place == NONE {
            return Ok(Step::Conflict(Conflict::Parts(fact)));
        }
        self.take_part(bank, or, fact, place)
    }

    // Makes the last part of a premise known that is true already, where it says that a term is a literal. So paths to the literal
    // are short.
    fn look_at_value(&mut self, bank: &Bank, or: usize, fact: usize) -> Result<Step, AllocError> {
        let place = self.nodes.first_true(bank, or);
        if self.reasons.facts.origin(fact) > 0 || !is_of_value(bank, part_at(bank, or, place)) {
            return Ok(Step::Goes);
        }
        self.take_part(bank, or, fact, place)
    }

    // The part of an `or` at this place is known, since the others are refuted.
    fn take_part(
        &mut self,
        bank: &Bank,
        or: usize,
        fact: usize,
        place: usize,
    ) -> Result<Step, AllocError> {
        let pair = pair_of(or);
        self.nodes.take(pair)?;
        let mut origin = self.reasons.facts.origin(fact);
        if origin == 0 && self.asked.is_relevant(pair) {
            origin = 1;
        }
        self.learn(
            Said::Formula(part_at(bank, or, place)),
            Reason::Unit(fact, place),
            origin,
        )?;
        Ok(Step::Goes)
    }

    fn take_apart(&mut self, bank: &Bank, fact: usize) -> Result<Step, AllocError> {
        let formula = self.reasons.facts.formula(fact);
        self.nodes.grow(bank)?;
        let kind = kind_of(bank, formula);
        if kind == LITERAL {
            self.take_literal(bank, formula, fact)
        } else if kind == AND {
            self.take_and(bank, formula, fact)
        } else if kind == OR {
            self.take_or(bank, formula, fact)
        } else if kind == FORALL || kind == EXISTS {
            self.take_quantified(bank, formula, fact)
        } else {
            Ok(Step::Goes)
        }
    }

    fn take_and(&mut self, bank: &Bank, formula: usize, fact: usize) -> Result<Step, AllocError> {
        if self.nodes.held(formula) != NONE {
            return Ok(Step::Goes);
        }
        self.nodes.hold(formula, fact)?;
        if is_delayed(bank, formula) {
            self.take_delayed(bank, formula)?;
            return Ok(Step::Goes);
        }
        let origin = self.reasons.facts.origin(fact);
        let is_bundle = self.is_trial || !self.asked.has_goal();
        if origin == 1 && part_count(bank, formula) > LONG && is_bundle {
            let number = formula;
            self.add_bundle(bank, Held { number, fact })?;
            return Ok(Step::Goes);
        }
        let is_condition = self.is_condition(bank, fact);
        for place in 0..part_count(bank, formula) {
            let part = part_at(bank, formula, place);
            let origin = if origin == 1 && !is_condition && !self.touches_part(bank, part) {
                0
            } else {
                origin
            };
            self.learn(Said::Formula(part), Reason::Part(fact, place), origin)?;
        }
        Ok(Step::Goes)
    }

    // Whether a fact is a condition of an `or`: a part that isn't the last one, where the others are refuted.
    fn is_condition(&self, bank: &Bank, fact: usize) -> bool {
        match self.reason(fact) {
            Some(Reason::Unit(whole, place)) => {
                let or = self.reasons.facts.formula(whole);
                place.saturating_add(1) < part_count(bank, or)
            }
            _ => false,
        }
    }

    fn take_or(&mut self, bank: &Bank, formula: usize, fact: usize) -> Result<Step, AllocError> {
        if self.nodes.held(formula) != NONE {
            return Ok(Step::Goes);
        }
        if part_count(bank, formula) == 1 {
            self.nodes.hold(formula, fact)?;
            return self.take_part(bank, formula, fact, 0);
        }
        let origin = self.reasons.facts.origin(fact);
        if self.is_decided(bank, formula, origin) {
            return self.take_decided(bank, formula, fact);
        }
        self.asked.add_clause(Clause {
            formula,
            fact,
            origin,
        })?;
        if origin == 2 && part_count(bank, formula) > LONG {
            self.asked.add_goal();
        }
        self.nodes.reach(bank, &mut self.equal, formula, fact)?;
        Ok(Step::Goes)
    }

    // Whether an `or` needn't be looked at: all its parts but one are refuted, or it comes from an instance and one is true. All are where each is to be
    // looked at, and those of the goal.
    fn is_decided(&self, bank: &Bank, formula: usize, origin: usize) -> bool {
        if origin > 1 || self.nodes.is_thorough() || part_count(bank, formula) > LONG {
            return false;
        }
        self.nodes.only_open(bank, formula) != NONE
            || origin == 1 && self.nodes.first_true(bank, formula) != NONE
    }

    // The part that isn't refuted is known, where none is true.
    fn take_decided(
        &mut self,
        bank: &Bank,
        formula: usize,
        fact: usize,
    ) -> Result<Step, AllocError> {
        self.nodes.hold(formula, fact)?;
        let place = self.nodes.only_open(bank, formula);
        if place == NONE {
            return Ok(Step::Goes);
        }
        self.take_part(bank, formula, fact, place)
    }

    fn take_quantified(
        &mut self,
        bank: &Bank,
        formula: usize,
        fact: usize,
    ) -> Result<Step, AllocError> {
        if self.nodes.held(formula) != NONE {
            return Ok(Step::Goes);
        }
        let other = self.nodes.held(opposite(formula));
        if other != NONE {
            return Ok(Step::Conflict(Conflict::Facts(fact, other)));
        }
        self.nodes.know(formula, fact)?;
        if kind_of(bank, formula) == FORALL {
            self.asked.add_forall(formula, fact)?;
            self.heads.make(bank, formula)?;
        } else {
            self.requests.push(new_request(Wanted::Choose(formula, fact), NONE, NONE, NONE))?;
        }
        Ok(Step::Goes)
    }

    fn take_literal(
        &mut self,
        bank: &Bank,
        formula: usize,
        fact: usize,
    ) -> Result<Step, AllocError> {
        let pair = pair_of(formula);
        let holds = is_first(formula);
        let origin = self.reasons.facts.origin(fact);
        if origin > 0 {
            self.ask_literal(bank, formula, origin)?;
        }
        if origin > 1 {
            self.asked.set_relevant(pair)?;
        }
        let head = pair_head(bank, pair);
        if head.kind == EQUAL {
            return self.take_equality(bank, formula, fact);
        }
        self.equal.add(bank, of_pair(pair))?;
        if head.kind == GOOD && holds {
            self.asked.add_good(pair_argument(bank, pair, 0), fact)?;
        }
        if head.kind == AT_MOST {
            self.bounds.push((formula, fact))?;
            self.compared = self.compared.saturating_add(1);
        }
        if head.kind == SUB {
            self.asked.add_sub(pair)?;
        }
        let side = if holds {
            self.equal.yes()
        } else {
            self.equal.no()
        };
        self.equal.add(bank, side)?;
        step_of(self.equal.merge(bank, of_pair(pair), side, fact)?)
    }

    fn take_equality(
        &mut self,
        bank: &Bank,
        formula: usize,
        fact: usize,
    ) -> Result<Step, AllocError> {
        let pair = pair_of(formula);
        let (left, right) = (pair_argument(bank, pair, 0), pair_argument(bank, pair, 1));
        self.equal.add(bank, of_term(left))?;
        self.equal.add(bank, of_term(right))?;
        if is_first(formula) {
            if is_whole(bank, left) {
                self.equations.push((formula, fact))?;
            }
            return step_of(self.equal.merge(bank, of_term(left), of_term(right), fact)?);
        }
        let step = step_of(self.equal.separate(of_term(left), of_term(right), fact)?)?;
        if is_truth(bank, left) {
            self.two_values(bank, left)?;
            self.two_values(bank, right)?;
        }
        Ok(step)
    }

    /// A truth value is true or false.
    pub fn two_values(&mut self, bank: &Bank, term: usize) -> Result<(), AllocError> {
        if is_value(bank, term) || self.equal.literal(of_term(term)) != NONE {
            return Ok(());
        }
        self.want(new_request(Wanted::Rule(RuleKind::Bool), term, NONE, NONE))
    }

    /// Nothing waits to be done.
    pub fn drop_pending(&mut self) {
        self.equal.drop_pending();
        self.nodes.drop_pending();
        self.queue.truncate(0);
        self.done = 0;
        self.requests.truncate(0);
        self.made = 0;
    }

    /// Something is wanted, where one more instance may be made.
    pub fn want(&mut self, wanted: Request) -> Result<(), AllocError> {
        if self.left.instances > 0 {
            self.left.instances = self.left.instances.saturating_sub(1);
            self.requests.push(wanted)?;
        }
        Ok(())
    }
}

// A conflict, or nothing.
fn step_of(conflict: Option<Conflict>) -> Result<Step, AllocError> {
    Ok(match conflict {
        Some(conflict) => Step::Conflict(conflict),
        None => Step::Goes,
    })
}

// Whether a literal says that a term is one of the literals.
fn is_of_value(bank: &Bank, formula: usize) -> bool {
    let pair = pair_of(formula);
    kind_of(bank, formula) == LITERAL
        && is_first(formula)
        && pair_head(bank, pair).kind == EQUAL
        && (is_value(bank, pair_argument(bank, pair, 0))
            || is_value(bank, pair_argument(bank, pair, 1)))
}
