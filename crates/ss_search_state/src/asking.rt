// What is asked for.

use crate::state::State;
use ss_search_facts::Reason;
use ss_search_instances::Clause;
use ss_search_question::{
    ALLOCATED, AND, AT_MOST, COMMITTED, CONSTANT, ELEMENT, EQUAL, FIELD, LEVEL, LITERAL, NEXT,
    NONE, OR, OWNER, PUT, READY, SET, arguments_of, code_of_sort, first_of, is_closed, is_delayed,
    is_first, is_term, is_truth, is_value, is_whole, kind_of, of_pair, of_term, pair_argument,
    pair_head, pair_of, part_at, part_count, sort_at, term_head,
};
use ss_terms::Bank;
use std::alloc::AllocError;

// The kind of key under which all parts of a clause are asked for.
const PARTS: usize = 901;

// How many parts an `or` has at most that isn't long.
const SHORT: usize = 4;

impl State {
    // How deep reads of fields nest in a term.
    fn depth(&self, term: usize) -> usize {
        match self.depths.get(term) {
            Some(depth) => *depth as usize,
            None => 0,
        }
    }

    // Finds how deep reads nest in the terms that are new, and which of them have positions.
    pub(crate) fn grow_depths(&mut self, bank: &Bank) -> Result<(), AllocError> {
        for term in self.depths.len()..bank.term_count() {
            let mut depth = 0usize;
            for inner in arguments_of(bank, of_term(term)) {
                if code_of_sort(sort_at(bank, inner.0)) != 0 {
                    depth = depth.max(self.depth(inner.0));
                }
            }
            let kind = term_head(bank, term).kind;
            if kind == FIELD || kind == ELEMENT {
                depth = depth.saturating_add(1);
            }
            if kind == ELEMENT || kind == PUT {
                self.elements.push(term)?;
            }
            let depth = u32::try_from(depth).map_err(|_| AllocError)?;
            self.depths.push(depth)?;
        }
        Ok(())
    }

    /// Finds the program's deepest term, once.
    pub fn find_deepest(&mut self, bank: &Bank) -> Result<(), AllocError> {
        if self.deepest > 0 {
            return Ok(());
        }
        self.grow_depths(bank)?;
        let mut deepest = 0usize;
        for depth in &self.depths {
            deepest = deepest.max(*depth as usize);
        }
        self.deepest = deepest.saturating_add(1);
        Ok(())
    }

    /// An atom is asked for.
    pub fn ask_atom(&mut self, bank: &Bank, pair: usize) -> Result<(), AllocError> {
        let node = of_pair(pair);
        if self.asked.is_asked(node) {
            return Ok(());
        }
        self.ask_node(bank, node)
    }

    // A known literal is asked for. Of an equality of numbers that an instance says the sides are, since nothing is made for such an equality.
    pub(crate) fn ask_literal(
        &mut self,
        bank: &Bank,
        formula: usize,
        origin: usize,
    ) -> Result<(), AllocError> {
        let pair = pair_of(formula);
        let (left, right) = (pair_argument(bank, pair, 0), pair_argument(bank, pair, 1));
        let is_equality = is_first(formula) && pair_head(bank, pair).kind == EQUAL;
        if origin > 1 || !is_equality || !is_whole(bank, left) {
            return self.ask_atom(bank, pair);
        }
        self.ask_term(bank, right)?;
        self.ask_term(bank, left)
    }

    /// A term is asked for.
    pub fn ask_term(&mut self, bank: &Bank, term: usize) -> Result<(), AllocError> {
        if term == NONE || self.asked.is_asked(of_term(term)) {
            return Ok(());
        }
        self.ask_node(bank, of_term(term))
    }

    // A node is asked for, and what stands in it.
    fn ask_node(&mut self, bank: &Bank, node: usize) -> Result<(), AllocError> {
        self.grow_depths(bank)?;
        self.waiting.truncate(0);
        self.waiting.push(node)?;
        for _ in 0..u64::MAX {
            let Some(next) = self.waiting.pop() else {
                break;
            };
            if !self.asked.is_asked(next) && self.may_ask(bank, next) && self.asked.ask(next)? {
                self.add_node(bank, next)?;
                self.ask_inside(bank, next)?;
            }
        }
        Ok(())
    }

    // A node is there from now on; of an equality the sides are, since no other atom makes it known.
    fn add_node(&mut self, bank: &Bank, node: usize) -> Result<(), AllocError> {
        if is_term(node) || pair_head(bank, node / 2).kind != EQUAL {
            return self.equal.add(bank, node);
        }
        for argument in arguments_of(bank, node) {
            self.equal.add(bank, of_term(argument.0))?;
        }
        Ok(())
    }

    /// The kind of a node that is asked for.
    pub fn kind(&self, bank: &Bank, node: usize) -> usize {
        if is_term(node) {
            self.equal.kind(node)
        } else {
            pair_head(bank, node / 2).kind
        }
    }

    fn may_ask(&self, bank: &Bank, node: usize) -> bool {
        if !is_term(node) {
            return kind_of(bank, first_of(node / 2)) == LITERAL && self.is_atom_closed(bank, node);
        }
        is_closed(bank, node / 2)
            && !is_value(bank, node / 2)
            && self.depth(node / 2) <= self.deepest
    }

    fn is_atom_closed(&self, bank: &Bank, node: usize) -> bool {
        for argument in arguments_of(bank, node) {
            if !is_closed(bank, argument.0) {
                return false;
            }
        }
        true
    }

    fn ask_inside(&mut self, bank: &Bank, node: usize) -> Result<(), AllocError> {
        let kind = self.kind(bank, node);
        if kind >= SET && kind < EQUAL || kind == CONSTANT {
            return Ok(());
        }
        for argument in arguments_of(bank, node) {
            let inner = of_term(argument.0);
            if !self.asked.is_asked(inner) {
                self.waiting.push(inner)?;
            }
        }
        Ok(())
    }

    /// The literals of a formula are asked for, where they are open.
    pub fn ask_formula(&mut self, bank: &Bank, formula: usize) -> Result<(), AllocError> {
        let kind = kind_of(bank, formula);
        if kind == LITERAL {
            if self.nodes.value(formula).is_none() {
                self.ask_atom(bank, pair_of(formula))?;
            }
            return Ok(());
        }
        if kind != AND && kind != OR || part_count(bank, formula) > 8 || is_delayed(bank, formula) {
            return Ok(());
        }
        for place in 0..part_count(bank, formula) {
            self.ask_part(bank, part_at(bank, formula, place))?;
        }
        Ok(())
    }

    // The same, one step further in.
    fn ask_part(&mut self, bank: &Bank, formula: usize) -> Result<(), AllocError> {
        let kind = kind_of(bank, formula);
        if kind == AND || kind == OR {
            for place in 0..part_count(bank, formula) {
                let part = part_at(bank, formula, place);
                if kind_of(bank, part) == LITERAL && self.nodes.value(part).is_none() {
                    self.ask_atom(bank, pair_of(part))?;
                }
            }
            return Ok(());
        }
        if kind == LITERAL && self.nodes.value(formula).is_none() {
            self.ask_atom(bank, pair_of(formula))?;
        }
        Ok(())
    }

    /// All members of the classes that are asked for are asked for.
    pub fn ask_members(&mut self, bank: &Bank) -> Result<(), AllocError> {
        let base = self.stamp_of_undone();
        for place in 0..usize::MAX {
            let node = self.asked.node(place);
            if node == NONE {
                break;
            }
            if is_term(node) && self.equal.sweep(node, base) {
                self.ask_class(bank, node)?;
            }
        }
        Ok(())
    }

    fn ask_class(&mut self, bank: &Bank, node: usize) -> Result<(), AllocError> {
        let mut at = self.equal.next(node);
        for _ in 0..self.equal.len() {
            if at == node {
                break;
            }
            if is_term(at) {
                self.ask_term(bank, at / 2)?;
            }
            at = self.equal.next(at);
        }
        Ok(())
    }

    /// Clauses in which something asked for stands become relevant, and what stands in them is asked for.
    pub fn find_relevant(&mut self, bank: &Bank) -> Result<(), AllocError> {
        for at in 0..self.asked.live_count() {
            let clause = self.asked.clause(self.asked.live(at));
            let pair = pair_of(clause.formula);
            if self.asked.is_relevant(pair) || self.nodes.is_settled(clause.formula) {
                continue;
            }
            let origin = self.clause_origin(clause);
            if clause.origin > 0 || self.touches_clause(bank, clause.formula, origin) {
                self.asked.set_relevant(pair)?;
                self.ask_clause(bank, clause.formula, origin)?;
            }
        }
        Ok(())
    }

    // Where a clause comes from. A part of an instance comes from an instance, also where nothing in it was asked for.
    fn clause_origin(&self, clause: Clause) -> usize {
        match self.reason(clause.fact) {
            Some(Reason::Part(whole, _)) => clause.origin.max(self.origin(whole)),
            _ => clause.origin,
        }
    }

    // Whether something in a clause is asked for; of an instance, in what it says.
    fn touches_clause(&self, bank: &Bank, formula: usize, origin: usize) -> bool {
        if origin == 1 {
            self.touches_part(bank, formula)
        } else {
            self.touches(bank, formula)
        }
    }

    // Of an instance all parts but the last are asked for.
    fn ask_clause(&mut self, bank: &Bank, formula: usize, origin: usize) -> Result<(), AllocError> {
        let count = part_count(bank, formula);
        if origin == 2 && count > SHORT {
            return self.visit(bank, formula, count);
        }
        let to = if origin == 1 && count > 1 && !self.is_half(bank, formula, count) {
            count.saturating_sub(1)
        } else {
            count
        };
        for place in 0..to {
            self.ask_formula(bank, part_at(bank, formula, place))?;
        }
        Ok(())
    }

    /// All parts of a long `or` of the goal, by its place, are asked for, once. Whether something new was.
    pub fn ask_parts(&mut self, bank: &Bank, place: usize) -> Result<bool, AllocError> {
        let clause = self.asked.clause(place);
        let count = part_count(bank, clause.formula);
        if clause.origin != 2 || count <= SHORT || !self.seen.is_new(PARTS, clause.formula, 0)? {
            return Ok(false);
        }
        let before = self.asked.mark();
        for part in 0..count {
            self.ask_formula(bank, part_at(bank, clause.formula, part))?;
        }
        Ok(self.asked.has_grown(before))
    }

    // Of a long `or` of the goal what is said of owners and of what is committed is asked for.
    fn visit(&mut self, bank: &Bank, formula: usize, count: usize) -> Result<(), AllocError> {
        for place in 0..count {
            let part = part_at(bank, formula, place);
            if kind_of(bank, part) == LITERAL {
                self.visit_literal(bank, part)?;
            }
            if kind_of(bank, part) == AND {
                for inner in 0..part_count(bank, part).min(8) {
                    self.visit_inside(bank, part_at(bank, part, inner))?;
                }
            }
        }
        Ok(())
    }

    fn visit_inside(&mut self, bank: &Bank, formula: usize) -> Result<(), AllocError> {
        if kind_of(bank, formula) == LITERAL {
            return self.visit_literal(bank, formula);
        }
        for place in 0..part_count(bank, formula).min(8) {
            let part = part_at(bank, formula, place);
            if kind_of(bank, part) == LITERAL {
                self.visit_literal(bank, part)?;
            }
        }
        Ok(())
    }

    fn visit_literal(&mut self, bank: &Bank, literal: usize) -> Result<(), AllocError> {
        let pair = pair_of(literal);
        let kind = pair_head(bank, pair).kind;
        if kind == COMMITTED
            || kind == EQUAL && term_head(bank, pair_argument(bank, pair, 0)).kind == OWNER
        {
            return self.ask_atom(bank, pair);
        }
        Ok(())
    }

    // Whether the last two parts of a clause are atoms of one kind: a half of what a read comes to.
    fn is_half(&self, bank: &Bank, formula: usize, count: usize) -> bool {
        let last = part_at(bank, formula, count.saturating_sub(1));
        let before = part_at(bank, formula, count.saturating_sub(2));
        if kind_of(bank, last) != LITERAL || kind_of(bank, before) != LITERAL {
            return false;
        }
        let kind = pair_head(bank, pair_of(last)).kind;
        is_store_atom(kind) && pair_head(bank, pair_of(before)).kind == kind
    }

    /// Whether a literal is asked for, or an open one of an `and`; of an `or`, in what it says under its conditions. That an object is allocated or
    /// committed counts where it is known too.
    pub fn touches_part(&self, bank: &Bank, formula: usize) -> bool {
        let count = part_count(bank, formula);
        if kind_of(bank, formula) != OR {
            return self.is_sought(bank, formula) || self.touches_inside(bank, formula);
        }
        let last = part_at(bank, formula, count.saturating_sub(1));
        if count > 1 && self.is_half(bank, formula, count) {
            let before = part_at(bank, formula, count.saturating_sub(2));
            return self.is_sought(bank, last)
                || self.is_sought(bank, before)
                || self.touches_inside(bank, formula);
        }
        self.is_sought(bank, last) || self.touches_inside(bank, last)
    }

    // Whether a formula says that an object is allocated or committed, or isn't, and that is asked for, known or not.
    fn is_sought(&self, bank: &Bank, formula: usize) -> bool {
        let pair = pair_of(formula);
        let kind = pair_head(bank, pair).kind;
        (kind == ALLOCATED || kind == COMMITTED) && self.asked.is_asked(of_pair(pair))
    }

    fn touches_inside(&self, bank: &Bank, formula: usize) -> bool {
        let kind = kind_of(bank, formula);
        if kind == LITERAL {
            return self.is_touched(bank, formula);
        }
        kind != AND && kind != OR || self.touches(bank, formula)
    }

    // Whether an open literal of a clause is asked for.
    fn touches(&self, bank: &Bank, formula: usize) -> bool {
        for place in 0..part_count(bank, formula) {
            let part = part_at(bank, formula, place);
            let kind = kind_of(bank, part);
            if kind == LITERAL && self.is_touched(bank, part) {
                return true;
            }
            if kind == AND || kind == OR {
                for inner in 0..part_count(bank, part) {
                    let inside = part_at(bank, part, inner);
                    if kind_of(bank, inside) == LITERAL && self.is_touched(bank, inside) {
                        return true;
                    }
                }
            }
        }
        false
    }

    fn is_touched(&self, bank: &Bank, literal: usize) -> bool {
        if self.nodes.value(literal).is_some() || self.is_negated_guard(bank, literal) {
            return false;
        }
        let pair = pair_of(literal);
        let node = of_pair(pair);
        if self.asked.is_asked(node) {
            return true;
        }
        let kind = pair_head(bank, pair).kind;
        if kind == EQUAL || kind == AT_MOST {
            return self.is_side_asked(bank, pair_argument(bank, pair, 0))
                || self.is_side_asked(bank, pair_argument(bank, pair, 1));
        }
        let mut at = self.equal.next(node);
        for _ in 0..self.equal.len() {
            if at == node {
                break;
            }
            if self.asked.is_asked(at) {
                return true;
            }
            at = self.equal.next(at);
        }
        false
    }

    fn is_side_asked(&self, bank: &Bank, term: usize) -> bool {
        !is_value(bank, term) && self.asked.is_asked(of_term(term))
    }

    /// Whether a literal says that a truth value isn't a literal.
    pub fn is_negated_guard(&self, bank: &Bank, literal: usize) -> bool {
        let pair = pair_of(literal);
        let left = pair_argument(bank, pair, 0);
        pair_head(bank, pair).kind == EQUAL
            && !is_first(literal)
            && is_truth(bank, left)
            && term_head(bank, left).kind == CONSTANT
    }

    /// Asks for more where nothing is left to do. Whether something was.
    pub fn widen(&mut self, bank: &Bank) -> Result<bool, AllocError> {
        let before = self.asked.mark();
        if self.compare_positions(bank)? {
            return Ok(true);
        }
        for at in 0..self.asked.live_count() {
            let clause = self.asked.clause(self.asked.live(at));
            let pair = pair_of(clause.formula);
            if !self.asked.is_relevant(pair) && !self.nodes.is_settled(clause.formula) {
                self.asked.set_relevant(pair)?;
                self.ask_clause(bank, clause.formula, 0)?;
            }
        }
        if self.asked.has_grown(before) {
            return Ok(true);
        }
        self.ask_known(bank)?;
        Ok(self.asked.has_grown(before) || self.compare_others(bank)?)
    }

    // The literals that are known are asked for, and wanted.
    fn ask_known(&mut self, bank: &Bank) -> Result<(), AllocError> {
        for number in 0..self.reasons.facts.len() {
            let formula = self.reasons.facts.formula(number);
            if kind_of(bank, formula) == LITERAL && self.is_known_still(bank, formula) {
                self.ask_atom(bank, pair_of(formula))?;
                self.asked.set_relevant(pair_of(formula))?;
            }
        }
        Ok(())
    }

    fn is_known_still(&self, bank: &Bank, formula: usize) -> bool {
        let pair = pair_of(formula);
        if pair_head(bank, pair).kind == EQUAL {
            self.equal.is_there(of_term(pair_argument(bank, pair, 0)))
        } else {
            self.equal.is_there(of_pair(pair))
        }
    }
}

// Whether this is the kind of an atom that speaks of objects in a store.
fn is_store_atom(kind: usize) -> bool {
    kind == ALLOCATED || kind == COMMITTED || kind == READY
}

/// Whether this is the kind of a term or atom that reads a store.
pub fn reads_store(kind: usize) -> bool {
    kind == FIELD
        || kind == ELEMENT
        || kind == LEVEL
        || kind == OWNER
        || kind == NEXT
        || is_store_atom(kind)
}
