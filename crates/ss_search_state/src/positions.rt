// Positions in arrays that are compared.

use crate::requests::{Wanted, new_request};
use crate::state::State;
use ss_search_facts::RuleKind;
use ss_search_question::{ELEMENT, NONE, argument, is_term, node_head, of_term, same_head};
use ss_terms::Bank;
use std::alloc::AllocError;

// The kind of key under which two positions are compared.
const COMPARED: usize = 900;

fn is_element(bank: &Bank, node: usize) -> bool {
    is_term(node) && node_head(bank, node).kind == ELEMENT
}

impl State {
    // Compares two positions of equal arrays that are asked for. Whether there are such.
    pub(crate) fn compare_positions(&mut self, bank: &Bank) -> Result<bool, AllocError> {
        for first in 0..self.asked.len() {
            let node = self.asked.node(first);
            if is_element(bank, node) && self.compare_before(bank, node, first)? {
                return Ok(true);
            }
        }
        Ok(false)
    }

    // The same with the reads that were asked for before.
    fn compare_before(
        &mut self,
        bank: &Bank,
        node: usize,
        count: usize,
    ) -> Result<bool, AllocError> {
        for place in 0..count {
            let other = self.asked.node(place);
            if is_element(bank, other) && self.compare(bank, node, other)? {
                return Ok(true);
            }
        }
        Ok(false)
    }

    // Compares a position that is asked for with one that is there. Whether there are such.
    pub(crate) fn compare_others(&mut self, bank: &Bank) -> Result<bool, AllocError> {
        for first in 0..self.asked.len() {
            let node = self.asked.node(first);
            if is_element(bank, node) && self.compare_with_all(bank, node)? {
                return Ok(true);
            }
        }
        Ok(false)
    }

    fn compare_with_all(&mut self, bank: &Bank, node: usize) -> Result<bool, AllocError> {
        for place in 0..self.elements.len() {
            let Some(term) = self.elements.get(place).copied() else {
                break;
            };
            let other = of_term(term);
            if self.equal.is_there(other) && self.compare(bank, node, other)? {
                return Ok(true);
            }
        }
        Ok(false)
    }

    fn compare(&mut self, bank: &Bank, a: usize, b: usize) -> Result<bool, AllocError> {
        let (first, second) = (of_term(argument(bank, a, 1)), of_term(argument(bank, b, 1)));
        if !same_head(node_head(bank, a), node_head(bank, b))
            || !self.equal.are_equal(first, second)
        {
            return Ok(false);
        }
        let (x, y) = (argument(bank, a, 2), argument(bank, b, 2));
        if self.equal.relation(of_term(x), of_term(y)).is_some() {
            return Ok(false);
        }
        let (left, right) = (self.equal.class(of_term(x)), self.equal.class(of_term(y)));
        let is_new = self
            .seen
            .is_new(COMPARED, left.min(right), left.max(right))?;
        if is_new {
            self.want(new_request(Wanted::Rule(RuleKind::Apart), x, y, NONE))?;
        }
        Ok(is_new)
    }
}
