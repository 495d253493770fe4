// What a case says of sums that are no differences, by the classes of their terms.

ghost use Rattle.std.specs.Prelude.{◌≤◌, length};

use indexmap::IndexMap;
use ss_linear_sums::{LinearSum, Part, SumFact};
use ss_search_question::{NONE, of_term, term_at};
use ss_search_state::State;
use ss_terms::{Bank, Symbol, Term};
use std::alloc::{AllocError, Global};

// A class with its coefficient.
#[derive(Clone, Copy)]
struct Weight {
    node: usize,
    coefficient: i128,
}

// A sum of classes, in the order of nodes, and a number that is added.
#[derive(Drop)]
struct Weighted {
    weights: Vec<Weight>,
    constant: i128,
}

/// What a fact says. A sum of classes, or that sum with the other sign, and a number are together 0 or at most 0.
#[derive(Drop)]
pub(crate) struct Keyed {
    key: Vec<i128>,
    constant: i128,
    is_turned: bool,
    is_equality: bool,
}

/// What is known of one sum.
#[derive(Clone, Copy)]
struct Range {
    least: Option<i128>,
    most: Option<i128>,
}

/// What is known of sums of classes.
#[derive(Drop)]
pub(crate) struct Ranges {
    ranges: IndexMap<Vec<i128>, Range>,
}

// The node that stands for a term's class.
fn class_of(state: &State, node: usize) -> usize {
    if state.equal.is_there(node) {
        state.equal.class(node)
    } else {
        node
    }
}

// The number that is known to be equal to a term.
fn number_of(state: &State, bank: &Bank, node: usize) -> Option<i128> {
    if !state.equal.is_there(node) {
        return None;
    }
    let literal = state.equal.literal(node);
    if literal == NONE {
        return None;
    }
    match term_at(bank, literal / 2) {
        Some(Term::App(Symbol::Number(number), _)) => Some(*number),
        _ => None,
    }
}

// The place of a node among weights, or where it belongs.
fn place_of(weights: &[Weight], node: usize) -> usize
    ensures { result ≤ length weights.now }
{
    for (i, weight) in weights.iter().enumerate() {
        if node <= weight.node {
            return i;
        }
    }
    weights.len()
}

// Whether the node stands at the place.
fn is_at(weights: &[Weight], at: usize, node: usize) -> bool {
    match weights.get(at) {
        Some(weight) => weight.node == node,
        None => false,
    }
}

// Adds to the coefficient at a place. No where that leaves 128 bits.
fn add_coefficient(weights: &mut Vec<Weight>, at: usize, coefficient: i128) -> bool {
    if at >= weights.len() {
        return false;
    }
    let old = weights[at];
    match old.coefficient.checked_add(coefficient) {
        Some(sum) => {
            weights[at] = Weight {
                node: old.node,
                coefficient: sum,
            };
            true
        }
        None => false,
    }
}

// Adds a weight. No where a coefficient leaves 128 bits.
fn add_weight(weights: &mut Vec<Weight>, new: Weight) -> Result<bool, AllocError> {
    let at = place_of(weights, new.node);
    if is_at(weights, at, new.node) {
        return Ok(add_coefficient(weights, at, new.coefficient));
    }
    weights.insert(at, new)?;
    Ok(true)
}

// A number, with the other sign where it is turned. None where that leaves 128 bits.
fn turned(number: i128, is_turned: bool) -> Option<i128> {
    if is_turned {
        number.checked_neg()
    } else {
        Some(number)
    }
}

// Adds a node and its coefficient to a key.
fn add_to_key(key: &mut Vec<i128>, node: usize, coefficient: i128) -> Result<(), AllocError> {
    key.push(node as i128)?;
    key.push(coefficient)?;
    Ok(())
}

impl Weighted {
    // Adds a number that stands in place of a term. No where a number leaves 128 bits.
    fn add_number(&mut self, coefficient: i128, number: i128) -> bool {
        let Some(product) = coefficient.checked_mul(number) else {
            return false;
        };
        let Some(sum) = self.constant.checked_add(product) else {
            return false;
        };
        self.constant = sum;
        true
    }

    // Adds one more part of a sum. No where a number leaves 128 bits.
    fn add_part(&mut self, state: &State, bank: &Bank, part: Part) -> Result<bool, AllocError> {
        let node = of_term(part.term.0);
        match number_of(state, bank, node) {
            Some(number) => Ok(self.add_number(part.coefficient, number)),
            None => {
                let new = Weight {
                    node: class_of(state, node),
                    coefficient: part.coefficient,
                };
                add_weight(&mut self.weights, new)
            }
        }
    }

    // Whether the first coefficient is below 0.
    fn is_turned(&self) -> bool {
        for weight in &self.weights {
            if weight.coefficient != 0 {
                return weight.coefficient < 0;
            }
        }
        false
    }

    // The nodes with their coefficients, of which the first is above 0. None where one leaves 128 bits.
    fn key(&self, alloc: Global) -> Result<Option<Vec<i128>>, AllocError> {
        let is_turned = self.is_turned();
        let mut key = Vec::new(alloc);
        for weight in &self.weights {
            if weight.coefficient != 0 {
                match turned(weight.coefficient, is_turned) {
                    Some(coefficient) => add_to_key(&mut key, weight.node, coefficient)?,
                    None => return Ok(None),
                }
            }
        }
        Ok(Some(key))
    }

    // What a fact of this sum says.
    fn keyed(&self, alloc: Global, is_equality: bool) -> Result<Option<Keyed>, AllocError> {
        let key = self.key(alloc)?;
        match key {
            Some(key) => Ok(Some(Keyed {
                key,
                constant: self.constant,
                is_turned: self.is_turned(),
                is_equality,
            })),
            None => Ok(None),
        }
    }
}

/// What a fact says of the classes of its terms. None where a number leaves 128 bits.
pub(crate) fn keyed_fact(
    alloc: Global,
    state: &State,
    bank: &Bank,
    fact: &SumFact,
) -> Result<Option<Keyed>, AllocError> {
    let mut sum = Weighted {
        weights: Vec::new(alloc),
        constant: fact.sum.constant,
    };
    for part in &fact.sum.parts {
        if !sum.add_part(state, bank, *part)? {
            return Ok(None);
        }
    }
    sum.keyed(alloc, fact.is_equality)
}

/// Whether a sum is a term less another one, or has fewer terms.
pub(crate) fn is_difference(sum: &LinearSum) -> bool {
    let mut above = 0usize;
    let mut below = 0usize;
    for part in &sum.parts {
        if part.coefficient == 1 {
            above = above.saturating_add(1);
        } else if part.coefficient == -1 {
            below = below.saturating_add(1);
        } else if part.coefficient != 0 {
            return false;
        }
    }
    above <= 1 && below <= 1
}

// The greater one of an end and a number.
fn greater(end: Option<i128>, number: i128) -> i128 {
    match end {
        Some(end) => { if end > number { end } else { number } }
        None => number,
    }
}

// The smaller one of an end and a number.
fn smaller(end: Option<i128>, number: i128) -> i128 {
    match end {
        Some(end) => { if end < number { end } else { number } }
        None => number,
    }
}

impl Range {
    // At least this, too.
    fn at_least(self, number: i128) -> Range {
        Range {
            least: Some(greater(self.least, number)),
            most: self.most,
        }
    }

    // At most this, too.
    fn at_most(self, number: i128) -> Range {
        Range {
            least: self.least,
            most: Some(smaller(self.most, number)),
        }
    }

    // With the end that a fact gives, which is the least number where it is turned; an equality gives both.
    fn with_end(self, end: i128, is_turned: bool, is_equality: bool) -> Range {
        if is_equality {
            return self.at_least(end).at_most(end);
        }
        if is_turned {
            self.at_least(end)
        } else {
            self.at_most(end)
        }
    }

    // A number in the range.
    fn end(self) -> Option<i128> {
        match self.least {
            Some(least) => Some(least),
            None => self.most,
        }
    }
}

// Whether a sum of which the key comes to a number makes a fact so. None where a number leaves 128 bits.
fn is_so_with(fact: &Keyed, number: i128) -> Option<bool> {
    let signed = turned(number, fact.is_turned)?;
    let sum = signed.checked_add(fact.constant)?;
    if fact.is_equality {
        Some(sum == 0)
    } else {
        Some(sum <= 0)
    }
}

impl Ranges {
    /// Nothing is known.
    pub(crate) fn new(alloc: Global) -> Ranges {
        Ranges {
            ranges: IndexMap::new(alloc),
        }
    }

    // What is known of a sum.
    fn range(&self, key: &Vec<i128>) -> Range {
        match self.ranges.get(key) {
            Some(range) => *range,
            None => Range {
                least: None,
                most: None,
            },
        }
    }

    /// One more fact is known.
    pub(crate) fn add(&mut self, fact: Keyed) -> Result<(), AllocError> {
        let Keyed {
            key,
            constant,
            is_turned,
            is_equality,
        } = fact;
        match turned(constant, !is_turned) {
            Some(end) => {
                let range = self.range(&key).with_end(end, is_turned, is_equality);
                self.ranges.insert(key, range)?;
                Ok(())
            }
            None => Ok(()),
        }
    }

    /// Whether a fact is so, where something is known of its sum.
    pub(crate) fn decides(&self, fact: &Keyed) -> Option<bool> {
        match self.range(&fact.key).end() {
            Some(number) => is_so_with(fact, number),
            None => None,
        }
    }
}
