// What lines name after a mark of the bank, and the numbers that it has once the rest is forgotten.

use ss_search_question::{NONE, first_of, is_first, pair_of, second_of};
use std::alloc::{AllocError, Global};

// In place of a new number: there is none yet.
const NAMED: usize = NONE - 1;

/// The numbers from one on: of each that is named its new number, and NONE of the others.
#[derive(Drop)]
struct Behind {
    from: usize,
    numbers: Vec<usize>,
}

impl Behind {
    fn new(alloc: Global, from: usize, to: usize) -> Result<Self, AllocError> {
        let mut numbers = Vec::with_capacity(alloc, to.saturating_sub(from))?;
        for _ in from..to {
            numbers.push(NONE)?;
        }
        Ok(Behind { from, numbers })
    }

    fn put(&mut self, number: usize, new: usize) {
        if number < self.from {
            return;
        }
        if let Some(place) = self.numbers.get_mut(number.saturating_sub(self.from)) {
            *place = new;
        }
    }

    fn number(&self, number: usize) -> usize {
        if number < self.from {
            return number;
        }
        match self.numbers.get(number.saturating_sub(self.from)) {
            Some(new) => *new,
            None => NONE,
        }
    }

    fn is_named(&self, number: usize) -> bool {
        number >= self.from && self.number(number) != NONE
    }

    fn end(&self) -> usize {
        self.from.saturating_add(self.numbers.len())
    }

    // Each number stays.
    fn stay(&mut self) {
        self.from = NONE;
        self.numbers.truncate(0);
    }
}

/// The terms and the pairs of formulas after a mark: which are named, and the new numbers of those.
#[derive(Drop)]
pub struct Names {
    terms: Behind,
    pairs: Behind,
}

impl Names {
    /// No name. The terms and the pairs are those between these numbers.
    pub fn new(
        alloc: Global,
        terms: (usize, usize),
        pairs: (usize, usize),
    ) -> Result<Self, AllocError> {
        Ok(Names {
            terms: Behind::new(alloc, terms.0, terms.1)?,
            pairs: Behind::new(alloc, pairs.0, pairs.1)?,
        })
    }

    /// The number after the terms.
    pub fn term_end(&self) -> usize {
        self.terms.end()
    }

    /// The number after the pairs.
    pub fn pair_end(&self) -> usize {
        self.pairs.end()
    }

    /// The first term after the mark.
    pub fn first_term(&self) -> usize {
        self.terms.from
    }

    /// The first pair after the mark.
    pub fn first_pair(&self) -> usize {
        self.pairs.from
    }

    /// A term is named.
    pub fn name_term(&mut self, term: usize) {
        self.terms.put(term, NAMED);
    }

    /// A formula is named.
    pub fn name_formula(&mut self, formula: usize) {
        self.pairs.put(pair_of(formula), NAMED);
    }

    /// Whether a term after the mark is named.
    pub fn has_term(&self, term: usize) -> bool {
        self.terms.is_named(term)
    }

    /// Whether a formula of a pair after the mark is named.
    pub fn has_pair(&self, pair: usize) -> bool {
        self.pairs.is_named(pair)
    }

    /// A term has this number now.
    pub fn put_term(&mut self, term: usize, new: usize) {
        self.terms.put(term, new);
    }

    /// The first formula of a pair has this number now.
    pub fn put_pair(&mut self, pair: usize, new: usize) {
        self.pairs.put(pair, pair_of(new));
    }

    /// All numbers stay as they were.
    pub fn stay(&mut self) {
        self.terms.stay();
        self.pairs.stay();
    }

    /// The number of a term now.
    pub fn term(&self, term: usize) -> usize {
        self.terms.number(term)
    }

    /// The number of a formula now.
    pub fn formula(&self, formula: usize) -> usize {
        let pair = self.pairs.number(pair_of(formula));
        if is_first(formula) {
            first_of(pair)
        } else {
            second_of(pair)
        }
    }
}
