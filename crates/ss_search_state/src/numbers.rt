// Contradictions of what is known of whole numbers.

ghost use Rattle.std.specs.Prelude.{OnOk};
ghost use Rattle.ss_terms.specs.Forms.{HasFormulas};

use crate::state::{State, Step};
use ss_deriv::Sum;
use ss_linear::refute;
use ss_search_classes::Conflict;
use ss_search_facts::{Reason, Said};
use ss_search_numbers::{Part, Source};
use ss_search_question::{
    ADD, MULTIPLY, NONE, NUMBER, SUBTRACT, is_first, is_term, of_term, pair_argument, pair_of,
    term_argument, term_at, term_head,
};
use ss_terms::{Bank, FormulaId, Symbol, Term};
use std::alloc::AllocError;

/// How deep sums may nest.
const DEEPEST: usize = 200;

impl State {
    // Looks for a contradiction, where something changed.
    pub(crate) fn look_at_numbers(&mut self, bank: &Bank) -> Result<Step, AllocError> {
        if !self.has_numbers || self.bounds.is_empty() {
            return Ok(Step::Rests);
        }
        self.grow_depths(bank)?;
        let counted = (self.equal.number_merges(), self.compared);
        if counted == self.counted {
            return Ok(Step::Rests);
        }
        self.counted = counted;
        self.rows.clear();
        self.collect_bounds(bank)?;
        self.collect_sums(bank)?;
        let row = self.rows.refute()?;
        if row == NONE {
            return Ok(Step::Rests);
        }
        let fact = self.fact_of_row(bank, row)?;
        if fact == NONE {
            return Ok(Step::Rests);
        }
        self.counted = (0, 0);
        Ok(Step::Conflict(Conflict::Facts(fact, fact)))
    }

    /// Whether two whole numbers come to the same where sums and differences are taken apart, and equal terms are one.
    pub fn come_to_same(&mut self, bank: &Bank, x: usize, y: usize) -> Result<bool, AllocError> {
        self.rows.clear();
        self.rows.begin();
        self.add_sides(bank, x, y)?;
        Ok(self.rows.is_zero())
    }

    /// Looks for a contradiction of the known literals that compare whole numbers, as they stand: of one or two of them, of differences, and
    /// others.
    pub fn refute_numbers(&mut self, bank: &Bank) -> Result<Step, AllocError> {
        let mut formulas = Vec::new(self.alloc);
        let mut facts = Vec::new(self.alloc);
        add_literals(bank, &mut formulas, &mut facts, &self.bounds)?;
        add_literals(bank, &mut formulas, &mut facts, &self.equations)?;
        match refute(self.alloc, bank, &formulas)? {
            Some(sums) => self.learn_sums(&sums, facts),
            None => Ok(Step::Rests),
        }
    }

    // A fact for each sum; the last one is a contradiction.
    fn learn_sums(&mut self, sums: &[Sum], mut facts: Vec<usize>) -> Result<Step, AllocError> {
        let mut last = NONE;
        for sum in sums {
            last = self.learn_sum(sum, &facts)?;
            facts.push(last)?;
        }
        if last == NONE {
            return Ok(Step::Rests);
        }
        Ok(Step::Conflict(Conflict::Facts(last, last)))
    }

    fn learn_sum(&mut self, sum: &Sum, facts: &[usize]) -> Result<usize, AllocError> {
        let mut numbers = Vec::new(self.alloc);
        let from = self.reasons.facts.weights.len();
        for part in &sum.parts {
            numbers.push(facts.get(part.0).copied().unwrap_or(NONE))?;
            self.reasons.facts.weights.push(part.1)?;
        }
        let range = self.reasons.facts.keep(&numbers)?;
        self.reasons.facts.add(
            Said::Equal(NONE, NONE),
            Reason::Sum(sum.divisor, range, from),
            1,
        )
    }

    fn collect_bounds(&mut self, bank: &Bank) -> Result<(), AllocError> {
        for place in 0..self.bounds.len() {
            let Some((literal, fact)) = self.bounds.get(place).copied() else {
                break;
            };
            let pair = pair_of(literal);
            let (x, y) = (pair_argument(bank, pair, 0), pair_argument(bank, pair, 1));
            self.rows.begin();
            self.rows.add_part(Source::Fact(fact), 1)?;
            if is_first(literal) {
                self.add_sides(bank, x, y)?;
            } else {
                self.rows.add_number(1);
                self.add_sides(bank, y, x)?;
            }
            self.rows.end(false)?;
        }
        Ok(())
    }

    fn add_sides(&mut self, bank: &Bank, x: usize, y: usize) -> Result<(), AllocError> {
        self.add_term(bank, x, 1, DEEPEST)?;
        self.add_term(bank, y, -1, DEEPEST)
    }

    // The sums that are equal to something else.
    fn collect_sums(&mut self, bank: &Bank) -> Result<(), AllocError> {
        for place in 0..usize::MAX {
            let sum = self.equal.sum(place);
            if sum == NONE {
                break;
            }
            let other = self.stands_for(bank, sum);
            if other != sum {
                self.add_equation(bank, sum, other)?;
            }
        }
        Ok(())
    }

    fn add_equation(&mut self, bank: &Bank, sum: usize, other: usize) -> Result<(), AllocError> {
        self.rows.begin();
        self.rows.add_part(Source::Equal(sum, other), 1)?;
        self.add_term(bank, sum, 1, DEEPEST)?;
        if is_linear(bank, other) {
            self.add_term(bank, other, -1, DEEPEST)?;
        } else {
            self.add_leaf(bank, other, -1)?;
        }
        self.rows.end(true)
    }

    // Adds so many times a term, taken apart.
    fn add_term(
        &mut self,
        bank: &Bank,
        term: usize,
        weight: i128,
        fuel: usize,
    ) -> Result<(), AllocError> {
        let kind = term_head(bank, term).kind;
        if fuel == 0 {
            self.rows.spoil();
            return Ok(());
        }
        if kind == ADD || kind == SUBTRACT {
            let (first, second) = (term_argument(bank, term, 0), term_argument(bank, term, 1));
            self.add_term(bank, first, weight, fuel - 1)?;
            let other = if kind == ADD {
                weight
            } else {
                weight.saturating_neg()
            };
            return self.add_term(bank, second, other, fuel - 1);
        }
        if let Some((factor, inner)) = factor_of(bank, term) {
            let Some(product) = factor.checked_mul(weight) else {
                self.rows.spoil();
                return Ok(());
            };
            return self.add_term(bank, inner, product, fuel - 1);
        }
        self.add_other(bank, term, weight)
    }

    // Adds so many times a term that isn't taken apart, by what stands for it.
    fn add_other(&mut self, bank: &Bank, term: usize, weight: i128) -> Result<(), AllocError> {
        let other = self.stands_for(bank, term);
        if other != term && weight != 0 {
            self.rows
                .add_part(Source::Equal(term, other), weight.saturating_neg())?;
        }
        self.add_leaf(bank, other, weight)
    }

    // Adds so many times a number, or a term as it is.
    fn add_leaf(&mut self, bank: &Bank, term: usize, weight: i128) -> Result<(), AllocError> {
        let Some(number) = number_of(bank, term) else {
            return self.rows.add(term, weight);
        };
        match number.checked_mul(weight) {
            Some(product) => self.rows.add_number(product),
            None => self.rows.spoil(),
        }
        Ok(())
    }

    // The term that stands for a class: its literal, or the oldest term that sums don't take apart.
    fn stands_for(&self, bank: &Bank, term: usize) -> usize {
        let node = of_term(term);
        if !self.equal.is_there(node) {
            return term;
        }
        let literal = self.equal.literal(node);
        if literal != NONE {
            return literal / 2;
        }
        let mut best = NONE;
        let mut oldest = term;
        let mut at = node;
        for _ in 0..self.equal.len() {
            if is_term(at) {
                oldest = oldest.min(at / 2);
                if !is_linear(bank, at / 2) {
                    best = best.min(at / 2);
                }
            }
            at = self.equal.next(at);
            if at == node {
                break;
            }
        }
        if best == NONE { oldest } else { best }
    }

    // A fact that says what a row says, or NONE.
    fn fact_of_row(&mut self, bank: &Bank, row: usize) -> Result<usize, AllocError> {
        self.rows.find_needed(row)?;
        let mut fact = NONE;
        for place in 0..row.saturating_add(1) {
            if self.rows.is_step(place, row) {
                fact = self.fact_of_step(bank, place)?;
                if fact == NONE {
                    break;
                }
                self.rows.set_fact(place, fact);
            }
        }
        Ok(fact)
    }

    fn fact_of_step(&mut self, bank: &Bank, row: usize) -> Result<usize, AllocError> {
        let Some(parts) = self.rows.parts_of(self.alloc, row)? else {
            return Ok(NONE);
        };
        let mut facts = Vec::new(self.alloc);
        let mut weights = Vec::new(self.alloc);
        for part in &parts {
            if part.weight != 0 {
                facts.push(self.fact_of_part(bank, *part)?)?;
                weights.push(part.weight)?;
            }
        }
        let range = self.reasons.facts.keep(&facts)?;
        let from = self.reasons.facts.weights.len();
        for weight in &weights {
            self.reasons.facts.weights.push(*weight)?;
        }
        self.reasons.facts.add(
            Said::Equal(NONE, NONE),
            Reason::Sum(self.rows.divisor(row), range, from),
            1,
        )
    }

    fn fact_of_part(&mut self, bank: &Bank, part: Part) -> Result<usize, AllocError> {
        match part.source {
            Source::Fact(fact) => Ok(fact),
            Source::Row(row) => Ok(self.rows.fact(row)),
            Source::Equal(x, y) => self.reasons.equal(bank, &self.equal, x, y),
        }
    }
}

// Adds known literals that the bank has, and the facts that say them.
fn add_literals(
    bank: &Bank,
    formulas: &mut Vec<FormulaId>,
    facts: &mut Vec<usize>,
    literals: &[(usize, usize)],
) -> Result<(), AllocError>
    requires { HasFormulas bank.now formulas.old.items }
    ensures { OnOk result (HasFormulas bank.now formulas.new.items) }
{
    for known in literals {
        add_literal(bank, formulas, facts, *known)?;
    }
    Ok(())
}

fn add_literal(
    bank: &Bank,
    formulas: &mut Vec<FormulaId>,
    facts: &mut Vec<usize>,
    known: (usize, usize),
) -> Result<(), AllocError>
    requires { HasFormulas bank.now formulas.old.items }
    ensures { OnOk result (HasFormulas bank.now formulas.new.items) }
{
    let formula = FormulaId(known.0);
    if bank.has_formula(formula) {
        formulas.push(formula)?;
        facts.push(known.1)?;
    }
    Ok(())
}

// The number that a term is.
fn number_of(bank: &Bank, term: usize) -> Option<i128> {
    match term_at(bank, term) {
        Some(Term::App(Symbol::Number(number), _)) => Some(*number),
        _ => None,
    }
}

// The number that a product has on one side, and its other side.
fn factor_of(bank: &Bank, term: usize) -> Option<(i128, usize)> {
    if term_head(bank, term).kind != MULTIPLY {
        return None;
    }
    let (first, second) = (term_argument(bank, term, 0), term_argument(bank, term, 1));
    if let Some(number) = number_of(bank, first) {
        return Some((number, second));
    }
    match number_of(bank, second) {
        Some(number) => Some((number, first)),
        None => None,
    }
}

// Whether sums take a term apart.
fn is_linear(bank: &Bank, term: usize) -> bool {
    let kind = term_head(bank, term).kind;
    kind == ADD || kind == SUBTRACT || kind == NUMBER || factor_of(bank, term).is_some()
}
