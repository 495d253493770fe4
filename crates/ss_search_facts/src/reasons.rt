// How parts that are refuted are closed, and what a conflict needs.

use crate::facts::{Facts, Range, Reason, Said};
use crate::proof::{End, Proof};
use ss_search_classes::{CONGRUENT, Classes, Conflict, Step, Why};
use ss_search_nodes::{Ground, Nodes};
use ss_search_question::{
    AND, EQUAL, Keys, LITERAL, NONE, OR, argument, arity, first_of, is_first, is_term, kind_of,
    of_pair, of_term, pair_argument, pair_head, pair_of, part_at, part_count, second_of,
};
use ss_terms::Bank;
use std::alloc::{AllocError, Global};

/// How deep reasons of equalities may nest.
const DEEPEST: usize = 4000;

/// A block in which a formula that is refuted is known by this fact.
#[derive(Clone, Copy)]
struct Closing {
    block: usize,
    fact: usize,
    formula: usize,
}

/// The facts and the proof, with the blocks that are still to be closed, and the equalities that were made for this proof.
#[derive(Drop)]
pub struct Reasons {
    alloc: Global,
    pub facts: Facts,
    pub proof: Proof,
    closing: Vec<Closing>,
    made: Keys,
    // The unit whose other parts are closed, by what is older, or NONE; and how often a path was short by a fact that a node is a literal.
    before: usize,
    shortened: usize,
}

impl Reasons {
    /// Nothing is known.
    pub fn new(alloc: Global) -> Self {
        Reasons {
            alloc,
            facts: Facts::new(alloc),
            proof: Proof::new(alloc),
            closing: Vec::new(alloc),
            made: Keys::new(alloc),
            before: NONE,
            shortened: 0,
        }
    }

    fn need(&mut self, fact: usize) -> Result<(), AllocError> {
        self.proof.need(&mut self.facts, fact)
    }

    /// The block stands on what a fact stands on.
    pub fn stand_on(&mut self, fact: usize) -> Result<(), AllocError> {
        self.need(fact)
    }

    /// A proof of another conflict begins.
    pub fn begin(&mut self) {
        self.proof.begin();
        self.made.undo(0);
    }

    // A fact that two terms are equal, by the path from one to the other.
    #[cycle(chaining)]
    fn chain(
        &mut self,
        bank: &Bank,
        classes: &Classes,
        x: usize,
        y: usize,
        fuel: usize,
    ) -> Result<usize, AllocError> {
        let made = self.made_before(x, y, 0);
        if made != NONE {
            return Ok(made);
        }
        let shortened = self.shortened;
        let mut numbers = Vec::new(self.alloc);
        self.add_path(bank, classes, (x, y), &mut numbers, fuel)?;
        let fact = self.chain_of(bank, (x, y), &numbers)?;
        self.keep_made((x, y, 0), fact, shortened)?;
        Ok(fact)
    }

    // The fact that was made for two nodes and stands here, or NONE. One on a shorter path stands only where it was made.
    fn made_before(&mut self, x: usize, y: usize, kind: usize) -> usize {
        let made = self.made.value(x, y, kind);
        if made != NONE {
            return made;
        }
        let made = self.made.value(x, y, self.place_of(kind));
        if made != NONE {
            self.shortened = self.shortened.wrapping_add(1);
        }
        made
    }

    // Keeps a fact that was made for two nodes, where paths had been short so often before.
    fn keep_made(
        &mut self,
        key: (usize, usize, usize),
        fact: usize,
        shortened: usize,
    ) -> Result<(), AllocError> {
        let (x, y, kind) = key;
        let third = if self.shortened == shortened {
            kind
        } else {
            self.place_of(kind)
        };
        self.made.add(x, y, third, fact)
    }

    // The third part of the key of what is made on shorter paths.
    fn place_of(&self, kind: usize) -> usize {
        self.before
            .wrapping_mul(2)
            .wrapping_add(kind)
            .wrapping_add(4)
    }

    // Adds the steps on the path from one node to another.
    fn add_steps(
        &mut self,
        classes: &Classes,
        sides: (usize, usize),
        steps: &mut Vec<Step>,
    ) -> Result<(), AllocError> {
        if classes.path(sides.0, sides.1, self.before, steps)? {
            self.shortened = self.shortened.wrapping_add(1);
        }
        Ok(())
    }

    // The fact that a path makes known.
    fn chain_of(
        &mut self,
        bank: &Bank,
        sides: (usize, usize),
        numbers: &[usize],
    ) -> Result<usize, AllocError> {
        if let [only] = numbers {
            if self.facts.says_equal(bank, *only, sides.0, sides.1) {
                return Ok(*only);
            }
        }
        let range = self.facts.keep(numbers)?;
        self.facts
            .add(Said::Equal(sides.0, sides.1), Reason::Chain(range), 1)
    }

    // Adds the facts on the path from one term to another.
    #[cycle(chaining)]
    fn add_path(
        &mut self,
        bank: &Bank,
        classes: &Classes,
        sides: (usize, usize),
        numbers: &mut Vec<usize>,
        fuel: usize,
    ) -> Result<(), AllocError> {
        let mut steps = Vec::new(self.alloc);
        self.add_steps(classes, (of_term(sides.0), of_term(sides.1)), &mut steps)?;
        for step in &steps {
            let fact = self.fact_of_step(bank, classes, *step, fuel)?;
            numbers.push(fact)?;
        }
        Ok(())
    }

    #[cycle(chaining)]
    fn fact_of_step(
        &mut self,
        bank: &Bank,
        classes: &Classes,
        step: Step,
        fuel: usize,
    ) -> Result<usize, AllocError> {
        if step.fact != CONGRUENT {
            return Ok(step.fact);
        }
        let made = self.made_before(step.from, step.to, 1);
        if made != NONE {
            return Ok(made);
        }
        let shortened = self.shortened;
        let range = self.arguments(bank, classes, step, fuel)?;
        let said = Said::Equal(step.from / 2, step.to / 2);
        let fact = self.facts.add(said, Reason::Cong(range), 1)?;
        self.keep_made((step.from, step.to, 1), fact, shortened)?;
        Ok(fact)
    }

    // The facts that the arguments of two nodes are equal, those that differ, one by one.
    #[cycle(chaining)]
    fn arguments(
        &mut self,
        bank: &Bank,
        classes: &Classes,
        step: Step,
        fuel: usize,
    ) -> Result<Range, AllocError> {
        let mut numbers = Vec::new(self.alloc);
        for place in 0..arity(bank, step.from) {
            let left = argument(bank, step.from, place);
            let right = argument(bank, step.to, place);
            if left != right && fuel > 0 {
                let fact = self.chain(bank, classes, left, right, fuel - 1)?;
                numbers.push(fact)?;
            }
        }
        self.facts.keep(&numbers)
    }

    /// A fact that two terms are equal.
    pub fn equal(
        &mut self,
        bank: &Bank,
        classes: &Classes,
        x: usize,
        y: usize,
    ) -> Result<usize, AllocError> {
        self.chain(bank, classes, x, y, DEEPEST)
    }

    // A chain by a path to `ends.0`, an equality from there to `ends.1`, and a path from there.
    fn chain_over(
        &mut self,
        bank: &Bank,
        classes: &Classes,
        sides: (usize, usize),
        ends: (usize, usize),
        fact: usize,
    ) -> Result<usize, AllocError> {
        let mut numbers = Vec::new(self.alloc);
        self.add_path(bank, classes, (sides.0, ends.0), &mut numbers, DEEPEST)?;
        numbers.push(fact)?;
        self.add_path(bank, classes, (ends.1, sides.1), &mut numbers, DEEPEST)?;
        self.chain_of(bank, sides, &numbers)
    }

    /// A fact that a literal holds whose atom is in the class of `true` or `false`.
    pub fn mark(
        &mut self,
        bank: &Bank,
        classes: &Classes,
        pair: usize,
        literal: usize,
    ) -> Result<usize, AllocError> {
        let mut steps = Vec::new(self.alloc);
        self.add_steps(classes, (of_pair(pair), literal), &mut steps)?;
        let Some(step) = steps.get(steps.len().saturating_sub(1)).copied() else {
            return Ok(NONE);
        };
        let formula = if literal == classes.yes() {
            first_of(pair)
        } else {
            second_of(pair)
        };
        self.swap(
            bank,
            classes,
            (step.from, step.fact),
            of_pair(pair),
            formula,
        )
    }

    // The literal of the second node, by a fact that is the literal of the first one.
    fn swap(
        &mut self,
        bank: &Bank,
        classes: &Classes,
        from: (usize, usize),
        to: usize,
        formula: usize,
    ) -> Result<usize, AllocError> {
        if from.0 == to {
            return Ok(from.1);
        }
        let step = Step {
            from: from.0,
            to,
            fact: NONE,
        };
        let range = self.arguments(bank, classes, step, DEEPEST)?;
        self.facts
            .add(Said::Formula(formula), Reason::Swap(from.1, range), 1)
    }

    // The block ends with a clash of two facts.
    fn clash(&mut self, block: usize, first: usize, second: usize) -> Result<(), AllocError> {
        self.proof.end(block, End::Clash(first, second));
        self.need(first)?;
        self.need(second)
    }

    /// A block that closes a conflict.
    pub fn close_conflict(
        &mut self,
        bank: &Bank,
        classes: &Classes,
        nodes: &Nodes,
        conflict: Conflict,
    ) -> Result<usize, AllocError> {
        match conflict {
            Conflict::Parts(fact) => self.split(bank, classes, nodes, (fact, NONE, NONE)),
            Conflict::Literals(x, y) => self.close_literals(bank, classes, x, y),
            Conflict::Apart(fact) => {
                let (x, y) = self.facts.sides(bank, fact);
                self.close_equal(bank, classes, (x, y), fact)
            }
            Conflict::Facts(first, second) => {
                let block = self.proof.open(End::Nothing)?;
                self.clash(block, first, second)?;
                Ok(block)
            }
        }
    }

    // A block that closes by two nodes of one class that are different literals.
    fn close_literals(
        &mut self,
        bank: &Bank,
        classes: &Classes,
        x: usize,
        y: usize,
    ) -> Result<usize, AllocError> {
        let mut steps = Vec::new(self.alloc);
        self.add_steps(classes, (x, y), &mut steps)?;
        let (Some(first), Some(last)) = (steps.first().copied(), steps.last().copied()) else {
            return self.proof.open(End::Nothing);
        };
        if is_term(first.to) {
            return self.close_equal(bank, classes, (x / 2, y / 2), NONE);
        }
        let block = self.proof.open(End::Nothing)?;
        let pair = last.from / 2;
        let formula = if x == classes.yes() {
            first_of(pair)
        } else {
            second_of(pair)
        };
        let fact = self.swap(bank, classes, (first.to, first.fact), last.from, formula)?;
        self.clash(block, fact, last.fact)?;
        Ok(block)
    }

    // A block that closes by two equal terms, which differ by a fact, or are two literals where there is none.
    fn close_equal(
        &mut self,
        bank: &Bank,
        classes: &Classes,
        sides: (usize, usize),
        apart: usize,
    ) -> Result<usize, AllocError> {
        let block = self.proof.open(End::Nothing)?;
        if sides.0 == sides.1 {
            self.clash(block, apart, apart)?;
            return Ok(block);
        }
        let chain = self.chain(bank, classes, sides.0, sides.1, DEEPEST)?;
        let other = if apart == NONE { chain } else { apart };
        self.clash(block, chain, other)?;
        Ok(block)
    }

    /// A block with the cases of an `or`, of which the part with this unit is the given block, and each other is closed. What
    /// is given is the fact of the `or`, the fact of the unit and its block.
    pub fn split(
        &mut self,
        bank: &Bank,
        classes: &Classes,
        nodes: &Nodes,
        whole: (usize, usize, usize),
    ) -> Result<usize, AllocError> {
        let block = self.proof.open(End::Split(whole.0))?;
        self.before = whole.1;
        self.split_parts(bank, block, whole)?;
        self.close_all(bank, classes, nodes)?;
        self.before = NONE;
        Ok(block)
    }

    fn split_parts(
        &mut self,
        bank: &Bank,
        block: usize,
        whole: (usize, usize, usize),
    ) -> Result<(), AllocError> {
        self.need(whole.0)?;
        let open = match self.facts.fact(whole.1) {
            Some(fact) => match fact.reason {
                Reason::Unit(_, place) => place,
                _ => NONE,
            },
            None => NONE,
        };
        let formula = self.facts.formula(whole.0);
        for place in 0..part_count(bank, formula) {
            if place == open {
                self.proof.attach(block, whole.2, whole.1);
            } else {
                self.close_later(block, part_at(bank, formula, place))?;
            }
        }
        Ok(())
    }

    /// A case of a block, for a part that is refuted.
    pub fn close_case(
        &mut self,
        bank: &Bank,
        classes: &Classes,
        nodes: &Nodes,
        above: usize,
        part: usize,
    ) -> Result<(), AllocError> {
        self.close_later(above, part)?;
        self.close_all(bank, classes, nodes)
    }

    // One more case of a block, for a part that is refuted.
    fn close_later(&mut self, above: usize, part: usize) -> Result<(), AllocError> {
        let block = self.proof.open(End::Nothing)?;
        let own = self.facts.add(Said::Formula(part), Reason::Own, 1)?;
        self.proof.attach(above, block, own);
        self.closing.push(Closing {
            block,
            fact: own,
            formula: part,
        })?;
        Ok(())
    }

    // Closes the blocks that wait.
    fn close_all(
        &mut self,
        bank: &Bank,
        classes: &Classes,
        nodes: &Nodes,
    ) -> Result<(), AllocError> {
        for _ in 0..u64::MAX {
            let Some(closing) = self.closing.pop() else {
                break;
            };
            self.close_one(bank, classes, nodes, closing)?;
        }
        Ok(())
    }

    fn close_one(
        &mut self,
        bank: &Bank,
        classes: &Classes,
        nodes: &Nodes,
        closing: Closing,
    ) -> Result<(), AllocError> {
        let pair = pair_of(closing.formula);
        let Some(ground) = nodes.ground(pair) else {
            return Ok(());
        };
        let kind = kind_of(bank, closing.formula);
        match ground {
            Ground::Known(fact) => self.clash(closing.block, fact, closing.fact),
            Ground::Atom(why) => self.close_atom(bank, classes, closing, why),
            Ground::Part(place) if kind == AND => self.close_part(bank, closing, place),
            _ if kind == OR => self.close_or(bank, closing),
            _ => Ok(()),
        }
    }

    fn close_atom(
        &mut self,
        bank: &Bank,
        classes: &Classes,
        closing: Closing,
        why: Why,
    ) -> Result<(), AllocError> {
        let pair = pair_of(closing.formula);
        let sides = (pair_argument(bank, pair, 0), pair_argument(bank, pair, 1));
        match why {
            Why::Marked(literal) => {
                let fact = self.mark(bank, classes, pair, literal)?;
                self.clash(closing.block, fact, closing.fact)
            }
            Why::Equal if sides.0 == sides.1 => self.clash(
                closing.block,
                closing.fact,
                closing.fact,
            ),
            Why::Equal => {
                let chain = self.chain(bank, classes, sides.0, sides.1, DEEPEST)?;
                self.clash(closing.block, chain, closing.fact)
            }
            Why::Literals(x, y) => {
                let ends = (x / 2, y / 2);
                let chain = self.chain_over(bank, classes, ends, sides, closing.fact)?;
                self.clash(closing.block, chain, chain)
            }
            Why::Apart(apart, is_swapped) => {
                let ends = self.facts.sides(bank, apart);
                let sides = if is_swapped {
                    (sides.1, sides.0)
                } else {
                    sides
                };
                let chain = self.chain_over(bank, classes, ends, sides, closing.fact)?;
                self.clash(closing.block, chain, apart)
            }
        }
    }

    // An `and` with a part that is refuted.
    fn close_part(
        &mut self,
        bank: &Bank,
        closing: Closing,
        place: usize,
    ) -> Result<(), AllocError> {
        let formula = part_at(bank, closing.formula, place);
        let fact = self.facts.add(Said::Formula(formula), Reason::Part(closing.fact, place), 1)?;
        self.closing.push(Closing {
            block: closing.block,
            fact,
            formula,
        })?;
        Ok(())
    }

    // An `or` of which each part is refuted.
    fn close_or(&mut self, bank: &Bank, closing: Closing) -> Result<(), AllocError> {
        self.proof.end(closing.block, End::Split(closing.fact));
        self.need(closing.fact)?;
        for place in 0..part_count(bank, closing.formula) {
            self.close_later(closing.block, part_at(bank, closing.formula, place))?;
        }
        Ok(())
    }

    /// A block with the two cases of an atom, of which the one is closed by a block, and the other is the given block.
    pub fn cut(&mut self, bank: &Bank, fact: usize, block: usize) -> Result<usize, AllocError> {
        let Some(found) = self.facts.fact(fact) else {
            return Ok(block);
        };
        let (Reason::Cut(closed, range), Said::Formula(formula)) = (found.reason, found.said) else {
            return Ok(block);
        };
        let _ = bank;
        let whole = self.proof.open(End::Cut(first_of(pair_of(formula))))?;
        let own = self.proof.block(closed).own;
        if is_first(formula) {
            self.proof.attach(whole, block, fact);
            self.proof.attach(whole, closed, own);
        } else {
            self.proof.attach(whole, closed, own);
            self.proof.attach(whole, block, fact);
        }
        self.proof.need_all(&mut self.facts, range)?;
        Ok(whole)
    }
}

/// Whether the atom of a pair is an equality.
pub fn is_equality(bank: &Bank, pair: usize) -> bool {
    kind_of(bank, first_of(pair)) == LITERAL && pair_head(bank, pair).kind == EQUAL
}
