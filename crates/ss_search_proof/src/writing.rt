// The lines of a proof. Each fact is written once, in the lowest case that sees all its uses.

use crate::names::Names;
use ss_deriv::{Derivation, Draft, Line, Sum};
use ss_logic::{GoodRule, RuleName};
use ss_search_facts::{End, Fact, Facts, GoodName, Proof, Range, Reason, Reasons, RuleKind, Said};
use ss_search_question::NONE;
use ss_terms::{FormulaId, TermId};
use std::alloc::{AllocError, Global};
use std::collections::BinaryHeap;

/// Finds which facts of the proof whose outermost block this is are written, and where. What they name is named.
pub fn plan_lines(
    alloc: Global,
    reasons: &mut Reasons,
    root: usize,
    names: &mut Names,
) -> Result<(), AllocError> {
    let Reasons { facts, proof, .. } = reasons;
    number_blocks(alloc, proof, root)?;
    place_facts(alloc, facts, proof, root)?;
    name_all(facts, proof, root, names);
    Ok(())
}

// Names what the facts in blocks and the cuts name.
fn name_all(facts: &Facts, proof: &Proof, root: usize, names: &mut Names) {
    let mut at = root;
    for _ in 0..proof.len() {
        if at == NONE {
            break;
        }
        let block = proof.block(at);
        name_block(facts, block.facts, names);
        if let End::Cut(formula) = block.end {
            names.name_formula(formula);
        }
        at = proof.after(at, root);
    }
}

// Names what a fact and those after it in its block name.
fn name_block(facts: &Facts, first: usize, names: &mut Names) {
    let mut at = first;
    for _ in 0..facts.len() {
        let Some(fact) = facts.fact(at) else {
            break;
        };
        name_fact(facts, fact, names);
        at = fact.next;
    }
}

fn name_fact(facts: &Facts, fact: Fact, names: &mut Names) {
    match fact.reason {
        Reason::Chain(_) | Reason::Cong(_) | Reason::Swap(_, _) => name_said(fact.said, names),
        Reason::Inst(_, range) => name_terms(facts, range, names),
        Reason::Rule(_, range) => name_terms(facts, range, names),
        Reason::Good(_, _, range) => name_terms(facts, range, names),
        Reason::Choose(formula, range) => {
            names.name_formula(formula);
            name_terms(facts, range, names);
        }
        _ => {}
    }
}

fn name_said(said: Said, names: &mut Names) {
    match said {
        Said::Formula(formula) => names.name_formula(formula),
        Said::Equal(left, right) => {
            names.name_term(left);
            names.name_term(right);
        }
    }
}

fn name_terms(facts: &Facts, range: Range, names: &mut Names) {
    for place in range.from..range.to {
        names.name_term(facts.path_at(place));
    }
}

/// The derivation of a planned proof whose outermost block this is, by what is named as the names tell.
pub fn write_lines(
    alloc: Global,
    reasons: &mut Reasons,
    root: usize,
    names: Names,
) -> Result<Option<Derivation>, AllocError> {
    let Reasons { facts, proof, .. } = reasons;
    let mut writer = Writer {
        alloc,
        lines: Draft::new(alloc),
        known: 0,
        names,
    };
    writer.write_blocks(facts, proof, root)?;
    let Writer { lines, .. } = writer;
    if lines.is_finished() {
        Ok(Some(lines.finish()))
    } else {
        Ok(None)
    }
}

// Numbers the blocks in the order of the text, and finds the last number inside each of them.
fn number_blocks(alloc: Global, proof: &mut Proof, root: usize) -> Result<(), AllocError> {
    let mut order = Vec::with_capacity(alloc, proof.len())?;
    let mut at = root;
    for number in 0..proof.len() {
        if at == NONE {
            break;
        }
        let mut block = proof.block(at);
        block.enter = number;
        block.leave = number;
        proof.put(at, block);
        order.push(at)?;
        at = proof.after(at, root);
    }
    for number in order.iter().rev() {
        if *number != root {
            raise_leave(proof, *number);
        }
    }
    Ok(())
}

fn raise_leave(proof: &mut Proof, number: usize) {
    let block = proof.block(number);
    let mut above = proof.block(block.above);
    above.leave = above.leave.max(block.leave);
    proof.put(block.above, above);
}

// Finds the block of each fact that is used, from the newest fact to the oldest: what a fact is made of is older. No other fact is looked at.
fn place_facts(
    alloc: Global,
    facts: &mut Facts,
    proof: &mut Proof,
    root: usize,
) -> Result<(), AllocError> {
    let mut used = BinaryHeap::new(alloc);
    let mut at = root;
    for _ in 0..proof.len() {
        if at == NONE {
            break;
        }
        let block = proof.block(at);
        use_end(&mut used, facts, proof, (at, root), block.end)?;
        at = proof.after(at, root);
    }
    for _ in 0..facts.len() {
        let Some(number) = used.pop() else {
            break;
        };
        place_fact(&mut used, facts, proof, number, root)?;
    }
    Ok(())
}

// What the end of a block names is used in it, below a root.
fn use_end(
    used: &mut BinaryHeap<usize>,
    facts: &mut Facts,
    proof: &Proof,
    block: (usize, usize),
    end: End,
) -> Result<(), AllocError> {
    match end {
        End::Nothing | End::Cut(_) => Ok(()),
        End::Split(fact) => use_in(used, facts, proof, fact, block),
        End::Clash(first, second) => {
            use_in(used, facts, proof, first, block)?;
            use_in(used, facts, proof, second, block)
        }
    }
}

// A fact is used in a block, and waits to be placed from its first use on. A hypothesis is known there already, and choices stand in the root.
fn use_in(
    used: &mut BinaryHeap<usize>,
    facts: &mut Facts,
    proof: &Proof,
    number: usize,
    block: (usize, usize),
) -> Result<(), AllocError> {
    let (inner, root) = block;
    let Some(fact) = facts.fact_mut(number) else {
        return Ok(());
    };
    if is_hypothesis(fact.reason) {
        return Ok(());
    }
    let user = if is_choice(fact.reason) { root } else { inner };
    if fact.block == NONE {
        fact.block = user;
        used.push(number)?;
    } else {
        fact.block = meet(proof, fact.block, user);
    }
    Ok(())
}

// Puts a fact into its block, which is settled, since all its uses are known. What it is made of is used in that block.
fn place_fact(
    used: &mut BinaryHeap<usize>,
    facts: &mut Facts,
    proof: &mut Proof,
    number: usize,
    root: usize,
) -> Result<(), AllocError> {
    let Some(fact) = facts.fact_mut(number) else {
        return Ok(());
    };
    let (place, reason) = (fact.block, fact.reason);
    if place == NONE {
        return Ok(());
    }
    let mut block = proof.block(place);
    fact.next = block.facts;
    block.facts = number;
    proof.put(place, block);
    match reason {
        Reason::Part(whole, _) | Reason::Inst(whole, _) | Reason::Good(_, whole, _) => {
            use_in(used, facts, proof, whole, (place, root))
        }
        Reason::Chain(range) | Reason::Cong(range) | Reason::Sum(_, range, _) => {
            use_path(used, facts, proof, range, (place, root))
        }
        Reason::Swap(whole, range) => {
            use_in(used, facts, proof, whole, (place, root))?;
            use_path(used, facts, proof, range, (place, root))
        }
        _ => Ok(()),
    }
}

fn use_path(
    used: &mut BinaryHeap<usize>,
    facts: &mut Facts,
    proof: &Proof,
    range: Range,
    block: (usize, usize),
) -> Result<(), AllocError> {
    for place in range.from..range.to {
        let fact = facts.path_at(place);
        use_in(used, facts, proof, fact, block)?;
    }
    Ok(())
}

// A fact stands in no block any more.
fn let_go(facts: &mut Facts, number: usize) {
    if let Some(fact) = facts.fact_mut(number) {
        fact.block = NONE;
        fact.next = NONE;
    }
}

fn is_hypothesis(reason: Reason) -> bool {
    matches!(
        &reason,
        Reason::Unit(_, _) | Reason::Cut(_, _) | Reason::Case | Reason::Own
    )
}

fn is_choice(reason: Reason) -> bool {
    matches!(&reason, Reason::Choose(_, _))
}

// The lowest block that has two blocks inside it.
fn meet(proof: &Proof, first: usize, second: usize) -> usize {
    let inner = proof.block(second);
    let mut at = first;
    for _ in 0..proof.len() {
        let block = proof.block(at);
        if block.enter <= inner.enter && inner.enter <= block.leave {
            break;
        }
        at = block.above;
    }
    at
}

/// The lines so far, how many facts are known after them, and the numbers of what they name.
#[derive(Drop)]
struct Writer {
    alloc: Global,
    lines: Draft,
    known: usize,
    names: Names,
}

impl Writer {
    fn add(&mut self, line: Line) -> Result<(), AllocError> {
        if self.lines.allows(&line) {
            self.lines.add(line)
        } else {
            Ok(())
        }
    }

    // A line that makes a fact known, which is let go of by its block.
    fn learn(&mut self, facts: &mut Facts, number: usize) {
        if let Some(fact) = facts.fact_mut(number) {
            fact.known = self.known;
        }
        let_go(facts, number);
        self.known = self.known.saturating_add(1);
    }

    fn write_blocks(
        &mut self,
        facts: &mut Facts,
        proof: &mut Proof,
        root: usize,
    ) -> Result<(), AllocError> {
        let mut at = root;
        for _ in 0..proof.len() {
            if at == NONE {
                break;
            }
            self.write_block(facts, proof, at, at == root)?;
            at = proof.after(at, root);
        }
        Ok(())
    }

    fn write_block(
        &mut self,
        facts: &mut Facts,
        proof: &mut Proof,
        number: usize,
        is_root: bool,
    ) -> Result<(), AllocError> {
        let mut block = proof.block(number);
        if is_root {
            self.write_facts(facts, block.facts, true)?;
        } else {
            self.known = proof.block(block.above).known;
            self.add(Line::Case)?;
            self.learn(facts, block.own);
        }
        self.write_facts(facts, block.facts, false)?;
        block.known = self.known;
        proof.put(number, block);
        self.write_end(facts, block.end, block.cases)
    }

    // The facts of a block, the oldest first: those that choose, or the others.
    fn write_facts(
        &mut self,
        facts: &mut Facts,
        first: usize,
        choices: bool,
    ) -> Result<(), AllocError> {
        let mut at = first;
        for _ in 0..facts.len() {
            let Some(fact) = facts.fact(at) else {
                break;
            };
            if is_choice(fact.reason) == choices {
                self.write_fact(facts, fact)?;
                let next = fact.next;
                self.learn_choice(facts, at, choices);
                at = next;
            } else {
                if !choices {
                    let_go(facts, at);
                }
                at = fact.next;
            }
        }
        Ok(())
    }

    // The list of a block is kept while its choices are written.
    fn learn_choice(&mut self, facts: &mut Facts, number: usize, choices: bool) {
        if choices {
            if let Some(fact) = facts.fact_mut(number) {
                fact.known = self.known;
            }
            self.known = self.known.saturating_add(1);
        } else {
            self.learn(facts, number);
        }
    }

    fn write_fact(&mut self, facts: &Facts, fact: Fact) -> Result<(), AllocError> {
        match fact.reason {
            Reason::Premise(number) => self.add(Line::Premise { number }),
            Reason::Denied => self.add(Line::Denied),
            Reason::Part(whole, part) => self.add(Line::Part {
                of: known_at(facts, whole),
                part,
            }),
            Reason::Chain(range) => self.write_chain(facts, range, fact.said),
            Reason::Cong(range) => self.write_cong(facts, range, fact.said),
            Reason::Swap(whole, range) => self.write_swap(facts, (whole, range), fact.said),
            Reason::Inst(whole, range) => self.write_inst(facts, whole, range),
            Reason::Choose(formula, range) => self.write_choice(facts, formula, range),
            Reason::Rule(rule, range) => self.write_rule(facts, rule, range),
            Reason::Sum(divisor, range, weights) => self.write_sum(facts, divisor, range, weights),
            Reason::Good(rule, whole, range) => self.write_good(facts, rule, (whole, range)),
            _ => Ok(()),
        }
    }

    fn write_chain(&mut self, facts: &Facts, range: Range, said: Said) -> Result<(), AllocError> {
        let path = known_path(self.alloc, facts, range)?;
        let Said::Equal(left, right) = said else {
            return Ok(());
        };
        self.add(Line::Chain {
            left: self.term(left),
            right: self.term(right),
            path,
        })
    }

    fn write_cong(&mut self, facts: &Facts, range: Range, said: Said) -> Result<(), AllocError> {
        let equalities = known_path(self.alloc, facts, range)?;
        let Said::Equal(left, right) = said else {
            return Ok(());
        };
        self.add(Line::Cong {
            left: self.term(left),
            right: self.term(right),
            equalities,
        })
    }

    fn write_swap(
        &mut self,
        facts: &Facts,
        from: (usize, Range),
        said: Said,
    ) -> Result<(), AllocError> {
        let equalities = known_path(self.alloc, facts, from.1)?;
        let Said::Formula(formula) = said else {
            return Ok(());
        };
        self.add(Line::Swap {
            of: known_at(facts, from.0),
            formula: self.formula(formula),
            equalities,
        })
    }

    fn write_inst(&mut self, facts: &Facts, whole: usize, range: Range) -> Result<(), AllocError> {
        let terms = self.terms_in(facts, range)?;
        self.add(Line::Inst {
            of: known_at(facts, whole),
            terms,
        })
    }

    fn write_choice(
        &mut self,
        facts: &Facts,
        formula: usize,
        range: Range,
    ) -> Result<(), AllocError> {
        let constants = self.terms_in(facts, range)?;
        self.add(Line::Choose {
            formula: self.formula(formula),
            constants,
        })
    }

    fn write_sum(
        &mut self,
        facts: &Facts,
        divisor: i64,
        range: Range,
        weights: usize,
    ) -> Result<(), AllocError> {
        let mut parts = Vec::new(self.alloc);
        for place in 0..range.to.saturating_sub(range.from) {
            let fact = facts.path_at(range.from.saturating_add(place));
            let Some(weight) = facts.weights.get(weights.saturating_add(place)) else {
                break;
            };
            parts.push((known_at(facts, fact), *weight))?;
        }
        self.add(Line::Sum(Sum { parts, divisor }))
    }

    fn write_rule(
        &mut self,
        facts: &Facts,
        rule: RuleKind,
        range: Range,
    ) -> Result<(), AllocError> {
        let arguments = self.terms_in(facts, range)?;
        self.add(Line::Rule {
            name: name_of(rule),
            arguments,
        })
    }

    fn write_good(
        &mut self,
        facts: &Facts,
        rule: GoodName,
        from: (usize, Range),
    ) -> Result<(), AllocError> {
        let arguments = self.terms_in(facts, from.1)?;
        let store = known_at(facts, from.0);
        match good_of(rule) {
            Some(name) => self.add(Line::Good {
                name,
                store,
                arguments,
            }),
            None => self.add_invariants(store, arguments),
        }
    }

    // The line of the rule on invariants.
    fn add_invariants(&mut self, store: usize, arguments: Vec<TermId>) -> Result<(), AllocError> {
        self.add(Line::Invariants { store, arguments })
    }

    // A term by the number that it has now.
    fn term(&self, term: usize) -> TermId {
        TermId(self.names.term(term))
    }

    // A formula by the number that it has now.
    fn formula(&self, formula: usize) -> FormulaId {
        FormulaId(self.names.formula(formula))
    }

    // The terms in a part of the paths.
    fn terms_in(&self, facts: &Facts, range: Range) -> Result<Vec<TermId>, AllocError> {
        let count = range.to.saturating_sub(range.from);
        let mut terms = Vec::with_capacity(self.alloc, count)?;
        for place in range.from..range.to {
            let term = facts.path_at(place);
            terms.push(self.term(term))?;
        }
        Ok(terms)
    }

    fn write_end(&mut self, facts: &Facts, end: End, cases: usize) -> Result<(), AllocError> {
        match end {
            End::Nothing => Ok(()),
            End::Clash(first, second) => {
                let left = known_at(facts, first);
                let right = known_at(facts, second);
                self.add(Line::Clash { left, right })
            }
            End::Split(fact) => self.add(Line::Split {
                of: known_at(facts, fact),
                cases,
            }),
            End::Cut(formula) => self.add(Line::Cut {
                formula: self.formula(formula),
            }),
        }
    }
}

/// The name of a rule.
pub fn name_of(rule: RuleKind) -> RuleName {
    match rule {
        RuleKind::Read => RuleName::Read,
        RuleKind::Fresh => RuleName::Fresh,
        RuleKind::Class => RuleName::Class,
        RuleKind::Split => RuleName::Split,
        RuleKind::Apart => RuleName::Apart,
        RuleKind::Quorem => RuleName::Quorem,
        RuleKind::Bool => RuleName::Bool,
    }
}

/// The name of a rule on good stores, but for that on invariants.
pub fn good_of(rule: GoodName) -> Option<GoodRule> {
    match rule {
        GoodName::Full => Some(GoodRule::Full),
        GoodName::Owned => Some(GoodRule::Owned),
        GoodName::Marks => Some(GoodRule::Marks),
        GoodName::Typed => Some(GoodRule::Typed),
        GoodName::Ready => Some(GoodRule::Ready),
        GoodName::Invariants => None,
    }
}

fn known_at(facts: &Facts, number: usize) -> usize {
    match facts.fact(number) {
        Some(fact) => fact.known,
        None => NONE,
    }
}

// The numbers, among what is known, of the facts of a path.
fn known_path(alloc: Global, facts: &Facts, range: Range) -> Result<Vec<usize>, AllocError> {
    let count = range.to.saturating_sub(range.from);
    let mut numbers = Vec::with_capacity(alloc, count)?;
    for place in range.from..range.to {
        numbers.push(known_at(facts, facts.path_at(place)))?;
    }
    Ok(numbers)
}
