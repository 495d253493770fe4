// What a case says as a model.

ghost use Rattle.std.specs.Prelude.{IfSome};
ghost use Rattle.ss_terms.specs.Forms.{HasFormulas, IsGrown};
ghost use Rattle.ss_linear_network.specs.Made.{AreNodesOf};

use crate::numbers::{Known, compares};
use ss_rules_occurring::atoms;
use ss_search_engine::{Engine, Order};
use ss_search_question::{
    EQUAL, LITERAL, first_of, kind_of, of_pair, of_term, pair_argument, pair_head,
};
use ss_search_state::State;
use ss_terms::{Bank, FormulaId};
use std::alloc::{AllocError, Global};

// How many splits are tried, from the front and then from the back.
const FIRST_SPLITS: usize = 3_000;

const LAST_SPLITS: usize = 20_000;

/// A class for each term of a bank, and a truth value for each pair of a formula and its negation. It is that of the one that stands first.
#[derive(Drop)]
pub struct Candidate {
    pub classes: Vec<usize>,
    pub truths: Vec<bool>,
}

// The class of a node; its own where nothing is known of it.
fn class_of(state: &State, node: usize) -> usize {
    if state.equal.is_there(node) {
        state.equal.class(node)
    } else {
        node
    }
}

// Whether a comparison is true: as it is known, and else as it fits what is known.
fn compared(
    alloc: Global,
    state: &State,
    bank: &Bank,
    known: &Known,
    literal: usize,
) -> Result<bool, AllocError>
    requires { IfSome known.now.numbers (λ n. AreNodesOf bank.now n.nodes) }
{
    match state.nodes.value(literal) {
        Some(truth) => Ok(truth),
        None => known.is_so(alloc, state, bank, FormulaId(literal)),
    }
}

// Whether a formula that doesn't compare numbers is true; what isn't known is false.
fn truth_of(state: &State, bank: &Bank, pair: usize) -> bool {
    if kind_of(bank, first_of(pair)) != LITERAL {
        return state.nodes.value(first_of(pair)) == Some(true);
    }
    if pair_head(bank, pair).kind == EQUAL {
        let left = of_term(pair_argument(bank, pair, 0));
        let right = of_term(pair_argument(bank, pair, 1));
        return class_of(state, left) == class_of(state, right);
    }
    class_of(state, of_pair(pair)) == class_of(state, state.equal.yes())
}

fn classes_of(alloc: Global, state: &State, bank: &Bank) -> Result<Vec<usize>, AllocError> {
    let mut classes = Vec::new(alloc);
    for term in 0..bank.term_count() {
        classes.push(class_of(state, of_term(term)))?;
    }
    Ok(classes)
}

fn truths_of(alloc: Global, state: &State, bank: &Bank) -> Result<Vec<bool>, AllocError> {
    let known = Known::of(alloc, state, bank)?;
    let mut truths = Vec::new(alloc);
    for pair in 0..bank.formula_count() / 2 {
        let truth = if compares(bank, pair) {
            compared(alloc, state, bank, &known, first_of(pair))?
        } else {
            truth_of(state, bank, pair)
        };
        truths.push(truth)?;
    }
    Ok(truths)
}

// A search in which each `or` of the formulas has a part that is known, where it is found within so many splits.
fn satisfied(
    alloc: Global,
    bank: &mut Bank,
    formulas: &[FormulaId],
    order: Order,
    splits: usize,
) -> Result<Option<Engine>, AllocError>
    requires { HasFormulas bank.old formulas.now }
    ensures grown { IsGrown bank.old bank.new }
{
    let found = atoms(alloc, bank, formulas)?;
    let mut engine = Engine::new(alloc, bank)?;
    if engine.satisfy(bank, formulas, &found.list, order, splits)? {
        Ok(Some(engine))
    } else {
        Ok(None)
    }
}

fn candidate_of(alloc: Global, bank: &Bank, engine: &Engine) -> Result<Candidate, AllocError> {
    let classes = classes_of(alloc, engine.state(), bank)?;
    let truths = truths_of(alloc, engine.state(), bank)?;
    Ok(Candidate { classes, truths })
}

fn candidate_in(
    alloc: Global,
    bank: &mut Bank,
    formulas: &[FormulaId],
    order: Order,
    splits: usize,
) -> Result<Option<Candidate>, AllocError>
    requires { HasFormulas bank.old formulas.now }
    ensures grown { IsGrown bank.old bank.new }
{
    match satisfied(alloc, bank, formulas, order, splits)? {
        Some(engine) => Ok(Some(candidate_of(alloc, bank, &engine)?)),
        None => Ok(None),
    }
}

/// A candidate for a model that makes the formulas true, or nothing where there is none or the cases are too many.
pub fn find_candidate(
    alloc: Global,
    bank: &mut Bank,
    formulas: &[FormulaId],
) -> Result<Option<Candidate>, AllocError>
    requires { HasFormulas bank.old formulas.now }
    ensures grown { IsGrown bank.old bank.new }
{
    let first = candidate_in(alloc, bank, formulas, Order::First, FIRST_SPLITS)?;
    if first.is_some() {
        return Ok(first);
    }
    candidate_in(alloc, bank, formulas, Order::Last, LAST_SPLITS)
}
