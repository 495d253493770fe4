// What invariants say, and the ranges of numbers.

use crate::looks::{
    KEY_RULE, class_id, class_literal, class_numbered, declaring, good_once, good_store,
    has_invariants, member, terms_at,
};
use crate::typed::good_field;
use ss_core::{ClassId, Classes, MOST_LEVELS};
use ss_search_facts::{GoodName, RuleKind};
use ss_search_question::{
    ELEMENT, EQUAL, FIELD, LENGTH, LEVEL, NONE, NUMBER, QUOTIENT, REMAINDER, TYPE, argument,
    is_whole, node_head, of_term, pair_argument, term_argument, term_head,
};
use ss_search_state::{State, Wanted, new_request};
use ss_terms::Bank;
use std::alloc::AllocError;

// What invariants say, and numbers.
pub(crate) fn use_numbers(
    state: &mut State,
    bank: &Bank,
    program: &Classes,
    node: usize,
) -> Result<(), AllocError> {
    let kind = state.kind(bank, node);
    if kind == FIELD {
        return invariants_at(state, bank, program, node);
    }
    if kind == EQUAL {
        return apart(state, bank, node);
    }
    if kind == QUOTIENT || kind == REMAINDER {
        return divided(state, bank, node);
    }
    if kind == ELEMENT && is_whole(bank, node / 2) {
        return element_range(state, bank, node);
    }
    if kind == LENGTH {
        return length(state, bank, node);
    }
    Ok(())
}

// Numbers that aren't known to be equal are equal, or one is below the other.
fn apart(state: &mut State, bank: &Bank, node: usize) -> Result<(), AllocError> {
    let (x, y) = (argument(bank, node, 0), argument(bank, node, 1));
    if !is_whole(bank, x) || state.equal.are_equal(of_term(x), of_term(y)) {
        return Ok(());
    }
    if state.seen.is_new(KEY_RULE.saturating_add(20), x, y)? {
        state.want(new_request(Wanted::Rule(RuleKind::Apart), x, y, NONE))?;
    }
    Ok(())
}

// A quotient or remainder by a number.
fn divided(state: &mut State, bank: &Bank, node: usize) -> Result<(), AllocError> {
    let (x, d) = (argument(bank, node, 0), argument(bank, node, 1));
    if term_head(bank, d).kind == NUMBER && state.seen.is_new(KEY_RULE.saturating_add(21), x, d)? {
        state.want(new_request(Wanted::Rule(RuleKind::Quorem), x, d, NONE))?;
    }
    Ok(())
}

// A whole number in an array is in its range.
fn element_range(state: &mut State, bank: &Bank, node: usize) -> Result<(), AllocError> {
    let store = good_store(state, argument(bank, node, 0));
    if store == NONE {
        return Ok(());
    }
    let at = terms_at(argument(bank, node, 1), argument(bank, node, 2), NONE);
    good_once(state, (GoodName::Typed, 9), store, at)
}

// The invariants of classes at which an object may be packed whose field is asked for.
fn invariants_at(
    state: &mut State,
    bank: &Bank,
    program: &Classes,
    node: usize,
) -> Result<(), AllocError> {
    let store = good_store(state, argument(bank, node, 0));
    if store == NONE {
        return Ok(());
    }
    let object = argument(bank, node, 1);
    if state
        .seen
        .is_new(KEY_RULE.saturating_add(8), store, object)?
    {
        state.want(new_request(Wanted::Level, store, object, NONE))?;
    }
    if is_whole(bank, node / 2) {
        good_field(state, bank, (GoodName::Typed, store), node / 2)?;
    }
    let level = level_of(state, bank, store, object);
    if level == NONE {
        return Ok(());
    }
    let reader = declaring(program, node_head(bank, node).number);
    invariants_at_level(state, bank, program, (store, object, level), reader)
}

/// Makes the instances of the rule on invariants at each level that is there. Whether there was one.
pub fn use_levels(state: &mut State, bank: &Bank, program: &Classes) -> Result<bool, AllocError> {
    let before = state.requests.len();
    for term in 0..bank.term_count() {
        if term_head(bank, term).kind == LEVEL && state.equal.is_there(of_term(term)) {
            invariants_of(state, bank, program, term)?;
        }
    }
    Ok(state.requests.len() > before)
}

// The invariants of an object whose level this is.
fn invariants_of(
    state: &mut State,
    bank: &Bank,
    program: &Classes,
    level: usize,
) -> Result<(), AllocError> {
    let store = good_store(state, term_argument(bank, level, 0));
    if store == NONE {
        return Ok(());
    }
    let object = term_argument(bank, level, 1);
    invariants_at_level(state, bank, program, (store, object, level), ClassId(0))
}

// The invariants of the classes at which an object with this level may be packed. Where that may be each class, of those that count as one.
fn invariants_at_level(
    state: &mut State,
    bank: &Bank,
    program: &Classes,
    at: (usize, usize, usize),
    above: ClassId,
) -> Result<(), AllocError> {
    let (store, object, level) = at;
    let literal = class_literal(state, bank, level);
    if literal != NONE {
        return invariants_from(state, program, (store, object), class_id(bank, literal));
    }
    if member(state, bank, of_term(level), TYPE, 0) != NONE {
        return all_invariants(state, program, (store, object), above);
    }
    for place in 0..state.asked.sub_count() {
        let bound = bound_of(state, bank, level, place);
        if bound != NONE {
            invariants_from(state, program, (store, object), class_id(bank, bound))?;
        }
    }
    Ok(())
}

// The bound of a level by what is asked for at this place, where it is known to hold, or NONE.
fn bound_of(state: &State, bank: &Bank, level: usize, place: usize) -> usize {
    let pair = state.asked.sub(place);
    let below = of_term(pair_argument(bank, pair, 0));
    if !state.equal.are_equal(below, of_term(level)) {
        return NONE;
    }
    let known = class_literal(state, bank, pair_argument(bank, pair, 1));
    if known != NONE && state.equal.mark_of(bank, pair) == Some(true) {
        known
    } else {
        NONE
    }
}

// The invariants of all classes that count as this one. An invariant reads a field of its object only where its class counts as the one that
// declares the field.
fn all_invariants(
    state: &mut State,
    program: &Classes,
    at: (usize, usize),
    above: ClassId,
) -> Result<(), AllocError> {
    for place in 0..program.list.len() {
        let class = class_numbered(place.saturating_mul(2).saturating_add(4));
        if program.is_subclass(class, above) {
            invariant_at(state, program, at, class)?;
        }
    }
    Ok(())
}

// The invariants of a class and of those above it.
fn invariants_from(
    state: &mut State,
    program: &Classes,
    at: (usize, usize),
    class: ClassId,
) -> Result<(), AllocError> {
    let mut level = class;
    for _ in 0..MOST_LEVELS {
        invariants_beside(state, program, at, level)?;
        match program.level_above(level) {
            Some(above) => level = above,
            None => return Ok(()),
        }
    }
    Ok(())
}

// The invariants of a class and of those that stand beside it.
fn invariants_beside(
    state: &mut State,
    program: &Classes,
    at: (usize, usize),
    class: ClassId,
) -> Result<(), AllocError> {
    invariant_at(state, program, at, class)?;
    if let Some(found) = program.declared(class) {
        for beside in &found.also {
            invariant_at(state, program, at, *beside)?;
        }
    }
    Ok(())
}

fn invariant_at(
    state: &mut State,
    program: &Classes,
    at: (usize, usize),
    class: ClassId,
) -> Result<(), AllocError> {
    if !has_invariants(program, class) {
        return Ok(());
    }
    let (store, object) = at;
    let wanted = terms_at(object, NONE, NONE).of_class(class.0 as usize);
    good_once(state, (GoodName::Invariants, NONE), store, wanted)
}

// The level of an object in a store, where it is asked for, or NONE.
fn level_of(state: &State, bank: &Bank, store: usize, object: usize) -> usize {
    let mut at = state.equal.last_use(of_term(object));
    for _ in 0..10_000usize {
        let (node, before) = state.equal.use_at(at);
        if node == NONE {
            break;
        }
        if state.equal.kind(node) == LEVEL
            && argument(bank, node, 0) == store
            && argument(bank, node, 1) == object
        {
            return node / 2;
        }
        at = before;
    }
    NONE
}

fn length(state: &mut State, bank: &Bank, node: usize) -> Result<(), AllocError> {
    let array = argument(bank, node, 0);
    if state.asked.good_count() > 0 {
        let store = state
            .asked
            .good_at(state.asked.good_count().saturating_sub(1))
            .number;
        good_once(
            state,
            (GoodName::Typed, 8),
            store,
            terms_at(array, NONE, NONE),
        )?;
    }
    Ok(())
}
