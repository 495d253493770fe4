// Positions that come to the same, and instances at every position.

use crate::looks::{KEY_FORALL, KEY_RULE, class_of, mixed};
use ss_search_question::{
    ADD, CONSTANT, ELEMENT, MULTIPLY, NONE, NUMBER, SUBTRACT, argument, bound_count, bound_sort,
    code_of_sort, is_closed, is_term, is_whole, node_head, of_term, term_argument, term_head,
};
use ss_search_state::{State, Wanted, new_request};
use ss_terms::Bank;
use std::alloc::AllocError;

// A position that is asked for may come to the same as an older one, and not be known to be equal. That is found at once.
pub(crate) fn same_positions(
    state: &mut State,
    bank: &Bank,
    node: usize,
) -> Result<(), AllocError> {
    let position = argument(bank, node, 2);
    for place in 0..state.asked.len() {
        let other = state.asked.node(place);
        if other == node || state.left.trials == 0 {
            break;
        }
        if is_term(other) && node_head(bank, other).kind == ELEMENT {
            same_position(state, bank, position, argument(bank, other, 2))?;
        }
    }
    Ok(())
}

// Two positions are looked at once, and again where one of their classes has grown.
fn same_position(state: &mut State, bank: &Bank, x: usize, y: usize) -> Result<(), AllocError> {
    if state.equal.are_equal(of_term(x), of_term(y)) || !is_sum(bank, x) && !is_sum(bank, y) {
        return Ok(());
    }
    let (left, right) = (class_of(state, x), class_of(state, y));
    let pair = mixed(left.min(right), left.max(right));
    let size = state
        .equal
        .members(left)
        .saturating_add(state.equal.members(right));
    if state.seen.is_new(KEY_RULE.saturating_add(24), pair, size)?
        && state.come_to_same(bank, x, y)?
    {
        state.want(new_request(Wanted::Same, x, y, NONE))?;
    }
    Ok(())
}

fn is_sum(bank: &Bank, term: usize) -> bool {
    let kind = term_head(bank, term).kind;
    kind == ADD || kind == SUBTRACT || kind == MULTIPLY
}

// How often instances are made at every position on the way to a case.
const ROUNDS: usize = 2;

/// Makes the instances of each known `forall` over one whole number. One that reads elements gets them at each position that is
/// there, one that reads nothing at each number and constant. Whether there was one.
pub fn use_positions(state: &mut State, bank: &Bank) -> Result<bool, AllocError> {
    if !is_new_round(state)? {
        return Ok(false);
    }
    let before = state.requests.len();
    for place in 0..state.asked.forall_count() {
        let held = state.asked.forall(place);
        if is_over_positions(state, bank, held.number) {
            instantiate_at_all(state, bank, (held.number, held.fact))?;
        } else if reads_nothing(state, bank, held.number) {
            instantiate_at_numbers(state, bank, (held.number, held.fact))?;
        }
    }
    Ok(state.requests.len() > before)
}

fn is_new_round(state: &mut State) -> Result<bool, AllocError> {
    for round in 0..ROUNDS {
        if state.seen.is_new(KEY_RULE.saturating_add(22), round, NONE)? {
            return Ok(true);
        }
    }
    Ok(false)
}

fn is_over_numbers(bank: &Bank, forall: usize) -> bool {
    bound_count(bank, forall) == 1 && code_of_sort(bound_sort(bank, forall, 0)) == 1
}

fn reads_nothing(state: &State, bank: &Bank, forall: usize) -> bool {
    let (from, to) = state.heads.range(forall);
    is_over_numbers(bank, forall) && from >= to
}

fn is_over_positions(state: &State, bank: &Bank, forall: usize) -> bool {
    if !is_over_numbers(bank, forall) {
        return false;
    }
    let (from, to) = state.heads.range(forall);
    for place in from..to {
        if state.heads.pattern(place).kind == ELEMENT {
            return true;
        }
    }
    false
}

fn instantiate_at_all(
    state: &mut State,
    bank: &Bank,
    forall: (usize, usize),
) -> Result<(), AllocError> {
    for place in 0..state.elements.len() {
        let Some(term) = state.elements.get(place).copied() else {
            break;
        };
        let position = term_argument(bank, term, 2);
        if !is_closed(bank, position) || !state.equal.is_there(of_term(position)) {
            continue;
        }
        let at = mixed(class_of(state, position), NONE);
        if state.seen.is_new(KEY_FORALL, forall.0, at)? {
            state.want(new_request(Wanted::Inst(forall.0, forall.1), position, NONE, NONE))?;
        }
    }
    Ok(())
}

// Whether a term is a whole number or a constant of them.
fn is_named_number(bank: &Bank, term: usize) -> bool {
    let kind = term_head(bank, term).kind;
    (kind == NUMBER || kind == CONSTANT) && is_whole(bank, term)
}

fn instantiate_at_numbers(
    state: &mut State,
    bank: &Bank,
    forall: (usize, usize),
) -> Result<(), AllocError> {
    for term in 0..bank.term_count() {
        let is_new = is_named_number(bank, term)
            && state
                .seen
                .is_new(KEY_RULE.saturating_add(23), forall.0, term)?;
        if is_new {
            state.want(new_request(Wanted::Inst(forall.0, forall.1), term, NONE, NONE))?;
        }
    }
    Ok(())
}
