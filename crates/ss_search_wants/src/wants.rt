// The instances of a stage.

use crate::good::use_good;
use crate::levels::reduce_class;
use crate::numbers::use_numbers;
use crate::positions::same_positions;
use crate::reads::{not_allocated_next, reduce_equality, reduce_read, split_pairs, use_foralls};
use ss_core::Classes;
use ss_search_instances::is_read;
use ss_search_question::{ALLOCATED, ELEMENT, EQUAL, NEXT, NONE, OWNER, SUB, argument, of_term};
use ss_search_state::{State, reads_store};
use ss_terms::Bank;
use std::alloc::AllocError;

/// Makes the instances of a stage that what is asked for asks for. Whether there was one.
pub fn work(
    state: &mut State,
    bank: &Bank,
    program: &Classes,
    stage: usize,
) -> Result<bool, AllocError> {
    if state.has_more() {
        ask_for_more(state, bank)?;
    }
    let before = state.requests.len();
    let from = if stage == 1 { state.first_moved() } else { 0 };
    for place in from..usize::MAX {
        let node = state.asked.node(place);
        if node == NONE || state.left.instances == 0 {
            break;
        }
        if stage == 1 {
            if may_reduce(state, bank, node) && state.has_moved(bank, place, node)? {
                reduce(state, bank, program, node)?;
            }
        } else if stage == 2 {
            use_good(state, bank, program, node)?;
        } else {
            use_numbers(state, bank, program, node)?;
        }
    }
    Ok(state.requests.len() > before)
}

// Asks for what else is asked for by what is.
fn ask_for_more(state: &mut State, bank: &Bank) -> Result<(), AllocError> {
    let before = state.asked.len();
    state.find_relevant(bank)?;
    state.ask_members(bank)?;
    if state.asked.len() > before {
        state.find_relevant(bank)?;
    }
    Ok(())
}

// Whether a node is a read, a literal on classes, or an equality with what may be allocated next.
fn may_reduce(state: &State, bank: &Bank, node: usize) -> bool {
    let kind = state.kind(bank, node);
    if kind == EQUAL {
        return is_side_next(state, argument(bank, node, 0))
            || is_side_next(state, argument(bank, node, 1));
    }
    kind == SUB || reads_store(kind)
}

fn is_side_next(state: &State, side: usize) -> bool {
    state.equal.has_kind(of_term(side), NEXT)
}

// What reads come to, and what is said of all objects.
fn reduce(
    state: &mut State,
    bank: &Bank,
    program: &Classes,
    node: usize,
) -> Result<(), AllocError> {
    let kind = state.kind(bank, node);
    if reads_store(kind) {
        reduce_read(state, bank, node)?;
        if is_read(kind) {
            use_foralls(state, bank, node)?;
        }
    }
    if kind == OWNER {
        split_pairs(state, bank, node)?;
    } else if kind == ELEMENT {
        same_positions(state, bank, node)?;
    } else if kind == ALLOCATED {
        not_allocated_next(state, bank, node)?;
    } else if kind == EQUAL {
        reduce_equality(state, bank, node)?;
    } else if kind == SUB {
        reduce_class(state, bank, program, node)?;
    }
    Ok(())
}
