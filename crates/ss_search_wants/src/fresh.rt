// What is said of what was allocated last.

use crate::looks::{KEY_RULE, member};
use ss_search_facts::RuleKind;
use ss_search_question::{ARRAY, NEW, NEXT, NONE, OWNER, of_term, term_argument};
use ss_search_state::{State, Wanted, new_request};
use ss_terms::Bank;
use std::alloc::AllocError;

// The owner of what was allocated last is a group.
pub(crate) fn new_group(state: &mut State, bank: &Bank, read: usize) -> Result<(), AllocError> {
    let made = made_for(state, bank, read);
    if made != NONE && state.seen.is_new(KEY_RULE.saturating_add(3), made, 0)? {
        state.want(new_request(Wanted::Rule(RuleKind::Fresh), made, NONE, NONE).numbered(1))?;
    }
    Ok(())
}

// What is there doesn't have the owner of what is allocated next.
pub(crate) fn new_owner(
    state: &mut State,
    bank: &Bank,
    side: usize,
    other: usize,
) -> Result<(), AllocError> {
    for place in 0..32 {
        let read = member(state, bank, of_term(side), OWNER, place);
        if read == NONE {
            break;
        }
        let made = made_for(state, bank, read);
        if made != NONE {
            other_owner(state, bank, made, other)?;
        }
    }
    Ok(())
}

// The store that a read of an owner is over, where the object is the one that was allocated there last, or NONE.
fn made_for(state: &State, bank: &Bank, read: usize) -> usize {
    let made = made_by(state, bank, read, NEW);
    if made == NONE {
        made_by(state, bank, read, ARRAY)
    } else {
        made
    }
}

fn made_by(state: &State, bank: &Bank, read: usize, kind: usize) -> usize {
    let made = member(state, bank, of_term(term_argument(bank, read, 0)), kind, 0);
    if made == NONE {
        return NONE;
    }
    let before = term_argument(bank, made, 0);
    if is_next_of(state, bank, term_argument(bank, read, 1), before) {
        made
    } else {
        NONE
    }
}

// Whether an object is the reference that a store allocates next.
fn is_next_of(state: &State, bank: &Bank, object: usize, store: usize) -> bool {
    for place in 0..8 {
        let next = member(state, bank, of_term(object), NEXT, place);
        if next == NONE {
            return false;
        }
        if state
            .equal
            .are_equal(of_term(term_argument(bank, next, 0)), of_term(store))
        {
            return true;
        }
    }
    false
}

fn other_owner(
    state: &mut State,
    bank: &Bank,
    made: usize,
    other: usize,
) -> Result<(), AllocError> {
    let before = term_argument(bank, made, 0);
    for place in 0..32 {
        let read = member(state, bank, of_term(other), OWNER, place);
        if read == NONE {
            break;
        }
        let object = term_argument(bank, read, 1);
        if state
            .equal
            .are_equal(of_term(term_argument(bank, read, 0)), of_term(before))
            && state.seen.is_new(KEY_RULE.saturating_add(5), made, object)?
        {
            state.want(new_request(Wanted::Rule(RuleKind::Fresh), made, object, NONE).numbered(2))?;
        }
    }
    Ok(())
}
