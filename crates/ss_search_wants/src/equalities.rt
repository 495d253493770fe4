// What good stores say where an equality is asked for.

use crate::fresh::new_owner;
use crate::looks::{KEY_RULE, class_of, good_once, good_store, is_non_null, member, terms_at};
use crate::reads::not_group;
use crate::typed::good_field;
use ss_core::Classes;
use ss_search_facts::GoodName;
use ss_search_question::{
    FIELD, LEVEL, NONE, NULL, OWNER, PAIR, TYPE, argument, code_of_sort, is_truth, is_value,
    of_term, sort_at, term_argument, term_head,
};
use ss_search_state::{State, Wanted, new_request};
use ss_terms::Bank;
use std::alloc::AllocError;

pub(crate) fn good_equality(
    state: &mut State,
    bank: &Bank,
    program: &Classes,
    node: usize,
) -> Result<(), AllocError> {
    let left = argument(bank, node, 0);
    let right = argument(bank, node, 1);
    if is_truth(bank, left) {
        truth(state, bank, left)?;
        return truth(state, bank, right);
    }
    if code_of_sort(sort_at(bank, left)) != 3 {
        return Ok(());
    }
    full(state, bank, left, right)?;
    full(state, bank, right, left)?;
    not_null(state, bank, program, left, right)?;
    not_null(state, bank, program, right, left)?;
    new_owner(state, bank, left, right)?;
    new_owner(state, bank, right, left)?;
    owners_are_there(state, bank, left, right)?;
    owners_are_there(state, bank, right, left)?;
    pair_or_group(state, bank, left, right)?;
    pair_or_group(state, bank, right, left)
}

// Where it is open whether an owner is a pair: the pair isn't a group, and whether the owner is one is asked for.
fn pair_or_group(
    state: &mut State,
    bank: &Bank,
    side: usize,
    other: usize,
) -> Result<(), AllocError> {
    let owner = member(state, bank, of_term(side), OWNER, 0);
    let pair = member(state, bank, of_term(other), PAIR, 0);
    let is_open = state
        .equal
        .relation(of_term(side), of_term(other))
        .is_none();
    if owner == NONE || pair == NONE || !is_open {
        return Ok(());
    }
    not_group(state, pair)?;
    let class = class_of(state, owner);
    if state.seen.is_new(KEY_RULE.saturating_add(9), class, 0)? {
        state.want(new_request(Wanted::Group, owner, NONE, NONE))?;
    }
    Ok(())
}

// Where owners may be pairs, the objects of the pairs are allocated.
fn owners_are_there(
    state: &mut State,
    bank: &Bank,
    side: usize,
    other: usize,
) -> Result<(), AllocError> {
    for place in 0..8 {
        let read = member(state, bank, of_term(side), OWNER, place);
        if read == NONE {
            break;
        }
        let store = good_store(state, term_argument(bank, read, 0));
        if store != NONE {
            owner_is_there(state, bank, store, (read, other))?;
        }
    }
    Ok(())
}

fn owner_is_there(
    state: &mut State,
    bank: &Bank,
    store: usize,
    sides: (usize, usize),
) -> Result<(), AllocError> {
    let (read, other) = sides;
    for place in 0..4 {
        let pair = member(state, bank, of_term(other), PAIR, place);
        if pair == NONE {
            break;
        }
        let object = term_argument(bank, read, 1);
        let owner = term_argument(bank, pair, 0);
        let class = term_argument(bank, pair, 1);
        good_once(
            state,
            (GoodName::Typed, 3),
            store,
            terms_at(object, owner, class),
        )?;
    }
    Ok(())
}

fn truth(state: &mut State, bank: &Bank, term: usize) -> Result<(), AllocError> {
    if !is_value(bank, term) && state.seen.is_new(KEY_RULE.saturating_add(4), term, 0)? {
        state.two_values(bank, term)?;
    }
    Ok(())
}

// A committed object is at its full level.
fn full(state: &mut State, bank: &Bank, level: usize, class: usize) -> Result<(), AllocError> {
    for place in 0..16 {
        let read = member(state, bank, of_term(level), LEVEL, place);
        if read == NONE {
            break;
        }
        let object = term_argument(bank, read, 1);
        let store = good_store(state, term_argument(bank, read, 0));
        if store != NONE && has_type(state, bank, class, object) {
            good_once(
                state,
                (GoodName::Full, NONE),
                store,
                terms_at(object, NONE, NONE),
            )?;
        }
    }
    Ok(())
}

// Whether a class of terms has the class of an object.
fn has_type(state: &State, bank: &Bank, class: usize, object: usize) -> bool {
    for place in 0..16 {
        let read = member(state, bank, of_term(class), TYPE, place);
        if read == NONE {
            return false;
        }
        if state
            .equal
            .are_equal(of_term(term_argument(bank, read, 0)), of_term(object))
        {
            return true;
        }
    }
    false
}

// A field of a non-null type isn't null.
fn not_null(
    state: &mut State,
    bank: &Bank,
    program: &Classes,
    side: usize,
    null: usize,
) -> Result<(), AllocError> {
    if term_head(bank, null).kind != NULL {
        return Ok(());
    }
    for place in 0..8 {
        let read = member(state, bank, of_term(side), FIELD, place);
        if read == NONE {
            break;
        }
        let store = good_store(state, term_argument(bank, read, 0));
        if store != NONE && is_non_null(program, term_head(bank, read).number) {
            good_field(state, bank, (GoodName::Ready, store), read)?;
        }
    }
    Ok(())
}
