// What good stores say.

use crate::equalities::good_equality;
use crate::fresh::{new_group, new_owner};
use crate::looks::{
    KEY_RULE, class_id, class_literal, good_once, good_store, is_marked, member, terms_at,
};
use crate::reads::split_pairs;
use crate::typed::good_reads;
use ss_core::Classes;
use ss_search_facts::GoodName;
use ss_search_question::{
    ALLOCATED, COMMITTED, EQUAL, FIELD, GROUP, LEVEL, NONE, OWNER, PAIR, READY, SUB, TYPE,
    argument, is_term, is_whole, of_term, pair_argument, term_argument, term_head,
};
use ss_search_state::{State, Wanted, new_request};
use ss_terms::Bank;
use std::alloc::AllocError;

// What good stores say.
pub(crate) fn use_good(
    state: &mut State,
    bank: &Bank,
    program: &Classes,
    node: usize,
) -> Result<(), AllocError> {
    let kind = state.kind(bank, node);
    if !is_term(node) && !is_wanted(state, bank, node, kind) {
        return Ok(());
    }
    if kind == OWNER {
        good_owner(state, bank, program, node)
    } else if kind == COMMITTED {
        good_committed(state, bank, node)
    } else if kind == ALLOCATED {
        good_allocated(state, bank, node)
    } else if kind == READY {
        good_ready(state, bank, node)
    } else if kind == SUB {
        good_class(state, bank, program, node)
    } else if kind == GROUP {
        good_group(state, bank, node)
    } else if kind == EQUAL {
        good_equality(state, bank, program, node)
    } else {
        Ok(())
    }
}

// Whether an atom is open, or was made known by the goal, a case or an instance. Good stores say nothing of equal numbers.
fn is_wanted(state: &State, bank: &Bank, node: usize, kind: usize) -> bool {
    let pair = node / 2;
    if kind == EQUAL && is_whole(bank, pair_argument(bank, pair, 0)) {
        return false;
    }
    if state.asked.is_relevant(pair) {
        return true;
    }
    if kind == EQUAL {
        let left = of_term(pair_argument(bank, pair, 0));
        let right = of_term(pair_argument(bank, pair, 1));
        return state.equal.relation(left, right).is_none();
    }
    state.equal.literal(node) == NONE
}

fn good_owner(
    state: &mut State,
    bank: &Bank,
    program: &Classes,
    node: usize,
) -> Result<(), AllocError> {
    let store = good_store(state, argument(bank, node, 0));
    let object = argument(bank, node, 1);
    new_owner(state, bank, node / 2, node / 2)?;
    if store == NONE {
        return Ok(());
    }
    for place in 0..8 {
        let read = member(state, bank, of_term(object), FIELD, place);
        if read == NONE {
            break;
        }
        let field = term_head(bank, read).number;
        if is_marked(program, field)
            && state
                .equal
                .are_equal(of_term(term_argument(bank, read, 0)), of_term(store))
        {
            let holder = term_argument(bank, read, 1);
            good_once(
                state,
                (GoodName::Marks, NONE),
                store,
                terms_at(holder, NONE, NONE).of_field(field),
            )?;
        }
    }
    owned(state, bank, store, node)
}

// What the pair says that an object's owner is.
fn owned(state: &mut State, bank: &Bank, store: usize, node: usize) -> Result<(), AllocError> {
    let pair = member(state, bank, node, PAIR, 0);
    if pair == NONE {
        return Ok(());
    }
    let object = argument(bank, node, 1);
    let owner = term_argument(bank, pair, 0);
    let class = term_argument(bank, pair, 1);
    good_once(
        state,
        (GoodName::Owned, 0),
        store,
        terms_at(object, owner, class),
    )
}

fn good_committed(state: &mut State, bank: &Bank, node: usize) -> Result<(), AllocError> {
    let store = good_store(state, argument(bank, node, 0));
    let object = argument(bank, node, 1);
    if store == NONE {
        return Ok(());
    }
    if state
        .seen
        .is_new(KEY_RULE.saturating_add(7), store, object)?
    {
        state.want(new_request(Wanted::Owner, store, object, NONE))?;
    }
    good_once(
        state,
        (GoodName::Owned, 1),
        store,
        terms_at(object, NONE, NONE),
    )?;
    good_once(
        state,
        (GoodName::Full, NONE),
        store,
        terms_at(object, NONE, NONE),
    )
}

fn good_allocated(state: &mut State, bank: &Bank, node: usize) -> Result<(), AllocError> {
    let store = good_store(state, argument(bank, node, 0));
    let object = argument(bank, node, 1);
    if store == NONE {
        return Ok(());
    }
    good_reads(state, bank, (GoodName::Typed, store), object)?;
    good_owners(state, bank, store, object)
}

// An object at which something allocated is owned is allocated.
fn good_owners(
    state: &mut State,
    bank: &Bank,
    store: usize,
    object: usize,
) -> Result<(), AllocError> {
    for place in 0..usize::MAX {
        let node = state.asked.node(place);
        if node == NONE {
            break;
        }
        if state.equal.kind(node) == OWNER {
            owner_is_allocated(state, bank, store, object, node)?;
        }
    }
    Ok(())
}

fn owner_is_allocated(
    state: &mut State,
    bank: &Bank,
    store: usize,
    object: usize,
    node: usize,
) -> Result<(), AllocError> {
    if !state
        .equal
        .are_equal(of_term(argument(bank, node, 0)), of_term(store))
    {
        return Ok(());
    }
    for place in 0..4 {
        let pair = member(state, bank, node, PAIR, place);
        if pair == NONE {
            break;
        }
        let owner = term_argument(bank, pair, 0);
        if state.equal.are_equal(of_term(owner), of_term(object)) {
            let class = term_argument(bank, pair, 1);
            let owned = argument(bank, node, 1);
            good_once(
                state,
                (GoodName::Typed, 3),
                store,
                terms_at(owned, owner, class),
            )?;
        }
    }
    Ok(())
}

fn good_ready(state: &mut State, bank: &Bank, node: usize) -> Result<(), AllocError> {
    let store = good_store(state, argument(bank, node, 0));
    let object = argument(bank, node, 1);
    if store == NONE {
        return Ok(());
    }
    good_reads(state, bank, (GoodName::Ready, store), object)
}

fn good_group(state: &mut State, bank: &Bank, node: usize) -> Result<(), AllocError> {
    let owner = argument(bank, node, 0);
    split_pairs(state, bank, of_term(owner))?;
    for place in 0..8 {
        let read = member(state, bank, of_term(owner), OWNER, place);
        if read == NONE {
            break;
        }
        new_group(state, bank, read)?;
    }
    Ok(())
}

fn good_class(
    state: &mut State,
    bank: &Bank,
    program: &Classes,
    node: usize,
) -> Result<(), AllocError> {
    let x = argument(bank, node, 0);
    let bound = argument(bank, node, 1);
    if class_literal(state, bank, x) != NONE {
        return Ok(());
    }
    for place in 0..8 {
        let read = member(state, bank, of_term(x), TYPE, place);
        if read == NONE {
            break;
        }
        good_type(state, bank, program, term_argument(bank, read, 0), bound)?;
    }
    Ok(())
}

// What good stores say of an object's class.
fn good_type(
    state: &mut State,
    bank: &Bank,
    program: &Classes,
    object: usize,
    bound: usize,
) -> Result<(), AllocError> {
    for place in 0..state.asked.good_count() {
        let store = state.asked.good_at(place).number;
        good_reads(state, bank, (GoodName::Typed, store), object)?;
    }
    let mut at = state.equal.last_use(of_term(object));
    for _ in 0..10_000usize {
        let (node, before) = state.equal.use_at(at);
        if node == NONE {
            break;
        }
        if state.equal.kind(node) == LEVEL {
            good_level(state, bank, program, node, bound)?;
        }
        at = before;
    }
    Ok(())
}

fn good_level(
    state: &mut State,
    bank: &Bank,
    program: &Classes,
    node: usize,
    bound: usize,
) -> Result<(), AllocError> {
    let store = good_store(state, argument(bank, node, 0));
    if store == NONE {
        return Ok(());
    }
    let object = argument(bank, node, 1);
    if state.equal.are_equal(node, of_term(bound)) {
        return good_once(
            state,
            (GoodName::Typed, 2),
            store,
            terms_at(object, NONE, NONE),
        );
    }
    let literal = class_literal(state, bank, node / 2);
    let upper = class_literal(state, bank, bound);
    if literal != NONE
        && upper != NONE
        && program.is_subclass(class_id(bank, literal), class_id(bank, upper))
    {
        return good_once(
            state,
            (GoodName::Typed, 2),
            store,
            terms_at(object, literal, NONE),
        );
    }
    Ok(())
}
