// What reads come to, and what is said of all objects.

use crate::looks::{KEY_FORALL, KEY_READ, KEY_RULE, class_of, member, mixed};
use ss_search_facts::RuleKind;
use ss_search_instances::Pattern;
use ss_search_question::{
    ALLOCATED, BOUND, COMMITTED, ELEMENT, FIELD, Head, LEVEL, NEXT, NONE, OWNER, PAIR, READY_MADE,
    SET, argument, is_closed, is_term, is_value, node_head, of_term, term_argument, term_head,
};
use ss_search_state::{State, Wanted, new_request};
use ss_terms::Bank;
use std::alloc::AllocError;

// The number of a kind of read in the rule on reads.
fn read_number(kind: usize, number: usize) -> usize {
    if kind == FIELD {
        0
    } else if kind == ELEMENT {
        if number == 1 {
            9
        } else if number == 2 {
            10
        } else {
            1
        }
    } else if kind == LEVEL {
        2
    } else if kind == OWNER {
        3
    } else if kind == NEXT {
        4
    } else if kind == ALLOCATED {
        5
    } else if kind == COMMITTED {
        6
    } else {
        7
    }
}

fn is_change(kind: usize) -> bool {
    kind >= SET && kind <= READY_MADE
}

// Whether a node is a changed store. It needn't be there.
fn is_changed(state: &State, bank: &Bank, node: usize) -> bool {
    if state.equal.is_there(node) {
        is_change(state.equal.kind(node))
    } else {
        is_term(node) && is_change(term_head(bank, node / 2).kind)
    }
}

// The rule on reads, over each changed store that is equal to the one that is read.
pub(crate) fn reduce_read(state: &mut State, bank: &Bank, node: usize) -> Result<(), AllocError> {
    let store = of_term(argument(bank, node, 0));
    if !state.equal.has_kind(store, SET) {
        return Ok(());
    }
    let mut at = store;
    for _ in 0..state.equal.len() {
        if is_changed(state, bank, at) {
            read_over(state, bank, node, at / 2)?;
        }
        at = state.equal.next(at);
        if at == store {
            break;
        }
    }
    Ok(())
}

fn read_over(state: &mut State, bank: &Bank, node: usize, store: usize) -> Result<(), AllocError> {
    let head = node_head(bank, node);
    let object = argument(bank, node, 1);
    let index = argument(bank, node, 2);
    let key = KEY_READ
        .saturating_add(head.kind)
        .saturating_add(head.number.saturating_mul(100_000));
    let at = mixed(class_of(state, object), class_of(state, index));
    if !state.seen.is_new(key, store, at)? {
        return Ok(());
    }
    let sentence = read_number(head.kind, head.number);
    let wanted = new_request(Wanted::Rule(RuleKind::Read), store, object, index).numbered(sentence);
    state.want(if head.kind == FIELD {
        wanted.of_field(head.number)
    } else {
        wanted
    })
}

// The instances of known `forall`s that have this read as a head, over any store that is equal to the one that is read.
pub(crate) fn use_foralls(state: &mut State, bank: &Bank, node: usize) -> Result<(), AllocError> {
    let store = of_term(argument(bank, node, 0));
    let head = node_head(bank, node);
    let mut at = store;
    for _ in 0..state.equal.len() {
        if is_term(at) {
            use_heads(state, bank, (node, head), at / 2)?;
        }
        at = state.equal.next(at);
        if at == store {
            break;
        }
    }
    Ok(())
}

// The same of the heads over one store, by a node with this head.
fn use_heads(
    state: &mut State,
    bank: &Bank,
    read: (usize, Head),
    store: usize,
) -> Result<(), AllocError> {
    let (node, head) = read;
    let mut at = state.heads.first(head, store);
    for _ in 0..state.heads.len() {
        if at == NONE {
            break;
        }
        let pattern = state.heads.pattern(at);
        let fact = state.nodes.held(pattern.forall);
        if fact != NONE && fits(state, bank, pattern, node) {
            instantiate(state, bank, (pattern.forall, fact), pattern, node)?;
        }
        at = pattern.next;
    }
    Ok(())
}

fn fits(state: &State, bank: &Bank, pattern: Pattern, node: usize) -> bool {
    fits_at(state, bank, pattern.object, argument(bank, node, 1))
        && fits_at(state, bank, pattern.index, argument(bank, node, 2))
}

fn fits_at(state: &State, bank: &Bank, wanted: usize, term: usize) -> bool {
    wanted == NONE
        || term_head(bank, wanted).kind == BOUND
        || state.equal.are_equal(of_term(wanted), of_term(term))
}

fn instantiate(
    state: &mut State,
    bank: &Bank,
    forall: (usize, usize),
    pattern: Pattern,
    node: usize,
) -> Result<(), AllocError> {
    let first = bound_to(bank, pattern, node, 0);
    let second = bound_to(bank, pattern, node, 1);
    let at = mixed(class_of(state, first), class_of(state, second));
    if !state.seen.is_new(KEY_FORALL, forall.0, at)? {
        return Ok(());
    }
    state.want(new_request(Wanted::Inst(forall.0, forall.1), first, second, NONE))
}

// The argument of a read at which a head has a bound name, or NONE.
fn bound_to(bank: &Bank, pattern: Pattern, node: usize, name: usize) -> usize {
    if is_bound(bank, pattern.index, name) {
        argument(bank, node, 2)
    } else if is_bound(bank, pattern.object, name) {
        argument(bank, node, 1)
    } else {
        NONE
    }
}

fn is_bound(bank: &Bank, term: usize, name: usize) -> bool {
    let head = term_head(bank, term);
    head.kind == BOUND && head.number == name
}

// Owners that are pairs aren't groups, and equal pairs have equal parts.
pub(crate) fn split_pairs(state: &mut State, bank: &Bank, node: usize) -> Result<(), AllocError> {
    let first = member(state, bank, node, PAIR, 0);
    if first == NONE {
        return Ok(());
    }
    not_group(state, first)?;
    let second = member(state, bank, node, PAIR, 1);
    if second != NONE
        && state
            .seen
            .is_new(KEY_RULE.saturating_add(1), first, second)?
    {
        state.want(new_request(Wanted::Rule(RuleKind::Split), first, second, NONE).numbered(1))?;
    }
    Ok(())
}

// A pair isn't a group.
pub(crate) fn not_group(state: &mut State, pair: usize) -> Result<(), AllocError> {
    if state.seen.is_new(KEY_RULE, pair, 1)? {
        state.want(new_request(Wanted::Rule(RuleKind::Split), pair, NONE, NONE).numbered(0))?;
    }
    Ok(())
}

pub(crate) fn reduce_equality(
    state: &mut State,
    bank: &Bank,
    node: usize,
) -> Result<(), AllocError> {
    let left = argument(bank, node, 0);
    let right = argument(bank, node, 1);
    reduce_next(state, bank, left, right)?;
    reduce_next(state, bank, right, left)
}

// A reference that is allocated next isn't one that is there, nor null.
fn reduce_next(
    state: &mut State,
    bank: &Bank,
    side: usize,
    other: usize,
) -> Result<(), AllocError> {
    for place in 0..8 {
        let next = member(state, bank, of_term(side), NEXT, place);
        if next == NONE {
            break;
        }
        let store = term_argument(bank, next, 0);
        fresh_reference(state, store)?;
        if is_closed(bank, other) && !is_value(bank, other) {
            want_allocated(state, store, other)?;
        }
    }
    Ok(())
}

fn fresh_reference(state: &mut State, store: usize) -> Result<(), AllocError> {
    if state.seen.is_new(KEY_RULE.saturating_add(2), store, 0)? {
        state.want(new_request(Wanted::Rule(RuleKind::Fresh), store, NONE, NONE).numbered(0))?;
    }
    Ok(())
}

// A reference that is allocated next isn't allocated.
pub(crate) fn not_allocated_next(
    state: &mut State,
    bank: &Bank,
    node: usize,
) -> Result<(), AllocError> {
    let next = member(state, bank, of_term(argument(bank, node, 1)), NEXT, 0);
    if next != NONE {
        let inner = term_argument(bank, next, 0);
        fresh_reference(state, inner)?;
    }
    Ok(())
}

// That a store has an object is asked for.
fn want_allocated(state: &mut State, store: usize, object: usize) -> Result<(), AllocError> {
    if state
        .seen
        .is_new(KEY_RULE.saturating_add(6), store, object)?
    {
        state.want(new_request(Wanted::Allocated, store, object, NONE))?;
    }
    Ok(())
}
