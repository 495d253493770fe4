// Which class counts as another one.

use crate::looks::{KEY_RULE, class_id, class_literal, mixed};
use ss_core::{ClassId, Classes};
use ss_search_facts::RuleKind;
use ss_search_question::{NONE, argument, of_term, pair_argument};
use ss_search_state::{Request, State, Wanted, new_request};
use ss_terms::Bank;
use std::alloc::AllocError;

// Which class counts as another one.
pub(crate) fn reduce_class(
    state: &mut State,
    bank: &Bank,
    program: &Classes,
    node: usize,
) -> Result<(), AllocError> {
    let x = argument(bank, node, 0);
    let bound = argument(bank, node, 1);
    let (lower, upper) = (
        class_literal(state, bank, x),
        class_literal(state, bank, bound),
    );
    if lower != NONE && upper != NONE {
        return class_rule(
            state,
            0,
            new_request(Wanted::Rule(RuleKind::Class), lower, upper, NONE),
        );
    }
    if state.equal.are_equal(of_term(x), of_term(bound)) {
        return class_rule(
            state,
            3,
            new_request(Wanted::Rule(RuleKind::Class), x, NONE, NONE),
        );
    }
    if upper == NONE {
        return Ok(());
    }
    for place in 0..state.asked.sub_count() {
        let pair = state.asked.sub(place);
        let other = pair_argument(bank, pair, 0);
        if state.equal.are_equal(of_term(other), of_term(x)) {
            compare_bounds(state, bank, program, (x, upper), pair)?;
        }
    }
    Ok(())
}

fn class_rule(state: &mut State, sentence: usize, wanted: Request) -> Result<(), AllocError> {
    let key = KEY_RULE.saturating_add(10).saturating_add(sentence);
    let others = mixed(mixed(wanted.second, wanted.third), wanted.class);
    if state.seen.is_new(key, wanted.first, others)? {
        state.want(wanted.numbered(sentence))?;
    }
    Ok(())
}

// What a known literal on a term's class says of another class.
fn compare_bounds(
    state: &mut State,
    bank: &Bank,
    program: &Classes,
    asked: (usize, usize),
    pair: usize,
) -> Result<(), AllocError> {
    let (x, upper) = asked;
    let known = class_literal(state, bank, pair_argument(bank, pair, 1));
    if known == NONE || known == upper {
        return Ok(());
    }
    let Some(holds) = state.equal.mark_of(bank, pair) else {
        return Ok(());
    };
    let (e, d) = (class_id(bank, known), class_id(bank, upper));
    if holds && program.is_subclass(e, d) {
        return climb_class(state, program, x, e, d);
    }
    if holds && !program.is_subclass(d, e) {
        return class_rule(
            state,
            2,
            new_request(Wanted::Rule(RuleKind::Class), x, known, upper),
        );
    }
    if !holds && program.is_subclass(d, e) {
        return climb_class(state, program, x, d, e);
    }
    Ok(())
}

fn climb_class(
    state: &mut State,
    program: &Classes,
    x: usize,
    from: ClassId,
    to: ClassId,
) -> Result<(), AllocError> {
    let mut at = from;
    for _ in 0..64usize {
        if at.0 == to.0 || at.0 == 0 {
            break;
        }
        let wanted = new_request(Wanted::Rule(RuleKind::Class), x, NONE, NONE);
        class_rule(state, 1, wanted.of_class(at.0 as usize))?;
        at = program.above(at);
    }
    Ok(())
}
