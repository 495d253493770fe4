// What good stores say of what is read of them.

use crate::looks::{good_once, member, terms_at};
use ss_search_facts::GoodName;
use ss_search_question::{ELEMENT, FIELD, NONE, of_term, term_argument, term_head};
use ss_search_state::State;
use ss_terms::Bank;
use std::alloc::AllocError;

// What is said of what a field or an element holds.
pub(crate) fn good_reads(
    state: &mut State,
    bank: &Bank,
    rule: (GoodName, usize),
    object: usize,
) -> Result<(), AllocError> {
    let (name, store) = rule;
    for place in 0..8 {
        let read = member(state, bank, of_term(object), FIELD, place);
        if read == NONE {
            break;
        }
        good_field(state, bank, rule, read)?;
    }
    for place in 0..8 {
        let read = member(state, bank, of_term(object), ELEMENT, place);
        if read == NONE {
            break;
        }
        if state
            .equal
            .are_equal(of_term(term_argument(bank, read, 0)), of_term(store))
        {
            let array = term_argument(bank, read, 1);
            let index = term_argument(bank, read, 2);
            good_once(state, (name, 1), store, terms_at(array, index, NONE))?;
        }
    }
    Ok(())
}

pub(crate) fn good_field(
    state: &mut State,
    bank: &Bank,
    rule: (GoodName, usize),
    read: usize,
) -> Result<(), AllocError> {
    let (name, store) = rule;
    if !state
        .equal
        .are_equal(of_term(term_argument(bank, read, 0)), of_term(store))
    {
        return Ok(());
    }
    let field = term_head(bank, read).number;
    let holder = term_argument(bank, read, 1);
    good_once(
        state,
        (name, 0),
        store,
        terms_at(holder, NONE, NONE).of_field(field),
    )
}
