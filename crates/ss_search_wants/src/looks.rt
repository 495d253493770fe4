// What is read of the state, the bank and the program, and how an instance is wanted once.

use ss_core::{ClassId, Classes, Field, FieldId, MOST_CLASSES, Mark, Ty};
use ss_search_facts::GoodName;
use ss_search_question::{CLASS, NONE, is_term, of_term, term_head};
use ss_search_state::{Request, State, Wanted, new_request};
use ss_terms::Bank;
use std::alloc::AllocError;

pub(crate) const KEY_READ: usize = 1000;

pub(crate) const KEY_FORALL: usize = 2000;

pub(crate) const KEY_RULE: usize = 3000;

const KEY_GOOD: usize = 4000;

// One number for two.
pub(crate) fn mixed(a: usize, b: usize) -> usize {
    a.wrapping_mul(0x100000001).wrapping_add(b)
}

// The arguments of an instance.
pub(crate) fn terms_at(first: usize, second: usize, third: usize) -> Request {
    new_request(Wanted::Level, first, second, third)
}

pub(crate) fn class_of(state: &State, term: usize) -> usize {
    if term == NONE {
        NONE
    } else {
        state.equal.class(of_term(term))
    }
}

// The member of a class of this kind that has so many others before it, or NONE. A term that isn't there is alone in its class.
pub(crate) fn member(state: &State, bank: &Bank, node: usize, kind: usize, before: usize) -> usize {
    if !state.equal.is_there(node) {
        let is_member = before == 0 && is_term(node) && term_head(bank, node / 2).kind == kind;
        return if is_member { node / 2 } else { NONE };
    }
    if !state.equal.has_kind(node, kind) {
        return NONE;
    }
    let found = state.equal.member(node, kind, before);
    if found == NONE { NONE } else { found / 2 }
}

// The class name that a term is known to be, or NONE.
pub(crate) fn class_literal(state: &State, bank: &Bank, term: usize) -> usize {
    let literal = state.equal.literal(of_term(term));
    if literal != NONE && term_head(bank, literal / 2).kind == CLASS {
        literal / 2
    } else if term_head(bank, term).kind == CLASS {
        term
    } else {
        NONE
    }
}

// The class of a name.
pub(crate) fn class_id(bank: &Bank, name: usize) -> ClassId {
    let head = term_head(bank, name);
    if head.kind == CLASS {
        class_numbered(head.number)
    } else {
        ClassId(0)
    }
}

// The class of a number.
pub(crate) fn class_numbered(number: usize) -> ClassId {
    if number < 65_536 {
        ClassId(number as u16)
    } else {
        ClassId(0)
    }
}

// A good store that is equal to a store, or NONE.
pub(crate) fn good_store(state: &State, store: usize) -> usize {
    for place in 0..state.asked.good_count() {
        let held = state.asked.good_at(place);
        if state.equal.are_equal(of_term(held.number), of_term(store)) {
            return held.number;
        }
    }
    NONE
}

// The instance of a rule on a good store, once.
pub(crate) fn good_once(
    state: &mut State,
    rule: (GoodName, usize),
    store: usize,
    at: Request,
) -> Result<(), AllocError> {
    let (name, sentence) = rule;
    let fact = state.asked.good(store);
    let terms = mixed(mixed(at.first, at.second), at.third);
    let key = mixed(mixed(terms, at.field), mixed(at.class, good_code(name)));
    if fact == NONE
        || !state
            .seen
            .is_new(KEY_GOOD.saturating_add(sentence), store, key)?
    {
        return Ok(());
    }
    let wanted = Request {
        wanted: Wanted::Good(name, store, fact),
        sentence,
        first: at.first,
        second: at.second,
        third: at.third,
        field: at.field,
        class: at.class,
    };
    state.want(wanted)
}

fn good_code(name: GoodName) -> usize {
    match name {
        GoodName::Full => 1,
        GoodName::Owned => 2,
        GoodName::Marks => 3,
        GoodName::Typed => 4,
        GoodName::Ready => 5,
        GoodName::Invariants => 6,
    }
}

// The field of a number with its class, where there are no more classes than there may be.
fn field_at(program: &Classes, field: usize) -> Option<(ClassId, &Field)> {
    if field >= 4_294_967_296 || program.list.len() > MOST_CLASSES {
        return None;
    }
    program.field(FieldId(field as u32))
}

// The class that declares a field; `object`, which each class counts as, where there is none.
pub(crate) fn declaring(program: &Classes, field: usize) -> ClassId {
    match field_at(program, field) {
        Some((class, _)) => class,
        None => ClassId(0),
    }
}

// Whether a field is a rep or a peer field.
pub(crate) fn is_marked(program: &Classes, field: usize) -> bool {
    match field_at(program, field) {
        Some((_, found)) => match found.mark {
            Mark::Plain => false,
            _ => true,
        },
        None => false,
    }
}

// Whether a field is never null in an object that is ready.
pub(crate) fn is_non_null(program: &Classes, field: usize) -> bool {
    match field_at(program, field) {
        Some((_, found)) => match found.ty {
            Ty::Ref { non_null, .. } => non_null,
            _ => false,
        },
        None => false,
    }
}

pub(crate) fn has_invariants(program: &Classes, class: ClassId) -> bool {
    match program.declared(class) {
        Some(found) => !found.invariants.is_empty(),
        None => false,
    }
}
