//! What the search reads of a bank: heads, arguments, sorts and parts of terms and formulas; sets of numbers with undo, places by numbers, and marks of kinds.
#![tactic(auto)]

mod keys;
mod kinds;
mod places;
mod question;

pub use keys::Keys;
pub use kinds::{USED, is_read, mark_of};
pub use places::Places;
pub use question::{
    ADD, ALLOCATED, AND, ARRAY, AT_MOST, BOUND, CAPTURE, CLASS, COMMITTED, CONSTANT, ELEMENT,
    EQUAL, EXISTS, FIELD, FIXED, FORALL, GOOD, GROUP, Head, JOIN, LENGTH, LEVEL, LITERAL, MULTIPLY,
    NEW, NEXT, NONE, NULL, NUMBER, OR, OWNER, PACK, PAIR, PUT, QUOTIENT, READY, READY_MADE,
    REMAINDER, SET, SUB, SUBTRACT, TYPE, UNPACK, argument, arguments_of, arity, body_of,
    bound_count, bound_sort, code_of_sort, delayed_term, delayed_whole, first_of, formula_at,
    has_unbound, head_of_predicate, head_of_symbol, is_closed, is_delayed, is_first, is_term,
    is_truth, is_value, is_whole, kind_of, node_head, of_pair, of_term, opposite, pair_argument,
    pair_head, pair_of, part_at, part_count, same_head, second_of, sort_at, term_argument, term_at,
    term_head,
};
