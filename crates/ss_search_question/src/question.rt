// What is read of a bank. A node is a term or an atom: 2 t is the term t, and 2 p + 1 the atom of the pair p.

use ss_logic::Sort;
use ss_terms::{Bank, Formula, FormulaId, Predicate, Symbol, Term, TermId};

/// No number.
pub const NONE: usize = usize::MAX;

/// What stands at the head of a term or of an atom.
pub const BOUND: usize = 0;

pub const NUMBER: usize = 1;

pub const FIXED: usize = 2;

pub const NULL: usize = 3;

pub const CLASS: usize = 4;

pub const CONSTANT: usize = 5;

pub const ADD: usize = 6;

pub const SUBTRACT: usize = 7;

pub const MULTIPLY: usize = 8;

pub const QUOTIENT: usize = 9;

pub const REMAINDER: usize = 10;

pub const FIELD: usize = 11;

pub const ELEMENT: usize = 12;

pub const LENGTH: usize = 13;

pub const TYPE: usize = 14;

pub const LEVEL: usize = 15;

pub const OWNER: usize = 16;

pub const PAIR: usize = 17;

pub const NEXT: usize = 18;

pub const SET: usize = 19;

pub const PUT: usize = 20;

pub const UNPACK: usize = 21;

pub const PACK: usize = 22;

pub const CAPTURE: usize = 23;

pub const JOIN: usize = 24;

pub const NEW: usize = 25;

pub const ARRAY: usize = 26;

pub const READY_MADE: usize = 27;

pub const EQUAL: usize = 30;

pub const AT_MOST: usize = 31;

pub const SUB: usize = 32;

pub const ALLOCATED: usize = 33;

pub const COMMITTED: usize = 34;

pub const READY: usize = 35;

pub const GROUP: usize = 36;

pub const GOOD: usize = 37;

/// A head: its kind, and the number of its class, field, sort or constant.
#[derive(Clone, Copy)]
pub struct Head {
    pub kind: usize,
    pub number: usize,
}

/// Whether two heads are the same.
pub fn same_head(a: Head, b: Head) -> bool {
    a.kind == b.kind && a.number == b.number
}

/// The node of a term.
pub fn of_term(term: usize) -> usize {
    term.saturating_mul(2)
}

/// The node of the atom of a pair.
pub fn of_pair(pair: usize) -> usize {
    pair.saturating_mul(2).saturating_add(1)
}

/// Whether a node is a term.
pub fn is_term(node: usize) -> bool {
    node % 2 == 0
}

/// The number of the pair of formulas, a formula and its negation, that a formula belongs to.
pub fn pair_of(f: usize) -> usize {
    f / 2
}

/// Whether a formula is the first of its pair.
pub fn is_first(f: usize) -> bool {
    f % 2 == 0
}

/// The first formula of a pair.
pub fn first_of(pair: usize) -> usize {
    pair.saturating_mul(2)
}

/// The second formula of a pair.
pub fn second_of(pair: usize) -> usize {
    pair.saturating_mul(2).saturating_add(1)
}

/// The negation of a formula.
pub fn opposite(f: usize) -> usize {
    if is_first(f) {
        f.saturating_add(1)
    } else {
        f.saturating_sub(1)
    }
}

/// The formula of a number, where the bank has it.
pub fn formula_at(bank: &Bank, f: usize) -> Option<&Formula> {
    if bank.has_formula(FormulaId(f)) {
        Some(bank.formula_node(FormulaId(f)))
    } else {
        None
    }
}

/// The term of a number, where the bank has it.
pub fn term_at(bank: &Bank, t: usize) -> Option<&Term> {
    if bank.has_term(TermId(t)) {
        Some(bank.term_node(TermId(t)))
    } else {
        None
    }
}

/// The sort of a term. Whole numbers where there is none.
pub fn sort_at(bank: &Bank, t: usize) -> Sort {
    if bank.has_term(TermId(t)) {
        bank.sort(TermId(t))
    } else {
        Sort::Whole
    }
}

/// A number for a sort.
pub fn code_of_sort(sort: Sort) -> usize {
    match sort {
        Sort::Store => 0,
        Sort::Whole => 1,
        Sort::Truth => 2,
        Sort::Rest => 3,
    }
}

/// Whether a term is of truth values.
pub fn is_truth(bank: &Bank, t: usize) -> bool {
    code_of_sort(sort_at(bank, t)) == 2
}

/// Whether a term is a whole number.
pub fn is_whole(bank: &Bank, t: usize) -> bool {
    code_of_sort(sort_at(bank, t)) == 1
}

/// Whether a term is well sorted and has no bound name.
pub fn is_closed(bank: &Bank, t: usize) -> bool {
    bank.has_term(TermId(t)) && bank.is_well_sorted(TermId(t))
}

fn make_head(kind: usize, number: usize) -> Head {
    Head { kind, number }
}

/// The head of a symbol.
pub fn head_of_symbol(symbol: Symbol) -> Head {
    match symbol {
        Symbol::Number(_) => make_head(NUMBER, 0),
        Symbol::Fixed(is_true) => make_head(FIXED, if is_true { 1 } else { 0 }),
        Symbol::Null => make_head(NULL, 0),
        Symbol::ClassName(class) => make_head(CLASS, class as usize),
        Symbol::Constant(_, number) => make_head(CONSTANT, number),
        Symbol::Add => make_head(ADD, 0),
        Symbol::Subtract => make_head(SUBTRACT, 0),
        Symbol::Multiply => make_head(MULTIPLY, 0),
        Symbol::Quotient => make_head(QUOTIENT, 0),
        Symbol::Remainder => make_head(REMAINDER, 0),
        Symbol::Field(field) => make_head(FIELD, field as usize),
        Symbol::Element(sort) => make_head(ELEMENT, code_of_sort(sort)),
        Symbol::Length => make_head(LENGTH, 0),
        Symbol::TypeOf => make_head(TYPE, 0),
        Symbol::Level => make_head(LEVEL, 0),
        Symbol::Owner => make_head(OWNER, 0),
        Symbol::Pair => make_head(PAIR, 0),
        Symbol::Next => make_head(NEXT, 0),
        Symbol::Set(field) => make_head(SET, field as usize),
        Symbol::Put => make_head(PUT, 0),
        Symbol::Unpack(class) => make_head(UNPACK, class as usize),
        Symbol::Pack(class) => make_head(PACK, class as usize),
        Symbol::Capture(class) => make_head(CAPTURE, class as usize),
        Symbol::Join => make_head(JOIN, 0),
        Symbol::New(class) => make_head(NEW, class as usize),
        Symbol::NewArray(class) => make_head(ARRAY, class as usize),
        Symbol::MakeReady => make_head(READY_MADE, 0),
    }
}

/// The head of a predicate.
pub fn head_of_predicate(predicate: Predicate) -> Head {
    match predicate {
        Predicate::Equal => make_head(EQUAL, 0),
        Predicate::AtMost => make_head(AT_MOST, 0),
        Predicate::Sub => make_head(SUB, 0),
        Predicate::Allocated => make_head(ALLOCATED, 0),
        Predicate::Committed => make_head(COMMITTED, 0),
        Predicate::Ready => make_head(READY, 0),
        Predicate::IsGroup => make_head(GROUP, 0),
        Predicate::Good => make_head(GOOD, 0),
    }
}

/// The head of a term.
pub fn term_head(bank: &Bank, t: usize) -> Head {
    match term_at(bank, t) {
        Some(Term::App(symbol, _)) => head_of_symbol(*symbol),
        Some(Term::Bound(number)) => make_head(BOUND, *number),
        None => make_head(BOUND, NONE),
    }
}

/// The head of the atom of a pair.
pub fn pair_head(bank: &Bank, pair: usize) -> Head {
    match formula_at(bank, first_of(pair)) {
        Some(Formula::Literal { predicate, .. }) => head_of_predicate(*predicate),
        _ => make_head(BOUND, NONE),
    }
}

/// The head of a node.
pub fn node_head(bank: &Bank, node: usize) -> Head {
    if is_term(node) {
        term_head(bank, node / 2)
    } else {
        pair_head(bank, node / 2)
    }
}

fn in_list(ts: &[TermId], place: usize) -> usize {
    match ts.get(place) {
        Some(t) => t.0,
        None => NONE,
    }
}

/// The argument of a term at a place, or NONE.
pub fn term_argument(bank: &Bank, t: usize, place: usize) -> usize {
    match term_at(bank, t) {
        Some(Term::App(_, arguments)) => in_list(arguments, place),
        _ => NONE,
    }
}

/// The argument of the atom of a pair at a place, or NONE.
pub fn pair_argument(bank: &Bank, pair: usize, place: usize) -> usize {
    match formula_at(bank, first_of(pair)) {
        Some(Formula::Literal { arguments, .. }) => in_list(arguments, place),
        _ => NONE,
    }
}

/// The argument of a node at a place, or NONE.
pub fn argument(bank: &Bank, node: usize, place: usize) -> usize {
    if is_term(node) {
        term_argument(bank, node / 2, place)
    } else {
        pair_argument(bank, node / 2, place)
    }
}

/// The arguments of a node.
pub fn arguments_of(bank: &Bank, node: usize) -> &[TermId] {
    if is_term(node) {
        match term_at(bank, node / 2) {
            Some(Term::App(_, arguments)) => arguments,
            _ => &[],
        }
    } else {
        match formula_at(bank, first_of(node / 2)) {
            Some(Formula::Literal { arguments, .. }) => arguments,
            _ => &[],
        }
    }
}

/// How many arguments a node has.
pub fn arity(bank: &Bank, node: usize) -> usize {
    arguments_of(bank, node).len()
}

/// Whether a term is a number, a truth value, null or a class name.
pub fn is_value(bank: &Bank, t: usize) -> bool {
    match term_at(bank, t) {
        Some(Term::App(symbol, _)) => is_value_symbol(*symbol),
        _ => false,
    }
}

fn is_value_symbol(symbol: Symbol) -> bool {
    matches!(
        symbol,
        Symbol::Number(_) | Symbol::Fixed(_) | Symbol::Null | Symbol::ClassName(_)
    )
}

/// What kind of formula there is.
pub const LITERAL: usize = 1;

pub const AND: usize = 2;

pub const OR: usize = 3;

pub const FORALL: usize = 4;

pub const EXISTS: usize = 5;

/// The kind of a formula, or 0 where there is none.
pub fn kind_of(bank: &Bank, f: usize) -> usize {
    match formula_at(bank, f) {
        Some(Formula::Literal { .. }) => LITERAL,
        Some(Formula::And(_)) => AND,
        Some(Formula::Or(_)) => OR,
        Some(Formula::Forall(_, _)) => FORALL,
        Some(Formula::Exists(_, _)) => EXISTS,
        None => 0,
    }
}

fn formula_in_list(fs: &[FormulaId], place: usize) -> usize {
    match fs.get(place) {
        Some(f) => f.0,
        None => NONE,
    }
}

/// The part of an `and` or `or` at a place, or NONE.
pub fn part_at(bank: &Bank, f: usize, place: usize) -> usize {
    match formula_at(bank, f) {
        Some(Formula::And(parts)) => formula_in_list(parts, place),
        Some(Formula::Or(parts)) => formula_in_list(parts, place),
        _ => NONE,
    }
}

/// How many parts an `and` or `or` has.
pub fn part_count(bank: &Bank, f: usize) -> usize {
    match formula_at(bank, f) {
        Some(Formula::And(parts)) => parts.len(),
        Some(Formula::Or(parts)) => parts.len(),
        _ => 0,
    }
}

/// Whether there is a formula of this number that isn't well formed: in what is known, a name in it is unbound.
pub fn has_unbound(bank: &Bank, f: usize) -> bool {
    bank.has_formula(FormulaId(f)) && !bank.is_well_formed(FormulaId(f))
}

/// Whether an `and` is delayed: it stands for an `and` with an unbound name, which is its first part, at the term that its second part names.
pub fn is_delayed(bank: &Bank, f: usize) -> bool {
    has_unbound(bank, delayed_whole(bank, f))
}

/// The `and` that a delayed one stands for at a term.
pub fn delayed_whole(bank: &Bank, f: usize) -> usize {
    part_at(bank, f, 0)
}

/// The term at which a delayed `and` stands for another one, or NONE.
pub fn delayed_term(bank: &Bank, f: usize) -> usize {
    let named = part_at(bank, part_at(bank, f, 1), 0);
    pair_argument(bank, pair_of(named), 0)
}

/// The body of a quantified formula, or NONE.
pub fn body_of(bank: &Bank, f: usize) -> usize {
    match formula_at(bank, f) {
        Some(Formula::Forall(_, body)) => body.0,
        Some(Formula::Exists(_, body)) => body.0,
        _ => NONE,
    }
}

/// How many names a quantified formula binds.
pub fn bound_count(bank: &Bank, f: usize) -> usize {
    match formula_at(bank, f) {
        Some(Formula::Forall(sorts, _)) => sorts.len(),
        Some(Formula::Exists(sorts, _)) => sorts.len(),
        _ => 0,
    }
}

/// The sort of a bound name of a quantified formula.
pub fn bound_sort(bank: &Bank, f: usize, place: usize) -> Sort {
    match formula_at(bank, f) {
        Some(Formula::Forall(sorts, _)) => sort_in_list(sorts, place),
        Some(Formula::Exists(sorts, _)) => sort_in_list(sorts, place),
        _ => Sort::Rest,
    }
}

fn sort_in_list(sorts: &[Sort], place: usize) -> Sort {
    match sorts.get(place) {
        Some(sort) => *sort,
        None => Sort::Rest,
    }
}
