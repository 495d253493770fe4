// What is read in the forms of terms and atoms.

ghost use Rattle.std.specs.Prelude.{◌≡◌, List};
ghost use Rattle.ss_core.specs.Tree.{ClassTree};
ghost use Rattle.ss_logic.specs.declared.Sort.TheVariants as sort;
ghost use Rattle.ss_logic.specs.Terms as tree;
ghost use Rattle.ss_logic.specs.Terms.{App, terms_from};
ghost use Rattle.ss_logic.specs.Reads as reads;
ghost use Rattle.ss_logic.specs.Rules as rules;
ghost use Rattle.ss_logic.specs.Asked as spec;
ghost use Rattle.ss_terms.specs.Forms.{term_at, terms_at, formula_at, HasTerm, HasTerms, HasFormula, IsBankOf};
ghost use Rattle.ss_rules_asked.specs.Readings.{nothing, first_of_two, first_is_constant, is_store_equation, IsReading, IsOne, IsCount};

use ss_logic::Sort;
use ss_terms::{Bank, Formula, FormulaId, Predicate, Symbol, Term, TermId};

/// What a read takes beside its store.
#[derive(Clone, Copy)]
pub enum Others {
    /// Nothing.
    Nothing,
    /// An object.
    Object(TermId),
    /// An object and the number of a field.
    Field(TermId, u32),
    /// An array and a position.
    Element(TermId, TermId),
}

/// A read: its number, its store, and what else it takes.
#[derive(Clone, Copy)]
pub struct Reading {
    /// Its number.
    pub kind: u32,
    /// Its store.
    pub store: TermId,
    /// What else it takes.
    pub others: Others,
}

/// That a term counts as a class.
#[derive(Clone, Copy)]
pub(crate) struct Counts {
    pub(crate) term: TermId,
    pub(crate) class: TermId,
}

// ---- reads

// The read of an object in a store.
fn object_reading(bank: &Bank, kind: u32, ts: &[TermId]) -> Option<Reading>
    requires { HasTerms bank.now ts.now }
    ensures { IsReading bank.now result (spec.object_reading kind (terms_from (terms_at bank.now ts.now))) }
{
    let _ = bank;
    match ts {
        [] => None,
        [_] => None,
        [store, object] => Some(Reading {
            kind,
            store: *store,
            others: Others::Object(*object),
        }),
        [_, _, _, ..] => None,
    }
}

fn field_reading(bank: &Bank, field: u32, ts: &[TermId]) -> Option<Reading>
    requires { HasTerms bank.now ts.now }
    ensures { IsReading bank.now result (spec.field_reading field (terms_from (terms_at bank.now ts.now))) }
{
    let _ = bank;
    match ts {
        [] => None,
        [_] => None,
        [store, object] => Some(Reading {
            kind: 0,
            store: *store,
            others: Others::Field(*object, field),
        }),
        [_, _, _, ..] => None,
    }
}

fn element_kind(sort: Sort) -> u32
    ensures { result ≡ spec.element_kind sort }
{
    match sort {
        Sort::Whole => 9,
        Sort::Truth => 10,
        Sort::Store => 1,
        Sort::Rest => 1,
    }
}

fn element_reading(bank: &Bank, sort: Sort, ts: &[TermId]) -> Option<Reading>
    requires { HasTerms bank.now ts.now }
    ensures { IsReading bank.now result (spec.element_reading sort (terms_from (terms_at bank.now ts.now))) }
{
    let _ = bank;
    match ts {
        [] => None,
        [_] => None,
        [_, _] => None,
        [store, array, index] => Some(Reading {
            kind: element_kind(sort),
            store: *store,
            others: Others::Element(*array, *index),
        }),
        [_, _, _, _, ..] => None,
    }
}

fn next_reading(bank: &Bank, ts: &[TermId]) -> Option<Reading>
    requires { HasTerms bank.now ts.now }
    ensures { IsReading bank.now result (spec.next_reading (terms_from (terms_at bank.now ts.now))) }
{
    let _ = bank;
    match ts {
        [] => None,
        [store] => Some(Reading {
            kind: 4,
            store: *store,
            others: Others::Nothing,
        }),
        [_, _, ..] => None,
    }
}

/// The read that a term is.
pub(crate) fn reading_of_term(bank: &Bank, t: TermId) -> Option<Reading>
    requires { HasTerm bank.now t }
    ensures { IsReading bank.now result (spec.reading_of_term (term_at bank.now t)) }
{
    match bank.term_node(t) {
        Term::App(Symbol::Field(field), ts) => field_reading(bank, *field, ts),
        Term::App(Symbol::Element(sort), ts) => element_reading(bank, *sort, ts),
        Term::App(Symbol::Level, ts) => object_reading(bank, 2, ts),
        Term::App(Symbol::Owner, ts) => object_reading(bank, 3, ts),
        Term::App(Symbol::Next, ts) => next_reading(bank, ts),
        _ => None,
    }
}

/// The read that an atom is.
pub(crate) fn reading_of_atom(bank: &Bank, f: FormulaId) -> Option<Reading>
    requires { HasFormula bank.now f }
    ensures { IsReading bank.now result (spec.reading_of_atom (formula_at bank.now f)) }
{
    match bank.formula_node(f) {
        Formula::Literal {
            predicate,
            arguments,
            ..
        } => match predicate {
            Predicate::Allocated => object_reading(bank, 5, arguments),
            Predicate::Committed => object_reading(bank, 6, arguments),
            Predicate::Ready => object_reading(bank, 7, arguments),
            _ => None,
        },
        _ => None,
    }
}

// ---- arguments of terms and atoms

fn only_one(bank: &Bank, ts: &[TermId]) -> Option<TermId>
    requires { HasTerms bank.now ts.now }
    ensures { IsOne bank.now result (spec.only_one (terms_from (terms_at bank.now ts.now))) }
{
    let _ = bank;
    match ts {
        [] => None,
        [t] => Some(*t),
        [_, _, ..] => None,
    }
}

fn second_where_first(bank: &Bank, s: TermId, ts: &[TermId]) -> Option<TermId>
    requires store { HasTerm bank.now s }
    requires terms { HasTerms bank.now ts.now }
    ensures { IsOne bank.now result (spec.second_where_first (term_at bank.now s) (terms_from (terms_at bank.now ts.now))) }
{
    match ts {
        [] => None,
        [_] => None,
        [x, y] => {
            if bank.is_same_term(s, *x) {
                Some(*y)
            } else {
                None
            }
        }
        [_, _, _, ..] => None,
    }
}

/// What an atom says that the store equals.
pub(crate) fn equals(bank: &Bank, s: TermId, f: FormulaId) -> Option<TermId>
    requires store { HasTerm bank.now s }
    requires formula { HasFormula bank.now f }
    ensures { IsOne bank.now result (spec.equals (term_at bank.now s) (formula_at bank.now f)) }
{
    match bank.formula_node(f) {
        Formula::Literal {
            predicate: Predicate::Equal,
            arguments,
            ..
        } => second_where_first(bank, s, arguments),
        _ => None,
    }
}

/// The object whose owner in the store a term is.
pub(crate) fn owned_in(bank: &Bank, s: TermId, t: TermId) -> Option<TermId>
    requires store { HasTerm bank.now s }
    requires term { HasTerm bank.now t }
    ensures { IsOne bank.now result (spec.owned_in (term_at bank.now s) (term_at bank.now t)) }
{
    match bank.term_node(t) {
        Term::App(Symbol::Owner, ts) => second_where_first(bank, s, ts),
        _ => None,
    }
}

/// The store of which an atom says that it is good.
pub fn good_of(bank: &Bank, f: FormulaId) -> Option<TermId>
    requires { HasFormula bank.now f }
    ensures { IsOne bank.now result (spec.good_of (formula_at bank.now f)) }
{
    match bank.formula_node(f) {
        Formula::Literal {
            predicate: Predicate::Good,
            arguments,
            ..
        } => only_one(bank, arguments),
        _ => None,
    }
}

/// The array whose length a term is.
pub fn length_of(bank: &Bank, t: TermId) -> Option<TermId>
    requires { HasTerm bank.now t }
    ensures { IsOne bank.now result (spec.length_of (term_at bank.now t)) }
{
    match bank.term_node(t) {
        Term::App(Symbol::Length, ts) => only_one(bank, ts),
        _ => None,
    }
}

/// Whether a term is a class name.
pub(crate) fn is_class_name(bank: &Bank, t: TermId) -> bool
    requires { HasTerm bank.now t }
    ensures { result ≡ spec.is_class_name (term_at bank.now t) }
{
    match bank.term_node(t) {
        Term::App(Symbol::ClassName(_), _) => true,
        _ => false,
    }
}

/// Whether a term is a pair.
pub(crate) fn is_pair(bank: &Bank, t: TermId) -> bool
    requires { HasTerm bank.now t }
    ensures { result ≡ spec.is_pair (term_at bank.now t) }
{
    match bank.term_node(t) {
        Term::App(Symbol::Pair, _) => true,
        _ => false,
    }
}

fn counts_of(bank: &Bank, ts: &[TermId]) -> Option<Counts>
    requires { HasTerms bank.now ts.now }
    ensures { IsCount bank.now result (spec.counts_of (terms_from (terms_at bank.now ts.now))) }
{
    match ts {
        [] => None,
        [_] => None,
        [x, class] => {
            if is_class_name(bank, *x) {
                None
            } else {
                Some(Counts {
                    term: *x,
                    class: *class,
                })
            }
        }
        [_, _, _, ..] => None,
    }
}

/// What an atom counts as a class.
pub(crate) fn counted(bank: &Bank, f: FormulaId) -> Option<Counts>
    requires { HasFormula bank.now f }
    ensures { IsCount bank.now result (spec.counts (formula_at bank.now f)) }
{
    match bank.formula_node(f) {
        Formula::Literal {
            predicate: Predicate::Sub,
            arguments,
            ..
        } => counts_of(bank, arguments),
        _ => None,
    }
}

// ---- stores and truth values

// Whether there is no term.
fn is_nothing(ts: &[TermId]) -> bool
    ensures { result ≡ nothing ts.now }
{
    match ts {
        [] => true,
        [_, ..] => false,
    }
}

// Whether a constant for stores has no arguments.
fn store_alone(bank: &Bank, number: usize, ts: &[TermId]) -> bool
    ensures { result ≡ reads.is_constant_store (App (tree.Constant sort.Store number) (terms_from (terms_at bank.now ts.now))) }
{
    let _ = bank;
    let _ = number;
    is_nothing(ts)
}

/// Whether a term is a constant for stores.
pub(crate) fn is_constant_store(bank: &Bank, t: TermId) -> bool
    requires { HasTerm bank.now t }
    ensures { result ≡ reads.is_constant_store (term_at bank.now t) }
{
    match bank.term_node(t) {
        Term::App(Symbol::Constant(Sort::Store, number), ts) => store_alone(bank, *number, ts),
        _ => false,
    }
}

// Whether the first of two is a constant for stores.
fn first_is_constant(bank: &Bank, ts: &[TermId]) -> bool
    requires { HasTerms bank.now ts.now }
    ensures { result ≡ first_is_constant (terms_from (terms_at bank.now ts.now)) }
{
    match ts {
        [] => false,
        [_] => false,
        [x, y] => {
            let _ = y;
            is_constant_store(bank, *x)
        }
        [_, _, _, ..] => false,
    }
}

/// Whether an atom says what a constant for stores equals.
pub(crate) fn is_store_equation(bank: &Bank, f: FormulaId) -> bool
    requires { HasFormula bank.now f }
    ensures { result ≡ is_store_equation (formula_at bank.now f) }
{
    match bank.formula_node(f) {
        Formula::Literal {
            predicate: Predicate::Equal,
            arguments,
            ..
        } => first_is_constant(bank, arguments),
        _ => false,
    }
}

// The first of two.
fn first_of_two(bank: &Bank, ts: &[TermId]) -> Option<TermId>
    requires { HasTerms bank.now ts.now }
    ensures { IsOne bank.now result (first_of_two (terms_from (terms_at bank.now ts.now))) }
{
    let _ = bank;
    match ts {
        [] => None,
        [_] => None,
        [store, _] => Some(*store),
        [_, _, _, ..] => None,
    }
}

// The store before a new object of this class.
fn before_object(bank: &Bank, class: u16, ts: &[TermId]) -> Option<TermId>
    requires { HasTerms bank.now ts.now }
    ensures { IsOne bank.now result (rules.store_before (App (tree.New class) (terms_from (terms_at bank.now ts.now)))) }
{
    let _ = class;
    only_one(bank, ts)
}

// The store before a new array of this class.
fn before_array(bank: &Bank, class: u16, ts: &[TermId]) -> Option<TermId>
    requires { HasTerms bank.now ts.now }
    ensures { IsOne bank.now result (rules.store_before (App (tree.NewArray class) (terms_from (terms_at bank.now ts.now)))) }
{
    let _ = class;
    first_of_two(bank, ts)
}

/// The store before, where a term is a store with a new object.
pub(crate) fn store_before(bank: &Bank, t: TermId) -> Option<TermId>
    requires { HasTerm bank.now t }
    ensures { IsOne bank.now result (rules.store_before (term_at bank.now t)) }
{
    match bank.term_node(t) {
        Term::App(Symbol::New(class), ts) => before_object(bank, *class, ts),
        Term::App(Symbol::NewArray(class), ts) => before_array(bank, *class, ts),
        _ => None,
    }
}

/// Whether a term is a truth value other than a literal.
pub(crate) fn is_unknown_truth(bank: &Bank, t: TermId) -> bool
    requires { HasTerm bank.now t }
    ensures { (cs : List ClassTree) → IsBankOf cs bank.now → result ≡ spec.is_unknown_truth cs (term_at bank.now t) }
{
    match bank.term_node(t) {
        Term::App(Symbol::Fixed(_), _) => false,
        _ => bank.sort(t) == Sort::Truth,
    }
}
