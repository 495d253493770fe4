// What the arguments of rules are.

ghost use Rattle.std.specs.Prelude.{◌≡◌, Some};
ghost use Rattle.ss_logic.specs.Terms.{App, Number, Null, ClassName, terms_from};
ghost use Rattle.ss_logic.specs.Shapes.{literal_of, natural, natural_of, class_of_term};
ghost use Rattle.ss_logic.specs.Rules.{is_class_term, store_before};
ghost use Rattle.ss_terms.specs.Forms.{symbol_of, term_at, terms_at, HasTerm, HasTerms};
ghost use Rattle.ss_rules_basic.specs.Arguments.{is_null_term, store_of_next, parts_of};
ghost use Rattle.ss_terms.specs.Numbered.{IsTermOf, ArePartsOf, one_of, two_of};
ghost use Rattle.ss_logic.specs.Asked.{is_pair};

use ss_terms::{Bank, Symbol, Term, TermId};

/// The number that a literal is.
pub fn literal(b: &Bank, t: TermId) -> Option<i128>
    requires { HasTerm b.now t }
    ensures { result ≡ literal_of (term_at b.now t) }
{
    match b.term_node(t) {
        Term::App(Symbol::Number(n), arguments) => number_alone(b, *n, arguments),
        _ => None,
    }
}

// The number, where it has no arguments.
fn number_alone(b: &Bank, n: i128, ts: &[TermId]) -> Option<i128>
    ensures { result ≡ literal_of (App (Number n) (terms_from (terms_at b.now ts.now))) }
{
    let _ = b;
    match ts {
        [] => Some(n),
        _ => None,
    }
}

/// The number that a literal is, where it isn't negative.
pub fn natural(b: &Bank, t: TermId) -> Option<u128>
    requires { HasTerm b.now t }
    ensures { result ≡ natural_of (term_at b.now t) }
{
    let n = literal(b, t)?;
    magnitude(n)
}

// The number, where it isn't negative.
fn magnitude(n: i128) -> Option<u128>
    ensures { result ≡ natural (Some n) }
{
    if n < 0 { None } else { Some(n.unsigned_abs()) }
}

/// The class that a class name is of.
pub fn class_name(b: &Bank, t: TermId) -> Option<u16>
    requires { HasTerm b.now t }
    ensures { result ≡ class_of_term (term_at b.now t) }
{
    match b.term_node(t) {
        Term::App(Symbol::ClassName(class), arguments) => class_alone(b, *class, arguments),
        _ => None,
    }
}

// The class, where it has no arguments.
fn class_alone(b: &Bank, class: u16, ts: &[TermId]) -> Option<u16>
    ensures { result ≡ class_of_term (App (ClassName class) (terms_from (terms_at b.now ts.now))) }
{
    let _ = b;
    match ts {
        [] => Some(class),
        _ => None,
    }
}

/// Whether a term is a class name, the class of an object, or a level.
pub(crate) fn is_class(b: &Bank, t: TermId) -> bool
    requires { HasTerm b.now t }
    ensures { result ≡ is_class_term (term_at b.now t) }
{
    match b.term_node(t) {
        Term::App(Symbol::ClassName(_), _) => true,
        Term::App(Symbol::TypeOf, _) => true,
        Term::App(Symbol::Level, _) => true,
        _ => false,
    }
}

/// Whether a term is a pair.
pub(crate) fn is_pair_at(b: &Bank, t: TermId) -> bool
    requires { HasTerm b.now t }
    ensures { result ≡ is_pair (term_at b.now t) }
{
    match b.term_node(t) {
        Term::App(Symbol::Pair, _) => true,
        _ => false,
    }
}

/// The parts of a pair.
pub(crate) fn pair_parts(b: &Bank, t: TermId) -> Option<(TermId, TermId)>
    requires { HasTerm b.now t }
    ensures { ArePartsOf b.now result (parts_of (term_at b.now t)) }
{
    match b.term_node(t) {
        Term::App(Symbol::Pair, arguments) => two(arguments),
        _ => None,
    }
}

/// The store before, where the term is a store with a new object.
pub(crate) fn before_new(b: &Bank, t: TermId) -> Option<TermId>
    requires { HasTerm b.now t }
    ensures { IsTermOf b.now result (store_before (term_at b.now t)) }
{
    match b.term_node(t) {
        Term::App(Symbol::New(_), arguments) => one(arguments),
        Term::App(Symbol::NewArray(_), arguments) => match two(arguments) {
            Some((s, _)) => Some(s),
            None => None,
        },
        _ => None,
    }
}

/// The store of which a term is the next reference.
pub fn next_store(b: &Bank, t: TermId) -> Option<TermId>
    requires { HasTerm b.now t }
    ensures { IsTermOf b.now result (store_of_next (term_at b.now t)) }
{
    match b.term_node(t) {
        Term::App(Symbol::Next, arguments) => one(arguments),
        _ => None,
    }
}

/// Whether a term is null.
pub fn is_null(b: &Bank, t: TermId) -> bool
    requires { HasTerm b.now t }
    ensures { result ≡ is_null_term (term_at b.now t) }
{
    match b.term_node(t) {
        Term::App(Symbol::Null, arguments) => null_alone(b, arguments),
        _ => false,
    }
}

// Whether there are no arguments.
fn null_alone(b: &Bank, ts: &[TermId]) -> bool
    ensures { result ≡ is_null_term (App Null (terms_from (terms_at b.now ts.now))) }
{
    let _ = b;
    match ts {
        [] => true,
        _ => false,
    }
}

/// The term, where there is one alone.
pub fn one(ts: &[TermId]) -> Option<TermId>
    ensures { result ≡ one_of ts.now }
{
    match ts {
        [x] => Some(*x),
        _ => None,
    }
}

/// The two terms, where there are so many.
pub fn two(ts: &[TermId]) -> Option<(TermId, TermId)>
    ensures { result ≡ two_of ts.now }
{
    match ts {
        [x, y] => Some((*x, *y)),
        _ => None,
    }
}
