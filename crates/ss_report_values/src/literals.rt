// What a model says that terms are.

ghost use Rattle.std.specs.Prelude.{◌≡◌};
ghost use Rattle.ss_logic.specs.Terms.{App, no_terms, terms_from};
ghost use Rattle.ss_terms.specs.Forms.{symbol_of, term_at, terms_at, HasTerm};
ghost use Rattle.ss_report_values.specs.Literals as spec;

use ss_terms::{Bank, Symbol, Term, TermId};
use std::fmt;

/// What a term is.
#[derive(Clone, Copy, PartialEq, Eq, PartialOrd, Ord)]
pub enum Value {
    Number(i128),
    Truth(bool),
    Null,
}

impl fmt::Display for Value {
    fn fmt<W: fmt::Write>(&self, f: &mut fmt::Formatter<W>) -> fmt::Result {
        match *self {
            Value::Number(n) => write!(f, "{n}"),
            Value::Truth(true) => f.write_str("True"),
            Value::Truth(false) => f.write_str("False"),
            Value::Null => f.write_str("null"),
        }
    }
}

/// The terms of a ground form, each once in order, and the classes that a model gives to them.
#[derive(Clone, Copy)]
pub struct Reading<'a> {
    pub terms: &'a [TermId],
    pub classes: &'a [usize],
}

fn value_of_symbol(symbol: Symbol) -> Option<Value>
    ensures { result ≡ spec.value_of (App (symbol_of symbol) no_terms) }
{
    match symbol {
        Symbol::Number(n) => Some(Value::Number(n)),
        Symbol::Fixed(b) => Some(Value::Truth(b)),
        Symbol::Null => Some(Value::Null),
        _ => None,
    }
}

fn value_of_form(bank: &Bank, symbol: Symbol, ts: &[TermId]) -> Option<Value>
    ensures { result ≡ spec.value_of (App (symbol_of symbol) (terms_from (terms_at bank.now ts.now))) }
{
    let _ = bank;
    match ts {
        [] => value_of_symbol(symbol),
        _ => None,
    }
}

/// The literal that a term is.
pub(crate) fn value_of(bank: &Bank, t: TermId) -> Option<Value>
    requires { HasTerm bank.now t }
    ensures { result ≡ spec.value_of (term_at bank.now t) }
{
    match bank.term_node(t) {
        Term::App(symbol, arguments) => value_of_form(bank, *symbol, arguments),
        Term::Bound(_) => None,
    }
}
