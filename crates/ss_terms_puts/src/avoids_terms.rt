// Which terms of a bank avoid a constant.

ghost use Rattle.std.specs.Prelude.{◌≡◌, ◌≤◌, length, IfOk};
ghost use Rattle.std.specs.List.{list_all};
ghost use Rattle.ss_logic.specs.Formulas as logic;
ghost use Rattle.ss_terms.specs.Forms.{symbol_of, term_at, HasTerm, AreTermsBelow};
ghost use Rattle.ss_terms_puts.specs.Entries.{term_entry, AreTermEntries};

use ss_logic::Sort;
use ss_terms::{Bank, Symbol, Term, TermId, same_sort};
use std::alloc::{AllocError, Global};

/// A constant.
#[derive(Clone, Copy)]
pub(crate) struct Constant {
    pub(crate) sort: Sort,
    pub(crate) number: usize,
}

// Whether the function is the constant.
fn is_constant(constant: Constant, symbol: Symbol) -> bool
    ensures { result ≡ logic.is_constant constant.sort constant.number (symbol_of symbol) }
{
    match symbol {
        Symbol::Constant(sort, number) => {
            same_sort(constant.sort, sort) && number == constant.number
        }
        _ => false,
    }
}

/// Whether each of the terms has `true` in the table.
pub(crate) fn all_terms(entries: &[bool], ts: &[TermId]) -> bool
    requires { AreTermsBelow (length entries.now) ts.now }
    ensures { result ≡ list_all (term_entry entries.now) ts.now }
{
    for t in ts {
        if !entries[t.0] {
            return false;
        }
    }
    true
}

// Whether the term avoids the constant, by a table of the terms before it.
fn term_avoids(bank: &Bank, constant: Constant, entries: &[bool], t: TermId) -> bool
    requires term { HasTerm bank.now t }
    requires entries { AreTermEntries bank.now constant.sort constant.number entries.now }
    requires before { t.0 ≤ length entries.now }
    ensures { result ≡ logic.term_avoids constant.sort constant.number (term_at bank.now t) }
{
    match bank.term_node(t) {
        Term::Bound(_) => true,
        Term::App(symbol, arguments) => {
            !is_constant(constant, *symbol) && all_terms(entries, arguments)
        }
    }
}

/// A table of all terms: whether each avoids the constant. An error is want of memory.
pub(crate) fn term_entries(
    alloc: Global,
    bank: &Bank,
    constant: Constant,
) -> Result<Vec<bool>, AllocError>
    ensures entries { IfOk result (λ v. AreTermEntries bank.now constant.sort constant.number v.items) }
    ensures all { IfOk result (λ v. length v.items ≡ length bank.now.terms) }
{
    let mut entries = Vec::new(alloc);
    for n in 0..bank.term_count() {
        let entry = term_avoids(bank, constant, &entries, TermId(n));
        entries.push(entry)?;
    }
    Ok(entries)
}
