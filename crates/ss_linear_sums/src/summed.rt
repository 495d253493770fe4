// The sum that a term is.

ghost use Rattle.std.specs.Prelude.{◌≡◌, ◌<◌, pos, [], ◌∷◌, length, Some, IfOk};
ghost use Rattle.ss_logic.specs.Terms as tree;
ghost use Rattle.ss_logic.specs.Terms.{App, terms_from};
ghost use Rattle.ss_logic.specs.Sums as sums;
ghost use Rattle.ss_terms.specs.Forms.{symbol_of, term_at, terms_at, HasTerm, AreTermsBelow};
ghost use Rattle.ss_linear_sums.specs.Linear.{sum_at, HasParts, IsSumOf};
ghost use Rattle.ss_linear_sums.specs.Table.{AreKept};
ghost use Rattle.ss_linear_sums.specs.Readings.{operator_of, IsOperation};

use crate::forms::{LinearSum, number_sum, term_sum};
use crate::parts::add_times;
use crate::table::{SumTable, find, keep};
use ss_rules_basic::literal;
use ss_terms::{Bank, Symbol, Term, TermId};
use std::alloc::{AllocError, Global};

/// A function, as sums see it.
#[derive(Clone, Copy)]
pub enum Operator {
    Number(i128),
    Add,
    Subtract,
    Multiply,
    Other,
}

/// How the sum of a term is made: a number, one sum and so many times another, so many times one, or the term alone.
#[derive(Clone, Copy)]
pub enum Operation {
    Number(i128),
    Both(TermId, i128, TermId),
    Times(i128, TermId),
    Alone,
}

fn read_operator(symbol: Symbol) -> Operator
    ensures { result ≡ operator_of symbol }
{
    match symbol {
        Symbol::Number(n) => Operator::Number(n),
        Symbol::Add => Operator::Add,
        Symbol::Subtract => Operator::Subtract,
        Symbol::Multiply => Operator::Multiply,
        _ => Operator::Other,
    }
}

fn product(bank: &Bank, t: TermId, x: TermId, y: TermId) -> Operation
    requires term { term_at bank.now t ≡ App tree.Multiply (terms_from (term_at bank.now x ∷ term_at bank.now y ∷ [])) }
    requires in_bank { HasTerm bank.now t }
    requires left { x.0 < t.0 }
    requires right { y.0 < t.0 }
    ensures { IsOperation bank.now t result }
{
    match literal(bank, x) {
        Some(n) => Operation::Times(n, y),
        None => match literal(bank, y) {
            Some(n) => Operation::Times(n, x),
            None => Operation::Alone,
        },
    }
}

fn of_two(bank: &Bank, t: TermId, symbol: Symbol, x: TermId, y: TermId) -> Operation
    requires term { term_at bank.now t ≡ App (symbol_of symbol) (terms_from (term_at bank.now x ∷ term_at bank.now y ∷ [])) }
    requires in_bank { HasTerm bank.now t }
    requires left { x.0 < t.0 }
    requires right { y.0 < t.0 }
    ensures { IsOperation bank.now t result }
{
    match read_operator(symbol) {
        Operator::Number(n) => Operation::Number(n),
        Operator::Add => Operation::Both(x, 1, y),
        Operator::Subtract => Operation::Both(x, -1, y),
        Operator::Multiply => product(bank, t, x, y),
        Operator::Other => Operation::Alone,
    }
}

fn of_others(bank: &Bank, t: TermId, symbol: Symbol, ts: &[TermId]) -> Operation
    requires term { term_at bank.now t ≡ App (symbol_of symbol) (terms_from (terms_at bank.now ts.now)) }
    requires others { length ts.now ≡ 2 → ⊥ }
    ensures { IsOperation bank.now t result }
{
    let _ = bank;
    let _ = t;
    let _ = ts;
    match read_operator(symbol) {
        Operator::Number(n) => Operation::Number(n),
        _ => Operation::Alone,
    }
}

fn operation_of(bank: &Bank, t: TermId, symbol: Symbol, ts: &[TermId]) -> Operation
    requires term { term_at bank.now t ≡ App (symbol_of symbol) (terms_from (terms_at bank.now ts.now)) }
    requires in_bank { HasTerm bank.now t }
    requires below { AreTermsBelow t.0 ts.now }
    ensures { IsOperation bank.now t result }
{
    match ts {
        [x, y] => of_two(bank, t, symbol, *x, *y),
        _ => of_others(bank, t, symbol, ts),
    }
}

/// How the sum of a term is made.
fn read_operation(bank: &Bank, t: TermId) -> Operation
    requires { HasTerm bank.now t }
    ensures { IsOperation bank.now t result }
{
    match bank.term_node(t) {
        Term::App(symbol, ts) => operation_of(bank, t, *symbol, ts),
        Term::Bound(_) => Operation::Alone,
    }
}

/// One sum and so many times another.
pub(crate) fn added(
    bank: &Bank,
    a: LinearSum,
    n: i128,
    b: &LinearSum,
) -> Result<Option<LinearSum>, AllocError>
    requires first { HasParts bank.now a.parts.items }
    requires second { HasParts bank.now b.now.parts.items }
    ensures { IfOk result (λ o. IsSumOf bank.now o (sums.add_times (sum_at bank.now a) n (sum_at bank.now b.now))) }
{
    let mut sum = a;
    if add_times(bank, &mut sum, n, b)? {
        Ok(Some(sum))
    } else {
        Ok(None)
    }
}

/// The sum of one term, and so many times that of another.
#[cycle(reading)]
pub(crate) fn both(
    alloc: Global,
    bank: &Bank,
    table: &mut SumTable,
    x: TermId,
    n: i128,
    y: TermId,
) -> Result<Option<LinearSum>, AllocError>
    requires left { HasTerm bank.now x }
    requires right { HasTerm bank.now y }
    requires kept { AreKept bank.now table.old.kept.items }
    ensures kept { IfOk result (λ _. AreKept bank.now table.new.kept.items) }
    ensures sum { IfOk result (λ o. IsSumOf bank.now o (sums.sum_times (sums.linear (term_at bank.now x)) n (sums.linear (term_at bank.now y)))) }
{
    let Some(b) = linear(alloc, bank, table, y)? else {
        return Ok(None);
    };
    let Some(a) = linear(alloc, bank, table, x)? else {
        return Ok(None);
    };
    added(bank, a, n, &b)
}

/// So many times the sum of a term.
#[cycle(reading)]
fn times(
    alloc: Global,
    bank: &Bank,
    table: &mut SumTable,
    n: i128,
    x: TermId,
) -> Result<Option<LinearSum>, AllocError>
    requires term { HasTerm bank.now x }
    requires kept { AreKept bank.now table.old.kept.items }
    ensures kept { IfOk result (λ _. AreKept bank.now table.new.kept.items) }
    ensures sum { IfOk result (λ o. IsSumOf bank.now o (sums.sum_times (Some (sums.number_sum (pos 0))) n (sums.linear (term_at bank.now x)))) }
{
    let Some(a) = linear(alloc, bank, table, x)? else {
        return Ok(None);
    };
    added(bank, number_sum(alloc, 0), n, &a)
}

/// The sum of a term, made anew.
#[cycle(reading)]
fn made(
    alloc: Global,
    bank: &Bank,
    table: &mut SumTable,
    t: TermId,
) -> Result<Option<LinearSum>, AllocError>
    requires term { HasTerm bank.now t }
    requires kept { AreKept bank.now table.old.kept.items }
    ensures kept { IfOk result (λ _. AreKept bank.now table.new.kept.items) }
    ensures sum { IfOk result (λ o. IsSumOf bank.now o (sums.linear (term_at bank.now t))) }
{
    match read_operation(bank, t) {
        Operation::Both(x, n, y) => both(alloc, bank, table, x, n, y),
        Operation::Times(n, x) => times(alloc, bank, table, n, x),
        Operation::Number(n) => Ok(Some(number_sum(alloc, n))),
        Operation::Alone => {
            let sum = term_sum(alloc, bank, t)?;
            Ok(Some(sum))
        }
    }
}

/// The sum that a term is, where no number on the way leaves 128 bits. The table keeps the sums of terms that come again.
#[cycle(reading)]
pub fn linear(
    alloc: Global,
    bank: &Bank,
    table: &mut SumTable,
    t: TermId,
) -> Result<Option<LinearSum>, AllocError>
    requires term { HasTerm bank.now t }
    requires kept { AreKept bank.now table.old.kept.items }
    ensures kept { IfOk result (λ _. AreKept bank.now table.new.kept.items) }
    ensures sum { IfOk result (λ o. IsSumOf bank.now o (sums.linear (term_at bank.now t))) }
{
    if let Some(sum) = find(alloc, bank, table, t)? {
        return Ok(Some(sum));
    }
    let Some(sum) = made(alloc, bank, table, t)? else {
        return Ok(None);
    };
    keep(alloc, bank, table, t, &sum)?;
    Ok(Some(sum))
}
