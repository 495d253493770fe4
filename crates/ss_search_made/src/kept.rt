// What is kept of what the search made: the terms and formulas that lines name.

ghost use Rattle.std.specs.Prelude.{◌≤◌, length};
ghost use Rattle.ss_terms.specs.Forms.{Forms, IsGrown};

use crate::made::{and_made, has_terms};
use ss_logic::Sort;
use ss_search_proof::Names;
use ss_search_question::{
    AND, FORALL, LITERAL, NONE, argument, arity, body_of, first_of, formula_at, kind_of, of_pair,
    of_term, part_at, part_count, term_at,
};
use ss_terms::{Arguments, Bank, BankMark, Formula, FormulaId, Parts, Predicate, Term, TermId};
use std::alloc::{AllocError, Global};

/// A term that is named: its number, and its form over the numbers before.
#[derive(Drop)]
struct NamedTerm {
    number: usize,
    form: Term,
}

/// A pair that is named: its number, and the form of its first formula over the numbers before.
#[derive(Drop)]
struct NamedPair {
    number: usize,
    form: Formula,
}

/// No name of what the bank has after a mark.
pub fn no_names(alloc: Global, bank: &Bank, mark: BankMark) -> Result<Names, AllocError> {
    Names::new(
        alloc,
        (mark.terms, bank.term_count()),
        (mark.formulas, bank.formula_count() / 2),
    )
}

/// Forgets what came after a mark, but for what is named and what stands in it. That gets new numbers.
pub fn keep_named(
    alloc: Global,
    bank: &mut Bank,
    mark: BankMark,
    names: &mut Names,
) -> Result<(), AllocError>
    ensures grown { (marked : Forms) → IsGrown marked bank.old → length marked.terms ≤ mark.terms → length marked.formulas ≤ mark.formulas → IsGrown marked bank.new }
{
    name_inside(bank, names);
    let terms = named_terms(alloc, bank, names)?;
    let pairs = named_pairs(alloc, bank, names)?;
    if bank.forget(mark) {
        make_terms(alloc, bank, &terms, names)?;
        make_pairs(alloc, bank, &pairs, names)
    } else {
        names.stay();
        Ok(())
    }
}

// ---- what is named

// Names what stands in what is named. Its numbers are lower.
fn name_inside(bank: &Bank, names: &mut Names) {
    let (first, end) = (names.first_pair(), names.pair_end());
    for turn in first..end {
        let pair = end.saturating_sub(turn.saturating_sub(first).saturating_add(1));
        if names.has_pair(pair) {
            name_in_pair(bank, pair, names);
        }
    }
    let (first, end) = (names.first_term(), names.term_end());
    for turn in first..end {
        let term = end.saturating_sub(turn.saturating_sub(first).saturating_add(1));
        if names.has_term(term) {
            name_arguments(bank, of_term(term), names);
        }
    }
}

fn name_in_pair(bank: &Bank, pair: usize, names: &mut Names) {
    let formula = first_of(pair);
    let kind = kind_of(bank, formula);
    if kind == LITERAL {
        name_arguments(bank, of_pair(pair), names);
    } else if kind == AND {
        for place in 0..part_count(bank, formula) {
            names.name_formula(part_at(bank, formula, place));
        }
    } else if kind == FORALL {
        names.name_formula(body_of(bank, formula));
    }
}

fn name_arguments(bank: &Bank, node: usize, names: &mut Names) {
    for place in 0..arity(bank, node) {
        names.name_term(argument(bank, node, place));
    }
}

// The terms that are named, in the order of their numbers.
fn named_terms(alloc: Global, bank: &Bank, names: &Names) -> Result<Vec<NamedTerm>, AllocError> {
    let mut terms = Vec::new(alloc);
    for number in names.first_term()..names.term_end() {
        if names.has_term(number) {
            if let Some(form) = copied_term(alloc, bank, number)? {
                terms.push(NamedTerm { number, form })?;
            }
        }
    }
    Ok(terms)
}

fn copied_term(alloc: Global, bank: &Bank, number: usize) -> Result<Option<Term>, AllocError> {
    match term_at(bank, number) {
        Some(Term::Bound(name)) => Ok(Some(Term::Bound(*name))),
        Some(Term::App(symbol, arguments)) => {
            let copied = Arguments::from_slice(alloc, arguments)?;
            Ok(Some(Term::App(*symbol, copied)))
        }
        None => Ok(None),
    }
}

// The pairs that are named, in the order of their numbers.
fn named_pairs(alloc: Global, bank: &Bank, names: &Names) -> Result<Vec<NamedPair>, AllocError> {
    let mut pairs = Vec::new(alloc);
    for number in names.first_pair()..names.pair_end() {
        if names.has_pair(number) {
            if let Some(form) = copied_formula(alloc, bank, first_of(number))? {
                pairs.push(NamedPair { number, form })?;
            }
        }
    }
    Ok(pairs)
}

// The form of the first formula of a pair.
fn copied_formula(
    alloc: Global,
    bank: &Bank,
    formula: usize,
) -> Result<Option<Formula>, AllocError> {
    match formula_at(bank, formula) {
        Some(
            Formula::Literal {
                holds,
                predicate,
                arguments,
            },
        ) => {
            let copied = Arguments::from_slice(alloc, arguments)?;
            Ok(Some(Formula::Literal {
                holds: *holds,
                predicate: *predicate,
                arguments: copied,
            }))
        }
        Some(Formula::And(parts)) => {
            let copied = Parts::from_slice(alloc, parts)?;
            Ok(Some(Formula::And(copied)))
        }
        Some(Formula::Forall(sorts, body)) => {
            let copied = Vec::from_slice(alloc, sorts)?;
            Ok(Some(Formula::Forall(copied, *body)))
        }
        _ => Ok(None),
    }
}

// ---- what is made again

fn make_terms(
    alloc: Global,
    bank: &mut Bank,
    terms: &[NamedTerm],
    names: &mut Names,
) -> Result<(), AllocError>
    ensures grown { IsGrown bank.old bank.new }
{
    for term in terms {
        let made = make_term(alloc, bank, &term.form, names)?;
        names.put_term(term.number, made);
    }
    Ok(())
}

// The term of a form over the numbers before, or NONE.
fn make_term(
    alloc: Global,
    bank: &mut Bank,
    form: &Term,
    names: &Names,
) -> Result<usize, AllocError>
    ensures grown { IsGrown bank.old bank.new }
{
    match form {
        Term::Bound(name) => {
            let made = bank.term(Term::Bound(*name))?;
            Ok(made.0)
        }
        Term::App(symbol, arguments) => {
            let terms = new_terms(alloc, arguments, names)?;
            if !has_terms(bank, &terms) {
                return Ok(NONE);
            }
            let made = bank.apply(*symbol, &terms)?;
            Ok(made.0)
        }
    }
}

// The same terms by the numbers that they have now.
fn new_terms(alloc: Global, ts: &[TermId], names: &Names) -> Result<Vec<TermId>, AllocError> {
    let mut terms = Vec::new(alloc);
    for t in ts {
        terms.push(TermId(names.term(t.0)))?;
    }
    Ok(terms)
}

fn make_pairs(
    alloc: Global,
    bank: &mut Bank,
    pairs: &[NamedPair],
    names: &mut Names,
) -> Result<(), AllocError>
    ensures grown { IsGrown bank.old bank.new }
{
    for pair in pairs {
        let made = make_formula(alloc, bank, &pair.form, names)?;
        names.put_pair(pair.number, made);
    }
    Ok(())
}

// The formula of a form over the numbers before, or NONE.
fn make_formula(
    alloc: Global,
    bank: &mut Bank,
    form: &Formula,
    names: &Names,
) -> Result<usize, AllocError>
    ensures grown { IsGrown bank.old bank.new }
{
    match form {
        Formula::Literal {
            holds,
            predicate,
            arguments,
        } => {
            let terms = new_terms(alloc, arguments, names)?;
            make_literal(bank, *holds, *predicate, &terms)
        }
        Formula::And(parts) => {
            let parts = new_formulas(alloc, parts, names)?;
            and_made(bank, &parts)
        }
        Formula::Forall(sorts, body) => {
            let body = names.formula(body.0);
            make_forall(bank, sorts, FormulaId(body))
        }
        _ => Ok(NONE),
    }
}

// The same formulas by the numbers that they have now.
fn new_formulas(
    alloc: Global,
    fs: &[FormulaId],
    names: &Names,
) -> Result<Vec<FormulaId>, AllocError> {
    let mut formulas = Vec::new(alloc);
    for f in fs {
        formulas.push(FormulaId(names.formula(f.0)))?;
    }
    Ok(formulas)
}

fn make_literal(
    bank: &mut Bank,
    holds: bool,
    predicate: Predicate,
    terms: &[TermId],
) -> Result<usize, AllocError>
    ensures grown { IsGrown bank.old bank.new }
{
    if !has_terms(bank, terms) {
        return Ok(NONE);
    }
    let made = bank.atom(holds, predicate, terms)?;
    Ok(made.0)
}

fn make_forall(bank: &mut Bank, sorts: &[Sort], body: FormulaId) -> Result<usize, AllocError>
    ensures grown { IsGrown bank.old bank.new }
{
    if !bank.has_formula(body) {
        return Ok(NONE);
    }
    let made = bank.forall(sorts, body)?;
    Ok(made.0)
}
