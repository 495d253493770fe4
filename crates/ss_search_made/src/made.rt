// What is made in the bank.

ghost use Rattle.std.specs.Prelude.{IfOk, IfSome, IsTrue};
ghost use Rattle.ss_core.specs.Chain.{IsWithinLimits};
ghost use Rattle.ss_core.specs.View as view;
ghost use Rattle.ss_terms.specs.Forms.{HasTerms, HasFormulas, IsGrown, IsBankOf};

use ss_core::Classes;
use ss_rules_instances::{good_instance, instance, invariants};
use ss_search_facts::{GoodName, RuleKind};
use ss_search_proof::{good_of, name_of};
use ss_search_question::{
    FORALL, NONE, body_of, bound_count, bound_sort, code_of_sort, delayed_term, delayed_whole,
    is_closed, kind_of, opposite, part_at, part_count, sort_at,
};
use ss_terms::{Bank, FormulaId, Predicate, Symbol, TermId};
use ss_terms_puts::put;
use std::alloc::{AllocError, Global};

/// The arguments of an instance: the number of a sentence first, then terms, then the number of a field or a class. NONE stands
/// where there is none.
#[derive(Clone, Copy)]
pub struct Arguments {
    pub sentence: usize,
    pub first: usize,
    pub second: usize,
    pub third: usize,
    pub field: usize,
    pub class: usize,
}

/// The numbers of the terms alone.
pub fn terms_alone(alloc: Global, arguments: Arguments) -> Result<Vec<usize>, AllocError> {
    let mut numbers = Vec::new(alloc);
    add_terms(&mut numbers, arguments)?;
    Ok(numbers)
}

// Whether the bank has each term.
pub(crate) fn has_terms(bank: &Bank, ts: &[TermId]) -> bool
    ensures { IsTrue result → HasTerms bank.now ts.now }
{
    match ts {
        [] => true,
        [t, ts @ ..] => bank.has_term(*t) && has_terms(bank, ts),
    }
}

// Whether the bank has each formula.
fn has_formulas(bank: &Bank, fs: &[FormulaId]) -> bool
    ensures { IsTrue result → HasFormulas bank.now fs.now }
{
    match fs {
        [] => true,
        [f, fs @ ..] => bank.has_formula(*f) && has_formulas(bank, fs),
    }
}

// Whether there are terms with these numbers, and none has a bound name.
fn are_closed(bank: &Bank, numbers: &[usize]) -> bool {
    for number in numbers {
        if !is_closed(bank, *number) {
            return false;
        }
    }
    true
}

// The terms with these numbers, where the bank has each and none has a bound name.
fn terms_of(
    alloc: Global,
    bank: &Bank,
    numbers: &[usize],
) -> Result<Option<Vec<TermId>>, AllocError>
    ensures { IfOk result (λ o. IfSome o (λ v. HasTerms bank.now v.items)) }
{
    if !are_closed(bank, numbers) {
        return Ok(None);
    }
    let mut terms = Vec::new(alloc);
    for number in numbers {
        terms.push(TermId(*number))?;
    }
    if !has_terms(bank, &terms) {
        return Ok(None);
    }
    Ok(Some(terms))
}

// How many of the first numbers have their terms kept at most.
const MOST_NUMERALS: usize = 65_536;

// The term of a number is kept.
fn keep_numeral(numerals: &mut Vec<usize>, number: usize, term: usize) -> Result<(), AllocError> {
    if number >= MOST_NUMERALS {
        return Ok(());
    }
    for _ in numerals.len()..number.saturating_add(1) {
        numerals.push(NONE)?;
    }
    if let Some(place) = numerals.get_mut(number) {
        *place = term;
    }
    Ok(())
}

// The term of a small number, or NONE.
fn number_term(
    bank: &mut Bank,
    numerals: &mut Vec<usize>,
    number: usize,
) -> Result<usize, AllocError>
    ensures grown { IsGrown bank.old bank.new }
{
    if number >= 4_294_967_296 {
        return Ok(NONE);
    }
    if let Some(kept) = numerals.get(number).copied() {
        if kept != NONE {
            return Ok(kept);
        }
    }
    let term = bank.number(number as i128)?;
    keep_numeral(numerals, number, term.0)?;
    Ok(term.0)
}

// The term of a class, or NONE.
fn class_term(bank: &mut Bank, class: usize) -> Result<usize, AllocError>
    ensures grown { IsGrown bank.old bank.new }
{
    if class >= 65_536 {
        return Ok(NONE);
    }
    let term = bank.class_name(class as u16)?;
    Ok(term.0)
}

// Adds a number that is there.
fn add_number(numbers: &mut Vec<usize>, number: usize) -> Result<(), AllocError> {
    if number != NONE {
        numbers.push(number)?;
    }
    Ok(())
}

/// The numbers of the terms of arguments, in their order. The terms of numbers are kept, by the number.
pub fn arguments_of(
    alloc: Global,
    bank: &mut Bank,
    numerals: &mut Vec<usize>,
    arguments: Arguments,
) -> Result<Vec<usize>, AllocError>
    ensures grown { IsGrown bank.old bank.new }
{
    let (sentence, field) = numbers_of(bank, numerals, arguments)?;
    let class = class_term(bank, arguments.class)?;
    listed(alloc, arguments, (sentence, field, class))
}

// The terms of the number of a sentence and of that of a field.
fn numbers_of(
    bank: &mut Bank,
    numerals: &mut Vec<usize>,
    arguments: Arguments,
) -> Result<(usize, usize), AllocError>
    ensures grown { IsGrown bank.old bank.new }
{
    let sentence = number_term(bank, numerals, arguments.sentence)?;
    let field = number_term(bank, numerals, arguments.field)?;
    Ok((sentence, field))
}

fn listed(
    alloc: Global,
    arguments: Arguments,
    made: (usize, usize, usize),
) -> Result<Vec<usize>, AllocError> {
    let mut numbers = Vec::new(alloc);
    add_number(&mut numbers, made.0)?;
    add_terms(&mut numbers, arguments)?;
    add_number(&mut numbers, made.1)?;
    add_number(&mut numbers, made.2)?;
    Ok(numbers)
}

fn add_terms(numbers: &mut Vec<usize>, arguments: Arguments) -> Result<(), AllocError> {
    add_number(numbers, arguments.first)?;
    add_number(numbers, arguments.second)?;
    add_number(numbers, arguments.third)
}

/// The instance of a rule, or NONE.
pub fn rule_made(
    alloc: Global,
    bank: &mut Bank,
    program: &Classes,
    rule: RuleKind,
    numbers: &[usize],
) -> Result<usize, AllocError>
    requires bank { IsBankOf (view.classes program.now) bank.old }
    requires limits { IsWithinLimits (view.classes program.now) }
    ensures grown { IsGrown bank.old bank.new }
{
    let Some(terms) = terms_of(alloc, bank, numbers)? else {
        return Ok(NONE);
    };
    let made = instance(alloc, bank, program, name_of(rule), &terms)?;
    Ok(number_of(made))
}

fn number_of(made: Option<FormulaId>) -> usize {
    match made {
        Some(formula) => formula.0,
        None => NONE,
    }
}

/// The instance of a rule on a good store, or NONE.
pub fn good_made(
    alloc: Global,
    bank: &mut Bank,
    program: &Classes,
    rule: (GoodName, usize),
    numbers: &[usize],
) -> Result<usize, AllocError>
    requires bank { IsBankOf (view.classes program.now) bank.old }
    requires limits { IsWithinLimits (view.classes program.now) }
    ensures grown { IsGrown bank.old bank.new }
{
    let Some(terms) = terms_of(alloc, bank, numbers)? else {
        return Ok(NONE);
    };
    let store = TermId(rule.1);
    if !bank.has_term(store) || !is_closed(bank, rule.1) {
        return Ok(NONE);
    }
    let made = match good_of(rule.0) {
        Some(name) => good_instance(alloc, bank, program, name, store, &terms)?,
        None => invariants(alloc, bank, program, store, &terms)?,
    };
    Ok(number_of(made))
}

// Whether a `forall` binds names of the sorts of these terms.
fn fits(bank: &Bank, formula: usize, numbers: &[usize]) -> bool {
    if kind_of(bank, formula) != FORALL || bound_count(bank, formula) != numbers.len() {
        return false;
    }
    for (place, number) in numbers.iter().enumerate() {
        if code_of_sort(sort_at(bank, *number)) != code_of_sort(bound_sort(bank, formula, place)) {
            return false;
        }
    }
    true
}

/// The body of a `forall` at terms, or NONE.
pub fn inst_made(
    alloc: Global,
    bank: &mut Bank,
    program: &Classes,
    formula: usize,
    numbers: &[usize],
) -> Result<usize, AllocError>
    requires bank { IsBankOf (view.classes program.now) bank.old }
    requires limits { IsWithinLimits (view.classes program.now) }
    ensures grown { IsGrown bank.old bank.new }
{
    let body = FormulaId(body_of(bank, formula));
    if !fits(bank, formula, numbers) || !bank.has_formula(body) {
        return Ok(NONE);
    }
    let Some(terms) = terms_of(alloc, bank, numbers)? else {
        return Ok(NONE);
    };
    let made = put(alloc, bank, program, &terms, body)?;
    Ok(made.0)
}

/// The body of a `forall` at a term, with the `and` at its end delayed, or NONE. The body is an `or`.
pub fn delayed_made(
    alloc: Global,
    bank: &mut Bank,
    program: &Classes,
    formula: usize,
    numbers: &[usize],
) -> Result<usize, AllocError>
    requires bank { IsBankOf (view.classes program.now) bank.old }
    requires limits { IsWithinLimits (view.classes program.now) }
    ensures grown { IsGrown bank.old bank.new }
{
    let body = body_of(bank, formula);
    if !fits(bank, formula, numbers) {
        return Ok(NONE);
    }
    let parts = parts_made(alloc, bank, program, body, numbers)?;
    or_made(bank, &parts)
}

// The parts of an `or` at a term, of which the last one, an `and`, is delayed.
fn parts_made(
    alloc: Global,
    bank: &mut Bank,
    program: &Classes,
    or: usize,
    numbers: &[usize],
) -> Result<Vec<FormulaId>, AllocError>
    requires bank { IsBankOf (view.classes program.now) bank.old }
    requires limits { IsWithinLimits (view.classes program.now) }
    ensures grown { IsGrown bank.old bank.new }
{
    let count = part_count(bank, or).saturating_sub(1);
    let whole = part_at(bank, or, count);
    let mut parts = conditions_made(alloc, bank, program, (or, count), numbers)?;
    let last = delay_made(alloc, bank, whole, numbers)?;
    parts.push(FormulaId(last))?;
    Ok(parts)
}

// The first parts of an `or` at terms.
fn conditions_made(
    alloc: Global,
    bank: &mut Bank,
    program: &Classes,
    parts: (usize, usize),
    numbers: &[usize],
) -> Result<Vec<FormulaId>, AllocError>
    requires bank { IsBankOf (view.classes program.now) bank.old }
    requires limits { IsWithinLimits (view.classes program.now) }
    ensures grown { IsGrown bank.old bank.new }
{
    let mut made = Vec::new(alloc);
    for place in 0..parts.1 {
        let part = part_at(bank, parts.0, place);
        let part = put_made(alloc, bank, program, part, numbers)?;
        made.push(FormulaId(part))?;
    }
    Ok(made)
}

// The `and` that stands for another one at a term, or NONE.
fn delay_made(
    alloc: Global,
    bank: &mut Bank,
    whole: usize,
    numbers: &[usize],
) -> Result<usize, AllocError>
    ensures grown { IsGrown bank.old bank.new }
{
    let named = named_made(alloc, bank, numbers)?;
    and_made(bank, &[FormulaId(whole), FormulaId(named)])
}

// The `and` that names the first term, or NONE.
fn named_made(alloc: Global, bank: &mut Bank, numbers: &[usize]) -> Result<usize, AllocError>
    ensures grown { IsGrown bank.old bank.new }
{
    let itself = itself_made(alloc, bank, numbers)?;
    and_made(bank, &[FormulaId(itself)])
}

// That the first term is itself, or NONE.
fn itself_made(alloc: Global, bank: &mut Bank, numbers: &[usize]) -> Result<usize, AllocError>
    ensures grown { IsGrown bank.old bank.new }
{
    let Some(number) = numbers.first().copied() else {
        return Ok(NONE);
    };
    let Some(terms) = terms_of(alloc, bank, &[number, number])? else {
        return Ok(NONE);
    };
    let made = bank.atom(true, Predicate::Equal, &terms)?;
    Ok(made.0)
}

// All of these, or NONE where they aren't there.
pub(crate) fn and_made(bank: &mut Bank, parts: &[FormulaId]) -> Result<usize, AllocError>
    ensures grown { IsGrown bank.old bank.new }
{
    if !has_formulas(bank, parts) {
        return Ok(NONE);
    }
    let made = bank.and(parts)?;
    Ok(made.0)
}

// One of these, or NONE where they aren't there.
fn or_made(bank: &mut Bank, parts: &[FormulaId]) -> Result<usize, AllocError>
    ensures grown { IsGrown bank.old bank.new }
{
    if !has_formulas(bank, parts) {
        return Ok(NONE);
    }
    let made = bank.or(parts)?;
    Ok(made.0)
}

/// The part of a delayed `and` at a place, or NONE.
pub fn piece_made(
    alloc: Global,
    bank: &mut Bank,
    program: &Classes,
    delayed: usize,
    place: usize,
) -> Result<usize, AllocError>
    requires bank { IsBankOf (view.classes program.now) bank.old }
    requires limits { IsWithinLimits (view.classes program.now) }
    ensures grown { IsGrown bank.old bank.new }
{
    let part = part_at(bank, delayed_whole(bank, delayed), place);
    let term = delayed_term(bank, delayed);
    put_made(alloc, bank, program, part, &[term])
}

// A formula at these terms, or NONE.
fn put_made(
    alloc: Global,
    bank: &mut Bank,
    program: &Classes,
    formula: usize,
    numbers: &[usize],
) -> Result<usize, AllocError>
    requires bank { IsBankOf (view.classes program.now) bank.old }
    requires limits { IsWithinLimits (view.classes program.now) }
    ensures grown { IsGrown bank.old bank.new }
{
    let Some(terms) = terms_of(alloc, bank, numbers)? else {
        return Ok(NONE);
    };
    let found = FormulaId(formula);
    if !bank.has_formula(found) {
        return Ok(NONE);
    }
    let made = put(alloc, bank, program, &terms, found)?;
    Ok(made.0)
}

/// New constants for the names that an `exists` binds.
pub fn constants_of(
    alloc: Global,
    bank: &mut Bank,
    formula: usize,
    first: usize,
) -> Result<Vec<usize>, AllocError>
    ensures grown { IsGrown bank.old bank.new }
{
    let mut numbers = Vec::new(alloc);
    for place in 0..bound_count(bank, formula) {
        let sort = bound_sort(bank, formula, place);
        let constant = bank.apply(Symbol::Constant(sort, first.saturating_add(place)), &[])?;
        numbers.push(constant.0)?;
    }
    Ok(numbers)
}

/// Either there is nothing of the kind, or the body of an `exists` holds at these constants. NONE where there is no such formula.
pub fn choice_made(
    alloc: Global,
    bank: &mut Bank,
    program: &Classes,
    formula: usize,
    numbers: &[usize],
) -> Result<usize, AllocError>
    requires bank { IsBankOf (view.classes program.now) bank.old }
    requires limits { IsWithinLimits (view.classes program.now) }
    ensures grown { IsGrown bank.old bank.new }
{
    let such = such_made(alloc, bank, program, formula, numbers)?;
    either_made(bank, opposite(formula), such)
}

// The body of an `exists` at these constants, or NONE.
fn such_made(
    alloc: Global,
    bank: &mut Bank,
    program: &Classes,
    formula: usize,
    numbers: &[usize],
) -> Result<usize, AllocError>
    requires bank { IsBankOf (view.classes program.now) bank.old }
    requires limits { IsWithinLimits (view.classes program.now) }
    ensures grown { IsGrown bank.old bank.new }
{
    let body = body_of(bank, formula);
    put_made(alloc, bank, program, body, numbers)
}

// One of two formulas holds. NONE where they aren't there.
fn either_made(bank: &mut Bank, none: usize, such: usize) -> Result<usize, AllocError>
    ensures grown { IsGrown bank.old bank.new }
{
    let (first, second) = (FormulaId(none), FormulaId(such));
    if !bank.has_formula(first) || !bank.has_formula(second) {
        return Ok(NONE);
    }
    let either = bank.or(&[first, second])?;
    Ok(either.0)
}

/// The function at these terms, or NONE.
pub fn term_made(
    alloc: Global,
    bank: &mut Bank,
    symbol: Symbol,
    numbers: &[usize],
) -> Result<usize, AllocError>
    ensures grown { IsGrown bank.old bank.new }
{
    let Some(terms) = terms_of(alloc, bank, numbers)? else {
        return Ok(NONE);
    };
    let made = bank.apply(symbol, &terms)?;
    Ok(made.0)
}

/// The predicate at these terms, or NONE.
pub fn atom_made(
    alloc: Global,
    bank: &mut Bank,
    predicate: Predicate,
    numbers: &[usize],
) -> Result<usize, AllocError>
    ensures grown { IsGrown bank.old bank.new }
{
    let Some(terms) = terms_of(alloc, bank, numbers)? else {
        return Ok(NONE);
    };
    let made = bank.atom(true, predicate, &terms)?;
    Ok(made.0)
}
