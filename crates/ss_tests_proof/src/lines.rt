// Lines of derivations, read from texts.

ghost use Rattle.std.specs.Prelude.{◌≡◌};

use ss_deriv::{Line, Sum};
use ss_terms::{Bank, FormulaId, Symbol, Term, TermId};
use ss_tests_reader::{Reader, free_rule, good_rule};
use std::alloc::{AllocError, Global};

/// The first word of a text, and what stands after its blank.
pub fn first_word(text: &str) -> (&str, &str) {
    match text.split_once(' ') {
        Some(parts) => parts,
        None => (text, ""),
    }
}

// The number that a term is.
fn number(bank: &Bank, t: TermId) -> Option<usize> {
    if !bank.has_term(t) {
        return None;
    }
    match bank.term_node(t) {
        Term::App(Symbol::Number(n), _) => usize::try_from(*n).ok(),
        _ => None,
    }
}

// The weight or the divisor that a term is.
fn signed(bank: &Bank, t: TermId) -> Option<i64> {
    if !bank.has_term(t) {
        return None;
    }
    match bank.term_node(t) {
        Term::App(Symbol::Number(n), _) => i64::try_from(*n).ok(),
        _ => None,
    }
}

// A fact's number and its weight.
fn weighted(bank: &Bank, i: TermId, w: TermId) -> Option<(usize, i64)> {
    Some((number(bank, i)?, signed(bank, w)?))
}

fn all_weighted(
    alloc: Global,
    bank: &Bank,
    ts: &[TermId],
) -> Result<Option<Vec<(usize, i64)>>, AllocError> {
    let mut all = Vec::new(alloc);
    for k in 0..ts.len() / 2 {
        match weighted(bank, ts[2 * k], ts[2 * k + 1]) {
            Some(part) => all.push(part)?,
            None => return Ok(None),
        }
    }
    Ok(Some(all))
}

// A `sum`: the divisor, and then facts with their weights.
fn sum(alloc: Global, bank: &Bank, ts: &[TermId]) -> Result<Option<Line>, AllocError> {
    let [d, rest @ ..] = ts else {
        return Ok(None);
    };
    let Some(divisor) = signed(bank, *d) else {
        return Ok(None);
    };
    if rest.len() % 2 != 0 {
        return Ok(None);
    }
    match all_weighted(alloc, bank, rest)? {
        Some(parts) => Ok(Some(Line::Sum(Sum { parts, divisor }))),
        None => Ok(None),
    }
}

fn two_numbers(bank: &Bank, ts: &[TermId]) -> Option<(usize, usize)> {
    match ts {
        [i, j] => Some((number(bank, *i)?, number(bank, *j)?)),
        _ => None,
    }
}

fn numbers(alloc: Global, bank: &Bank, ts: &[TermId]) -> Result<Option<Vec<usize>>, AllocError> {
    let mut all = Vec::new(alloc);
    for t in ts {
        match number(bank, *t) {
            Some(n) => all.push(n)?,
            None => return Ok(None),
        }
    }
    Ok(Some(all))
}

// A line with numbers alone.
fn numbered(bank: &Bank, word: &str, ts: &[TermId]) -> Option<Line> {
    match (word, ts) {
        ("denied", []) => Some(Line::Denied),
        ("case", []) => Some(Line::Case),
        ("premise", [k]) => Some(Line::Premise {
            number: number(bank, *k)?,
        }),
        ("part", _) => {
            let (of, part) = two_numbers(bank, ts)?;
            Some(Line::Part { of, part })
        }
        ("split", _) => {
            let (of, cases) = two_numbers(bank, ts)?;
            Some(Line::Split { of, cases })
        }
        ("clash", _) => {
            let (left, right) = two_numbers(bank, ts)?;
            Some(Line::Clash { left, right })
        }
        _ => None,
    }
}

// A `chain` or a `cong`, whose equalities these are.
fn equal(is_chain: bool, left: TermId, right: TermId, path: Vec<usize>) -> Line {
    if is_chain {
        Line::Chain { left, right, path }
    } else {
        Line::Cong {
            left,
            right,
            equalities: path,
        }
    }
}

fn equality(
    alloc: Global,
    bank: &Bank,
    is_chain: bool,
    ts: &[TermId],
) -> Result<Option<Line>, AllocError> {
    let [left, right, rest @ ..] = ts else {
        return Ok(None);
    };
    match numbers(alloc, bank, rest)? {
        Some(path) => Ok(Some(equal(is_chain, *left, *right, path))),
        None => Ok(None),
    }
}

fn inst(alloc: Global, bank: &Bank, ts: &[TermId]) -> Result<Option<Line>, AllocError> {
    let [i, rest @ ..] = ts else {
        return Ok(None);
    };
    let Some(of) = number(bank, *i) else {
        return Ok(None);
    };
    let terms = Vec::from_slice(alloc, rest)?;
    Ok(Some(Line::Inst { of, terms }))
}

fn swap(
    alloc: Global,
    bank: &Bank,
    formula: FormulaId,
    ts: &[TermId],
) -> Result<Option<Line>, AllocError> {
    let [i, rest @ ..] = ts else {
        return Ok(None);
    };
    match (number(bank, *i), numbers(alloc, bank, rest)?) {
        (Some(of), Some(equalities)) => Ok(Some(Line::Swap {
            of,
            formula,
            equalities,
        })),
        _ => Ok(None),
    }
}

// A line with a formula, and terms beside it.
fn about(
    alloc: Global,
    bank: &Bank,
    word: &str,
    formula: FormulaId,
    ts: &[TermId],
) -> Result<Option<Line>, AllocError> {
    match word {
        "cut" if ts.is_empty() => Ok(Some(Line::Cut { formula })),
        "choose" => {
            let constants = Vec::from_slice(alloc, ts)?;
            Ok(Some(Line::Choose { formula, constants }))
        }
        "swap" => swap(alloc, bank, formula, ts),
        _ => Ok(None),
    }
}

fn line_of(
    alloc: Global,
    bank: &Bank,
    word: &str,
    ts: &[TermId],
    fs: &[FormulaId],
) -> Result<Option<Line>, AllocError> {
    match fs {
        [] => match word {
            "chain" => equality(alloc, bank, true, ts),
            "cong" => equality(alloc, bank, false, ts),
            "inst" => inst(alloc, bank, ts),
            "sum" => sum(alloc, bank, ts),
            _ => Ok(numbered(bank, word, ts)),
        },
        [f] => about(alloc, bank, word, *f, ts),
        _ => Ok(None),
    }
}

// What a rule says of these terms. The number of the `good` comes first where it is a rule on good stores.
fn rule_of(
    alloc: Global,
    bank: &Bank,
    is_good: bool,
    name: &str,
    ts: &[TermId],
) -> Result<Option<Line>, AllocError> {
    if is_good {
        return good_of(alloc, bank, name, ts);
    }
    let arguments = Vec::from_slice(alloc, ts)?;
    match free_rule(name) {
        Some(name) => Ok(Some(Line::Rule { name, arguments })),
        None => Ok(None),
    }
}

fn good_of(
    alloc: Global,
    bank: &Bank,
    name: &str,
    ts: &[TermId],
) -> Result<Option<Line>, AllocError> {
    let [i, rest @ ..] = ts else {
        return Ok(None);
    };
    let Some(store) = number(bank, *i) else {
        return Ok(None);
    };
    let arguments = Vec::from_slice(alloc, rest)?;
    Ok(good_line(name, store, arguments))
}

fn good_line(name: &str, store: usize, arguments: Vec<TermId>) -> Option<Line> {
    if name == "g1" {
        return Some(Line::Invariants { store, arguments });
    }
    match good_rule(name) {
        Some(name) => Some(Line::Good {
            name,
            store,
            arguments,
        }),
        None => None,
    }
}

// The instance of a rule.
fn read_rule(
    alloc: Global,
    bank: &mut Bank,
    is_good: bool,
    text: &str,
) -> Result<Option<Line>, AllocError>
    ensures { bank.new.fields ≡ bank.old.fields }
{
    let (name, rest) = first_word(text);
    let mut seen = Reader::new(alloc, None);
    seen.read(alloc, bank, rest)?;
    if !seen.is_read || !seen.formulas.is_empty() {
        return Ok(None);
    }
    rule_of(alloc, bank, is_good, name, &seen.terms)
}

/// The line of a text.
pub fn read_line(alloc: Global, bank: &mut Bank, text: &str) -> Result<Option<Line>, AllocError>
    ensures { bank.new.fields ≡ bank.old.fields }
{
    let (word, rest) = first_word(text);
    if word == "rule" {
        return read_rule(alloc, bank, false, rest);
    }
    if word == "good" {
        return read_rule(alloc, bank, true, rest);
    }
    let mut seen = Reader::new(alloc, None);
    seen.read(alloc, bank, rest)?;
    if !seen.is_read {
        return Ok(None);
    }
    line_of(alloc, bank, word, &seen.terms, &seen.formulas)
}
