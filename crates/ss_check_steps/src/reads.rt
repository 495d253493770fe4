// What lines read from the formulas that are known.

ghost use Rattle.std.specs.Prelude.{◌≡◌, ℕ, List, [], ◌∷◌, Some, None, Bool, true, false, option_and_then, slice_get};
ghost use Rattle.ss_logic.specs.Formulas as logic;
ghost use Rattle.ss_logic_means.specs.Steps.{part_of, other_side, walk, joins, is_joined, are_exchanged, is_congruent, is_swapped, is_opposed, is_clash};
ghost use Rattle.ss_terms.specs.Forms.{formula_at, formulas_at, term_at, terms_at, HasTerm, HasTerms, HasFormula, HasFormulas, Forms, symbol_of, predicate_of};
ghost use Rattle.ss_logic.specs.Terms.{App, terms_from};
ghost use Rattle.ss_logic.specs.Equal.{same_symbol, same_predicate};
ghost use Rattle.ss_terms.specs.Numbered.{IsNumberOf, IsTermOf};

use crate::literals::{is_absurd_at, is_literal_at, is_quantified_at, sides};
use ss_terms::{Bank, Formula, FormulaId, Predicate, Symbol, Term, TermId};

/// The number at a place.
fn read(list: &[FormulaId], i: usize) -> Option<FormulaId>
    ensures { result ≡ slice_get list.now i }
{
    list.get(i).copied()
}

/// The formula at a place.
pub fn known_at(bank: &Bank, known: &[FormulaId], i: usize) -> Option<FormulaId>
    requires { HasFormulas bank.now known.now }
    ensures { IsNumberOf bank.now result (slice_get (formulas_at bank.now known.now) i) }
{
    let _ = bank;
    read(known, i)
}

/// A part of an `and`.
pub(crate) fn part_at(bank: &Bank, f: FormulaId, j: usize) -> Option<FormulaId>
    requires { HasFormula bank.now f }
    ensures { IsNumberOf bank.now result (part_of j (formula_at bank.now f)) }
{
    match bank.formula_node(f) {
        Formula::And(parts) => read(parts, j),
        _ => None,
    }
}

/// The other side of an equality.
fn other_side_at(bank: &Bank, f: FormulaId, x: TermId) -> Option<TermId>
    requires formula { HasFormula bank.now f }
    requires term { HasTerm bank.now x }
    ensures { IsTermOf bank.now result (other_side (term_at bank.now x) (formula_at bank.now f)) }
{
    let (left, right) = sides(bank, f)?;
    if bank.is_same_term(x, left) {
        Some(right)
    } else if bank.is_same_term(x, right) {
        Some(left)
    } else {
        None
    }
}

/// The term at the end of a path of equalities.
pub(crate) fn walk_at(bank: &Bank, known: &[FormulaId], x: TermId, path: &[usize]) -> Option<TermId>
    requires known { HasFormulas bank.now known.now }
    requires term { HasTerm bank.now x }
    ensures { IsTermOf bank.now result (walk (formulas_at bank.now known.now) (term_at bank.now x) path.now) }
{
    let mut y = x;
    for i in path {
        let f = read(known, *i)?;
        y = other_side_at(bank, f, y)?;
    }
    Some(y)
}

/// Whether a formula says that the two terms are equal, either way round.
fn joins_at(bank: &Bank, a: TermId, b: TermId, f: FormulaId) -> bool
    requires left { HasTerm bank.now a }
    requires right { HasTerm bank.now b }
    requires formula { HasFormula bank.now f }
    ensures { result ≡ joins (term_at bank.now a) (term_at bank.now b) (formula_at bank.now f) }
{
    match sides(bank, f) {
        Some((left, right)) => {
            bank.is_same_term(a, left) && bank.is_same_term(b, right)
                || bank.is_same_term(a, right) && bank.is_same_term(b, left)
        }
        None => false,
    }
}

/// Whether a known formula says so.
fn is_joined_at(bank: &Bank, known: &[FormulaId], a: TermId, b: TermId, j: usize) -> bool
    requires known { HasFormulas bank.now known.now }
    requires left { HasTerm bank.now a }
    requires right { HasTerm bank.now b }
    ensures { result ≡ is_joined (term_at bank.now a) (term_at bank.now b) (slice_get (formulas_at bank.now known.now) j) }
{
    match known_at(bank, known, j) {
        Some(f) => joins_at(bank, a, b, f),
        None => false,
    }
}

/// Whether the terms are the same, or equal one by one by these equalities, of which none is left.
fn are_exchanged_at(
    bank: &Bank,
    known: &[FormulaId],
    xs: &[TermId],
    ys: &[TermId],
    js: &[usize],
) -> bool
    requires known { HasFormulas bank.now known.now }
    requires left { HasTerms bank.now xs.now }
    requires right { HasTerms bank.now ys.now }
    ensures { result ≡ are_exchanged (formulas_at bank.now known.now) (terms_at bank.now xs.now) (terms_at bank.now ys.now) js.now }
{
    match xs {
        [] => are_none(ys, js),
        [a, xs @ ..] => match ys {
            [] => false,
            [b, ys @ ..] => {
                if bank.is_same_term(*a, *b) {
                    return are_exchanged_at(bank, known, xs, ys, js);
                }
                match js {
                    [] => false,
                    [j, js @ ..] => {
                        is_joined_at(bank, known, *a, *b, *j)
                            && are_exchanged_at(bank, known, xs, ys, js)
                    }
                }
            }
        },
    }
}

/// Whether no term and no equality is left.
fn are_none(ys: &[TermId], js: &[usize]) -> bool
    ensures { (b : Forms) (known : List logic.Formula) → result ≡ are_exchanged known [] (terms_at b ys.now) js.now }
{
    match ys {
        [] => match js {
            [] => true,
            [_, ..] => false,
        },
        [_, ..] => false,
    }
}

/// Whether the functions are one.
fn is_same_function(f: Symbol, g: Symbol) -> bool
    ensures { result ≡ same_symbol (symbol_of f) (symbol_of g) }
{
    f == g
}

/// Whether the predicates are one.
fn is_same_predicate(p: Predicate, q: Predicate) -> bool
    ensures { result ≡ same_predicate (predicate_of p) (predicate_of q) }
{
    p == q
}

/// Whether the terms are one function with arguments, at arguments that are equal one by one.
pub(crate) fn is_congruent_at(
    bank: &Bank,
    known: &[FormulaId],
    js: &[usize],
    x: TermId,
    y: TermId,
) -> bool
    requires known { HasFormulas bank.now known.now }
    requires left { HasTerm bank.now x }
    requires right { HasTerm bank.now y }
    ensures { result ≡ is_congruent (formulas_at bank.now known.now) js.now (term_at bank.now x) (term_at bank.now y) }
{
    match bank.term_node(x) {
        Term::App(f, xs) => is_congruent_app(bank, known, js, *f, xs, y),
        Term::Bound(_) => false,
    }
}

fn is_congruent_app(
    bank: &Bank,
    known: &[FormulaId],
    js: &[usize],
    f: Symbol,
    xs: &[TermId],
    y: TermId,
) -> bool
    requires known { HasFormulas bank.now known.now }
    requires left { HasTerms bank.now xs.now }
    requires right { HasTerm bank.now y }
    ensures { result ≡ is_congruent (formulas_at bank.now known.now) js.now (App (symbol_of f) (terms_from (terms_at bank.now xs.now))) (term_at bank.now y) }
{
    match bank.term_node(y) {
        Term::App(g, ys) => {
            let left = Application {
                function: f,
                arguments: xs,
            };
            let right = Application {
                function: *g,
                arguments: ys,
            };
            is_congruent_apps(bank, known, js, &left, &right)
        }
        Term::Bound(_) => false,
    }
}

// A function and its arguments.
#[derive(Clone, Copy)]
struct Application<'a> {
    function: Symbol,
    arguments: &'a [TermId],
}

fn is_congruent_apps(
    bank: &Bank,
    known: &[FormulaId],
    js: &[usize],
    left: &Application<'_>,
    right: &Application<'_>,
) -> bool
    requires known { HasFormulas bank.now known.now }
    requires left { HasTerms bank.now left.now.arguments.now }
    requires right { HasTerms bank.now right.now.arguments.now }
    ensures { result ≡ is_congruent (formulas_at bank.now known.now) js.now (App (symbol_of left.now.function) (terms_from (terms_at bank.now left.now.arguments.now))) (App (symbol_of right.now.function) (terms_from (terms_at bank.now right.now.arguments.now))) }
{
    match left.arguments {
        [] => false,
        [_, ..] => {
            is_same_function(left.function, right.function)
                && are_exchanged_at(bank, known, left.arguments, right.arguments, js)
        }
    }
}

/// Whether the second literal is the first at arguments that are equal one by one.
pub(crate) fn is_swapped_at(
    bank: &Bank,
    known: &[FormulaId],
    js: &[usize],
    from: FormulaId,
    to: FormulaId,
) -> bool
    requires known { HasFormulas bank.now known.now }
    requires from { HasFormula bank.now from }
    requires to { HasFormula bank.now to }
    ensures { result ≡ is_swapped (formulas_at bank.now known.now) js.now (formula_at bank.now from) (formula_at bank.now to) }
{
    match bank.formula_node(from) {
        Formula::Literal {
            holds,
            predicate,
            arguments,
        } => {
            let literal = LiteralParts {
                holds: *holds,
                predicate: *predicate,
                arguments,
            };
            is_swapped_literal(bank, known, js, &literal, to)
        }
        _ => false,
    }
}

// A literal: whether a predicate holds of its arguments.
#[derive(Clone, Copy)]
struct LiteralParts<'a> {
    holds: bool,
    predicate: Predicate,
    arguments: &'a [TermId],
}

fn is_swapped_literal(
    bank: &Bank,
    known: &[FormulaId],
    js: &[usize],
    literal: &LiteralParts<'_>,
    to: FormulaId,
) -> bool
    requires known { HasFormulas bank.now known.now }
    requires arguments { HasTerms bank.now literal.now.arguments.now }
    requires to { HasFormula bank.now to }
    ensures { result ≡ is_swapped (formulas_at bank.now known.now) js.now (logic.Literal literal.now.holds (predicate_of literal.now.predicate) (terms_from (terms_at bank.now literal.now.arguments.now))) (formula_at bank.now to) }
{
    match bank.formula_node(to) {
        Formula::Literal {
            holds,
            predicate,
            arguments,
        } => {
            if literal.holds != *holds {
                return false;
            }
            if !is_same_predicate(literal.predicate, *predicate) {
                return false;
            }
            are_exchanged_at(bank, known, literal.arguments, arguments, js)
        }
        _ => false,
    }
}

/// Whether the facts are a literal or quantified formula and its negation, or are one literal that is false everywhere.
pub(crate) fn is_clash_at(bank: &Bank, known: &[FormulaId], i: usize, j: usize) -> bool
    requires { HasFormulas bank.now known.now }
    ensures { result ≡ is_clash i j (slice_get (formulas_at bank.now known.now) i) (slice_get (formulas_at bank.now known.now) j) }
{
    let Some(f) = known_at(bank, known, i) else {
        return false;
    };
    let Some(g) = known_at(bank, known, j) else {
        return false;
    };
    is_opposed_at(bank, f, g) || i == j && is_absurd_at(bank, f)
}

fn is_opposed_at(bank: &Bank, f: FormulaId, g: FormulaId) -> bool
    requires first { HasFormula bank.now f }
    requires second { HasFormula bank.now g }
    ensures { result ≡ is_opposed (formula_at bank.now f) (formula_at bank.now g) }
{
    (is_literal_at(bank, f) || is_quantified_at(bank, f))
        && bank.is_same_formula(bank.negation(f), g)
}
