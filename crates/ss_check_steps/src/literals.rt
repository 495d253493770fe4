// What single formulas and terms are.

ghost use Rattle.std.specs.Prelude.{◌≡◌, [], Some, None, true, false, ◌&&◌, not};
ghost use Rattle.ss_logic.specs.Formulas as logic;
ghost use Rattle.ss_logic_means.specs.Steps.{is_literal, is_quantified, is_cut, is_value, is_absurd, is_false_bound, good_store};
ghost use Rattle.ss_terms.specs.Forms.{formula_at, term_at, HasTerm, HasFormula};
ghost use Rattle.ss_terms.specs.Numbered.{IsTermOf, ArePartsOf};
ghost use Rattle.ss_check_steps.specs.Numbered.{sides_of};

use ss_rules_basic::{literal, one, two};
use ss_terms::{Bank, Formula, FormulaId, Predicate, Symbol, Term, TermId};
use ss_terms_puts::is_value;

/// The sides of an equality.
pub(crate) fn sides(bank: &Bank, f: FormulaId) -> Option<(TermId, TermId)>
    requires { HasFormula bank.now f }
    ensures { ArePartsOf bank.now result (sides_of (formula_at bank.now f)) }
{
    match bank.formula_node(f) {
        Formula::Literal {
            holds: true,
            predicate: Predicate::Equal,
            arguments,
        } => two(arguments),
        _ => None,
    }
}

/// Whether a formula is an atom or the negation of one.
pub(crate) fn is_literal_at(bank: &Bank, f: FormulaId) -> bool
    requires { HasFormula bank.now f }
    ensures { result ≡ is_literal (formula_at bank.now f) }
{
    match bank.formula_node(f) {
        Formula::Literal { .. } => true,
        _ => false,
    }
}

/// Whether a formula is quantified.
pub(crate) fn is_quantified_at(bank: &Bank, f: FormulaId) -> bool
    requires { HasFormula bank.now f }
    ensures { result ≡ is_quantified (formula_at bank.now f) }
{
    match bank.formula_node(f) {
        Formula::Forall(_, _) => true,
        Formula::Exists(_, _) => true,
        _ => false,
    }
}

/// Whether a formula may be cut: an atom, or a quantified formula.
pub(crate) fn is_cut_at(bank: &Bank, f: FormulaId) -> bool
    requires { HasFormula bank.now f }
    ensures { result ≡ is_cut (formula_at bank.now f) }
{
    match bank.formula_node(f) {
        Formula::Literal { holds, .. } => *holds,
        Formula::Forall(_, _) => true,
        Formula::Exists(_, _) => true,
        _ => false,
    }
}

/// Whether the first is 0 and the second a number below it.
fn is_false_bound_at(bank: &Bank, x: TermId, y: TermId) -> bool
    requires left { HasTerm bank.now x }
    requires right { HasTerm bank.now y }
    ensures { result ≡ is_false_bound (term_at bank.now x) (term_at bank.now y) }
{
    match (literal(bank, x), literal(bank, y)) {
        (Some(a), Some(b)) => a == 0 && b < 0,
        _ => false,
    }
}

/// Whether a literal is false everywhere.
pub(crate) fn is_absurd_at(bank: &Bank, f: FormulaId) -> bool
    requires { HasFormula bank.now f }
    ensures { result ≡ is_absurd (formula_at bank.now f) }
{
    match bank.formula_node(f) {
        Formula::Literal {
            holds,
            predicate,
            arguments,
        } => is_absurd_literal(bank, *holds, *predicate, arguments),
        _ => false,
    }
}

fn is_absurd_literal(bank: &Bank, holds: bool, predicate: Predicate, ts: &[TermId]) -> bool
    requires { HasTerms bank.now ts.now }
    ensures { result ≡ is_absurd (logic.Literal holds (predicate_of predicate) (terms_from (terms_at bank.now ts.now))) }
{
    let Some((x, y)) = two(ts) else {
        return false;
    };
    match (holds, predicate) {
        (false, Predicate::Equal) => bank.is_same_term(x, y),
        (true, Predicate::Equal) => are_different_values(bank, x, y),
        (true, Predicate::AtMost) => is_false_bound_at(bank, x, y),
        _ => false,
    }
}

fn are_different_values(bank: &Bank, x: TermId, y: TermId) -> bool
    requires left { HasTerm bank.now x }
    requires right { HasTerm bank.now y }
    ensures { result ≡ (is_value (term_at bank.now x) && is_value (term_at bank.now y) && not (same_term (term_at bank.now x) (term_at bank.now y))) }
{
    is_value(bank, x) && is_value(bank, y) && !bank.is_same_term(x, y)
}

ghost use Rattle.ss_logic.specs.Terms.{terms_from};
ghost use Rattle.ss_logic.specs.Equal.{same_term};
ghost use Rattle.ss_terms.specs.Forms.{predicate_of, terms_at, HasTerms};

/// The store of a `good`.
pub fn good_store_at(bank: &Bank, f: FormulaId) -> Option<TermId>
    requires { HasFormula bank.now f }
    ensures { IsTermOf bank.now result (good_store (formula_at bank.now f)) }
{
    match bank.formula_node(f) {
        Formula::Literal {
            holds: true,
            predicate: Predicate::Good,
            arguments,
        } => one(arguments),
        _ => None,
    }
}
