// The sides of equalities.

ghost use Rattle.std.specs.Prelude.{◌≡◌, Bool, None, IfSome};
ghost use Rattle.ss_logic.specs.Terms as tree;
ghost use Rattle.ss_logic.specs.Terms.{term_then, no_terms, terms_from};
ghost use Rattle.ss_logic.specs.Formulas.{Equal, Literal};
ghost use Rattle.ss_terms.specs.Forms.{term_at, terms_at, formula_at, predicate_of, HasTerm, HasTerms, HasFormula};
ghost use Rattle.ss_search_procedure_rules.specs.Clashes.{Classing};
ghost use Rattle.ss_search_clashes.specs.Numbered as spec;
ghost use Rattle.ss_search_clashes.specs.Numbered.{IsClassing};
ghost use Rattle.ss_search_clashes.specs.Found.{sides_of, AreSides};

use crate::says::class;
use ss_terms::{Bank, Formula, FormulaId, Predicate, TermId};

/// An equality that holds, or that doesn't.
#[derive(Clone, Copy, Drop)]
pub struct Equality {
    pub holds: bool,
    pub left: TermId,
    pub right: TermId,
}

// The equality of two terms; none of another number of terms.
fn equality_of(bank: &Bank, holds: bool, ts: &[TermId]) -> Option<Equality>
    requires { HasTerms bank.now ts.now }
    ensures { AreSides bank.now (sides_of (Literal holds Equal (terms_from (terms_at bank.now ts.now)))) result }
{
    let _ = bank;
    match ts {
        [left, right] => Some(Equality {
            holds,
            left: *left,
            right: *right,
        }),
        _ => None,
    }
}

// The equality that a literal is.
fn literal_sides(bank: &Bank, holds: bool, predicate: Predicate, ts: &[TermId]) -> Option<Equality>
    requires { HasTerms bank.now ts.now }
    ensures { AreSides bank.now (sides_of (Literal holds (predicate_of predicate) (terms_from (terms_at bank.now ts.now)))) result }
{
    match predicate {
        Predicate::Equal => equality_of(bank, holds, ts),
        _ => None,
    }
}

// The equality that a formula is.
fn find_sides(bank: &Bank, f: FormulaId) -> Option<Equality>
    requires { HasFormula bank.now f }
    ensures { AreSides bank.now (sides_of (formula_at bank.now f)) result }
{
    match bank.formula_node(f) {
        Formula::Literal {
            holds,
            predicate,
            arguments,
        } => literal_sides(bank, *holds, *predicate, arguments),
        Formula::And(_) => None,
        Formula::Or(_) => None,
        Formula::Forall(_, _) => None,
        Formula::Exists(_, _) => None,
    }
}

/// The two sides of an equality, and whether it holds.
pub fn sides(bank: &Bank, f: FormulaId) -> Option<Equality>
    requires { HasFormula bank.now f }
    ensures terms { IfSome result (λ s. HasTerm bank.now s.left × HasTerm bank.now s.right) }
    ensures some { IfSome result (λ s. formula_at bank.now f ≡ Literal s.holds Equal (term_then (term_at bank.now s.left) (term_then (term_at bank.now s.right) no_terms))) }
    ensures none { result ≡ None → (holds : Bool) (x y : tree.Term) → formula_at bank.now f ≡ Literal holds Equal (term_then x (term_then y no_terms)) → ⊥ }
{
    find_sides(bank, f)
}

/// Whether the formula says that two terms of one class differ.
pub(crate) fn differs(bank: &Bank, classes: &[usize], f: FormulaId) -> bool
    requires { HasFormula bank.now f }
    ensures { (class : Classing) → IsClassing bank.now classes.now class → result ≡ spec.differs class (formula_at bank.now f) }
{
    match find_sides(bank, f) {
        Some(e) => !e.holds && class(classes, e.left) == class(classes, e.right),
        None => false,
    }
}
