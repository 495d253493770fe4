// Lines that close a case in which two opposed formulas are known. They are a formula and its negation, or literals of one name at equal arguments.

ghost use Rattle.std.specs.Prelude.{◌≡◌, Bool, IfOk};
ghost use Rattle.ss_logic.specs.Terms.{Terms, terms_from};
ghost use Rattle.ss_logic.specs.Formulas as logic;
ghost use Rattle.ss_terms.specs.Forms.{terms_at, formula_at, HasTerms, HasFormula};
ghost use Rattle.ss_equality_rules.specs.Equal.{AreFormsOf};
ghost use Rattle.ss_search_clashes.specs.Cases.{AreOpposed, AtClasses, IsAt, CloseCase};

use crate::facts::{Fact, end, end_at_once};
use crate::{CongruenceContext, swap};
use ss_deriv::Line;
use ss_terms::{Bank, Formula, FormulaId, TermId};
use std::alloc::AllocError;

// The arguments of a literal.
fn arguments(bank: &Bank, f: FormulaId) -> &[TermId]
    requires { HasFormula bank.now f }
    ensures there { HasTerms bank.now result.now }
    ensures arguments { (holds : Bool) (p : logic.Predicate) (ts : Terms) → formula_at bank.now f ≡ logic.Literal holds p ts → ts ≡ terms_from (terms_at bank.now result.now) }
{
    match bank.formula_node(f) {
        Formula::Literal { arguments, .. } => arguments,
        Formula::And(_) => &[],
        Formula::Or(_) => &[],
        Formula::Forall(_, _) => &[],
        Formula::Exists(_, _) => &[],
    }
}

/// Lines that close the case by two formulas, of which one says that something holds, and the other that it doesn't. An error is want
/// of memory.
pub(crate) fn opposing(
    context: &CongruenceContext<'_>,
    left: Fact,
    right: Fact,
) -> Result<Vec<Line>, AllocError>
    requires left { HasFormula context.now.bank.now left.formula }
    requires right { HasFormula context.now.bank.now right.formula }
    requires forms { AreFormsOf context.now.bank.now context.now.congruence.now.terms }
    requires opposed { AtClasses context.now.bank.now context.now.congruence.now (λ class. AreOpposed class (formula_at context.now.bank.now left.formula) (formula_at context.now.bank.now right.formula)) }
    ensures { IfOk result (λ v. CloseCase context.now.bank.now context.now.congruence.now.merges context.now.count (λ cs fs. IsAt cs context.now.bank.now fs left × IsAt cs context.now.bank.now fs right) v.items) }
{
    context.bank.numbers_are_apart();
    let denied = context.bank.negation(right.formula);
    if context.bank.is_same_formula(left.formula, denied) {
        return end_at_once(context.alloc, left.place, right.place);
    }
    let xs = arguments(context.bank, left.formula);
    let ys = arguments(context.bank, right.formula);
    let shown = swap(context, left.place, xs, denied, ys)?;
    let place = shown.place;
    end(shown.lines, place, right.place)
}
