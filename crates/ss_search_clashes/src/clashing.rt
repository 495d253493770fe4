// Lines that close a case in which something contradicts the classes of a congruence.

ghost use Rattle.std.specs.Prelude.{◌≡◌, true, false, length, IfOk};
ghost use Rattle.ss_logic.specs.Terms.{Term, term_then, no_terms};
ghost use Rattle.ss_logic.specs.Formulas.{Equal, Literal};
ghost use Rattle.ss_terms.specs.Forms.{term_at, formula_at, HasTerm, HasFormula, HasFormulas};
ghost use Rattle.ss_equality_rules.specs.Equal.{AreFormsOf};
ghost use Rattle.ss_search_clashes.specs.Numbered.{differs};
ghost use Rattle.ss_search_clashes.specs.Values.{AreOneClass};
ghost use Rattle.ss_search_clashes.specs.Found.{IsClash, IsAgainst};
ghost use Rattle.ss_search_clashes.specs.Cases.{AtClasses, IsAt, AreAt, CloseCase};

use crate::facts::{Fact, end, fact_at};
use crate::opposing::opposing;
use crate::{Against, Clash, CongruenceContext, Equality, equate, sides};
use ss_deriv::Line;
use ss_terms::{Bank, FormulaId, TermId};
use std::alloc::AllocError;

// The terms of which the formula says that they differ.
fn different_terms(bank: &Bank, f: FormulaId) -> Equality
    requires formula { HasFormula bank.now f }
    requires differ { (x : Term) × (y : Term) × (formula_at bank.now f ≡ Literal false Equal (term_then x (term_then y no_terms))) }
    ensures left { HasTerm bank.now result.left }
    ensures right { HasTerm bank.now result.right }
    ensures differ { formula_at bank.now f ≡ Literal false Equal (term_then (term_at bank.now result.left) (term_then (term_at bank.now result.right) no_terms)) }
{
    match sides(bank, f) {
        Some(equality) => equality,
        None => unreachable!(),
    }
}

// Lines that close the case by a formula that says that two terms of one class differ.
fn differing(context: &CongruenceContext<'_>, fact: Fact) -> Result<Vec<Line>, AllocError>
    requires formula { HasFormula context.now.bank.now fact.formula }
    requires forms { AreFormsOf context.now.bank.now context.now.congruence.now.terms }
    requires differs { AtClasses context.now.bank.now context.now.congruence.now (λ class. differs class (formula_at context.now.bank.now fact.formula) ≡ true) }
    ensures { IfOk result (λ v. CloseCase context.now.bank.now context.now.congruence.now.merges context.now.count (λ cs fs. IsAt cs context.now.bank.now fs fact) v.items) }
{
    context.bank.numbers_are_apart();
    let equality = different_terms(context.bank, fact.formula);
    let shown = equate(context, equality.left, equality.right)?;
    let place = shown.place;
    end(shown.lines, place, fact.place)
}

// Lines that close the case by two different values of one class.
fn equal_values(
    context: &CongruenceContext<'_>,
    s: TermId,
    t: TermId,
) -> Result<Vec<Line>, AllocError>
    requires forms { AreFormsOf context.now.bank.now context.now.congruence.now.terms }
    requires values { AtClasses context.now.bank.now context.now.congruence.now (λ class. AreOneClass context.now.bank.now class s t) }
    ensures { IfOk result (λ v. CloseCase context.now.bank.now context.now.congruence.now.merges context.now.count (λ cs fs. Unit {0}) v.items) }
{
    context.bank.numbers_are_apart();
    let shown = equate(context, s, t)?;
    let place = shown.place;
    end(shown.lines, place, place)
}

/// Lines that close the case in which so many formulas are known. Among these are those of a clash, and those of the merges at their reasons. An
/// error is want of memory.
pub fn close(
    context: &CongruenceContext<'_>,
    known: &[FormulaId],
    places: &[usize],
    clash: Clash,
) -> Result<Vec<Line>, AllocError>
    requires known { HasFormulas context.now.bank.now known.now }
    requires places { length places.now ≡ length known.now }
    requires forms { AreFormsOf context.now.bank.now context.now.congruence.now.terms }
    requires clash { AtClasses context.now.bank.now context.now.congruence.now (λ class. IsClash context.now.bank.now class known.now clash) }
    ensures { IfOk result (λ v. CloseCase context.now.bank.now context.now.congruence.now.merges context.now.count (λ cs fs. AreAt cs context.now.bank.now fs known.now places.now) v.items) }
{
    match clash {
        Clash::Differs(i) => {
            let fact = fact_at(known, places, i);
            differing(context, fact)
        }
        Clash::Opposed(i, j) => {
            let left = fact_at(known, places, i);
            let right = fact_at(known, places, j);
            opposing(context, left, right)
        }
        Clash::Values(s, t) => equal_values(context, s, t),
    }
}

/// Lines that close the case in which a formula is known too that doesn't fit the known ones. An error is want of memory.
pub fn close_against(
    context: &CongruenceContext<'_>,
    known: &[FormulaId],
    places: &[usize],
    fact: Fact,
    against: Against,
) -> Result<Vec<Line>, AllocError>
    requires known { HasFormulas context.now.bank.now known.now }
    requires places { length places.now ≡ length known.now }
    requires fact { HasFormula context.now.bank.now fact.formula }
    requires forms { AreFormsOf context.now.bank.now context.now.congruence.now.terms }
    requires against { AtClasses context.now.bank.now context.now.congruence.now (λ class. IsAgainst context.now.bank.now class known.now fact.formula against) }
    ensures { IfOk result (λ v. CloseCase context.now.bank.now context.now.congruence.now.merges context.now.count (λ cs fs. AreAt cs context.now.bank.now fs known.now places.now × IsAt cs context.now.bank.now fs fact) v.items) }
{
    match against {
        Against::Classes => differing(context, fact),
        Against::Known(i) => {
            let other = fact_at(known, places, i);
            opposing(context, fact, other)
        }
    }
}
