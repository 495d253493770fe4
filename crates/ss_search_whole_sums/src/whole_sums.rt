// Sums of known literals, and of equalities of whole numbers of one class.

ghost use Rattle.std.specs.Prelude.{◌≡◌, ◌++◌, ◌∷◌, [], List, length, if◌then◌else◌, IfOk, IfSome, IfNone, OnOk};
ghost use Rattle.ss_core.specs.Tree.{ClassTree};
ghost use Rattle.ss_terms.specs.Forms.{formula_at, formulas_at, HasFormula, HasFormulas, IsBankOf};
ghost use Rattle.ss_equality_rules.specs.Equal.{AreFormsOf, AreClassesOf};
ghost use Rattle.ss_search_clashes.specs.Numbered.{class_of};
ghost use Rattle.ss_search_procedure_rules.specs.Closed as closed;
ghost use Rattle.ss_search_reached.specs.Following.{HasNoSum};
ghost use Rattle.ss_search_whole_sums.specs.WholeSums.{basic_ones, basic_places, CloseSums, CloseFormed};

use crate::contradicting::close_contradiction;
use ss_deriv::Line;
use ss_search_clashes::{CongruenceContext, classes_are_of_terms};
use ss_search_reached::{is_basic, numbers_are_seen, whole_links, whole_pairs};
use ss_terms::{Bank, FormulaId};
use std::alloc::{AllocError, Global};

// Literals and quantified formulas, and the place of each.
#[derive(Drop)]
struct Placed {
    formulas: Vec<FormulaId>,
    places: Vec<usize>,
}

// One more formula, where it is a literal or quantified.
fn add(bank: &Bank, basics: &mut Placed, f: FormulaId, place: usize) -> Result<(), AllocError>
    requires { HasFormula bank.now f }
    ensures formulas { OnOk result (basics.new.formulas.items ≡ basics.old.formulas.items ++ (if closed.is_basic (formula_at bank.now f) then f ∷ [] else [])) }
    ensures places { OnOk result (basics.new.places.items ≡ basics.old.places.items ++ (if closed.is_basic (formula_at bank.now f) then place ∷ [] else [])) }
{
    if !is_basic(bank, f) {
        return Ok(());
    }
    basics.formulas.push(f)?;
    basics.places.push(place)?;
    Ok(())
}

// The literals and quantified formulas among formulas, with their places.
fn basics(
    alloc: Global,
    bank: &Bank,
    known: &[FormulaId],
    places: &[usize],
) -> Result<Placed, AllocError>
    requires known { HasFormulas bank.now known.now }
    requires long { length places.now ≡ length known.now }
    ensures formulas { IfOk result (λ r. r.formulas.items ≡ basic_ones bank.now known.now) }
    ensures places { IfOk result (λ r. r.places.items ≡ basic_places bank.now known.now places.now) }
{
    let mut basics = Placed {
        formulas: Vec::new(alloc),
        places: Vec::new(alloc),
    };
    for i in 0..known.len() {
        add(bank, &mut basics, known[i], places[i])?;
    }
    Ok(basics)
}

// Lines that close the case by sums with links among whole numbers of one class, where they do.
fn close_by_links(
    context: &CongruenceContext<'_>,
    classes: &[usize],
    basics: &Placed,
) -> Result<Option<Vec<Line>>, AllocError>
    requires formulas { HasFormulas context.now.bank.now basics.now.formulas.items }
    requires forms { AreFormsOf context.now.bank.now context.now.congruence.now.terms }
    requires classes { AreClassesOf context.now.congruence.now.terms context.now.congruence.now.merges classes.now }
    ensures { (cs : List ClassTree) → IsBankOf cs context.now.bank.now → IfOk result (λ o. IfSome o (λ v. CloseFormed cs context.now.bank.now context.now.congruence.now.merges context.now.count basics.now.formulas.items basics.now.places.items v.items)) }
{
    let links = whole_links(context.alloc, context.bank, classes, &basics.formulas)?;
    close_contradiction(context, &basics.formulas, &basics.places, &links)
}

// The same with each two whole numbers of one class; none only where no sum is a contradiction.
fn close_by_pairs(
    context: &CongruenceContext<'_>,
    classes: &[usize],
    basics: &Placed,
) -> Result<Option<Vec<Line>>, AllocError>
    requires formulas { HasFormulas context.now.bank.now basics.now.formulas.items }
    requires forms { AreFormsOf context.now.bank.now context.now.congruence.now.terms }
    requires classes { AreClassesOf context.now.congruence.now.terms context.now.congruence.now.merges classes.now }
    ensures none { (cs : List ClassTree) → IsBankOf cs context.now.bank.now → IfOk result (λ o. IfNone o (HasNoSum cs (class_of context.now.bank.now classes.now) (formulas_at context.now.bank.now basics.now.formulas.items))) }
    ensures some { (cs : List ClassTree) → IsBankOf cs context.now.bank.now → IfOk result (λ o. IfSome o (λ v. CloseFormed cs context.now.bank.now context.now.congruence.now.merges context.now.count basics.now.formulas.items basics.now.places.items v.items)) }
{
    classes_are_of_terms(context.bank);
    let pairs = whole_pairs(context.alloc, context.bank, classes, &basics.formulas)?;
    close_contradiction(context, &basics.formulas, &basics.places, &pairs)
}

// The same. Each two are looked at only where links don't tell.
fn close_basics(
    context: &CongruenceContext<'_>,
    classes: &[usize],
    basics: &Placed,
) -> Result<Option<Vec<Line>>, AllocError>
    requires formulas { HasFormulas context.now.bank.now basics.now.formulas.items }
    requires forms { AreFormsOf context.now.bank.now context.now.congruence.now.terms }
    requires classes { AreClassesOf context.now.congruence.now.terms context.now.congruence.now.merges classes.now }
    ensures none { (cs : List ClassTree) → IsBankOf cs context.now.bank.now → IfOk result (λ o. IfNone o (HasNoSum cs (class_of context.now.bank.now classes.now) (formulas_at context.now.bank.now basics.now.formulas.items))) }
    ensures some { (cs : List ClassTree) → IsBankOf cs context.now.bank.now → IfOk result (λ o. IfSome o (λ v. CloseFormed cs context.now.bank.now context.now.congruence.now.merges context.now.count basics.now.formulas.items basics.now.places.items v.items)) }
{
    let seen = numbers_are_seen(context.alloc, context.bank, classes, &basics.formulas)?;
    if seen {
        return Ok(None);
    }
    let closing = close_by_links(context, classes, basics)?;
    match closing {
        Some(lines) => Ok(Some(lines)),
        None => close_by_pairs(context, classes, basics),
    }
}

/// Lines that close a case in which known literals and equalities of whole numbers of one class contradict each other by sums. None only where no sum
/// of one or two of them, or of differences, does. `places` has a place for each known formula. An error is want of memory.
pub fn close_whole_sums(
    context: &CongruenceContext<'_>,
    classes: &[usize],
    known: &[FormulaId],
    places: &[usize],
) -> Result<Option<Vec<Line>>, AllocError>
    requires known { HasFormulas context.now.bank.now known.now }
    requires long { length places.now ≡ length known.now }
    requires forms { AreFormsOf context.now.bank.now context.now.congruence.now.terms }
    requires classes { AreClassesOf context.now.congruence.now.terms context.now.congruence.now.merges classes.now }
    ensures none { (cs : List ClassTree) → IsBankOf cs context.now.bank.now → IfOk result (λ o. IfNone o (HasNoSum cs (class_of context.now.bank.now classes.now) (closed.basics (formulas_at context.now.bank.now known.now)))) }
    ensures some { (cs : List ClassTree) → IsBankOf cs context.now.bank.now → IfOk result (λ o. IfSome o (λ v. CloseSums cs context.now.bank.now context.now.congruence.now.merges context.now.count known.now places.now v.items)) }
{
    let basics = basics(context.alloc, context.bank, known, places)?;
    close_basics(context, classes, &basics)
}
