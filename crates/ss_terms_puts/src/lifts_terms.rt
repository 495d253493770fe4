// Terms where more names are bound around them.

ghost use Rattle.std.specs.Prelude.{◌≡◌, ◌≤◌, ◌+◌, List, [], ◌∷◌, length, map, IfOk};
ghost use Rattle.ss_core.specs.View as view;
ghost use Rattle.ss_logic.specs.Terms as tree;
ghost use Rattle.ss_logic.specs.Frames.{lifted_term};
ghost use Rattle.ss_terms.specs.Forms.{term_at, terms_at, HasTerm, HasTerms, AreTermsBelow, IsGrown, IsBankOf};

use ss_core::Classes;
use ss_terms::{Arguments, Bank, Term, TermId};
use std::alloc::{AllocError, Global};

/// The bound name after n more; a number that is too large counts as want of memory.
fn later_name(bank: &mut Bank, n: usize, k: usize) -> Result<TermId, AllocError>
    ensures at { IfOk result (λ u. HasTerm bank.new u × (term_at bank.new u ≡ tree.Bound (n + k))) }
    ensures grown { IsGrown bank.old bank.new }
{
    match n.checked_add(k) {
        Some(j) => bank.term(Term::Bound(j)),
        None => Err(AllocError),
    }
}

/// The term where n more names are bound around it. An error is want of memory.
#[cycle(lifting)]
pub fn lift_term(
    alloc: Global,
    bank: &mut Bank,
    classes: &Classes,
    n: usize,
    t: TermId,
) -> Result<TermId, AllocError>
    requires bank { IsBankOf (view.classes classes.now) bank.old }
    requires term { HasTerm bank.old t }
    ensures at { IfOk result (λ u. HasTerm bank.new u × (term_at bank.new u ≡ lifted_term n (term_at bank.old t))) }
    ensures grown { IsGrown bank.old bank.new }
{
    if bank.is_well_sorted(t) {
        return Ok(t);
    }
    match bank.term_node(t) {
        Term::Bound(k) => {
            let k = *k;
            later_name(bank, n, k)
        }
        Term::App(symbol, arguments) => {
            let symbol = *symbol;
            let arguments = Arguments::from_slice(alloc, arguments)?;
            let arguments = lift_terms(alloc, bank, classes, n, &arguments, t.0)?;
            bank.term(Term::App(symbol, arguments))
        }
    }
}

/// The same for terms below a number.
#[cycle(lifting)]
fn lift_terms(
    alloc: Global,
    bank: &mut Bank,
    classes: &Classes,
    n: usize,
    xs: &[TermId],
    bound: usize,
) -> Result<Arguments, AllocError>
    requires bank { IsBankOf (view.classes classes.now) bank.old }
    requires below { AreTermsBelow bound xs.now }
    requires in_bank { bound ≤ length bank.old.terms }
    ensures below { IfOk result (λ v. HasTerms bank.new v.items) }
    ensures at { IfOk result (λ v. terms_at bank.new v.items ≡ map (lifted_term n) (terms_at bank.old xs.now)) }
    ensures grown { IsGrown bank.old bank.new }
{
    let mut made = Arguments::new(alloc);
    for x in xs {
        let y = lift_term(alloc, bank, classes, n, *x)?;
        made.push(y)?;
    }
    Ok(made)
}

/// The terms of the list where n more names are bound around them.
pub(crate) fn lift_arguments(
    alloc: Global,
    bank: &mut Bank,
    classes: &Classes,
    n: usize,
    xs: &[TermId],
) -> Result<Arguments, AllocError>
    requires bank { IsBankOf (view.classes classes.now) bank.old }
    requires arguments { HasTerms bank.old xs.now }
    ensures below { IfOk result (λ v. HasTerms bank.new v.items) }
    ensures at { IfOk result (λ v. terms_at bank.new v.items ≡ map (lifted_term n) (terms_at bank.old xs.now)) }
    ensures grown { IsGrown bank.old bank.new }
{
    let count = bank.term_count();
    lift_terms(alloc, bank, classes, n, xs, count)
}
