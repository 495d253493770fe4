// Terms in place of the bound names of terms.

ghost use Rattle.std.specs.Prelude.{◌≡◌, ◌≤◌, List, [], ◌∷◌, length, map, IfOk};
ghost use Rattle.ss_core.specs.View as view;
ghost use Rattle.ss_logic.specs.Formulas as logic;
ghost use Rattle.ss_logic.specs.Formulas.{bound_in};
ghost use Rattle.ss_terms.specs.Forms.{term_at, terms_at, HasTerm, HasTerms, AreTermsBelow, IsGrown, IsBankOf};

use ss_core::Classes;
use ss_terms::{Arguments, Bank, Term, TermId};
use std::alloc::{AllocError, Global};

/// What stands for a bound name: one of the terms, or a name that is bound further in.
fn bound_at(bank: &mut Bank, ts: &[TermId], k: usize) -> Result<TermId, AllocError>
    requires { HasTerms bank.old ts.now }
    ensures at { IfOk result (λ u. HasTerm bank.new u × (term_at bank.new u ≡ bound_in (terms_at bank.old ts.now) k)) }
    ensures grown { IsGrown bank.old bank.new }
{
    if k < ts.len() {
        let t = ts[k];
        return Ok(t);
    }
    bank.term(Term::Bound(k - ts.len()))
}

/// The term with terms in place of the first bound names; one without bound names isn't walked. An error is want of memory.
#[cycle(putting)]
pub fn put_term(
    alloc: Global,
    bank: &mut Bank,
    classes: &Classes,
    ts: &[TermId],
    t: TermId,
) -> Result<TermId, AllocError>
    requires bank { IsBankOf (view.classes classes.now) bank.old }
    requires terms { HasTerms bank.old ts.now }
    requires term { HasTerm bank.old t }
    ensures at { IfOk result (λ u. HasTerm bank.new u × (term_at bank.new u ≡ logic.put_term (terms_at bank.old ts.now) (term_at bank.old t))) }
    ensures grown { IsGrown bank.old bank.new }
{
    if bank.is_well_sorted(t) {
        return Ok(t);
    }
    match bank.term_node(t) {
        Term::Bound(k) => {
            let k = *k;
            bound_at(bank, ts, k)
        }
        Term::App(symbol, arguments) => {
            let symbol = *symbol;
            let arguments = Arguments::from_slice(alloc, arguments)?;
            let arguments = put_terms(alloc, bank, classes, ts, &arguments, t.0)?;
            bank.term(Term::App(symbol, arguments))
        }
    }
}

/// The same for terms below a number.
#[cycle(putting)]
fn put_terms(
    alloc: Global,
    bank: &mut Bank,
    classes: &Classes,
    ts: &[TermId],
    xs: &[TermId],
    bound: usize,
) -> Result<Arguments, AllocError>
    requires bank { IsBankOf (view.classes classes.now) bank.old }
    requires terms { HasTerms bank.old ts.now }
    requires below { AreTermsBelow bound xs.now }
    requires in_bank { bound ≤ length bank.old.terms }
    ensures below { IfOk result (λ v. HasTerms bank.new v.items) }
    ensures at { IfOk result (λ v. terms_at bank.new v.items ≡ map (logic.put_term (terms_at bank.old ts.now)) (terms_at bank.old xs.now)) }
    ensures grown { IsGrown bank.old bank.new }
{
    let mut made = Arguments::new(alloc);
    for x in xs {
        let y = put_term(alloc, bank, classes, ts, *x)?;
        made.push(y)?;
    }
    Ok(made)
}

/// The terms of the list, each with terms in place of the first bound names.
pub(crate) fn put_arguments(
    alloc: Global,
    bank: &mut Bank,
    classes: &Classes,
    ts: &[TermId],
    xs: &[TermId],
) -> Result<Arguments, AllocError>
    requires bank { IsBankOf (view.classes classes.now) bank.old }
    requires terms { HasTerms bank.old ts.now }
    requires arguments { HasTerms bank.old xs.now }
    ensures below { IfOk result (λ v. HasTerms bank.new v.items) }
    ensures at { IfOk result (λ v. terms_at bank.new v.items ≡ map (logic.put_term (terms_at bank.old ts.now)) (terms_at bank.old xs.now)) }
    ensures grown { IsGrown bank.old bank.new }
{
    let count = bank.term_count();
    put_terms(alloc, bank, classes, ts, xs, count)
}
