// Matching by form.

ghost use Rattle.std.specs.Prelude.{◌≡◌, ◌≤◌, length, replicate, Option, None, option_and_then, slice_get, IfOk};
ghost use Rattle.ss_core.specs.View as view;
ghost use Rattle.ss_logic.specs.Terms.{App, terms_from};
ghost use Rattle.ss_logic.specs.Formulas.{Literal};
ghost use Rattle.ss_logic.specs.Equal.{same_symbol, same_predicate};
ghost use Rattle.ss_logic.specs.Matching as spec;
ghost use Rattle.ss_terms.specs.Forms.{symbol_of, predicate_of, term_at, terms_at, formula_at, HasTerm, HasTerms, HasFormula, AreTermsBelow, IsBankOf};
ghost use Rattle.ss_rules_opened.specs.Matches.{all_found_at, HasAllFound, IsMatch, AreThese};

use ss_core::Classes;
use ss_terms::{Bank, Formula, FormulaId, Predicate, Symbol, Term, TermId};
use std::alloc::{AllocError, Global};

/// The context in which terms and atoms are matched: the bank of these classes, and how many bound names patterns have.
#[derive(Clone, Copy)]
pub(crate) struct MatchingContext<'a> {
    pub(crate) alloc: Global,
    pub(crate) bank: &'a Bank,
    pub(crate) classes: &'a Classes,
    pub(crate) count: usize,
}

fn is_same_function(f: Symbol, g: Symbol) -> bool
    ensures { result ≡ same_symbol (symbol_of f) (symbol_of g) }
{
    f == g
}

fn is_same_predicate(p: Predicate, q: Predicate) -> bool
    ensures { result ≡ same_predicate (predicate_of p) (predicate_of q) }
{
    p == q
}

// Whether the bound name stands for the term, as it does from now on where it stood for nothing.
fn with_found(bank: &Bank, found: &mut [Option<TermId>], k: usize, t: TermId) -> bool
    requires found { HasAllFound bank.now found.old }
    requires term { HasTerm bank.now t }
    ensures { IsMatch bank.now result found.new (spec.with_found (all_found_at bank.now found.old) k (term_at bank.now t) (slice_get (all_found_at bank.now found.old) k)) }
{
    if k >= found.len() {
        return false;
    }
    match found[k] {
        Some(u) => bank.is_same_term(t, u),
        None => {
            found[k] = Some(t);
            true
        }
    }
}

// Whether the pattern is the term, where terms stand for its bound names. One without bound names isn't walked.
#[cycle(matching)]
fn matched(
    context: &MatchingContext<'_>,
    found: &mut [Option<TermId>],
    pattern: TermId,
    t: TermId,
) -> bool
    requires bank { IsBankOf (view.classes context.now.classes.now) context.now.bank.now }
    requires found { HasAllFound context.now.bank.now found.old }
    requires pattern { HasTerm context.now.bank.now pattern }
    requires term { HasTerm context.now.bank.now t }
    ensures { IsMatch context.now.bank.now result found.new (spec.matched (all_found_at context.now.bank.now found.old) (term_at context.now.bank.now pattern) (term_at context.now.bank.now t)) }
{
    if context.bank.is_well_sorted(pattern) {
        return context.bank.is_same_term(pattern, t);
    }
    match context.bank.term_node(pattern) {
        Term::Bound(k) => with_found(context.bank, found, *k, t),
        Term::App(f, ts) => matched_at(context, found, *f, ts, t, pattern.0),
    }
}

// Whether a function at patterns below a number is the term.
#[cycle(matching)]
fn matched_at(
    context: &MatchingContext<'_>,
    found: &mut [Option<TermId>],
    f: Symbol,
    patterns: &[TermId],
    t: TermId,
    bound: usize,
) -> bool
    requires bank { IsBankOf (view.classes context.now.classes.now) context.now.bank.now }
    requires found { HasAllFound context.now.bank.now found.old }
    requires below { AreTermsBelow bound patterns.now }
    requires in_bank { bound ≤ length context.now.bank.now.terms }
    requires term { HasTerm context.now.bank.now t }
    ensures { IsMatch context.now.bank.now result found.new (spec.matched (all_found_at context.now.bank.now found.old) (App (symbol_of f) (terms_from (terms_at context.now.bank.now patterns.now))) (term_at context.now.bank.now t)) }
{
    match context.bank.term_node(t) {
        Term::App(g, us) => {
            if !is_same_function(f, *g) {
                return false;
            }
            all_matched(context, found, patterns, us, bound)
        }
        Term::Bound(_) => false,
    }
}

// Whether patterns below a number are the terms, one by one.
#[cycle(matching)]
fn all_matched(
    context: &MatchingContext<'_>,
    found: &mut [Option<TermId>],
    patterns: &[TermId],
    ts: &[TermId],
    bound: usize,
) -> bool
    requires bank { IsBankOf (view.classes context.now.classes.now) context.now.bank.now }
    requires found { HasAllFound context.now.bank.now found.old }
    requires below { AreTermsBelow bound patterns.now }
    requires in_bank { bound ≤ length context.now.bank.now.terms }
    requires terms { HasTerms context.now.bank.now ts.now }
    ensures { IsMatch context.now.bank.now result found.new (spec.all_matched (all_found_at context.now.bank.now found.old) (terms_from (terms_at context.now.bank.now patterns.now)) (terms_from (terms_at context.now.bank.now ts.now))) }
{
    if patterns.len() != ts.len() {
        return false;
    }
    for i in 0..patterns.len() {
        if !matched(context, found, patterns[i], ts[i]) {
            return false;
        }
    }
    true
}

// The terms, where each bound name stands for one.
fn all_found(
    alloc: Global,
    bank: &Bank,
    found: &[Option<TermId>],
) -> Result<Option<Vec<TermId>>, AllocError>
    requires { HasAllFound bank.now found.now }
    ensures { IfOk result (λ r. AreThese bank.now r (spec.all_found (all_found_at bank.now found.now))) }
{
    let _ = bank;
    let mut ts = Vec::new(alloc);
    for o in found {
        match *o {
            Some(t) => ts.push(t)?,
            None => return Ok(None),
        }
    }
    Ok(Some(ts))
}

// Nothing stands for the bound names.
fn nothing_found(alloc: Global, count: usize) -> Result<Vec<Option<TermId>>, AllocError>
    ensures { IfOk result (λ v. v.items ≡ replicate count None) }
{
    let mut found = Vec::new(alloc);
    for number in 0..count {
        let _ = number;
        found.push(None)?;
    }
    Ok(found)
}

/// The terms that stand for the first bound names of the pattern, where it is the term. An error is want of memory.
pub(crate) fn match_term(
    context: &MatchingContext<'_>,
    pattern: TermId,
    t: TermId,
) -> Result<Option<Vec<TermId>>, AllocError>
    requires bank { IsBankOf (view.classes context.now.classes.now) context.now.bank.now }
    requires pattern { HasTerm context.now.bank.now pattern }
    requires term { HasTerm context.now.bank.now t }
    ensures { IfOk result (λ r. AreThese context.now.bank.now r (spec.match_term context.now.count (term_at context.now.bank.now pattern) (term_at context.now.bank.now t))) }
{
    let mut found = nothing_found(context.alloc, context.count)?;
    if !matched(context, &mut found, pattern, t) {
        return Ok(None);
    }
    all_found(context.alloc, context.bank, &found)
}

// And those for which patterns are the terms, one by one.
fn match_terms(
    context: &MatchingContext<'_>,
    patterns: &[TermId],
    ts: &[TermId],
) -> Result<Option<Vec<TermId>>, AllocError>
    requires bank { IsBankOf (view.classes context.now.classes.now) context.now.bank.now }
    requires patterns { HasTerms context.now.bank.now patterns.now }
    requires terms { HasTerms context.now.bank.now ts.now }
    ensures { IfOk result (λ r. AreThese context.now.bank.now r (option_and_then spec.all_found (spec.all_matched (replicate context.now.count None) (terms_from (terms_at context.now.bank.now patterns.now)) (terms_from (terms_at context.now.bank.now ts.now))))) }
{
    let mut found = nothing_found(context.alloc, context.count)?;
    if !all_matched(context, &mut found, patterns, ts, context.bank.term_count()) {
        return Ok(None);
    }
    all_found(context.alloc, context.bank, &found)
}

// For which an atom of patterns is the atom.
fn match_atom_of(
    context: &MatchingContext<'_>,
    holds: bool,
    predicate: Predicate,
    patterns: &[TermId],
    f: FormulaId,
) -> Result<Option<Vec<TermId>>, AllocError>
    requires bank { IsBankOf (view.classes context.now.classes.now) context.now.bank.now }
    requires patterns { HasTerms context.now.bank.now patterns.now }
    requires formula { HasFormula context.now.bank.now f }
    ensures { IfOk result (λ r. AreThese context.now.bank.now r (spec.match_atom context.now.count (Literal holds (predicate_of predicate) (terms_from (terms_at context.now.bank.now patterns.now))) (formula_at context.now.bank.now f))) }
{
    let _ = holds;
    match context.bank.formula_node(f) {
        Formula::Literal {
            predicate: other,
            arguments,
            ..
        } => {
            if !is_same_predicate(predicate, *other) {
                return Ok(None);
            }
            match_terms(context, patterns, arguments)
        }
        _ => Ok(None),
    }
}

/// The terms that stand for the first bound names of a pattern, where its atom is that of the formula. An error is want of memory.
pub(crate) fn match_atom(
    context: &MatchingContext<'_>,
    pattern: FormulaId,
    f: FormulaId,
) -> Result<Option<Vec<TermId>>, AllocError>
    requires bank { IsBankOf (view.classes context.now.classes.now) context.now.bank.now }
    requires pattern { HasFormula context.now.bank.now pattern }
    requires formula { HasFormula context.now.bank.now f }
    ensures { IfOk result (λ r. AreThese context.now.bank.now r (spec.match_atom context.now.count (formula_at context.now.bank.now pattern) (formula_at context.now.bank.now f))) }
{
    match context.bank.formula_node(pattern) {
        Formula::Literal {
            holds,
            predicate,
            arguments,
        } => match_atom_of(context, *holds, *predicate, arguments, f),
        _ => Ok(None),
    }
}
