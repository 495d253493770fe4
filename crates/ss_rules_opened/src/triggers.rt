// The reads of a body that have its bound names as arguments.

ghost use Rattle.std.specs.Prelude.{◌≡◌, [], ◌∷◌, ◌++◌, filter, IfOk, OnOk};
ghost use Rattle.std.specs.List.{list_any};
ghost use Rattle.ss_logic.specs.Terms.{terms_from};
ghost use Rattle.ss_logic.specs.Occurring.{all_terms};
ghost use Rattle.ss_logic.specs.Matching as spec;
ghost use Rattle.ss_terms.specs.Forms.{symbol_of, predicate_of, term_at, terms_at, formula_at, formulas_at, HasTerm, HasTerms, HasFormula, HasFormulas};
ghost use Rattle.ss_rules_occurring.specs.Found.{HoldsTerms};
ghost use Rattle.ss_rules_opened.specs.Matches.{is_wanted};

use ss_logic::Sort;
use ss_rules_occurring::{TermList, all_atoms, terms};
use ss_terms::{Bank, Formula, FormulaId, Predicate, Symbol, Term, TermId};
use std::alloc::{AllocError, Global};

/// A form of terms that are looked for.
#[derive(Clone, Copy)]
pub(crate) enum Wanted {
    /// Reads that have this many bound names as arguments.
    Trigger(usize),
    /// Whole-number literals and constants.
    PlainWhole,
}

// ---- forms

fn is_read(symbol: Symbol) -> bool
    ensures { result ≡ spec.is_read (symbol_of symbol) }
{
    match symbol {
        Symbol::Field(_) => true,
        Symbol::Element(_) => true,
        Symbol::Length => true,
        Symbol::Level => true,
        Symbol::Owner => true,
        Symbol::Next => true,
        _ => false,
    }
}

fn is_read_atom(predicate: Predicate) -> bool
    ensures { result ≡ spec.is_read_atom (predicate_of predicate) }
{
    match predicate {
        Predicate::Allocated => true,
        Predicate::Committed => true,
        Predicate::Ready => true,
        _ => false,
    }
}

// Whether the term is this bound name.
fn is_bound(bank: &Bank, name: usize, t: TermId) -> bool
    requires { HasTerm bank.now t }
    ensures { result ≡ spec.is_bound name (term_at bank.now t) }
{
    match bank.term_node(t) {
        Term::Bound(k) => *k == name,
        Term::App(_, _) => false,
    }
}

// Whether one of them is.
fn has_one_bound(bank: &Bank, name: usize, ts: &[TermId]) -> bool
    requires { HasTerms bank.now ts.now }
    ensures { result ≡ list_any (spec.is_bound name) (terms_at bank.now ts.now) }
{
    for t in ts {
        if is_bound(bank, name, *t) {
            return true;
        }
    }
    false
}

// Whether each of the first bound names is among them.
fn has_bound(bank: &Bank, count: usize, ts: &[TermId]) -> bool
    requires { HasTerms bank.now ts.now }
    ensures { result ≡ spec.has_bound count (terms_from (terms_at bank.now ts.now)) }
{
    for name in 0..count {
        if !has_one_bound(bank, name, ts) {
            return false;
        }
    }
    true
}

fn is_trigger(bank: &Bank, count: usize, t: TermId) -> bool
    requires { HasTerm bank.now t }
    ensures { result ≡ spec.is_trigger count (term_at bank.now t) }
{
    match bank.term_node(t) {
        Term::App(symbol, ts) => is_read(*symbol) && has_bound(bank, count, ts),
        Term::Bound(_) => false,
    }
}

fn is_trigger_atom(bank: &Bank, count: usize, f: FormulaId) -> bool
    requires { HasFormula bank.now f }
    ensures { result ≡ spec.is_trigger_atom count (formula_at bank.now f) }
{
    match bank.formula_node(f) {
        Formula::Literal {
            predicate,
            arguments,
            ..
        } => is_read_atom(*predicate) && has_bound(bank, count, arguments),
        _ => false,
    }
}

fn is_plain_whole(bank: &Bank, t: TermId) -> bool
    requires { HasTerm bank.now t }
    ensures { result ≡ spec.is_plain_whole (term_at bank.now t) }
{
    match bank.term_node(t) {
        Term::App(Symbol::Number(_), _) => true,
        Term::App(Symbol::Constant(sort, _), _) => *sort == Sort::Whole,
        _ => false,
    }
}

// ---- those that are wanted

fn is_wanted(bank: &Bank, wanted: Wanted, t: TermId) -> bool
    requires { HasTerm bank.now t }
    ensures { result ≡ is_wanted wanted (term_at bank.now t) }
{
    match wanted {
        Wanted::Trigger(count) => is_trigger(bank, count, t),
        Wanted::PlainWhole => is_plain_whole(bank, t),
    }
}

// Adds a term, if it is wanted.
fn add_wanted(
    bank: &Bank,
    wanted: Wanted,
    kept: &mut Vec<TermId>,
    t: TermId,
) -> Result<(), AllocError>
    requires kept { HasTerms bank.now kept.old.items }
    requires term { HasTerm bank.now t }
    ensures has { OnOk result (HasTerms bank.now kept.new.items) }
    ensures are { OnOk result (terms_at bank.now kept.new.items ≡ terms_at bank.now kept.old.items ++ filter (is_wanted wanted) (term_at bank.now t ∷ [])) }
{
    if !is_wanted(bank, wanted, t) {
        return Ok(());
    }
    kept.push(t)?;
    Ok(())
}

fn all_wanted(
    alloc: Global,
    bank: &Bank,
    wanted: Wanted,
    ts: &[TermId],
) -> Result<Vec<TermId>, AllocError>
    requires { HasTerms bank.now ts.now }
    ensures has { IfOk result (λ v. HasTerms bank.now v.items) }
    ensures are { IfOk result (λ v. terms_at bank.now v.items ≡ filter (is_wanted wanted) (terms_at bank.now ts.now)) }
{
    let mut kept = Vec::new(alloc);
    for t in ts {
        add_wanted(bank, wanted, &mut kept, *t)?;
    }
    Ok(kept)
}

// The terms of formulas, inside quantified ones too.
fn terms_everywhere(alloc: Global, bank: &Bank, fs: &[FormulaId]) -> Result<TermList, AllocError>
    requires { HasFormulas bank.now fs.now }
    ensures { IfOk result (λ found. HoldsTerms bank.now found (all_terms (formulas_at bank.now fs.now))) }
{
    let atoms = all_atoms(alloc, bank, fs)?;
    terms(alloc, bank, &atoms.list)
}

/// The terms of formulas that are wanted, inside quantified ones too. An error is want of memory.
pub(crate) fn wanted_everywhere(
    alloc: Global,
    bank: &Bank,
    wanted: Wanted,
    fs: &[FormulaId],
) -> Result<Vec<TermId>, AllocError>
    requires { HasFormulas bank.now fs.now }
    ensures has { IfOk result (λ v. HasTerms bank.now v.items) }
    ensures are { IfOk result (λ v. terms_at bank.now v.items ≡ filter (is_wanted wanted) (all_terms (formulas_at bank.now fs.now))) }
{
    let found = terms_everywhere(alloc, bank, fs)?;
    all_wanted(alloc, bank, wanted, &found.list)
}

// ---- atoms

// Adds an atom, if it is a trigger.
fn add_trigger_atom(
    bank: &Bank,
    count: usize,
    kept: &mut Vec<FormulaId>,
    f: FormulaId,
) -> Result<(), AllocError>
    requires kept { HasFormulas bank.now kept.old.items }
    requires formula { HasFormula bank.now f }
    ensures has { OnOk result (HasFormulas bank.now kept.new.items) }
    ensures are { OnOk result (formulas_at bank.now kept.new.items ≡ formulas_at bank.now kept.old.items ++ filter (spec.is_trigger_atom count) (formula_at bank.now f ∷ [])) }
{
    if !is_trigger_atom(bank, count, f) {
        return Ok(());
    }
    kept.push(f)?;
    Ok(())
}

fn all_trigger_atoms(
    alloc: Global,
    bank: &Bank,
    count: usize,
    fs: &[FormulaId],
) -> Result<Vec<FormulaId>, AllocError>
    requires { HasFormulas bank.now fs.now }
    ensures has { IfOk result (λ v. HasFormulas bank.now v.items) }
    ensures are { IfOk result (λ v. formulas_at bank.now v.items ≡ filter (spec.is_trigger_atom count) (formulas_at bank.now fs.now)) }
{
    let mut kept = Vec::new(alloc);
    for f in fs {
        add_trigger_atom(bank, count, &mut kept, *f)?;
    }
    Ok(kept)
}

/// The atoms of a body that have its bound names as arguments. An error is want of memory.
pub(crate) fn atom_triggers(
    alloc: Global,
    bank: &Bank,
    count: usize,
    body: FormulaId,
) -> Result<Vec<FormulaId>, AllocError>
    requires { HasFormula bank.now body }
    ensures has { IfOk result (λ v. HasFormulas bank.now v.items) }
    ensures are { IfOk result (λ v. formulas_at bank.now v.items ≡ spec.atom_triggers count (formula_at bank.now body)) }
{
    let atoms = all_atoms(alloc, bank, &[body])?;
    all_trigger_atoms(alloc, bank, count, &atoms.list)
}
