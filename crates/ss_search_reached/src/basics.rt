// The known literals and quantified formulas, and their terms that are whole numbers.

ghost use Rattle.std.specs.Prelude.{◌≡◌, List, filter, IfOk};
ghost use Rattle.ss_core.specs.Tree.{ClassTree};
ghost use Rattle.ss_logic.specs.declared.Sort.TheVariants as sorts;
ghost use Rattle.ss_logic.specs.Terms.{same_sort};
ghost use Rattle.ss_logic.specs.Occurring as spec;
ghost use Rattle.ss_logic_countermodels.specs.Refuting as words;
ghost use Rattle.ss_terms.specs.Forms.{formula_at, formulas_at, term_at, terms_at, HasFormula, HasFormulas, HasTerm, HasTerms, IsBankOf};
ghost use Rattle.ss_rules_occurring.specs.Found.{HoldsTerms};
ghost use Rattle.ss_search_procedure_rules.specs.Closed as closed;

use ss_logic::Sort;
use ss_rules_occurring::{TermList, atoms, terms};
use ss_terms::{Bank, Formula, FormulaId, TermId};
use std::alloc::{AllocError, Global};

/// Whether a formula is a literal or quantified.
pub fn is_basic(bank: &Bank, f: FormulaId) -> bool
    requires { HasFormula bank.now f }
    ensures { result ≡ closed.is_basic (formula_at bank.now f) }
{
    match bank.formula_node(f) {
        Formula::Literal { .. } => true,
        Formula::And(_) => false,
        Formula::Or(_) => false,
        Formula::Forall(_, _) => true,
        Formula::Exists(_, _) => true,
    }
}

fn is_whole_sort(sort: Sort) -> bool
    ensures { result ≡ same_sort sort sorts.Whole }
{
    match sort {
        Sort::Whole => true,
        _ => false,
    }
}

fn is_whole(bank: &Bank, t: TermId) -> bool
    requires { HasTerm bank.now t }
    ensures { (cs : List ClassTree) → IsBankOf cs bank.now → result ≡ words.is_whole cs (term_at bank.now t) }
{
    is_whole_sort(bank.sort(t))
}

// The whole numbers among terms.
fn whole(alloc: Global, bank: &Bank, ts: &[TermId]) -> Result<Vec<TermId>, AllocError>
    requires { HasTerms bank.now ts.now }
    ensures has { IfOk result (λ v. HasTerms bank.now v.items) }
    ensures whole { (cs : List ClassTree) → IsBankOf cs bank.now → IfOk result (λ v. terms_at bank.now v.items ≡ filter (words.is_whole cs) (terms_at bank.now ts.now)) }
{
    let mut whole = Vec::new(alloc);
    for t in ts {
        if is_whole(bank, *t) {
            whole.push(*t)?;
        }
    }
    Ok(whole)
}

/// The terms of formulas, outside quantified formulas.
pub(crate) fn all_terms(
    alloc: Global,
    bank: &Bank,
    fs: &[FormulaId],
) -> Result<TermList, AllocError>
    requires { HasFormulas bank.now fs.now }
    ensures { IfOk result (λ found. HoldsTerms bank.now found (spec.terms (formulas_at bank.now fs.now))) }
{
    let atoms = atoms(alloc, bank, fs)?;
    terms(alloc, bank, &atoms.list)
}

/// Those of them that are whole numbers.
pub(crate) fn whole_terms(
    alloc: Global,
    bank: &Bank,
    fs: &[FormulaId],
) -> Result<Vec<TermId>, AllocError>
    requires { HasFormulas bank.now fs.now }
    ensures has { IfOk result (λ v. HasTerms bank.now v.items) }
    ensures whole { (cs : List ClassTree) → IsBankOf cs bank.now → IfOk result (λ v. terms_at bank.now v.items ≡ filter (words.is_whole cs) (spec.terms (formulas_at bank.now fs.now))) }
{
    let terms = all_terms(alloc, bank, fs)?;
    whole(alloc, bank, &terms.list)
}
