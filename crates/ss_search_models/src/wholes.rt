// The terms that are whole numbers, with their classes.

ghost use Rattle.std.specs.Prelude.{◌≡◌, List, [], ◌∷◌, ◌++◌, filter, IfOk, OnOk};
ghost use Rattle.ss_core.specs.Tree.{ClassTree};
ghost use Rattle.ss_logic.specs.declared.Sort.TheVariants as sorts;
ghost use Rattle.ss_logic.specs.Terms.{same_sort};
ghost use Rattle.ss_logic_countermodels.specs.Refuting as spec;
ghost use Rattle.ss_terms.specs.Forms.{term_at, HasTerm, IsBankOf};
ghost use Rattle.ss_rules_occurring.specs.Found.{terms_of};
ghost use Rattle.ss_search_models.specs.Candidates.{HasCandidate};
ghost use Rattle.ss_search_models.specs.Wholes.{wholes_at, AreClassed};

use crate::candidate::Candidate;
use ss_logic::Sort;
use ss_terms::{Bank, TermId};
use std::alloc::{AllocError, Global};

/// A term that is a whole number, and its class.
#[derive(Clone, Copy)]
pub(crate) struct Whole {
    pub(crate) term: TermId,
    pub(crate) class: usize,
}

fn is_whole_sort(sort: Sort) -> bool
    ensures { result ≡ same_sort sort sorts.Whole }
{
    match sort {
        Sort::Whole => true,
        _ => false,
    }
}

// Whether a term is a whole number.
fn is_whole(bank: &Bank, t: TermId) -> bool
    requires { HasTerm bank.now t }
    ensures { (cs : List ClassTree) → IsBankOf cs bank.now → result ≡ spec.is_whole cs (term_at bank.now t) }
{
    is_whole_sort(bank.sort(t))
}

// Adds a term, where it is a whole number.
fn add_whole(
    bank: &Bank,
    candidate: &Candidate<'_>,
    found: &mut Vec<Whole>,
    t: TermId,
) -> Result<(), AllocError>
    requires candidate { HasCandidate bank.now candidate.now }
    requires term { HasTerm bank.now t }
    requires found { AreClassed bank.now candidate.now found.old.items }
    ensures classed { OnOk result (AreClassed bank.now candidate.now found.new.items) }
    ensures terms { (cs : List ClassTree) → IsBankOf cs bank.now → OnOk result (wholes_at bank.now found.new.items ≡ wholes_at bank.now found.old.items ++ filter (spec.is_whole cs) (term_at bank.now t ∷ [])) }
{
    if !is_whole(bank, t) {
        return Ok(());
    }
    found.push(Whole {
        term: t,
        class: candidate.class(bank, t),
    })?;
    Ok(())
}

/// The terms of the candidate that are whole numbers. An error is want of memory.
pub(crate) fn whole_terms(
    alloc: Global,
    bank: &Bank,
    candidate: &Candidate<'_>,
) -> Result<Vec<Whole>, AllocError>
    requires { HasCandidate bank.now candidate.now }
    ensures classed { IfOk result (λ v. AreClassed bank.now candidate.now v.items) }
    ensures terms { (cs : List ClassTree) → IsBankOf cs bank.now → IfOk result (λ v. wholes_at bank.now v.items ≡ filter (spec.is_whole cs) (terms_of bank.now candidate.now.terms.now)) }
{
    let mut found = Vec::new(alloc);
    for t in &candidate.terms.list {
        add_whole(bank, candidate, &mut found, *t)?;
    }
    Ok(found)
}
