// Good stores, and arrays of which a length is read.

ghost use Rattle.std.specs.Prelude.{◌++◌, filter_map, option_map, option_to_list, IfOk, IfSome, OnOk};
ghost use Rattle.ss_logic.specs.Asked as spec;
ghost use Rattle.ss_terms.specs.Forms.{term_at, terms_at, formulas_at, HasTerm, HasTerms, HasFormulas};
ghost use Rattle.ss_rules_asked.specs.Readings.{AreTerms};

use ss_rules_asked::{good_of, length_of};
use ss_terms::{Bank, FormulaId, TermId};
use std::alloc::{AllocError, Global};

// Adds a term, if there is one.
#[tactic(auto, using(crate::proofs::Gathering::term_kept))]
fn add_term(bank: &Bank, terms: &mut Vec<TermId>, term: Option<TermId>) -> Result<(), AllocError>
    requires terms { HasTerms bank.now terms.old.items }
    requires term { IfSome term (HasTerm bank.now) }
    ensures { OnOk result (AreTerms bank.now terms.new.items (terms_at bank.now terms.old.items ++ option_to_list (option_map (term_at bank.now) term))) }
{
    let _ = bank;
    match term {
        Some(t) => {
            terms.push(t)?;
            Ok(())
        }
        None => Ok(()),
    }
}

/// The stores of which atoms say that they are good. An error is want of memory.
pub(crate) fn good_stores(
    alloc: Global,
    bank: &Bank,
    atoms: &[FormulaId],
) -> Result<Vec<TermId>, AllocError>
    requires { HasFormulas bank.now atoms.now }
    ensures { IfOk result (λ v. AreTerms bank.now v.items (filter_map spec.good_of (formulas_at bank.now atoms.now))) }
{
    let mut stores = Vec::new(alloc);
    for f in atoms {
        let store = good_of(bank, *f);
        add_term(bank, &mut stores, store)?;
    }
    Ok(stores)
}

/// The arrays whose lengths are among terms. An error is want of memory.
pub(crate) fn arrays(
    alloc: Global,
    bank: &Bank,
    terms: &[TermId],
) -> Result<Vec<TermId>, AllocError>
    requires { HasTerms bank.now terms.now }
    ensures { IfOk result (λ v. AreTerms bank.now v.items (filter_map spec.length_of (terms_at bank.now terms.now))) }
{
    let mut arrays = Vec::new(alloc);
    for t in terms {
        let array = length_of(bank, *t);
        add_term(bank, &mut arrays, array)?;
    }
    Ok(arrays)
}
