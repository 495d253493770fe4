// Constants that don't occur.

ghost use Rattle.std.specs.Prelude.{◌≡◌, [], ◌∷◌, ◌++◌, length, IfOk, OnOk};
ghost use Rattle.std.specs.List.{list_any};
ghost use Rattle.ss_logic.specs.Terms as tree;
ghost use Rattle.ss_logic.specs.Opened as spec;
ghost use Rattle.ss_terms.specs.Forms.{term_at, terms_at, HasTerm, HasTerms, IsGrown};

use ss_logic::Sort;
use ss_terms::{Bank, Symbol, Term, TermId};
use std::alloc::{AllocError, Global};

fn is_same_sort(r: Sort, s: Sort) -> bool
    ensures { result ≡ tree.same_sort r s }
{
    match r {
        Sort::Store => match s {
            Sort::Store => true,
            _ => false,
        },
        Sort::Whole => match s {
            Sort::Whole => true,
            _ => false,
        },
        Sort::Truth => match s {
            Sort::Truth => true,
            _ => false,
        },
        Sort::Rest => match s {
            Sort::Rest => true,
            _ => false,
        },
    }
}

// Whether the term is the constant of this sort with this number.
fn is_numbered(bank: &Bank, sort: Sort, k: usize, t: TermId) -> bool
    requires { HasTerm bank.now t }
    ensures { result ≡ spec.is_numbered sort k (term_at bank.now t) }
{
    match bank.term_node(t) {
        Term::App(Symbol::Constant(r, j), _) => is_same_sort(*r, sort) && *j == k,
        _ => false,
    }
}

// Whether one of the terms is.
fn is_taken(bank: &Bank, sort: Sort, k: usize, ts: &[TermId]) -> bool
    requires { HasTerms bank.now ts.now }
    ensures { result ≡ list_any (spec.is_numbered sort k) (terms_at bank.now ts.now) }
{
    for t in ts {
        if is_numbered(bank, sort, k, *t) {
            return true;
        }
    }
    false
}

// The least number that no constant of the sort among the terms has.
fn least(bank: &Bank, sort: Sort, ts: &[TermId]) -> usize
    requires { HasTerms bank.now ts.now }
    ensures { result ≡ spec.least_from (length (terms_at bank.now ts.now)) 0 sort (terms_at bank.now ts.now) }
{
    for k in 0..ts.len() {
        if !is_taken(bank, sort, k, ts) {
            return k;
        }
    }
    ts.len()
}

// A constant of the sort that is not among the terms.
fn fresh_constant(bank: &mut Bank, sort: Sort, ts: &[TermId]) -> Result<TermId, AllocError>
    requires { HasTerms bank.old ts.now }
    ensures at { IfOk result (λ t. HasTerm bank.new t × (term_at bank.new t ≡ spec.fresh_constant sort (terms_at bank.old ts.now))) }
    ensures grown { IsGrown bank.old bank.new }
{
    let k = least(bank, sort, ts);
    bank.apply(Symbol::Constant(sort, k), &[])
}

/// The terms of two lists. An error is want of memory.
pub(crate) fn joined(
    alloc: Global,
    first: &[TermId],
    second: &[TermId],
) -> Result<Vec<TermId>, AllocError>
    ensures { IfOk result (λ v. v.items ≡ first.now ++ second.now) }
{
    let mut all = Vec::from_slice(alloc, first)?;
    all.extend_from_slice(second)?;
    Ok(all)
}

// Adds a term in front.
fn add_in_front(alloc: Global, ts: &mut Vec<TermId>, t: TermId) -> Result<(), AllocError>
    ensures { OnOk result (ts.new.items ≡ t ∷ ts.old.items) }
{
    *ts = joined(alloc, &[t], ts)?;
    Ok(())
}

// Makes one more constant.
fn add_fresh(
    alloc: Global,
    bank: &mut Bank,
    sort: Sort,
    taken: &mut Vec<TermId>,
    made: &mut Vec<TermId>,
) -> Result<(), AllocError>
    requires taken { HasTerms bank.old taken.old.items }
    requires made { HasTerms bank.old made.old.items }
    ensures has_taken { OnOk result (HasTerms bank.new taken.new.items) }
    ensures taken { OnOk result (terms_at bank.new taken.new.items ≡ spec.fresh_constant sort (terms_at bank.old taken.old.items) ∷ terms_at bank.old taken.old.items) }
    ensures has_made { OnOk result (HasTerms bank.new made.new.items) }
    ensures made { OnOk result (terms_at bank.new made.new.items ≡ terms_at bank.old made.old.items ++ spec.fresh_constant sort (terms_at bank.old taken.old.items) ∷ []) }
    ensures grown { IsGrown bank.old bank.new }
{
    let t = fresh_constant(bank, sort, taken)?;
    add_in_front(alloc, taken, t)?;
    made.push(t)?;
    Ok(())
}

/// A new constant for each sort, which differ from one another and are not among the terms. An error is want of memory.
pub(crate) fn fresh_constants(
    alloc: Global,
    bank: &mut Bank,
    sorts: &[Sort],
    used: &[TermId],
) -> Result<Vec<TermId>, AllocError>
    requires { HasTerms bank.old used.now }
    ensures has { IfOk result (λ v. HasTerms bank.new v.items) }
    ensures are { IfOk result (λ v. terms_at bank.new v.items ≡ spec.fresh_constants sorts.now (terms_at bank.old used.now)) }
    ensures grown { IsGrown bank.old bank.new }
{
    let mut taken = Vec::from_slice(alloc, used)?;
    let mut made = Vec::new(alloc);
    for sort in sorts {
        add_fresh(alloc, bank, *sort, &mut taken, &mut made)?;
    }
    Ok(made)
}
