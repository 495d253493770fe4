// Sums that terms are, kept where a term comes again.

ghost use Rattle.std.specs.Prelude.{◌≡◌, [], Some, true, IfOk, IfSome};
ghost use Rattle.ss_logic.specs.Sums.{linear};
ghost use Rattle.ss_terms.specs.Forms.{term_at};
ghost use Rattle.ss_linear_sums.specs.Linear.{sum_at, HasParts};
ghost use Rattle.ss_linear_sums.specs.Table.{IsKept, AreKept};

use crate::forms::{LinearSum, copied};
use indexmap::IndexMap;
use ss_terms::{Bank, TermId};
use std::alloc::{AllocError, Global};

/// A term, and the sum that it is.
#[derive(Drop)]
pub struct KeptSum {
    pub term: TermId,
    pub sum: LinearSum,
}

/// The sums of terms that came twice, and the terms that came once. So a term that stands in many others is read twice at most.
#[derive(Drop)]
pub struct SumTable {
    pub places: IndexMap<TermId, usize>,
    pub kept: Vec<KeptSum>,
}

impl SumTable {
    /// A table without a term.
    pub fn new(alloc: Global) -> Self
        ensures { result.kept.items ≡ [] }
    {
        SumTable {
            places: IndexMap::new(alloc),
            kept: Vec::new(alloc),
        }
    }
}

/// The place that a term has.
fn place_of(table: &SumTable, t: TermId) -> Option<usize> {
    let place = table.places.get(&t)?;
    Some(*place)
}

/// Whether the sum is that of the term.
fn is_of(kept: &KeptSum, t: TermId) -> bool
    ensures { result ≡ true → kept.now.term ≡ t }
{
    kept.term == t
}

/// The sum that is kept, where it is that of the term.
#[tactic(auto, using(crate::proofs::Summing::copied_kept))]
fn copied_where(
    alloc: Global,
    bank: &Bank,
    kept: &KeptSum,
    t: TermId,
) -> Result<Option<LinearSum>, AllocError>
    requires { IsKept bank.now kept.now }
    ensures { IfOk result (λ o. IfSome o (λ s. HasParts bank.now s.parts.items × (linear (term_at bank.now t) ≡ Some (sum_at bank.now s)))) }
{
    let _ = bank;
    if is_of(kept, t) {
        let sum = copied(alloc, &kept.sum)?;
        Ok(Some(sum))
    } else {
        Ok(None)
    }
}

/// The sum at a place, where it is that of the term.
fn sum_at_place(
    alloc: Global,
    bank: &Bank,
    kept: &[KeptSum],
    place: usize,
    t: TermId,
) -> Result<Option<LinearSum>, AllocError>
    requires { AreKept bank.now kept.now }
    ensures { IfOk result (λ o. IfSome o (λ s. HasParts bank.now s.parts.items × (linear (term_at bank.now t) ≡ Some (sum_at bank.now s)))) }
{
    match kept.get(place) {
        Some(found) => copied_where(alloc, bank, found, t),
        None => Ok(None),
    }
}

/// The sum of a term, where it is kept.
pub(crate) fn find(
    alloc: Global,
    bank: &Bank,
    table: &SumTable,
    t: TermId,
) -> Result<Option<LinearSum>, AllocError>
    requires { AreKept bank.now table.now.kept.items }
    ensures { IfOk result (λ o. IfSome o (λ s. HasParts bank.now s.parts.items × (linear (term_at bank.now t) ≡ Some (sum_at bank.now s)))) }
{
    match place_of(table, t) {
        Some(place) => sum_at_place(alloc, bank, &table.kept, place, t),
        None => Ok(None),
    }
}

/// Notes that a term came.
fn note(table: &mut SumTable, t: TermId, place: usize) -> Result<(), AllocError>
    ensures { IfOk result (λ _. table.new.kept.items ≡ table.old.kept.items) }
{
    table.places.insert(t, place)?;
    Ok(())
}

/// Keeps a sum.
fn push(bank: &Bank, table: &mut SumTable, t: TermId, sum: LinearSum) -> Result<(), AllocError>
    requires kept { AreKept bank.now table.old.kept.items }
    requires parts { HasParts bank.now sum.parts.items }
    requires sum { linear (term_at bank.now t) ≡ Some (sum_at bank.now sum) }
    ensures { IfOk result (λ _. AreKept bank.now table.new.kept.items) }
{
    let _ = bank;
    table.kept.push(KeptSum { term: t, sum })?;
    Ok(())
}

/// Keeps the sum of a term that came before, and notes one that is new.
pub(crate) fn keep(
    alloc: Global,
    bank: &Bank,
    table: &mut SumTable,
    t: TermId,
    sum: &LinearSum,
) -> Result<(), AllocError>
    requires kept { AreKept bank.now table.old.kept.items }
    requires parts { HasParts bank.now sum.now.parts.items }
    requires sum { linear (term_at bank.now t) ≡ Some (sum_at bank.now sum.now) }
    ensures { IfOk result (λ _. AreKept bank.now table.new.kept.items) }
{
    let place = table.kept.len();
    if place_of(table, t).is_none() {
        return note(table, t, usize::MAX);
    }
    note(table, t, place)?;
    let sum = copied(alloc, sum)?;
    push(bank, table, t, sum)
}
