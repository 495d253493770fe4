// Whole numbers of one class in a chain: each with the next one.

ghost use Rattle.std.specs.Prelude.{◌≡◌, ◌+◌, ◌<◌, ◌++◌, List, length, drop, IfOk, OnOk};
ghost use Rattle.ss_core.specs.Tree.{ClassTree};
ghost use Rattle.ss_terms.specs.Forms.{formulas_at, HasFormulas, IsBankOf};
ghost use Rattle.ss_logic.specs.Occurring as spec;
ghost use Rattle.ss_linear.specs.Contradictions.{HasPairs};
ghost use Rattle.ss_search_reached.specs.Groups.{neighbours, AreChained, AreOfOneClass, AreWholeLinks};

use crate::basics::whole_terms;
use crate::equalities::group;
use ss_terms::{Bank, FormulaId, TermId};
use std::alloc::{AllocError, Global};

// Adds a term with the next one, where there is one.
fn add_next(pairs: &mut Vec<(TermId, TermId)>, ts: &[TermId], i: usize) -> Result<(), AllocError>
    requires { i < length ts.now }
    ensures { OnOk result (pairs.new.items ++ neighbours (drop (i + 1) ts.now) ≡ pairs.old.items ++ neighbours (drop i ts.now)) }
{
    let next = i + 1;
    if next < ts.len() {
        pairs.push((ts[i], ts[next]))?;
    }
    Ok(())
}

// Adds each term with the next one.
fn add_neighbours(pairs: &mut Vec<(TermId, TermId)>, ts: &[TermId]) -> Result<(), AllocError>
    ensures { OnOk result (pairs.new.items ≡ pairs.old.items ++ neighbours ts.now) }
{
    for i in 0..ts.len() {
        add_next(pairs, ts, i)?;
    }
    Ok(())
}

// The neighbours in the groups of terms by their classes.
fn chain(
    alloc: Global,
    classes: &[usize],
    ts: &[TermId],
) -> Result<Vec<(TermId, TermId)>, AllocError>
    ensures { IfOk result (λ v. AreChained classes.now ts.now v.items) }
{
    let groups = group(alloc, classes, ts)?;
    let mut pairs = Vec::new(alloc);
    for group in &groups {
        add_neighbours(&mut pairs, group)?;
    }
    Ok(pairs)
}

/// Pairs of whole numbers of one class that occur in formulas. Where their equalities are so at some numbers, those of each two of one class
/// are. An error is want of memory.
pub fn whole_links(
    alloc: Global,
    bank: &Bank,
    classes: &[usize],
    fs: &[FormulaId],
) -> Result<Vec<(TermId, TermId)>, AllocError>
    requires { HasFormulas bank.now fs.now }
    ensures has { IfOk result (λ v. HasPairs bank.now v.items) }
    ensures links { (cs : List ClassTree) → IsBankOf cs bank.now → IfOk result (λ v. AreWholeLinks cs bank.now classes.now (spec.terms (formulas_at bank.now fs.now)) v.items) }
    ensures one_class { IfOk result (λ v. AreOfOneClass classes.now v.items) }
{
    let terms = whole_terms(alloc, bank, fs)?;
    chain(alloc, classes, &terms)
}
