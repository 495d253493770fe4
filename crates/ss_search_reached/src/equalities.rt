// Pairs of whole numbers of one class.

ghost use Rattle.std.specs.Prelude.{◌≡◌, ◌<◌, ◌∷◌, ◌++◌, ℕ, List, [], length, slice_index_or, slice_set, IfOk, OnOk};
ghost use Rattle.ss_core.specs.Tree.{ClassTree};
ghost use Rattle.ss_terms.specs.Forms.{formulas_at, HasFormulas, IsBankOf};
ghost use Rattle.ss_equality_rules.specs.Equal as words;
ghost use Rattle.ss_logic.specs.Occurring as spec;
ghost use Rattle.ss_linear.specs.Contradictions.{HasPairs};
ghost use Rattle.ss_search_reached.specs.Groups.{lists_in, AreGrouped, ArePaired, ArePairs, AreOfOneClass, AreWholePairs};

use crate::basics::whole_terms;
use ss_terms::{Bank, FormulaId, TermId};
use std::alloc::{AllocError, Global};

/// The class of a term.
pub(crate) fn class_number(classes: &[usize], t: TermId) -> usize
    ensures { result ≡ words.class_number classes.now t }
{
    classes.get(t.0).copied().unwrap_or(0)
}

// ---- groups

// Makes groups up to the one with this number.
fn make_room(alloc: Global, groups: &mut Vec<Vec<TermId>>, number: usize) -> Result<(), AllocError>
    ensures room { OnOk result (number < length groups.new.items) }
    ensures same { OnOk result ((k : ℕ) → slice_index_or (lists_in groups.new.items) k [] ≡ slice_index_or (lists_in groups.old.items) k []) }
{
    while groups.len() <= number {
        groups.push(Vec::new(alloc))?;
    }
    Ok(())
}

// One more term of the group with this number.
fn put(groups: &mut Vec<Vec<TermId>>, number: usize, t: TermId) -> Result<(), AllocError>
    requires { number < length groups.old.items }
    ensures { OnOk result (lists_in groups.new.items ≡ slice_set (lists_in groups.old.items) number (slice_index_or (lists_in groups.old.items) number [] ++ t ∷ [])) }
{
    groups[number].push(t)?;
    Ok(())
}

/// The terms in groups by their classes.
pub(crate) fn group(
    alloc: Global,
    classes: &[usize],
    ts: &[TermId],
) -> Result<Vec<Vec<TermId>>, AllocError>
    ensures { IfOk result (λ v. AreGrouped classes.now ts.now (lists_in v.items)) }
{
    let mut groups = Vec::new(alloc);
    for t in ts {
        let number = class_number(classes, *t);
        make_room(alloc, &mut groups, number)?;
        put(&mut groups, number, *t)?;
    }
    Ok(groups)
}

// ---- pairs

// Adds a pair of different terms.
fn pair(pairs: &mut Vec<(TermId, TermId)>, s: TermId, t: TermId) -> Result<(), AllocError>
    ensures { OnOk result (ArePaired (s ∷ []) (t ∷ []) pairs.old.items pairs.new.items) }
{
    if s.0 == t.0 {
        return Ok(());
    }
    pairs.push((s, t))?;
    Ok(())
}

// Adds the pairs of a term with others.
fn pair_with(pairs: &mut Vec<(TermId, TermId)>, s: TermId, ts: &[TermId]) -> Result<(), AllocError>
    ensures { OnOk result (ArePaired (s ∷ []) ts.now pairs.old.items pairs.new.items) }
{
    for t in ts {
        pair(pairs, s, *t)?;
    }
    Ok(())
}

// Adds the pairs of terms with each other.
fn pair_all(pairs: &mut Vec<(TermId, TermId)>, ts: &[TermId]) -> Result<(), AllocError>
    ensures { OnOk result (ArePaired ts.now ts.now pairs.old.items pairs.new.items) }
{
    for s in ts {
        pair_with(pairs, *s, ts)?;
    }
    Ok(())
}

// The pairs of different terms of one class.
fn pairs(
    alloc: Global,
    classes: &[usize],
    ts: &[TermId],
) -> Result<Vec<(TermId, TermId)>, AllocError>
    ensures { IfOk result (λ v. ArePairs classes.now ts.now v.items) }
{
    let groups = group(alloc, classes, ts)?;
    let mut pairs = Vec::new(alloc);
    for group in &groups {
        pair_all(&mut pairs, group)?;
    }
    Ok(pairs)
}

/// The pairs of different whole numbers of one class that occur in formulas. An error is want of memory.
pub fn whole_pairs(
    alloc: Global,
    bank: &Bank,
    classes: &[usize],
    fs: &[FormulaId],
) -> Result<Vec<(TermId, TermId)>, AllocError>
    requires { HasFormulas bank.now fs.now }
    ensures has { IfOk result (λ v. HasPairs bank.now v.items) }
    ensures pairs { (cs : List ClassTree) → IsBankOf cs bank.now → IfOk result (λ v. AreWholePairs cs bank.now classes.now (spec.terms (formulas_at bank.now fs.now)) v.items) }
    ensures one_class { IfOk result (λ v. AreOfOneClass classes.now v.items) }
{
    let terms = whole_terms(alloc, bank, fs)?;
    pairs(alloc, classes, &terms)
}
