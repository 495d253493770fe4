// A contradiction of known facts.

ghost use Rattle.std.specs.Prelude.{◌≡◌, ℕ, pos, List, [], ◌∷◌, ◌++◌, IfOk, IfSome, IfNone};
ghost use Rattle.ss_core.specs.Tree.{ClassTree};
ghost use Rattle.ss_logic.specs.Formulas.{Formula};
ghost use Rattle.ss_terms.specs.Forms.{HasFormulas, formulas_at, IsBankOf};
ghost use Rattle.ss_linear_rules.specs.Two.{Two, Refute};
ghost use Rattle.ss_linear.specs.Contradictions.{sums_of, equalities_at, HasPairs, HaveParts, IsClear};
ghost use Rattle.ss_linear_network.specs.Made.{AreNodesOf, numbers_at};
ghost use Rattle.ss_linear.specs.Results.{AreFacts};

use crate::differences::of_differences;
use crate::facts::{read_all, read_formulas};
use crate::few::of_few;
use crate::many::of_many;
use ss_deriv::Sum;
use ss_linear_network::{Numbers, Solved};
use ss_linear_sums::SumFact;
use ss_terms::{Bank, FormulaId, TermId};
use std::alloc::{AllocError, Global};

// The one sum with these weights.
fn alone(alloc: Global, parts: Vec<(usize, i64)>) -> Result<Vec<Sum>, AllocError>
    ensures { IfOk result (λ v. sums_of v.items ≡ (pos 1, parts.items) ∷ []) }
{
    let mut sums = Vec::new(alloc);
    sums.push(Sum { parts, divisor: 1 })?;
    Ok(sums)
}

// One or two facts of what is read, with weights with which they are a contradiction. None only where there are no such but of facts that
// these numbers meet.
fn few(
    alloc: Global,
    bank: &Bank,
    facts: &[Option<SumFact>],
    numbers: &Numbers,
) -> Result<Option<Vec<Sum>>, AllocError>
    requires facts { HaveParts bank.now facts.now }
    requires nodes { AreNodesOf bank.now numbers.now.nodes }
    ensures some { (cs : List ClassTree) (known : List Formula) → AreFacts cs bank.now known facts.now → IfOk result (λ o. IfSome o (λ sums. Refute cs known (sums_of sums.items))) }
    ensures none { (cs : List ClassTree) (known : List Formula) → AreFacts cs bank.now known facts.now → IfOk result (λ o. IfNone o ((i : ℕ) → IsClear cs known (numbers_at bank.now numbers.now) i)) }
{
    let found = of_few(alloc, bank, facts, numbers)?;
    match found {
        Some(parts) => Ok(Some(alone(alloc, parts)?)),
        None => Ok(None),
    }
}

// One or two facts of what is read, or differences among them, and weights with which they are a contradiction.
fn two(
    alloc: Global,
    bank: &Bank,
    facts: &[Option<SumFact>],
) -> Result<Option<Vec<Sum>>, AllocError>
    requires { HaveParts bank.now facts.now }
    ensures some { (cs : List ClassTree) (known : List Formula) → AreFacts cs bank.now known facts.now → IfOk result (λ o. IfSome o (λ sums. Refute cs known (sums_of sums.items))) }
    ensures none { (cs : List ClassTree) (known : List Formula) → AreFacts cs bank.now known facts.now → IfOk result (λ o. IfNone o (Two cs known → ⊥)) }
{
    let found = of_differences(alloc, bank, facts)?;
    match found {
        Solved::Contradicted(parts) => Ok(Some(alone(alloc, parts)?)),
        Solved::Met(numbers) => few(alloc, bank, facts, &numbers),
    }
}

// Weighted sums of what is read that end in a contradiction. None only where no sum of one or two facts and none of differences is one.
fn contradiction(
    alloc: Global,
    bank: &Bank,
    facts: &mut Vec<Option<SumFact>>,
) -> Result<Option<Vec<Sum>>, AllocError>
    requires { HaveParts bank.now facts.old.items }
    ensures some { (cs : List ClassTree) (known : List Formula) → AreFacts cs bank.now known facts.old.items → IfOk result (λ o. IfSome o (λ sums. Refute cs known (sums_of sums.items))) }
    ensures none { (cs : List ClassTree) (known : List Formula) → AreFacts cs bank.now known facts.old.items → IfOk result (λ o. IfNone o (Two cs known → ⊥)) }
{
    let read = facts.as_slice();
    let found = two(alloc, bank, read)?;
    match found {
        Some(sums) => Ok(Some(sums)),
        None => of_many(alloc, bank, facts),
    }
}

/// Weighted sums of known facts that end in a contradiction; a place past the facts is that of an earlier sum's result. None only where
/// no sum of one or two facts and none of differences is a contradiction. An error is want of memory.
pub fn refute(
    alloc: Global,
    bank: &Bank,
    facts: &[FormulaId],
) -> Result<Option<Vec<Sum>>, AllocError>
    requires { HasFormulas bank.now facts.now }
    ensures some { (cs : List ClassTree) → IsBankOf cs bank.now → IfOk result (λ o. IfSome o (λ sums. Refute cs (formulas_at bank.now facts.now) (sums_of sums.items))) }
    ensures none { (cs : List ClassTree) → IsBankOf cs bank.now → IfOk result (λ o. IfNone o (Two cs (formulas_at bank.now facts.now) → ⊥)) }
{
    let mut read = read_formulas(alloc, bank, facts)?;
    contradiction(alloc, bank, &mut read)
}

/// The same over known facts and after them equalities of two terms, which the bank needn't have as formulas. No other sums are looked for
/// than those of one or two facts and of differences.
pub fn refute_with(
    alloc: Global,
    bank: &Bank,
    facts: &[FormulaId],
    equalities: &[(TermId, TermId)],
) -> Result<Option<Vec<Sum>>, AllocError>
    requires facts { HasFormulas bank.now facts.now }
    requires terms { HasPairs bank.now equalities.now }
    ensures some { (cs : List ClassTree) → IsBankOf cs bank.now → IfOk result (λ o. IfSome o (λ sums. Refute cs (formulas_at bank.now facts.now ++ equalities_at bank.now equalities.now) (sums_of sums.items))) }
    ensures none { (cs : List ClassTree) → IsBankOf cs bank.now → IfOk result (λ o. IfNone o (Two cs (formulas_at bank.now facts.now ++ equalities_at bank.now equalities.now) → ⊥)) }
{
    let read = read_all(alloc, bank, facts, equalities)?;
    two(alloc, bank, &read)
}
