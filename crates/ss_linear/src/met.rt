// Whether all known facts are so at numbers that their differences have.

ghost use Rattle.std.specs.Prelude.{◌≡◌, ℕ, ◌<◌, ◌≤◌, List, length, true, false, Option, IfOk, IfSome};
ghost use Rattle.ss_core.specs.Tree.{ClassTree};
ghost use Rattle.ss_logic.specs.Formulas.{Formula};
ghost use Rattle.ss_logic.specs.Sums as sums;
ghost use Rattle.ss_terms.specs.Forms.{HasFormulas, formulas_at, IsBankOf};
ghost use Rattle.ss_linear_sums.specs.Linear.{HasParts, IsFactOf};
ghost use Rattle.ss_linear_rules.specs.Two as two;
ghost use Rattle.ss_linear_network.specs.Made.{AreNodesOf, numbers_at};
ghost use Rattle.ss_linear.specs.Contradictions.{equalities_at, HasPairs, HaveParts};
ghost use Rattle.ss_linear.specs.Met.{Meets, MeetsSome, IsSeen, AreMet};
ghost use Rattle.ss_linear.specs.Results.{AreFacts};

use crate::differences::of_differences;
use crate::facts::read_all;
use crate::meeting::is_met;
use ss_linear_network::{Numbers, Solved};
use ss_linear_sums::SumFact;
use ss_terms::{Bank, FormulaId, TermId};
use std::alloc::{AllocError, Global};

// Whether a place stands before another.
fn is_before(k: usize, n: usize) -> bool
    ensures { n ≤ k → result ≡ false }
{
    k < n
}

// Whether what is read is seen to be so at these numbers. What says nothing of a sum is so only where it may.
fn is_seen(bank: &Bank, numbers: &Numbers, read: &Option<SumFact>, may_be_none: bool) -> bool
    requires nodes { AreNodesOf bank.now numbers.now.nodes }
    requires parts { IfSome read.now (λ f. HasParts bank.now f.sum.parts.items) }
    ensures { (o : Option sums.SumFact) → IsFactOf bank.now read.now o → result ≡ true → IsSeen may_be_none (numbers_at bank.now numbers.now) o }
{
    match read {
        Some(fact) => is_met(bank, numbers, fact),
        None => may_be_none,
    }
}

// The same of each fact. Those from a place on say something of a sum.
fn all_seen(bank: &Bank, numbers: &Numbers, facts: &[Option<SumFact>], from: usize) -> bool
    requires nodes { AreNodesOf bank.now numbers.now.nodes }
    requires parts { HaveParts bank.now facts.now }
    ensures met { (cs : List ClassTree) (known : List Formula) → AreFacts cs bank.now known facts.now → result ≡ true → (k : ℕ) → k < length facts.now → Meets (numbers_at bank.now numbers.now) (two.fact_at cs known k) }
    ensures said { (cs : List ClassTree) (known : List Formula) → AreFacts cs bank.now known facts.now → result ≡ true → (k : ℕ) → k < length facts.now → from ≤ k → MeetsSome (numbers_at bank.now numbers.now) (two.fact_at cs known k) }
{
    for (k, fact) in facts.iter().enumerate() {
        let may_be_none = is_before(k, from);
        if !is_seen(bank, numbers, fact, may_be_none) {
            return false;
        }
    }
    true
}

/// Whether some numbers are seen at which the facts and the equalities are so, and each equality says something of a sum. An error is want
/// of memory.
pub fn are_met(
    alloc: Global,
    bank: &Bank,
    facts: &[FormulaId],
    equalities: &[(TermId, TermId)],
) -> Result<bool, AllocError>
    requires facts { HasFormulas bank.now facts.now }
    requires terms { HasPairs bank.now equalities.now }
    ensures { (cs : List ClassTree) → IsBankOf cs bank.now → IfOk result (λ r. r ≡ true → AreMet cs (formulas_at bank.now facts.now) (equalities_at bank.now equalities.now)) }
{
    let read = read_all(alloc, bank, facts, equalities)?;
    let list = read.as_slice();
    let solved = of_differences(alloc, bank, list)?;
    match solved {
        Solved::Met(numbers) => Ok(all_seen(bank, &numbers, list, facts.len())),
        Solved::Contradicted(_) => Ok(false),
    }
}
