// Weighted sums of facts that are read.

ghost use Rattle.std.specs.Prelude.{pos, List, Option, option_and_then, IfOk, IfSome};
ghost use Rattle.ss_core.specs.Tree.{ClassTree};
ghost use Rattle.ss_logic.specs.Formulas.{Formula};
ghost use Rattle.ss_logic.specs.Sums as sums;
ghost use Rattle.ss_linear_sums.specs.Linear.{sum_at, HasParts, IsSumOf, IsFactOf, Became};
ghost use Rattle.ss_linear_sums.specs.Weighted.{with_known};
ghost use Rattle.ss_linear.specs.Contradictions.{HaveParts};
ghost use Rattle.ss_linear.specs.Results.{AreFacts};

use crate::facts::wide;
use ss_linear_sums::{LinearSum, SumFact, add_weighted};
use ss_terms::Bank;
use std::alloc::{AllocError, Global};

// Adds a fact with its weight to a sum. No where it can't.
fn add_read(
    bank: &Bank,
    sum: &mut LinearSum,
    fact: &Option<SumFact>,
    weight: i128,
) -> Result<bool, AllocError>
    requires fact { IfSome fact.now (λ f. HasParts bank.now f.sum.parts.items) }
    requires sum { HasParts bank.now sum.old.parts.items }
    ensures has { IfOk result (λ _. HasParts bank.now sum.new.parts.items) }
    ensures added { (o : Option sums.SumFact) → IsFactOf bank.now fact.now o → IfOk result (λ yes. Became yes (option_and_then (sums.add_weighted weight (sum_at bank.now sum.old)) o) (sum_at bank.now sum.new)) }
{
    match fact {
        Some(fact) => add_weighted(bank, sum, weight, fact),
        None => Ok(false),
    }
}

// Adds the fact at a place with its weight to a sum. No where it can't.
fn add_fact(
    bank: &Bank,
    sum: &mut LinearSum,
    facts: &[Option<SumFact>],
    place: usize,
    weight: i128,
) -> Result<bool, AllocError>
    requires facts { HaveParts bank.now facts.now }
    requires sum { HasParts bank.now sum.old.parts.items }
    ensures has { IfOk result (λ _. HasParts bank.now sum.new.parts.items) }
    ensures added { (cs : List ClassTree) (known : List Formula) → AreFacts cs bank.now known facts.now → IfOk result (λ yes. Became yes (with_known cs known (sum_at bank.now sum.old) place weight) (sum_at bank.now sum.new)) }
{
    if place < facts.len() {
        add_read(bank, sum, &facts[place], weight)
    } else {
        Ok(false)
    }
}

/// The weighted sum of facts, where there is one.
pub(crate) fn weighted(
    alloc: Global,
    bank: &Bank,
    facts: &[Option<SumFact>],
    parts: &[(usize, i64)],
) -> Result<Option<LinearSum>, AllocError>
    requires { HaveParts bank.now facts.now }
    ensures has { IfOk result (λ o. IfSome o (λ s. HasParts bank.now s.parts.items)) }
    ensures sum { (cs : List ClassTree) (known : List Formula) → AreFacts cs bank.now known facts.now → IfOk result (λ o. IsSumOf bank.now o (sums.weighted cs known (sums.number_sum (pos 0)) parts.now)) }
{
    let mut sum = LinearSum {
        parts: Vec::new(alloc),
        constant: 0,
    };
    for part in parts {
        match add_fact(bank, &mut sum, facts, part.0, wide(part.1)) {
            Ok(true) => {}
            Ok(false) => return Ok(None),
            Err(e) => return Err(e),
        }
    }
    Ok(Some(sum))
}
