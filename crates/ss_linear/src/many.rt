// Contradictions of many facts.

ghost use Rattle.std.specs.Prelude.{List, IfOk, IfSome};
ghost use Rattle.ss_core.specs.Tree.{ClassTree};
ghost use Rattle.ss_logic.specs.Formulas.{Formula};
ghost use Rattle.ss_linear_rules.specs.Two.{Refute};
ghost use Rattle.ss_linear.specs.Contradictions.{HaveParts, sums_of};
ghost use Rattle.ss_linear.specs.Results.{AreFacts};

use crate::elimination::eliminated;
use crate::steps::is_end;
use ss_deriv::Sum;
use ss_linear_sums::SumFact;
use ss_terms::Bank;
use std::alloc::{AllocError, Global};

/// Sums that end in a contradiction, where elimination finds some.
pub(crate) fn of_many(
    alloc: Global,
    bank: &Bank,
    facts: &mut Vec<Option<SumFact>>,
) -> Result<Option<Vec<Sum>>, AllocError>
    requires { HaveParts bank.now facts.old.items }
    ensures { (cs : List ClassTree) (known : List Formula) → AreFacts cs bank.now known facts.old.items → IfOk result (λ o. IfSome o (λ sums. Refute cs known (sums_of sums.items))) }
{
    let read = facts.as_slice();
    let found = eliminated(alloc, read)?;
    let Some(sums) = found else {
        return Ok(None);
    };
    let list = sums.as_slice();
    let is_so = is_end(alloc, bank, facts, list)?;
    if is_so { Ok(Some(sums)) } else { Ok(None) }
}
