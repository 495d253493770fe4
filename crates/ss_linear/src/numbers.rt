// Numbers of terms at which known differences are so.

ghost use Rattle.std.specs.Prelude.{◌≡◌, List, [], ◌∷◌, ◌++◌, true, IfOk, IfSome};
ghost use Rattle.ss_core.specs.Tree.{ClassTree};
ghost use Rattle.ss_logic.specs.Formulas.{Formula};
ghost use Rattle.ss_terms.specs.Forms.{Forms, HasFormula, HasFormulas, formula_at, formulas_at, IsBankOf};
ghost use Rattle.ss_linear_rules.specs.Valued.{IsMetAt, MeetsDifferences};
ghost use Rattle.ss_linear_network.specs.Made.{AreNodesOf, numbers_at, IsSolved, HasNumbers};
ghost use Rattle.ss_linear.specs.Contradictions.{equalities_at, HasPairs};

use crate::differences::of_differences;
use crate::facts::read_all;
use crate::meeting::is_met;
use ss_linear_network::{Numbers, Solved};
use ss_linear_sums::{SumTable, sum_fact};
use ss_terms::{Bank, FormulaId, TermId};
use std::alloc::{AllocError, Global};

// The numbers, where the differences are no contradiction.
fn met(solved: Solved) -> Option<Numbers>
    ensures nodes { (b : Forms) → HasNumbers b solved → IfSome result (λ n. AreNodesOf b n.nodes) }
    ensures met { (b : Forms) (cs : List ClassTree) (known : List Formula) → IsSolved b cs known solved → IfSome result (λ n. MeetsDifferences cs known (numbers_at b n)) }
{
    match solved {
        Solved::Met(numbers) => Some(numbers),
        Solved::Contradicted(_) => None,
    }
}

/// Numbers of terms at which each difference among the facts and the equalities is so. None where they contradict each other. An error is
/// want of memory.
pub fn numbers_of(
    alloc: Global,
    bank: &Bank,
    facts: &[FormulaId],
    equalities: &[(TermId, TermId)],
) -> Result<Option<Numbers>, AllocError>
    requires facts { HasFormulas bank.now facts.now }
    requires terms { HasPairs bank.now equalities.now }
    ensures nodes { IfOk result (λ o. IfSome o (λ n. AreNodesOf bank.now n.nodes)) }
    ensures met { (cs : List ClassTree) → IsBankOf cs bank.now → IfOk result (λ o. IfSome o (λ n. MeetsDifferences cs (formulas_at bank.now facts.now ++ equalities_at bank.now equalities.now) (numbers_at bank.now n))) }
{
    let read = read_all(alloc, bank, facts, equalities)?;
    let solved = of_differences(alloc, bank, &read)?;
    Ok(met(solved))
}

/// Whether what a formula says of a sum is seen to be so at these numbers. An error is want of memory.
pub fn is_so(
    alloc: Global,
    bank: &Bank,
    numbers: &Numbers,
    f: FormulaId,
) -> Result<bool, AllocError>
    requires nodes { AreNodesOf bank.now numbers.now.nodes }
    requires formula { HasFormula bank.now f }
    ensures { (cs : List ClassTree) → IsBankOf cs bank.now → IfOk result (λ r. r ≡ true → IsMetAt cs (formula_at bank.now f ∷ []) (numbers_at bank.now numbers.now) 0) }
{
    let mut table = SumTable::new(alloc);
    let fact = sum_fact(alloc, bank, &mut table, f)?;
    match fact {
        Some(fact) => Ok(is_met(bank, numbers, &fact)),
        None => Ok(false),
    }
}
