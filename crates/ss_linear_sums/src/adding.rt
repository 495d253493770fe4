// Weighted sums of known facts.

ghost use Rattle.std.specs.Prelude.{◌≡◌, pos, List, slice_get, IfOk, IfSome};
ghost use Rattle.ss_core.specs.Tree.{ClassTree};
ghost use Rattle.ss_logic.specs.Sums as sums;
ghost use Rattle.ss_terms.specs.Forms.{formulas_at, HasFormulas, IsBankOf};
ghost use Rattle.ss_linear_sums.specs.Linear.{sum_at, fact_at, HasParts, IsSumOf, Became};
ghost use Rattle.ss_linear_sums.specs.Table.{AreKept};
ghost use Rattle.ss_linear_sums.specs.Weighted.{with_known};

use crate::facts::sum_fact;
use crate::forms::{LinearSum, SumFact, number_sum};
use crate::numbers::{is_weight, wide};
use crate::parts::add_times;
use crate::table::SumTable;
use ss_terms::{Bank, FormulaId};
use std::alloc::{AllocError, Global};

/// Adds a fact with its weight to a sum. No where it can't have the weight, or a number leaves 128 bits.
pub fn add_weighted(
    bank: &Bank,
    sum: &mut LinearSum,
    w: i128,
    fact: &SumFact,
) -> Result<bool, AllocError>
    requires sum { HasParts bank.now sum.old.parts.items }
    requires fact { HasParts bank.now fact.now.sum.parts.items }
    ensures has { IfOk result (λ _. HasParts bank.now sum.new.parts.items) }
    ensures added { IfOk result (λ yes. Became yes (sums.add_weighted w (sum_at bank.now sum.old) (fact_at bank.now fact.now)) (sum_at bank.now sum.new)) }
{
    if !is_weight(fact.is_equality, w) {
        return Ok(false);
    }
    add_times(bank, sum, w, &fact.sum)
}

fn read(list: &[FormulaId], i: usize) -> Option<FormulaId>
    ensures { result ≡ slice_get list.now i }
{
    list.get(i).copied()
}

/// The facts that are known, over a bank.
#[derive(Clone, Copy)]
struct KnownContext<'a> {
    alloc: Global,
    bank: &'a Bank,
    known: &'a [FormulaId],
}

/// Adds a known fact with its weight to a sum.
fn add_known(
    context: &KnownContext<'_>,
    table: &mut SumTable,
    sum: &mut LinearSum,
    i: usize,
    w: i128,
) -> Result<bool, AllocError>
    requires known { HasFormulas context.now.bank.now context.now.known.now }
    requires kept { AreKept context.now.bank.now table.old.kept.items }
    requires sum { HasParts context.now.bank.now sum.old.parts.items }
    ensures kept { IfOk result (λ _. AreKept context.now.bank.now table.new.kept.items) }
    ensures has { IfOk result (λ _. HasParts context.now.bank.now sum.new.parts.items) }
    ensures added { (cs : List ClassTree) → IsBankOf cs context.now.bank.now → IfOk result (λ yes. Became yes (with_known cs (formulas_at context.now.bank.now context.now.known.now) (sum_at context.now.bank.now sum.old) i w) (sum_at context.now.bank.now sum.new)) }
{
    let Some(f) = read(context.known, i) else {
        return Ok(false);
    };
    let Some(fact) = sum_fact(context.alloc, context.bank, table, f)? else {
        return Ok(false);
    };
    add_weighted(context.bank, sum, w, &fact)
}

/// The weighted sum of known facts, where there is one: each part is a fact's place and its weight.
pub fn weighted(
    alloc: Global,
    bank: &Bank,
    known: &[FormulaId],
    parts: &[(usize, i64)],
) -> Result<Option<LinearSum>, AllocError>
    requires { HasFormulas bank.now known.now }
    ensures terms { IfOk result (λ o. IfSome o (λ s. HasParts bank.now s.parts.items)) }
    ensures sum { (cs : List ClassTree) → IsBankOf cs bank.now → IfOk result (λ o. IsSumOf bank.now o (sums.weighted cs (formulas_at bank.now known.now) (sums.number_sum (pos 0)) parts.now)) }
{
    let mut table = SumTable::new(alloc);
    let mut sum = number_sum(alloc, 0);
    let context = KnownContext { alloc, bank, known };
    for part in parts {
        match add_known(&context, &mut table, &mut sum, part.0, wide(part.1)) {
            Ok(true) => {}
            Ok(false) => return Ok(None),
            Err(e) => return Err(e),
        }
    }
    Ok(Some(sum))
}
