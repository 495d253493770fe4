// Facts that are so at numbers of terms.

ghost use Rattle.std.specs.Prelude.{◌≡◌, ◌+ℤ◌, ◌*ℤ◌, true, [], ◌∷◌, IfSome};
ghost use Rattle.ss_linear_sums.specs.Linear as linear;
ghost use Rattle.ss_linear_sums.specs.Linear.{HasParts};
ghost use Rattle.ss_linear_rules.specs.Valued as valued;
ghost use Rattle.ss_linear_network.specs.Made.{AreNodesOf, numbers_at};

use ss_linear_network::Numbers;
use ss_linear_sums::{LinearSum, Part, SumFact};
use ss_terms::Bank;

// A number, and what a part comes to. None where that leaves 128 bits.
fn with_value(bank: &Bank, numbers: &Numbers, sum: i128, part: Part) -> Option<i128>
    requires nodes { AreNodesOf bank.now numbers.now.nodes }
    requires part { HasParts bank.now (part ∷ []) }
    ensures { IfSome result (λ z. z ≡ sum +ℤ valued.parts_at (numbers_at bank.now numbers.now) (linear.parts_at bank.now (part ∷ []))) }
{
    let number = numbers.number(bank, part.term)?;
    let value = part.coefficient.checked_mul(number)?;
    sum.checked_add(value)
}

// What parts come to. None where that leaves 128 bits.
fn value_of_parts(bank: &Bank, numbers: &Numbers, parts: &[Part]) -> Option<i128>
    requires nodes { AreNodesOf bank.now numbers.now.nodes }
    requires parts { HasParts bank.now parts.now }
    ensures { IfSome result (λ z. z ≡ valued.parts_at (numbers_at bank.now numbers.now) (linear.parts_at bank.now parts.now)) }
{
    let mut sum = 0i128;
    for part in parts {
        sum = with_value(bank, numbers, sum, *part)?;
    }
    Some(sum)
}

// What a sum comes to. None where that leaves 128 bits.
fn value(bank: &Bank, numbers: &Numbers, sum: &LinearSum) -> Option<i128>
    requires nodes { AreNodesOf bank.now numbers.now.nodes }
    requires parts { HasParts bank.now sum.now.parts.items }
    ensures { IfSome result (λ z. z ≡ valued.sum_at (numbers_at bank.now numbers.now) (linear.sum_at bank.now sum.now)) }
{
    let parts = value_of_parts(bank, numbers, &sum.parts)?;
    parts.checked_add(sum.constant)
}

// Whether a number is 0, or at most 0.
fn is_within(is_equality: bool, z: i128) -> bool
    ensures { result ≡ true → valued.IsMetBy is_equality z }
{
    if is_equality { z == 0 } else { z <= 0 }
}

/// Whether a fact is seen to be so at these numbers.
pub(crate) fn is_met(bank: &Bank, numbers: &Numbers, a: &SumFact) -> bool
    requires nodes { AreNodesOf bank.now numbers.now.nodes }
    requires parts { HasParts bank.now a.now.sum.parts.items }
    ensures { result ≡ true → valued.IsMetBy a.now.is_equality (valued.sum_at (numbers_at bank.now numbers.now) (linear.fact_at bank.now a.now).sum) }
{
    match value(bank, numbers, &a.sum) {
        Some(z) => is_within(a.is_equality, z),
        None => false,
    }
}
