// Contradictions of differences.

ghost use Rattle.std.specs.Prelude.{◌≡◌, ◌+◌, List, length, Some, OnOk, IfOk, IfSome};
ghost use Rattle.ss_core.specs.Tree.{ClassTree};
ghost use Rattle.ss_logic.specs.Formulas.{Formula};
ghost use Rattle.ss_linear_sums.specs.Linear.{HasParts, fact_at, IsFactOf};
ghost use Rattle.ss_linear_rules.specs.Two as two;
ghost use Rattle.ss_linear_network.specs.Made.{AreNodesOf, IsNetworkOf, IsSound, IsSolved, HasNumbers};
ghost use Rattle.ss_linear.specs.Contradictions.{HaveParts};
ghost use Rattle.ss_linear.specs.Results.{AreFacts};

use crate::ends::find_ends;
use ss_linear_network::{Difference, Network, Solved};
use ss_linear_sums::SumFact;
use ss_terms::Bank;
use std::alloc::{AllocError, Global};

// The edges of the next known fact, where it is a difference.
fn add_sum(
    made: &mut Network,
    alloc: Global,
    bank: &Bank,
    k: usize,
    fact: &SumFact,
) -> Result<(), AllocError>
    requires parts { HasParts bank.now fact.now.sum.parts.items }
    requires nodes { AreNodesOf bank.now made.old.nodes }
    ensures nodes { OnOk result (AreNodesOf bank.now made.new.nodes) }
    ensures sound { IsSound made.old → OnOk result (IsSound made.new) }
    ensures network { (cs : List ClassTree) (known : List Formula) → two.fact_at cs known k ≡ Some (fact_at bank.now fact.now) → IsNetworkOf bank.now cs known made.old k → OnOk result (IsNetworkOf bank.now cs known made.new (k + 1)) }
{
    let found = find_ends(alloc, &fact.sum)?;
    match found {
        Some(e) => {
            let difference = Difference {
                plus: e.plus,
                minus: e.minus,
                constant: fact.sum.constant,
                is_equality: fact.is_equality,
            };
            made.add(bank, k, difference)
        }
        None => Ok(()),
    }
}

// The same, where it says something of a sum.
fn add_fact(
    made: &mut Network,
    alloc: Global,
    bank: &Bank,
    k: usize,
    fact: &Option<SumFact>,
) -> Result<(), AllocError>
    requires nodes { AreNodesOf bank.now made.old.nodes }
    requires parts { IfSome fact.now (λ f. HasParts bank.now f.sum.parts.items) }
    ensures nodes { OnOk result (AreNodesOf bank.now made.new.nodes) }
    ensures sound { IsSound made.old → OnOk result (IsSound made.new) }
    ensures network { (cs : List ClassTree) (known : List Formula) → IsFactOf bank.now fact.now (two.fact_at cs known k) → IsNetworkOf bank.now cs known made.old k → OnOk result (IsNetworkOf bank.now cs known made.new (k + 1)) }
{
    match fact {
        Some(fact) => add_sum(made, alloc, bank, k, fact),
        None => Ok(()),
    }
}

// The edges of all known facts.
fn network(alloc: Global, bank: &Bank, facts: &[Option<SumFact>]) -> Result<Network, AllocError>
    requires parts { HaveParts bank.now facts.now }
    ensures nodes { IfOk result (λ n. AreNodesOf bank.now n.nodes) }
    ensures sound { IfOk result IsSound }
    ensures network { (cs : List ClassTree) (known : List Formula) → AreFacts cs bank.now known facts.now → IfOk result (λ n. IsNetworkOf bank.now cs known n (length facts.now)) }
{
    let mut made = Network::new(alloc);
    for (k, fact) in facts.iter().enumerate() {
        add_fact(&mut made, alloc, bank, k, fact)?;
    }
    Ok(made)
}

/// Known differences and weights with which their sum is a contradiction, or numbers that meet all known differences.
pub(crate) fn of_differences(
    alloc: Global,
    bank: &Bank,
    facts: &[Option<SumFact>],
) -> Result<Solved, AllocError>
    requires parts { HaveParts bank.now facts.now }
    ensures nodes { IfOk result (HasNumbers bank.now) }
    ensures solved { (cs : List ClassTree) (known : List Formula) → AreFacts cs bank.now known facts.now → IfOk result (IsSolved bank.now cs known) }
{
    let made = network(alloc, bank, facts)?;
    made.solve(alloc)
}
