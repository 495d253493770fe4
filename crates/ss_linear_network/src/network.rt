// Edges between the terms of known differences.

ghost use Rattle.std.specs.Prelude.{◌≡◌, ◌∷◌, ◌++◌, ◌+◌, ◌<◌, ◌^◌, pos, ◌-ℤ◌, List, [], length, OnOk, IfOk, IfSome, unsigned_abs};
ghost use Rattle.std.specs.List.{All};
ghost use Rattle.ss_core.specs.Tree.{ClassTree};
ghost use Rattle.ss_logic.specs.Formulas.{Formula};
ghost use Rattle.ss_terms.specs.Forms.{Forms, term_at, HasTerm};
ghost use Rattle.ss_linear_rules.specs.Nodes.{origins_at};
ghost use Rattle.ss_linear_paths.specs.Edges.{label};
ghost use Rattle.ss_linear_network.specs.Made.{AreNodesOf, edges_of, places_of, IsNetworkOf, IsDifferenceOf, IsSound, numbers_at, IsSolved, HasNumbers};
ghost use Rattle.ss_terms.specs.Numbered.{HasTermOf};

use crate::nodes::Nodes;
use ss_linear_paths::{Edge, Found, shortest};
use ss_terms::{Bank, TermId};
use std::alloc::{AllocError, Global};

/// A known fact that says that a term less another term, with a number added, is at most 0, or is 0. A term that is not there is 0.
#[derive(Clone, Copy)]
pub struct Difference {
    /// The term.
    pub plus: Option<TermId>,
    /// The other term.
    pub minus: Option<TermId>,
    /// The number that is added.
    pub constant: i128,
    /// Whether the sum is 0.
    pub is_equality: bool,
}

/// Terms, each with a node, and edges between nodes. Beside each edge stand the place of its fact and the weight with which the fact
/// says it.
#[derive(Drop)]
pub struct Network {
    /// The terms with their nodes.
    pub nodes: Nodes,
    /// The edges.
    pub edges: Vec<Edge>,
    /// The place of each edge's fact, and its weight.
    pub origins: Vec<(usize, i64)>,
}

// One more edge.
fn push(
    edges: &mut Vec<Edge>,
    origins: &mut Vec<(usize, i64)>,
    edge: Edge,
    origin: (usize, i64),
) -> Result<(), AllocError>
    ensures edges { OnOk result (edges.new.items ≡ edges.old.items ++ edge ∷ []) }
    ensures origins { OnOk result (origins.new.items ≡ origins.old.items ++ origin ∷ []) }
{
    edges.push(edge)?;
    origins.push(origin)?;
    Ok(())
}

// The edge of a difference.
fn forth(d: Difference, from: usize, to: usize) -> Edge
    requires { unsigned_abs d.constant < 2 ^ 64 }
    ensures { result ≡ record { from = from; to = to; weight = pos 0 -ℤ d.constant } }
{
    Edge {
        from,
        to,
        weight: 0 - d.constant,
    }
}

// The edge back of an equality.
fn back(d: Difference, from: usize, to: usize) -> Edge
    ensures { result ≡ record { from = to; to = from; weight = d.constant } }
{
    Edge {
        from: to,
        to: from,
        weight: d.constant,
    }
}

// The facts of edges, with their weights.
fn weights_of(
    alloc: Global,
    origins: &[(usize, i64)],
    places: &[usize],
) -> Result<Vec<(usize, i64)>, AllocError>
    requires { All (λ k. k < length origins.now) places.now }
    ensures { IfOk result (λ v. v.items ≡ origins_at origins.now places.now) }
{
    let mut weights = Vec::new(alloc);
    for k in places {
        weights.push(origins[*k])?;
    }
    Ok(weights)
}

impl Network {
    /// No edge.
    pub fn new(alloc: Global) -> Self
        ensures sound { IsSound result }
        ensures terms { result.nodes.terms.items ≡ [] }
        ensures nodes { (b : Forms) → AreNodesOf b result.nodes }
        ensures network { (b : Forms) (cs : List ClassTree) (known : List Formula) → IsNetworkOf b cs known result 0 }
    {
        Network {
            nodes: Nodes::new(alloc),
            edges: Vec::new(alloc),
            origins: Vec::new(alloc),
        }
    }

    // The edge of a difference, and the edge back where it is an equality.
    fn add_edges(
        &mut self,
        k: usize,
        d: Difference,
        from: usize,
        to: usize,
    ) -> Result<(), AllocError>
        requires { unsigned_abs d.constant < 2 ^ 64 }
        ensures nodes { OnOk result (self.new.nodes ≡ self.old.nodes) }
        ensures edges { OnOk result (self.new.edges.items ≡ self.old.edges.items ++ edges_of d from to) }
        ensures origins { OnOk result (self.new.origins.items ≡ self.old.origins.items ++ places_of k d) }
    {
        push(
            &mut self.edges,
            &mut self.origins,
            forth(d, from, to),
            (k, 1),
        )?;
        if d.is_equality {
            push(
                &mut self.edges,
                &mut self.origins,
                back(d, from, to),
                (k, -1),
            )
        } else {
            Ok(())
        }
    }

    /// The edges of the next known fact, which is this difference.
    pub fn add(&mut self, bank: &Bank, k: usize, d: Difference) -> Result<(), AllocError>
        requires plus { HasTermOf bank.now d.plus }
        requires minus { HasTermOf bank.now d.minus }
        requires small { unsigned_abs d.constant < 2 ^ 64 }
        requires nodes { AreNodesOf bank.now self.old.nodes }
        ensures nodes { OnOk result (AreNodesOf bank.now self.new.nodes) }
        ensures sound { IsSound self.old → OnOk result (IsSound self.new) }
        ensures network { (cs : List ClassTree) (known : List Formula) → IsNetworkOf bank.now cs known self.old k → IsDifferenceOf bank.now cs known k d → OnOk result (IsNetworkOf bank.now cs known self.new (k + 1)) }
    {
        let from = self.nodes.end(bank, d.plus)?;
        let to = self.nodes.end(bank, d.minus)?;
        self.add_edges(k, d, from, to)
    }

    /// Known facts and weights with which their sum is a contradiction, or numbers that meet all differences.
    pub fn solve(self, alloc: Global) -> Result<Solved, AllocError>
        requires { IsSound self }
        ensures nodes { (b : Forms) → AreNodesOf b self.nodes → IfOk result (HasNumbers b) }
        ensures solved { (b : Forms) (cs : List ClassTree) (known : List Formula) → IsNetworkOf b cs known self (length known) → IfOk result (IsSolved b cs known) }
    {
        let Network {
            nodes,
            edges,
            origins,
        } = self;
        let found = shortest(alloc, nodes.terms.len() + 1, &edges)?;
        match found {
            Found::Labels(labels) => Ok(Solved::Met(Numbers { nodes, labels })),
            Found::Cycle(cycle) => {
                let weights = weights_of(alloc, &origins, &cycle)?;
                Ok(Solved::Contradicted(weights))
            }
        }
    }
}

/// Numbers of terms; a term that isn't there has some number, too.
#[derive(Drop)]
pub struct Numbers {
    /// The terms with their nodes.
    pub nodes: Nodes,
    /// A number for each node. That of a term is that of node 0 less its node's, so that terms have the least numbers.
    pub labels: Vec<i128>,
}

impl Numbers {
    // The number of a node.
    fn label(&self, node: usize) -> i128
        ensures { result ≡ label self.now.labels.items node }
    {
        if node < self.labels.len() {
            self.labels[node]
        } else {
            0
        }
    }

    /// The number of a term. None where that leaves 128 bits.
    pub fn number(&self, bank: &Bank, t: TermId) -> Option<i128>
        requires nodes { AreNodesOf bank.now self.now.nodes }
        requires term { HasTerm bank.now t }
        ensures { IfSome result (λ z. z ≡ numbers_at bank.now self.now (term_at bank.now t)) }
    {
        let at = self.nodes.place(bank, t);
        let first = self.label(0);
        first.checked_sub(self.label(at + 1))
    }
}

/// What is found of a network.
#[derive(Drop)]
pub enum Solved {
    /// Numbers that meet all differences.
    Met(Numbers),
    /// Known facts and weights with which their sum is a contradiction.
    Contradicted(Vec<(usize, i64)>),
}
