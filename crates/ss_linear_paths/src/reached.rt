// The lowest sums of weights on the paths that were tried to each node.

ghost use Rattle.std.specs.Prelude.{◌≡◌, ◌≢◌, ℕ, ◌<◌, ◌≤◌, ◌+◌, true, length, IfSome, IfNone, IfOk, OnOk, MatchOption, List, [], ◌∷◌, slice_index_or, IsTrue, IsFalse, slice_set, take, ◌+ℤ◌, ◌<ℤ◌};
ghost use Rattle.std.specs.List.{All};
ghost use Rattle.ss_linear_paths.specs.Edges.{label, edge_at, HasNodes, AreSmall, IsWithin, IsMet, IsCycle};
ghost use Rattle.ss_linear_paths.specs.Paths.{back, lists, path_at, AreReached, IsRound, IsLooked};

use crate::edges::Edge;
use std::alloc::{AllocError, Global};

/// For each node the sum of the weights of a path to it, and the places of the edges of that path, the last one first.
#[derive(Drop)]
pub(crate) struct Reached {
    pub(crate) labels: Vec<i128>,
    pub(crate) paths: Vec<Vec<usize>>,
}

// The list with one more in front.
fn with_front(alloc: Global, k: usize, path: &[usize]) -> Result<Vec<usize>, AllocError>
    ensures { IfOk result (λ v. v.items ≡ k ∷ path.now) }
{
    let mut longer = Vec::new(alloc);
    longer.push(k)?;
    longer.extend_from_slice(path)?;
    Ok(longer)
}

// How many edges of a path lead back from its end to a node, where it passes that node.
fn steps_back(edges: &[Edge], path: &[usize], end: usize, node: usize) -> Option<usize>
    requires { All (λ k. k < length edges.now) path.now }
    ensures passes { IfSome result (λ n. (n ≤ length path.now) × (back edges.now end path.now n ≡ node)) }
    ensures avoids { IfNone result ((n : ℕ) → n ≤ length path.now → back edges.now end path.now n ≢ node) }
{
    let mut at = end;
    for (n, k) in path.iter().enumerate() {
        if at == node {
            return Some(n);
        }
        at = edges[*k].from;
    }
    if at == node { Some(path.len()) } else { None }
}

// The edge at a place, and some of the edges of the path to its first node.
fn closed(alloc: Global, k: usize, path: &[usize], count: usize) -> Result<Vec<usize>, AllocError>
    requires { count ≤ length path.now }
    ensures { IfOk result (λ v. v.items ≡ k ∷ take count path.now) }
{
    with_front(alloc, k, &path[..count])
}

impl Reached {
    /// Each node with the path that has no edge.
    pub(crate) fn new(alloc: Global, nodes: usize) -> Result<Self, AllocError>
        ensures reached { (es : List Edge) → IfOk result (λ r. AreReached nodes es r.labels.items (lists r.paths.items)) }
        ensures round { (es : List Edge) → IfOk result (λ r. IsRound es r.labels.items (lists r.paths.items) 0 0) }
    {
        let mut labels = Vec::new(alloc);
        let mut paths = Vec::new(alloc);
        for _ in 0..nodes {
            labels.push(0i128)?;
            paths.push(Vec::new(alloc))?;
        }
        Ok(Reached { labels, paths })
    }

    // The number of a node.
    fn number(&self, v: usize) -> i128
        requires { v < length self.now.labels.items }
        ensures { result ≡ label self.now.labels.items v }
    {
        self.labels[v]
    }

    // The number of the first node of an edge, and its weight.
    fn over(&self, edge: Edge) -> i128
        requires from { edge.from < length self.now.labels.items }
        requires within { IsWithin (label self.now.labels.items edge.from +ℤ edge.weight) }
        ensures { result ≡ label self.now.labels.items edge.from +ℤ edge.weight }
    {
        self.number(edge.from) + edge.weight
    }

    // The edges of the path to a node.
    fn path(&self, v: usize) -> &[usize]
        requires { v < length self.now.paths.items }
        ensures { result.now ≡ path_at (lists self.now.paths.items) v }
    {
        &self.paths[v]
    }

    // Another number and another path of a node.
    fn put(&mut self, v: usize, label: i128, path: Vec<usize>)
        requires label { v < length self.old.labels.items }
        requires path { v < length self.old.paths.items }
        ensures labels { self.new.labels.items ≡ slice_set self.old.labels.items v label }
        ensures paths { lists self.new.paths.items ≡ slice_set (lists self.old.paths.items) v path.items }
    {
        self.labels[v] = label;
        self.paths[v] = path;
    }

    // Whether an edge isn't met.
    fn is_open(&self, edge: Edge) -> bool
        requires from { edge.from < length self.now.labels.items }
        requires to { edge.to < length self.now.labels.items }
        requires within { IsWithin (label self.now.labels.items edge.from +ℤ edge.weight) }
        ensures above { IsTrue result → (label self.now.labels.items edge.from +ℤ edge.weight) <ℤ label self.now.labels.items edge.to }
        ensures met { IsFalse result → IsMet self.now.labels.items edge }
    {
        self.over(edge) < self.number(edge.to)
    }

    /// Whether each edge is met.
    pub(crate) fn are_met(&self, edges: &[Edge]) -> bool
        requires reached { AreReached (length self.now.labels.items) edges.now self.now.labels.items (lists self.now.paths.items) }
        requires nodes { HasNodes (length self.now.labels.items) edges.now }
        requires small { AreSmall edges.now }
        ensures { IsTrue result → All (IsMet self.now.labels.items) edges.now }
    {
        for edge in edges {
            if self.is_open(*edge) {
                return false;
            }
        }
        true
    }

    // Where an edge isn't met, the path to its second node becomes the one over the edge, or there is a cycle.
    fn lower(
        &mut self,
        alloc: Global,
        edges: &[Edge],
        k: usize,
    ) -> Result<Option<Vec<usize>>, AllocError>
        requires reached { AreReached (length self.old.labels.items) edges.now self.old.labels.items (lists self.old.paths.items) }
        requires nodes { HasNodes (length self.old.labels.items) edges.now }
        requires small { AreSmall edges.now }
        requires inside { k < length edges.now }
        requires open { (label self.old.labels.items (edge_at edges.now k).from +ℤ (edge_at edges.now k).weight) <ℤ label self.old.labels.items (edge_at edges.now k).to }
        ensures looked { IfOk result (λ o. IfNone o (IsLooked (length self.old.labels.items) edges.now self.old.labels.items (lists self.old.paths.items) k self.new.labels.items (lists self.new.paths.items) (k + 1))) }
        ensures cycle { IfOk result (λ o. IfSome o (λ c. IsCycle edges.now c.items)) }
    {
        let edge = edges[k];
        let label = self.over(edge);
        let path = self.path(edge.from);
        let count = steps_back(edges, path, edge.from, edge.to);
        match count {
            Some(count) => {
                let cycle = closed(alloc, k, path, count)?;
                Ok(Some(cycle))
            }
            None => {
                let longer = with_front(alloc, k, path)?;
                self.put(edge.to, label, longer);
                Ok(None)
            }
        }
    }

    // Looks at an edge.
    fn settle(
        &mut self,
        alloc: Global,
        edges: &[Edge],
        k: usize,
    ) -> Result<Option<Vec<usize>>, AllocError>
        requires reached { AreReached (length self.old.labels.items) edges.now self.old.labels.items (lists self.old.paths.items) }
        requires nodes { HasNodes (length self.old.labels.items) edges.now }
        requires small { AreSmall edges.now }
        requires inside { k < length edges.now }
        ensures looked { IfOk result (λ o. IfNone o (IsLooked (length self.old.labels.items) edges.now self.old.labels.items (lists self.old.paths.items) k self.new.labels.items (lists self.new.paths.items) (k + 1))) }
        ensures cycle { IfOk result (λ o. IfSome o (λ c. IsCycle edges.now c.items)) }
    {
        if self.is_open(edges[k]) {
            self.lower(alloc, edges, k)
        } else {
            Ok(None)
        }
    }

    /// Looks at each edge in order, up to the first that closes a cycle.
    pub(crate) fn round(
        &mut self,
        alloc: Global,
        edges: &[Edge],
    ) -> Result<Option<Vec<usize>>, AllocError>
        requires reached { AreReached (length self.old.labels.items) edges.now self.old.labels.items (lists self.old.paths.items) }
        requires nodes { HasNodes (length self.old.labels.items) edges.now }
        requires small { AreSmall edges.now }
        ensures looked { IfOk result (λ o. IfNone o (IsLooked (length self.old.labels.items) edges.now self.old.labels.items (lists self.old.paths.items) 0 self.new.labels.items (lists self.new.paths.items) (length edges.now))) }
        ensures cycle { IfOk result (λ o. IfSome o (λ c. IsCycle edges.now c.items)) }
    {
        for k in 0..edges.len() {
            let found = self.settle(alloc, edges, k)?;
            match found {
                Some(cycle) => return Ok(Some(cycle)),
                None => {}
            }
        }
        Ok(None)
    }
}
