// Edges between nodes, and what is found of a list of them.

/// An edge asks that the number of its second node is at most the number of its first and the weight together.
#[derive(Clone, Copy)]
pub struct Edge {
    /// The first node.
    pub from: usize,
    /// The second node.
    pub to: usize,
    /// The weight.
    pub weight: i128,
}

/// What is found of a list of edges.
#[derive(Drop)]
pub enum Found {
    /// A number for each node, with which each edge is met.
    Labels(Vec<i128>),
    /// The places of edges that lead back to where they begin. Their weights together are negative.
    Cycle(Vec<usize>),
}
