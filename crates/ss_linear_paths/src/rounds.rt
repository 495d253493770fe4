// Rounds over the edges.

ghost use Rattle.std.specs.Prelude.{ℕ, IfOk};
ghost use Rattle.ss_linear_paths.specs.Edges.{HasNodes, AreSmall, IsFound};

use crate::edges::{Edge, Found};
use crate::reached::Reached;
use std::alloc::{AllocError, Global};

/// Numbers of nodes with which each edge is met, or a cycle with a negative sum. An error is want of memory.
pub fn shortest(alloc: Global, nodes: usize, edges: &[Edge]) -> Result<Found, AllocError>
    requires nodes { HasNodes nodes edges.now }
    requires small { AreSmall edges.now }
    ensures { IfOk result (IsFound nodes edges.now) }
{
    let mut reached = Reached::new(alloc, nodes)?;
    for _ in 0..nodes {
        if reached.are_met(edges) {
            return Ok(Found::Labels(reached.labels));
        }
        let found = reached.round(alloc, edges)?;
        match found {
            Some(cycle) => return Ok(Found::Cycle(cycle)),
            None => {}
        }
    }
    Ok(Found::Labels(reached.labels))
}
