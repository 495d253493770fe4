// Which parameters and declared locals a body assigns.

ghost use Rattle.std.specs.Prelude.{◌≡◌, ℕ, IfOk};
ghost use Rattle.ss_typed.specs.View as typed;
ghost use Rattle.ss_bit_set.specs.Marked.{marked};
ghost use Rattle.ss_expand_rules.specs.Bodies as bodies;

use ss_bit_set::BitSet;
use ss_typed::{TypedBlock, assigned_in_block};
use std::alloc::{AllocError, Global};

/// The parameters and declared locals that the block assigns, also in statements that are never reached.
pub fn assigned_locals(alloc: Global, block: &TypedBlock) -> Result<BitSet, AllocError>
    ensures { IfOk result (λ m. (x : ℕ) → marked m x ≡ bodies.block_assigns x (typed.block block.now)) }
{
    let locals = assigned_in_block(alloc, block)?;
    let found = BitSet::of(alloc, &locals)?;
    Ok(found)
}
