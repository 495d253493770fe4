// The derivation of a path that is closed.

ghost use Rattle.std.specs.Prelude.{◌≡◌, ◌++◌, [], List, reverse, true, Some, IfOk};
ghost use Rattle.ss_core.specs.Tree.{ClassTree};
ghost use Rattle.ss_logic.specs.Formulas.{Formula};
ghost use Rattle.ss_logic_means.specs.Steps.{Derives};
ghost use Rattle.ss_terms.specs.Forms.{Forms};
ghost use Rattle.ss_deriv.specs.declared.line.Line.{Line};
ghost use Rattle.ss_deriv.specs.Shape.{IsBegun, IsShaped};
ghost use Rattle.ss_deriv.specs.Lines.{lines_of};
ghost use Rattle.ss_search_clashes.specs.Closing.{Closes};
ghost use Rattle.ss_search_path.specs.Paths.{known_on, IsPath};

use crate::path::{Path, pour};
use ss_deriv::{Derivation, Draft, Line};
use std::alloc::{AllocError, Global};

// Adds lines to a draft from the last to the first, as far as each has its place there. Whether all have.
fn add_all(draft: &mut Draft, mut turned: Vec<Line>) -> Result<bool, AllocError>
    ensures all { IfOk result (λ all. all ≡ true → draft.new ≡ draft.old ++ reverse turned.items) }
    ensures begun { IsBegun (draft.old ++ reverse turned.items) → IfOk result (λ all. all ≡ true) }
{
    while let Some(line) = turned.pop() {
        if !draft.allows(&line) {
            return Ok(false);
        }
        draft.add(line)?;
    }
    Ok(true)
}

// The derivation that lines are, the last of them first; none where they have not the shape of one.
fn derivation_of(alloc: Global, turned: Vec<Line>) -> Result<Option<Derivation>, AllocError>
    ensures { IsShaped (reverse turned.items) → IfOk result (λ o. o ≡ Some (reverse turned.items)) }
{
    let mut draft = Draft::new(alloc);
    if !add_all(&mut draft, turned)? {
        return Ok(None);
    }
    if !draft.is_finished() {
        return Ok(None);
    }
    Ok(Some(draft.finish()))
}

impl Path {
    // All lines, with these at the end of the path, the last of them first.
    fn closed_by(self, mut closing: Vec<Line>) -> Result<Vec<Line>, AllocError>
        ensures { IfOk result (λ v. reverse v.items ≡ (self.before.items ++ closing.items) ++ reverse self.behind.items) }
    {
        let Path {
            mut before,
            mut behind,
            known: _known,
        } = self;
        pour(&mut closing, 0, &mut behind)?;
        pour(&mut before, 0, &mut behind)?;
        Ok(behind)
    }

    /// The derivation that the lines are, with these at the end of the path, where they close it.
    pub fn finish(self, alloc: Global, closing: Vec<Line>) -> Result<Option<Derivation>, AllocError>
        ensures { (cs : List ClassTree) (premises : List Formula) (goal : Formula) (b : Forms) → IsPath cs premises goal b [] self → Closes cs premises goal (known_on b self) (lines_of b closing.items) → IfOk result (λ o. (d : List Line) × (o ≡ Some d) × Derives cs premises goal (lines_of b d)) }
    {
        let lines = self.closed_by(closing)?;
        derivation_of(alloc, lines)
    }
}
