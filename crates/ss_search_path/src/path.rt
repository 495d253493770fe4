// Paths, and marks to which they are taken back.

ghost use Rattle.std.specs.Prelude.{◌≡◌, ◌++◌, ◌∷◌, ◌<◌, [], List, length, take, drop, reverse, OnOk};
ghost use Rattle.ss_core.specs.Tree.{ClassTree};
ghost use Rattle.ss_logic.specs.Formulas.{Formula};
ghost use Rattle.ss_terms.specs.Forms.{Forms};
ghost use Rattle.ss_deriv.specs.declared.line.Line.{Line};
ghost use Rattle.ss_search_path.specs.Paths.{IsPath, IsMark, IsBack};

use ss_deriv::Line;
use ss_terms::FormulaId;
use std::alloc::{AllocError, Global};

/// Lines of a case that goes on: those before what is still to come, and those after it, the last of them first. The numbers of the
/// formulas that are known between them, in the order of their places.
#[derive(Drop)]
pub struct Path {
    pub before: Vec<Line>,
    pub behind: Vec<Line>,
    pub known: Vec<FormulaId>,
}

/// How long a path was.
#[derive(Clone, Copy, Drop)]
pub struct Mark {
    pub before: usize,
    pub behind: usize,
    pub known: usize,
}

// Two more lines.
pub(crate) fn push_two(lines: &mut Vec<Line>, one: Line, two: Line) -> Result<(), AllocError>
    ensures { OnOk result (lines.new.items ≡ lines.old.items ++ one ∷ two ∷ []) }
{
    lines.push(one)?;
    lines.push(two)?;
    Ok(())
}

// Moves the last line onto other lines.
fn move_last(from: &mut Vec<Line>, onto: &mut Vec<Line>) -> Result<(), AllocError>
    requires { 0 < length from.old.items }
    ensures { OnOk result ((line : Line) × (from.old.items ≡ from.new.items ++ line ∷ []) × (onto.new.items ≡ onto.old.items ++ line ∷ [])) }
{
    let Some(line) = from.pop() else {
        return Ok(());
    };
    onto.push(line)?;
    Ok(())
}

// Moves all but the first lines onto other lines, the last one first.
pub(crate) fn pour(from: &mut Vec<Line>, to: usize, onto: &mut Vec<Line>) -> Result<(), AllocError>
    ensures from { OnOk result (from.new.items ≡ take to from.old.items) }
    ensures onto { OnOk result (onto.new.items ≡ onto.old.items ++ reverse (drop to from.old.items)) }
{
    while from.len() > to {
        move_last(from, onto)?;
    }
    Ok(())
}

impl Path {
    /// No line, where nothing is known.
    pub fn new(alloc: Global) -> Self
        ensures known { result.known.items ≡ [] }
        ensures path { (cs : List ClassTree) (premises : List Formula) (goal : Formula) (b : Forms) → IsPath cs premises goal b [] result }
    {
        let before = Vec::new(alloc);
        let behind = Vec::new(alloc);
        let known = Vec::new(alloc);
        Path {
            before,
            behind,
            known,
        }
    }

    /// How long the path is.
    pub fn mark(&self) -> Mark
        ensures { IsMark result self.now }
    {
        let before = self.before.len();
        let behind = self.behind.len();
        let known = self.known.len();
        Mark {
            before,
            behind,
            known,
        }
    }

    /// Takes the path back to a mark. It takes no memory.
    pub fn undo(&mut self, mark: Mark)
        ensures { IsBack mark self.old self.new }
    {
        self.before.truncate(mark.before);
        self.behind.truncate(mark.behind);
        self.known.truncate(mark.known);
    }
}
