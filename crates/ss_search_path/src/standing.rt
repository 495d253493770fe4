// Where reached formulas stand among the facts of a path.

ghost use Rattle.std.specs.Prelude.{◌≡◌, [], List, Some, true, slice_get};
ghost use Rattle.ss_core.specs.Tree.{ClassTree};
ghost use Rattle.ss_logic.specs.Formulas.{Formula, is_well_formed};
ghost use Rattle.ss_search_path.specs.Standing.{Stands};

use ss_rules_opened::{Choice, Origin};
use ss_terms::{Bank, FormulaId};
use std::alloc::Global;

/// What facts are opened by: the bank, the choices with their bodies, and the origins of the formulas of the ground form.
#[derive(Clone, Copy)]
pub struct Given<'a> {
    /// The allocator.
    pub alloc: Global,
    /// The bank.
    pub bank: &'a Bank,
    /// The choices.
    pub choices: &'a [Choice],
    /// The body of each.
    pub bodies: &'a [FormulaId],
    /// The origin of each formula.
    pub origins: &'a [Origin],
}

/// How a reached formula stands among the facts.
#[derive(Clone, Copy, Drop)]
pub enum Standing {
    /// It is the fact at this place, opened by the choices from this one on.
    Fact { place: usize, from: usize },
    /// It says something where a guard holds: what the origin with this number says.
    Guarded { origin: usize },
}

impl Given<'_> {
    /// How a formula stands that is the fact at a place itself.
    pub fn itself(&self, place: usize) -> Standing
        ensures { (cs : List ClassTree) (known : List Formula) (f : Formula) → slice_get known place ≡ Some f → is_well_formed cs [] f ≡ true → Stands cs self.now known result f }
    {
        let from = self.choices.len();
        Standing::Fact { place, from }
    }
}
