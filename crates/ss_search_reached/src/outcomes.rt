// Formulas of which it is known whether they may hold beside the known ones.

ghost use Rattle.std.specs.Prelude.{◌≡◌, true, if◌then◌else◌, OnOk};
ghost use Rattle.ss_paths.specs.Sets.{none, put};
ghost use Rattle.ss_bit_set.specs.Marked.{marked};

use ss_bit_set::BitSet;
use ss_terms::FormulaId;
use std::alloc::{AllocError, Global};

/// The numbers of those that may hold, and of those that are refuted.
#[derive(Drop)]
pub struct Outcomes {
    pub holding: BitSet,
    pub refuted: BitSet,
}

impl Outcomes {
    /// Of none it is known.
    pub fn new(alloc: Global) -> Self
        ensures { marked result.holding ≡ none }
    {
        Outcomes {
            holding: BitSet::new(alloc),
            refuted: BitSet::new(alloc),
        }
    }

    /// Notes whether a formula may hold.
    pub(crate) fn note(&mut self, f: FormulaId, may_hold: bool) -> Result<(), AllocError>
        ensures { OnOk result (marked self.new.holding ≡ (if may_hold then put f.0 true (marked self.old.holding) else marked self.old.holding)) }
    {
        if may_hold {
            self.holding.put(f.0, true)
        } else {
            self.refuted.put(f.0, true)
        }
    }
}
