// What is known where a local is true, and where it is false.

ghost use Rattle.std.specs.Prelude.{◌≡◌, IfOk, option_map};
ghost use Rattle.ss_bit_set.specs.Marked.{marked};
ghost use Rattle.ss_vcgen_known.specs.Pairs.{side, alike, barred};
ghost use Rattle.ss_vcgen_known.specs.Sets.{pair_without};
ghost use Rattle.ss_vcgen_known.specs.Views.{pair_of};

use crate::facts::{side_copy, side_without};
use ss_bit_set::BitSet;
use std::alloc::AllocError;

/// The locals that aren't null where a local is true, and where it is false. None where that isn't reached.
#[derive(Drop)]
pub struct Sides {
    pub holds: Option<BitSet>,
    pub fails: Option<BitSet>,
}

impl Sides {
    // The same on both sides.
    pub(crate) fn alike(set: &BitSet) -> Result<Sides, AllocError>
        ensures { IfOk result (λ s. pair_of s ≡ alike (marked set.now)) }
    {
        let holds = set.copy()?;
        let fails = set.copy()?;
        Ok(Sides {
            holds: Some(holds),
            fails: Some(fails),
        })
    }

    pub(crate) fn copy(&self) -> Result<Sides, AllocError>
        ensures { IfOk result (λ s. pair_of s ≡ pair_of self.now) }
    {
        let holds = side_copy(&self.holds)?;
        let fails = side_copy(&self.fails)?;
        Ok(Sides { holds, fails })
    }

    // What is known on this side.
    pub(crate) fn side(&self, outcome: bool) -> Option<&BitSet>
        ensures { option_map (λ f. marked f.now) result ≡ side (pair_of self.now) outcome }
    {
        if outcome {
            self.holds.as_ref()
        } else {
            self.fails.as_ref()
        }
    }

    // The same without the local.
    pub(crate) fn without(&self, local: usize) -> Result<Sides, AllocError>
        ensures { IfOk result (λ s. pair_of s ≡ pair_without local (pair_of self.now)) }
    {
        let holds = side_without(&self.holds, local)?;
        let fails = side_without(&self.fails, local)?;
        Ok(Sides { holds, fails })
    }

    // The local doesn't have this truth value.
    pub(crate) fn bar(&mut self, outcome: bool)
        ensures { pair_of self.new ≡ barred outcome (pair_of self.old) }
    {
        if outcome {
            self.holds = None;
        } else {
            self.fails = None;
        }
    }
}
