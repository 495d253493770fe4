// Sets of locals that aren't null.

ghost use Rattle.std.specs.Prelude.{◌≡◌, Some, IfOk, IsTrue, option_map};
ghost use Rattle.ss_bit_set.specs.Marked.{marked, listed};
ghost use Rattle.ss_paths.specs.Sets.{none};
ghost use Rattle.ss_store_rules.specs.NonNull.{both, side_met};
ghost use Rattle.ss_vcgen_known.specs.Sets.{without};

use ss_bit_set::BitSet;
use std::alloc::AllocError;

// Whether the list of a set is empty.
fn is_none(list: &[bool]) -> bool
    ensures { IsTrue result → listed list.now ≡ none }
{
    match list {
        [] => true,
        [_, ..] => false,
    }
}

// Whether nothing was ever put into the set.
pub(crate) fn is_empty(set: &BitSet) -> bool
    ensures { IsTrue result → marked set.now ≡ none }
{
    is_none(&set.list)
}

// Puts each local of the other set into the set.
#[tactic(auto, using(crate::proofs::Listing::joined_none, crate::proofs::Listing::joined_in, crate::proofs::Listing::joined_out, crate::proofs::Listing::joined_all))]
pub(crate) fn join(set: &mut BitSet, other: &BitSet) -> Result<(), AllocError>
    ensures { IfOk result (λ u. marked set.new ≡ both (marked set.old) (marked other.now)) }
{
    for local in 0..other.list.len() {
        if other.has(local) {
            set.put(local, true)?;
        }
    }
    Ok(())
}

// The same set, and the locals of the other one.
pub(crate) fn joined(set: &BitSet, other: &BitSet) -> Result<BitSet, AllocError>
    ensures { IfOk result (λ m. marked m ≡ both (marked set.now) (marked other.now)) }
{
    let mut all = set.copy()?;
    join(&mut all, other)?;
    Ok(all)
}

// The same set without the local.
#[tactic(auto, using(crate::proofs::Listing::put_less, crate::proofs::Listing::not_in))]
pub(crate) fn without(set: &BitSet, local: usize) -> Result<BitSet, AllocError>
    ensures { IfOk result (λ m. marked m ≡ without local (marked set.now)) }
{
    let mut rest = set.copy()?;
    if rest.has(local) {
        rest.put(local, false)?;
    }
    Ok(rest)
}

// What is known on a side, with what is known in any case.
pub(crate) fn end_of(set: &BitSet, side: Option<&BitSet>) -> Result<Option<BitSet>, AllocError>
    ensures { IfOk result (λ m. option_map marked m ≡ option_map (both (marked set.now)) (option_map (λ f. marked f.now) side.entry)) }
{
    match side {
        Some(side) => {
            let all = joined(set, side)?;
            Ok(Some(all))
        }
        None => Ok(None),
    }
}

// What is known where two sides meet.
pub(crate) fn side_met(one: Option<BitSet>, other: Option<BitSet>) -> Option<BitSet>
    ensures { option_map marked result ≡ side_met (option_map marked one) (option_map marked other) }
{
    match one {
        Some(one) => Some(met_with(one, &other)),
        None => other,
    }
}

fn met_with(one: BitSet, other: &Option<BitSet>) -> BitSet
    ensures { Some (marked result) ≡ side_met (Some (marked one)) (option_map marked other.now) }
{
    match other {
        Some(other) => {
            let mut met = one;
            met.meet(other);
            met
        }
        None => one,
    }
}

// The side without the local.
pub(crate) fn side_without(
    side: &Option<BitSet>,
    local: usize,
) -> Result<Option<BitSet>, AllocError>
    ensures { IfOk result (λ m. option_map marked m ≡ option_map (without local) (option_map marked side.now)) }
{
    match side {
        Some(side) => {
            let rest = without(side, local)?;
            Ok(Some(rest))
        }
        None => Ok(None),
    }
}

// The side once more.
pub(crate) fn side_copy(side: &Option<BitSet>) -> Result<Option<BitSet>, AllocError>
    ensures { IfOk result (λ m. option_map marked m ≡ option_map marked side.now) }
{
    match side {
        Some(side) => {
            let same = side.copy()?;
            Ok(Some(same))
        }
        None => Ok(None),
    }
}
