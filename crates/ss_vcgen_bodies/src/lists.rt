// Parts of lists.

ghost use Rattle.std.specs.Prelude.{◌≡◌, ◌<◌, ◌+◌, [], ◌∷◌, ◌++◌, length, drop, take, IfOk};

use ss_core::Exposed;
use ss_terms::{FormulaId, TermId};
use std::alloc::{AllocError, Global};

// What stands after the one with this number.
pub(crate) fn behind(exposes: &[Exposed], i: usize) -> &[Exposed]
    requires { i < length exposes.now }
    ensures { result.now ≡ drop (i + 1) exposes.now }
{
    &exposes[i + 1..]
}

// The first ones.
pub(crate) fn first_terms(
    alloc: Global,
    terms: &[TermId],
    count: usize,
) -> Result<Vec<TermId>, AllocError>
    ensures { IfOk result (λ v. v.items ≡ take count terms.now) }
{
    if count < terms.len() {
        Vec::from_slice(alloc, &terms[..count])
    } else {
        Vec::from_slice(alloc, terms)
    }
}

// These, with one before and one after.
pub(crate) fn between(
    alloc: Global,
    first: FormulaId,
    middle: &[FormulaId],
    last: FormulaId,
) -> Result<Vec<FormulaId>, AllocError>
    ensures { IfOk result (λ v. v.items ≡ first ∷ middle.now ++ last ∷ []) }
{
    let mut all = Vec::new(alloc);
    all.push(first)?;
    all.extend_from_slice(middle)?;
    all.push(last)?;
    Ok(all)
}
