// Each two whole numbers of one class.

ghost use Rattle.std.specs.Prelude.{◌≡◌, ◌+◌, ◌<◌, ◌++◌, length, get_or, drop, IfOk, OnOk};
ghost use Rattle.ss_search_models.specs.Wholes.{no_whole, AreNexts, pairs_of, pairs_in, next_of, nexts_in};

use crate::wholes::Whole;
use indexmap::IndexMap;
use ss_terms::TermId;
use std::alloc::{AllocError, Global};

// For each place the next one of the same class, the length where there is none.
fn next_places(alloc: Global, found: &[Whole]) -> Result<Vec<usize>, AllocError>
    ensures long { IfOk result (λ v. length v.items ≡ length found.now) }
    ensures next { IfOk result (λ v. AreNexts found.now v.items) }
{
    let count = found.len();
    let mut first = IndexMap::new(alloc);
    let mut places = vec![in alloc; count; count]?;
    let mut i = count;
    while i > 0 {
        i -= 1;
        let next = first.insert(found[i].class, i)?;
        places[i] = next.unwrap_or(count);
    }
    Ok(places)
}

// Adds the term at a place with each one after it that is of its class.
fn add_pairs(
    found: &[Whole],
    nexts: &[usize],
    pairs: &mut Vec<(TermId, TermId)>,
    i: usize,
) -> Result<(), AllocError>
    requires place { i < length found.now }
    requires long { length nexts.now ≡ length found.now }
    requires next { AreNexts found.now nexts.now }
    ensures { OnOk result (pairs.new.items ≡ pairs.old.items ++ pairs_of (get_or found.now i no_whole) (drop (i + 1) found.now)) }
{
    let term = found[i].term;
    let mut j = nexts[i];
    while j < found.len() {
        pairs.push((term, found[j].term))?;
        j = nexts[j];
    }
    Ok(())
}

/// Each two terms of one class. An error is want of memory.
pub(crate) fn equal_pairs(
    alloc: Global,
    found: &[Whole],
) -> Result<Vec<(TermId, TermId)>, AllocError>
    ensures { IfOk result (λ v. v.items ≡ pairs_in found.now) }
{
    let places = next_places(alloc, found)?;
    let nexts = places.as_slice();
    let mut pairs = Vec::new(alloc);
    for i in 0..found.len() {
        add_pairs(found, nexts, &mut pairs, i)?;
    }
    Ok(pairs)
}

// Adds the term at a place with the next one of its class, where there is one.
fn add_next(
    found: &[Whole],
    nexts: &[usize],
    pairs: &mut Vec<(TermId, TermId)>,
    i: usize,
) -> Result<(), AllocError>
    requires place { i < length found.now }
    requires long { length nexts.now ≡ length found.now }
    requires next { AreNexts found.now nexts.now }
    ensures { OnOk result (pairs.new.items ≡ pairs.old.items ++ next_of (get_or found.now i no_whole) (drop (i + 1) found.now)) }
{
    let j = nexts[i];
    if j < found.len() {
        pairs.push((found[i].term, found[j].term))?;
    }
    Ok(())
}

/// Each term with the next one of its class. An error is want of memory.
pub(crate) fn next_pairs(
    alloc: Global,
    found: &[Whole],
) -> Result<Vec<(TermId, TermId)>, AllocError>
    ensures { IfOk result (λ v. v.items ≡ nexts_in found.now) }
{
    let places = next_places(alloc, found)?;
    let nexts = places.as_slice();
    let mut pairs = Vec::new(alloc);
    for i in 0..found.len() {
        add_next(found, nexts, &mut pairs, i)?;
    }
    Ok(pairs)
}
