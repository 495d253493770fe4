// The joins that ended classes.

ghost use Rattle.std.specs.Prelude.{◌≡◌, ℕ, ◌<◌, ◌⊎◌, Some, None, length, slice_get, IfOk, IfSome};
ghost use Rattle.ss_equality_rules.specs.Names.{IsLog, IsEnd, HasNoEnd};
ghost use Rattle.ss_equality_rules.specs.Reasons.{IsFirstEnd};
ghost use Rattle.ss_search_clashes.specs.Ways.{AreEnds};

use ss_equality_rules::Join;
use std::alloc::{AllocError, Global};

fn no_ends(alloc: Global, count: usize) -> Result<Vec<Option<usize>>, AllocError>
    ensures long { IfOk result (λ v. length v.items ≡ count) }
    ensures none { IfOk result (λ v. (class j : ℕ) → slice_get v.items class ≡ Some (Some j) → ⊥) }
{
    let mut ends = Vec::new(alloc);
    for _i in 0..count {
        ends.push(None)?;
    }
    Ok(ends)
}

/// The join with this number.
pub(crate) fn join_at(joins: &[Join], number: usize) -> Join
    requires { number < length joins.now }
    ensures { slice_get joins.now number ≡ Some result }
{
    joins[number]
}

/// At the name of each class that ended the join that ended it.
pub(crate) fn ends(
    alloc: Global,
    joins: &[Join],
    terms: usize,
) -> Result<Vec<Option<usize>>, AllocError>
    requires { IsLog terms joins.now }
    ensures { IfOk result (λ v. AreEnds joins.now v.items) }
{
    let mut ends = no_ends(alloc, terms)?;
    for number in 0..joins.len() {
        let join = join_at(joins, number);
        ends[join.from] = Some(number);
    }
    Ok(ends)
}

// The entry of the class with this name.
fn end_at(ends: &[Option<usize>], class: usize) -> Option<usize>
    ensures some { IfSome result (λ j. slice_get ends.now class ≡ Some (Some j)) }
    ensures none { result ≡ None → (slice_get ends.now class ≡ Some None) ⊎ (slice_get ends.now class ≡ None) }
{
    match ends.get(class) {
        Some(end) => *end,
        None => None,
    }
}

// The join that ended the class with this name.
fn end_of(joins: &[Join], ends: &[Option<usize>], class: usize) -> Option<usize>
    requires { AreEnds joins.now ends.now }
    ensures gone { IfSome result (λ j. IsEnd joins.now class j) }
    ensures going { result ≡ None → HasNoEnd joins.now class }
{
    let _joins = joins.len();
    end_at(ends, class)
}

/// The first join that ended one of two classes.
pub(crate) fn first_end(joins: &[Join], ends: &[Option<usize>], a: usize, b: usize) -> Option<usize>
    requires { AreEnds joins.now ends.now }
    ensures first { IfSome result (λ j. IsFirstEnd joins.now a b j) }
    ensures none { result ≡ None → HasNoEnd joins.now a × HasNoEnd joins.now b }
{
    match end_of(joins, ends, a) {
        None => end_of(joins, ends, b),
        Some(i) => match end_of(joins, ends, b) {
            None => Some(i),
            Some(j) => { if i < j { Some(i) } else { Some(j) } }
        },
    }
}
