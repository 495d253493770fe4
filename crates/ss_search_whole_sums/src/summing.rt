// The lines of weighted sums.

ghost use Rattle.std.specs.Prelude.{◌≡◌, ◌==◌, map, IfOk};
ghost use Rattle.std.specs.List.{list_any};
ghost use Rattle.ss_terms.specs.Forms.{Forms};
ghost use Rattle.ss_deriv.specs.Lines.{line_of, lines_of};
ghost use Rattle.ss_linear.specs.Contradictions.{summed, sums_of};
ghost use Rattle.ss_search_whole_sums.specs.Summing as spec;
ghost use Rattle.ss_search_whole_sums.specs.Summing.{CloseBySums};

use ss_deriv::{Line, Sum};
use std::alloc::{AllocError, Global};

// Whether one of the weights is for this place.
fn has_place(parts: &[(usize, i64)], place: usize) -> bool
    ensures { result ≡ list_any (λ p. p.0 == place) parts.now }
{
    for part in parts {
        if part.0 == place {
            return true;
        }
    }
    false
}

/// Whether one of the sums has a weight for this place.
pub(crate) fn uses(sums: &[Sum], place: usize) -> bool
    ensures { result ≡ spec.uses (sums_of sums.now) place }
{
    for sum in sums {
        if has_place(&sum.parts, place) {
            return true;
        }
    }
    false
}

// Where what stood at a place stands now.
fn moved(places: &[usize], known: usize, place: usize) -> Result<usize, AllocError>
    ensures { IfOk result (λ p. p ≡ spec.moved places.now known place) }
{
    if place < places.len() {
        Ok(places[place])
    } else {
        known.checked_add(place - places.len()).ok_or(AllocError)
    }
}

// A weight for where what stood at its place stands now.
fn moved_part(
    places: &[usize],
    known: usize,
    part: (usize, i64),
) -> Result<(usize, i64), AllocError>
    ensures { IfOk result (λ p. p ≡ spec.moved_part places.now known part) }
{
    let place = moved(places, known, part.0)?;
    Ok((place, part.1))
}

fn moved_parts(
    alloc: Global,
    places: &[usize],
    known: usize,
    parts: &[(usize, i64)],
) -> Result<Vec<(usize, i64)>, AllocError>
    ensures { IfOk result (λ v. v.items ≡ map (spec.moved_part places.now known) parts.now) }
{
    let mut moved = Vec::new(alloc);
    for part in parts {
        moved.push(moved_part(places, known, *part)?)?;
    }
    Ok(moved)
}

// The line of a sum.
fn sum_line(alloc: Global, places: &[usize], known: usize, sum: &Sum) -> Result<Line, AllocError>
    ensures { (b : Forms) → IfOk result (λ l. line_of b l ≡ spec.sum_line places.now known (summed sum.now)) }
{
    let parts = moved_parts(alloc, places, known, &sum.parts)?;
    Ok(Line::Sum(Sum {
        parts,
        divisor: sum.divisor,
    }))
}

// The lines of sums.
fn sum_lines(
    alloc: Global,
    places: &[usize],
    known: usize,
    sums: &[Sum],
) -> Result<Vec<Line>, AllocError>
    ensures { (b : Forms) → IfOk result (λ v. lines_of b v.items ≡ map (spec.sum_line places.now known) (sums_of sums.now)) }
{
    let mut lines = Vec::new(alloc);
    for sum in sums {
        lines.push(sum_line(alloc, places, known, sum)?)?;
    }
    Ok(lines)
}

/// The lines of sums, and the clash that ends the case. `places` has the place of each fact among so many known formulas. An error is
/// want of memory.
pub(crate) fn close_by_sums(
    alloc: Global,
    places: &[usize],
    known: usize,
    sums: &[Sum],
) -> Result<Vec<Line>, AllocError>
    ensures { IfOk result (λ v. CloseBySums places.now known (sums_of sums.now) v.items) }
{
    let mut lines = sum_lines(alloc, places, known, sums)?;
    let last = known
        .checked_add(sums.len().saturating_sub(1))
        .ok_or(AllocError)?;
    lines.push(Line::Clash {
        left: last,
        right: last,
    })?;
    Ok(lines)
}
