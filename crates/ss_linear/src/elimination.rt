// Sums of many facts, found by elimination of terms. Nothing here is trusted: what is found is checked.

use ss_deriv::Sum;
use ss_linear_sums::SumFact;
use ss_search_numbers::{NONE, Rows, Source};
use std::alloc::{AllocError, Global};

// The row that a fact is.
fn add_row(rows: &mut Rows, place: usize, fact: &SumFact) -> Result<(), AllocError> {
    rows.begin();
    rows.add_part(Source::Fact(place), 1)?;
    for part in &fact.sum.parts {
        rows.add(part.term.0, part.coefficient)?;
    }
    rows.add_number(fact.sum.constant);
    rows.end(fact.is_equality)
}

// The sum that a row is, and what it was divided by.
fn sum_of_row(alloc: Global, rows: &mut Rows, row: usize) -> Result<Option<Sum>, AllocError> {
    let Some(found) = rows.parts_of(alloc, row)? else {
        return Ok(None);
    };
    let mut parts = Vec::new(alloc);
    for part in &found {
        let place = match part.source {
            Source::Fact(place) => place,
            Source::Row(row) => rows.fact(row),
            Source::Equal(_, _) => NONE,
        };
        if part.weight != 0 {
            parts.push((place, part.weight))?;
        }
    }
    Ok(Some(Sum {
        parts,
        divisor: rows.divisor(row),
    }))
}

// A sum for the row, and before it one for each row on the way that was divided.
fn sums_of_row(
    alloc: Global,
    rows: &mut Rows,
    row: usize,
    known: usize,
) -> Result<Option<Vec<Sum>>, AllocError> {
    rows.find_needed(row)?;
    let mut sums = Vec::new(alloc);
    for place in 0..row.saturating_add(1) {
        if rows.is_step(place, row) {
            let Some(sum) = sum_of_row(alloc, rows, place)? else {
                return Ok(None);
            };
            rows.set_fact(place, known.saturating_add(sums.len()));
            sums.push(sum)?;
        }
    }
    Ok(Some(sums))
}

/// Sums that end in a contradiction, it seems.
pub(crate) fn eliminated(
    alloc: Global,
    facts: &[Option<SumFact>],
) -> Result<Option<Vec<Sum>>, AllocError> {
    let mut rows = Rows::new(alloc);
    for (place, fact) in facts.iter().enumerate() {
        if let Some(fact) = fact {
            add_row(&mut rows, place, fact)?;
        }
    }
    let row = rows.refute()?;
    if row == NONE {
        return Ok(None);
    }
    sums_of_row(alloc, &mut rows, row, facts.len())
}
