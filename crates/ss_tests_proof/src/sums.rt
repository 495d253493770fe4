// Known facts that contradict each other by a weighted sum, and others that don't.

use crate::derivations::read_formula;
use ss_deriv::Sum;
use ss_linear::refute;
use ss_linear_sums::sum;
use ss_terms::{Bank, FormulaId};
use ss_tests_reader::{Reader, has_formulas};
use std::alloc::{AllocError, Global};
use std::test::Fail;

// A sum of one fact, of two or of differences is a contradiction: three differences in a circle; a part that is a product; an equality
// against its direction; the negation of an order; numbers alone; a number at the end of what differences take. Others need elimination:
// three facts; whole numbers between two halves; equations that replace terms.
const CONTRADICTIONS: &str = "
(<= i0 i1) (<= i1 i2) (<= (+ i2 1) i0)
(<= (* i0 i1) i2) (<= (+ i2 1) (* i0 i1))
(= i0 i1) (<= (+ i0 1) i1)
(= i0 i1) (<= (+ i1 1) i0)
(<= i0 3) (not (<= i0 3))
(not (<= i0 i0))
(<= 1 0)
(<= (* 2 i0) (* 2 i1)) (<= (* 2 (+ i1 1)) (* 2 i0))
(<= 5 i0) (<= i0 i1) (<= i1 i2) (<= i2 4)
(<= i0 i1) (= i2 i1) (<= (+ i2 1) i3) (<= i3 i0)
(= (+ i0 i1) i2) (<= (+ i2 1) (+ i1 i0))
(<= (- i0 i0) (- 0 1))
(<= i0 -18446744073709551615) (<= -18446744073709551614 i0)
(<= (+ i0 i1) 5) (<= 3 i0) (<= 3 i1)
(<= (* 2 i0) 1) (<= 1 (* 2 i0))
(= (+ i0 i1) i2) (= (- i0 i1) i3) (<= (+ i2 i3) 5) (<= 3 i0)
";

// None is: a circle of weight 0; a chain; facts of other sorts; sums that leave room; and no fact.
const OTHERS: &str = "
(<= i0 i1) (<= i1 i2) (<= i2 i0)
(<= i0 i1) (<= i1 i2) (<= (+ i0 1) i2)
(= x0 x1) (<= i0 i1)
(<= (+ i0 i1) 5) (<= 3 i0)
(<= (+ i0 i1) 5) (<= 3 i0) (<= i1 2)
(<= (* 2 i0) i1) (<= i1 (* 3 i0))
(not (= i0 i1)) (<= i0 i1) (<= i1 i0)
(<= 0 1)

";

// What the last sum says of the facts and of what the sums before it say, where each says something.
fn last_of(
    alloc: Global,
    bank: &mut Bank,
    facts: &[FormulaId],
    sums: &[Sum],
) -> Result<Option<FormulaId>, AllocError> {
    let mut known = Vec::from_slice(alloc, facts)?;
    let mut last = None;
    for s in sums {
        if !has_formulas(bank, &known) {
            return Ok(None);
        }
        last = sum(alloc, bank, &known, &s.parts, s.divisor)?;
        match last {
            Some(f) => known.push(f)?,
            None => return Ok(None),
        }
    }
    Ok(last)
}

// Each says that 0 is at most a number below 0.
const BELOW: &str = "
(<= 0 -1)
(<= 0 -2)
(<= 0 -3)
(<= 0 -4)
(<= 0 -5)
(<= 0 -6)
(<= 0 -7)
(<= 0 -8)
(<= 0 -9)
(<= 0 -10)
(<= 0 -11)
(<= 0 -12)
(<= 0 -13)
(<= 0 -14)
(<= 0 -15)
(<= 0 -16)
(<= 0 -17)
(<= 0 -18)
(<= 0 -19)
(<= 0 -20)
(<= 0 -21)
(<= 0 -22)
(<= 0 -23)
(<= 0 -24)
(<= 0 -25)
(<= 0 -26)
(<= 0 -27)
(<= 0 -28)
(<= 0 -29)
(<= 0 -30)
";

// Whether a formula is one of these.
fn is_below(alloc: Global, bank: &mut Bank, f: FormulaId) -> Result<bool, AllocError> {
    for line in BELOW.lines() {
        let read = read_formula(alloc, bank, line)?;
        if let Some(g) = read.first() {
            if *g == f {
                return Ok(true);
            }
        }
    }
    Ok(false)
}

// Whether there is a contradiction in the facts of a line. There is no answer where the line can't be read, or where the sums don't end in what is false.
fn is_refuted(alloc: Global, bank: &mut Bank, line: &str) -> Result<Option<bool>, AllocError> {
    let mut seen = Reader::new(alloc, None);
    seen.read(alloc, bank, line)?;
    let facts = seen.formulas.as_slice();
    if !seen.is_read || !has_formulas(bank, facts) {
        return Ok(None);
    }
    let Some(sums) = refute(alloc, bank, facts)? else {
        return Ok(Some(false));
    };
    match last_of(alloc, bank, facts, &sums)? {
        Some(last) => Ok(if is_below(alloc, bank, last)? {
            Some(true)
        } else {
            None
        }),
        None => Ok(None),
    }
}

// The first line of which it isn't so, from 0.
fn first_other(
    alloc: Global,
    bank: &mut Bank,
    lines: &str,
    wanted: bool,
) -> Result<Option<usize>, AllocError> {
    for (number, line) in lines.lines().enumerate() {
        if !line.is_empty() && is_refuted(alloc, bank, line)? != Some(wanted) {
            return Ok(Some(number));
        }
    }
    Ok(None)
}

fn first_others(alloc: Global, bank: &mut Bank) -> Result<[Option<usize>; 2], AllocError> {
    let found = first_other(alloc, bank, CONTRADICTIONS, true)?;
    let others = first_other(alloc, bank, OTHERS, false)?;
    Ok([found, others])
}

#[test]
fn contradictions_of_sums_are_found(rt: HostRuntime) -> Result<(), Fail> {
    let alloc = rt.alloc();
    let mut bank = Bank::new(alloc, Vec::new(alloc));
    let others = first_others(alloc, &mut bank)?;
    assert_eq!(rt; others, [None, None]);
    Ok(())
}
