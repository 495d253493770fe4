// Two constants that a `choose` may take for objects: those that occur nowhere else.

use ss_logic::Sort;
use ss_terms::{Bank, FormulaId};
use ss_terms_puts::{are_constants, are_new};
use ss_tests_reader::{Reader, has_formulas, has_terms};
use std::alloc::{AllocError, Global};
use std::test::Fail;

// The constants, and after the colon the formulas that are there.
const NEW: &str = "
x5 x6 :
x5 x6 : (alloc s0 x0) (<= i5 i6)
x5 x6 : (alloc s0 x4) (<= i4 i3)
x5 x6 : (alloc s0 x9)
x6 x5 : (or (not (= (own (cap s0 x0 c4 x1) x2) x3)) (and ))
";

const OTHERS: &str = "
x5 : (alloc s0 x0)
x5 x6 x7 : (alloc s0 x0)
x5 i6 : (alloc s0 x0)
b5 x6 : (alloc s0 x0)
null x6 : (alloc s0 x0)
(type x5) x6 : (alloc s0 x0)
x5 x5 : (alloc s0 x0)
x0 x6 : (alloc s0 x0)
x5 x6 : (or (alloc s0 x0) (and (not (com s0 x6))))
x5 x6 : (alloc s0 x0) (alloc (set s0 x0 f2 x5) x0)
";

// Whether the constants of the line may be chosen. There is no answer where the line can't be read.
fn may_choose(alloc: Global, bank: &mut Bank, line: &str) -> Result<Option<bool>, AllocError> {
    let Some((left, right)) = line.split_once(':') else {
        return Ok(None);
    };
    let mut seen = Reader::new(alloc, None);
    seen.read(alloc, bank, left)?;
    seen.read(alloc, bank, right)?;
    let terms = seen.terms.as_slice();
    let formulas = seen.formulas.as_slice();
    if !seen.is_read || !has_terms(bank, terms) || !has_formulas(bank, formulas) {
        return Ok(None);
    }
    if !are_constants(bank, &[Sort::Rest, Sort::Rest], terms) {
        return Ok(Some(false));
    }
    let new = are_new(alloc, bank, formulas, terms)?;
    Ok(Some(new))
}

// The first line of which it isn't so, from 0.
fn first_other(
    alloc: Global,
    bank: &mut Bank,
    lines: &str,
    wanted: bool,
) -> Result<Option<usize>, AllocError> {
    for (number, line) in lines.lines().enumerate() {
        if !line.is_empty() && may_choose(alloc, bank, line)? != Some(wanted) {
            return Ok(Some(number));
        }
    }
    Ok(None)
}

// A formula that is 2^100 times in another, which has 100 parts.
fn nested(bank: &mut Bank, first: FormulaId) -> Result<FormulaId, AllocError> {
    let mut f = first;
    for _ in 0..100u32 {
        if !bank.has_formula(f) {
            return Err(AllocError);
        }
        f = bank.and(&[f, f])?;
    }
    Ok(f)
}

// Whether a constant is new beside such a formula.
fn is_new_beside_nested(alloc: Global, bank: &mut Bank) -> Result<bool, AllocError> {
    let mut seen = Reader::new(alloc, None);
    seen.read(alloc, bank, "x5 (= x0 x1)")?;
    let Some(first) = seen.formulas.first().copied() else {
        return Ok(false);
    };
    let formulas = [nested(bank, first)?];
    let terms = seen.terms.as_slice();
    if !has_terms(bank, terms) || !has_formulas(bank, &formulas) {
        return Ok(false);
    }
    are_new(alloc, bank, &formulas, terms)
}

fn found(alloc: Global, bank: &mut Bank) -> Result<([Option<usize>; 2], bool), AllocError> {
    let new = first_other(alloc, bank, NEW, true)?;
    let others = first_other(alloc, bank, OTHERS, false)?;
    let is_new = is_new_beside_nested(alloc, bank)?;
    Ok(([new, others], is_new))
}

#[test]
fn new_constants_occur_nowhere_else(rt: HostRuntime) -> Result<(), Fail> {
    let alloc = rt.alloc();
    let mut bank = Bank::new(alloc, Vec::new(alloc));
    let found = found(alloc, &mut bank)?;
    assert_eq!(rt; found, ([None, None], true));
    Ok(())
}
