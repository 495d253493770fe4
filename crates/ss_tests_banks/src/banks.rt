// Equal forms have equal numbers, and what came after a mark can be forgotten.

use ss_logic::Sort;
use ss_terms::{Bank, BankMark, FormulaId, Symbol};
use std::alloc::{AllocError, Global};
use std::test::Fail;

/// The equality of a constant and a number.
fn equality(bank: &mut Bank, constant: usize, number: i128) -> Result<FormulaId, AllocError> {
    let left = bank.apply(Symbol::Constant(Sort::Whole, constant), &[])?;
    let right = bank.number(number)?;
    if !bank.has_term(left) {
        return Err(AllocError);
    }
    bank.equality(left, right)
}

/// A formula or its negation, as often as asked, each time of the one before.
fn nest(bank: &mut Bank, first: FormulaId, depth: u32) -> Result<FormulaId, AllocError> {
    let mut f = first;
    for _ in 0..depth {
        if !bank.has_formula(f) {
            return Err(AllocError);
        }
        let other = bank.negation(f);
        f = bank.or(&[f, other])?;
    }
    Ok(f)
}

/// `c0 = -7`, `c1 = -7`, and the first once more.
fn three_equalities(bank: &mut Bank) -> Result<[FormulaId; 3], AllocError> {
    let first = equality(bank, 0, -7)?;
    let second = equality(bank, 1, -7)?;
    let again = equality(bank, 0, -7)?;
    Ok([first, second, again])
}

/// A formula of depth 1000, and how many formulas the bank has then.
fn nested(bank: &mut Bank) -> Result<(FormulaId, usize), AllocError> {
    let first = equality(bank, 0, 1)?;
    let deep = nest(bank, first, 1000)?;
    Ok((deep, bank.formula_count()))
}

fn empty(alloc: Global) -> Bank {
    Bank::new(alloc, Vec::new(alloc))
}

fn are_numbered_once(bank: &mut Bank) -> Result<bool, AllocError> {
    let [first, second, again] = three_equalities(bank)?;
    let are_equal = again == first && first != second;
    Ok(are_equal && bank.term_count() == 3 && bank.formula_count() == 4)
}

#[test]
fn numbers_equal_forms_once(rt: HostRuntime) -> Result<(), Fail> {
    let mut bank = empty(rt.alloc());
    let held = are_numbered_once(&mut bank)?;
    assert!(rt; held);
    Ok(())
}

fn are_shared(bank: &mut Bank) -> Result<bool, AllocError> {
    let (deep, count) = nested(bank)?;
    let (again, then) = nested(bank)?;
    Ok(again == deep && count == 2002 && then == 2002)
}

#[test]
fn shares_the_parts_of_nested_formulas(rt: HostRuntime) -> Result<(), Fail> {
    let mut bank = empty(rt.alloc());
    let held = are_shared(&mut bank)?;
    assert!(rt; held);
    Ok(())
}

/// After a mark a third term, and a formula that names it. Whether both are forgotten, and the term gets its number again.
fn is_third_again(bank: &mut Bank) -> Result<bool, AllocError> {
    let mark = bank.mark();
    let third = bank.number(3)?;
    let _ = bank.equality(third, third)?;
    let is_done = bank.forget(mark);
    let are_left = bank.term_count() == 2 && bank.formula_count() == 0;
    let again = bank.number(3)?;
    Ok(is_done && are_left && again == third)
}

fn are_forgotten(bank: &mut Bank) -> Result<bool, AllocError> {
    let _ = bank.number(1)?;
    let _ = bank.number(2)?;
    is_third_again(bank)
}

#[test]
fn forgets_what_came_after_a_mark(rt: HostRuntime) -> Result<(), Fail> {
    let mut bank = empty(rt.alloc());
    let held = are_forgotten(&mut bank)?;
    assert!(rt; held);
    Ok(())
}

/// `c0 = 1`. Whether nothing is forgotten after a mark between its terms, and after one that the bank doesn't reach.
fn are_kept(bank: &mut Bank) -> Result<bool, AllocError> {
    let _ = equality(bank, 0, 1)?;
    let between = bank.forget(BankMark {
        terms: 1,
        formulas: 1,
    });
    let past = bank.forget(BankMark {
        terms: 3,
        formulas: 1,
    });
    let are_left = bank.term_count() == 2 && bank.formula_count() == 2;
    Ok(!between && !past && are_left)
}

#[test]
fn keeps_the_terms_of_a_formula_before_a_mark(rt: HostRuntime) -> Result<(), Fail> {
    let mut bank = empty(rt.alloc());
    let held = are_kept(&mut bank)?;
    assert!(rt; held);
    Ok(())
}
