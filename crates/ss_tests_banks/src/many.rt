// 100,000 terms, each merged with the first, and taken back.

ghost use Rattle.ss_tests_banks.specs.Over.{IsOver};

use crate::steps::{merged, reason_count, undone};
use ss_equality::Congruence;
use ss_logic::Sort;
use ss_terms::{Bank, Symbol, TermId};
use std::alloc::{AllocError, Global};
use std::test::Fail;

const MANY: usize = 100_000;

fn fill(bank: &mut Bank, count: usize) -> Result<(), AllocError> {
    for number in 0..count {
        let _ = bank.apply(Symbol::Constant(Sort::Rest, number), &[])?;
    }
    Ok(())
}

// Merges a term with the first, which is on the left at even numbers.
fn merge_one(bank: &Bank, congruence: &mut Congruence, number: usize) -> Result<(), AllocError>
    requires { IsOver bank.now congruence.old }
    ensures { IsOver bank.now congruence.new }
{
    let other = TermId(number);
    if number % 2 == 0 {
        merged(congruence, bank, TermId(0), other, number)
    } else {
        merged(congruence, bank, other, TermId(0), number)
    }
}

fn merge_all(bank: &Bank, congruence: &mut Congruence, count: usize) -> Result<(), AllocError>
    requires { IsOver bank.now congruence.old }
    ensures { IsOver bank.now congruence.new }
{
    for number in 1..count {
        merge_one(bank, congruence, number)?;
    }
    Ok(())
}

// Whether terms are equal by two reasons while all merges stand, and not when they are taken back.
fn holds_of_many(
    alloc: Global,
    bank: &mut Bank,
    count: usize,
    last: TermId,
) -> Result<bool, AllocError> {
    fill(bank, count)?;
    let mut congruence = Congruence::new(alloc);
    merge_all(bank, &mut congruence, count)?;
    let marks = congruence.mark();
    let reasons = reason_count(&congruence, TermId(17), last)?;
    undone(&mut congruence, bank, 50);
    let is_left = congruence.same(TermId(17), TermId(50))
        && !congruence.same(TermId(17), TermId(51));
    undone(&mut congruence, bank, 0);
    Ok(marks == last.0 && reasons == 2 && is_left && !congruence.same(TermId(17), TermId(50)))
}

#[test]
fn many_terms(rt: HostRuntime) -> Result<(), Fail> {
    let alloc = rt.alloc();
    let mut bank = Bank::new(alloc, Vec::new(alloc));
    let holds = holds_of_many(alloc, &mut bank, MANY, TermId(MANY - 1))?;
    assert!(rt; holds);
    Ok(())
}
