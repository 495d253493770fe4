// One step over a congruence.

ghost use Rattle.ss_tests_banks.specs.Over.{IsOver};

use ss_equality::Congruence;
use ss_terms::{Bank, TermId};
use std::alloc::AllocError;

/// A merge of two terms that the bank has.
pub fn merged(
    congruence: &mut Congruence,
    bank: &Bank,
    x: TermId,
    y: TermId,
    because: usize,
) -> Result<(), AllocError>
    requires { IsOver bank.now congruence.old }
    ensures { IsOver bank.now congruence.new }
{
    if !bank.has_term(x) {
        return Ok(());
    }
    if !bank.has_term(y) {
        return Ok(());
    }
    congruence.merge(bank, x, y, because)
}

/// All but the first merges are taken back, where there are so many.
pub fn undone(congruence: &mut Congruence, bank: &Bank, to: usize)
    requires { IsOver bank.now congruence.old }
    ensures { IsOver bank.now congruence.new }
{
    let _count = bank.term_count();
    if to > congruence.mark() {
        return;
    }
    congruence.undo(to);
}

/// The reasons why two terms are equal, as a sum of powers of two; 0 where they aren't.
pub fn reasons_of(congruence: &Congruence, x: TermId, y: TermId) -> Result<u64, AllocError> {
    if !congruence.same(x, y) {
        return Ok(0);
    }
    let reasons = congruence.explain(x, y)?;
    Ok(sum_of(&reasons))
}

/// How many reasons are told.
pub fn reason_count(congruence: &Congruence, x: TermId, y: TermId) -> Result<usize, AllocError> {
    if !congruence.same(x, y) {
        return Ok(0);
    }
    let reasons = congruence.explain(x, y)?;
    Ok(reasons.len())
}

// The sum of the powers of two.
fn sum_of(reasons: &[usize]) -> u64 {
    let mut sum = 0;
    for reason in reasons {
        if *reason < 60 {
            sum |= 1u64 << *reason;
        }
    }
    sum
}
