// Rows of merges, questions and answers. The answers were worked out by hand.

ghost use Rattle.ss_tests_banks.specs.Over.{IsOver};

use crate::steps::{merged, reasons_of, undone};
use ss_equality::Congruence;
use ss_logic::Sort;
use ss_terms::{Bank, Symbol, TermId};
use std::alloc::{AllocError, Global};
use std::test::Fail;

// A merge and its reason; all but so many merges are taken back; whether two terms are equal. The reasons why they are, as a sum of powers of two, or
// 0 where they aren't equal; how many merges stand.
#[derive(Clone, Copy, Drop)]
enum Step {
    Merge(TermId, TermId, usize),
    Undo(usize),
    Same(TermId, TermId),
    Why(TermId, TermId),
    Mark,
}

fn add(answers: &mut Vec<u64>, answer: u64) -> Result<(), AllocError> {
    answers.push(answer)?;
    Ok(())
}

fn take_step(
    congruence: &mut Congruence,
    bank: &Bank,
    answers: &mut Vec<u64>,
    step: Step,
) -> Result<(), AllocError>
    requires { IsOver bank.now congruence.old }
    ensures { IsOver bank.now congruence.new }
{
    match step {
        Step::Merge(x, y, because) => merged(congruence, bank, x, y, because),
        Step::Undo(to) => {
            undone(congruence, bank, to);
            Ok(())
        }
        Step::Same(x, y) => add(answers, if congruence.same(x, y) { 1 } else { 0 }),
        Step::Why(x, y) => match reasons_of(congruence, x, y) {
            Ok(sum) => add(answers, sum),
            Err(refused) => Err(refused),
        },
        Step::Mark => add(answers, congruence.mark() as u64),
    }
}

fn answers(alloc: Global, bank: &Bank, steps: &[Step]) -> Result<Vec<u64>, AllocError> {
    let mut congruence = Congruence::new(alloc);
    let mut answers = Vec::new(alloc);
    for step in steps {
        take_step(&mut congruence, bank, &mut answers, *step)?;
    }
    Ok(answers)
}

// Whether the steps give these answers.
fn are(alloc: Global, bank: &Bank, steps: &[Step], wanted: &[u64]) -> Result<bool, AllocError> {
    let found = answers(alloc, bank, steps)?;
    Ok(found.as_slice() == wanted)
}

fn constant(bank: &mut Bank, number: usize) -> Result<TermId, AllocError> {
    bank.apply(Symbol::Constant(Sort::Rest, number), &[])
}

// A function of one argument.
fn one(bank: &mut Bank, x: TermId) -> Result<TermId, AllocError> {
    if bank.has_term(x) {
        bank.apply(Symbol::Length, &[x])
    } else {
        Ok(x)
    }
}

// A function of two.
fn two(bank: &mut Bank, x: TermId, y: TermId) -> Result<TermId, AllocError> {
    if bank.has_term(x) && bank.has_term(y) {
        bank.apply(Symbol::Pair, &[x, y])
    } else {
        Ok(x)
    }
}

// A constant, and a function of it once, thrice, four and five times.
fn nested_terms(bank: &mut Bank) -> Result<(TermId, TermId, TermId, TermId, TermId), AllocError> {
    let a = constant(bank, 0)?;
    let f1 = one(bank, a)?;
    let f2 = one(bank, f1)?;
    let f3 = one(bank, f2)?;
    let f4 = one(bank, f3)?;
    let f5 = one(bank, f4)?;
    Ok((a, f1, f3, f4, f5))
}

// From f(f(f(f(f(a))))) = a and f(f(f(a))) = a follows f(a) = a, from both.
fn nested(alloc: Global, bank: &mut Bank) -> Result<bool, AllocError> {
    let (a, f1, f3, f4, f5) = nested_terms(bank)?;
    let steps = [
        Step::Merge(f5, a, 1),
        Step::Same(f1, a),
        Step::Merge(f3, a, 2),
        Step::Same(f1, a),
        Step::Why(f1, a),
        Step::Why(f4, f1),
        Step::Undo(1),
        Step::Same(f1, a),
        Step::Same(f5, a),
        Step::Same(f3, a),
    ];
    are(alloc, bank, &steps, &[0, 1, 6, 4, 0, 1, 0])
}

fn four_constants(bank: &mut Bank) -> Result<(TermId, TermId, TermId, TermId), AllocError> {
    let a = constant(bank, 0)?;
    let b = constant(bank, 1)?;
    let c = constant(bank, 2)?;
    let d = constant(bank, 3)?;
    Ok((a, b, c, d))
}

fn two_arguments(alloc: Global, bank: &mut Bank) -> Result<bool, AllocError> {
    let (a, b, c, d) = four_constants(bank)?;
    let gab = two(bank, a, b)?;
    let gcd = two(bank, c, d)?;
    let gba = two(bank, b, a)?;
    let steps = [
        Step::Merge(a, c, 1),
        Step::Same(gab, gcd),
        Step::Merge(b, d, 2),
        Step::Same(gab, gcd),
        Step::Why(gab, gcd),
        Step::Same(gab, gba),
        Step::Merge(c, d, 3),
        Step::Why(gab, gba),
    ];
    are(alloc, bank, &steps, &[0, 1, 6, 0, 14])
}

// Only the merges that a pair needs are told.
fn chains(alloc: Global, bank: &mut Bank) -> Result<bool, AllocError> {
    let (a, b, c, d) = four_constants(bank)?;
    let e = constant(bank, 4)?;
    let steps = [
        Step::Merge(a, b, 1),
        Step::Merge(c, d, 2),
        Step::Merge(b, e, 3),
        Step::Why(a, e),
        Step::Same(a, c),
        Step::Merge(d, e, 4),
        Step::Why(a, c),
        Step::Why(a, b),
        Step::Mark,
        Step::Undo(2),
        Step::Same(a, e),
        Step::Same(a, b),
        Step::Same(c, d),
        Step::Merge(b, d, 5),
        Step::Why(a, c),
        Step::Mark,
        Step::Merge(a, a, 6),
        Step::Mark,
        Step::Same(e, e),
        Step::Why(e, e),
    ];
    are(
        alloc,
        bank,
        &steps,
        &[10, 0, 30, 2, 4, 0, 1, 1, 38, 3, 4, 1, 0],
    )
}

// A merge that is taken back and made again.
fn again(alloc: Global, bank: &mut Bank) -> Result<bool, AllocError> {
    let a = constant(bank, 0)?;
    let b = constant(bank, 1)?;
    let fa = one(bank, a)?;
    let fb = one(bank, b)?;
    let steps = [
        Step::Mark,
        Step::Merge(a, b, 3),
        Step::Same(fa, fb),
        Step::Undo(0),
        Step::Same(fa, fb),
        Step::Merge(a, b, 3),
        Step::Why(fa, fb),
    ];
    are(alloc, bank, &steps, &[0, 1, 0, 8])
}

fn held(alloc: Global, bank: &mut Bank) -> Result<[bool; 4], AllocError> {
    let nested = nested(alloc, bank)?;
    let two_arguments = two_arguments(alloc, bank)?;
    let chains = chains(alloc, bank)?;
    let again = again(alloc, bank)?;
    Ok([nested, two_arguments, chains, again])
}

#[test]
fn merges_have_their_answers(rt: HostRuntime) -> Result<(), Fail> {
    let alloc = rt.alloc();
    let mut bank = Bank::new(alloc, Vec::new(alloc));
    let held = held(alloc, &mut bank)?;
    assert_eq!(rt; held, [true, true, true, true]);
    Ok(())
}
