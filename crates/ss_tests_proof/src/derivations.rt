// Each derivation of the texts is checked.

ghost use Rattle.std.specs.Prelude.{◌≡◌};
ghost use Rattle.ss_core.specs.View as view;
ghost use Rattle.ss_core.specs.Chain.{IsWithinLimits};
ghost use Rattle.ss_terms.specs.Forms.{IsBankOf};

use crate::classes::{are_few, obligation, program};
use crate::derived::{ACCEPTED, REFUSED, UNFINISHED};
use crate::lines::{first_word, read_line};
use ss_check::{CheckStop, check};
use ss_core::Core;
use ss_deriv::{Draft, Line};
use ss_terms::{Bank, FormulaId, field_sorts};
use ss_tests_reader::{Reader, has_formulas};
use std::alloc::{AllocError, Global};
use std::test::Fail;

// What is said of the lines of an obligation.
#[derive(Clone, Copy, PartialEq, Eq)]
enum Answer {
    Accepted,
    // The line with this number, from 1, is no step.
    Refused { at: usize },
    // The lines don't end each case, or one stands where none is open.
    Unfinished,
    // The texts can't be read.
    Unread,
}

// The answer that a line names.
fn named_answer(line: &str) -> Option<Answer> {
    let (word, rest) = first_word(line);
    match word {
        "accepted" => Some(Answer::Accepted),
        "refused" => Some(Answer::Refused {
            at: rest.parse::<usize>().ok()?,
        }),
        "unfinished" => Some(Answer::Unfinished),
        _ => None,
    }
}

// Adds the line, where it may come next.
fn add(draft: &mut Draft, line: Line) -> Result<bool, AllocError> {
    if !draft.allows(&line) {
        return Ok(false);
    }
    draft.add(line)?;
    Ok(true)
}

// An obligation and its lines, as far as they are read.
#[derive(Drop)]
struct Row {
    premises: Vec<FormulaId>,
    goals: Vec<FormulaId>,
    draft: Draft,
    is_read: bool,
    is_shaped: bool,
}

impl Row {
    fn new(alloc: Global) -> Self {
        Row {
            premises: Vec::new(alloc),
            goals: Vec::new(alloc),
            draft: Draft::new(alloc),
            is_read: true,
            is_shaped: true,
        }
    }

    // Takes a line of the text: a premise, the goal, or a line of the derivation between `obligation` and `end`.
    fn take(&mut self, alloc: Global, bank: &mut Bank, text: &str) -> Result<(), AllocError>
        ensures { bank.new.fields ≡ bank.old.fields }
    {
        let (word, rest) = first_word(text);
        match word {
            "given" => {
                let f = read_formula(alloc, bank, rest)?;
                self.premises.extend_from_slice(&f)?;
            }
            "goal" => {
                let f = read_formula(alloc, bank, rest)?;
                self.goals.extend_from_slice(&f)?;
            }
            "#" => {}
            "obligation" => {}
            "end" => {}
            _ => self.take_line(alloc, bank, text)?,
        }
        Ok(())
    }

    fn take_line(&mut self, alloc: Global, bank: &mut Bank, text: &str) -> Result<(), AllocError>
        ensures { bank.new.fields ≡ bank.old.fields }
    {
        match read_line(alloc, bank, text)? {
            Some(line) => self.add(line),
            None => self.fail(),
        }
    }

    fn fail(&mut self) -> Result<(), AllocError> {
        self.is_read = false;
        Ok(())
    }

    fn add(&mut self, line: Line) -> Result<(), AllocError> {
        if !add(&mut self.draft, line)? {
            self.is_shaped = false;
        }
        Ok(())
    }
}

/// The formulas of a text, or none where it can't be read.
pub fn read_formula(
    alloc: Global,
    bank: &mut Bank,
    text: &str,
) -> Result<Vec<FormulaId>, AllocError>
    ensures { bank.new.fields ≡ bank.old.fields }
{
    let mut seen = Reader::new(alloc, None);
    seen.read(alloc, bank, text)?;
    if !seen.is_read || !seen.terms.is_empty() {
        return Ok(Vec::new(alloc));
    }
    Ok(seen.formulas)
}

// What is said of the row.
fn answer_to(alloc: Global, bank: &mut Bank, program: &Core, row: Row) -> Result<Answer, AllocError>
    requires bank { IsBankOf (view.classes program.now.classes) bank.old }
    requires limits { IsWithinLimits (view.classes program.now.classes) }
    ensures { bank.new.fields ≡ bank.old.fields }
{
    let Row {
        premises,
        goals,
        draft,
        is_read,
        is_shaped,
    } = row;
    let [goal] = goals.as_slice() else {
        return Ok(Answer::Unread);
    };
    if !is_read || !has_formulas(bank, &premises) || !bank.has_formula(*goal) {
        return Ok(Answer::Unread);
    }
    if !is_shaped || !draft.is_finished() {
        return Ok(Answer::Unfinished);
    }
    let obligation = obligation(&premises, *goal);
    match check(alloc, bank, program, &obligation, &draft.finish()) {
        Ok(()) => Ok(Answer::Accepted),
        Err(CheckStop::BadStep { at }) => Ok(Answer::Refused { at }),
        Err(CheckStop::Memory) => Err(AllocError),
    }
}

// The line of the first answer that isn't the one that is given, from 0.
fn first_other(
    alloc: Global,
    bank: &mut Bank,
    program: &Core,
    text: &str,
) -> Result<Option<usize>, AllocError>
    requires bank { IsBankOf (view.classes program.now.classes) bank.old }
    requires limits { IsWithinLimits (view.classes program.now.classes) }
    ensures { bank.new.fields ≡ bank.old.fields }
{
    let mut row = Row::new(alloc);
    for (number, line) in text.lines().enumerate() {
        if line.is_empty() {
            continue;
        }
        match named_answer(line) {
            Some(wanted) => {
                if answer_to(alloc, bank, program, row)? != wanted {
                    return Ok(Some(number));
                }
                row = Row::new(alloc);
            }
            None => row.take(alloc, bank, line)?,
        }
    }
    Ok(None)
}

fn first_others(
    alloc: Global,
    bank: &mut Bank,
    program: &Core,
) -> Result<[Option<usize>; 3], AllocError>
    requires bank { IsBankOf (view.classes program.now.classes) bank.old }
    requires limits { IsWithinLimits (view.classes program.now.classes) }
{
    let accepted = first_other(alloc, bank, program, ACCEPTED)?;
    let refused = first_other(alloc, bank, program, REFUSED)?;
    let unfinished = first_other(alloc, bank, program, UNFINISHED)?;
    Ok([accepted, refused, unfinished])
}

#[test]
fn derivations_have_their_answers(rt: HostRuntime) -> Result<(), Fail> {
    let alloc = rt.alloc();
    let program = program(alloc)?;
    assert!(rt; are_few(&program.classes));
    let mut bank = Bank::new(alloc, field_sorts(alloc, &program.classes)?);
    let others = first_others(alloc, &mut bank, &program)?;
    assert_eq!(rt; others, [None, None, None]);
    Ok(())
}
