// Each line of the texts is asked of the rules.

ghost use Rattle.std.specs.Prelude.{◌≡◌};
ghost use Rattle.ss_core.specs.View as view;
ghost use Rattle.ss_core.specs.Chain.{IsWithinLimits};
ghost use Rattle.ss_terms.specs.Forms.{HasTerms, IsBankOf};

use crate::classes::{are_few, program};
use crate::rows::{FITTING, OTHERS, WRONG};
use ss_core::Core;
use ss_rules::{RuleName, instance};
use ss_terms::{Bank, FormulaId, TermId, field_sorts};
use ss_tests_reader::{Reader, any_rule, has_terms};
use std::alloc::{AllocError, Global};
use std::test::Fail;

// What the rule says of these arguments.
fn said(
    alloc: Global,
    bank: &mut Bank,
    program: &Core,
    rule: RuleName,
    arguments: &[TermId],
) -> Result<Option<FormulaId>, AllocError>
    requires bank { IsBankOf (view.classes program.now.classes) bank.old }
    requires limits { IsWithinLimits (view.classes program.now.classes) }
    requires arguments { HasTerms bank.old arguments.now }
    ensures { bank.new.fields ≡ bank.old.fields }
{
    instance(alloc, bank, program, rule, arguments)
}

// Whether the rule of the line says its sentence, or says nothing where there is none. There is no answer where the line can't be read.
fn says(
    alloc: Global,
    bank: &mut Bank,
    program: &Core,
    line: &str,
) -> Result<Option<bool>, AllocError>
    requires bank { IsBankOf (view.classes program.now.classes) bank.old }
    requires limits { IsWithinLimits (view.classes program.now.classes) }
    ensures { bank.new.fields ≡ bank.old.fields }
{
    let Some((left, sentence)) = line.split_once(':') else {
        return Ok(None);
    };
    let Some((word, arguments)) = left.split_once(' ') else {
        return Ok(None);
    };
    let Some(rule) = any_rule(word) else {
        return Ok(None);
    };
    let mut given = Reader::new(alloc, None);
    given.read(alloc, bank, arguments)?;
    let arguments = given.terms.as_slice();
    if !given.is_read || !has_terms(bank, arguments) {
        return Ok(None);
    }
    let made = said(alloc, bank, program, rule, arguments)?;
    let mut wanted = Reader::new(alloc, arguments.get(1).copied());
    wanted.read(alloc, bank, sentence)?;
    if !wanted.is_read {
        return Ok(None);
    }
    Ok(Some(made == wanted.formulas.first().copied()))
}

// The first line of which it isn't so, from 0.
fn first_other(
    alloc: Global,
    bank: &mut Bank,
    program: &Core,
    lines: &str,
    wanted: bool,
) -> Result<Option<usize>, AllocError>
    requires bank { IsBankOf (view.classes program.now.classes) bank.old }
    requires limits { IsWithinLimits (view.classes program.now.classes) }
    ensures { bank.new.fields ≡ bank.old.fields }
{
    for (number, line) in lines.lines().enumerate() {
        if !line.is_empty() && says(alloc, bank, program, line)? != Some(wanted) {
            return Ok(Some(number));
        }
    }
    Ok(None)
}

// The first such line of each text.
fn first_others(
    alloc: Global,
    bank: &mut Bank,
    program: &Core,
) -> Result<[Option<usize>; 3], AllocError>
    requires bank { IsBankOf (view.classes program.now.classes) bank.old }
    requires limits { IsWithinLimits (view.classes program.now.classes) }
{
    let fitting = first_other(alloc, bank, program, FITTING, true)?;
    let others = first_other(alloc, bank, program, OTHERS, true)?;
    let wrong = first_other(alloc, bank, program, WRONG, false)?;
    Ok([fitting, others, wrong])
}

#[test]
fn rules_say_their_sentences(rt: HostRuntime) -> Result<(), Fail> {
    let alloc = rt.alloc();
    let program = program(alloc)?;
    assert!(rt; are_few(&program.classes));
    let mut bank = Bank::new(alloc, field_sorts(alloc, &program.classes)?);
    let others = first_others(alloc, &mut bank, &program)?;
    assert_eq!(rt; others, [None, None, None]);
    Ok(())
}
