// What the search finds of each obligation of a text. A derivation that is found has to be accepted.

ghost use Rattle.std.specs.Prelude.{◌≡◌};
ghost use Rattle.ss_core.specs.View as view;
ghost use Rattle.ss_core.specs.Chain.{IsWithinLimits};
ghost use Rattle.ss_logic_means.specs.Scenes.{AreInvariants};
ghost use Rattle.ss_terms.specs.Forms.{IsBankOf};

use crate::classes::{are_few, are_plain, obligation, plain_program};
use crate::derivations::read_formula;
use crate::lines::first_word;
use ss_check::check;
use ss_core::Core;
use ss_deriv::{Derivation, Line};
use ss_search::{Found, Options, prove};
use ss_terms::{Bank, FormulaId, Obligation, field_sorts};
use ss_tests_reader::{are_formed, has_formulas, is_formed};
use std::alloc::{AllocError, Global};
use std::test::Fail;

/// Obligations, and what is found of them. `absurd` is said of premises that can't all hold: the derivation doesn't deny the goal.
const FOUND: &str = "
# both, by cases
given (or (= b0 true) (= b1 true))
given (or (= b0 true) (not (= b1 true)))
given (or (not (= b0 true)) (= b1 true))
goal (and (= b0 true) (= b1 true))
proved

# choices inside choices
given (or (or (= b0 true) (= b1 true)))
given (or (or (= b0 true) (not (= b1 true))))
given (or (= b0 true) (= b1 true))
goal (= b2 true)
countered

# the goal is far from premises that can't all hold
given (or (= b0 true) (= b1 true))
given (or (= b0 true) (not (= b1 true)))
given (and (or (not (= b0 true)) (= b1 true)) (or (not (= b0 true)) (not (= b1 true))))
goal (and (= b2 true) (= b3 true))
absurd

# a written field is what was written
goal (= (field (set s0 x0 f0 5) x0 f0) 5)
proved

# and nothing else
goal (= (field (set s0 x0 f0 5) x0 f0) 4)
countered

# the field of another object stays
given (not (= x1 x0))
given (= (field s0 x1 f0) 7)
goal (= (field (set s0 x0 f0 5) x1 f0) 7)
proved

# an object that is unpacked leaves the level of each other one
given (not (= x0 x1))
goal (= (inv (unp s0 x0 c6) x1) (inv s0 x1))
proved

# it doesn't change it
given (not (= x0 x1))
goal (not (= (inv (unp s0 x0 c6) x1) (inv s0 x1)))
countered

# of what is so of all objects that are committed
given (forall object (or (not (com s0 v0)) (= (field s0 v0 f0) 3)))
given (com s0 x1)
goal (= (field s0 x1 f0) 3)
proved

# a number isn't the one behind it: the search sums comparisons, of which there are none, and only `refute` sees this
given (= (+ i0 1) i0)
goal (= b0 true)
absurd

# two comparisons, whose coefficients are too large for these sums
given (<= (* 100000000000000000000 i0) (* 100000000000000000000 i1))
given (<= (+ (* 100000000000000000000 i1) 1) (* 100000000000000000000 i0))
goal (= b0 true)
absurd
";

#[derive(Clone, Copy, PartialEq, Eq)]
enum Answer {
    // By a derivation that denies the goal.
    Proved,
    // By a derivation from the premises alone.
    Absurd,
    Countered,
    // Nothing is found, what is found isn't accepted, or the text can't be read.
    Other,
}

fn named_answer(line: &str) -> Option<Answer> {
    match line {
        "proved" => Some(Answer::Proved),
        "absurd" => Some(Answer::Absurd),
        "countered" => Some(Answer::Countered),
        _ => None,
    }
}

// An obligation, as far as it is read.
#[derive(Drop)]
struct Asked {
    premises: Vec<FormulaId>,
    goals: Vec<FormulaId>,
}

impl Asked {
    fn new(alloc: Global) -> Self {
        Asked {
            premises: Vec::new(alloc),
            goals: Vec::new(alloc),
        }
    }

    fn take(&mut self, alloc: Global, bank: &mut Bank, text: &str) -> Result<(), AllocError>
        ensures { bank.new.fields ≡ bank.old.fields }
    {
        let (word, rest) = first_word(text);
        match word {
            "given" => {
                let f = read_formula(alloc, bank, rest)?;
                self.premises.extend_from_slice(&f)?;
            }
            "goal" => {
                let f = read_formula(alloc, bank, rest)?;
                self.goals.extend_from_slice(&f)?;
            }
            _ => {}
        }
        Ok(())
    }
}

fn denies(derivation: &Derivation) -> bool {
    for line in derivation.lines() {
        if matches!(line, Line::Denied) {
            return true;
        }
    }
    false
}

// What is said of lines that are found.
fn accepted(
    alloc: Global,
    bank: &mut Bank,
    program: &Core,
    obligation: &Obligation<'_>,
    derivation: &Derivation,
) -> Answer
    requires bank { IsBankOf (view.classes program.now.classes) bank.old }
    requires limits { IsWithinLimits (view.classes program.now.classes) }
    ensures { bank.new.fields ≡ bank.old.fields }
{
    if !has_formulas(bank, obligation.premises) || !bank.has_formula(obligation.goal) {
        return Answer::Other;
    }
    match check(alloc, bank, program, obligation, derivation) {
        Ok(()) if denies(derivation) => Answer::Proved,
        Ok(()) => Answer::Absurd,
        Err(_) => Answer::Other,
    }
}

// Searches once, where the obligation is well formed.
fn search_for(
    alloc: Global,
    bank: &mut Bank,
    program: &Core,
    obligation: &Obligation<'_>,
) -> Option<Found>
    requires bank { IsBankOf (view.classes program.now.classes) bank.old }
    requires limits { IsWithinLimits (view.classes program.now.classes) }
    requires invariants { AreInvariants (view.classes program.now.classes) }
    ensures { bank.new.fields ≡ bank.old.fields }
{
    if !are_formed(bank, obligation.premises) || !is_formed(bank, obligation.goal) {
        return None;
    }
    let options = Options {
        rounds: 2,
        splits: 200_000,
        instances: 50_000,
    };
    Some(prove(alloc, bank, program, obligation, &options))
}

fn answer_to(
    alloc: Global,
    bank: &mut Bank,
    program: &Core,
    asked: &Asked,
) -> Result<Answer, AllocError>
    requires bank { IsBankOf (view.classes program.now.classes) bank.old }
    requires limits { IsWithinLimits (view.classes program.now.classes) }
    requires invariants { AreInvariants (view.classes program.now.classes) }
    ensures { bank.new.fields ≡ bank.old.fields }
{
    let premises = asked.premises.as_slice();
    let [goal] = asked.goals.as_slice() else {
        return Ok(Answer::Other);
    };
    let obligation = obligation(premises, *goal);
    match search_for(alloc, bank, program, &obligation) {
        Some(Found::Proved(derivation)) => {
            Ok(accepted(alloc, bank, program, &obligation, &derivation))
        }
        Some(Found::Countered(_)) => Ok(Answer::Countered),
        _ => Ok(Answer::Other),
    }
}

// The line of the first answer that isn't the one that is given, from 0.
fn first_other(alloc: Global, bank: &mut Bank, program: &Core) -> Result<Option<usize>, AllocError>
    requires bank { IsBankOf (view.classes program.now.classes) bank.old }
    requires limits { IsWithinLimits (view.classes program.now.classes) }
    requires invariants { AreInvariants (view.classes program.now.classes) }
    ensures { bank.new.fields ≡ bank.old.fields }
{
    let mut asked = Asked::new(alloc);
    for (number, line) in FOUND.lines().enumerate() {
        match named_answer(line) {
            Some(wanted) => {
                if answer_to(alloc, bank, program, &asked)? != wanted {
                    return Ok(Some(number));
                }
                asked = Asked::new(alloc);
            }
            None => asked.take(alloc, bank, line)?,
        }
    }
    Ok(None)
}

#[test]
fn obligations_are_decided(rt: HostRuntime) -> Result<(), Fail> {
    let alloc = rt.alloc();
    let program = plain_program(alloc)?;
    assert!(rt; are_few(&program.classes));
    assert!(rt; are_plain(&program.classes));
    let mut bank = Bank::new(alloc, field_sorts(alloc, &program.classes)?);
    assert!(rt; first_other(alloc, &mut bank, &program)?.is_none());
    Ok(())
}
