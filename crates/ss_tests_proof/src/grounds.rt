// The ground forms of obligations, counted by hand.

ghost use Rattle.std.specs.Prelude.{◌≡◌};
ghost use Rattle.ss_core.specs.View as view;
ghost use Rattle.ss_core.specs.Chain.{IsWithinLimits};
ghost use Rattle.ss_terms.specs.Forms.{IsBankOf};

use crate::classes::{are_few, obligation, program};
use crate::derivations::read_formula;
use crate::lines::first_word;
use ss_core::Core;
use ss_rules::{GroundStop, ground};
use ss_terms::{Bank, FormulaId, field_sorts};
use ss_tests_reader::has_formulas;
use std::alloc::{AllocError, Global};
use std::test::Fail;

/// Obligations. The formulas after `is` are the ground form after the rounds after `after`, in order, and no fewer are allowed.
const GROUND: &str = "
# a denied `forall` is opened at the first constant that is new
given (<= i2 i0)
goal (forall int (<= v0 i0))
is (<= i2 i0)
is (not (<= i1 i0))
after 0
after 2

# a read over a written field, and the three ways of two whole numbers
given (not (= x1 x0))
goal (= (field (set s0 x0 f0 5) x1 f0) (field s0 x1 f0))
is (not (= x1 x0))
is (not (= (field (set s0 x0 f0 5) x1 f0) (field s0 x1 f0)))
is (and (or (not (= x1 x0)) (= (field (set s0 x0 f0 5) x1 f0) 5)) (or (= x1 x0) (= (field (set s0 x0 f0 5) x1 f0) (field s0 x1 f0))))
after 0
is (or (= (field (set s0 x0 f0 5) x1 f0) (field s0 x1 f0)) (<= (+ (field (set s0 x0 f0 5) x1 f0) 1) (field s0 x1 f0)) (<= (+ (field s0 x1 f0) 1) (field (set s0 x0 f0 5) x1 f0)))
is (or (= (field (set s0 x0 f0 5) x1 f0) 5) (<= (+ (field (set s0 x0 f0 5) x1 f0) 1) 5) (<= (+ 5 1) (field (set s0 x0 f0 5) x1 f0)))
after 1
after 2

# two `forall`, the last one first; in the second round each has a new instance, the one in front too
given (forall object (<= 0 (field s0 v0 f0)))
given (forall object (<= (field s0 v0 f0) (field s0 (field s0 v0 f2) f0)))
goal (<= 0 (field s0 x0 f0))
is (forall object (<= 0 (field s0 v0 f0)))
is (forall object (<= (field s0 v0 f0) (field s0 (field s0 v0 f2) f0)))
is (not (<= 0 (field s0 x0 f0)))
after 0
is (or (not (forall object (<= (field s0 v0 f0) (field s0 (field s0 v0 f2) f0)))) (<= (field s0 x0 f0) (field s0 (field s0 x0 f2) f0)))
is (or (not (forall object (<= 0 (field s0 v0 f0)))) (<= 0 (field s0 x0 f0)))
is (or (not (forall object (<= 0 (field s0 v0 f0)))) (<= 0 (field s0 (field s0 x0 f2) f0)))
after 1
is (or (not (forall object (<= (field s0 v0 f0) (field s0 (field s0 v0 f2) f0)))) (<= (field s0 (field s0 x0 f2) f0) (field s0 (field s0 (field s0 x0 f2) f2) f0)))
is (or (not (forall object (<= 0 (field s0 v0 f0)))) (<= 0 (field s0 (field s0 (field s0 x0 f2) f2) f0)))
after 2
";

// An obligation, as far as it is read, and formulas of its ground form.
#[derive(Drop)]
struct Asked {
    premises: Vec<FormulaId>,
    goals: Vec<FormulaId>,
    wanted: Vec<FormulaId>,
}

impl Asked {
    fn new(alloc: Global) -> Self {
        Asked {
            premises: Vec::new(alloc),
            goals: Vec::new(alloc),
            wanted: Vec::new(alloc),
        }
    }

    fn add(&mut self, word: &str, f: &[FormulaId]) -> Result<(), AllocError> {
        match word {
            "given" => self.premises.extend_from_slice(f),
            "goal" => self.goals.extend_from_slice(f),
            "is" => self.wanted.extend_from_slice(f),
            _ => Ok(()),
        }
    }
}

// The ground form, where it has no more formulas than the limit.
fn listed(
    alloc: Global,
    bank: &mut Bank,
    program: &Core,
    asked: &Asked,
    rounds: u8,
    limit: u32,
) -> Result<Option<Vec<FormulaId>>, AllocError>
    requires bank { IsBankOf (view.classes program.now.classes) bank.old }
    requires limits { IsWithinLimits (view.classes program.now.classes) }
    ensures { bank.new.fields ≡ bank.old.fields }
{
    let premises = asked.premises.as_slice();
    let [goal] = asked.goals.as_slice() else {
        return Ok(None);
    };
    if !has_formulas(bank, premises) || !bank.has_formula(*goal) {
        return Ok(None);
    }
    let obligation = obligation(premises, *goal);
    match ground(alloc, bank, program, &obligation, rounds, limit) {
        Ok(list) => Ok(Some(list)),
        Err(GroundStop::TooMany { .. }) => Ok(None),
        Err(GroundStop::Memory) => Err(AllocError),
    }
}

// Whether the ground form is what is wanted, and is too long where one formula less is allowed.
fn is_so(
    alloc: Global,
    bank: &mut Bank,
    program: &Core,
    asked: &Asked,
    rounds: u8,
) -> Result<bool, AllocError>
    requires bank { IsBankOf (view.classes program.now.classes) bank.old }
    requires limits { IsWithinLimits (view.classes program.now.classes) }
    ensures { bank.new.fields ≡ bank.old.fields }
{
    let count = u32::try_from(asked.wanted.len()).unwrap_or(0);
    let fewer = listed(alloc, bank, program, asked, rounds, count.saturating_sub(1))?;
    match listed(alloc, bank, program, asked, rounds, count)? {
        Some(list) => Ok(fewer.is_none() && list.as_slice() == asked.wanted.as_slice()),
        None => Ok(false),
    }
}

// The line of the first ground form that is another one, from 0.
fn first_other(alloc: Global, bank: &mut Bank, program: &Core) -> Result<Option<usize>, AllocError>
    requires bank { IsBankOf (view.classes program.now.classes) bank.old }
    requires limits { IsWithinLimits (view.classes program.now.classes) }
    ensures { bank.new.fields ≡ bank.old.fields }
{
    let mut asked = Asked::new(alloc);
    for (number, line) in GROUND.lines().enumerate() {
        let (word, rest) = first_word(line);
        match word {
            "" => asked = Asked::new(alloc),
            "#" => {}
            "after" => {
                let rounds = rest.parse::<u8>().unwrap_or(0);
                if !is_so(alloc, bank, program, &asked, rounds)? {
                    return Ok(Some(number));
                }
            }
            _ => {
                let f = read_formula(alloc, bank, rest)?;
                asked.add(word, &f)?;
            }
        }
    }
    Ok(None)
}

#[test]
fn ground_forms_are_as_counted(rt: HostRuntime) -> Result<(), Fail> {
    let alloc = rt.alloc();
    let program = program(alloc)?;
    assert!(rt; are_few(&program.classes));
    let mut bank = Bank::new(alloc, field_sorts(alloc, &program.classes)?);
    assert_eq!(rt; first_other(alloc, &mut bank, &program)?, None);
    Ok(())
}
