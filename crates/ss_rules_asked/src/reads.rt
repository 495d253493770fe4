// What is asked for at reads.

ghost use Rattle.std.specs.Prelude.{◌≡◌, ◌++◌, flat_map, IfOk, OnOk};
ghost use Rattle.ss_logic.specs.Asked as spec;
ghost use Rattle.ss_terms.specs.Forms.{formula_at, formulas_at, HasFormula, HasFormulas};
ghost use Rattle.ss_rules_asked.specs.Numbers.{arguments_at, asked_in, HasArguments, HasAsked, Asks};
ghost use Rattle.ss_rules_asked.specs.Readings.{reading_at, HasReading};

use crate::asked::{Argument, Asked, Rule, ask};
use crate::forms::{Others, Reading, equals};
use ss_logic::RuleName;
use ss_terms::{Bank, FormulaId};
use std::alloc::{AllocError, Global};

// The number of a read, its store and what else it takes.
fn read_arguments(alloc: Global, bank: &Bank, r: Reading) -> Result<Vec<Argument>, AllocError>
    requires { HasReading bank.now r }
    ensures has { IfOk result (λ v. HasArguments bank.now v.items) }
    ensures are { IfOk result (λ v. arguments_at bank.now v.items ≡ spec.read_arguments (reading_at bank.now r)) }
{
    let _ = bank;
    let (kind, store) = (Argument::Number(r.kind), Argument::Term(r.store));
    match r.others {
        Others::Nothing => Vec::from_slice(alloc, &[kind, store]),
        Others::Object(o) => Vec::from_slice(alloc, &[kind, store, Argument::Term(o)]),
        Others::Field(o, f) => Vec::from_slice(
            alloc,
            &[kind, store, Argument::Term(o), Argument::Number(f)],
        ),
        Others::Element(a, i) => Vec::from_slice(
            alloc,
            &[kind, store, Argument::Term(a), Argument::Term(i)],
        ),
    }
}

/// Over the store that an atom says that the read's store equals.
#[tactic(auto, using(crate::proofs::Asking::nothing_asked))]
pub(crate) fn ask_at_equal(
    alloc: Global,
    bank: &Bank,
    asked: &mut Vec<Asked>,
    r: Reading,
    f: FormulaId,
) -> Result<(), AllocError>
    requires asked { HasAsked bank.now asked.old.items }
    requires read { HasReading bank.now r }
    requires formula { HasFormula bank.now f }
    ensures { OnOk result (Asks bank.now asked.new.items (asked_in bank.now asked.old.items ++ spec.asked_at_equal (reading_at bank.now r) (formula_at bank.now f))) }
{
    match equals(bank, r.store, f) {
        Some(t) => {
            let mut arguments = read_arguments(alloc, bank, r)?;
            arguments.push(Argument::Term(t))?;
            ask(alloc, bank, asked, Rule::True(RuleName::Read), &arguments)
        }
        None => Ok(()),
    }
}

/// Over the changed store in which it reads.
pub(crate) fn ask_over(
    alloc: Global,
    bank: &Bank,
    asked: &mut Vec<Asked>,
    r: Reading,
) -> Result<(), AllocError>
    requires asked { HasAsked bank.now asked.old.items }
    requires read { HasReading bank.now r }
    ensures { OnOk result (Asks bank.now asked.new.items (asked_in bank.now asked.old.items ++ spec.asked_over (reading_at bank.now r))) }
{
    let arguments = read_arguments(alloc, bank, r)?;
    ask(alloc, bank, asked, Rule::True(RuleName::Read), &arguments)
}
