// Parts that are asked under a condition, or for each value of a bound name.

ghost use Rattle.std.specs.Prelude.{[], ◌++◌, IfOk, OnOk, map};
ghost use Rattle.ss_logic.specs.Formulas.{neg};
ghost use Rattle.ss_logic.specs.Express.{said};
ghost use Rattle.ss_terms.specs.Forms.{formula_at, formulas_at, HasFormula, HasFormulas, IsGrown};
ghost use Rattle.ss_vcgen_express.specs.Marked.{marked_right, marked_under, with_marked};
ghost use Rattle.ss_vcgen_express.specs.Numbers.{meant_at, HasMeant, IsFormula};
ghost use Rattle.ss_vcgen_express.specs.Contexts as contexts;
ghost use Rattle.ss_vcgen_walk.specs.Parts.{parts_at, HasParts, AreParts};

use crate::parts::Part;
use ss_core::Operator;
use ss_terms::{Bank, FormulaId};
use ss_vcgen_express::{Meant, for_each, implies, said};
use std::alloc::{AllocError, Global};

// The parts of a list.
pub(crate) fn add_all(bank: &Bank, parts: &mut Vec<Part>, list: &[Part]) -> Result<(), AllocError>
    requires parts { HasParts bank.now parts.old.items }
    requires list { HasParts bank.now list.now }
    ensures { OnOk result (AreParts bank.now parts.new.items (λ b. parts_at b parts.old.items ++ parts_at b list.now)) }
{
    for part in list {
        parts.push(*part)?;
    }
    Ok(())
}

// The same, each where the formula holds.
pub(crate) fn add_under(
    bank: &mut Bank,
    parts: &mut Vec<Part>,
    list: &[Part],
    f: FormulaId,
) -> Result<(), AllocError>
    requires condition { HasFormula bank.old f }
    requires parts { HasParts bank.old parts.old.items }
    requires list { HasParts bank.old list.now }
    ensures asked { OnOk result (AreParts bank.new parts.new.items (λ b. parts_at b parts.old.items ++ marked_under (formula_at b f) (parts_at b list.now))) }
    ensures grown { IsGrown bank.old bank.new }
{
    for part in list {
        let formula = implies(bank, f, part.formula)?;
        parts.push(Part { formula, ..*part })?;
    }
    Ok(())
}

// The same, each for all values of the bound name of which none of these is so.
pub(crate) fn add_for_each(
    alloc: Global,
    bank: &mut Bank,
    parts: &mut Vec<Part>,
    list: &[Part],
    out: &[FormulaId],
) -> Result<(), AllocError>
    requires range { HasFormulas bank.old out.now }
    requires parts { HasParts bank.old parts.old.items }
    requires list { HasParts bank.old list.now }
    ensures asked { OnOk result (AreParts bank.new parts.new.items (λ b. parts_at b parts.old.items ++ map (with_marked (contexts.for_each (formulas_at b out.now))) (parts_at b list.now))) }
    ensures grown { IsGrown bank.old bank.new }
{
    for part in list {
        let formula = for_each(alloc, bank, out, part.formula)?;
        parts.push(Part { formula, ..*part })?;
    }
    Ok(())
}

// The same, each where the condition is true.
pub(crate) fn add_where(
    alloc: Global,
    bank: &mut Bank,
    parts: &mut Vec<Part>,
    list: &[Part],
    m: &Meant,
) -> Result<(), AllocError>
    requires meant { HasMeant bank.old m.now }
    requires parts { HasParts bank.old parts.old.items }
    requires list { HasParts bank.old list.now }
    ensures asked { OnOk result (AreParts bank.new parts.new.items (λ b. parts_at b parts.old.items ++ marked_under (said (meant_at b m.now)) (parts_at b list.now))) }
    ensures grown { IsGrown bank.old bank.new }
{
    if list.is_empty() {
        return Ok(());
    }
    let f = said(alloc, bank, m)?;
    add_under(bank, parts, list, f)
}

// That it is false.
pub(crate) fn denied(alloc: Global, bank: &mut Bank, m: &Meant) -> Result<FormulaId, AllocError>
    requires { HasMeant bank.old m.now }
    ensures at { IfOk result (λ f. IsFormula bank.new f (λ b. neg (said (meant_at b m.now)))) }
    ensures grown { IsGrown bank.old bank.new }
{
    let f = said(alloc, bank, m)?;
    Ok(bank.negation(f))
}

// The same, each where the condition is false.
fn add_unless(
    alloc: Global,
    bank: &mut Bank,
    parts: &mut Vec<Part>,
    list: &[Part],
    m: &Meant,
) -> Result<(), AllocError>
    requires meant { HasMeant bank.old m.now }
    requires parts { HasParts bank.old parts.old.items }
    requires list { HasParts bank.old list.now }
    ensures asked { OnOk result (AreParts bank.new parts.new.items (λ b. parts_at b parts.old.items ++ marked_under (neg (said (meant_at b m.now))) (parts_at b list.now))) }
    ensures grown { IsGrown bank.old bank.new }
{
    if list.is_empty() {
        return Ok(());
    }
    let f = denied(alloc, bank, m)?;
    add_under(bank, parts, list, f)
}

// The parts of the right operand of an operation.
pub(crate) fn add_right(
    alloc: Global,
    bank: &mut Bank,
    parts: &mut Vec<Part>,
    list: &[Part],
    operator: Operator,
    m: &Meant,
) -> Result<(), AllocError>
    requires meant { HasMeant bank.old m.now }
    requires parts { HasParts bank.old parts.old.items }
    requires list { HasParts bank.old list.now }
    ensures asked { OnOk result (AreParts bank.new parts.new.items (λ b. parts_at b parts.old.items ++ marked_right operator (meant_at b m.now) (parts_at b list.now))) }
    ensures grown { IsGrown bank.old bank.new }
{
    match operator {
        Operator::And => add_where(alloc, bank, parts, list, m),
        Operator::Or => add_unless(alloc, bank, parts, list, m),
        Operator::Equal
        | Operator::NotEqual
        | Operator::Less
        | Operator::LessEqual
        | Operator::Greater
        | Operator::GreaterEqual
        | Operator::Add
        | Operator::Subtract
        | Operator::Multiply
        | Operator::Divide
        | Operator::Remainder => add_all(bank, parts, list),
    }
}
