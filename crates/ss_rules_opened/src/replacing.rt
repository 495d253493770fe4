// A formula in place of another.

ghost use Rattle.std.specs.Prelude.{◌≡◌, ◌≤◌, ◌*◌, length, map, if◌then◌else◌, IfOk};
ghost use Rattle.ss_logic.specs.Equal.{same_formula};
ghost use Rattle.ss_logic.specs.Opened as spec;
ghost use Rattle.ss_terms.specs.Forms.{formula_at, formulas_at, HasFormula, HasFormulas, AreBelow, IsGrown};

use ss_terms::{Bank, Formula, FormulaId, Parts};
use std::alloc::{AllocError, Global};

// The other one in place of the formula itself.
fn instead(bank: &Bank, from: FormulaId, to: FormulaId, f: FormulaId) -> FormulaId
    requires from { HasFormula bank.now from }
    requires to { HasFormula bank.now to }
    requires formula { HasFormula bank.now f }
    ensures has { HasFormula bank.now result }
    ensures is { formula_at bank.now result ≡ (if same_formula (formula_at bank.now from) (formula_at bank.now f) then formula_at bank.now to else formula_at bank.now f) }
{
    if bank.is_same_formula(from, f) { to } else { f }
}

// The other one at each place outside other quantified formulas.
#[cycle(replacing)]
fn replaced(
    alloc: Global,
    bank: &mut Bank,
    from: FormulaId,
    to: FormulaId,
    f: FormulaId,
) -> Result<FormulaId, AllocError>
    requires from { HasFormula bank.old from }
    requires to { HasFormula bank.old to }
    requires formula { HasFormula bank.old f }
    ensures at { IfOk result (λ g. HasFormula bank.new g × (formula_at bank.new g ≡ spec.replaced (formula_at bank.old from) (formula_at bank.old to) (formula_at bank.old f))) }
    ensures grown { IsGrown bank.old bank.new }
{
    match bank.formula_node(f) {
        Formula::Literal { .. } => Ok(f),
        Formula::And(parts) => {
            let parts = Parts::from_slice(alloc, parts)?;
            let parts = replaced_below(alloc, bank, from, to, &parts, f.0)?;
            bank.formula(Formula::And(parts))
        }
        Formula::Or(parts) => {
            let parts = Parts::from_slice(alloc, parts)?;
            let parts = replaced_below(alloc, bank, from, to, &parts, f.0)?;
            bank.formula(Formula::Or(parts))
        }
        Formula::Forall(_, _) => Ok(instead(bank, from, to, f)),
        Formula::Exists(_, _) => Ok(instead(bank, from, to, f)),
    }
}

// The same in formulas below a number.
#[cycle(replacing)]
fn replaced_below(
    alloc: Global,
    bank: &mut Bank,
    from: FormulaId,
    to: FormulaId,
    fs: &[FormulaId],
    bound: usize,
) -> Result<Parts, AllocError>
    requires from { HasFormula bank.old from }
    requires to { HasFormula bank.old to }
    requires below { AreBelow bound fs.now }
    requires in_bank { bound ≤ length bank.old.formulas * 2 }
    ensures below { IfOk result (λ gs. HasFormulas bank.new gs.items) }
    ensures at { IfOk result (λ gs. formulas_at bank.new gs.items ≡ map (spec.replaced (formula_at bank.old from) (formula_at bank.old to)) (formulas_at bank.old fs.now)) }
    ensures grown { IsGrown bank.old bank.new }
{
    let mut made = Parts::new(alloc);
    for f in fs {
        let g = replaced(alloc, bank, from, to, *f)?;
        made.push(g)?;
    }
    Ok(made)
}

/// The formulas with the other one in place of the formula, outside other quantified formulas. An error is want of memory.
pub(crate) fn all_replaced(
    alloc: Global,
    bank: &mut Bank,
    from: FormulaId,
    to: FormulaId,
    fs: &[FormulaId],
) -> Result<Vec<FormulaId>, AllocError>
    requires from { HasFormula bank.old from }
    requires to { HasFormula bank.old to }
    requires formulas { HasFormulas bank.old fs.now }
    ensures has { IfOk result (λ gs. HasFormulas bank.new gs.items) }
    ensures at { IfOk result (λ gs. formulas_at bank.new gs.items ≡ map (spec.replaced (formula_at bank.old from) (formula_at bank.old to)) (formulas_at bank.old fs.now)) }
    ensures grown { IsGrown bank.old bank.new }
{
    let count = bank.formula_count();
    let made = replaced_below(alloc, bank, from, to, fs, count)?;
    let list = Vec::from_slice(alloc, &made)?;
    Ok(list)
}
