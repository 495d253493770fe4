// Formulas with one more part.

ghost use Rattle.std.specs.Prelude.{◌≡◌, [], ◌∷◌, ◌++◌, IfOk};
ghost use Rattle.ss_logic.specs.Express as spec;
ghost use Rattle.ss_terms.specs.Forms.{formula_at, formulas_at, HasFormula, HasFormulas, IsGrown};
ghost use Rattle.ss_vcgen_express.specs.Chains.{conjuncts, disjuncts};
ghost use Rattle.ss_vcgen_express.specs.Numbers.{IsFormula};

use crate::truths::{all, any};
use ss_terms::{Bank, Formula, FormulaId};
use std::alloc::{AllocError, Global};

// One more formula.
fn joined(alloc: Global, fs: &[FormulaId], last: FormulaId) -> Result<Vec<FormulaId>, AllocError>
    ensures { IfOk result (λ v. v.items ≡ fs.now ++ last ∷ []) }
{
    let mut parts = Vec::from_slice(alloc, fs)?;
    parts.push(last)?;
    Ok(parts)
}

/// All of these, and the last.
pub fn all_with(
    alloc: Global,
    bank: &mut Bank,
    fs: &[FormulaId],
    last: FormulaId,
) -> Result<FormulaId, AllocError>
    requires parts { HasFormulas bank.old fs.now }
    requires last { HasFormula bank.old last }
    ensures at { IfOk result (λ h. IsFormula bank.new h (λ b. spec.and_of (formulas_at b fs.now ++ formula_at b last ∷ []))) }
    ensures grown { IsGrown bank.old bank.new }
{
    let parts = joined(alloc, fs, last)?;
    all(bank, &parts)
}

/// One of these, or the last.
pub fn any_with(
    alloc: Global,
    bank: &mut Bank,
    fs: &[FormulaId],
    last: FormulaId,
) -> Result<FormulaId, AllocError>
    requires parts { HasFormulas bank.old fs.now }
    requires last { HasFormula bank.old last }
    ensures at { IfOk result (λ h. IsFormula bank.new h (λ b. spec.or_of (formulas_at b fs.now ++ formula_at b last ∷ []))) }
    ensures grown { IsGrown bank.old bank.new }
{
    let parts = joined(alloc, fs, last)?;
    any(bank, &parts)
}

// The parts of a conjunction; any other is its own part.
pub(crate) fn conjuncts(
    bank: &Bank,
    alloc: Global,
    f: FormulaId,
) -> Result<Vec<FormulaId>, AllocError>
    requires { HasFormula bank.now f }
    ensures in_bank { IfOk result (λ v. HasFormulas bank.now v.items) }
    ensures at { IfOk result (λ v. formulas_at bank.now v.items ≡ conjuncts (formula_at bank.now f)) }
{
    match bank.formula_node(f) {
        Formula::And(parts) => Vec::from_slice(alloc, parts),
        _ => Vec::from_slice(alloc, &[f]),
    }
}

// The parts of a disjunction; any other is its own part.
pub(crate) fn disjuncts(
    bank: &Bank,
    alloc: Global,
    f: FormulaId,
) -> Result<Vec<FormulaId>, AllocError>
    requires { HasFormula bank.now f }
    ensures in_bank { IfOk result (λ v. HasFormulas bank.now v.items) }
    ensures at { IfOk result (λ v. formulas_at bank.now v.items ≡ disjuncts (formula_at bank.now f)) }
{
    match bank.formula_node(f) {
        Formula::Or(parts) => Vec::from_slice(alloc, parts),
        _ => Vec::from_slice(alloc, &[f]),
    }
}
