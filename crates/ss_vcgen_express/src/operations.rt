// Operations on truth values, as formulas.

ghost use Rattle.std.specs.Prelude.{◌≡◌, [], ◌∷◌, IfOk};
ghost use Rattle.ss_logic.specs.Express as spec;
ghost use Rattle.ss_logic.specs.Formulas.{neg};
ghost use Rattle.ss_terms.specs.Forms.{formula_at, HasFormula, IsGrown};
ghost use Rattle.ss_vcgen_express.specs.Numbers.{meant_at, HasMeant, IsFormula};

use crate::meant::Meant;
use crate::sayings::Relation;
use crate::truths::{both, over_two, said};
use ss_terms::{Bank, FormulaId};
use std::alloc::{AllocError, Global};

/// One or the other.
pub fn either(bank: &mut Bank, f: FormulaId, g: FormulaId) -> Result<FormulaId, AllocError>
    requires first { HasFormula bank.old f }
    requires second { HasFormula bank.old g }
    ensures at { IfOk result (λ h. IsFormula bank.new h (λ b. spec.or_of (formula_at b f ∷ formula_at b g ∷ []))) }
    ensures grown { IsGrown bank.old bank.new }
{
    bank.or(&[f, g])
}

/// The second, where the first is so.
pub fn implies(bank: &mut Bank, f: FormulaId, g: FormulaId) -> Result<FormulaId, AllocError>
    requires first { HasFormula bank.old f }
    requires second { HasFormula bank.old g }
    ensures at { IfOk result (λ h. IsFormula bank.new h (λ b. spec.or_of (neg (formula_at b f) ∷ formula_at b g ∷ []))) }
    ensures grown { IsGrown bank.old bank.new }
{
    let other = bank.negation(f);
    either(bank, other, g)
}

/// Each implies the other.
pub fn iff(bank: &mut Bank, f: FormulaId, g: FormulaId) -> Result<FormulaId, AllocError>
    requires first { HasFormula bank.old f }
    requires second { HasFormula bank.old g }
    ensures at { IfOk result (λ h. IsFormula bank.new h (λ b. spec.iff (formula_at b f) (formula_at b g))) }
    ensures grown { IsGrown bank.old bank.new }
{
    let there = implies(bank, f, g)?;
    let other = bank.negation(g);
    let back = either(bank, f, other)?;
    both(bank, there, back)
}

// That two expressions have one truth value, which isn't a term on both sides.
fn same_said(alloc: Global, bank: &mut Bank, x: &Meant, y: &Meant) -> Result<FormulaId, AllocError>
    requires first { HasMeant bank.old x.now }
    requires second { HasMeant bank.old y.now }
    ensures at { IfOk result (λ h. IsFormula bank.new h (λ b. spec.iff (spec.said (meant_at b x.now)) (spec.said (meant_at b y.now)))) }
    ensures grown { IsGrown bank.old bank.new }
{
    let f = said(alloc, bank, x)?;
    let g = said(alloc, bank, y)?;
    iff(bank, f, g)
}

/// That two expressions have one truth value.
pub fn same_truths(
    alloc: Global,
    bank: &mut Bank,
    x: &Meant,
    y: &Meant,
) -> Result<FormulaId, AllocError>
    requires first { HasMeant bank.old x.now }
    requires second { HasMeant bank.old y.now }
    ensures at { IfOk result (λ h. IsFormula bank.new h (λ b. spec.same_truths (meant_at b x.now) (meant_at b y.now))) }
    ensures grown { IsGrown bank.old bank.new }
{
    match (x, y) {
        (Meant::One(_), Meant::One(_)) => over_two(alloc, bank, x, y, Relation::Equal),
        _ => same_said(alloc, bank, x, y),
    }
}
