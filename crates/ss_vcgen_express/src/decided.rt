// Terms that are truth values.

ghost use Rattle.std.specs.Prelude.{◌≡◌, [], ◌∷◌, IfOk};
ghost use Rattle.ss_logic.specs.Express as spec;
ghost use Rattle.ss_logic.specs.Shapes.{equal};
ghost use Rattle.ss_vcgen_heaps.specs.Positions as positions;
ghost use Rattle.ss_terms.specs.Forms.{term_at, formula_at, HasTerm, HasFormula, IsGrown};
ghost use Rattle.ss_vcgen_express.specs.Numbers.{IsFormula};

use crate::operations::either;
use crate::truths::both;
use ss_terms::{Bank, FormulaId, Symbol, TermId};
use std::alloc::AllocError;

// That the term is this truth value.
fn is_truth(bank: &mut Bank, t: TermId, value: bool) -> Result<FormulaId, AllocError>
    requires { HasTerm bank.old t }
    ensures at { IfOk result (λ h. IsFormula bank.new h (λ b. equal (term_at b t) (spec.truth_term value))) }
    ensures grown { IsGrown bank.old bank.new }
{
    let v = bank.apply(Symbol::Fixed(value), &[])?;
    bank.equality(t, v)
}

// That the term is this truth value, and the formula holds.
fn decided(bank: &mut Bank, t: TermId, value: bool, f: FormulaId) -> Result<FormulaId, AllocError>
    requires term { HasTerm bank.old t }
    requires formula { HasFormula bank.old f }
    ensures at { IfOk result (λ h. IsFormula bank.new h (λ b. spec.and_of (equal (term_at b t) (spec.truth_term value) ∷ formula_at b f ∷ []))) }
    ensures grown { IsGrown bank.old bank.new }
{
    let is = is_truth(bank, t, value)?;
    both(bank, is, f)
}

/// That the term is true where the formula is, and false where it is not.
pub fn has_truth_of(bank: &mut Bank, t: TermId, f: FormulaId) -> Result<FormulaId, AllocError>
    requires term { HasTerm bank.old t }
    requires formula { HasFormula bank.old f }
    ensures at { IfOk result (λ h. IsFormula bank.new h (λ b. positions.has_truth_of (term_at b t) (formula_at b f))) }
    ensures grown { IsGrown bank.old bank.new }
{
    let other = bank.negation(f);
    let yes = decided(bank, t, true, f)?;
    let no = decided(bank, t, false, other)?;
    either(bank, yes, no)
}
