// Guards of positions, and formulas under them.

ghost use Rattle.std.specs.Prelude.{[], IfOk};
ghost use Rattle.ss_logic.specs.Formulas.{neg};
ghost use Rattle.ss_logic.specs.Shapes.{equal};
ghost use Rattle.ss_terms.specs.Forms.{term_at, formula_at, HasTerm, HasFormula, IsGrown};
ghost use Rattle.ss_vcgen_heaps.specs.Positions as spec;
ghost use Rattle.ss_vcgen_express.specs.Numbers.{IsTerm, IsFormula};
ghost use Rattle.ss_vcgen_builder.specs.Builder.{guard_of, there};

use ss_logic::Sort;
use ss_terms::{Bank, FormulaId, Predicate, Symbol, TermId};
use ss_vcgen_express::implies;
use std::alloc::{AllocError, Global};

/// Where a position is reached: always, where the truth value with this number is true, or never.
#[derive(Clone, Copy)]
pub enum Guard {
    Always,
    When(usize),
    Never,
}

// The truth value with this number.
pub(crate) fn guard_term(bank: &mut Bank, number: usize) -> Result<TermId, AllocError>
    ensures at { IfOk result (λ t. IsTerm bank.new t (λ b. spec.guard_term number)) }
    ensures grown { IsGrown bank.old bank.new }
{
    bank.apply(Symbol::Constant(Sort::Truth, number), &[])
}

// That two terms are equal.
pub(crate) fn equation(bank: &mut Bank, s: TermId, t: TermId) -> Result<FormulaId, AllocError>
    requires first { HasTerm bank.old s }
    requires second { HasTerm bank.old t }
    ensures at { IfOk result (λ f. IsFormula bank.new f (λ b. equal (term_at b s) (term_at b t))) }
    ensures grown { IsGrown bank.old bank.new }
{
    bank.atom(true, Predicate::Equal, &[s, t])
}

// That a store is good.
pub(crate) fn good(bank: &mut Bank, s: TermId) -> Result<FormulaId, AllocError>
    requires { HasTerm bank.old s }
    ensures at { IfOk result (λ f. IsFormula bank.new f (λ b. spec.good (term_at b s))) }
    ensures grown { IsGrown bank.old bank.new }
{
    bank.atom(true, Predicate::Good, &[s])
}

// That a truth value is true.
fn is_true(bank: &mut Bank, t: TermId) -> Result<FormulaId, AllocError>
    requires { HasTerm bank.old t }
    ensures at { IfOk result (λ f. IsFormula bank.new f (λ b. spec.is_true (term_at b t))) }
    ensures grown { IsGrown bank.old bank.new }
{
    let yes = bank.apply(Symbol::Fixed(true), &[])?;
    equation(bank, t, yes)
}

// That the truth value with this number is true.
fn reached(bank: &mut Bank, number: usize) -> Result<FormulaId, AllocError>
    ensures at { IfOk result (λ f. IsFormula bank.new f (λ b. spec.is_true (spec.guard_term number))) }
    ensures grown { IsGrown bank.old bank.new }
{
    let t = guard_term(bank, number)?;
    is_true(bank, t)
}

// That it isn't.
pub(crate) fn unreached(bank: &mut Bank, number: usize) -> Result<FormulaId, AllocError>
    ensures at { IfOk result (λ f. IsFormula bank.new f (λ b. neg (spec.is_true (spec.guard_term number)))) }
    ensures grown { IsGrown bank.old bank.new }
{
    let f = reached(bank, number)?;
    Ok(bank.negation(f))
}

// That a position with this guard is reached.
pub(crate) fn guard_formula(bank: &mut Bank, guard: Guard) -> Result<FormulaId, AllocError>
    ensures at { IfOk result (λ f. IsFormula bank.new f (λ b. spec.guard_formula (guard_of guard))) }
    ensures grown { IsGrown bank.old bank.new }
{
    match guard {
        Guard::Always => bank.and(&[]),
        Guard::When(number) => reached(bank, number),
        Guard::Never => bank.or(&[]),
    }
}

// The formula, where the truth value with this number is true.
fn where_reached(bank: &mut Bank, number: usize, f: FormulaId) -> Result<FormulaId, AllocError>
    requires { HasFormula bank.old f }
    ensures at { IfOk result (λ g. IsFormula bank.new g (λ b. spec.under (spec.When number) (formula_at b f))) }
    ensures grown { IsGrown bank.old bank.new }
{
    let here = reached(bank, number)?;
    implies(bank, here, f)
}

// The formula, where the position with this guard is reached.
pub(crate) fn under(bank: &mut Bank, guard: Guard, f: FormulaId) -> Result<FormulaId, AllocError>
    requires { HasFormula bank.old f }
    ensures at { IfOk result (λ g. IsFormula bank.new g (λ b. spec.under (guard_of guard) (formula_at b f))) }
    ensures grown { IsGrown bank.old bank.new }
{
    match guard {
        Guard::Always => Ok(f),
        Guard::When(number) => where_reached(bank, number, f),
        Guard::Never => bank.and(&[]),
    }
}

// The truth value with this number is true, and the formula holds.
fn reached_and(bank: &mut Bank, number: usize, f: FormulaId) -> Result<FormulaId, AllocError>
    requires { HasFormula bank.old f }
    ensures at { IfOk result (λ g. IsFormula bank.new g (λ b. there (spec.When number) (formula_at b f))) }
    ensures grown { IsGrown bank.old bank.new }
{
    let here = reached(bank, number)?;
    bank.and(&[here, f])
}

// The position with the guard is reached, and there the formula holds.
fn there(bank: &mut Bank, guard: Guard, f: FormulaId) -> Result<FormulaId, AllocError>
    requires { HasFormula bank.old f }
    ensures at { IfOk result (λ g. IsFormula bank.new g (λ b. there (guard_of guard) (formula_at b f))) }
    ensures grown { IsGrown bank.old bank.new }
{
    match guard {
        Guard::Always => Ok(f),
        Guard::When(number) => reached_and(bank, number, f),
        Guard::Never => bank.or(&[]),
    }
}

// What holds where the truth value with this number is true: the position with the guard is reached, and there the formula holds.
pub(crate) fn side(
    bank: &mut Bank,
    guard: Guard,
    number: usize,
    f: FormulaId,
) -> Result<FormulaId, AllocError>
    requires { HasFormula bank.old f }
    ensures at { IfOk result (λ g. IsFormula bank.new g (λ b. spec.side (guard_of guard) number (formula_at b f))) }
    ensures grown { IsGrown bank.old bank.new }
{
    let holding = there(bank, guard, f)?;
    where_reached(bank, number, holding)
}
