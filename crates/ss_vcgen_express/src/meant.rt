// What expressions mean, by numbers of a bank.

ghost use Rattle.std.specs.Prelude.{◌≡◌, IfOk};
ghost use Rattle.ss_logic.specs.Express as spec;
ghost use Rattle.ss_terms.specs.Forms.{term_at, formula_at, formulas_at, HasTerm, HasFormula, HasFormulas, IsGrown};
ghost use Rattle.ss_vcgen_express.specs.Numbers.{meant_at, HasMeant, AreChoices};

use crate::truths::{all, any};
use ss_terms::{Bank, FormulaId, Symbol, TermId};
use std::alloc::{AllocError, Global};

/// A term, under a condition.
#[derive(Clone, Copy)]
pub struct Choice {
    pub condition: FormulaId,
    pub value: TermId,
}

/// One term; one of several, by conditions of which exactly one is true; what a formula says; that all of these formulas are so, or that one of them is.
/// The formula over several is made where it is asked for.
#[derive(Drop)]
pub enum Meant {
    One(TermId),
    Either(Vec<Choice>),
    Says(FormulaId),
    All(Vec<FormulaId>),
    Any(Vec<FormulaId>),
}

// One term, under no condition.
fn one_choice(alloc: Global, bank: &mut Bank, value: TermId) -> Result<Vec<Choice>, AllocError>
    requires { HasTerm bank.old value }
    ensures at { IfOk result (λ v. AreChoices bank.new v.items (λ b. spec.choices (spec.One (term_at b value)))) }
    ensures grown { IsGrown bank.old bank.new }
{
    let condition = bank.and(&[])?;
    Vec::from_slice(alloc, &[Choice { condition, value }])
}

// True, and false.
fn two_choices(alloc: Global, bank: &mut Bank, f: FormulaId) -> Result<Vec<Choice>, AllocError>
    requires { HasFormula bank.old f }
    ensures at { IfOk result (λ v. AreChoices bank.new v.items (λ b. spec.choices (spec.Says (formula_at b f)))) }
    ensures grown { IsGrown bank.old bank.new }
{
    let yes = bank.apply(Symbol::Fixed(true), &[])?;
    let no = bank.apply(Symbol::Fixed(false), &[])?;
    let both = [
        Choice {
            condition: f,
            value: yes,
        },
        Choice {
            condition: bank.negation(f),
            value: no,
        },
    ];
    Vec::from_slice(alloc, &both)
}

// The same where all of these formulas are so.
fn all_choices(alloc: Global, bank: &mut Bank, fs: &[FormulaId]) -> Result<Vec<Choice>, AllocError>
    requires { HasFormulas bank.old fs.now }
    ensures at { IfOk result (λ v. AreChoices bank.new v.items (λ b. spec.choices (spec.Says (spec.and_of (formulas_at b fs.now))))) }
    ensures grown { IsGrown bank.old bank.new }
{
    let f = all(bank, fs)?;
    two_choices(alloc, bank, f)
}

// The same where one of these formulas is so.
fn any_choices(alloc: Global, bank: &mut Bank, fs: &[FormulaId]) -> Result<Vec<Choice>, AllocError>
    requires { HasFormulas bank.old fs.now }
    ensures at { IfOk result (λ v. AreChoices bank.new v.items (λ b. spec.choices (spec.Says (spec.or_of (formulas_at b fs.now))))) }
    ensures grown { IsGrown bank.old bank.new }
{
    let f = any(bank, fs)?;
    two_choices(alloc, bank, f)
}

// The terms that it may be.
pub(crate) fn choices(alloc: Global, bank: &mut Bank, m: &Meant) -> Result<Vec<Choice>, AllocError>
    requires { HasMeant bank.old m.now }
    ensures at { IfOk result (λ v. AreChoices bank.new v.items (λ b. spec.choices (meant_at b m.now))) }
    ensures grown { IsGrown bank.old bank.new }
{
    match m {
        Meant::One(t) => one_choice(alloc, bank, *t),
        Meant::Either(list) => Vec::from_slice(alloc, list),
        Meant::Says(f) => two_choices(alloc, bank, *f),
        Meant::All(fs) => all_choices(alloc, bank, fs),
        Meant::Any(fs) => any_choices(alloc, bank, fs),
    }
}
