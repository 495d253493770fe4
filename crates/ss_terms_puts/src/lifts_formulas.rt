// Formulas where more names are bound around them.

ghost use Rattle.std.specs.Prelude.{◌≡◌, ◌≤◌, ◌*◌, List, [], ◌∷◌, length, map, IfOk};
ghost use Rattle.ss_core.specs.View as view;
ghost use Rattle.ss_logic.specs.Formulas as logic;
ghost use Rattle.ss_logic.specs.Terms.{terms_from};
ghost use Rattle.ss_logic.specs.Frames.{lifted};
ghost use Rattle.ss_terms.specs.Forms.{formula_at, formulas_at, terms_at, HasTerms, HasFormula, HasFormulas, AreBelow, IsGrown, IsBankOf, predicate_of};

use crate::SignedPredicate;
use crate::lifts_terms::lift_arguments;
use ss_core::Classes;
use ss_terms::{Arguments, Bank, Formula, FormulaId, Parts, TermId};
use std::alloc::{AllocError, Global};

/// A literal where n more names are bound around it.
fn lift_literal(
    alloc: Global,
    bank: &mut Bank,
    classes: &Classes,
    n: usize,
    signed: SignedPredicate,
    xs: &[TermId],
) -> Result<FormulaId, AllocError>
    requires bank { IsBankOf (view.classes classes.now) bank.old }
    requires arguments { HasTerms bank.old xs.now }
    ensures at { IfOk result (λ g. HasFormula bank.new g × (formula_at bank.new g ≡ lifted n (logic.Literal signed.holds (predicate_of signed.predicate) (terms_from (terms_at bank.old xs.now))))) }
    ensures grown { IsGrown bank.old bank.new }
{
    let SignedPredicate { holds, predicate } = signed;
    let arguments = lift_arguments(alloc, bank, classes, n, xs)?;
    bank.formula(Formula::Literal {
        holds,
        predicate,
        arguments,
    })
}

/// The formula where n more names are bound around it. An error is want of memory.
#[cycle(lifting_all)]
pub fn lift(
    alloc: Global,
    bank: &mut Bank,
    classes: &Classes,
    n: usize,
    f: FormulaId,
) -> Result<FormulaId, AllocError>
    requires bank { IsBankOf (view.classes classes.now) bank.old }
    requires formula { HasFormula bank.old f }
    ensures at { IfOk result (λ g. HasFormula bank.new g × (formula_at bank.new g ≡ lifted n (formula_at bank.old f))) }
    ensures grown { IsGrown bank.old bank.new }
{
    match bank.formula_node(f) {
        Formula::Literal {
            holds,
            predicate,
            arguments,
        } => {
            let signed = SignedPredicate {
                holds: *holds,
                predicate: *predicate,
            };
            let arguments = Arguments::from_slice(alloc, arguments)?;
            lift_literal(alloc, bank, classes, n, signed, &arguments)
        }
        Formula::And(parts) => {
            let parts = Parts::from_slice(alloc, parts)?;
            let parts = lift_all(alloc, bank, classes, n, &parts, f.0)?;
            bank.formula(Formula::And(parts))
        }
        Formula::Or(parts) => {
            let parts = Parts::from_slice(alloc, parts)?;
            let parts = lift_all(alloc, bank, classes, n, &parts, f.0)?;
            bank.formula(Formula::Or(parts))
        }
        Formula::Forall(sorts, body) => {
            let body = *body;
            let sorts = Vec::from_slice(alloc, sorts)?;
            let body = lift(alloc, bank, classes, n, body)?;
            bank.formula(Formula::Forall(sorts, body))
        }
        Formula::Exists(sorts, body) => {
            let body = *body;
            let sorts = Vec::from_slice(alloc, sorts)?;
            let body = lift(alloc, bank, classes, n, body)?;
            bank.formula(Formula::Exists(sorts, body))
        }
    }
}

/// The same for formulas below a number.
#[cycle(lifting_all)]
fn lift_all(
    alloc: Global,
    bank: &mut Bank,
    classes: &Classes,
    n: usize,
    fs: &[FormulaId],
    bound: usize,
) -> Result<Parts, AllocError>
    requires bank { IsBankOf (view.classes classes.now) bank.old }
    requires below { AreBelow bound fs.now }
    requires in_bank { bound ≤ length bank.old.formulas * 2 }
    ensures below { IfOk result (λ gs. HasFormulas bank.new gs.items) }
    ensures at { IfOk result (λ gs. formulas_at bank.new gs.items ≡ map (lifted n) (formulas_at bank.old fs.now)) }
    ensures grown { IsGrown bank.old bank.new }
{
    let mut made = Parts::new(alloc);
    for f in fs {
        let g = lift(alloc, bank, classes, n, *f)?;
        made.push(g)?;
    }
    Ok(made)
}
