// Terms in place of the bound names of formulas.

ghost use Rattle.std.specs.Prelude.{◌≡◌, ◌≤◌, ◌*◌, List, [], ◌∷◌, length, map, IfOk};
ghost use Rattle.ss_core.specs.View as view;
ghost use Rattle.ss_logic.specs.Formulas as logic;
ghost use Rattle.ss_logic.specs.Terms.{terms_from};
ghost use Rattle.ss_terms.specs.Forms.{formula_at, formulas_at, terms_at, HasTerms, HasFormula, HasFormulas, AreBelow, IsGrown, IsBankOf, predicate_of};

use crate::terms::put_arguments;
use ss_core::Classes;
use ss_terms::{Arguments, Bank, Formula, FormulaId, Parts, Predicate, TermId};
use std::alloc::{AllocError, Global};

/// A predicate, and whether a literal says that it holds or that it doesn't.
#[derive(Clone, Copy)]
pub struct SignedPredicate {
    /// Whether it holds.
    pub holds: bool,
    /// The predicate.
    pub predicate: Predicate,
}

/// A literal with terms in place of the first bound names.
fn put_literal(
    alloc: Global,
    bank: &mut Bank,
    classes: &Classes,
    ts: &[TermId],
    signed: SignedPredicate,
    xs: &[TermId],
) -> Result<FormulaId, AllocError>
    requires bank { IsBankOf (view.classes classes.now) bank.old }
    requires terms { HasTerms bank.old ts.now }
    requires arguments { HasTerms bank.old xs.now }
    ensures at { IfOk result (λ g. HasFormula bank.new g × (formula_at bank.new g ≡ logic.put (terms_at bank.old ts.now) (logic.Literal signed.holds (predicate_of signed.predicate) (terms_from (terms_at bank.old xs.now))))) }
    ensures grown { IsGrown bank.old bank.new }
{
    let SignedPredicate { holds, predicate } = signed;
    let arguments = put_arguments(alloc, bank, classes, ts, xs)?;
    bank.formula(Formula::Literal {
        holds,
        predicate,
        arguments,
    })
}

/// The formula with terms in place of the first bound names. An error is want of memory.
#[cycle(putting_all)]
pub fn put(
    alloc: Global,
    bank: &mut Bank,
    classes: &Classes,
    ts: &[TermId],
    f: FormulaId,
) -> Result<FormulaId, AllocError>
    requires bank { IsBankOf (view.classes classes.now) bank.old }
    requires terms { HasTerms bank.old ts.now }
    requires formula { HasFormula bank.old f }
    ensures at { IfOk result (λ g. HasFormula bank.new g × (formula_at bank.new g ≡ logic.put (terms_at bank.old ts.now) (formula_at bank.old f))) }
    ensures grown { IsGrown bank.old bank.new }
{
    match bank.formula_node(f) {
        Formula::Literal {
            holds,
            predicate,
            arguments,
        } => {
            let signed = SignedPredicate {
                holds: *holds,
                predicate: *predicate,
            };
            let arguments = Arguments::from_slice(alloc, arguments)?;
            put_literal(alloc, bank, classes, ts, signed, &arguments)
        }
        Formula::And(parts) => {
            let parts = Parts::from_slice(alloc, parts)?;
            let parts = put_all(alloc, bank, classes, ts, &parts, f.0)?;
            bank.formula(Formula::And(parts))
        }
        Formula::Or(parts) => {
            let parts = Parts::from_slice(alloc, parts)?;
            let parts = put_all(alloc, bank, classes, ts, &parts, f.0)?;
            bank.formula(Formula::Or(parts))
        }
        Formula::Forall(sorts, body) => {
            let body = *body;
            let sorts = Vec::from_slice(alloc, sorts)?;
            let body = put(alloc, bank, classes, ts, body)?;
            bank.formula(Formula::Forall(sorts, body))
        }
        Formula::Exists(sorts, body) => {
            let body = *body;
            let sorts = Vec::from_slice(alloc, sorts)?;
            let body = put(alloc, bank, classes, ts, body)?;
            bank.formula(Formula::Exists(sorts, body))
        }
    }
}

/// The same for formulas below a number.
#[cycle(putting_all)]
fn put_all(
    alloc: Global,
    bank: &mut Bank,
    classes: &Classes,
    ts: &[TermId],
    fs: &[FormulaId],
    bound: usize,
) -> Result<Parts, AllocError>
    requires bank { IsBankOf (view.classes classes.now) bank.old }
    requires terms { HasTerms bank.old ts.now }
    requires below { AreBelow bound fs.now }
    requires in_bank { bound ≤ length bank.old.formulas * 2 }
    ensures below { IfOk result (λ gs. HasFormulas bank.new gs.items) }
    ensures at { IfOk result (λ gs. formulas_at bank.new gs.items ≡ map (logic.put (terms_at bank.old ts.now)) (formulas_at bank.old fs.now)) }
    ensures grown { IsGrown bank.old bank.new }
{
    let mut made = Parts::with_capacity(alloc, fs.len())?;
    for f in fs {
        let g = put(alloc, bank, classes, ts, *f)?;
        made.push(g)?;
    }
    Ok(made)
}
