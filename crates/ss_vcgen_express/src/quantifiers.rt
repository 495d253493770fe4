// Formulas for the values of a bound name.

ghost use Rattle.std.specs.Prelude.{◌≡◌, pos, [], ◌∷◌, IfOk, map};
ghost use Rattle.ss_logic.specs.Express as spec;
ghost use Rattle.ss_logic.specs.Shapes.{number, at_most};
ghost use Rattle.ss_logic.specs.declared.Sort.TheVariants as sort;
ghost use Rattle.ss_logic.specs.Terms.{Bound, app, Add};
ghost use Rattle.ss_logic.specs.Formulas as logic;
ghost use Rattle.ss_terms.specs.Forms.{formula_at, formulas_at, HasFormula, HasFormulas, IsGrown};
ghost use Rattle.ss_vcgen_express.specs.Numbers.{meant_at, HasMeant, IsTerm, IsFormula, AreFormulas};
ghost use Rattle.ss_vcgen_express.specs.Contexts.{context_at, for_each, for_some, quantified_over};

use crate::chains::{all_with, any_with};
use crate::context::Context;
use crate::meant::Meant;
use crate::sayings::{Relation, Saying};
use crate::truths::over;
use ss_core::Quantifier;
use ss_logic::Sort;
use ss_terms::{Bank, Formula, FormulaId, Symbol, Term, TermId};
use std::alloc::{AllocError, Global};

/// The bound name of this number.
pub fn bound_name(bank: &mut Bank, k: usize) -> Result<TermId, AllocError>
    ensures at { IfOk result (λ t. IsTerm bank.new t (λ b. Bound k)) }
    ensures grown { IsGrown bank.old bank.new }
{
    bank.term(Term::Bound(k))
}

// The number after a bound name.
fn after_bound(bank: &mut Bank, k: usize) -> Result<TermId, AllocError>
    ensures at { IfOk result (λ t. IsTerm bank.new t (λ b. app Add (Bound k ∷ number (pos 1) ∷ []))) }
    ensures grown { IsGrown bank.old bank.new }
{
    let x = bound_name(bank, k)?;
    let one = bank.number(1)?;
    bank.apply(Symbol::Add, &[x, one])
}

// That the bound name is below this.
fn below(alloc: Global, bank: &mut Bank, k: usize, low: &Meant) -> Result<FormulaId, AllocError>
    requires { HasMeant bank.old low.now }
    ensures at { IfOk result (λ f. IsFormula bank.new f (λ b. logic.neg (spec.over (meant_at b low.now) (λ x. at_most x (Bound k))))) }
    ensures grown { IsGrown bank.old bank.new }
{
    let v = bound_name(bank, k)?;
    let f = over(alloc, bank, low, Saying::Before(Relation::AtMost, v))?;
    Ok(bank.negation(f))
}

// That the bound name isn't below this.
fn not_below(
    alloc: Global,
    bank: &mut Bank,
    k: usize,
    high: &Meant,
) -> Result<FormulaId, AllocError>
    requires { HasMeant bank.old high.now }
    ensures at { IfOk result (λ f. IsFormula bank.new f (λ b. logic.neg (spec.over (meant_at b high.now) (λ y. at_most (app Add (Bound k ∷ number (pos 1) ∷ [])) y)))) }
    ensures grown { IsGrown bank.old bank.new }
{
    let v = after_bound(bank, k)?;
    let f = over(alloc, bank, high, Saying::Behind(Relation::AtMost, v))?;
    Ok(bank.negation(f))
}

/// That the bound name isn't between these, in two parts.
pub fn out_of_range(
    alloc: Global,
    bank: &mut Bank,
    context: &Context<'_>,
    low: &Meant,
    high: &Meant,
) -> Result<Vec<FormulaId>, AllocError>
    requires low { HasMeant bank.old low.now }
    requires high { HasMeant bank.old high.now }
    ensures at { IfOk result (λ v. AreFormulas bank.new v.items (λ b. spec.out_of_range (context_at b context.entry.now) (meant_at b low.now) (meant_at b high.now))) }
    ensures grown { IsGrown bank.old bank.new }
{
    let f = below(alloc, bank, context.bound, low)?;
    let g = not_below(alloc, bank, context.bound, high)?;
    Vec::from_slice(alloc, &[f, g])
}

/// The formula for each value of a bound name of this sort.
pub fn for_all(bank: &mut Bank, sort: Sort, f: FormulaId) -> Result<FormulaId, AllocError>
    requires { HasFormula bank.old f }
    ensures at { IfOk result (λ h. IsFormula bank.new h (λ b. logic.Forall (sort ∷ []) (formula_at b f))) }
    ensures grown { IsGrown bank.old bank.new }
{
    bank.forall(&[sort], f)
}

/// The formula for each value of the bound name, unless one of these is so of it.
pub fn for_each(
    alloc: Global,
    bank: &mut Bank,
    out: &[FormulaId],
    f: FormulaId,
) -> Result<FormulaId, AllocError>
    requires range { HasFormulas bank.old out.now }
    requires member { HasFormula bank.old f }
    ensures at { IfOk result (λ h. IsFormula bank.new h (λ b. for_each (formulas_at b out.now) (formula_at b f))) }
    ensures grown { IsGrown bank.old bank.new }
{
    let body = any_with(alloc, bank, out, f)?;
    for_all(bank, Sort::Whole, body)
}

// The negations of these.
fn negations(alloc: Global, bank: &Bank, fs: &[FormulaId]) -> Result<Vec<FormulaId>, AllocError>
    requires { HasFormulas bank.now fs.now }
    ensures in_bank { IfOk result (λ v. HasFormulas bank.now v.items) }
    ensures at { IfOk result (λ v. formulas_at bank.now v.items ≡ map logic.neg (formulas_at bank.now fs.now)) }
{
    let mut made = Vec::new(alloc);
    for f in fs {
        made.push(bank.negation(*f))?;
    }
    Ok(made)
}

// The formula for some whole number.
fn some(alloc: Global, bank: &mut Bank, body: FormulaId) -> Result<FormulaId, AllocError>
    requires { HasFormula bank.old body }
    ensures at { IfOk result (λ h. IsFormula bank.new h (λ b. logic.Exists (sort.Whole ∷ []) (formula_at b body))) }
    ensures grown { IsGrown bank.old bank.new }
{
    let sorts = Vec::from_slice(alloc, &[Sort::Whole])?;
    bank.formula(Formula::Exists(sorts, body))
}

// The formula for some value of the bound name, of which none of these is so.
fn for_some(
    alloc: Global,
    bank: &mut Bank,
    out: &[FormulaId],
    f: FormulaId,
) -> Result<FormulaId, AllocError>
    requires range { HasFormulas bank.old out.now }
    requires member { HasFormula bank.old f }
    ensures at { IfOk result (λ h. IsFormula bank.new h (λ b. for_some (formulas_at b out.now) (formula_at b f))) }
    ensures grown { IsGrown bank.old bank.new }
{
    let others = negations(alloc, bank, out)?;
    let body = all_with(alloc, bank, &others, f)?;
    some(alloc, bank, body)
}

/// The formula for each value of the bound name unless one of these is so of it, or for some value of which none of these is so.
pub fn quantified(
    alloc: Global,
    bank: &mut Bank,
    quantifier: Quantifier,
    out: &[FormulaId],
    f: FormulaId,
) -> Result<FormulaId, AllocError>
    requires range { HasFormulas bank.old out.now }
    requires member { HasFormula bank.old f }
    ensures at { IfOk result (λ h. IsFormula bank.new h (λ b. quantified_over quantifier (formulas_at b out.now) (formula_at b f))) }
    ensures grown { IsGrown bank.old bank.new }
{
    match quantifier {
        Quantifier::Forall => for_each(alloc, bank, out, f),
        Quantifier::Exists => for_some(alloc, bank, out, f),
    }
}
