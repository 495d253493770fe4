// Instances of which the long `and` isn't made before a part is asked for. A formula that stands for it is known in its place.

ghost use Rattle.std.specs.Prelude.{◌≡◌, ◌≤◌, ◌*◌, [], ◌∷◌, Some, true, length, map, option_and_then, slice_get, IfOk, IfSome};
ghost use Rattle.ss_core.specs.View as view;
ghost use Rattle.ss_logic.specs.Formulas as logic;
ghost use Rattle.ss_logic.specs.Formulas.{formulas_from, is_well_formed};
ghost use Rattle.ss_logic_means.specs.Steps.{body_at};
ghost use Rattle.ss_terms.specs.Forms.{term_at, terms_at, formula_at, formulas_at, HasTerm, HasTerms, HasFormula, HasFormulas, AreBelow, IsGrown, IsBankOf};
ghost use Rattle.ss_terms.specs.Numbered.{one_of};
ghost use Rattle.ss_check.specs.Delayed.{is_and, delayed_pair, delayed_of, delayed_in, IsDelayed, both_of, meant, meant_alone, IsInstance};

use ss_check_steps::{good_store_at, known_at};
use ss_core::Classes;
use ss_terms::{Bank, Formula, FormulaId, Parts, Predicate, TermId};
use ss_terms_puts::put;
use std::alloc::{AllocError, Global};

/// Whether a formula is an `and`.
fn is_and_at(bank: &Bank, f: FormulaId) -> bool
    requires { HasFormula bank.now f }
    ensures { result ≡ is_and (formula_at bank.now f) }
{
    match bank.formula_node(f) {
        Formula::And(_) => true,
        _ => false,
    }
}

/// The two formulas, where there are so many.
fn both(fs: &[FormulaId]) -> Option<(FormulaId, FormulaId)>
    ensures { result ≡ both_of fs.now }
{
    match fs {
        [p, q] => Some((*p, *q)),
        _ => None,
    }
}

/// The `and` and the term that two parts name.
fn pair_at(
    bank: &Bank,
    classes: &Classes,
    p: FormulaId,
    q: FormulaId,
) -> Option<(FormulaId, TermId)>
    requires bank { IsBankOf (view.classes classes.now) bank.now }
    requires first { HasFormula bank.now p }
    requires second { HasFormula bank.now q }
    ensures { IsDelayed bank.now result (delayed_pair (view.classes classes.now) (formula_at bank.now p) (formula_at bank.now q)) }
{
    if bank.is_well_formed(q) {
        return None;
    }
    if !is_and_at(bank, p) {
        return None;
    }
    let Some(t) = good_store_at(bank, q) else {
        return None;
    };
    Some((p, t))
}

/// The same for the parts of an `and`.
#[tactic(auto, using(crate::proofs::Meant::both_none))]
fn parts_at(bank: &Bank, classes: &Classes, fs: &[FormulaId]) -> Option<(FormulaId, TermId)>
    requires bank { IsBankOf (view.classes classes.now) bank.now }
    requires formulas { HasFormulas bank.now fs.now }
    ensures { IsDelayed bank.now result (delayed_of (view.classes classes.now) (formulas_from (formulas_at bank.now fs.now))) }
{
    let Some((p, q)) = both(fs) else {
        return None;
    };
    pair_at(bank, classes, p, q)
}

/// The `and` that is delayed in a formula, and the term for its bound name.
pub(crate) fn delayed_at(
    bank: &Bank,
    classes: &Classes,
    f: FormulaId,
) -> Option<(FormulaId, TermId)>
    requires bank { IsBankOf (view.classes classes.now) bank.now }
    requires formula { HasFormula bank.now f }
    ensures { IsDelayed bank.now result (delayed_in (view.classes classes.now) (formula_at bank.now f)) }
{
    match bank.formula_node(f) {
        Formula::And(parts) => parts_at(bank, classes, parts),
        _ => None,
    }
}

/// What a formula stands for that is no `or`.
fn alone_at(
    alloc: Global,
    bank: &mut Bank,
    classes: &Classes,
    f: FormulaId,
) -> Result<FormulaId, AllocError>
    requires bank { IsBankOf (view.classes classes.now) bank.old }
    requires formula { HasFormula bank.old f }
    ensures at { IfOk result (λ g. HasFormula bank.new g × (formula_at bank.new g ≡ meant_alone (view.classes classes.now) (formula_at bank.old f))) }
    ensures grown { IsGrown bank.old bank.new }
{
    let Some((p, t)) = delayed_at(bank, classes, f) else {
        return Ok(f);
    };
    put(alloc, bank, classes, &[t], p)
}

/// What a formula stands for.
#[cycle(meaning)]
fn meant_at(
    alloc: Global,
    bank: &mut Bank,
    classes: &Classes,
    f: FormulaId,
) -> Result<FormulaId, AllocError>
    requires bank { IsBankOf (view.classes classes.now) bank.old }
    requires formula { HasFormula bank.old f }
    ensures at { IfOk result (λ g. HasFormula bank.new g × (formula_at bank.new g ≡ meant (view.classes classes.now) (formula_at bank.old f))) }
    ensures grown { IsGrown bank.old bank.new }
{
    if bank.is_well_formed(f) {
        return Ok(f);
    }
    match bank.formula_node(f) {
        Formula::Or(parts) => {
            let parts = Parts::from_slice(alloc, parts)?;
            let parts = all_meant_at(alloc, bank, classes, &parts, f.0)?;
            bank.formula(Formula::Or(parts))
        }
        _ => alone_at(alloc, bank, classes, f),
    }
}

/// The same for formulas below a number.
#[cycle(meaning)]
pub(crate) fn all_meant_at(
    alloc: Global,
    bank: &mut Bank,
    classes: &Classes,
    fs: &[FormulaId],
    bound: usize,
) -> Result<Parts, AllocError>
    requires bank { IsBankOf (view.classes classes.now) bank.old }
    requires below { AreBelow bound fs.now }
    requires in_bank { bound ≤ length bank.old.formulas * 2 }
    ensures below { IfOk result (λ gs. HasFormulas bank.new gs.items) }
    ensures at { IfOk result (λ gs. formulas_at bank.new gs.items ≡ map (meant (view.classes classes.now)) (formulas_at bank.old fs.now)) }
    ensures grown { IsGrown bank.old bank.new }
{
    let mut made = Parts::with_capacity(alloc, fs.len())?;
    for f in fs {
        let g = meant_at(alloc, bank, classes, *f)?;
        made.push(g)?;
    }
    Ok(made)
}

/// Whether a formula is an `and` of more than 16 parts.
fn is_long(bank: &Bank, f: FormulaId) -> bool
    requires { HasFormula bank.now f }
    ensures { result ≡ true → is_and (formula_at bank.now f) ≡ true }
{
    match bank.formula_node(f) {
        Formula::And(parts) => parts.len() > 16,
        _ => false,
    }
}

/// Whether the last of the formulas is such an `and`.
fn is_last_long(bank: &Bank, fs: &[FormulaId]) -> bool {
    let count = fs.len();
    if count == 0 {
        return false;
    }
    let last = fs[count - 1];
    bank.has_formula(last) && is_long(bank, last)
}

/// A formula that stands for an `and` at a term. There is none where the term is a store.
fn delay_and(
    bank: &mut Bank,
    classes: &Classes,
    t: TermId,
    p: FormulaId,
) -> Result<Option<FormulaId>, AllocError>
    requires bank { IsBankOf (view.classes classes.now) bank.old }
    requires term { HasTerm bank.old t }
    requires formula { HasFormula bank.old p }
    requires form { is_and (formula_at bank.old p) ≡ true }
    ensures at { IfOk result (λ o. IfSome o (λ g. HasFormula bank.new g × (meant (view.classes classes.now) (formula_at bank.new g) ≡ logic.put (term_at bank.old t ∷ []) (formula_at bank.old p)))) }
    ensures grown { IsGrown bank.old bank.new }
{
    let name = bank.atom(true, Predicate::Good, &[t])?;
    if bank.is_well_formed(name) {
        return Ok(None);
    }
    let g = bank.and(&[p, name])?;
    Ok(Some(g))
}

/// A formula that stands for a part at a term. There is none where the part isn't well formed there.
fn delay_part(
    alloc: Global,
    bank: &mut Bank,
    classes: &Classes,
    t: TermId,
    f: FormulaId,
) -> Result<Option<FormulaId>, AllocError>
    requires bank { IsBankOf (view.classes classes.now) bank.old }
    requires term { HasTerm bank.old t }
    requires formula { HasFormula bank.old f }
    ensures at { IfOk result (λ o. IfSome o (λ g. HasFormula bank.new g × (meant (view.classes classes.now) (formula_at bank.new g) ≡ logic.put (term_at bank.old t ∷ []) (formula_at bank.old f)))) }
    ensures grown { IsGrown bank.old bank.new }
{
    if is_long(bank, f) {
        return delay_and(bank, classes, t, f);
    }
    let g = put(alloc, bank, classes, &[t], f)?;
    if !bank.is_well_formed(g) {
        return Ok(None);
    }
    Ok(Some(g))
}

/// The same for formulas below a number.
fn delay_parts(
    alloc: Global,
    bank: &mut Bank,
    classes: &Classes,
    t: TermId,
    fs: &[FormulaId],
    bound: usize,
) -> Result<Option<Vec<FormulaId>>, AllocError>
    requires bank { IsBankOf (view.classes classes.now) bank.old }
    requires term { HasTerm bank.old t }
    requires below { AreBelow bound fs.now }
    requires in_bank { bound ≤ length bank.old.formulas * 2 }
    ensures at { IfOk result (λ o. IfSome o (λ gs. HasFormulas bank.new gs.items × (map (meant (view.classes classes.now)) (formulas_at bank.new gs.items) ≡ map (logic.put (term_at bank.old t ∷ [])) (formulas_at bank.old fs.now)))) }
    ensures grown { IsGrown bank.old bank.new }
{
    let mut made = Vec::with_capacity(alloc, fs.len())?;
    for f in fs {
        let Some(g) = delay_part(alloc, bank, classes, t, *f)? else {
            return Ok(None);
        };
        made.push(g)?;
    }
    Ok(Some(made))
}

/// A formula that stands for the `or` of these at a term.
fn delay_listed(
    alloc: Global,
    bank: &mut Bank,
    classes: &Classes,
    t: TermId,
    fs: &[FormulaId],
    bound: usize,
) -> Result<Option<FormulaId>, AllocError>
    requires bank { IsBankOf (view.classes classes.now) bank.old }
    requires term { HasTerm bank.old t }
    requires below { AreBelow bound fs.now }
    requires in_bank { bound ≤ length bank.old.formulas * 2 }
    ensures at { IfOk result (λ o. IfSome o (λ g. HasFormula bank.new g × (meant (view.classes classes.now) (formula_at bank.new g) ≡ logic.Or (formulas_from (map (logic.put (term_at bank.old t ∷ [])) (formulas_at bank.old fs.now)))))) }
    ensures grown { IsGrown bank.old bank.new }
{
    let Some(made) = delay_parts(alloc, bank, classes, t, fs, bound)? else {
        return Ok(None);
    };
    let g = bank.or(&made)?;
    Ok(Some(g))
}

/// A formula that stands for an `or` at a term, where its last part is a long `and`.
fn delay_or(
    alloc: Global,
    bank: &mut Bank,
    classes: &Classes,
    t: TermId,
    body: FormulaId,
) -> Result<Option<FormulaId>, AllocError>
    requires bank { IsBankOf (view.classes classes.now) bank.old }
    requires term { HasTerm bank.old t }
    requires formula { HasFormula bank.old body }
    ensures at { IfOk result (λ o. IfSome o (λ g. HasFormula bank.new g × (meant (view.classes classes.now) (formula_at bank.new g) ≡ logic.put (term_at bank.old t ∷ []) (formula_at bank.old body)))) }
    ensures grown { IsGrown bank.old bank.new }
{
    match bank.formula_node(body) {
        Formula::Or(parts) => {
            if !is_last_long(bank, parts) {
                return Ok(None);
            }
            let parts = Parts::from_slice(alloc, parts)?;
            delay_listed(alloc, bank, classes, t, &parts, body.0)
        }
        _ => Ok(None),
    }
}

/// The term, where there is one alone.
fn one(ts: &[TermId]) -> Option<TermId>
    ensures { result ≡ one_of ts.now }
{
    match ts {
        [t] => Some(*t),
        _ => None,
    }
}

/// A formula that stands for the body of a `forall` at a term, where that is such an `or`.
fn delay_body(
    alloc: Global,
    bank: &mut Bank,
    classes: &Classes,
    f: FormulaId,
    t: TermId,
) -> Result<Option<FormulaId>, AllocError>
    requires bank { IsBankOf (view.classes classes.now) bank.old }
    requires term { HasTerm bank.old t }
    requires formula { HasFormula bank.old f }
    ensures at { IfOk result (λ o. IfSome o (λ g. HasFormula bank.new g × (body_at (view.classes classes.now) (term_at bank.old t ∷ []) (formula_at bank.old f) ≡ Some (meant (view.classes classes.now) (formula_at bank.new g))))) }
    ensures grown { IsGrown bank.old bank.new }
{
    match bank.formula_node(f) {
        Formula::Forall(sorts, body) => {
            if !bank.have_sorts(sorts, &[t]) {
                return Ok(None);
            }
            let body = *body;
            let Some(g) = delay_or(alloc, bank, classes, t, body)? else {
                return Ok(None);
            };
            Ok(Some(g))
        }
        _ => Ok(None),
    }
}

/// The same where the `forall` is well formed: then the instance is.
fn delay_formed(
    alloc: Global,
    bank: &mut Bank,
    classes: &Classes,
    f: FormulaId,
    t: TermId,
) -> Result<Option<FormulaId>, AllocError>
    requires bank { IsBankOf (view.classes classes.now) bank.old }
    requires term { HasTerm bank.old t }
    requires formula { HasFormula bank.old f }
    requires formed { is_well_formed (view.classes classes.now) [] (formula_at bank.old f) ≡ true }
    ensures at { IfOk result (λ o. IfSome o (λ g. IsInstance (view.classes classes.now) bank.new g (body_at (view.classes classes.now) (term_at bank.old t ∷ []) (formula_at bank.old f)))) }
    ensures grown { IsGrown bank.old bank.new }
{
    let Some(g) = delay_body(alloc, bank, classes, f, t)? else {
        return Ok(None);
    };
    Ok(Some(g))
}

/// The same at a list of terms. There is none but at one term.
fn delay_at(
    alloc: Global,
    bank: &mut Bank,
    classes: &Classes,
    f: FormulaId,
    ts: &[TermId],
) -> Result<Option<FormulaId>, AllocError>
    requires bank { IsBankOf (view.classes classes.now) bank.old }
    requires formula { HasFormula bank.old f }
    requires terms { HasTerms bank.old ts.now }
    ensures at { IfOk result (λ o. IfSome o (λ g. IsInstance (view.classes classes.now) bank.new g (body_at (view.classes classes.now) (terms_at bank.old ts.now) (formula_at bank.old f)))) }
    ensures grown { IsGrown bank.old bank.new }
{
    if !bank.is_well_formed(f) {
        return Ok(None);
    }
    let Some(t) = one(ts) else {
        return Ok(None);
    };
    delay_formed(alloc, bank, classes, f, t)
}

/// A formula that stands for an instance of a known `forall`, where its body is an `or` that ends with a long `and`.
pub(crate) fn delayed_instance(
    alloc: Global,
    bank: &mut Bank,
    classes: &Classes,
    known: &[FormulaId],
    i: usize,
    ts: &[TermId],
) -> Result<Option<FormulaId>, AllocError>
    requires bank { IsBankOf (view.classes classes.now) bank.old }
    requires known { HasFormulas bank.old known.now }
    requires terms { HasTerms bank.old ts.now }
    ensures at { IfOk result (λ o. IfSome o (λ g. IsInstance (view.classes classes.now) bank.new g (option_and_then (body_at (view.classes classes.now) (terms_at bank.old ts.now)) (slice_get (formulas_at bank.old known.now) i)))) }
    ensures grown { IsGrown bank.old bank.new }
{
    let Some(f) = known_at(bank, known, i) else {
        return Ok(None);
    };
    delay_at(alloc, bank, classes, f, ts)
}
