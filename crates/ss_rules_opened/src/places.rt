// The places of a `forall`.

ghost use Rattle.std.specs.Prelude.{◌≡◌, ◌&&◌, [], ◌∷◌, ◌++◌, map, flat_map, filter_map, option_map, option_to_list, IfOk, IfSome, OnOk};
ghost use Rattle.ss_core.specs.View as view;
ghost use Rattle.ss_logic.specs.Asked as ask;
ghost use Rattle.ss_logic.specs.Matching as spec;
ghost use Rattle.ss_terms.specs.Forms.{term_at, terms_at, formula_at, formulas_at, HasTerm, HasTerms, HasFormula, HasFormulas, IsBankOf};
ghost use Rattle.ss_rules_opened.specs.Matches as words;
ghost use Rattle.ss_rules_opened.specs.Matches.{tuples_at, HasTuples, AreTuples};

use crate::matching::{MatchingContext, match_atom, match_term};
use crate::triggers::{Wanted, atom_triggers, wanted_everywhere};
use ss_core::Classes;
use ss_logic::Sort;
use ss_rules_occurring::{atoms, terms};
use ss_terms::{Bank, FormulaId, TermId};
use std::alloc::{AllocError, Global};

/// Terms in place of bound names.
#[derive(Drop)]
pub(crate) struct Tuple {
    pub(crate) terms: Vec<TermId>,
}

// The triggers of a body: the terms and the atoms that are matched.
#[derive(Clone, Copy)]
struct Triggers<'a> {
    terms: &'a [TermId],
    atoms: &'a [FormulaId],
}

// Adds terms, if there are any.
fn add_tuple(
    bank: &Bank,
    tuples: &mut Vec<Tuple>,
    found: Option<Vec<TermId>>,
) -> Result<(), AllocError>
    requires tuples { HasTuples bank.now tuples.old.items }
    requires found { IfSome found (λ v. HasTerms bank.now v.items) }
    ensures { OnOk result (AreTuples bank.now tuples.new.items (tuples_at bank.now tuples.old.items ++ option_to_list (option_map (λ v. terms_at bank.now v.items) found))) }
{
    let _ = bank;
    match found {
        Some(terms) => {
            tuples.push(Tuple { terms })?;
            Ok(())
        }
        None => Ok(()),
    }
}

// ---- at the terms and atoms that match

fn add_at_term(
    context: &MatchingContext<'_>,
    tuples: &mut Vec<Tuple>,
    patterns: &[TermId],
    t: TermId,
) -> Result<(), AllocError>
    requires bank { IsBankOf (view.classes context.now.classes.now) context.now.bank.now }
    requires tuples { HasTuples context.now.bank.now tuples.old.items }
    requires patterns { HasTerms context.now.bank.now patterns.now }
    requires term { HasTerm context.now.bank.now t }
    ensures { OnOk result (AreTuples context.now.bank.now tuples.new.items (tuples_at context.now.bank.now tuples.old.items ++ filter_map (λ p. spec.match_term context.now.count p (term_at context.now.bank.now t)) (terms_at context.now.bank.now patterns.now))) }
{
    for p in patterns {
        let found = match_term(context, *p, t)?;
        add_tuple(context.bank, tuples, found)?;
    }
    Ok(())
}

fn add_at_terms(
    context: &MatchingContext<'_>,
    tuples: &mut Vec<Tuple>,
    patterns: &[TermId],
    ts: &[TermId],
) -> Result<(), AllocError>
    requires bank { IsBankOf (view.classes context.now.classes.now) context.now.bank.now }
    requires tuples { HasTuples context.now.bank.now tuples.old.items }
    requires patterns { HasTerms context.now.bank.now patterns.now }
    requires terms { HasTerms context.now.bank.now ts.now }
    ensures { OnOk result (AreTuples context.now.bank.now tuples.new.items (tuples_at context.now.bank.now tuples.old.items ++ flat_map (λ t. filter_map (λ p. spec.match_term context.now.count p t) (terms_at context.now.bank.now patterns.now)) (terms_at context.now.bank.now ts.now))) }
{
    for t in ts {
        add_at_term(context, tuples, patterns, *t)?;
    }
    Ok(())
}

fn add_at_atom(
    context: &MatchingContext<'_>,
    tuples: &mut Vec<Tuple>,
    patterns: &[FormulaId],
    f: FormulaId,
) -> Result<(), AllocError>
    requires bank { IsBankOf (view.classes context.now.classes.now) context.now.bank.now }
    requires tuples { HasTuples context.now.bank.now tuples.old.items }
    requires patterns { HasFormulas context.now.bank.now patterns.now }
    requires formula { HasFormula context.now.bank.now f }
    ensures { OnOk result (AreTuples context.now.bank.now tuples.new.items (tuples_at context.now.bank.now tuples.old.items ++ filter_map (λ p. spec.match_atom context.now.count p (formula_at context.now.bank.now f)) (formulas_at context.now.bank.now patterns.now))) }
{
    for p in patterns {
        let found = match_atom(context, *p, f)?;
        add_tuple(context.bank, tuples, found)?;
    }
    Ok(())
}

fn add_at_atoms(
    context: &MatchingContext<'_>,
    tuples: &mut Vec<Tuple>,
    patterns: &[FormulaId],
    fs: &[FormulaId],
) -> Result<(), AllocError>
    requires bank { IsBankOf (view.classes context.now.classes.now) context.now.bank.now }
    requires tuples { HasTuples context.now.bank.now tuples.old.items }
    requires patterns { HasFormulas context.now.bank.now patterns.now }
    requires formulas { HasFormulas context.now.bank.now fs.now }
    ensures { OnOk result (AreTuples context.now.bank.now tuples.new.items (tuples_at context.now.bank.now tuples.old.items ++ flat_map (λ f. filter_map (λ p. spec.match_atom context.now.count p f) (formulas_at context.now.bank.now patterns.now)) (formulas_at context.now.bank.now fs.now))) }
{
    for f in fs {
        add_at_atom(context, tuples, patterns, *f)?;
    }
    Ok(())
}

// Of these terms and atoms.
fn matches(
    context: &MatchingContext<'_>,
    triggers: &Triggers<'_>,
    ts: &[TermId],
    fs: &[FormulaId],
) -> Result<Vec<Tuple>, AllocError>
    requires bank { IsBankOf (view.classes context.now.classes.now) context.now.bank.now }
    requires for_terms { HasTerms context.now.bank.now triggers.now.terms.now }
    requires for_atoms { HasFormulas context.now.bank.now triggers.now.atoms.now }
    requires terms { HasTerms context.now.bank.now ts.now }
    requires formulas { HasFormulas context.now.bank.now fs.now }
    ensures { IfOk result (λ v. AreTuples context.now.bank.now v.items (flat_map (λ t. filter_map (λ p. spec.match_term context.now.count p t) (terms_at context.now.bank.now triggers.now.terms.now)) (terms_at context.now.bank.now ts.now) ++ flat_map (λ f. filter_map (λ p. spec.match_atom context.now.count p f) (formulas_at context.now.bank.now triggers.now.atoms.now)) (formulas_at context.now.bank.now fs.now))) }
{
    let mut tuples = Vec::new(context.alloc);
    add_at_terms(context, &mut tuples, triggers.terms, ts)?;
    add_at_atoms(context, &mut tuples, triggers.atoms, fs)?;
    Ok(tuples)
}

// Of those of a list.
fn match_places(
    context: &MatchingContext<'_>,
    triggers: &Triggers<'_>,
    fs: &[FormulaId],
) -> Result<Vec<Tuple>, AllocError>
    requires bank { IsBankOf (view.classes context.now.classes.now) context.now.bank.now }
    requires for_terms { HasTerms context.now.bank.now triggers.now.terms.now }
    requires for_atoms { HasFormulas context.now.bank.now triggers.now.atoms.now }
    requires formulas { HasFormulas context.now.bank.now fs.now }
    ensures { IfOk result (λ v. AreTuples context.now.bank.now v.items (words.match_places context.now.count (terms_at context.now.bank.now triggers.now.terms.now) (formulas_at context.now.bank.now triggers.now.atoms.now) (formulas_at context.now.bank.now fs.now))) }
{
    let atoms = atoms(context.alloc, context.bank, fs)?;
    let terms = terms(context.alloc, context.bank, &atoms.list)?;
    matches(context, triggers, &terms.list, &atoms.list)
}

// ---- at whole numbers

// Adds a term alone.
fn add_alone(
    alloc: Global,
    bank: &Bank,
    tuples: &mut Vec<Tuple>,
    t: TermId,
) -> Result<(), AllocError>
    requires tuples { HasTuples bank.now tuples.old.items }
    requires term { HasTerm bank.now t }
    ensures { OnOk result (AreTuples bank.now tuples.new.items (tuples_at bank.now tuples.old.items ++ (term_at bank.now t ∷ []) ∷ [])) }
{
    let alone = Vec::from_slice(alloc, &[t])?;
    add_tuple(bank, tuples, Some(alone))
}

// Each term alone.
fn each_alone(alloc: Global, bank: &Bank, ts: &[TermId]) -> Result<Vec<Tuple>, AllocError>
    requires { HasTerms bank.now ts.now }
    ensures { IfOk result (λ v. AreTuples bank.now v.items (map (λ t. t ∷ []) (terms_at bank.now ts.now))) }
{
    let mut tuples = Vec::new(alloc);
    for t in ts {
        add_alone(alloc, bank, &mut tuples, *t)?;
    }
    Ok(tuples)
}

fn number_places(alloc: Global, bank: &Bank, fs: &[FormulaId]) -> Result<Vec<Tuple>, AllocError>
    requires { HasFormulas bank.now fs.now }
    ensures { IfOk result (λ v. AreTuples bank.now v.items (words.number_places (formulas_at bank.now fs.now))) }
{
    let wholes = wanted_everywhere(alloc, bank, Wanted::PlainWhole, fs)?;
    each_alone(alloc, bank, &wholes)
}

// ---- one or the other

fn is_one_whole(sorts: &[Sort]) -> bool
    ensures { result ≡ spec.is_one_whole sorts.now }
{
    match sorts {
        [s] => *s == Sort::Whole,
        [] => false,
        [_, _, ..] => false,
    }
}

fn no_term(bank: &Bank, ts: &[TermId]) -> bool
    ensures { result ≡ ask.is_empty (terms_at bank.now ts.now) }
{
    let _ = bank;
    match ts {
        [] => true,
        [_, ..] => false,
    }
}

fn no_formula(bank: &Bank, fs: &[FormulaId]) -> bool
    ensures { result ≡ ask.is_empty (formulas_at bank.now fs.now) }
{
    let _ = bank;
    match fs {
        [] => true,
        [_, ..] => false,
    }
}

// Whether there is no trigger for the one whole number.
fn is_counted(bank: &Bank, sorts: &[Sort], triggers: &Triggers<'_>) -> bool
    ensures { result ≡ (ask.is_empty (terms_at bank.now triggers.now.terms.now) && ask.is_empty (formulas_at bank.now triggers.now.atoms.now) && spec.is_one_whole sorts.now) }
{
    no_term(bank, triggers.terms) && no_formula(bank, triggers.atoms) && is_one_whole(sorts)
}

// By these triggers.
fn places_by(
    alloc: Global,
    bank: &Bank,
    classes: &Classes,
    fs: &[FormulaId],
    sorts: &[Sort],
    triggers: &Triggers<'_>,
) -> Result<Vec<Tuple>, AllocError>
    requires bank { IsBankOf (view.classes classes.now) bank.now }
    requires for_terms { HasTerms bank.now triggers.now.terms.now }
    requires for_atoms { HasFormulas bank.now triggers.now.atoms.now }
    requires formulas { HasFormulas bank.now fs.now }
    ensures { IfOk result (λ v. AreTuples bank.now v.items (words.places_by (formulas_at bank.now fs.now) sorts.now (terms_at bank.now triggers.now.terms.now) (formulas_at bank.now triggers.now.atoms.now))) }
{
    if is_counted(bank, sorts, triggers) {
        return number_places(alloc, bank, fs);
    }
    let context = MatchingContext {
        alloc,
        bank,
        classes,
        count: sorts.len(),
    };
    match_places(&context, triggers, fs)
}

/// The terms of a list that stand in place of the bound names of a `forall`. An error is want of memory.
pub(crate) fn places(
    alloc: Global,
    bank: &Bank,
    classes: &Classes,
    fs: &[FormulaId],
    sorts: &[Sort],
    body: FormulaId,
) -> Result<Vec<Tuple>, AllocError>
    requires bank { IsBankOf (view.classes classes.now) bank.now }
    requires body { HasFormula bank.now body }
    requires formulas { HasFormulas bank.now fs.now }
    ensures { IfOk result (λ v. AreTuples bank.now v.items (words.places (formulas_at bank.now fs.now) sorts.now (formula_at bank.now body))) }
{
    let count = sorts.len();
    let for_terms = wanted_everywhere(alloc, bank, Wanted::Trigger(count), &[body])?;
    let for_atoms = atom_triggers(alloc, bank, count, body)?;
    let triggers = Triggers {
        terms: &for_terms,
        atoms: &for_atoms,
    };
    places_by(alloc, bank, classes, fs, sorts, &triggers)
}
