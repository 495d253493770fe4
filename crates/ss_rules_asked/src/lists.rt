// What is asked for at the terms and atoms of a list.

ghost use Rattle.std.specs.Prelude.{◌++◌, flat_map, OnOk};
ghost use Rattle.ss_core.specs.View as view;
ghost use Rattle.ss_logic.specs.Asked as spec;
ghost use Rattle.ss_terms.specs.Forms.{term_at, terms_at, formula_at, formulas_at, HasTerm, HasTerms, HasFormula, HasFormulas, IsBankOf};
ghost use Rattle.ss_rules_asked.specs.Numbers.{asked_in, HasAsked, Asks};
ghost use Rattle.ss_rules_asked.specs.Sentences.{at_term, at_atom, HasAtTerm, HasAtAtom};

use crate::asked::Asked;
use crate::forms::Reading;
use crate::reads::ask_at_equal;
use crate::sentences::{
    ask_at_count, ask_at_division, ask_at_equation, ask_at_next, ask_at_owner, ask_of_classes,
    ask_of_pair, ask_of_term, ask_of_truth, ask_of_two_pairs,
};
use ss_core::Classes;
use ss_terms::{Bank, FormulaId, TermId};
use std::alloc::{AllocError, Global};

/// A sentence that is asked for at terms.
#[derive(Clone, Copy)]
pub enum AtTerm {
    /// A next reference is new.
    Next,
    /// In this store, the new object over the other one has another owner.
    Owner(TermId, TermId),
    /// A class term counts as itself.
    Itself,
    /// This class name counts as another, or doesn't.
    OtherClass(TermId),
    /// A pair is no group.
    Pair,
    /// This pair and another have equal parts where they are equal.
    OtherPair(TermId),
    /// A truth value is true or false.
    Truth,
    /// What a quotient and a remainder are.
    Division,
}

/// A sentence that is asked for at atoms.
#[derive(Clone, Copy)]
pub enum AtAtom {
    /// What counts as a class counts as the one above it.
    Count,
    /// Two numbers are equal, or one is below the other.
    Equation,
    /// A read over a constant gives the same over the store that the constant equals.
    Equal(Reading),
}

// At one term.
fn ask_at_term(
    alloc: Global,
    bank: &Bank,
    classes: &Classes,
    asked: &mut Vec<Asked>,
    sentence: AtTerm,
    t: TermId,
) -> Result<(), AllocError>
    requires bank { IsBankOf (view.classes classes.now) bank.now }
    requires asked { HasAsked bank.now asked.old.items }
    requires sentence { HasAtTerm bank.now sentence }
    requires term { HasTerm bank.now t }
    ensures { OnOk result (Asks bank.now asked.new.items (asked_in bank.now asked.old.items ++ at_term bank.now (view.classes classes.now) sentence (term_at bank.now t))) }
{
    match sentence {
        AtTerm::Next => ask_at_next(alloc, bank, asked, t),
        AtTerm::Owner(after, s) => ask_at_owner(alloc, bank, asked, after, s, t),
        AtTerm::Itself => ask_of_term(alloc, bank, asked, t),
        AtTerm::OtherClass(c) => ask_of_classes(alloc, bank, asked, c, t),
        AtTerm::Pair => ask_of_pair(alloc, bank, asked, t),
        AtTerm::OtherPair(p) => ask_of_two_pairs(alloc, bank, asked, p, t),
        AtTerm::Truth => ask_of_truth(alloc, bank, classes, asked, t),
        AtTerm::Division => ask_at_division(alloc, bank, asked, t),
    }
}

/// At each term. An error is want of memory.
pub fn ask_at_terms(
    alloc: Global,
    bank: &Bank,
    classes: &Classes,
    asked: &mut Vec<Asked>,
    sentence: AtTerm,
    terms: &[TermId],
) -> Result<(), AllocError>
    requires bank { IsBankOf (view.classes classes.now) bank.now }
    requires asked { HasAsked bank.now asked.old.items }
    requires sentence { HasAtTerm bank.now sentence }
    requires terms { HasTerms bank.now terms.now }
    ensures { OnOk result (Asks bank.now asked.new.items (asked_in bank.now asked.old.items ++ flat_map (at_term bank.now (view.classes classes.now) sentence) (terms_at bank.now terms.now))) }
{
    for t in terms {
        ask_at_term(alloc, bank, classes, asked, sentence, *t)?;
    }
    Ok(())
}

// At one atom.
fn ask_at_atom(
    alloc: Global,
    bank: &Bank,
    asked: &mut Vec<Asked>,
    sentence: AtAtom,
    f: FormulaId,
) -> Result<(), AllocError>
    requires asked { HasAsked bank.now asked.old.items }
    requires sentence { HasAtAtom bank.now sentence }
    requires formula { HasFormula bank.now f }
    ensures { OnOk result (Asks bank.now asked.new.items (asked_in bank.now asked.old.items ++ at_atom bank.now sentence (formula_at bank.now f))) }
{
    match sentence {
        AtAtom::Count => ask_at_count(alloc, bank, asked, f),
        AtAtom::Equation => ask_at_equation(alloc, bank, asked, f),
        AtAtom::Equal(r) => ask_at_equal(alloc, bank, asked, r, f),
    }
}

/// At each atom. An error is want of memory.
pub fn ask_at_atoms(
    alloc: Global,
    bank: &Bank,
    asked: &mut Vec<Asked>,
    sentence: AtAtom,
    atoms: &[FormulaId],
) -> Result<(), AllocError>
    requires asked { HasAsked bank.now asked.old.items }
    requires sentence { HasAtAtom bank.now sentence }
    requires atoms { HasFormulas bank.now atoms.now }
    ensures { OnOk result (Asks bank.now asked.new.items (asked_in bank.now asked.old.items ++ flat_map (at_atom bank.now sentence) (formulas_at bank.now atoms.now))) }
{
    for f in atoms {
        ask_at_atom(alloc, bank, asked, sentence, *f)?;
    }
    Ok(())
}
