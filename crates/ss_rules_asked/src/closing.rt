// What is asked for to close a list.

ghost use Rattle.std.specs.Prelude.{◌++◌, flat_map, IfOk, OnOk};
ghost use Rattle.ss_core.specs.View as view;
ghost use Rattle.ss_logic.specs.Asked as spec;
ghost use Rattle.ss_terms.specs.Forms.{terms_at, formulas_at, HasTerms, HasFormulas, IsBankOf};
ghost use Rattle.ss_rules_asked.specs.Numbers.{asked_in, HasAsked, Asks};
ghost use Rattle.ss_rules_asked.specs.Readings.{reading_at, readings_at, HasReading, HasReadings};

use crate::among::{Among, ask_among_all};
use crate::asked::Asked;
use crate::context::AskingContext;
use crate::couples::{ask_of_counts, ask_of_pairs};
use crate::forms::{Reading, is_constant_store};
use crate::gathered::{all_counts, pairs, readings, store_equations};
use crate::lists::{AtAtom, AtTerm, ask_at_atoms, ask_at_terms};
use crate::reads::ask_over;
use ss_core::Classes;
use ss_terms::{Bank, FormulaId, TermId};
use std::alloc::{AllocError, Global};

// At a read: over the changed store, or over each store that the constant equals.
fn ask_at_read(
    alloc: Global,
    bank: &Bank,
    asked: &mut Vec<Asked>,
    atoms: &[FormulaId],
    r: Reading,
) -> Result<(), AllocError>
    requires asked { HasAsked bank.now asked.old.items }
    requires atoms { HasFormulas bank.now atoms.now }
    requires read { HasReading bank.now r }
    ensures { OnOk result (Asks bank.now asked.new.items (asked_in bank.now asked.old.items ++ spec.asked_at_read (formulas_at bank.now atoms.now) (reading_at bank.now r))) }
{
    if is_constant_store(bank, r.store) {
        ask_at_atoms(alloc, bank, asked, AtAtom::Equal(r), atoms)
    } else {
        ask_over(alloc, bank, asked, r)
    }
}

// At each read.
fn ask_at_reads(
    alloc: Global,
    bank: &Bank,
    asked: &mut Vec<Asked>,
    atoms: &[FormulaId],
    reads: &[Reading],
) -> Result<(), AllocError>
    requires asked { HasAsked bank.now asked.old.items }
    requires atoms { HasFormulas bank.now atoms.now }
    requires reads { HasReadings bank.now reads.now }
    ensures { OnOk result (Asks bank.now asked.new.items (asked_in bank.now asked.old.items ++ flat_map (spec.asked_at_read (formulas_at bank.now atoms.now)) (readings_at bank.now reads.now))) }
{
    for r in reads {
        ask_at_read(alloc, bank, asked, atoms, *r)?;
    }
    Ok(())
}

// The same, where of the atoms only those are tried that say what a constant equals.
fn ask_at_all_reads(
    alloc: Global,
    bank: &Bank,
    asked: &mut Vec<Asked>,
    atoms: &[FormulaId],
    reads: &[Reading],
) -> Result<(), AllocError>
    requires asked { HasAsked bank.now asked.old.items }
    requires atoms { HasFormulas bank.now atoms.now }
    requires reads { HasReadings bank.now reads.now }
    ensures { OnOk result (Asks bank.now asked.new.items (asked_in bank.now asked.old.items ++ flat_map (spec.asked_at_read (formulas_at bank.now atoms.now)) (readings_at bank.now reads.now))) }
{
    let equations = store_equations(alloc, bank, atoms)?;
    ask_at_reads(alloc, bank, asked, &equations, reads)
}

// About reads and new references.
fn ask_about_stores(
    alloc: Global,
    bank: &Bank,
    classes: &Classes,
    asked: &mut Vec<Asked>,
    atoms: &[FormulaId],
    terms: &[TermId],
) -> Result<(), AllocError>
    requires bank { IsBankOf (view.classes classes.now) bank.now }
    requires asked { HasAsked bank.now asked.old.items }
    requires atoms { HasFormulas bank.now atoms.now }
    requires terms { HasTerms bank.now terms.now }
    ensures { OnOk result (Asks bank.now asked.new.items (asked_in bank.now asked.old.items ++ spec.asked_about_stores (formulas_at bank.now atoms.now) (terms_at bank.now terms.now))) }
{
    let reads = readings(alloc, bank, atoms, terms)?;
    ask_at_all_reads(alloc, bank, asked, atoms, &reads)?;
    ask_at_terms(alloc, bank, classes, asked, AtTerm::Next, terms)?;
    let context = AskingContext {
        alloc,
        bank,
        classes,
    };
    ask_among_all(&context, asked, Among::New, terms)
}

// About classes.
fn ask_about_classes(
    alloc: Global,
    bank: &Bank,
    classes: &Classes,
    asked: &mut Vec<Asked>,
    atoms: &[FormulaId],
    terms: &[TermId],
) -> Result<(), AllocError>
    requires bank { IsBankOf (view.classes classes.now) bank.now }
    requires asked { HasAsked bank.now asked.old.items }
    requires atoms { HasFormulas bank.now atoms.now }
    requires terms { HasTerms bank.now terms.now }
    ensures { OnOk result (Asks bank.now asked.new.items (asked_in bank.now asked.old.items ++ spec.asked_about_classes (formulas_at bank.now atoms.now) (terms_at bank.now terms.now))) }
{
    let counts = all_counts(alloc, bank, atoms)?;
    let context = AskingContext {
        alloc,
        bank,
        classes,
    };
    ask_among_all(&context, asked, Among::Class, terms)?;
    ask_at_atoms(alloc, bank, asked, AtAtom::Count, atoms)?;
    ask_of_counts(alloc, bank, asked, &counts)?;
    ask_at_terms(alloc, bank, classes, asked, AtTerm::Itself, terms)
}

// About owners and truth values.
fn ask_about_values(
    alloc: Global,
    bank: &Bank,
    classes: &Classes,
    asked: &mut Vec<Asked>,
    terms: &[TermId],
) -> Result<(), AllocError>
    requires bank { IsBankOf (view.classes classes.now) bank.now }
    requires asked { HasAsked bank.now asked.old.items }
    requires terms { HasTerms bank.now terms.now }
    ensures { OnOk result (Asks bank.now asked.new.items (asked_in bank.now asked.old.items ++ spec.asked_about_values (view.classes classes.now) (terms_at bank.now terms.now))) }
{
    let owners = pairs(alloc, bank, terms)?;
    ask_at_terms(alloc, bank, classes, asked, AtTerm::Pair, terms)?;
    ask_of_pairs(alloc, bank, classes, asked, &owners)?;
    ask_at_terms(alloc, bank, classes, asked, AtTerm::Truth, terms)
}

/// What is asked for to close a list with these atoms and terms. An error is want of memory.
pub fn asked_to_close(
    alloc: Global,
    bank: &Bank,
    classes: &Classes,
    atoms: &[FormulaId],
    terms: &[TermId],
) -> Result<Vec<Asked>, AllocError>
    requires bank { IsBankOf (view.classes classes.now) bank.now }
    requires atoms { HasFormulas bank.now atoms.now }
    requires terms { HasTerms bank.now terms.now }
    ensures { IfOk result (λ v. Asks bank.now v.items (spec.asked_to_close (view.classes classes.now) (formulas_at bank.now atoms.now) (terms_at bank.now terms.now))) }
{
    let mut asked = Vec::new(alloc);
    ask_about_stores(alloc, bank, classes, &mut asked, atoms, terms)?;
    ask_about_classes(alloc, bank, classes, &mut asked, atoms, terms)?;
    ask_about_values(alloc, bank, classes, &mut asked, terms)?;
    Ok(asked)
}
