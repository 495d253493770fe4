// Atoms and quantified formulas.

ghost use Rattle.std.specs.Prelude.{◌≡◌, ◌<◌, ◌≤◌, ◌*◌, length, flat_map, IfOk, OnOk};
ghost use Rattle.ss_logic.specs.Occurring as spec;
ghost use Rattle.ss_logic.specs.Occurring.{with_formulas};
ghost use Rattle.ss_terms.specs.Forms.{formula_at, formulas_at, HasFormula, HasFormulas, AreBelow};
ghost use Rattle.ss_rules_occurring.specs.Found.{formulas_of, HasFound, Holds};
ghost use Rattle.ss_rules_occurring.specs.Sought as words;
ghost use Rattle.ss_rules_occurring.specs.Sought.{found_in};

use crate::found::FormulaList;
use ss_terms::{Bank, Formula, FormulaId};
use std::alloc::{AllocError, Global};

/// What is looked for: atoms or quantified formulas outside quantified formulas, or atoms inside them too.
#[derive(Clone, Copy)]
pub(crate) enum Sought {
    Atoms,
    Quantified,
    Everywhere,
}

// The literal without its sign.
fn atom_of(bank: &Bank, f: FormulaId) -> FormulaId
    requires { HasFormula bank.now f }
    ensures in_bank { HasFormula bank.now result }
    ensures atom { formula_at bank.now result ≡ words.atom_of (formula_at bank.now f) }
{
    match bank.formula_node(f) {
        Formula::Literal { holds, .. } => { if *holds { f } else { bank.negation(f) } }
        _ => f,
    }
}

// Adds the atom of a literal.
fn add_atom(bank: &Bank, found: &mut FormulaList, f: FormulaId) -> Result<(), AllocError>
    requires found { HasFound bank.now found.old }
    requires formula { HasFormula bank.now f }
    ensures { OnOk result (Holds bank.now found.new (words.with_atom (formulas_of bank.now found.old) (formula_at bank.now f))) }
{
    let atom = atom_of(bank, f);
    found.add(bank, atom)
}

// Adds what is looked for in a literal.
fn add_literal(
    bank: &Bank,
    sought: Sought,
    found: &mut FormulaList,
    f: FormulaId,
) -> Result<(), AllocError>
    requires found { HasFound bank.now found.old }
    requires formula { HasFormula bank.now f }
    ensures { OnOk result (Holds bank.now found.new (words.with_literal sought (formulas_of bank.now found.old) (formula_at bank.now f))) }
{
    match sought {
        Sought::Atoms => add_atom(bank, found, f),
        Sought::Quantified => Ok(()),
        Sought::Everywhere => add_atom(bank, found, f),
    }
}

// Adds what is looked for in a formula.
#[cycle(seeking)]
fn add_in(
    bank: &Bank,
    sought: Sought,
    found: &mut FormulaList,
    f: FormulaId,
) -> Result<(), AllocError>
    requires found { HasFound bank.now found.old }
    requires formula { HasFormula bank.now f }
    ensures { OnOk result (Holds bank.now found.new (with_formulas (formulas_of bank.now found.old) (found_in sought (formula_at bank.now f)))) }
{
    match bank.formula_node(f) {
        Formula::Literal { .. } => add_literal(bank, sought, found, f),
        Formula::And(parts) => add_in_all(bank, sought, found, parts, f.0),
        Formula::Or(parts) => add_in_all(bank, sought, found, parts, f.0),
        Formula::Forall(_, body) => add_quantified(bank, sought, found, f, *body),
        Formula::Exists(_, body) => add_quantified(bank, sought, found, f, *body),
    }
}

// Adds what is looked for in a quantified formula with this body.
#[cycle(seeking)]
fn add_quantified(
    bank: &Bank,
    sought: Sought,
    found: &mut FormulaList,
    f: FormulaId,
    body: FormulaId,
) -> Result<(), AllocError>
    requires found { HasFound bank.now found.old }
    requires formula { HasFormula bank.now f }
    requires body { body.0 < f.0 }
    ensures { OnOk result (Holds bank.now found.new (with_formulas (formulas_of bank.now found.old) (words.found_in_quantified sought (formula_at bank.now f) (formula_at bank.now body)))) }
{
    match sought {
        Sought::Atoms => Ok(()),
        Sought::Quantified => found.add(bank, f),
        Sought::Everywhere => add_in(bank, sought, found, body),
    }
}

// Adds what is looked for in formulas below a number.
#[cycle(seeking)]
fn add_in_all(
    bank: &Bank,
    sought: Sought,
    found: &mut FormulaList,
    fs: &[FormulaId],
    bound: usize,
) -> Result<(), AllocError>
    requires found { HasFound bank.now found.old }
    requires below { AreBelow bound fs.now }
    requires in_bank { bound ≤ length bank.now.formulas * 2 }
    ensures { OnOk result (Holds bank.now found.new (with_formulas (formulas_of bank.now found.old) (flat_map (found_in sought) (formulas_at bank.now fs.now)))) }
{
    for f in fs {
        add_in(bank, sought, found, *f)?;
    }
    Ok(())
}

/// The atoms of the formulas, outside quantified formulas. An error is want of memory.
pub fn atoms(alloc: Global, bank: &Bank, fs: &[FormulaId]) -> Result<FormulaList, AllocError>
    requires { HasFormulas bank.now fs.now }
    ensures { IfOk result (λ found. Holds bank.now found (spec.atoms (formulas_at bank.now fs.now))) }
{
    let mut found = FormulaList::new(alloc, bank);
    add_in_all(bank, Sought::Atoms, &mut found, fs, bank.formula_count())?;
    Ok(found)
}

/// The quantified formulas of the formulas, outside others. An error is want of memory.
pub fn quantified(alloc: Global, bank: &Bank, fs: &[FormulaId]) -> Result<FormulaList, AllocError>
    requires { HasFormulas bank.now fs.now }
    ensures { IfOk result (λ found. Holds bank.now found (spec.quantified (formulas_at bank.now fs.now))) }
{
    let mut found = FormulaList::new(alloc, bank);
    add_in_all(
        bank,
        Sought::Quantified,
        &mut found,
        fs,
        bank.formula_count(),
    )?;
    Ok(found)
}

/// The atoms of the formulas, also inside quantified formulas. An error is want of memory.
pub fn all_atoms(alloc: Global, bank: &Bank, fs: &[FormulaId]) -> Result<FormulaList, AllocError>
    requires { HasFormulas bank.now fs.now }
    ensures { IfOk result (λ found. Holds bank.now found (spec.all_atoms (formulas_at bank.now fs.now))) }
{
    let mut found = FormulaList::new(alloc, bank);
    add_in_all(
        bank,
        Sought::Everywhere,
        &mut found,
        fs,
        bank.formula_count(),
    )?;
    Ok(found)
}
