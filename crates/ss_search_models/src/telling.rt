// What has a truth value in formulas, each once.

ghost use Rattle.std.specs.Prelude.{◌≡◌, ◌≤◌, ◌*◌, [], length, flat_map, IfOk, OnOk};
ghost use Rattle.ss_logic.specs.Occurring.{with_formula, with_formulas};
ghost use Rattle.ss_logic_countermodels.specs.Refuting as spec;
ghost use Rattle.ss_logic_countermodels.specs.Refuting.{told_in};
ghost use Rattle.ss_terms.specs.Forms.{formula_at, formulas_at, HasFormula, HasFormulas, AreBelow};
ghost use Rattle.ss_rules_occurring.specs.Found.{formulas_of, Holds};
ghost use Rattle.ss_search_models.specs.Tellings as words;
ghost use Rattle.ss_search_models.specs.Tellings.{Tells, IsTelling};

use ss_bit_set::BitSet;
use ss_rules_occurring::FormulaList;
use ss_terms::{Bank, Formula, FormulaId};
use std::alloc::{AllocError, Global};

/// What was found, and the numbers of the formulas of which all is found.
#[derive(Drop)]
pub(crate) struct Telling {
    pub(crate) found: FormulaList,
    pub(crate) seen: BitSet,
}

impl Telling {
    fn new(alloc: Global, bank: &Bank) -> Telling
        ensures { Tells bank.now result [] }
    {
        Telling {
            found: FormulaList::new(alloc, bank),
            seen: BitSet::new(alloc),
        }
    }
}

/// The formula that has the truth value: the atom of a literal, and the `forall` that an `exists` denies.
pub(crate) fn told_of(bank: &Bank, f: FormulaId) -> FormulaId
    requires { HasFormula bank.now f }
    ensures in_bank { HasFormula bank.now result }
    ensures told { formula_at bank.now result ≡ words.told_of (formula_at bank.now f) }
{
    match bank.formula_node(f) {
        Formula::Literal { holds, .. } => { if *holds { f } else { bank.negation(f) } }
        Formula::Exists(_, _) => bank.negation(f),
        _ => f,
    }
}

fn add_told(bank: &Bank, telling: &mut Telling, f: FormulaId) -> Result<(), AllocError>
    requires telling { IsTelling bank.now telling.old }
    requires formula { HasFormula bank.now f }
    ensures { OnOk result (Tells bank.now telling.new (with_formula (formulas_of bank.now telling.old.found) (words.told_of (formula_at bank.now f)))) }
{
    let told = told_of(bank, f);
    telling.found.add(bank, told)
}

// Adds what is told in a formula. Of one that was seen all is there.
#[cycle(telling)]
fn add(bank: &Bank, telling: &mut Telling, f: FormulaId) -> Result<(), AllocError>
    requires telling { IsTelling bank.now telling.old }
    requires formula { HasFormula bank.now f }
    ensures { OnOk result (Tells bank.now telling.new (with_formulas (formulas_of bank.now telling.old.found) (told_in (formula_at bank.now f)))) }
{
    if telling.seen.has(f.0) {
        return Ok(());
    }
    add_new(bank, telling, f)?;
    telling.seen.put(f.0, true)?;
    Ok(())
}

#[cycle(telling)]
fn add_new(bank: &Bank, telling: &mut Telling, f: FormulaId) -> Result<(), AllocError>
    requires telling { IsTelling bank.now telling.old }
    requires formula { HasFormula bank.now f }
    ensures { OnOk result (Tells bank.now telling.new (with_formulas (formulas_of bank.now telling.old.found) (told_in (formula_at bank.now f)))) }
{
    match bank.formula_node(f) {
        Formula::Literal { .. } => add_told(bank, telling, f),
        Formula::And(parts) => add_all(bank, telling, parts, f.0),
        Formula::Or(parts) => add_all(bank, telling, parts, f.0),
        Formula::Forall(_, _) => add_told(bank, telling, f),
        Formula::Exists(_, _) => add_told(bank, telling, f),
    }
}

// Adds what is told in formulas below a number.
#[cycle(telling)]
fn add_all(
    bank: &Bank,
    telling: &mut Telling,
    fs: &[FormulaId],
    bound: usize,
) -> Result<(), AllocError>
    requires telling { IsTelling bank.now telling.old }
    requires below { AreBelow bound fs.now }
    requires in_bank { bound ≤ length bank.now.formulas * 2 }
    ensures { OnOk result (Tells bank.now telling.new (with_formulas (formulas_of bank.now telling.old.found) (flat_map told_in (formulas_at bank.now fs.now)))) }
{
    for f in fs {
        add(bank, telling, *f)?;
    }
    Ok(())
}

/// The atoms and the `forall`s of the formulas, outside quantified formulas. An error is want of memory.
pub fn told(alloc: Global, bank: &Bank, fs: &[FormulaId]) -> Result<FormulaList, AllocError>
    requires { HasFormulas bank.now fs.now }
    ensures { IfOk result (λ found. Holds bank.now found (spec.told (formulas_at bank.now fs.now))) }
{
    let mut telling = Telling::new(alloc, bank);
    add_all(bank, &mut telling, fs, bank.formula_count())?;
    Ok(telling.found)
}
