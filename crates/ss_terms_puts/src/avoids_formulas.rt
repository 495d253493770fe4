// Which formulas of a bank avoid a constant.

ghost use Rattle.std.specs.Prelude.{◌≡◌, ◌≤◌, ◌*◌, length, IfOk};
ghost use Rattle.std.specs.List.{list_all};
ghost use Rattle.ss_logic.specs.Formulas as logic;
ghost use Rattle.ss_terms.specs.Forms.{formula_at, HasFormula, AreBelow};
ghost use Rattle.ss_terms_puts.specs.Entries.{formula_entry, AreTermEntries, AreFormulaEntries};

use crate::avoids_terms::{Constant, all_terms};
use ss_terms::{Bank, Formula, FormulaId};
use std::alloc::{AllocError, Global};

/// Whether each of the formulas has `true` in the table.
pub(crate) fn all_formulas(entries: &[bool], fs: &[FormulaId]) -> bool
    requires { AreBelow (length entries.now) fs.now }
    ensures { result ≡ list_all (formula_entry entries.now) fs.now }
{
    for f in fs {
        if !entries[f.0] {
            return false;
        }
    }
    true
}

// Whether the formula avoids the constant, by a table of all terms and one of the formulas before it.
fn formula_avoids(
    bank: &Bank,
    constant: Constant,
    terms: &[bool],
    entries: &[bool],
    f: FormulaId,
) -> bool
    requires formula { HasFormula bank.now f }
    requires terms { AreTermEntries bank.now constant.sort constant.number terms.now }
    requires all { length terms.now ≡ length bank.now.terms }
    requires entries { AreFormulaEntries bank.now constant.sort constant.number entries.now }
    requires before { f.0 ≤ length entries.now }
    ensures { result ≡ logic.avoids constant.sort constant.number (formula_at bank.now f) }
{
    let _ = constant;
    match bank.formula_node(f) {
        Formula::Literal { arguments, .. } => all_terms(terms, arguments),
        Formula::And(parts) => all_formulas(entries, parts),
        Formula::Or(parts) => all_formulas(entries, parts),
        Formula::Forall(_, body) => entries[body.0],
        Formula::Exists(_, body) => entries[body.0],
    }
}

/// A table of all formulas: whether each avoids the constant, by a table of all terms. An error is want of memory.
pub(crate) fn formula_entries(
    alloc: Global,
    bank: &Bank,
    constant: Constant,
    terms: &[bool],
) -> Result<Vec<bool>, AllocError>
    requires terms { AreTermEntries bank.now constant.sort constant.number terms.now }
    requires all { length terms.now ≡ length bank.now.terms }
    ensures entries { IfOk result (λ v. AreFormulaEntries bank.now constant.sort constant.number v.items) }
    ensures all { IfOk result (λ v. length v.items ≡ length bank.now.formulas * 2) }
{
    let mut entries = Vec::new(alloc);
    for n in 0..bank.formula_count() {
        let entry = formula_avoids(bank, constant, terms, &entries, FormulaId(n));
        entries.push(entry)?;
    }
    Ok(entries)
}
