// Lists without repetition.

ghost use Rattle.std.specs.Prelude.{◌≡◌, [], ◌∷◌, ◌++◌, not, if◌then◌else◌, IfOk, OnOk};
ghost use Rattle.std.specs.List.{list_any};
ghost use Rattle.ss_logic.specs.Equal.{same_term};
ghost use Rattle.ss_logic.specs.Occurring.{with_formula};
ghost use Rattle.ss_terms.specs.Forms.{formula_at, term_at, HasFormula, HasTerm};
ghost use Rattle.ss_rules_occurring.specs.Found.{formulas_of, terms_of, HasFound, HasFoundTerms, Holds, HoldsTerms};

use ss_bit_set::BitSet;
use ss_terms::{Bank, FormulaId, TermId};
use std::alloc::{AllocError, Global};

/// Formulas of a bank, each once.
#[derive(Drop)]
pub struct FormulaList {
    /// Their numbers, in the order in which they came.
    pub list: Vec<FormulaId>,
    /// The set of these numbers.
    pub numbers: BitSet,
}

/// Terms of a bank, each once.
#[derive(Drop)]
pub struct TermList {
    /// Their numbers, in the order in which they came.
    pub list: Vec<TermId>,
    /// The set of these numbers.
    pub numbers: BitSet,
}

impl FormulaList {
    /// No formulas.
    pub fn new(alloc: Global, bank: &Bank) -> FormulaList
        ensures { Holds bank.now result [] }
    {
        let _ = bank;
        FormulaList {
            list: Vec::new(alloc),
            numbers: BitSet::new(alloc),
        }
    }

    /// Adds a formula, where it isn't there yet.
    pub fn add(&mut self, bank: &Bank, f: FormulaId) -> Result<(), AllocError>
        requires found { HasFound bank.now self.old }
        requires formula { HasFormula bank.now f }
        ensures { OnOk result (Holds bank.now self.new (with_formula (formulas_of bank.now self.old) (formula_at bank.now f))) }
    {
        bank.numbers_are_apart();
        if self.numbers.has(f.0) {
            return Ok(());
        }
        self.list.push(f)?;
        self.numbers.put(f.0, true)?;
        Ok(())
    }
}

impl TermList {
    /// No terms.
    pub fn new(alloc: Global, bank: &Bank) -> TermList
        ensures { HoldsTerms bank.now result [] }
    {
        let _ = bank;
        TermList {
            list: Vec::new(alloc),
            numbers: BitSet::new(alloc),
        }
    }

    /// Adds a term, where it isn't there yet, and says whether it is new.
    pub fn add(&mut self, bank: &Bank, t: TermId) -> Result<bool, AllocError>
        requires found { HasFoundTerms bank.now self.old }
        requires term { HasTerm bank.now t }
        ensures new { IfOk result (λ is_new. is_new ≡ not (list_any (same_term (term_at bank.now t)) (terms_of bank.now self.old))) }
        ensures added { IfOk result (λ is_new. HoldsTerms bank.now self.new (if is_new then terms_of bank.now self.old ++ term_at bank.now t ∷ [] else terms_of bank.now self.old)) }
    {
        bank.numbers_are_apart();
        if self.numbers.has(t.0) {
            return Ok(false);
        }
        self.list.push(t)?;
        self.numbers.put(t.0, true)?;
        Ok(true)
    }
}
