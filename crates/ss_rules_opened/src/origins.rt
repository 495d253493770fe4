// Origins beside a list.

ghost use Rattle.std.specs.Prelude.{OnOk};
ghost use Rattle.ss_logic.specs.Occurring.{with_formula};
ghost use Rattle.ss_terms.specs.Forms.{formula_at, terms_at, HasFormula, HasTerms};
ghost use Rattle.ss_rules_occurring.specs.Found.{formulas_of, HasFound, Holds};
ghost use Rattle.ss_rules_opened.specs.Views.{origin_with, HasSource, StillComeWith};

use ss_rules_asked::Rule;
use ss_rules_occurring::FormulaList;
use ss_terms::{Bank, FormulaId, TermId};
use std::alloc::{AllocError, Global};

/// What a formula of a ground form comes from.
#[derive(Clone, Copy)]
pub enum Source {
    /// A premise, by its place.
    Premise(usize),
    /// The denied goal.
    Denied,
    /// A rule.
    Rule(Rule),
    /// A `forall`.
    Forall(FormulaId),
}

/// Where a formula of a ground form comes from.
#[derive(Drop)]
pub struct Origin {
    /// What it comes from.
    pub source: Source,
    /// The terms of which it is the instance.
    pub terms: Vec<TermId>,
}

/// A list of formulas, and where each of them comes from.
#[derive(Drop)]
pub struct OriginList {
    /// The formulas.
    pub list: FormulaList,
    /// Where each of them comes from.
    pub origins: Vec<Origin>,
}

/// Adds a formula, where it isn't there yet, and then notes where it comes from. An error is want of memory.
pub fn add_from(
    alloc: Global,
    bank: &Bank,
    listed: &mut OriginList,
    f: FormulaId,
    source: Source,
    terms: &[TermId],
) -> Result<(), AllocError>
    requires list { HasFound bank.now listed.old.list }
    requires formula { HasFormula bank.now f }
    requires source { HasSource bank.now source }
    requires terms { HasTerms bank.now terms.now }
    ensures added { OnOk result (Holds bank.now listed.new.list (with_formula (formulas_of bank.now listed.old.list) (formula_at bank.now f))) }
    ensures noted { OnOk result (StillComeWith bank.now (formulas_of bank.now listed.old.list) listed.old.origins.items (origin_with bank.now source (terms_at bank.now terms.now)) (formula_at bank.now f) (formulas_of bank.now listed.new.list) listed.new.origins.items) }
{
    let before = listed.list.list.len();
    listed.list.add(bank, f)?;
    let after = listed.list.list.len();
    if after == before {
        return Ok(());
    }
    let terms = Vec::from_slice(alloc, terms)?;
    listed.origins.push(Origin { source, terms })?;
    Ok(())
}
