// What lies near a good store.

ghost use Rattle.std.specs.Prelude.{◌≡◌, IfOk};
ghost use Rattle.ss_core.specs.Chain.{IsWithinLimits};
ghost use Rattle.ss_core.specs.View as view;
ghost use Rattle.ss_terms.specs.Forms.{terms_at, formulas_at, HasTerms, HasFormulas};
ghost use Rattle.ss_rules_asked_first.specs.Good as words;
ghost use Rattle.ss_rules_asked_first.specs.Good.{nearby_at, HasNear};

use crate::gathered::arrays;
use crate::names::{class_names, with_invariants};
use crate::owners::{Owner, owners};
use ss_core::Classes;
use ss_rules_asked::{Argument, Reading, readings};
use ss_terms::{Bank, FormulaId, TermId};
use std::alloc::{AllocError, Global};

/// What is asked about in good stores: classes, those with invariants, owners, arrays with a length, and reads.
#[derive(Drop)]
pub(crate) struct Near {
    pub(crate) classes: Vec<Argument>,
    pub(crate) invariants: Vec<Argument>,
    pub(crate) owners: Vec<Owner>,
    pub(crate) arrays: Vec<TermId>,
    pub(crate) reads: Vec<Reading>,
}

/// The context in which is asked: the bank, and what lies near its good stores.
#[derive(Clone, Copy)]
pub(crate) struct AskingContext<'a> {
    pub(crate) alloc: Global,
    pub(crate) bank: &'a Bank,
    pub(crate) near: &'a Near,
}

/// Gathers what lies near from the terms and atoms of a list. An error is want of memory.
pub(crate) fn gather(
    alloc: Global,
    bank: &Bank,
    classes: &Classes,
    atoms: &[FormulaId],
    terms: &[TermId],
) -> Result<Near, AllocError>
    requires limits { IsWithinLimits (view.classes classes.now) }
    requires atoms { HasFormulas bank.now atoms.now }
    requires terms { HasTerms bank.now terms.now }
    ensures has { IfOk result (HasNear bank.now) }
    ensures are { IfOk result (λ n. nearby_at bank.now n ≡ words.gathered (view.classes classes.now) (formulas_at bank.now atoms.now) (terms_at bank.now terms.now)) }
{
    Ok(Near {
        classes: class_names(alloc, bank, classes)?,
        invariants: with_invariants(alloc, bank, classes)?,
        owners: owners(alloc, bank, terms)?,
        arrays: arrays(alloc, bank, terms)?,
        reads: readings(alloc, bank, atoms, terms)?,
    })
}
