// What a candidate gives to the terms and the formulas that occur.

ghost use Rattle.std.specs.Prelude.{◌≡◌, map, IfOk};
ghost use Rattle.ss_terms.specs.Forms.{term_at, terms_at, formula_at, HasTerm, HasTerms, HasFormula};
ghost use Rattle.ss_equality_rules.specs.Equal.{class_number};
ghost use Rattle.ss_search_models.specs.Candidates.{truth_number, class_at, truth_at, HasCandidate};

use ss_logic_countermodels::Countermodel;
use ss_rules_occurring::{FormulaList, TermList};
use ss_terms::{Bank, FormulaId, TermId};
use std::alloc::{AllocError, Global};

/// Classes by the numbers of terms and truth values by the numbers of formulas, for these terms and formulas.
#[derive(Clone, Copy)]
pub(crate) struct Candidate<'a> {
    pub(crate) terms: &'a TermList,
    pub(crate) told: &'a FormulaList,
    pub(crate) classes: &'a [usize],
    pub(crate) truths: &'a [bool],
}

impl Candidate<'_> {
    fn class_number(&self, t: TermId) -> usize
        ensures { result ≡ class_number self.now.classes.now t }
    {
        self.classes.get(t.0).copied().unwrap_or(0)
    }

    fn truth_number(&self, f: FormulaId) -> bool
        ensures { result ≡ truth_number self.now f }
    {
        self.truths.get(f.0 / 2).copied().unwrap_or(false)
    }

    /// The class of a term.
    pub(crate) fn class(&self, bank: &Bank, t: TermId) -> usize
        requires candidate { HasCandidate bank.now self.now }
        requires term { HasTerm bank.now t }
        ensures { result ≡ class_at bank.now self.now (term_at bank.now t) }
    {
        bank.numbers_are_apart();
        if self.terms.numbers.has(t.0) {
            self.class_number(t)
        } else {
            0
        }
    }

    /// The truth value of a formula that has one.
    pub(crate) fn truth(&self, bank: &Bank, f: FormulaId) -> bool
        requires candidate { HasCandidate bank.now self.now }
        requires formula { HasFormula bank.now f }
        ensures { result ≡ truth_at bank.now self.now (formula_at bank.now f) }
    {
        bank.numbers_are_apart();
        if self.told.numbers.has(f.0) {
            self.truth_number(f)
        } else {
            false
        }
    }

    /// The classes of terms.
    pub(crate) fn classes_of(
        &self,
        alloc: Global,
        bank: &Bank,
        ts: &[TermId],
    ) -> Result<Vec<usize>, AllocError>
        requires candidate { HasCandidate bank.now self.now }
        requires terms { HasTerms bank.now ts.now }
        ensures { IfOk result (λ v. v.items ≡ map (class_at bank.now self.now) (terms_at bank.now ts.now)) }
    {
        let mut classes = Vec::new(alloc);
        for t in ts {
            classes.push(self.class(bank, *t))?;
        }
        Ok(classes)
    }

    // The classes of the terms, in order.
    fn listed_classes(&self, alloc: Global) -> Result<Vec<usize>, AllocError>
        ensures { IfOk result (λ v. v.items ≡ map (class_number self.now.classes.now) self.now.terms.now.list.items) }
    {
        let mut classes = Vec::new(alloc);
        for t in &self.terms.list {
            classes.push(self.class_number(*t))?;
        }
        Ok(classes)
    }

    // The truth values of the formulas, in order.
    fn listed_truths(&self, alloc: Global) -> Result<Vec<bool>, AllocError>
        ensures { IfOk result (λ v. v.items ≡ map (truth_number self.now) self.now.told.now.list.items) }
    {
        let mut truths = Vec::new(alloc);
        for f in &self.told.list {
            truths.push(self.truth_number(*f))?;
        }
        Ok(truths)
    }

    /// The candidate as a model. An error is want of memory.
    pub(crate) fn model(&self, alloc: Global) -> Result<Countermodel, AllocError>
        ensures classes { IfOk result (λ m. m.classes.items ≡ map (class_number self.now.classes.now) self.now.terms.now.list.items) }
        ensures truth { IfOk result (λ m. m.truth.items ≡ map (truth_number self.now) self.now.told.now.list.items) }
    {
        let classes = self.listed_classes(alloc)?;
        let truth = self.listed_truths(alloc)?;
        Ok(Countermodel { classes, truth })
    }
}
