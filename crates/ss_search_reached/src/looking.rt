// Whether formulas may hold beside known ones.

ghost use Rattle.std.specs.Prelude.{◌≡◌, ◌≤◌, ◌*◌, ◌∷◌, length, map, true, IfOk, IfSome, OnOk};
ghost use Rattle.ss_logic.specs.Terms.{term_then, no_terms};
ghost use Rattle.ss_logic.specs.Formulas.{Equal, Literal, formulas_from};
ghost use Rattle.ss_terms.specs.Forms.{formula_at, formulas_at, term_at, HasFormula, HasFormulas, HasTerm, AreBelow};
ghost use Rattle.ss_rules_occurring.specs.Found.{AreMarked, formula_number};
ghost use Rattle.ss_equality_rules.specs.Equal.{AreFormsOf};
ghost use Rattle.ss_search_clashes.specs.Numbered.{class_of, AreMerged, HasNoClash};
ghost use Rattle.ss_search_procedure_rules.specs.Closed.{is_basic, basics, IsSatisfied, AllMayHold, SomeMayHold, Fits};
ghost use Rattle.ss_search_reached.specs.Looks.{known_at, IsLooking, IsHolding, AreHolding, HoldsFrom};

use crate::outcomes::Outcomes;
use ss_bit_set::BitSet;
use ss_equality::Congruence;
use ss_search_clashes::{Found, Known, look, sides, what_has_no_clash_fits};
use ss_search_procedure_rules::what_has_fitting_classes_fits;
use ss_terms::{Bank, Formula, FormulaId, TermId};
use std::alloc::{AllocError, Global};

/// Known formulas, their numbers, and the table of them at the classes of a congruence.
#[derive(Clone, Copy)]
pub struct Looking<'a> {
    pub alloc: Global,
    pub bank: &'a Bank,
    pub known: &'a [FormulaId],
    pub numbers: &'a BitSet,
    pub table: &'a Known,
}

impl Looking<'_> {
    /// Whether one of the formulas is known.
    pub fn is_met(&self, fs: &[FormulaId]) -> bool
        requires formulas { HasFormulas self.now.bank.now fs.now }
        requires known { HasFormulas self.now.bank.now self.now.known.now }
        requires marked { AreMarked self.now.numbers.now (map formula_number self.now.known.now) }
        ensures { result ≡ true → IsSatisfied (known_at self.now) (formulas_from (formulas_at self.now.bank.now fs.now)) }
    {
        for f in fs {
            if self.numbers.has(f.0) {
                return true;
            }
        }
        false
    }

    // Whether nothing contradicts the known formulas and one more, at the classes of the congruence.
    fn fits(&self, congruence: &Congruence, f: FormulaId) -> Result<bool, AllocError>
        requires formulas { HasFormulas self.now.bank.now self.now.known.now }
        requires formula { HasFormula self.now.bank.now f }
        requires forms { AreFormsOf self.now.bank.now congruence.now.terms }
        requires merged { AreMerged self.now.bank.now congruence.now.terms congruence.now.merges (f ∷ self.now.known.now) }
        ensures { IfOk result (λ fits. fits ≡ true → Fits (basics (formula_at self.now.bank.now f ∷ known_at self.now))) }
    {
        what_has_no_clash_fits(self.bank);
        what_has_fitting_classes_fits();
        let classes = congruence.classes()?;
        match look(self.alloc, self.bank, classes, self.known)? {
            Found::Clashes(_clash) => Ok(false),
            Found::Fits(table) => Ok(table.against(self.bank, f)?.is_none()),
        }
    }

    // Whether an equality may hold, of which the sides aren't equal yet: it is merged for a trial.
    fn trial(
        &self,
        congruence: &mut Congruence,
        f: FormulaId,
        left: TermId,
        right: TermId,
    ) -> Result<bool, AllocError>
        requires looking { IsLooking self.now congruence.old }
        requires formula { HasFormula self.now.bank.now f }
        requires left { HasTerm self.now.bank.now left }
        requires right { HasTerm self.now.bank.now right }
        requires equality { formula_at self.now.bank.now f ≡ Literal true Equal (term_then (term_at self.now.bank.now left) (term_then (term_at self.now.bank.now right) no_terms)) }
        ensures congruence { OnOk result (congruence.new ≡ congruence.old) }
        ensures holds { IfOk result (λ may_hold. may_hold ≡ true → IsHolding self.now f) }
    {
        self.bank.numbers_are_apart();
        let mark = congruence.mark();
        congruence.merge(self.bank, left, right, 0)?;
        let fits = self.fits(congruence, f)?;
        congruence.undo(mark);
        Ok(fits)
    }

    // Whether a literal or quantified formula that the table doesn't contradict may hold.
    fn stands(&self, congruence: &mut Congruence, f: FormulaId) -> Result<bool, AllocError>
        requires looking { IsLooking self.now congruence.old }
        requires formula { HasFormula self.now.bank.now f }
        requires basic { is_basic (formula_at self.now.bank.now f) ≡ true }
        requires none { HasNoClash self.now.bank.now (class_of self.now.bank.now self.now.table.now.classes) (f ∷ self.now.known.now) }
        ensures congruence { OnOk result (congruence.new ≡ congruence.old) }
        ensures holds { IfOk result (λ may_hold. may_hold ≡ true → IsHolding self.now f) }
    {
        what_has_no_clash_fits(self.bank);
        what_has_fitting_classes_fits();
        match sides(self.bank, f) {
            None => Ok(true),
            Some(equality) => {
                if !equality.holds {
                    return Ok(true);
                }
                if congruence.same(equality.left, equality.right) {
                    return Ok(true);
                }
                self.trial(congruence, f, equality.left, equality.right)
            }
        }
    }

    // Whether a literal or quantified formula may hold.
    fn basic_may_hold(&self, congruence: &mut Congruence, f: FormulaId) -> Result<bool, AllocError>
        requires looking { IsLooking self.now congruence.old }
        requires formula { HasFormula self.now.bank.now f }
        requires basic { is_basic (formula_at self.now.bank.now f) ≡ true }
        ensures congruence { OnOk result (congruence.new ≡ congruence.old) }
        ensures holds { IfOk result (λ may_hold. may_hold ≡ true → IsHolding self.now f) }
    {
        match self.table.against(self.bank, f)? {
            Some(_against) => Ok(false),
            None => self.stands(congruence, f),
        }
    }

    // Whether a formula may hold.
    #[cycle(looking)]
    fn may_hold(
        &self,
        congruence: &mut Congruence,
        outcomes: &mut Outcomes,
        f: FormulaId,
    ) -> Result<bool, AllocError>
        requires looking { IsLooking self.now congruence.old }
        requires outcomes { AreHolding self.now outcomes.old }
        requires formula { HasFormula self.now.bank.now f }
        ensures congruence { OnOk result (congruence.new ≡ congruence.old) }
        ensures outcomes { OnOk result (AreHolding self.now outcomes.new) }
        ensures holds { IfOk result (λ may_hold. may_hold ≡ true → IsHolding self.now f) }
    {
        if outcomes.holding.has(f.0) {
            return Ok(true);
        }
        if outcomes.refuted.has(f.0) {
            return Ok(false);
        }
        let may_hold = self.new_may_hold(congruence, outcomes, f)?;
        outcomes.note(f, may_hold)?;
        Ok(may_hold)
    }

    #[cycle(looking)]
    fn new_may_hold(
        &self,
        congruence: &mut Congruence,
        outcomes: &mut Outcomes,
        f: FormulaId,
    ) -> Result<bool, AllocError>
        requires looking { IsLooking self.now congruence.old }
        requires outcomes { AreHolding self.now outcomes.old }
        requires formula { HasFormula self.now.bank.now f }
        ensures congruence { OnOk result (congruence.new ≡ congruence.old) }
        ensures outcomes { OnOk result (AreHolding self.now outcomes.new) }
        ensures holds { IfOk result (λ may_hold. may_hold ≡ true → IsHolding self.now f) }
    {
        match self.bank.formula_node(f) {
            Formula::Literal { .. } => self.basic_may_hold(congruence, f),
            Formula::And(parts) => self.all_may_hold(congruence, outcomes, parts, f.0),
            Formula::Or(parts) => self.some_may_hold(congruence, outcomes, parts, f.0),
            Formula::Forall(_, _) => self.basic_may_hold(congruence, f),
            Formula::Exists(_, _) => self.basic_may_hold(congruence, f),
        }
    }

    // Whether each of these formulas below a number may hold.
    #[cycle(looking)]
    fn all_may_hold(
        &self,
        congruence: &mut Congruence,
        outcomes: &mut Outcomes,
        fs: &[FormulaId],
        bound: usize,
    ) -> Result<bool, AllocError>
        requires looking { IsLooking self.now congruence.old }
        requires outcomes { AreHolding self.now outcomes.old }
        requires below { AreBelow bound fs.now }
        requires in_bank { bound ≤ length self.now.bank.now.formulas * 2 }
        ensures congruence { OnOk result (congruence.new ≡ congruence.old) }
        ensures outcomes { OnOk result (AreHolding self.now outcomes.new) }
        ensures hold { IfOk result (λ may_hold. may_hold ≡ true → AllMayHold (basics (known_at self.now)) (formulas_from (formulas_at self.now.bank.now fs.now))) }
    {
        for f in fs {
            if !self.may_hold(congruence, outcomes, *f)? {
                return Ok(false);
            }
        }
        Ok(true)
    }

    // Whether one of these formulas below a number may hold.
    #[cycle(looking)]
    fn some_may_hold(
        &self,
        congruence: &mut Congruence,
        outcomes: &mut Outcomes,
        fs: &[FormulaId],
        bound: usize,
    ) -> Result<bool, AllocError>
        requires looking { IsLooking self.now congruence.old }
        requires outcomes { AreHolding self.now outcomes.old }
        requires below { AreBelow bound fs.now }
        requires in_bank { bound ≤ length self.now.bank.now.formulas * 2 }
        ensures congruence { OnOk result (congruence.new ≡ congruence.old) }
        ensures outcomes { OnOk result (AreHolding self.now outcomes.new) }
        ensures holds { IfOk result (λ may_hold. may_hold ≡ true → SomeMayHold (basics (known_at self.now)) (formulas_from (formulas_at self.now.bank.now fs.now))) }
    {
        let found = self.first_open(congruence, outcomes, fs, 0, bound)?;
        Ok(found.is_some())
    }

    /// The place of the first formula, from one on, that may hold. The formulas are below a number. An error is want of memory.
    #[cycle(looking)]
    pub fn first_open(
        &self,
        congruence: &mut Congruence,
        outcomes: &mut Outcomes,
        fs: &[FormulaId],
        from: usize,
        bound: usize,
    ) -> Result<Option<usize>, AllocError>
        requires looking { IsLooking self.now congruence.old }
        requires outcomes { AreHolding self.now outcomes.old }
        requires below { AreBelow bound fs.now }
        requires in_bank { bound ≤ length self.now.bank.now.formulas * 2 }
        ensures congruence { OnOk result (congruence.new ≡ congruence.old) }
        ensures outcomes { OnOk result (AreHolding self.now outcomes.new) }
        ensures found { IfOk result (λ o. IfSome o (HoldsFrom self.now fs.now from)) }
    {
        for i in from..fs.len() {
            if self.may_hold(congruence, outcomes, fs[i])? {
                return Ok(Some(i));
            }
        }
        Ok(None)
    }
}
