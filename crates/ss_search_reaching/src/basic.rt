// Literals and quantified formulas beside known ones.

ghost use Rattle.std.specs.Prelude.{◌≡◌, ◌∷◌, length, true, None, IfOk, IfSome, OnOk};
ghost use Rattle.ss_logic.specs.Terms.{term_then, no_terms};
ghost use Rattle.ss_logic.specs.Formulas.{Equal, Literal};
ghost use Rattle.ss_terms.specs.Forms.{formula_at, term_at, HasFormula, HasFormulas, HasTerm};
ghost use Rattle.ss_equality_rules.specs.Equal.{AreFormsOf, AreClassesOf};
ghost use Rattle.ss_search_clashes.specs.Numbered.{class_of, AreMerged, HasNoClash};
ghost use Rattle.ss_search_clashes.specs.Tables.{IsTable};
ghost use Rattle.ss_search_clashes.specs.Found.{IsClash, IsAgainst};
ghost use Rattle.ss_search_procedure_rules.specs.Closed.{is_basic, basics, Fits};
ghost use Rattle.ss_search_clashes.specs.Cases.{AtClasses};
ghost use Rattle.ss_search_reaching.specs.Refuting.{bank_of, known_beside, IsRefuting, IsHolding, CloseBeside};

use ss_deriv::Line;
use ss_equality::Congruence;
use ss_search_clashes::{
    Against, Clash, CongruenceContext, Fact, Found, Known, close, close_against, look, sides,
    what_has_no_clash_fits,
};
use ss_search_path::Given;
use ss_search_procedure_rules::what_has_fitting_classes_fits;
use ss_terms::{FormulaId, TermId};
use std::alloc::{AllocError, Global};

/// Known formulas, their places among the facts of a path, and the table of them at the classes of a congruence.
#[derive(Clone, Copy)]
pub struct Refuting<'a> {
    pub given: Given<'a>,
    pub known: &'a [FormulaId],
    pub places: &'a [usize],
    pub table: &'a Known,
}

impl Refuting<'_> {
    // Lines that close the case by a clash of the known formulas.
    fn by_clash(
        &self,
        congruence: &Congruence,
        count: usize,
        fact: Fact,
        clash: Clash,
    ) -> Result<Vec<Line>, AllocError>
        requires known { HasFormulas (bank_of self.now) self.now.known.now }
        requires places { length self.now.places.now ≡ length self.now.known.now }
        requires forms { AreFormsOf (bank_of self.now) congruence.now.terms }
        requires clash { AtClasses (bank_of self.now) congruence.now (λ class. IsClash (bank_of self.now) class self.now.known.now clash) }
        ensures { IfOk result (λ v. CloseBeside self.now congruence.now.merges count fact v.items) }
    {
        let _ = fact;
        let context = CongruenceContext {
            alloc: self.given.alloc,
            bank: self.given.bank,
            congruence,
            count,
        };
        close(&context, self.known, self.places, clash)
    }

    // Lines that close the case by a formula that doesn't fit the known ones.
    fn by_reason(
        &self,
        congruence: &Congruence,
        count: usize,
        fact: Fact,
        against: Against,
    ) -> Result<Vec<Line>, AllocError>
        requires known { HasFormulas (bank_of self.now) self.now.known.now }
        requires places { length self.now.places.now ≡ length self.now.known.now }
        requires formula { HasFormula (bank_of self.now) fact.formula }
        requires forms { AreFormsOf (bank_of self.now) congruence.now.terms }
        requires against { AtClasses (bank_of self.now) congruence.now (λ class. IsAgainst (bank_of self.now) class self.now.known.now fact.formula against) }
        ensures { IfOk result (λ v. CloseBeside self.now congruence.now.merges count fact v.items) }
    {
        let context = CongruenceContext {
            alloc: self.given.alloc,
            bank: self.given.bank,
            congruence,
            count,
        };
        close_against(&context, self.known, self.places, fact, against)
    }

    // Lines that close the case by what the table says against a formula; none only where nothing does.
    fn by_table(
        &self,
        congruence: &Congruence,
        count: usize,
        fact: Fact,
        table: &Known,
    ) -> Result<Option<Vec<Line>>, AllocError>
        requires known { HasFormulas (bank_of self.now) self.now.known.now }
        requires places { length self.now.places.now ≡ length self.now.known.now }
        requires formula { HasFormula (bank_of self.now) fact.formula }
        requires forms { AreFormsOf (bank_of self.now) congruence.now.terms }
        requires table { IsTable (bank_of self.now) self.now.known.now table.now }
        requires classes { AreClassesOf congruence.now.terms congruence.now.merges table.now.classes }
        ensures none { IfOk result (λ o. o ≡ None → HasNoClash (bank_of self.now) (class_of (bank_of self.now) table.now.classes) (fact.formula ∷ self.now.known.now)) }
        ensures some { IfOk result (λ o. IfSome o (λ v. CloseBeside self.now congruence.now.merges count fact v.items)) }
    {
        match table.against(self.given.bank, fact.formula)? {
            Some(against) => {
                let lines = self.by_reason(congruence, count, fact, against)?;
                Ok(Some(lines))
            }
            None => Ok(None),
        }
    }

    // Lines that close the case at the classes of a congruence in which the formula is merged too; none only where it fits.
    fn contradiction(
        &self,
        congruence: &Congruence,
        count: usize,
        fact: Fact,
    ) -> Result<Option<Vec<Line>>, AllocError>
        requires known { HasFormulas (bank_of self.now) self.now.known.now }
        requires places { length self.now.places.now ≡ length self.now.known.now }
        requires formula { HasFormula (bank_of self.now) fact.formula }
        requires forms { AreFormsOf (bank_of self.now) congruence.now.terms }
        requires merged { AreMerged (bank_of self.now) congruence.now.terms congruence.now.merges (fact.formula ∷ self.now.known.now) }
        ensures none { IfOk result (λ o. o ≡ None → Fits (basics (formula_at (bank_of self.now) fact.formula ∷ known_beside self.now))) }
        ensures some { IfOk result (λ o. IfSome o (λ v. CloseBeside self.now congruence.now.merges count fact v.items)) }
    {
        let alloc = self.given.alloc;
        let bank = self.given.bank;
        what_has_no_clash_fits(bank);
        what_has_fitting_classes_fits();
        let classes = congruence.classes()?;
        match look(alloc, bank, classes, self.known)? {
            Found::Clashes(clash) => {
                let lines = self.by_clash(congruence, count, fact, clash)?;
                Ok(Some(lines))
            }
            Found::Fits(table) => self.by_table(congruence, count, fact, &table),
        }
    }

    // The same of an equality of which the sides aren't equal yet: it is merged for a trial, by its place.
    fn trial(
        &self,
        congruence: &mut Congruence,
        count: usize,
        fact: Fact,
        left: TermId,
        right: TermId,
    ) -> Result<Option<Vec<Line>>, AllocError>
        requires refuting { IsRefuting self.now congruence.old }
        requires formula { HasFormula (bank_of self.now) fact.formula }
        requires left { HasTerm (bank_of self.now) left }
        requires right { HasTerm (bank_of self.now) right }
        requires equality { formula_at (bank_of self.now) fact.formula ≡ Literal true Equal (term_then (term_at (bank_of self.now) left) (term_then (term_at (bank_of self.now) right) no_terms)) }
        ensures congruence { OnOk result (congruence.new ≡ congruence.old) }
        ensures none { IfOk result (λ o. o ≡ None → IsHolding self.now fact.formula) }
        ensures some { IfOk result (λ o. IfSome o (λ v. CloseBeside self.now congruence.old.merges count fact v.items)) }
    {
        let bank = self.given.bank;
        bank.numbers_are_apart();
        let mark = congruence.mark();
        congruence.merge(bank, left, right, fact.place)?;
        let closing = self.contradiction(congruence, count, fact)?;
        congruence.undo(mark);
        Ok(closing)
    }

    // The same of a literal or quantified formula that the table doesn't contradict.
    fn stands(
        &self,
        congruence: &mut Congruence,
        count: usize,
        fact: Fact,
    ) -> Result<Option<Vec<Line>>, AllocError>
        requires refuting { IsRefuting self.now congruence.old }
        requires formula { HasFormula (bank_of self.now) fact.formula }
        requires basic { is_basic (formula_at (bank_of self.now) fact.formula) ≡ true }
        requires none { HasNoClash (bank_of self.now) (class_of (bank_of self.now) self.now.table.now.classes) (fact.formula ∷ self.now.known.now) }
        ensures congruence { OnOk result (congruence.new ≡ congruence.old) }
        ensures none { IfOk result (λ o. o ≡ None → IsHolding self.now fact.formula) }
        ensures some { IfOk result (λ o. IfSome o (λ v. CloseBeside self.now congruence.old.merges count fact v.items)) }
    {
        let bank = self.given.bank;
        what_has_no_clash_fits(bank);
        what_has_fitting_classes_fits();
        match sides(bank, fact.formula) {
            None => Ok(None),
            Some(equality) => {
                if !equality.holds {
                    return Ok(None);
                }
                if congruence.same(equality.left, equality.right) {
                    return Ok(None);
                }
                self.trial(congruence, count, fact, equality.left, equality.right)
            }
        }
    }

    /// Lines that close the case in which so many facts are known, the known formulas at their places and this one at its own. It is a literal or a
    /// quantified formula. None only where it may hold.
    pub(crate) fn basic(
        &self,
        congruence: &mut Congruence,
        count: usize,
        fact: Fact,
    ) -> Result<Option<Vec<Line>>, AllocError>
        requires refuting { IsRefuting self.now congruence.old }
        requires formula { HasFormula (bank_of self.now) fact.formula }
        requires basic { is_basic (formula_at (bank_of self.now) fact.formula) ≡ true }
        ensures congruence { OnOk result (congruence.new ≡ congruence.old) }
        ensures none { IfOk result (λ o. o ≡ None → IsHolding self.now fact.formula) }
        ensures some { IfOk result (λ o. IfSome o (λ v. CloseBeside self.now congruence.old.merges count fact v.items)) }
    {
        match self.by_table(congruence, count, fact, self.table)? {
            Some(lines) => Ok(Some(lines)),
            None => self.stands(congruence, count, fact),
        }
    }
}
