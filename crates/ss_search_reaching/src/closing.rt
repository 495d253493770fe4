// Lines that close the case of a formula that is the fact at a place.

ghost use Rattle.std.specs.Prelude.{◌≡◌, ◌<◌, ◌≤◌, ◌*◌, ◌∷◌, ℕ, length, take, true, None, Some, slice_get, IfOk, IfSome, OnOk};
ghost use Rattle.ss_logic.specs.Formulas.{formulas_from};
ghost use Rattle.ss_terms.specs.declared.forms.FormulaId as ids;
ghost use Rattle.ss_terms.specs.Forms.{formula_at, formulas_at, HasFormula, AreBelow};
ghost use Rattle.ss_deriv.specs.declared.line.Line.TheVariants as line;
ghost use Rattle.ss_search_procedure_rules.specs.Closed.{is_basic, basics, AllMayHold, SomeMayHold};
ghost use Rattle.ss_search_path.specs.Standing.{IsGiven};
ghost use Rattle.ss_search_reaching.specs.Refuting.{bank_of, known_beside, IsRefuting, IsHolding, and_of, or_of, GoesOnFrom, StaysFrom, ClosesFrom, ClosesPart, AreCasesFrom};

use crate::basic::Refuting;
use ss_deriv::Line;
use ss_equality::Congruence;
use ss_search_clashes::Fact;
use ss_search_path::{Path, add_case};
use ss_terms::{Formula, FormulaId};
use std::alloc::{AllocError, Global};

/// The fact at a place, opened by the choices from one on: its parts, which are below a number.
#[derive(Clone, Copy)]
pub struct FactParts<'a> {
    pub place: usize,
    pub from: usize,
    pub parts: &'a [FormulaId],
    pub bound: usize,
}

/// Closed cases, one after the other, up to a part.
#[derive(Drop)]
pub struct Cases {
    /// Their lines.
    pub lines: Vec<Line>,
    /// The first part that isn't closed, or the end.
    pub stop: usize,
}

/// The line that opens the cases of an `or`, and then these cases.
pub fn split(
    alloc: Global,
    of: usize,
    cases: usize,
    mut closed: Vec<Line>,
) -> Result<Vec<Line>, AllocError>
    ensures { IfOk result (λ v. v.items ≡ line.Split of cases ∷ closed.items) }
{
    let mut lines = Vec::new(alloc);
    lines.push(Line::Split { of, cases })?;
    lines.append(&mut closed)?;
    Ok(lines)
}

impl Refuting<'_> {
    // Lines that close the case in which this literal or quantified formula is the fact at a place.
    fn basic_fact(
        &self,
        congruence: &mut Congruence,
        path: &Path,
        place: usize,
        f: FormulaId,
    ) -> Result<Option<Vec<Line>>, AllocError>
        requires refuting { IsRefuting self.now congruence.old }
        requires formula { HasFormula (bank_of self.now) f }
        requires basic { is_basic (formula_at (bank_of self.now) f) ≡ true }
        ensures congruence { OnOk result (congruence.new ≡ congruence.old) }
        ensures none { IfOk result (λ o. o ≡ None → IsHolding self.now f) }
        ensures closes { IfOk result (λ o. IfSome o (λ v. (from : ℕ) → ClosesFrom self.now congruence.old.merges path.now place from (formula_at (bank_of self.now) f) path.now v.items)) }
    {
        let count = path.known.len();
        let fact = Fact { formula: f, place };
        self.basic(congruence, count, fact)
    }

    /// Lines that close the case at the end of the path. The formula is the fact at a place, opened by the choices from one on. The path goes on to
    /// its end. None only where the formula may hold: a caller then takes the path back.
    #[cycle(closing)]
    pub fn known(
        &self,
        congruence: &mut Congruence,
        path: &mut Path,
        place: usize,
        from: usize,
        f: FormulaId,
    ) -> Result<Option<Vec<Line>>, AllocError>
        requires refuting { IsRefuting self.now congruence.old }
        requires given { IsGiven self.now.given }
        requires formula { HasFormula (bank_of self.now) f }
        ensures congruence { OnOk result (congruence.new ≡ congruence.old) }
        ensures kept { OnOk result (take (length path.old.known.items) path.new.known.items ≡ path.old.known.items) }
        ensures none { IfOk result (λ o. o ≡ None → IsHolding self.now f) }
        ensures goes_on { OnOk result (GoesOnFrom self.now congruence.old.merges path.old place from (formula_at (bank_of self.now) f) path.new) }
        ensures closes { IfOk result (λ o. IfSome o (λ v. ClosesFrom self.now congruence.old.merges path.old place from (formula_at (bank_of self.now) f) path.new v.items)) }
    {
        match self.given.bank.formula_node(f) {
            Formula::Literal { .. } => self.basic_fact(congruence, path, place, f),
            Formula::And(parts) => {
                let whole = FactParts {
                    place,
                    from,
                    parts,
                    bound: f.0,
                };
                self.some_part(congruence, path, &whole)
            }
            Formula::Or(parts) => {
                let whole = FactParts {
                    place,
                    from,
                    parts,
                    bound: f.0,
                };
                self.all_parts(congruence, path, &whole)
            }
            Formula::Forall(_, _) => self.basic_fact(congruence, path, place, f),
            Formula::Exists(_, _) => self.basic_fact(congruence, path, place, f),
        }
    }

    // The same of a fact that is an `and`, by the part with this number. Where there are no lines, the path stays.
    #[cycle(closing)]
    fn one_part(
        &self,
        congruence: &mut Congruence,
        path: &mut Path,
        whole: &FactParts<'_>,
        part: usize,
    ) -> Result<Option<Vec<Line>>, AllocError>
        requires refuting { IsRefuting self.now congruence.old }
        requires given { IsGiven self.now.given }
        requires below { AreBelow whole.now.bound whole.now.parts.now }
        requires in_bank { whole.now.bound ≤ length (bank_of self.now).formulas * 2 }
        requires part { part < length whole.now.parts.now }
        ensures congruence { OnOk result (congruence.new ≡ congruence.old) }
        ensures kept { OnOk result (take (length path.old.known.items) path.new.known.items ≡ path.old.known.items) }
        ensures none { IfOk result (λ o. o ≡ None → (f : ids.FormulaId) → slice_get whole.now.parts.now part ≡ Some f → IsHolding self.now f) }
        ensures known { IfOk result (λ o. o ≡ None → path.new.known.items ≡ path.old.known.items) }
        ensures stays { IfOk result (λ o. o ≡ None → StaysFrom self.now congruence.old.merges path.old whole.now.place whole.now.from (and_of (bank_of self.now) whole.now.parts.now) path.new) }
        ensures goes_on { OnOk result (GoesOnFrom self.now congruence.old.merges path.old whole.now.place whole.now.from (and_of (bank_of self.now) whole.now.parts.now) path.new) }
        ensures closes { IfOk result (λ o. IfSome o (λ v. ClosesFrom self.now congruence.old.merges path.old whole.now.place whole.now.from (and_of (bank_of self.now) whole.now.parts.now) path.new v.items)) }
    {
        let mark = path.mark();
        let (at, opened) = self.given.part(path, whole.place, whole.from, part)?;
        match self.known(congruence, path, at, opened, whole.parts[part])? {
            Some(lines) => Ok(Some(lines)),
            None => {
                path.undo(mark);
                Ok(None)
            }
        }
    }

    // The same by one of the parts.
    #[cycle(closing)]
    fn some_part(
        &self,
        congruence: &mut Congruence,
        path: &mut Path,
        whole: &FactParts<'_>,
    ) -> Result<Option<Vec<Line>>, AllocError>
        requires refuting { IsRefuting self.now congruence.old }
        requires given { IsGiven self.now.given }
        requires below { AreBelow whole.now.bound whole.now.parts.now }
        requires in_bank { whole.now.bound ≤ length (bank_of self.now).formulas * 2 }
        ensures congruence { OnOk result (congruence.new ≡ congruence.old) }
        ensures kept { OnOk result (take (length path.old.known.items) path.new.known.items ≡ path.old.known.items) }
        ensures none { IfOk result (λ o. o ≡ None → AllMayHold (basics (known_beside self.now)) (formulas_from (formulas_at (bank_of self.now) whole.now.parts.now))) }
        ensures goes_on { OnOk result (GoesOnFrom self.now congruence.old.merges path.old whole.now.place whole.now.from (and_of (bank_of self.now) whole.now.parts.now) path.new) }
        ensures closes { IfOk result (λ o. IfSome o (λ v. ClosesFrom self.now congruence.old.merges path.old whole.now.place whole.now.from (and_of (bank_of self.now) whole.now.parts.now) path.new v.items)) }
    {
        for part in 0..whole.parts.len() {
            if let Some(lines) = self.one_part(congruence, path, whole, part)? {
                return Ok(Some(lines));
            }
        }
        Ok(None)
    }

    /// The case of a part of a fact that is an `or`: all its lines. None only where the part of the reached formula may hold. The path
    /// stays.
    #[cycle(closing)]
    pub fn case(
        &self,
        congruence: &mut Congruence,
        path: &mut Path,
        whole: &FactParts<'_>,
        part: usize,
    ) -> Result<Option<Vec<Line>>, AllocError>
        requires refuting { IsRefuting self.now congruence.old }
        requires given { IsGiven self.now.given }
        requires below { AreBelow whole.now.bound whole.now.parts.now }
        requires in_bank { whole.now.bound ≤ length (bank_of self.now).formulas * 2 }
        requires part { part < length whole.now.parts.now }
        ensures congruence { OnOk result (congruence.new ≡ congruence.old) }
        ensures known { OnOk result (path.new.known.items ≡ path.old.known.items) }
        ensures none { IfOk result (λ o. o ≡ None → (f : ids.FormulaId) → slice_get whole.now.parts.now part ≡ Some f → IsHolding self.now f) }
        ensures stays { OnOk result (StaysFrom self.now congruence.old.merges path.old whole.now.place whole.now.from (or_of (bank_of self.now) whole.now.parts.now) path.new) }
        ensures closes { IfOk result (λ o. IfSome o (λ v. ClosesPart self.now congruence.old.merges path.old whole.now.place whole.now.from (or_of (bank_of self.now) whole.now.parts.now) part v.items)) }
    {
        let last = path.known.len();
        let f = self.given.part_at(path, whole.place, part);
        let mark = path.assume(f)?;
        let (at, opened) = self.given.open(path, last, whole.from)?;
        match self.known(congruence, path, at, opened, whole.parts[part])? {
            Some(closing) => {
                let lines = path.cut_out(self.given.alloc, mark, closing)?;
                Ok(Some(lines))
            }
            None => {
                path.undo(mark);
                Ok(None)
            }
        }
    }

    /// The cases of parts of a fact that is an `or`, from one part on and before another. They are those up to the first that isn't closed.
    /// The part of the reached formula may hold there. The path stays.
    #[cycle(closing)]
    pub fn cases(
        &self,
        congruence: &mut Congruence,
        path: &mut Path,
        whole: &FactParts<'_>,
        start: usize,
        end: usize,
    ) -> Result<Cases, AllocError>
        requires refuting { IsRefuting self.now congruence.old }
        requires given { IsGiven self.now.given }
        requires below { AreBelow whole.now.bound whole.now.parts.now }
        requires in_bank { whole.now.bound ≤ length (bank_of self.now).formulas * 2 }
        requires start { start ≤ end }
        requires end { end ≤ length whole.now.parts.now }
        ensures congruence { OnOk result (congruence.new ≡ congruence.old) }
        ensures known { OnOk result (path.new.known.items ≡ path.old.known.items) }
        ensures later { IfOk result (λ r. start ≤ r.stop) }
        ensures within { IfOk result (λ r. r.stop ≤ end) }
        ensures holds { IfOk result (λ r. r.stop < end → (f : ids.FormulaId) → slice_get whole.now.parts.now r.stop ≡ Some f → IsHolding self.now f) }
        ensures stays { OnOk result (StaysFrom self.now congruence.old.merges path.old whole.now.place whole.now.from (or_of (bank_of self.now) whole.now.parts.now) path.new) }
        ensures cases { IfOk result (λ r. AreCasesFrom self.now congruence.old.merges path.old whole.now.place whole.now.from (or_of (bank_of self.now) whole.now.parts.now) start r.stop r.lines.items) }
    {
        let mut lines = Vec::new(self.given.alloc);
        for part in start..end {
            let Some(closing) = self.case(congruence, path, whole, part)? else {
                return Ok(Cases { lines, stop: part });
            };
            add_case(&mut lines, closing)?;
        }
        Ok(Cases { lines, stop: end })
    }

    // Lines that close the case, of a fact that is an `or`.
    #[cycle(closing)]
    fn all_parts(
        &self,
        congruence: &mut Congruence,
        path: &mut Path,
        whole: &FactParts<'_>,
    ) -> Result<Option<Vec<Line>>, AllocError>
        requires refuting { IsRefuting self.now congruence.old }
        requires given { IsGiven self.now.given }
        requires below { AreBelow whole.now.bound whole.now.parts.now }
        requires in_bank { whole.now.bound ≤ length (bank_of self.now).formulas * 2 }
        ensures congruence { OnOk result (congruence.new ≡ congruence.old) }
        ensures kept { OnOk result (take (length path.old.known.items) path.new.known.items ≡ path.old.known.items) }
        ensures none { IfOk result (λ o. o ≡ None → SomeMayHold (basics (known_beside self.now)) (formulas_from (formulas_at (bank_of self.now) whole.now.parts.now))) }
        ensures goes_on { OnOk result (GoesOnFrom self.now congruence.old.merges path.old whole.now.place whole.now.from (or_of (bank_of self.now) whole.now.parts.now) path.new) }
        ensures closes { IfOk result (λ o. IfSome o (λ v. ClosesFrom self.now congruence.old.merges path.old whole.now.place whole.now.from (or_of (bank_of self.now) whole.now.parts.now) path.new v.items)) }
    {
        let count = whole.parts.len();
        let cases = self.cases(congruence, path, whole, 0, count)?;
        if cases.stop < count {
            return Ok(None);
        }
        let lines = split(self.given.alloc, whole.place, count, cases.lines)?;
        Ok(Some(lines))
    }
}
