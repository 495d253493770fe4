// Reached formulas that say something where a guard holds: the negation of the guard, or a body.

ghost use Rattle.std.specs.Prelude.{◌≡◌, ◌≤◌, ◌*◌, ◌++◌, ◌∷◌, [], List, length, take, true, false, None, Some, slice_get, IfOk, IfSome, OnOk};
ghost use Rattle.ss_core.specs.Tree.{ClassTree};
ghost use Rattle.ss_logic.specs.Formulas as logic;
ghost use Rattle.ss_terms.specs.Forms.{formula_at, AreBelow, HasFormula, HasFormulas};
ghost use Rattle.ss_deriv.specs.Lines.{lines_of};
ghost use Rattle.ss_equality_rules.specs.declared.Merge.{Merge};
ghost use Rattle.ss_search_procedure_rules.specs.Closed as closed;
ghost use Rattle.ss_search_clashes.specs.Closing.{Closes};
ghost use Rattle.ss_search_path.specs.Paths.{known_on, IsSame};
ghost use Rattle.ss_search_reached.specs.Looks.{AreHolding};
ghost use Rattle.ss_search_path.specs.Standing.{IsGiven, IsGuardedAt};
ghost use Rattle.ss_search_reaching.specs.Refuting.{bank_of, IsRefuting, IsHolding, or_of, AreShown};
ghost use Rattle.ss_search_reaching.specs.Units.{IsBeside, IsResolved, part_of, LeadsToOne, UnitGuarded};

use crate::branches::{Beside, Resolved};
use ss_deriv::Line;
use ss_equality::Congruence;
use ss_search_path::Path;
use ss_search_reached::{Outcomes, is_basic};
use ss_terms::FormulaId;
use std::alloc::AllocError;

/// The parts of an `or` that an origin guards, which are below a number.
#[derive(Clone, Copy)]
pub(crate) struct GuardedParts<'a> {
    pub(crate) origin: usize,
    pub(crate) parts: &'a [FormulaId],
    pub(crate) bound: usize,
}

impl Beside<'_> {
    // The case in which a literal or quantified formula is known too: all its lines; none only where it may hold. The path stays.
    fn case_of(
        &self,
        congruence: &mut Congruence,
        path: &mut Path,
        f: FormulaId,
    ) -> Result<Option<Vec<Line>>, AllocError>
        requires refuting { IsRefuting self.now.refuting congruence.old }
        requires given { IsGiven self.now.refuting.given }
        requires formula { HasFormula (bank_of self.now.refuting) f }
        ensures congruence { OnOk result (congruence.new ≡ congruence.old) }
        ensures known { OnOk result (path.new.known.items ≡ path.old.known.items) }
        ensures none { IfOk result (λ o. o ≡ None → IsHolding self.now.refuting f) }
        ensures stays { OnOk result ((cs : List ClassTree) (premises : List logic.Formula) (goal : logic.Formula) → AreShown cs self.now.refuting congruence.old.merges (known_on (bank_of self.now.refuting) path.old) → logic.is_well_formed cs [] (formula_at (bank_of self.now.refuting) f) ≡ true → IsSame path.old path.new) }
        ensures closes { IfOk result (λ o. IfSome o (λ v. (cs : List ClassTree) (premises : List logic.Formula) (goal : logic.Formula) → AreShown cs self.now.refuting congruence.old.merges (known_on (bank_of self.now.refuting) path.old) → logic.is_well_formed cs [] (formula_at (bank_of self.now.refuting) f) ≡ true → Closes cs premises goal (known_on (bank_of self.now.refuting) path.old ++ formula_at (bank_of self.now.refuting) f ∷ []) (lines_of (bank_of self.now.refuting) v.items))) }
    {
        let given = &self.refuting.given;
        let last = path.known.len();
        let mark = path.assume(f)?;
        match self
            .refuting
            .known(congruence, path, last, given.choices.len(), f)?
        {
            Some(closing) => {
                let lines = path.cut_out(given.alloc, mark, closing)?;
                Ok(Some(lines))
            }
            None => {
                path.undo(mark);
                Ok(None)
            }
        }
    }

    // The body is known, where the guard is the fact at a place.
    fn body(
        &self,
        path: &mut Path,
        origin: usize,
        place: usize,
        body: FormulaId,
    ) -> Result<Resolved, AllocError>
        requires { IsGiven self.now.refuting.given }
        ensures known { OnOk result (path.new.known.items ≡ path.old.known.items ++ body ∷ []) }
        ensures part { IfOk result (λ u. part_of u ≡ Some body) }
        ensures leads { IfOk result (λ u. (cs : List ClassTree) (premises : List logic.Formula) (goal : logic.Formula) (f : logic.Formula) (is : IsGuardedAt cs self.now.refuting.given origin f) → slice_get (known_on (bank_of self.now.refuting) path.old) place ≡ Some is.guarded.guard → formula_at (bank_of self.now.refuting) body ≡ is.guarded.body → LeadsToOne cs premises goal self.now.refuting.given path.old path.new u) }
    {
        let given = &self.refuting.given;
        let last = path.known.len();
        given.body(path, origin, place, body)?;
        Ok(Resolved::One(body, given.itself(last)))
    }

    // The guard is supposed: its negation is known, where the case of the body is closed then.
    fn trial(
        &self,
        congruence: &mut Congruence,
        path: &mut Path,
        origin: usize,
        parts: (FormulaId, FormulaId),
    ) -> Result<Resolved, AllocError>
        requires beside { IsBeside self.now congruence.old }
        requires given { IsGiven self.now.refuting.given }
        requires guard { HasFormula (bank_of self.now.refuting) parts.0 }
        requires body { HasFormula (bank_of self.now.refuting) parts.1 }
        requires basic { closed.is_basic (formula_at (bank_of self.now.refuting) parts.0) ≡ true }
        requires holds { IsHolding self.now.refuting parts.0 }
        ensures congruence { OnOk result (congruence.new ≡ congruence.old) }
        ensures kept { OnOk result (take (length path.old.known.items) path.new.known.items ≡ path.old.known.items) }
        ensures branch { IfOk result (λ u. IsResolved self.now.looking (or_of self.now.looking.bank.now (parts.0 ∷ parts.1 ∷ [])) u) }
        ensures leads { IfOk result (λ u. UnitGuarded self.now congruence.old.merges path.old origin (parts.0 ∷ parts.1 ∷ []) path.new u) }
    {
        let given = &self.refuting.given;
        let (not_guard, body) = parts;
        let guard = given.bank.negation(not_guard);
        let place = path.known.len();
        let mark = path.suppose(given.bank, guard)?;
        given.body(path, origin, place, body)?;
        match self
            .refuting
            .known(congruence, path, place + 1, given.choices.len(), body)?
        {
            Some(closing) => {
                path.refuted(given.bank, mark, guard, closing)?;
                Ok(Resolved::One(not_guard, given.itself(place)))
            }
            None => {
                path.undo(mark);
                Ok(Resolved::Open)
            }
        }
    }

    // What the `or` of the negation of a guard and of a body is.
    fn by_guard(
        &self,
        congruence: &mut Congruence,
        path: &mut Path,
        origin: usize,
        parts: (FormulaId, FormulaId),
    ) -> Result<Resolved, AllocError>
        requires beside { IsBeside self.now congruence.old }
        requires given { IsGiven self.now.refuting.given }
        requires guard { HasFormula (bank_of self.now.refuting) parts.0 }
        requires body { HasFormula (bank_of self.now.refuting) parts.1 }
        requires basic { closed.is_basic (formula_at (bank_of self.now.refuting) parts.0) ≡ true }
        ensures congruence { OnOk result (congruence.new ≡ congruence.old) }
        ensures kept { OnOk result (take (length path.old.known.items) path.new.known.items ≡ path.old.known.items) }
        ensures branch { IfOk result (λ u. IsResolved self.now.looking (or_of self.now.looking.bank.now (parts.0 ∷ parts.1 ∷ [])) u) }
        ensures leads { IfOk result (λ u. UnitGuarded self.now congruence.old.merges path.old origin (parts.0 ∷ parts.1 ∷ []) path.new u) }
    {
        match self.case_of(congruence, path, parts.0)? {
            Some(lines) => {
                let place = path.known.len();
                path.deny(self.refuting.given.bank, parts.0, lines)?;
                self.body(path, origin, place, parts.1)
            }
            None => self.trial(congruence, path, origin, parts),
        }
    }

    // No guarded formula has another number of parts.
    fn not_two(&self, path: &Path, origin: usize, parts: &[FormulaId]) -> Resolved
        requires { length parts.now ≡ 2 → ⊥ }
        ensures branch { IsResolved self.now.looking (or_of self.now.looking.bank.now parts.now) result }
        ensures leads { (ms : List Merge) → UnitGuarded self.now ms path.now origin parts.now path.now result }
    {
        let _ = path;
        let _ = origin;
        let _ = parts;
        Resolved::Closed(Vec::new(self.looking.alloc))
    }

    // The first part of each is a literal or quantified.
    fn not_basic(&self, path: &Path, origin: usize, parts: (FormulaId, FormulaId)) -> Resolved
        requires { closed.is_basic (formula_at (bank_of self.now.refuting) parts.0) ≡ false }
        ensures branch { IsResolved self.now.looking (or_of self.now.looking.bank.now (parts.0 ∷ parts.1 ∷ [])) result }
        ensures leads { (ms : List Merge) → UnitGuarded self.now ms path.now origin (parts.0 ∷ parts.1 ∷ []) path.now result }
    {
        let _ = path;
        let _ = origin;
        let _ = parts;
        Resolved::Closed(Vec::new(self.looking.alloc))
    }

    // What the `or` of two parts is.
    fn by_parts(
        &self,
        congruence: &mut Congruence,
        path: &mut Path,
        origin: usize,
        parts: (FormulaId, FormulaId),
    ) -> Result<Resolved, AllocError>
        requires beside { IsBeside self.now congruence.old }
        requires given { IsGiven self.now.refuting.given }
        requires guard { HasFormula (bank_of self.now.refuting) parts.0 }
        requires body { HasFormula (bank_of self.now.refuting) parts.1 }
        ensures congruence { OnOk result (congruence.new ≡ congruence.old) }
        ensures kept { OnOk result (take (length path.old.known.items) path.new.known.items ≡ path.old.known.items) }
        ensures branch { IfOk result (λ u. IsResolved self.now.looking (or_of self.now.looking.bank.now (parts.0 ∷ parts.1 ∷ [])) u) }
        ensures leads { IfOk result (λ u. UnitGuarded self.now congruence.old.merges path.old origin (parts.0 ∷ parts.1 ∷ []) path.new u) }
    {
        if is_basic(self.refuting.given.bank, parts.0) {
            return self.by_guard(congruence, path, origin, parts);
        }
        Ok(self.not_basic(path, origin, parts))
    }

    // What the `or` of these parts is. Every guarded formula has two parts, and the first is a literal or quantified.
    fn by_lines(
        &self,
        congruence: &mut Congruence,
        path: &mut Path,
        origin: usize,
        parts: &[FormulaId],
    ) -> Result<Resolved, AllocError>
        requires beside { IsBeside self.now congruence.old }
        requires given { IsGiven self.now.refuting.given }
        requires has { HasFormulas (bank_of self.now.refuting) parts.now }
        ensures congruence { OnOk result (congruence.new ≡ congruence.old) }
        ensures kept { OnOk result (take (length path.old.known.items) path.new.known.items ≡ path.old.known.items) }
        ensures branch { IfOk result (λ u. IsResolved self.now.looking (or_of self.now.looking.bank.now parts.now) u) }
        ensures leads { IfOk result (λ u. UnitGuarded self.now congruence.old.merges path.old origin parts.now path.new u) }
    {
        match parts {
            [not_guard, body] => self.by_parts(congruence, path, origin, (*not_guard, *body)),
            _ => Ok(self.not_two(path, origin, parts)),
        }
    }

    /// What the `or` of guarded parts is. Which may hold is looked up first, and lines are written only where at most one does.
    pub(crate) fn guarded(
        &self,
        congruence: &mut Congruence,
        outcomes: &mut Outcomes,
        path: &mut Path,
        whole: &GuardedParts<'_>,
    ) -> Result<Resolved, AllocError>
        requires beside { IsBeside self.now congruence.old }
        requires given { IsGiven self.now.refuting.given }
        requires outcomes { AreHolding self.now.looking outcomes.old }
        requires has { HasFormulas (bank_of self.now.refuting) whole.now.parts.now }
        requires below { AreBelow whole.now.bound whole.now.parts.now }
        requires in_bank { whole.now.bound ≤ length (bank_of self.now.refuting).formulas * 2 }
        ensures congruence { OnOk result (congruence.new ≡ congruence.old) }
        ensures outcomes { OnOk result (AreHolding self.now.looking outcomes.new) }
        ensures kept { OnOk result (take (length path.old.known.items) path.new.known.items ≡ path.old.known.items) }
        ensures branch { IfOk result (λ u. IsResolved self.now.looking (or_of self.now.looking.bank.now whole.now.parts.now) u) }
        ensures leads { IfOk result (λ u. UnitGuarded self.now congruence.old.merges path.old whole.now.origin whole.now.parts.now path.new u) }
    {
        let looking = &self.looking;
        if looking.is_met(whole.parts) {
            return Ok(Resolved::Open);
        }
        match looking.first_open(congruence, outcomes, whole.parts, 0, whole.bound)? {
            None => self.by_lines(congruence, path, whole.origin, whole.parts),
            Some(part) => {
                match looking.first_open(
                    congruence,
                    outcomes,
                    whole.parts,
                    part + 1,
                    whole.bound,
                )? {
                    None => self.by_lines(congruence, path, whole.origin, whole.parts),
                    Some(_other) => Ok(Resolved::Open),
                }
            }
        }
    }
}
