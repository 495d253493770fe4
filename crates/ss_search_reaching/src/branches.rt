// Reached `or`s that are facts: a part where all others have closed cases.

ghost use Rattle.std.specs.Prelude.{◌≡◌, ◌<◌, ◌≤◌, ◌*◌, ◌+◌, List, length, take, Some, slice_get, IfOk, OnOk};
ghost use Rattle.ss_terms.specs.declared.forms.FormulaId as ids;
ghost use Rattle.ss_terms.specs.Forms.{AreBelow, HasFormulas};
ghost use Rattle.ss_equality_rules.specs.declared.Merge.{Merge};
ghost use Rattle.ss_search_reached.specs.Looks.{AreHolding};
ghost use Rattle.ss_search_path.specs.Standing.{IsGiven};
ghost use Rattle.ss_search_reaching.specs.Refuting.{bank_of, IsHolding, or_of, AreCasesFrom};
ghost use Rattle.ss_search_reaching.specs.Units.{IsBeside, IsResolved, UnitFrom};

use crate::{FactParts, Refuting, split};
use ss_deriv::Line;
use ss_equality::Congruence;
use ss_search_path::{Branching, Path, Standing};
use ss_search_reached::{Looking, Outcomes};
use ss_terms::FormulaId;
use std::alloc::AllocError;

/// Known formulas beside a table: to look whether a formula may hold, and to close its case.
#[derive(Clone, Copy)]
pub(crate) struct Beside<'a> {
    pub(crate) looking: Looking<'a>,
    pub(crate) refuting: Refuting<'a>,
}

/// What a reached `or` is.
#[derive(Drop)]
pub(crate) enum Resolved {
    /// Each part is refuted: these lines close the case at the end of the path.
    Closed(Vec<Line>),
    /// This part isn't, and all others are. It stands so at the end of the path.
    One(FormulaId, Standing),
    /// Nothing follows.
    Open,
}

impl Beside<'_> {
    // This part is known, where the cases of all others are closed: those in front of it, and those after.
    fn one(
        &self,
        path: &mut Path,
        whole: &FactParts<'_>,
        part: usize,
        front: Vec<Line>,
        back: Vec<Line>,
    ) -> Result<Resolved, AllocError>
        requires given { IsGiven self.now.refuting.given }
        requires part { part < length whole.now.parts.now }
        requires has { HasFormulas self.now.looking.bank.now whole.now.parts.now }
        ensures kept { OnOk result (take (length path.old.known.items) path.new.known.items ≡ path.old.known.items) }
        ensures branch { IfOk result (λ u. IsResolved self.now.looking (or_of self.now.looking.bank.now whole.now.parts.now) u) }
        ensures leads { IfOk result (λ u. (ms : List Merge) → AreCasesFrom self.now.refuting ms path.old whole.now.place whole.now.from (or_of (bank_of self.now.refuting) whole.now.parts.now) 0 part front.items → AreCasesFrom self.now.refuting ms path.old whole.now.place whole.now.from (or_of (bank_of self.now.refuting) whole.now.parts.now) (part + 1) (length whole.now.parts.now) back.items → UnitFrom self.now ms path.old whole.now.place whole.now.from whole.now.parts.now path.new u) }
    {
        let given = &self.refuting.given;
        let last = path.known.len();
        let f = given.part_at(path, whole.place, part);
        let branching = Branching {
            place: whole.place,
            count: whole.parts.len(),
        };
        path.unit(given.bank, branching, front, back, f)?;
        let (at, opened) = given.open(path, last, whole.from)?;
        let standing = Standing::Fact {
            place: at,
            from: opened,
        };
        Ok(Resolved::One(whole.parts[part], standing))
    }

    // What the `or` is, where this part may hold and the cases in front of it are closed.
    fn others(
        &self,
        congruence: &mut Congruence,
        path: &mut Path,
        whole: &FactParts<'_>,
        part: usize,
        front: Vec<Line>,
    ) -> Result<Resolved, AllocError>
        requires beside { IsBeside self.now congruence.old }
        requires given { IsGiven self.now.refuting.given }
        requires below { AreBelow whole.now.bound whole.now.parts.now }
        requires in_bank { whole.now.bound ≤ length (bank_of self.now.refuting).formulas * 2 }
        requires part { part < length whole.now.parts.now }
        requires holds { (f : ids.FormulaId) → slice_get whole.now.parts.now part ≡ Some f → IsHolding self.now.refuting f }
        ensures congruence { OnOk result (congruence.new ≡ congruence.old) }
        ensures kept { OnOk result (take (length path.old.known.items) path.new.known.items ≡ path.old.known.items) }
        ensures branch { IfOk result (λ u. IsResolved self.now.looking (or_of self.now.looking.bank.now whole.now.parts.now) u) }
        ensures leads { IfOk result (λ u. AreCasesFrom self.now.refuting congruence.old.merges path.old whole.now.place whole.now.from (or_of (bank_of self.now.refuting) whole.now.parts.now) 0 part front.items → UnitFrom self.now congruence.old.merges path.old whole.now.place whole.now.from whole.now.parts.now path.new u) }
    {
        let count = whole.parts.len();
        let back = self
            .refuting
            .cases(congruence, path, whole, part + 1, count)?;
        if back.stop < count {
            return Ok(Resolved::Open);
        }
        self.one(path, whole, part, front, back.lines)
    }

    // What the `or` is, where all parts look refuted. One that isn't closed may hold.
    fn all(
        &self,
        congruence: &mut Congruence,
        path: &mut Path,
        whole: &FactParts<'_>,
    ) -> Result<Resolved, AllocError>
        requires beside { IsBeside self.now congruence.old }
        requires given { IsGiven self.now.refuting.given }
        requires below { AreBelow whole.now.bound whole.now.parts.now }
        requires in_bank { whole.now.bound ≤ length (bank_of self.now.refuting).formulas * 2 }
        ensures congruence { OnOk result (congruence.new ≡ congruence.old) }
        ensures kept { OnOk result (take (length path.old.known.items) path.new.known.items ≡ path.old.known.items) }
        ensures branch { IfOk result (λ u. IsResolved self.now.looking (or_of self.now.looking.bank.now whole.now.parts.now) u) }
        ensures leads { IfOk result (λ u. UnitFrom self.now congruence.old.merges path.old whole.now.place whole.now.from whole.now.parts.now path.new u) }
    {
        let count = whole.parts.len();
        let front = self.refuting.cases(congruence, path, whole, 0, count)?;
        if front.stop < count {
            return self.others(congruence, path, whole, front.stop, front.lines);
        }
        let lines = split(self.looking.alloc, whole.place, count, front.lines)?;
        Ok(Resolved::Closed(lines))
    }

    // What the `or` is, where all parts but one look refuted. Another that isn't closed may hold too.
    fn all_but(
        &self,
        congruence: &mut Congruence,
        path: &mut Path,
        whole: &FactParts<'_>,
        part: usize,
    ) -> Result<Resolved, AllocError>
        requires beside { IsBeside self.now congruence.old }
        requires given { IsGiven self.now.refuting.given }
        requires below { AreBelow whole.now.bound whole.now.parts.now }
        requires in_bank { whole.now.bound ≤ length (bank_of self.now.refuting).formulas * 2 }
        requires part { part < length whole.now.parts.now }
        requires holds { (f : ids.FormulaId) → slice_get whole.now.parts.now part ≡ Some f → IsHolding self.now.refuting f }
        ensures congruence { OnOk result (congruence.new ≡ congruence.old) }
        ensures kept { OnOk result (take (length path.old.known.items) path.new.known.items ≡ path.old.known.items) }
        ensures branch { IfOk result (λ u. IsResolved self.now.looking (or_of self.now.looking.bank.now whole.now.parts.now) u) }
        ensures leads { IfOk result (λ u. UnitFrom self.now congruence.old.merges path.old whole.now.place whole.now.from whole.now.parts.now path.new u) }
    {
        let front = self.refuting.cases(congruence, path, whole, 0, part)?;
        if front.stop < part {
            return Ok(Resolved::Open);
        }
        self.others(congruence, path, whole, part, front.lines)
    }

    /// What the `or` of the parts of a fact is. Which may hold is looked up first, and lines are written only where at most one does.
    pub(crate) fn unit(
        &self,
        congruence: &mut Congruence,
        outcomes: &mut Outcomes,
        path: &mut Path,
        whole: &FactParts<'_>,
    ) -> Result<Resolved, AllocError>
        requires beside { IsBeside self.now congruence.old }
        requires given { IsGiven self.now.refuting.given }
        requires outcomes { AreHolding self.now.looking outcomes.old }
        requires below { AreBelow whole.now.bound whole.now.parts.now }
        requires in_bank { whole.now.bound ≤ length (bank_of self.now.refuting).formulas * 2 }
        ensures congruence { OnOk result (congruence.new ≡ congruence.old) }
        ensures outcomes { OnOk result (AreHolding self.now.looking outcomes.new) }
        ensures kept { OnOk result (take (length path.old.known.items) path.new.known.items ≡ path.old.known.items) }
        ensures branch { IfOk result (λ u. IsResolved self.now.looking (or_of self.now.looking.bank.now whole.now.parts.now) u) }
        ensures leads { IfOk result (λ u. UnitFrom self.now congruence.old.merges path.old whole.now.place whole.now.from whole.now.parts.now path.new u) }
    {
        let looking = &self.looking;
        if looking.is_met(whole.parts) {
            return Ok(Resolved::Open);
        }
        match looking.first_open(congruence, outcomes, whole.parts, 0, whole.bound)? {
            None => self.all(congruence, path, whole),
            Some(part) => {
                match looking.first_open(
                    congruence,
                    outcomes,
                    whole.parts,
                    part + 1,
                    whole.bound,
                )? {
                    None => self.all_but(congruence, path, whole, part),
                    Some(_other) => Ok(Resolved::Open),
                }
            }
        }
    }
}
