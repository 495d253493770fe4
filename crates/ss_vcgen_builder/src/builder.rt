// A list of obligations under construction.

ghost use Rattle.std.specs.Prelude.{◌≡◌, ◌≤◌, IfOk, OnOk, length, take, drop};
ghost use Rattle.ss_terms.specs.Forms.{formula_at, formulas_at, HasFormula, HasFormulas};
ghost use Rattle.ss_vcgen_heaps.specs.Positions as spec;
ghost use Rattle.ss_vcgen_express.specs.Numbers.{IsFormula};
ghost use Rattle.ss_vcgen_builder.specs.Builder.{guard_of, listing, position_at, walk_at, IsFine, Becomes};

use crate::guard::{Guard, under};
use ss_core::{Body, BodyId, Core, Kind, Place, Ty};
use ss_terms::{Bank, FormulaId, Obligation, TermId};
use ss_vcgen_known::Known;
use std::alloc::{AllocError, Global};

/// The numbers of the next new constants, by sort.
#[derive(Clone, Copy)]
pub struct Counters {
    pub stores: usize,
    pub wholes: usize,
    pub truths: usize,
    pub things: usize,
}

/// What has to be shown for one check: the goal, where the premises are true. They are the formulas of the trail from the number
/// `first` to before the number `end`.
#[derive(Clone, Copy)]
pub struct Listed {
    pub first: usize,
    pub end: usize,
    /// What has to be true.
    pub goal: FormulaId,
    /// What the check is about.
    pub kind: Kind,
    /// Where the check stands in the source.
    pub place: Place,
    /// The body that the check stands in.
    pub body: BodyId,
}

impl Listed {
    /// What has to be shown, with the premises that the trail lends.
    pub fn obligation<'o>(&self, trail: &'o [FormulaId]) -> Obligation<'o>
        requires first { self.now.first ≤ self.now.end }
        requires end { self.now.end ≤ length trail.now }
        ensures premises { result.premises.now ≡ drop self.now.first (take self.now.end trail.now) }
        ensures goal { result.goal ≡ self.now.goal }
        ensures kind { result.kind ≡ self.now.kind }
        ensures place { result.place ≡ self.now.place }
        ensures body { result.body ≡ self.now.body }
    {
        Obligation {
            premises: &trail[self.first..self.end],
            goal: self.goal,
            kind: self.kind,
            place: self.place,
            body: self.body,
        }
    }
}

/// The body that is walked over, the types of its locals, its number, and the store at its entry.
#[derive(Clone, Copy)]
pub struct Walk<'p> {
    pub core: &'p Core,
    pub body: &'p Body,
    pub types: &'p [Ty],
    pub number: BodyId,
    pub entry: TermId,
}

/// A list of obligations under construction, and what is known at the position that was come to.
#[derive(Drop)]
pub struct Builder {
    pub alloc: Global,
    pub bank: Bank,
    /// The term of each local that has a value.
    pub locals: Vec<Option<TermId>>,
    pub store: TermId,
    pub guard: Guard,
    /// Which locals aren't null.
    pub known: Known,
    pub next: Counters,
    /// Where the premises of this body begin in the trail.
    pub first: usize,
    /// The premises, body by body.
    pub trail: Vec<FormulaId>,
    pub list: Vec<Listed>,
}

impl Builder {
    // One premise more, as it is.
    pub(crate) fn add_premise(&mut self, f: FormulaId) -> Result<(), AllocError>
        requires fine { IsFine self.old }
        requires formula { HasFormula self.old.bank f }
        ensures { OnOk result (Becomes self.old self.new (λ b. spec.with_premise (formula_at b f) (position_at b self.old))) }
    {
        self.trail.push(f)?;
        Ok(())
    }

    // The formula, where the position with this guard is reached.
    pub(crate) fn under(&mut self, guard: Guard, f: FormulaId) -> Result<FormulaId, AllocError>
        requires fine { IsFine self.old }
        requires formula { HasFormula self.old.bank f }
        ensures at { IfOk result (λ g. IsFormula self.new.bank g (λ b. spec.under (guard_of guard) (formula_at b f))) }
        ensures stays { Becomes self.old self.new (λ b. position_at b self.old) }
    {
        under(&mut self.bank, guard, f)
    }

    /// The formula is a premise from here on, where the position is reached.
    pub fn assume(&mut self, f: FormulaId) -> Result<(), AllocError>
        requires fine { IsFine self.old }
        requires formula { HasFormula self.old.bank f }
        ensures { OnOk result (Becomes self.old self.new (λ b. spec.assume (formula_at b f) (position_at b self.old))) }
    {
        let g = self.under(self.guard, f)?;
        self.add_premise(g)
    }

    /// Each of these is.
    pub fn assume_all(&mut self, fs: &[FormulaId]) -> Result<(), AllocError>
        requires fine { IsFine self.old }
        requires formulas { HasFormulas self.old.bank fs.now }
        ensures { OnOk result (Becomes self.old self.new (λ b. spec.assume_all (formulas_at b fs.now) (position_at b self.old))) }
    {
        for f in fs {
            self.assume(*f)?;
        }
        Ok(())
    }

    // The goal is listed, with the premises so far.
    fn list_goal(
        &mut self,
        walk: &Walk,
        kind: Kind,
        place: Place,
        goal: FormulaId,
    ) -> Result<(), AllocError>
        requires fine { IsFine self.old }
        requires goal { HasFormula self.old.bank goal }
        ensures { OnOk result (Becomes self.old self.new (λ b. listing (walk_at b walk.now) kind place (formula_at b goal) (position_at b self.old))) }
    {
        self.list.push(Listed {
            first: self.first,
            end: self.trail.len(),
            goal,
            kind,
            place,
            body: walk.number,
        })?;
        Ok(())
    }

    /// The check is listed; what it asks for is a premise from here on.
    pub fn check(
        &mut self,
        walk: &Walk,
        kind: Kind,
        place: Place,
        f: FormulaId,
    ) -> Result<(), AllocError>
        requires fine { IsFine self.old }
        requires formula { HasFormula self.old.bank f }
        ensures { OnOk result (Becomes self.old self.new (λ b. spec.check (walk_at b walk.now) kind place (formula_at b f) (position_at b self.old))) }
    {
        let goal = self.under(self.guard, f)?;
        self.list_goal(walk, kind, place, goal)?;
        self.add_premise(goal)
    }

    /// Each of these is checked.
    pub fn check_all(
        &mut self,
        walk: &Walk,
        kind: Kind,
        place: Place,
        fs: &[FormulaId],
    ) -> Result<(), AllocError>
        requires fine { IsFine self.old }
        requires formulas { HasFormulas self.old.bank fs.now }
        ensures { OnOk result (Becomes self.old self.new (λ b. spec.check_all (walk_at b walk.now) kind place (formulas_at b fs.now) (position_at b self.old))) }
    {
        for f in fs {
            self.check(walk, kind, place, *f)?;
        }
        Ok(())
    }

    /// It is checked, unless it is known.
    pub fn check_unless(
        &mut self,
        known: bool,
        walk: &Walk,
        kind: Kind,
        place: Place,
        f: FormulaId,
    ) -> Result<(), AllocError>
        requires fine { IsFine self.old }
        requires formula { HasFormula self.old.bank f }
        ensures { OnOk result (Becomes self.old self.new (λ b. spec.check_unless known (walk_at b walk.now) kind place (formula_at b f) (position_at b self.old))) }
    {
        if known {
            Ok(())
        } else {
            self.check(walk, kind, place, f)
        }
    }
}
