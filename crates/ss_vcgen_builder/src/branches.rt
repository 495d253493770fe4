// The two sides of a test.

ghost use Rattle.std.specs.Prelude.{◌≡◌, ◌+◌, IfOk, OnOk};
ghost use Rattle.ss_core.specs.View.{expr};
ghost use Rattle.ss_store_rules.specs.NonNull.{known_tested};
ghost use Rattle.ss_logic.specs.Formulas.{neg};
ghost use Rattle.ss_terms.specs.Forms.{formula_at, HasFormula};
ghost use Rattle.ss_vcgen_heaps.specs.Positions as spec;
ghost use Rattle.ss_vcgen_express.specs.Numbers.{IsFormula};
ghost use Rattle.ss_vcgen_known.specs.Views.{known_of};
ghost use Rattle.ss_vcgen_builder.specs.Builder.{guard_of, position_at, at_spot, HasSpot, IsSpot, IsFine, Becomes};

use crate::builder::Builder;
use crate::guard::{Guard, side};
use crate::terms::after;
use ss_core::Expr;
use ss_terms::{FormulaId, TermId};
use ss_vcgen_known::Known;
use std::alloc::AllocError;

/// A spot that is left and come back to: what is known there but for the premises.
#[derive(Drop)]
pub struct Spot {
    pub locals: Vec<Option<TermId>>,
    pub store: TermId,
    pub guard: Guard,
    pub known: Known,
}

impl Builder {
    /// A test has come out so: what that tells of the locals is known.
    pub fn test(&mut self, e: &Expr, outcome: bool) -> Result<(), AllocError>
        requires { IsFine self.old }
        ensures { OnOk result (Becomes self.old self.new (λ b. record (position_at b self.old) { known = known_tested (expr e.now) outcome (position_at b self.old).known })) }
    {
        self.known.test(self.alloc, e, outcome)?;
        Ok(())
    }

    /// The spot where the builder stands, copied.
    pub fn spot(&self) -> Result<Spot, AllocError>
        requires { IsFine self.now }
        ensures { IfOk result (λ p. IsSpot self.now.bank p (λ b. position_at b self.now)) }
    {
        let known = self.known.copy(self.alloc)?;
        let locals = match Vec::from_slice(self.alloc, &self.locals) {
            Ok(locals) => locals,
            Err(e) => {
                drop(known);
                return Err(e);
            }
        };
        Ok(Spot {
            locals,
            store: self.store,
            guard: self.guard,
            known,
        })
    }

    // What holds where the truth value with this number is true.
    fn side(&mut self, number: usize, f: FormulaId) -> Result<FormulaId, AllocError>
        requires fine { IsFine self.old }
        requires formula { HasFormula self.old.bank f }
        ensures at { IfOk result (λ g. IsFormula self.new.bank g (λ b. spec.side (guard_of self.old.guard) number (formula_at b f))) }
        ensures stays { Becomes self.old self.new (λ b. position_at b self.old) }
    {
        side(&mut self.bank, self.guard, number, f)
    }

    // One premise more: what holds there.
    fn add_side(&mut self, number: usize, f: FormulaId) -> Result<(), AllocError>
        requires fine { IsFine self.old }
        requires formula { HasFormula self.old.bank f }
        ensures { OnOk result (Becomes self.old self.new (λ b. spec.with_premise (spec.side (guard_of self.old.guard) number (formula_at b f)) (position_at b self.old))) }
    {
        let g = self.side(number, f)?;
        self.add_premise(g)
    }

    // Two premises more: what holds on both sides.
    fn add_sides(&mut self, first: usize, second: usize, f: FormulaId) -> Result<(), AllocError>
        requires fine { IsFine self.old }
        requires formula { HasFormula self.old.bank f }
        ensures { OnOk result (Becomes self.old self.new (λ b. spec.with_premise (spec.side (guard_of self.old.guard) second (neg (formula_at b f)))
            (spec.with_premise (spec.side (guard_of self.old.guard) first (formula_at b f)) (position_at b self.old)))) }
    {
        let g = self.bank.negation(f);
        self.add_side(first, f)?;
        self.add_side(second, g)
    }

    // Goes where a test has come out true. The result is the number of the guard where it has come out false.
    fn split(&mut self, f: FormulaId) -> Result<usize, AllocError>
        requires fine { IsFine self.old }
        requires formula { HasFormula self.old.bank f }
        ensures number { IfOk result (λ n. n ≡ self.old.next.truths + 1) }
        ensures becomes { IfOk result (λ n. Becomes self.old self.new (λ b. spec.first_side (formula_at b f) (known_of self.old.known) (position_at b self.old))) }
    {
        let first = self.next.truths;
        let second = after(first)?;
        let next = after(second)?;
        self.add_sides(first, second, f)?;
        self.guard = Guard::When(first);
        self.next.truths = next;
        Ok(second)
    }

    /// Goes where a test has come out true; what that tells of the locals isn't known yet. The spot that is given back is where it has
    /// come out false, and what is known there is what was known at the test.
    pub fn first_side(&mut self, f: FormulaId) -> Result<Spot, AllocError>
        requires fine { IsFine self.old }
        requires formula { HasFormula self.old.bank f }
        ensures becomes { IfOk result (λ p. Becomes self.old self.new (λ b. spec.first_side (formula_at b f) (known_of self.old.known) (position_at b self.old))) }
        ensures spot { IfOk result (λ p. IsSpot self.new.bank p (λ b. record (position_at b self.old) { guard = spec.When (self.old.next.truths + 1) })) }
    {
        let second = self.split(f)?;
        let mut spot = self.spot()?;
        spot.guard = Guard::When(second);
        Ok(spot)
    }

    /// Goes to another spot; the one that is left is given back.
    pub fn go_to(&mut self, spot: Spot) -> Spot
        requires fine { IsFine self.old }
        requires spot { HasSpot self.old.bank spot }
        ensures becomes { Becomes self.old self.new (λ b. at_spot b spot (position_at b self.old)) }
        ensures spot { IsSpot self.new.bank result (λ b. position_at b self.old) }
    {
        let locals = std::mem::replace(&mut self.locals, spot.locals);
        let store = std::mem::replace(&mut self.store, spot.store);
        let guard = std::mem::replace(&mut self.guard, spot.guard);
        let known = std::mem::replace(&mut self.known, spot.known);
        Spot {
            locals,
            store,
            guard,
            known,
        }
    }
}
