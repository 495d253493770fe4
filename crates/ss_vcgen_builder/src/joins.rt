// Where two sides meet.

ghost use Rattle.std.specs.Prelude.{◌≡◌, [], ◌∷◌, IfOk, OnOk};
ghost use Rattle.ss_store_rules.specs.NonNull.{known_met};
ghost use Rattle.ss_logic.specs.Formulas.{neg};
ghost use Rattle.ss_logic.specs.Shapes.{equal};
ghost use Rattle.ss_logic.specs.Express.{or_of};
ghost use Rattle.ss_terms.specs.Forms.{term_at, formula_at, HasTerm, HasFormula, IsGrown};
ghost use Rattle.ss_vcgen_heaps.specs.Positions as spec;
ghost use Rattle.ss_vcgen_express.specs.Numbers.{IsTerm, IsFormula};
ghost use Rattle.ss_vcgen_known.specs.Views.{known_of};
ghost use Rattle.ss_vcgen_builder.specs.Builder.{guard_of, local_at, locals_at, position_at, at_spot, join_local, walk_at, HasLocals, IsLocal, AreLocals, HasSpot, IsFine, IsWalk, Becomes};
ghost use Rattle.ss_terms.specs.Numbered.{HasTermOf};

use crate::branches::Spot;
use crate::builder::{Builder, Walk};
use crate::guard::{Guard, equation, guard_formula, unreached};
use crate::terms::after;
use ss_core::Ty;
use ss_logic::Sort;
use ss_terms::{Bank, FormulaId, TermId, sort_of_type};
use ss_vcgen_known::Known;
use std::alloc::AllocError;

// That where the truth value with this number is true, one of two positions is reached.
fn meeting(
    bank: &mut Bank,
    number: usize,
    first: Guard,
    second: Guard,
) -> Result<FormulaId, AllocError>
    ensures at { IfOk result (λ f. IsFormula bank.new f (λ b. or_of (neg (spec.is_true (spec.guard_term number)) ∷ spec.guard_formula (guard_of first) ∷ spec.guard_formula (guard_of second) ∷ []))) }
    ensures grown { IsGrown bank.old bank.new }
{
    let not_here = unreached(bank, number)?;
    let left = guard_formula(bank, first)?;
    let right = guard_formula(bank, second)?;
    bank.or(&[not_here, left, right])
}

impl Builder {
    // One premise more, where that position is reached.
    fn add_under(&mut self, guard: Guard, f: FormulaId) -> Result<(), AllocError>
        requires fine { IsFine self.old }
        requires formula { HasFormula self.old.bank f }
        ensures { OnOk result (Becomes self.old self.new (λ b. spec.with_premise (spec.under (guard_of guard) (formula_at b f)) (position_at b self.old))) }
    {
        let g = self.under(guard, f)?;
        self.add_premise(g)
    }

    // That two terms are equal.
    fn equation(&mut self, s: TermId, t: TermId) -> Result<FormulaId, AllocError>
        requires fine { IsFine self.old }
        requires first { HasTerm self.old.bank s }
        requires second { HasTerm self.old.bank t }
        ensures at { IfOk result (λ f. IsFormula self.new.bank f (λ b. equal (term_at b s) (term_at b t))) }
        ensures stays { Becomes self.old self.new (λ b. position_at b self.old) }
    {
        equation(&mut self.bank, s, t)
    }

    // They are equal, where that position is reached.
    fn add_equal(&mut self, guard: Guard, s: TermId, t: TermId) -> Result<(), AllocError>
        requires fine { IsFine self.old }
        requires first { HasTerm self.old.bank s }
        requires second { HasTerm self.old.bank t }
        ensures { OnOk result (Becomes self.old self.new (λ b. spec.with_premise (spec.under (guard_of guard) (equal (term_at b s) (term_at b t))) (position_at b self.old))) }
    {
        let f = self.equation(s, t)?;
        self.add_under(guard, f)
    }

    // A new constant, which is each side's term where that side is reached.
    fn join_differing(
        &mut self,
        first: Guard,
        second: Guard,
        sort: Sort,
        x: TermId,
        y: TermId,
    ) -> Result<TermId, AllocError>
        requires fine { IsFine self.old }
        requires first { HasTerm self.old.bank x }
        requires second { HasTerm self.old.bank y }
        ensures at { IfOk result (λ t. IsTerm self.new.bank t (λ b. spec.new_term sort (position_at b self.old))) }
        ensures becomes { IfOk result (λ t. Becomes self.old self.new (λ b.
            spec.with_premise (spec.under (guard_of second) (equal (spec.new_term sort (position_at b self.old)) (term_at b y)))
            (spec.with_premise (spec.under (guard_of first) (equal (spec.new_term sort (position_at b self.old)) (term_at b x)))
            (spec.with_new sort (position_at b self.old))))) }
    {
        let t = self.new_term(sort)?;
        self.add_equal(first, t, x)?;
        self.add_equal(second, t, y)?;
        Ok(t)
    }

    // The term of both sides, or a new constant where they differ.
    fn join_terms(
        &mut self,
        first: Guard,
        second: Guard,
        sort: Sort,
        x: TermId,
        y: TermId,
    ) -> Result<TermId, AllocError>
        requires fine { IsFine self.old }
        requires first { HasTerm self.old.bank x }
        requires second { HasTerm self.old.bank y }
        ensures at { IfOk result (λ t. IsTerm self.new.bank t (λ b. spec.joined_term sort (term_at b x) (term_at b y) (position_at b self.old))) }
        ensures becomes { IfOk result (λ t. Becomes self.old self.new (λ b. spec.join_term (guard_of first) (guard_of second) sort (term_at b x) (term_at b y) (position_at b self.old))) }
    {
        if self.bank.is_same_term(x, y) {
            Ok(x)
        } else {
            self.join_differing(first, second, sort, x, y)
        }
    }

    // The value of a local after both sides; one without a value on one side has none.
    fn join_local(
        &mut self,
        first: Guard,
        second: Guard,
        sort: Sort,
        a: Option<TermId>,
        z: Option<TermId>,
    ) -> Result<Option<TermId>, AllocError>
        requires fine { IsFine self.old }
        requires first { HasTermOf self.old.bank a }
        requires second { HasTermOf self.old.bank z }
        ensures at { IfOk result (λ l. IsLocal self.new.bank l (λ b. (join_local (guard_of first) (guard_of second) sort (local_at b a) (local_at b z) (position_at b self.old)).0)) }
        ensures becomes { IfOk result (λ l. Becomes self.old self.new (λ b. (join_local (guard_of first) (guard_of second) sort (local_at b a) (local_at b z) (position_at b self.old)).1)) }
    {
        let (Some(x), Some(y)) = (a, z) else {
            return Ok(None);
        };
        let t = self.join_terms(first, second, sort, x, y)?;
        Ok(Some(t))
    }

    // The values of the locals of these types.
    fn join_locals(
        &mut self,
        first: Guard,
        second: Guard,
        types: &[Ty],
        firsts: &[Option<TermId>],
        seconds: &[Option<TermId>],
    ) -> Result<Vec<Option<TermId>>, AllocError>
        requires fine { IsFine self.old }
        requires first { HasLocals self.old.bank firsts.now }
        requires second { HasLocals self.old.bank seconds.now }
        ensures at { IfOk result (λ v. AreLocals self.new.bank v.items (λ b. (spec.join_locals (guard_of first) (guard_of second) types.now (locals_at b firsts.now) (locals_at b seconds.now) (position_at b self.old)).0)) }
        ensures becomes { IfOk result (λ v. Becomes self.old self.new (λ b. (spec.join_locals (guard_of first) (guard_of second) types.now (locals_at b firsts.now) (locals_at b seconds.now) (position_at b self.old)).1)) }
    {
        let mut joined = Vec::with_capacity(self.alloc, types.len())?;
        let pairs = firsts.len().min(seconds.len());
        let count = types.len().min(pairs);
        for i in 0..count {
            let local = self.join_local(
                first,
                second,
                sort_of_type(types[i]),
                firsts[i],
                seconds[i],
            )?;
            joined.push(local)?;
        }
        Ok(joined)
    }

    // The locals of both sides meet.
    fn meet_locals(
        &mut self,
        first: Guard,
        second: Guard,
        types: &[Ty],
        firsts: &[Option<TermId>],
    ) -> Result<(), AllocError>
        requires fine { IsFine self.old }
        requires first { HasLocals self.old.bank firsts.now }
        ensures { OnOk result (Becomes self.old self.new (λ b.
            let joined = spec.join_locals (guard_of first) (guard_of second) types.now (locals_at b firsts.now) (locals_at b self.old.locals.items) (position_at b self.old) in
            record joined.1 { locals = joined.0 })) }
    {
        let seconds = Vec::from_slice(self.alloc, &self.locals)?;
        let joined = self.join_locals(first, second, types, firsts, &seconds)?;
        self.locals = joined;
        Ok(())
    }

    // Their stores meet.
    fn meet_stores(&mut self, first: Guard, second: Guard, store: TermId) -> Result<(), AllocError>
        requires fine { IsFine self.old }
        requires store { HasTerm self.old.bank store }
        ensures { OnOk result (Becomes self.old self.new (λ b.
            record (spec.join_term (guard_of first) (guard_of second) Sort.Store (term_at b store) (position_at b self.old).store (position_at b self.old)) {
              store = spec.joined_term Sort.Store (term_at b store) (position_at b self.old).store (position_at b self.old);
            })) }
    {
        let joined = self.join_terms(first, second, Sort::Store, store, self.store)?;
        self.store = joined;
        Ok(())
    }

    // What is known of the locals meets.
    fn meet_known(&mut self, first: &mut Known) -> Result<(), AllocError>
        requires { IsFine self.old }
        ensures { OnOk result (Becomes self.old self.new (λ b. record (position_at b self.old) { known = known_met (known_of first.old) (position_at b self.old).known })) }
    {
        first.meet(self.alloc, &self.known)?;
        std::mem::swap(&mut self.known, first);
        Ok(())
    }

    // That where the truth value with this number is true, one of two positions is reached.
    fn meeting(
        &mut self,
        number: usize,
        first: Guard,
        second: Guard,
    ) -> Result<FormulaId, AllocError>
        requires { IsFine self.old }
        ensures at { IfOk result (λ f. IsFormula self.new.bank f (λ b. or_of (neg (spec.is_true (spec.guard_term number)) ∷ spec.guard_formula (guard_of first) ∷ spec.guard_formula (guard_of second) ∷ []))) }
        ensures stays { Becomes self.old self.new (λ b. position_at b self.old) }
    {
        meeting(&mut self.bank, number, first, second)
    }

    // A new guard, of a position that is reached from both.
    fn join_guard(&mut self, first: Guard, second: Guard) -> Result<(), AllocError>
        requires { IsFine self.old }
        ensures { OnOk result (Becomes self.old self.new (λ b. spec.join_guard (guard_of first) (guard_of second) (position_at b self.old))) }
    {
        let number = self.next.truths;
        let next = after(number)?;
        let f = self.meeting(number, first, second)?;
        self.add_premise(f)?;
        self.guard = Guard::When(number);
        self.next.truths = next;
        Ok(())
    }

    // Both sides meet.
    fn join_both(&mut self, walk: &Walk, first: &mut Spot) -> Result<(), AllocError>
        requires fine { IsFine self.old }
        requires walk { IsWalk self.old.bank walk.now }
        requires first { HasSpot self.old.bank first.old }
        ensures { OnOk result (Becomes self.old self.new (λ b. spec.join_both (walk_at b walk.now) known_met (at_spot b first.old (position_at b self.old)) (position_at b self.old))) }
    {
        let second = self.guard;
        self.join_guard(first.guard, second)?;
        self.meet_locals(first.guard, second, walk.types, &first.locals)?;
        self.meet_stores(first.guard, second, first.store)?;
        self.meet_known(&mut first.known)
    }

    /// Goes after both sides, from the end of the second: this spot is the end of the first.
    pub fn join(&mut self, walk: &Walk, first: Spot) -> Result<(), AllocError>
        requires fine { IsFine self.old }
        requires walk { IsWalk self.old.bank walk.now }
        requires first { HasSpot self.old.bank first }
        ensures { OnOk result (Becomes self.old self.new (λ b. spec.join (walk_at b walk.now) known_met (at_spot b first (position_at b self.old)) (position_at b self.old))) }
    {
        match (first.guard, self.guard) {
            (Guard::Never, _) => Ok(()),
            (_, Guard::Never) => {
                self.go_to(first);
                Ok(())
            }
            _ => {
                let mut first = first;
                self.join_both(walk, &mut first)
            }
        }
    }
}
