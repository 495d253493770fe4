// What is known at a place of a body.

ghost use Rattle.std.specs.Prelude.{◌≡◌, ◌≤◌, ◌<◌, ◌||◌, ◌==◌, true, false, length, map, if◌then◌else◌, IfOk, IsTrue, option_map};
ghost use Rattle.ss_bit_set.specs.Marked.{marked};
ghost use Rattle.ss_paths.specs.Sets.{none};
ghost use Rattle.ss_core.specs.Chain.{most_classes};
ghost use Rattle.ss_core.specs.Tree as tree;
ghost use Rattle.ss_core.specs.View as view;
ghost use Rattle.ss_store_rules.specs.Locals.{local_types};
ghost use Rattle.ss_store_rules.specs.NonNull as spec;
ghost use Rattle.ss_store_rules.specs.Typed as typed;
ghost use Rattle.ss_vcgen_known.specs.Sets.{pair_without, below};
ghost use Rattle.ss_vcgen_known.specs.Steps.{met_pair, facts_met, with_said, with_sides, with_fields, written, barred_by, all_barred, forgotten};
ghost use Rattle.ss_vcgen_types.specs.Told.{facts_of, all_facts, with_told};
ghost use Rattle.ss_vcgen_known.specs.Views.{pair_of, known_of};

use crate::assigns::assigned;
use crate::body_context::BodyContext;
use crate::facts::{end_of, is_empty, join, joined, side_met, without};
use crate::fields::{Fields, larger};
use crate::never_null::is_never_null;
use crate::sides::Sides;
use crate::tests::Tests;
use ss_bit_set::BitSet;
use ss_core::{Body, Callee, Core, Expr, FieldId, Stmt, Ty, is_non_null_type};
use ss_vcgen_types::{Told, TypeContext, callee_of, is_this, told_by};
use std::alloc::{AllocError, Global};

/// What is known at a place of a body: which locals aren't null, and what follows where a local is true or false. In a constructor also
/// which fields of `this` have their values.
#[derive(Drop)]
pub struct Known {
    pub facts: BitSet,
    pub sides: Vec<Sides>,
    /// What is known of each local past the end of the list, on both sides.
    pub beyond: BitSet,
    pub fields: Fields,
}

// All sides without the local.
fn all_without(alloc: Global, sides: &[Sides], local: usize) -> Result<Vec<Sides>, AllocError>
    ensures { IfOk result (λ v. map pair_of v.items ≡ map (pair_without local) (map pair_of sides.now)) }
{
    let mut rest = Vec::new(alloc);
    for pair in sides {
        let pair = pair.without(local)?;
        rest.push(pair)?;
    }
    Ok(rest)
}

fn all_copied(alloc: Global, sides: &[Sides]) -> Result<Vec<Sides>, AllocError>
    ensures { IfOk result (λ v. map pair_of v.items ≡ map pair_of sides.now) }
{
    let mut same = Vec::new(alloc);
    for pair in sides {
        let pair = pair.copy()?;
        same.push(pair)?;
    }
    Ok(same)
}

impl Known {
    /// What is known at the entry of a body.
    #[tactic(auto, using(crate::proofs::Listing::at_none, crate::proofs::Listing::none_is_none))]
    pub fn at_entry(alloc: Global, body: &Body) -> Known
        ensures { known_of result ≡ spec.known_at_entry (view.body body.now) }
    {
        Known {
            facts: BitSet::new(alloc),
            sides: Vec::new(alloc),
            beyond: BitSet::new(alloc),
            fields: Fields::new(alloc, !body.flags.ctor),
        }
    }

    /// The same once more.
    pub fn copy(&self, alloc: Global) -> Result<Known, AllocError>
        ensures { IfOk result (λ k. known_of k ≡ known_of self.now) }
    {
        let facts = self.facts.copy()?;
        let sides = all_copied(alloc, &self.sides)?;
        let beyond = self.beyond.copy()?;
        let fields = self.fields.copy()?;
        Ok(Known {
            facts,
            sides,
            beyond,
            fields,
        })
    }

    /// Whether the local is known not to be null.
    pub fn knows(&self, local: usize) -> bool
        ensures { result ≡ (known_of self.now).facts local }
    {
        self.facts.has(local)
    }

    // What is known where the local has the truth value.
    #[tactic(auto, using(crate::proofs::Listing::at_pair, crate::proofs::Listing::at_past))]
    fn side_at(&self, x: usize, outcome: bool) -> Option<&BitSet>
        ensures { option_map (λ f. marked f.now) result ≡ (known_of self.now).sides x outcome }
    {
        if x < self.sides.len() {
            self.sides[x].side(outcome)
        } else {
            Some(&self.beyond)
        }
    }

    // Whether the local y isn't null where the local x has the truth value.
    pub(crate) fn side_has(&self, x: usize, outcome: bool, y: usize) -> bool
        ensures { result ≡ spec.side_facts ((known_of self.now).sides x outcome) y }
    {
        match self.side_at(x, outcome) {
            Some(facts) => facts.has(y),
            None => false,
        }
    }

    // ---- tests

    // Puts what the test tells into the set.
    fn add_fact(&self, set: &mut BitSet, told: Told) -> Result<(), AllocError>
        ensures { IfOk result (λ u. marked set.new ≡ spec.both (marked set.old) (facts_of (known_of self.now) told)) }
    {
        match told {
            Told::NotNull(x) => set.put(x, true),
            Told::Truth(x, outcome) => self.add_side(set, x, outcome),
        }
    }

    fn add_side(&self, set: &mut BitSet, x: usize, outcome: bool) -> Result<(), AllocError>
        ensures { IfOk result (λ u. marked set.new ≡ spec.both (marked set.old) (spec.side_facts ((known_of self.now).sides x outcome))) }
    {
        match self.side_at(x, outcome) {
            Some(facts) => join(set, facts),
            None => Ok(()),
        }
    }

    // The locals that aren't null where all this is told.
    fn facts_told(&self, alloc: Global, list: &[Told]) -> Result<BitSet, AllocError>
        ensures { IfOk result (λ m. marked m ≡ all_facts (known_of self.now) list.now) }
    {
        let mut set = BitSet::new(alloc);
        for told in list {
            self.add_fact(&mut set, *told)?;
        }
        Ok(set)
    }

    // Makes the list of sides longer, until the local stands in it.
    fn reach(&mut self, x: usize) -> Result<(), AllocError>
        ensures same { IfOk result (λ u. known_of self.new ≡ known_of self.old) }
        ensures long { IfOk result (λ u. x < length self.new.sides.items) }
    {
        while self.sides.len() <= x {
            let pair = Sides::alike(&self.beyond)?;
            self.sides.push(pair)?;
        }
        Ok(())
    }

    // What the test tells of a truth value bars the other side.
    fn bar(&mut self, told: Told) -> Result<(), AllocError>
        ensures { IfOk result (λ u. known_of self.new ≡ barred_by told (known_of self.old)) }
    {
        match told {
            Told::NotNull(_) => Ok(()),
            Told::Truth(x, outcome) => {
                self.reach(x)?;
                self.sides[x].bar(!outcome);
                Ok(())
            }
        }
    }

    fn bar_all(&mut self, list: &[Told]) -> Result<(), AllocError>
        ensures { IfOk result (λ u. known_of self.new ≡ all_barred list.now (known_of self.old)) }
    {
        for told in list {
            self.bar(*told)?;
        }
        Ok(())
    }

    // All this is told.
    fn learn(&mut self, alloc: Global, list: &[Told]) -> Result<(), AllocError>
        ensures { IfOk result (λ u. known_of self.new ≡ with_told list.now (known_of self.old)) }
    {
        let facts = self.facts_told(alloc, list)?;
        join(&mut self.facts, &facts)?;
        self.bar_all(list)?;
        Ok(())
    }

    /// A test has come out so.
    pub fn test(&mut self, alloc: Global, e: &Expr, outcome: bool) -> Result<(), AllocError>
        ensures { IfOk result (λ u. known_of self.new ≡ spec.known_tested (view.expr e.now) outcome (known_of self.old)) }
    {
        let list = told_by(alloc, e, outcome)?;
        self.learn(alloc, &list)?;
        Ok(())
    }

    // ---- statements

    // Whether the list of sides says as it stands that nothing is known on those of the local: it is past the end, and nothing is known there.
    fn is_silent(&self, x: usize, holds: &BitSet, fails: &BitSet) -> bool
        ensures { IsTrue result → known_of self.now ≡ with_said x (marked holds.now) (marked fails.now) (known_of self.now) }
    {
        if x < self.sides.len() {
            false
        } else {
            self.are_empty(holds, fails)
        }
    }

    // Whether nothing was put into the sets, and nothing is known past the end of the list.
    fn are_empty(&self, holds: &BitSet, fails: &BitSet) -> bool
        ensures { IsTrue result → (marked holds.now ≡ none) × (marked fails.now ≡ none) × (marked self.now.beyond ≡ none) }
    {
        is_empty(holds) && is_empty(fails) && is_empty(&self.beyond)
    }

    // On its sides the local says this. The list of sides is no longer than it must be, for it is copied with each statement.
    fn say(&mut self, x: usize, holds: BitSet, fails: BitSet) -> Result<(), AllocError>
        ensures { IfOk result (λ u. known_of self.new ≡ with_said x (marked holds) (marked fails) (known_of self.old)) }
    {
        if self.is_silent(x, &holds, &fails) {
            return Ok(());
        }
        self.put_sides(x, holds, fails)
    }

    fn put_sides(&mut self, x: usize, holds: BitSet, fails: BitSet) -> Result<(), AllocError>
        ensures { IfOk result (λ u. known_of self.new ≡ with_said x (marked holds) (marked fails) (known_of self.old)) }
    {
        self.reach(x)?;
        self.sides[x] = Sides {
            holds: Some(holds),
            fails: Some(fails),
        };
        Ok(())
    }

    // The local is assigned a value that isn't null, or one that may be; on its sides it says this.
    fn set_local(
        &mut self,
        alloc: Global,
        x: usize,
        non_null: bool,
        holds: BitSet,
        fails: BitSet,
    ) -> Result<(), AllocError>
        ensures { IfOk result (λ u. known_of self.new ≡ with_sides x non_null (marked holds) (marked fails) (known_of self.old)) }
    {
        let sides = all_without(alloc, &self.sides, x)?;
        let beyond = without(&self.beyond, x)?;
        self.facts.put(x, non_null)?;
        self.sides = sides;
        self.beyond = beyond;
        self.say(x, holds, fails)?;
        Ok(())
    }

    // The local is assigned a value of which nothing else is known.
    fn set_silent(&mut self, alloc: Global, x: usize, non_null: bool) -> Result<(), AllocError>
        ensures { IfOk result (λ u. known_of self.new ≡ spec.with_local x non_null spec.says_nothing (known_of self.old)) }
    {
        let holds = BitSet::new(alloc);
        let fails = BitSet::new(alloc);
        self.set_local(alloc, x, non_null, holds, fails)?;
        Ok(())
    }

    fn keep(&mut self, alloc: Global, x: Option<usize>, non_null: bool) -> Result<(), AllocError>
        ensures { IfOk result (λ u. known_of self.new ≡ spec.with_kept x non_null (known_of self.old)) }
    {
        match x {
            Some(x) => self.set_silent(alloc, x, non_null),
            None => Ok(()),
        }
    }

    // What the expression tells, on one side of the local to which it is assigned.
    fn says(&self, alloc: Global, e: &Expr, outcome: bool) -> Result<BitSet, AllocError>
        ensures { IfOk result (λ m. marked m ≡ spec.learned (known_of self.now) (view.expr e.now) outcome) }
    {
        let list = told_by(alloc, e, outcome)?;
        let set = self.facts_told(alloc, &list)?;
        Ok(set)
    }

    fn assign(
        &mut self,
        alloc: Global,
        context: BodyContext<'_>,
        x: usize,
        e: &Expr,
    ) -> Result<(), AllocError>
        requires limit { length (view.classes context.core.now.classes) ≤ most_classes }
        requires types { context.types.now ≡ local_types (view.body context.body.now) }
        ensures { IfOk result (λ u. known_of self.new ≡ spec.with_local x (spec.is_never_null (spec.site_of (view.core context.entry.core.now) (view.body context.entry.body.now)) (known_of self.old) false (view.expr e.now)) (spec.learned (known_of self.old) (view.expr e.now)) (known_of self.old)) }
    {
        let typing = TypeContext {
            classes: &context.core.classes,
            types: context.types,
            constructs: context.body.flags.ctor,
        };
        let non_null = is_never_null(typing, self, &Tests::Nothing, false, e);
        let holds = self.says(alloc, e, true)?;
        let fails = self.says(alloc, e, false)?;
        self.set_local(alloc, x, non_null, holds, fails)?;
        Ok(())
    }

    // The field of `this` has its value.
    fn give(&mut self, field: usize) -> Result<(), AllocError>
        ensures { IfOk result (λ u. known_of self.new ≡ with_fields (λ g. (known_of self.old).fields g || g == field) (known_of self.old)) }
    {
        self.fields.put(field)?;
        Ok(())
    }

    // All fields of `this` have their values.
    fn give_all(&mut self, alloc: Global)
        ensures { known_of self.new ≡ with_fields (λ f. true) (known_of self.old) }
    {
        self.fields = Fields::new(alloc, true);
    }

    // The fields that a class above declares have their values.
    fn give_above(&mut self, alloc: Global, core: &Core, body: &Body) -> Result<(), AllocError>
        requires { length (view.classes core.now.classes) ≤ most_classes }
        ensures { IfOk result (λ u. known_of self.new ≡ with_fields (λ f. (known_of self.old).fields f || spec.is_field_above (view.core core.now) (view.body body.now) f) (known_of self.old)) }
    {
        let above = Fields::above(alloc, &core.classes, body.class)?;
        let all = self.fields.either(alloc, &above)?;
        self.fields = all;
        Ok(())
    }

    fn write(&mut self, object: &Expr, field: FieldId) -> Result<(), AllocError>
        ensures { IfOk result (λ u. known_of self.new ≡ written (view.expr object.now) field.0 (known_of self.old)) }
    {
        if is_this(object) {
            self.give(field.0 as usize)
        } else {
            Ok(())
        }
    }

    fn call(
        &mut self,
        alloc: Global,
        core: &Core,
        body: &Body,
        x: Option<usize>,
        callee: &Callee,
    ) -> Result<(), AllocError>
        requires { length (view.classes core.now.classes) ≤ most_classes }
        ensures { IfOk result (λ u. known_of self.new ≡ spec.with_base (view.core core.now) (view.body body.now) (view.callee_tree callee.now) (spec.with_kept x (spec.is_non_null_type (spec.result_of (typed.callee_of (view.core core.now) (view.body body.now) (view.callee_tree callee.now)))) (known_of self.old))) }
    {
        let entered = callee_of(core, body, callee);
        let ty = result_of(entered);
        let non_null = is_non_null_type(ty);
        self.keep(alloc, x, non_null)?;
        self.begin(alloc, core, body, callee)?;
        Ok(())
    }

    // After the constructor of the class above.
    fn begin(
        &mut self,
        alloc: Global,
        core: &Core,
        body: &Body,
        callee: &Callee,
    ) -> Result<(), AllocError>
        requires { length (view.classes core.now.classes) ≤ most_classes }
        ensures { IfOk result (λ u. known_of self.new ≡ spec.with_base (view.core core.now) (view.body body.now) (view.callee_tree callee.now) (known_of self.old)) }
    {
        match callee {
            Callee::Constructor(_) => self.begin_above(alloc, core, body),
            Callee::Dispatched(..) | Callee::Static(_) | Callee::Base(_) => Ok(()),
        }
    }

    fn begin_above(&mut self, alloc: Global, core: &Core, body: &Body) -> Result<(), AllocError>
        requires { length (view.classes core.now.classes) ≤ most_classes }
        ensures { IfOk result (λ u. known_of self.new ≡ spec.with_base (view.core core.now) (view.body body.now) (tree.BaseConstructor 0) (known_of self.old)) }
    {
        let delayed = body.flags.delayed;
        if delayed {
            self.give_above(alloc, core, body)
        } else {
            self.give_all(alloc);
            Ok(())
        }
    }

    /// After a statement that is neither an `if`, a loop nor a return.
    pub fn step(
        &mut self,
        alloc: Global,
        context: BodyContext<'_>,
        stmt: &Stmt,
    ) -> Result<(), AllocError>
        requires limit { length (view.classes context.core.now.classes) ≤ most_classes }
        requires types { context.types.now ≡ local_types (view.body context.body.now) }
        ensures { IfOk result (λ u. known_of self.new ≡ spec.known_after (view.core context.entry.core.now) (view.body context.entry.body.now) (view.stmt_of stmt.now) (known_of self.old)) }
    {
        match stmt {
            Stmt::Assign(_, x, e) => self.assign(alloc, context, *x, e),
            Stmt::Write { object, field, .. } => self.write(object, *field),
            Stmt::New(_, x, _, _) => self.keep(alloc, *x, true),
            Stmt::NewArray(_, x, _, _) => self.keep(alloc, *x, true),
            Stmt::Call(_, x, callee, _) => {
                self.call(alloc, context.core, context.body, *x, callee)
            }
            Stmt::Ready(_) => {
                self.give_all(alloc);
                Ok(())
            }
            Stmt::WriteElement(..)
            | Stmt::If(..)
            | Stmt::Loop(_)
            | Stmt::Unpack(..)
            | Stmt::Pack(..)
            | Stmt::Assert(..)
            | Stmt::Assume(..)
            | Stmt::Print(..)
            | Stmt::PrintText(..)
            | Stmt::Return(..) => Ok(()),
        }
    }

    // ---- paths

    // What is known where this side meets that of the other path.
    fn side_where_met(
        &self,
        other: &Known,
        x: usize,
        outcome: bool,
    ) -> Result<Option<BitSet>, AllocError>
        ensures { IfOk result (λ m. option_map marked m ≡ spec.side_met (spec.at_this_end (known_of self.now) x outcome) (spec.at_this_end (known_of other.now) x outcome)) }
    {
        let here = end_of(&self.facts, self.side_at(x, outcome))?;
        let there = end_of(&other.facts, other.side_at(x, outcome))?;
        Ok(side_met(here, there))
    }

    fn pair_met(&self, other: &Known, x: usize) -> Result<Sides, AllocError>
        ensures { IfOk result (λ s. pair_of s ≡ met_pair (known_of self.now) (known_of other.now) x) }
    {
        let holds = self.side_where_met(other, x, true)?;
        let fails = self.side_where_met(other, x, false)?;
        Ok(Sides { holds, fails })
    }

    // The sides of the locals below this number.
    fn pairs_met(
        &self,
        alloc: Global,
        other: &Known,
        count: usize,
    ) -> Result<Vec<Sides>, AllocError>
        ensures { IfOk result (λ v. map pair_of v.items ≡ below (met_pair (known_of self.now) (known_of other.now)) count) }
    {
        let mut met = Vec::new(alloc);
        for x in 0..count {
            let pair = self.pair_met(other, x)?;
            met.push(pair)?;
        }
        Ok(met)
    }

    // What is known of each local past the ends of both lists.
    fn beyond_met(&self, other: &Known) -> Result<BitSet, AllocError>
        ensures { IfOk result (λ m. marked m ≡ facts_met (spec.both (marked self.now.facts) (marked self.now.beyond)) (spec.both (marked other.now.facts) (marked other.now.beyond))) }
    {
        let mut here = joined(&self.facts, &self.beyond)?;
        let there = joined(&other.facts, &other.beyond)?;
        here.meet(&there);
        Ok(here)
    }

    /// Where two paths meet.
    pub fn meet(&mut self, alloc: Global, other: &Known) -> Result<(), AllocError>
        ensures { IfOk result (λ u. known_of self.new ≡ spec.known_met (known_of self.old) (known_of other.now)) }
    {
        let count = larger(self.sides.len(), other.sides.len());
        let sides = self.pairs_met(alloc, other, count)?;
        let beyond = self.beyond_met(other)?;
        let fields = self.fields.both(alloc, &other.fields)?;
        self.facts.meet(&other.facts);
        self.sides = sides;
        self.beyond = beyond;
        self.fields = fields;
        Ok(())
    }

    // Nothing is known of the local, if it is in the set.
    fn forget_one(&mut self, alloc: Global, set: &BitSet, x: usize) -> Result<(), AllocError>
        ensures { IfOk result (λ u. known_of self.new ≡ (if marked set.now x then spec.with_local x false spec.says_nothing (known_of self.old) else known_of self.old)) }
    {
        if set.has(x) {
            self.set_silent(alloc, x, false)
        } else {
            Ok(())
        }
    }

    // Nothing is known of the locals of the set.
    fn forget(&mut self, alloc: Global, set: &BitSet) -> Result<(), AllocError>
        ensures { IfOk result (λ u. known_of self.new ≡ forgotten (marked set.now) (known_of self.old)) }
    {
        for x in 0..set.list.len() {
            self.forget_one(alloc, set, x)?;
        }
        Ok(())
    }

    /// At the head of the loop: nothing is known of the locals that it assigns.
    pub fn head(&mut self, alloc: Global, stmt: &Stmt) -> Result<(), AllocError>
        ensures { IfOk result (λ u. known_of self.new ≡ spec.known_head (view.stmt_of stmt.now) (known_of self.old)) }
    {
        let set = assigned(alloc, stmt)?;
        self.forget(alloc, &set)?;
        Ok(())
    }
}

fn result_of(body: Option<&Body>) -> Option<Ty>
    ensures { result ≡ spec.result_of (option_map (λ b. view.body b.now) body.entry) }
{
    match body {
        Some(body) => body.result,
        None => None,
    }
}
