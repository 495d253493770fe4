// The frame condition.

ghost use Rattle.std.specs.Prelude.{◌≡◌, ◌≤◌, ◌↔◌, [], ◌∷◌, length, map, IfOk};
ghost use Rattle.ss_core.specs.Chain.{most_classes, IsWithinLimits};
ghost use Rattle.ss_core.specs.View as view;
ghost use Rattle.ss_logic.specs.Values.{Structure};
ghost use Rattle.ss_logic.specs.Formulas.{neg, True};
ghost use Rattle.ss_logic.specs.Shapes.{allocated};
ghost use Rattle.ss_logic.specs.Frames.{the_object, the_index, is_free, is_outside, objects_kept, elements_kept, others_full, kept};
ghost use Rattle.ss_logic.specs.Express.{and_of};
ghost use Rattle.ss_logic.specs.FrameMeans.{IsKept};
ghost use Rattle.ss_logic.specs.Sorted.{AreSorted};
ghost use Rattle.ss_terms.specs.Forms.{term_at, formula_at, HasFormula, IsGrown, IsBankOf};
ghost use Rattle.ss_frames.specs.Calls.{call_at, HasCall, IsTerm, IsMade, AreMade, AreNamed};

use crate::bound::{not_bound, outside};
use crate::calls::CallTerms;
use crate::context::FrameContext;
use crate::marks::{Part, marks, pick};
use crate::objects::object_kept;
use crate::parts::{joined, unless};
use crate::same::{is_full, same_elements};
use ss_core::{Classes, Core};
use ss_logic::Sort;
use ss_terms::{Bank, FormulaId, Predicate, Term, TermId};
use std::alloc::{AllocError, Global};

// An object that was allocated and isn't free keeps all that isn't named.
fn objects_kept(
    context: &FrameContext<'_>,
    b: &mut Bank,
    free: &[FormulaId],
    outside: &[FormulaId],
) -> Result<FormulaId, AllocError>
    requires bank { IsBankOf (view.classes context.now.classes.now) b.old }
    requires classes { length (view.classes context.now.classes.now) ≤ most_classes }
    requires call { HasCall b.old context.now.call.now }
    requires object { IsTerm b.old context.now.object the_object }
    requires free { AreMade b.old free.now (neg (allocated (term_at b.old context.now.call.now.before) the_object) ∷ is_free (call_at b.old context.now.call.now)) }
    requires outside { AreMade b.old outside.now (is_outside (call_at b.old context.now.call.now)) }
    ensures at { IfOk result (λ f. IsMade b.new f (objects_kept (view.classes context.now.classes.now) (call_at b.old context.now.call.now))) }
    ensures grown { IsGrown b.old b.new }
{
    let marks = marks(
        context.alloc,
        b,
        context.classes,
        1,
        context.object,
        context.call,
    )?;
    let keeps = object_kept(context, b, &marks, outside)?;
    let body = unless(context.alloc, b, free, keeps)?;
    b.forall(&[Sort::Rest], body)
}

// An array that was allocated and isn't free keeps its elements, unless they are named.
fn elements_kept(
    context: &FrameContext<'_>,
    b: &mut Bank,
    index: TermId,
    free: &[FormulaId],
) -> Result<FormulaId, AllocError>
    requires bank { IsBankOf (view.classes context.now.classes.now) b.old }
    requires call { HasCall b.old context.now.call.now }
    requires object { IsTerm b.old context.now.object the_object }
    requires index { IsTerm b.old index the_index }
    requires free { AreMade b.old free.now (neg (allocated (term_at b.old context.now.call.now.before) the_object) ∷ is_free (call_at b.old context.now.call.now)) }
    ensures at { IfOk result (λ f. IsMade b.new f (elements_kept (call_at b.old context.now.call.now))) }
    ensures grown { IsGrown b.old b.new }
{
    let marks = marks(
        context.alloc,
        b,
        context.classes,
        2,
        context.object,
        context.call,
    )?;
    let named = pick(context.alloc, context.classes, Part::Elements, &marks)?;
    let parts = joined(context.alloc, free, &named)?;
    let same = same_elements(context.alloc, b, context.call, context.object, index)?;
    let body = unless(context.alloc, b, &parts, same)?;
    b.forall(&[Sort::Rest, Sort::Whole], body)
}

// The object isn't allocated in the later store, or it was and isn't free.
fn not_changed(
    alloc: Global,
    b: &mut Bank,
    m: &CallTerms,
    object: TermId,
    free: &[FormulaId],
) -> Result<Vec<FormulaId>, AllocError>
    requires call { HasCall b.old m.now }
    requires object { IsTerm b.old object the_object }
    requires free { AreMade b.old free.now (neg (allocated (term_at b.old m.now.before) the_object) ∷ is_free (call_at b.old m.now)) }
    ensures at { IfOk result (λ v. AreMade b.new v.items (neg (allocated (term_at b.old m.now.after) the_object) ∷ and_of (allocated (term_at b.old m.now.before) the_object ∷ map neg (is_free (call_at b.old m.now))) ∷ [])) }
    ensures grown { IsGrown b.old b.new }
{
    let new = b.atom(false, Predicate::Allocated, &[m.after, object])?;
    let changed = b.or(free)?;
    let bound = b.negation(changed);
    Vec::from_slice(alloc, &[new, bound])
}

// An object that is new or free is at its full level, but for those of enclosing exposes.
fn others_full(
    alloc: Global,
    b: &mut Bank,
    m: &CallTerms,
    object: TermId,
    free: &[FormulaId],
    outside: &[FormulaId],
) -> Result<FormulaId, AllocError>
    requires call { HasCall b.old m.now }
    requires object { IsTerm b.old object the_object }
    requires free { AreMade b.old free.now (neg (allocated (term_at b.old m.now.before) the_object) ∷ is_free (call_at b.old m.now)) }
    requires outside { AreMade b.old outside.now (is_outside (call_at b.old m.now)) }
    ensures at { IfOk result (λ f. IsMade b.new f (others_full (call_at b.old m.now))) }
    ensures grown { IsGrown b.old b.new }
{
    let first = not_changed(alloc, b, m, object, free)?;
    let parts = joined(alloc, &first, outside)?;
    let full = is_full(alloc, b, m, object)?;
    let body = unless(alloc, b, &parts, full)?;
    b.forall(&[Sort::Rest], body)
}

// The three parts of the condition, over the names of an object and an index.
fn all_kept(
    alloc: Global,
    b: &mut Bank,
    classes: &Classes,
    m: &CallTerms,
    object: TermId,
    index: TermId,
) -> Result<FormulaId, AllocError>
    requires bank { IsBankOf (view.classes classes.now) b.old }
    requires classes { length (view.classes classes.now) ≤ most_classes }
    requires call { HasCall b.old m.now }
    requires object { IsTerm b.old object the_object }
    requires index { IsTerm b.old index the_index }
    ensures at { IfOk result (λ f. IsMade b.new f (kept (view.classes classes.now) (call_at b.old m.now))) }
    ensures grown { IsGrown b.old b.new }
{
    let free = not_bound(alloc, b, m, object)?;
    let outside = outside(alloc, b, m, object)?;
    let context = FrameContext {
        alloc,
        classes,
        call: m,
        object,
    };
    let objects = objects_kept(&context, b, &free, &outside)?;
    let elements = elements_kept(&context, b, index, &free)?;
    let others = others_full(alloc, b, m, object, &free, &outside)?;
    b.and(&[objects, elements, others])
}

/// The frame condition: what was allocated and is neither free nor named is the same in both stores. What is new or free is at its full
/// level, but for the objects of enclosing exposes. An error is want of memory; what the bank had before stays.
pub fn kept(
    alloc: Global,
    b: &mut Bank,
    core: &Core,
    m: &CallTerms,
) -> Result<FormulaId, AllocError>
    requires bank { IsBankOf (view.classes core.now.classes) b.old }
    requires limits { IsWithinLimits (view.classes core.now.classes) }
    requires call { HasCall b.old m.now }
    ensures at { IfOk result (λ f. HasFormula b.new f × (formula_at b.new f ≡ kept (view.classes core.now.classes) (call_at b.old m.now))) }
    ensures means { IfOk result (λ f. (s : Structure) → AreSorted (view.classes core.now.classes) (call_at b.old m.now) →
        True (view.classes core.now.classes) s [] (formula_at b.new f) ↔ IsKept (view.classes core.now.classes) s (call_at b.old m.now)) }
    ensures grown { IsGrown b.old b.new }
{
    let object = b.term(Term::Bound(0))?;
    let index = b.term(Term::Bound(1))?;
    all_kept(alloc, b, &core.classes, m, object, index)
}
