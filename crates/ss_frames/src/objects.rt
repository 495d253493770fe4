// What an object keeps.

ghost use Rattle.std.specs.Prelude.{◌≡◌, ◌≤◌, length, IfOk};
ghost use Rattle.ss_core.specs.Chain.{most_classes, all_fields};
ghost use Rattle.ss_core.specs.View as view;
ghost use Rattle.ss_store_rules.specs.Changes.{field_class};
ghost use Rattle.ss_logic.specs.Frames.{the_object, is_outside, field_kept, fields_kept, level_kept, object_kept};
ghost use Rattle.ss_terms.specs.Forms.{IsGrown};
ghost use Rattle.ss_frames.specs.Calls.{call_at, HasCall, IsTerm, IsMade, AreMade, AreNamed};

use crate::context::FrameContext;
use crate::fields::{class_of_field, declaring_classes};
use crate::marks::{Mark, Part, pick};
use crate::parts::{joined, unless};
use crate::same::{same_committed, same_reads};
use ss_core::{ClassId, Classes};
use ss_terms::{Bank, FormulaId, Symbol, field_sorts};
use std::alloc::{AllocError, Global};

// The field, which the class declares, is kept unless it is named.
fn field_kept(
    context: &FrameContext<'_>,
    b: &mut Bank,
    marks: &[Mark],
    field: (u32, ClassId),
) -> Result<FormulaId, AllocError>
    requires declared { field.1.0 ≡ field_class (view.classes context.now.classes.now) field.0 }
    requires call { HasCall b.old context.now.call.now }
    requires object { IsTerm b.old context.now.object the_object }
    requires marks { AreNamed b.old 1 context.now.call.now marks.now }
    ensures at { IfOk result (λ g. IsMade b.new g (field_kept (view.classes context.now.classes.now) (call_at b.old context.now.call.now) field.0)) }
    ensures grown { IsGrown b.old b.new }
{
    let (f, class) = field;
    let named = pick(context.alloc, context.classes, Part::Field(f, class), marks)?;
    let same = same_reads(
        context.alloc,
        b,
        Symbol::Field(f),
        context.call,
        context.object,
    )?;
    unless(context.alloc, b, &named, same)
}

// The number of a field; one that is too large counts as want of memory.
fn number(f: usize) -> Result<u32, AllocError>
    ensures { IfOk result (λ n. n ≡ f) }
{
    u32::try_from(f).map_err(|_| AllocError)
}

// The same of each field of the program.
fn fields_kept(
    context: &FrameContext<'_>,
    b: &mut Bank,
    marks: &[Mark],
    count: usize,
) -> Result<Vec<FormulaId>, AllocError>
    requires classes { length (view.classes context.now.classes.now) ≤ most_classes }
    requires call { HasCall b.old context.now.call.now }
    requires object { IsTerm b.old context.now.object the_object }
    requires marks { AreNamed b.old 1 context.now.call.now marks.now }
    ensures at { IfOk result (λ v. AreMade b.new v.items (fields_kept (view.classes context.now.classes.now) (call_at b.old context.now.call.now) 0 count)) }
    ensures grown { IsGrown b.old b.new }
{
    let declaring = declaring_classes(context.alloc, context.classes)?;
    let mut made = Vec::new(context.alloc);
    for f in 0..count {
        let f = number(f)?;
        let class = class_of_field(&declaring, context.classes, f);
        let g = field_kept(context, b, marks, (f, class))?;
        made.push(g)?;
    }
    Ok(made)
}

// The level is kept, unless it is named or the object is one of an enclosing expose.
fn level_kept(
    context: &FrameContext<'_>,
    b: &mut Bank,
    marks: &[Mark],
    outside: &[FormulaId],
) -> Result<FormulaId, AllocError>
    requires call { HasCall b.old context.now.call.now }
    requires object { IsTerm b.old context.now.object the_object }
    requires marks { AreNamed b.old 1 context.now.call.now marks.now }
    requires outside { AreMade b.old outside.now (is_outside (call_at b.old context.now.call.now)) }
    ensures at { IfOk result (λ g. IsMade b.new g (level_kept (call_at b.old context.now.call.now))) }
    ensures grown { IsGrown b.old b.new }
{
    let named = pick(context.alloc, context.classes, Part::Level, marks)?;
    let parts = joined(context.alloc, outside, &named)?;
    let same = same_reads(
        context.alloc,
        b,
        Symbol::Level,
        context.call,
        context.object,
    )?;
    unless(context.alloc, b, &parts, same)
}

// How many fields the program has.
fn field_total(alloc: Global, classes: &Classes) -> Result<usize, AllocError>
    ensures { IfOk result (λ n. n ≡ length (all_fields (view.classes classes.now))) }
{
    let sorts = field_sorts(alloc, classes)?;
    Ok(sorts.len())
}

// The object keeps all that isn't named.
pub(crate) fn object_kept(
    context: &FrameContext<'_>,
    b: &mut Bank,
    marks: &[Mark],
    outside: &[FormulaId],
) -> Result<FormulaId, AllocError>
    requires classes { length (view.classes context.now.classes.now) ≤ most_classes }
    requires call { HasCall b.old context.now.call.now }
    requires object { IsTerm b.old context.now.object the_object }
    requires marks { AreNamed b.old 1 context.now.call.now marks.now }
    requires outside { AreMade b.old outside.now (is_outside (call_at b.old context.now.call.now)) }
    ensures at { IfOk result (λ g. IsMade b.new g (object_kept (view.classes context.now.classes.now) (call_at b.old context.now.call.now))) }
    ensures grown { IsGrown b.old b.new }
{
    let count = field_total(context.alloc, context.classes)?;
    let level = level_kept(context, b, marks, outside)?;
    let committed = same_committed(context.alloc, b, context.call, context.object)?;
    let owner = same_reads(
        context.alloc,
        b,
        Symbol::Owner,
        context.call,
        context.object,
    )?;
    let fields = fields_kept(context, b, marks, count)?;
    let parts = joined(context.alloc, &[level, committed, owner], &fields)?;
    b.and(&parts)
}
