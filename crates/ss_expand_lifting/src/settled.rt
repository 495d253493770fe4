// Left sides whose parts are evaluated once, in temporaries.

ghost use Rattle.std.specs.Prelude.{◌≡◌, IfOk, List, true};
ghost use Rattle.ss_core.specs.declared.names.Ty.{Ty};
ghost use Rattle.ss_core.specs.Tree as core;
ghost use Rattle.ss_typed.specs.Tree as tree;
ghost use Rattle.ss_typed.specs.Tree.{ExprTree};
ghost use Rattle.ss_typed.specs.View as typed;
ghost use Rattle.ss_typed.specs.Shapes as shapes;
ghost use Rattle.ss_expand_rules.specs.Lifting as lifting;
ghost use Rattle.ss_expand_rules.specs.Simple as elab;
ghost use Rattle.ss_typed.specs.Parts.{step_after, stepped};
ghost use Rattle.ss_expand_expressions.specs.Sources.{stmts_of};
ghost use Rattle.ss_expand_expressions.specs.Operands.{IsOperand};
ghost use Rattle.ss_expand_lifting.specs.Contexts.{context_of};
ghost use Rattle.ss_expand_lifting.specs.Lefts.{part_tree};
ghost use Rattle.ss_expand_lifting.specs.Made.{settled_by, settled_after, settled_target};

use crate::code::Code;
use crate::context::ElaborationContext;
use crate::lefts::{Left, Part, left_of, part_operand};
use crate::lifting::lift_operand;
use ss_core::{ClassId, FieldId, Place, Ty};
use ss_expand_expressions::{Operand, any_object, class_of_type, in_local, next, temporary_type};
use ss_typed::{TypedExpr, TypedStep, is_this, place_of, type_of};
use std::alloc::{AllocError, Global};

/// `this`
pub(crate) fn this_of(place: Place, class: ClassId) -> TypedExpr
    ensures { typed.expr result ≡ tree.ThisOf place class.0 }
{
    TypedExpr::This(place, class)
}

// A local.
fn local_of(place: Place, x: usize, ty: Ty) -> TypedExpr
    ensures { typed.expr result ≡ tree.LocalOf place x ty }
{
    TypedExpr::Local(place, x, ty)
}

// `this`, made anew.
fn this_again(e: &TypedExpr) -> TypedExpr
    ensures { shapes.is_this (typed.expr e.now) ≡ true → typed.expr result ≡ typed.expr e.now }
{
    this_of(place_of(e), class_of_type(type_of(e)))
}

/// The expression in a box.
pub(crate) fn boxed(alloc: Global, e: TypedExpr) -> Result<Box<TypedExpr>, AllocError>
    ensures { IfOk result (λ r. typed.expr r.value ≡ typed.expr e) }
{
    Ok(Box::new(alloc, e)?)
}

// A path with these steps.
fn path_with(place: Place, first: Box<TypedExpr>, steps: Vec<TypedStep>) -> TypedExpr
    ensures { typed.expr result ≡ stepped place (typed.expr first.value) steps.items }
{
    TypedExpr::Path(place, first, steps)
}

// An expression with one step after it.
fn with_step(
    alloc: Global,
    place: Place,
    e: Box<TypedExpr>,
    step: TypedStep,
) -> Result<Box<TypedExpr>, AllocError>
    ensures { IfOk result (λ r. typed.expr r.value ≡ step_after step place (typed.expr e.value)) }
{
    let mut steps = Vec::new(alloc);
    steps.push(step)?;
    Ok(boxed(alloc, path_with(place, e, steps))?)
}

/// `o.f`
pub(crate) fn field_path(
    alloc: Global,
    place: Place,
    object: Box<TypedExpr>,
    field: FieldId,
    ty: Ty,
) -> Result<Box<TypedExpr>, AllocError>
    ensures { IfOk result (λ r. typed.expr r.value ≡ tree.FieldOf place (typed.expr object.value) field.0 ty) }
{
    with_step(alloc, place, object, TypedStep::Field(field, ty))
}

// `a[i]`
fn element_path(
    alloc: Global,
    place: Place,
    array: Box<TypedExpr>,
    index: Box<TypedExpr>,
) -> Result<Box<TypedExpr>, AllocError>
    ensures { IfOk result (λ r. typed.expr r.value ≡ tree.ElementOf place (typed.expr array.value) (typed.expr index.value)) }
{
    let step = TypedStep::Element(Box::into_inner(index));
    with_step(alloc, place, array, step)
}

// Puts what has been lifted into a temporary, which stands for it from then on.
fn settle_operand(
    context: &ElaborationContext<'_>,
    operand: Operand,
    code: &mut Code,
    made: &mut Vec<Ty>,
) -> Result<Box<TypedExpr>, AllocError>
    ensures { (e : ExprTree) → (before : List core.StmtTree) → (kinds : List Ty)
        → IsOperand (context_of context.now) e before kinds code.old.statements made.old operand
        → IfOk result (λ t. settled_by code.new made.new (typed.expr t.value) ≡ settled_after before (elab.settle_lifted (context_of context.now) e (lifting.right_side (context_of context.now) e kinds))) }
{
    let x = next(context.numbers, made)?;
    let ty = temporary_type(any_object(), operand.ty);
    let place = operand.place;
    in_local(&mut code.statements, made, place, x, ty, operand.source)?;
    let settled = local_of(place, x, ty);
    let kept = boxed(context.alloc, settled)?;
    Ok(kept)
}

// An index, or an object without steps, in a temporary; `this` stays.
fn settle_whole(
    context: &ElaborationContext<'_>,
    e: &TypedExpr,
    code: &mut Code,
    made: &mut Vec<Ty>,
) -> Result<Box<TypedExpr>, AllocError>
    ensures { IfOk result (λ t. settled_by code.new made.new (typed.expr t.value)
        ≡ settled_after (stmts_of code.old.statements) (elab.settle_part (context_of context.now) (typed.expr e.now) made.old.items)) }
{
    if is_this(e) {
        let this = this_again(e);
        let kept = boxed(context.alloc, this)?;
        return Ok(kept);
    }
    let operand = lift_operand(context, e, code, made)?;
    let settled = settle_operand(context, operand, code, made)?;
    Ok(settled)
}

// An object part in a temporary; `this` stays.
fn settle_part(
    context: &ElaborationContext<'_>,
    part: Part<'_>,
    code: &mut Code,
    made: &mut Vec<Ty>,
) -> Result<Box<TypedExpr>, AllocError>
    ensures { IfOk result (λ t. settled_by code.new made.new (typed.expr t.value)
        ≡ settled_after (stmts_of code.old.statements) (elab.settle_part (context_of context.now) (part_tree part.entry) made.old.items)) }
{
    if part.steps.is_empty() {
        let settled = settle_whole(context, part.first, code, made)?;
        return Ok(settled);
    }
    let operand = part_operand(context, part, code, made)?;
    let settled = settle_operand(context, operand, code, made)?;
    Ok(settled)
}

/// The object and index parts of a left side in temporaries, from the left, and the left side of these. None where it stays as
/// it is.
pub(crate) fn settle(
    context: &ElaborationContext<'_>,
    target: &TypedExpr,
    code: &mut Code,
    made: &mut Vec<Ty>,
) -> Result<Option<Box<TypedExpr>>, AllocError>
    ensures { IfOk result (λ t. settled_by code.new made.new (settled_target (typed.expr target.now) t)
        ≡ settled_after (stmts_of code.old.statements) (elab.settle (context_of context.now) (typed.expr target.now) made.old.items)) }
{
    match left_of(target) {
        Left::Field(place, object, field, ty) => {
            let object = settle_part(context, object, code, made)?;
            let settled = field_path(context.alloc, place, object, field, ty)?;
            Ok(Some(settled))
        }
        Left::Element(place, array, index) => {
            let array = settle_part(context, array, code, made)?;
            let index = settle_whole(context, index, code, made)?;
            let settled = element_path(context.alloc, place, array, index)?;
            Ok(Some(settled))
        }
        Left::Local(..) | Left::Other => Ok(None),
    }
}
