// Assignments.

ghost use Rattle.std.specs.Prelude.{◌≡◌, ◌++◌, ◌∷◌, [], IfOk, OnOk, List};
ghost use Rattle.ss_ast.specs.declared.stmt.AssignOperator.TheVariants as operator;
ghost use Rattle.ss_core.specs.declared.names.Ty.{Ty};
ghost use Rattle.ss_core.specs.Tree as core;
ghost use Rattle.ss_core.specs.View as view;
ghost use Rattle.ss_typed.specs.Tree as tree;
ghost use Rattle.ss_typed.specs.Tree.{ExprTree};
ghost use Rattle.ss_typed.specs.View as typed;
ghost use Rattle.ss_typed.specs.Shapes as shapes;
ghost use Rattle.ss_expand_rules.specs.Code.{after};
ghost use Rattle.ss_expand_rules.specs.Lifting as lifting;
ghost use Rattle.ss_expand_rules.specs.Program as program;
ghost use Rattle.ss_expand_rules.specs.Simple as elab;
ghost use Rattle.ss_expand_expressions.specs.Sources.{stmts_of, source_of, lifted_by, lifted_after};
ghost use Rattle.ss_expand_expressions.specs.Operands.{IsOperand};
ghost use Rattle.ss_expand_lifting.specs.Contexts.{context_of};
ghost use Rattle.ss_expand_lifting.specs.Lefts.{IsLeft};
ghost use Rattle.ss_expand_lifting.specs.Made.{coded_by};

use crate::code::Code;
use crate::context::ElaborationContext;
use crate::lefts::{Left, left_of, plain_part};
use crate::lifting::{PlacedOperator, lift_operand, lift_operation};
use crate::operations::are_kept;
use crate::settled::{boxed, field_path, settle, this_of};
use ss_ast::{AssignOperator, StepOperator};
use ss_core::{Expr, FieldId, Operator, Place, Stmt, Ty};
use ss_expand_bodies::field_at;
use ss_expand_expressions::{
    Operand, Source, binary, has_call, is_lazy_operator, plain, put, step_operator, valued,
};
use ss_typed::{TypedExpr, operation_type, place_of};
use std::alloc::AllocError;

// Adds the write of a field, with its mark and the class that declares it.
fn add_field_write(
    context: &ElaborationContext<'_>,
    place: Place,
    object: Expr,
    field: FieldId,
    value: Expr,
    code: &mut Code,
) -> Result<(), AllocError>
    ensures { OnOk result (stmts_of code.new.statements ≡ stmts_of code.old.statements
        ++ elab.write_of place (view.expr object) field.0 (program.field_at (typed.typed context.now.program.now) field.0) (view.expr value)) }
{
    match field_at(context.program, field) {
        Some((class, declared)) => code.add(Stmt::Write {
            place,
            object,
            field,
            mark: declared.mark,
            class,
            value,
        }),
        None => Ok(()),
    }
}

// Adds the write of an element.
fn add_element_write(
    place: Place,
    array: Expr,
    index: Expr,
    value: Expr,
    code: &mut Code,
) -> Result<(), AllocError>
    ensures { OnOk result (stmts_of code.new.statements ≡ stmts_of code.old.statements
        ++ core.WriteElementStmt place (view.expr array) (view.expr index) (view.expr value) ∷ []) }
{
    code.add(Stmt::WriteElement(place, array, index, value))
}

// Adds the write of a field or an element whose object and index parts stay as they are.
fn add_write(
    context: &ElaborationContext<'_>,
    left: Left<'_>,
    value: Expr,
    code: &mut Code,
) -> Result<(), AllocError>
    ensures { (target : ExprTree) → IsLeft target left.entry
        → OnOk result (stmts_of code.new.statements ≡ stmts_of code.old.statements ++ elab.write (context_of context.now) target (view.expr value)) }
{
    let numbers = context.numbers;
    match left {
        Left::Field(place, object, field, _) => {
            let object = plain_part(context.alloc, numbers, object)?;
            add_field_write(context, place, object, field, value, code)?;
            Ok(())
        }
        Left::Element(place, array, index) => {
            let array = plain_part(context.alloc, numbers, array)?;
            let index = plain(context.alloc, numbers, index)?;
            add_element_write(place, array, index, value, code)?;
            Ok(())
        }
        Left::Local(..) => Ok(()),
        Left::Other => Ok(()),
    }
}

/// Adds the statement that puts what has been lifted into a local.
pub(crate) fn add_put(
    place: Place,
    x: usize,
    source: Source,
    code: &mut Code,
) -> Result<(), AllocError>
    ensures { OnOk result (stmts_of code.new.statements ≡ stmts_of code.old.statements ++ lifting.put place x (source_of source) ∷ []) }
{
    code.add(put(place, x, source))
}

// Adds the write of what has been lifted to a left side that is no local.
fn assign_value(
    context: &ElaborationContext<'_>,
    left: Left<'_>,
    right: Operand,
    code: &mut Code,
    made: &mut Vec<Ty>,
) -> Result<(), AllocError>
    ensures { (target : ExprTree) → (e : ExprTree) → (before : List core.StmtTree) → (kinds : List Ty)
        → IsLeft target left.entry → IsOperand (context_of context.now) e before kinds code.old.statements made.old right
        → OnOk result (coded_by code.new made.new ≡ after before (elab.write_value (context_of context.now) target (lifting.value (context_of context.now) e kinds))) }
{
    let before = &mut code.statements;
    let value = valued(
        context.numbers,
        before,
        made,
        right.place,
        right.ty,
        right.source,
    )?;
    add_write(context, left, value, code)?;
    Ok(())
}

// Adds what assigns the right side, which has been lifted, to a left side whose parts are settled.
fn assign_operand(
    context: &ElaborationContext<'_>,
    target: &TypedExpr,
    right: Operand,
    code: &mut Code,
    made: &mut Vec<Ty>,
) -> Result<(), AllocError>
    ensures { (e : ExprTree) → (before : List core.StmtTree) → (kinds : List Ty)
        → IsOperand (context_of context.now) e before kinds code.old.statements made.old right
        → OnOk result (coded_by code.new made.new ≡ after before (elab.assign_settled (context_of context.now) (typed.expr target.now) e kinds)) }
{
    let left = left_of(target);
    match left {
        Left::Local(place, x, _) => {
            let number = context.numbers.number(x);
            add_put(place, number, right.source, code)?;
            Ok(())
        }
        _ => {
            assign_value(context, left, right, code, made)?;
            Ok(())
        }
    }
}

// Adds what assigns the right side to a left side whose parts are settled.
fn assign_settled(
    context: &ElaborationContext<'_>,
    target: &TypedExpr,
    e: &TypedExpr,
    code: &mut Code,
    made: &mut Vec<Ty>,
) -> Result<(), AllocError>
    ensures { OnOk result (coded_by code.new made.new
        ≡ after (stmts_of code.old.statements) (elab.assign_settled (context_of context.now) (typed.expr target.now) (typed.expr e.now) made.old.items)) }
{
    let right = lift_operand(context, e, code, made)?;
    assign_operand(context, target, right, code, made)?;
    Ok(())
}

// Adds what assigns the right side, where the parts of the left side are evaluated before it.
fn assign_after(
    context: &ElaborationContext<'_>,
    target: &TypedExpr,
    e: &TypedExpr,
    code: &mut Code,
    made: &mut Vec<Ty>,
) -> Result<(), AllocError>
    ensures { OnOk result (coded_by code.new made.new
        ≡ after (stmts_of code.old.statements) (elab.assign_after (context_of context.now) (typed.expr e.now) (elab.settle (context_of context.now) (typed.expr target.now) made.old.items))) }
{
    let kept = settle(context, target, code, made)?;
    match kept {
        Some(settled) => {
            assign_settled(context, &settled, e, code, made)?;
            Ok(())
        }
        None => {
            assign_settled(context, target, e, code, made)?;
            Ok(())
        }
    }
}

// Adds `target = e`.
fn assign(
    context: &ElaborationContext<'_>,
    target: &TypedExpr,
    e: &TypedExpr,
    code: &mut Code,
    made: &mut Vec<Ty>,
) -> Result<(), AllocError>
    ensures { OnOk result (coded_by code.new made.new
        ≡ after (stmts_of code.old.statements) (elab.assign (context_of context.now) (typed.expr target.now) (typed.expr e.now) made.old.items)) }
{
    if are_kept(has_call(target), has_call(e)) {
        assign_after(context, target, e, code, made)?;
        Ok(())
    } else {
        assign_settled(context, target, e, code, made)?;
        Ok(())
    }
}

// An operation on an operand that stands before it, as the right side of an assignment.
fn operation_on(
    context: &ElaborationContext<'_>,
    operator: Operator,
    operand: Operand,
    e: &TypedExpr,
    code: &mut Code,
    made: &mut Vec<Ty>,
) -> Result<Source, AllocError>
    ensures { (t : ExprTree) → (before : List core.StmtTree) → (kinds : List Ty)
        → IsOperand (context_of context.now) t before kinds code.old.statements made.old operand
        → IfOk result (λ r. lifted_by code.new.statements made.new r
        ≡ lifted_after before (lifting.right_side (context_of context.now) (tree.BinaryOf operand.place operator t (typed.expr e.now)) kinds)) }
{
    let place = operand.place;
    if are_kept(operand.has_call, has_call(e)) {
        let placed = PlacedOperator { place, operator };
        let source = lift_operation(context, placed, e, operand, code, made)?;
        Ok(source)
    } else {
        let before = &mut code.statements;
        let left = valued(
            context.numbers,
            before,
            made,
            place,
            operand.ty,
            operand.source,
        )?;
        let right = plain(context.alloc, context.numbers, e)?;
        let value = binary(context.alloc, place, operator, left, right)?;
        Ok(Source::Pure(value))
    }
}

// Adds `target = target op e` to a left side whose parts are settled.
fn update_settled(
    context: &ElaborationContext<'_>,
    operator: Operator,
    target: &TypedExpr,
    e: &TypedExpr,
    code: &mut Code,
    made: &mut Vec<Ty>,
) -> Result<(), AllocError>
    ensures { OnOk result (coded_by code.new made.new
        ≡ after (stmts_of code.old.statements) (elab.assign_settled (context_of context.now) (typed.expr target.now)
        (tree.BinaryOf (shapes.place_of (typed.expr target.now)) operator (typed.expr target.now) (typed.expr e.now)) made.old.items)) }
{
    let read = lift_operand(context, target, code, made)?;
    let place = read.place;
    let calls = are_kept(read.has_call, has_call(e));
    let source = operation_on(context, operator, read, e, code, made)?;
    let right = Operand {
        source,
        place,
        ty: Some(operation_type(operator)),
        has_call: calls,
        is_lazy: is_lazy_operator(operator),
    };
    assign_operand(context, target, right, code, made)?;
    Ok(())
}

// Adds `target op= e`, with the parts of the left side evaluated once.
fn update(
    context: &ElaborationContext<'_>,
    operator: Operator,
    target: &TypedExpr,
    e: &TypedExpr,
    code: &mut Code,
    made: &mut Vec<Ty>,
) -> Result<(), AllocError>
    ensures { OnOk result (coded_by code.new made.new
        ≡ after (stmts_of code.old.statements) (elab.update (context_of context.now) operator (typed.expr target.now) (typed.expr e.now) made.old.items)) }
{
    let kept = settle(context, target, code, made)?;
    match kept {
        Some(settled) => {
            update_settled(context, operator, &settled, e, code, made)?;
            Ok(())
        }
        None => {
            update_settled(context, operator, target, e, code, made)?;
            Ok(())
        }
    }
}

/// Adds a plain or a compound assignment.
pub(crate) fn assignment(
    context: &ElaborationContext<'_>,
    target: &TypedExpr,
    operator: AssignOperator,
    e: &TypedExpr,
    code: &mut Code,
    made: &mut Vec<Ty>,
) -> Result<(), AllocError>
    ensures { OnOk result (coded_by code.new made.new
        ≡ after (stmts_of code.old.statements) (elab.assignment (context_of context.now) (typed.expr target.now) operator (typed.expr e.now) made.old.items)) }
{
    match operator {
        AssignOperator::Set => assign(context, target, e, code, made),
        AssignOperator::Add => update(context, Operator::Add, target, e, code, made),
        AssignOperator::Subtract => { update(context, Operator::Subtract, target, e, code, made) }
        AssignOperator::Multiply => { update(context, Operator::Multiply, target, e, code, made) }
    }
}

/// Adds `p++` or `p--`.
pub(crate) fn one_more(
    context: &ElaborationContext<'_>,
    target: &TypedExpr,
    operator: StepOperator,
    code: &mut Code,
    made: &mut Vec<Ty>,
) -> Result<(), AllocError>
    ensures { OnOk result (coded_by code.new made.new
        ≡ after (stmts_of code.old.statements) (elab.one_more (context_of context.now) (typed.expr target.now) operator made.old.items)) }
{
    let one = TypedExpr::Int(place_of(target), 1);
    update(context, step_operator(operator), target, &one, code, made)?;
    Ok(())
}

/// A field of `this` at its place.
#[derive(Clone, Copy)]
pub struct OwnField {
    pub place: Place,
    pub field: FieldId,
    pub ty: Ty,
}

/// Adds `this.f = e` at the place of the field.
pub fn assign_field(
    context: &ElaborationContext<'_>,
    own: OwnField,
    e: &TypedExpr,
    code: &mut Code,
    made: &mut Vec<Ty>,
) -> Result<(), AllocError>
    ensures { OnOk result (coded_by code.new made.new
        ≡ after (stmts_of code.old.statements) (elab.simple (context_of context.now)
        (tree.AssignOf (tree.FieldOf own.place (tree.ThisOf own.place context.now.body.now.class.0) own.field.0 own.ty) operator.Set (typed.expr e.now)) made.old.items)) }
{
    let OwnField { place, field, ty } = own;
    let this = boxed(context.alloc, this_of(place, context.body.class))?;
    let target = field_path(context.alloc, place, this, field, ty)?;
    assign(context, &target, e, code, made)?;
    Ok(())
}
