// Operations on operands that have been lifted.

ghost use Rattle.std.specs.Prelude.{◌≡◌, ◌||◌, IfOk, List, Some, false};
ghost use Rattle.std.specs.Global.{Vec};
ghost use Rattle.ss_core.specs.declared.names.Ty.{Ty};
ghost use Rattle.ss_core.specs.Tree as tree;
ghost use Rattle.ss_core.specs.View as core;
ghost use Rattle.ss_typed.specs.Tree.{ExprTree, Arguments, arguments, IsOf, AsOf, FieldOf, LengthOf};
ghost use Rattle.ss_typed.specs.View as typed;
ghost use Rattle.ss_expand_rules.specs.Calls as calls;
ghost use Rattle.ss_expand_rules.specs.Lifting as elab;
ghost use Rattle.ss_expand_rules.specs.Numbers.{plain_arguments};
ghost use Rattle.ss_expand_expressions.specs.Views.{numbers_of};
ghost use Rattle.ss_expand_expressions.specs.Sources.{stmts_of, lifted_by, valued_by, lifted_after, valued_after};
ghost use Rattle.ss_expand_expressions.specs.Operands.{IsOperand};
ghost use Rattle.ss_expand_lifting.specs.Operations.{is_and, test_of, receiver_of};

use crate::context::ElaborationContext;
use ss_core::{ClassId, Expr, FieldId, Operator, Place, Stmt, Ty};
use ss_expand_expressions::{
    Numbers, Operand, Source, any_object, as_of, field_of, is_of, keep, length_of, not_of, plain,
    valued,
};
use ss_typed::TypedExpr;
use std::alloc::{AllocError, Global};

/// Whether it is `&&`.
pub(crate) fn is_and(operator: Operator) -> bool
    ensures { result ≡ is_and operator }
{
    match operator {
        Operator::And => true,
        Operator::Or
        | Operator::Equal
        | Operator::NotEqual
        | Operator::Less
        | Operator::LessEqual
        | Operator::Greater
        | Operator::GreaterEqual
        | Operator::Add
        | Operator::Subtract
        | Operator::Multiply
        | Operator::Divide
        | Operator::Remainder => false,
    }
}

/// The test of a lazy operation at this place, whose left side is in the local x. It goes on where that holds, or where it fails.
pub(crate) fn lazy_test(
    alloc: Global,
    place: Place,
    holds: bool,
    x: usize,
) -> Result<Expr, AllocError>
    ensures { IfOk result (λ r. core.expr r ≡ test_of place holds (tree.LocalExpr place x)) }
{
    let value = Expr::Local(place, x);
    if holds {
        Ok(value)
    } else {
        not_of(alloc, place, value)
    }
}

/// `a is T` of an operand that stands before it.
pub(crate) fn operand_is(
    context: &ElaborationContext<'_>,
    place: Place,
    class: ClassId,
    operand: Operand,
    code: &mut Vec<Stmt>,
    made: &mut Vec<Ty>,
) -> Result<Source, AllocError>
    ensures { (s : elab.ElaborationContext) → (e : ExprTree) → (before : List tree.StmtTree) → (types : List Ty)
        → s.numbers ≡ numbers_of context.now.numbers.now → IsOperand s e before types code.old made.old operand
        → IfOk result (λ r. lifted_by code.new made.new r ≡ lifted_after before (elab.lifted s (IsOf place e class.0) types)) }
{
    let value = keep(context.numbers, code, made, any_object(), operand)?;
    let test = is_of(context.alloc, place, value, class)?;
    Ok(Source::Pure(test))
}

/// `a as T` of an operand that stands before it.
pub(crate) fn operand_as(
    context: &ElaborationContext<'_>,
    place: Place,
    class: ClassId,
    operand: Operand,
    code: &mut Vec<Stmt>,
    made: &mut Vec<Ty>,
) -> Result<Source, AllocError>
    ensures { (s : elab.ElaborationContext) → (e : ExprTree) → (before : List tree.StmtTree) → (types : List Ty)
        → s.numbers ≡ numbers_of context.now.numbers.now → IsOperand s e before types code.old made.old operand
        → IfOk result (λ r. lifted_by code.new made.new r ≡ lifted_after before (elab.lifted s (AsOf place e class.0) types)) }
{
    let value = keep(context.numbers, code, made, any_object(), operand)?;
    let cast = as_of(context.alloc, place, value, class)?;
    Ok(Source::Pure(cast))
}

/// `o.f` of an operand that stands before it.
pub(crate) fn operand_field(
    context: &ElaborationContext<'_>,
    place: Place,
    field: FieldId,
    operand: Operand,
    code: &mut Vec<Stmt>,
    made: &mut Vec<Ty>,
) -> Result<Source, AllocError>
    ensures { (s : elab.ElaborationContext) → (e : ExprTree) → (t : Ty) → (before : List tree.StmtTree) → (types : List Ty)
        → s.numbers ≡ numbers_of context.now.numbers.now → IsOperand s e before types code.old made.old operand
        → IfOk result (λ r. lifted_by code.new made.new r ≡ lifted_after before (elab.lifted s (FieldOf place e field.0 t) types)) }
{
    let object = keep(context.numbers, code, made, any_object(), operand)?;
    let value = field_of(context.alloc, place, object, field)?;
    Ok(Source::Pure(value))
}

/// `a.Length` of an operand that stands before it.
pub(crate) fn operand_length(
    context: &ElaborationContext<'_>,
    place: Place,
    operand: Operand,
    code: &mut Vec<Stmt>,
    made: &mut Vec<Ty>,
) -> Result<Source, AllocError>
    ensures { (s : elab.ElaborationContext) → (e : ExprTree) → (before : List tree.StmtTree) → (types : List Ty)
        → s.numbers ≡ numbers_of context.now.numbers.now → IsOperand s e before types code.old made.old operand
        → IfOk result (λ r. lifted_by code.new made.new r ≡ lifted_after before (elab.lifted s (LengthOf place e) types)) }
{
    let array = keep(context.numbers, code, made, any_object(), operand)?;
    let length = length_of(context.alloc, place, array)?;
    Ok(Source::Pure(length))
}

/// The expressions without calls in the numbers of the core program.
pub(crate) fn plain_all(
    alloc: Global,
    numbers: &Numbers,
    es: &[TypedExpr],
) -> Result<Vec<Expr>, AllocError>
    ensures { IfOk result (λ vs. core.exprs vs.items ≡ plain_arguments (numbers_of numbers.now) (arguments (typed.exprs es.now))) }
{
    let mut values = Vec::new(alloc);
    for e in es {
        let value = plain(alloc, numbers, e)?;
        values.push(value)?;
    }
    Ok(values)
}

/// Whether a receiver and the arguments are put into temporaries: where a call stands in the one or in the others.
pub(crate) fn are_kept(in_receiver: bool, in_arguments: bool) -> bool
    ensures { result ≡ (in_receiver || in_arguments) }
{
    in_receiver || in_arguments
}

/// The receiver of a call: in a temporary where a call stands in it or in the arguments, and otherwise as it is.
pub(crate) fn keep_receiver(
    numbers: &Numbers,
    in_arguments: bool,
    operand: Operand,
    code: &mut Vec<Stmt>,
    made: &mut Vec<Ty>,
) -> Result<Expr, AllocError>
    ensures { (s : elab.ElaborationContext) → (e : ExprTree) → (before : List tree.StmtTree) → (types : List Ty)
        → s.numbers ≡ numbers_of numbers.now → IsOperand s e before types code.old made.old operand
        → IfOk result (λ v. valued_by code.new made.new v ≡ valued_after before (receiver_of s in_arguments e types)) }
{
    if are_kept(operand.has_call, in_arguments) {
        let value = keep(numbers, code, made, any_object(), operand)?;
        Ok(value)
    } else {
        let value = valued(
            numbers,
            code,
            made,
            operand.place,
            operand.ty,
            operand.source,
        )?;
        Ok(value)
    }
}
