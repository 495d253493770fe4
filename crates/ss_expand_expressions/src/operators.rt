// What the operators of assignments stand for, and what a local begins with.

ghost use Rattle.std.specs.Prelude.{◌≡◌};
ghost use Rattle.ss_core.specs.View as core;
ghost use Rattle.ss_expand_rules.specs.Simple as simple;
ghost use Rattle.ss_expand_expressions.specs.Operators.{operator_of};

use ss_ast::{AssignOperator, StepOperator};
use ss_core::{Expr, Operator, Place, Ty};

/// The operation of a compound assignment; a plain one has none.
pub fn compound(operator: AssignOperator) -> Option<Operator>
    ensures { result ≡ operator_of operator }
{
    match operator {
        AssignOperator::Set => None,
        AssignOperator::Add => Some(Operator::Add),
        AssignOperator::Subtract => Some(Operator::Subtract),
        AssignOperator::Multiply => Some(Operator::Multiply),
    }
}

/// The operation of a step.
pub fn step_operator(operator: StepOperator) -> Operator
    ensures { result ≡ simple.step_operator operator }
{
    match operator {
        StepOperator::Up => Operator::Add,
        StepOperator::Down => Operator::Subtract,
    }
}

/// What a local of this type begins with: 0, false or null.
pub fn default_of(place: Place, ty: Ty) -> Expr
    ensures { core.expr result ≡ simple.default_of place ty }
{
    match ty {
        Ty::Int => Expr::Int(place, 0),
        Ty::Bool => Expr::Bool(place, false),
        Ty::Null | Ty::Ref { .. } => Expr::Null(place),
    }
}
