// The static types of expressions.

ghost use Rattle.std.specs.Prelude.{◌≡◌, Some};
ghost use Rattle.ss_core.specs.declared.names.Place.{Place};
ghost use Rattle.ss_typed.specs.Tree.{ExprTree};
ghost use Rattle.ss_typed.specs.View.{expr};
ghost use Rattle.ss_typed.specs.Types as types;
ghost use Rattle.ss_typed.specs.Parts.{link_after, step_after, stepped};

use crate::expr::{TypedExpr, TypedLink, TypedStep};
use crate::types::{class_type, element_of, operation_type};
use ss_core::Ty;

/// The type of an operand with this link after it.
pub fn link_type(link: &TypedLink) -> Ty
    ensures { (p : Place) → (before : ExprTree) → types.type_of (link_after link.now p before) ≡ Some result }
{
    match link {
        TypedLink::Operation(operator, _) => operation_type(*operator),
        TypedLink::Is(_) => Ty::Bool,
        TypedLink::As(class) => class_type(*class, false),
    }
}

/// The type of what is of this type with this step after it.
pub fn step_type(before: Option<Ty>, step: &TypedStep) -> Option<Ty>
    ensures { (p : Place) → (e : ExprTree) → types.type_of e ≡ before → types.type_of (step_after step.now p e) ≡ result }
{
    match step {
        TypedStep::Field(_, ty) => Some(*ty),
        TypedStep::Element(_) => element_of(before),
        TypedStep::Length => Some(Ty::Int),
        TypedStep::Call(_, ty, _) => *ty,
    }
}

/// The type of a path that begins with what is of this type.
pub fn path_type(first: Option<Ty>, steps: &[TypedStep]) -> Option<Ty>
    ensures { (p : Place) → (e : ExprTree) → types.type_of e ≡ first → types.type_of (stepped p e steps.now) ≡ result }
{
    let mut ty = first;
    for step in steps {
        ty = step_type(ty, step);
    }
    ty
}

/// The static type, which a call of a method without a result has not.
pub fn type_of(e: &TypedExpr) -> Option<Ty>
    ensures { result ≡ types.type_of (expr e.now) }
{
    match e {
        TypedExpr::Int(..) | TypedExpr::Bound(..) | TypedExpr::Negate(..) => Some(Ty::Int),
        TypedExpr::Bool(..)
        | TypedExpr::Iff(..)
        | TypedExpr::Implies(..)
        | TypedExpr::Not(..)
        | TypedExpr::Quantified(..)
        | TypedExpr::State(..)
        | TypedExpr::Owners(..) => Some(Ty::Bool),
        TypedExpr::Null(_) => Some(Ty::Null),
        TypedExpr::This(_, class) => Some(class_type(*class, true)),
        TypedExpr::Local(_, _, ty) => Some(*ty),
        TypedExpr::Result(_, ty) => *ty,
        TypedExpr::Chain(_, first, links) => match links.last() {
            Some(link) => Some(link_type(link)),
            None => type_of(first),
        },
        TypedExpr::Cast(_, class, non_null, _) => Some(class_type(*class, *non_null)),
        TypedExpr::Path(_, first, steps) => path_type(type_of(first), steps),
        TypedExpr::Old(_, e) => type_of(e),
        TypedExpr::New(_, class, _) => Some(class_type(*class, true)),
        TypedExpr::NewArray(_, class, _) => Some(class_type(*class, true)),
        TypedExpr::Static(_, _, ty, _) => *ty,
        TypedExpr::Base(_, _, ty, _) => *ty,
    }
}
