// The types of classes, elements and operations.

ghost use Rattle.std.specs.Prelude.{◌≡◌, Some};
ghost use Rattle.ss_typed.specs.Types.{class_type, element_of, operation_type};

use ss_core::{ClassId, Operator, Ty};

/// The type of a class, with or without null.
pub fn class_type(class: ClassId, non_null: bool) -> Ty
    ensures { result ≡ class_type class.0 non_null }
{
    Ty::Ref { class, non_null }
}

fn element_in(ty: Ty) -> Option<Ty>
    ensures { result ≡ element_of (Some ty) }
{
    match ty {
        Ty::Ref { class, .. } => Some(class.element_type()),
        Ty::Int | Ty::Bool | Ty::Null => None,
    }
}

/// The type of the elements, where this is the type of an array.
pub fn element_of(ty: Option<Ty>) -> Option<Ty>
    ensures { result ≡ element_of ty }
{
    match ty {
        Some(ty) => element_in(ty),
        None => None,
    }
}

/// What an operation gives.
pub fn operation_type(operator: Operator) -> Ty
    ensures { result ≡ operation_type operator }
{
    match operator {
        Operator::Or
        | Operator::And
        | Operator::Equal
        | Operator::NotEqual
        | Operator::Less
        | Operator::LessEqual
        | Operator::Greater
        | Operator::GreaterEqual => Ty::Bool,
        Operator::Add
        | Operator::Subtract
        | Operator::Multiply
        | Operator::Divide
        | Operator::Remainder => Ty::Int,
    }
}
