// The types of temporaries.

ghost use Rattle.std.specs.Prelude.{◌≡◌};
ghost use Rattle.ss_expand_rules.specs.Lifting as lifting;

use ss_core::{ClassId, Ty, nullable};
use ss_typed::class_type;

/// The type that is wanted of a reference wherever none is declared.
pub fn any_object() -> Ty
    ensures { result ≡ lifting.any_object }
{
    class_type(ClassId(0), false)
}

/// The class of a reference of this type, and `object` otherwise.
pub fn class_of_type(ty: Option<Ty>) -> ClassId
    ensures { result.0 ≡ lifting.class_of_type ty }
{
    match ty {
        Some(Ty::Ref { class, .. }) => class,
        Some(Ty::Int) | Some(Ty::Bool) | Some(Ty::Null) | None => ClassId(0),
    }
}

/// The type of a temporary for a value of this type: that of the value, and what is wanted of the literal `null`.
pub fn temporary_type(wanted: Ty, ty: Option<Ty>) -> Ty
    ensures { result ≡ lifting.temporary_type wanted ty }
{
    match ty {
        Some(Ty::Null) | None => nullable(wanted),
        Some(Ty::Int) => Ty::Int,
        Some(Ty::Bool) => Ty::Bool,
        Some(Ty::Ref { class, .. }) => class_type(class, false),
    }
}
