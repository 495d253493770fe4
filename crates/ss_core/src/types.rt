// What a type says of its values.

ghost use Rattle.std.specs.Prelude.{◌≡◌};
ghost use Rattle.ss_core.specs.Types.{is_non_null, nullable, is_class_type, is_non_null_type};

use crate::names::Ty;

/// Whether the type is one of references without null (OOPSLA 2003).
pub fn is_non_null(ty: Ty) -> bool
    ensures { result ≡ is_non_null ty }
{
    match ty {
        Ty::Int | Ty::Bool | Ty::Null => false,
        Ty::Ref { non_null, .. } => non_null,
    }
}

/// The type without its `!`: one of references that may be null.
pub fn nullable(ty: Ty) -> Ty
    ensures { result ≡ nullable ty }
{
    match ty {
        Ty::Int => Ty::Int,
        Ty::Bool => Ty::Bool,
        Ty::Null => Ty::Null,
        Ty::Ref { class, .. } => Ty::Ref {
            class,
            non_null: false,
        },
    }
}

/// Whether the type is one of objects or of arrays.
pub fn is_class_type(ty: Ty) -> bool
    ensures { result ≡ is_class_type ty }
{
    match ty {
        Ty::Int | Ty::Bool | Ty::Null => false,
        Ty::Ref { .. } => true,
    }
}

/// Whether there is a type, and it is one of references without null.
pub fn is_non_null_type(ty: Option<Ty>) -> bool
    ensures { result ≡ is_non_null_type ty }
{
    match ty {
        Some(ty) => is_non_null(ty),
        None => false,
    }
}
