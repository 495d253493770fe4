// Types with the numbers of classes, of which a program may have more than a core program can.

ghost use Rattle.std.specs.Prelude.{◌≡◌, option_map};
ghost use Rattle.ss_core.specs.Types.{nullable};
ghost use Rattle.ss_tables.specs.Types.{class_of, element_type};
ghost use Rattle.ss_tables_lookup.specs.Views.{type_of};

use ss_core::ClassKind;

/// A static type. A class is told by its number: 0 is `object`, 1 `int[]`, 2 `bool[]`, 3 `object[]`; the declared class at
/// place `k` has `4 + 2 k`, and its array `5 + 2 k`.
#[derive(Clone, Copy, Debug, PartialEq, Eq)]
pub enum StaticType {
    Int,
    Bool,
    Null,
    Ref { class: usize, non_null: bool },
}

/// The class of the values of a type, by its number.
pub fn class_of(ty: StaticType) -> Option<usize>
    ensures { result ≡ class_of (type_of ty) }
{
    match ty {
        StaticType::Ref { class, .. } => Some(class),
        StaticType::Int | StaticType::Bool | StaticType::Null => None,
    }
}

/// The same type with null.
pub fn nullable(ty: StaticType) -> StaticType
    ensures { type_of result ≡ nullable (type_of ty) }
{
    match ty {
        StaticType::Ref { class, .. } => StaticType::Ref {
            class,
            non_null: false,
        },
        StaticType::Int => StaticType::Int,
        StaticType::Bool => StaticType::Bool,
        StaticType::Null => StaticType::Null,
    }
}

/// The type of the elements of arrays of this class.
pub fn element_type(class: usize) -> Option<StaticType>
    ensures { option_map type_of result ≡ element_type class }
{
    let class = match ClassKind::of(class) {
        ClassKind::Object | ClassKind::Declared(_) => return None,
        ClassKind::Ints => return Some(StaticType::Int),
        ClassKind::Bools => return Some(StaticType::Bool),
        ClassKind::Objects => 0,
        ClassKind::ArrayOf(_) => class - 1,
    };
    Some(StaticType::Ref {
        class,
        non_null: false,
    })
}
