// Types without regard to null.

ghost use Rattle.std.specs.Prelude.{◌≡◌, ◌≤◌, ◌&&◌, length, slice_get};
ghost use Rattle.ss_core.specs.declared.expr.Operator.TheVariants as op;
ghost use Rattle.ss_core.specs.Chain.{is_class, below, all_fields, most_classes};
ghost use Rattle.ss_core.specs.Kinds.{is_array_number};
ghost use Rattle.ss_core.specs.View.{classes, word_tree, owners_tree};
ghost use Rattle.ss_store_rules.specs.Changes.{is_array, element_type, field_class, field_type};
ghost use Rattle.ss_store_rules.specs.Types.{class_type, where_typed, is_int, is_bool, is_reference, has_class, field_read_type, element_of, element_read_type, are_comparable, operation_type, is_word, is_owners_word};

use ss_core::{ClassId, Classes, FieldId, Operator, OwnerTest, StateWord, Ty, nullable};

pub(crate) fn where_typed(condition: bool, ty: Ty) -> Option<Ty>
    ensures { result ≡ where_typed condition ty }
{
    if condition { Some(ty) } else { None }
}

pub(crate) fn is_int(ty: Option<Ty>) -> bool
    ensures { result ≡ is_int ty }
{
    match ty {
        Some(Ty::Int) => true,
        Some(Ty::Bool | Ty::Null | Ty::Ref { .. }) | None => false,
    }
}

/// Whether it is the type of truth values.
pub fn is_bool(ty: Option<Ty>) -> bool
    ensures { result ≡ is_bool ty }
{
    match ty {
        Some(Ty::Bool) => true,
        Some(Ty::Int | Ty::Null | Ty::Ref { .. }) | None => false,
    }
}

pub(crate) fn is_reference(ty: Option<Ty>) -> bool
    ensures { result ≡ is_reference ty }
{
    match ty {
        Some(Ty::Ref { .. } | Ty::Null) => true,
        Some(Ty::Int | Ty::Bool) | None => false,
    }
}

// A class of the table.
pub(crate) fn is_class(list: &Classes, class: ClassId) -> bool
    requires { length (classes list.now) ≤ most_classes }
    ensures { result ≡ is_class (classes list.now) class.0 }
{
    usize::from(class.0) < 4 + 2 * list.list.len()
}

// A class of the table whose number is that of an array.
fn has_array_number(list: &Classes, class: ClassId) -> bool
    requires { length (classes list.now) ≤ most_classes }
    ensures { result ≡ (is_class (classes list.now) class.0 && is_array_number class.0) }
{
    is_class(list, class) && class.is_array()
}

// `int[]`, `bool[]`, `object[]`, or the array of a declared class.
pub(crate) fn is_array(list: &Classes, class: ClassId) -> bool
    requires { length (classes list.now) ≤ most_classes }
    ensures { result ≡ is_array (classes list.now) class.0 }
{
    has_array_number(list, class)
}

pub(crate) fn class_type(class: ClassId) -> Ty
    ensures { result ≡ class_type class.0 }
{
    Ty::Ref {
        class,
        non_null: false,
    }
}

// It is the type of an array.
pub(crate) fn has_length(list: &Classes, ty: Option<Ty>) -> bool
    requires { length (classes list.now) ≤ most_classes }
    ensures { result ≡ has_class (is_array (classes list.now)) ty }
{
    match ty {
        Some(Ty::Ref { class, .. }) => is_array(list, class),
        Some(Ty::Int | Ty::Bool | Ty::Null) | None => false,
    }
}

/// The type of the elements of an array of this type.
pub fn element_of(list: &Classes, ty: Option<Ty>) -> Option<Ty>
    requires { length (classes list.now) ≤ most_classes }
    ensures { result ≡ element_of (classes list.now) ty }
{
    match ty {
        Some(Ty::Ref { class, .. }) => where_typed(is_array(list, class), class.element_type()),
        Some(Ty::Int | Ty::Bool | Ty::Null) | None => None,
    }
}

pub(crate) fn element_read_type(list: &Classes, ty: Option<Ty>, index: Option<Ty>) -> Option<Ty>
    requires { length (classes list.now) ≤ most_classes }
    ensures { result ≡ element_read_type (classes list.now) ty index }
{
    if is_int(index) {
        element_of(list, ty)
    } else {
        None
    }
}

// The class of the type is this one or below it.
fn has_level(list: &Classes, ty: Option<Ty>, level: ClassId) -> bool
    ensures { result ≡ has_class (λ c. below (classes list.now) c level.0) ty }
{
    match ty {
        Some(Ty::Ref { class, .. }) => list.is_level(class, level),
        Some(Ty::Int | Ty::Bool | Ty::Null) | None => false,
    }
}

pub(crate) fn field_read_type(list: &Classes, ty: Option<Ty>, field: FieldId) -> Option<Ty>
    requires { length (classes list.now) ≤ most_classes }
    ensures { result ≡ field_read_type (classes list.now) ty (slice_get (all_fields (classes list.now)) field.0) }
{
    match list.field(field) {
        Some((class, field)) => where_typed(has_level(list, ty, class), nullable(field.ty)),
        None => None,
    }
}

/// The type of a field; a number of no field counts as that of a number.
pub fn field_type(list: &Classes, field: FieldId) -> Ty
    requires { length (classes list.now) ≤ most_classes }
    ensures { result ≡ field_type (classes list.now) field.0 }
{
    match list.field(field) {
        Some((_, field)) => field.ty,
        None => Ty::Int,
    }
}

/// The class that declares a field; a number of no field counts as a field of `object`.
pub fn field_class(list: &Classes, field: FieldId) -> ClassId
    requires { length (classes list.now) ≤ most_classes }
    ensures { result.0 ≡ field_class (classes list.now) field.0 }
{
    match list.field(field) {
        Some((class, _)) => class,
        None => ClassId(0),
    }
}

fn are_comparable(a: Option<Ty>, b: Option<Ty>) -> bool
    ensures { result ≡ are_comparable a b }
{
    is_int(a) && is_int(b) || is_bool(a) && is_bool(b) || is_reference(a) && is_reference(b)
}

fn of_bools(a: Option<Ty>, b: Option<Ty>) -> Option<Ty>
    ensures { result ≡ operation_type op.And a b }
{
    where_typed(is_bool(a) && is_bool(b), Ty::Bool)
}

fn of_ints(a: Option<Ty>, b: Option<Ty>, ty: Ty) -> Option<Ty>
    ensures { result ≡ where_typed (is_int a && is_int b) ty }
{
    where_typed(is_int(a) && is_int(b), ty)
}

pub(crate) fn operation_type(operator: Operator, a: Option<Ty>, b: Option<Ty>) -> Option<Ty>
    ensures { result ≡ operation_type operator a b }
{
    match operator {
        Operator::Or | Operator::And => of_bools(a, b),
        Operator::Equal | Operator::NotEqual => where_typed(are_comparable(a, b), Ty::Bool),
        Operator::Less | Operator::LessEqual | Operator::Greater | Operator::GreaterEqual => {
            of_ints(a, b, Ty::Bool)
        }
        Operator::Add
        | Operator::Subtract
        | Operator::Multiply
        | Operator::Divide
        | Operator::Remainder => of_ints(a, b, Ty::Int),
    }
}

// The class that the question names, if it names one, is of the table.
pub(crate) fn is_word(list: &Classes, word: StateWord) -> bool
    requires { length (classes list.now) ≤ most_classes }
    ensures { result ≡ is_word (classes list.now) (word_tree word) }
{
    match word {
        StateWord::Level(class) | StateWord::Packed(class) => is_class(list, class),
        StateWord::Consistent | StateWord::Committed | StateWord::New | StateWord::Unowned => true,
    }
}

pub(crate) fn is_owners_word(list: &Classes, test: OwnerTest) -> bool
    requires { length (classes list.now) ≤ most_classes }
    ensures { result ≡ is_owners_word (classes list.now) (owners_tree test) }
{
    match test {
        OwnerTest::Same => true,
        OwnerTest::Is(class) => is_class(list, class),
    }
}
