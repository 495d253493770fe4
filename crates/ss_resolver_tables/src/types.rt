// The numbers of classes, and types.

ghost use Rattle.std.specs.Prelude.{◌≡◌, ◌<◌, IfSome, option_map, unwrap_or, true};
ghost use Rattle.ss_core.specs.Chain.{most_classes};
ghost use Rattle.ss_ast.specs.Expressions.{type_name_tree, type_tree};
ghost use Rattle.ss_tables.specs.Classes.{class_named, class_number, array_number};
ghost use Rattle.ss_tables.specs.Types.{reference, named_type, array_type, written_type};
ghost use Rattle.ss_tables.specs.Statics.{result_type};
ghost use Rattle.ss_tables_lookup.specs.Classes.{trees};
ghost use Rattle.ss_resolver_rules.specs.Numbers.{number_or_object, class_id, type_id, class_in, written_class, array_class};
ghost use Rattle.ss_resolver_tables.specs.Limits.{HasFewClasses};

use ss_ast::{TypeName, TypeRef};
use ss_core::{ClassId, Ty};
use ss_tables_lookup::Tables;

/// The number of the declared class at a place.
pub fn class_number(class: usize) -> ClassId
    requires { class < most_classes }
    ensures { result.0 ≡ class_number class }
{
    ClassId((4 + 2 * class) as u16)
}

/// The number of its arrays.
fn array_number(class: usize) -> ClassId
    requires { class < most_classes }
    ensures { result.0 ≡ array_number class }
{
    ClassId((5 + 2 * class) as u16)
}

/// The number of a declared class, or of `object`.
pub fn number_or_object(class: Option<usize>) -> ClassId
    requires { IfSome class (λ k. k < most_classes) }
    ensures { result.0 ≡ number_or_object class }
{
    match class {
        Some(class) => class_number(class),
        None => ClassId(0),
    }
}

/// The class of this name.
pub fn class_id(tables: &Tables<'_>, name: &str) -> ClassId
    requires { HasFewClasses (trees tables.now) }
    ensures { result.0 ≡ class_id (trees tables.now) name.now }
{
    match tables.class_named(name) {
        Some(class) => class_number(class),
        None => ClassId(0),
    }
}

fn class_type(tables: &Tables<'_>, non_null: bool, name: &str) -> Option<Ty>
    requires { HasFewClasses (trees tables.now) }
    ensures { result ≡ option_map (λ k. reference non_null (class_number k)) (class_named (trees tables.now) name.now) }
{
    match tables.class_named(name) {
        Some(class) => Some(Ty::Ref {
            class: class_number(class),
            non_null,
        }),
        None => None,
    }
}

fn class_array_type(tables: &Tables<'_>, non_null: bool, name: &str) -> Option<Ty>
    requires { HasFewClasses (trees tables.now) }
    ensures { result ≡ option_map (λ k. reference non_null (array_number k)) (class_named (trees tables.now) name.now) }
{
    match tables.class_named(name) {
        Some(class) => Some(Ty::Ref {
            class: array_number(class),
            non_null,
        }),
        None => None,
    }
}

fn named_type(tables: &Tables<'_>, non_null: bool, name: &TypeName) -> Option<Ty>
    requires { HasFewClasses (trees tables.now) }
    ensures { result ≡ named_type (trees tables.now) non_null (type_name_tree name.now) }
{
    match name {
        TypeName::Int => Some(Ty::Int),
        TypeName::Bool => Some(Ty::Bool),
        TypeName::Object => Some(Ty::Ref {
            class: ClassId(0),
            non_null,
        }),
        TypeName::Class(name) => class_type(tables, non_null, name.as_str()),
    }
}

fn array_type(tables: &Tables<'_>, non_null: bool, name: &TypeName) -> Option<Ty>
    requires { HasFewClasses (trees tables.now) }
    ensures { result ≡ array_type (trees tables.now) non_null (type_name_tree name.now) }
{
    match name {
        TypeName::Int => Some(Ty::Ref {
            class: ClassId(1),
            non_null,
        }),
        TypeName::Bool => Some(Ty::Ref {
            class: ClassId(2),
            non_null,
        }),
        TypeName::Object => Some(Ty::Ref {
            class: ClassId(3),
            non_null,
        }),
        TypeName::Class(name) => class_array_type(tables, non_null, name.as_str()),
    }
}

/// The type that a written type means, where its class is one of the program.
pub fn written_type(tables: &Tables<'_>, ty: &TypeRef) -> Option<Ty>
    requires { HasFewClasses (trees tables.now) }
    ensures { result ≡ written_type (trees tables.now) (type_tree ty.now) }
{
    if ty.is_array {
        array_type(tables, ty.non_null, &ty.name)
    } else {
        named_type(tables, ty.non_null, &ty.name)
    }
}

/// The type that is written.
pub fn type_id(tables: &Tables<'_>, ty: &TypeRef) -> Ty
    requires { HasFewClasses (trees tables.now) }
    ensures { result ≡ type_id (trees tables.now) (type_tree ty.now) }
{
    match written_type(tables, ty) {
        Some(ty) => ty,
        None => Ty::Null,
    }
}

/// The type of the result of a method.
pub fn result_type(tables: &Tables<'_>, ty: &Option<TypeRef>) -> Option<Ty>
    requires { HasFewClasses (trees tables.now) }
    ensures { result ≡ result_type (trees tables.now) (option_map type_tree ty.now) }
{
    match ty {
        Some(ty) => written_type(tables, ty),
        None => None,
    }
}

/// The result that a method declares.
pub fn declared_result(tables: &Tables<'_>, ty: &Option<TypeRef>) -> Option<Ty>
    requires { HasFewClasses (trees tables.now) }
    ensures { result ≡ option_map (type_id (trees tables.now)) (option_map type_tree ty.now) }
{
    match ty {
        Some(ty) => Some(type_id(tables, ty)),
        None => None,
    }
}

// The class that a type is of.
fn class_in(ty: Option<Ty>) -> ClassId
    ensures { result.0 ≡ class_in ty }
{
    match ty {
        Some(Ty::Ref { class, .. }) => class,
        Some(Ty::Int) | Some(Ty::Bool) | Some(Ty::Null) => ClassId(0),
        None => ClassId(0),
    }
}

/// The class of a written type.
pub fn written_class(tables: &Tables<'_>, ty: &TypeRef) -> ClassId
    requires { HasFewClasses (trees tables.now) }
    ensures { result.0 ≡ written_class (trees tables.now) (type_tree ty.now) }
{
    class_in(written_type(tables, ty))
}

/// The class of arrays of a type.
pub fn array_class(tables: &Tables<'_>, name: &TypeName) -> ClassId
    requires { HasFewClasses (trees tables.now) }
    ensures { result.0 ≡ array_class (trees tables.now) (type_name_tree name.now) }
{
    class_in(array_type(tables, true, name))
}
