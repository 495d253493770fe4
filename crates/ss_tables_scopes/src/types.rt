// The types that forms of expressions have.

ghost use Rattle.std.specs.Prelude.{◌≡◌, option_map, option_and_then};
ghost use Rattle.ss_core.specs.declared.names.Place.{Place};
ghost use Rattle.ss_core.specs.Types.{nullable};
ghost use Rattle.ss_ast.specs.Expressions.{ExprTree, type_tree};
ghost use Rattle.ss_ast.specs.Parts.{link_after};
ghost use Rattle.ss_tables.specs.Types.{class_of, element_type, written_type};
ghost use Rattle.ss_tables.specs.Statics.{operation_type, cast_type, static};
ghost use Rattle.ss_tables_lookup.specs.Classes.{trees};
ghost use Rattle.ss_tables_lookup.specs.Views.{type_of};
ghost use Rattle.ss_tables_scopes.specs.Names.{Names};
ghost use Rattle.ss_tables_scopes.specs.Views.{scope_of};

use crate::class_context::ClassContext;
use crate::statics::{cast_type, class_of_type};
use ss_ast::{Link, Operator, TypeRef};
use ss_tables_lookup::{StaticType, Tables, element_type, nullable};

// The type of an operation.
fn operation_type(operator: Operator) -> StaticType
    ensures { type_of result ≡ operation_type operator }
{
    match operator {
        Operator::Or
        | Operator::And
        | Operator::Equal
        | Operator::NotEqual
        | Operator::Less
        | Operator::LessEqual
        | Operator::Greater
        | Operator::GreaterEqual => StaticType::Bool,
        Operator::Add
        | Operator::Subtract
        | Operator::Multiply
        | Operator::Divide
        | Operator::Remainder => StaticType::Int,
    }
}

/// The type of a cast to a written type.
pub fn type_of_cast(tables: &Tables<'_>, ty: &TypeRef) -> Option<StaticType>
    ensures { option_map type_of result ≡ cast_type (written_type (trees tables.now) (type_tree ty.now)) }
{
    cast_type(tables.written_type(ty))
}

fn nullable_type(ty: Option<StaticType>) -> Option<StaticType>
    ensures { option_map type_of result ≡ option_map nullable (option_map type_of ty) }
{
    match ty {
        Some(ty) => Some(nullable(ty)),
        None => None,
    }
}

// The type of `as`.
fn type_of_as(tables: &Tables<'_>, ty: &TypeRef) -> Option<StaticType>
    ensures { option_map type_of result ≡ option_map nullable (cast_type (written_type (trees tables.now) (type_tree ty.now))) }
{
    nullable_type(type_of_cast(tables, ty))
}

/// The type of an expression with this link after it.
pub fn link_type(context: ClassContext<'_, '_>, link: &Link) -> Option<StaticType>
    ensures { (names : Names) → (p : Place) → (e : ExprTree) → option_map type_of result ≡ static (scope_of context.entry names) (link_after link.now p e) }
{
    match link {
        Link::Operation(operator, _) => Some(operation_type(*operator)),
        Link::Is(_) => Some(StaticType::Bool),
        Link::As(ty) => type_of_as(context.tables, ty),
    }
}

/// The type of an element of a value of this type.
pub fn type_of_element(ty: Option<StaticType>) -> Option<StaticType>
    ensures { option_map type_of result ≡ option_and_then element_type (option_and_then class_of (option_map type_of ty)) }
{
    match class_of_type(ty) {
        Some(class) => element_type(class),
        None => None,
    }
}
