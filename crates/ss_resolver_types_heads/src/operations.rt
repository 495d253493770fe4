// Operands and calls.

ghost use Rattle.std.specs.Prelude.{◌≡◌, ◌++◌, OnOk, option_map};
ghost use Rattle.ss_ast.specs.Expressions.{type_tree, type_name_tree};
ghost use Rattle.ss_tables_lookup.specs.Classes.{trees};
ghost use Rattle.ss_tables_lookup.specs.Views.{type_of};
ghost use Rattle.ss_tables_scopes.specs.Views.{callee_of};
ghost use Rattle.ss_resolver_types_heads.specs.Wants.{gives_nothing};
ghost use Rattle.ss_resolver_types_heads.specs.Expressions.{no_class, mark_faults, is_number_name, is_number_type, operand, operand_faults, comparison_faults, are_unlike, is_question};
ghost use Rattle.ss_resolver_types_heads.specs.Codes.{want_of, known_of};

use crate::wants::{Known, Want, are_alike, note_bad_type, note_misfit};
use ss_ast::{Operator, TypeName, TypeRef};
use ss_core::Place;
use ss_faults::Fault;
use ss_tables_lookup::{StaticType, Tables};
use ss_tables_scopes::Callee;
use std::alloc::AllocError;

fn is_number_name(name: &TypeName) -> bool
    ensures { result ≡ is_number_name (type_name_tree name.now) }
{
    match name {
        TypeName::Int | TypeName::Bool => true,
        TypeName::Object | TypeName::Class(_) => false,
    }
}

fn is_number_type(ty: &TypeRef) -> bool
    ensures { result ≡ is_number_type (type_tree ty.now) }
{
    !ty.is_array && is_number_name(&ty.name)
}

/// Notes a type that no reference has.
pub fn note_no_class(found: &mut Vec<Fault>, ty: &TypeRef) -> Result<(), AllocError>
    ensures { OnOk result (found.new.items ≡ found.old.items ++ no_class (type_tree ty.now)) }
{
    note_bad_type(found, is_number_type(ty), ty.place)
}

/// Notes `int!` and `bool!`.
pub fn note_mark(found: &mut Vec<Fault>, ty: &TypeRef) -> Result<(), AllocError>
    ensures { OnOk result (found.new.items ≡ found.old.items ++ mark_faults (type_tree ty.now)) }
{
    note_bad_type(found, ty.non_null && is_number_type(ty), ty.place)
}

fn are_unlike(one: Option<StaticType>, other: Option<StaticType>) -> bool
    ensures { result ≡ are_unlike (option_map type_of one) (option_map type_of other) }
{
    let Some(one) = one else {
        return false;
    };
    match other {
        Some(other) => !are_alike(one, other),
        None => false,
    }
}

/// What both operands are to be; `==` and `!=` compare.
pub fn operand(operator: Operator) -> Option<Want>
    ensures { option_map want_of result ≡ operand operator }
{
    match operator {
        Operator::Or | Operator::And => Some(Want::ABool),
        Operator::Equal | Operator::NotEqual => None,
        Operator::Less
        | Operator::LessEqual
        | Operator::Greater
        | Operator::GreaterEqual
        | Operator::Add
        | Operator::Subtract
        | Operator::Multiply
        | Operator::Divide
        | Operator::Remainder => Some(Want::AnInt),
    }
}

fn note_comparison(
    tables: &Tables<'_>,
    found: &mut Vec<Fault>,
    place: Place,
    left: Known,
    right: Known,
) -> Result<(), AllocError>
    ensures { OnOk result (found.new.items ≡ found.old.items ++ comparison_faults (trees tables.now) place (known_of left) (known_of right)) }
{
    note_misfit(tables, found, Want::AnyValue, left)?;
    note_misfit(tables, found, Want::AnyValue, right)?;
    note_bad_type(found, are_unlike(left.ty, right.ty), place)
}

/// Notes operands that the operator can't have.
pub fn note_operands(
    tables: &Tables<'_>,
    found: &mut Vec<Fault>,
    place: Place,
    operator: Operator,
    left: Known,
    right: Known,
) -> Result<(), AllocError>
    ensures { OnOk result (found.new.items ≡ found.old.items ++ operand_faults (trees tables.now) place (operand operator) (known_of left) (known_of right)) }
{
    note_wanted(tables, found, place, operand(operator), left, right)
}

fn note_wanted(
    tables: &Tables<'_>,
    found: &mut Vec<Fault>,
    place: Place,
    want: Option<Want>,
    left: Known,
    right: Known,
) -> Result<(), AllocError>
    ensures { OnOk result (found.new.items ≡ found.old.items ++ operand_faults (trees tables.now) place (option_map want_of want) (known_of left) (known_of right)) }
{
    match want {
        Some(want) => {
            note_misfit(tables, found, want, left)?;
            note_misfit(tables, found, want, right)
        }
        None => note_comparison(tables, found, place, left, right),
    }
}

/// Whether a call asks about states or owners.
pub fn is_question(callee: Callee<'_>) -> bool
    ensures { result ≡ is_question (callee_of callee.entry) }
{
    match callee {
        Callee::Word(_) => true,
        Callee::Method(..) | Callee::Print(_) | Callee::Base | Callee::Nothing => false,
    }
}

/// Whether a call has no result.
pub fn gives_nothing(callee: Callee<'_>) -> bool
    ensures { result ≡ gives_nothing (callee_of callee.entry) }
{
    match callee {
        Callee::Method(_, method) => method.method.returns.is_none(),
        Callee::Print(_) => true,
        Callee::Word(_) | Callee::Base | Callee::Nothing => false,
    }
}
