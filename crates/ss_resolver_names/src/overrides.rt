// Overrides.

ghost use Rattle.std.specs.Prelude.{◌≡◌, ◌++◌, ◌&&◌, codes, map, OnOk, option_map};
ghost use Rattle.ss_ast.specs.Expressions.{BoolType, ObjectType, ClassType, name_tree, type_tree, type_name_tree};
ghost use Rattle.ss_ast.specs.Programs.{param_tree, clause_tree};
ghost use Rattle.ss_tables.specs.Classes.{inherited_method};
ghost use Rattle.ss_resolver_names_rules.specs.Faults.{fault, unless};
ghost use Rattle.ss_tables_lookup.specs.Views.{method_tree, declared_method};
ghost use Rattle.ss_resolver_names_rules.specs.Members.{agree, same_type_name, same_type, same_result, same_mark, same_params, same_marks, only_ensures, may_override, fits_inherited, override_faults};
ghost use Rattle.ss_tables_lookup.specs.Classes.{trees};

use ss_ast::{Clause, Name, Param, TypeName, TypeRef};
use ss_core::Rule;
use ss_faults::Fault;
use ss_resolver_names_members::add_unless;
use ss_resolver_scoping::is_int;
use ss_tables_lookup::{MethodRef, Tables};
use ss_tables_scopes::{has_attribute, is_open_word, is_override_word};
use std::alloc::AllocError;

fn is_bool(name: &TypeName) -> bool
    ensures { result ≡ same_type_name BoolType (type_name_tree name.now) }
{
    match name {
        TypeName::Bool => true,
        TypeName::Int | TypeName::Object | TypeName::Class(_) => false,
    }
}

fn is_object(name: &TypeName) -> bool
    ensures { result ≡ same_type_name ObjectType (type_name_tree name.now) }
{
    match name {
        TypeName::Object => true,
        TypeName::Int | TypeName::Bool | TypeName::Class(_) => false,
    }
}

fn is_class(class: &str, name: &TypeName) -> bool
    ensures { result ≡ same_type_name (ClassType class.now) (type_name_tree name.now) }
{
    match name {
        TypeName::Class(name) => class == name.as_str(),
        TypeName::Int | TypeName::Bool | TypeName::Object => false,
    }
}

// Types as they are written, `!` aside.
fn same_type_name(left: &TypeName, right: &TypeName) -> bool
    ensures { result ≡ same_type_name (type_name_tree left.now) (type_name_tree right.now) }
{
    match left {
        TypeName::Int => is_int(right),
        TypeName::Bool => is_bool(right),
        TypeName::Object => is_object(right),
        TypeName::Class(name) => is_class(name.as_str(), right),
    }
}

// Whether both hold, or neither.
fn agree(left: bool, right: bool) -> bool
    ensures { result ≡ agree left right }
{
    if left { right } else { !right }
}

fn same_type(left: &TypeRef, right: &TypeRef) -> bool
    ensures { result ≡ same_type (type_tree left.now) (type_tree right.now) }
{
    same_type_name(&left.name, &right.name) && agree(left.is_array, right.is_array)
}

fn same_result(left: &Option<TypeRef>, right: &Option<TypeRef>) -> bool
    ensures { result ≡ same_result (option_map type_tree left.now) (option_map type_tree right.now) }
{
    match (left, right) {
        (Some(left), Some(right)) => same_type(left, right),
        (None, None) => true,
        (Some(_), None) | (None, Some(_)) => false,
    }
}

fn same_mark(name: &str, left: &[Name], right: &[Name]) -> bool
    ensures { result ≡ same_mark name.now (map name_tree left.now) (map name_tree right.now) }
{
    agree(has_attribute(name, left), has_attribute(name, right))
}

fn same_param(left: &Param, right: &Param) -> bool
    ensures { result ≡ (same_type (param_tree left.now).ty (param_tree right.now).ty && same_mark (codes "Captured") (param_tree left.now).attributes (param_tree right.now).attributes) }
{
    same_type(&left.ty, &right.ty) && same_mark("Captured", &left.attributes, &right.attributes)
}

fn same_params(left: &[Param], right: &[Param]) -> bool
    ensures { result ≡ same_params (map param_tree left.now) (map param_tree right.now) }
{
    let mut left = left;
    let mut right = right;
    while let [p, left_rest @ ..] = left {
        let [q, right_rest @ ..] = right else {
            return false;
        };
        if !same_param(p, q) {
            return false;
        }
        left = left_rest;
        right = right_rest;
    }
    right.is_empty()
}

fn same_marks(left: &[Name], right: &[Name]) -> bool
    ensures { result ≡ same_marks (map name_tree left.now) (map name_tree right.now) }
{
    same_mark("Pure", left, right) && same_mark("NoDefaultContract", left, right)
}

fn only_ensures(clauses: &[Clause]) -> bool
    ensures { result ≡ only_ensures (map clause_tree clauses.now) }
{
    for clause in clauses {
        match clause {
            Clause::Ensures(_) => {}
            Clause::Requires(_) | Clause::Modifies(_) => return false,
        }
    }
    true
}

fn may_override(method: MethodRef<'_>, inherited: MethodRef<'_>) -> bool
    ensures { result ≡ may_override (method_tree method.entry) (method_tree inherited.entry) }
{
    is_open_word(&inherited.member.modifiers)
        && same_params(&method.method.params, &inherited.method.params)
        && same_result(&method.method.returns, &inherited.method.returns)
        && same_marks(&method.member.attributes, &inherited.member.attributes)
        && only_ensures(&method.method.clauses)
}

fn fits_inherited(method: MethodRef<'_>, inherited: Option<(usize, MethodRef<'_>)>) -> bool
    ensures { result ≡ fits_inherited (method_tree method.entry) (option_map declared_method inherited.entry) }
{
    match inherited {
        Some((_, inherited)) => {
            if is_override_word(&method.member.modifiers) {
                may_override(method, inherited)
            } else {
                false
            }
        }
        None => !is_override_word(&method.member.modifiers),
    }
}

// A method that doesn't fit the inherited one of its name.
fn check_override(
    tables: &Tables<'_>,
    class: usize,
    faults: &mut Vec<Fault>,
    method: MethodRef<'_>,
) -> Result<(), AllocError>
    ensures { OnOk result (faults.new.items ≡ faults.old.items
        ++ unless (fits_inherited (method_tree method.entry) (inherited_method (trees tables.now) class (method_tree method.entry).name.text)) (fault Rule.BadOverride (method_tree method.entry).name.place)) }
{
    let inherited = tables.inherited_method(class, method.method.name.text.as_str());
    let fits = fits_inherited(method, inherited);
    add_unless(faults, fits, Rule::BadOverride, method.method.name.place)
}

/// The methods of a class that don't fit the inherited ones.
pub fn check_overrides(
    tables: &Tables<'_>,
    class: usize,
    faults: &mut Vec<Fault>,
    methods: &[MethodRef<'_>],
) -> Result<(), AllocError>
    ensures { OnOk result (faults.new.items ≡ faults.old.items ++ override_faults (trees tables.now) class (map method_tree methods.now)) }
{
    for method in methods {
        check_override(tables, class, faults, *method)?;
    }
    Ok(())
}
