// The faults of a class beside those of its members' expressions.

ghost use Rattle.std.specs.Prelude.{◌≡◌, ◌++◌, [], List, map, drop, nat_lt, OnOk, IfOk, option_map, if◌then◌else◌};
ghost use Rattle.ss_ast.specs.Expressions.{NameTree, name_tree};
ghost use Rattle.ss_ast.specs.Statements.{declarator_tree};
ghost use Rattle.ss_ast.specs.Programs.{class_tree, member_tree};
ghost use Rattle.ss_tables.specs.Members.{MethodTree, ConstructorTree};
ghost use Rattle.ss_tables_lookup.specs.Classes.{trees};
ghost use Rattle.ss_tables_lookup.specs.Views.{field_tree, method_tree, constructor_tree};
ghost use Rattle.ss_resolver_names_rules.specs.Faults.{fault, with_name, twice, twice_among};
ghost use Rattle.ss_resolver_names_rules.specs.Members.{declarator_names, kind_names, member_names, faults_at, constructor_faults};
ghost use Rattle.ss_resolver_names_rules.specs.Programs.{most_fields, most_methods, ends, inherited_fields, is_first_of_cycle, depth_faults, field_limit_faults, methods_faults, above_faults};
ghost use Rattle.ss_resolver_scoping.specs.Views.{names_of};

use crate::chains::{ends, inherited_fields, is_deep, is_first_of_cycle};
use indexmap::IndexSet;
use ss_ast::{ClassDecl, Declarator, Member, MemberKind, Name};
use ss_core::{MOST_FIELDS, Place, Rule};
use ss_faults::Fault;
use ss_resolver_names_members::{add, check_class};
use ss_resolver_scoping::{is_listed, note_name, plus};
use ss_tables_lookup::{ConstructorRef, FieldRef, MethodRef, Tables};
use std::alloc::{AllocError, Global};

const MOST_METHODS: usize = 1024;

/// A name that may stand among these already, and is one of them then.
pub fn check_twice(
    alloc: Global,
    names: &mut IndexSet<String>,
    faults: &mut Vec<Fault>,
    name: &Name,
) -> Result<(), AllocError>
    ensures noted { OnOk result (faults.new.items ≡ faults.old.items ++ twice (names_of names.old.keys) (name_tree name.now)) }
    ensures named { OnOk result (names_of names.new.keys ≡ with_name (names_of names.old.keys) (name_tree name.now).text) }
{
    if is_listed(names, name.text.as_str()) {
        return add(faults, Rule::Twice, name.place);
    }
    note_name(alloc, names, name.text.as_str())
}

// The names of a declaration.
fn check_declarators(
    alloc: Global,
    names: &mut IndexSet<String>,
    faults: &mut Vec<Fault>,
    declarators: &[Declarator],
) -> Result<(), AllocError>
    ensures { (rest : List NameTree) → OnOk result (faults.new.items ++ twice_among (names_of names.new.keys) rest
        ≡ faults.old.items ++ twice_among (names_of names.old.keys) (declarator_names (map declarator_tree declarators.now) ++ rest)) }
{
    for declarator in declarators {
        check_twice(alloc, names, faults, &declarator.name)?;
    }
    Ok(())
}

// The names of a member.
fn check_member_name(
    alloc: Global,
    names: &mut IndexSet<String>,
    faults: &mut Vec<Fault>,
    member: &Member,
) -> Result<(), AllocError>
    ensures { (rest : List NameTree) → OnOk result (faults.new.items ++ twice_among (names_of names.new.keys) rest
        ≡ faults.old.items ++ twice_among (names_of names.old.keys) (kind_names (member_tree member.now).kind ++ rest)) }
{
    match &member.kind {
        MemberKind::Fields(declaration) => {
            check_declarators(alloc, names, faults, &declaration.declarators)
        }
        MemberKind::Method(method) => check_twice(alloc, names, faults, &method.name),
        MemberKind::Invariant(_) | MemberKind::Constructor(_) => Ok(()),
    }
}

/// Names of members that are declared twice.
pub fn check_member_names(
    alloc: Global,
    faults: &mut Vec<Fault>,
    members: &[Member],
) -> Result<(), AllocError>
    ensures { OnOk result (faults.new.items ≡ faults.old.items ++ twice_among [] (member_names (map member_tree members.now))) }
{
    let mut names = IndexSet::new(alloc);
    for member in members {
        check_member_name(alloc, &mut names, faults, member)?;
    }
    Ok(())
}

// A fault at each of these constructors.
fn add_constructors(
    faults: &mut Vec<Fault>,
    constructors: &[ConstructorRef<'_>],
) -> Result<(), AllocError>
    ensures { OnOk result (faults.new.items ≡ faults.old.items ++ faults_at Rule.Twice (map (λ (d : ConstructorTree). d.name) (map constructor_tree constructors.now))) }
{
    for constructor in constructors {
        add(faults, Rule::Twice, constructor.constructor.name.place)?;
    }
    Ok(())
}

/// Each constructor but the first.
pub fn check_constructors(
    faults: &mut Vec<Fault>,
    constructors: &[ConstructorRef<'_>],
) -> Result<(), AllocError>
    ensures { OnOk result (faults.new.items ≡ faults.old.items ++ constructor_faults (map constructor_tree constructors.now)) }
{
    match constructors {
        [_, others @ ..] => add_constructors(faults, others),
        [] => Ok(()),
    }
}

/// A class that is too deep below `object`.
pub fn check_depth(
    tables: &Tables<'_>,
    class: usize,
    faults: &mut Vec<Fault>,
    declaration: &ClassDecl,
) -> Result<(), AllocError>
    ensures { OnOk result (faults.new.items ≡ faults.old.items ++ depth_faults (trees tables.now) class (class_tree declaration.now)) }
{
    if is_deep(tables, class) {
        return add(faults, Rule::Limit, declaration.name.place);
    }
    Ok(())
}

// The first class of a cycle.
fn check_cycle(
    tables: &Tables<'_>,
    class: usize,
    faults: &mut Vec<Fault>,
    place: Place,
) -> Result<(), AllocError>
    ensures { OnOk result (faults.new.items ≡ faults.old.items ++ (if is_first_of_cycle (trees tables.now) class then fault Rule.Cycle place else [])) }
{
    if is_first_of_cycle(tables, class) {
        return add(faults, Rule::Cycle, place);
    }
    Ok(())
}

/// The class that is written as superclass.
pub fn check_above(
    tables: &Tables<'_>,
    class: usize,
    faults: &mut Vec<Fault>,
    name: &Option<Name>,
) -> Result<(), AllocError>
    ensures { OnOk result (faults.new.items ≡ faults.old.items ++ above_faults (trees tables.now) class (option_map name_tree name.now)) }
{
    match name {
        Some(name) => {
            check_class(tables, faults, name.text.as_str(), name.place)?;
            check_cycle(tables, class, faults, name.place)
        }
        None => Ok(()),
    }
}

// A field, with so many before it.
#[tactic(auto, unfolding(ss_resolver_names_rules::specs::Programs::most_fields))]
fn check_field(
    faults: &mut Vec<Fault>,
    before: usize,
    field: FieldRef<'_>,
) -> Result<(), AllocError>
    ensures { OnOk result (faults.new.items ≡ faults.old.items ++ (if nat_lt before most_fields then [] else fault Rule.Limit (field_tree field.entry).name.place)) }
{
    if before < MOST_FIELDS {
        return Ok(());
    }
    add(faults, Rule::Limit, field.declarator.name.place)
}

// Fields, with so many before them.
fn check_field_limit(
    faults: &mut Vec<Fault>,
    before: usize,
    fields: &[FieldRef<'_>],
) -> Result<(), AllocError>
    ensures { OnOk result (faults.new.items ≡ faults.old.items ++ field_limit_faults before (map field_tree fields.now)) }
{
    let mut count = before;
    for field in fields {
        check_field(faults, count, *field)?;
        count = plus(count, 1)?;
    }
    Ok(())
}

// How many fields come before those of a class, where the classes above it end.
fn fields_before(tables: &Tables<'_>, class: usize) -> Result<usize, AllocError>
    ensures { IfOk result (λ n. n ≡ (if ends (trees tables.now) class then inherited_fields (trees tables.now) class else 0)) }
{
    if ends(tables, class) {
        return inherited_fields(tables, class);
    }
    Ok(0)
}

/// The fields that come after the last one that an object may have.
pub fn check_fields(
    tables: &Tables<'_>,
    class: usize,
    faults: &mut Vec<Fault>,
    fields: &[FieldRef<'_>],
) -> Result<(), AllocError>
    ensures { OnOk result (faults.new.items ≡ faults.old.items
        ++ field_limit_faults (if ends (trees tables.now) class then inherited_fields (trees tables.now) class else 0) (map field_tree fields.now)) }
{
    let before = fields_before(tables, class)?;
    check_field_limit(faults, before, fields)
}

// A fault at each of these methods.
fn add_methods(faults: &mut Vec<Fault>, methods: &[MethodRef<'_>]) -> Result<(), AllocError>
    ensures { OnOk result (faults.new.items ≡ faults.old.items ++ faults_at Rule.Limit (map (λ (m : MethodTree). m.name) (map method_tree methods.now))) }
{
    for method in methods {
        add(faults, Rule::Limit, method.method.name.place)?;
    }
    Ok(())
}

// The methods past the limit.
fn past_limit<'m, 'p>(methods: &'m [MethodRef<'p>]) -> &'m [MethodRef<'p>]
    ensures { result.now ≡ drop most_methods methods.now }
{
    let first = MOST_METHODS.min(methods.len());
    &methods[first..]
}

/// The methods of a class past the limit.
pub fn check_methods(faults: &mut Vec<Fault>, methods: &[MethodRef<'_>]) -> Result<(), AllocError>
    ensures { OnOk result (faults.new.items ≡ faults.old.items ++ methods_faults (map method_tree methods.now)) }
{
    add_methods(faults, past_limit(methods))
}
