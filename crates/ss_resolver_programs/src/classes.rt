// Classes.

ghost use Rattle.std.specs.Prelude.{◌≡◌, ◌++◌, ◌∷◌, [], ◌<◌, IfOk, OnOk, length, map, option_map, None, false};
ghost use Rattle.ss_ast.specs.Expressions.{name_tree};
ghost use Rattle.ss_ast.specs.Programs.{member_tree, class_tree};
ghost use Rattle.ss_core.specs.View as class_view;
ghost use Rattle.ss_tables.specs.Classes.{above};
ghost use Rattle.ss_tables_lookup.specs.Classes.{trees};
ghost use Rattle.ss_tables_lookup.specs.Shelves as shelves;
ghost use Rattle.ss_tables_lookup.specs.Shelved.{shelf_of};
ghost use Rattle.ss_tables_lookup.specs.Views.{field_tree};
ghost use Rattle.ss_typed.specs.View as view;
ghost use Rattle.ss_resolver_rules.specs.Numbers.{table};
ghost use Rattle.ss_resolver_rules.specs.Numbers as numbers;
ghost use Rattle.ss_resolver_rules.specs.Names.{class_env};
ghost use Rattle.ss_resolver_rules.specs.Programs.{mark_of, invariants_of_kind, invariants_in, field_member, written_constructor};
ghost use Rattle.ss_resolver_rules.specs.Programs as resolved;
ghost use Rattle.ss_resolver_tables.specs.Limits.{HasFewClasses};
ghost use Rattle.ss_resolver_tables.specs.Slots.{slot_of, slots_of};
ghost use Rattle.ss_resolver_expressions.specs.Environments.{env_of};

use crate::marks::copy_names;
use crate::whole::Whole;
use ss_ast::{ClassDecl, Member, MemberKind, Name};
use ss_core::{BodyId, Class, ClassId, Entry, Field, Mark};
use ss_resolver_expressions::{LocalNames, ResolutionContext, resolve_boxed};
use ss_resolver_statements::{resolve_option, value_in};
use ss_resolver_tables::{Slot, constructor_id, number_or_object, table_at, type_id};
use ss_tables_lookup::{FieldRef, Shelf, Tables};
use ss_typed::{TypedClass, TypedExpr, TypedField, TypedInvariant};
use std::alloc::{AllocError, Global};

// The first of the two marks that stands among the attributes.
fn mark_of(attributes: &[Name]) -> Mark
    ensures { result ≡ mark_of (map name_tree attributes.now) }
{
    for attribute in attributes {
        let name = attribute.text.as_str();
        if name == "Rep" {
            return Mark::Rep;
        }
        if name == "Peer" {
            return Mark::Peer;
        }
    }
    Mark::Plain
}

fn core_field(alloc: Global, tables: &Tables<'_>, field: FieldRef<'_>) -> Result<Field, AllocError>
    requires { HasFewClasses (trees tables.now) }
    ensures { IfOk result (λ f. class_view.field_of f ≡ resolved.field (trees tables.now) (field_tree field.entry)) }
{
    let name = String::from_str(alloc, field.declarator.name.text.as_str())?;
    Ok(Field {
        name,
        ty: type_id(tables, field.ty),
        mark: mark_of(field.attributes),
    })
}

// One more field.
fn add_core_field(
    alloc: Global,
    tables: &Tables<'_>,
    list: &mut Vec<Field>,
    field: FieldRef<'_>,
) -> Result<(), AllocError>
    requires { HasFewClasses (trees tables.now) }
    ensures { OnOk result (map class_view.field_of list.new.items ≡ map class_view.field_of list.old.items ++ resolved.field (trees tables.now) (field_tree field.entry) ∷ []) }
{
    let field = core_field(alloc, tables, field)?;
    list.push(field)?;
    Ok(())
}

fn core_fields(
    alloc: Global,
    tables: &Tables<'_>,
    fields: &[FieldRef<'_>],
) -> Result<Vec<Field>, AllocError>
    requires { HasFewClasses (trees tables.now) }
    ensures { IfOk result (λ v. map class_view.field_of v.items ≡ map (resolved.field (trees tables.now)) (map field_tree fields.now)) }
{
    let mut list = Vec::new(alloc);
    for field in fields {
        add_core_field(alloc, tables, &mut list, *field)?;
    }
    Ok(list)
}

// One more entry of a table.
fn add_entry(alloc: Global, list: &mut Vec<Entry>, slot: Slot<'_>) -> Result<(), AllocError>
    ensures { OnOk result (map class_view.entry_of list.new.items ≡ map class_view.entry_of list.old.items ++ slot_of slot.entry ∷ []) }
{
    let name = String::from_str(alloc, slot.name)?;
    list.push(Entry {
        name,
        body: slot.body,
    })?;
    Ok(())
}

fn entries(alloc: Global, slots: &[Slot<'_>]) -> Result<Vec<Entry>, AllocError>
    ensures { IfOk result (λ v. map class_view.entry_of v.items ≡ slots_of slots.now) }
{
    let mut list = Vec::new(alloc);
    for slot in slots {
        add_entry(alloc, &mut list, *slot)?;
    }
    Ok(list)
}

// The table of a class.
fn table_of(alloc: Global, whole: &Whole<'_, '_>, class: usize) -> Result<Vec<Entry>, AllocError>
    requires { class < length (trees whole.now.tables.now) }
    ensures { IfOk result (λ v. map class_view.entry_of v.items ≡ table (trees whole.now.tables.now) class) }
{
    match table_at(whole.methods, class) {
        Some(table) => entries(alloc, &table.slots),
        None => unreachable!(),
    }
}

// The number of the class above a class.
fn number_above(tables: &Tables<'_>, class: usize) -> ClassId
    requires { HasFewClasses (trees tables.now) }
    ensures { result.0 ≡ numbers.number_or_object (above (trees tables.now) class) }
{
    number_or_object(tables.above(class))
}

/// The entry of a class in the table of classes.
pub(crate) fn core_class(
    alloc: Global,
    whole: &Whole<'_, '_>,
    class: usize,
    shelf: &Shelf<'_>,
    written: &ClassDecl,
) -> Result<Class, AllocError>
    requires within { class < length (trees whole.now.tables.now) }
    requires shelved { shelf_of shelf.now ≡ shelves.shelf (trees whole.now.tables.now) (class_tree written.now) }
    ensures { IfOk result (λ c. class_view.class_of c ≡ resolved.class (trees whole.now.tables.now) class (class_tree written.now)) }
{
    let tables = whole.tables;
    let name = String::from_str(alloc, written.name.text.as_str())?;
    let fields = core_fields(alloc, tables, &shelf.fields)?;
    let table = table_of(alloc, whole, class)?;
    Ok(Class {
        name,
        above: number_above(tables, class),
        also: Vec::new(alloc),
        fields,
        invariants: Vec::new(alloc),
        table,
    })
}

fn resolve_field<'p>(
    context: &ResolutionContext<'_, 'p>,
    names: &mut LocalNames,
    field: FieldRef<'p>,
) -> Result<TypedField, AllocError>
    ensures tree { IfOk result (λ f. view.field f ≡ field_member (env_of context.now names.old) (field_tree field.entry)) }
    ensures kept { OnOk result (names.new ≡ names.old) }
{
    let attributes = copy_names(context.within.alloc, field.attributes)?;
    let initial = resolve_option(context, names, &field.declarator.initial)?;
    Ok(TypedField {
        place: field.declarator.name.place,
        attributes,
        initial: value_in(initial),
    })
}

// One more field.
fn add_field<'p>(
    context: &ResolutionContext<'_, 'p>,
    names: &mut LocalNames,
    list: &mut Vec<TypedField>,
    field: FieldRef<'p>,
) -> Result<(), AllocError>
    ensures trees { OnOk result (map view.field list.new.items ≡ map view.field list.old.items ++ field_member (env_of context.now names.old) (field_tree field.entry) ∷ []) }
    ensures kept { OnOk result (names.new ≡ names.old) }
{
    let field = resolve_field(context, names, field)?;
    list.push(field)?;
    Ok(())
}

fn resolve_fields<'p>(
    context: &ResolutionContext<'_, 'p>,
    names: &mut LocalNames,
    fields: &[FieldRef<'p>],
) -> Result<Vec<TypedField>, AllocError>
    ensures trees { IfOk result (λ v. map view.field v.items ≡ map (field_member (env_of context.now names.old)) (map field_tree fields.now)) }
    ensures kept { OnOk result (names.new ≡ names.old) }
{
    let mut list = Vec::new(context.within.alloc);
    for field in fields {
        add_field(context, names, &mut list, *field)?;
    }
    Ok(list)
}

// One more invariant.
fn push_invariant(
    list: &mut Vec<TypedInvariant>,
    attributes: Vec<Name>,
    condition: Box<TypedExpr>,
) -> Result<(), AllocError>
    ensures { OnOk result (map view.invariant_of list.new.items ≡ map view.invariant_of list.old.items ++ record { attributes = map name_tree attributes.items; condition = view.expr condition.value } ∷ []) }
{
    list.push(TypedInvariant {
        attributes,
        condition: Box::into_inner(condition),
    })?;
    Ok(())
}

// The invariant that a member is, if it is one.
fn add_invariant<'p>(
    context: &ResolutionContext<'_, 'p>,
    names: &mut LocalNames,
    list: &mut Vec<TypedInvariant>,
    member: &'p Member,
) -> Result<(), AllocError>
    ensures trees { OnOk result (map view.invariant_of list.new.items ≡ map view.invariant_of list.old.items ++ invariants_of_kind (env_of context.now names.old) (member_tree member.now).attributes (member_tree member.now).kind) }
    ensures kept { OnOk result (names.new ≡ names.old) }
{
    match &member.kind {
        MemberKind::Invariant(condition) => {
            let attributes = copy_names(context.within.alloc, &member.attributes)?;
            let condition = resolve_boxed(context, names, condition)?;
            push_invariant(list, attributes, condition)?;
            Ok(())
        }
        MemberKind::Fields(_) | MemberKind::Method(_) | MemberKind::Constructor(_) => Ok(()),
    }
}

fn resolve_invariants<'p>(
    context: &ResolutionContext<'_, 'p>,
    names: &mut LocalNames,
    members: &'p [Member],
) -> Result<Vec<TypedInvariant>, AllocError>
    ensures trees { IfOk result (λ v. map view.invariant_of v.items ≡ invariants_in (env_of context.now names.old) (map member_tree members.now)) }
    ensures kept { OnOk result (names.new ≡ names.old) }
{
    let mut list = Vec::new(context.within.alloc);
    for member in members {
        add_invariant(context, names, &mut list, member)?;
    }
    Ok(list)
}

fn written_constructor(context: &ResolutionContext<'_, '_>, shelf: &Shelf<'_>) -> Option<BodyId>
    ensures { option_map (λ n. n.0) result ≡ written_constructor (trees context.now.within.tables.now) context.now.within.class (shelf_of shelf.now).constructors }
{
    if shelf.constructors.is_empty() {
        None
    } else {
        let within = context.within;
        Some(constructor_id(within.tables, context.bodies, within.class))
    }
}

// The same where the names of the class are known.
fn members_in<'p>(
    context: &ResolutionContext<'_, 'p>,
    names: &mut LocalNames,
    shelf: &Shelf<'p>,
    written: &'p ClassDecl,
) -> Result<TypedClass, AllocError>
    requires names { env_of context.now names.old ≡ class_env (trees context.now.within.tables.now) context.now.within.class }
    requires shelved { shelf_of shelf.now ≡ shelves.shelf (trees context.now.within.tables.now) (class_tree written.now) }
    ensures { IfOk result (λ c. view.members c ≡ resolved.members (trees context.now.within.tables.now) context.now.within.class (class_tree written.now)) }
{
    let fields = resolve_fields(context, names, &shelf.fields)?;
    let invariants = resolve_invariants(context, names, &written.members)?;
    Ok(TypedClass {
        place: written.name.place,
        constructor: written_constructor(context, shelf),
        fields,
        invariants,
    })
}

/// What a class has beside its entry in the table of classes.
pub(crate) fn resolve_members<'p>(
    context: &ResolutionContext<'_, 'p>,
    shelf: &Shelf<'p>,
    written: &'p ClassDecl,
) -> Result<TypedClass, AllocError>
    requires outcome { context.now.within.outcome ≡ None }
    requires calls { context.now.within.refuses_members ≡ false }
    requires this { context.now.within.refuses_this ≡ false }
    requires shelved { shelf_of shelf.now ≡ shelves.shelf (trees context.now.within.tables.now) (class_tree written.now) }
    ensures { IfOk result (λ c. view.members c ≡ resolved.members (trees context.now.within.tables.now) context.now.within.class (class_tree written.now)) }
{
    let mut names = LocalNames::new(context.within.alloc, 1);
    members_in(context, &mut names, shelf, written)
}
