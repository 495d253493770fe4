// The members of a class, listed and found by name.

ghost use Rattle.std.specs.Prelude.{◌≡◌, ◌++◌, IfOk, OnOk, map};
ghost use Rattle.ss_ast.specs.Expressions.{name_tree};
ghost use Rattle.ss_ast.specs.Statements.{declaration_tree};
ghost use Rattle.ss_ast.specs.Programs.{class_tree, member_tree};
ghost use Rattle.ss_tables.specs.Members.{declared_field, fields_of_kind, methods_of_kind, constructors_of_kind, fields_in, methods_in, constructors_in};
ghost use Rattle.ss_tables.specs.Classes.{above_written};
ghost use Rattle.ss_tables_lookup.specs.Places.{places_of};
ghost use Rattle.ss_tables_lookup.specs.Shelves.{class_names, shelf};
ghost use Rattle.ss_tables_lookup.specs.Views.{field_tree, method_tree, constructor_tree};
ghost use Rattle.ss_tables_lookup.specs.Shelved.{shelf_of};

use crate::members::{ConstructorRef, FieldRef, MethodRef};
use crate::named::NameMap;
use crate::places::{field_places, method_places};
use ss_ast::{ClassDecl, Declaration, Member, MemberKind, Name};
use std::alloc::{AllocError, Global};

/// What is kept of a class: the place of the class above it, where that is a class of the program, and its members.
#[derive(Drop)]
pub struct Shelf<'p> {
    pub above: Option<usize>,
    pub fields: Vec<FieldRef<'p>>,
    pub field_places: NameMap<usize>,
    pub methods: Vec<MethodRef<'p>>,
    pub method_places: NameMap<usize>,
    pub constructors: Vec<ConstructorRef<'p>>,
}

// The fields of a declaration.
fn add_declared<'p>(
    fields: &mut Vec<FieldRef<'p>>,
    attributes: &'p [Name],
    declaration: &'p Declaration,
) -> Result<(), AllocError>
    ensures { OnOk result (map field_tree fields.new.items
        ≡ map field_tree fields.old.items
        ++ map (declared_field (map name_tree attributes.now) (declaration_tree declaration.now).ty) (declaration_tree declaration.now).declarators) }
{
    for declarator in &declaration.declarators {
        fields.push(FieldRef {
            attributes,
            ty: &declaration.ty,
            declarator,
        })?;
    }
    Ok(())
}

// The fields that a member declares.
fn add_fields<'p>(fields: &mut Vec<FieldRef<'p>>, member: &'p Member) -> Result<(), AllocError>
    ensures { OnOk result (map field_tree fields.new.items
        ≡ map field_tree fields.old.items ++ fields_of_kind (member_tree member.now).attributes (member_tree member.now).kind) }
{
    if let MemberKind::Fields(declaration) = &member.kind {
        add_declared(fields, &member.attributes, declaration)?;
    }
    Ok(())
}

fn add_method<'p>(methods: &mut Vec<MethodRef<'p>>, member: &'p Member) -> Result<(), AllocError>
    ensures { OnOk result (map method_tree methods.new.items
        ≡ map method_tree methods.old.items
        ++ methods_of_kind (member_tree member.now).attributes (member_tree member.now).modifiers (member_tree member.now).kind) }
{
    if let MemberKind::Method(method) = &member.kind {
        methods.push(MethodRef { member, method })?;
    }
    Ok(())
}

fn add_constructor<'p>(
    constructors: &mut Vec<ConstructorRef<'p>>,
    member: &'p Member,
) -> Result<(), AllocError>
    ensures { OnOk result (map constructor_tree constructors.new.items
        ≡ map constructor_tree constructors.old.items
        ++ constructors_of_kind (member_tree member.now).attributes (member_tree member.now).kind) }
{
    if let MemberKind::Constructor(constructor) = &member.kind {
        constructors.push(ConstructorRef {
            attributes: &member.attributes,
            constructor,
        })?;
    }
    Ok(())
}

/// The fields of a class, in order.
fn list_fields<'p>(alloc: Global, members: &'p [Member]) -> Result<Vec<FieldRef<'p>>, AllocError>
    ensures { IfOk result (λ v. map field_tree v.items ≡ fields_in (map member_tree members.now)) }
{
    let mut fields = Vec::new(alloc);
    for member in members {
        add_fields(&mut fields, member)?;
    }
    Ok(fields)
}

/// Its methods.
fn list_methods<'p>(alloc: Global, members: &'p [Member]) -> Result<Vec<MethodRef<'p>>, AllocError>
    ensures { IfOk result (λ v. map method_tree v.items ≡ methods_in (map member_tree members.now)) }
{
    let mut methods = Vec::new(alloc);
    for member in members {
        add_method(&mut methods, member)?;
    }
    Ok(methods)
}

/// Its constructors.
fn list_constructors<'p>(
    alloc: Global,
    members: &'p [Member],
) -> Result<Vec<ConstructorRef<'p>>, AllocError>
    ensures { IfOk result (λ v. map constructor_tree v.items ≡ constructors_in (map member_tree members.now)) }
{
    let mut constructors = Vec::new(alloc);
    for member in members {
        add_constructor(&mut constructors, member)?;
    }
    Ok(constructors)
}

// The class that is written as superclass.
fn find_above(names: &NameMap<usize>, class: &ClassDecl, classes: &[ClassDecl]) -> Option<usize>
    requires { names.now ≡ places_of (class_names (map class_tree classes.now)) }
    ensures { result ≡ above_written (map class_tree classes.now) (class_tree class.now).above }
{
    match &class.above {
        Some(name) => names.find(name.text.as_str()),
        None => None,
    }
}

/// The shelf of a class.
pub fn fill_shelf<'p>(
    alloc: Global,
    names: &NameMap<usize>,
    classes: &'p [ClassDecl],
    class: &'p ClassDecl,
) -> Result<Shelf<'p>, AllocError>
    requires { names.now ≡ places_of (class_names (map class_tree classes.now)) }
    ensures { IfOk result (λ s. shelf_of s ≡ shelf (map class_tree classes.now) (class_tree class.now)) }
{
    let fields = list_fields(alloc, &class.members)?;
    let field_places = field_places(alloc, &fields)?;
    let methods = list_methods(alloc, &class.members)?;
    let method_places = method_places(alloc, &methods)?;
    Ok(Shelf {
        above: find_above(names, class, classes),
        fields,
        field_places,
        methods,
        method_places,
        constructors: list_constructors(alloc, &class.members)?,
    })
}
