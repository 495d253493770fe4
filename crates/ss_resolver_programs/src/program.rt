// Programs.

ghost use Rattle.std.specs.Prelude.{◌≡◌, ◌++◌, ◌∷◌, [], ◌<◌, IfOk, OnOk, length, map, slice_get, Some, None, false};
ghost use Rattle.ss_ast.specs.Programs.{class_tree, program_tree};
ghost use Rattle.ss_core.specs.View as class_view;
ghost use Rattle.ss_tables_lookup.specs.Classes.{trees};
ghost use Rattle.ss_tables_lookup.specs.Shelves as shelves;
ghost use Rattle.ss_tables_lookup.specs.Shelved.{shelf_of};
ghost use Rattle.ss_tables_lookup.specs.Views.{method_tree, constructor_tree};
ghost use Rattle.ss_resolver_names_rules.specs.Programs.{first_name_fault};
ghost use Rattle.ss_typed.specs.View as view;
ghost use Rattle.ss_resolver_rules.specs.Programs.{method_body, constructor_body, bodies_of, bodies_from, each};
ghost use Rattle.ss_resolver_rules.specs.Programs as resolved;
ghost use Rattle.ss_resolver_tables.specs.Limits.{IsWithinLimits};

use crate::bodies::{resolve_constructor, resolve_method};
use crate::classes::{core_class, resolve_members};
use crate::mains::main_body;
use crate::whole::Whole;
use ss_ast::{ClassDecl, Program};
use ss_core::{Class, Classes};
use ss_resolver_expressions::ResolutionContext;
use ss_resolver_tables::{body_starts, field_starts, method_tables};
use ss_tables_lookup::{ConstructorRef, MethodRef, Shelf, Tables};
use ss_typed::{Typed, TypedBody, TypedClass};
use std::alloc::{AllocError, Global};

// One more class.
fn add_class(
    alloc: Global,
    whole: &Whole<'_, '_>,
    list: &mut Vec<Class>,
    class: usize,
    written: &ClassDecl,
) -> Result<(), AllocError>
    requires { slice_get (trees whole.now.tables.now) class ≡ Some (class_tree written.now) }
    ensures { OnOk result (map class_view.class_of list.new.items ≡ map class_view.class_of list.old.items ++ resolved.class (trees whole.now.tables.now) class (class_tree written.now) ∷ []) }
{
    match whole.tables.shelf(class) {
        Some(shelf) => {
            let entry = core_class(alloc, whole, class, shelf, written)?;
            list.push(entry)?;
            Ok(())
        }
        None => unreachable!(),
    }
}

// The table of classes.
fn core_classes(
    alloc: Global,
    whole: &Whole<'_, '_>,
    classes: &[ClassDecl],
) -> Result<Vec<Class>, AllocError>
    requires { whole.now.tables.now ≡ classes.now }
    ensures { IfOk result (λ v. map class_view.class_of v.items ≡ each (resolved.class (trees whole.now.tables.now)) 0 (map class_tree classes.now)) }
{
    let mut list = Vec::new(alloc);
    for (class, written) in classes.iter().enumerate() {
        add_class(alloc, whole, &mut list, class, written)?;
    }
    Ok(list)
}

// The members of one more class.
fn add_members<'p>(
    alloc: Global,
    whole: &Whole<'_, 'p>,
    list: &mut Vec<TypedClass>,
    class: usize,
    written: &'p ClassDecl,
) -> Result<(), AllocError>
    requires { slice_get (trees whole.now.tables.now) class ≡ Some (class_tree written.now) }
    ensures { OnOk result (map view.members list.new.items ≡ map view.members list.old.items ++ resolved.members (trees whole.now.tables.now) class (class_tree written.now) ∷ []) }
{
    match whole.tables.shelf(class) {
        Some(shelf) => {
            let context = whole.context(class);
            let members = resolve_members(&context, shelf, written)?;
            list.push(members)?;
            Ok(())
        }
        None => unreachable!(),
    }
}

// The members of each class.
fn all_members<'p>(
    alloc: Global,
    whole: &Whole<'_, 'p>,
    classes: &'p [ClassDecl],
) -> Result<Vec<TypedClass>, AllocError>
    requires { whole.now.tables.now ≡ classes.now }
    ensures { IfOk result (λ v. map view.members v.items ≡ each (resolved.members (trees whole.now.tables.now)) 0 (map class_tree classes.now)) }
{
    let mut list = Vec::new(alloc);
    for (class, written) in classes.iter().enumerate() {
        add_members(alloc, whole, &mut list, class, written)?;
    }
    Ok(list)
}

// One more body.
fn add_body(list: &mut Vec<TypedBody>, body: TypedBody) -> Result<(), AllocError>
    ensures { OnOk result (map view.body list.new.items ≡ map view.body list.old.items ++ view.body body ∷ []) }
{
    list.push(body)?;
    Ok(())
}

fn add_constructors<'p>(
    context: &ResolutionContext<'_, 'p>,
    list: &mut Vec<TypedBody>,
    constructors: &[ConstructorRef<'p>],
) -> Result<(), AllocError>
    requires outcome { context.now.within.outcome ≡ None }
    requires calls { context.now.within.refuses_members ≡ false }
    requires this { context.now.within.refuses_this ≡ false }
    ensures { OnOk result (map view.body list.new.items ≡ map view.body list.old.items ++ map (constructor_body (trees context.now.within.tables.now) context.now.within.class) (map constructor_tree constructors.now)) }
{
    for constructor in constructors {
        add_constructor(context, list, *constructor)?;
    }
    Ok(())
}

fn add_constructor<'p>(
    context: &ResolutionContext<'_, 'p>,
    list: &mut Vec<TypedBody>,
    constructor: ConstructorRef<'p>,
) -> Result<(), AllocError>
    requires outcome { context.now.within.outcome ≡ None }
    requires calls { context.now.within.refuses_members ≡ false }
    requires this { context.now.within.refuses_this ≡ false }
    ensures { OnOk result (map view.body list.new.items ≡ map view.body list.old.items ++ constructor_body (trees context.now.within.tables.now) context.now.within.class (constructor_tree constructor.entry) ∷ []) }
{
    let body = resolve_constructor(context, constructor)?;
    add_body(list, body)?;
    Ok(())
}

fn add_method<'p>(
    context: &ResolutionContext<'_, 'p>,
    list: &mut Vec<TypedBody>,
    method: MethodRef<'p>,
) -> Result<(), AllocError>
    requires outcome { context.now.within.outcome ≡ None }
    requires calls { context.now.within.refuses_members ≡ false }
    requires this { context.now.within.refuses_this ≡ false }
    ensures { OnOk result (map view.body list.new.items ≡ map view.body list.old.items ++ method_body (trees context.now.within.tables.now) context.now.within.class (method_tree method.entry) ∷ []) }
{
    let body = resolve_method(context, method)?;
    add_body(list, body)?;
    Ok(())
}

fn add_methods<'p>(
    context: &ResolutionContext<'_, 'p>,
    list: &mut Vec<TypedBody>,
    methods: &[MethodRef<'p>],
) -> Result<(), AllocError>
    requires outcome { context.now.within.outcome ≡ None }
    requires calls { context.now.within.refuses_members ≡ false }
    requires this { context.now.within.refuses_this ≡ false }
    ensures { OnOk result (map view.body list.new.items ≡ map view.body list.old.items ++ map (method_body (trees context.now.within.tables.now) context.now.within.class) (map method_tree methods.now)) }
{
    for method in methods {
        add_method(context, list, *method)?;
    }
    Ok(())
}

// The bodies of a class: its constructors and then its methods.
fn add_shelf<'p>(
    context: &ResolutionContext<'_, 'p>,
    list: &mut Vec<TypedBody>,
    shelf: &Shelf<'p>,
    written: &'p ClassDecl,
) -> Result<(), AllocError>
    requires outcome { context.now.within.outcome ≡ None }
    requires calls { context.now.within.refuses_members ≡ false }
    requires this { context.now.within.refuses_this ≡ false }
    requires shelved { shelf_of shelf.now ≡ shelves.shelf (trees context.now.within.tables.now) (class_tree written.now) }
    ensures { OnOk result (map view.body list.new.items ≡ map view.body list.old.items ++ bodies_of (trees context.now.within.tables.now) context.now.within.class (class_tree written.now)) }
{
    add_constructors(context, list, &shelf.constructors)?;
    add_methods(context, list, &shelf.methods)
}

// The bodies of one more class.
fn add_bodies<'p>(
    alloc: Global,
    whole: &Whole<'_, 'p>,
    list: &mut Vec<TypedBody>,
    class: usize,
    written: &'p ClassDecl,
) -> Result<(), AllocError>
    requires { slice_get (trees whole.now.tables.now) class ≡ Some (class_tree written.now) }
    ensures { OnOk result (map view.body list.new.items ≡ map view.body list.old.items ++ bodies_of (trees whole.now.tables.now) class (class_tree written.now)) }
{
    match whole.tables.shelf(class) {
        Some(shelf) => {
            let context = whole.context(class);
            add_shelf(&context, list, shelf, written)
        }
        None => unreachable!(),
    }
}

// The bodies of each class.
fn all_bodies<'p>(
    alloc: Global,
    whole: &Whole<'_, 'p>,
    classes: &'p [ClassDecl],
) -> Result<Vec<TypedBody>, AllocError>
    requires { whole.now.tables.now ≡ classes.now }
    ensures { IfOk result (λ v. map view.body v.items ≡ bodies_from (trees whole.now.tables.now) 0 (map class_tree classes.now)) }
{
    let mut list = Vec::new(alloc);
    for (class, written) in classes.iter().enumerate() {
        add_bodies(alloc, whole, &mut list, class, written)?;
    }
    Ok(list)
}

// The whole program, by its tables.
fn resolve_whole<'p>(
    alloc: Global,
    whole: &Whole<'_, 'p>,
    program: &'p Program,
) -> Result<Typed, AllocError>
    requires { whole.now.tables.now ≡ program.now.classes.items }
    ensures { IfOk result (λ t. view.typed t ≡ resolved.resolved (program_tree program.now)) }
{
    let list = core_classes(alloc, whole, &program.classes)?;
    let members = all_members(alloc, whole, &program.classes)?;
    let bodies = all_bodies(alloc, whole, &program.classes)?;
    Ok(Typed {
        classes: Classes { list },
        members,
        bodies,
        main: main_body(whole),
    })
}

// The same where the numbers are known to fit.
fn resolve_numbered<'p>(
    alloc: Global,
    tables: &Tables<'p>,
    program: &'p Program,
) -> Result<Typed, AllocError>
    requires limits { IsWithinLimits (program_tree program.now).classes }
    requires tables { tables.now ≡ program.now.classes.items }
    ensures { IfOk result (λ t. view.typed t ≡ resolved.resolved (program_tree program.now)) }
{
    let fields = field_starts(alloc, &program.classes)?;
    let bodies = body_starts(alloc, &program.classes)?;
    let methods = method_tables(alloc, tables, &bodies)?;
    let whole = Whole {
        alloc,
        tables,
        fields: &fields,
        bodies: &bodies,
        methods: &methods,
    };
    resolve_whole(alloc, &whole, program)
}

/// The resolved program that a program with these tables and without faults of names means. The error is want of memory.
pub fn resolve_program<'p>(
    alloc: Global,
    tables: &Tables<'p>,
    program: &'p Program,
) -> Result<Typed, AllocError>
    requires faultless { first_name_fault (program_tree program.now) ≡ None }
    requires tables { tables.now ≡ program.now.classes.items }
    ensures { IfOk result (λ t. view.typed t ≡ resolved.resolved (program_tree program.now)) }
{
    resolve_numbered(alloc, tables, program)
}
