// Bodies by number and by class, and the types of their locals.

ghost use Rattle.std.specs.Prelude.{◌≡◌, ◌++◌, ◌==◌, map, IfOk, OnOk, option_map, option_to_list};
ghost use Rattle.std.specs.List.{list_any};
ghost use Rattle.ss_core.specs.Tree as tree;
ghost use Rattle.ss_core.specs.View as view;
ghost use Rattle.ss_store_rules.specs.Locals.{types_of, this_types, argument_types, local_types};
ghost use Rattle.ss_store_rules.specs.Typed as typed;

use ss_core::{Body, BodyId, Callee, Class, ClassId, Core, Local, Ty};
use ss_core_bodies::{body_at, method_at};
use std::alloc::{AllocError, Global};

fn is_instance_method(body: &Body) -> bool
    ensures { result ≡ typed.is_instance_method (view.body body.now) }
{
    !body.flags.is_static && !body.flags.ctor
}

// Whether the body stands in the table of the class.
fn has_body(class: &Class, number: BodyId) -> bool
    ensures { result ≡ list_any (λ e. e.body == number.0) (view.class_of class.now).table }
{
    for entry in &class.table {
        if entry.body == number {
            return true;
        }
    }
    false
}

fn stands_in_table(core: &Core, class: ClassId, number: BodyId) -> bool
    ensures { result ≡ typed.stands_in_table (view.core core.now) class.0 number.0 }
{
    match core.classes.declared(class) {
        Some(class) => has_body(class, number),
        None => false,
    }
}

/// The body that a call names in the text of a body.
pub fn callee_of<'c>(core: &'c Core, body: &Body, callee: &Callee) -> Option<&'c Body>
    ensures { option_map (λ b. view.body b.now) result ≡ typed.callee_of (view.core core.now) (view.body body.now) (view.callee_tree callee.now) }
{
    match callee {
        Callee::Dispatched(_, class, m) => instance_method(method_at(core, *class, *m)),
        Callee::Static(number) => static_method(body_at(core, *number)),
        Callee::Base(number) => base_method(core, body, *number),
        Callee::Constructor(number) => base_constructor(core, body, *number),
    }
}

fn instance_method(body: Option<&Body>) -> Option<&Body>
    ensures { option_map (λ b. view.body b.now) result ≡ typed.where_body typed.is_instance_method (option_map (λ b. view.body b.now) body.entry) }
{
    match body {
        Some(body) => {
            if is_instance_method(body) {
                Some(body)
            } else {
                None
            }
        }
        None => None,
    }
}

fn static_method(body: Option<&Body>) -> Option<&Body>
    ensures { option_map (λ b. view.body b.now) result ≡ typed.where_body (λ callee. callee.flags.is_static) (option_map (λ b. view.body b.now) body.entry) }
{
    match body {
        Some(body) => {
            if body.flags.is_static {
                Some(body)
            } else {
                None
            }
        }
        None => None,
    }
}

// A method of the class above, in the text of a body that isn't static.
fn base_method<'c>(core: &'c Core, body: &Body, number: BodyId) -> Option<&'c Body>
    ensures { option_map (λ b. view.body b.now) result ≡ typed.callee_of (view.core core.now) (view.body body.now) (tree.Base number.0) }
{
    let found = body_at(core, number)?;
    let above = core.classes.above(body.class);
    if is_instance_method(found) && !body.flags.is_static && stands_in_table(core, above, number) {
        Some(found)
    } else {
        None
    }
}

// The constructor of the class above, in the text of a constructor.
fn base_constructor<'c>(core: &'c Core, body: &Body, number: BodyId) -> Option<&'c Body>
    ensures { option_map (λ b. view.body b.now) result ≡ typed.callee_of (view.core core.now) (view.body body.now) (tree.BaseConstructor number.0) }
{
    let found = body_at(core, number)?;
    let above = core.classes.above(body.class);
    if found.flags.ctor && found.class == above && body.flags.ctor {
        Some(found)
    } else {
        None
    }
}

fn add_types(found: &mut Vec<Ty>, locals: &[Local]) -> Result<(), AllocError>
    ensures { OnOk result (found.new.items ≡ found.old.items ++ types_of (map view.local_of locals.now)) }
{
    for local in locals {
        found.push(local.ty)?;
    }
    Ok(())
}

fn add_this(found: &mut Vec<Ty>, body: &Body) -> Result<(), AllocError>
    ensures { OnOk result (found.new.items ≡ found.old.items ++ this_types (view.body body.now)) }
{
    if !body.flags.is_static {
        found.push(Ty::Ref {
            class: body.class,
            non_null: true,
        })?;
    }
    Ok(())
}

fn add_result(found: &mut Vec<Ty>, given: Option<Ty>) -> Result<(), AllocError>
    ensures { OnOk result (found.new.items ≡ found.old.items ++ option_to_list given) }
{
    if let Some(ty) = given {
        found.push(ty)?;
    }
    Ok(())
}

/// The types of the arguments of a body, its `this` included.
pub fn argument_types(alloc: Global, body: &Body) -> Result<Vec<Ty>, AllocError>
    ensures { IfOk result (λ v. v.items ≡ argument_types (view.body body.now)) }
{
    let mut found = Vec::new(alloc);
    add_this(&mut found, body)?;
    add_types(&mut found, &body.params)?;
    Ok(found)
}

/// The types of the locals of a body.
pub fn local_types(alloc: Global, body: &Body) -> Result<Vec<Ty>, AllocError>
    ensures { IfOk result (λ v. v.items ≡ local_types (view.body body.now)) }
{
    let mut found = argument_types(alloc, body)?;
    add_types(&mut found, &body.locals)?;
    add_result(&mut found, body.result)?;
    Ok(found)
}
