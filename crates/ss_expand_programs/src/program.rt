// The bodies of a program, and the whole.

ghost use Rattle.std.specs.Prelude.{◌≡◌, ◌≤◌, ◌++◌, Some, IfOk, OnOk, length, map, option_map, filter_map};
ghost use Rattle.std.specs.Option.{option_to_list};
ghost use Rattle.ss_core.specs.Chain.{most_classes};
ghost use Rattle.ss_core.specs.View as core;
ghost use Rattle.ss_typed.specs.Tree.{BlockOf, NoMore};
ghost use Rattle.ss_typed.specs.View as typed;
ghost use Rattle.ss_expand_rules.specs.Bodies as bodies;
ghost use Rattle.ss_expand_rules.specs.Constructors as constructors;
ghost use Rattle.ss_expand_rules.specs.Contracts as contracts;
ghost use Rattle.ss_expand_rules.specs.Elaborated as elaborated;
ghost use Rattle.ss_expand_rules.specs.Program as elab_program;
ghost use Rattle.ss_expand_bodies.specs.Origins.{origin_of};
ghost use Rattle.ss_expand_programs.specs.Limits.{HasFewClasses};

use crate::bodies::written_body;
use crate::declarations::declarations;
use crate::inherited::{InheritedMethod, wrapper_body};
use ss_core::{Body, Class, ClassId, Core, Place};
use ss_expand_bodies::{
    Origin, elaborate_classes, is_declared_by, list_bodies, method_at, number_of_written,
};
use ss_typed::{Typed, TypedBlock, TypedBody, TypedClass, TypedFlags, constructor_of, members_of};
use std::alloc::{AllocError, Global};

// A block without statements, all of which stands at this place.
fn empty_block(alloc: Global, place: Place) -> TypedBlock
    ensures { typed.block result ≡ BlockOf place NoMore place }
{
    TypedBlock {
        place,
        statements: Vec::new(alloc),
        end: place,
    }
}

// What kind of body the constructor is that a class has without writing one.
fn implicit_flags() -> TypedFlags
    ensures { result ≡ constructors.implicit_flags }
{
    TypedFlags {
        is_static: false,
        ctor: true,
        delayed: true,
        pure: false,
        no_default_contract: false,
    }
}

// The constructor that the class has without writing one: `C() { }`, all of which stands at its name.
fn implicit_constructor(
    alloc: Global,
    class: ClassId,
    declared: &Class,
    place: Place,
) -> Result<TypedBody, AllocError>
    ensures { IfOk result (λ b. typed.body b ≡ constructors.implicit_constructor class.0 (core.class_of declared.now).name place) }
{
    Ok(TypedBody {
        class,
        name: declared.name.clone()?,
        place,
        flags: implicit_flags(),
        attributes: Vec::new(alloc),
        params: Vec::new(alloc),
        locals: Vec::new(alloc),
        result: None,
        entry: Vec::new(alloc),
        exit: Vec::new(alloc),
        modifies: None,
        base: None,
        block: empty_block(alloc, place),
    })
}

// The body of a constructor.
fn constructor_alone(
    alloc: Global,
    program: &Typed,
    origins: &[Origin],
    body: &TypedBody,
) -> Result<Body, AllocError>
    requires few_classes { length (core.classes program.now.classes) ≤ most_classes }
    requires listed { map origin_of origins.now ≡ elab_program.bodies (typed.typed program.now) }
    ensures { IfOk result (λ b. core.body b ≡ elaborated.constructor_alone (typed.typed program.now) (typed.body body.now)) }
{
    written_body(alloc, program, origins, body, &[body])
}

// The body of the constructor that this class has without writing one.
fn implicit_body(
    alloc: Global,
    program: &Typed,
    origins: &[Origin],
    class: ClassId,
    declared: &Class,
    place: Place,
) -> Result<Body, AllocError>
    requires few_classes { length (core.classes program.now.classes) ≤ most_classes }
    requires listed { map origin_of origins.now ≡ elab_program.bodies (typed.typed program.now) }
    ensures { IfOk result (λ b. core.body b ≡ elaborated.constructor_alone (typed.typed program.now) (constructors.implicit_constructor class.0 (core.class_of declared.now).name place)) }
{
    let body = implicit_constructor(alloc, class, declared, place)?;
    constructor_alone(alloc, program, origins, &body)
}

// The same where the class is declared, and has members.
fn implicit_in(
    alloc: Global,
    program: &Typed,
    origins: &[Origin],
    class: ClassId,
    declared: Option<&Class>,
    members: Option<&TypedClass>,
) -> Result<Option<Body>, AllocError>
    requires few_classes { length (core.classes program.now.classes) ≤ most_classes }
    requires listed { map origin_of origins.now ≡ elab_program.bodies (typed.typed program.now) }
    ensures { IfOk result (λ b. option_map core.body b ≡ option_map (elaborated.constructor_alone (typed.typed program.now)) (elaborated.implicit_in class.0 (option_map (λ c. core.class_of c.now) declared.entry) (option_map (λ m. typed.members m.now) members.entry))) }
{
    match declared {
        Some(declared) => match members {
            Some(members) => {
                let place = members.place;
                let body = implicit_body(alloc, program, origins, class, declared, place)?;
                Ok(Some(body))
            }
            None => Ok(None),
        },
        None => Ok(None),
    }
}

// The body of the class's constructor.
fn constructor_body(
    alloc: Global,
    program: &Typed,
    origins: &[Origin],
    class: ClassId,
) -> Result<Option<Body>, AllocError>
    requires few_classes { length (core.classes program.now.classes) ≤ most_classes }
    requires listed { map origin_of origins.now ≡ elab_program.bodies (typed.typed program.now) }
    ensures { IfOk result (λ b. option_map core.body b ≡ elaborated.constructor_body (typed.typed program.now) class.0) }
{
    match constructor_of(program, class) {
        Some(body) => {
            let body = constructor_alone(alloc, program, origins, body)?;
            Ok(Some(body))
        }
        None => {
            let declared = program.classes.declared(class);
            let members = members_of(program, class);
            implicit_in(alloc, program, origins, class, declared, members)
        }
    }
}

// The body for a method that the class inherits at this place of its table.
fn wrapper_at(
    alloc: Global,
    program: &Typed,
    origins: &[Origin],
    inherited: InheritedMethod<'_>,
    members: Option<&TypedClass>,
) -> Result<Option<Body>, AllocError>
    requires listed { map origin_of origins.now ≡ elab_program.bodies (typed.typed program.now) }
    ensures { IfOk result (λ b. option_map core.body b ≡ elaborated.wrapper_at (typed.typed program.now) inherited.entry.class.0 inherited.entry.method (typed.body inherited.entry.body.now) (option_map (λ m. typed.members m.now) members.entry)) }
{
    let InheritedMethod { class, method, .. } = inherited;
    match members {
        Some(members) => {
            let declared = declarations(alloc, program, class, method)?;
            let place = members.place;
            let wrapper = wrapper_body(alloc, program, origins, place, inherited, &declared)?;
            Ok(Some(wrapper))
        }
        None => Ok(None),
    }
}

// The body of a method that the class declares at this place of its table.
fn declared_body(
    alloc: Global,
    program: &Typed,
    origins: &[Origin],
    class: ClassId,
    method: usize,
    body: &TypedBody,
) -> Result<Body, AllocError>
    requires few_classes { length (core.classes program.now.classes) ≤ most_classes }
    requires listed { map origin_of origins.now ≡ elab_program.bodies (typed.typed program.now) }
    ensures { IfOk result (λ b. core.body b ≡ bodies.written_body (typed.typed program.now) (typed.body body.now) (contracts.declarations (typed.typed program.now) class.0 method)) }
{
    let declared = declarations(alloc, program, class, method)?;
    written_body(alloc, program, origins, body, &declared)
}

// The body that the class has of its own for what stands at this place of its table.
fn method_body(
    alloc: Global,
    program: &Typed,
    origins: &[Origin],
    class: ClassId,
    method: usize,
    body: &TypedBody,
) -> Result<Option<Body>, AllocError>
    requires few_classes { length (core.classes program.now.classes) ≤ most_classes }
    requires listed { map origin_of origins.now ≡ elab_program.bodies (typed.typed program.now) }
    ensures { IfOk result (λ b. option_map core.body b ≡ elaborated.method_body (typed.typed program.now) class.0 method (typed.body body.now)) }
{
    if is_declared_by(class, Some(body)) {
        let body = declared_body(alloc, program, origins, class, method, body)?;
        Ok(Some(body))
    } else {
        let members = members_of(program, class);
        let inherited = InheritedMethod {
            class,
            method,
            body,
        };
        wrapper_at(alloc, program, origins, inherited, members)
    }
}

// The same, where something stands there.
fn method_in_table(
    alloc: Global,
    program: &Typed,
    origins: &[Origin],
    class: ClassId,
    method: usize,
) -> Result<Option<Body>, AllocError>
    requires few_classes { length (core.classes program.now.classes) ≤ most_classes }
    requires listed { map origin_of origins.now ≡ elab_program.bodies (typed.typed program.now) }
    ensures { IfOk result (λ b. option_map core.body b ≡ elaborated.body_of (typed.typed program.now) (elab_program.Method class.0 method)) }
{
    match method_at(program, class, method) {
        Some(body) => method_body(alloc, program, origins, class, method, body),
        None => Ok(None),
    }
}

// A body of the core program.
fn body_of(
    alloc: Global,
    program: &Typed,
    origins: &[Origin],
    origin: Origin,
) -> Result<Option<Body>, AllocError>
    requires few_classes { length (core.classes program.now.classes) ≤ most_classes }
    requires listed { map origin_of origins.now ≡ elab_program.bodies (typed.typed program.now) }
    ensures { IfOk result (λ b. option_map core.body b ≡ elaborated.body_of (typed.typed program.now) (origin_of origin)) }
{
    match origin {
        Origin::Constructor(class) => constructor_body(alloc, program, origins, class),
        Origin::Method(class, method) => method_in_table(alloc, program, origins, class, method),
    }
}

// Adds the body, where there is one.
fn add_body(list: &mut Vec<Body>, body: Option<Body>) -> Result<(), AllocError>
    ensures { OnOk result (map core.body list.new.items ≡ map core.body list.old.items ++ option_to_list (option_map core.body body)) }
{
    match body {
        Some(body) => {
            list.push(body)?;
            Ok(())
        }
        None => Ok(()),
    }
}

// All bodies, in their order.
fn expand_bodies(
    alloc: Global,
    program: &Typed,
    origins: &[Origin],
) -> Result<Vec<Body>, AllocError>
    requires few_classes { length (core.classes program.now.classes) ≤ most_classes }
    requires listed { map origin_of origins.now ≡ elab_program.bodies (typed.typed program.now) }
    ensures { IfOk result (λ bs. map core.body bs.items ≡ filter_map (elaborated.body_of (typed.typed program.now)) (map origin_of origins.now)) }
{
    let mut list = Vec::new(alloc);
    for origin in origins {
        let body = body_of(alloc, program, origins, *origin)?;
        add_body(&mut list, body)?;
    }
    Ok(list)
}

/// The core program that the resolved program means.
pub fn expand(alloc: Global, program: &Typed) -> Result<Core, AllocError>
    requires few_classes { HasFewClasses (typed.typed program.now) }
    ensures { IfOk result (λ c. core.core c ≡ elaborated.elaborated (typed.typed program.now)) }
{
    let origins = list_bodies(alloc, program)?;
    let classes = elaborate_classes(alloc, program, &origins)?;
    let bodies = expand_bodies(alloc, program, &origins)?;
    let main = number_of_written(program, &origins, program.main)?;
    Ok(Core {
        classes,
        bodies,
        main,
    })
}
