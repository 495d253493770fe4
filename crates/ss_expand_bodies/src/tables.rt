// The classes of the core program, with the numbers of its bodies in their tables.

ghost use Rattle.std.specs.Prelude.{◌≡◌, ◌≤◌, IfOk, length, map, option_map};
ghost use Rattle.ss_core.specs.View as core;
ghost use Rattle.ss_core.specs.Chain.{most_classes};
ghost use Rattle.ss_typed.specs.Tree.{InvariantTree};
ghost use Rattle.ss_typed.specs.View as typed;
ghost use Rattle.ss_expand_rules.specs.Program as elab;
ghost use Rattle.ss_expand_rules.specs.Elaborated as elaborated;
ghost use Rattle.ss_expand_rules.specs.Numbers as elab_numbers;
ghost use Rattle.ss_expand_expressions.specs.Views.{numbers_of};
ghost use Rattle.ss_expand_bodies.specs.Origins.{origin_of};

use crate::lookups::{is_own, table};
use crate::numbering::numbers_from;
use crate::origins::{Origin, number_among, number_of_written};
use ss_core::{BodyId, Class, ClassId, Classes, Entry, Expr, Field};
use ss_expand_expressions::{Numbers, plain};
use ss_typed::{Typed, TypedClass, TypedInvariant, body_at, members_of};
use std::alloc::{AllocError, Global};

// The body of the core program for what a class has at this place of its table, where this written body stands.
fn entry_number(
    program: &Typed,
    origins: &[Origin],
    class: ClassId,
    place: usize,
    number: BodyId,
) -> Result<BodyId, AllocError>
    requires listed { map origin_of origins.now ≡ elab.bodies (typed.typed program.now) }
    ensures { IfOk result (λ n. n.0 ≡ elab.entry_number (typed.typed program.now) class.0 place number.0) }
{
    if is_own(class, body_at(program, number)) {
        number_among(origins, Origin::Method(class, place))
    } else {
        number_of_written(program, origins, number)
    }
}

/// The body that the table of the class names at this place, where these are the bodies of the core program in their order.
pub fn number_in_table(
    program: &Typed,
    origins: &[Origin],
    class: ClassId,
    place: usize,
) -> Result<BodyId, AllocError>
    requires listed { map origin_of origins.now ≡ elab.bodies (typed.typed program.now) }
    ensures { IfOk result (λ n. n.0 ≡ elab.number_in_table (typed.typed program.now) class.0 place) }
{
    match table(program, class).get(place) {
        Some(entry) => entry_number(program, origins, class, place, entry.body),
        None => Ok(BodyId(0)),
    }
}

// The table of a class with these entries.
fn list_entries(
    alloc: Global,
    program: &Typed,
    origins: &[Origin],
    class: ClassId,
    entries: &[Entry],
) -> Result<Vec<Entry>, AllocError>
    requires listed { map origin_of origins.now ≡ elab.bodies (typed.typed program.now) }
    ensures { IfOk result (λ es. map core.entry_of es.items ≡ elab.entries_from (typed.typed program.now) class.0 0 (map core.entry_of entries.now)) }
{
    let mut list = Vec::new(alloc);
    for (place, entry) in entries.iter().enumerate() {
        let body = entry_number(program, origins, class, place, entry.body)?;
        list.push(Entry {
            name: entry.name.clone()?,
            body,
        })?;
    }
    Ok(list)
}

// The same fields.
fn copy_fields(alloc: Global, fields: &[Field]) -> Result<Vec<Field>, AllocError>
    ensures { IfOk result (λ fs. map core.field_of fs.items ≡ map core.field_of fields.now) }
{
    let mut list = Vec::new(alloc);
    for field in fields {
        list.push(Field {
            name: field.name.clone()?,
            ty: field.ty,
            mark: field.mark,
        })?;
    }
    Ok(list)
}

// The conditions of these invariants in the numbers of the core program.
fn list_conditions(
    alloc: Global,
    numbers: &Numbers,
    invariants: &[TypedInvariant],
) -> Result<Vec<Expr>, AllocError>
    ensures { IfOk result (λ es. core.exprs es.items ≡ map (λ (i : InvariantTree). elab_numbers.plain (numbers_of numbers.now) i.condition) (map typed.invariant_of invariants.now)) }
{
    let mut list = Vec::new(alloc);
    for invariant in invariants {
        list.push(plain(alloc, numbers, &invariant.condition)?)?;
    }
    Ok(list)
}

// The numbers in invariants, which have `this` and the names of their quantifiers.
fn invariant_numbers(alloc: Global) -> Result<Numbers, AllocError>
    ensures { IfOk result (λ ns. numbers_of ns ≡ elaborated.invariant_numbers) }
{
    numbers_from(Vec::new(alloc), 1, 0, None)
}

// The invariants of a class.
fn invariants_in(alloc: Global, members: Option<&TypedClass>) -> Result<Vec<Expr>, AllocError>
    ensures { IfOk result (λ es. core.exprs es.items ≡ elaborated.invariants_in (option_map (λ m. typed.members m.now) members.entry)) }
{
    match members {
        Some(members) => {
            let numbers = invariant_numbers(alloc)?;
            list_conditions(alloc, &numbers, &members.invariants)
        }
        None => Ok(Vec::new(alloc)),
    }
}

// The class of this number with its invariants, and with the numbers of the core program in its table.
fn class_of(
    alloc: Global,
    program: &Typed,
    origins: &[Origin],
    number: ClassId,
    class: &Class,
) -> Result<Class, AllocError>
    requires listed { map origin_of origins.now ≡ elab.bodies (typed.typed program.now) }
    ensures { IfOk result (λ c. core.class_of c ≡ elaborated.class_of (typed.typed program.now) number.0 (core.class_of class.now)) }
{
    Ok(Class {
        name: class.name.clone()?,
        above: class.above,
        also: Vec::from_slice(alloc, &class.also)?,
        fields: copy_fields(alloc, &class.fields)?,
        invariants: invariants_in(alloc, members_of(program, number))?,
        table: list_entries(alloc, program, origins, number, &class.table)?,
    })
}

/// The classes of the core program, where these are its bodies in their order.
pub fn elaborate_classes(
    alloc: Global,
    program: &Typed,
    origins: &[Origin],
) -> Result<Classes, AllocError>
    requires few_classes { length (core.classes program.now.classes) ≤ most_classes }
    requires listed { map origin_of origins.now ≡ elab.bodies (typed.typed program.now) }
    ensures { IfOk result (λ cs. core.classes cs ≡ elaborated.classes_from (typed.typed program.now) 4 (core.classes program.now.classes)) }
{
    let mut list = Vec::new(alloc);
    let mut number = 4u16;
    for class in &program.classes.list {
        list.push(class_of(alloc, program, origins, ClassId(number), class)?)?;
        number += 2;
    }
    Ok(Classes { list })
}
