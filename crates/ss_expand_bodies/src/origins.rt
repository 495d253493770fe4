// The bodies of the core program, and their numbers.

ghost use Rattle.std.specs.Prelude.{◌≡◌, ◌==◌, ◌<◌, ◌≤◌, ◌++◌, ◌∷◌, [], cond, length, map, option_map, unwrap_or, position, nat_lt, IfOk, OnOk};
ghost use Rattle.std.specs.List.Sorted.{IsPartitionPoint};
ghost use Rattle.ss_core.specs.Tree.{EntryTree};
ghost use Rattle.ss_core.specs.View as core;
ghost use Rattle.ss_core.specs.Chain.{most_classes};
ghost use Rattle.ss_typed.specs.View as typed;
ghost use Rattle.ss_expand_rules.specs.Program as elab;
ghost use Rattle.ss_expand_bodies.specs.Origins.{origin_of, origins_of, class_in, IsByClass};

use crate::lookups::{is_own, table};
use ss_core::{BodyId, ClassId, Entry};
use ss_typed::{Typed, TypedBody, body_at};
use std::alloc::{AllocError, Global};

/// What a body of the core program is.
#[derive(Clone, Copy)]
pub enum Origin {
    /// The constructor of a class.
    Constructor(ClassId),
    /// What a class has of its own at this place of its table.
    Method(ClassId, usize),
}

// Adds the body where it is one of the class's own.
fn add_where(origins: &mut Vec<Origin>, own: bool, origin: Origin) -> Result<(), AllocError>
    ensures { OnOk result (origins_of origins.new ≡ origins_of origins.old ++ cond own (origin_of origin ∷ []) []) }
{
    if own {
        origins.push(origin)?;
    }
    Ok(())
}

// Adds the methods of these entries that the class has of its own, of which the first stands at this place.
fn add_methods(
    origins: &mut Vec<Origin>,
    program: &Typed,
    class: ClassId,
    entries: &[Entry],
) -> Result<(), AllocError>
    ensures { OnOk result (origins_of origins.new ≡ origins_of origins.old ++ elab.methods_from (typed.typed program.now) class.0 0 (map core.entry_of entries.now)) }
{
    for (place, entry) in entries.iter().enumerate() {
        let own = is_own(class, body_at(program, entry.body));
        add_where(origins, own, Origin::Method(class, place))?;
    }
    Ok(())
}

// Adds the bodies of the class: its constructor, and then its methods in the order of its table.
fn add_class(origins: &mut Vec<Origin>, program: &Typed, class: ClassId) -> Result<(), AllocError>
    ensures { OnOk result (origins_of origins.new ≡ origins_of origins.old ++ elab.bodies_of_class (typed.typed program.now) class.0) }
{
    origins.push(Origin::Constructor(class))?;
    add_methods(origins, program, class, table(program, class))
}

/// The bodies of the core program in their order.
pub fn list_bodies(alloc: Global, program: &Typed) -> Result<Vec<Origin>, AllocError>
    requires few_classes { length (core.classes program.now.classes) ≤ most_classes }
    ensures { IfOk result (λ os. origins_of os ≡ elab.bodies (typed.typed program.now)) }
{
    let mut origins = Vec::new(alloc);
    let mut number = 4u16;
    for _class in &program.classes.list {
        add_class(&mut origins, program, ClassId(number))?;
        number += 2;
    }
    Ok(origins)
}

// Whether they are the same body.
fn is_same(a: Origin, b: Origin) -> bool
    ensures { result ≡ elab.same_origin (origin_of a) (origin_of b) }
{
    match (a, b) {
        (Origin::Constructor(t), Origin::Constructor(u)) => t == u,
        (Origin::Method(t, m), Origin::Method(u, n)) => t == u && m == n,
        (Origin::Constructor(_), Origin::Method(..)) => false,
        (Origin::Method(..), Origin::Constructor(_)) => false,
    }
}

// The class that the body belongs to.
fn class_of(origin: Origin) -> ClassId
    ensures { result.0 ≡ class_in (origin_of origin) }
{
    match origin {
        Origin::Constructor(class) => class,
        Origin::Method(class, _) => class,
    }
}

// How many of these bodies belong to classes before this one.
fn count_before(origins: &[Origin], class: ClassId) -> usize
    requires by_class { IsByClass (map origin_of origins.now) }
    ensures bound { result ≤ length origins.now }
    ensures parted { IsPartitionPoint (λ (o : Origin). class_in (origin_of o) < class.0) (λ (o : Origin). class.0 ≤ class_in (origin_of o)) origins.now result }
{
    origins.partition_point(
        |origin: &Origin| -> bool
            ensures { result ≡ nat_lt (class_in (origin_of origin.now)) class.0 }
        { class_of(*origin).0 < class.0 },
    )
}

// The place of a body among these.
fn find_origin(origins: &[Origin], origin: Origin) -> Option<usize>
    ensures { result ≡ position (elab.same_origin (origin_of origin)) (map origin_of origins.now) }
{
    for (place, other) in origins.iter().enumerate() {
        if is_same(origin, *other) {
            return Some(place);
        }
    }
    None
}

// The same among bodies that stand class by class: it is looked for from where its class begins.
fn find_in_class(origins: &[Origin], origin: Origin) -> Option<usize>
    requires by_class { IsByClass (map origin_of origins.now) }
    ensures { result ≡ position (elab.same_origin (origin_of origin)) (map origin_of origins.now) }
{
    let first = count_before(origins, class_of(origin));
    let (_, rest) = origins.split_at(first);
    match find_origin(rest, origin) {
        Some(place) => Some(first + place),
        None => None,
    }
}

/// The number of a body among these, which stand class by class; 0 where it isn't one of them. There is no room for so many that
/// it doesn't fit.
pub fn number_among(origins: &[Origin], origin: Origin) -> Result<BodyId, AllocError>
    requires by_class { IsByClass (map origin_of origins.now) }
    ensures { IfOk result (λ n. n.0 ≡ unwrap_or (position (elab.same_origin (origin_of origin)) (map origin_of origins.now)) 0) }
{
    let place = find_in_class(origins, origin).unwrap_or(0);
    let number = u32::try_from(place).map_err(|_| AllocError)?;
    Ok(BodyId(number))
}

// The place among these entries of the method with this written body.
fn find_entry(number: BodyId, entries: &[Entry]) -> Option<usize>
    ensures { result ≡ position (λ (e : EntryTree). e.body == number.0) (map core.entry_of entries.now) }
{
    for (place, entry) in entries.iter().enumerate() {
        if entry.body == number {
            return Some(place);
        }
    }
    None
}

// The same, and 0 where there is none.
fn place_in(number: BodyId, entries: &[Entry]) -> usize
    ensures { result ≡ elab.place_in number.0 (map core.entry_of entries.now) }
{
    match find_entry(number, entries) {
        Some(place) => place,
        None => 0,
    }
}

// The body of the core program that a written method has.
fn written(program: &Typed, number: BodyId, body: Option<&TypedBody>) -> Origin
    ensures { origin_of result ≡ elab.written (typed.typed program.now) number.0 (option_map (λ b. typed.body b.now) body.entry) }
{
    match body {
        Some(body) => Origin::Method(body.class, place_in(number, table(program, body.class))),
        None => Origin::Method(ClassId(0), 0),
    }
}

/// The number of a written method, where these are the bodies of the core program in their order.
pub fn number_of_written(
    program: &Typed,
    origins: &[Origin],
    number: BodyId,
) -> Result<BodyId, AllocError>
    requires listed { map origin_of origins.now ≡ elab.bodies (typed.typed program.now) }
    ensures { IfOk result (λ n. n.0 ≡ elab.number_of_written (typed.typed program.now) number.0) }
{
    let origin = written(program, number, body_at(program, number));
    number_among(origins, origin)
}
