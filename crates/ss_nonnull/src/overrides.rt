// Methods that override others.

ghost use Rattle.std.specs.Prelude.{◌≡◌, ◌++◌, [], ◌∷◌, IfOk, OnOk, Option, Some, None, if◌then◌else◌, length, map, option_map, option_and_then, slice_get};
ghost use Rattle.std.specs.Bool.{beq};
ghost use Rattle.ss_paths.specs.Fields.{is_non_null};
ghost use Rattle.ss_core.specs.View.{classes, class_of, entry_of};
ghost use Rattle.ss_core.specs.Chain.{declared, names_of};
ghost use Rattle.ss_typed.specs.View.{typed, body, param};
ghost use Rattle.ss_nonnull_rules.specs.Faults.{table_of, body_of_entry};
ghost use Rattle.ss_nonnull_rules.specs.Overrides.{body_named, overridden, agree, agrees_with, override_faults};
ghost use Rattle.ss_tables_lookup.specs.Places.{places_of};
ghost use Rattle.ss_nonnull.specs.Names.{table_names, mark_fault};

use ss_core::{BodyId, Class, ClassId, Entry, Place, Rule, is_non_null, is_non_null_type};
use ss_faults::Fault;
use ss_nonnull_seen::{body_of_entry, entry_at};
use ss_tables_lookup::NameMap;
use ss_typed::{Typed, TypedBody, TypedParam, body_at, class_at};
use std::alloc::{AllocError, Global};

// The methods of a class's table by name, each by its first place.
fn names_of(alloc: Global, entries: &[Entry]) -> Result<NameMap<usize>, AllocError>
    ensures { IfOk result (λ p. p ≡ places_of (names_of (map entry_of entries.now))) }
{
    let mut places = NameMap::new(alloc);
    for (place, entry) in entries.iter().enumerate() {
        places.note(alloc, entry.name.as_str(), place)?;
    }
    Ok(places)
}

fn table_names(alloc: Global, class: &Class) -> Result<NameMap<usize>, AllocError>
    ensures { IfOk result (λ p. p ≡ table_names (class_of class.now)) }
{
    let places = names_of(alloc, &class.table)?;
    Ok(places)
}

/// The methods of each class by name.
pub fn all_names(alloc: Global, list: &[Class]) -> Result<Vec<NameMap<usize>>, AllocError>
    ensures { IfOk result (λ v. v.items ≡ map table_names (map class_of list.now)) }
{
    let mut tables = Vec::new(alloc);
    for class in list {
        tables.push(table_names(alloc, class)?)?;
    }
    Ok(tables)
}

// The body under this name in the table of a class, whose methods have these places.
fn body_named(class: &Class, names: &NameMap<usize>, name: &str) -> Option<BodyId>
    requires { names.now ≡ table_names (class_of class.now) }
    ensures { option_map (λ n. n.0) result ≡ body_named (class_of class.now).table name.now }
{
    match names.find(name) {
        Some(place) => body_of_entry(entry_at(class, place)),
        None => None,
    }
}

// The names of the table of the class at this place.
fn names_at(names: &[NameMap<usize>], place: usize) -> Option<&NameMap<usize>>
    ensures { option_map (λ p. p.now) result ≡ slice_get names.now place }
{
    names.get(place)
}

// The body under this name in the table of a class, where there is one.
fn find_body(class: Option<&Class>, names: Option<&NameMap<usize>>, name: &str) -> Option<BodyId>
    requires { option_map (λ p. p.now) names ≡ option_map table_names (option_map (λ c. class_of c.now) class) }
    ensures { option_map (λ n. n.0) result ≡ body_named (table_of (option_map (λ c. class_of c.now) class.entry)) name.now }
{
    let Some(class) = class else {
        return None;
    };
    match names {
        Some(names) => body_named(class, names, name),
        None => None,
    }
}

fn named_at(program: &Typed, names: &[NameMap<usize>], place: usize, name: &str) -> Option<BodyId>
    requires { names.now ≡ map table_names (typed program.now).classes }
    ensures { option_map (λ n. n.0) result ≡ body_named (table_of (slice_get (typed program.now).classes place)) name.now }
{
    find_body(class_at(program, place), names_at(names, place), name)
}

// The same, by the class's number.
fn named_in(program: &Typed, names: &[NameMap<usize>], class: ClassId, name: &str) -> Option<BodyId>
    requires { names.now ≡ map table_names (typed program.now).classes }
    ensures { option_map (λ n. n.0) result ≡ body_named (table_of (declared (typed program.now).classes class.0)) name.now }
{
    match class.place() {
        Some(place) => named_at(program, names, place, name),
        None => None,
    }
}

fn body_under(program: &Typed, number: Option<BodyId>) -> Option<&TypedBody>
    ensures { option_map (λ b. body b.now) result ≡ option_and_then (slice_get (typed program.now).bodies) (option_map (λ n. n.0) number) }
{
    match number {
        Some(number) => body_at(program, number),
        None => None,
    }
}

// The method that it overrides.
fn overridden<'p>(
    program: &'p Typed,
    names: &[NameMap<usize>],
    checked: &TypedBody,
) -> Option<&'p TypedBody>
    requires { names.now ≡ map table_names (typed program.now).classes }
    ensures { option_map (λ b. body b.now) result ≡ overridden (typed program.now) (body checked.now) }
{
    let class = program.classes.above(checked.class);
    let number = named_in(program, names, class, checked.name.as_str());
    body_under(program, number)
}

// Whether null is among the values of both parameters, or of neither.
fn have_one_mark(one: &TypedParam, other: &TypedParam) -> bool
    ensures { result ≡ beq (is_non_null (param one.now).ty) (is_non_null (param other.now).ty) }
{
    is_non_null(one.ty) == is_non_null(other.ty)
}

fn agree_along(params: &[TypedParam], others: &[TypedParam]) -> bool
    requires { length params.now ≡ length others.now }
    ensures { result ≡ agree (map param params.now) (map param others.now) }
{
    let mut same = true;
    for place in 0..params.len() {
        same = have_one_mark(&params[place], &others[place]) && same;
    }
    same
}

// Whether the parameters agree in `!`.
fn agree(params: &[TypedParam], others: &[TypedParam]) -> bool
    ensures { result ≡ agree (map param params.now) (map param others.now) }
{
    if params.len() != others.len() {
        return false;
    }
    agree_along(params, others)
}

// Whether the parameters and the results agree in `!`.
fn agrees(checked: &TypedBody, other: &TypedBody) -> bool
    ensures { result ≡ agrees_with (body checked.now) (Some (body other.now)) }
{
    agree(&checked.params, &other.params)
        && is_non_null_type(checked.result) == is_non_null_type(other.result)
}

fn agrees_with(checked: &TypedBody, other: Option<&TypedBody>) -> bool
    ensures { result ≡ agrees_with (body checked.now) (option_map (λ b. body b.now) other.entry) }
{
    match other {
        Some(other) => agrees(checked, other),
        None => true,
    }
}

fn note_mark(found: &mut Vec<Fault>, agrees: bool, place: Place) -> Result<(), AllocError>
    ensures { OnOk result (found.new.items ≡ found.old.items ++ mark_fault agrees place) }
{
    if agrees {
        return Ok(());
    }
    found.push(Fault {
        rule: Rule::BadOverrideType.number(),
        place,
    })?;
    Ok(())
}

/// Notes a method that has types other than the one that it overrides by `!`.
pub fn check_override(
    program: &Typed,
    names: &[NameMap<usize>],
    found: &mut Vec<Fault>,
    checked: &TypedBody,
) -> Result<(), AllocError>
    requires { names.now ≡ map table_names (typed program.now).classes }
    ensures { OnOk result (found.new.items ≡ found.old.items ++ override_faults (typed program.now) (body checked.now)) }
{
    let other = overridden(program, names, checked);
    let agrees = checked.flags.ctor || agrees_with(checked, other);
    note_mark(found, agrees, checked.place)
}
