// The numbers of fields and bodies, and the tables of methods.

ghost use Rattle.std.specs.Prelude.{◌≡◌, ◌<◌, ◌^◌, ℕ, List, [], ◌∷◌, ◌++◌, IfOk, OnOk, length, map, take, sum_by};
ghost use Rattle.ss_core.specs.Tree.{EntryTree};
ghost use Rattle.ss_tables.specs.Members.{methods_in, constructors_in};
ghost use Rattle.ss_tables.specs.Classes.{members_at, chain};
ghost use Rattle.ss_tables_lookup.specs.Classes.{trees};
ghost use Rattle.ss_tables_lookup.specs.Places.{places_of};
ghost use Rattle.ss_tables_lookup.specs.Shelves as shelves;
ghost use Rattle.ss_tables_lookup.specs.Views.{method_tree};
ghost use Rattle.ss_resolver_rules.specs.Numbers.{field_count, body_count, field_place, field_id, constructor_id, method_place, method_id, names_of, declared_entry, overridden, table_along, table, table_place};
ghost use Rattle.ss_resolver_tables.specs.Slots.{AreStarts, slot_of, slots_of, IsTable, new_among};
ghost use Rattle.ss_resolver_tables.specs.Slots as slots;

use crate::starts::Starts;
use ss_core::{BodyId, FieldId};
use ss_tables_lookup::{MethodRef, NameMap, Tables};
use std::alloc::{AllocError, Global};

/// A method in a table: its name, and the written body.
#[derive(Clone, Copy)]
pub struct Slot<'p> {
    pub name: &'p str,
    pub body: BodyId,
}

/// The table of methods of a class, with the first place of each name.
#[derive(Drop)]
pub struct MethodTable<'p> {
    pub slots: Vec<Slot<'p>>,
    pub places: NameMap<usize>,
}

// How many fields the classes before this one have.
fn fields_before(tables: &Tables<'_>, fields: &Starts, class: usize) -> usize
    requires { AreStarts field_count (trees tables.now) fields.now }
    ensures { result ≡ sum_by field_count (take class (trees tables.now)) }
{
    let _count = tables.len();
    fields.at(class)
}

// The place of a name among the fields of a class.
fn field_place(tables: &Tables<'_>, class: usize, name: &str) -> usize
    ensures { result ≡ field_place (members_at (trees tables.now) class) name.now }
{
    match tables.shelf(class) {
        Some(shelf) => shelf.field_places.find(name).unwrap_or(0),
        None => 0,
    }
}

/// The field of this name that a class declares.
pub fn field_id(tables: &Tables<'_>, fields: &Starts, class: usize, name: &str) -> FieldId
    requires starts { AreStarts field_count (trees tables.now) fields.now }
    requires few { sum_by field_count (trees tables.now) < 2 ^ 32 }
    ensures { result.0 ≡ field_id (trees tables.now) class name.now }
{
    let before = fields_before(tables, fields, class);
    let place = field_place(tables, class, name);
    FieldId((before + place) as u32)
}

// How many bodies the classes before this one have.
fn bodies_before(tables: &Tables<'_>, bodies: &Starts, class: usize) -> usize
    requires { AreStarts body_count (trees tables.now) bodies.now }
    ensures { result ≡ constructor_id (trees tables.now) class }
{
    let _count = tables.len();
    bodies.at(class)
}

/// The constructor of a class, where it has one.
pub fn constructor_id(tables: &Tables<'_>, bodies: &Starts, class: usize) -> BodyId
    requires starts { AreStarts body_count (trees tables.now) bodies.now }
    requires few { sum_by body_count (trees tables.now) < 2 ^ 32 }
    ensures { result.0 ≡ constructor_id (trees tables.now) class }
{
    BodyId(bodies_before(tables, bodies, class) as u32)
}

// How many constructors a class has.
fn constructor_count(tables: &Tables<'_>, class: usize) -> usize
    ensures { result ≡ length (constructors_in (members_at (trees tables.now) class)) }
{
    match tables.shelf(class) {
        Some(shelf) => shelf.constructors.len(),
        None => 0,
    }
}

// The place of a name among the methods of a class.
fn method_place(tables: &Tables<'_>, class: usize, name: &str) -> usize
    ensures { result ≡ method_place (members_at (trees tables.now) class) name.now }
{
    match tables.shelf(class) {
        Some(shelf) => shelf.method_places.find(name).unwrap_or(0),
        None => 0,
    }
}

/// The body of the method of this name that a class declares.
pub fn method_id(tables: &Tables<'_>, bodies: &Starts, class: usize, name: &str) -> BodyId
    requires starts { AreStarts body_count (trees tables.now) bodies.now }
    requires few { sum_by body_count (trees tables.now) < 2 ^ 32 }
    ensures { result.0 ≡ method_id (trees tables.now) class name.now }
{
    let before = bodies_before(tables, bodies, class);
    let constructors = constructor_count(tables, class);
    let place = method_place(tables, class, name);
    BodyId((before + (constructors + place)) as u32)
}

// A method that the class declares stands in place of the one that it overrides.
fn overridden<'p>(tables: &Tables<'p>, bodies: &Starts, class: usize, slot: Slot<'p>) -> Slot<'p>
    requires starts { AreStarts body_count (trees tables.now) bodies.now }
    requires few { sum_by body_count (trees tables.now) < 2 ^ 32 }
    ensures { slot_of result ≡ overridden (trees tables.now) class (slot_of slot.entry) }
{
    match tables.own_method(class, slot.name) {
        None => slot,
        Some(_) => Slot {
            name: slot.name,
            body: method_id(tables, bodies, class, slot.name),
        },
    }
}

pub(crate) fn overridden_slots<'p>(
    alloc: Global,
    tables: &Tables<'p>,
    bodies: &Starts,
    class: usize,
    above: &[Slot<'p>],
) -> Result<Vec<Slot<'p>>, AllocError>
    requires starts { AreStarts body_count (trees tables.now) bodies.now }
    requires few { sum_by body_count (trees tables.now) < 2 ^ 32 }
    ensures { IfOk result (λ v. slots_of v.items ≡ map (overridden (trees tables.now) class) (slots_of above.now)) }
{
    let mut slots = Vec::new(alloc);
    for slot in above {
        slots.push(overridden(tables, bodies, class, *slot))?;
    }
    Ok(slots)
}

// A method of the class.
fn push_method<'p>(
    slots: &mut Vec<Slot<'p>>,
    tables: &Tables<'p>,
    bodies: &Starts,
    class: usize,
    name: &'p str,
) -> Result<(), AllocError>
    requires starts { AreStarts body_count (trees tables.now) bodies.now }
    requires few { sum_by body_count (trees tables.now) < 2 ^ 32 }
    ensures { OnOk result (slots_of slots.new.items ≡ slots_of slots.old.items ++ declared_entry (trees tables.now) class name.now ∷ []) }
{
    slots.push(Slot {
        name,
        body: method_id(tables, bodies, class, name),
    })?;
    Ok(())
}

// A method of the class, where the table above doesn't name it.
fn add_method<'p>(
    slots: &mut Vec<Slot<'p>>,
    tables: &Tables<'p>,
    bodies: &Starts,
    class: usize,
    above: &NameMap<usize>,
    name: &'p str,
) -> Result<(), AllocError>
    requires starts { AreStarts body_count (trees tables.now) bodies.now }
    requires few { sum_by body_count (trees tables.now) < 2 ^ 32 }
    ensures { (es : List EntryTree) → above.now ≡ places_of (names_of es)
        → OnOk result (slots_of slots.new.items ≡ slots_of slots.old.items ++ map (declared_entry (trees tables.now) class) (new_among es (name.now ∷ []))) }
{
    match above.find(name) {
        Some(_) => Ok(()),
        None => push_method(slots, tables, bodies, class, name),
    }
}

// The methods of the class that the table above doesn't name.
pub(crate) fn add_methods<'p>(
    slots: &mut Vec<Slot<'p>>,
    tables: &Tables<'p>,
    bodies: &Starts,
    class: usize,
    above: &NameMap<usize>,
    methods: &[MethodRef<'p>],
) -> Result<(), AllocError>
    requires starts { AreStarts body_count (trees tables.now) bodies.now }
    requires few { sum_by body_count (trees tables.now) < 2 ^ 32 }
    ensures { (es : List EntryTree) → above.now ≡ places_of (names_of es)
        → OnOk result (slots_of slots.new.items ≡ slots_of slots.old.items
        ++ map (declared_entry (trees tables.now) class) (new_among es (shelves.method_names (map method_tree methods.now)))) }
{
    for method in methods {
        let name = method.method.name.text.as_str();
        add_method(slots, tables, bodies, class, above, name)?;
    }
    Ok(())
}
