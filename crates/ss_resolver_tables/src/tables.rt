// The tables of methods of all classes.

ghost use Rattle.std.specs.Prelude.{◌≡◌, ◌<◌, ◌^◌, ◌++◌, List, IfOk, OnOk, map, option_map, slice_get, sum_by};
ghost use Rattle.ss_core.specs.Tree.{EntryTree};
ghost use Rattle.ss_tables.specs.Classes.{chain};
ghost use Rattle.ss_tables_lookup.specs.Classes.{trees};
ghost use Rattle.ss_tables_lookup.specs.Places.{places_of};
ghost use Rattle.ss_resolver_rules.specs.Numbers.{body_count, names_of, added, overridden, table_along, table, table_place};
ghost use Rattle.ss_resolver_tables.specs.Slots.{AreStarts, slots_of, IsTable, AreTables};

use crate::slots::{MethodTable, Slot, add_methods, overridden_slots};
use crate::starts::Starts;
use ss_tables_lookup::{NameMap, Tables};
use std::alloc::{AllocError, Global};

// The first place of each name in a table.
fn slot_places(alloc: Global, slots: &[Slot<'_>]) -> Result<NameMap<usize>, AllocError>
    ensures { IfOk result (λ p. p ≡ places_of (names_of (slots_of slots.now))) }
{
    let mut places = NameMap::new(alloc);
    for (place, slot) in slots.iter().enumerate() {
        places.note(alloc, slot.name, place)?;
    }
    Ok(places)
}

// The methods of a class that the table above doesn't name.
fn add_own<'p>(
    slots: &mut Vec<Slot<'p>>,
    tables: &Tables<'p>,
    bodies: &Starts,
    class: usize,
    above: &NameMap<usize>,
) -> Result<(), AllocError>
    requires starts { AreStarts body_count (trees tables.now) bodies.now }
    requires few { sum_by body_count (trees tables.now) < 2 ^ 32 }
    ensures { (es : List EntryTree) → above.now ≡ places_of (names_of es)
        → OnOk result (slots_of slots.new.items ≡ slots_of slots.old.items ++ added (trees tables.now) class es) }
{
    match tables.shelf(class) {
        Some(shelf) => add_methods(slots, tables, bodies, class, above, &shelf.methods),
        None => Ok(()),
    }
}

// The slots of a class below one with this table.
fn slots_below<'p>(
    alloc: Global,
    tables: &Tables<'p>,
    bodies: &Starts,
    class: usize,
    above: &MethodTable<'p>,
) -> Result<Vec<Slot<'p>>, AllocError>
    requires starts { AreStarts body_count (trees tables.now) bodies.now }
    requires few { sum_by body_count (trees tables.now) < 2 ^ 32 }
    ensures { (es : List EntryTree) → IsTable es above.now
        → IfOk result (λ v. slots_of v.items ≡ map (overridden (trees tables.now) class) es ++ added (trees tables.now) class es) }
{
    let mut slots = overridden_slots(alloc, tables, bodies, class, &above.slots)?;
    add_own(&mut slots, tables, bodies, class, &above.places)?;
    Ok(slots)
}

// The table of a class below one with this table.
fn table_below<'p>(
    alloc: Global,
    tables: &Tables<'p>,
    bodies: &Starts,
    class: usize,
    above: MethodTable<'p>,
) -> Result<MethodTable<'p>, AllocError>
    requires starts { AreStarts body_count (trees tables.now) bodies.now }
    requires few { sum_by body_count (trees tables.now) < 2 ^ 32 }
    ensures { (es : List EntryTree) → IsTable es above.entry
        → IfOk result (λ t. IsTable (map (overridden (trees tables.now) class) es ++ added (trees tables.now) class es) t) }
{
    let slots = slots_below(alloc, tables, bodies, class, &above)?;
    let places = slot_places(alloc, &slots)?;
    Ok(MethodTable { slots, places })
}

// A class and those above it.
fn chain(alloc: Global, tables: &Tables<'_>, class: usize) -> Result<Vec<usize>, AllocError>
    ensures { IfOk result (λ v. v.items ≡ chain (trees tables.now) class) }
{
    let mut classes = Vec::new(alloc);
    let mut next = Some(class);
    for step in 0..tables.len() {
        let Some(class) = next else {
            return Ok(classes);
        };
        classes.push(class)?;
        next = tables.above(class);
    }
    Ok(classes)
}

// The table of the first of these classes, each of which is above the one before it.
fn table_along<'p>(
    alloc: Global,
    tables: &Tables<'p>,
    bodies: &Starts,
    classes: &[usize],
) -> Result<MethodTable<'p>, AllocError>
    requires starts { AreStarts body_count (trees tables.now) bodies.now }
    requires few { sum_by body_count (trees tables.now) < 2 ^ 32 }
    ensures { IfOk result (λ t. IsTable (table_along (trees tables.now) classes.now) t) }
{
    let mut table = MethodTable {
        slots: Vec::new(alloc),
        places: NameMap::new(alloc),
    };
    let mut first = classes.len();
    while first > 0 {
        first -= 1;
        table = table_below(alloc, tables, bodies, classes[first], table)?;
    }
    Ok(table)
}

/// The table of each class.
pub fn method_tables<'p>(
    alloc: Global,
    tables: &Tables<'p>,
    bodies: &Starts,
) -> Result<Vec<MethodTable<'p>>, AllocError>
    requires starts { AreStarts body_count (trees tables.now) bodies.now }
    requires few { sum_by body_count (trees tables.now) < 2 ^ 32 }
    ensures { IfOk result (λ v. AreTables (trees tables.now) v.items) }
{
    let mut list = Vec::new(alloc);
    for class in 0..tables.len() {
        let classes = chain(alloc, tables, class)?;
        let table = table_along(alloc, tables, bodies, &classes)?;
        list.push(table)?;
    }
    Ok(list)
}

/// The table of the class at this place.
pub fn table_at<'t, 'p>(list: &'t [MethodTable<'p>], class: usize) -> Option<&'t MethodTable<'p>>
    ensures { option_map (λ t. t.now) result ≡ slice_get list.now class }
{
    list.get(class)
}

/// The place of a method's name in the table of a class, by the tables of all.
pub fn table_place(tables: &Tables<'_>, list: &[MethodTable<'_>], class: usize, name: &str) -> usize
    requires { AreTables (trees tables.now) list.now }
    ensures { result ≡ table_place (trees tables.now) class name.now }
{
    let _count = tables.len();
    match table_at(list, class) {
        Some(table) => table.places.find(name).unwrap_or(0),
        None => 0,
    }
}
