// The fields that a class and those above it declare.

ghost use Rattle.std.specs.Prelude.{◌≡◌, ◌≤◌, ◌+◌, ◌++◌, length, IfOk, OnOk, map, [], ◌∷◌};
ghost use Rattle.ss_core.specs.Chain.{most_classes, all_fields};
ghost use Rattle.ss_core.specs.View as view;
ghost use Rattle.ss_vcgen_defaults.specs.Defaults.{slot, slot_of, with_slot, slots_if, slots_upto};

use ss_core::{Class, ClassId, Classes, Field};
use ss_logic::Sort;
use ss_terms::sort_of_type;
use std::alloc::{AllocError, Global};

// A field, and the sort of what it holds.
#[derive(Clone, Copy)]
pub(crate) struct Held {
    pub(crate) field: u32,
    pub(crate) sort: Sort,
}

// The next number; where there is none, that counts as want of memory.
fn next(number: u32) -> Result<u32, AllocError>
    ensures { IfOk result (λ n. n ≡ number + 1) }
{
    match number.checked_add(1) {
        Some(n) => Ok(n),
        None => Err(AllocError),
    }
}

// Adds the field.
fn push_field(list: &mut Vec<Held>, number: u32, field: &Field) -> Result<(), AllocError>
    ensures { OnOk result (map slot_of list.new.items ≡ map slot_of list.old.items ++ slot number (view.field_of field.now) ∷ []) }
{
    list.push(Held {
        field: number,
        sort: sort_of_type(field.ty),
    })?;
    Ok(())
}

// Adds the field, where it is wanted.
fn add_field(
    list: &mut Vec<Held>,
    wanted: bool,
    number: u32,
    field: &Field,
) -> Result<(), AllocError>
    ensures { OnOk result (map slot_of list.new.items ≡ with_slot wanted (slot number (view.field_of field.now)) (map slot_of list.old.items)) }
{
    if wanted {
        push_field(list, number, field)
    } else {
        Ok(())
    }
}

// Adds the fields of the class, of which the first has this number, where they are wanted. The result is the number after the last.
fn add_fields(
    list: &mut Vec<Held>,
    wanted: bool,
    first: u32,
    class: &Class,
) -> Result<u32, AllocError>
    ensures number { IfOk result (λ n. n ≡ first + length (view.class_of class.now).fields) }
    ensures added { OnOk result (map slot_of list.new.items ≡ map slot_of list.old.items ++ slots_if wanted first (view.class_of class.now).fields) }
{
    let mut number = first;
    for field in &class.fields {
        add_field(list, wanted, number, field)?;
        number = next(number)?;
    }
    Ok(number)
}

// The fields that the class and those above it declare, in the order of their numbers.
pub(crate) fn fields_upto(
    alloc: Global,
    classes: &Classes,
    t: ClassId,
) -> Result<Vec<Held>, AllocError>
    requires { length (view.classes classes.now) ≤ most_classes }
    ensures { IfOk result (λ v. map slot_of v.items ≡ slots_upto (view.classes classes.now) t.0 0 (all_fields (view.classes classes.now))) }
{
    let mut list = Vec::new(alloc);
    let mut class_number = 4u16;
    let mut number = 0;
    for class in &classes.list {
        let wanted = classes.is_subclass(t, ClassId(class_number));
        number = add_fields(&mut list, wanted, number, class)?;
        class_number += 2;
    }
    Ok(list)
}
