// The fields of new objects.
ghost use Rattle.std.specs.Prelude.{◌≡◌, ◌+◌, ◌^◌, ◌<◌, ◌≤◌, ◌++◌, length, map, vec_capacity, OnOk, OnErr};
ghost use Rattle.ss_core.specs.View.{classes, field_of};
ghost use Rattle.ss_core.specs.Chain.{all_fields, IsWithinLimits};
ghost use Rattle.ss_store_rules.specs.Changes.{slots_from, new_fields};
ghost use Rattle.ss_store.specs.Slots.{slot_for, slots_of, slots_upto};

use crate::defaults::default_value;
use crate::object::Slot;
use ss_core::{ClassId, Classes, Field, FieldId, MOST_LEVELS};
use std::alloc::AllocError;

fn slot_for(number: u32, field: &Field) -> Slot
    ensures { result ≡ slot_for number (field_of field.now) }
{
    Slot {
        field: FieldId(number),
        value: default_value(field.ty),
    }
}

/// Appends slots for the fields, which have the numbers from `first` on.
fn push_slots(slots: &mut Vec<Slot>, fields: &[Field], first: u32) -> Result<(), AllocError>
    requires { first + length fields.now < 2 ^ 32 }
    ensures pushed { OnOk result (slots.new.items ≡ slots.old.items ++ slots_of first (map field_of fields.now)) }
    ensures capacity { vec_capacity slots.old ≤ vec_capacity slots.new }
    ensures full { OnErr result (vec_capacity slots.old < length slots.old.items + length fields.now) }
{
    for (i, field) in fields.iter().enumerate() {
        slots.push(slot_for(first + i as u32, field))?;
    }
    Ok(())
}

/// Appends slots for the fields that the class declares.
fn push_declared(slots: &mut Vec<Slot>, k: &Classes, t: ClassId) -> Result<(), AllocError>
    requires { IsWithinLimits (classes k.now) }
    ensures pushed { OnOk result (slots.new.items ≡ slots.old.items ++ slots_from t.0 0 (all_fields (classes k.now))) }
    ensures capacity { vec_capacity slots.old ≤ vec_capacity slots.new }
    ensures full { OnErr result (vec_capacity slots.old < length slots.old.items + length (slots_from t.0 0 (all_fields (classes k.now)))) }
{
    let mut number = 4u16;
    let mut first = 0u32;
    for class in &k.list {
        if number == t.0 {
            return push_slots(slots, &class.fields, first);
        }
        number += 2;
        first += class.fields.len() as u32;
    }
    Ok(())
}

/// Appends slots for the fields of `n` levels from this one upwards, beginning with the topmost.
fn push_levels(slots: &mut Vec<Slot>, k: &Classes, level: ClassId, n: u8) -> Result<(), AllocError>
    requires { IsWithinLimits (classes k.now) }
    ensures pushed { OnOk result (slots.new.items ≡ slots.old.items ++ slots_upto (classes k.now) n level.0) }
    ensures capacity { vec_capacity slots.old ≤ vec_capacity slots.new }
    ensures full { OnErr result (vec_capacity slots.old < length slots.old.items + length (slots_upto (classes k.now) n level.0)) }
{
    if n == 0 {
        return Ok(());
    }
    if let Some(above) = k.level_above(level) {
        push_levels(slots, k, above, n - 1)?;
    }
    push_declared(slots, k, level)
}

/// Appends slots for the fields of an object of the class.
pub(crate) fn push_fields(slots: &mut Vec<Slot>, k: &Classes, c: ClassId) -> Result<(), AllocError>
    requires { IsWithinLimits (classes k.now) }
    ensures pushed { OnOk result (slots.new.items ≡ slots.old.items ++ new_fields (classes k.now) c.0) }
    ensures full { OnErr result (vec_capacity slots.old < length slots.old.items + length (new_fields (classes k.now) c.0)) }
{
    push_levels(slots, k, c, MOST_LEVELS)
}
