// Faults that are noted.

ghost use Rattle.std.specs.Prelude.{◌≡◌, ◌++◌, [], ◌∷◌, ◌||◌, not, OnOk, map, option_map, if◌then◌else◌};
ghost use Rattle.ss_core.specs.Rules.{rule_number};
ghost use Rattle.ss_core.specs.View.{class_of, field_of};
ghost use Rattle.ss_core.specs.Chain.{fields_of};
ghost use Rattle.ss_typed.specs.View.{typed};
ghost use Rattle.ss_bit_set.specs.Marked.{marked};
ghost use Rattle.ss_paths.specs.Fields.{is_non_null};
ghost use Rattle.ss_delayed_rules.specs.Constructors.{unassigned, base_not_delayed, at, escapes, are_assigned_from, are_assigned, unassigned_faults};
ghost use Rattle.ss_delayed.specs.Walked.{known_of};

use ss_bit_set::BitSet;
use ss_core::{Class, ClassId, Field, Place, Rule, is_non_null};
use ss_faults::Fault;
use ss_paths_assigned::{Assigned, class_at};
use ss_typed::Typed;
use std::alloc::AllocError;

// Notes a fault of this rule, unless something holds.
fn note_unless(
    holds: bool,
    rule: Rule,
    place: Place,
    found: &mut Vec<Fault>,
) -> Result<(), AllocError>
    ensures { OnOk result (found.new.items ≡ found.old.items ++ (if holds then [] else at (rule_number rule) place ∷ [])) }
{
    if holds {
        return Ok(());
    }
    found.push(Fault {
        rule: rule.number(),
        place,
    })?;
    Ok(())
}

/// Notes that a base constructor isn't delayed, unless it is.
pub fn note_base(is_delayed: bool, place: Place, found: &mut Vec<Fault>) -> Result<(), AllocError>
    ensures { OnOk result (found.new.items ≡ found.old.items ++ (if is_delayed then [] else at base_not_delayed place ∷ [])) }
{
    note_unless(is_delayed, Rule::BaseNotDelayed, place, found)?;
    Ok(())
}

/// Notes that `this` gets out at these places.
pub fn note_escapes(places: &[Place], found: &mut Vec<Fault>) -> Result<(), AllocError>
    ensures { OnOk result (found.new.items ≡ found.old.items ++ escapes places.now) }
{
    for place in places {
        note_unless(false, Rule::ThisEscapes, *place, found)?;
    }
    Ok(())
}

// Whether the field at this place of its class has its value, where it is non-null.
fn is_set(own: &BitSet, place: usize, field: &Field) -> bool
    ensures { result ≡ (not (is_non_null (field_of field.now).ty) || marked own.now place) }
{
    !is_non_null(field.ty) || own.has(place)
}

// Whether each of these fields has.
fn are_set(own: &BitSet, fields: &[Field]) -> bool
    ensures { result ≡ are_assigned_from (marked own.now) 0 (map field_of fields.now) }
{
    for (place, field) in fields.iter().enumerate() {
        if !is_set(own, place, field) {
            return false;
        }
    }
    true
}

// Whether each of the fields that a class declares has.
fn are_all_set(own: &BitSet, class: Option<&Class>) -> bool
    ensures { result ≡ are_assigned_from (marked own.now) 0 (fields_of (option_map (λ c. class_of c.now) class.entry)) }
{
    match class {
        Some(class) => are_set(own, &class.fields),
        None => true,
    }
}

// Whether the non-null fields of the class are assigned. Where no path leads they count as assigned.
fn are_assigned(program: &Typed, class: ClassId, known: &Option<Assigned>) -> bool
    ensures { result ≡ are_assigned (typed program.now) class.0 (known_of known.now) }
{
    match known {
        Some(assigned) => are_all_set(&assigned.own, class_at(program, class)),
        None => true,
    }
}

/// Notes that a non-null field of the class isn't assigned, where that is so.
pub fn note_unassigned(
    program: &Typed,
    class: ClassId,
    place: Place,
    known: &Option<Assigned>,
    found: &mut Vec<Fault>,
) -> Result<(), AllocError>
    ensures { OnOk result (found.new.items ≡ found.old.items ++ unassigned_faults (typed program.now) class.0 place (known_of known.now)) }
{
    note_unless(
        are_assigned(program, class, known),
        Rule::Unassigned,
        place,
        found,
    )?;
    Ok(())
}

/// The same where these are assigned, at the class with this entry in the table of classes.
pub fn note_unset(
    own: &BitSet,
    class: Option<&Class>,
    place: Place,
    found: &mut Vec<Fault>,
) -> Result<(), AllocError>
    ensures { OnOk result (found.new.items ≡ found.old.items
        ++ (if are_assigned_from (marked own.now) 0 (fields_of (option_map (λ c. class_of c.now) class.entry)) then [] else at unassigned place ∷ [])) }
{
    note_unless(are_all_set(own, class), Rule::Unassigned, place, found)?;
    Ok(())
}
