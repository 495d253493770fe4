// The faults of construction of a whole program, and the first of them.

ghost use Rattle.std.specs.Prelude.{◌≡◌, ◌++◌, ◌+◌, ◌*◌, OnOk, IfOk, map, option_map};
ghost use Rattle.ss_faults.specs.First.{first_fault, Answers};
ghost use Rattle.ss_core.specs.View.{class_of};
ghost use Rattle.ss_core.specs.Chain.{above_of};
ghost use Rattle.ss_typed.specs.View.{body, expr, field, members, typed};
ghost use Rattle.ss_delayed_rules.specs.Escapes.{NotAtAll, uses_if};
ghost use Rattle.ss_delayed_rules.specs.Constructors.{escapes};
ghost use Rattle.ss_delayed_rules.specs.Program.{initializers_faults, implied_faults, classes_faults, body_faults, bodies_faults, construction_faults};
ghost use Rattle.ss_delayed.specs.Implied.{empty_faults, class_faults};

use crate::constructors::{check_above, check_constructor};
use crate::escapes::Use;
use crate::noting::{note_escapes, note_unset};
use crate::statements::find_if;
use ss_core::{Class, ClassId, FrontStop, Place};
use ss_faults::{Fault, answer, first_fault};
use ss_paths_assigned::{Fields, started_in};
use ss_typed::{Typed, TypedBody, TypedClass, TypedExpr, TypedField, class_at, members_in};
use std::alloc::{AllocError, Global};

// ---- initializers

// An initializer is without `this`.
fn check_initializer(
    alloc: Global,
    initial: &Option<TypedExpr>,
    found: &mut Vec<Fault>,
) -> Result<(), AllocError>
    ensures { OnOk result (found.new.items ≡ found.old.items ++ escapes (uses_if NotAtAll (option_map expr initial.now))) }
{
    let mut places = Vec::new(alloc);
    find_if(Use::NotAtAll, initial, &mut places)?;
    note_escapes(&places, found)?;
    Ok(())
}

fn check_initializers(
    alloc: Global,
    fields: &[TypedField],
    found: &mut Vec<Fault>,
) -> Result<(), AllocError>
    ensures { OnOk result (found.new.items ≡ found.old.items ++ initializers_faults (map field fields.now)) }
{
    for declared in fields {
        check_initializer(alloc, &declared.initial, found)?;
    }
    Ok(())
}

// ---- constructors that aren't written

// The class above an entry of the table of classes: `object`, where there is none.
fn above_of(class: Option<&Class>) -> ClassId
    ensures { result.0 ≡ above_of (option_map (λ c. class_of c.now) class.entry) }
{
    match class {
        Some(class) => class.above,
        None => ClassId(0),
    }
}

// The faults of an implied constructor of the class at this place of the list, whose name stands at `name`.
fn check_empty(
    alloc: Global,
    program: &Typed,
    place: usize,
    name: Place,
    found: &mut Vec<Fault>,
) -> Result<(), AllocError>
    ensures { OnOk result (found.new.items ≡ found.old.items ++ empty_faults (typed program.now) place name) }
{
    let started = started_in(alloc, members_in(program, place))?;
    let class = class_at(program, place);
    note_unset(&started, class, name, found)?;
    check_above(program, above_of(class), name, found)?;
    Ok(())
}

fn check_implied(
    alloc: Global,
    program: &Typed,
    place: usize,
    class: &TypedClass,
    found: &mut Vec<Fault>,
) -> Result<(), AllocError>
    ensures { OnOk result (found.new.items ≡ found.old.items ++ implied_faults (typed program.now) (4 + 2 * place) (members class.now)) }
{
    match class.constructor {
        Some(_) => Ok(()),
        None => {
            check_empty(alloc, program, place, class.place, found)?;
            Ok(())
        }
    }
}

// ---- the program

fn check_class(
    alloc: Global,
    program: &Typed,
    place: usize,
    class: &TypedClass,
    found: &mut Vec<Fault>,
) -> Result<(), AllocError>
    ensures { OnOk result (found.new.items ≡ found.old.items ++ class_faults (typed program.now) place (members class.now)) }
{
    check_initializers(alloc, &class.fields, found)?;
    check_implied(alloc, program, place, class, found)?;
    Ok(())
}

fn check_classes(
    alloc: Global,
    program: &Typed,
    classes: &[TypedClass],
    found: &mut Vec<Fault>,
) -> Result<(), AllocError>
    ensures { OnOk result (found.new.items ≡ found.old.items ++ classes_faults (typed program.now) 0 (map members classes.now)) }
{
    for (place, class) in classes.iter().enumerate() {
        check_class(alloc, program, place, class, found)?;
    }
    Ok(())
}

fn check_body(
    alloc: Global,
    fields: &Fields<'_>,
    written: &TypedBody,
    found: &mut Vec<Fault>,
) -> Result<(), AllocError>
    ensures { OnOk result (found.new.items ≡ found.old.items ++ body_faults (typed fields.now.program.now) (body written.now)) }
{
    if written.flags.ctor {
        check_constructor(alloc, fields, written, found)?;
        Ok(())
    } else {
        Ok(())
    }
}

fn check_bodies(
    alloc: Global,
    fields: &Fields<'_>,
    bodies: &[TypedBody],
    found: &mut Vec<Fault>,
) -> Result<(), AllocError>
    ensures { OnOk result (found.new.items ≡ found.old.items ++ bodies_faults (typed fields.now.program.now) (map body bodies.now)) }
{
    for written in bodies {
        check_body(alloc, fields, written, found)?;
    }
    Ok(())
}

// Every fault of construction in a program.
fn find_faults(alloc: Global, program: &Typed) -> Result<Vec<Fault>, AllocError>
    ensures { IfOk result (λ v. v.items ≡ construction_faults (typed program.now)) }
{
    let fields = Fields::new(alloc, program)?;
    let mut found = Vec::new(alloc);
    check_classes(alloc, program, &program.members, &mut found)?;
    check_bodies(alloc, &fields, &program.bodies, &mut found)?;
    Ok(found)
}

// The first fault of construction in a program, where it has one.
fn first_construction_fault(alloc: Global, program: &Typed) -> Result<Option<Fault>, AllocError>
    ensures { IfOk result (λ f. f ≡ first_fault (construction_faults (typed program.now))) }
{
    let faults = find_faults(alloc, program)?;
    Ok(first_fault(&faults))
}

/// Refuses a program that has faults of construction, by the first: the one at the earliest place, and of two there the one of the
/// lower rule.
pub fn check_construction(alloc: Global, program: &Typed) -> Result<(), FrontStop>
    ensures { Answers (first_fault (construction_faults (typed program.now))) result }
{
    answer(first_construction_fault(alloc, program))
}
