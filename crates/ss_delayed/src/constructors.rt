// The faults of constructors.

ghost use Rattle.std.specs.Prelude.{◌≡◌, ◌≤◌, ◌++◌, [], ◌∷◌, OnOk, length, map, option_map, take, if◌then◌else◌};
ghost use Rattle.ss_typed.specs.Tree.{stmt_trees};
ghost use Rattle.ss_typed.specs.View.{base, body, stmt_of, typed};
ghost use Rattle.ss_typed.specs.Lookups.{constructor_of};
ghost use Rattle.ss_delayed_rules.specs.Escapes.{NotAtAll, uses_each, uses_in_all, uses_along};
ghost use Rattle.ss_delayed_rules.specs.Opening.{written_base};
ghost use Rattle.ss_typed.specs.Constructors.{is_delayed_body};
ghost use Rattle.ss_delayed_rules.specs.Constructors.{base_not_delayed, at, escapes, base_faults, end_faults, arguments_of, delayed_faults, place_of_base, undelayed_faults, constructor_faults};
ghost use Rattle.ss_delayed.specs.Parts.{use_of};
ghost use Rattle.ss_delayed.specs.Openings.{base_of, opening_faults};

use crate::ends::{ConstructorContext, walk_along, walk_in};
use crate::escapes::{Use, find_in_each};
use crate::noting::{note_base, note_escapes, note_unassigned};
use crate::opening::{BaseCall, count_opening, written_base};
use crate::statements::{find_along, find_in, find_in_all};
use ss_core::{ClassId, Place};
use ss_faults::Fault;
use ss_paths_assigned::{Fields, assigned_by_initializers, assigned_first};
use ss_typed::{Typed, TypedBase, TypedBody, constructor_of};
use std::alloc::{AllocError, Global};

// ---- base constructors

// Whether a constructor is delayed: one that isn't written is.
fn is_delayed_body(constructor: Option<&TypedBody>) -> bool
    ensures { result ≡ is_delayed_body (option_map (λ b. body b.now) constructor.entry) }
{
    match constructor {
        Some(constructor) => constructor.flags.delayed,
        None => true,
    }
}

/// Notes that the constructor of the class above isn't delayed, where that is so.
pub fn check_above(
    program: &Typed,
    above: ClassId,
    place: Place,
    found: &mut Vec<Fault>,
) -> Result<(), AllocError>
    ensures { OnOk result (found.new.items ≡ found.old.items ++ (if is_delayed_body (constructor_of (typed program.now) above.0) then [] else at base_not_delayed place ∷ [])) }
{
    let is_delayed = is_delayed_body(constructor_of(program, above));
    note_base(is_delayed, place, found)?;
    Ok(())
}

fn check_base(
    program: &Typed,
    class: ClassId,
    place: Place,
    found: &mut Vec<Fault>,
) -> Result<(), AllocError>
    ensures { OnOk result (found.new.items ≡ found.old.items ++ base_faults (typed program.now) class.0 place) }
{
    check_above(program, program.classes.above(class), place, found)?;
    Ok(())
}

// ---- delayed constructors

// Notes the ends that leave a field without a value.
fn check_ends(
    alloc: Global,
    fields: &Fields<'_>,
    constructor: &TypedBody,
    found: &mut Vec<Fault>,
) -> Result<(), AllocError>
    ensures { OnOk result (found.new.items ≡ found.old.items ++ end_faults (typed fields.now.program.now) (body constructor.now)) }
{
    let context = ConstructorContext {
        program: fields.program,
        class: constructor.class,
        numbers: fields.numbers(constructor.class),
        end: constructor.block.end,
    };
    let first = assigned_first(alloc, fields.program, constructor)?;
    let behind = walk_in(&context, &constructor.block, Some(first), found)?;
    note_unassigned(
        fields.program,
        constructor.class,
        constructor.block.end,
        &behind,
        found,
    )?;
    Ok(())
}

fn find_in_base(
    allowed: Use,
    written: &Option<TypedBase>,
    found: &mut Vec<Place>,
) -> Result<(), AllocError>
    ensures { OnOk result (found.new.items ≡ found.old.items ++ uses_each (use_of allowed) (arguments_of (option_map base written.now))) }
{
    match written {
        Some(call) => {
            find_in_each(allowed, &call.arguments, found)?;
            Ok(())
        }
        None => Ok(()),
    }
}

fn check_delayed(
    alloc: Global,
    fields: &Fields<'_>,
    constructor: &TypedBody,
    found: &mut Vec<Fault>,
) -> Result<(), AllocError>
    ensures { OnOk result (found.new.items ≡ found.old.items ++ delayed_faults (typed fields.now.program.now) (body constructor.now)) }
{
    let mut places = Vec::new(alloc);
    find_in_base(Use::ForFields, &constructor.base, &mut places)?;
    find_in(Use::ForFields, &constructor.block, &mut places)?;
    note_escapes(&places, found)?;
    check_ends(alloc, fields, constructor, found)?;
    check_base(fields.program, constructor.class, constructor.place, found)?;
    Ok(())
}

// ---- constructors that aren't delayed

// The places in the arguments of `base(..)`, where one is written.
fn find_in_written(
    allowed: Use,
    written: Option<BaseCall<'_>>,
    found: &mut Vec<Place>,
) -> Result<(), AllocError>
    ensures { OnOk result (found.new.items ≡ found.old.items ++ uses_each (use_of allowed) (arguments_of (option_map base_of written.entry))) }
{
    match written {
        Some(call) => {
            find_in_each(allowed, call.arguments, found)?;
            Ok(())
        }
        None => Ok(()),
    }
}

fn place_of_base(constructor: &TypedBody, written: Option<BaseCall<'_>>) -> Place
    ensures { result ≡ place_of_base (body constructor.now) (option_map base_of written.entry) }
{
    match written {
        Some(call) => call.place,
        None => constructor.place,
    }
}

// Notes that a field isn't assigned before `base(..)`, in front of which so many statements stand.
fn check_opening(
    alloc: Global,
    fields: &Fields<'_>,
    constructor: &TypedBody,
    count: usize,
    place: Place,
    found: &mut Vec<Fault>,
) -> Result<(), AllocError>
    requires { count ≤ length constructor.now.block.statements.items }
    ensures { OnOk result (found.new.items ≡ found.old.items
        ++ opening_faults (typed fields.now.program.now) constructor.now.class.0 place (stmt_trees (map stmt_of (take count constructor.now.block.statements.items)))) }
{
    let context = ConstructorContext {
        program: fields.program,
        class: constructor.class,
        numbers: fields.numbers(constructor.class),
        end: place,
    };
    let first = assigned_by_initializers(alloc, fields.program, constructor.class)?;
    // What is noted at a return before `base(..)` is no fault of its own.
    let mut at_returns = Vec::new(alloc);
    let opening = &constructor.block.statements[..count];
    let behind = walk_along(&context, opening, Some(first), &mut at_returns)?;
    note_unassigned(fields.program, constructor.class, place, &behind, found)?;
    Ok(())
}

// Up to `base(..)`, its arguments included, `this` is only written to.
fn check_first_uses(
    alloc: Global,
    constructor: &TypedBody,
    count: usize,
    found: &mut Vec<Fault>,
) -> Result<(), AllocError>
    requires { count ≤ length constructor.now.block.statements.items }
    ensures { OnOk result (found.new.items ≡ found.old.items ++ escapes (uses_along NotAtAll (stmt_trees (map stmt_of (take count constructor.now.block.statements.items)))
        ++ uses_each NotAtAll (arguments_of (written_base (body constructor.now))))) }
{
    let mut places = Vec::new(alloc);
    let opening = &constructor.block.statements[..count];
    find_along(Use::NotAtAll, opening, &mut places)?;
    find_in_written(Use::NotAtAll, written_base(constructor), &mut places)?;
    note_escapes(&places, found)?;
    Ok(())
}

fn check_not_delayed(
    alloc: Global,
    fields: &Fields<'_>,
    constructor: &TypedBody,
    found: &mut Vec<Fault>,
) -> Result<(), AllocError>
    ensures { OnOk result (found.new.items ≡ found.old.items ++ undelayed_faults (typed fields.now.program.now) (body constructor.now)) }
{
    let count = count_opening(fields, constructor);
    check_first_uses(alloc, constructor, count, found)?;
    let place = place_of_base(constructor, written_base(constructor));
    check_opening(alloc, fields, constructor, count, place, found)?;
    Ok(())
}

// ---- every constructor

fn check_block(
    alloc: Global,
    fields: &Fields<'_>,
    constructor: &TypedBody,
    found: &mut Vec<Fault>,
) -> Result<(), AllocError>
    ensures { OnOk result (found.new.items ≡ found.old.items
        ++ (if (body constructor.now).flags.delayed then delayed_faults (typed fields.now.program.now) (body constructor.now) else undelayed_faults (typed fields.now.program.now) (body constructor.now))) }
{
    if constructor.flags.delayed {
        check_delayed(alloc, fields, constructor, found)?;
        Ok(())
    } else {
        check_not_delayed(alloc, fields, constructor, found)?;
        Ok(())
    }
}

// What is asked at entry is without `this`.
fn check_entry(
    alloc: Global,
    constructor: &TypedBody,
    found: &mut Vec<Fault>,
) -> Result<(), AllocError>
    ensures { OnOk result (found.new.items ≡ found.old.items ++ escapes (uses_in_all NotAtAll (body constructor.now).entry)) }
{
    let mut places = Vec::new(alloc);
    find_in_all(Use::NotAtAll, &constructor.entry, &mut places)?;
    note_escapes(&places, found)?;
    Ok(())
}

/// Notes the faults of a constructor.
pub fn check_constructor(
    alloc: Global,
    fields: &Fields<'_>,
    constructor: &TypedBody,
    found: &mut Vec<Fault>,
) -> Result<(), AllocError>
    ensures { OnOk result (found.new.items ≡ found.old.items ++ constructor_faults (typed fields.now.program.now) (body constructor.now)) }
{
    check_entry(alloc, constructor, found)?;
    check_block(alloc, fields, constructor, found)?;
    Ok(())
}
