// The declarations of a method.

ghost use Rattle.std.specs.Prelude.{◌≡◌, ◌++◌, IfOk, OnOk, map, filter_map, option_and_then, option_map};
ghost use Rattle.std.specs.Option.{option_to_list};
ghost use Rattle.ss_core.specs.Chain.{level_above, levels};
ghost use Rattle.ss_core.specs.View as core;
ghost use Rattle.ss_typed.specs.View as typed;
ghost use Rattle.ss_expand_rules.specs.Contracts as contracts;

use ss_core::{ClassId, MOST_LEVELS};
use ss_expand_bodies::declared_at;
use ss_typed::{Typed, TypedBody};
use std::alloc::{AllocError, Global};

// Adds what is declared, where something is.
fn add_declared<'a>(
    list: &mut Vec<&'a TypedBody>,
    declared: Option<&'a TypedBody>,
) -> Result<(), AllocError>
    ensures { OnOk result (map (λ b. typed.body b.now) list.new.items ≡ map (λ b. typed.body b.now) list.old.items ++ option_to_list (option_map (λ b. typed.body b.now) declared.entry)) }
{
    if let Some(body) = declared {
        list.push(body)?;
    }
    Ok(())
}

// Adds what this level declares at this place of its table. The result is the level above.
fn add_level<'a>(
    list: &mut Vec<&'a TypedBody>,
    program: &'a Typed,
    place: usize,
    level: Option<ClassId>,
) -> Result<Option<ClassId>, AllocError>
    ensures added { OnOk result (map (λ b. typed.body b.now) list.new.items ≡ map (λ b. typed.body b.now) list.old.items ++ filter_map (contracts.declared_at (typed.typed program.now) place) (option_to_list (option_map (λ t. t.0) level))) }
    ensures above { IfOk result (λ l. option_map (λ t. t.0) l ≡ option_and_then (level_above (core.classes program.now.classes)) (option_map (λ t. t.0) level)) }
{
    match level {
        Some(class) => {
            add_declared(list, declared_at(program, place, class))?;
            Ok(program.classes.level_above(class))
        }
        None => Ok(None),
    }
}

// The same from the class upwards.
fn list_upwards<'a>(
    alloc: Global,
    program: &'a Typed,
    class: ClassId,
    place: usize,
) -> Result<Vec<&'a TypedBody>, AllocError>
    ensures { IfOk result (λ bs. map (λ b. typed.body b.now) bs.items ≡ filter_map (contracts.declared_at (typed.typed program.now) place) (levels (core.classes program.now.classes) class.0)) }
{
    let mut list = Vec::new(alloc);
    let mut level = Some(class);
    for _i in 0..MOST_LEVELS {
        level = add_level(&mut list, program, place, level)?;
    }
    Ok(list)
}

/// The method at this place of the table of the class as that class and those above it declare it, from the topmost down.
pub fn declarations<'a>(
    alloc: Global,
    program: &'a Typed,
    class: ClassId,
    place: usize,
) -> Result<Vec<&'a TypedBody>, AllocError>
    ensures { IfOk result (λ bs. map (λ b. typed.body b.now) bs.items ≡ contracts.declarations (typed.typed program.now) class.0 place) }
{
    let mut list = list_upwards(alloc, program, class, place)?;
    list.reverse();
    Ok(list)
}
