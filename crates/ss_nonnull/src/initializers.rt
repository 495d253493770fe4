// The initializers of fields.

ghost use Rattle.std.specs.Prelude.{◌≡◌, ◌++◌, ◌+◌, IfOk, OnOk, Option, Some, length, map, option_map, slice_get};
ghost use Rattle.ss_core.specs.View.{class_of, field_of};
ghost use Rattle.ss_paths.specs.Sets.{none};
ghost use Rattle.ss_paths.specs.Assigned.{starts_with_value};
ghost use Rattle.ss_typed.specs.View.{typed, expr, field, members};
ghost use Rattle.ss_core.specs.Kinds.{class_number};
ghost use Rattle.ss_core.specs.Chain.{fields_of};
ghost use Rattle.ss_nonnull_rules.specs.Program.{classes_faults};
ghost use Rattle.ss_paths_assigned.specs.Codes.{numbers_of, assigned_of};
ghost use Rattle.ss_nonnull_seen.specs.Codes.{known_of, path_of, context_of};
ghost use Rattle.ss_nonnull.specs.Initial.{begun_with, initial_faults, type_of_field, each_initial, context_with, class_faults};
ghost use Rattle.ss_nonnull_rules.specs.Program.{only_fields};

use crate::expr::check_wanted;
use ss_bit_set::BitSet;
use ss_core::{Class, Field, Ty};
use ss_faults::Fault;
use ss_nonnull_seen::{Known, NullContext, begin};
use ss_paths_assigned::{Assigned, Numbers};
use ss_typed::{Typed, TypedClass, TypedExpr, TypedField, class_at};
use std::alloc::{AllocError, Global};

/// Where these fields are assigned, and nothing is known of a local.
pub fn only_fields(alloc: Global, fields: Assigned) -> Option<Known>
    ensures { path_of result ≡ only_fields (assigned_of fields) }
{
    Some(Known {
        facts: BitSet::new(alloc),
        fields,
    })
}

// Before the first initializer.
fn nothing_begun(alloc: Global) -> Option<Known>
    ensures { path_of result ≡ begun_with none }
{
    let own = BitSet::new(alloc);
    only_fields(alloc, Assigned { own, above: false })
}

fn field_at(class: Option<&Class>, place: usize) -> Option<&Field>
    ensures { option_map (λ f. field_of f.now) result ≡ slice_get (fields_of (option_map (λ c. class_of c.now) class.entry)) place }
{
    match class {
        Some(class) => class.fields.get(place),
        None => None,
    }
}

fn type_of_field(declared: Option<&Field>) -> Option<Ty>
    ensures { result ≡ type_of_field (option_map (λ f. field_of f.now) declared.entry) }
{
    match declared {
        Some(declared) => Some(declared.ty),
        None => None,
    }
}

// An initializer stands where a value of the field's type is wanted.
fn check_initial(
    context: &NullContext<'_>,
    known: &Option<Known>,
    found: &mut Vec<Fault>,
    ty: Option<Ty>,
    initial: &Option<TypedExpr>,
) -> Result<(), AllocError>
    ensures { OnOk result (found.new.items ≡ found.old.items ++ initial_faults (context_of context.now) (path_of known.now) ty (option_map expr initial.now)) }
{
    let Some(ty) = ty else {
        return Ok(());
    };
    match initial {
        Some(e) => {
            check_wanted(context, known, found, Some(ty), e)?;
            Ok(())
        }
        None => Ok(()),
    }
}

fn starts_with_value(declared: &TypedField) -> bool
    ensures { result ≡ starts_with_value (Some (field declared.now)) }
{
    declared.initial.is_some()
}

// The initializers of a class, one after the other.
fn check_initials(
    context: &NullContext<'_>,
    found: &mut Vec<Fault>,
    class: Option<&Class>,
    fields: &[TypedField],
) -> Result<(), AllocError>
    ensures { OnOk result (found.new.items ≡ found.old.items
        ++ each_initial (context_of context.now) (map field fields.now) 0 (map field fields.now) (fields_of (option_map (λ c. class_of c.now) class.entry))) }
{
    let mut known = nothing_begun(context.alloc);
    for (place, declared) in fields.iter().enumerate() {
        let ty = type_of_field(field_at(class, place));
        check_initial(context, &known, found, ty, &declared.initial)?;
        known = begin(known, place, starts_with_value(declared))?;
    }
    Ok(())
}

// ---- classes

fn field_count(class: Option<&Class>) -> usize
    ensures { result ≡ length (fields_of (option_map (λ c. class_of c.now) class.entry)) }
{
    match class {
        Some(class) => class.fields.len(),
        None => 0,
    }
}

// The number of the class at this place. More classes than a word numbers don't fit into memory.
fn class_number(place: usize) -> Result<usize, AllocError>
    ensures { IfOk result (λ n. n ≡ class_number place) }
{
    let twice = place.checked_mul(2).ok_or(AllocError)?;
    let number = twice.checked_add(4).ok_or(AllocError)?;
    Ok(number)
}

// Where the initializers of a class stand.
fn context_in<'p>(
    alloc: Global,
    program: &'p Typed,
    class: usize,
    numbers: Numbers,
) -> NullContext<'p>
    ensures { context_of result ≡ context_with (typed program.now) class (numbers_of numbers) }
{
    NullContext {
        alloc,
        program,
        class,
        numbers,
        constructs: true,
        in_old: false,
        result: None,
    }
}

// The initializers of the class at this place, before whose fields there are so many; how many there are after it.
fn check_class(
    alloc: Global,
    program: &Typed,
    found: &mut Vec<Fault>,
    place: usize,
    first: usize,
    declared: &TypedClass,
) -> Result<usize, AllocError>
    ensures first { IfOk result (λ n. n ≡ first + length (fields_of (slice_get (typed program.now).classes place))) }
    ensures noted { OnOk result (found.new.items ≡ found.old.items ++ class_faults (typed program.now) place first (members declared.now).fields) }
{
    let class = class_at(program, place);
    let count = field_count(class);
    let numbers = Numbers { first, count };
    let context = context_in(alloc, program, class_number(place)?, numbers);
    check_initials(&context, found, class, &declared.fields)?;
    let behind = first.checked_add(count).ok_or(AllocError)?;
    Ok(behind)
}

// The initializers of these classes, which are those of the program.
fn check_classes(
    alloc: Global,
    program: &Typed,
    found: &mut Vec<Fault>,
    list: &[TypedClass],
) -> Result<(), AllocError>
    requires { (typed program.now).members ≡ map members list.now }
    ensures { OnOk result (found.new.items ≡ found.old.items ++ classes_faults (typed program.now) 0 (map members list.now)) }
{
    let mut first = 0;
    for (place, declared) in list.iter().enumerate() {
        first = check_class(alloc, program, found, place, first, declared)?;
    }
    Ok(())
}

/// The initializers of all classes.
pub fn check_initializers(
    alloc: Global,
    program: &Typed,
    found: &mut Vec<Fault>,
) -> Result<(), AllocError>
    ensures { OnOk result (found.new.items ≡ found.old.items ++ classes_faults (typed program.now) 0 (typed program.now).members) }
{
    check_classes(alloc, program, found, &program.members)?;
    Ok(())
}
