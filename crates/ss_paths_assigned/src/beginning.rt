// What is assigned where a constructor begins.

ghost use Rattle.std.specs.Prelude.{◌≡◌, IfOk, map, option_map};
ghost use Rattle.ss_typed.specs.View.{body, field, members, typed};
ghost use Rattle.ss_paths.specs.Fields.{fields_of_members};
ghost use Rattle.ss_paths.specs.Assigned.{starts_with_value, assigned_by_initializers, assigned_first};
ghost use Rattle.ss_bit_set.specs.Marked.{marked};
ghost use Rattle.ss_paths_assigned.specs.Codes.{assigned_of};
ghost use Rattle.ss_paths_assigned.specs.Started.{started};

use crate::assigned::Assigned;
use crate::fields::members_at;
use ss_bit_set::BitSet;
use ss_core::ClassId;
use ss_typed::{Typed, TypedBody, TypedClass, TypedField, has_base};
use std::alloc::{AllocError, Global};

// Whether the field has an initializer.
fn starts_with_value(declared: &TypedField) -> bool
    ensures { result ≡ starts_with_value (Some (field declared.now)) }
{
    declared.initial.is_some()
}

// Which of these fields have initializers.
fn started(alloc: Global, fields: &[TypedField]) -> Result<BitSet, AllocError>
    ensures { IfOk result (λ m. marked m ≡ started (map field fields.now)) }
{
    let mut list = Vec::new(alloc);
    for declared in fields {
        list.push(starts_with_value(declared))?;
    }
    Ok(BitSet { list })
}

/// Which fields of a class have initializers, where there is one.
pub fn started_in(alloc: Global, class: Option<&TypedClass>) -> Result<BitSet, AllocError>
    ensures { IfOk result (λ m. marked m ≡ started (fields_of_members (option_map (λ c. members c.now) class.entry))) }
{
    match class {
        Some(class) => {
            let marks = started(alloc, &class.fields)?;
            Ok(marks)
        }
        None => Ok(BitSet::new(alloc)),
    }
}

/// After the initializers of the class.
pub fn assigned_by_initializers(
    alloc: Global,
    program: &Typed,
    class: ClassId,
) -> Result<Assigned, AllocError>
    ensures { IfOk result (λ a. assigned_of a ≡ assigned_by_initializers (typed program.now) class.0) }
{
    let own = started_in(alloc, members_at(program, class))?;
    Ok(Assigned { own, above: false })
}

/// At the beginning of a constructor's block.
pub fn assigned_first(
    alloc: Global,
    program: &Typed,
    constructor: &TypedBody,
) -> Result<Assigned, AllocError>
    ensures { IfOk result (λ a. assigned_of a ≡ assigned_first (typed program.now) (body constructor.now)) }
{
    let mut assigned = assigned_by_initializers(alloc, program, constructor.class)?;
    assigned.above = !has_base(&constructor.block.statements);
    Ok(assigned)
}
