// The arguments that a callee captures, and what a constructor owns.

ghost use Rattle.std.specs.Prelude.{◌≡◌, map, drop, length, IfOk};
ghost use Rattle.ss_core.specs.Chain.{levels};
ghost use Rattle.ss_core.specs.View as view;
ghost use Rattle.ss_store_rules.specs.Locals.{this_types};
ghost use Rattle.ss_vcgen_contracts.specs.Owned.{captured_among, pairs_for, owned_for};

use ss_core::{Body, ClassId, Classes, Local, MOST_LEVELS};
use ss_terms::TermId;
use std::alloc::{AllocError, Global};

// How many arguments stand before those for the parameters.
fn first_parameter(body: &Body) -> usize
    ensures { result ≡ length (this_types (view.body body.now)) }
{
    if body.flags.is_static { 0 } else { 1 }
}

// The arguments from this number on.
fn arguments_from(arguments: &[TermId], first: usize) -> &[TermId]
    ensures { result.now ≡ drop first arguments.now }
{
    if first <= arguments.len() {
        &arguments[first..]
    } else {
        &[]
    }
}

// The arguments of the captured ones among the parameters.
fn captured_among(
    alloc: Global,
    params: &[Local],
    arguments: &[TermId],
) -> Result<Vec<TermId>, AllocError>
    ensures { IfOk result (λ v. v.items ≡ captured_among (map view.local_of params.now) arguments.now) }
{
    let mut captured = Vec::new(alloc);
    for (i, param) in params.iter().enumerate() {
        if i >= arguments.len() {
            return Ok(captured);
        }
        if param.captured {
            captured.push(arguments[i])?;
        }
    }
    Ok(captured)
}

/// The captured ones among the arguments.
pub(crate) fn captured_terms(
    alloc: Global,
    body: &Body,
    arguments: &[TermId],
) -> Result<Vec<TermId>, AllocError>
    ensures { IfOk result (λ v. v.items ≡ captured_among (map view.local_of body.now.params.items) (drop (length (this_types (view.body body.now))) arguments.now)) }
{
    captured_among(
        alloc,
        &body.params,
        arguments_from(arguments, first_parameter(body)),
    )
}

// The object at the class and at each class above it.
fn pairs_of(
    alloc: Global,
    classes: &Classes,
    object: TermId,
    class: ClassId,
) -> Result<Vec<(TermId, ClassId)>, AllocError>
    ensures { IfOk result (λ v. v.items ≡ pairs_for object (levels (view.classes classes.now) class.0)) }
{
    let mut pairs = Vec::new(alloc);
    let mut level = class;
    for _i in 0..MOST_LEVELS {
        pairs.push((object, level))?;
        match classes.level_above(level) {
            Some(above) => level = above,
            None => return Ok(pairs),
        }
    }
    Ok(pairs)
}

/// A constructor owns what its object owns at its class and those above.
pub(crate) fn owned_terms(
    alloc: Global,
    classes: &Classes,
    body: &Body,
    object: TermId,
) -> Result<Vec<(TermId, ClassId)>, AllocError>
    ensures { IfOk result (λ v. v.items ≡ owned_for (view.classes classes.now) (view.body body.now) object) }
{
    if body.flags.ctor {
        pairs_of(alloc, classes, object, body.class)
    } else {
        Ok(Vec::new(alloc))
    }
}
