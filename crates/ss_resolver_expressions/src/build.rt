// Chains and paths with one more part.

ghost use Rattle.std.specs.Prelude.{◌≡◌, ◌++◌, ◌∷◌, [], IfOk, OnOk, map};
ghost use Rattle.ss_typed.specs.Tree.{NullOf};
ghost use Rattle.ss_typed.specs.View as view;
ghost use Rattle.ss_typed.specs.View.{grouped};
ghost use Rattle.ss_typed.specs.Parts.{link_after as typed_link, step_after as typed_step};

use ss_core::Place;
use ss_typed::{TypedExpr, TypedLink, TypedStep};
use std::alloc::{AllocError, Global};

/// A tree in a box of its own.
pub(crate) fn boxed(alloc: Global, value: TypedExpr) -> Result<Box<TypedExpr>, AllocError>
    ensures { IfOk result (λ e. view.expr e.value ≡ view.expr value) }
{
    Ok(Box::new(alloc, value)?)
}

/// `null`, which also stands for what has no meaning.
pub(crate) fn null_tree(alloc: Global, place: Place) -> Result<Box<TypedExpr>, AllocError>
    ensures { IfOk result (λ e. view.expr e.value ≡ NullOf place) }
{
    Ok(boxed(alloc, TypedExpr::Null(place))?)
}

/// One more value of a list.
pub(crate) fn add_value(
    values: &mut Vec<TypedExpr>,
    value: Box<TypedExpr>,
) -> Result<(), AllocError>
    ensures { OnOk result (view.exprs values.new.items ≡ view.exprs values.old.items ++ view.expr value.value ∷ []) }
{
    values.push(Box::into_inner(value))?;
    Ok(())
}

fn longer_path(
    alloc: Global,
    place: Place,
    at: Place,
    first: Box<TypedExpr>,
    steps: Vec<TypedStep>,
    step: TypedStep,
) -> Result<Box<TypedExpr>, AllocError>
    ensures { IfOk result (λ e. view.expr e.value ≡ typed_step step place (grouped at (view.expr first.value) (map typed_step steps.items))) }
{
    if at != place {
        return new_path(alloc, place, TypedExpr::Path(at, first, steps), step);
    }
    let mut steps = steps;
    steps.push(step)?;
    Ok(boxed(alloc, TypedExpr::Path(at, first, steps))?)
}

fn new_path(
    alloc: Global,
    place: Place,
    value: TypedExpr,
    step: TypedStep,
) -> Result<Box<TypedExpr>, AllocError>
    ensures { IfOk result (λ e. view.expr e.value ≡ typed_step step place (view.expr value)) }
{
    match boxed(alloc, value) {
        Ok(value) => path_with(alloc, place, value, step),
        Err(full) => {
            drop(step);
            Err(full)
        }
    }
}

fn path_with(
    alloc: Global,
    place: Place,
    value: Box<TypedExpr>,
    step: TypedStep,
) -> Result<Box<TypedExpr>, AllocError>
    ensures { IfOk result (λ e. view.expr e.value ≡ typed_step step place (view.expr value.value)) }
{
    let mut steps = Vec::new(alloc);
    steps.push(step)?;
    Ok(boxed(alloc, TypedExpr::Path(place, value, steps))?)
}

/// One more step after an expression; a path that stands at the same place becomes longer.
pub(crate) fn add_step(
    alloc: Global,
    place: Place,
    value: Box<TypedExpr>,
    step: TypedStep,
) -> Result<Box<TypedExpr>, AllocError>
    ensures { IfOk result (λ e. view.expr e.value ≡ typed_step step place (view.expr value.value)) }
{
    match Box::into_inner(value) {
        TypedExpr::Path(at, first, steps) => longer_path(alloc, place, at, first, steps, step),
        other => new_path(alloc, place, other, step),
    }
}

fn longer_chain(
    alloc: Global,
    place: Place,
    at: Place,
    first: Box<TypedExpr>,
    links: Vec<TypedLink>,
    link: TypedLink,
) -> Result<Box<TypedExpr>, AllocError>
    ensures { IfOk result (λ e. view.expr e.value ≡ typed_link link place (grouped at (view.expr first.value) (map typed_link links.items))) }
{
    if at != place {
        return new_chain(alloc, place, TypedExpr::Chain(at, first, links), link);
    }
    let mut links = links;
    links.push(link)?;
    Ok(boxed(alloc, TypedExpr::Chain(at, first, links))?)
}

fn new_chain(
    alloc: Global,
    place: Place,
    value: TypedExpr,
    link: TypedLink,
) -> Result<Box<TypedExpr>, AllocError>
    ensures { IfOk result (λ e. view.expr e.value ≡ typed_link link place (view.expr value)) }
{
    match boxed(alloc, value) {
        Ok(value) => chain_with(alloc, place, value, link),
        Err(full) => {
            drop(link);
            Err(full)
        }
    }
}

fn chain_with(
    alloc: Global,
    place: Place,
    value: Box<TypedExpr>,
    link: TypedLink,
) -> Result<Box<TypedExpr>, AllocError>
    ensures { IfOk result (λ e. view.expr e.value ≡ typed_link link place (view.expr value.value)) }
{
    let mut links = Vec::new(alloc);
    links.push(link)?;
    Ok(boxed(alloc, TypedExpr::Chain(place, value, links))?)
}

/// One more operand after an expression; a chain that stands at the same place becomes longer.
pub(crate) fn add_link(
    alloc: Global,
    place: Place,
    value: Box<TypedExpr>,
    link: TypedLink,
) -> Result<Box<TypedExpr>, AllocError>
    ensures { IfOk result (λ e. view.expr e.value ≡ typed_link link place (view.expr value.value)) }
{
    match Box::into_inner(value) {
        TypedExpr::Chain(at, first, links) => longer_chain(alloc, place, at, first, links, link),
        other => new_chain(alloc, place, other, link),
    }
}
