// The longest part of a chain or a path that stays as it is: what stands before the first call.

ghost use Rattle.std.specs.Prelude.{◌≡◌, ◌≤◌, IfOk, List, length, take, drop, false, ◌||◌};
ghost use Rattle.std.specs.Global.{Vec};
ghost use Rattle.ss_core.specs.declared.names.Place.{Place};
ghost use Rattle.ss_core.specs.declared.names.Ty.{Ty};
ghost use Rattle.ss_core.specs.declared.stmt.Stmt.{Stmt};
ghost use Rattle.ss_core.specs.Tree as core;
ghost use Rattle.ss_core.specs.Parts as core_parts;
ghost use Rattle.ss_typed.specs.Tree.{ExprTree};
ghost use Rattle.ss_expand_rules.specs.Calls as calls;
ghost use Rattle.ss_expand_rules.specs.Lifting as elab;
ghost use Rattle.ss_expand_rules.specs.Numbers.{plain};
ghost use Rattle.ss_expand_expressions.specs.Views.{numbers_of, path_of};
ghost use Rattle.ss_typed.specs.Parts.{link_after, linked, step_after, stepped};
ghost use Rattle.ss_expand_expressions.specs.Sources.{source_of};
ghost use Rattle.ss_expand_expressions.specs.Operands.{IsOperand};
ghost use Rattle.ss_expand_lifting.specs.Fronts.{IsLinkFront, IsStepFront, link_begins, step_begins};

use ss_core::{Link, Place};
use ss_expand_expressions::{
    Numbers, Operand, PlainSteps, Source, is_lazy_link, link_has_call, plain_links, plain_steps,
    step_has_call, whole_chain, whole_path,
};
use ss_typed::{TypedLink, TypedStep, link_type, path_type};
use std::alloc::{AllocError, Global};

/// An operand with what stands after it before the first call.
#[derive(Drop)]
pub(crate) struct Front {
    pub(crate) operand: Operand,
    /// How many links or steps it has taken.
    pub(crate) length: usize,
}

// The first links, so many.
fn first_links(links: &[TypedLink], taken: usize) -> &[TypedLink]
    requires { taken ≤ length links.now }
    ensures { result.now ≡ take taken links.now }
{
    &links[..taken]
}

/// The links after the first so many.
pub(crate) fn links_after(links: &[TypedLink], taken: usize) -> &[TypedLink]
    requires { taken ≤ length links.now }
    ensures { result.now ≡ drop taken links.now }
{
    &links[taken..]
}

// The first steps, so many.
fn first_steps(steps: &[TypedStep], taken: usize) -> &[TypedStep]
    requires { taken ≤ length steps.now }
    ensures { result.now ≡ take taken steps.now }
{
    &steps[..taken]
}

/// The steps after the first so many.
pub(crate) fn steps_after(steps: &[TypedStep], taken: usize) -> &[TypedStep]
    requires { taken ≤ length steps.now }
    ensures { result.now ≡ drop taken steps.now }
{
    &steps[taken..]
}

// How many links stand before the first with a call.
fn links_without_call(links: &[TypedLink]) -> usize
    ensures fits { result ≤ length links.now }
    ensures front { (p : Place) → (e : ExprTree) → calls.has_call (linked p e (take result links.now)) ≡ calls.has_call e }
    ensures next { (p : Place) → (e : ExprTree) → link_begins p e (drop result links.now) }
{
    for (index, link) in links.iter().enumerate() {
        if link_has_call(link) {
            return index;
        }
    }
    links.len()
}

// How many steps stand before the first with a call.
fn steps_without_call(steps: &[TypedStep]) -> usize
    ensures fits { result ≤ length steps.now }
    ensures front { (p : Place) → (e : ExprTree) → calls.has_call (stepped p e (take result steps.now)) ≡ calls.has_call e }
    ensures next { (p : Place) → (e : ExprTree) → step_begins p e (drop result steps.now) }
{
    for (index, step) in steps.iter().enumerate() {
        if step_has_call(step) {
            return index;
        }
    }
    steps.len()
}

// An expression with these links after it.
fn chained(
    alloc: Global,
    place: Place,
    source: Source,
    links: Vec<Link>,
) -> Result<Source, AllocError>
    ensures { (first : core.ExprTree) → source_of source ≡ elab.Pure first
        → IfOk result (λ r. source_of r ≡ elab.Pure (core_parts.chain_front place first links.items)) }
{
    match source {
        Source::Pure(first) => {
            let first = Box::new(alloc, first)?;
            Ok(Source::Pure(whole_chain(place, first, links)))
        }
        other => Ok(other),
    }
}

// An expression with these steps after it.
fn pathed(
    alloc: Global,
    place: Place,
    source: Source,
    steps: PlainSteps,
) -> Result<Source, AllocError>
    ensures { (first : core.ExprTree) → source_of source ≡ elab.Pure first
        → IfOk result (λ r. source_of r ≡ elab.Pure (path_of place first steps)) }
{
    match source {
        Source::Pure(first) => {
            let first = Box::new(alloc, first)?;
            let path = whole_path(alloc, place, first, steps)?;
            Ok(Source::Pure(path))
        }
        other => Ok(other),
    }
}

// The source of an expression without calls with these links, which have none either.
fn plain_chain(
    alloc: Global,
    numbers: &Numbers,
    place: Place,
    source: Source,
    links: &[TypedLink],
) -> Result<Source, AllocError>
    ensures { (e : ExprTree) → source_of source ≡ elab.Pure (plain (numbers_of numbers.now) e)
        → IfOk result (λ r. source_of r ≡ elab.Pure (plain (numbers_of numbers.now) (linked place e links.now))) }
{
    let list = plain_links(alloc, numbers, links)?;
    let chain = chained(alloc, place, source, list)?;
    Ok(chain)
}

// The source of an expression without calls with these steps, which have none either.
fn plain_path(
    alloc: Global,
    numbers: &Numbers,
    place: Place,
    source: Source,
    steps: &[TypedStep],
) -> Result<Source, AllocError>
    ensures { (e : ExprTree) → source_of source ≡ elab.Pure (plain (numbers_of numbers.now) e)
        → IfOk result (λ r. source_of r ≡ elab.Pure (plain (numbers_of numbers.now) (stepped place e steps.now))) }
{
    let list = plain_steps(alloc, numbers, steps)?;
    let path = pathed(alloc, place, source, list)?;
    Ok(path)
}

// An operand without calls with these links, which have none either.
fn with_links(
    alloc: Global,
    numbers: &Numbers,
    place: Place,
    operand: Operand,
    links: &[TypedLink],
) -> Result<Operand, AllocError>
    ensures { (s : elab.ElaborationContext) → (e : ExprTree) → (before : List core.StmtTree) → (types : List Ty) → (code : Vec Stmt) → (made : Vec Ty)
        → s.numbers ≡ numbers_of numbers.now → IsOperand s e before types code made operand
        → calls.has_call e ≡ false → calls.has_call (linked place e links.now) ≡ false
        → IfOk result (λ o. IsOperand s (linked place e links.now) before types code made o) }
{
    match links.last() {
        Some(last) => {
            let source = plain_chain(alloc, numbers, place, operand.source, links)?;
            Ok(Operand {
                source,
                place,
                ty: Some(link_type(last)),
                has_call: false,
                is_lazy: is_lazy_link(last),
            })
        }
        None => Ok(operand),
    }
}

// An operand without calls with these steps, which have none either.
fn with_steps(
    alloc: Global,
    numbers: &Numbers,
    place: Place,
    operand: Operand,
    steps: &[TypedStep],
) -> Result<Operand, AllocError>
    ensures { (s : elab.ElaborationContext) → (e : ExprTree) → (before : List core.StmtTree) → (types : List Ty) → (code : Vec Stmt) → (made : Vec Ty)
        → s.numbers ≡ numbers_of numbers.now → IsOperand s e before types code made operand
        → calls.has_call e ≡ false → calls.has_call (stepped place e steps.now) ≡ false
        → IfOk result (λ o. IsOperand s (stepped place e steps.now) before types code made o) }
{
    if steps.is_empty() {
        return Ok(operand);
    }
    let source = plain_path(alloc, numbers, place, operand.source, steps)?;
    Ok(Operand {
        source,
        place,
        ty: path_type(operand.ty, steps),
        has_call: false,
        is_lazy: false,
    })
}

/// The operand with the links before the first with a call; where it has one itself, without any.
pub(crate) fn front_of_chain(
    alloc: Global,
    numbers: &Numbers,
    place: Place,
    operand: Operand,
    links: &[TypedLink],
) -> Result<Front, AllocError>
    ensures fits { IfOk result (λ f. f.length ≤ length links.now) }
    ensures front { (s : elab.ElaborationContext) → (e : ExprTree) → (before : List core.StmtTree) → (types : List Ty) → (code : Vec Stmt) → (made : Vec Ty)
        → s.numbers ≡ numbers_of numbers.now → IsOperand s e before types code made operand
        → IfOk result (λ f. IsLinkFront s place e links.now before types code made f) }
{
    if operand.has_call {
        return Ok(Front { operand, length: 0 });
    }
    let length = links_without_call(links);
    let operand = with_links(alloc, numbers, place, operand, first_links(links, length))?;
    Ok(Front { operand, length })
}

/// The operand with the steps before the first with a call; where it has one itself, without any.
pub(crate) fn front_of_path(
    alloc: Global,
    numbers: &Numbers,
    place: Place,
    operand: Operand,
    steps: &[TypedStep],
) -> Result<Front, AllocError>
    ensures fits { IfOk result (λ f. f.length ≤ length steps.now) }
    ensures front { (s : elab.ElaborationContext) → (e : ExprTree) → (before : List core.StmtTree) → (types : List Ty) → (code : Vec Stmt) → (made : Vec Ty)
        → s.numbers ≡ numbers_of numbers.now → IsOperand s e before types code made operand
        → IfOk result (λ f. IsStepFront s place e steps.now before types code made f) }
{
    if operand.has_call {
        return Ok(Front { operand, length: 0 });
    }
    let length = steps_without_call(steps);
    let operand = with_steps(alloc, numbers, place, operand, first_steps(steps, length))?;
    Ok(Front { operand, length })
}
