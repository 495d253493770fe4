// Which reads in an invariant aren't admissible.

ghost use Rattle.std.specs.Prelude.{◌≡◌, ◌++◌, ◌||◌, List, IfOk, OnOk, length, map};
ghost use Rattle.ss_core.specs.declared.names.Place.{Place as PlaceValue};
ghost use Rattle.ss_core.specs.declared.names.Mark.{Mark as MarkValue};
ghost use Rattle.ss_typed.specs.Tree.{ExprTree, arguments};
ghost use Rattle.ss_typed.specs.View.{expr, grouped};
ghost use Rattle.ss_typed.specs.Parts.{link_after, step_after};
ghost use Rattle.ss_owners_rules.specs.Admissible.{smallest, inadmissible, inadmissible_each};
ghost use Rattle.ss_owners.specs.Reads.{reached, other_reached, nothing_reached, this_reached, after_field, links_reads, link_reads, Leads};

use crate::marks::{is_owned_field, is_rep_field};
use ss_core::{FieldId, Mark, Place};
use ss_typed::{TypedExpr, TypedLink, TypedStep};
use std::alloc::AllocError;

/// What an expression is to the step after it.
#[derive(Clone, Copy)]
pub struct Reached {
    pub is_this: bool,
    /// It is a path to what `this` owns.
    pub is_owned: bool,
    /// It is a `result` that has no type, or stands after one.
    pub is_untyped: bool,
}

// Neither `this` nor a path.
fn other(is_untyped: bool) -> Reached
    ensures { result ≡ other_reached is_untyped }
{
    Reached {
        is_this: false,
        is_owned: false,
        is_untyped,
    }
}

fn nothing() -> Reached
    ensures { result ≡ nothing_reached }
{
    other(false)
}

fn this() -> Reached
    ensures { result ≡ this_reached }
{
    Reached {
        is_this: true,
        is_owned: false,
        is_untyped: false,
    }
}

// A field of what is reached.
fn after_field(marks: &[Mark], before: Reached, field: FieldId) -> Reached
    ensures { result ≡ after_field marks.now before field.0 }
{
    let is_rep = before.is_this && is_rep_field(marks, field);
    Reached {
        is_this: false,
        is_owned: is_rep || before.is_owned && is_owned_field(marks, field),
        is_untyped: false,
    }
}

// Adds the place of a read that isn't admissible, unless a smaller one within it, after so many places, has been found.
fn add_unless(
    is_admissible: bool,
    place: Place,
    start: usize,
    found: &mut Vec<Place>,
) -> Result<(), AllocError>
    ensures { OnOk result ((before : List PlaceValue) → (within : List PlaceValue) → length before ≡ start → found.old.items ≡ before ++ within
        → found.new.items ≡ before ++ smallest is_admissible place within) }
{
    if is_admissible || found.len() > start {
        return Ok(());
    }
    found.push(place)?;
    Ok(())
}

// ---- expressions

/// Adds the places of the smallest reads in the expression that aren't admissible, and says what it is to the step after it.
#[cycle(reads)]
pub fn find_reads(
    marks: &[Mark],
    e: &TypedExpr,
    found: &mut Vec<Place>,
) -> Result<Reached, AllocError>
    ensures reached { IfOk result (λ r. r ≡ reached marks.now (expr e.now)) }
    ensures noted { OnOk result (found.new.items ≡ found.old.items ++ inadmissible marks.now (expr e.now)) }
{
    match e {
        TypedExpr::This(..) => Ok(this()),
        TypedExpr::Result(_, ty) => Ok(other(ty.is_none())),
        TypedExpr::Iff(_, a, b) | TypedExpr::Implies(_, a, b) | TypedExpr::Owners(_, _, a, b) => {
            find_reads(marks, a, found)?;
            find_in_operand(marks, b, found)
        }
        TypedExpr::Negate(_, inner)
        | TypedExpr::Not(_, inner)
        | TypedExpr::Cast(_, _, _, inner)
        | TypedExpr::State(_, _, inner)
        | TypedExpr::NewArray(_, _, inner) => find_in_operand(marks, inner, found),
        TypedExpr::Old(_, inner) => {
            let head = find_reads(marks, inner, found)?;
            Ok(other(head.is_untyped))
        }
        TypedExpr::Chain(_, first, links) => {
            let head = find_reads(marks, first, found)?;
            find_in_links(marks, links, found)?;
            Ok(after_links(head, links))
        }
        TypedExpr::Path(place, first, steps) => {
            let start = found.len();
            let head = find_reads(marks, first, found)?;
            find_in_steps(marks, *place, start, head, steps, found)
        }
        TypedExpr::Quantified(_, _, _, low, high, member) => {
            find_reads(marks, low, found)?;
            find_reads(marks, high, found)?;
            find_in_operand(marks, member, found)
        }
        TypedExpr::New(_, _, list)
        | TypedExpr::Static(_, _, _, list)
        | TypedExpr::Base(_, _, _, list) => {
            find_in_each(marks, list, found)?;
            Ok(nothing())
        }
        _ => Ok(nothing()),
    }
}

// The last operand of what is neither `this` nor a path.
#[cycle(reads)]
fn find_in_operand(
    marks: &[Mark],
    operand: &TypedExpr,
    found: &mut Vec<Place>,
) -> Result<Reached, AllocError>
    ensures reached { IfOk result (λ r. r ≡ nothing_reached) }
    ensures noted { OnOk result (found.new.items ≡ found.old.items ++ inadmissible marks.now (expr operand.now)) }
{
    find_reads(marks, operand, found)?;
    Ok(nothing())
}

// ---- chains

// A chain that begins so. Without links it is what it begins with.
fn after_links(head: Reached, links: &[TypedLink]) -> Reached
    ensures { (ms : List MarkValue) → (p : PlaceValue) → (e : ExprTree) → head ≡ reached ms e
        → result ≡ reached ms (grouped p e (map link_after links.now)) }
{
    if links.is_empty() { head } else { nothing() }
}

#[cycle(reads)]
fn find_in_links(
    marks: &[Mark],
    links: &[TypedLink],
    found: &mut Vec<Place>,
) -> Result<(), AllocError>
    ensures { OnOk result (found.new.items ≡ found.old.items ++ links_reads marks.now links.now) }
{
    for link in links {
        find_in_link(marks, link, found)?;
    }
    Ok(())
}

#[cycle(reads)]
fn find_in_link(marks: &[Mark], link: &TypedLink, found: &mut Vec<Place>) -> Result<(), AllocError>
    ensures { OnOk result (found.new.items ≡ found.old.items ++ link_reads marks.now link.now) }
{
    match link {
        TypedLink::Operation(_, operand) => {
            find_reads(marks, operand, found)?;
            Ok(())
        }
        TypedLink::Is(_) | TypedLink::As(_) => Ok(()),
    }
}

// ---- paths

// The steps of a path, after what it begins with.
#[cycle(reads)]
fn find_in_steps(
    marks: &[Mark],
    place: Place,
    start: usize,
    first: Reached,
    steps: &[TypedStep],
    found: &mut Vec<Place>,
) -> Result<Reached, AllocError>
    ensures { IfOk result (λ r. Leads marks.now start found.old.items first found.new.items r (λ (e : ExprTree). grouped place e (map step_after steps.now))) }
{
    let mut head = first;
    for step in steps {
        head = find_in_step(marks, place, start, head, step, found)?;
    }
    Ok(head)
}

#[cycle(reads)]
fn find_in_step(
    marks: &[Mark],
    place: Place,
    start: usize,
    head: Reached,
    step: &TypedStep,
    found: &mut Vec<Place>,
) -> Result<Reached, AllocError>
    ensures { IfOk result (λ r. Leads marks.now start found.old.items head found.new.items r (step_after step.now place)) }
{
    match step {
        TypedStep::Field(field, _) => {
            add_unless(head.is_this || head.is_owned, place, start, found)?;
            Ok(after_field(marks, head, *field))
        }
        TypedStep::Element(index) => {
            find_reads(marks, index, found)?;
            add_unless(head.is_untyped || head.is_owned, place, start, found)?;
            Ok(other(head.is_untyped))
        }
        TypedStep::Length => Ok(nothing()),
        TypedStep::Call(_, _, list) => {
            find_in_each(marks, list, found)?;
            Ok(nothing())
        }
    }
}

/// Adds those in these arguments.
#[cycle(reads)]
pub fn find_in_each(
    marks: &[Mark],
    list: &[TypedExpr],
    found: &mut Vec<Place>,
) -> Result<(), AllocError>
    ensures { OnOk result (found.new.items ≡ found.old.items ++ inadmissible_each marks.now (arguments (map expr list.now))) }
{
    for e in list {
        find_reads(marks, e, found)?;
    }
    Ok(())
}
