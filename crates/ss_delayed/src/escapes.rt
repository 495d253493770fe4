// Where `this` stands in an expression.

ghost use Rattle.std.specs.Prelude.{◌≡◌, [], ◌∷◌, ◌++◌, OnOk, map};
ghost use Rattle.ss_typed.specs.Tree.{arguments};
ghost use Rattle.ss_typed.specs.View.{expr};
ghost use Rattle.ss_delayed_rules.specs.Escapes.{may_read, uses, uses_each};
ghost use Rattle.ss_typed.specs.Parts.{step_after};
ghost use Rattle.ss_delayed.specs.Parts.{use_of, no_place, nothing, link_uses, links_uses, step_uses, steps_uses, is_field, starts_with_field, is_allowed_read, unless};

use ss_core::Place;
use ss_typed::{TypedExpr, TypedLink, TypedStep, is_this};
use std::alloc::AllocError;

/// How `this` may be used.
#[derive(Clone, Copy, Debug, PartialEq, Eq)]
pub enum Use {
    /// A field of it may be read.
    ForFields,
    /// It may not be used.
    NotAtAll,
}

fn may_read(allowed: Use) -> bool
    ensures { result ≡ may_read (use_of allowed) }
{
    match allowed {
        Use::ForFields => true,
        Use::NotAtAll => false,
    }
}

fn is_field(step: &TypedStep) -> bool
    ensures { result ≡ is_field (step_after step.now no_place nothing) }
{
    match step {
        TypedStep::Field(..) => true,
        TypedStep::Element(_) | TypedStep::Length | TypedStep::Call(..) => false,
    }
}

fn starts_with_field(steps: &[TypedStep]) -> bool
    ensures { result ≡ starts_with_field steps.now }
{
    match steps {
        [step, ..] => is_field(step),
        [] => false,
    }
}

// Whether a path reads a field of `this`, where that is allowed.
fn is_allowed_read(allowed: Use, first: &TypedExpr, steps: &[TypedStep]) -> bool
    ensures { result ≡ is_allowed_read (use_of allowed) (expr first.now) steps.now }
{
    starts_with_field(steps) && (may_read(allowed) && is_this(first))
}

// Adds a place.
fn note(place: Place, found: &mut Vec<Place>) -> Result<(), AllocError>
    ensures { OnOk result (found.new.items ≡ found.old.items ++ place ∷ []) }
{
    found.push(place)?;
    Ok(())
}

/// Adds the places in the expression where `this` is used otherwise.
#[cycle(uses)]
pub fn find_uses(allowed: Use, e: &TypedExpr, found: &mut Vec<Place>) -> Result<(), AllocError>
    ensures { OnOk result (found.new.items ≡ found.old.items ++ uses (use_of allowed) (expr e.now)) }
{
    match e {
        TypedExpr::This(place, _) => note(*place, found),
        TypedExpr::Iff(_, a, b) | TypedExpr::Implies(_, a, b) | TypedExpr::Owners(_, _, a, b) => {
            find_uses(allowed, a, found)?;
            find_uses(allowed, b, found)
        }
        TypedExpr::Negate(_, inner)
        | TypedExpr::Not(_, inner)
        | TypedExpr::Cast(_, _, _, inner)
        | TypedExpr::Old(_, inner)
        | TypedExpr::State(_, _, inner)
        | TypedExpr::NewArray(_, _, inner) => find_uses(allowed, inner, found),
        TypedExpr::Chain(_, first, links) => {
            find_uses(allowed, first, found)?;
            find_in_links(allowed, links, found)?;
            Ok(())
        }
        TypedExpr::Path(_, first, steps) => {
            let is_read = is_allowed_read(allowed, first, steps);
            find_unless(is_read, allowed, first, found)?;
            find_in_steps(allowed, steps, found)?;
            Ok(())
        }
        TypedExpr::Quantified(_, _, _, low, high, member) => {
            find_uses(allowed, low, found)?;
            find_uses(allowed, high, found)?;
            find_uses(allowed, member, found)?;
            Ok(())
        }
        TypedExpr::New(_, _, list) | TypedExpr::Static(_, _, _, list) => {
            find_in_each(allowed, list, found)
        }
        TypedExpr::Base(place, _, _, list) => {
            found.push(*place)?;
            find_in_each(allowed, list, found)?;
            Ok(())
        }
        _ => Ok(()),
    }
}

// What a path begins with, unless it reads a field of it where that is allowed.
#[cycle(uses)]
fn find_unless(
    is_read: bool,
    allowed: Use,
    first: &TypedExpr,
    found: &mut Vec<Place>,
) -> Result<(), AllocError>
    ensures { OnOk result (found.new.items ≡ found.old.items ++ unless is_read (uses (use_of allowed) (expr first.now))) }
{
    if is_read {
        return Ok(());
    }
    find_uses(allowed, first, found)?;
    Ok(())
}

// What stands after the first operand of a chain.
#[cycle(uses)]
fn find_in_links(
    allowed: Use,
    links: &[TypedLink],
    found: &mut Vec<Place>,
) -> Result<(), AllocError>
    ensures { OnOk result (found.new.items ≡ found.old.items ++ links_uses (use_of allowed) links.now) }
{
    for link in links {
        find_in_link(allowed, link, found)?;
    }
    Ok(())
}

#[cycle(uses)]
fn find_in_link(allowed: Use, link: &TypedLink, found: &mut Vec<Place>) -> Result<(), AllocError>
    ensures { OnOk result (found.new.items ≡ found.old.items ++ link_uses (use_of allowed) link.now) }
{
    match link {
        TypedLink::Operation(_, operand) => {
            find_uses(allowed, operand, found)?;
            Ok(())
        }
        TypedLink::Is(_) | TypedLink::As(_) => Ok(()),
    }
}

// What stands after the beginning of a path.
#[cycle(uses)]
fn find_in_steps(
    allowed: Use,
    steps: &[TypedStep],
    found: &mut Vec<Place>,
) -> Result<(), AllocError>
    ensures { OnOk result (found.new.items ≡ found.old.items ++ steps_uses (use_of allowed) steps.now) }
{
    for step in steps {
        find_in_step(allowed, step, found)?;
    }
    Ok(())
}

#[cycle(uses)]
fn find_in_step(allowed: Use, step: &TypedStep, found: &mut Vec<Place>) -> Result<(), AllocError>
    ensures { OnOk result (found.new.items ≡ found.old.items ++ step_uses (use_of allowed) step.now) }
{
    match step {
        TypedStep::Field(..) | TypedStep::Length => Ok(()),
        TypedStep::Element(index) => {
            find_uses(allowed, index, found)?;
            Ok(())
        }
        TypedStep::Call(_, _, list) => {
            find_in_each(allowed, list, found)?;
            Ok(())
        }
    }
}

/// Adds the places in these arguments.
#[cycle(uses)]
pub fn find_in_each(
    allowed: Use,
    list: &[TypedExpr],
    found: &mut Vec<Place>,
) -> Result<(), AllocError>
    ensures { OnOk result (found.new.items ≡ found.old.items ++ uses_each (use_of allowed) (arguments (map expr list.now))) }
{
    for e in list {
        find_uses(allowed, e, found)?;
    }
    Ok(())
}
