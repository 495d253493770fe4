// Left sides of assignments, and their parts.

ghost use Rattle.std.specs.Prelude.{◌≡◌, IfOk};
ghost use Rattle.ss_core.specs.View as core;
ghost use Rattle.ss_typed.specs.View as typed;
ghost use Rattle.ss_expand_rules.specs.Numbers.{plain};
ghost use Rattle.ss_expand_expressions.specs.Views.{numbers_of};
ghost use Rattle.ss_typed.specs.Parts.{step_after, stepped};
ghost use Rattle.ss_expand_expressions.specs.Sources.{stmts_of};
ghost use Rattle.ss_expand_expressions.specs.Operands.{IsOperand};
ghost use Rattle.ss_expand_lifting.specs.Contexts.{context_of};
ghost use Rattle.ss_expand_lifting.specs.Lefts.{part_tree, IsLeft};

use crate::code::Code;
use crate::context::ElaborationContext;
use crate::fronts::{front_of_path, steps_after};
use crate::lifting::{lift_operand, lift_steps};
use ss_core::{Expr, FieldId, Place, Ty};
use ss_expand_expressions::{Numbers, Operand, plain, plain_steps, whole_path};
use ss_typed::{TypedExpr, TypedStep};
use std::alloc::{AllocError, Global};

/// A part of a left side: an expression, with these steps after it.
#[derive(Clone, Copy)]
pub(crate) struct Part<'a> {
    pub(crate) place: Place,
    pub(crate) first: &'a TypedExpr,
    pub(crate) steps: &'a [TypedStep],
}

/// What may be assigned: a local, a field of an object, or an element of an array.
#[derive(Clone, Copy)]
pub(crate) enum Left<'a> {
    Local(Place, usize, Ty),
    Field(Place, Part<'a>, FieldId, Ty),
    Element(Place, Part<'a>, &'a TypedExpr),
    /// No left side.
    Other,
}

// The left side that a path with these steps is, the last of which is this one.
fn left_of_path<'a>(
    place: Place,
    first: &'a TypedExpr,
    before: &'a [TypedStep],
    last: &'a TypedStep,
) -> Left<'a>
    ensures { IsLeft (step_after last.now place (stepped place (typed.expr first.now) before.now)) result }
{
    let part = Part {
        place,
        first,
        steps: before,
    };
    match last {
        TypedStep::Field(field, ty) => Left::Field(place, part, *field, *ty),
        TypedStep::Element(index) => Left::Element(place, part, index),
        TypedStep::Length | TypedStep::Call(..) => Left::Other,
    }
}

/// What the expression is as a left side.
pub(crate) fn left_of(e: &TypedExpr) -> Left<'_>
    ensures { IsLeft (typed.expr e.now) result }
{
    match e {
        TypedExpr::Local(place, x, ty) => Left::Local(*place, *x, *ty),
        TypedExpr::Path(place, first, steps) => match steps.split_last() {
            Some((last, before)) => left_of_path(*place, first, before, last),
            None => left_of(first),
        },
        TypedExpr::Chain(_, first, links) => {
            if links.is_empty() {
                left_of(first)
            } else {
                Left::Other
            }
        }
        TypedExpr::Int(..)
        | TypedExpr::Bool(..)
        | TypedExpr::Null(..)
        | TypedExpr::This(..)
        | TypedExpr::Result(..)
        | TypedExpr::Bound(..)
        | TypedExpr::Iff(..)
        | TypedExpr::Implies(..)
        | TypedExpr::Negate(..)
        | TypedExpr::Not(..)
        | TypedExpr::Cast(..)
        | TypedExpr::Old(..)
        | TypedExpr::Quantified(..)
        | TypedExpr::State(..)
        | TypedExpr::Owners(..)
        | TypedExpr::New(..)
        | TypedExpr::NewArray(..)
        | TypedExpr::Static(..)
        | TypedExpr::Base(..) => Left::Other,
    }
}

/// The part without calls in the numbers of the core program.
pub(crate) fn plain_part(
    alloc: Global,
    numbers: &Numbers,
    part: Part<'_>,
) -> Result<Expr, AllocError>
    ensures { IfOk result (λ r. core.expr r ≡ plain (numbers_of numbers.now) (part_tree part.entry)) }
{
    let first = plain(alloc, numbers, part.first)?;
    if part.steps.is_empty() {
        return Ok(first);
    }
    let steps = plain_steps(alloc, numbers, part.steps)?;
    let boxed = Box::new(alloc, first)?;
    let path = whole_path(alloc, part.place, boxed, steps)?;
    Ok(path)
}

/// The part lifted, with what is known of it.
pub(crate) fn part_operand(
    context: &ElaborationContext<'_>,
    part: Part<'_>,
    code: &mut Code,
    made: &mut Vec<Ty>,
) -> Result<Operand, AllocError>
    ensures { IfOk result (λ o. IsOperand (context_of context.now) (part_tree part.entry) (stmts_of code.old.statements) made.old.items code.new.statements made.new o) }
{
    let first = lift_operand(context, part.first, code, made)?;
    let front = front_of_path(
        context.alloc,
        context.numbers,
        part.place,
        first,
        part.steps,
    )?;
    let rest = steps_after(part.steps, front.length);
    let whole = lift_steps(context, part.place, rest, front.operand, code, made)?;
    Ok(whole)
}
