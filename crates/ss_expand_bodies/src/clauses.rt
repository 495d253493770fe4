// The contract of a body.

ghost use Rattle.std.specs.Prelude.{◌≡◌, ◌++◌, IfOk, OnOk, map};
ghost use Rattle.ss_core.specs.View as core;
ghost use Rattle.ss_typed.specs.View as typed;
ghost use Rattle.ss_expand_rules.specs.Contracts as contracts;
ghost use Rattle.ss_expand_rules.specs.Numbers as elab;
ghost use Rattle.ss_expand_expressions.specs.Views.{numbers_of};

use crate::contracts::{add_plain, list_terms};
use crate::defaults::{conditions, default_entry, default_exit};
use ss_core::{ClassId, Expr, Modifies, Place};
use ss_expand_expressions::Numbers;
use ss_typed::{TypedBody, TypedExpr};
use std::alloc::{AllocError, Global};

// What the `requires` clauses of the first of these say.
fn entry_of_first<'a>(declared: &[&'a TypedBody]) -> &'a [TypedExpr]
    ensures { typed.exprs result.now ≡ contracts.entry_of_first (map (λ b. typed.body b.now) declared.now) }
{
    match declared {
        [first, ..] => first.entry.as_slice(),
        [] => &[],
    }
}

// The default conditions at entry.
fn default_conditions(
    alloc: Global,
    place: Place,
    body: &TypedBody,
    class: ClassId,
) -> Result<Vec<Expr>, AllocError>
    ensures { IfOk result (λ es. core.exprs es.items ≡ contracts.conditions place (contracts.default_entry (typed.body body.now) class.0)) }
{
    let defaults = default_entry(alloc, body, class)?;
    conditions(alloc, place, &defaults)
}

/// The conditions at entry of a body of the class that stands for this one, whose method has these declarations.
pub fn entry_conditions(
    alloc: Global,
    numbers: &Numbers,
    place: Place,
    body: &TypedBody,
    class: ClassId,
    declared: &[&TypedBody],
) -> Result<Vec<Expr>, AllocError>
    ensures { IfOk result (λ es. core.exprs es.items ≡ contracts.entry_conditions (numbers_of numbers.now) place (typed.body body.now) class.0 (map (λ b. typed.body b.now) declared.now)) }
{
    let mut exprs = default_conditions(alloc, place, body, class)?;
    add_plain(alloc, &mut exprs, numbers, entry_of_first(declared))?;
    Ok(exprs)
}

// The default conditions at exit.
fn default_promises(
    alloc: Global,
    place: Place,
    body: &TypedBody,
    class: ClassId,
) -> Result<Vec<Expr>, AllocError>
    ensures { IfOk result (λ es. core.exprs es.items ≡ contracts.conditions place (contracts.default_exit (typed.body body.now) class.0)) }
{
    let defaults = default_exit(alloc, body, class)?;
    conditions(alloc, place, &defaults)
}

// Adds what the `ensures` clauses of all of these say.
fn add_exits(
    alloc: Global,
    exprs: &mut Vec<Expr>,
    numbers: &Numbers,
    declared: &[&TypedBody],
) -> Result<(), AllocError>
    ensures { OnOk result (core.exprs exprs.new.items ≡ core.exprs exprs.old.items ++ elab.all_plain (numbers_of numbers.now) (contracts.all_exits (map (λ b. typed.body b.now) declared.now))) }
{
    for body in declared {
        add_plain(alloc, exprs, numbers, &body.exit)?;
    }
    Ok(())
}

/// The conditions at its exit: of an override those of what it overrides stand before its own.
pub fn exit_conditions(
    alloc: Global,
    numbers: &Numbers,
    place: Place,
    body: &TypedBody,
    class: ClassId,
    declared: &[&TypedBody],
) -> Result<Vec<Expr>, AllocError>
    ensures { IfOk result (λ es. core.exprs es.items ≡ contracts.exit_conditions (numbers_of numbers.now) place (typed.body body.now) class.0 (map (λ b. typed.body b.now) declared.now)) }
{
    let mut exprs = default_promises(alloc, place, body, class)?;
    add_exits(alloc, &mut exprs, numbers, declared)?;
    Ok(exprs)
}

/// What it may change.
pub fn named_terms(
    alloc: Global,
    numbers: &Numbers,
    place: Place,
    body: &TypedBody,
    class: ClassId,
    declared: &[&TypedBody],
) -> Result<Vec<Modifies>, AllocError>
    ensures { IfOk result (λ ms. map core.named_of ms.items ≡ contracts.named_terms (numbers_of numbers.now) place (typed.body body.now) class.0 (map (λ b. typed.body b.now) declared.now)) }
{
    match declared {
        [first, ..] => list_terms(alloc, numbers, place, body, class, &first.modifies),
        [] => list_terms(alloc, numbers, place, body, class, &None),
    }
}
