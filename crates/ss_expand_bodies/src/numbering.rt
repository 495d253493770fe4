// The numbers of the locals of a body.

ghost use Rattle.std.specs.Prelude.{◌≡◌, ◌+◌, ◌++◌, ◌∷◌, [], length, map, cond, IfOk, OnOk};
ghost use Rattle.ss_typed.specs.View as typed;
ghost use Rattle.ss_expand_rules.specs.Bodies as bodies;
ghost use Rattle.ss_expand_rules.specs.Numbers as elab;
ghost use Rattle.ss_expand_expressions.specs.Views.{numbers_of};

use crate::defaults::first_param;
use ss_core::Ty;
use ss_expand_expressions::{Numbers, assigned_locals};
use ss_typed::{TypedBlock, TypedBody, TypedParam};
use std::alloc::{AllocError, Global};

// The sum of two numbers of locals. There is no room for so many that it doesn't fit.
fn plus(a: usize, b: usize) -> Result<usize, AllocError>
    ensures { IfOk result (λ n. n ≡ a + b) }
{
    a.checked_add(b).ok_or(AllocError)
}

/// The number of the first copy of a parameter.
pub fn first_copy(body: &TypedBody) -> Result<usize, AllocError>
    ensures { IfOk result (λ n. n ≡ bodies.first_copy (typed.body body.now)) }
{
    let params = plus(first_param(body), body.params.len())?;
    plus(params, body.locals.len())
}

// Adds what a parameter is meant by: its copy, where it is assigned, or itself. The result is the number of the next copy.
fn add_one_meant(
    meant: &mut Vec<usize>,
    assigned: bool,
    copy: usize,
    x: usize,
) -> Result<usize, AllocError>
    ensures added { OnOk result (meant.new.items ≡ meant.old.items ++ cond assigned copy x ∷ []) }
    ensures next { IfOk result (λ n. n ≡ cond assigned (copy + 1) copy) }
{
    if assigned {
        meant.push(copy)?;
        plus(copy, 1)
    } else {
        meant.push(x)?;
        Ok(copy)
    }
}

// Adds what these parameters are meant by, of which the first has this number. The result is the number after their copies.
fn add_meant(
    alloc: Global,
    meant: &mut Vec<usize>,
    block: &TypedBlock,
    first_copy: usize,
    first: usize,
    params: &[TypedParam],
) -> Result<usize, AllocError>
    ensures added { OnOk result (meant.new.items ≡ meant.old.items ++ bodies.meant_from (typed.block block.now) first_copy first (map typed.param params.now)) }
    ensures next { IfOk result (λ n. n ≡ first_copy + length (bodies.assigned_from (typed.block block.now) first (map typed.param params.now))) }
{
    let assigned = assigned_locals(alloc, block)?;
    let mut copy = first_copy;
    let mut x = first;
    for _param in params {
        copy = add_one_meant(meant, assigned.has(x), copy, x)?;
        x = plus(x, 1)?;
    }
    Ok(copy)
}

// How many results there are.
fn results(outcome: Option<Ty>) -> usize
    ensures { result ≡ bodies.results outcome }
{
    match outcome {
        Some(_) => 1,
        None => 0,
    }
}

/// The numbers of a body whose first temporary and meant parameters are these, with so many temporaries.
pub fn numbers_from(
    meant: Vec<usize>,
    first: usize,
    temporaries: usize,
    outcome: Option<Ty>,
) -> Result<Numbers, AllocError>
    ensures { IfOk result (λ ns. numbers_of ns ≡ bodies.numbers_from meant.items first temporaries outcome) }
{
    let behind = plus(first, temporaries)?;
    let first_bound = plus(behind, results(outcome))?;
    Ok(Numbers {
        meant,
        first_temporary: first,
        outcome: behind,
        first_bound,
    })
}

// `this`, which is never assigned, where the body has it.
fn add_this(meant: &mut Vec<usize>, body: &TypedBody) -> Result<(), AllocError>
    ensures { OnOk result (meant.new.items ≡ meant.old.items ++ bodies.this_meant (typed.body body.now)) }
{
    if !body.flags.is_static {
        meant.push(0)?;
    }
    Ok(())
}

/// The numbers of the body where it has so many temporaries.
pub fn numbers(alloc: Global, body: &TypedBody, temporaries: usize) -> Result<Numbers, AllocError>
    ensures { IfOk result (λ ns. numbers_of ns ≡ bodies.numbers (typed.body body.now) temporaries) }
{
    let mut meant = Vec::new(alloc);
    add_this(&mut meant, body)?;
    let copy = first_copy(body)?;
    let first = add_meant(
        alloc,
        &mut meant,
        &body.block,
        copy,
        first_param(body),
        &body.params,
    )?;
    numbers_from(meant, first, temporaries, body.result)
}
