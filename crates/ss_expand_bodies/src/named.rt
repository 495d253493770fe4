// The locals of a body of the core program.

ghost use Rattle.std.specs.Prelude.{◌≡◌, ◌++◌, ◌∷◌, [], map, cond, IfOk, OnOk};
ghost use Rattle.ss_core.specs.View as core;
ghost use Rattle.ss_typed.specs.View as typed;
ghost use Rattle.ss_expand_rules.specs.Bodies as bodies;

use ss_core::{Local, Ty};
use ss_expand_expressions::assigned_locals;
use ss_typed::{TypedBlock, TypedParam};
use std::alloc::{AllocError, Global};

// The parameter as a local.
fn param_of(param: &TypedParam) -> Result<Local, AllocError>
    ensures { IfOk result (λ l. core.local_of l ≡ bodies.param_of (typed.param param.now)) }
{
    Ok(Local {
        name: param.name.clone()?,
        ty: param.ty,
        captured: param.captured,
    })
}

// Its copy, which has its name and its type.
fn copy_of(param: &TypedParam) -> Result<Local, AllocError>
    ensures { IfOk result (λ l. core.local_of l ≡ bodies.copy_of (typed.param param.now)) }
{
    Ok(Local {
        name: param.name.clone()?,
        ty: param.ty,
        captured: false,
    })
}

// The same local.
fn same_local(local: &Local) -> Result<Local, AllocError>
    ensures { IfOk result (λ l. core.local_of l ≡ core.local_of local.now) }
{
    Ok(Local {
        name: local.name.clone()?,
        ty: local.ty,
        captured: local.captured,
    })
}

/// Adds these locals.
pub fn add_locals(locals: &mut Vec<Local>, more: &[Local]) -> Result<(), AllocError>
    ensures { OnOk result (map core.local_of locals.new.items ≡ map core.local_of locals.old.items ++ map core.local_of more.now) }
{
    for local in more {
        locals.push(same_local(local)?)?;
    }
    Ok(())
}

/// Adds the parameters.
pub fn add_params(locals: &mut Vec<Local>, params: &[TypedParam]) -> Result<(), AllocError>
    ensures { OnOk result (map core.local_of locals.new.items ≡ map core.local_of locals.old.items ++ map bodies.param_of (map typed.param params.now)) }
{
    for param in params {
        locals.push(param_of(param)?)?;
    }
    Ok(())
}

// Adds the copy of a parameter that is assigned.
fn add_copy(locals: &mut Vec<Local>, assigned: bool, param: &TypedParam) -> Result<(), AllocError>
    ensures { OnOk result (map core.local_of locals.new.items ≡ map core.local_of locals.old.items ++ cond assigned (bodies.copy_of (typed.param param.now) ∷ []) []) }
{
    if assigned {
        locals.push(copy_of(param)?)?;
    }
    Ok(())
}

/// Adds the copies of those of these parameters that the block assigns, of which the first has this number.
pub fn add_copies(
    alloc: Global,
    locals: &mut Vec<Local>,
    block: &TypedBlock,
    first: usize,
    params: &[TypedParam],
) -> Result<(), AllocError>
    ensures { OnOk result (map core.local_of locals.new.items ≡ map core.local_of locals.old.items ++ map bodies.copy_of (bodies.assigned_from (typed.block block.now) first (map typed.param params.now))) }
{
    let assigned = assigned_locals(alloc, block)?;
    let mut x = first;
    for param in params {
        add_copy(locals, assigned.has(x), param)?;
        x = x.checked_add(1).ok_or(AllocError)?;
    }
    Ok(())
}

// A temporary, which is named t0, t1 and so on.
fn temporary_of(alloc: Global, number: usize, ty: Ty) -> Result<Local, AllocError>
    ensures { IfOk result (λ l. core.local_of l ≡ bodies.temporary_of number ty) }
{
    Ok(Local {
        name: format!(in alloc; "t{number}")?,
        ty,
        captured: false,
    })
}

/// Adds temporaries of these types, of which the first has this number.
pub fn add_temporaries(
    alloc: Global,
    locals: &mut Vec<Local>,
    first: usize,
    types: &[Ty],
) -> Result<(), AllocError>
    ensures { OnOk result (map core.local_of locals.new.items ≡ map core.local_of locals.old.items ++ bodies.temporaries_from first types.now) }
{
    let mut number = first;
    for ty in types {
        locals.push(temporary_of(alloc, number, *ty)?)?;
        number = number.checked_add(1).ok_or(AllocError)?;
    }
    Ok(())
}
