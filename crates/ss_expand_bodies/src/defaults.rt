// Default contracts.

ghost use Rattle.std.specs.Prelude.{◌≡◌, ◌++◌, [], OnOk, IfOk, map, if◌then◌else◌};
ghost use Rattle.ss_core.specs.View as core;
ghost use Rattle.ss_typed.specs.View as typed;
ghost use Rattle.ss_expand_rules.specs.Contracts as contracts;
ghost use Rattle.ss_expand_bodies.specs.Conditions.{defaults_of};

use ss_core::{ClassId, DefaultCondition, Expr, Place, is_class_type};
use ss_typed::{TypedBody, TypedParam};
use std::alloc::{AllocError, Global};

/// The number of the first parameter.
pub fn first_param(body: &TypedBody) -> usize
    ensures { result ≡ contracts.first_param (typed.body body.now) }
{
    if body.flags.is_static { 0 } else { 1 }
}

// Adds what is asked at entry of `this` of a body of the class, unless it has no default contract.
fn add_of_this(
    conditions: &mut Vec<DefaultCondition>,
    body: &TypedBody,
    class: ClassId,
) -> Result<(), AllocError>
    ensures { OnOk result (defaults_of conditions.new ≡ defaults_of conditions.old ++ (if body.now.flags.no_default_contract then [] else contracts.of_this_at_entry (typed.body body.now) class.0)) }
{
    if body.flags.no_default_contract {
        return Ok(());
    }
    if body.flags.is_static {
        return Ok(());
    }
    if body.flags.ctor {
        conditions.push(DefaultCondition::Unpacked)?;
        conditions.push(DefaultCondition::Unowned)?;
        conditions.push(DefaultCondition::Defaults(class))?;
        conditions.push(DefaultCondition::OwnedFull(class))?;
        return Ok(());
    }
    if body.flags.pure {
        conditions.push(DefaultCondition::Full)?;
        return Ok(());
    }
    conditions.push(DefaultCondition::AtLevel(class))?;
    Ok(())
}

// What is asked of the reference argument.
fn of_argument(body: &TypedBody, x: usize) -> DefaultCondition
    ensures { core.default_tree result ≡ contracts.of_argument (typed.body body.now) x }
{
    if body.flags.pure {
        DefaultCondition::FullArgument(x)
    } else {
        DefaultCondition::ConsistentArgument(x)
    }
}

// Adds what is asked of a parameter with this number.
fn add_of_param(
    conditions: &mut Vec<DefaultCondition>,
    body: &TypedBody,
    x: usize,
    param: &TypedParam,
) -> Result<(), AllocError>
    ensures { OnOk result (defaults_of conditions.new ≡ defaults_of conditions.old ++ contracts.of_param (typed.body body.now) x (typed.param param.now)) }
{
    if is_class_type(param.ty) && !body.flags.no_default_contract {
        conditions.push(of_argument(body, x))?;
    }
    if param.captured {
        conditions.push(DefaultCondition::Captured {
            argument: x,
            apart_from_this: !body.flags.is_static,
        })?;
    }
    Ok(())
}

// Adds what is asked of the parameters, of which the first has this number.
fn add_of_params(
    conditions: &mut Vec<DefaultCondition>,
    body: &TypedBody,
    first: usize,
    params: &[TypedParam],
) -> Result<(), AllocError>
    ensures { OnOk result (defaults_of conditions.new ≡ defaults_of conditions.old ++ contracts.of_params (typed.body body.now) first (map typed.param params.now)) }
{
    let mut x = first;
    for param in params {
        add_of_param(conditions, body, x, param)?;
        x = x.checked_add(1).ok_or(AllocError)?;
    }
    Ok(())
}

/// The default conditions at entry of a body of the class that stands for this one.
pub fn default_entry(
    alloc: Global,
    body: &TypedBody,
    class: ClassId,
) -> Result<Vec<DefaultCondition>, AllocError>
    ensures { IfOk result (λ ds. defaults_of ds ≡ contracts.default_entry (typed.body body.now) class.0) }
{
    let mut conditions = Vec::new(alloc);
    add_of_this(&mut conditions, body, class)?;
    add_of_params(&mut conditions, body, first_param(body), &body.params)?;
    Ok(conditions)
}

/// The default conditions at its exit.
pub fn default_exit(
    alloc: Global,
    body: &TypedBody,
    class: ClassId,
) -> Result<Vec<DefaultCondition>, AllocError>
    ensures { IfOk result (λ ds. defaults_of ds ≡ contracts.default_exit (typed.body body.now) class.0) }
{
    let mut conditions = Vec::new(alloc);
    if !body.flags.no_default_contract && !body.flags.pure && !body.flags.is_static {
        conditions.push(DefaultCondition::AtLevel(class))?;
    }
    Ok(conditions)
}

/// The conditions as expressions at this place.
pub fn conditions(
    alloc: Global,
    place: Place,
    defaults: &[DefaultCondition],
) -> Result<Vec<Expr>, AllocError>
    ensures { IfOk result (λ es. core.exprs es.items ≡ contracts.conditions place (map core.default_tree defaults.now)) }
{
    let mut exprs = Vec::new(alloc);
    for condition in defaults {
        exprs.push(Expr::Default(place, *condition))?;
    }
    Ok(exprs)
}
