// The contract and the parameters of a body.

ghost use Rattle.std.specs.Prelude.{◌≡◌, IfOk, map};
ghost use Rattle.ss_core.specs.View as core;
ghost use Rattle.ss_typed.specs.View as typed;
ghost use Rattle.ss_expand_rules.specs.Bodies as bodies;
ghost use Rattle.ss_expand_rules.specs.Contracts as contracts;
ghost use Rattle.ss_expand_expressions.specs.Views.{numbers_of};

use ss_core::{ClassId, Expr, Local, Modifies, Place};
use ss_expand_bodies::{add_params, entry_conditions, exit_conditions, named_terms};
use ss_expand_expressions::Numbers;
use ss_typed::{TypedBody, TypedParam};
use std::alloc::{AllocError, Global};

/// What a body asks and promises, and what it may change.
#[derive(Drop)]
pub struct Contract {
    pub entry: Vec<Expr>,
    pub exit: Vec<Expr>,
    pub named: Vec<Modifies>,
}

/// The contract of a body of the class that stands for this one, whose method has these declarations.
pub fn contract_of(
    alloc: Global,
    numbers: &Numbers,
    place: Place,
    body: &TypedBody,
    class: ClassId,
    declared: &[&TypedBody],
) -> Result<Contract, AllocError>
    ensures entry { IfOk result (λ c. core.exprs c.entry.items ≡ contracts.entry_conditions (numbers_of numbers.now) place (typed.body body.now) class.0 (map (λ b. typed.body b.now) declared.now)) }
    ensures exit { IfOk result (λ c. core.exprs c.exit.items ≡ contracts.exit_conditions (numbers_of numbers.now) place (typed.body body.now) class.0 (map (λ b. typed.body b.now) declared.now)) }
    ensures named { IfOk result (λ c. map core.named_of c.named.items ≡ contracts.named_terms (numbers_of numbers.now) place (typed.body body.now) class.0 (map (λ b. typed.body b.now) declared.now)) }
{
    let entry = entry_conditions(alloc, numbers, place, body, class, declared)?;
    let exit = exit_conditions(alloc, numbers, place, body, class, declared)?;
    let named = named_terms(alloc, numbers, place, body, class, declared)?;
    Ok(Contract { entry, exit, named })
}

/// The parameters as locals.
pub fn params_of(alloc: Global, params: &[TypedParam]) -> Result<Vec<Local>, AllocError>
    ensures { IfOk result (λ ls. map core.local_of ls.items ≡ map bodies.param_of (map typed.param params.now)) }
{
    let mut locals = Vec::new(alloc);
    add_params(&mut locals, params)?;
    Ok(locals)
}
