//! The limit on the locals of a body, its temporaries among them, asked of the elaborated program.
#![tactic(auto)]

ghost use Rattle.std.specs.Prelude.{◌≡◌, ◌++◌, map, IfOk, OnOk};
ghost use Rattle.ss_core.specs.View as core;
ghost use Rattle.ss_typed.specs.View.{typed};
ghost use Rattle.ss_expand_programs.specs.Limits.{HasFewClasses};
ghost use Rattle.ss_resolver_limits.specs.Limits.{body_faults, bodies_faults, limit_faults, first_limit_fault};

use ss_core::{Body, Rule};
use ss_expand_programs::expand;
use ss_faults::{Fault, first_fault};
use ss_resolver_names_rules::MOST_LOCALS;
use ss_typed::Typed;
use std::alloc::{AllocError, Global};

// A body with too many locals.
#[tactic(auto, unfolding(ss_resolver_names_rules::specs::Programs::most_locals))]
fn check_body(faults: &mut Vec<Fault>, body: &Body) -> Result<(), AllocError>
    ensures { OnOk result (faults.new.items ≡ faults.old.items ++ body_faults (core.body body.now)) }
{
    if body.locals.len() <= MOST_LOCALS {
        return Ok(());
    }
    faults.push(Fault {
        rule: Rule::Limit.number(),
        place: body.place,
    })?;
    Ok(())
}

fn check_bodies(faults: &mut Vec<Fault>, bodies: &[Body]) -> Result<(), AllocError>
    ensures { OnOk result (faults.new.items ≡ faults.old.items ++ bodies_faults (map core.body bodies.now)) }
{
    for body in bodies {
        check_body(faults, body)?;
    }
    Ok(())
}

// The bodies of the elaborated program with too many locals.
fn limit_faults(alloc: Global, program: &Typed) -> Result<Vec<Fault>, AllocError>
    requires { HasFewClasses (typed program.now) }
    ensures { IfOk result (λ v. v.items ≡ limit_faults (typed program.now)) }
{
    let elaborated = expand(alloc, program)?;
    let mut faults = Vec::new(alloc);
    check_bodies(&mut faults, &elaborated.bodies)?;
    Ok(faults)
}

/// The first body of the elaborated program, in the order of places, that has more than 4,096 locals, as a fault at its place; None
/// where there is none. The error is want of memory.
pub fn first_limit_fault(alloc: Global, program: &Typed) -> Result<Option<Fault>, AllocError>
    requires few_classes { HasFewClasses (typed program.now) }
    ensures { IfOk result (λ f. f ≡ first_limit_fault (typed program.now)) }
{
    let faults = limit_faults(alloc, program)?;
    Ok(first_fault(&faults))
}
