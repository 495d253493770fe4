// Whole programs.

ghost use Rattle.std.specs.Prelude.{◌≡◌, ◌++◌, IfOk, OnOk, map};
ghost use Rattle.ss_typed.specs.View.{typed, body};
ghost use Rattle.ss_nonnull.specs.Names.{table_names};
ghost use Rattle.ss_faults.specs.First.{first_fault, Answers};
ghost use Rattle.ss_nonnull_rules.specs.Program.{body_faults, bodies_faults, null_faults};

use crate::bodies::check_body;
use crate::initializers::check_initializers;
use crate::overrides::{all_names, check_override};
use ss_core::FrontStop;
use ss_faults::{Fault, answer, first_fault};
use ss_paths_assigned::Fields;
use ss_tables_lookup::NameMap;
use ss_typed::{Typed, TypedBody};
use std::alloc::{AllocError, Global};

fn check_whole(
    alloc: Global,
    fields: &Fields<'_>,
    names: &[NameMap<usize>],
    found: &mut Vec<Fault>,
    checked: &TypedBody,
) -> Result<(), AllocError>
    requires { names.now ≡ map table_names (typed fields.now.program.now).classes }
    ensures { OnOk result (found.new.items ≡ found.old.items ++ body_faults (typed fields.now.program.now) (body checked.now)) }
{
    check_override(fields.program, names, found, checked)?;
    check_body(alloc, fields, found, checked)?;
    Ok(())
}

// These bodies of the program.
fn check_all(
    alloc: Global,
    fields: &Fields<'_>,
    names: &[NameMap<usize>],
    found: &mut Vec<Fault>,
    list: &[TypedBody],
) -> Result<(), AllocError>
    requires { names.now ≡ map table_names (typed fields.now.program.now).classes }
    ensures { OnOk result (found.new.items ≡ found.old.items ++ bodies_faults (typed fields.now.program.now) (map body list.now)) }
{
    for checked in list {
        check_whole(alloc, fields, names, found, checked)?;
    }
    Ok(())
}

fn check_bodies(alloc: Global, program: &Typed, found: &mut Vec<Fault>) -> Result<(), AllocError>
    ensures { OnOk result (found.new.items ≡ found.old.items ++ bodies_faults (typed program.now) (typed program.now).bodies) }
{
    let fields = Fields::new(alloc, program)?;
    let names = all_names(alloc, &program.classes.list)?;
    check_all(alloc, &fields, &names, found, &program.bodies)?;
    Ok(())
}

// The first fault of non-null types in a program, where it has one.
#[tactic(auto, unfolding(ss_nonnull_rules::specs::Program::null_faults))]
fn first_null_fault(alloc: Global, program: &Typed) -> Result<Option<Fault>, AllocError>
    ensures { IfOk result (λ r. r ≡ first_fault (null_faults (typed program.now))) }
{
    let mut found = Vec::new(alloc);
    check_initializers(alloc, program, &mut found)?;
    check_bodies(alloc, program, &mut found)?;
    Ok(first_fault(&found))
}

/// Refuses a program that has faults of non-null types, by the first: the one at the earliest place, and of two there the one of the
/// lower rule.
pub fn check_nulls(alloc: Global, program: &Typed) -> Result<(), FrontStop>
    ensures { Answers (first_fault (null_faults (typed program.now))) result }
{
    answer(first_null_fault(alloc, program))
}
