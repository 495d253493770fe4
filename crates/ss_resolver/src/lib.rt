//! Names and types: the resolved program of a source, or the first fault of its names, its types, or the limit on the locals of a body.
#![tactic(auto)]

ghost use Rattle.std.specs.Prelude.{◌≡◌, IfOk, None};
ghost use Rattle.ss_ast.specs.Programs.{program_tree};
ghost use Rattle.ss_resolver.specs.Phases.{source_fault, Resolves};
ghost use Rattle.ss_resolver_rules.specs.Programs as programs;
ghost use Rattle.ss_typed.specs.View.{typed};

use ss_ast::Program;
use ss_core::FrontStop;
use ss_faults::Fault;
use ss_resolver_limits::first_limit_fault;
use ss_resolver_names::check_names;
use ss_resolver_programs::resolve_program;
use ss_resolver_types::first_type_fault;
use ss_tables_lookup::Tables;
use ss_typed::Typed;
use std::alloc::{AllocError, Global};

// The first fault of names; where there is none the first fault of types.
fn source_fault(
    alloc: Global,
    tables: &Tables<'_>,
    program: &Program,
) -> Result<Option<Fault>, AllocError>
    requires { tables.now ≡ program.now.classes.items }
    ensures { IfOk result (λ f. f ≡ source_fault (program_tree program.now)) }
{
    if let Some(fault) = check_names(alloc, tables, program)? {
        return Ok(Some(fault));
    }
    first_type_fault(alloc, tables, program)
}

// The resolved program, where its elaborated bodies are within the limit.
fn check_limit(alloc: Global, program: &Program, resolved: Typed) -> Result<Typed, FrontStop>
    requires faultless { source_fault (program_tree program.now) ≡ None }
    requires resolves { typed resolved ≡ programs.resolved (program_tree program.now) }
    ensures { Resolves (program_tree program.now) result }
{
    let _program = program;
    match first_limit_fault(alloc, &resolved)? {
        None => Ok(resolved),
        Some(fault) => Err(FrontStop::Refused {
            rule: fault.rule,
            place: fault.place,
        }),
    }
}

// A program without a fault of names or types.
fn resolve_faultless<'p>(
    alloc: Global,
    tables: &Tables<'p>,
    program: &'p Program,
) -> Result<Typed, FrontStop>
    requires faultless { source_fault (program_tree program.now) ≡ None }
    requires tables { tables.now ≡ program.now.classes.items }
    ensures { Resolves (program_tree program.now) result }
{
    let resolved = resolve_program(alloc, tables, program)?;
    check_limit(alloc, program, resolved)
}

// A program with these tables.
fn resolve_by<'p>(
    alloc: Global,
    tables: &Tables<'p>,
    program: &'p Program,
) -> Result<Typed, FrontStop>
    requires { tables.now ≡ program.now.classes.items }
    ensures { Resolves (program_tree program.now) result }
{
    match source_fault(alloc, tables, program)? {
        None => resolve_faultless(alloc, tables, program),
        Some(fault) => Err(FrontStop::Refused {
            rule: fault.rule,
            place: fault.place,
        }),
    }
}

/// The resolved program. Refused comes with the first fault of names; where there is none with the first fault of types; and where
/// there is none of those either with the first body of the elaborated program that has too many locals.
pub fn resolve(alloc: Global, program: &Program) -> Result<Typed, FrontStop>
    ensures { Resolves (program_tree program.now) result }
{
    let tables = Tables::new(alloc, &program.classes)?;
    resolve_by(alloc, &tables, program)
}
