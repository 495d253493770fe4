// Bodies.

ghost use Rattle.std.specs.Prelude.{◌≡◌, ◌++◌, OnOk, option_map};
ghost use Rattle.ss_typed.specs.View.{typed, body, base};
ghost use Rattle.ss_nonnull_rules.specs.Program.{null_context_of as context_of_body};
ghost use Rattle.ss_nonnull_seen.specs.Codes.{context_of};
ghost use Rattle.ss_nonnull.specs.Initial.{base_call_faults, code_faults, faults_in_body};

use crate::initializers::only_fields;
use crate::simple::check_base;
use crate::stmts::check_block;
use ss_core::ClassId;
use ss_faults::Fault;
use ss_nonnull_seen::NullContext;
use ss_paths_assigned::{Fields, assigned_by_initializers, assigned_first};
use ss_typed::{TypedBase, TypedBody};
use std::alloc::{AllocError, Global};

fn context_of_body<'p>(alloc: Global, fields: &Fields<'p>, checked: &TypedBody) -> NullContext<'p>
    ensures { context_of result ≡ context_of_body (typed fields.now.program.now) (body checked.now) }
{
    NullContext {
        alloc,
        program: fields.program,
        class: usize::from(checked.class.0),
        numbers: fields.numbers(checked.class),
        constructs: checked.flags.ctor,
        in_old: false,
        result: checked.result,
    }
}

// `: base(..)`, which stands after the initializers.
fn check_base_call(
    context: &NullContext<'_>,
    found: &mut Vec<Fault>,
    class: ClassId,
    call: &Option<TypedBase>,
) -> Result<(), AllocError>
    ensures { OnOk result (found.new.items ≡ found.old.items ++ base_call_faults (context_of context.now) class.0 (option_map base call.now)) }
{
    match call {
        Some(call) => {
            let fields = assigned_by_initializers(context.alloc, context.program, class)?;
            let known = only_fields(context.alloc, fields);
            check_base(context, &known, found, &call.arguments)?;
            Ok(())
        }
        None => Ok(()),
    }
}

fn check_code(
    context: &NullContext<'_>,
    found: &mut Vec<Fault>,
    checked: &TypedBody,
) -> Result<(), AllocError>
    ensures { OnOk result (found.new.items ≡ found.old.items ++ code_faults (context_of context.now) (body checked.now)) }
{
    let fields = assigned_first(context.alloc, context.program, checked)?;
    let known = only_fields(context.alloc, fields);
    check_block(context, known, found, &checked.block)?;
    Ok(())
}

/// A body, what it overrides aside.
pub fn check_body(
    alloc: Global,
    fields: &Fields<'_>,
    found: &mut Vec<Fault>,
    checked: &TypedBody,
) -> Result<(), AllocError>
    ensures { OnOk result (found.new.items ≡ found.old.items ++ faults_in_body (typed fields.now.program.now) (body checked.now)) }
{
    let context = context_of_body(alloc, fields, checked);
    check_base_call(&context, found, checked.class, &checked.base)?;
    check_code(&context, found, checked)?;
    Ok(())
}
