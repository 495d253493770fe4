// Bodies that are written.

ghost use Rattle.std.specs.Prelude.{◌≡◌, ◌≤◌, ◌+◌, ◌++◌, ◌∷◌, [], IfOk, OnOk, cond, length, map};
ghost use Rattle.ss_core.specs.Chain.{most_classes};
ghost use Rattle.ss_core.specs.Tree.{AssignStmt, LocalExpr};
ghost use Rattle.ss_core.specs.View as core;
ghost use Rattle.ss_typed.specs.Tree.{stmt_trees};
ghost use Rattle.ss_typed.specs.View as typed;
ghost use Rattle.ss_expand_rules.specs.Bodies as bodies;
ghost use Rattle.ss_expand_rules.specs.Code.{after};
ghost use Rattle.ss_typed.specs.Shapes as shapes;
ghost use Rattle.ss_expand_rules.specs.Ends as ends;
ghost use Rattle.ss_expand_rules.specs.Numbers as elab;
ghost use Rattle.ss_expand_rules.specs.Program as elab_program;
ghost use Rattle.ss_expand_rules.specs.Statements as statements;
ghost use Rattle.ss_expand_expressions.specs.Sources.{stmts_of};
ghost use Rattle.ss_expand_expressions.specs.Views.{numbers_of};
ghost use Rattle.ss_expand_bodies.specs.Origins.{origin_of};
ghost use Rattle.ss_expand_lifting.specs.Made.{coded_by};
ghost use Rattle.ss_expand_lifting.specs.Contexts.{context_of};
ghost use Rattle.ss_expand_programs.specs.Written.{own_stmts, last_return};

use crate::constructors::add_constructor;
use crate::heads::{contract_of, params_of};
use crate::leaving::leave_empty;
use crate::statements::add_stmts;
use ss_core::{Body, Expr, Local, Place, Stmt, Ty};
use ss_expand_bodies::{
    Origin, add_copies, add_locals, add_temporaries, core_flags, first_copy, first_param, numbers,
};
use ss_expand_expressions::{Numbers, assigned_locals};
use ss_expand_lifting::{Code, ElaborationContext};
use ss_typed::{Typed, TypedBlock, TypedBody, TypedParam, TypedStmt};
use std::alloc::{AllocError, Global};

// The statements of a block.
fn statements_of(block: &TypedBlock) -> &[TypedStmt]
    ensures { stmt_trees (map typed.stmt_of result.now) ≡ shapes.in_block (typed.block block.now) }
{
    &block.statements
}

// Adds the statements of the body, of a constructor with what it has beside its block. The result says whether their end can be
// reached.
fn add_own(
    context: &ElaborationContext<'_>,
    code: &mut Code,
    made: &mut Vec<Ty>,
) -> Result<bool, AllocError>
    ensures coded { OnOk result (coded_by code.new made.new
        ≡ after (stmts_of code.old.statements) (statements.stmts (context_of context.now) (own_stmts (typed.typed context.now.program.now) (typed.body context.now.body.now)) made.old.items)) }
    ensures ends { IfOk result (λ reached. reached ≡ ends.all_can_end (own_stmts (typed.typed context.now.program.now) (typed.body context.now.body.now))) }
{
    let stmts = statements_of(&context.body.block);
    if context.body.flags.ctor {
        let reached = add_constructor(context, stmts, code, made)?;
        Ok(reached)
    } else {
        let reached = add_stmts(context, stmts, code, made)?;
        Ok(reached)
    }
}

// The place of its closing brace.
fn closing_brace(block: &TypedBlock) -> Place
    ensures { result ≡ shapes.closing_brace (typed.block block.now) }
{
    block.end
}

// Adds the return at the closing brace of a body without a result, where that can be reached.
fn add_last_return(
    context: &ElaborationContext<'_>,
    code: &mut Code,
    reached: bool,
) -> Result<(), AllocError>
    ensures { OnOk result (stmts_of code.new.statements ≡ stmts_of code.old.statements ++ last_return (context_of context.now) reached) }
{
    match context.body.result {
        Some(_) => Ok(()),
        None => {
            if reached {
                let brace = closing_brace(&context.body.block);
                leave_empty(context, code, brace)?;
                Ok(())
            } else {
                Ok(())
            }
        }
    }
}

// Adds all statements of the body.
fn add_all(
    context: &ElaborationContext<'_>,
    code: &mut Code,
    made: &mut Vec<Ty>,
) -> Result<(), AllocError>
    ensures { OnOk result (coded_by code.new made.new
        ≡ after (stmts_of code.old.statements) (statements.stmts (context_of context.now) (bodies.statements (typed.typed context.now.program.now) (typed.body context.now.body.now)) made.old.items)) }
{
    let reached = add_own(context, code, made)?;
    add_last_return(context, code, reached)?;
    Ok(())
}

// Adds the same where the body has so many temporaries. The result is the types of those that it makes.
fn write_after(
    alloc: Global,
    program: &Typed,
    origins: &[Origin],
    body: &TypedBody,
    temporaries: usize,
    code: &mut Code,
) -> Result<Vec<Ty>, AllocError>
    requires few_classes { length (core.classes program.now.classes) ≤ most_classes }
    requires listed { map origin_of origins.now ≡ elab_program.bodies (typed.typed program.now) }
    ensures { IfOk result (λ made. coded_by code.new made
        ≡ after (stmts_of code.old.statements) (bodies.code_with (typed.typed program.now) (typed.body body.now) temporaries)) }
{
    let numbers = numbers(alloc, body, temporaries)?;
    let context = ElaborationContext {
        alloc,
        program,
        origins,
        body,
        numbers: &numbers,
        exposes: Vec::new(alloc),
    };
    let mut made = Vec::new(alloc);
    add_all(&context, code, &mut made)?;
    Ok(made)
}

// The types of its temporaries.
fn temporary_types(
    alloc: Global,
    program: &Typed,
    origins: &[Origin],
    body: &TypedBody,
) -> Result<Vec<Ty>, AllocError>
    requires few_classes { length (core.classes program.now.classes) ≤ most_classes }
    requires listed { map origin_of origins.now ≡ elab_program.bodies (typed.typed program.now) }
    ensures { IfOk result (λ made. made.items ≡ bodies.temporary_types (typed.typed program.now) (typed.body body.now)) }
{
    let mut code = Code::new(alloc);
    let made = write_after(alloc, program, origins, body, 0, &mut code)?;
    Ok(made)
}

// Adds the copy of a parameter.
fn add_copy(code: &mut Code, place: Place, copy: usize, x: usize) -> Result<(), AllocError>
    ensures { OnOk result (stmts_of code.new.statements ≡ stmts_of code.old.statements ++ AssignStmt place copy (LocalExpr place x) ∷ []) }
{
    code.add(Stmt::Assign(place, copy, Expr::Local(place, x)))
}

// Adds the copy of a parameter that is assigned. The result is the number of the next copy.
fn add_copied(
    code: &mut Code,
    assigned: bool,
    place: Place,
    copy: usize,
    x: usize,
) -> Result<usize, AllocError>
    ensures added { OnOk result (stmts_of code.new.statements ≡ stmts_of code.old.statements ++ cond assigned (AssignStmt place copy (LocalExpr place x) ∷ []) []) }
    ensures next { IfOk result (λ n. n ≡ cond assigned (copy + 1) copy) }
{
    if assigned {
        add_copy(code, place, copy, x)?;
        copy.checked_add(1).ok_or(AllocError)
    } else {
        Ok(copy)
    }
}

// Adds the copies of those of these parameters that the block assigns, of which the first has this number.
fn add_copying(
    alloc: Global,
    code: &mut Code,
    block: &TypedBlock,
    first_copy: usize,
    first: usize,
    params: &[TypedParam],
) -> Result<(), AllocError>
    ensures { OnOk result (stmts_of code.new.statements ≡ stmts_of code.old.statements ++ bodies.copying_from (typed.block block.now) first_copy first (map typed.param params.now)) }
{
    let assigned = assigned_locals(alloc, block)?;
    let mut copy = first_copy;
    let mut x = first;
    for param in params {
        copy = add_copied(code, assigned.has(x), param.place, copy, x)?;
        x = x.checked_add(1).ok_or(AllocError)?;
    }
    Ok(())
}

// The code of the body, where it has so many temporaries.
fn write_code(
    alloc: Global,
    program: &Typed,
    origins: &[Origin],
    body: &TypedBody,
    temporaries: usize,
) -> Result<Vec<Stmt>, AllocError>
    requires few_classes { length (core.classes program.now.classes) ≤ most_classes }
    requires listed { map origin_of origins.now ≡ elab_program.bodies (typed.typed program.now) }
    ensures { IfOk result (λ code. stmts_of code ≡ bodies.copying (typed.body body.now) ++ (bodies.code_with (typed.typed program.now) (typed.body body.now) temporaries).code) }
{
    let mut code = Code::new(alloc);
    let copy = first_copy(body)?;
    add_copying(
        alloc,
        &mut code,
        &body.block,
        copy,
        first_param(body),
        &body.params,
    )?;
    write_after(alloc, program, origins, body, temporaries, &mut code)?;
    Ok(code.statements)
}

// The numbers in its contract, which means the parameters themselves.
fn contract_numbers(
    alloc: Global,
    body: &TypedBody,
    temporaries: usize,
) -> Result<Numbers, AllocError>
    ensures { IfOk result (λ ns. numbers_of ns ≡ elab.uncopied (bodies.numbers (typed.body body.now) temporaries)) }
{
    let numbers = numbers(alloc, body, temporaries)?;
    Ok(Numbers {
        meant: Vec::new(alloc),
        first_temporary: numbers.first_temporary,
        outcome: numbers.outcome,
        first_bound: numbers.first_bound,
    })
}

// The locals of the body after its parameters: those that it declares, copies, and temporaries of these types.
fn locals_of(alloc: Global, body: &TypedBody, types: &[Ty]) -> Result<Vec<Local>, AllocError>
    ensures { IfOk result (λ ls. map core.local_of ls.items ≡ (typed.body body.now).locals ++ bodies.copies (typed.body body.now) ++ bodies.temporaries_from 0 types.now) }
{
    let mut locals = Vec::new(alloc);
    add_locals(&mut locals, &body.locals)?;
    add_copies(
        alloc,
        &mut locals,
        &body.block,
        first_param(body),
        &body.params,
    )?;
    add_temporaries(alloc, &mut locals, 0, types)?;
    Ok(locals)
}

/// The body of a constructor, or of a method with these declarations in its class and those above it.
pub fn written_body(
    alloc: Global,
    program: &Typed,
    origins: &[Origin],
    body: &TypedBody,
    declared: &[&TypedBody],
) -> Result<Body, AllocError>
    requires few_classes { length (core.classes program.now.classes) ≤ most_classes }
    requires listed { map origin_of origins.now ≡ elab_program.bodies (typed.typed program.now) }
    ensures { IfOk result (λ b. core.body b ≡ bodies.written_body (typed.typed program.now) (typed.body body.now) (map (λ b. typed.body b.now) declared.now)) }
{
    let types = temporary_types(alloc, program, origins, body)?;
    let code = write_code(alloc, program, origins, body, types.len())?;
    let numbers = contract_numbers(alloc, body, types.len())?;
    let contract = contract_of(alloc, &numbers, body.place, body, body.class, declared)?;
    Ok(Body {
        class: body.class,
        name: body.name.clone()?,
        params: params_of(alloc, &body.params)?,
        locals: locals_of(alloc, body, &types)?,
        result: body.result,
        entry: contract.entry,
        exit: contract.exit,
        named: contract.named,
        flags: core_flags(body.flags),
        code,
        place: body.place,
    })
}
