// The locals that statements assign.

ghost use Rattle.std.specs.Prelude.{◌≡◌, ◌++◌, map, OnOk, IfOk, option_map};
ghost use Rattle.ss_typed.specs.View.{declarator, simple_of, init_of, block, stmt_of};
ghost use Rattle.ss_typed.specs.Tree.{stmt_trees};
ghost use Rattle.ss_typed.specs.Assigned.{listed, declared_locals, put_locals, first_locals, step_locals, assigned, assigned_in, assigned_along};

use crate::stmt::{TypedBlock, TypedDeclarator, TypedInit, TypedSimple, TypedStmt};
use crate::targets::local_of;
use std::alloc::{AllocError, Global};

fn note(found: &mut Vec<usize>, local: Option<usize>) -> Result<(), AllocError>
    ensures { OnOk result (found.new.items ≡ found.old.items ++ listed local) }
{
    if let Some(local) = local {
        found.push(local)?;
    }
    Ok(())
}

// Notes declared locals.
fn note_declared(found: &mut Vec<usize>, declarators: &[TypedDeclarator]) -> Result<(), AllocError>
    ensures { OnOk result (found.new.items ≡ found.old.items ++ declared_locals (map declarator declarators.now)) }
{
    for declarator in declarators {
        found.push(declarator.local)?;
    }
    Ok(())
}

fn note_put(found: &mut Vec<usize>, stmt: &TypedSimple) -> Result<(), AllocError>
    ensures { OnOk result (found.new.items ≡ found.old.items ++ put_locals (simple_of stmt.now)) }
{
    match stmt {
        TypedSimple::Assign(target, _, _) | TypedSimple::Step(target, _) => {
            note(found, local_of(target))
        }
        TypedSimple::Alone(..)
        | TypedSimple::Print(..)
        | TypedSimple::PrintText(..)
        | TypedSimple::Base(..) => Ok(()),
    }
}

fn note_first(found: &mut Vec<usize>, first: &Option<TypedInit>) -> Result<(), AllocError>
    ensures { OnOk result (found.new.items ≡ found.old.items ++ first_locals (option_map init_of first.now)) }
{
    match first {
        Some(TypedInit::Declare(declarators)) => note_declared(found, declarators),
        Some(TypedInit::Simple(stmt)) => note_put(found, stmt),
        None => Ok(()),
    }
}

fn note_step(found: &mut Vec<usize>, step: &Option<TypedSimple>) -> Result<(), AllocError>
    ensures { OnOk result (found.new.items ≡ found.old.items ++ step_locals (option_map simple_of step.now)) }
{
    match step {
        Some(stmt) => note_put(found, stmt),
        None => Ok(()),
    }
}

#[cycle(noted)]
fn note_stmt(found: &mut Vec<usize>, stmt: &TypedStmt) -> Result<(), AllocError>
    ensures { OnOk result (found.new.items ≡ found.old.items ++ assigned (stmt_of stmt.now)) }
{
    match stmt {
        TypedStmt::Block(inner) => note_block(found, inner),
        TypedStmt::Declare(declarators) => note_declared(found, declarators),
        TypedStmt::Simple(stmt) => note_put(found, stmt),
        TypedStmt::If(_, _, first, None) => note_stmt(found, first),
        TypedStmt::If(_, _, first, Some(second)) => {
            note_stmt(found, first)?;
            note_stmt(found, second)
        }
        TypedStmt::While(_, _, _, body) => note_stmt(found, body),
        TypedStmt::For {
            first,
            step,
            body,
            ..
        } => {
            note_first(found, first)?;
            note_stmt(found, body)?;
            note_step(found, step)
        }
        TypedStmt::Expose(_, _, _, inner) => note_block(found, inner),
        TypedStmt::Return(..)
        | TypedStmt::Assert(..)
        | TypedStmt::Assume(..)
        | TypedStmt::Empty(..) => Ok(()),
    }
}

#[cycle(noted)]
fn note_block(found: &mut Vec<usize>, inner: &TypedBlock) -> Result<(), AllocError>
    ensures { OnOk result (found.new.items ≡ found.old.items ++ assigned_in (block inner.now)) }
{
    note_all(found, &inner.statements)
}

#[cycle(noted)]
fn note_all(found: &mut Vec<usize>, stmts: &[TypedStmt]) -> Result<(), AllocError>
    ensures { OnOk result (found.new.items ≡ found.old.items ++ assigned_along (stmt_trees (map stmt_of stmts.now))) }
{
    for stmt in stmts {
        note_stmt(found, stmt)?;
    }
    Ok(())
}

/// The locals that the statement assigns anywhere inside. An error is want of memory.
pub fn assigned_within(alloc: Global, body: &TypedStmt) -> Result<Vec<usize>, AllocError>
    ensures { IfOk result (λ v. v.items ≡ assigned (stmt_of body.now)) }
{
    let mut found = Vec::new(alloc);
    note_stmt(&mut found, body)?;
    Ok(found)
}

/// The locals that are assigned where a loop repeats the statement and, where it is a `for`, its step. An error is want of memory.
pub fn assigned_in_loop(
    alloc: Global,
    body: &TypedStmt,
    step: &Option<TypedSimple>,
) -> Result<Vec<usize>, AllocError>
    ensures { IfOk result (λ v. v.items ≡ assigned (stmt_of body.now) ++ step_locals (option_map simple_of step.now)) }
{
    let mut found = Vec::new(alloc);
    note_stmt(&mut found, body)?;
    note_step(&mut found, step)?;
    Ok(found)
}

/// The locals that the block assigns anywhere inside. An error is want of memory.
pub fn assigned_in_block(alloc: Global, inner: &TypedBlock) -> Result<Vec<usize>, AllocError>
    ensures { IfOk result (λ v. v.items ≡ assigned_in (block inner.now)) }
{
    let mut found = Vec::new(alloc);
    note_block(&mut found, inner)?;
    Ok(found)
}
