// Statements: the faults along them, and what is known after them.

ghost use Rattle.std.specs.Prelude.{◌≡◌, ◌++◌, List, None, IfOk, OnOk, map, option_map};
ghost use Rattle.ss_core.specs.declared.names.Place.{Place as PlaceValue};
ghost use Rattle.ss_typed.specs.Tree.{ExprTree, WhileOf, ForOf, stmt_trees};
ghost use Rattle.ss_typed.specs.View.{expr, simple_of, init_of, block, stmt_of};
ghost use Rattle.ss_typed.specs.Assigned.{assigned, step_locals};
ghost use Rattle.ss_nonnull_seen.specs.Codes.{path_of, context_of};
ghost use Rattle.ss_nonnull.specs.Walks.{known_behind, known_after_block, known_at_end, known_at_head, stmt_faults, block_faults, along_faults};

use crate::expr::check;
use crate::simple::{
    check_declarators, check_first, check_returned, check_simple, check_step, check_test,
};
use ss_core::Place;
use ss_faults::Fault;
use ss_nonnull_seen::{Known, NullContext, forget, learn, learned, leave, meet};
use ss_typed::{
    TypedBlock, TypedExpr, TypedInit, TypedSimple, TypedStmt, assigned_in_loop, assigned_within,
};
use std::alloc::{AllocError, Global};

// At the head of a `while`.
fn at_head(
    alloc: Global,
    known: Option<Known>,
    body: &TypedStmt,
) -> Result<Option<Known>, AllocError>
    ensures { IfOk result (λ k. path_of k ≡ known_at_head (stmt_of body.now) None (path_of known)) }
{
    let locals = assigned_within(alloc, body)?;
    let head = forget(known, &locals)?;
    Ok(head)
}

// At the head of a `for`.
fn at_head_of_for(
    alloc: Global,
    known: Option<Known>,
    body: &TypedStmt,
    step: &Option<TypedSimple>,
) -> Result<Option<Known>, AllocError>
    ensures { IfOk result (λ k. path_of k ≡ known_at_head (stmt_of body.now) (option_map simple_of step.now) (path_of known)) }
{
    let locals = assigned_in_loop(alloc, body, step)?;
    let head = forget(known, &locals)?;
    Ok(head)
}

/// Notes the faults along a statement, and says what is known after it.
#[cycle(stmt)]
fn check_stmt(
    context: &NullContext<'_>,
    known: Option<Known>,
    found: &mut Vec<Fault>,
    stmt: &TypedStmt,
) -> Result<Option<Known>, AllocError>
    ensures known { IfOk result (λ k. path_of k ≡ known_behind (context_of context.now) (stmt_of stmt.now) (path_of known)) }
    ensures noted { OnOk result (found.new.items ≡ found.old.items ++ stmt_faults (context_of context.now) (stmt_of stmt.now) (path_of known)) }
{
    match stmt {
        TypedStmt::Block(inner) => check_block(context, known, found, inner),
        TypedStmt::Declare(list) => check_declarators(context, known, found, list),
        TypedStmt::Simple(simple) => check_simple(context, known, found, simple),
        TypedStmt::If(_, test, first, second) => {
            let seen = check(context, &known, found, test)?;
            let holding = learned(&known, &seen.holds)?;
            let failing = learn(known, &seen.fails)?;
            let one = check_stmt(context, holding, found, first)?;
            match second {
                Some(second) => Ok(meet(one, check_stmt(context, failing, found, second)?)),
                None => Ok(meet(one, failing)),
            }
        }
        TypedStmt::While(_, test, _, body) => check_while(context, known, found, body, test),
        TypedStmt::For {
            place,
            first,
            test,
            step,
            body,
            ..
        } => {
            let heading = ForHeading { first, test, step };
            check_for(context, known, found, body, *place, heading)
        }
        TypedStmt::Return(_, e) => {
            check_returned(context, &known, found, e)?;
            Ok(None)
        }
        TypedStmt::Expose(_, e, _, inner) => {
            check(context, &known, found, e)?;
            let behind = check_block(context, known, found, inner)?;
            Ok(behind)
        }
        TypedStmt::Assert(..) | TypedStmt::Assume(..) | TypedStmt::Empty(..) => Ok(known),
    }
}

// A `while` at any place, with any invariants.
#[cycle(stmt)]
fn check_while(
    context: &NullContext<'_>,
    known: Option<Known>,
    found: &mut Vec<Fault>,
    body: &TypedStmt,
    test: &TypedExpr,
) -> Result<Option<Known>, AllocError>
    ensures known { (p : PlaceValue) → (es : List ExprTree)
        → IfOk result (λ k. path_of k ≡ known_behind (context_of context.now) (WhileOf p (expr test.now) es (stmt_of body.now)) (path_of known)) }
    ensures noted { (p : PlaceValue) → (es : List ExprTree)
        → OnOk result (found.new.items ≡ found.old.items ++ stmt_faults (context_of context.now) (WhileOf p (expr test.now) es (stmt_of body.now)) (path_of known)) }
{
    let head = at_head(context.alloc, known, body)?;
    let seen = check(context, &head, found, test)?;
    let repeated = learned(&head, &seen.holds)?;
    check_stmt(context, repeated, found, body)?;
    let behind = leave(head, seen.is_true, &seen.fails)?;
    Ok(behind)
}

/// What stands between the parentheses of a `for`.
#[derive(Clone, Copy)]
struct ForHeading<'p> {
    first: &'p Option<TypedInit>,
    test: &'p Option<TypedExpr>,
    step: &'p Option<TypedSimple>,
}

// A `for` with any invariants.
#[cycle(stmt)]
fn check_for(
    context: &NullContext<'_>,
    known: Option<Known>,
    found: &mut Vec<Fault>,
    body: &TypedStmt,
    place: Place,
    heading: ForHeading<'_>,
) -> Result<Option<Known>, AllocError>
    ensures known { (es : List ExprTree)
        → IfOk result (λ k. path_of k ≡ known_behind (context_of context.now)
        (ForOf place (option_map init_of heading.entry.first.now) (option_map expr heading.entry.test.now) (option_map simple_of heading.entry.step.now) es (stmt_of body.now)) (path_of known)) }
    ensures noted { (es : List ExprTree)
        → OnOk result (found.new.items ≡ found.old.items ++ stmt_faults (context_of context.now)
        (ForOf place (option_map init_of heading.entry.first.now) (option_map expr heading.entry.test.now) (option_map simple_of heading.entry.step.now) es (stmt_of body.now)) (path_of known)) }
{
    let ForHeading { first, test, step } = heading;
    let begun = check_first(context, known, found, first)?;
    let head = at_head_of_for(context.alloc, begun, body, step)?;
    let seen = check_test(context, &head, found, place, test)?;
    let repeated = learned(&head, &seen.holds)?;
    let end = check_stmt(context, repeated, found, body)?;
    check_step(context, end, found, step)?;
    let behind = leave(head, seen.is_true, &seen.fails)?;
    Ok(behind)
}

/// A block.
#[cycle(stmt)]
pub fn check_block(
    context: &NullContext<'_>,
    known: Option<Known>,
    found: &mut Vec<Fault>,
    inner: &TypedBlock,
) -> Result<Option<Known>, AllocError>
    ensures known { IfOk result (λ k. path_of k ≡ known_after_block (context_of context.now) (block inner.now) (path_of known)) }
    ensures noted { OnOk result (found.new.items ≡ found.old.items ++ block_faults (context_of context.now) (block inner.now) (path_of known)) }
{
    let behind = check_all(context, known, found, &inner.statements)?;
    Ok(behind)
}

#[cycle(stmt)]
fn check_all(
    context: &NullContext<'_>,
    known: Option<Known>,
    found: &mut Vec<Fault>,
    stmts: &[TypedStmt],
) -> Result<Option<Known>, AllocError>
    ensures known { IfOk result (λ k. path_of k ≡ known_at_end (context_of context.now) (stmt_trees (map stmt_of stmts.now)) (path_of known)) }
    ensures noted { OnOk result (found.new.items ≡ found.old.items ++ along_faults (context_of context.now) (stmt_trees (map stmt_of stmts.now)) (path_of known)) }
{
    let mut reached = known;
    for stmt in stmts {
        reached = check_stmt(context, reached, found, stmt)?;
    }
    Ok(reached)
}
