// What is assigned along the statements of a constructor, and which of its ends leave a field without a value.

ghost use Rattle.std.specs.Prelude.{◌≡◌, ◌++◌, IfOk, OnOk, map, option_map};
ghost use Rattle.ss_core.specs.declared.names.Place.{Place as PlaceValue};
ghost use Rattle.ss_typed.specs.Tree.{stmt_trees};
ghost use Rattle.ss_typed.specs.View.{block, expr, init_of, simple_of, stmt_of, typed};
ghost use Rattle.ss_paths.specs.Paths.{test_of};
ghost use Rattle.ss_typed.specs.Shapes.{is_true};
ghost use Rattle.ss_paths.specs.Assigned.{assigned_by};
ghost use Rattle.ss_paths_assigned.specs.Codes.{numbers_of, assigned_of};
ghost use Rattle.ss_delayed_rules.specs.Constructors.{unassigned_faults};
ghost use Rattle.ss_delayed.specs.Walked.{known_of, joined, begun_with, left_with, walked, walked_in, walked_along, ended, ended_in, ended_along};

use crate::noting::note_unassigned;
use ss_core::{ClassId, Place};
use ss_faults::Fault;
use ss_paths_assigned::{Assigned, Numbers};
use ss_typed::{Typed, TypedBlock, TypedExpr, TypedInit, TypedSimple, TypedStmt, is_true};
use std::alloc::AllocError;

/// A constructor along whose statements we go: its class, the numbers of that class's fields, and the place of a fault at an end.
#[derive(Clone, Copy)]
pub struct ConstructorContext<'p> {
    pub program: &'p Typed,
    pub class: ClassId,
    pub numbers: Numbers,
    pub end: Place,
}

fn copy(known: &Option<Assigned>) -> Result<Option<Assigned>, AllocError>
    ensures { IfOk result (λ k. known_of k ≡ known_of known.now) }
{
    match known {
        Some(assigned) => {
            let copied = assigned.copy()?;
            Ok(Some(copied))
        }
        None => Ok(None),
    }
}

// The fields that are assigned on both paths.
fn both(left: Assigned, right: Assigned) -> Assigned
    ensures { known_of (Some result) ≡ joined (known_of (Some left)) (known_of (Some right)) }
{
    let mut assigned = left;
    assigned.meet(&right);
    assigned
}

// Where two paths meet.
fn join(left: Option<Assigned>, right: Option<Assigned>) -> Option<Assigned>
    ensures { known_of result ≡ joined (known_of left) (known_of right) }
{
    match left {
        None => right,
        Some(left) => match right {
            None => Some(left),
            Some(right) => Some(both(left, right)),
        },
    }
}

fn with_assigned(
    numbers: Numbers,
    done: &TypedSimple,
    before: Assigned,
) -> Result<Assigned, AllocError>
    ensures { IfOk result (λ a. assigned_of a ≡ assigned_by (numbers_of numbers) (simple_of done.now) (assigned_of before)) }
{
    let mut assigned = before;
    assigned.assign(numbers, done)?;
    Ok(assigned)
}

// After a simple statement.
fn after_done(
    numbers: Numbers,
    done: &TypedSimple,
    known: Option<Assigned>,
) -> Result<Option<Assigned>, AllocError>
    ensures { IfOk result (λ k. known_of k ≡ option_map (assigned_by (numbers_of numbers) (simple_of done.now)) (known_of known)) }
{
    match known {
        Some(before) => {
            let assigned = with_assigned(numbers, done, before)?;
            Ok(Some(assigned))
        }
        None => Ok(None),
    }
}

// After what a `for` begins with.
fn behind_first(
    numbers: Numbers,
    first: &Option<TypedInit>,
    known: Option<Assigned>,
) -> Result<Option<Assigned>, AllocError>
    ensures { IfOk result (λ k. known_of k ≡ begun_with (numbers_of numbers) (option_map init_of first.now) (known_of known)) }
{
    match first {
        Some(TypedInit::Simple(done)) => {
            let behind = after_done(numbers, done, known)?;
            Ok(behind)
        }
        Some(TypedInit::Declare(_)) => Ok(known),
        None => Ok(known),
    }
}

// Whether a loop with this test is left by a return alone.
fn is_endless(test: &Option<TypedExpr>) -> bool
    ensures { (p : PlaceValue) → result ≡ is_true (test_of p (option_map expr test.now)) }
{
    match test {
        Some(e) => is_true(e),
        None => true,
    }
}

// After a loop.
fn leave(is_endless: bool, known: Option<Assigned>) -> Option<Assigned>
    ensures { known_of result ≡ left_with is_endless (known_of known) }
{
    if is_endless { None } else { known }
}

// Says what is assigned after the statement, and notes the returns in it that leave a field without a value.
#[cycle(walk)]
fn walk(
    context: &ConstructorContext<'_>,
    statement: &TypedStmt,
    known: Option<Assigned>,
    found: &mut Vec<Fault>,
) -> Result<Option<Assigned>, AllocError>
    ensures behind { IfOk result (λ k. known_of k ≡ walked (numbers_of context.now.numbers) (stmt_of statement.now) (known_of known)) }
    ensures noted { OnOk result (found.new.items ≡ found.old.items ++ ended (unassigned_faults (typed context.now.program.now) context.now.class.0 context.now.end)
        (numbers_of context.now.numbers) (stmt_of statement.now) (known_of known)) }
{
    match statement {
        TypedStmt::Block(block) | TypedStmt::Expose(_, _, _, block) => {
            walk_in(context, block, known, found)
        }
        TypedStmt::Simple(done) => Ok(after_done(context.numbers, done, known)?),
        TypedStmt::If(_, _, first, None) => {
            let around = copy(&known)?;
            let behind = walk(context, first, known, found)?;
            Ok(join(behind, around))
        }
        TypedStmt::If(_, _, first, Some(second)) => {
            let otherwise = copy(&known)?;
            let after_first = walk(context, first, known, found)?;
            let after_second = walk(context, second, otherwise, found)?;
            Ok(join(after_first, after_second))
        }
        TypedStmt::While(_, test, _, repeated) => {
            let _repeated = walk(context, repeated, copy(&known)?, found)?;
            Ok(leave(is_true(test), known))
        }
        TypedStmt::For {
            first,
            test,
            body: repeated,
            ..
        } => {
            let begun = behind_first(context.numbers, first, known)?;
            let _repeated = walk(context, repeated, copy(&begun)?, found)?;
            Ok(leave(is_endless(test), begun))
        }
        TypedStmt::Return(..) => {
            note_unassigned(context.program, context.class, context.end, &known, found)?;
            Ok(None)
        }
        TypedStmt::Declare(_)
        | TypedStmt::Assert(..)
        | TypedStmt::Assume(..)
        | TypedStmt::Empty(_) => Ok(known),
    }
}

/// The same of a block.
#[cycle(walk)]
pub fn walk_in(
    context: &ConstructorContext<'_>,
    within: &TypedBlock,
    known: Option<Assigned>,
    found: &mut Vec<Fault>,
) -> Result<Option<Assigned>, AllocError>
    ensures behind { IfOk result (λ k. known_of k ≡ walked_in (numbers_of context.now.numbers) (block within.now) (known_of known)) }
    ensures noted { OnOk result (found.new.items ≡ found.old.items ++ ended_in (unassigned_faults (typed context.now.program.now) context.now.class.0 context.now.end)
        (numbers_of context.now.numbers) (block within.now) (known_of known)) }
{
    let behind = walk_along(context, &within.statements, known, found)?;
    Ok(behind)
}

/// The same of some statements.
#[cycle(walk)]
pub fn walk_along(
    context: &ConstructorContext<'_>,
    statements: &[TypedStmt],
    first: Option<Assigned>,
    found: &mut Vec<Fault>,
) -> Result<Option<Assigned>, AllocError>
    ensures behind { IfOk result (λ k. known_of k ≡ walked_along (numbers_of context.now.numbers) (stmt_trees (map stmt_of statements.now)) (known_of first)) }
    ensures noted { OnOk result (found.new.items ≡ found.old.items ++ ended_along (unassigned_faults (typed context.now.program.now) context.now.class.0 context.now.end)
        (numbers_of context.now.numbers) (stmt_trees (map stmt_of statements.now)) (known_of first)) }
{
    let mut known = first;
    for statement in statements {
        known = walk(context, statement, known, found)?;
    }
    Ok(known)
}
