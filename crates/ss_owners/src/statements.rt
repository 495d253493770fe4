// Where words of conditions stand in statements.

ghost use Rattle.std.specs.Prelude.{◌≡◌, ◌++◌, OnOk, map, option_map};
ghost use Rattle.ss_typed.specs.Tree.{stmt_trees};
ghost use Rattle.ss_typed.specs.View.{block, declarator, expr, exprs, init_of, simple_of, stmt_of};
ghost use Rattle.ss_owners_rules.specs.Words.{NoWord, OfEntry, misplaced_if, misplaced_in_all, misplaced_declared, misplaced_done, misplaced_first, misplaced_step, misplaced_at, misplaced_in, misplaced_along};
ghost use Rattle.ss_owners.specs.Parts.{allowed_of};

use crate::words::{Allowed, find_in_each, find_words};
use ss_core::Place;
use ss_typed::{TypedBlock, TypedDeclarator, TypedExpr, TypedInit, TypedSimple, TypedStmt};
use std::alloc::AllocError;

// ---- expressions

/// Adds the places of the words that aren't allowed in the expression, where there is one.
pub fn find_if(
    allowed: Allowed,
    e: &Option<TypedExpr>,
    found: &mut Vec<Place>,
) -> Result<(), AllocError>
    ensures { OnOk result (found.new.items ≡ found.old.items ++ misplaced_if (allowed_of allowed) (option_map expr e.now)) }
{
    match e {
        Some(e) => find_words(allowed, e, found),
        None => Ok(()),
    }
}

/// Adds those in all of these expressions.
pub fn find_in_all(
    allowed: Allowed,
    list: &[TypedExpr],
    found: &mut Vec<Place>,
) -> Result<(), AllocError>
    ensures { OnOk result (found.new.items ≡ found.old.items ++ misplaced_in_all (allowed_of allowed) (exprs list.now)) }
{
    for e in list {
        find_words(allowed, e, found)?;
    }
    Ok(())
}

// ---- simple statements

fn find_declared(list: &[TypedDeclarator], found: &mut Vec<Place>) -> Result<(), AllocError>
    ensures { OnOk result (found.new.items ≡ found.old.items ++ misplaced_declared (map declarator list.now)) }
{
    for declared in list {
        find_if(Allowed::NoWord, &declared.initial, found)?;
    }
    Ok(())
}

fn find_done(done: &TypedSimple, found: &mut Vec<Place>) -> Result<(), AllocError>
    ensures { OnOk result (found.new.items ≡ found.old.items ++ misplaced_done (simple_of done.now)) }
{
    match done {
        TypedSimple::Assign(left, _, right) => {
            find_words(Allowed::NoWord, left, found)?;
            find_words(Allowed::NoWord, right, found)
        }
        TypedSimple::Step(left, _) => find_words(Allowed::NoWord, left, found),
        TypedSimple::Alone(e) => find_words(Allowed::NoWord, e, found),
        TypedSimple::Print(_, e, _) => find_if(Allowed::NoWord, e, found),
        TypedSimple::PrintText(..) => Ok(()),
        TypedSimple::Base(_, list) => find_in_each(Allowed::NoWord, list, found),
    }
}

fn find_first(first: &Option<TypedInit>, found: &mut Vec<Place>) -> Result<(), AllocError>
    ensures { OnOk result (found.new.items ≡ found.old.items ++ misplaced_first (option_map init_of first.now)) }
{
    match first {
        Some(TypedInit::Declare(list)) => find_declared(list, found),
        Some(TypedInit::Simple(done)) => find_done(done, found),
        None => Ok(()),
    }
}

fn find_step(step: &Option<TypedSimple>, found: &mut Vec<Place>) -> Result<(), AllocError>
    ensures { OnOk result (found.new.items ≡ found.old.items ++ misplaced_step (option_map simple_of step.now)) }
{
    match step {
        Some(done) => find_done(done, found),
        None => Ok(()),
    }
}

// The heading of a `for`, and its invariants.
fn find_in_heading(
    first: &Option<TypedInit>,
    test: &Option<TypedExpr>,
    step: &Option<TypedSimple>,
    invariants: &[TypedExpr],
    found: &mut Vec<Place>,
) -> Result<(), AllocError>
    ensures { OnOk result (found.new.items ≡ found.old.items ++ (misplaced_first (option_map init_of first.now) ++ misplaced_if NoWord (option_map expr test.now)
        ++ misplaced_step (option_map simple_of step.now) ++ misplaced_in_all OfEntry (exprs invariants.now))) }
{
    find_first(first, found)?;
    find_if(Allowed::NoWord, test, found)?;
    find_step(step, found)?;
    find_in_all(Allowed::OfEntry, invariants, found)
}

// ---- statements

// Those in the statement, its conditions included.
#[cycle(statements)]
fn find_at(statement: &TypedStmt, found: &mut Vec<Place>) -> Result<(), AllocError>
    ensures { OnOk result (found.new.items ≡ found.old.items ++ misplaced_at (stmt_of statement.now)) }
{
    match statement {
        TypedStmt::Block(block) => find_in(block, found),
        TypedStmt::Declare(list) => find_declared(list, found),
        TypedStmt::Simple(done) => find_done(done, found),
        TypedStmt::If(_, test, first, None) => {
            find_words(Allowed::NoWord, test, found)?;
            find_at(first, found)
        }
        TypedStmt::If(_, test, first, Some(second)) => {
            find_words(Allowed::NoWord, test, found)?;
            find_at(first, found)?;
            find_at(second, found)
        }
        TypedStmt::While(_, test, invariants, repeated) => {
            find_words(Allowed::NoWord, test, found)?;
            find_in_all(Allowed::OfEntry, invariants, found)?;
            find_at(repeated, found)
        }
        TypedStmt::For {
            first,
            test,
            step,
            invariants,
            body: repeated,
            ..
        } => {
            find_in_heading(first, test, step, invariants, found)?;
            find_at(repeated, found)
        }
        TypedStmt::Return(_, e) => find_if(Allowed::NoWord, e, found),
        TypedStmt::Assert(_, e) => find_words(Allowed::OfEntry, e, found),
        TypedStmt::Assume(_, e) => find_words(Allowed::NoWord, e, found),
        TypedStmt::Expose(_, exposed, _, block) => {
            find_words(Allowed::NoWord, exposed, found)?;
            find_in(block, found)
        }
        TypedStmt::Empty(_) => Ok(()),
    }
}

/// Adds those in the block.
#[cycle(statements)]
pub fn find_in(within: &TypedBlock, found: &mut Vec<Place>) -> Result<(), AllocError>
    ensures { OnOk result (found.new.items ≡ found.old.items ++ misplaced_in (block within.now)) }
{
    find_along(&within.statements, found)
}

#[cycle(statements)]
fn find_along(statements: &[TypedStmt], found: &mut Vec<Place>) -> Result<(), AllocError>
    ensures { OnOk result (found.new.items ≡ found.old.items ++ misplaced_along (stmt_trees (map stmt_of statements.now))) }
{
    for statement in statements {
        find_at(statement, found)?;
    }
    Ok(())
}
