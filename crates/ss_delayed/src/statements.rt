// Where `this` stands in statements.

ghost use Rattle.std.specs.Prelude.{◌≡◌, ◌++◌, OnOk, map, option_map, is_some};
ghost use Rattle.ss_typed.specs.Tree.{stmt_trees};
ghost use Rattle.ss_typed.specs.View.{block, declarator, expr, exprs, init_of, simple_of, stmt_of};
ghost use Rattle.ss_delayed_rules.specs.Escapes.{is_own_field_read, uses_left, uses_if, uses_in_all, uses_declared, uses_done, uses_first, uses_step, uses_at, uses_in, uses_along};
ghost use Rattle.ss_delayed.specs.Parts.{use_of, target_uses};

use crate::escapes::{Use, find_in_each, find_uses};
use ss_ast::AssignOperator;
use ss_core::Place;
use ss_typed::{
    TypedBlock, TypedDeclarator, TypedExpr, TypedInit, TypedSimple, TypedStmt, own_field,
};
use std::alloc::AllocError;

// ---- expressions

fn is_own_field_read(e: &TypedExpr) -> bool
    ensures { result ≡ is_own_field_read (expr e.now) }
{
    own_field(e).is_some()
}

// The left side of `=`: a field of `this` there is no use of it.
fn find_left(allowed: Use, left: &TypedExpr, found: &mut Vec<Place>) -> Result<(), AllocError>
    ensures { OnOk result (found.new.items ≡ found.old.items ++ uses_left (use_of allowed) (expr left.now)) }
{
    if is_own_field_read(left) {
        return Ok(());
    }
    find_uses(allowed, left, found)?;
    Ok(())
}

// The left side of an assignment.
fn find_target(
    allowed: Use,
    operator: AssignOperator,
    left: &TypedExpr,
    found: &mut Vec<Place>,
) -> Result<(), AllocError>
    ensures { OnOk result (found.new.items ≡ found.old.items ++ target_uses (use_of allowed) operator (expr left.now)) }
{
    match operator {
        AssignOperator::Set => {
            find_left(allowed, left, found)?;
            Ok(())
        }
        AssignOperator::Add | AssignOperator::Subtract | AssignOperator::Multiply => {
            find_uses(allowed, left, found)?;
            Ok(())
        }
    }
}

/// Adds the places in the expression, where there is one.
pub fn find_if(
    allowed: Use,
    e: &Option<TypedExpr>,
    found: &mut Vec<Place>,
) -> Result<(), AllocError>
    ensures { OnOk result (found.new.items ≡ found.old.items ++ uses_if (use_of allowed) (option_map expr e.now)) }
{
    match e {
        Some(e) => {
            find_uses(allowed, e, found)?;
            Ok(())
        }
        None => Ok(()),
    }
}

/// Adds the places in all of these expressions.
pub fn find_in_all(
    allowed: Use,
    list: &[TypedExpr],
    found: &mut Vec<Place>,
) -> Result<(), AllocError>
    ensures { OnOk result (found.new.items ≡ found.old.items ++ uses_in_all (use_of allowed) (exprs list.now)) }
{
    for e in list {
        find_uses(allowed, e, found)?;
    }
    Ok(())
}

// ---- simple statements

fn find_declared(
    allowed: Use,
    list: &[TypedDeclarator],
    found: &mut Vec<Place>,
) -> Result<(), AllocError>
    ensures { OnOk result (found.new.items ≡ found.old.items ++ uses_declared (use_of allowed) (map declarator list.now)) }
{
    for declared in list {
        find_if(allowed, &declared.initial, found)?;
    }
    Ok(())
}

fn find_done(allowed: Use, done: &TypedSimple, found: &mut Vec<Place>) -> Result<(), AllocError>
    ensures { OnOk result (found.new.items ≡ found.old.items ++ uses_done (use_of allowed) (simple_of done.now)) }
{
    match done {
        TypedSimple::Assign(left, operator, right) => {
            find_target(allowed, *operator, left, found)?;
            find_uses(allowed, right, found)?;
            Ok(())
        }
        TypedSimple::Step(left, _) => {
            find_uses(allowed, left, found)?;
            Ok(())
        }
        TypedSimple::Alone(e) => {
            find_uses(allowed, e, found)?;
            Ok(())
        }
        TypedSimple::Print(_, e, _) => {
            find_if(allowed, e, found)?;
            Ok(())
        }
        TypedSimple::PrintText(..) => Ok(()),
        TypedSimple::Base(_, list) => {
            find_in_each(allowed, list, found)?;
            Ok(())
        }
    }
}

fn find_first(
    allowed: Use,
    first: &Option<TypedInit>,
    found: &mut Vec<Place>,
) -> Result<(), AllocError>
    ensures { OnOk result (found.new.items ≡ found.old.items ++ uses_first (use_of allowed) (option_map init_of first.now)) }
{
    match first {
        Some(TypedInit::Declare(list)) => {
            find_declared(allowed, list, found)?;
            Ok(())
        }
        Some(TypedInit::Simple(done)) => {
            find_done(allowed, done, found)?;
            Ok(())
        }
        None => Ok(()),
    }
}

fn find_step(
    allowed: Use,
    step: &Option<TypedSimple>,
    found: &mut Vec<Place>,
) -> Result<(), AllocError>
    ensures { OnOk result (found.new.items ≡ found.old.items ++ uses_step (use_of allowed) (option_map simple_of step.now)) }
{
    match step {
        Some(done) => {
            find_done(allowed, done, found)?;
            Ok(())
        }
        None => Ok(()),
    }
}

// The heading of a `for`, and its invariants.
fn find_in_heading(
    allowed: Use,
    first: &Option<TypedInit>,
    test: &Option<TypedExpr>,
    step: &Option<TypedSimple>,
    invariants: &[TypedExpr],
    found: &mut Vec<Place>,
) -> Result<(), AllocError>
    ensures { OnOk result (found.new.items ≡ found.old.items ++ (uses_first (use_of allowed) (option_map init_of first.now) ++ uses_if (use_of allowed) (option_map expr test.now)
        ++ uses_step (use_of allowed) (option_map simple_of step.now) ++ uses_in_all (use_of allowed) (exprs invariants.now))) }
{
    find_first(allowed, first, found)?;
    find_if(allowed, test, found)?;
    find_step(allowed, step, found)?;
    find_in_all(allowed, invariants, found)?;
    Ok(())
}

// ---- statements

// Those in the statement, its conditions included.
#[cycle(statements)]
fn find_at(allowed: Use, statement: &TypedStmt, found: &mut Vec<Place>) -> Result<(), AllocError>
    ensures { OnOk result (found.new.items ≡ found.old.items ++ uses_at (use_of allowed) (stmt_of statement.now)) }
{
    match statement {
        TypedStmt::Block(block) => find_in(allowed, block, found),
        TypedStmt::Declare(list) => find_declared(allowed, list, found),
        TypedStmt::Simple(done) => find_done(allowed, done, found),
        TypedStmt::If(_, test, first, None) => {
            find_uses(allowed, test, found)?;
            find_at(allowed, first, found)
        }
        TypedStmt::If(_, test, first, Some(second)) => {
            find_uses(allowed, test, found)?;
            find_at(allowed, first, found)?;
            find_at(allowed, second, found)
        }
        TypedStmt::While(_, test, invariants, repeated) => {
            find_uses(allowed, test, found)?;
            find_in_all(allowed, invariants, found)?;
            find_at(allowed, repeated, found)
        }
        TypedStmt::For {
            first,
            test,
            step,
            invariants,
            body: repeated,
            ..
        } => {
            find_in_heading(allowed, first, test, step, invariants, found)?;
            find_at(allowed, repeated, found)
        }
        TypedStmt::Return(_, e) => find_if(allowed, e, found),
        TypedStmt::Assert(_, e) | TypedStmt::Assume(_, e) => find_uses(allowed, e, found),
        TypedStmt::Expose(_, exposed, _, block) => {
            find_uses(allowed, exposed, found)?;
            find_in(allowed, block, found)
        }
        TypedStmt::Empty(_) => Ok(()),
    }
}

/// Adds the places in the block.
#[cycle(statements)]
pub fn find_in(allowed: Use, within: &TypedBlock, found: &mut Vec<Place>) -> Result<(), AllocError>
    ensures { OnOk result (found.new.items ≡ found.old.items ++ uses_in (use_of allowed) (block within.now)) }
{
    find_along(allowed, &within.statements, found)?;
    Ok(())
}

/// Adds the places in the statements.
#[cycle(statements)]
pub fn find_along(
    allowed: Use,
    statements: &[TypedStmt],
    found: &mut Vec<Place>,
) -> Result<(), AllocError>
    ensures { OnOk result (found.new.items ≡ found.old.items ++ uses_along (use_of allowed) (stmt_trees (map stmt_of statements.now))) }
{
    for statement in statements {
        find_at(allowed, statement, found)?;
    }
    Ok(())
}
