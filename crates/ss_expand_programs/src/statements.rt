// Statements and blocks.

ghost use Rattle.std.specs.Prelude.{◌≡◌, ◌&&◌, ◌||◌, true, IfOk, OnOk, map, option_map, if◌then◌else◌};
ghost use Rattle.ss_typed.specs.Tree.{ExposeOf, ForOf, stmt_trees};
ghost use Rattle.ss_typed.specs.View as typed;
ghost use Rattle.ss_expand_rules.specs.Code.{after, nothing};
ghost use Rattle.ss_expand_rules.specs.Ends as ends;
ghost use Rattle.ss_expand_rules.specs.Lifting as lifting;
ghost use Rattle.ss_expand_rules.specs.Simple.{declare, simple};
ghost use Rattle.ss_expand_rules.specs.Statements as statements;
ghost use Rattle.ss_expand_expressions.specs.Sources.{stmts_of};
ghost use Rattle.ss_expand_lifting.specs.Made.{coded_by};
ghost use Rattle.ss_expand_lifting.specs.Contexts.{context_of};
ghost use Rattle.ss_expand_programs.specs.Loops.{turn_of};

use crate::exposing::{close, open, within};
use crate::leaving::leave;
use crate::looping::{
    LoopTest, add_assert, add_assume, add_branch, add_loop, advance_where, begin, boxed_value,
    test_of,
};
use ss_core::{ClassId, Place, Ty};
use ss_expand_expressions::can_end;
use ss_expand_lifting::{Code, ElaborationContext, declare, simple_statement};
use ss_typed::{TypedBlock, TypedDeclarator, TypedExpr, TypedInit, TypedSimple, TypedStmt};
use std::alloc::AllocError;

// Whether one of them holds.
fn either(first: bool, second: bool) -> bool
    ensures { result ≡ (first || second) }
{
    first || second
}

// Adds a simple statement. The result says whether its end can be reached.
fn add_simple(
    context: &ElaborationContext<'_>,
    statement: &TypedSimple,
    code: &mut Code,
    made: &mut Vec<Ty>,
) -> Result<bool, AllocError>
    ensures coded { OnOk result (coded_by code.new made.new
        ≡ after (stmts_of code.old.statements) (simple (context_of context.now) (typed.simple_of statement.now) made.old.items)) }
    ensures ends { IfOk result (λ reached. reached ≡ true) }
{
    simple_statement(context, statement, code, made)?;
    Ok(true)
}

// Adds what declared locals begin with. The result says whether its end can be reached.
fn add_declaration(
    context: &ElaborationContext<'_>,
    declarators: &[TypedDeclarator],
    code: &mut Code,
    made: &mut Vec<Ty>,
) -> Result<bool, AllocError>
    ensures coded { OnOk result (coded_by code.new made.new
        ≡ after (stmts_of code.old.statements) (declare (context_of context.now) (map typed.declarator declarators.now) made.old.items)) }
    ensures ends { IfOk result (λ reached. reached ≡ true) }
{
    declare(context, declarators, code, made)?;
    Ok(true)
}

// Adds the statement. The result says whether its end can be reached.
#[cycle(statements)]
fn add_stmt(
    context: &ElaborationContext<'_>,
    stmt: &TypedStmt,
    code: &mut Code,
    made: &mut Vec<Ty>,
) -> Result<bool, AllocError>
    ensures coded { OnOk result (coded_by code.new made.new
        ≡ after (stmts_of code.old.statements) (statements.stmt (context_of context.now) (typed.stmt_of stmt.now) made.old.items)) }
    ensures ends { IfOk result (λ reached. reached ≡ ends.can_end (typed.stmt_of stmt.now)) }
{
    match stmt {
        TypedStmt::Block(block) => add_block(context, block, code, made),
        TypedStmt::Declare(list) => Ok(add_declaration(context, list, code, made)?),
        TypedStmt::Simple(simple) => add_simple(context, simple, code, made),
        TypedStmt::If(place, e, first, None) => Ok(add_if(context, first, *place, e, code, made)?),
        TypedStmt::If(place, e, first, Some(second)) => {
            let test = boxed_value(context, e, code, made)?;
            let mut one = Code::new(context.alloc);
            let first_ends = add_stmt(context, first, &mut one, made)?;
            let mut other = Code::new(context.alloc);
            let second_ends = add_stmt(context, second, &mut other, made)?;
            add_branch(code, *place, test, one, other)?;
            Ok(either(first_ends, second_ends))
        }
        TypedStmt::While(at, test, invariants, turn) => {
            add_while(context, turn, *at, Guard { test, invariants }, code, made)?;
            Ok(can_end(stmt))
        }
        TypedStmt::For {
            place,
            first,
            test,
            step,
            invariants,
            body: turn,
        } => {
            let heading = ForHeading { first, test, step };
            let written = WrittenLoop { place, invariants };
            add_for(context, turn, written, heading, code, made)?;
            Ok(can_end(stmt))
        }
        TypedStmt::Return(place, e) => leave(context, *place, e, code, made),
        TypedStmt::Assert(place, e) => Ok(add_assert(context, *place, e, code)?),
        TypedStmt::Assume(place, e) => Ok(add_assume(context, *place, e, code)?),
        TypedStmt::Expose(at, object, class, block) => {
            add_expose(context, block, Exposed { at, object, class }, code, made)
        }
        TypedStmt::Empty(_) => Ok(true),
    }
}

// Adds an `if` without an `else`. The result says whether its end can be reached.
#[cycle(statements)]
fn add_if(
    context: &ElaborationContext<'_>,
    first: &TypedStmt,
    place: Place,
    e: &TypedExpr,
    code: &mut Code,
    made: &mut Vec<Ty>,
) -> Result<bool, AllocError>
    ensures coded { OnOk result (coded_by code.new made.new
        ≡ after (stmts_of code.old.statements) (statements.branch place (lifting.value (context_of context.now) (typed.expr e.now) made.old.items) (statements.stmt (context_of context.now) (typed.stmt_of first.now)) nothing)) }
    ensures ends { IfOk result (λ reached. reached ≡ true) }
{
    let test = boxed_value(context, e, code, made)?;
    let mut one = Code::new(context.alloc);
    add_stmt(context, first, &mut one, made)?;
    let other = Code::new(context.alloc);
    add_branch(code, place, test, one, other)?;
    Ok(true)
}

/// The test and the invariants of a `while`.
#[derive(Clone, Copy)]
struct Guard<'p> {
    test: &'p TypedExpr,
    invariants: &'p [TypedExpr],
}

// Adds a `while`: the prelude of the loop is what is lifted out of the test.
#[cycle(statements)]
fn add_while(
    context: &ElaborationContext<'_>,
    turn: &TypedStmt,
    place: Place,
    guard: Guard<'_>,
    code: &mut Code,
    made: &mut Vec<Ty>,
) -> Result<(), AllocError>
    ensures { OnOk result (coded_by code.new made.new
        ≡ after (stmts_of code.old.statements) (statements.loop (context_of context.now) place (typed.exprs guard.entry.invariants.now) (typed.expr guard.entry.test.now) (statements.stmt (context_of context.now) (typed.stmt_of turn.now)) made.old.items)) }
{
    let mut prelude = Code::new(context.alloc);
    let test = boxed_value(context, guard.test, &mut prelude, made)?;
    let mut inner = Code::new(context.alloc);
    add_stmt(context, turn, &mut inner, made)?;
    let head = LoopTest { prelude, test };
    add_loop(context, code, place, guard.invariants, head, inner)?;
    Ok(())
}

/// What stands between the parentheses of a `for`.
#[derive(Clone, Copy)]
struct ForHeading<'p> {
    first: &'p Option<TypedInit>,
    test: &'p Option<TypedExpr>,
    step: &'p Option<TypedSimple>,
}

// The place and the invariants of a loop.
#[derive(Clone, Copy)]
struct WrittenLoop<'p> {
    place: &'p Place,
    invariants: &'p [TypedExpr],
}

// Adds a `for`: its beginning, and then its loop.
#[cycle(statements)]
fn add_for(
    context: &ElaborationContext<'_>,
    turn: &TypedStmt,
    written: WrittenLoop<'_>,
    heading: ForHeading<'_>,
    code: &mut Code,
    made: &mut Vec<Ty>,
) -> Result<(), AllocError>
    ensures { OnOk result (coded_by code.new made.new
        ≡ after (stmts_of code.old.statements) (statements.stmt (context_of context.now) (ForOf written.entry.place.now (option_map typed.init_of heading.entry.first.now) (option_map typed.expr heading.entry.test.now) (option_map typed.simple_of heading.entry.step.now) (typed.exprs written.entry.invariants.now) (typed.stmt_of turn.now)) made.old.items)) }
{
    begin(context, heading.first, code, made)?;
    add_turns(context, turn, written, heading, code, made)?;
    Ok(())
}

// Adds the loop of a `for`, whose body ends with the step.
#[cycle(statements)]
fn add_turns(
    context: &ElaborationContext<'_>,
    turn: &TypedStmt,
    written: WrittenLoop<'_>,
    heading: ForHeading<'_>,
    code: &mut Code,
    made: &mut Vec<Ty>,
) -> Result<(), AllocError>
    ensures { OnOk result (coded_by code.new made.new
        ≡ after (stmts_of code.old.statements) (statements.loop_while (context_of context.now) written.entry.place.now (typed.exprs written.entry.invariants.now) (option_map typed.expr heading.entry.test.now) (turn_of (context_of context.now) (typed.stmt_of turn.now) (option_map typed.simple_of heading.entry.step.now)) made.old.items)) }
{
    let WrittenLoop { place, invariants } = written;
    let mut prelude = Code::new(context.alloc);
    let test = test_of(context, *place, heading.test, &mut prelude, made)?;
    let mut inner = Code::new(context.alloc);
    let reached = add_stmt(context, turn, &mut inner, made)?;
    advance_where(context, reached, heading.step, &mut inner, made)?;
    let head = LoopTest { prelude, test };
    add_loop(context, code, *place, invariants, head, inner)?;
    Ok(())
}

// What an `expose` at this place exposes, and the class at which it does, where one is written.
#[derive(Clone, Copy)]
struct Exposed<'p> {
    at: &'p Place,
    object: &'p TypedExpr,
    class: &'p Option<ClassId>,
}

// Adds an `expose`.
#[cycle(statements)]
fn add_expose(
    context: &ElaborationContext<'_>,
    block: &TypedBlock,
    exposed: Exposed<'_>,
    code: &mut Code,
    made: &mut Vec<Ty>,
) -> Result<bool, AllocError>
    ensures coded { OnOk result (coded_by code.new made.new
        ≡ after (stmts_of code.old.statements) (statements.stmt (context_of context.now) (ExposeOf exposed.entry.at.now (typed.expr exposed.entry.object.now) (option_map (λ t. t.0) exposed.entry.class.now) (typed.block block.now)) made.old.items)) }
    ensures ends { IfOk result (λ reached. reached ≡ ends.block_can_end (typed.block block.now)) }
{
    let Exposed { at, object, class } = exposed;
    let opened = open(context, *at, object, *class, code, made)?;
    let inner = within(context, opened)?;
    let reached = add_block(&inner, block, code, made)?;
    close(code, opened, reached)?;
    Ok(reached)
}

// Adds the statements of the block. The result says whether its end can be reached.
#[cycle(statements)]
fn add_block(
    context: &ElaborationContext<'_>,
    block: &TypedBlock,
    code: &mut Code,
    made: &mut Vec<Ty>,
) -> Result<bool, AllocError>
    ensures coded { OnOk result (coded_by code.new made.new
        ≡ after (stmts_of code.old.statements) (statements.block (context_of context.now) (typed.block block.now) made.old.items)) }
    ensures ends { IfOk result (λ reached. reached ≡ ends.block_can_end (typed.block block.now)) }
{
    add_stmts(context, &block.statements, code, made)
}

/// Adds the statements: those after one whose end can't be reached are dropped. The result says whether the end of all can be
/// reached.
#[cycle(statements)]
pub fn add_stmts(
    context: &ElaborationContext<'_>,
    stmts: &[TypedStmt],
    code: &mut Code,
    made: &mut Vec<Ty>,
) -> Result<bool, AllocError>
    ensures coded { OnOk result (coded_by code.new made.new
        ≡ after (stmts_of code.old.statements) (statements.stmts (context_of context.now) (stmt_trees (map typed.stmt_of stmts.now)) made.old.items)) }
    ensures ends { IfOk result (λ reached. reached ≡ ends.all_can_end (stmt_trees (map typed.stmt_of stmts.now))) }
{
    let mut reached = true;
    for stmt in stmts {
        reached = add_where(context, stmt, reached, code, made)?;
    }
    Ok(reached)
}

// Adds the statement where it can be reached. The result says whether its end can be, too.
#[cycle(statements)]
fn add_where(
    context: &ElaborationContext<'_>,
    stmt: &TypedStmt,
    reached: bool,
    code: &mut Code,
    made: &mut Vec<Ty>,
) -> Result<bool, AllocError>
    ensures coded { OnOk result (coded_by code.new made.new
        ≡ after (stmts_of code.old.statements) ((if reached then statements.stmt (context_of context.now) (typed.stmt_of stmt.now) else nothing) made.old.items)) }
    ensures ends { IfOk result (λ r. r ≡ (reached && ends.can_end (typed.stmt_of stmt.now))) }
{
    if reached {
        add_stmt(context, stmt, code, made)
    } else {
        Ok(false)
    }
}
