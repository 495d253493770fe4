// Branches and loops, once their parts are written.

ghost use Rattle.std.specs.Prelude.{◌≡◌, ◌++◌, ◌∷◌, [], IfOk, OnOk, map, option_map, if◌then◌else◌, true};
ghost use Rattle.ss_core.specs.Tree.{AssertStmt, AssumeStmt, BoolExpr, IfStmt, LoopStmt};
ghost use Rattle.ss_core.specs.View as core;
ghost use Rattle.ss_typed.specs.View as typed;
ghost use Rattle.ss_expand_rules.specs.Numbers as elab;
ghost use Rattle.ss_expand_rules.specs.Code.{after, nothing};
ghost use Rattle.ss_expand_rules.specs.Lifting as lifting;
ghost use Rattle.ss_expand_rules.specs.Statements as statements;
ghost use Rattle.ss_expand_expressions.specs.Views.{numbers_of};
ghost use Rattle.ss_expand_expressions.specs.Sources.{stmts_of, valued_by, valued_after};
ghost use Rattle.ss_expand_bodies.specs.Exposes.{opened_of};
ghost use Rattle.ss_expand_lifting.specs.Made.{coded_by};
ghost use Rattle.ss_expand_lifting.specs.Contexts.{context_of};
ghost use Rattle.ss_expand_programs.specs.Loops.{tested};

use ss_core::{Exposed, Expr, Loop, Place, Stmt, Ty};
use ss_expand_bodies::{add_plain, list_exposed};
use ss_expand_expressions::plain;
use ss_expand_lifting::{Code, ElaborationContext, declare, simple_statement, value};
use ss_typed::{TypedExpr, TypedInit, TypedSimple};
use std::alloc::{AllocError, Global};

/// Adds an `assert`. The result says whether its end can be reached.
pub fn add_assert(
    context: &ElaborationContext<'_>,
    place: Place,
    e: &TypedExpr,
    code: &mut Code,
) -> Result<bool, AllocError>
    ensures coded { OnOk result (stmts_of code.new.statements ≡ stmts_of code.old.statements ++ AssertStmt place (elab.plain (numbers_of context.now.numbers.now) (typed.expr e.now)) ∷ []) }
    ensures ends { IfOk result (λ reached. reached ≡ true) }
{
    let e = plain(context.alloc, context.numbers, e)?;
    code.add(Stmt::Assert(place, e))?;
    Ok(true)
}

/// Adds an `assume`. The result says whether its end can be reached.
pub fn add_assume(
    context: &ElaborationContext<'_>,
    place: Place,
    e: &TypedExpr,
    code: &mut Code,
) -> Result<bool, AllocError>
    ensures coded { OnOk result (stmts_of code.new.statements ≡ stmts_of code.old.statements ++ AssumeStmt place (elab.plain (numbers_of context.now.numbers.now) (typed.expr e.now)) ∷ []) }
    ensures ends { IfOk result (λ reached. reached ≡ true) }
{
    let e = plain(context.alloc, context.numbers, e)?;
    code.add(Stmt::Assume(place, e))?;
    Ok(true)
}

// The expression in a box.
fn boxed(alloc: Global, e: Expr) -> Result<Box<Expr>, AllocError>
    ensures { IfOk result (λ r. core.expr r.value ≡ core.expr e) }
{
    Ok(Box::new(alloc, e)?)
}

/// The value in a box.
pub fn boxed_value(
    context: &ElaborationContext<'_>,
    e: &TypedExpr,
    code: &mut Code,
    made: &mut Vec<Ty>,
) -> Result<Box<Expr>, AllocError>
    ensures { IfOk result (λ v. valued_by code.new.statements made.new v.value
        ≡ valued_after (stmts_of code.old.statements) (lifting.value (context_of context.now) (typed.expr e.now) made.old.items)) }
{
    let value = value(context, e, code, made)?;
    let kept = boxed(context.alloc, value)?;
    Ok(kept)
}

/// Adds an `if` with these two sides.
pub fn add_branch(
    code: &mut Code,
    place: Place,
    test: Box<Expr>,
    one: Code,
    other: Code,
) -> Result<(), AllocError>
    ensures { OnOk result (stmts_of code.new.statements ≡ stmts_of code.old.statements ++ IfStmt place (core.expr test.value) (core.code_of (stmts_of one.statements)) (core.code_of (stmts_of other.statements)) ∷ []) }
{
    let test = Box::into_inner(test);
    code.add(Stmt::If(place, test, one.statements, other.statements))
}

// The invariants of a loop.
fn invariants_of(
    context: &ElaborationContext<'_>,
    invariants: &[TypedExpr],
) -> Result<Vec<Expr>, AllocError>
    ensures { IfOk result (λ es. core.exprs es.items ≡ elab.all_plain (numbers_of context.now.numbers.now) (typed.exprs invariants.now)) }
{
    let mut exprs = Vec::new(context.alloc);
    add_plain(context.alloc, &mut exprs, context.numbers, invariants)?;
    Ok(exprs)
}

// A loop of these parts.
fn loop_of(
    place: Place,
    invariants: Vec<Expr>,
    prelude: Code,
    test: Expr,
    turn: Code,
    exposes: Vec<Exposed>,
) -> Stmt
    ensures { core.stmt_of result ≡ LoopStmt place (core.exprs invariants.items) (core.code_of (stmts_of prelude.statements)) (core.expr test) (core.code_of (stmts_of turn.statements)) (map core.exposed_tree exposes.items) }
{
    Stmt::Loop(Loop {
        invariants,
        prelude: prelude.statements,
        test,
        body: turn.statements,
        place,
        exposes,
    })
}

/// The test of a loop, and what is done before it each time.
#[derive(Drop)]
pub struct LoopTest {
    pub prelude: Code,
    pub test: Box<Expr>,
}

/// Adds a loop with this prelude, this test and this body.
pub fn add_loop(
    context: &ElaborationContext<'_>,
    code: &mut Code,
    place: Place,
    invariants: &[TypedExpr],
    head: LoopTest,
    turn: Code,
) -> Result<(), AllocError>
    ensures { OnOk result (stmts_of code.new.statements ≡ stmts_of code.old.statements ++ LoopStmt place (elab.all_plain (numbers_of context.now.numbers.now) (typed.exprs invariants.now)) (core.code_of (stmts_of head.prelude.statements)) (core.expr head.test.value) (core.code_of (stmts_of turn.statements)) (map statements.exposed (map opened_of context.now.exposes.items)) ∷ []) }
{
    let LoopTest { prelude, test } = head;
    let invariants = invariants_of(context, invariants)?;
    let exposes = list_exposed(context.alloc, &context.exposes)?;
    let test = Box::into_inner(test);
    let made = loop_of(place, invariants, prelude, test, turn, exposes);
    code.add(made)?;
    Ok(())
}

// The literal `true`, in a box.
fn boxed_true(alloc: Global, place: Place) -> Result<Box<Expr>, AllocError>
    ensures { IfOk result (λ r. core.expr r.value ≡ BoolExpr place true) }
{
    Ok(boxed(alloc, Expr::Bool(place, true))?)
}

/// The test of a `for`, which without one is `true`.
pub fn test_of(
    context: &ElaborationContext<'_>,
    place: Place,
    test: &Option<TypedExpr>,
    code: &mut Code,
    made: &mut Vec<Ty>,
) -> Result<Box<Expr>, AllocError>
    ensures { IfOk result (λ v. valued_by code.new.statements made.new v.value
        ≡ valued_after (stmts_of code.old.statements) (tested (context_of context.now) place (option_map typed.expr test.now) made.old.items)) }
{
    match test {
        Some(e) => boxed_value(context, e, code, made),
        None => {
            let test = boxed_true(context.alloc, place)?;
            Ok(test)
        }
    }
}

/// Adds what a `for` begins with.
pub fn begin(
    context: &ElaborationContext<'_>,
    beginning: &Option<TypedInit>,
    code: &mut Code,
    made: &mut Vec<Ty>,
) -> Result<(), AllocError>
    ensures { OnOk result (coded_by code.new made.new
        ≡ after (stmts_of code.old.statements) (statements.begin (context_of context.now) (option_map typed.init_of beginning.now) made.old.items)) }
{
    match beginning {
        Some(TypedInit::Declare(declarators)) => declare(context, declarators, code, made),
        Some(TypedInit::Simple(stmt)) => simple_statement(context, stmt, code, made),
        None => Ok(()),
    }
}

// Adds the step of a `for`.
fn advance(
    context: &ElaborationContext<'_>,
    step: &Option<TypedSimple>,
    code: &mut Code,
    made: &mut Vec<Ty>,
) -> Result<(), AllocError>
    ensures { OnOk result (coded_by code.new made.new
        ≡ after (stmts_of code.old.statements) (statements.advance (context_of context.now) (option_map typed.simple_of step.now) made.old.items)) }
{
    match step {
        Some(stmt) => simple_statement(context, stmt, code, made),
        None => Ok(()),
    }
}

/// Adds it where the end of the turn before it can be reached.
pub fn advance_where(
    context: &ElaborationContext<'_>,
    reached: bool,
    step: &Option<TypedSimple>,
    code: &mut Code,
    made: &mut Vec<Ty>,
) -> Result<(), AllocError>
    ensures { OnOk result (coded_by code.new made.new
        ≡ after (stmts_of code.old.statements) ((if reached then statements.advance (context_of context.now) (option_map typed.simple_of step.now) else nothing) made.old.items)) }
{
    if reached {
        advance(context, step, code, made)
    } else {
        Ok(())
    }
}
