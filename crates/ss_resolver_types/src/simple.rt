// Expressions in code and in conditions, assignments, and calls that stand alone.

ghost use Rattle.std.specs.Prelude.{◌≡◌, ◌++◌, ◌&&◌, not, IfOk, OnOk, map, option_map, option_and_then};
ghost use Rattle.ss_ast.specs.Expressions.{expr_tree, type_tree};
ghost use Rattle.ss_ast.specs.Statements.{AssignOf, StepOf, AloneOf, simple_tree};
ghost use Rattle.ss_tables.specs.Words.{is_state_word};
ghost use Rattle.ss_tables.specs.Types.{class_of};
ghost use Rattle.ss_tables_scopes.specs.Views.{scope_of};
ghost use Rattle.ss_resolver_types_heads.specs.Wants.{known};
ghost use Rattle.ss_resolver_types_heads.specs.Expressions.{AsValue, faults, faults_as};
ghost use Rattle.ss_resolver_types_expressions.specs.Statements.{in_code, condition, conditions, initial_faults, target_faults, simple_faults, is_length_of};
ghost use Rattle.ss_resolver_types_heads.specs.Heads.{ending};
ghost use Rattle.ss_resolver_types_heads.specs.Codes.{want_of, known_of, context_of, head_of};
ghost use Rattle.ss_resolver_types.specs.Bodies.{body_of, target_at, alone_at, assigned_at};

use crate::body::Body;
use ss_ast::{AssignOperator, Expr, Simple, StepOperator, TypeRef};
use ss_faults::Fault;
use ss_resolver_types_expressions::{check_as, place_of, walk};
use ss_resolver_types_heads::{
    ExprContext, Form, Head, Known, Want, note_bad_type, note_misfit, settle,
};
use ss_tables_lookup::is_array_number;
use ss_tables_scopes::{Scopes, class_of_type, is_length, is_state_word};
use std::alloc::AllocError;

/// An expression of the code that is to be what is wanted.
pub fn check_in_code(
    body: &Body<'_, '_>,
    locals: &mut Scopes,
    found: &mut Vec<Fault>,
    want: Want,
    e: &Expr,
) -> Result<(), AllocError>
    ensures noted { OnOk result (found.new.items ≡ found.old.items ++ faults_as (in_code (body_of body.now) (scope_of body.now.within locals.old)) (want_of want) (expr_tree e.now)) }
    ensures same { OnOk result (locals.new ≡ locals.old) }
{
    let context = ExprContext {
        within: body.within,
        is_static: body.is_static,
        in_condition: false,
        lacks_result: false,
    };
    check_as(&context, locals, found, want, e)?;
    Ok(())
}

/// `assert`, `assume` and the invariants of a loop.
pub fn check_condition(
    body: &Body<'_, '_>,
    locals: &mut Scopes,
    found: &mut Vec<Fault>,
    e: &Expr,
) -> Result<(), AllocError>
    ensures noted { OnOk result (found.new.items ≡ found.old.items ++ condition (body_of body.now) (scope_of body.now.within locals.old) (expr_tree e.now)) }
    ensures same { OnOk result (locals.new ≡ locals.old) }
{
    let context = ExprContext {
        within: body.within,
        is_static: body.is_static,
        in_condition: true,
        lacks_result: false,
    };
    check_as(&context, locals, found, Want::ABool, e)?;
    Ok(())
}

/// The invariants of a loop.
pub fn check_conditions(
    body: &Body<'_, '_>,
    locals: &mut Scopes,
    found: &mut Vec<Fault>,
    list: &[Expr],
) -> Result<(), AllocError>
    ensures noted { OnOk result (found.new.items ≡ found.old.items ++ conditions (body_of body.now) (scope_of body.now.within locals.old) (map expr_tree list.now)) }
    ensures same { OnOk result (locals.new ≡ locals.old) }
{
    for e in list {
        check_condition(body, locals, found, e)?;
    }
    Ok(())
}

/// What a local or a field begins with.
pub fn check_initial(
    context: &ExprContext<'_, '_>,
    locals: &mut Scopes,
    found: &mut Vec<Fault>,
    ty: &TypeRef,
    initial: &Option<Expr>,
) -> Result<(), AllocError>
    ensures noted { OnOk result (found.new.items ≡ found.old.items ++ initial_faults (context_of context.now locals.old) (type_tree ty.now) (option_map expr_tree initial.now)) }
    ensures same { OnOk result (locals.new ≡ locals.old) }
{
    match initial {
        Some(e) => {
            let want = Want::OfType(context.within.tables.written_type(ty));
            check_as(context, locals, found, want, e)?;
            Ok(())
        }
        None => Ok(()),
    }
}

/// An expression whose value is read, with how it ends and what is known of it.
pub fn read<'e>(
    context: &ExprContext<'_, '_>,
    locals: &mut Scopes,
    found: &mut Vec<Fault>,
    e: &'e Expr,
) -> Result<(Head<'e>, Known), AllocError>
    ensures head { IfOk result (λ r. head_of r.0 ≡ ending (context_of context.now locals.old).scope (expr_tree e.now)) }
    ensures known { IfOk result (λ r. known_of r.1 ≡ known (context_of context.now locals.old).scope (expr_tree e.now)) }
    ensures noted { OnOk result (found.new.items ≡ found.old.items ++ faults (context_of context.now locals.old) AsValue (expr_tree e.now)) }
    ensures same { OnOk result (locals.new ≡ locals.old) }
{
    let head = walk(context, locals, found, e)?;
    let known = settle(context, locals, found, head)?;
    Ok((head, known))
}

fn is_length_of(name: &str, class: Option<usize>) -> bool
    ensures { result ≡ is_length_of name.now class }
{
    match class {
        Some(class) => is_array_number(class) && is_length(name),
        None => false,
    }
}

/// Whether a name after a dot may be assigned.
pub fn is_member_target(before: Known, name: &str) -> bool
    ensures { result ≡ (not (is_state_word name.now) && not (is_length_of name.now (option_and_then class_of (known_of before).ty))) }
{
    !is_state_word(name) && !is_length_of(name, class_of_type(before.ty))
}

// Whether it may be assigned.
fn is_target(head: Head<'_>) -> bool
    ensures { result ≡ target_at (head_of head.entry) }
{
    match head {
        Head::Name(..) => true,
        Head::Base(_) => false,
        Head::Member(_, _, known, name) => is_member_target(known, name.text.as_str()),
        Head::Value(form, _) => match form {
            Form::Element => true,
            Form::Call(_) | Form::New | Form::Other => false,
        },
    }
}

// Whether it may stand alone.
fn may_stand_alone(head: Head<'_>) -> bool
    ensures { result ≡ alone_at (head_of head.entry) }
{
    match head {
        Head::Name(..) | Head::Base(_) | Head::Member(..) => false,
        Head::Value(form, _) => match form {
            Form::Call(is_question) => !is_question,
            Form::New => true,
            Form::Element | Form::Other => false,
        },
    }
}

// What is assigned.
fn check_target(
    context: &ExprContext<'_, '_>,
    locals: &mut Scopes,
    found: &mut Vec<Fault>,
    e: &Expr,
) -> Result<Known, AllocError>
    ensures known { IfOk result (λ v. known_of v ≡ known (context_of context.now locals.old).scope (expr_tree e.now)) }
    ensures noted { OnOk result (found.new.items ≡ found.old.items ++ target_faults (context_of context.now locals.old) (expr_tree e.now)) }
    ensures same { OnOk result (locals.new ≡ locals.old) }
{
    let (head, known) = read(context, locals, found, e)?;
    note_bad_type(found, !is_target(head), place_of(e))?;
    Ok(known)
}

// What a target gets.
fn check_assigned(
    context: &ExprContext<'_, '_>,
    locals: &mut Scopes,
    found: &mut Vec<Fault>,
    operator: AssignOperator,
    target: Known,
    e: &Expr,
) -> Result<(), AllocError>
    ensures noted { OnOk result (found.new.items ≡ found.old.items ++ assigned_at (context_of context.now locals.old) operator (known_of target) (expr_tree e.now)) }
    ensures same { OnOk result (locals.new ≡ locals.old) }
{
    match operator {
        AssignOperator::Set => {
            check_as(context, locals, found, Want::OfType(target.ty), e)?;
            Ok(())
        }
        AssignOperator::Add | AssignOperator::Subtract | AssignOperator::Multiply => {
            note_misfit(context.within.tables, found, Want::AnInt, target)?;
            check_as(context, locals, found, Want::AnInt, e)?;
            Ok(())
        }
    }
}

fn check_assignment(
    context: &ExprContext<'_, '_>,
    locals: &mut Scopes,
    found: &mut Vec<Fault>,
    target: &Expr,
    operator: AssignOperator,
    e: &Expr,
) -> Result<(), AllocError>
    ensures noted { OnOk result (found.new.items ≡ found.old.items ++ simple_faults (context_of context.now locals.old) (AssignOf (expr_tree target.now) operator (expr_tree e.now))) }
    ensures same { OnOk result (locals.new ≡ locals.old) }
{
    let known = check_target(context, locals, found, target)?;
    check_assigned(context, locals, found, operator, known, e)
}

fn check_step(
    context: &ExprContext<'_, '_>,
    locals: &mut Scopes,
    found: &mut Vec<Fault>,
    target: &Expr,
    operator: StepOperator,
) -> Result<(), AllocError>
    ensures noted { OnOk result (found.new.items ≡ found.old.items ++ simple_faults (context_of context.now locals.old) (StepOf (expr_tree target.now) operator)) }
    ensures same { OnOk result (locals.new ≡ locals.old) }
{
    let known = check_target(context, locals, found, target)?;
    note_misfit(context.within.tables, found, Want::AnInt, known)
}

fn check_alone(
    context: &ExprContext<'_, '_>,
    locals: &mut Scopes,
    found: &mut Vec<Fault>,
    e: &Expr,
) -> Result<(), AllocError>
    ensures noted { OnOk result (found.new.items ≡ found.old.items ++ simple_faults (context_of context.now locals.old) (AloneOf (expr_tree e.now))) }
    ensures same { OnOk result (locals.new ≡ locals.old) }
{
    let (head, _) = read(context, locals, found, e)?;
    note_bad_type(found, !may_stand_alone(head), place_of(e))?;
    Ok(())
}

/// A statement that may also stand in the heading of a `for`.
pub fn check_simple(
    body: &Body<'_, '_>,
    locals: &mut Scopes,
    found: &mut Vec<Fault>,
    stmt: &Simple,
) -> Result<(), AllocError>
    ensures noted { OnOk result (found.new.items ≡ found.old.items ++ simple_faults (in_code (body_of body.now) (scope_of body.now.within locals.old)) (simple_tree stmt.now)) }
    ensures same { OnOk result (locals.new ≡ locals.old) }
{
    let context = ExprContext {
        within: body.within,
        is_static: body.is_static,
        in_condition: false,
        lacks_result: false,
    };
    match stmt {
        Simple::Assign(target, operator, e) => {
            check_assignment(&context, locals, found, target, *operator, e)
        }
        Simple::Step(target, operator) => { check_step(&context, locals, found, target, *operator) }
        Simple::Alone(e) => check_alone(&context, locals, found, e),
    }
}
