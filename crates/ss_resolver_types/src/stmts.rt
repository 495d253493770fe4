// Statements.

ghost use Rattle.std.specs.Prelude.{◌≡◌, ◌++◌, ◌∷◌, [], OnOk, map, option_map};
ghost use Rattle.ss_ast.specs.Expressions.{expr_tree, name_tree, type_tree};
ghost use Rattle.ss_ast.specs.Statements.{declarator_tree, declaration_tree, simple_tree, for_init_tree, block_tree, stmt_tree, stmt_trees};
ghost use Rattle.ss_tables.specs.Scopes.{enter, behind, after_init, after_declaration, declare_all, declare_local};
ghost use Rattle.ss_tables_lookup.specs.Classes.{trees};
ghost use Rattle.ss_tables_scopes.specs.Views.{scope_of};
ghost use Rattle.ss_resolver_types_expressions.specs.Statements.{initial_faults, declarator_faults, declaration_faults, init_faults, test_faults, step_faults, return_faults, exposed_want, in_code, stmt_faults, block_faults, stmts_faults};
ghost use Rattle.ss_resolver_types_heads.specs.Faults.{bad_type};
ghost use Rattle.ss_resolver_types_heads.specs.Wants.{place_within};
ghost use Rattle.ss_resolver_types_heads.specs.Expressions.{AsValue, faults};
ghost use Rattle.ss_resolver_types_heads.specs.Codes.{want_of};
ghost use Rattle.ss_resolver_types.specs.Bodies.{body_of, heading_faults, for_faults};

use crate::body::{Body, Outcome};
use crate::simple::{
    check_condition, check_conditions, check_in_code, check_initial, check_simple,
};
use ss_ast::{Block, Declaration, Declarator, Expr, ForInit, Name, Simple, Stmt, TypeRef};
use ss_core::Place;
use ss_faults::Fault;
use ss_resolver_types_expressions::{check, place_within};
use ss_resolver_types_heads::{ExprContext, Want, note_bad_type, note_mark};
use ss_tables_lookup::Tables;
use ss_tables_scopes::{LocalInfo, Scopes};
use std::alloc::AllocError;

// What a declared local begins with.
fn check_first_value(
    body: &Body<'_, '_>,
    locals: &mut Scopes,
    found: &mut Vec<Fault>,
    ty: &TypeRef,
    initial: &Option<Expr>,
) -> Result<(), AllocError>
    ensures noted { OnOk result (found.new.items ≡ found.old.items ++ initial_faults (in_code (body_of body.now) (scope_of body.now.within locals.old)) (type_tree ty.now) (option_map expr_tree initial.now)) }
    ensures same { OnOk result (locals.new ≡ locals.old) }
{
    let context = ExprContext {
        within: body.within,
        is_static: body.is_static,
        in_condition: false,
        lacks_result: false,
    };
    check_initial(&context, locals, found, ty, initial)
}

// A declared local, which is in scope from then on.
fn check_declarator(
    body: &Body<'_, '_>,
    locals: &mut Scopes,
    found: &mut Vec<Fault>,
    ty: &TypeRef,
    declarator: &Declarator,
) -> Result<(), AllocError>
    ensures noted { OnOk result (found.new.items ≡ found.old.items ++ initial_faults (in_code (body_of body.now) (scope_of body.now.within locals.old)) (type_tree ty.now) (declarator_tree declarator.now).initial) }
    ensures scope { OnOk result (scope_of body.now.within locals.new ≡ declare_local (scope_of body.now.within locals.old) (type_tree ty.now) (declarator_tree declarator.now).name) }
    ensures outer { OnOk result (locals.new.outer ≡ locals.old.outer) }
{
    check_first_value(body, locals, found, ty, &declarator.initial)?;
    let known = LocalInfo {
        ty: body.within.tables.written_type(ty),
        is_param: false,
    };
    locals.declare(body.within.alloc, declarator.name.text.as_str(), known)
}

fn check_declarators(
    body: &Body<'_, '_>,
    locals: &mut Scopes,
    found: &mut Vec<Fault>,
    ty: &TypeRef,
    declarators: &[Declarator],
) -> Result<(), AllocError>
    ensures noted { OnOk result (found.new.items ≡ found.old.items ++ declarator_faults (body_of body.now) (scope_of body.now.within locals.old) (type_tree ty.now) (map declarator_tree declarators.now)) }
    ensures scope { OnOk result (scope_of body.now.within locals.new ≡ declare_all (scope_of body.now.within locals.old) (type_tree ty.now) (map declarator_tree declarators.now)) }
    ensures outer { OnOk result (locals.new.outer ≡ locals.old.outer) }
{
    for declarator in declarators {
        check_declarator(body, locals, found, ty, declarator)?;
    }
    Ok(())
}

fn check_declaration(
    body: &Body<'_, '_>,
    locals: &mut Scopes,
    found: &mut Vec<Fault>,
    declaration: &Declaration,
) -> Result<(), AllocError>
    ensures noted { OnOk result (found.new.items ≡ found.old.items ++ declaration_faults (body_of body.now) (scope_of body.now.within locals.old) (declaration_tree declaration.now)) }
    ensures scope { OnOk result (scope_of body.now.within locals.new ≡ after_declaration (scope_of body.now.within locals.old) (declaration_tree declaration.now)) }
    ensures outer { OnOk result (locals.new.outer ≡ locals.old.outer) }
{
    note_mark(found, &declaration.ty)?;
    check_declarators(
        body,
        locals,
        found,
        &declaration.ty,
        &declaration.declarators,
    )
}

// What a `for` begins with.
fn check_init(
    body: &Body<'_, '_>,
    locals: &mut Scopes,
    found: &mut Vec<Fault>,
    init: &Option<ForInit>,
) -> Result<(), AllocError>
    ensures noted { OnOk result (found.new.items ≡ found.old.items ++ init_faults (body_of body.now) (scope_of body.now.within locals.old) (option_map for_init_tree init.now)) }
    ensures scope { OnOk result (scope_of body.now.within locals.new ≡ after_init (scope_of body.now.within locals.old) (option_map for_init_tree init.now)) }
    ensures outer { OnOk result (locals.new.outer ≡ locals.old.outer) }
{
    match init {
        Some(ForInit::Declare(declaration)) => {
            check_declaration(body, locals, found, declaration)
        }
        Some(ForInit::Simple(stmt)) => check_simple(body, locals, found, stmt),
        None => Ok(()),
    }
}

// The test of a `for`.
fn check_test(
    body: &Body<'_, '_>,
    locals: &mut Scopes,
    found: &mut Vec<Fault>,
    test: &Option<Expr>,
) -> Result<(), AllocError>
    ensures noted { OnOk result (found.new.items ≡ found.old.items ++ test_faults (body_of body.now) (scope_of body.now.within locals.old) (option_map expr_tree test.now)) }
    ensures same { OnOk result (locals.new ≡ locals.old) }
{
    match test {
        Some(e) => check_in_code(body, locals, found, Want::ABool, e),
        None => Ok(()),
    }
}

// The step of a `for`.
fn check_step(
    body: &Body<'_, '_>,
    locals: &mut Scopes,
    found: &mut Vec<Fault>,
    step: &Option<Simple>,
) -> Result<(), AllocError>
    ensures noted { OnOk result (found.new.items ≡ found.old.items ++ step_faults (body_of body.now) (scope_of body.now.within locals.old) (option_map simple_tree step.now)) }
    ensures same { OnOk result (locals.new ≡ locals.old) }
{
    match step {
        Some(stmt) => check_simple(body, locals, found, stmt),
        None => Ok(()),
    }
}

/// What stands between the parentheses of a `for`.
#[derive(Clone, Copy)]
struct WrittenHeading<'p> {
    first: &'p Option<ForInit>,
    test: &'p Option<Expr>,
    step: &'p Option<Simple>,
}

// The test, the step and the invariants of a `for`.
fn check_heading(
    body: &Body<'_, '_>,
    locals: &mut Scopes,
    found: &mut Vec<Fault>,
    test: &Option<Expr>,
    step: &Option<Simple>,
    invariants: &[Expr],
) -> Result<(), AllocError>
    ensures noted { OnOk result (found.new.items ≡ found.old.items ++ heading_faults (body_of body.now) (scope_of body.now.within locals.old) (option_map expr_tree test.now) (option_map simple_tree step.now) (map expr_tree invariants.now)) }
    ensures same { OnOk result (locals.new ≡ locals.old) }
{
    check_test(body, locals, found, test)?;
    check_step(body, locals, found, step)?;
    check_conditions(body, locals, found, invariants)
}

// A value that is returned where none is wanted.
fn check_surplus(
    body: &Body<'_, '_>,
    locals: &mut Scopes,
    found: &mut Vec<Fault>,
    e: &Expr,
) -> Result<(), AllocError>
    ensures noted { OnOk result (found.new.items ≡ found.old.items ++ (faults (in_code (body_of body.now) (scope_of body.now.within locals.old)) AsValue (expr_tree e.now) ++ bad_type (place_within (expr_tree e.now)) ∷ [])) }
    ensures same { OnOk result (locals.new ≡ locals.old) }
{
    let context = ExprContext {
        within: body.within,
        is_static: body.is_static,
        in_condition: false,
        lacks_result: false,
    };
    check(&context, locals, found, e)?;
    note_bad_type(found, true, place_within(e))
}

// A `return`, which gives a value exactly where the body does.
fn check_return(
    body: &Body<'_, '_>,
    locals: &mut Scopes,
    found: &mut Vec<Fault>,
    place: Place,
    e: &Option<Expr>,
) -> Result<(), AllocError>
    ensures noted { OnOk result (found.new.items ≡ found.old.items ++ return_faults (body_of body.now) (scope_of body.now.within locals.old) place (option_map expr_tree e.now)) }
    ensures same { OnOk result (locals.new ≡ locals.old) }
{
    match (body.outcome, e) {
        (Outcome::Nothing, None) => Ok(()),
        (Outcome::Nothing, Some(e)) => check_surplus(body, locals, found, e),
        (Outcome::Gives(_), None) => note_bad_type(found, true, place),
        (Outcome::Gives(ty), Some(e)) => { check_in_code(body, locals, found, Want::OfType(ty), e) }
    }
}

// What may be exposed.
fn exposed_want(tables: &Tables<'_>, name: &Option<Name>) -> Want
    ensures { want_of result ≡ exposed_want (trees tables.now) (option_map name_tree name.now) }
{
    let Some(name) = name else {
        return Want::OfDeclared;
    };
    match tables.class_named(name.text.as_str()) {
        Some(class) => Want::OfClass(tables.class_number(class)),
        None => Want::AnyValue,
    }
}

/// A statement; a declaration changes what is in scope after it.
#[cycle(stmt)]
pub fn check_stmt(
    body: &Body<'_, '_>,
    locals: &mut Scopes,
    found: &mut Vec<Fault>,
    stmt: &Stmt,
) -> Result<(), AllocError>
    ensures noted { OnOk result (found.new.items ≡ found.old.items ++ stmt_faults (body_of body.now) (scope_of body.now.within locals.old) (stmt_tree stmt.now)) }
    ensures scope { OnOk result (scope_of body.now.within locals.new ≡ behind (scope_of body.now.within locals.old) (stmt_tree stmt.now)) }
    ensures outer { OnOk result (locals.new.outer ≡ locals.old.outer) }
{
    match stmt {
        Stmt::Block(block) => check_block(body, locals, found, block),
        Stmt::Declare(declaration) => check_declaration(body, locals, found, declaration),
        Stmt::Simple(stmt) => check_simple(body, locals, found, stmt),
        Stmt::If(_, test, first, None) => {
            check_in_code(body, locals, found, Want::ABool, test)?;
            check_governed(body, locals, found, first)
        }
        Stmt::If(_, test, first, Some(second)) => {
            check_in_code(body, locals, found, Want::ABool, test)?;
            check_governed(body, locals, found, first)?;
            check_governed(body, locals, found, second)
        }
        Stmt::While(_, test, invariants, inner) => {
            check_in_code(body, locals, found, Want::ABool, test)?;
            check_conditions(body, locals, found, invariants)?;
            check_governed(body, locals, found, inner)
        }
        Stmt::For {
            first,
            test,
            step,
            invariants,
            body: inner,
            ..
        } => {
            let heading = WrittenHeading { first, test, step };
            check_for(body, locals, found, inner, heading, invariants)
        }
        Stmt::Return(place, e) => check_return(body, locals, found, *place, e),
        Stmt::Assert(_, e) => check_condition(body, locals, found, e),
        Stmt::Assume(_, e) => check_condition(body, locals, found, e),
        Stmt::Expose(_, e, name, block) => {
            let want = exposed_want(body.within.tables, name);
            check_in_code(body, locals, found, want, e)?;
            check_block(body, locals, found, block)
        }
        Stmt::Empty(_) => Ok(()),
    }
}

#[cycle(stmt)]
fn check_for(
    body: &Body<'_, '_>,
    locals: &mut Scopes,
    found: &mut Vec<Fault>,
    inner: &Stmt,
    heading: WrittenHeading<'_>,
    invariants: &[Expr],
) -> Result<(), AllocError>
    ensures noted { OnOk result (found.new.items ≡ found.old.items ++ for_faults (body_of body.now) (enter (scope_of body.now.within locals.old)) (option_map for_init_tree heading.entry.first.now)
        (option_map expr_tree heading.entry.test.now) (option_map simple_tree heading.entry.step.now) (map expr_tree invariants.now) (stmt_tree inner.now)) }
    ensures same { OnOk result (locals.new ≡ locals.old) }
{
    locals.enter(body.within.alloc)?;
    check_init(body, locals, found, heading.first)?;
    check_heading(body, locals, found, heading.test, heading.step, invariants)?;
    check_governed(body, locals, found, inner)?;
    locals.leave();
    Ok(())
}

// A statement that another one governs, in a scope of its own.
#[cycle(stmt)]
fn check_governed(
    body: &Body<'_, '_>,
    locals: &mut Scopes,
    found: &mut Vec<Fault>,
    stmt: &Stmt,
) -> Result<(), AllocError>
    ensures noted { OnOk result (found.new.items ≡ found.old.items ++ stmt_faults (body_of body.now) (enter (scope_of body.now.within locals.old)) (stmt_tree stmt.now)) }
    ensures same { OnOk result (locals.new ≡ locals.old) }
{
    locals.enter(body.within.alloc)?;
    check_stmt(body, locals, found, stmt)?;
    locals.leave();
    Ok(())
}

/// A block, which has a scope of its own.
#[cycle(stmt)]
pub fn check_block(
    body: &Body<'_, '_>,
    locals: &mut Scopes,
    found: &mut Vec<Fault>,
    block: &Block,
) -> Result<(), AllocError>
    ensures noted { OnOk result (found.new.items ≡ found.old.items ++ block_faults (body_of body.now) (scope_of body.now.within locals.old) (block_tree block.now)) }
    ensures same { OnOk result (locals.new ≡ locals.old) }
{
    locals.enter(body.within.alloc)?;
    check_stmts(body, locals, found, &block.statements)?;
    locals.leave();
    Ok(())
}

#[cycle(stmt)]
fn check_stmts(
    body: &Body<'_, '_>,
    locals: &mut Scopes,
    found: &mut Vec<Fault>,
    stmts: &[Stmt],
) -> Result<(), AllocError>
    ensures noted { OnOk result (found.new.items ≡ found.old.items ++ stmts_faults (body_of body.now) (scope_of body.now.within locals.old) (stmt_trees (map stmt_tree stmts.now))) }
    ensures outer { OnOk result (locals.new.outer ≡ locals.old.outer) }
{
    for stmt in stmts {
        check_stmt(body, locals, found, stmt)?;
    }
    Ok(())
}
