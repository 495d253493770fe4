// Unknown names in statements, and locals that are declared twice.

ghost use Rattle.std.specs.Prelude.{◌≡◌, ◌++◌, map, OnOk, option_map};
ghost use Rattle.ss_ast.specs.Expressions.{expr_tree, name_tree, type_tree};
ghost use Rattle.ss_ast.specs.Statements.{declarator_tree, declaration_tree, simple_tree, for_init_tree, block_tree, stmt_tree, stmt_trees};
ghost use Rattle.ss_tables.specs.Scopes.{enter, behind, after_init, declare_all, declare_local};
ghost use Rattle.ss_resolver_names_rules.specs.Expressions.{expr_faults};
ghost use Rattle.ss_resolver_names_rules.specs.Faults.{twice_in};
ghost use Rattle.ss_resolver_names_rules.specs.Statements.{faults_of_all, faults_of_any, named_class_faults, declarators_faults, declaration_faults, simple_faults, faults_of_any_simple, init_faults, heading_faults, stmt_faults, block_faults, stmts_faults};
ghost use Rattle.ss_tables.specs.Named.{left};
ghost use Rattle.ss_tables_scopes.specs.Views.{scope_of};
ghost use Rattle.ss_tables_lookup.specs.Classes.{trees};

use crate::found::{add, check_class, check_type};
use crate::walk::check;
use ss_ast::{Block, Declaration, Declarator, Expr, ForInit, Name, Simple, Stmt, TypeRef};
use ss_core::Rule;
use ss_faults::Fault;
use ss_tables_lookup::Tables;
use ss_tables_scopes::{ClassContext, LocalInfo, Scopes};
use std::alloc::AllocError;

// An expression alone.
fn check_one(
    context: ClassContext<'_, '_>,
    locals: &mut Scopes,
    faults: &mut Vec<Fault>,
    e: &Expr,
) -> Result<(), AllocError>
    ensures noted { OnOk result (faults.new.items ≡ faults.old.items ++ expr_faults (scope_of context.entry locals.old) (expr_tree e.now)) }
    ensures kept { OnOk result (locals.new ≡ locals.old) }
{
    check(context, locals, faults, e)?;
    Ok(())
}

/// Some expressions, one after the other.
pub fn check_all(
    context: ClassContext<'_, '_>,
    locals: &mut Scopes,
    faults: &mut Vec<Fault>,
    exprs: &[Expr],
) -> Result<(), AllocError>
    ensures noted { OnOk result (faults.new.items ≡ faults.old.items ++ faults_of_all (scope_of context.entry locals.old) (map expr_tree exprs.now)) }
    ensures kept { OnOk result (locals.new ≡ locals.old) }
{
    for e in exprs {
        check(context, locals, faults, e)?;
    }
    Ok(())
}

/// An expression, where there is one.
pub fn check_any(
    context: ClassContext<'_, '_>,
    locals: &mut Scopes,
    faults: &mut Vec<Fault>,
    e: &Option<Expr>,
) -> Result<(), AllocError>
    ensures noted { OnOk result (faults.new.items ≡ faults.old.items ++ faults_of_any (scope_of context.entry locals.old) (option_map expr_tree e.now)) }
    ensures kept { OnOk result (locals.new ≡ locals.old) }
{
    if let Some(e) = e {
        check(context, locals, faults, e)?;
    }
    Ok(())
}

/// A local whose scope has its name already.
pub fn check_local(locals: &Scopes, faults: &mut Vec<Fault>, name: &Name) -> Result<(), AllocError>
    ensures { OnOk result (faults.new.items ≡ faults.old.items ++ twice_in locals.now.inner (name_tree name.now)) }
{
    if locals.has_within(name.text.as_str()) {
        return add(faults, Rule::Twice, name.place);
    }
    Ok(())
}

// A declared local.
fn check_declarator(
    context: ClassContext<'_, '_>,
    locals: &mut Scopes,
    faults: &mut Vec<Fault>,
    ty: &TypeRef,
    declarator: &Declarator,
) -> Result<(), AllocError>
    ensures noted { OnOk result (faults.new.items ≡ faults.old.items
        ++ (faults_of_any (scope_of context.entry locals.old) (declarator_tree declarator.now).initial ++ twice_in locals.old.inner (declarator_tree declarator.now).name)) }
    ensures kept { OnOk result (scope_of context.entry locals.new ≡ declare_local (scope_of context.entry locals.old) (type_tree ty.now) (declarator_tree declarator.now).name) }
    ensures around { OnOk result (locals.new.outer ≡ locals.old.outer) }
{
    check_any(context, locals, faults, &declarator.initial)?;
    check_local(locals, faults, &declarator.name)?;
    let local = LocalInfo {
        ty: context.tables.written_type(ty),
        is_param: false,
    };
    locals.declare(context.alloc, declarator.name.text.as_str(), local)
}

// A declaration.
fn check_declaration(
    context: ClassContext<'_, '_>,
    locals: &mut Scopes,
    faults: &mut Vec<Fault>,
    declaration: &Declaration,
) -> Result<(), AllocError>
    ensures noted { OnOk result (faults.new.items ≡ faults.old.items ++ declaration_faults (scope_of context.entry locals.old) (declaration_tree declaration.now)) }
    ensures kept { OnOk result (scope_of context.entry locals.new ≡ declare_all (scope_of context.entry locals.old) (type_tree declaration.now.ty) (map declarator_tree declaration.now.declarators.items)) }
    ensures around { OnOk result (locals.new.outer ≡ locals.old.outer) }
{
    check_type(context.tables, faults, &declaration.ty)?;
    check_declarators(
        context,
        locals,
        faults,
        &declaration.ty,
        &declaration.declarators,
    )
}

fn check_declarators(
    context: ClassContext<'_, '_>,
    locals: &mut Scopes,
    faults: &mut Vec<Fault>,
    ty: &TypeRef,
    declarators: &[Declarator],
) -> Result<(), AllocError>
    ensures noted { OnOk result (faults.new.items ≡ faults.old.items ++ declarators_faults (scope_of context.entry locals.old) (type_tree ty.now) (map declarator_tree declarators.now)) }
    ensures kept { OnOk result (scope_of context.entry locals.new ≡ declare_all (scope_of context.entry locals.old) (type_tree ty.now) (map declarator_tree declarators.now)) }
    ensures around { OnOk result (locals.new.outer ≡ locals.old.outer) }
{
    for declarator in declarators {
        check_declarator(context, locals, faults, ty, declarator)?;
    }
    Ok(())
}

// A statement that may stand in the heading of a `for`.
fn check_simple(
    context: ClassContext<'_, '_>,
    locals: &mut Scopes,
    faults: &mut Vec<Fault>,
    stmt: &Simple,
) -> Result<(), AllocError>
    ensures noted { OnOk result (faults.new.items ≡ faults.old.items ++ simple_faults (scope_of context.entry locals.old) (simple_tree stmt.now)) }
    ensures kept { OnOk result (locals.new ≡ locals.old) }
{
    match stmt {
        Simple::Assign(target, _, value) => {
            check(context, locals, faults, target)?;
            check(context, locals, faults, value)?;
            Ok(())
        }
        Simple::Step(target, _) => {
            check(context, locals, faults, target)?;
            Ok(())
        }
        Simple::Alone(e) => {
            check(context, locals, faults, e)?;
            Ok(())
        }
    }
}

fn check_any_simple(
    context: ClassContext<'_, '_>,
    locals: &mut Scopes,
    faults: &mut Vec<Fault>,
    stmt: &Option<Simple>,
) -> Result<(), AllocError>
    ensures noted { OnOk result (faults.new.items ≡ faults.old.items ++ faults_of_any_simple (scope_of context.entry locals.old) (option_map simple_tree stmt.now)) }
    ensures kept { OnOk result (locals.new ≡ locals.old) }
{
    match stmt {
        Some(stmt) => check_simple(context, locals, faults, stmt),
        None => Ok(()),
    }
}

// What a `for` begins with.
fn check_init(
    context: ClassContext<'_, '_>,
    locals: &mut Scopes,
    faults: &mut Vec<Fault>,
    init: &Option<ForInit>,
) -> Result<(), AllocError>
    ensures noted { OnOk result (faults.new.items ≡ faults.old.items ++ init_faults (scope_of context.entry locals.old) (option_map for_init_tree init.now)) }
    ensures kept { OnOk result (scope_of context.entry locals.new ≡ after_init (scope_of context.entry locals.old) (option_map for_init_tree init.now)) }
    ensures around { OnOk result (locals.new.outer ≡ locals.old.outer) }
{
    match init {
        Some(ForInit::Declare(declaration)) => {
            check_declaration(context, locals, faults, declaration)
        }
        Some(ForInit::Simple(stmt)) => check_simple(context, locals, faults, stmt),
        None => Ok(()),
    }
}

// The test, the step and the invariants of a `for`.
fn check_heading(
    context: ClassContext<'_, '_>,
    locals: &mut Scopes,
    faults: &mut Vec<Fault>,
    test: &Option<Expr>,
    step: &Option<Simple>,
    invariants: &[Expr],
) -> Result<(), AllocError>
    ensures noted { OnOk result (faults.new.items ≡ faults.old.items ++ heading_faults (scope_of context.entry locals.old) (option_map expr_tree test.now) (option_map simple_tree step.now) (map expr_tree invariants.now)) }
    ensures kept { OnOk result (locals.new ≡ locals.old) }
{
    check_any(context, locals, faults, test)?;
    check_any_simple(context, locals, faults, step)?;
    check_all(context, locals, faults, invariants)
}

/// What stands between the parentheses of a `for`.
#[derive(Clone, Copy)]
struct WrittenHeading<'p> {
    first: &'p Option<ForInit>,
    test: &'p Option<Expr>,
    step: &'p Option<Simple>,
}

// What a `for` begins with, and its heading.
fn check_start(
    context: ClassContext<'_, '_>,
    locals: &mut Scopes,
    faults: &mut Vec<Fault>,
    heading: WrittenHeading<'_>,
    invariants: &[Expr],
) -> Result<(), AllocError>
    ensures noted { OnOk result (faults.new.items ≡ faults.old.items ++ (init_faults (scope_of context.entry locals.old) (option_map for_init_tree heading.entry.first.now)
        ++ heading_faults (after_init (scope_of context.entry locals.old) (option_map for_init_tree heading.entry.first.now)) (option_map expr_tree heading.entry.test.now) (option_map simple_tree heading.entry.step.now) (map expr_tree invariants.now))) }
    ensures kept { OnOk result (scope_of context.entry locals.new ≡ after_init (scope_of context.entry locals.old) (option_map for_init_tree heading.entry.first.now)) }
    ensures around { OnOk result (locals.new.outer ≡ locals.old.outer) }
{
    let WrittenHeading { first, test, step } = heading;
    check_init(context, locals, faults, first)?;
    check_heading(context, locals, faults, test, step, invariants)
}

// The class that an `expose` names.
fn check_named_class(
    tables: &Tables<'_>,
    faults: &mut Vec<Fault>,
    name: &Option<Name>,
) -> Result<(), AllocError>
    ensures { OnOk result (faults.new.items ≡ faults.old.items ++ named_class_faults (trees tables.now) (option_map name_tree name.now)) }
{
    match name {
        Some(name) => check_class(tables, faults, name.text.as_str(), name.place),
        None => Ok(()),
    }
}

#[cycle(stmt)]
fn check_stmt(
    context: ClassContext<'_, '_>,
    locals: &mut Scopes,
    faults: &mut Vec<Fault>,
    stmt: &Stmt,
) -> Result<(), AllocError>
    ensures noted { OnOk result (faults.new.items ≡ faults.old.items ++ stmt_faults (scope_of context.entry locals.old) (stmt_tree stmt.now)) }
    ensures kept { OnOk result (scope_of context.entry locals.new ≡ behind (scope_of context.entry locals.old) (stmt_tree stmt.now)) }
    ensures around { OnOk result (locals.new.outer ≡ locals.old.outer) }
{
    match stmt {
        Stmt::Block(block) => check_block(context, locals, faults, block),
        Stmt::Declare(declared) => check_declaration(context, locals, faults, declared),
        Stmt::Simple(stmt) => check_simple(context, locals, faults, stmt),
        Stmt::If(_, test, first, None) => {
            check(context, locals, faults, test)?;
            check_governed(context, locals, faults, first)
        }
        Stmt::If(_, test, first, Some(second)) => {
            check(context, locals, faults, test)?;
            check_governed(context, locals, faults, first)?;
            check_governed(context, locals, faults, second)
        }
        Stmt::While(_, test, invariants, body) => {
            check(context, locals, faults, test)?;
            check_all(context, locals, faults, invariants)?;
            check_governed(context, locals, faults, body)
        }
        Stmt::For {
            first,
            test,
            step,
            invariants,
            body,
            ..
        } => {
            let heading = WrittenHeading { first, test, step };
            check_for(context, locals, faults, body, heading, invariants)
        }
        Stmt::Return(_, e) => check_any(context, locals, faults, e),
        Stmt::Assert(_, e) | Stmt::Assume(_, e) => check_one(context, locals, faults, e),
        Stmt::Expose(_, e, name, block) => {
            check(context, locals, faults, e)?;
            check_named_class(context.tables, faults, name)?;
            check_block(context, locals, faults, block)
        }
        Stmt::Empty(_) => Ok(()),
    }
}

// A `for`, whose heading has a scope of its own.
#[cycle(stmt)]
fn check_for(
    context: ClassContext<'_, '_>,
    locals: &mut Scopes,
    faults: &mut Vec<Fault>,
    body: &Stmt,
    heading: WrittenHeading<'_>,
    invariants: &[Expr],
) -> Result<(), AllocError>
    ensures noted { OnOk result (faults.new.items ≡ faults.old.items ++ (init_faults (enter (scope_of context.entry locals.old)) (option_map for_init_tree heading.entry.first.now)
        ++ heading_faults (after_init (enter (scope_of context.entry locals.old)) (option_map for_init_tree heading.entry.first.now)) (option_map expr_tree heading.entry.test.now) (option_map simple_tree heading.entry.step.now) (map expr_tree invariants.now)
        ++ stmt_faults (enter (after_init (enter (scope_of context.entry locals.old)) (option_map for_init_tree heading.entry.first.now))) (stmt_tree body.now))) }
    ensures kept { OnOk result (locals.new ≡ locals.old) }
{
    locals.enter(context.alloc)?;
    check_start(context, locals, faults, heading, invariants)?;
    check_loop(context, locals, faults, body)?;
    Ok(())
}

// The body of a `for`, at whose end the scope of its heading ends.
#[cycle(stmt)]
fn check_loop(
    context: ClassContext<'_, '_>,
    locals: &mut Scopes,
    faults: &mut Vec<Fault>,
    body: &Stmt,
) -> Result<(), AllocError>
    ensures noted { OnOk result (faults.new.items ≡ faults.old.items ++ stmt_faults (enter (scope_of context.entry locals.old)) (stmt_tree body.now)) }
    ensures closed { OnOk result (locals.new ≡ left locals.old) }
{
    check_governed(context, locals, faults, body)?;
    locals.leave();
    Ok(())
}

// A statement that another one governs, in a scope of its own.
#[cycle(stmt)]
fn check_governed(
    context: ClassContext<'_, '_>,
    locals: &mut Scopes,
    faults: &mut Vec<Fault>,
    stmt: &Stmt,
) -> Result<(), AllocError>
    ensures noted { OnOk result (faults.new.items ≡ faults.old.items ++ stmt_faults (enter (scope_of context.entry locals.old)) (stmt_tree stmt.now)) }
    ensures kept { OnOk result (locals.new ≡ locals.old) }
{
    locals.enter(context.alloc)?;
    check_stmt(context, locals, faults, stmt)?;
    locals.leave();
    Ok(())
}

/// A block, which has a scope of its own.
#[cycle(stmt)]
pub fn check_block(
    context: ClassContext<'_, '_>,
    locals: &mut Scopes,
    faults: &mut Vec<Fault>,
    block: &Block,
) -> Result<(), AllocError>
    ensures noted { OnOk result (faults.new.items ≡ faults.old.items ++ block_faults (scope_of context.entry locals.old) (block_tree block.now)) }
    ensures kept { OnOk result (locals.new ≡ locals.old) }
{
    locals.enter(context.alloc)?;
    check_stmts(context, locals, faults, &block.statements)?;
    locals.leave();
    Ok(())
}

#[cycle(stmt)]
fn check_stmts(
    context: ClassContext<'_, '_>,
    locals: &mut Scopes,
    faults: &mut Vec<Fault>,
    stmts: &[Stmt],
) -> Result<(), AllocError>
    ensures noted { OnOk result (faults.new.items ≡ faults.old.items ++ stmts_faults (scope_of context.entry locals.old) (stmt_trees (map stmt_tree stmts.now))) }
    ensures around { OnOk result (locals.new.outer ≡ locals.old.outer) }
{
    for stmt in stmts {
        check_stmt(context, locals, faults, stmt)?;
    }
    Ok(())
}
