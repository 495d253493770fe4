// Statements.

ghost use Rattle.std.specs.Prelude.{◌≡◌, IfOk, OnOk, map, option_map};
ghost use Rattle.ss_ast.specs.Expressions.{name_tree, expr_tree};
ghost use Rattle.ss_ast.specs.Statements.{InBlock, DeclareOf, SimpleOf, IfOf, WhileOf, ForOf, ReturnOf, AssertOf, AssumeOf, ExposeOf, simple_tree, declaration_tree, for_init_tree, block_tree, stmt_tree};
ghost use Rattle.ss_tables_lookup.specs.Classes.{trees};
ghost use Rattle.ss_typed.specs.View as view;
ghost use Rattle.ss_resolver_rules.specs.Names.{enter};
ghost use Rattle.ss_resolver_rules.specs.Expressions.{expr};
ghost use Rattle.ss_resolver_rules.specs.Statements.{declared_in, declared_in_block, past, behind, behind_first};
ghost use Rattle.ss_resolver_rules.specs.Statements as resolved;
ghost use Rattle.ss_resolver_tables.specs.Limits.{HasFewClasses};
ghost use Rattle.ss_resolver_expressions.specs.Environments.{env_of};
ghost use Rattle.ss_resolver_statements.specs.Behind.{behind_all, each_stmt, class_at};
ghost use Rattle.ss_resolver_statements.specs.Boxes as boxes;

use crate::built::{
    Guarded, Heading, add_stmt, assert_of, assume_of, block_of, declare_of, empty_of, expose_of,
    for_of, if_else_of, if_of, in_block, return_of, simple_of, while_of,
};
use crate::decls::{resolve_declaration, resolve_option};
use crate::simples::{resolve_first, resolve_simple, resolve_step};
use ss_ast::{Block, Declaration, Expr, ForInit, Name, Simple, Stmt};
use ss_core::{ClassId, Place};
use ss_resolver_expressions::{LocalNames, ResolutionContext, resolve_boxed, resolve_values};
use ss_resolver_tables::class_id;
use ss_tables_lookup::Tables;
use ss_typed::{TypedBlock, TypedStmt};
use std::alloc::AllocError;

// The class after `at`.
fn class_at(tables: &Tables<'_>, name: &Option<Name>) -> Option<ClassId>
    requires { HasFewClasses (trees tables.now) }
    ensures { option_map (λ t. t.0) result ≡ class_at (trees tables.now) (option_map name_tree name.now) }
{
    match name {
        Some(name) => Some(class_id(tables, name.text.as_str())),
        None => None,
    }
}

// A declaration.
fn resolve_declare<'p>(
    context: &ResolutionContext<'_, 'p>,
    names: &mut LocalNames,
    declaration: &'p Declaration,
) -> Result<Box<TypedStmt>, AllocError>
    ensures tree { IfOk result (λ r. view.stmt_of r.value ≡ resolved.stmt (env_of context.now names.old) (DeclareOf (declaration_tree declaration.now))) }
    ensures behind { OnOk result (env_of context.now names.new ≡ behind (env_of context.now names.old) (DeclareOf (declaration_tree declaration.now))) }
{
    let list = resolve_declaration(context, names, declaration)?;
    let whole = declare_of(context.within.alloc, list)?;
    Ok(whole)
}

// A simple statement alone.
fn resolve_line<'p>(
    context: &ResolutionContext<'_, 'p>,
    names: &mut LocalNames,
    simple: &'p Simple,
) -> Result<Box<TypedStmt>, AllocError>
    ensures tree { IfOk result (λ r. view.stmt_of r.value ≡ resolved.stmt (env_of context.now names.old) (SimpleOf (simple_tree simple.now))) }
    ensures kept { OnOk result (names.new ≡ names.old) }
{
    let simple = resolve_simple(context, names, simple)?;
    let whole = simple_of(context.within.alloc, simple)?;
    Ok(whole)
}

fn resolve_return<'p>(
    context: &ResolutionContext<'_, 'p>,
    names: &mut LocalNames,
    place: Place,
    value: &'p Option<Expr>,
) -> Result<Box<TypedStmt>, AllocError>
    ensures tree { IfOk result (λ r. view.stmt_of r.value ≡ resolved.stmt (env_of context.now names.old) (ReturnOf place (option_map expr_tree value.now))) }
    ensures kept { OnOk result (names.new ≡ names.old) }
{
    let value = resolve_option(context, names, value)?;
    let whole = return_of(context.within.alloc, place, value)?;
    Ok(whole)
}

fn resolve_assert<'p>(
    context: &ResolutionContext<'_, 'p>,
    names: &mut LocalNames,
    place: Place,
    condition: &'p Expr,
) -> Result<Box<TypedStmt>, AllocError>
    ensures tree { IfOk result (λ r. view.stmt_of r.value ≡ resolved.stmt (env_of context.now names.old) (AssertOf place (expr_tree condition.now))) }
    ensures kept { OnOk result (names.new ≡ names.old) }
{
    let condition = resolve_boxed(context, names, condition)?;
    let whole = assert_of(context.within.alloc, place, condition)?;
    Ok(whole)
}

fn resolve_assume<'p>(
    context: &ResolutionContext<'_, 'p>,
    names: &mut LocalNames,
    place: Place,
    condition: &'p Expr,
) -> Result<Box<TypedStmt>, AllocError>
    ensures tree { IfOk result (λ r. view.stmt_of r.value ≡ resolved.stmt (env_of context.now names.old) (AssumeOf place (expr_tree condition.now))) }
    ensures kept { OnOk result (names.new ≡ names.old) }
{
    let condition = resolve_boxed(context, names, condition)?;
    let whole = assume_of(context.within.alloc, place, condition)?;
    Ok(whole)
}

/// What stands between the parentheses of a `for`.
#[derive(Clone, Copy)]
struct WrittenHeading<'p> {
    first: &'p Option<ForInit>,
    test: &'p Option<Expr>,
    step: &'p Option<Simple>,
}

// The heading of a `for`, after which its names are in scope.
fn resolve_heading<'p>(
    context: &ResolutionContext<'_, 'p>,
    names: &mut LocalNames,
    first: &'p Option<ForInit>,
    test: &'p Option<Expr>,
    step: &'p Option<Simple>,
) -> Result<Heading, AllocError>
    ensures first { IfOk result (λ h. boxes.init_of h.first ≡ resolved.first (env_of context.now names.old) (option_map for_init_tree first.now)) }
    ensures test { IfOk result (λ h. boxes.value_of h.test ≡ option_map (expr (behind_first (env_of context.now names.old) (option_map for_init_tree first.now))) (option_map expr_tree test.now)) }
    ensures step { IfOk result (λ h. boxes.step_of h.step ≡ option_map (resolved.simple (behind_first (env_of context.now names.old) (option_map for_init_tree first.now))) (option_map simple_tree step.now)) }
    ensures behind { OnOk result (env_of context.now names.new ≡ behind_first (env_of context.now names.old) (option_map for_init_tree first.now)) }
{
    let first = resolve_first(context, names, first)?;
    let test = resolve_option(context, names, test)?;
    let step = resolve_step(context, names, step)?;
    Ok(Heading { first, test, step })
}

/// A block, which has a scope of its own.
#[cycle(stmt)]
pub fn resolve_block<'p>(
    context: &ResolutionContext<'_, 'p>,
    names: &mut LocalNames,
    block: &'p Block,
) -> Result<TypedBlock, AllocError>
    ensures tree { IfOk result (λ b. view.block b ≡ resolved.block (env_of context.now names.old) (block_tree block.now)) }
    ensures behind { OnOk result (env_of context.now names.new ≡ past (env_of context.now names.old) (declared_in_block (block_tree block.now))) }
{
    names.enter(context.within.alloc)?;
    let statements = resolve_stmts(context, names, &block.statements)?;
    names.leave();
    Ok(block_of(block.place, statements, block.end))
}

#[cycle(stmt)]
fn resolve_stmts<'p>(
    context: &ResolutionContext<'_, 'p>,
    names: &mut LocalNames,
    stmts: &'p [Stmt],
) -> Result<Vec<TypedStmt>, AllocError>
    ensures trees { IfOk result (λ v. map view.stmt_of v.items ≡ each_stmt (env_of context.now names.old) (map stmt_tree stmts.now)) }
    ensures behind { OnOk result (env_of context.now names.new ≡ behind_all (env_of context.now names.old) (map stmt_tree stmts.now)) }
{
    let mut list = Vec::new(context.within.alloc);
    for stmt in stmts {
        let stmt = resolve_stmt(context, names, stmt)?;
        add_stmt(&mut list, stmt)?;
    }
    Ok(list)
}

// A block as a statement.
#[cycle(stmt)]
fn resolve_inner<'p>(
    context: &ResolutionContext<'_, 'p>,
    names: &mut LocalNames,
    block: &'p Block,
) -> Result<Box<TypedStmt>, AllocError>
    ensures tree { IfOk result (λ r. view.stmt_of r.value ≡ resolved.stmt (env_of context.now names.old) (InBlock (block_tree block.now))) }
    ensures behind { OnOk result (env_of context.now names.new ≡ past (env_of context.now names.old) (declared_in_block (block_tree block.now))) }
{
    let block = resolve_block(context, names, block)?;
    let whole = in_block(context.within.alloc, block)?;
    Ok(whole)
}

// A governed statement, which has a scope of its own.
#[cycle(stmt)]
fn resolve_governed<'p>(
    context: &ResolutionContext<'_, 'p>,
    names: &mut LocalNames,
    stmt: &'p Stmt,
) -> Result<Box<TypedStmt>, AllocError>
    ensures tree { IfOk result (λ b. view.stmt_of b.value ≡ resolved.stmt (enter (env_of context.now names.old)) (stmt_tree stmt.now)) }
    ensures behind { OnOk result (env_of context.now names.new ≡ past (env_of context.now names.old) (declared_in (stmt_tree stmt.now))) }
{
    names.enter(context.within.alloc)?;
    let resolved = resolve_stmt(context, names, stmt)?;
    names.leave();
    Ok(resolved)
}

// The invariants and the body of a loop.
#[cycle(stmt)]
fn resolve_guarded<'p>(
    context: &ResolutionContext<'_, 'p>,
    names: &mut LocalNames,
    body: &'p Stmt,
    invariants: &'p [Expr],
) -> Result<Guarded, AllocError>
    ensures invariants { IfOk result (λ g. view.exprs g.invariants.items ≡ map (expr (env_of context.now names.old)) (map expr_tree invariants.now)) }
    ensures body { IfOk result (λ g. view.stmt_of g.body.value ≡ resolved.stmt (enter (env_of context.now names.old)) (stmt_tree body.now)) }
    ensures behind { OnOk result (env_of context.now names.new ≡ past (env_of context.now names.old) (declared_in (stmt_tree body.now))) }
{
    let invariants = resolve_values(context, names, invariants)?;
    let body = resolve_governed(context, names, body)?;
    Ok(Guarded { invariants, body })
}

#[cycle(stmt)]
fn resolve_if<'p>(
    context: &ResolutionContext<'_, 'p>,
    names: &mut LocalNames,
    body: &'p Stmt,
    place: Place,
    test: &'p Expr,
) -> Result<Box<TypedStmt>, AllocError>
    ensures tree { IfOk result (λ r. view.stmt_of r.value ≡ resolved.stmt (env_of context.now names.old) (IfOf place (expr_tree test.now) (stmt_tree body.now))) }
    ensures behind { OnOk result (env_of context.now names.new ≡ past (env_of context.now names.old) (declared_in (stmt_tree body.now))) }
{
    let test = resolve_boxed(context, names, test)?;
    let body = resolve_governed(context, names, body)?;
    let whole = if_of(context.within.alloc, place, test, body)?;
    Ok(whole)
}

#[cycle(stmt)]
fn resolve_while<'p>(
    context: &ResolutionContext<'_, 'p>,
    names: &mut LocalNames,
    body: &'p Stmt,
    place: Place,
    test: &'p Expr,
    invariants: &'p [Expr],
) -> Result<Box<TypedStmt>, AllocError>
    ensures tree { IfOk result (λ r. view.stmt_of r.value ≡ resolved.stmt (env_of context.now names.old) (WhileOf place (expr_tree test.now) (map expr_tree invariants.now) (stmt_tree body.now))) }
    ensures behind { OnOk result (env_of context.now names.new ≡ past (env_of context.now names.old) (declared_in (stmt_tree body.now))) }
{
    let test = resolve_boxed(context, names, test)?;
    let guarded = resolve_guarded(context, names, body, invariants)?;
    let whole = while_of(context.within.alloc, place, test, guarded)?;
    Ok(whole)
}

// A `for`, whose heading has a scope of its own.
#[cycle(stmt)]
fn resolve_for<'p>(
    context: &ResolutionContext<'_, 'p>,
    names: &mut LocalNames,
    body: &'p Stmt,
    place: Place,
    written: WrittenHeading<'p>,
    invariants: &'p [Expr],
) -> Result<Box<TypedStmt>, AllocError>
    ensures tree { IfOk result (λ r. view.stmt_of r.value ≡ resolved.stmt (env_of context.now names.old)
        (ForOf place (option_map for_init_tree written.entry.first.now) (option_map expr_tree written.entry.test.now) (option_map simple_tree written.entry.step.now) (map expr_tree invariants.now) (stmt_tree body.now))) }
    ensures behind { OnOk result (env_of context.now names.new ≡ behind (env_of context.now names.old)
        (ForOf place (option_map for_init_tree written.entry.first.now) (option_map expr_tree written.entry.test.now) (option_map simple_tree written.entry.step.now) (map expr_tree invariants.now) (stmt_tree body.now))) }
{
    names.enter(context.within.alloc)?;
    let heading = resolve_heading(context, names, written.first, written.test, written.step)?;
    let guarded = resolve_guarded(context, names, body, invariants)?;
    names.leave();
    let whole = for_of(context.within.alloc, place, heading, guarded)?;
    Ok(whole)
}

#[cycle(stmt)]
fn resolve_expose<'p>(
    context: &ResolutionContext<'_, 'p>,
    names: &mut LocalNames,
    block: &'p Block,
    place: Place,
    object: &'p Expr,
    class: &'p Option<Name>,
) -> Result<Box<TypedStmt>, AllocError>
    ensures tree { IfOk result (λ r. view.stmt_of r.value ≡ resolved.stmt (env_of context.now names.old) (ExposeOf place (expr_tree object.now) (option_map name_tree class.now) (block_tree block.now))) }
    ensures behind { OnOk result (env_of context.now names.new ≡ past (env_of context.now names.old) (declared_in_block (block_tree block.now))) }
{
    let object = resolve_boxed(context, names, object)?;
    let class = class_at(context.within.tables, class);
    let block = resolve_block(context, names, block)?;
    let whole = expose_of(context.within.alloc, place, object, class, block)?;
    Ok(whole)
}

/// A statement; a declaration alone leaves its names in scope.
#[cycle(stmt)]
fn resolve_stmt<'p>(
    context: &ResolutionContext<'_, 'p>,
    names: &mut LocalNames,
    stmt: &'p Stmt,
) -> Result<Box<TypedStmt>, AllocError>
    ensures tree { IfOk result (λ r. view.stmt_of r.value ≡ resolved.stmt (env_of context.now names.old) (stmt_tree stmt.now)) }
    ensures behind { OnOk result (env_of context.now names.new ≡ behind (env_of context.now names.old) (stmt_tree stmt.now)) }
{
    match stmt {
        Stmt::Block(block) => resolve_inner(context, names, block),
        Stmt::Declare(declaration) => resolve_declare(context, names, declaration),
        Stmt::Simple(simple) => resolve_line(context, names, simple),
        Stmt::If(place, test, body, None) => { resolve_if(context, names, body, *place, test) }
        Stmt::If(place, test, body, Some(otherwise)) => {
            let test = resolve_boxed(context, names, test)?;
            let body = resolve_governed(context, names, body)?;
            let otherwise = resolve_governed(context, names, otherwise)?;
            let whole = if_else_of(context.within.alloc, *place, test, body, otherwise)?;
            Ok(whole)
        }
        Stmt::While(place, test, invariants, body) => {
            resolve_while(context, names, body, *place, test, invariants)
        }
        Stmt::For {
            place,
            first,
            test,
            step,
            invariants,
            body,
        } => {
            let written = WrittenHeading { first, test, step };
            resolve_for(context, names, body, *place, written, invariants)
        }
        Stmt::Return(place, value) => resolve_return(context, names, *place, value),
        Stmt::Assert(place, condition) => { resolve_assert(context, names, *place, condition) }
        Stmt::Assume(place, condition) => { resolve_assume(context, names, *place, condition) }
        Stmt::Expose(place, object, class, block) => {
            resolve_expose(context, names, block, *place, object, class)
        }
        Stmt::Empty(place) => empty_of(context.within.alloc, *place),
    }
}
