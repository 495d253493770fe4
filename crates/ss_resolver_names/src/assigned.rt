// The parameters that a body assigns.

ghost use Rattle.std.specs.Prelude.{◌≡◌, map, OnOk, option_map};
ghost use Rattle.ss_ast.specs.Expressions.{expr_tree};
ghost use Rattle.ss_ast.specs.Statements.{simple_tree, for_init_tree, block_tree, stmt_tree, stmt_trees};
ghost use Rattle.ss_tables.specs.Scopes.{enter, behind, after_init};
ghost use Rattle.ss_tables.specs.Named.{left};
ghost use Rattle.ss_tables_scopes.specs.Views.{scope_of};
ghost use Rattle.ss_resolver_names_rules.specs.Locals.{if_param, target_param, simple_params, init_params, step_params, stmt_params, block_params, stmts_params};
ghost use Rattle.ss_resolver_scoping.specs.Views.{names_of};

use indexmap::IndexSet;
use ss_ast::{Block, Expr, ForInit, Simple, Stmt};
use ss_resolver_scoping::{bare_name, note_name};
use ss_tables_scopes::{
    ClassContext, LocalInfo, Scopes, declare_declaration, declare_init, is_parameter,
};
use std::alloc::{AllocError, Global};

// Notes the name of a local that is a parameter.
fn note_if_param(
    alloc: Global,
    names: &mut IndexSet<String>,
    name: &str,
    local: Option<LocalInfo>,
) -> Result<(), AllocError>
    ensures { OnOk result (names_of names.new.keys ≡ if_param (names_of names.old.keys) name.now local) }
{
    match local {
        Some(local) => {
            if is_parameter(local) {
                return note_name(alloc, names, name);
            }
            Ok(())
        }
        None => Ok(()),
    }
}

// Notes a parameter that is assigned.
fn note_target(
    context: ClassContext<'_, '_>,
    locals: &Scopes,
    names: &mut IndexSet<String>,
    target: &Expr,
) -> Result<(), AllocError>
    ensures { OnOk result (names_of names.new.keys ≡ target_param (scope_of context.entry locals.now) (names_of names.old.keys) (expr_tree target.now)) }
{
    match bare_name(target) {
        Some(name) => {
            let text = name.as_str();
            let local = locals.find(text);
            note_if_param(context.alloc, names, text, local)
        }
        None => Ok(()),
    }
}

fn note_simple(
    context: ClassContext<'_, '_>,
    locals: &Scopes,
    names: &mut IndexSet<String>,
    stmt: &Simple,
) -> Result<(), AllocError>
    ensures { OnOk result (names_of names.new.keys ≡ simple_params (scope_of context.entry locals.now) (names_of names.old.keys) (simple_tree stmt.now)) }
{
    match stmt {
        Simple::Assign(target, _, _) => note_target(context, locals, names, target),
        Simple::Step(target, _) => note_target(context, locals, names, target),
        Simple::Alone(_) => Ok(()),
    }
}

fn note_init(
    context: ClassContext<'_, '_>,
    locals: &Scopes,
    names: &mut IndexSet<String>,
    init: &Option<ForInit>,
) -> Result<(), AllocError>
    ensures { OnOk result (names_of names.new.keys ≡ init_params (scope_of context.entry locals.now) (names_of names.old.keys) (option_map for_init_tree init.now)) }
{
    match init {
        Some(ForInit::Simple(stmt)) => note_simple(context, locals, names, stmt),
        Some(ForInit::Declare(_)) | None => Ok(()),
    }
}

fn note_step(
    context: ClassContext<'_, '_>,
    locals: &Scopes,
    names: &mut IndexSet<String>,
    step: &Option<Simple>,
) -> Result<(), AllocError>
    ensures { OnOk result (names_of names.new.keys ≡ step_params (scope_of context.entry locals.now) (names_of names.old.keys) (option_map simple_tree step.now)) }
{
    match step {
        Some(stmt) => note_simple(context, locals, names, stmt),
        None => Ok(()),
    }
}

// What a `for` begins with, and its step.
fn note_heading(
    context: ClassContext<'_, '_>,
    locals: &mut Scopes,
    names: &mut IndexSet<String>,
    init: &Option<ForInit>,
    step: &Option<Simple>,
) -> Result<(), AllocError>
    ensures named { OnOk result (names_of names.new.keys
        ≡ step_params (after_init (scope_of context.entry locals.old) (option_map for_init_tree init.now)) (init_params (scope_of context.entry locals.old) (names_of names.old.keys) (option_map for_init_tree init.now)) (option_map simple_tree step.now)) }
    ensures declared { OnOk result (scope_of context.entry locals.new ≡ after_init (scope_of context.entry locals.old) (option_map for_init_tree init.now)) }
    ensures around { OnOk result (locals.new.outer ≡ locals.old.outer) }
{
    note_init(context, locals, names, init)?;
    declare_init(context, locals, init)?;
    note_step(context, locals, names, step)
}

// Notes the parameters that a statement assigns.
#[cycle(assigned)]
fn note_stmt(
    context: ClassContext<'_, '_>,
    locals: &mut Scopes,
    names: &mut IndexSet<String>,
    stmt: &Stmt,
) -> Result<(), AllocError>
    ensures named { OnOk result (names_of names.new.keys ≡ stmt_params (scope_of context.entry locals.old) (names_of names.old.keys) (stmt_tree stmt.now)) }
    ensures declared { OnOk result (scope_of context.entry locals.new ≡ behind (scope_of context.entry locals.old) (stmt_tree stmt.now)) }
    ensures around { OnOk result (locals.new.outer ≡ locals.old.outer) }
{
    match stmt {
        Stmt::Block(block) => note_block(context, locals, names, block),
        Stmt::Declare(declaration) => declare_declaration(context, locals, declaration),
        Stmt::Simple(stmt) => note_simple(context, locals, names, stmt),
        Stmt::If(_, _, first, None) => note_governed(context, locals, names, first),
        Stmt::If(_, _, first, Some(second)) => {
            note_governed(context, locals, names, first)?;
            note_governed(context, locals, names, second)
        }
        Stmt::While(_, _, _, body) => note_governed(context, locals, names, body),
        Stmt::For {
            first,
            step,
            body,
            ..
        } => {
            locals.enter(context.alloc)?;
            note_heading(context, locals, names, first, step)?;
            note_loop(context, locals, names, body)
        }
        Stmt::Expose(_, _, _, block) => note_block(context, locals, names, block),
        Stmt::Return(..) | Stmt::Assert(..) | Stmt::Assume(..) | Stmt::Empty(_) => Ok(()),
    }
}

// .. and the body of a `for`, at whose end the scope of its heading ends.
#[cycle(assigned)]
fn note_loop(
    context: ClassContext<'_, '_>,
    locals: &mut Scopes,
    names: &mut IndexSet<String>,
    body: &Stmt,
) -> Result<(), AllocError>
    ensures named { OnOk result (names_of names.new.keys ≡ stmt_params (enter (scope_of context.entry locals.old)) (names_of names.old.keys) (stmt_tree body.now)) }
    ensures closed { OnOk result (locals.new ≡ left locals.old) }
{
    note_governed(context, locals, names, body)?;
    locals.leave();
    Ok(())
}

// .. and a statement that another one governs, in a scope of its own.
#[cycle(assigned)]
fn note_governed(
    context: ClassContext<'_, '_>,
    locals: &mut Scopes,
    names: &mut IndexSet<String>,
    stmt: &Stmt,
) -> Result<(), AllocError>
    ensures named { OnOk result (names_of names.new.keys ≡ stmt_params (enter (scope_of context.entry locals.old)) (names_of names.old.keys) (stmt_tree stmt.now)) }
    ensures kept { OnOk result (locals.new ≡ locals.old) }
{
    locals.enter(context.alloc)?;
    note_stmt(context, locals, names, stmt)?;
    locals.leave();
    Ok(())
}

/// Notes the parameters that a block assigns.
#[cycle(assigned)]
pub fn note_block(
    context: ClassContext<'_, '_>,
    locals: &mut Scopes,
    names: &mut IndexSet<String>,
    block: &Block,
) -> Result<(), AllocError>
    ensures named { OnOk result (names_of names.new.keys ≡ block_params (scope_of context.entry locals.old) (names_of names.old.keys) (block_tree block.now)) }
    ensures kept { OnOk result (locals.new ≡ locals.old) }
{
    locals.enter(context.alloc)?;
    note_stmts(context, locals, names, &block.statements)?;
    locals.leave();
    Ok(())
}

#[cycle(assigned)]
fn note_stmts(
    context: ClassContext<'_, '_>,
    locals: &mut Scopes,
    names: &mut IndexSet<String>,
    stmts: &[Stmt],
) -> Result<(), AllocError>
    ensures named { OnOk result (names_of names.new.keys ≡ stmts_params (scope_of context.entry locals.old) (names_of names.old.keys) (stmt_trees (map stmt_tree stmts.now))) }
    ensures around { OnOk result (locals.new.outer ≡ locals.old.outer) }
{
    for stmt in stmts {
        note_stmt(context, locals, names, stmt)?;
    }
    Ok(())
}
