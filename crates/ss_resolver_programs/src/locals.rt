// The locals that a body declares, in order.

ghost use Rattle.std.specs.Prelude.{◌≡◌, ◌++◌, ◌∷◌, [], OnOk, IfOk, map, option_map};
ghost use Rattle.ss_ast.specs.Expressions.{name_tree, type_tree};
ghost use Rattle.ss_ast.specs.Statements.{declarator_tree, declaration_tree, for_init_tree, block_tree, stmt_tree, stmt_trees};
ghost use Rattle.ss_core.specs.View.{local_of};
ghost use Rattle.ss_tables_lookup.specs.Classes.{trees};
ghost use Rattle.ss_resolver_rules.specs.Statements.{declared_by, declared_first, declared_in_block, declared_in, declared_in_all};
ghost use Rattle.ss_resolver_tables.specs.Limits.{HasFewClasses};
ghost use Rattle.ss_resolver_programs.specs.Locals.{local_in, locals_in, locals_named};

use ss_ast::{Block, Declaration, Declarator, ForInit, Name, Stmt, TypeRef};
use ss_core::Local;
use ss_resolver_tables::type_id;
use ss_tables_lookup::Tables;
use std::alloc::{AllocError, Global};

fn list_local(
    alloc: Global,
    tables: &Tables<'_>,
    locals: &mut Vec<Local>,
    ty: &TypeRef,
    name: &Name,
) -> Result<(), AllocError>
    requires { HasFewClasses (trees tables.now) }
    ensures { OnOk result (map local_of locals.new.items ≡ map local_of locals.old.items ++ local_in (trees tables.now) (record { name = name_tree name.now; ty = type_tree ty.now }) ∷ []) }
{
    let name = String::from_str(alloc, name.text.as_str())?;
    locals.push(Local {
        name,
        ty: type_id(tables, ty),
        captured: false,
    })?;
    Ok(())
}

fn list_declarators(
    alloc: Global,
    tables: &Tables<'_>,
    locals: &mut Vec<Local>,
    ty: &TypeRef,
    declarators: &[Declarator],
) -> Result<(), AllocError>
    requires { HasFewClasses (trees tables.now) }
    ensures { OnOk result (map local_of locals.new.items ≡ map local_of locals.old.items ++ locals_named (trees tables.now) (type_tree ty.now) (map declarator_tree declarators.now)) }
{
    for declarator in declarators {
        list_local(alloc, tables, locals, ty, &declarator.name)?;
    }
    Ok(())
}

fn list_declared(
    alloc: Global,
    tables: &Tables<'_>,
    locals: &mut Vec<Local>,
    declaration: &Declaration,
) -> Result<(), AllocError>
    requires { HasFewClasses (trees tables.now) }
    ensures { OnOk result (map local_of locals.new.items ≡ map local_of locals.old.items ++ locals_in (trees tables.now) (declared_by (declaration_tree declaration.now))) }
{
    list_declarators(
        alloc,
        tables,
        locals,
        &declaration.ty,
        &declaration.declarators,
    )
}

fn list_first(
    alloc: Global,
    tables: &Tables<'_>,
    locals: &mut Vec<Local>,
    first: &Option<ForInit>,
) -> Result<(), AllocError>
    requires { HasFewClasses (trees tables.now) }
    ensures { OnOk result (map local_of locals.new.items ≡ map local_of locals.old.items ++ locals_in (trees tables.now) (declared_first (option_map for_init_tree first.now))) }
{
    match first {
        Some(ForInit::Declare(declaration)) => list_declared(alloc, tables, locals, declaration),
        Some(ForInit::Simple(_)) | None => Ok(()),
    }
}

#[cycle(listed)]
fn list_block(
    alloc: Global,
    tables: &Tables<'_>,
    locals: &mut Vec<Local>,
    block: &Block,
) -> Result<(), AllocError>
    requires { HasFewClasses (trees tables.now) }
    ensures { OnOk result (map local_of locals.new.items ≡ map local_of locals.old.items ++ locals_in (trees tables.now) (declared_in_block (block_tree block.now))) }
{
    list_stmts(alloc, tables, locals, &block.statements)
}

#[cycle(listed)]
fn list_stmts(
    alloc: Global,
    tables: &Tables<'_>,
    locals: &mut Vec<Local>,
    stmts: &[Stmt],
) -> Result<(), AllocError>
    requires { HasFewClasses (trees tables.now) }
    ensures { OnOk result (map local_of locals.new.items ≡ map local_of locals.old.items ++ locals_in (trees tables.now) (declared_in_all (stmt_trees (map stmt_tree stmts.now)))) }
{
    for stmt in stmts {
        list_stmt(alloc, tables, locals, stmt)?;
    }
    Ok(())
}

#[cycle(listed)]
fn list_stmt(
    alloc: Global,
    tables: &Tables<'_>,
    locals: &mut Vec<Local>,
    stmt: &Stmt,
) -> Result<(), AllocError>
    requires { HasFewClasses (trees tables.now) }
    ensures { OnOk result (map local_of locals.new.items ≡ map local_of locals.old.items ++ locals_in (trees tables.now) (declared_in (stmt_tree stmt.now))) }
{
    match stmt {
        Stmt::Block(block) => list_block(alloc, tables, locals, block),
        Stmt::Declare(declaration) => list_declared(alloc, tables, locals, declaration),
        Stmt::If(_, _, then, None) => list_stmt(alloc, tables, locals, then),
        Stmt::If(_, _, then, Some(otherwise)) => {
            list_stmt(alloc, tables, locals, then)?;
            list_stmt(alloc, tables, locals, otherwise)
        }
        Stmt::While(_, _, _, body) => list_stmt(alloc, tables, locals, body),
        Stmt::For { first, body, .. } => {
            list_first(alloc, tables, locals, first)?;
            list_stmt(alloc, tables, locals, body)
        }
        Stmt::Expose(_, _, _, block) => list_block(alloc, tables, locals, block),
        Stmt::Simple(_) | Stmt::Return(..) | Stmt::Assert(..) | Stmt::Assume(..) | Stmt::Empty(_) =>
            { Ok(()) }
    }
}

/// The locals that a block declares, in order.
pub(crate) fn list_locals(
    alloc: Global,
    tables: &Tables<'_>,
    block: &Block,
) -> Result<Vec<Local>, AllocError>
    requires { HasFewClasses (trees tables.now) }
    ensures { IfOk result (λ v. map local_of v.items ≡ locals_in (trees tables.now) (declared_in_block (block_tree block.now))) }
{
    let mut locals = Vec::new(alloc);
    list_block(alloc, tables, &mut locals, block)?;
    Ok(locals)
}
