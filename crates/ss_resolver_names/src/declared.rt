// The locals that a body declares.

ghost use Rattle.std.specs.Prelude.{◌≡◌, map, IfOk, option_map};
ghost use Rattle.ss_ast.specs.Statements.{for_init_tree, block_tree, stmt_tree, stmt_trees};
ghost use Rattle.ss_resolver_names_rules.specs.Locals.{init_locals, stmt_locals, block_locals, stmts_locals};

use ss_ast::{Block, ForInit, Stmt};
use ss_resolver_scoping::plus;
use std::alloc::AllocError;

fn init_locals(init: &Option<ForInit>) -> usize
    ensures { result ≡ init_locals (option_map for_init_tree init.now) }
{
    match init {
        Some(ForInit::Declare(declaration)) => declaration.declarators.len(),
        Some(ForInit::Simple(_)) | None => 0,
    }
}

#[cycle(locals)]
fn stmt_locals(stmt: &Stmt) -> Result<usize, AllocError>
    ensures { IfOk result (λ n. n ≡ stmt_locals (stmt_tree stmt.now)) }
{
    match stmt {
        Stmt::Block(block) => block_locals(block),
        Stmt::Declare(declaration) => Ok(declaration.declarators.len()),
        Stmt::If(_, _, first, None) => stmt_locals(first),
        Stmt::If(_, _, first, Some(second)) => plus(stmt_locals(first)?, stmt_locals(second)?),
        Stmt::While(_, _, _, body) => stmt_locals(body),
        Stmt::For { first, body, .. } => plus(init_locals(first), stmt_locals(body)?),
        Stmt::Expose(_, _, _, block) => block_locals(block),
        Stmt::Simple(_) | Stmt::Return(..) | Stmt::Assert(..) | Stmt::Assume(..) | Stmt::Empty(_) =>
            Ok(0),
    }
}

/// The locals that a block declares.
#[cycle(locals)]
pub fn block_locals(block: &Block) -> Result<usize, AllocError>
    ensures { IfOk result (λ n. n ≡ block_locals (block_tree block.now)) }
{
    stmts_locals(&block.statements)
}

#[cycle(locals)]
fn stmts_locals(stmts: &[Stmt]) -> Result<usize, AllocError>
    ensures { IfOk result (λ n. n ≡ stmts_locals (stmt_trees (map stmt_tree stmts.now))) }
{
    let mut total = 0;
    for stmt in stmts {
        total = plus(total, stmt_locals(stmt)?)?;
    }
    Ok(total)
}
