// Whether the end of a statement can be reached.

ghost use Rattle.std.specs.Prelude.{◌≡◌, map, option_map};
ghost use Rattle.ss_typed.specs.Tree.{stmt_trees};
ghost use Rattle.ss_typed.specs.View as typed;
ghost use Rattle.ss_expand_rules.specs.Ends as ends;

use ss_typed::{TypedBlock, TypedExpr, TypedStmt, is_true};

// Whether a test is one that always holds, as one that isn't written does.
fn is_always(test: &Option<TypedExpr>) -> bool
    ensures { result ≡ ends.is_always (option_map typed.expr test.now) }
{
    match test {
        Some(e) => is_true(e),
        None => true,
    }
}

/// Whether the end of the statement can be reached.
#[cycle(ends)]
pub fn can_end(stmt: &TypedStmt) -> bool
    ensures { result ≡ ends.can_end (typed.stmt_of stmt.now) }
{
    match stmt {
        TypedStmt::Block(block) => block_can_end(block),
        TypedStmt::If(_, _, first, Some(second)) => can_end(first) || can_end(second),
        TypedStmt::While(_, e, _, _) => !is_true(e),
        TypedStmt::For { test, .. } => !is_always(test),
        TypedStmt::Return(..) => false,
        TypedStmt::Expose(_, _, _, block) => block_can_end(block),
        TypedStmt::Declare(..)
        | TypedStmt::Simple(..)
        | TypedStmt::If(_, _, _, None)
        | TypedStmt::Assert(..)
        | TypedStmt::Assume(..)
        | TypedStmt::Empty(..) => true,
    }
}

/// Whether the end of the block can be reached.
#[cycle(ends)]
pub fn block_can_end(block: &TypedBlock) -> bool
    ensures { result ≡ ends.block_can_end (typed.block block.now) }
{
    all_can_end(&block.statements)
}

// Whether each of the statements has an end that can be reached.
#[cycle(ends)]
fn all_can_end(stmts: &[TypedStmt]) -> bool
    ensures { result ≡ ends.all_can_end (stmt_trees (map typed.stmt_of stmts.now)) }
{
    for stmt in stmts {
        if !can_end(stmt) {
            return false;
        }
    }
    true
}
