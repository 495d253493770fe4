// Ends that can be reached.

ghost use Rattle.std.specs.Prelude.{◌≡◌, map, option_map};
ghost use Rattle.ss_ast.specs.Expressions.{expr_tree};
ghost use Rattle.ss_ast.specs.Statements.{stmt_tree, stmt_trees, block_tree};
ghost use Rattle.ss_resolver_types_expressions.specs.Ends.{is_always, is_endless, reaches_end, block_reaches_end, all_reach_end};

use ss_ast::{Block, Expr, Stmt};

// Whether a test is the literal `true`.
fn is_always(e: &Expr) -> bool
    ensures { result ≡ is_always (expr_tree e.now) }
{
    match e {
        Expr::Truth(_, value) => *value,
        Expr::Paren(_, inner) => is_always(inner),
        Expr::Chain(_, first, links) => {
            if links.is_empty() {
                is_always(first)
            } else {
                false
            }
        }
        Expr::Path(_, first, postfixes) => {
            if postfixes.is_empty() {
                is_always(first)
            } else {
                false
            }
        }
        Expr::Iff(..)
        | Expr::Implies(..)
        | Expr::Negate(..)
        | Expr::Not(..)
        | Expr::Cast(..)
        | Expr::Number(..)
        | Expr::Text(..)
        | Expr::Null(..)
        | Expr::This(..)
        | Expr::Base(..)
        | Expr::Result(..)
        | Expr::Name(..)
        | Expr::Old(..)
        | Expr::New(..)
        | Expr::NewArray(..)
        | Expr::Quantified(..) => false,
    }
}

fn is_endless(test: &Option<Expr>) -> bool
    ensures { result ≡ is_endless (option_map expr_tree test.now) }
{
    match test {
        Some(e) => is_always(e),
        None => true,
    }
}

#[cycle(ends)]
fn reaches_end(stmt: &Stmt) -> bool
    ensures { result ≡ reaches_end (stmt_tree stmt.now) }
{
    match stmt {
        Stmt::Block(block) => block_reaches_end(block),
        Stmt::If(_, _, first, Some(second)) => reaches_end(first) || reaches_end(second),
        Stmt::While(_, e, _, _) => !is_always(e),
        Stmt::For { test, .. } => !is_endless(test),
        Stmt::Return(..) => false,
        Stmt::Expose(_, _, _, block) => block_reaches_end(block),
        Stmt::Declare(..)
        | Stmt::Simple(..)
        | Stmt::If(_, _, _, None)
        | Stmt::Assert(..)
        | Stmt::Assume(..)
        | Stmt::Empty(..) => true,
    }
}

/// Whether the end of a block can be reached.
#[cycle(ends)]
pub fn block_reaches_end(block: &Block) -> bool
    ensures { result ≡ block_reaches_end (block_tree block.now) }
{
    all_reach_end(&block.statements)
}

#[cycle(ends)]
fn all_reach_end(stmts: &[Stmt]) -> bool
    ensures { result ≡ all_reach_end (stmt_trees (map stmt_tree stmts.now)) }
{
    for stmt in stmts {
        if !reaches_end(stmt) {
            return false;
        }
    }
    true
}
