// Blocks, governed statements and `if`.

ghost use Rattle.std.specs.Prelude.{◌<◌, ◌≤◌, length, IfOk};
ghost use Rattle.ss_ast.specs.Expressions.{expr_tree};
ghost use Rattle.ss_ast.specs.Statements.{stmt_tree, block_tree};
ghost use Rattle.ss_grammar.specs.Stops.{Gives};
ghost use Rattle.ss_grammar_expressions.specs.Heads.{pieces};
ghost use Rattle.ss_grammar_expressions.specs.Parser.{below};
ghost use Rattle.ss_grammar_statements.specs.Heads.{IfFirst};
ghost use Rattle.ss_grammar_statements.specs.Grammar.{TheStatements, TheGoverned};
ghost use Rattle.ss_grammar_statements.specs.Parser.{block_after, inner_block, in_block, governed, other_side, else_end, if_end, stmt_after, nested_below};
ghost use Rattle.ss_parser_statement_trees.specs.View.{listed_of};

use crate::statements::{parse_other, parse_statements};
use ss_ast::{Block, Expr, Stmt, Symbol, Token, TokenKind, Word};
use ss_core::Place;
use ss_grammar::fault::{Fault, Stop};
use ss_parser_expression_trees::heads::expect;
use ss_parser_expressions::arguments::parse_paren_end;
use ss_parser_statement_trees::build;
use ss_parser_statement_trees::build::StmtList;
use std::alloc::Global;

// The statements of a block, one level deeper.
#[cycle(stmt)]
#[tactic(auto, using(crate::proofs::Readers::nested_is))]
fn inner_statements(
    alloc: Global,
    depth: u32,
    tokens: &[Token],
) -> Result<(StmtList, &[Token]), Stop>
    requires { 0 < depth }
    ensures gives { Gives (λ x. (listed_of x.0, pieces x.1.now)) result (nested_below depth TheStatements (pieces tokens.now)) }
    ensures fewer { IfOk result (λ x. length x.1.now ≤ length tokens.now) }
{
    parse_statements(alloc, depth - 1, tokens)
}

// A governed statement, one level deeper.
#[cycle(stmt)]
#[tactic(auto, using(crate::proofs::Readers::nested_is))]
fn inner_governed(
    alloc: Global,
    depth: u32,
    tokens: &[Token],
) -> Result<(Box<Stmt>, &[Token]), Stop>
    requires { 0 < depth }
    ensures gives { Gives (λ x. (stmt_tree x.0.value, pieces x.1.now)) result (nested_below depth TheGoverned (pieces tokens.now)) }
    ensures fewer { IfOk result (λ x. length x.1.now ≤ length tokens.now) }
{
    parse_other(alloc, depth - 1, tokens)
}

/// A block, after its `{`.
#[cycle(stmt)]
#[tactic(auto, unfolding(ss_grammar_statements::specs::Parser::block_after))]
pub fn parse_block_after(
    alloc: Global,
    depth: u32,
    place: Place,
    tokens: &[Token],
) -> Result<(Block, &[Token]), Stop>
    requires { 0 < depth }
    ensures gives { Gives (λ x. (block_tree x.0, pieces x.1.now)) result (block_after depth (below depth) (nested_below depth) place (pieces tokens.now)) }
    ensures fewer { IfOk result (λ x. length x.1.now ≤ length tokens.now) }
{
    let (list, rest) = inner_statements(alloc, depth, tokens)?;
    Ok((build::block(place, list), rest))
}

/// A block whose level may be opened.
#[cycle(stmt)]
#[tactic(auto, unfolding(ss_grammar_statements::specs::Parser::inner_block))]
pub fn parse_inner_block(
    alloc: Global,
    depth: u32,
    tokens: &[Token],
) -> Result<(Block, &[Token]), Stop>
    requires { 0 < depth }
    ensures gives { Gives (λ x. (block_tree x.0, pieces x.1.now)) result (inner_block depth (below depth) (nested_below depth) (pieces tokens.now)) }
    ensures fewer { IfOk result (λ x. length x.1.now ≤ length tokens.now) }
{
    let (place, rest) = expect(tokens, Symbol::OpenBrace)?;
    parse_block_after(alloc, depth, place, rest)
}

// A block as a statement.
#[cycle(stmt)]
#[tactic(auto, unfolding(ss_grammar_statements::specs::Parser::in_block))]
fn parse_in_block(
    alloc: Global,
    depth: u32,
    tokens: &[Token],
) -> Result<(Box<Stmt>, &[Token]), Stop>
    requires { 0 < depth }
    ensures gives { Gives (λ x. (stmt_tree x.0.value, pieces x.1.now)) result (in_block depth (below depth) (nested_below depth) (pieces tokens.now)) }
    ensures fewer { IfOk result (λ x. length x.1.now ≤ length tokens.now) }
{
    let (block, rest) = parse_inner_block(alloc, depth, tokens)?;
    Ok((build::boxed(alloc, build::in_block(block))?, rest))
}

/// A statement that `if`, `else`, `while` or `for` governs.
#[cycle(stmt)]
#[tactic(auto, unfolding(ss_grammar_statements::specs::Parser::governed))]
pub fn parse_governed(
    alloc: Global,
    depth: u32,
    tokens: &[Token],
) -> Result<(Box<Stmt>, &[Token]), Stop>
    requires { 0 < depth }
    ensures gives { Gives (λ x. (stmt_tree x.0.value, pieces x.1.now)) result (governed depth (below depth) (nested_below depth) (pieces tokens.now)) }
    ensures fewer { IfOk result (λ x. length x.1.now ≤ length tokens.now) }
{
    match tokens {
        [
            Token {
                kind: TokenKind::Symbol(Symbol::OpenBrace),
                ..
            },
            ..
        ] => parse_in_block(alloc, depth, tokens),
        _ => inner_governed(alloc, depth, tokens),
    }
}

// The statement after `else`.
#[cycle(stmt)]
#[tactic(auto, unfolding(ss_grammar_statements::specs::Parser::other_side))]
fn parse_other_side(
    alloc: Global,
    depth: u32,
    place: Place,
    test: Box<Expr>,
    side: Box<Stmt>,
    tokens: &[Token],
) -> Result<(Box<Stmt>, &[Token]), Stop>
    requires { 0 < depth }
    ensures gives { Gives (λ x. (stmt_tree x.0.value, pieces x.1.now)) result (other_side depth (below depth) (nested_below depth) place (expr_tree test.value) (stmt_tree side.value) (pieces tokens.now)) }
    ensures fewer { IfOk result (λ x. length x.1.now ≤ length tokens.now) }
{
    let (other, rest) = parse_governed(alloc, depth, tokens)?;
    Ok((build::if_else(alloc, place, test, side, other)?, rest))
}

// An `else` and its statement, where they are there.
#[cycle(stmt)]
#[tactic(auto, unfolding(ss_grammar_statements::specs::Parser::else_end))]
fn parse_else_end(
    alloc: Global,
    depth: u32,
    place: Place,
    test: Box<Expr>,
    side: Box<Stmt>,
    tokens: &[Token],
) -> Result<(Box<Stmt>, &[Token]), Stop>
    requires { 0 < depth }
    ensures gives { Gives (λ x. (stmt_tree x.0.value, pieces x.1.now)) result (else_end depth (below depth) (nested_below depth) place (expr_tree test.value) (stmt_tree side.value) (pieces tokens.now)) }
    ensures fewer { IfOk result (λ x. length x.1.now ≤ length tokens.now) }
{
    match tokens {
        [
            Token {
                kind: TokenKind::Word(Word::Else),
                ..
            },
            rest @ ..,
        ] => parse_other_side(alloc, depth, place, test, side, rest),
        _ => Ok((build::if_alone(alloc, place, test, side)?, tokens)),
    }
}

// What is after the `(` of an `if`.
#[cycle(stmt)]
#[tactic(auto, unfolding(ss_grammar_statements::specs::Parser::if_end))]
fn parse_if_end(
    alloc: Global,
    depth: u32,
    place: Place,
    tokens: &[Token],
) -> Result<(Box<Stmt>, &[Token]), Stop>
    requires { 0 < depth }
    ensures gives { Gives (λ x. (stmt_tree x.0.value, pieces x.1.now)) result (if_end depth (below depth) (nested_below depth) place (pieces tokens.now)) }
    ensures fewer { IfOk result (λ x. length x.1.now ≤ length tokens.now) }
{
    let (test, rest) = parse_paren_end(alloc, depth, tokens)?;
    let (side, rest) = parse_governed(alloc, depth, rest)?;
    parse_else_end(alloc, depth, place, test, side, rest)
}

/// What is after `if`.
#[cycle(stmt)]
#[tactic(auto, unfolding(ss_grammar_statements::specs::Parser::stmt_after))]
pub fn parse_if(
    alloc: Global,
    depth: u32,
    place: Place,
    tokens: &[Token],
) -> Result<(Box<Stmt>, &[Token]), Stop>
    ensures gives { Gives (λ x. (stmt_tree x.0.value, pieces x.1.now)) result (stmt_after depth (below depth) (nested_below depth) (IfFirst place) (pieces tokens.now)) }
    ensures fewer { IfOk result (λ x. length x.1.now ≤ length tokens.now) }
{
    match tokens {
        [
            Token {
                kind: TokenKind::Symbol(Symbol::Open),
                ..
            },
            rest @ ..,
        ] => {
            if depth == 0 {
                return Err(Stop::Fault(Fault::TooDeep, tokens.len()));
            }
            parse_if_end(alloc, depth, place, rest)
        }
        _ => Err(Stop::Fault(Fault::Expected, tokens.len())),
    }
}
