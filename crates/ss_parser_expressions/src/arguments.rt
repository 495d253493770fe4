// Arguments, and what stands between two brackets.

ghost use Rattle.std.specs.Prelude.{◌<◌, ◌≤◌, length, map, IfOk};
ghost use Rattle.ss_ast.specs.Expressions.{expr_tree};
ghost use Rattle.ss_grammar.specs.Reading.{times};
ghost use Rattle.ss_grammar.specs.Stops.{Gives};
ghost use Rattle.ss_grammar_expressions.specs.Heads.{the, pieces};
ghost use Rattle.ss_grammar_expressions.specs.Grammar.{TheExpression, join_argument};
ghost use Rattle.ss_grammar_expressions.specs.Parser.{below, args, some_args, args_end, index_end, paren_end};

use crate::expressions::parse_expression;
use ss_ast::{Expr, Symbol, Token, TokenKind};
use ss_grammar::fault::Stop;
use ss_parser_expression_trees::heads::{expect, next_symbol, then_symbol};
use std::alloc::Global;

/// An expression one level deeper.
#[cycle(expr)]
#[tactic(auto, using(crate::proofs::Readers::inner_is))]
pub fn inner_expression(
    alloc: Global,
    depth: u32,
    tokens: &[Token],
) -> Result<(Box<Expr>, &[Token]), Stop>
    requires { 0 < depth }
    ensures gives { Gives (λ x. (expr_tree x.0.value, pieces x.1.now)) result (below depth TheExpression (pieces tokens.now)) }
    ensures fewer { IfOk result (λ x. length x.1.now ≤ length tokens.now) }
{
    parse_expression(alloc, depth - 1, tokens)
}

// One argument or more.
#[cycle(expr)]
#[tactic(auto, unfolding(ss_grammar_expressions::specs::Parser::args))]
fn parse_args(alloc: Global, depth: u32, tokens: &[Token]) -> Result<(Vec<Expr>, &[Token]), Stop>
    requires { 0 < depth }
    ensures gives { Gives (λ x. (map expr_tree x.0.items, pieces x.1.now)) result (args (below depth TheExpression) (pieces tokens.now)) }
    ensures fewer { IfOk result (λ x. length x.1.now ≤ length tokens.now) }
{
    let (first, rest) = inner_expression(alloc, depth, tokens)?;
    let mut given = Vec::new(alloc);
    given.push(Box::into_inner(first))?;
    parse_more_args(alloc, depth, given, rest)
}

// The arguments after the first.
#[cycle(expr)]
fn parse_more_args(
    alloc: Global,
    depth: u32,
    first: Vec<Expr>,
    tokens: &[Token],
) -> Result<(Vec<Expr>, &[Token]), Stop>
    requires { 0 < depth }
    ensures gives { Gives (λ x. (map expr_tree x.0.items, pieces x.1.now)) result (times (the Symbol.Comma) (λ _. below depth TheExpression) join_argument (length (pieces tokens.now)) (map expr_tree first.items) (pieces tokens.now)) }
    ensures fewer { IfOk result (λ x. length x.1.now ≤ length tokens.now) }
{
    let mut given = first;
    let mut rest = tokens;
    while let Some((_, after)) = next_symbol(rest, Symbol::Comma) {
        let (next, after) = inner_expression(alloc, depth, after)?;
        given.push(Box::into_inner(next))?;
        rest = after;
    }
    Ok((given, rest))
}

// One argument or more, and `)`.
#[cycle(expr)]
#[tactic(auto, unfolding(ss_grammar_expressions::specs::Parser::some_args))]
fn parse_some_args(
    alloc: Global,
    depth: u32,
    tokens: &[Token],
) -> Result<(Vec<Expr>, &[Token]), Stop>
    requires { 0 < depth }
    ensures gives { Gives (λ x. (map expr_tree x.0.items, pieces x.1.now)) result (some_args (below depth TheExpression) (pieces tokens.now)) }
    ensures fewer { IfOk result (λ x. length x.1.now ≤ length tokens.now) }
{
    let (given, rest) = parse_args(alloc, depth, tokens)?;
    let (_, rest) = expect(rest, Symbol::Close)?;
    Ok((given, rest))
}

/// Arguments, or none, and `)`.
#[cycle(expr)]
#[tactic(auto, unfolding(ss_grammar_expressions::specs::Parser::args_end))]
pub fn parse_args_end(
    alloc: Global,
    depth: u32,
    tokens: &[Token],
) -> Result<(Vec<Expr>, &[Token]), Stop>
    requires { 0 < depth }
    ensures gives { Gives (λ x. (map expr_tree x.0.items, pieces x.1.now)) result (args_end (below depth TheExpression) (pieces tokens.now)) }
    ensures fewer { IfOk result (λ x. length x.1.now ≤ length tokens.now) }
{
    match tokens {
        [
            Token {
                kind: TokenKind::Symbol(Symbol::Close),
                ..
            },
            rest @ ..,
        ] => Ok((Vec::new(alloc), rest)),
        _ => parse_some_args(alloc, depth, tokens),
    }
}

/// An expression and `]`.
#[cycle(expr)]
#[tactic(auto, unfolding(ss_grammar_expressions::specs::Parser::index_end))]
pub fn parse_index_end(
    alloc: Global,
    depth: u32,
    tokens: &[Token],
) -> Result<(Box<Expr>, &[Token]), Stop>
    requires { 0 < depth }
    ensures gives { Gives (λ x. (expr_tree x.0.value, pieces x.1.now)) result (index_end (below depth TheExpression) (pieces tokens.now)) }
    ensures fewer { IfOk result (λ x. length x.1.now ≤ length tokens.now) }
{
    let (inner, rest) = inner_expression(alloc, depth, tokens)?;
    then_symbol(inner, Symbol::CloseBracket, rest)
}

/// An expression and `)`.
#[cycle(expr)]
#[tactic(auto, unfolding(ss_grammar_expressions::specs::Parser::paren_end))]
pub fn parse_paren_end(
    alloc: Global,
    depth: u32,
    tokens: &[Token],
) -> Result<(Box<Expr>, &[Token]), Stop>
    requires { 0 < depth }
    ensures gives { Gives (λ x. (expr_tree x.0.value, pieces x.1.now)) result (paren_end (below depth TheExpression) (pieces tokens.now)) }
    ensures fewer { IfOk result (λ x. length x.1.now ≤ length tokens.now) }
{
    let (inner, rest) = inner_expression(alloc, depth, tokens)?;
    then_symbol(inner, Symbol::Close, rest)
}
