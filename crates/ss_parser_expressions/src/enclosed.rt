// What stands after `(` and a name.

ghost use Rattle.std.specs.Prelude.{◌<◌, ◌≤◌, length, IfOk};
ghost use Rattle.ss_ast.specs.Expressions.{expr_tree, name_tree};
ghost use Rattle.ss_grammar.specs.Stops.{Gives};
ghost use Rattle.ss_grammar_expressions.specs.Heads.{pieces};
ghost use Rattle.ss_grammar_expressions.specs.Parser.{below, rest_of, array_end, element_end, element_or_array, named_rest, named_end};
ghost use Rattle.ss_parser_expression_trees.specs.View.{inside_of};

use crate::arguments::parse_index_end;
use crate::expressions::parse_expression_from;
use crate::paths::parse_postfixes;
use crate::types::parse_bang;
use ss_ast::{Expr, Name, Symbol, Token, TokenKind};
use ss_core::Place;
use ss_grammar::fault::{Fault, Stop};
use ss_parser_expression_trees::build;
use ss_parser_expression_trees::build::Inside;
use ss_parser_expression_trees::heads::expect;
use std::alloc::Global;

// The rest of an expression, after the beginning of its first path.
#[cycle(expr)]
#[tactic(auto, unfolding(ss_grammar_expressions::specs::Parser::rest_of))]
fn parse_rest(
    alloc: Global,
    depth: u32,
    place: Place,
    first: Box<Expr>,
    tokens: &[Token],
) -> Result<(Box<Expr>, &[Token]), Stop>
    ensures gives { Gives (λ x. (expr_tree x.0.value, pieces x.1.now)) result (rest_of depth (below depth) place (expr_tree first.value) (pieces tokens.now)) }
    ensures fewer { IfOk result (λ x. length x.1.now ≤ length tokens.now) }
{
    let (first, rest) = parse_postfixes(alloc, depth, place, first, tokens)?;
    parse_expression_from(alloc, depth, place, first, rest)
}

// The rest of an array's type, after `[`.
#[tactic(auto, unfolding(ss_grammar_expressions::specs::Parser::array_end))]
fn parse_array_end(depth: u32, name: Name, tokens: &[Token]) -> Result<(Inside, &[Token]), Stop>
    ensures gives { Gives (λ x. (inside_of x.0, pieces x.1.now)) result (array_end depth (below depth) (name_tree name) (pieces tokens.now)) }
    ensures fewer { IfOk result (λ x. length x.1.now ≤ length tokens.now) }
{
    let (_, rest) = expect(tokens, Symbol::CloseBracket)?;
    let (non_null, rest) = parse_bang(rest)?;
    Ok((build::class_type(name, true, non_null), rest))
}

// The rest of an expression, after a name and `[`.
#[cycle(expr)]
#[tactic(auto, unfolding(ss_grammar_expressions::specs::Parser::element_end))]
fn parse_element_end(
    alloc: Global,
    depth: u32,
    name: Name,
    tokens: &[Token],
) -> Result<(Inside, &[Token]), Stop>
    requires { 0 < depth }
    ensures gives { Gives (λ x. (inside_of x.0, pieces x.1.now)) result (element_end depth (below depth) (name_tree name) (pieces tokens.now)) }
    ensures fewer { IfOk result (λ x. length x.1.now ≤ length tokens.now) }
{
    let (index, rest) = parse_index_end(alloc, depth, tokens)?;
    let place = name.place;
    let first = build::element_of(alloc, name, index)?;
    let (inner, rest) = parse_rest(alloc, depth, place, first, rest)?;
    Ok((Inside::Expr(inner), rest))
}

// What is after `(`, a name and `[`.
#[cycle(expr)]
#[tactic(auto, unfolding(ss_grammar_expressions::specs::Parser::element_or_array))]
fn parse_element_or_array(
    alloc: Global,
    depth: u32,
    name: Name,
    tokens: &[Token],
) -> Result<(Inside, &[Token]), Stop>
    requires { 0 < depth }
    ensures gives { Gives (λ x. (inside_of x.0, pieces x.1.now)) result (element_or_array depth (below depth) (name_tree name) (pieces tokens.now)) }
    ensures fewer { IfOk result (λ x. length x.1.now ≤ length tokens.now) }
{
    match tokens {
        [
            Token {
                kind: TokenKind::Symbol(Symbol::CloseBracket),
                ..
            },
            ..
        ] => parse_array_end(depth, name, tokens),
        _ => parse_element_end(alloc, depth, name, tokens),
    }
}

// The rest of an expression, after its first name.
#[cycle(expr)]
#[tactic(auto, unfolding(ss_grammar_expressions::specs::Parser::named_rest))]
fn parse_named_rest(
    alloc: Global,
    depth: u32,
    name: Name,
    tokens: &[Token],
) -> Result<(Inside, &[Token]), Stop>
    ensures gives { Gives (λ x. (inside_of x.0, pieces x.1.now)) result (named_rest depth (below depth) (name_tree name) (pieces tokens.now)) }
    ensures fewer { IfOk result (λ x. length x.1.now ≤ length tokens.now) }
{
    let place = name.place;
    let first = build::name_expr(alloc, name)?;
    let (inner, rest) = parse_rest(alloc, depth, place, first, tokens)?;
    Ok((Inside::Expr(inner), rest))
}

/// What is after `(` and a name: the rest of a type or of an expression.
#[cycle(expr)]
#[tactic(auto, unfolding(ss_grammar_expressions::specs::Parser::named_end, ss_grammar_expressions::specs::Parser::named_after))]
pub fn parse_named(
    alloc: Global,
    depth: u32,
    name: Name,
    tokens: &[Token],
) -> Result<(Inside, &[Token]), Stop>
    ensures gives { Gives (λ x. (inside_of x.0, pieces x.1.now)) result (named_end depth (below depth) (name_tree name) (pieces tokens.now)) }
    ensures fewer { IfOk result (λ x. length x.1.now ≤ length tokens.now) }
{
    match tokens {
        [
            Token {
                kind: TokenKind::Symbol(Symbol::Bang),
                ..
            },
            rest @ ..,
        ] => Ok((build::class_type(name, false, true), rest)),
        [
            Token {
                kind: TokenKind::Symbol(Symbol::OpenBracket),
                ..
            },
            rest @ ..,
        ] => {
            if depth == 0 {
                return Err(Stop::Fault(Fault::TooDeep, tokens.len()));
            }
            parse_element_or_array(alloc, depth, name, rest)
        }
        _ => parse_named_rest(alloc, depth, name, tokens),
    }
}
