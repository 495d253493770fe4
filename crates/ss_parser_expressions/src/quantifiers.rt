// Quantifiers.

ghost use Rattle.std.specs.Prelude.{◌<◌, ◌≤◌, length, IfOk};
ghost use Rattle.ss_ast.specs.Expressions.{expr_tree, name_tree};
ghost use Rattle.ss_grammar.specs.Stops.{Gives};
ghost use Rattle.ss_grammar_expressions.specs.Heads.{pieces, QuantifierHead};
ghost use Rattle.ss_grammar_expressions.specs.Grammar.{TheRange};
ghost use Rattle.ss_grammar_expressions.specs.Parser.{below, range_high, range_end, range, body, bound, bounds_and_body, quantified_after, quantified, unary_after, bound_name};

use crate::arguments::{inner_expression, parse_paren_end};
use crate::paths::parse_postfixes;
use ss_ast::{Expr, Name, Quantifier, Symbol, Token, TokenKind, Word};
use ss_core::Place;
use ss_grammar::fault::{Fault, Stop};
use ss_parser_expression_trees::build;
use ss_parser_expression_trees::heads::{expect, expect_name, expect_word, then_symbol};
use std::alloc::Global;

// The bounds of a quantifier, one level deeper.
#[cycle(expr)]
#[tactic(auto, using(crate::proofs::Readers::inner_is))]
fn inner_range(
    alloc: Global,
    depth: u32,
    tokens: &[Token],
) -> Result<((Box<Expr>, Box<Expr>), &[Token]), Stop>
    requires { 0 < depth }
    ensures gives { Gives (λ x. ((expr_tree x.0.0.value, expr_tree x.0.1.value), pieces x.1.now)) result (below depth TheRange (pieces tokens.now)) }
    ensures fewer { IfOk result (λ x. length x.1.now ≤ length tokens.now) }
{
    parse_range(alloc, depth - 1, tokens)
}

// The upper bound, from `:` on.
#[cycle(expr)]
#[tactic(auto, unfolding(ss_grammar_expressions::specs::Parser::range_high))]
fn parse_range_high(
    alloc: Global,
    depth: u32,
    low: Box<Expr>,
    tokens: &[Token],
) -> Result<((Box<Expr>, Box<Expr>), &[Token]), Stop>
    requires { 0 < depth }
    ensures gives { Gives (λ x. ((expr_tree x.0.0.value, expr_tree x.0.1.value), pieces x.1.now)) result (range_high depth (below depth) (expr_tree low.value) (pieces tokens.now)) }
    ensures fewer { IfOk result (λ x. length x.1.now ≤ length tokens.now) }
{
    let (_, rest) = expect(tokens, Symbol::Colon)?;
    let (high, rest) = parse_paren_end(alloc, depth, rest)?;
    Ok(((low, high), rest))
}

// Both bounds, after `(`.
#[cycle(expr)]
#[tactic(auto, unfolding(ss_grammar_expressions::specs::Parser::range_end))]
fn parse_range_end(
    alloc: Global,
    depth: u32,
    tokens: &[Token],
) -> Result<((Box<Expr>, Box<Expr>), &[Token]), Stop>
    requires { 0 < depth }
    ensures gives { Gives (λ x. ((expr_tree x.0.0.value, expr_tree x.0.1.value), pieces x.1.now)) result (range_end depth (below depth) (pieces tokens.now)) }
    ensures fewer { IfOk result (λ x. length x.1.now ≤ length tokens.now) }
{
    let (low, rest) = inner_expression(alloc, depth, tokens)?;
    parse_range_high(alloc, depth, low, rest)
}

// Both bounds.
#[cycle(expr)]
#[tactic(auto, unfolding(ss_grammar_expressions::specs::Parser::range))]
fn parse_range(
    alloc: Global,
    depth: u32,
    tokens: &[Token],
) -> Result<((Box<Expr>, Box<Expr>), &[Token]), Stop>
    ensures gives { Gives (λ x. ((expr_tree x.0.0.value, expr_tree x.0.1.value), pieces x.1.now)) result (range depth (below depth) (pieces tokens.now)) }
    ensures fewer { IfOk result (λ x. length x.1.now ≤ length tokens.now) }
{
    match tokens {
        [
            Token {
                kind: TokenKind::Symbol(Symbol::Open),
                ..
            },
            rest @ ..,
        ] => {
            if depth == 0 {
                return Err(Stop::Fault(Fault::TooDeep, tokens.len()));
            }
            parse_range_end(alloc, depth, rest)
        }
        _ => Err(Stop::Fault(Fault::Expected, tokens.len())),
    }
}

// The body, from `;` to `}`.
#[cycle(expr)]
#[tactic(auto, unfolding(ss_grammar_expressions::specs::Parser::body))]
fn parse_body(alloc: Global, depth: u32, tokens: &[Token]) -> Result<(Box<Expr>, &[Token]), Stop>
    requires { 0 < depth }
    ensures gives { Gives (λ x. (expr_tree x.0.value, pieces x.1.now)) result (body depth (below depth) (pieces tokens.now)) }
    ensures fewer { IfOk result (λ x. length x.1.now ≤ length tokens.now) }
{
    let (_, rest) = expect(tokens, Symbol::Semicolon)?;
    let (inner, rest) = inner_expression(alloc, depth, rest)?;
    then_symbol(inner, Symbol::CloseBrace, rest)
}

// The bound name, from `int` to `in`.
#[tactic(auto, unfolding(ss_grammar_expressions::specs::Parser::bound))]
fn parse_bound(depth: u32, tokens: &[Token]) -> Result<(Name, &[Token]), Stop>
    ensures gives { Gives (λ x. (name_tree x.0, pieces x.1.now)) result (bound depth (below depth) (pieces tokens.now)) }
    ensures fewer { IfOk result (λ x. length x.1.now ≤ length tokens.now) }
{
    let (_, rest) = expect_word(tokens, Word::Int)?;
    parse_bound_name(depth, rest)
}

// The bound name and `in`.
#[tactic(auto, unfolding(ss_grammar_expressions::specs::Parser::bound_name))]
fn parse_bound_name(depth: u32, tokens: &[Token]) -> Result<(Name, &[Token]), Stop>
    ensures gives { Gives (λ x. (name_tree x.0, pieces x.1.now)) result (bound_name depth (below depth) (pieces tokens.now)) }
    ensures fewer { IfOk result (λ x. length x.1.now ≤ length tokens.now) }
{
    let (name, rest) = expect_name(tokens)?;
    let (_, rest) = expect_word(rest, Word::In)?;
    Ok((name, rest))
}

// The bounds and the body.
#[cycle(expr)]
#[tactic(auto, unfolding(ss_grammar_expressions::specs::Parser::bounds_and_body))]
fn parse_bounds_and_body(
    alloc: Global,
    depth: u32,
    place: Place,
    quantifier: Quantifier,
    name: Name,
    tokens: &[Token],
) -> Result<(Box<Expr>, &[Token]), Stop>
    requires { 0 < depth }
    ensures gives { Gives (λ x. (expr_tree x.0.value, pieces x.1.now)) result (bounds_and_body depth (below depth) place quantifier (name_tree name) (pieces tokens.now)) }
    ensures fewer { IfOk result (λ x. length x.1.now ≤ length tokens.now) }
{
    let (bounds, rest) = inner_range(alloc, depth, tokens)?;
    let (inner, rest) = parse_body(alloc, depth, rest)?;
    Ok((
        build::quantified(alloc, place, quantifier, name, bounds, inner)?,
        rest,
    ))
}

// What is after the `{` of a quantifier.
#[cycle(expr)]
#[tactic(auto, unfolding(ss_grammar_expressions::specs::Parser::quantified_after))]
fn parse_quantified_end(
    alloc: Global,
    depth: u32,
    place: Place,
    quantifier: Quantifier,
    tokens: &[Token],
) -> Result<(Box<Expr>, &[Token]), Stop>
    requires { 0 < depth }
    ensures gives { Gives (λ x. (expr_tree x.0.value, pieces x.1.now)) result (quantified_after depth (below depth) place quantifier (pieces tokens.now)) }
    ensures fewer { IfOk result (λ x. length x.1.now ≤ length tokens.now) }
{
    let (name, rest) = parse_bound(depth, tokens)?;
    parse_bounds_and_body(alloc, depth, place, quantifier, name, rest)
}

/// What is after `forall` or `exists`.
#[cycle(expr)]
#[tactic(auto, unfolding(ss_grammar_expressions::specs::Parser::quantified))]
pub fn parse_quantified(
    alloc: Global,
    depth: u32,
    place: Place,
    quantifier: Quantifier,
    tokens: &[Token],
) -> Result<(Box<Expr>, &[Token]), Stop>
    ensures gives { Gives (λ x. (expr_tree x.0.value, pieces x.1.now)) result (quantified depth (below depth) place quantifier (pieces tokens.now)) }
    ensures fewer { IfOk result (λ x. length x.1.now ≤ length tokens.now) }
{
    match tokens {
        [
            Token {
                kind: TokenKind::Symbol(Symbol::OpenBrace),
                ..
            },
            rest @ ..,
        ] => {
            if depth == 0 {
                return Err(Stop::Fault(Fault::TooDeep, tokens.len()));
            }
            parse_quantified_end(alloc, depth, place, quantifier, rest)
        }
        _ => Err(Stop::Fault(Fault::Expected, tokens.len())),
    }
}

/// A quantifier and its postfixes, after `forall` or `exists`.
#[cycle(expr)]
#[tactic(auto, unfolding(ss_grammar_expressions::specs::Parser::unary_after))]
pub fn parse_then_postfixes(
    alloc: Global,
    depth: u32,
    place: Place,
    quantifier: Quantifier,
    tokens: &[Token],
) -> Result<(Box<Expr>, &[Token]), Stop>
    ensures gives { Gives (λ x. (expr_tree x.0.value, pieces x.1.now)) result (unary_after depth (below depth) (QuantifierHead place quantifier) (pieces tokens.now)) }
    ensures fewer { IfOk result (λ x. length x.1.now ≤ length tokens.now) }
{
    let (first, rest) = parse_quantified(alloc, depth, place, quantifier, tokens)?;
    parse_postfixes(alloc, depth, place, first, rest)
}
