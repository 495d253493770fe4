// `==>`, `<==>` and whole expressions.

ghost use Rattle.std.specs.Prelude.{◌<◌, ◌≤◌, length, IfOk};
ghost use Rattle.ss_ast.specs.Expressions.{expr_tree};
ghost use Rattle.ss_grammar.specs.Stops.{Gives};
ghost use Rattle.ss_grammar_expressions.specs.Heads.{pieces};
ghost use Rattle.ss_grammar_expressions.specs.Grammar.{TheImplication};
ghost use Rattle.ss_grammar_expressions.specs.Parser.{below, right_side, implication_end, implication_from, implication, iff_end, expression_from, whole_expression};

use crate::chains::parse_chain;
use crate::unaries::parse_unary;
use ss_ast::{Expr, Symbol, Token, TokenKind};
use ss_core::Place;
use ss_grammar::fault::{Fault, Stop};
use ss_parser_expression_trees::build;
use std::alloc::Global;

// The right side of `==>`, one level deeper.
#[cycle(expr)]
#[tactic(auto, using(crate::proofs::Readers::inner_is))]
fn inner_implication(
    alloc: Global,
    depth: u32,
    tokens: &[Token],
) -> Result<(Box<Expr>, &[Token]), Stop>
    requires { 0 < depth }
    ensures gives { Gives (λ x. (expr_tree x.0.value, pieces x.1.now)) result (below depth TheImplication (pieces tokens.now)) }
    ensures fewer { IfOk result (λ x. length x.1.now ≤ length tokens.now) }
{
    parse_implication(alloc, depth - 1, tokens)
}

// The right side of `==>`.
#[cycle(expr)]
#[tactic(auto, unfolding(ss_grammar_expressions::specs::Parser::right_side))]
fn parse_right_side(
    alloc: Global,
    depth: u32,
    place: Place,
    left: Box<Expr>,
    tokens: &[Token],
) -> Result<(Box<Expr>, &[Token]), Stop>
    requires { 0 < depth }
    ensures gives { Gives (λ x. (expr_tree x.0.value, pieces x.1.now)) result (right_side depth (below depth) place (expr_tree left.value) (pieces tokens.now)) }
    ensures fewer { IfOk result (λ x. length x.1.now ≤ length tokens.now) }
{
    let (right, rest) = inner_implication(alloc, depth, tokens)?;
    Ok((build::implies(alloc, place, left, right)?, rest))
}

// `==>` and its right side, where they are there.
#[cycle(expr)]
#[tactic(auto, unfolding(ss_grammar_expressions::specs::Parser::implication_end))]
fn parse_implication_end(
    alloc: Global,
    depth: u32,
    place: Place,
    left: Box<Expr>,
    tokens: &[Token],
) -> Result<(Box<Expr>, &[Token]), Stop>
    ensures gives { Gives (λ x. (expr_tree x.0.value, pieces x.1.now)) result (implication_end depth (below depth) place (expr_tree left.value) (pieces tokens.now)) }
    ensures fewer { IfOk result (λ x. length x.1.now ≤ length tokens.now) }
{
    match tokens {
        [
            Token {
                kind: TokenKind::Symbol(Symbol::Implies),
                ..
            },
            rest @ ..,
        ] => {
            if depth == 0 {
                return Err(Stop::Fault(Fault::TooDeep, tokens.len()));
            }
            parse_right_side(alloc, depth, place, left, rest)
        }
        _ => Ok((left, tokens)),
    }
}

// An implication, after its first unary expression.
#[cycle(expr)]
#[tactic(auto, unfolding(ss_grammar_expressions::specs::Parser::implication_from))]
fn parse_implication_from(
    alloc: Global,
    depth: u32,
    place: Place,
    first: Box<Expr>,
    tokens: &[Token],
) -> Result<(Box<Expr>, &[Token]), Stop>
    ensures gives { Gives (λ x. (expr_tree x.0.value, pieces x.1.now)) result (implication_from depth (below depth) place (expr_tree first.value) (pieces tokens.now)) }
    ensures fewer { IfOk result (λ x. length x.1.now ≤ length tokens.now) }
{
    let (left, rest) = parse_chain(alloc, depth, 6, place, first, tokens)?;
    parse_implication_end(alloc, depth, place, left, rest)
}

// An implication.
#[cycle(expr)]
#[tactic(auto, unfolding(ss_grammar_expressions::specs::Parser::implication))]
fn parse_implication(
    alloc: Global,
    depth: u32,
    tokens: &[Token],
) -> Result<(Box<Expr>, &[Token]), Stop>
    ensures gives { Gives (λ x. (expr_tree x.0.value, pieces x.1.now)) result (implication depth (below depth) (pieces tokens.now)) }
    ensures fewer { IfOk result (λ x. length x.1.now ≤ length tokens.now) }
{
    match tokens {
        [Token { place, .. }, ..] => {
            let (first, rest) = parse_unary(alloc, depth, tokens)?;
            parse_implication_from(alloc, depth, *place, first, rest)
        }
        _ => Err(Stop::Fault(Fault::Expected, tokens.len())),
    }
}

// `<==>` and its right side, where they are there.
#[cycle(expr)]
#[tactic(auto, unfolding(ss_grammar_expressions::specs::Parser::iff_end))]
fn parse_iff_end(
    alloc: Global,
    depth: u32,
    place: Place,
    left: Box<Expr>,
    tokens: &[Token],
) -> Result<(Box<Expr>, &[Token]), Stop>
    ensures gives { Gives (λ x. (expr_tree x.0.value, pieces x.1.now)) result (iff_end depth (below depth) place (expr_tree left.value) (pieces tokens.now)) }
    ensures fewer { IfOk result (λ x. length x.1.now ≤ length tokens.now) }
{
    match tokens {
        [
            Token {
                kind: TokenKind::Symbol(Symbol::Iff),
                ..
            },
            rest @ ..,
        ] => {
            let (right, rest) = parse_implication(alloc, depth, rest)?;
            Ok((build::iff(alloc, place, left, right)?, rest))
        }
        _ => Ok((left, tokens)),
    }
}

/// An expression, after its first unary expression.
#[cycle(expr)]
#[tactic(auto, unfolding(ss_grammar_expressions::specs::Parser::expression_from))]
pub fn parse_expression_from(
    alloc: Global,
    depth: u32,
    place: Place,
    first: Box<Expr>,
    tokens: &[Token],
) -> Result<(Box<Expr>, &[Token]), Stop>
    ensures gives { Gives (λ x. (expr_tree x.0.value, pieces x.1.now)) result (expression_from depth (below depth) place (expr_tree first.value) (pieces tokens.now)) }
    ensures fewer { IfOk result (λ x. length x.1.now ≤ length tokens.now) }
{
    let (left, rest) = parse_implication_from(alloc, depth, place, first, tokens)?;
    parse_iff_end(alloc, depth, place, left, rest)
}

/// The longest expression, at most so deep, and the tokens after it.
#[cycle(expr)]
#[tactic(auto, unfolding(ss_grammar_expressions::specs::Parser::whole_expression))]
pub fn parse_expression(
    alloc: Global,
    depth: u32,
    tokens: &[Token],
) -> Result<(Box<Expr>, &[Token]), Stop>
    ensures gives { Gives (λ x. (expr_tree x.0.value, pieces x.1.now)) result (whole_expression depth (below depth) (pieces tokens.now)) }
    ensures fewer { IfOk result (λ x. length x.1.now ≤ length tokens.now) }
{
    match tokens {
        [Token { place, .. }, ..] => {
            let (first, rest) = parse_unary(alloc, depth, tokens)?;
            parse_expression_from(alloc, depth, *place, first, rest)
        }
        _ => Err(Stop::Fault(Fault::Expected, tokens.len())),
    }
}
