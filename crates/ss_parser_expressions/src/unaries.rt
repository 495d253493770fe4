// Unary expressions.

ghost use Rattle.std.specs.Prelude.{◌<◌, ◌≤◌, length, IfOk};
ghost use Rattle.ss_ast.specs.Expressions.{expr_tree};
ghost use Rattle.ss_grammar.specs.Stops.{Gives};
ghost use Rattle.ss_grammar_expressions.specs.Heads.{pieces};
ghost use Rattle.ss_grammar_expressions.specs.Grammar.{TheUnary};
ghost use Rattle.ss_grammar_expressions.specs.Parser.{below, negation, negated, unary_after, unary};
ghost use Rattle.ss_parser_expression_trees.specs.View.{opening_of};

use crate::casts::parse_paren;
use crate::paths::{parse_new, parse_old, parse_postfixes};
use crate::quantifiers::parse_then_postfixes;
use ss_ast::{Expr, Quantifier, Token, TokenKind};
use ss_core::Place;
use ss_grammar::fault::{Fault, Stop};
use ss_parser_expression_trees::build;
use ss_parser_expression_trees::heads::{Opening, UnaryStart, unary_start};
use std::alloc::Global;

/// A unary expression one level deeper.
#[cycle(expr)]
#[tactic(auto, using(crate::proofs::Readers::inner_is))]
pub fn inner_unary(
    alloc: Global,
    depth: u32,
    tokens: &[Token],
) -> Result<(Box<Expr>, &[Token]), Stop>
    requires { 0 < depth }
    ensures gives { Gives (λ x. (expr_tree x.0.value, pieces x.1.now)) result (below depth TheUnary (pieces tokens.now)) }
    ensures fewer { IfOk result (λ x. length x.1.now ≤ length tokens.now) }
{
    parse_unary(alloc, depth - 1, tokens)
}

// The operand of a `-`.
#[cycle(expr)]
#[tactic(auto, unfolding(ss_grammar_expressions::specs::Parser::negation))]
fn parse_negation(
    alloc: Global,
    depth: u32,
    place: Place,
    tokens: &[Token],
) -> Result<(Box<Expr>, &[Token]), Stop>
    requires { 0 < depth }
    ensures gives { Gives (λ x. (expr_tree x.0.value, pieces x.1.now)) result (negation depth (below depth) place (pieces tokens.now)) }
    ensures fewer { IfOk result (λ x. length x.1.now ≤ length tokens.now) }
{
    let (operand, rest) = inner_unary(alloc, depth, tokens)?;
    Ok((build::negated(alloc, place, operand)?, rest))
}

// What is after a prefix `-`, with which 2147483648 is one literal.
#[cycle(expr)]
#[tactic(auto, unfolding(ss_grammar_expressions::specs::Parser::negated))]
fn parse_negated(
    alloc: Global,
    depth: u32,
    place: Place,
    tokens: &[Token],
) -> Result<(Box<Expr>, &[Token]), Stop>
    requires { 0 < depth }
    ensures gives { Gives (λ x. (expr_tree x.0.value, pieces x.1.now)) result (negated depth (below depth) place (pieces tokens.now)) }
    ensures fewer { IfOk result (λ x. length x.1.now ≤ length tokens.now) }
{
    match tokens {
        [
            Token {
                kind: TokenKind::Number(n),
                ..
            },
            rest @ ..,
        ] if *n == 2147483648 => {
            let first = build::boxed(alloc, build::number(place, -2147483648))?;
            parse_postfixes(alloc, depth, place, first, rest)
        }
        _ => parse_negation(alloc, depth, place, tokens),
    }
}

// What is after a token that opens a level.
#[cycle(expr)]
#[tactic(auto, unfolding(ss_grammar_expressions::specs::Parser::unary_after))]
fn parse_opening(
    alloc: Global,
    depth: u32,
    place: Place,
    opening: Opening,
    tokens: &[Token],
) -> Result<(Box<Expr>, &[Token]), Stop>
    requires { 0 < depth }
    ensures gives { Gives (λ x. (expr_tree x.0.value, pieces x.1.now)) result (unary_after depth (below depth) (opening_of place opening) (pieces tokens.now)) }
    ensures fewer { IfOk result (λ x. length x.1.now ≤ length tokens.now) }
{
    match opening {
        Opening::Negate => parse_negated(alloc, depth, place, tokens),
        Opening::Not => {
            let (operand, rest) = inner_unary(alloc, depth, tokens)?;
            Ok((build::denied(alloc, place, operand)?, rest))
        }
        Opening::Paren => parse_paren(alloc, depth, place, tokens),
    }
}

/// A unary expression.
#[cycle(expr)]
#[tactic(auto, unfolding(ss_grammar_expressions::specs::Parser::unary, ss_grammar_expressions::specs::Parser::unary_after))]
pub fn parse_unary(
    alloc: Global,
    depth: u32,
    tokens: &[Token],
) -> Result<(Box<Expr>, &[Token]), Stop>
    ensures gives { Gives (λ x. (expr_tree x.0.value, pieces x.1.now)) result (unary depth (below depth) (pieces tokens.now)) }
    ensures fewer { IfOk result (λ x. length x.1.now ≤ length tokens.now) }
{
    match tokens {
        [token, rest @ ..] => match unary_start(alloc, token)? {
            Some(UnaryStart::Opening(place, opening)) => {
                if depth == 0 {
                    return Err(Stop::Fault(Fault::TooDeep, tokens.len()));
                }
                parse_opening(alloc, depth, place, opening, rest)
            }
            Some(UnaryStart::Leaf(place, first)) => {
                parse_postfixes(alloc, depth, place, first, rest)
            }
            Some(UnaryStart::Old(place)) => {
                let (first, rest) = parse_old(alloc, depth, place, rest)?;
                parse_postfixes(alloc, depth, place, first, rest)
            }
            Some(UnaryStart::New(place)) => {
                let (first, rest) = parse_new(alloc, depth, place, rest)?;
                parse_postfixes(alloc, depth, place, first, rest)
            }
            Some(UnaryStart::Quantifier(place, quantifier)) => {
                parse_then_postfixes(alloc, depth, place, quantifier, rest)
            }
            None => Err(Stop::Fault(Fault::Expected, tokens.len())),
        },
        _ => Err(Stop::Fault(Fault::Expected, tokens.len())),
    }
}
