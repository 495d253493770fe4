// Operators that group to the left.

ghost use Rattle.std.specs.Prelude.{◌<◌, ◌≤◌, length, IfOk, ◌+◌};
ghost use Rattle.ss_ast.specs.Expressions.{expr_tree};
ghost use Rattle.ss_grammar.specs.Reading.{times};
ghost use Rattle.ss_grammar.specs.Stops.{Gives};
ghost use Rattle.ss_grammar_expressions.specs.Heads.{pieces, link_head};
ghost use Rattle.ss_grammar_expressions.specs.Parser.{below, joins, link_after, chain, operand};
ghost use Rattle.ss_ast.specs.Parts.{link_after as link_tree};
ghost use Rattle.ss_parser_expression_trees.specs.View.{joint_of};

use crate::types::parse_plain_type;
use crate::unaries::parse_unary;
use ss_ast::{Expr, Link, Token};
use ss_core::Place;
use ss_grammar::fault::{Fault, Stop};
use ss_parser_expression_trees::build;
use ss_parser_expression_trees::heads::{Joint, next_joint};
use std::alloc::Global;

// An operand of operators above this rank.
#[cycle(expr)]
#[tactic(auto, unfolding(ss_grammar_expressions::specs::Parser::operand))]
fn parse_operand(
    alloc: Global,
    depth: u32,
    rank: u32,
    tokens: &[Token],
) -> Result<(Box<Expr>, &[Token]), Stop>
    requires { rank < 6 }
    ensures gives { Gives (λ x. (expr_tree x.0.value, pieces x.1.now)) result (operand depth (below depth) rank (pieces tokens.now)) }
    ensures fewer { IfOk result (λ x. length x.1.now ≤ length tokens.now) }
{
    match tokens {
        [Token { place, .. }, ..] => {
            let (first, rest) = parse_unary(alloc, depth, tokens)?;
            parse_chain(alloc, depth, rank, *place, first, rest)
        }
        _ => Err(Stop::Fault(Fault::Expected, tokens.len())),
    }
}

// What is after an operator.
#[cycle(expr)]
#[tactic(auto, unfolding(ss_grammar_expressions::specs::Parser::link_after))]
fn parse_link(
    alloc: Global,
    depth: u32,
    rank: u32,
    joint: Joint,
    tokens: &[Token],
) -> Result<(Link, &[Token]), Stop>
    requires { rank < 6 }
    ensures gives { Gives (λ x. (link_tree x.0, pieces x.1.now)) result (link_after depth (below depth) (operand depth (below depth) rank) (joint_of joint) (pieces tokens.now)) }
    ensures fewer { IfOk result (λ x. length x.1.now ≤ length tokens.now) }
{
    match joint {
        Joint::Operation(operator) => {
            let (operand, rest) = parse_operand(alloc, depth, rank, tokens)?;
            Ok((build::operation(operator, operand), rest))
        }
        Joint::Is => {
            let (ty, rest) = parse_plain_type(depth, tokens)?;
            Ok((build::is_link(ty), rest))
        }
        Joint::As => {
            let (ty, rest) = parse_plain_type(depth, tokens)?;
            Ok((build::as_link(ty), rest))
        }
    }
}

/// Operators up to this rank, after the first operand.
#[cycle(expr)]
#[tactic(auto, unfolding(ss_grammar_expressions::specs::Parser::chain))]
pub fn parse_chain(
    alloc: Global,
    depth: u32,
    rank: u32,
    place: Place,
    first: Box<Expr>,
    tokens: &[Token],
) -> Result<(Box<Expr>, &[Token]), Stop>
    requires { rank ≤ 6 }
    ensures gives { Gives (λ x. (expr_tree x.0.value, pieces x.1.now)) result (chain depth (below depth) rank place (expr_tree first.value) (pieces tokens.now)) }
    ensures fewer { IfOk result (λ x. length x.1.now ≤ length tokens.now) }
{
    if rank == 0 {
        return Ok((first, tokens));
    }
    let (first, rest) = parse_chain(alloc, depth, rank - 1, place, first, tokens)?;
    parse_links(alloc, depth, rank - 1, place, first, rest)
}

// Operators above this rank by one, after the first operand.
#[cycle(expr)]
fn parse_links(
    alloc: Global,
    depth: u32,
    rank: u32,
    place: Place,
    first: Box<Expr>,
    tokens: &[Token],
) -> Result<(Box<Expr>, &[Token]), Stop>
    requires { rank < 6 }
    ensures gives { Gives (λ x. (expr_tree x.0.value, pieces x.1.now)) result (times (link_head (rank + 1)) (link_after depth (below depth) (operand depth (below depth) rank)) (joins depth (below depth) place) (length (pieces tokens.now)) (expr_tree first.value) (pieces tokens.now)) }
    ensures fewer { IfOk result (λ x. length x.1.now ≤ length tokens.now) }
{
    let mut links = Vec::new(alloc);
    let mut rest = tokens;
    while let Some((joint, after)) = next_joint(rest, rank + 1) {
        let (link, after) = parse_link(alloc, depth, rank, joint, after)?;
        links.push(link)?;
        rest = after;
    }
    Ok((build::chain(alloc, place, first, links)?, rest))
}
