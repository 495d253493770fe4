// Paths where a statement begins. A `(` begins no cast there.

ghost use Rattle.std.specs.Prelude.{◌≡◌, ◌<◌, ◌≤◌, length, IfOk};
ghost use Rattle.ss_ast.specs.Tokens.{tok};
ghost use Rattle.ss_ast.specs.Expressions.{expr_tree};
ghost use Rattle.ss_grammar.specs.Stops.{Gives};
ghost use Rattle.ss_grammar_expressions.specs.Heads.{pieces, AToken};
ghost use Rattle.ss_grammar_expressions.specs.Parser.{below, opened};
ghost use Rattle.ss_grammar_statements.specs.Heads.{prim_opens, prim_place};
ghost use Rattle.ss_grammar_statements.specs.Parser.{prim_after, prim, post_after, post};
ghost use Rattle.ss_parser_statement_trees.specs.View.{prim_start_of};

use ss_ast::{Expr, Token};
use ss_core::Place;
use ss_grammar::fault::{Fault, Stop};
use ss_parser_expression_trees::build::in_parentheses;
use ss_parser_expressions::arguments::parse_paren_end;
use ss_parser_expressions::paths::{parse_new, parse_old, parse_postfixes};
use ss_parser_expressions::quantifiers::parse_quantified;
use ss_parser_statement_trees::heads::{PrimStart, prim_start};
use std::alloc::Global;

// What a path begins with, after its first token, which is `first`.
#[tactic(auto, unfolding(ss_grammar_statements::specs::Parser::prim_after))]
fn parse_prim_from<'a>(
    alloc: Global,
    depth: u32,
    start: PrimStart,
    first: &Token,
    tokens: &'a [Token],
) -> Result<(Box<Expr>, &'a [Token]), Stop>
    ensures gives { Gives (λ x. (expr_tree x.0.value, pieces x.1.now)) result (opened (prim_opens (prim_start_of start)) depth (prim_after depth (below depth) (prim_start_of start)) (AToken (tok first.now)) (pieces tokens.now)) }
    ensures fewer { IfOk result (λ x. length x.1.now ≤ length tokens.now) }
{
    match start {
        PrimStart::Paren(place) => {
            if depth == 0 {
                return Err(Stop::Fault(Fault::TooDeep, tokens.len() + 1));
            }
            let (inner, rest) = parse_paren_end(alloc, depth, tokens)?;
            Ok((in_parentheses(alloc, place, inner)?, rest))
        }
        PrimStart::Leaf(_, leaf) => Ok((leaf, tokens)),
        PrimStart::Old(place) => parse_old(alloc, depth, place, tokens),
        PrimStart::New(place) => parse_new(alloc, depth, place, tokens),
        PrimStart::Quantifier(place, quantifier) => {
            parse_quantified(alloc, depth, place, quantifier, tokens)
        }
    }
}

/// What a path begins with.
#[tactic(auto, unfolding(ss_grammar_statements::specs::Parser::prim))]
pub fn parse_prim(
    alloc: Global,
    depth: u32,
    tokens: &[Token],
) -> Result<(Box<Expr>, &[Token]), Stop>
    ensures gives { Gives (λ x. (expr_tree x.0.value, pieces x.1.now)) result (prim depth (below depth) (pieces tokens.now)) }
    ensures fewer { IfOk result (λ x. length x.1.now < length tokens.now) }
{
    match tokens {
        [token, rest @ ..] => match prim_start(alloc, token)? {
            Some(start) => parse_prim_from(alloc, depth, start, token, rest),
            None => Err(Stop::Fault(Fault::Expected, tokens.len())),
        },
        _ => Err(Stop::Fault(Fault::Expected, tokens.len())),
    }
}

// The place of the first token.
fn place_of(start: &PrimStart) -> Place
    ensures { result ≡ prim_place (prim_start_of start.now) }
{
    match start {
        PrimStart::Paren(place) => *place,
        PrimStart::Leaf(place, _) => *place,
        PrimStart::Old(place) => *place,
        PrimStart::New(place) => *place,
        PrimStart::Quantifier(place, _) => *place,
    }
}

/// A path, after its first token, which is `first`.
#[tactic(auto, using(crate::proofs::Opened::post_opened))]
pub fn parse_post_from<'a>(
    alloc: Global,
    depth: u32,
    start: PrimStart,
    first: &Token,
    tokens: &'a [Token],
) -> Result<(Box<Expr>, &'a [Token]), Stop>
    ensures gives { Gives (λ x. (expr_tree x.0.value, pieces x.1.now)) result (opened (prim_opens (prim_start_of start)) depth (post_after depth (below depth) (prim_start_of start)) (AToken (tok first.now)) (pieces tokens.now)) }
    ensures fewer { IfOk result (λ x. length x.1.now ≤ length tokens.now) }
{
    let place = place_of(&start);
    let (path, rest) = parse_prim_from(alloc, depth, start, first, tokens)?;
    parse_postfixes(alloc, depth, place, path, rest)
}

/// A path.
#[tactic(auto, unfolding(ss_grammar_statements::specs::Parser::post))]
pub fn parse_post(
    alloc: Global,
    depth: u32,
    tokens: &[Token],
) -> Result<(Box<Expr>, &[Token]), Stop>
    ensures gives { Gives (λ x. (expr_tree x.0.value, pieces x.1.now)) result (post depth (below depth) (pieces tokens.now)) }
    ensures fewer { IfOk result (λ x. length x.1.now < length tokens.now) }
{
    match tokens {
        [token, rest @ ..] => match prim_start(alloc, token)? {
            Some(start) => parse_post_from(alloc, depth, start, token, rest),
            None => Err(Stop::Fault(Fault::Expected, tokens.len())),
        },
        _ => Err(Stop::Fault(Fault::Expected, tokens.len())),
    }
}
