// Loops.

ghost use Rattle.std.specs.Prelude.{◌<◌, ◌≤◌, length, map, IfOk};
ghost use Rattle.ss_ast.specs.Expressions.{expr_tree};
ghost use Rattle.ss_ast.specs.Statements.{stmt_tree};
ghost use Rattle.ss_grammar.specs.Stops.{Gives};
ghost use Rattle.ss_grammar_expressions.specs.Heads.{pieces};
ghost use Rattle.ss_grammar_expressions.specs.Parser.{below};
ghost use Rattle.ss_grammar_statements.specs.Heads.{WhileFirst, ForFirst};
ghost use Rattle.ss_grammar_statements.specs.Grammar.{TheHeading};
ghost use Rattle.ss_grammar_statements.specs.Parser.{while_body, while_end, for_body, for_end, stmt_after, heading, nested_below};
ghost use Rattle.ss_parser_statement_trees.specs.View.{heading_of};
ghost use Rattle.ss_parser.specs.Loops.{guarded};

use crate::governed::parse_governed;
use crate::headings::{parse_heading, parse_invariants};
use ss_ast::{Expr, Stmt, Symbol, Token, TokenKind};
use ss_core::Place;
use ss_grammar::fault::{Fault, Stop};
use ss_parser_expressions::arguments::parse_paren_end;
use ss_parser_statement_trees::build;
use ss_parser_statement_trees::build::{Guarded, Heading};
use std::alloc::Global;

// The heading of a `for`, one level deeper.
#[tactic(auto, using(crate::proofs::Readers::nested_is))]
fn inner_heading(alloc: Global, depth: u32, tokens: &[Token]) -> Result<(Heading, &[Token]), Stop>
    requires { 0 < depth }
    ensures gives { Gives (λ x. (heading_of x.0, pieces x.1.now)) result (nested_below depth TheHeading (pieces tokens.now)) }
    ensures fewer { IfOk result (λ x. length x.1.now ≤ length tokens.now) }
{
    parse_heading(alloc, depth - 1, tokens)
}

// The invariants and the body of a loop.
#[cycle(stmt)]
#[tactic(auto, unfolding(crate::specs::Loops::guarded))]
fn parse_guarded(alloc: Global, depth: u32, tokens: &[Token]) -> Result<(Guarded, &[Token]), Stop>
    requires { 0 < depth }
    ensures gives { Gives (λ x. ((map expr_tree x.0.invariants.items, stmt_tree x.0.body.value), pieces x.1.now)) result (guarded depth (below depth) (nested_below depth) (pieces tokens.now)) }
    ensures fewer { IfOk result (λ x. length x.1.now ≤ length tokens.now) }
{
    let (invariants, rest) = parse_invariants(alloc, depth, tokens)?;
    let (body, rest) = parse_governed(alloc, depth, rest)?;
    Ok((Guarded { invariants, body }, rest))
}

// The invariants and the body of a `while`.
#[cycle(stmt)]
#[tactic(auto, using(crate::proofs::Guarded::while_guarded))]
fn parse_while_body(
    alloc: Global,
    depth: u32,
    place: Place,
    test: Box<Expr>,
    tokens: &[Token],
) -> Result<(Box<Stmt>, &[Token]), Stop>
    requires { 0 < depth }
    ensures gives { Gives (λ x. (stmt_tree x.0.value, pieces x.1.now)) result (while_body depth (below depth) (nested_below depth) place (expr_tree test.value) (pieces tokens.now)) }
    ensures fewer { IfOk result (λ x. length x.1.now ≤ length tokens.now) }
{
    let (guarded, rest) = parse_guarded(alloc, depth, tokens)?;
    Ok((build::while_loop(alloc, place, test, guarded)?, rest))
}

// What is after the `(` of a `while`.
#[cycle(stmt)]
#[tactic(auto, unfolding(ss_grammar_statements::specs::Parser::while_end))]
fn parse_while_end(
    alloc: Global,
    depth: u32,
    place: Place,
    tokens: &[Token],
) -> Result<(Box<Stmt>, &[Token]), Stop>
    requires { 0 < depth }
    ensures gives { Gives (λ x. (stmt_tree x.0.value, pieces x.1.now)) result (while_end depth (below depth) (nested_below depth) place (pieces tokens.now)) }
    ensures fewer { IfOk result (λ x. length x.1.now ≤ length tokens.now) }
{
    let (test, rest) = parse_paren_end(alloc, depth, tokens)?;
    parse_while_body(alloc, depth, place, test, rest)
}

/// What is after `while`.
#[cycle(stmt)]
#[tactic(auto, unfolding(ss_grammar_statements::specs::Parser::stmt_after))]
pub fn parse_while(
    alloc: Global,
    depth: u32,
    place: Place,
    tokens: &[Token],
) -> Result<(Box<Stmt>, &[Token]), Stop>
    ensures gives { Gives (λ x. (stmt_tree x.0.value, pieces x.1.now)) result (stmt_after depth (below depth) (nested_below depth) (WhileFirst place) (pieces tokens.now)) }
    ensures fewer { IfOk result (λ x. length x.1.now ≤ length tokens.now) }
{
    match tokens {
        [
            Token {
                kind: TokenKind::Symbol(Symbol::Open),
                ..
            },
            rest @ ..,
        ] => {
            if depth == 0 {
                return Err(Stop::Fault(Fault::TooDeep, tokens.len()));
            }
            parse_while_end(alloc, depth, place, rest)
        }
        _ => Err(Stop::Fault(Fault::Expected, tokens.len())),
    }
}

// The invariants and the body of a `for`.
#[cycle(stmt)]
#[tactic(auto, using(crate::proofs::Guarded::for_guarded))]
fn parse_for_body(
    alloc: Global,
    depth: u32,
    place: Place,
    heading: Heading,
    tokens: &[Token],
) -> Result<(Box<Stmt>, &[Token]), Stop>
    requires { 0 < depth }
    ensures gives { Gives (λ x. (stmt_tree x.0.value, pieces x.1.now)) result (for_body depth (below depth) (nested_below depth) place (heading_of heading) (pieces tokens.now)) }
    ensures fewer { IfOk result (λ x. length x.1.now ≤ length tokens.now) }
{
    let (guarded, rest) = parse_guarded(alloc, depth, tokens)?;
    Ok((build::for_loop(alloc, place, heading, guarded)?, rest))
}

// What is after the `(` of a `for`.
#[cycle(stmt)]
#[tactic(auto, unfolding(ss_grammar_statements::specs::Parser::for_end))]
fn parse_for_end(
    alloc: Global,
    depth: u32,
    place: Place,
    tokens: &[Token],
) -> Result<(Box<Stmt>, &[Token]), Stop>
    requires { 0 < depth }
    ensures gives { Gives (λ x. (stmt_tree x.0.value, pieces x.1.now)) result (for_end depth (below depth) (nested_below depth) place (pieces tokens.now)) }
    ensures fewer { IfOk result (λ x. length x.1.now ≤ length tokens.now) }
{
    let (heading, rest) = inner_heading(alloc, depth, tokens)?;
    parse_for_body(alloc, depth, place, heading, rest)
}

/// What is after `for`.
#[cycle(stmt)]
#[tactic(auto, unfolding(ss_grammar_statements::specs::Parser::stmt_after))]
pub fn parse_for(
    alloc: Global,
    depth: u32,
    place: Place,
    tokens: &[Token],
) -> Result<(Box<Stmt>, &[Token]), Stop>
    ensures gives { Gives (λ x. (stmt_tree x.0.value, pieces x.1.now)) result (stmt_after depth (below depth) (nested_below depth) (ForFirst place) (pieces tokens.now)) }
    ensures fewer { IfOk result (λ x. length x.1.now ≤ length tokens.now) }
{
    match tokens {
        [
            Token {
                kind: TokenKind::Symbol(Symbol::Open),
                ..
            },
            rest @ ..,
        ] => {
            if depth == 0 {
                return Err(Stop::Fault(Fault::TooDeep, tokens.len()));
            }
            parse_for_end(alloc, depth, place, rest)
        }
        _ => Err(Stop::Fault(Fault::Expected, tokens.len())),
    }
}
