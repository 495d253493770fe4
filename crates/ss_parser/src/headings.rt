// Parts that may be absent, invariants, and the heading of a `for`.

ghost use Rattle.std.specs.Prelude.{◌≤◌, length, map, IfOk, option_map, []};
ghost use Rattle.ss_ast.specs.Expressions.{expr_tree, name_tree};
ghost use Rattle.ss_ast.specs.Statements.{for_init_tree, simple_tree};
ghost use Rattle.ss_grammar.specs.Reading.{times};
ghost use Rattle.ss_grammar.specs.Stops.{Gives};
ghost use Rattle.ss_grammar_expressions.specs.Heads.{the_word, pieces};
ghost use Rattle.ss_grammar_expressions.specs.Grammar.{join_argument};
ghost use Rattle.ss_grammar_expressions.specs.Parser.{below, whole_expression};
ghost use Rattle.ss_grammar_statements.specs.Parser.{ended, some_of, optional, simple, for_init, invariants, at_end, heading, nested_below};
ghost use Rattle.ss_parser_statement_trees.specs.View.{value_of, init_of, step_of, heading_of};

use crate::simples::{parse_for_init, parse_simple};
use ss_ast::{Expr, ForInit, Name, Simple, Symbol, Token, TokenKind, Word};
use ss_grammar::fault::Stop;
use ss_parser_expression_trees::heads::{expect, expect_name, next_word, then_symbol};
use ss_parser_expressions::expressions::parse_expression;
use ss_parser_statement_trees::build::Heading;
use std::alloc::Global;

/// An expression and a `;`.
#[tactic(auto, unfolding(ss_grammar_statements::specs::Parser::ended))]
pub fn parse_ended(
    alloc: Global,
    depth: u32,
    tokens: &[Token],
) -> Result<(Box<Expr>, &[Token]), Stop>
    ensures gives { Gives (λ x. (expr_tree x.0.value, pieces x.1.now)) result (ended (whole_expression depth (below depth)) (pieces tokens.now)) }
    ensures fewer { IfOk result (λ x. length x.1.now ≤ length tokens.now) }
{
    let (expr, rest) = parse_expression(alloc, depth, tokens)?;
    then_symbol(expr, Symbol::Semicolon, rest)
}

// An expression and a `;`, where one is there.
#[tactic(auto, unfolding(ss_grammar_statements::specs::Parser::some_of))]
fn parse_some_value(
    alloc: Global,
    depth: u32,
    tokens: &[Token],
) -> Result<(Option<Box<Expr>>, &[Token]), Stop>
    ensures gives { Gives (λ x. (value_of x.0, pieces x.1.now)) result (some_of Symbol.Semicolon (whole_expression depth (below depth)) (pieces tokens.now)) }
    ensures fewer { IfOk result (λ x. length x.1.now ≤ length tokens.now) }
{
    let (expr, rest) = parse_expression(alloc, depth, tokens)?;
    let (_, rest) = expect(rest, Symbol::Semicolon)?;
    Ok((Some(expr), rest))
}

/// An expression, if there is one, and a `;`.
#[tactic(auto, unfolding(ss_grammar_statements::specs::Parser::optional))]
pub fn parse_optional_value(
    alloc: Global,
    depth: u32,
    tokens: &[Token],
) -> Result<(Option<Box<Expr>>, &[Token]), Stop>
    ensures gives { Gives (λ x. (value_of x.0, pieces x.1.now)) result (optional Symbol.Semicolon (whole_expression depth (below depth)) (pieces tokens.now)) }
    ensures fewer { IfOk result (λ x. length x.1.now ≤ length tokens.now) }
{
    match tokens {
        [
            Token {
                kind: TokenKind::Symbol(Symbol::Semicolon),
                ..
            },
            rest @ ..,
        ] => Ok((None, rest)),
        _ => parse_some_value(alloc, depth, tokens),
    }
}

// The beginning of a `for` and a `;`.
#[tactic(auto, unfolding(ss_grammar_statements::specs::Parser::some_of))]
fn parse_some_init(
    alloc: Global,
    depth: u32,
    tokens: &[Token],
) -> Result<(Option<Box<ForInit>>, &[Token]), Stop>
    ensures gives { Gives (λ x. (init_of x.0, pieces x.1.now)) result (some_of Symbol.Semicolon (for_init depth (below depth)) (pieces tokens.now)) }
    ensures fewer { IfOk result (λ x. length x.1.now ≤ length tokens.now) }
{
    let (init, rest) = parse_for_init(alloc, depth, tokens)?;
    let init = Box::new(alloc, init)?;
    let (_, rest) = expect(rest, Symbol::Semicolon)?;
    Ok((Some(init), rest))
}

// The beginning of a `for`, if there is one, and a `;`.
#[tactic(auto, unfolding(ss_grammar_statements::specs::Parser::optional))]
fn parse_optional_init(
    alloc: Global,
    depth: u32,
    tokens: &[Token],
) -> Result<(Option<Box<ForInit>>, &[Token]), Stop>
    ensures gives { Gives (λ x. (init_of x.0, pieces x.1.now)) result (optional Symbol.Semicolon (for_init depth (below depth)) (pieces tokens.now)) }
    ensures fewer { IfOk result (λ x. length x.1.now ≤ length tokens.now) }
{
    match tokens {
        [
            Token {
                kind: TokenKind::Symbol(Symbol::Semicolon),
                ..
            },
            rest @ ..,
        ] => Ok((None, rest)),
        _ => parse_some_init(alloc, depth, tokens),
    }
}

// The step of a `for` and a `)`.
#[tactic(auto, unfolding(ss_grammar_statements::specs::Parser::some_of))]
fn parse_some_step(
    alloc: Global,
    depth: u32,
    tokens: &[Token],
) -> Result<(Option<Box<Simple>>, &[Token]), Stop>
    ensures gives { Gives (λ x. (step_of x.0, pieces x.1.now)) result (some_of Symbol.Close (simple depth (below depth)) (pieces tokens.now)) }
    ensures fewer { IfOk result (λ x. length x.1.now ≤ length tokens.now) }
{
    let (step, rest) = parse_simple(alloc, depth, tokens)?;
    let step = Box::new(alloc, step)?;
    let (_, rest) = expect(rest, Symbol::Close)?;
    Ok((Some(step), rest))
}

// The step of a `for`, if there is one, and a `)`.
#[tactic(auto, unfolding(ss_grammar_statements::specs::Parser::optional))]
fn parse_optional_step(
    alloc: Global,
    depth: u32,
    tokens: &[Token],
) -> Result<(Option<Box<Simple>>, &[Token]), Stop>
    ensures gives { Gives (λ x. (step_of x.0, pieces x.1.now)) result (optional Symbol.Close (simple depth (below depth)) (pieces tokens.now)) }
    ensures fewer { IfOk result (λ x. length x.1.now ≤ length tokens.now) }
{
    match tokens {
        [
            Token {
                kind: TokenKind::Symbol(Symbol::Close),
                ..
            },
            rest @ ..,
        ] => Ok((None, rest)),
        _ => parse_some_step(alloc, depth, tokens),
    }
}

/// What is after the `(` of a `for`.
#[tactic(auto, unfolding(ss_grammar_statements::specs::Parser::heading))]
pub fn parse_heading(
    alloc: Global,
    depth: u32,
    tokens: &[Token],
) -> Result<(Heading, &[Token]), Stop>
    ensures gives { Gives (λ x. (heading_of x.0, pieces x.1.now)) result (heading depth (below depth) (nested_below depth) (pieces tokens.now)) }
    ensures fewer { IfOk result (λ x. length x.1.now ≤ length tokens.now) }
{
    let (first, rest) = parse_optional_init(alloc, depth, tokens)?;
    let (test, rest) = parse_optional_value(alloc, depth, rest)?;
    let (step, rest) = parse_optional_step(alloc, depth, rest)?;
    Ok((Heading { first, test, step }, rest))
}

// Invariants, as many as there are.
fn parse_more_invariants(
    alloc: Global,
    depth: u32,
    tokens: &[Token],
) -> Result<(Vec<Expr>, &[Token]), Stop>
    ensures gives { Gives (λ x. (map expr_tree x.0.items, pieces x.1.now)) result (times (the_word Word.Invariant) (λ _. ended (whole_expression depth (below depth))) join_argument (length (pieces tokens.now)) [] (pieces tokens.now)) }
    ensures fewer { IfOk result (λ x. length x.1.now ≤ length tokens.now) }
{
    let mut conditions = Vec::new(alloc);
    let mut rest = tokens;
    while let Some((_, after)) = next_word(rest, Word::Invariant) {
        let (condition, after) = parse_ended(alloc, depth, after)?;
        conditions.push(Box::into_inner(condition))?;
        rest = after;
    }
    Ok((conditions, rest))
}

/// The invariants of a loop.
#[tactic(auto, unfolding(ss_grammar_statements::specs::Parser::invariants))]
pub fn parse_invariants(
    alloc: Global,
    depth: u32,
    tokens: &[Token],
) -> Result<(Vec<Expr>, &[Token]), Stop>
    ensures gives { Gives (λ x. (map expr_tree x.0.items, pieces x.1.now)) result (invariants depth (below depth) (nested_below depth) (pieces tokens.now)) }
    ensures fewer { IfOk result (λ x. length x.1.now ≤ length tokens.now) }
{
    parse_more_invariants(alloc, depth, tokens)
}

/// `at` and a name, where they are there.
#[tactic(auto, unfolding(ss_grammar_statements::specs::Parser::at_end))]
pub fn parse_level(depth: u32, tokens: &[Token]) -> Result<(Option<Name>, &[Token]), Stop>
    ensures gives { Gives (λ x. (option_map name_tree x.0, pieces x.1.now)) result (at_end depth (below depth) (nested_below depth) (pieces tokens.now)) }
    ensures fewer { IfOk result (λ x. length x.1.now ≤ length tokens.now) }
{
    match next_word(tokens, Word::At) {
        Some((_, rest)) => {
            let (name, rest) = expect_name(rest)?;
            Ok((Some(name), rest))
        }
        None => Ok((None, tokens)),
    }
}
