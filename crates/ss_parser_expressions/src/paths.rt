// Paths: a part and its postfixes.

ghost use Rattle.std.specs.Prelude.{◌<◌, ◌≤◌, length, IfOk, IfSome};
ghost use Rattle.ss_ast.specs.Expressions.{expr_tree};
ghost use Rattle.ss_grammar.specs.Reading.{one_more};
ghost use Rattle.ss_grammar.specs.Stops.{Gives, GivesMore};
ghost use Rattle.ss_grammar_expressions.specs.First.{tokened};
ghost use Rattle.ss_grammar_expressions.specs.Heads.{pieces, postfix_head};
ghost use Rattle.ss_grammar_expressions.specs.Parser.{below, postfix, postfixes, new, old, new_end};
ghost use Rattle.ss_ast.specs.Parts.{postfix_after as postfix_tree};
ghost use Rattle.ss_parser_expression_trees.specs.View.{start_of};

use crate::arguments::{parse_args_end, parse_index_end, parse_paren_end};
use ss_ast::{Expr, Name, Postfix, Symbol, Token, TokenKind, TypeName};
use ss_core::Place;
use ss_grammar::fault::{Fault, Stop};
use ss_parser_expression_trees::build;
use ss_parser_expression_trees::heads::{Start, expect_name, expect_type};
use std::alloc::Global;

/// A postfix of a path, where one begins.
#[cycle(expr)]
#[tactic(auto, unfolding(ss_grammar_expressions::specs::Parser::postfix_after))]
pub fn parse_postfix(
    alloc: Global,
    depth: u32,
    tokens: &[Token],
) -> Result<Option<(Postfix, &[Token])>, Stop>
    ensures gives { GivesMore (λ x. (postfix_tree x.0, pieces x.1.now)) result (one_more (tokened postfix_head) (postfix depth (below depth)) (pieces tokens.now)) }
    ensures fewer { IfOk result (λ more. IfSome more (λ x. length x.1.now < length tokens.now)) }
{
    match tokens {
        [Token { kind, .. }, rest @ ..] => match kind {
            TokenKind::Symbol(Symbol::Dot) => {
                let (name, rest) = expect_name(rest)?;
                Ok(Some((build::member(name), rest)))
            }
            TokenKind::Symbol(Symbol::OpenBracket) => {
                if depth == 0 {
                    return Err(Stop::Fault(Fault::TooDeep, tokens.len()));
                }
                let (index, rest) = parse_index_end(alloc, depth, rest)?;
                Ok(Some((build::element(index), rest)))
            }
            TokenKind::Symbol(Symbol::Open) => {
                if depth == 0 {
                    return Err(Stop::Fault(Fault::TooDeep, tokens.len()));
                }
                let (given, rest) = parse_args_end(alloc, depth, rest)?;
                Ok(Some((build::call(given), rest)))
            }
            _ => Ok(None),
        },
        _ => Ok(None),
    }
}

/// The postfixes of a path, joined to its beginning.
#[cycle(expr)]
#[tactic(auto, unfolding(ss_grammar_expressions::specs::Parser::postfixes))]
pub fn parse_postfixes(
    alloc: Global,
    depth: u32,
    place: Place,
    first: Box<Expr>,
    tokens: &[Token],
) -> Result<(Box<Expr>, &[Token]), Stop>
    ensures gives { Gives (λ x. (expr_tree x.0.value, pieces x.1.now)) result (postfixes depth (below depth) place (expr_tree first.value) (pieces tokens.now)) }
    ensures fewer { IfOk result (λ x. length x.1.now ≤ length tokens.now) }
{
    let mut postfixes = Vec::new(alloc);
    let mut rest = tokens;
    while let Some((postfix, after)) = parse_postfix(alloc, depth, rest)? {
        postfixes.push(postfix)?;
        rest = after;
    }
    Ok((build::path(alloc, place, first, postfixes)?, rest))
}

/// What is after `new`.
#[cycle(expr)]
#[tactic(auto, unfolding(ss_grammar_expressions::specs::Parser::new))]
pub fn parse_new(
    alloc: Global,
    depth: u32,
    place: Place,
    tokens: &[Token],
) -> Result<(Box<Expr>, &[Token]), Stop>
    ensures gives { Gives (λ x. (expr_tree x.0.value, pieces x.1.now)) result (new depth (below depth) place (pieces tokens.now)) }
    ensures fewer { IfOk result (λ x. length x.1.now ≤ length tokens.now) }
{
    let (start, rest) = expect_type(tokens)?;
    parse_new_end(alloc, depth, place, start, rest)
}

// What is after `new` and a type.
#[cycle(expr)]
#[tactic(auto, unfolding(ss_grammar_expressions::specs::Parser::new_end, ss_grammar_expressions::specs::Parser::new_after))]
fn parse_new_end(
    alloc: Global,
    depth: u32,
    place: Place,
    start: Start,
    tokens: &[Token],
) -> Result<(Box<Expr>, &[Token]), Stop>
    ensures gives { Gives (λ x. (expr_tree x.0.value, pieces x.1.now)) result (new_end depth (below depth) place (start_of start) (pieces tokens.now)) }
    ensures fewer { IfOk result (λ x. length x.1.now ≤ length tokens.now) }
{
    let Start { place: at, name } = start;
    match tokens {
        [Token { kind, .. }, rest @ ..] => match kind {
            TokenKind::Symbol(Symbol::OpenBracket) => {
                if depth == 0 {
                    return Err(Stop::Fault(Fault::TooDeep, tokens.len()));
                }
                let (length, rest) = parse_index_end(alloc, depth, rest)?;
                Ok((build::new_array(alloc, place, at, name, length)?, rest))
            }
            TokenKind::Symbol(Symbol::Open) => match name {
                TypeName::Class(text) => {
                    if depth == 0 {
                        return Err(Stop::Fault(Fault::TooDeep, tokens.len()));
                    }
                    let (given, rest) = parse_args_end(alloc, depth, rest)?;
                    let name = Name { text, place: at };
                    Ok((build::new_object(alloc, place, name, given)?, rest))
                }
                _ => Err(Stop::Fault(Fault::Expected, tokens.len())),
            },
            _ => Err(Stop::Fault(Fault::Expected, tokens.len())),
        },
        _ => Err(Stop::Fault(Fault::Expected, tokens.len())),
    }
}

/// What is after `old`.
#[cycle(expr)]
#[tactic(auto, unfolding(ss_grammar_expressions::specs::Parser::old, ss_grammar_expressions::specs::Parser::old_after))]
pub fn parse_old(
    alloc: Global,
    depth: u32,
    place: Place,
    tokens: &[Token],
) -> Result<(Box<Expr>, &[Token]), Stop>
    ensures gives { Gives (λ x. (expr_tree x.0.value, pieces x.1.now)) result (old depth (below depth) place (pieces tokens.now)) }
    ensures fewer { IfOk result (λ x. length x.1.now ≤ length tokens.now) }
{
    match tokens {
        [
            Token {
                kind: TokenKind::Symbol(Symbol::Open),
                ..
            },
            rest @ ..,
        ] => {
            if depth == 0 {
                return Err(Stop::Fault(Fault::TooDeep, tokens.len()));
            }
            let (inner, rest) = parse_paren_end(alloc, depth, rest)?;
            Ok((build::old(alloc, place, inner)?, rest))
        }
        _ => Err(Stop::Fault(Fault::Expected, tokens.len())),
    }
}
