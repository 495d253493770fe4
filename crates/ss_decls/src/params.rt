// Attributes and parameters.

ghost use Rattle.std.specs.Prelude.{◌<◌, ◌≤◌, ◌-◌, length, map, IfOk, IfSome};
ghost use Rattle.ss_ast.specs.Expressions.{name_tree};
ghost use Rattle.ss_ast.specs.Programs.{param_tree};
ghost use Rattle.ss_grammar.specs.Reading.{times, one_more};
ghost use Rattle.ss_grammar.specs.Stops.{Gives, GivesMore};
ghost use Rattle.ss_grammar_expressions.specs.First.{tokened};
ghost use Rattle.ss_grammar_expressions.specs.Heads.{the, pieces};
ghost use Rattle.ss_grammar_programs.specs.Grammar.{push_after};
ghost use Rattle.ss_grammar_programs.specs.Parser.{attribute_end, attribute, attributes, parameter, params, some_params, params_end, parameters};

use ss_ast::{Name, Param, Symbol, Token, TokenKind};
use ss_core::Place;
use ss_grammar::fault::{Fault, Stop};
use ss_parser_expression_trees::heads::{expect, expect_name};
use ss_parser_expressions::types::parse_type;
use std::alloc::Global;

// What is after the `[` of an attribute, which stands at `place`.
#[tactic(auto, unfolding(ss_grammar_programs::specs::Parser::attribute_end))]
fn parse_attribute_end(place: Place, tokens: &[Token]) -> Result<(Name, &[Token]), Stop>
    ensures gives { Gives (λ x. (name_tree x.0, pieces x.1.now)) result (attribute_end place (pieces tokens.now)) }
    ensures fewer { IfOk result (λ x. length x.1.now < length tokens.now) }
{
    let (name, rest) = expect_name(tokens)?;
    let (_, rest) = expect(rest, Symbol::CloseBracket)?;
    let attribute = Name {
        text: name.text,
        place,
    };
    Ok((attribute, rest))
}

// An attribute, where one begins.
fn next_attribute(depth: u32, tokens: &[Token]) -> Result<Option<(Name, &[Token])>, Stop>
    ensures gives { GivesMore (λ x. (name_tree x.0, pieces x.1.now)) result (one_more (tokened (the Symbol.OpenBracket)) (attribute depth) (pieces tokens.now)) }
    ensures fewer { IfOk result (λ more. IfSome more (λ x. length x.1.now < length tokens.now)) }
{
    match tokens {
        [
            Token {
                kind: TokenKind::Symbol(Symbol::OpenBracket),
                place,
            },
            rest @ ..,
        ] => {
            if depth == 0 {
                return Err(Stop::Fault(Fault::TooDeep, tokens.len()));
            }
            Ok(Some(parse_attribute_end(*place, rest)?))
        }
        _ => Ok(None),
    }
}

/// The attributes that stand here, each a name at the place of its `[`.
#[tactic(auto, unfolding(ss_grammar_programs::specs::Parser::attributes))]
pub fn parse_attributes(
    alloc: Global,
    depth: u32,
    tokens: &[Token],
) -> Result<(Vec<Name>, &[Token]), Stop>
    ensures gives { Gives (λ x. (map name_tree x.0.items, pieces x.1.now)) result (attributes depth (pieces tokens.now)) }
    ensures fewer { IfOk result (λ x. length x.1.now ≤ length tokens.now) }
{
    let mut names = Vec::new(alloc);
    let mut rest = tokens;
    while let Some((name, after)) = next_attribute(depth, rest)? {
        names.push(name)?;
        rest = after;
    }
    Ok((names, rest))
}

#[tactic(auto, unfolding(ss_grammar_programs::specs::Parser::parameter, ss_grammar_programs::specs::Parser::full_type))]
fn parse_param(alloc: Global, depth: u32, tokens: &[Token]) -> Result<(Param, &[Token]), Stop>
    ensures gives { Gives (λ x. (param_tree x.0, pieces x.1.now)) result (parameter depth (pieces tokens.now)) }
    ensures fewer { IfOk result (λ x. length x.1.now < length tokens.now) }
{
    let (attributes, rest) = parse_attributes(alloc, depth, tokens)?;
    let (ty, rest) = parse_type(depth, rest)?;
    let (name, rest) = expect_name(rest)?;
    Ok((
        Param {
            attributes,
            ty,
            name,
        },
        rest,
    ))
}

// A further parameter after a `,`, where one stands.
fn next_param(
    alloc: Global,
    depth: u32,
    tokens: &[Token],
) -> Result<Option<(Param, &[Token])>, Stop>
    ensures gives { GivesMore (λ x. (param_tree x.0, pieces x.1.now)) result (one_more (the Symbol.Comma) (λ _. parameter depth) (pieces tokens.now)) }
    ensures fewer { IfOk result (λ more. IfSome more (λ x. length x.1.now < length tokens.now)) }
{
    match tokens {
        [
            Token {
                kind: TokenKind::Symbol(Symbol::Comma),
                ..
            },
            rest @ ..,
        ] => Ok(Some(parse_param(alloc, depth, rest)?)),
        _ => Ok(None),
    }
}

fn parse_more_params(
    alloc: Global,
    depth: u32,
    first: Vec<Param>,
    tokens: &[Token],
) -> Result<(Vec<Param>, &[Token]), Stop>
    ensures gives { Gives (λ x. (map param_tree x.0.items, pieces x.1.now)) result (times (the Symbol.Comma) (λ _. parameter depth) push_after (length (pieces tokens.now)) (map param_tree first.items) (pieces tokens.now)) }
    ensures fewer { IfOk result (λ x. length x.1.now ≤ length tokens.now) }
{
    let mut params = first;
    let mut rest = tokens;
    while let Some((param, after)) = next_param(alloc, depth, rest)? {
        params.push(param)?;
        rest = after;
    }
    Ok((params, rest))
}

#[tactic(auto, unfolding(ss_grammar_programs::specs::Parser::params))]
fn parse_params(alloc: Global, depth: u32, tokens: &[Token]) -> Result<(Vec<Param>, &[Token]), Stop>
    ensures gives { Gives (λ x. (map param_tree x.0.items, pieces x.1.now)) result (params depth (pieces tokens.now)) }
    ensures fewer { IfOk result (λ x. length x.1.now ≤ length tokens.now) }
{
    let (first, rest) = parse_param(alloc, depth, tokens)?;
    let mut params = Vec::new(alloc);
    params.push(first)?;
    parse_more_params(alloc, depth, params, rest)
}

#[tactic(auto, unfolding(ss_grammar_programs::specs::Parser::some_params))]
fn parse_some_params(
    alloc: Global,
    depth: u32,
    tokens: &[Token],
) -> Result<(Vec<Param>, &[Token]), Stop>
    ensures gives { Gives (λ x. (map param_tree x.0.items, pieces x.1.now)) result (some_params depth (pieces tokens.now)) }
    ensures fewer { IfOk result (λ x. length x.1.now ≤ length tokens.now) }
{
    let (params, rest) = parse_params(alloc, depth, tokens)?;
    let (_, rest) = expect(rest, Symbol::Close)?;
    Ok((params, rest))
}

// Parameters, or none, and `)`.
#[tactic(auto, unfolding(ss_grammar_programs::specs::Parser::params_end))]
fn parse_params_end(
    alloc: Global,
    depth: u32,
    tokens: &[Token],
) -> Result<(Vec<Param>, &[Token]), Stop>
    ensures gives { Gives (λ x. (map param_tree x.0.items, pieces x.1.now)) result (params_end depth (pieces tokens.now)) }
    ensures fewer { IfOk result (λ x. length x.1.now ≤ length tokens.now) }
{
    match tokens {
        [
            Token {
                kind: TokenKind::Symbol(Symbol::Close),
                ..
            },
            rest @ ..,
        ] => Ok((Vec::new(alloc), rest)),
        _ => parse_some_params(alloc, depth, tokens),
    }
}

/// Parameters, or none, between `(` and `)`.
#[tactic(auto, unfolding(ss_grammar_programs::specs::Parser::parameters))]
pub fn parse_parameters(
    alloc: Global,
    depth: u32,
    tokens: &[Token],
) -> Result<(Vec<Param>, &[Token]), Stop>
    ensures gives { Gives (λ x. (map param_tree x.0.items, pieces x.1.now)) result (parameters depth (pieces tokens.now)) }
    ensures fewer { IfOk result (λ x. length x.1.now ≤ length tokens.now) }
{
    match tokens {
        [
            Token {
                kind: TokenKind::Symbol(Symbol::Open),
                ..
            },
            rest @ ..,
        ] => {
            if depth == 0 {
                return Err(Stop::Fault(Fault::TooDeep, tokens.len()));
            }
            parse_params_end(alloc, depth - 1, rest)
        }
        _ => Err(Stop::Fault(Fault::Expected, tokens.len())),
    }
}
