// Simple statements, and declarations told apart from them.

ghost use Rattle.std.specs.Prelude.{◌<◌, ◌≤◌, length, IfOk};
ghost use Rattle.ss_ast.specs.Tokens.{tok};
ghost use Rattle.ss_ast.specs.Expressions.{expr_tree, name_tree};
ghost use Rattle.ss_ast.specs.Statements.{for_init_tree, simple_tree};
ghost use Rattle.ss_grammar.specs.Stops.{Gives};
ghost use Rattle.ss_grammar_expressions.specs.Heads.{pieces, AToken};
ghost use Rattle.ss_grammar_expressions.specs.Grammar.{named};
ghost use Rattle.ss_grammar_expressions.specs.Parser.{below, opened};
ghost use Rattle.ss_grammar_statements.specs.Heads.{prim_opens, start_opens, NextName, PrimFirst};
ghost use Rattle.ss_grammar_statements.specs.Parser.{simple_end, simple, simple_then, simple_from, array_declared, element_first, element_or_declared, next_behind, name_after, start_after, for_init};
ghost use Rattle.ss_parser_statement_trees.specs.View.{prim_start_of, init_start_of};

use crate::declarations::{parse_declaration, parse_decls_from};
use crate::posts::{parse_post, parse_post_from};
use ss_ast::{Expr, ForInit, Name, Simple, Symbol, Token, TokenKind};
use ss_core::Place;
use ss_grammar::fault::{Fault, Stop};
use ss_parser_expression_trees::build::{element_of, name_expr};
use ss_parser_expression_trees::heads::expect;
use ss_parser_expressions::arguments::parse_index_end;
use ss_parser_expressions::expressions::parse_expression;
use ss_parser_expressions::paths::parse_postfixes;
use ss_parser_expressions::types::{parse_bang, parse_type_end};
use ss_parser_statement_trees::build;
use ss_parser_statement_trees::heads::{
    InitStart, PrimStart, SimpleStart, init_start, simple_start,
};
use std::alloc::Global;

// What is after the path of a simple statement.
#[tactic(auto, unfolding(ss_grammar_statements::specs::Parser::simple_end, ss_grammar_statements::specs::Parser::simple_after))]
fn parse_simple_end(
    alloc: Global,
    depth: u32,
    path: Box<Expr>,
    tokens: &[Token],
) -> Result<(Simple, &[Token]), Stop>
    ensures gives { Gives (λ x. (simple_tree x.0, pieces x.1.now)) result (simple_end depth (below depth) (expr_tree path.value) (pieces tokens.now)) }
    ensures fewer { IfOk result (λ x. length x.1.now ≤ length tokens.now) }
{
    match tokens {
        [Token { kind, .. }, rest @ ..] => match kind {
            TokenKind::Symbol(symbol) => match simple_start(*symbol) {
                Some(SimpleStart::Assign(operator)) => {
                    let (value, rest) = parse_expression(alloc, depth, rest)?;
                    Ok((build::assign(path, operator, value), rest))
                }
                Some(SimpleStart::Step(operator)) => Ok((build::step(path, operator), rest)),
                None => Ok((build::alone(path), tokens)),
            },
            _ => Ok((build::alone(path), tokens)),
        },
        _ => Ok((build::alone(path), tokens)),
    }
}

/// A simple statement.
#[tactic(auto, unfolding(ss_grammar_statements::specs::Parser::simple))]
pub fn parse_simple(alloc: Global, depth: u32, tokens: &[Token]) -> Result<(Simple, &[Token]), Stop>
    ensures gives { Gives (λ x. (simple_tree x.0, pieces x.1.now)) result (simple depth (below depth) (pieces tokens.now)) }
    ensures fewer { IfOk result (λ x. length x.1.now ≤ length tokens.now) }
{
    let (path, rest) = parse_post(alloc, depth, tokens)?;
    parse_simple_end(alloc, depth, path, rest)
}

// The same, where a declaration could have stood.
#[tactic(auto, unfolding(ss_grammar_statements::specs::Parser::simple_then))]
fn parse_simple_then(
    alloc: Global,
    depth: u32,
    path: Box<Expr>,
    tokens: &[Token],
) -> Result<(ForInit, &[Token]), Stop>
    ensures gives { Gives (λ x. (for_init_tree x.0, pieces x.1.now)) result (simple_then depth (below depth) (expr_tree path.value) (pieces tokens.now)) }
    ensures fewer { IfOk result (λ x. length x.1.now ≤ length tokens.now) }
{
    let (simple, rest) = parse_simple_end(alloc, depth, path, tokens)?;
    Ok((ForInit::Simple(simple), rest))
}

// A simple statement, after the beginning of its path.
#[tactic(auto, unfolding(ss_grammar_statements::specs::Parser::simple_from))]
fn parse_simple_from(
    alloc: Global,
    depth: u32,
    place: Place,
    path: Box<Expr>,
    tokens: &[Token],
) -> Result<(ForInit, &[Token]), Stop>
    ensures gives { Gives (λ x. (for_init_tree x.0, pieces x.1.now)) result (simple_from depth (below depth) place (expr_tree path.value) (pieces tokens.now)) }
    ensures fewer { IfOk result (λ x. length x.1.now ≤ length tokens.now) }
{
    let (path, rest) = parse_postfixes(alloc, depth, place, path, tokens)?;
    parse_simple_then(alloc, depth, path, rest)
}

// A declaration, after a name and `[`.
#[tactic(auto, unfolding(ss_grammar_statements::specs::Parser::array_declared))]
fn parse_array_declared(
    alloc: Global,
    depth: u32,
    name: Name,
    tokens: &[Token],
) -> Result<(ForInit, &[Token]), Stop>
    ensures gives { Gives (λ x. (for_init_tree x.0, pieces x.1.now)) result (array_declared depth (below depth) (name_tree name) (pieces tokens.now)) }
    ensures fewer { IfOk result (λ x. length x.1.now ≤ length tokens.now) }
{
    let (_, rest) = expect(tokens, Symbol::CloseBracket)?;
    let (non_null, rest) = parse_bang(rest)?;
    parse_declaration(alloc, depth, build::array_class(name, non_null), rest)
}

// A simple statement, after a name and `[`.
#[tactic(auto, unfolding(ss_grammar_statements::specs::Parser::element_first))]
fn parse_element_first(
    alloc: Global,
    depth: u32,
    name: Name,
    tokens: &[Token],
) -> Result<(ForInit, &[Token]), Stop>
    requires { 0 < depth }
    ensures gives { Gives (λ x. (for_init_tree x.0, pieces x.1.now)) result (element_first depth (below depth) (name_tree name) (pieces tokens.now)) }
    ensures fewer { IfOk result (λ x. length x.1.now ≤ length tokens.now) }
{
    let (index, rest) = parse_index_end(alloc, depth, tokens)?;
    let place = name.place;
    let path = element_of(alloc, name, index)?;
    parse_simple_from(alloc, depth, place, path, rest)
}

// A declaration or a simple statement, after a name and `[`.
#[tactic(auto, unfolding(ss_grammar_statements::specs::Parser::element_or_declared))]
fn parse_element_or_declared(
    alloc: Global,
    depth: u32,
    name: Name,
    tokens: &[Token],
) -> Result<(ForInit, &[Token]), Stop>
    requires { 0 < depth }
    ensures gives { Gives (λ x. (for_init_tree x.0, pieces x.1.now)) result (element_or_declared depth (below depth) (name_tree name) (pieces tokens.now)) }
    ensures fewer { IfOk result (λ x. length x.1.now ≤ length tokens.now) }
{
    match tokens {
        [
            Token {
                kind: TokenKind::Symbol(Symbol::CloseBracket),
                ..
            },
            ..
        ] => parse_array_declared(alloc, depth, name, tokens),
        _ => parse_element_first(alloc, depth, name, tokens),
    }
}

// A declaration whose type is the first of two names.
#[tactic(auto, unfolding(ss_grammar_statements::specs::Parser::next_behind))]
fn parse_two_names(
    alloc: Global,
    depth: u32,
    ty: Name,
    name: Name,
    tokens: &[Token],
) -> Result<(ForInit, &[Token]), Stop>
    ensures gives { Gives (λ x. (for_init_tree x.0, pieces x.1.now)) result (next_behind depth (below depth) (name_tree ty) (NextName (name_tree name)) (pieces tokens.now)) }
    ensures fewer { IfOk result (λ x. length x.1.now ≤ length tokens.now) }
{
    let (declarators, rest) = parse_decls_from(alloc, depth, name, tokens)?;
    Ok((
        build::declaration(build::plain_class(ty, false), declarators),
        rest,
    ))
}

// A declaration or a simple statement, after the name that it begins with.
#[tactic(auto, unfolding(ss_grammar_statements::specs::Parser::name_after, ss_grammar_statements::specs::Parser::next_behind))]
fn parse_name_after(
    alloc: Global,
    depth: u32,
    name: Name,
    tokens: &[Token],
) -> Result<(ForInit, &[Token]), Stop>
    ensures gives { Gives (λ x. (for_init_tree x.0, pieces x.1.now)) result (name_after depth (below depth) (name_tree name) (pieces tokens.now)) }
    ensures fewer { IfOk result (λ x. length x.1.now ≤ length tokens.now) }
{
    match tokens {
        [Token { kind, place }, rest @ ..] => match kind {
            TokenKind::Name(text) => {
                let declared = Name {
                    text: text.clone()?,
                    place: *place,
                };
                parse_two_names(alloc, depth, name, declared, rest)
            }
            TokenKind::Symbol(Symbol::Bang) => {
                parse_declaration(alloc, depth, build::plain_class(name, true), rest)
            }
            TokenKind::Symbol(Symbol::OpenBracket) => {
                if depth == 0 {
                    return Err(Stop::Fault(Fault::TooDeep, tokens.len()));
                }
                parse_element_or_declared(alloc, depth, name, rest)
            }
            _ => parse_named_path(alloc, depth, name, tokens),
        },
        _ => parse_named_path(alloc, depth, name, tokens),
    }
}

// A simple statement, after the name that it begins with.
fn parse_named_path(
    alloc: Global,
    depth: u32,
    name: Name,
    tokens: &[Token],
) -> Result<(ForInit, &[Token]), Stop>
    ensures gives { Gives (λ x. (for_init_tree x.0, pieces x.1.now)) result (simple_from depth (below depth) name.place (named (name_tree name)) (pieces tokens.now)) }
    ensures fewer { IfOk result (λ x. length x.1.now ≤ length tokens.now) }
{
    let place = name.place;
    let path = name_expr(alloc, name)?;
    parse_simple_from(alloc, depth, place, path, tokens)
}

// A simple statement, from what its path begins with on; `first` is its first token.
#[tactic(auto, using(crate::proofs::Opened::path_first))]
fn parse_path_start<'a>(
    alloc: Global,
    depth: u32,
    start: PrimStart,
    first: &Token,
    tokens: &'a [Token],
) -> Result<(ForInit, &'a [Token]), Stop>
    ensures gives { Gives (λ x. (for_init_tree x.0, pieces x.1.now)) result (opened (prim_opens (prim_start_of start)) depth (start_after depth (below depth) (PrimFirst (prim_start_of start))) (AToken (tok first.now)) (pieces tokens.now)) }
    ensures fewer { IfOk result (λ x. length x.1.now ≤ length tokens.now) }
{
    let (path, rest) = parse_post_from(alloc, depth, start, first, tokens)?;
    parse_simple_then(alloc, depth, path, rest)
}

/// A declaration or a simple statement, from what it begins with on; `first` is its first token.
#[tactic(auto, unfolding(ss_grammar_statements::specs::Parser::start_after))]
pub fn parse_start<'a>(
    alloc: Global,
    depth: u32,
    start: InitStart,
    first: &Token,
    tokens: &'a [Token],
) -> Result<(ForInit, &'a [Token]), Stop>
    ensures gives { Gives (λ x. (for_init_tree x.0, pieces x.1.now)) result (opened (start_opens (init_start_of start)) depth (start_after depth (below depth) (init_start_of start)) (AToken (tok first.now)) (pieces tokens.now)) }
    ensures fewer { IfOk result (λ x. length x.1.now ≤ length tokens.now) }
{
    match start {
        InitStart::Type(ty) => {
            let (ty, rest) = parse_type_end(depth, ty, tokens)?;
            parse_declaration(alloc, depth, ty, rest)
        }
        InitStart::Name(name) => parse_name_after(alloc, depth, name, tokens),
        InitStart::Prim(prim) => parse_path_start(alloc, depth, prim, first, tokens),
    }
}

/// A declaration or a simple statement.
#[tactic(auto, unfolding(ss_grammar_statements::specs::Parser::for_init))]
pub fn parse_for_init(
    alloc: Global,
    depth: u32,
    tokens: &[Token],
) -> Result<(ForInit, &[Token]), Stop>
    ensures gives { Gives (λ x. (for_init_tree x.0, pieces x.1.now)) result (for_init depth (below depth) (pieces tokens.now)) }
    ensures fewer { IfOk result (λ x. length x.1.now ≤ length tokens.now) }
{
    match tokens {
        [token, rest @ ..] => match init_start(alloc, token)? {
            Some(start) => parse_start(alloc, depth, start, token, rest),
            None => Err(Stop::Fault(Fault::Expected, tokens.len())),
        },
        _ => Err(Stop::Fault(Fault::Expected, tokens.len())),
    }
}
