// Declarations.

ghost use Rattle.std.specs.Prelude.{◌≤◌, length, map, IfOk};
ghost use Rattle.ss_ast.specs.Expressions.{type_tree, name_tree};
ghost use Rattle.ss_ast.specs.Statements.{declarator_tree, for_init_tree};
ghost use Rattle.ss_grammar.specs.Reading.{times};
ghost use Rattle.ss_grammar.specs.Stops.{Gives};
ghost use Rattle.ss_grammar_expressions.specs.Heads.{the, pieces};
ghost use Rattle.ss_grammar_expressions.specs.Parser.{below};
ghost use Rattle.ss_grammar_statements.specs.Grammar.{join_declarator};
ghost use Rattle.ss_grammar_statements.specs.Parser.{initial, declarator, decls_from, decls, declaration};

use ss_ast::{Declarator, ForInit, Name, Symbol, Token, TokenKind, TypeRef};
use ss_grammar::fault::Stop;
use ss_parser_expression_trees::heads::{expect_name, next_symbol};
use ss_parser_expressions::expressions::parse_expression;
use ss_parser_statement_trees::build;
use std::alloc::Global;

// What a declared name begins with, where it is written.
#[tactic(auto, unfolding(ss_grammar_statements::specs::Parser::initial))]
fn parse_initial(
    alloc: Global,
    depth: u32,
    name: Name,
    tokens: &[Token],
) -> Result<(Declarator, &[Token]), Stop>
    ensures gives { Gives (λ x. (declarator_tree x.0, pieces x.1.now)) result (initial depth (below depth) (name_tree name) (pieces tokens.now)) }
    ensures fewer { IfOk result (λ x. length x.1.now ≤ length tokens.now) }
{
    match tokens {
        [
            Token {
                kind: TokenKind::Symbol(Symbol::Equal),
                ..
            },
            rest @ ..,
        ] => {
            let (value, rest) = parse_expression(alloc, depth, rest)?;
            Ok((build::declarator(name, Some(value)), rest))
        }
        _ => Ok((build::declarator(name, None), tokens)),
    }
}

// A declared name and what it begins with.
#[tactic(auto, unfolding(ss_grammar_statements::specs::Parser::declarator))]
fn parse_declarator(
    alloc: Global,
    depth: u32,
    tokens: &[Token],
) -> Result<(Declarator, &[Token]), Stop>
    ensures gives { Gives (λ x. (declarator_tree x.0, pieces x.1.now)) result (declarator depth (below depth) (pieces tokens.now)) }
    ensures fewer { IfOk result (λ x. length x.1.now ≤ length tokens.now) }
{
    let (name, rest) = expect_name(tokens)?;
    parse_initial(alloc, depth, name, rest)
}

// The declared names after the first.
fn parse_more_declarators(
    alloc: Global,
    depth: u32,
    first: Vec<Declarator>,
    tokens: &[Token],
) -> Result<(Vec<Declarator>, &[Token]), Stop>
    ensures gives { Gives (λ x. (map declarator_tree x.0.items, pieces x.1.now)) result (times (the Symbol.Comma) (λ _. declarator depth (below depth)) join_declarator (length (pieces tokens.now)) (map declarator_tree first.items) (pieces tokens.now)) }
    ensures fewer { IfOk result (λ x. length x.1.now ≤ length tokens.now) }
{
    let mut declarators = first;
    let mut rest = tokens;
    while let Some((_, after)) = next_symbol(rest, Symbol::Comma) {
        let (next, after) = parse_declarator(alloc, depth, after)?;
        declarators.push(next)?;
        rest = after;
    }
    Ok((declarators, rest))
}

/// The declarators of a declaration, after the first name.
#[tactic(auto, unfolding(ss_grammar_statements::specs::Parser::decls_from))]
pub fn parse_decls_from(
    alloc: Global,
    depth: u32,
    name: Name,
    tokens: &[Token],
) -> Result<(Vec<Declarator>, &[Token]), Stop>
    ensures gives { Gives (λ x. (map declarator_tree x.0.items, pieces x.1.now)) result (decls_from depth (below depth) (name_tree name) (pieces tokens.now)) }
    ensures fewer { IfOk result (λ x. length x.1.now ≤ length tokens.now) }
{
    let (first, rest) = parse_initial(alloc, depth, name, tokens)?;
    let mut declarators = Vec::new(alloc);
    declarators.push(first)?;
    parse_more_declarators(alloc, depth, declarators, rest)
}

/// The declarators of a declaration.
#[tactic(auto, unfolding(ss_grammar_statements::specs::Parser::decls))]
pub fn parse_decls(
    alloc: Global,
    depth: u32,
    tokens: &[Token],
) -> Result<(Vec<Declarator>, &[Token]), Stop>
    ensures gives { Gives (λ x. (map declarator_tree x.0.items, pieces x.1.now)) result (decls depth (below depth) (pieces tokens.now)) }
    ensures fewer { IfOk result (λ x. length x.1.now ≤ length tokens.now) }
{
    let (name, rest) = expect_name(tokens)?;
    parse_decls_from(alloc, depth, name, rest)
}

/// A declaration, after its type.
#[tactic(auto, unfolding(ss_grammar_statements::specs::Parser::declaration))]
pub fn parse_declaration(
    alloc: Global,
    depth: u32,
    ty: TypeRef,
    tokens: &[Token],
) -> Result<(ForInit, &[Token]), Stop>
    ensures gives { Gives (λ x. (for_init_tree x.0, pieces x.1.now)) result (declaration depth (below depth) (type_tree ty) (pieces tokens.now)) }
    ensures fewer { IfOk result (λ x. length x.1.now ≤ length tokens.now) }
{
    let (declarators, rest) = parse_decls(alloc, depth, tokens)?;
    Ok((build::declaration(ty, declarators), rest))
}
