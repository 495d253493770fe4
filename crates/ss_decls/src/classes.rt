// Classes.

ghost use Rattle.std.specs.Prelude.{◌<◌, ◌≤◌, ◌-◌, length, map, option_map, IfOk, IfSome};
ghost use Rattle.ss_ast.specs.Expressions.{name_tree};
ghost use Rattle.ss_ast.specs.Programs.{class_tree};
ghost use Rattle.ss_grammar.specs.Stops.{Gives, GivesMore};
ghost use Rattle.ss_grammar_expressions.specs.Heads.{pieces};
ghost use Rattle.ss_grammar_programs.specs.Again.{another};
ghost use Rattle.ss_grammar_programs.specs.Heads.{begins_class};
ghost use Rattle.ss_grammar_programs.specs.Parser.{class_end, class_body, class_above, class_named, class_decl, classes, declarations};

use crate::heads::is_class;
use crate::members::parse_members;
use crate::usings::{skip_accesses, skip_usings};
use ss_ast::{ClassDecl, Name, Symbol, Token, TokenKind, Word};
use ss_grammar::fault::{Fault, Stop};
use ss_parser_expression_trees::heads::{expect, expect_name, expect_word};
use std::alloc::Global;

// Members and `}`.
#[tactic(auto, unfolding(ss_grammar_programs::specs::Parser::class_end))]
fn parse_class_end(
    alloc: Global,
    depth: u32,
    name: Name,
    above: Option<Name>,
    tokens: &[Token],
) -> Result<(ClassDecl, &[Token]), Stop>
    ensures gives { Gives (λ x. (class_tree x.0, pieces x.1.now)) result (class_end (name_tree name) (option_map name_tree above) depth (pieces tokens.now)) }
    ensures fewer { IfOk result (λ x. length x.1.now ≤ length tokens.now) }
{
    let (members, rest) = parse_members(alloc, depth, tokens)?;
    let (_, rest) = expect(rest, Symbol::CloseBrace)?;
    Ok((
        ClassDecl {
            name,
            above,
            members,
        },
        rest,
    ))
}

// Members between `{` and `}`.
#[tactic(auto, unfolding(ss_grammar_programs::specs::Parser::class_body))]
fn parse_class_body(
    alloc: Global,
    depth: u32,
    name: Name,
    above: Option<Name>,
    tokens: &[Token],
) -> Result<(ClassDecl, &[Token]), Stop>
    ensures gives { Gives (λ x. (class_tree x.0, pieces x.1.now)) result (class_body depth (name_tree name) (option_map name_tree above) (pieces tokens.now)) }
    ensures fewer { IfOk result (λ x. length x.1.now ≤ length tokens.now) }
{
    match tokens {
        [
            Token {
                kind: TokenKind::Symbol(Symbol::OpenBrace),
                ..
            },
            rest @ ..,
        ] => {
            if depth == 0 {
                return Err(Stop::Fault(Fault::TooDeep, tokens.len()));
            }
            parse_class_end(alloc, depth - 1, name, above, rest)
        }
        _ => Err(Stop::Fault(Fault::Expected, tokens.len())),
    }
}

// The name of the class above, where one is written.
#[tactic(auto, unfolding(ss_grammar_programs::specs::Parser::class_above))]
fn parse_above(tokens: &[Token]) -> Result<(Option<Name>, &[Token]), Stop>
    ensures gives { Gives (λ x. (option_map name_tree x.0, pieces x.1.now)) result (class_above (pieces tokens.now)) }
    ensures fewer { IfOk result (λ x. length x.1.now ≤ length tokens.now) }
{
    match tokens {
        [
            Token {
                kind: TokenKind::Symbol(Symbol::Colon),
                ..
            },
            rest @ ..,
        ] => {
            let (name, rest) = expect_name(rest)?;
            Ok((Some(name), rest))
        }
        _ => Ok((None, tokens)),
    }
}

// What is after `class`.
#[tactic(auto, unfolding(ss_grammar_programs::specs::Parser::class_named))]
fn parse_class_named(
    alloc: Global,
    depth: u32,
    tokens: &[Token],
) -> Result<(ClassDecl, &[Token]), Stop>
    ensures gives { Gives (λ x. (class_tree x.0, pieces x.1.now)) result (class_named depth (pieces tokens.now)) }
    ensures fewer { IfOk result (λ x. length x.1.now ≤ length tokens.now) }
{
    let (name, rest) = expect_name(tokens)?;
    let (above, rest) = parse_above(rest)?;
    parse_class_body(alloc, depth, name, above, rest)
}

#[tactic(auto, unfolding(ss_grammar_programs::specs::Parser::class_decl))]
fn parse_class(alloc: Global, depth: u32, tokens: &[Token]) -> Result<(ClassDecl, &[Token]), Stop>
    ensures gives { Gives (λ x. (class_tree x.0, pieces x.1.now)) result (class_decl depth (pieces tokens.now)) }
    ensures fewer { IfOk result (λ x. length x.1.now < length tokens.now) }
{
    let rest = skip_accesses(tokens);
    let (_, rest) = expect_word(rest, Word::Class)?;
    parse_class_named(alloc, depth, rest)
}

// A class, where one begins.
fn next_class(
    alloc: Global,
    depth: u32,
    tokens: &[Token],
) -> Result<Option<(ClassDecl, &[Token])>, Stop>
    ensures gives { GivesMore (λ x. (class_tree x.0, pieces x.1.now)) result (another begins_class (class_decl depth) (pieces tokens.now)) }
    ensures fewer { IfOk result (λ more. IfSome more (λ x. length x.1.now < length tokens.now)) }
{
    if is_class(tokens) {
        Ok(Some(parse_class(alloc, depth, tokens)?))
    } else {
        Ok(None)
    }
}

#[tactic(auto, unfolding(ss_grammar_programs::specs::Parser::classes))]
fn parse_classes(
    alloc: Global,
    depth: u32,
    tokens: &[Token],
) -> Result<(Vec<ClassDecl>, &[Token]), Stop>
    ensures gives { Gives (λ x. (map class_tree x.0.items, pieces x.1.now)) result (classes depth (pieces tokens.now)) }
    ensures fewer { IfOk result (λ x. length x.1.now ≤ length tokens.now) }
{
    let mut list = Vec::new(alloc);
    let mut rest = tokens;
    while let Some((class, after)) = next_class(alloc, depth, rest)? {
        list.push(class)?;
        rest = after;
    }
    Ok((list, rest))
}

/// The `using` lines and the classes that stand here, and the tokens after them.
#[tactic(auto, unfolding(ss_grammar_programs::specs::Parser::declarations))]
pub fn parse_declarations(
    alloc: Global,
    depth: u32,
    tokens: &[Token],
) -> Result<(Vec<ClassDecl>, &[Token]), Stop>
    ensures gives { Gives (λ x. (map class_tree x.0.items, pieces x.1.now)) result (declarations depth (pieces tokens.now)) }
    ensures fewer { IfOk result (λ x. length x.1.now ≤ length tokens.now) }
{
    let rest = skip_usings(tokens)?;
    parse_classes(alloc, depth, rest)
}
