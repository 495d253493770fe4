// Types.

ghost use Rattle.std.specs.Prelude.{◌<◌, ◌≤◌, length, IfOk};
ghost use Rattle.ss_ast.specs.Expressions.{type_tree};
ghost use Rattle.ss_grammar.specs.Reading.{take};
ghost use Rattle.ss_grammar.specs.Stops.{Gives};
ghost use Rattle.ss_grammar_expressions.specs.Heads.{pieces, type_head};
ghost use Rattle.ss_grammar_expressions.specs.Grammar.{TheTypeEnd};
ghost use Rattle.ss_grammar_expressions.specs.Parser.{below, brackets, bang_end, type_end, plain_type};
ghost use Rattle.ss_parser_expression_trees.specs.View.{start_of};

use ss_ast::{Symbol, Token, TokenKind, TypeRef};
use ss_grammar::fault::{Fault, Stop};
use ss_parser_expression_trees::heads::{Start, expect, expect_type};

/// A type.
#[tactic(auto)]
pub fn parse_type(depth: u32, tokens: &[Token]) -> Result<(TypeRef, &[Token]), Stop>
    ensures gives { Gives (λ x. (type_tree x.0, pieces x.1.now)) result (take type_head (type_end depth) (pieces tokens.now)) }
    ensures fewer { IfOk result (λ x. length x.1.now < length tokens.now) }
{
    let (start, rest) = expect_type(tokens)?;
    parse_type_end(depth, start, rest)
}

// `[` and `]`, where they are there.
#[tactic(auto, unfolding(ss_grammar_expressions::specs::Parser::brackets))]
fn parse_brackets(depth: u32, tokens: &[Token]) -> Result<(bool, &[Token]), Stop>
    ensures gives { Gives (λ x. (x.0, pieces x.1.now)) result (brackets depth (pieces tokens.now)) }
    ensures fewer { IfOk result (λ x. length x.1.now ≤ length tokens.now) }
{
    match tokens {
        [
            Token {
                kind: TokenKind::Symbol(Symbol::OpenBracket),
                ..
            },
            rest @ ..,
        ] => {
            if depth == 0 {
                return Err(Stop::Fault(Fault::TooDeep, tokens.len()));
            }
            let (_, rest) = expect(rest, Symbol::CloseBracket)?;
            Ok((true, rest))
        }
        _ => Ok((false, tokens)),
    }
}

/// `!`, where it is there.
#[tactic(auto, unfolding(ss_grammar_expressions::specs::Parser::bang_end))]
pub fn parse_bang(tokens: &[Token]) -> Result<(bool, &[Token]), Stop>
    ensures gives { Gives (λ x. (x.0, pieces x.1.now)) result (bang_end (pieces tokens.now)) }
    ensures fewer { IfOk result (λ x. length x.1.now ≤ length tokens.now) }
{
    match tokens {
        [
            Token {
                kind: TokenKind::Symbol(Symbol::Bang),
                ..
            },
            rest @ ..,
        ] => Ok((true, rest)),
        _ => Ok((false, tokens)),
    }
}

/// A type, after its word or name.
#[tactic(auto, unfolding(ss_grammar_expressions::specs::Parser::type_end))]
pub fn parse_type_end(
    depth: u32,
    start: Start,
    tokens: &[Token],
) -> Result<(TypeRef, &[Token]), Stop>
    ensures gives { Gives (λ x. (type_tree x.0, pieces x.1.now)) result (type_end depth (start_of start) (pieces tokens.now)) }
    ensures fewer { IfOk result (λ x. length x.1.now ≤ length tokens.now) }
{
    let (is_array, rest) = parse_brackets(depth, tokens)?;
    let (non_null, rest) = parse_bang(rest)?;
    let Start { place, name } = start;
    Ok((
        TypeRef {
            place,
            name,
            is_array,
            non_null,
        },
        rest,
    ))
}

/// A type after `is` or `as`, where a `!` is not read.
#[tactic(auto, unfolding(ss_grammar_expressions::specs::Parser::plain_type))]
pub fn parse_plain_type(depth: u32, tokens: &[Token]) -> Result<(TypeRef, &[Token]), Stop>
    ensures gives { Gives (λ x. (type_tree x.0, pieces x.1.now)) result (plain_type depth (pieces tokens.now)) }
    ensures fewer { IfOk result (λ x. length x.1.now ≤ length tokens.now) }
{
    let (start, rest) = expect_type(tokens)?;
    let (is_array, rest) = parse_brackets(depth, rest)?;
    let Start { place, name } = start;
    Ok((
        TypeRef {
            place,
            name,
            is_array,
            non_null: false,
        },
        rest,
    ))
}

/// A type after `(` and its word.
#[tactic(auto, using(crate::proofs::Readers::inner_is))]
pub fn inner_type_end(
    depth: u32,
    start: Start,
    tokens: &[Token],
) -> Result<(TypeRef, &[Token]), Stop>
    requires { 0 < depth }
    ensures gives { Gives (λ x. (type_tree x.0, pieces x.1.now)) result (below depth (TheTypeEnd (start_of start)) (pieces tokens.now)) }
    ensures fewer { IfOk result (λ x. length x.1.now ≤ length tokens.now) }
{
    parse_type_end(depth - 1, start, tokens)
}
