// `expose`

ghost use Rattle.std.specs.Prelude.{◌<◌, ◌≤◌, length, IfOk, option_map};
ghost use Rattle.ss_ast.specs.Expressions.{expr_tree, name_tree};
ghost use Rattle.ss_ast.specs.Statements.{stmt_tree};
ghost use Rattle.ss_grammar.specs.Stops.{Gives};
ghost use Rattle.ss_grammar_expressions.specs.Heads.{pieces};
ghost use Rattle.ss_grammar_expressions.specs.Parser.{below};
ghost use Rattle.ss_grammar_statements.specs.Heads.{ExposeFirst};
ghost use Rattle.ss_grammar_statements.specs.Parser.{expose_body, expose_end, stmt_after, nested_below};

use crate::governed::parse_inner_block;
use crate::headings::parse_level;
use ss_ast::{Expr, Name, Stmt, Symbol, Token, TokenKind};
use ss_core::Place;
use ss_grammar::fault::{Fault, Stop};
use ss_parser_expression_trees::heads::expect;
use ss_parser_expressions::arguments::inner_expression;
use ss_parser_statement_trees::build;
use std::alloc::Global;

// The rest of an `expose`, from its `)` on.
#[cycle(stmt)]
#[tactic(auto, unfolding(ss_grammar_statements::specs::Parser::expose_body))]
fn parse_expose_body(
    alloc: Global,
    depth: u32,
    place: Place,
    object: Box<Expr>,
    level: Option<Name>,
    tokens: &[Token],
) -> Result<(Box<Stmt>, &[Token]), Stop>
    requires { 0 < depth }
    ensures gives { Gives (λ x. (stmt_tree x.0.value, pieces x.1.now)) result (expose_body depth (below depth) (nested_below depth) place (expr_tree object.value) (option_map name_tree level) (pieces tokens.now)) }
    ensures fewer { IfOk result (λ x. length x.1.now ≤ length tokens.now) }
{
    let (_, rest) = expect(tokens, Symbol::Close)?;
    let (body, rest) = parse_inner_block(alloc, depth, rest)?;
    Ok((build::expose(alloc, place, object, level, body)?, rest))
}

// What is after the `(` of an `expose`.
#[cycle(stmt)]
#[tactic(auto, unfolding(ss_grammar_statements::specs::Parser::expose_end))]
fn parse_expose_end(
    alloc: Global,
    depth: u32,
    place: Place,
    tokens: &[Token],
) -> Result<(Box<Stmt>, &[Token]), Stop>
    requires { 0 < depth }
    ensures gives { Gives (λ x. (stmt_tree x.0.value, pieces x.1.now)) result (expose_end depth (below depth) (nested_below depth) place (pieces tokens.now)) }
    ensures fewer { IfOk result (λ x. length x.1.now ≤ length tokens.now) }
{
    let (object, rest) = inner_expression(alloc, depth, tokens)?;
    let (level, rest) = parse_level(depth, rest)?;
    parse_expose_body(alloc, depth, place, object, level, rest)
}

/// What is after `expose`.
#[cycle(stmt)]
#[tactic(auto, unfolding(ss_grammar_statements::specs::Parser::stmt_after))]
pub fn parse_expose(
    alloc: Global,
    depth: u32,
    place: Place,
    tokens: &[Token],
) -> Result<(Box<Stmt>, &[Token]), Stop>
    ensures gives { Gives (λ x. (stmt_tree x.0.value, pieces x.1.now)) result (stmt_after depth (below depth) (nested_below depth) (ExposeFirst place) (pieces tokens.now)) }
    ensures fewer { IfOk result (λ x. length x.1.now ≤ length tokens.now) }
{
    match tokens {
        [
            Token {
                kind: TokenKind::Symbol(Symbol::Open),
                ..
            },
            rest @ ..,
        ] => {
            if depth == 0 {
                return Err(Stop::Fault(Fault::TooDeep, tokens.len()));
            }
            parse_expose_end(alloc, depth, place, rest)
        }
        _ => Err(Stop::Fault(Fault::Expected, tokens.len())),
    }
}
