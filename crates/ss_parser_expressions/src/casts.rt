// Casts and parentheses.

ghost use Rattle.std.specs.Prelude.{◌<◌, ◌≤◌, length, IfOk};
ghost use Rattle.ss_ast.specs.Expressions.{expr_tree, type_tree, name_tree, ParenOf};
ghost use Rattle.ss_grammar.specs.Stops.{Gives};
ghost use Rattle.ss_grammar_expressions.specs.Heads.{pieces};
ghost use Rattle.ss_grammar_expressions.specs.Grammar.{TheNamed};
ghost use Rattle.ss_grammar_expressions.specs.Parser.{below, postfixes, cast_end, cast_only, bare_end, closed, word_paren, name_paren, other_paren, paren, enclosed};
ghost use Rattle.ss_parser_expression_trees.specs.View.{start_of, inside_of};

use crate::arguments::parse_paren_end;
use crate::enclosed::parse_named;
use crate::paths::parse_postfixes;
use crate::types::inner_type_end;
use crate::unaries::inner_unary;
use ss_ast::{Expr, Name, Symbol, Token, TokenKind, TypeName, TypeRef, Word};
use ss_core::Place;
use ss_grammar::fault::{Fault, Stop};
use ss_parser_expression_trees::build;
use ss_parser_expression_trees::build::Inside;
use ss_parser_expression_trees::heads::{Start, expect, is_castable, type_word};
use std::alloc::Global;

// What is after `(` and a name, up to the `)`.
#[cycle(expr)]
#[tactic(auto, using(crate::proofs::Readers::inner_is))]
fn inner_named(
    alloc: Global,
    depth: u32,
    name: Name,
    tokens: &[Token],
) -> Result<(Inside, &[Token]), Stop>
    requires { 0 < depth }
    ensures gives { Gives (λ x. (inside_of x.0, pieces x.1.now)) result (below depth (TheNamed (name_tree name)) (pieces tokens.now)) }
    ensures fewer { IfOk result (λ x. length x.1.now ≤ length tokens.now) }
{
    parse_named(alloc, depth - 1, name, tokens)
}

// The operand of a cast.
#[cycle(expr)]
#[tactic(auto, unfolding(ss_grammar_expressions::specs::Parser::cast_end))]
fn parse_cast_end(
    alloc: Global,
    depth: u32,
    place: Place,
    ty: TypeRef,
    tokens: &[Token],
) -> Result<(Box<Expr>, &[Token]), Stop>
    requires { 0 < depth }
    ensures gives { Gives (λ x. (expr_tree x.0.value, pieces x.1.now)) result (cast_end depth (below depth) place (type_tree ty) (pieces tokens.now)) }
    ensures fewer { IfOk result (λ x. length x.1.now ≤ length tokens.now) }
{
    let (operand, rest) = inner_unary(alloc, depth, tokens)?;
    Ok((build::cast(alloc, place, ty, operand)?, rest))
}

// The operand of a cast, where the next token may begin one.
#[cycle(expr)]
#[tactic(auto, unfolding(ss_grammar_expressions::specs::Parser::cast_only))]
fn parse_cast_only(
    alloc: Global,
    depth: u32,
    place: Place,
    ty: TypeRef,
    tokens: &[Token],
) -> Result<(Box<Expr>, &[Token]), Stop>
    requires { 0 < depth }
    ensures gives { Gives (λ x. (expr_tree x.0.value, pieces x.1.now)) result (cast_only depth (below depth) place (type_tree ty) (pieces tokens.now)) }
    ensures fewer { IfOk result (λ x. length x.1.now ≤ length tokens.now) }
{
    if is_castable(tokens) {
        parse_cast_end(alloc, depth, place, ty, tokens)
    } else {
        Err(Stop::Fault(Fault::Expected, tokens.len()))
    }
}

// The postfixes of an expression in parentheses.
#[cycle(expr)]
fn parse_after_paren(
    alloc: Global,
    depth: u32,
    place: Place,
    inner: Box<Expr>,
    tokens: &[Token],
) -> Result<(Box<Expr>, &[Token]), Stop>
    ensures gives { Gives (λ x. (expr_tree x.0.value, pieces x.1.now)) result (postfixes depth (below depth) place (ParenOf place (expr_tree inner.value)) (pieces tokens.now)) }
    ensures fewer { IfOk result (λ x. length x.1.now ≤ length tokens.now) }
{
    let inner = build::in_parentheses(alloc, place, inner)?;
    parse_postfixes(alloc, depth, place, inner, tokens)
}

// What is after a name in parentheses.
#[cycle(expr)]
#[tactic(auto, unfolding(ss_grammar_expressions::specs::Parser::bare_end))]
fn parse_bare(
    alloc: Global,
    depth: u32,
    place: Place,
    name: Name,
    tokens: &[Token],
) -> Result<(Box<Expr>, &[Token]), Stop>
    requires { 0 < depth }
    ensures gives { Gives (λ x. (expr_tree x.0.value, pieces x.1.now)) result (bare_end depth (below depth) place (name_tree name) (pieces tokens.now)) }
    ensures fewer { IfOk result (λ x. length x.1.now ≤ length tokens.now) }
{
    if is_castable(tokens) {
        let ty = TypeRef {
            place: name.place,
            name: TypeName::Class(name.text),
            is_array: false,
            non_null: false,
        };
        parse_cast_end(alloc, depth, place, ty, tokens)
    } else {
        let inner = build::name_expr(alloc, name)?;
        parse_after_paren(alloc, depth, place, inner, tokens)
    }
}

// What is after the parentheses that begin with a name.
#[cycle(expr)]
#[tactic(auto, unfolding(ss_grammar_expressions::specs::Parser::closed))]
fn parse_closed(
    alloc: Global,
    depth: u32,
    place: Place,
    inside: Inside,
    tokens: &[Token],
) -> Result<(Box<Expr>, &[Token]), Stop>
    requires { 0 < depth }
    ensures gives { Gives (λ x. (expr_tree x.0.value, pieces x.1.now)) result (closed depth (below depth) place (inside_of inside) (pieces tokens.now)) }
    ensures fewer { IfOk result (λ x. length x.1.now ≤ length tokens.now) }
{
    match inside {
        Inside::Type(ty) => parse_cast_only(alloc, depth, place, ty, tokens),
        Inside::Expr(inner) => parse_after_paren(alloc, depth, place, inner, tokens),
    }
}

// A cast, after `(` and a type's word.
#[cycle(expr)]
#[tactic(auto, unfolding(ss_grammar_expressions::specs::Parser::word_paren))]
fn parse_word_paren(
    alloc: Global,
    depth: u32,
    place: Place,
    start: Start,
    tokens: &[Token],
) -> Result<(Box<Expr>, &[Token]), Stop>
    requires { 0 < depth }
    ensures gives { Gives (λ x. (expr_tree x.0.value, pieces x.1.now)) result (word_paren depth (below depth) place (start_of start) (pieces tokens.now)) }
    ensures fewer { IfOk result (λ x. length x.1.now ≤ length tokens.now) }
{
    let (ty, rest) = inner_type_end(depth, start, tokens)?;
    let (_, rest) = expect(rest, Symbol::Close)?;
    parse_cast_only(alloc, depth, place, ty, rest)
}

// What is after `(` and a name that no `)` follows.
#[cycle(expr)]
#[tactic(auto, unfolding(ss_grammar_expressions::specs::Parser::enclosed))]
fn parse_enclosed(
    alloc: Global,
    depth: u32,
    place: Place,
    name: Name,
    tokens: &[Token],
) -> Result<(Box<Expr>, &[Token]), Stop>
    requires { 0 < depth }
    ensures gives { Gives (λ x. (expr_tree x.0.value, pieces x.1.now)) result (enclosed depth (below depth) place (name_tree name) (pieces tokens.now)) }
    ensures fewer { IfOk result (λ x. length x.1.now ≤ length tokens.now) }
{
    let (inside, rest) = inner_named(alloc, depth, name, tokens)?;
    let (_, rest) = expect(rest, Symbol::Close)?;
    parse_closed(alloc, depth, place, inside, rest)
}

// A cast or an expression in parentheses, after `(` and a name.
#[cycle(expr)]
#[tactic(auto, unfolding(ss_grammar_expressions::specs::Parser::name_paren))]
fn parse_name_paren(
    alloc: Global,
    depth: u32,
    place: Place,
    name: Name,
    tokens: &[Token],
) -> Result<(Box<Expr>, &[Token]), Stop>
    requires { 0 < depth }
    ensures gives { Gives (λ x. (expr_tree x.0.value, pieces x.1.now)) result (name_paren depth (below depth) place (name_tree name) (pieces tokens.now)) }
    ensures fewer { IfOk result (λ x. length x.1.now ≤ length tokens.now) }
{
    match tokens {
        [
            Token {
                kind: TokenKind::Symbol(Symbol::Close),
                ..
            },
            rest @ ..,
        ] => parse_bare(alloc, depth, place, name, rest),
        _ => parse_enclosed(alloc, depth, place, name, tokens),
    }
}

// An expression in parentheses, after the `(`.
#[cycle(expr)]
#[tactic(auto, unfolding(ss_grammar_expressions::specs::Parser::other_paren))]
fn parse_other_paren(
    alloc: Global,
    depth: u32,
    place: Place,
    tokens: &[Token],
) -> Result<(Box<Expr>, &[Token]), Stop>
    requires { 0 < depth }
    ensures gives { Gives (λ x. (expr_tree x.0.value, pieces x.1.now)) result (other_paren depth (below depth) place (pieces tokens.now)) }
    ensures fewer { IfOk result (λ x. length x.1.now ≤ length tokens.now) }
{
    let (inner, rest) = parse_paren_end(alloc, depth, tokens)?;
    parse_after_paren(alloc, depth, place, inner, rest)
}

/// A cast or an expression in parentheses, after the `(`.
#[cycle(expr)]
#[tactic(auto, unfolding(ss_grammar_expressions::specs::Parser::paren))]
pub fn parse_paren(
    alloc: Global,
    depth: u32,
    place: Place,
    tokens: &[Token],
) -> Result<(Box<Expr>, &[Token]), Stop>
    requires { 0 < depth }
    ensures gives { Gives (λ x. (expr_tree x.0.value, pieces x.1.now)) result (paren depth (below depth) place (pieces tokens.now)) }
    ensures fewer { IfOk result (λ x. length x.1.now ≤ length tokens.now) }
{
    match tokens {
        [Token { kind, place: at }, rest @ ..] => match kind {
            TokenKind::Word(word) => match type_word(*at, *word) {
                Some(start) => parse_word_paren(alloc, depth, place, start, rest),
                None => parse_other_paren(alloc, depth, place, tokens),
            },
            TokenKind::Name(text) => {
                let name = Name {
                    text: text.clone()?,
                    place: *at,
                };
                parse_name_paren(alloc, depth, place, name, rest)
            }
            _ => parse_other_paren(alloc, depth, place, tokens),
        },
        _ => parse_other_paren(alloc, depth, place, tokens),
    }
}
