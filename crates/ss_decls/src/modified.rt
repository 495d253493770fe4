// Terms of `modifies` clauses.

ghost use Rattle.std.specs.Prelude.{◌≡◌, ◌<◌, ◌≤◌, length, map, IfOk, IfSome};
ghost use Rattle.ss_ast.specs.Expressions.{expr_tree, grouped};
ghost use Rattle.ss_ast.specs.Programs.{modified_tree};
ghost use Rattle.ss_grammar.specs.Reading.{times, one_more};
ghost use Rattle.ss_grammar.specs.Stops.{Gives, GivesMore};
ghost use Rattle.ss_grammar_expressions.specs.Heads.{is, the, pieces, postfix_head};
ghost use Rattle.ss_grammar_programs.specs.Again.{another};
ghost use Rattle.ss_grammar_programs.specs.Grammar.{push_after};
ghost use Rattle.ss_grammar_programs.specs.Parser.{dot_step, index_step, call_step, step, modified_from, modified_term, modifies};
ghost use Rattle.ss_ast.specs.Parts.{postfix_after};
ghost use Rattle.ss_decls.specs.View.{step_of};

use ss_ast::{Expr, Modified, Postfix, Symbol, Token, TokenKind};
use ss_core::Place;
use ss_grammar::fault::{Fault, Stop};
use ss_parser::posts::parse_prim;
use ss_parser_expression_trees::build;
use ss_parser_expression_trees::heads::{expect, expect_name};
use ss_parser_expressions::arguments::{parse_args_end, parse_index_end};
use std::alloc::{AllocError, Global};

/// What stands after a path in a term.
#[derive(Drop)]
pub enum TermStep {
    Postfix(Postfix),
    /// `.*`
    All,
    /// `[*]`
    Elements,
}

// What is after a `.`.
#[tactic(auto, unfolding(ss_grammar_programs::specs::Parser::dot_step, ss_grammar_programs::specs::Parser::all_step, ss_grammar_programs::specs::Parser::member_step))]
fn parse_dot_step(tokens: &[Token]) -> Result<(TermStep, &[Token]), Stop>
    ensures gives { Gives (λ x. (step_of x.0, pieces x.1.now)) result (dot_step (pieces tokens.now)) }
    ensures fewer { IfOk result (λ x. length x.1.now ≤ length tokens.now) }
{
    match tokens {
        [
            Token {
                kind: TokenKind::Symbol(Symbol::Star),
                ..
            },
            rest @ ..,
        ] => Ok((TermStep::All, rest)),
        _ => {
            let (name, rest) = expect_name(tokens)?;
            Ok((TermStep::Postfix(build::member(name)), rest))
        }
    }
}

// What is after a `[`.
#[tactic(auto, unfolding(ss_grammar_programs::specs::Parser::index_step, ss_grammar_programs::specs::Parser::elements_step, ss_grammar_programs::specs::Parser::element_step))]
fn parse_index_step(
    alloc: Global,
    depth: u32,
    tokens: &[Token],
) -> Result<(TermStep, &[Token]), Stop>
    requires { 0 < depth }
    ensures gives { Gives (λ x. (step_of x.0, pieces x.1.now)) result (index_step depth (pieces tokens.now)) }
    ensures fewer { IfOk result (λ x. length x.1.now ≤ length tokens.now) }
{
    match tokens {
        [
            Token {
                kind: TokenKind::Symbol(Symbol::Star),
                ..
            },
            rest @ ..,
        ] => {
            let (_, rest) = expect(rest, Symbol::CloseBracket)?;
            Ok((TermStep::Elements, rest))
        }
        _ => {
            let (index, rest) = parse_index_end(alloc, depth, tokens)?;
            Ok((TermStep::Postfix(build::element(index)), rest))
        }
    }
}

// What is after a `(`.
#[tactic(auto, unfolding(ss_grammar_programs::specs::Parser::call_step))]
fn parse_call_step(
    alloc: Global,
    depth: u32,
    tokens: &[Token],
) -> Result<(TermStep, &[Token]), Stop>
    requires { 0 < depth }
    ensures gives { Gives (λ x. (step_of x.0, pieces x.1.now)) result (call_step depth (pieces tokens.now)) }
    ensures fewer { IfOk result (λ x. length x.1.now ≤ length tokens.now) }
{
    let (given, rest) = parse_args_end(alloc, depth, tokens)?;
    Ok((TermStep::Postfix(build::call(given)), rest))
}

// What stands after a path, where something does.
#[tactic(auto, unfolding(ss_grammar_programs::specs::Parser::step, ss_grammar_programs::specs::Parser::step_after))]
fn next_step(
    alloc: Global,
    depth: u32,
    tokens: &[Token],
) -> Result<Option<(TermStep, &[Token])>, Stop>
    ensures gives { GivesMore (λ x. (step_of x.0, pieces x.1.now)) result (another (is postfix_head) (step depth) (pieces tokens.now)) }
    ensures fewer { IfOk result (λ more. IfSome more (λ x. length x.1.now < length tokens.now)) }
{
    match tokens {
        [Token { kind, .. }, rest @ ..] => match kind {
            TokenKind::Symbol(Symbol::Dot) => Ok(Some(parse_dot_step(rest)?)),
            TokenKind::Symbol(Symbol::OpenBracket) => {
                if depth == 0 {
                    return Err(Stop::Fault(Fault::TooDeep, tokens.len()));
                }
                Ok(Some(parse_index_step(alloc, depth, rest)?))
            }
            TokenKind::Symbol(Symbol::Open) => {
                if depth == 0 {
                    return Err(Stop::Fault(Fault::TooDeep, tokens.len()));
                }
                Ok(Some(parse_call_step(alloc, depth, rest)?))
            }
            _ => Ok(None),
        },
        _ => Ok(None),
    }
}

// A path, out of its box.
fn path_of(
    alloc: Global,
    place: Place,
    first: Box<Expr>,
    postfixes: Vec<Postfix>,
) -> Result<Expr, AllocError>
    ensures { IfOk result (λ e. expr_tree e ≡ grouped place (expr_tree first.value) (map postfix_after postfixes.items)) }
{
    let path = build::path(alloc, place, first, postfixes)?;
    Ok(Box::into_inner(path))
}

// The term that begins with `first` at this place.
#[tactic(auto, unfolding(ss_grammar_programs::specs::Parser::modified_from, ss_grammar_programs::specs::Parser::steps))]
fn parse_modified_from(
    alloc: Global,
    depth: u32,
    place: Place,
    first: Box<Expr>,
    tokens: &[Token],
) -> Result<(Modified, &[Token]), Stop>
    ensures gives { Gives (λ x. (modified_tree x.0, pieces x.1.now)) result (modified_from place depth (expr_tree first.value) (pieces tokens.now)) }
    ensures fewer { IfOk result (λ x. length x.1.now ≤ length tokens.now) }
{
    let mut postfixes = Vec::new(alloc);
    let mut rest = tokens;
    while let Some((step, after)) = next_step(alloc, depth, rest)? {
        match step {
            TermStep::Postfix(postfix) => postfixes.push(postfix)?,
            TermStep::All => {
                let path = path_of(alloc, place, first, postfixes)?;
                return Ok((Modified::All(path), after));
            }
            TermStep::Elements => {
                let path = path_of(alloc, place, first, postfixes)?;
                return Ok((Modified::Elements(path), after));
            }
        }
        rest = after;
    }
    let path = path_of(alloc, place, first, postfixes)?;
    Ok((Modified::One(path), rest))
}

#[tactic(auto, unfolding(ss_grammar_programs::specs::Parser::modified_term))]
fn parse_modified(alloc: Global, depth: u32, tokens: &[Token]) -> Result<(Modified, &[Token]), Stop>
    ensures gives { Gives (λ x. (modified_tree x.0, pieces x.1.now)) result (modified_term depth (pieces tokens.now)) }
    ensures fewer { IfOk result (λ x. length x.1.now ≤ length tokens.now) }
{
    match tokens {
        [Token { place, .. }, ..] => {
            let (first, rest) = parse_prim(alloc, depth, tokens)?;
            parse_modified_from(alloc, depth, *place, first, rest)
        }
        _ => Err(Stop::Fault(Fault::Expected, tokens.len())),
    }
}

// A further term after a `,`, where one stands.
fn next_modified(
    alloc: Global,
    depth: u32,
    tokens: &[Token],
) -> Result<Option<(Modified, &[Token])>, Stop>
    ensures gives { GivesMore (λ x. (modified_tree x.0, pieces x.1.now)) result (one_more (the Symbol.Comma) (λ _. modified_term depth) (pieces tokens.now)) }
    ensures fewer { IfOk result (λ more. IfSome more (λ x. length x.1.now < length tokens.now)) }
{
    match tokens {
        [
            Token {
                kind: TokenKind::Symbol(Symbol::Comma),
                ..
            },
            rest @ ..,
        ] => Ok(Some(parse_modified(alloc, depth, rest)?)),
        _ => Ok(None),
    }
}

fn parse_more_modified(
    alloc: Global,
    depth: u32,
    first: Vec<Modified>,
    tokens: &[Token],
) -> Result<(Vec<Modified>, &[Token]), Stop>
    ensures gives { Gives (λ x. (map modified_tree x.0.items, pieces x.1.now)) result (times (the Symbol.Comma) (λ _. modified_term depth) push_after (length (pieces tokens.now)) (map modified_tree first.items) (pieces tokens.now)) }
    ensures fewer { IfOk result (λ x. length x.1.now ≤ length tokens.now) }
{
    let mut terms = first;
    let mut rest = tokens;
    while let Some((term, after)) = next_modified(alloc, depth, rest)? {
        terms.push(term)?;
        rest = after;
    }
    Ok((terms, rest))
}

/// The terms of a clause.
#[tactic(auto, unfolding(ss_grammar_programs::specs::Parser::modifies))]
pub fn parse_modifies(
    alloc: Global,
    depth: u32,
    tokens: &[Token],
) -> Result<(Vec<Modified>, &[Token]), Stop>
    ensures gives { Gives (λ x. (map modified_tree x.0.items, pieces x.1.now)) result (modifies depth (pieces tokens.now)) }
    ensures fewer { IfOk result (λ x. length x.1.now ≤ length tokens.now) }
{
    let (first, rest) = parse_modified(alloc, depth, tokens)?;
    let mut terms = Vec::new(alloc);
    terms.push(first)?;
    parse_more_modified(alloc, depth, terms, rest)
}
