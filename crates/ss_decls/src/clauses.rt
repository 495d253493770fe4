// Clauses, and the block after them.

ghost use Rattle.std.specs.Prelude.{◌<◌, ◌≤◌, length, map, IfOk, IfSome};
ghost use Rattle.ss_ast.specs.Expressions.{expr_tree};
ghost use Rattle.ss_ast.specs.Statements.{block_tree};
ghost use Rattle.ss_ast.specs.Programs.{modified_tree, clause_tree};
ghost use Rattle.ss_grammar.specs.Reading.{one_more};
ghost use Rattle.ss_grammar.specs.Stops.{Gives, GivesMore};
ghost use Rattle.ss_grammar_expressions.specs.Heads.{pieces};
ghost use Rattle.ss_grammar_expressions.specs.Parser.{below, whole_expression};
ghost use Rattle.ss_grammar_statements.specs.Parser.{ended};
ghost use Rattle.ss_grammar_programs.specs.Heads.{clause_head};
ghost use Rattle.ss_grammar_programs.specs.Parser.{modifies, clause_after, clauses, specified};

use crate::modified::parse_modifies;
use ss_ast::{Block, Clause, Expr, Modified, Symbol, Token, TokenKind, Word};
use ss_grammar::fault::Stop;
use ss_parser::headings::parse_ended;
use ss_parser::statements::parse_whole_block;
use ss_parser_expression_trees::heads::expect;
use std::alloc::Global;

/// A condition and its `;`.
pub fn parse_condition(
    alloc: Global,
    depth: u32,
    tokens: &[Token],
) -> Result<(Expr, &[Token]), Stop>
    ensures gives { Gives (λ x. (expr_tree x.0, pieces x.1.now)) result (ended (whole_expression depth (below depth)) (pieces tokens.now)) }
    ensures fewer { IfOk result (λ x. length x.1.now ≤ length tokens.now) }
{
    let (condition, rest) = parse_ended(alloc, depth, tokens)?;
    Ok((Box::into_inner(condition), rest))
}

#[tactic(auto, unfolding(ss_grammar_statements::specs::Parser::ended))]
fn parse_modifies_end(
    alloc: Global,
    depth: u32,
    tokens: &[Token],
) -> Result<(Vec<Modified>, &[Token]), Stop>
    ensures gives { Gives (λ x. (map modified_tree x.0.items, pieces x.1.now)) result (ended (modifies depth) (pieces tokens.now)) }
    ensures fewer { IfOk result (λ x. length x.1.now ≤ length tokens.now) }
{
    let (terms, rest) = parse_modifies(alloc, depth, tokens)?;
    let (_, rest) = expect(rest, Symbol::Semicolon)?;
    Ok((terms, rest))
}

// A clause, where one begins.
#[tactic(auto, unfolding(ss_grammar_programs::specs::Parser::clause_after))]
fn next_clause(
    alloc: Global,
    depth: u32,
    tokens: &[Token],
) -> Result<Option<(Clause, &[Token])>, Stop>
    ensures gives { GivesMore (λ x. (clause_tree x.0, pieces x.1.now)) result (one_more clause_head (clause_after depth) (pieces tokens.now)) }
    ensures fewer { IfOk result (λ more. IfSome more (λ x. length x.1.now < length tokens.now)) }
{
    match tokens {
        [
            Token {
                kind: TokenKind::Word(word),
                ..
            },
            rest @ ..,
        ] => match word {
            Word::Requires => {
                let (condition, rest) = parse_condition(alloc, depth, rest)?;
                Ok(Some((Clause::Requires(condition), rest)))
            }
            Word::Ensures => {
                let (condition, rest) = parse_condition(alloc, depth, rest)?;
                Ok(Some((Clause::Ensures(condition), rest)))
            }
            Word::Modifies => {
                let (terms, rest) = parse_modifies_end(alloc, depth, rest)?;
                Ok(Some((Clause::Modifies(terms), rest)))
            }
            _ => Ok(None),
        },
        _ => Ok(None),
    }
}

#[tactic(auto, unfolding(ss_grammar_programs::specs::Parser::clauses))]
fn parse_clauses(
    alloc: Global,
    depth: u32,
    tokens: &[Token],
) -> Result<(Vec<Clause>, &[Token]), Stop>
    ensures gives { Gives (λ x. (map clause_tree x.0.items, pieces x.1.now)) result (clauses depth (pieces tokens.now)) }
    ensures fewer { IfOk result (λ x. length x.1.now ≤ length tokens.now) }
{
    let mut list = Vec::new(alloc);
    let mut rest = tokens;
    while let Some((clause, after)) = next_clause(alloc, depth, rest)? {
        list.push(clause)?;
        rest = after;
    }
    Ok((list, rest))
}

/// Clauses, and the block after them.
#[tactic(auto, unfolding(ss_grammar_programs::specs::Parser::specified))]
pub fn parse_specified(
    alloc: Global,
    depth: u32,
    tokens: &[Token],
) -> Result<((Vec<Clause>, Block), &[Token]), Stop>
    ensures gives { Gives (λ x. ((map clause_tree x.0.0.items, block_tree x.0.1), pieces x.1.now)) result (specified depth (pieces tokens.now)) }
    ensures fewer { IfOk result (λ x. length x.1.now ≤ length tokens.now) }
{
    let (list, rest) = parse_clauses(alloc, depth, tokens)?;
    let (body, rest) = parse_whole_block(alloc, depth, rest)?;
    Ok(((list, body), rest))
}
