// Statements and blocks.

ghost use Rattle.std.specs.Prelude.{◌≤◌, length, map, IfOk, []};
ghost use Rattle.ss_ast.specs.Tokens.{tok};
ghost use Rattle.ss_ast.specs.Statements.{stmt_tree, block_tree};
ghost use Rattle.ss_grammar.specs.Reading.{times};
ghost use Rattle.ss_grammar.specs.Stops.{Gives};
ghost use Rattle.ss_grammar_expressions.specs.First.{tokened};
ghost use Rattle.ss_grammar_expressions.specs.Heads.{pieces, AToken};
ghost use Rattle.ss_grammar_expressions.specs.Parser.{below};
ghost use Rattle.ss_grammar_statements.specs.Heads.{stmt_head, StartFirst, ReturnFirst, AssertFirst, AssumeFirst};
ghost use Rattle.ss_grammar_statements.specs.Parser.{one_stmt, stmt_after, other, joins_stmt, statements, nested_below, block};
ghost use Rattle.ss_parser_statement_trees.specs.View.{init_start_of, word_first, stmt_start_of, listed_of};

use crate::exposes::parse_expose;
use crate::governed::{parse_block_after, parse_if};
use crate::headings::{parse_ended, parse_optional_value};
use crate::loops::{parse_for, parse_while};
use crate::simples::parse_start;
use ss_ast::{Block, Stmt, Symbol, Token, TokenKind};
use ss_core::Place;
use ss_grammar::fault::{Fault, Stop};
use ss_parser_expression_trees::heads::expect;
use ss_parser_statement_trees::build;
use ss_parser_statement_trees::build::StmtList;
use ss_parser_statement_trees::heads::{InitStart, StmtStart, StmtWord, next_start, stmt_start};
use std::alloc::Global;

// What is after `return`.
#[tactic(auto, unfolding(ss_grammar_statements::specs::Parser::stmt_after))]
fn parse_return(
    alloc: Global,
    depth: u32,
    place: Place,
    tokens: &[Token],
) -> Result<(Box<Stmt>, &[Token]), Stop>
    ensures gives { Gives (λ x. (stmt_tree x.0.value, pieces x.1.now)) result (stmt_after depth (below depth) (nested_below depth) (ReturnFirst place) (pieces tokens.now)) }
    ensures fewer { IfOk result (λ x. length x.1.now ≤ length tokens.now) }
{
    let (value, rest) = parse_optional_value(alloc, depth, tokens)?;
    Ok((build::returns(alloc, place, value)?, rest))
}

// What is after `assert`.
#[tactic(auto, unfolding(ss_grammar_statements::specs::Parser::stmt_after))]
fn parse_assert(
    alloc: Global,
    depth: u32,
    place: Place,
    tokens: &[Token],
) -> Result<(Box<Stmt>, &[Token]), Stop>
    ensures gives { Gives (λ x. (stmt_tree x.0.value, pieces x.1.now)) result (stmt_after depth (below depth) (nested_below depth) (AssertFirst place) (pieces tokens.now)) }
    ensures fewer { IfOk result (λ x. length x.1.now ≤ length tokens.now) }
{
    let (condition, rest) = parse_ended(alloc, depth, tokens)?;
    Ok((build::asserts(alloc, place, condition)?, rest))
}

// What is after `assume`.
#[tactic(auto, unfolding(ss_grammar_statements::specs::Parser::stmt_after))]
fn parse_assume(
    alloc: Global,
    depth: u32,
    place: Place,
    tokens: &[Token],
) -> Result<(Box<Stmt>, &[Token]), Stop>
    ensures gives { Gives (λ x. (stmt_tree x.0.value, pieces x.1.now)) result (stmt_after depth (below depth) (nested_below depth) (AssumeFirst place) (pieces tokens.now)) }
    ensures fewer { IfOk result (λ x. length x.1.now ≤ length tokens.now) }
{
    let (condition, rest) = parse_ended(alloc, depth, tokens)?;
    Ok((build::assumes(alloc, place, condition)?, rest))
}

// A statement, after the word that it begins with, which is `first`.
#[cycle(stmt)]
#[tactic(auto, unfolding(ss_grammar_statements::specs::Parser::stmt_after))]
fn parse_word<'a>(
    alloc: Global,
    depth: u32,
    place: Place,
    word: StmtWord,
    first: &Token,
    tokens: &'a [Token],
) -> Result<(Box<Stmt>, &'a [Token]), Stop>
    ensures gives { Gives (λ x. (stmt_tree x.0.value, pieces x.1.now)) result (one_stmt depth (below depth) (nested_below depth) (word_first place word, AToken (tok first.now)) (pieces tokens.now)) }
    ensures fewer { IfOk result (λ x. length x.1.now ≤ length tokens.now) }
{
    match word {
        StmtWord::If => parse_if(alloc, depth, place, tokens),
        StmtWord::While => parse_while(alloc, depth, place, tokens),
        StmtWord::For => parse_for(alloc, depth, place, tokens),
        StmtWord::Expose => parse_expose(alloc, depth, place, tokens),
        StmtWord::Return => parse_return(alloc, depth, place, tokens),
        StmtWord::Assert => parse_assert(alloc, depth, place, tokens),
        StmtWord::Assume => parse_assume(alloc, depth, place, tokens),
    }
}

// A declaration or a simple statement, with its `;`; `first` is its first token.
#[tactic(auto, using(crate::proofs::Opened::start_first))]
fn parse_start_end<'a>(
    alloc: Global,
    depth: u32,
    start: InitStart,
    first: &Token,
    tokens: &'a [Token],
) -> Result<(Box<Stmt>, &'a [Token]), Stop>
    ensures gives { Gives (λ x. (stmt_tree x.0.value, pieces x.1.now)) result (one_stmt depth (below depth) (nested_below depth) (StartFirst (init_start_of start), AToken (tok first.now)) (pieces tokens.now)) }
    ensures fewer { IfOk result (λ x. length x.1.now ≤ length tokens.now) }
{
    let (init, rest) = parse_start(alloc, depth, start, first, tokens)?;
    let stmt = build::boxed(alloc, build::statement(init))?;
    let (_, rest) = expect(rest, Symbol::Semicolon)?;
    Ok((stmt, rest))
}

/// A statement that is no block.
#[cycle(stmt)]
#[tactic(auto, unfolding(ss_grammar_statements::specs::Parser::other, ss_grammar_statements::specs::Parser::stmt_after), using(crate::proofs::Opened::word_alone))]
pub fn parse_other(
    alloc: Global,
    depth: u32,
    tokens: &[Token],
) -> Result<(Box<Stmt>, &[Token]), Stop>
    ensures gives { Gives (λ x. (stmt_tree x.0.value, pieces x.1.now)) result (other depth (below depth) (nested_below depth) (pieces tokens.now)) }
    ensures fewer { IfOk result (λ x. length x.1.now ≤ length tokens.now) }
{
    match tokens {
        [token, rest @ ..] => match stmt_start(alloc, token)? {
            Some(StmtStart::Init(start)) => parse_start_end(alloc, depth, start, token, rest),
            Some(StmtStart::Word(place, word)) => parse_word(
                alloc, depth, place, word, token, rest,
            ),
            Some(StmtStart::Empty(place)) => Ok((build::boxed(alloc, build::empty(place))?, rest)),
            Some(StmtStart::Block(_)) => Err(Stop::Fault(Fault::Expected, tokens.len())),
            None => Err(Stop::Fault(Fault::Expected, tokens.len())),
        },
        _ => Err(Stop::Fault(Fault::Expected, tokens.len())),
    }
}

// A statement, from what it begins with on; `first` is its first token.
#[cycle(stmt)]
#[tactic(auto, unfolding(ss_grammar_statements::specs::Parser::stmt_after))]
fn parse_stmt<'a>(
    alloc: Global,
    depth: u32,
    start: StmtStart,
    first: &Token,
    tokens: &'a [Token],
) -> Result<(Box<Stmt>, &'a [Token]), Stop>
    ensures gives { Gives (λ x. (stmt_tree x.0.value, pieces x.1.now)) result (one_stmt depth (below depth) (nested_below depth) (stmt_start_of start, AToken (tok first.now)) (pieces tokens.now)) }
    ensures fewer { IfOk result (λ x. length x.1.now ≤ length tokens.now) }
{
    match start {
        StmtStart::Block(place) => {
            if depth == 0 {
                return Err(Stop::Fault(Fault::TooDeep, tokens.len() + 1));
            }
            let (block, rest) = parse_block_after(alloc, depth, place, tokens)?;
            Ok((build::boxed(alloc, build::in_block(block))?, rest))
        }
        StmtStart::Init(init) => parse_start_end(alloc, depth, init, first, tokens),
        StmtStart::Word(place, word) => parse_word(alloc, depth, place, word, first, tokens),
        StmtStart::Empty(place) => Ok((build::boxed(alloc, build::empty(place))?, tokens)),
    }
}

// Statements, as many as there are.
#[cycle(stmt)]
fn parse_stmts(alloc: Global, depth: u32, tokens: &[Token]) -> Result<(Vec<Stmt>, &[Token]), Stop>
    ensures gives { Gives (λ x. (map stmt_tree x.0.items, pieces x.1.now)) result (times (tokened stmt_head) (one_stmt depth (below depth) (nested_below depth)) (joins_stmt depth (below depth) (nested_below depth)) (length (pieces tokens.now)) [] (pieces tokens.now)) }
    ensures fewer { IfOk result (λ x. length x.1.now ≤ length tokens.now) }
{
    let mut stmts = Vec::new(alloc);
    let mut rest = tokens;
    while let Some((start, first, after)) = next_start(alloc, rest)? {
        let (stmt, after) = parse_stmt(alloc, depth, start, first, after)?;
        stmts.push(Box::into_inner(stmt))?;
        rest = after;
    }
    Ok((stmts, rest))
}

/// The statements of a block, and its `}`.
#[cycle(stmt)]
#[tactic(auto, unfolding(ss_grammar_statements::specs::Parser::statements, ss_grammar_statements::specs::Parser::stmts))]
pub fn parse_statements(
    alloc: Global,
    depth: u32,
    tokens: &[Token],
) -> Result<(StmtList, &[Token]), Stop>
    ensures gives { Gives (λ x. (listed_of x.0, pieces x.1.now)) result (statements depth (below depth) (nested_below depth) (pieces tokens.now)) }
    ensures fewer { IfOk result (λ x. length x.1.now ≤ length tokens.now) }
{
    let (statements, rest) = parse_stmts(alloc, depth, tokens)?;
    let (end, rest) = expect(rest, Symbol::CloseBrace)?;
    Ok((StmtList { statements, end }, rest))
}

/// A block, nested at most so deep, and the tokens after it.
#[tactic(auto, unfolding(ss_grammar_statements::specs::Parser::block))]
pub fn parse_whole_block(
    alloc: Global,
    depth: u32,
    tokens: &[Token],
) -> Result<(Block, &[Token]), Stop>
    ensures gives { Gives (λ x. (block_tree x.0, pieces x.1.now)) result (block depth (pieces tokens.now)) }
    ensures fewer { IfOk result (λ x. length x.1.now ≤ length tokens.now) }
{
    match tokens {
        [
            Token {
                kind: TokenKind::Symbol(Symbol::OpenBrace),
                place,
            },
            rest @ ..,
        ] => {
            if depth == 0 {
                return Err(Stop::Fault(Fault::TooDeep, tokens.len()));
            }
            parse_block_after(alloc, depth, *place, rest)
        }
        _ => Err(Stop::Fault(Fault::Expected, tokens.len())),
    }
}
