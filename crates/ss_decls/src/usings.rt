// `using` lines and access words, which leave no trace.

ghost use Rattle.std.specs.Prelude.{◌≡◌, ◌<◌, ◌≤◌, length, IfOk, IfSome, Ok};
ghost use Rattle.ss_ast.specs.declared.token.Word.TheVariants as word;
ghost use Rattle.ss_grammar.specs.Reading.{one_more};
ghost use Rattle.ss_grammar.specs.Stops.{GivesRest, GivesMore};
ghost use Rattle.ss_grammar_expressions.specs.Heads.{the, the_word, pieces};
ghost use Rattle.ss_grammar_programs.specs.Parser.{accesses, skipped_name, dotted, using_end, usings};

use crate::heads::next_access;
use ss_ast::{Symbol, Token, TokenKind, Word};
use ss_grammar::fault::{Fault, Stop};
use ss_parser_expression_trees::heads::expect;

/// What is after the access words that stand here.
#[tactic(auto, unfolding(ss_grammar_programs::specs::Parser::accesses))]
pub fn skip_accesses(tokens: &[Token]) -> &[Token]
    ensures reads { accesses (pieces tokens.now) ≡ Ok (tt, pieces result.now) }
    ensures fewer { length result.now ≤ length tokens.now }
{
    let mut rest = tokens;
    while let Some((_, after)) = next_access(rest) {
        rest = after;
    }
    rest
}

// What is after a name.
#[tactic(auto, unfolding(ss_grammar_programs::specs::Parser::skipped_name))]
fn skip_name(tokens: &[Token]) -> Result<&[Token], Stop>
    ensures gives { GivesRest (λ x. pieces x.now) result (skipped_name (pieces tokens.now)) }
    ensures fewer { IfOk result (λ x. length x.now < length tokens.now) }
{
    match tokens {
        [
            Token {
                kind: TokenKind::Name(_),
                ..
            },
            rest @ ..,
        ] => Ok(rest),
        _ => Err(Stop::Fault(Fault::Expected, tokens.len())),
    }
}

// After a dot and a name, where a dot stands.
fn skip_dot(tokens: &[Token]) -> Result<Option<&[Token]>, Stop>
    ensures gives { GivesMore (λ x. (tt, pieces x.now)) result (one_more (the Symbol.Dot) (λ _. skipped_name) (pieces tokens.now)) }
    ensures fewer { IfOk result (λ more. IfSome more (λ x. length x.now < length tokens.now)) }
{
    match tokens {
        [
            Token {
                kind: TokenKind::Symbol(Symbol::Dot),
                ..
            },
            rest @ ..,
        ] => Ok(Some(skip_name(rest)?)),
        _ => Ok(None),
    }
}

#[tactic(auto, unfolding(ss_grammar_programs::specs::Parser::dotted))]
fn skip_dotted(tokens: &[Token]) -> Result<&[Token], Stop>
    ensures gives { GivesRest (λ x. pieces x.now) result (dotted (pieces tokens.now)) }
    ensures fewer { IfOk result (λ x. length x.now ≤ length tokens.now) }
{
    let mut rest = tokens;
    while let Some(after) = skip_dot(rest)? {
        rest = after;
    }
    Ok(rest)
}

// What is after `using`.
#[tactic(auto, unfolding(ss_grammar_programs::specs::Parser::using_end))]
fn skip_using_end(tokens: &[Token]) -> Result<&[Token], Stop>
    ensures gives { GivesRest (λ x. pieces x.now) result (using_end (pieces tokens.now)) }
    ensures fewer { IfOk result (λ x. length x.now < length tokens.now) }
{
    let rest = skip_name(tokens)?;
    let rest = skip_dotted(rest)?;
    let (_, rest) = expect(rest, Symbol::Semicolon)?;
    Ok(rest)
}

// After a `using` line, where one begins.
fn skip_using(tokens: &[Token]) -> Result<Option<&[Token]>, Stop>
    ensures gives { GivesMore (λ x. (tt, pieces x.now)) result (one_more (the_word word.Using) (λ _. using_end) (pieces tokens.now)) }
    ensures fewer { IfOk result (λ more. IfSome more (λ x. length x.now < length tokens.now)) }
{
    match tokens {
        [
            Token {
                kind: TokenKind::Word(Word::Using),
                ..
            },
            rest @ ..,
        ] => Ok(Some(skip_using_end(rest)?)),
        _ => Ok(None),
    }
}

/// What is after the `using` lines that stand here.
#[tactic(auto, unfolding(ss_grammar_programs::specs::Parser::usings))]
pub fn skip_usings(tokens: &[Token]) -> Result<&[Token], Stop>
    ensures gives { GivesRest (λ x. pieces x.now) result (usings (pieces tokens.now)) }
    ensures fewer { IfOk result (λ x. length x.now ≤ length tokens.now) }
{
    let mut rest = tokens;
    while let Some(after) = skip_using(rest)? {
        rest = after;
    }
    Ok(rest)
}
