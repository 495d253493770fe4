// The program that tokens are.

ghost use Rattle.std.specs.Prelude.{◌≡◌, ◌<◌, length, option_map, IfSome};
ghost use Rattle.ss_core.specs.declared.names.FrontStop.TheVariants.{Refused};
ghost use Rattle.ss_core.specs.Rules.{rule_number};
ghost use Rattle.ss_grammar.specs.Reading.{seen};
ghost use Rattle.ss_grammar_expressions.specs.Heads.{pieces, the};
ghost use Rattle.ss_parser_expressions.specs.Answer.{first_place};
ghost use Rattle.ss_grammar_programs.specs.Heads.{the_end};
ghost use Rattle.ss_decls.specs.Answer.{ProgramAnswer, rule_at};

use crate::classes::parse_declarations;
use ss_ast::{Program, Symbol, Token, TokenKind};
use ss_core::{FrontStop, Place, Rule};
use ss_grammar::fault::Stop;
use ss_parser_expression_trees::heads::next_symbol;
use ss_parser_expressions::LEVELS;
use ss_parser_expressions::refusal::refused;
use std::alloc::Global;

// The place of the end of the text, where it is the next, and the tokens after it.
fn next_end(tokens: &[Token]) -> Option<(Place, &[Token])>
    ensures sees { seen the_end (pieces tokens.now) ≡ option_map (λ x. (x.0, pieces x.1.now)) result }
    ensures fewer { IfSome result (λ x. length x.1.now < length tokens.now) }
{
    match tokens {
        [
            Token {
                kind: TokenKind::TextEnd,
                place,
            },
            rest @ ..,
        ] => Some((*place, rest)),
        _ => None,
    }
}

// The place of the next token, and 1:1 where there is none.
fn place_of_next(tokens: &[Token]) -> Place
    ensures { result ≡ first_place (pieces tokens.now) }
{
    match tokens {
        [token, ..] => token.place,
        _ => Place { line: 1, column: 1 },
    }
}

// The rule that is broken where these tokens stand in place of a class or the end of the text.
fn rule_at(tokens: &[Token]) -> Rule
    ensures { result ≡ rule_at (seen (the Symbol.CloseBrace) (pieces tokens.now)) }
{
    match next_symbol(tokens, Symbol::CloseBrace) {
        Some(_) => Rule::StrayBrace,
        None => Rule::Unexpected,
    }
}

// The refusal by this rule at the first of these tokens.
fn broken(rule: Rule, tokens: &[Token]) -> FrontStop
    ensures { result ≡ Refused (rule_number rule) (first_place (pieces tokens.now)) }
{
    FrontStop::Refused {
        rule: rule.number(),
        place: place_of_next(tokens),
    }
}

// The refusal where these tokens stand in place of a class or the end of the text.
fn refused_at(tokens: &[Token]) -> FrontStop
    ensures { result ≡ Refused (rule_number (rule_at (seen (the Symbol.CloseBrace) (pieces tokens.now)))) (first_place (pieces tokens.now)) }
{
    broken(rule_at(tokens), tokens)
}

/// The program that these tokens are, of which the last is the end of the text. Refused with 10 at the first token with
/// which no program goes on, with 11 at the first that opens the 65th level, and with 12 in place of 10 at a `}` where a
/// class could begin.
pub fn parse_program(alloc: Global, tokens: &[Token]) -> Result<Program, FrontStop>
    ensures exact { ProgramAnswer tokens.now result }
{
    match parse_declarations(alloc, LEVELS, tokens) {
        Ok((classes, rest)) => match next_end(rest) {
            Some((last, behind)) => {
                if behind.is_empty() {
                    return Ok(Program { classes, last });
                }
                Err(broken(Rule::Unexpected, behind))
            }
            None => Err(refused_at(rest)),
        },
        Err(Stop::Memory) => Err(FrontStop::Memory),
        Err(Stop::Fault(fault, left)) => Err(refused(tokens, fault, left)),
    }
}
