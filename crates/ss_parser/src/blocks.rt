// A block, from some token on.

ghost use Rattle.std.specs.Prelude.{◌<◌, length, IfOk};
ghost use Rattle.ss_ast.specs.Statements.{block_tree};
ghost use Rattle.ss_parser_expressions.specs.Answer.{PartAnswer, EndsText};
ghost use Rattle.ss_grammar_statements.specs.Grammar as grammar;

use crate::statements::parse_whole_block;
use ss_ast::{Block, Token};
use ss_core::FrontStop;
use ss_grammar::fault::Stop;
use ss_parser_expressions::LEVELS;
use ss_parser_expressions::refusal::refused;
use std::alloc::Global;

/// The block that begins with the token `at`, and the number of the token after it, which is there where the tokens end
/// with the end of the text. Refused with 10 where the tokens
/// so far aren't whole and the next one cannot go on, and with 11 where it opens the 65th level.
pub fn parse_block(alloc: Global, tokens: &[Token], at: usize) -> Result<(Block, usize), FrontStop>
    requires inside { at < length tokens.now }
    ensures exact { PartAnswer grammar.Block block_tree tokens.now at result }
    ensures end_left { EndsText tokens.now → IfOk result (λ x. x.1 < length tokens.now) }
{
    let (_, ahead) = tokens.split_at(at);
    match parse_whole_block(alloc, LEVELS, ahead) {
        Ok((block, rest)) => Ok((block, tokens.len() - rest.len())),
        Err(Stop::Memory) => Err(FrontStop::Memory),
        Err(Stop::Fault(fault, left)) => Err(refused(tokens, fault, left)),
    }
}
