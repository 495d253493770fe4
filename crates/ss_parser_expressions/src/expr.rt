// An expression, from some token on.

ghost use Rattle.std.specs.Prelude.{◌<◌, length, IfOk};
ghost use Rattle.ss_ast.specs.Expressions.{expr_tree};
ghost use Rattle.ss_grammar_expressions.specs.Grammar.{Expression};
ghost use Rattle.ss_parser_expressions.specs.Answer.{PartAnswer, EndsText};

use crate::LEVELS;
use crate::expressions::parse_expression;
use crate::refusal::refused;
use ss_ast::{Expr, Token};
use ss_core::FrontStop;
use ss_grammar::fault::Stop;
use std::alloc::Global;

/// The longest expression from the token `at` on, and the number of the token after it, which is there where the tokens
/// end with the end of the text. Refused with 10 where the
/// tokens so far aren't whole and the next one cannot go on, and with 11 where it opens the 65th level.
pub fn parse_expr(alloc: Global, tokens: &[Token], at: usize) -> Result<(Expr, usize), FrontStop>
    requires inside { at < length tokens.now }
    ensures exact { PartAnswer Expression expr_tree tokens.now at result }
    ensures end_left { EndsText tokens.now → IfOk result (λ x. x.1 < length tokens.now) }
{
    let (_, ahead) = tokens.split_at(at);
    match parse_expression(alloc, LEVELS, ahead) {
        Ok((expr, rest)) => Ok((Box::into_inner(expr), tokens.len() - rest.len())),
        Err(Stop::Memory) => Err(FrontStop::Memory),
        Err(Stop::Fault(fault, left)) => Err(refused(tokens, fault, left)),
    }
}
