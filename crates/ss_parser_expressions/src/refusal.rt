// Where a fault stands, and by which rule it is refused.

ghost use Rattle.std.specs.Prelude.{◌≡◌, ◌-◌, length, drop};
ghost use Rattle.ss_core.specs.declared.names.FrontStop.TheVariants.{Refused};
ghost use Rattle.ss_core.specs.Rules.{rule_number};
ghost use Rattle.ss_grammar_expressions.specs.Heads.{pieces};
ghost use Rattle.ss_parser_expressions.specs.Answer.{first_place, rule_of};

use ss_ast::Token;
use ss_core::{FrontStop, Place, Rule};
use ss_grammar::fault::Fault;

// The place of the token with so many left, itself included.
fn place_left(tokens: &[Token], left: usize) -> Place
    ensures { result ≡ first_place (pieces (drop (length tokens.now - left) tokens.now)) }
{
    let at = tokens.len().saturating_sub(left);
    let (_, ahead) = tokens.split_at(at);
    match ahead {
        [token, ..] => token.place,
        _ => Place { line: 1, column: 1 },
    }
}

// The rule that a fault breaks.
fn rule_of(fault: Fault) -> Rule
    ensures { result ≡ rule_of fault }
{
    match fault {
        Fault::Expected => Rule::Unexpected,
        Fault::TooDeep => Rule::TooDeep,
    }
}

/// The refusal at the token with so many left.
pub fn refused(tokens: &[Token], fault: Fault, left: usize) -> FrontStop
    ensures { result ≡ Refused (rule_number (rule_of fault)) (first_place (pieces (drop (length tokens.now - left) tokens.now))) }
{
    FrontStop::Refused {
        rule: rule_of(fault).number(),
        place: place_left(tokens, left),
    }
}
