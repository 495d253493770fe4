// Arguments as terms of a bank.

ghost use Rattle.std.specs.Prelude.{◌≡◌, IfOk};
ghost use Rattle.ss_logic.specs.Asked.{numeral};
ghost use Rattle.ss_terms.specs.Forms.{term_at, terms_at, HasTerm, HasTerms, IsGrown};
ghost use Rattle.ss_rules_asked.specs.Numbers.{argument_at, arguments_at, HasArgument, HasArguments};

use ss_rules_asked::Argument;
use ss_terms::{Bank, TermId};
use std::alloc::{AllocError, Global};

// A literal.
fn literal(bank: &mut Bank, n: u32) -> Result<TermId, AllocError>
    ensures at { IfOk result (λ t. HasTerm bank.new t × (term_at bank.new t ≡ numeral n)) }
    ensures grown { IsGrown bank.old bank.new }
{
    bank.number(n as i128)
}

// The term that an argument is.
fn term_of_argument(bank: &mut Bank, x: Argument) -> Result<TermId, AllocError>
    requires { HasArgument bank.old x }
    ensures at { IfOk result (λ t. HasTerm bank.new t × (term_at bank.new t ≡ argument_at bank.old x)) }
    ensures grown { IsGrown bank.old bank.new }
{
    match x {
        Argument::Term(t) => Ok(t),
        Argument::Number(n) => literal(bank, n),
        Argument::Class(t) => bank.class_name(t),
    }
}

/// The terms that arguments are. An error is want of memory.
pub(crate) fn terms_of_arguments(
    alloc: Global,
    bank: &mut Bank,
    xs: &[Argument],
) -> Result<Vec<TermId>, AllocError>
    requires { HasArguments bank.old xs.now }
    ensures has { IfOk result (λ ts. HasTerms bank.new ts.items) }
    ensures at { IfOk result (λ ts. terms_at bank.new ts.items ≡ arguments_at bank.old xs.now) }
    ensures grown { IsGrown bank.old bank.new }
{
    let mut ts = Vec::new(alloc);
    for x in xs {
        let t = term_of_argument(bank, *x)?;
        ts.push(t)?;
    }
    Ok(ts)
}
