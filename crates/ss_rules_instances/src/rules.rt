// The instances of the rules that are true in every structure.

ghost use Rattle.std.specs.Prelude.{◌≡◌, ◌≤◌, ◌^◌, List, length, IfOk};
ghost use Rattle.ss_core.specs.Tree.{ClassTree};
ghost use Rattle.ss_core.specs.Chain.{IsWithinLimits};
ghost use Rattle.ss_core.specs.View as view;
ghost use Rattle.ss_logic.specs.Rules.{numbered, fresh_of, class_of, split_of, instance_of};
ghost use Rattle.ss_terms.specs.Forms.{term_at, terms_at, HasTerm, HasTerms, IsFormulaNumber, IsGrown, IsBankOf};
ghost use Rattle.ss_terms.specs.Numbered.{IsNumberOf};

use ss_core::Classes;
use ss_logic::RuleName;
use ss_rules_basic::{
    apart_rule, bool_rule, class_rule, fresh_rule, natural, quorem_rule, split_rule,
};
use ss_rules_reads::read_rule;
use ss_terms::{Bank, FormulaId, TermId};
use std::alloc::{AllocError, Global};

// The rule on new references: the first argument is the sentence's number.
fn fresh(alloc: Global, b: &mut Bank, arguments: &[TermId]) -> Result<Option<FormulaId>, AllocError>
    requires { HasTerms b.old arguments.now }
    ensures at { (cs : List ClassTree) → IsBankOf cs b.old → IfOk result (λ o. IsNumberOf b.new o (numbered (fresh_of cs) (terms_at b.old arguments.now))) }
    ensures grown { IsGrown b.old b.new }
{
    match arguments {
        [number, rest @ ..] => match natural(b, *number) {
            Some(number) => fresh_rule(alloc, b, number, rest),
            None => Ok(None),
        },
        [] => Ok(None),
    }
}

// The rule on owners, in the same way.
fn split(alloc: Global, b: &mut Bank, arguments: &[TermId]) -> Result<Option<FormulaId>, AllocError>
    requires { HasTerms b.old arguments.now }
    ensures at { (cs : List ClassTree) → IsBankOf cs b.old → IfOk result (λ o. IsNumberOf b.new o (numbered (split_of cs) (terms_at b.old arguments.now))) }
    ensures grown { IsGrown b.old b.new }
{
    match arguments {
        [number, rest @ ..] => match natural(b, *number) {
            Some(number) => split_rule(alloc, b, number, rest),
            None => Ok(None),
        },
        [] => Ok(None),
    }
}

// The rule on classes, in the same way.
fn class(
    alloc: Global,
    b: &mut Bank,
    classes: &Classes,
    arguments: &[TermId],
) -> Result<Option<FormulaId>, AllocError>
    requires bank { IsBankOf (view.classes classes.now) b.old }
    requires arguments { HasTerms b.old arguments.now }
    ensures at { IfOk result (λ o. IsNumberOf b.new o (numbered (class_of (view.classes classes.now)) (terms_at b.old arguments.now))) }
    ensures grown { IsGrown b.old b.new }
{
    match arguments {
        [number, rest @ ..] => match natural(b, *number) {
            Some(number) => class_rule(alloc, b, classes, number, rest),
            None => Ok(None),
        },
        [] => Ok(None),
    }
}

// What the rule says of these arguments.
fn sentence(
    alloc: Global,
    b: &mut Bank,
    classes: &Classes,
    rule: RuleName,
    arguments: &[TermId],
) -> Result<Option<FormulaId>, AllocError>
    requires bank { IsBankOf (view.classes classes.now) b.old }
    requires limits { IsWithinLimits (view.classes classes.now) }
    requires arguments { HasTerms b.old arguments.now }
    ensures at { IfOk result (λ o. IsNumberOf b.new o (instance_of (view.classes classes.now) rule (terms_at b.old arguments.now))) }
    ensures grown { IsGrown b.old b.new }
{
    match rule {
        RuleName::Read => read_rule(alloc, b, classes, arguments),
        RuleName::Fresh => fresh(alloc, b, arguments),
        RuleName::Class => class(alloc, b, classes, arguments),
        RuleName::Split => split(alloc, b, arguments),
        RuleName::Apart => apart_rule(alloc, b, arguments),
        RuleName::Quorem => quorem_rule(alloc, b, arguments),
        RuleName::Bool => bool_rule(alloc, b, arguments),
    }
}

/// What a rule says of these arguments, where they fit it. An error is want of memory; what the bank had before stays.
pub fn instance(
    alloc: Global,
    b: &mut Bank,
    classes: &Classes,
    rule: RuleName,
    arguments: &[TermId],
) -> Result<Option<FormulaId>, AllocError>
    requires bank { IsBankOf (view.classes classes.now) b.old }
    requires limits { IsWithinLimits (view.classes classes.now) }
    requires arguments { HasTerms b.old arguments.now }
    ensures at { IfOk result (λ o. IsFormulaNumber b.new (instance_of (view.classes classes.now) rule (terms_at b.old arguments.now)) o) }
    ensures grown { IsGrown b.old b.new }
{
    sentence(alloc, b, classes, rule, arguments)
}
