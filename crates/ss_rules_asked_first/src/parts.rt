// Instances with arguments from several places.

ghost use Rattle.std.specs.Prelude.{◌≡◌, ◌==◌, [], ◌∷◌, ◌++◌, map, IfOk, OnOk};
ghost use Rattle.ss_terms.specs.Forms.{term_at};
ghost use Rattle.ss_rules_asked.specs.Numbers.{rule_at, arguments_at, asked_in, asked_with, HasRule, HasArguments, HasAsked, Asks};
ghost use Rattle.ss_rules_asked.specs.Readings.{others_at, HasOthers};
ghost use Rattle.ss_rules_asked_first.specs.Named.{AreArguments};
ghost use Rattle.ss_rules_asked_first.specs.Good.{owner_at, owners_at, HasOwner, HasOwners};

use crate::near::AskingContext;
use crate::owners::Owner;
use ss_rules_asked::{Argument, Asked, Others, Rule, ask};
use ss_terms::Bank;
use std::alloc::{AllocError, Global};

/// Whether a read is of this kind.
pub(crate) fn is_kind(kind: u32, n: u32) -> bool
    ensures { result ≡ (kind == n) }
{
    kind == n
}

/// What a read takes beside its store, as arguments. An error is want of memory.
pub(crate) fn others_of(
    alloc: Global,
    bank: &Bank,
    others: Others,
) -> Result<Vec<Argument>, AllocError>
    requires { HasOthers bank.now others }
    ensures { IfOk result (λ v. AreArguments bank.now v.items (others_at bank.now others)) }
{
    let _ = bank;
    match others {
        Others::Nothing => Vec::from_slice(alloc, &[]),
        Others::Object(o) => Vec::from_slice(alloc, &[Argument::Term(o)]),
        Others::Field(o, f) => Vec::from_slice(alloc, &[Argument::Term(o), Argument::Number(f)]),
        Others::Element(a, i) => Vec::from_slice(alloc, &[Argument::Term(a), Argument::Term(i)]),
    }
}

// Three lists in a row.
fn joined(
    alloc: Global,
    first: &[Argument],
    middle: &[Argument],
    last: &[Argument],
) -> Result<Vec<Argument>, AllocError>
    ensures { IfOk result (λ v. v.items ≡ first.now ++ middle.now ++ last.now) }
{
    let mut all = Vec::from_slice(alloc, first)?;
    all.extend_from_slice(middle)?;
    all.extend_from_slice(last)?;
    Ok(all)
}

/// Asks for the instance at arguments from three places. An error is want of memory.
pub(crate) fn ask_with(
    context: &AskingContext<'_>,
    asked: &mut Vec<Asked>,
    rule: Rule,
    first: &[Argument],
    middle: &[Argument],
    last: &[Argument],
) -> Result<(), AllocError>
    requires asked { HasAsked context.now.bank.now asked.old.items }
    requires rule { HasRule context.now.bank.now rule }
    requires first { HasArguments context.now.bank.now first.now }
    requires middle { HasArguments context.now.bank.now middle.now }
    requires last { HasArguments context.now.bank.now last.now }
    ensures { OnOk result (Asks context.now.bank.now asked.new.items (asked_in context.now.bank.now asked.old.items ++ asked_with (rule_at context.now.bank.now rule) (arguments_at context.now.bank.now first.now ++ arguments_at context.now.bank.now middle.now ++ arguments_at context.now.bank.now last.now) ∷ [])) }
{
    let all = joined(context.alloc, first, middle, last)?;
    ask(context.alloc, context.bank, asked, rule, &all)
}

/// And from two. An error is want of memory.
pub(crate) fn ask_short(
    context: &AskingContext<'_>,
    asked: &mut Vec<Asked>,
    rule: Rule,
    first: &[Argument],
    last: &[Argument],
) -> Result<(), AllocError>
    requires asked { HasAsked context.now.bank.now asked.old.items }
    requires rule { HasRule context.now.bank.now rule }
    requires first { HasArguments context.now.bank.now first.now }
    requires last { HasArguments context.now.bank.now last.now }
    ensures { OnOk result (Asks context.now.bank.now asked.new.items (asked_in context.now.bank.now asked.old.items ++ asked_with (rule_at context.now.bank.now rule) (arguments_at context.now.bank.now first.now ++ arguments_at context.now.bank.now last.now) ∷ [])) }
{
    ask_with(context, asked, rule, first, &[], last)
}

/// At each of the last ones. An error is want of memory.
pub(crate) fn ask_with_each(
    context: &AskingContext<'_>,
    asked: &mut Vec<Asked>,
    rule: Rule,
    first: &[Argument],
    middle: &[Argument],
    lasts: &[Argument],
) -> Result<(), AllocError>
    requires asked { HasAsked context.now.bank.now asked.old.items }
    requires rule { HasRule context.now.bank.now rule }
    requires first { HasArguments context.now.bank.now first.now }
    requires middle { HasArguments context.now.bank.now middle.now }
    requires lasts { HasArguments context.now.bank.now lasts.now }
    ensures { OnOk result (Asks context.now.bank.now asked.new.items (asked_in context.now.bank.now asked.old.items ++ map (λ t. asked_with (rule_at context.now.bank.now rule) (arguments_at context.now.bank.now first.now ++ arguments_at context.now.bank.now middle.now ++ t ∷ [])) (arguments_at context.now.bank.now lasts.now))) }
{
    for last in lasts {
        ask_with(context, asked, rule, first, middle, &[*last])?;
    }
    Ok(())
}

// At one owner.
fn ask_with_owner(
    context: &AskingContext<'_>,
    asked: &mut Vec<Asked>,
    rule: Rule,
    first: &[Argument],
    middle: &[Argument],
    p: Owner,
) -> Result<(), AllocError>
    requires asked { HasAsked context.now.bank.now asked.old.items }
    requires rule { HasRule context.now.bank.now rule }
    requires first { HasArguments context.now.bank.now first.now }
    requires middle { HasArguments context.now.bank.now middle.now }
    requires owner { HasOwner context.now.bank.now p }
    ensures { OnOk result (Asks context.now.bank.now asked.new.items (asked_in context.now.bank.now asked.old.items ++ asked_with (rule_at context.now.bank.now rule) (arguments_at context.now.bank.now first.now ++ arguments_at context.now.bank.now middle.now ++ owner_at context.now.bank.now p) ∷ [])) }
{
    let parts = [Argument::Term(p.object), Argument::Term(p.class)];
    ask_with(context, asked, rule, first, middle, &parts)
}

/// At each owner. An error is want of memory.
pub(crate) fn ask_with_owners(
    context: &AskingContext<'_>,
    asked: &mut Vec<Asked>,
    rule: Rule,
    first: &[Argument],
    middle: &[Argument],
    owners: &[Owner],
) -> Result<(), AllocError>
    requires asked { HasAsked context.now.bank.now asked.old.items }
    requires rule { HasRule context.now.bank.now rule }
    requires first { HasArguments context.now.bank.now first.now }
    requires middle { HasArguments context.now.bank.now middle.now }
    requires owners { HasOwners context.now.bank.now owners.now }
    ensures { OnOk result (Asks context.now.bank.now asked.new.items (asked_in context.now.bank.now asked.old.items ++ map (λ p. asked_with (rule_at context.now.bank.now rule) (arguments_at context.now.bank.now first.now ++ arguments_at context.now.bank.now middle.now ++ p)) (owners_at context.now.bank.now owners.now))) }
{
    for p in owners {
        ask_with_owner(context, asked, rule, first, middle, *p)?;
    }
    Ok(())
}
