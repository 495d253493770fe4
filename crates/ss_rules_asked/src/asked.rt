// Instances that are asked for.

ghost use Rattle.std.specs.Prelude.{◌≡◌, [], ◌∷◌, ◌++◌, OnOk};
ghost use Rattle.ss_rules_asked.specs.Numbers.{rule_at, arguments_at, asked_in, asked_with, HasRule, HasArguments, HasAsked, Asks};

use ss_logic::{GoodRule, RuleName};
use ss_terms::{Bank, TermId};
use std::alloc::{AllocError, Global};

/// An argument of a rule: a term of a bank, a number or a class.
#[derive(Clone, Copy, PartialEq, Eq)]
pub enum Argument {
    /// A term.
    Term(TermId),
    /// A number.
    Number(u32),
    /// A class name.
    Class(u16),
}

/// A rule: one that is true in every structure, or at a store one on good stores or the one on invariants.
#[derive(Clone, Copy, PartialEq, Eq)]
pub enum Rule {
    /// A rule that is true in every structure.
    True(RuleName),
    /// A rule on good stores, at this one.
    Good(GoodRule, TermId),
    /// The rule on invariants, at this store.
    Invariants(TermId),
}

/// An instance that is asked for.
#[derive(Drop, PartialEq, Eq)]
pub struct Asked {
    /// The rule.
    pub rule: Rule,
    /// Its arguments.
    pub arguments: Vec<Argument>,
}

/// Asks for the instance of a rule at these arguments. An error is want of memory.
pub fn ask(
    alloc: Global,
    bank: &Bank,
    asked: &mut Vec<Asked>,
    rule: Rule,
    arguments: &[Argument],
) -> Result<(), AllocError>
    requires asked { HasAsked bank.now asked.old.items }
    requires rule { HasRule bank.now rule }
    requires arguments { HasArguments bank.now arguments.now }
    ensures { OnOk result (Asks bank.now asked.new.items (asked_in bank.now asked.old.items ++ asked_with (rule_at bank.now rule) (arguments_at bank.now arguments.now) ∷ [])) }
{
    let _ = bank;
    let arguments = Vec::from_slice(alloc, arguments)?;
    asked.push(Asked { rule, arguments })?;
    Ok(())
}
