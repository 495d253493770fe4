// What is asked for at a term, among the others.

ghost use Rattle.std.specs.Prelude.{◌++◌, flat_map, OnOk};
ghost use Rattle.ss_core.specs.View as view;
ghost use Rattle.ss_logic.specs.Asked as spec;
ghost use Rattle.ss_terms.specs.Forms.{term_at, terms_at, HasTerm, HasTerms, IsBankOf};
ghost use Rattle.ss_rules_asked.specs.Numbers.{asked_in, HasAsked, Asks};
ghost use Rattle.ss_rules_asked.specs.Sentences.{among};

use crate::asked::{Argument, Asked, Rule, ask};
use crate::context::AskingContext;
use crate::forms::{is_class_name, store_before};
use crate::lists::{AtTerm, ask_at_terms};
use ss_logic::RuleName;
use ss_terms::TermId;
use std::alloc::AllocError;

/// Sentences at a term for which the other terms are needed: on the owner of a new object, and on two classes.
#[derive(Clone, Copy)]
pub(crate) enum Among {
    New,
    Class,
}

// The owner of the new object, where the store is one with a new object.
#[tactic(auto, using(crate::proofs::Asking::nothing_asked, crate::proofs::Asking::asked_then))]
fn ask_at_new(
    context: &AskingContext<'_>,
    asked: &mut Vec<Asked>,
    terms: &[TermId],
    t: TermId,
) -> Result<(), AllocError>
    requires bank { IsBankOf (view.classes context.now.classes.now) context.now.bank.now }
    requires asked { HasAsked context.now.bank.now asked.old.items }
    requires terms { HasTerms context.now.bank.now terms.now }
    requires term { HasTerm context.now.bank.now t }
    ensures { OnOk result (Asks context.now.bank.now asked.new.items (asked_in context.now.bank.now asked.old.items ++ spec.asked_at_new (terms_at context.now.bank.now terms.now) (term_at context.now.bank.now t))) }
{
    match store_before(context.bank, t) {
        Some(s) => {
            ask(
                context.alloc,
                context.bank,
                asked,
                Rule::True(RuleName::Fresh),
                &[Argument::Number(1), Argument::Term(t)],
            )?;
            ask_at_terms(
                context.alloc,
                context.bank,
                context.classes,
                asked,
                AtTerm::Owner(t, s),
                terms,
            )
        }
        None => Ok(()),
    }
}

// A class name and each other one.
#[tactic(auto, using(crate::proofs::Asking::nothing_asked))]
fn ask_of_class(
    context: &AskingContext<'_>,
    asked: &mut Vec<Asked>,
    terms: &[TermId],
    c: TermId,
) -> Result<(), AllocError>
    requires bank { IsBankOf (view.classes context.now.classes.now) context.now.bank.now }
    requires asked { HasAsked context.now.bank.now asked.old.items }
    requires terms { HasTerms context.now.bank.now terms.now }
    requires term { HasTerm context.now.bank.now c }
    ensures { OnOk result (Asks context.now.bank.now asked.new.items (asked_in context.now.bank.now asked.old.items ++ spec.asked_of_class (terms_at context.now.bank.now terms.now) (term_at context.now.bank.now c))) }
{
    if is_class_name(context.bank, c) {
        ask_at_terms(
            context.alloc,
            context.bank,
            context.classes,
            asked,
            AtTerm::OtherClass(c),
            terms,
        )
    } else {
        Ok(())
    }
}

// At one term.
fn ask_among(
    context: &AskingContext<'_>,
    asked: &mut Vec<Asked>,
    sentence: Among,
    terms: &[TermId],
    t: TermId,
) -> Result<(), AllocError>
    requires bank { IsBankOf (view.classes context.now.classes.now) context.now.bank.now }
    requires asked { HasAsked context.now.bank.now asked.old.items }
    requires terms { HasTerms context.now.bank.now terms.now }
    requires term { HasTerm context.now.bank.now t }
    ensures { OnOk result (Asks context.now.bank.now asked.new.items (asked_in context.now.bank.now asked.old.items ++ among sentence (terms_at context.now.bank.now terms.now) (term_at context.now.bank.now t))) }
{
    match sentence {
        Among::New => ask_at_new(context, asked, terms, t),
        Among::Class => ask_of_class(context, asked, terms, t),
    }
}

/// At each term. An error is want of memory.
pub(crate) fn ask_among_all(
    context: &AskingContext<'_>,
    asked: &mut Vec<Asked>,
    sentence: Among,
    terms: &[TermId],
) -> Result<(), AllocError>
    requires bank { IsBankOf (view.classes context.now.classes.now) context.now.bank.now }
    requires asked { HasAsked context.now.bank.now asked.old.items }
    requires terms { HasTerms context.now.bank.now terms.now }
    ensures { OnOk result (Asks context.now.bank.now asked.new.items (asked_in context.now.bank.now asked.old.items ++ flat_map (among sentence (terms_at context.now.bank.now terms.now)) (terms_at context.now.bank.now terms.now))) }
{
    for t in terms {
        ask_among(context, asked, sentence, terms, *t)?;
    }
    Ok(())
}
