// What is asked for at one term or atom.

ghost use Rattle.std.specs.Prelude.{◌++◌, OnOk};
ghost use Rattle.ss_core.specs.View as view;
ghost use Rattle.ss_logic.specs.Terms.{terms_from};
ghost use Rattle.ss_logic.specs.Asked as spec;
ghost use Rattle.ss_terms.specs.Forms.{term_at, terms_at, formula_at, HasTerm, HasTerms, HasFormula, IsBankOf};
ghost use Rattle.ss_rules_asked.specs.Numbers.{asked_in, HasAsked, Asks};

use crate::asked::{Argument, Asked, Rule, ask};
use crate::forms::{counted, is_class_name, is_pair, is_unknown_truth, owned_in};
use ss_core::Classes;
use ss_logic::RuleName;
use ss_terms::{Bank, Formula, FormulaId, Predicate, Symbol, Term, TermId};
use std::alloc::{AllocError, Global};

// ---- new references

#[tactic(auto, using(crate::proofs::Asking::nothing_asked))]
fn ask_of_next(
    alloc: Global,
    bank: &Bank,
    asked: &mut Vec<Asked>,
    ts: &[TermId],
) -> Result<(), AllocError>
    requires asked { HasAsked bank.now asked.old.items }
    requires terms { HasTerms bank.now ts.now }
    ensures { OnOk result (Asks bank.now asked.new.items (asked_in bank.now asked.old.items ++ spec.asked_of_next (terms_from (terms_at bank.now ts.now)))) }
{
    match ts {
        [] => Ok(()),
        [s] => ask(
            alloc,
            bank,
            asked,
            Rule::True(RuleName::Fresh),
            &[Argument::Number(0), Argument::Term(*s)],
        ),
        [_, _, ..] => Ok(()),
    }
}

#[tactic(auto, using(crate::proofs::Asking::nothing_asked))]
pub(crate) fn ask_at_next(
    alloc: Global,
    bank: &Bank,
    asked: &mut Vec<Asked>,
    t: TermId,
) -> Result<(), AllocError>
    requires asked { HasAsked bank.now asked.old.items }
    requires term { HasTerm bank.now t }
    ensures { OnOk result (Asks bank.now asked.new.items (asked_in bank.now asked.old.items ++ spec.asked_at_next (term_at bank.now t))) }
{
    match bank.term_node(t) {
        Term::App(Symbol::Next, ts) => ask_of_next(alloc, bank, asked, ts),
        _ => Ok(()),
    }
}

#[tactic(auto, using(crate::proofs::Asking::nothing_asked))]
pub(crate) fn ask_at_owner(
    alloc: Global,
    bank: &Bank,
    asked: &mut Vec<Asked>,
    after: TermId,
    s: TermId,
    t: TermId,
) -> Result<(), AllocError>
    requires asked { HasAsked bank.now asked.old.items }
    requires after { HasTerm bank.now after }
    requires store { HasTerm bank.now s }
    requires term { HasTerm bank.now t }
    ensures { OnOk result (Asks bank.now asked.new.items (asked_in bank.now asked.old.items ++ spec.asked_at_owner (term_at bank.now after) (term_at bank.now s) (term_at bank.now t))) }
{
    match owned_in(bank, s, t) {
        Some(o) => ask(
            alloc,
            bank,
            asked,
            Rule::True(RuleName::Fresh),
            &[
                Argument::Number(2),
                Argument::Term(after),
                Argument::Term(o),
            ],
        ),
        None => Ok(()),
    }
}

// ---- classes

#[tactic(auto, using(crate::proofs::Asking::nothing_asked))]
pub(crate) fn ask_of_classes(
    alloc: Global,
    bank: &Bank,
    asked: &mut Vec<Asked>,
    c: TermId,
    t: TermId,
) -> Result<(), AllocError>
    requires asked { HasAsked bank.now asked.old.items }
    requires class { HasTerm bank.now c }
    requires term { HasTerm bank.now t }
    ensures { OnOk result (Asks bank.now asked.new.items (asked_in bank.now asked.old.items ++ spec.asked_of_classes (term_at bank.now c) (term_at bank.now t))) }
{
    if is_class_name(bank, t) && !bank.is_same_term(c, t) {
        ask(
            alloc,
            bank,
            asked,
            Rule::True(RuleName::Class),
            &[Argument::Number(0), Argument::Term(c), Argument::Term(t)],
        )
    } else {
        Ok(())
    }
}

#[tactic(auto, using(crate::proofs::Asking::nothing_asked))]
pub(crate) fn ask_at_count(
    alloc: Global,
    bank: &Bank,
    asked: &mut Vec<Asked>,
    f: FormulaId,
) -> Result<(), AllocError>
    requires asked { HasAsked bank.now asked.old.items }
    requires formula { HasFormula bank.now f }
    ensures { OnOk result (Asks bank.now asked.new.items (asked_in bank.now asked.old.items ++ spec.asked_at_count (formula_at bank.now f))) }
{
    match counted(bank, f) {
        Some(c) => ask(
            alloc,
            bank,
            asked,
            Rule::True(RuleName::Class),
            &[
                Argument::Number(1),
                Argument::Term(c.term),
                Argument::Term(c.class),
            ],
        ),
        None => Ok(()),
    }
}

pub(crate) fn ask_of_term(
    alloc: Global,
    bank: &Bank,
    asked: &mut Vec<Asked>,
    t: TermId,
) -> Result<(), AllocError>
    requires asked { HasAsked bank.now asked.old.items }
    requires term { HasTerm bank.now t }
    ensures { OnOk result (Asks bank.now asked.new.items (asked_in bank.now asked.old.items ++ spec.asked_of_term (term_at bank.now t))) }
{
    ask(
        alloc,
        bank,
        asked,
        Rule::True(RuleName::Class),
        &[Argument::Number(3), Argument::Term(t)],
    )
}

// ---- owners and truth values

#[tactic(auto, using(crate::proofs::Asking::nothing_asked))]
pub(crate) fn ask_of_pair(
    alloc: Global,
    bank: &Bank,
    asked: &mut Vec<Asked>,
    p: TermId,
) -> Result<(), AllocError>
    requires asked { HasAsked bank.now asked.old.items }
    requires term { HasTerm bank.now p }
    ensures { OnOk result (Asks bank.now asked.new.items (asked_in bank.now asked.old.items ++ spec.asked_of_pair (term_at bank.now p))) }
{
    if is_pair(bank, p) {
        ask(
            alloc,
            bank,
            asked,
            Rule::True(RuleName::Split),
            &[Argument::Number(0), Argument::Term(p)],
        )
    } else {
        Ok(())
    }
}

pub(crate) fn ask_of_two_pairs(
    alloc: Global,
    bank: &Bank,
    asked: &mut Vec<Asked>,
    p: TermId,
    q: TermId,
) -> Result<(), AllocError>
    requires asked { HasAsked bank.now asked.old.items }
    requires first { HasTerm bank.now p }
    requires second { HasTerm bank.now q }
    ensures { OnOk result (Asks bank.now asked.new.items (asked_in bank.now asked.old.items ++ spec.asked_of_two_pairs (term_at bank.now p) (term_at bank.now q))) }
{
    ask(
        alloc,
        bank,
        asked,
        Rule::True(RuleName::Split),
        &[Argument::Number(1), Argument::Term(p), Argument::Term(q)],
    )
}

#[tactic(auto, using(crate::proofs::Asking::nothing_asked))]
pub(crate) fn ask_of_truth(
    alloc: Global,
    bank: &Bank,
    classes: &Classes,
    asked: &mut Vec<Asked>,
    t: TermId,
) -> Result<(), AllocError>
    requires bank { IsBankOf (view.classes classes.now) bank.now }
    requires asked { HasAsked bank.now asked.old.items }
    requires term { HasTerm bank.now t }
    ensures { OnOk result (Asks bank.now asked.new.items (asked_in bank.now asked.old.items ++ spec.asked_of_truth (view.classes classes.now) (term_at bank.now t))) }
{
    let _ = classes;
    if is_unknown_truth(bank, t) {
        ask(
            alloc,
            bank,
            asked,
            Rule::True(RuleName::Bool),
            &[Argument::Term(t)],
        )
    } else {
        Ok(())
    }
}

// ---- whole numbers

#[tactic(auto, using(crate::proofs::Asking::nothing_asked))]
fn ask_of_two(
    alloc: Global,
    bank: &Bank,
    asked: &mut Vec<Asked>,
    rule: RuleName,
    ts: &[TermId],
) -> Result<(), AllocError>
    requires asked { HasAsked bank.now asked.old.items }
    requires terms { HasTerms bank.now ts.now }
    ensures { OnOk result (Asks bank.now asked.new.items (asked_in bank.now asked.old.items ++ spec.asked_of_two rule (terms_from (terms_at bank.now ts.now)))) }
{
    match ts {
        [] => Ok(()),
        [_] => Ok(()),
        [x, y] => ask(
            alloc,
            bank,
            asked,
            Rule::True(rule),
            &[Argument::Term(*x), Argument::Term(*y)],
        ),
        [_, _, _, ..] => Ok(()),
    }
}

#[tactic(auto, using(crate::proofs::Asking::nothing_asked))]
pub(crate) fn ask_at_division(
    alloc: Global,
    bank: &Bank,
    asked: &mut Vec<Asked>,
    t: TermId,
) -> Result<(), AllocError>
    requires asked { HasAsked bank.now asked.old.items }
    requires term { HasTerm bank.now t }
    ensures { OnOk result (Asks bank.now asked.new.items (asked_in bank.now asked.old.items ++ spec.asked_at_division (term_at bank.now t))) }
{
    match bank.term_node(t) {
        Term::App(Symbol::Quotient, ts) => ask_of_two(alloc, bank, asked, RuleName::Quorem, ts),
        Term::App(Symbol::Remainder, ts) => ask_of_two(alloc, bank, asked, RuleName::Quorem, ts),
        _ => Ok(()),
    }
}

#[tactic(auto, using(crate::proofs::Asking::nothing_asked))]
pub(crate) fn ask_at_equation(
    alloc: Global,
    bank: &Bank,
    asked: &mut Vec<Asked>,
    f: FormulaId,
) -> Result<(), AllocError>
    requires asked { HasAsked bank.now asked.old.items }
    requires formula { HasFormula bank.now f }
    ensures { OnOk result (Asks bank.now asked.new.items (asked_in bank.now asked.old.items ++ spec.asked_at_equation (formula_at bank.now f))) }
{
    match bank.formula_node(f) {
        Formula::Literal {
            predicate: Predicate::Equal,
            arguments,
            ..
        } => ask_of_two(alloc, bank, asked, RuleName::Apart, arguments),
        _ => Ok(()),
    }
}
