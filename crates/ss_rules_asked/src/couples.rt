// What is asked for at each two of a list.

ghost use Rattle.std.specs.Prelude.{◌≡◌, ◌++◌, flat_map, OnOk};
ghost use Rattle.ss_core.specs.View as view;
ghost use Rattle.ss_logic.specs.Asked as spec;
ghost use Rattle.ss_terms.specs.Forms.{terms_at, HasTerms, IsBankOf};
ghost use Rattle.ss_rules_asked.specs.Numbers.{asked_in, HasAsked, Asks};
ghost use Rattle.ss_rules_asked.specs.Readings.{counts_at, all_counts_at, HasCount, HasCounts};

use crate::asked::{Argument, Asked, Rule, ask};
use crate::forms::Counts;
use crate::lists::{AtTerm, ask_at_terms};
use ss_core::Classes;
use ss_logic::RuleName;
use ss_terms::{Bank, TermId};
use std::alloc::{AllocError, Global};

// One term counts as two classes.
#[tactic(auto, using(crate::proofs::Asking::nothing_asked))]
fn ask_of_both(
    alloc: Global,
    bank: &Bank,
    asked: &mut Vec<Asked>,
    a: Counts,
    b: Counts,
) -> Result<(), AllocError>
    requires asked { HasAsked bank.now asked.old.items }
    requires first { HasCount bank.now a }
    requires second { HasCount bank.now b }
    ensures { OnOk result (Asks bank.now asked.new.items (asked_in bank.now asked.old.items ++ spec.asked_of_both (counts_at bank.now a) (counts_at bank.now b))) }
{
    if bank.is_same_term(a.term, b.term) {
        ask(
            alloc,
            bank,
            asked,
            Rule::True(RuleName::Class),
            &[
                Argument::Number(2),
                Argument::Term(a.term),
                Argument::Term(a.class),
                Argument::Term(b.class),
            ],
        )
    } else {
        Ok(())
    }
}

// The first of them with each other one.
fn ask_with_each(
    alloc: Global,
    bank: &Bank,
    asked: &mut Vec<Asked>,
    a: Counts,
    cs: &[Counts],
) -> Result<(), AllocError>
    requires asked { HasAsked bank.now asked.old.items }
    requires first { HasCount bank.now a }
    requires others { HasCounts bank.now cs.now }
    ensures { OnOk result (Asks bank.now asked.new.items (asked_in bank.now asked.old.items ++ flat_map (spec.asked_of_both (counts_at bank.now a)) (all_counts_at bank.now cs.now))) }
{
    for b in cs {
        ask_of_both(alloc, bank, asked, a, *b)?;
    }
    Ok(())
}

/// Each two. An error is want of memory.
pub(crate) fn ask_of_counts(
    alloc: Global,
    bank: &Bank,
    asked: &mut Vec<Asked>,
    cs: &[Counts],
) -> Result<(), AllocError>
    requires asked { HasAsked bank.now asked.old.items }
    requires counts { HasCounts bank.now cs.now }
    ensures { OnOk result (Asks bank.now asked.new.items (asked_in bank.now asked.old.items ++ spec.asked_of_counts (all_counts_at bank.now cs.now))) }
{
    let mut i = 0;
    while i < cs.len() {
        ask_with_each(alloc, bank, asked, cs[i], &cs[i + 1..])?;
        i += 1;
    }
    Ok(())
}

/// Each two pairs. An error is want of memory.
pub(crate) fn ask_of_pairs(
    alloc: Global,
    bank: &Bank,
    classes: &Classes,
    asked: &mut Vec<Asked>,
    ps: &[TermId],
) -> Result<(), AllocError>
    requires bank { IsBankOf (view.classes classes.now) bank.now }
    requires asked { HasAsked bank.now asked.old.items }
    requires pairs { HasTerms bank.now ps.now }
    ensures { OnOk result (Asks bank.now asked.new.items (asked_in bank.now asked.old.items ++ spec.asked_of_pairs (terms_at bank.now ps.now))) }
{
    let mut i = 0;
    while i < ps.len() {
        let p = ps[i];
        ask_at_terms(
            alloc,
            bank,
            classes,
            asked,
            AtTerm::OtherPair(p),
            &ps[i + 1..],
        )?;
        i += 1;
    }
    Ok(())
}
