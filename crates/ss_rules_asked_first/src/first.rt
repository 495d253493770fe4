// What is asked for first in a round.

ghost use Rattle.std.specs.Prelude.{◌++◌, IfOk, OnOk};
ghost use Rattle.ss_core.specs.Chain.{IsWithinLimits};
ghost use Rattle.ss_core.specs.View as view;
ghost use Rattle.ss_logic.specs.Asked as spec;
ghost use Rattle.ss_terms.specs.Forms.{terms_at, formulas_at, HasTerms, HasFormulas, IsBankOf};
ghost use Rattle.ss_rules_asked.specs.Numbers.{asked_in, HasAsked, Asks};
ghost use Rattle.ss_rules_asked_first.specs.Good as words;

use crate::gathered::good_stores;
use crate::goods::{Sentence, ask_by_sentences};
use crate::near::{AskingContext, gather};
use ss_core::Classes;
use ss_logic::GoodRule;
use ss_rules_asked::{Asked, AtAtom, AtTerm, ask_at_atoms, ask_at_terms};
use ss_terms::{Bank, FormulaId, TermId};
use std::alloc::{AllocError, Global};

// In good stores.
fn ask_about_good(
    alloc: Global,
    bank: &Bank,
    classes: &Classes,
    asked: &mut Vec<Asked>,
    atoms: &[FormulaId],
    terms: &[TermId],
) -> Result<(), AllocError>
    requires limits { IsWithinLimits (view.classes classes.now) }
    requires asked { HasAsked bank.now asked.old.items }
    requires atoms { HasFormulas bank.now atoms.now }
    requires terms { HasTerms bank.now terms.now }
    ensures { OnOk result (Asks bank.now asked.new.items (asked_in bank.now asked.old.items ++ words.asked_about_good (view.classes classes.now) (formulas_at bank.now atoms.now) (terms_at bank.now terms.now))) }
{
    let stores = good_stores(alloc, bank, atoms)?;
    let near = gather(alloc, bank, classes, atoms, terms)?;
    let sentences = [
        Sentence::Invariants,
        Sentence::Good(GoodRule::Full),
        Sentence::Good(GoodRule::Owned),
        Sentence::Good(GoodRule::Marks),
        Sentence::Good(GoodRule::Typed),
        Sentence::Good(GoodRule::Ready),
    ];
    let context = AskingContext {
        alloc,
        bank,
        near: &near,
    };
    ask_by_sentences(&context, asked, &stores, &sentences)
}

/// What is asked for first in a round of a list with these atoms and terms. An error is want of memory.
pub fn asked_first(
    alloc: Global,
    bank: &Bank,
    classes: &Classes,
    atoms: &[FormulaId],
    terms: &[TermId],
) -> Result<Vec<Asked>, AllocError>
    requires bank { IsBankOf (view.classes classes.now) bank.now }
    requires limits { IsWithinLimits (view.classes classes.now) }
    requires atoms { HasFormulas bank.now atoms.now }
    requires terms { HasTerms bank.now terms.now }
    ensures { IfOk result (λ v. Asks bank.now v.items (spec.asked_first (view.classes classes.now) (formulas_at bank.now atoms.now) (terms_at bank.now terms.now))) }
{
    let mut asked = Vec::new(alloc);
    ask_about_good(alloc, bank, classes, &mut asked, atoms, terms)?;
    ask_at_atoms(alloc, bank, &mut asked, AtAtom::Equation, atoms)?;
    ask_at_terms(alloc, bank, classes, &mut asked, AtTerm::Division, terms)?;
    Ok(asked)
}
