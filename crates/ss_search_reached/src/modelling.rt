// The model that known formulas are.

ghost use Rattle.std.specs.Prelude.{◌≡◌, List, map, true, IfOk, OnOk};
ghost use Rattle.std.specs.List.{Contains};
ghost use Rattle.ss_core.specs.Tree.{ClassTree};
ghost use Rattle.ss_bit_set.specs.Marked.{marked};
ghost use Rattle.ss_logic_countermodels.specs.Refuting.{IsCountermodel, told};
ghost use Rattle.ss_terms.specs.declared.forms.TermId.{TermId};
ghost use Rattle.ss_terms.specs.declared.forms.FormulaId.{FormulaId};
ghost use Rattle.ss_terms.specs.Forms.{term_at, formula_at, formulas_at, HasTerm, HasFormula, HasFormulas};
ghost use Rattle.ss_equality_rules.specs.Equal as words;
ghost use Rattle.ss_logic.specs.Includes.{Includes};
ghost use Rattle.ss_search_procedure_rules.specs.Closed.{IsTotal};
ghost use Rattle.ss_search_reached.specs.Known.{known_in, is_name, IsReached};
ghost use Rattle.ss_search_reached.specs.Following.{AreOneClass, IsOpen};
ghost use Rattle.ss_search_reached.specs.Models as models;
ghost use Rattle.ss_search_reached.specs.Models.{HasArguments};

use crate::basics::all_terms;
use crate::equalities::class_number;
use crate::reached::{Reached, first_name};
use ss_logic_countermodels::Countermodel;
use ss_search_clashes::classes_are_of_terms;
use ss_terms::{Bank, FormulaId, TermId};
use std::alloc::{AllocError, Global};

// The arguments of literals are terms of the bank.
fn arguments_are_there(bank: &Bank, f: FormulaId)
    requires { HasFormula bank.now f }
    ensures { HasArguments bank.now (formula_at bank.now f) }
{
    let _node = bank.formula_node(f);
}

// The number of a class in a model. A name that nothing binds has the class 0 there.
fn renumbered(class: usize, names: usize) -> Result<usize, AllocError>
    ensures { IfOk result (λ n. n ≡ models.renumbered names class) }
{
    if class == names {
        Ok(0)
    } else {
        class.checked_add(1).ok_or(AllocError)
    }
}

impl Reached {
    // The class of the names that nothing binds.
    fn class_of_names(&self, bank: &Bank) -> usize
        ensures { AreOneClass bank.now self.now.classes.items → (t : TermId) → HasTerm bank.now t → is_name (term_at bank.now t) ≡ true → words.class_number self.now.classes.items t ≡ result }
    {
        match first_name(bank) {
            Some(t) => class_number(&self.classes, t),
            None => 0,
        }
    }

    // The numbers of the classes of terms, where this is the class of the names that nothing binds.
    fn listed_classes(
        &self,
        alloc: Global,
        ts: &[TermId],
        names: usize,
    ) -> Result<Vec<usize>, AllocError>
        ensures { IfOk result (λ v. v.items ≡ map (λ t. models.renumbered names (words.class_number self.now.classes.items t)) ts.now) }
    {
        let mut classes = Vec::new(alloc);
        for t in ts {
            classes.push(renumbered(class_number(&self.classes, *t), names)?)?;
        }
        Ok(classes)
    }

    // Which of these formulas are known.
    fn listed_truths(
        &self,
        alloc: Global,
        bank: &Bank,
        fs: &[FormulaId],
    ) -> Result<Vec<bool>, AllocError>
        requires { HasFormulas bank.now fs.now }
        ensures truths { IfOk result (λ v. v.items ≡ map (λ f. marked self.now.numbers f.0) fs.now) }
        ensures arguments { OnOk result ((f : FormulaId) → Contains fs.now f → HasArguments bank.now (formula_at bank.now f)) }
    {
        let mut truths = Vec::new(alloc);
        for f in fs {
            arguments_are_there(bank, *f);
            truths.push(self.numbers.has(f.0))?;
        }
        Ok(truths)
    }

    /// A model of formulas that are known, where of each decision one side is known and nothing more follows. The decisions are what is told
    /// in the formulas. An error is want of memory.
    pub fn model(
        &self,
        alloc: Global,
        bank: &Bank,
        formulas: &[FormulaId],
        decisions: &[FormulaId],
    ) -> Result<Countermodel, AllocError>
        requires reached { IsReached bank.now self.now }
        requires formulas { HasFormulas bank.now formulas.now }
        requires in_bank { HasFormulas bank.now decisions.now }
        requires decisions { formulas_at bank.now decisions.now ≡ told (formulas_at bank.now formulas.now) }
        requires total { IsTotal (known_in bank.now self.now) }
        requires known { Includes (known_in bank.now self.now) (formulas_at bank.now formulas.now) }
        ensures { (cs : List ClassTree) → IsOpen cs bank.now self.now → IfOk result (IsCountermodel cs (formulas_at bank.now formulas.now)) }
    {
        bank.numbers_are_apart();
        classes_are_of_terms(bank);
        let terms = all_terms(alloc, bank, formulas)?;
        let classes = self.listed_classes(alloc, &terms.list, self.class_of_names(bank))?;
        let truth = self.listed_truths(alloc, bank, decisions)?;
        Ok(Countermodel { classes, truth })
    }
}
