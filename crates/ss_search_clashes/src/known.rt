// Known formulas at classes of terms.

ghost use Rattle.std.specs.Prelude.{◌≡◌, ◌∷◌, List, not, None, Some, IfOk, IfSome};
ghost use Rattle.ss_terms.specs.declared.forms.FormulaId.{FormulaId};
ghost use Rattle.ss_terms.specs.Forms.{HasFormula};
ghost use Rattle.ss_equality_rules.specs.Equal.{class_number};
ghost use Rattle.ss_search_clashes.specs.Numbered.{class_of, HasNoClash};
ghost use Rattle.ss_search_clashes.specs.Says.{key_of, said_of, IsSaid};
ghost use Rattle.ss_search_clashes.specs.Tables.{IsTable};
ghost use Rattle.ss_search_clashes.specs.Found.{IsAgainst};

use crate::equalities::differs;
use crate::says::{Saying, class, said_by};
use crate::signatures::{Signatures, opposite_place};
use ss_terms::{Bank, FormulaId, TermId};
use std::alloc::{AllocError, Global};
use std::marker::Model;

/// Why one more formula doesn't fit.
#[derive(Clone, Copy, Drop)]
pub enum Against {
    /// It says that two terms of one class differ.
    Classes,
    /// The known formula at this place denies it. They are an atom and a negated atom of one name at arguments in the same classes, or a quantified
    /// formula and its negation.
    Known(usize),
}

/// What known formulas say at the classes of terms, which they don't contradict.
#[derive(Drop)]
pub struct Known {
    alloc: Global,
    classes: Vec<usize>,
    said: Signatures,
}

impl Model for Known {
    ghost use Rattle.ss_search_clashes.specs.Tables.{Table};

    ghost Value = { Table };

    ghost view = { λ k. record { classes = k.classes.items; said = k.said } };
}

impl Known {
    pub(crate) fn new(alloc: Global, classes: Vec<usize>, said: Signatures) -> Self
        ensures { result ≡ record { classes = classes.items; said = said } }
    {
        Known {
            alloc,
            classes,
            said,
        }
    }

    /// The class of a term.
    pub fn class(&self, t: TermId) -> usize
        ensures { result ≡ class_number self.now.classes t }
    {
        class(&self.classes, t)
    }

    // The place of a known formula that says the opposite.
    fn opposite(&self, saying: &Saying) -> Option<usize>
        ensures none { result ≡ None → IsSaid self.now.said (key_of saying.now.signature) (not saying.now.holds) → ⊥ }
        ensures some { IfSome result (λ i. said_of self.now.said (key_of saying.now.signature) ≡ Some (record { place = i; holds = not saying.now.holds })) }
    {
        match self.said.find(&saying.signature) {
            Some(first) => opposite_place(first, saying.holds),
            None => None,
        }
    }

    /// Why one more formula doesn't fit; none only where nothing contradicts. An equality isn't merged here. An error is want
    /// of memory.
    pub fn against(&self, bank: &Bank, f: FormulaId) -> Result<Option<Against>, AllocError>
        requires { HasFormula bank.now f }
        ensures none { IfOk result (λ o. o ≡ None → (known : List FormulaId) → IsTable bank.now known self.now → HasNoClash bank.now (class_of bank.now self.now.classes) (f ∷ known)) }
        ensures some { IfOk result (λ o. IfSome o (λ a. (known : List FormulaId) → IsTable bank.now known self.now → IsAgainst bank.now (class_of bank.now self.now.classes) known f a)) }
    {
        bank.numbers_are_apart();
        if differs(bank, &self.classes, f) {
            return Ok(Some(Against::Classes));
        }
        let Some(saying) = said_by(self.alloc, bank, &self.classes, f)? else {
            return Ok(None);
        };
        match self.opposite(&saying) {
            Some(place) => Ok(Some(Against::Known(place))),
            None => Ok(None),
        }
    }
}
