// How facts are opened by choices.

ghost use Rattle.std.specs.Prelude.{◌≡◌, ◌+◌, [], List, Some, None, true, false, length, take, drop, slice_get, IfOk, IfSome, OnOk};
ghost use Rattle.ss_core.specs.Tree.{ClassTree};
ghost use Rattle.ss_logic.specs.Formulas as logic;
ghost use Rattle.ss_logic.specs.Formulas.{Formulas, And, formula_list};
ghost use Rattle.ss_logic.specs.Opened as ground;
ghost use Rattle.ss_logic_means.specs.Origins.{opened_by};
ghost use Rattle.ss_terms.specs.Forms.{formula_at, formulas_at, HasFormula};
ghost use Rattle.ss_search_path.specs.Paths.{known_on, GoesOn};
ghost use Rattle.ss_search_path.specs.Standing.{choices_in, parts_of, IsGiven, AreChosen, IsFact, IsOpenedFact, OpensAt, OpensFact};

use crate::Path;
use crate::standing::Given;
use ss_terms::{Bank, Formula, FormulaId};
use ss_terms_puts::is_exists;
use std::alloc::AllocError;

// A part of an `and` or of an `or`; the formula itself where there is no such part.
fn part_of(bank: &Bank, f: FormulaId, part: usize) -> FormulaId
    requires { HasFormula bank.now f }
    ensures { (g : logic.Formula) → slice_get (parts_of (formula_at bank.now f)) part ≡ Some g → formula_at bank.now result ≡ g }
{
    match bank.formula_node(f) {
        Formula::And(parts) => part_among(bank, parts, part, f),
        Formula::Or(parts) => part_among(bank, parts, part, f),
        Formula::Literal { .. } => f,
        Formula::Forall(_, _) => f,
        Formula::Exists(_, _) => f,
    }
}

// The formula with this number among some; else another.
fn part_among(bank: &Bank, parts: &[FormulaId], part: usize, other: FormulaId) -> FormulaId
    ensures { (g : logic.Formula) → slice_get (formulas_at bank.now parts.now) part ≡ Some g → formula_at bank.now result ≡ g }
{
    let _ = bank;
    if part < parts.len() {
        return parts[part];
    }
    other
}

impl Given<'_> {
    // The fact at a place, where the bank has it.
    fn fact(&self, path: &Path, place: usize) -> Option<FormulaId>
        ensures some { IfSome result (λ f. HasFormula self.now.bank.now f × (slice_get (known_on self.now.bank.now path.now) place ≡ Some (formula_at self.now.bank.now f))) }
        ensures none { result ≡ None → (fact : logic.Formula) → slice_get (known_on self.now.bank.now path.now) place ≡ Some fact → (parts_of fact ≡ []) × (ground.is_exists fact ≡ false) }
    {
        if place >= path.known.len() {
            return None;
        }
        let f = path.known[place];
        if self.bank.has_formula(f) {
            return Some(f);
        }
        None
    }

    // The first choice, from one on, of an `exists`.
    fn first_choice(&self, f: FormulaId, from: usize) -> Option<usize>
        requires given { IsGiven self.now }
        requires formula { HasFormula self.now.bank.now f }
        requires exists { ground.is_exists (formula_at self.now.bank.now f) ≡ true }
        ensures some { IfSome result (λ i. OpensAt self.now from i (formula_at self.now.bank.now f)) }
        ensures none { result ≡ None → opened_by (drop from (choices_in self.now)) (formula_at self.now.bank.now f) ≡ formula_at self.now.bank.now f }
    {
        for i in from..self.choices.len() {
            if self.bank.is_same_formula(self.choices[i].whole, f) {
                return Some(i);
            }
        }
        None
    }

    // The first choice, from one on, that opens the fact at a place.
    fn opening(&self, path: &Path, place: usize, from: usize) -> Option<usize>
        requires { IsGiven self.now }
        ensures some { IfSome result (λ i. OpensFact self.now (known_on self.now.bank.now path.now) place from i) }
        ensures none { result ≡ None → (fact : logic.Formula) → slice_get (known_on self.now.bank.now path.now) place ≡ Some fact → ground.is_exists fact ≡ true → opened_by (drop from (choices_in self.now)) fact ≡ fact }
    {
        let Some(f) = self.fact(path, place) else {
            return None;
        };
        if !is_exists(self.bank, f) {
            return None;
        }
        self.first_choice(f, from)
    }

    /// Opens the fact at a place as long as a choice from one on opens it. Gives where the opened fact is, and from which choice on it is
    /// opened.
    pub fn open(
        &self,
        path: &mut Path,
        mut place: usize,
        mut from: usize,
    ) -> Result<(usize, usize), AllocError>
        requires { IsGiven self.now }
        ensures kept { OnOk result (take (length path.old.known.items) path.new.known.items ≡ path.old.known.items) }
        ensures goes_on { OnOk result ((cs : List ClassTree) (premises : List logic.Formula) (goal : logic.Formula) → AreChosen cs self.now (known_on self.now.bank.now path.old) → GoesOn cs premises goal self.now.bank.now path.old path.new) }
        ensures opened { IfOk result (λ at. (cs : List ClassTree) (f : logic.Formula) → AreChosen cs self.now (known_on self.now.bank.now path.old) → IsFact cs self.now (known_on self.now.bank.now path.old) place from f → IsOpenedFact cs self.now (known_on self.now.bank.now path.new) at.0 at.1 f) }
    {
        while let Some(choice) = self.opening(path, place, from) {
            let next = path.known.len();
            path.chosen(self.bank, place, choice, self.bodies[choice])?;
            place = next;
            from = choice + 1;
        }
        Ok((place, from))
    }

    /// A part of the fact at a place.
    pub fn part_at(&self, path: &Path, place: usize, part: usize) -> FormulaId
        ensures { (fact f : logic.Formula) → slice_get (known_on self.now.bank.now path.now) place ≡ Some fact → slice_get (parts_of fact) part ≡ Some f → formula_at self.now.bank.now result ≡ f }
    {
        match self.fact(path, place) {
            Some(f) => part_of(self.bank, f, part),
            None => FormulaId(0),
        }
    }

    /// A part of the `and` that is the fact at a place is known, and opened.
    pub fn part(
        &self,
        path: &mut Path,
        place: usize,
        from: usize,
        part: usize,
    ) -> Result<(usize, usize), AllocError>
        requires { IsGiven self.now }
        ensures kept { OnOk result (take (length path.old.known.items) path.new.known.items ≡ path.old.known.items) }
        ensures goes_on { OnOk result ((cs : List ClassTree) (premises : List logic.Formula) (goal : logic.Formula) (fs : Formulas) (f : logic.Formula) → AreChosen cs self.now (known_on self.now.bank.now path.old) → IsOpenedFact cs self.now (known_on self.now.bank.now path.old) place from (And fs) → slice_get (formula_list fs) part ≡ Some f → GoesOn cs premises goal self.now.bank.now path.old path.new) }
        ensures opened { IfOk result (λ at. (cs : List ClassTree) (fs : Formulas) (f : logic.Formula) → AreChosen cs self.now (known_on self.now.bank.now path.old) → IsOpenedFact cs self.now (known_on self.now.bank.now path.old) place from (And fs) → slice_get (formula_list fs) part ≡ Some f → IsOpenedFact cs self.now (known_on self.now.bank.now path.new) at.0 at.1 f) }
    {
        let f = self.part_at(path, place, part);
        let next = path.known.len();
        path.part(self.bank, place, part, f)?;
        self.open(path, next, from)
    }
}
