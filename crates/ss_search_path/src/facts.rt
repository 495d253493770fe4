// Lines that make formulas known.

ghost use Rattle.std.specs.Prelude.{◌≡◌, ◌++◌, ◌∷◌, [], List, Some, true, OnOk, slice_get, option_and_then};
ghost use Rattle.ss_core.specs.Tree.{ClassTree};
ghost use Rattle.ss_logic.specs.declared.Sort.{Sort};
ghost use Rattle.ss_logic.specs.Terms.{Term, have_sorts};
ghost use Rattle.ss_logic.specs.Formulas.{Formula, Forall, is_well_formed, neg, put};
ghost use Rattle.ss_logic.specs.Rules.{instance_of};
ghost use Rattle.ss_logic.specs.GoodRules.{good_instance_of};
ghost use Rattle.ss_logic.specs.Invariants.{invariants_of};
ghost use Rattle.ss_logic_means.specs.Scenes.{AreInvariants};
ghost use Rattle.ss_logic_means.specs.Steps.{part_of, good_store, choice};
ghost use Rattle.ss_terms.specs.Forms.{formula_at, terms_at, HasFormula, HasTerms};
ghost use Rattle.ss_deriv.specs.Lines.{line_of};
ghost use Rattle.ss_search_path.specs.Paths.{known_on, GoesOn, Makes};

use crate::path::Path;
use ss_deriv::Line;
use ss_logic::{GoodRule, RuleName};
use ss_terms::{Bank, FormulaId, TermId};
use std::alloc::AllocError;

impl Path {
    /// A line that makes a formula known.
    pub fn fact(&mut self, bank: &Bank, line: Line, f: FormulaId) -> Result<(), AllocError>
        ensures known { OnOk result (self.new.known.items ≡ self.old.known.items ++ f ∷ []) }
        ensures goes_on { OnOk result ((cs : List ClassTree) (premises : List Formula) (goal : Formula) → Makes cs premises goal (known_on bank.now self.old) (line_of bank.now line) (formula_at bank.now f) → GoesOn cs premises goal bank.now self.old self.new) }
    {
        let _ = bank;
        self.before.push(line)?;
        self.known.push(f)?;
        Ok(())
    }

    /// The premise with this number is known.
    pub fn premise(&mut self, bank: &Bank, number: usize, f: FormulaId) -> Result<(), AllocError>
        ensures known { OnOk result (self.new.known.items ≡ self.old.known.items ++ f ∷ []) }
        ensures goes_on { OnOk result ((cs : List ClassTree) (premises : List Formula) (goal : Formula) → slice_get premises number ≡ Some (formula_at bank.now f) → is_well_formed cs [] (formula_at bank.now f) ≡ true → GoesOn cs premises goal bank.now self.old self.new) }
    {
        self.fact(bank, Line::Premise { number }, f)
    }

    /// The negation of the goal is known.
    pub fn denied(&mut self, bank: &Bank, f: FormulaId) -> Result<(), AllocError>
        ensures known { OnOk result (self.new.known.items ≡ self.old.known.items ++ f ∷ []) }
        ensures goes_on { OnOk result ((cs : List ClassTree) (premises : List Formula) (goal : Formula) → formula_at bank.now f ≡ neg goal → is_well_formed cs [] goal ≡ true → GoesOn cs premises goal bank.now self.old self.new) }
    {
        self.fact(bank, Line::Denied, f)
    }

    /// Of a known `and` this part is known.
    pub fn part(
        &mut self,
        bank: &Bank,
        of: usize,
        part: usize,
        f: FormulaId,
    ) -> Result<(), AllocError>
        ensures known { OnOk result (self.new.known.items ≡ self.old.known.items ++ f ∷ []) }
        ensures goes_on { OnOk result ((cs : List ClassTree) (premises : List Formula) (goal : Formula) (whole : Formula) → slice_get (known_on bank.now self.old) of ≡ Some whole → part_of part whole ≡ Some (formula_at bank.now f) → is_well_formed cs [] whole ≡ true → GoesOn cs premises goal bank.now self.old self.new) }
    {
        self.fact(bank, Line::Part { of, part }, f)
    }

    /// The body of a known `forall` is known at these terms.
    pub fn instance(
        &mut self,
        bank: &Bank,
        of: usize,
        terms: Vec<TermId>,
        f: FormulaId,
    ) -> Result<(), AllocError>
        requires { HasTerms bank.now terms.items }
        ensures known { OnOk result (self.new.known.items ≡ self.old.known.items ++ f ∷ []) }
        ensures goes_on { OnOk result ((cs : List ClassTree) (premises : List Formula) (goal : Formula) (ss : List Sort) (body : Formula) → slice_get (known_on bank.now self.old) of ≡ Some (Forall ss body) → have_sorts cs ss (terms_at bank.now terms.items) ≡ true → formula_at bank.now f ≡ put (terms_at bank.now terms.items) body → is_well_formed cs [] (Forall ss body) ≡ true → GoesOn cs premises goal bank.now self.old self.new) }
    {
        self.fact(bank, Line::Inst { of, terms }, f)
    }

    /// Either there is nothing that this `exists` says, or these new constants are such.
    pub fn choice(
        &mut self,
        bank: &Bank,
        exists: FormulaId,
        constants: Vec<TermId>,
        f: FormulaId,
    ) -> Result<(), AllocError>
        requires exists { HasFormula bank.now exists }
        requires constants { HasTerms bank.now constants.items }
        ensures known { OnOk result (self.new.known.items ≡ self.old.known.items ++ f ∷ []) }
        ensures goes_on { OnOk result ((cs : List ClassTree) (premises : List Formula) (goal : Formula) → choice (goal ∷ premises ++ known_on bank.now self.old) (formula_at bank.now exists) (terms_at bank.now constants.items) ≡ Some (formula_at bank.now f) → is_well_formed cs [] (formula_at bank.now exists) ≡ true → GoesOn cs premises goal bank.now self.old self.new) }
    {
        self.fact(
            bank,
            Line::Choose {
                formula: exists,
                constants,
            },
            f,
        )
    }

    /// What a rule says of these terms is known.
    pub fn rule(
        &mut self,
        bank: &Bank,
        name: RuleName,
        arguments: Vec<TermId>,
        f: FormulaId,
    ) -> Result<(), AllocError>
        requires { HasTerms bank.now arguments.items }
        ensures known { OnOk result (self.new.known.items ≡ self.old.known.items ++ f ∷ []) }
        ensures goes_on { OnOk result ((cs : List ClassTree) (premises : List Formula) (goal : Formula) → instance_of cs name (terms_at bank.now arguments.items) ≡ Some (formula_at bank.now f) → GoesOn cs premises goal bank.now self.old self.new) }
    {
        self.fact(bank, Line::Rule { name, arguments }, f)
    }

    /// What a rule on good stores says of the store of a known `good` and of these terms is known.
    pub fn good(
        &mut self,
        bank: &Bank,
        name: GoodRule,
        store: usize,
        arguments: Vec<TermId>,
        f: FormulaId,
    ) -> Result<(), AllocError>
        requires { HasTerms bank.now arguments.items }
        ensures known { OnOk result (self.new.known.items ≡ self.old.known.items ++ f ∷ []) }
        ensures goes_on { OnOk result ((cs : List ClassTree) (premises : List Formula) (goal : Formula) (s : Term) → option_and_then good_store (slice_get (known_on bank.now self.old) store) ≡ Some s → good_instance_of cs name s (terms_at bank.now arguments.items) ≡ Some (formula_at bank.now f) → GoesOn cs premises goal bank.now self.old self.new) }
    {
        self.fact(
            bank,
            Line::Good {
                name,
                store,
                arguments,
            },
            f,
        )
    }

    /// What the rule on invariants says of the store of a known `good`, of an object and of a class is known.
    pub fn invariants(
        &mut self,
        bank: &Bank,
        store: usize,
        arguments: Vec<TermId>,
        f: FormulaId,
    ) -> Result<(), AllocError>
        requires { HasTerms bank.now arguments.items }
        ensures known { OnOk result (self.new.known.items ≡ self.old.known.items ++ f ∷ []) }
        ensures goes_on { OnOk result ((cs : List ClassTree) (premises : List Formula) (goal : Formula) (s : Term) → option_and_then good_store (slice_get (known_on bank.now self.old) store) ≡ Some s → invariants_of cs s (terms_at bank.now arguments.items) ≡ Some (formula_at bank.now f) → AreInvariants cs → GoesOn cs premises goal bank.now self.old self.new) }
    {
        self.fact(bank, Line::Invariants { store, arguments }, f)
    }
}
