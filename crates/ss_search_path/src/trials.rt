// Trials: a formula is supposed, and denied where its case is closed.

ghost use Rattle.std.specs.Prelude.{◌≡◌, ◌++◌, ◌∷◌, ◌||◌, [], List, take, drop, reverse, true, IfOk, OnOk};
ghost use Rattle.ss_core.specs.Tree.{ClassTree};
ghost use Rattle.ss_logic.specs.Formulas as logic;
ghost use Rattle.ss_logic.specs.Formulas.{is_well_formed, neg};
ghost use Rattle.ss_logic_means.specs.Steps as tree;
ghost use Rattle.ss_logic_means.specs.Steps.{is_literal, is_quantified};
ghost use Rattle.ss_terms.specs.declared.forms.FormulaId.{FormulaId};
ghost use Rattle.ss_terms.specs.Forms.{Forms, formula_at, HasFormula};
ghost use Rattle.ss_deriv.specs.declared.line.Line.TheVariants.{Case};
ghost use Rattle.ss_deriv.specs.Lines.{lines_of};
ghost use Rattle.ss_search_clashes.specs.Closing.{Closes};
ghost use Rattle.ss_search_path.specs.declared.path.Path.{Path};
ghost use Rattle.ss_search_path.specs.Paths.{known_on, opening, GoesOn, IsMark, IsBack, EndsWith, BeginsCase, IsSupposed, IsTrial, IsTurned};

use crate::path::{Mark, Path, pour, push_two};
use ss_deriv::Line;
use ss_terms::{Bank, Formula, FormulaId};
use std::alloc::{AllocError, Global};

// Whether a formula may be cut.
fn is_cut(bank: &Bank, f: FormulaId) -> bool
    requires { HasFormula bank.now f }
    ensures { result ≡ tree.is_cut (formula_at bank.now f) }
{
    match bank.formula_node(f) {
        Formula::Literal { holds, .. } => *holds,
        Formula::And(_) => false,
        Formula::Or(_) => false,
        Formula::Forall(_, _) => true,
        Formula::Exists(_, _) => true,
    }
}

impl Path {
    // Opens the case of a formula, where it may be cut.
    fn begin(&mut self, bank: &Bank, f: FormulaId) -> Result<(), AllocError>
        requires { HasFormula bank.now f }
        ensures before { OnOk result (self.new.before.items ≡ self.old.before.items ++ opening (tree.is_cut (formula_at bank.now f)) f) }
        ensures behind { OnOk result (self.new.behind.items ≡ self.old.behind.items) }
        ensures known { OnOk result (self.new.known.items ≡ self.old.known.items) }
    {
        if is_cut(bank, f) {
            push_two(&mut self.before, Line::Cut { formula: f }, Line::Case)?;
            return Ok(());
        }
        Ok(())
    }

    /// Supposes a formula. Gives the mark before it, to which the path is taken back where the trial stays open.
    pub fn suppose(&mut self, bank: &Bank, f: FormulaId) -> Result<Mark, AllocError>
        requires { HasFormula bank.now f }
        ensures mark { IfOk result (λ m. IsMark m self.old) }
        ensures supposed { OnOk result (IsSupposed bank.now f self.old self.new) }
    {
        let mark = self.mark();
        self.begin(bank, f)?;
        self.known.push(f)?;
        Ok(mark)
    }

    // The closed case of a supposed formula stands in front of the case of its negation.
    fn close_front(&mut self, mark: Mark, mut closing: Vec<Line>) -> Result<(), AllocError>
        ensures before { OnOk result (self.new.before.items ≡ ((self.old.before.items ++ closing.items) ++ reverse (drop mark.behind self.old.behind.items)) ++ Case ∷ []) }
        ensures behind { OnOk result (self.new.behind.items ≡ take mark.behind self.old.behind.items) }
        ensures known { OnOk result (self.new.known.items ≡ self.old.known.items) }
    {
        self.before.append(&mut closing)?;
        pour(&mut self.behind, mark.behind, &mut self.before)?;
        self.before.push(Line::Case)?;
        Ok(())
    }

    // The closed case of a supposed formula is moved after the case of its negation.
    fn close_back(&mut self, mark: Mark, mut closing: Vec<Line>) -> Result<(), AllocError>
        ensures before { OnOk result (self.new.before.items ≡ take mark.before self.old.before.items) }
        ensures behind { OnOk result (self.new.behind.items ≡ ((self.old.behind.items ++ reverse closing.items) ++ reverse (drop mark.before self.old.before.items)) ++ Case ∷ []) }
        ensures known { OnOk result (self.new.known.items ≡ self.old.known.items) }
    {
        pour(&mut closing, 0, &mut self.behind)?;
        pour(&mut self.before, mark.before, &mut self.behind)?;
        self.behind.push(Line::Case)?;
        Ok(())
    }

    // The case of a supposed formula is closed, and that of its negation opened.
    fn turn(
        &mut self,
        bank: &Bank,
        mark: Mark,
        f: FormulaId,
        negation: FormulaId,
        closing: Vec<Line>,
    ) -> Result<(), AllocError>
        requires { HasFormula bank.now f }
        ensures known { OnOk result (self.new.known.items ≡ self.old.known.items) }
        ensures turned { OnOk result (IsTurned bank.now mark f negation closing.items self.old self.new) }
    {
        if is_cut(bank, f) {
            self.close_front(mark, closing)?;
            return Ok(());
        }
        self.close_back(mark, closing)?;
        push_two(
            &mut self.before,
            Line::Cut { formula: negation },
            Line::Case,
        )?;
        Ok(())
    }

    /// The negation of a supposed formula is known, where these lines close the case of the trial.
    pub fn refuted(
        &mut self,
        bank: &Bank,
        mark: Mark,
        f: FormulaId,
        closing: Vec<Line>,
    ) -> Result<(), AllocError>
        requires formula { HasFormula bank.now f }
        requires basic { (is_literal (formula_at bank.now f) || is_quantified (formula_at bank.now f)) ≡ true }
        ensures known { OnOk result (known_on bank.now self.new ≡ take mark.known (known_on bank.now self.old) ++ neg (formula_at bank.now f) ∷ []) }
        ensures numbers { OnOk result (EndsWith bank.now (take mark.known self.old.known.items) (neg (formula_at bank.now f)) self.new.known.items) }
        ensures goes_on { OnOk result ((cs : List ClassTree) (premises : List logic.Formula) (goal : logic.Formula) (at trial : Path) → IsTrial cs premises goal bank.now mark (opening (tree.is_cut (formula_at bank.now f)) f) f at trial self.old → Closes cs premises goal (known_on bank.now self.old) (lines_of bank.now closing.items) → is_well_formed cs [] (formula_at bank.now f) ≡ true → GoesOn cs premises goal bank.now at self.new) }
    {
        let other = bank.negation(f);
        self.turn(bank, mark, f, other, closing)?;
        self.known.truncate(mark.known);
        self.known.push(other)?;
        Ok(())
    }

    /// The negation of a formula is known, where these lines close its case.
    pub fn deny(&mut self, bank: &Bank, f: FormulaId, closing: Vec<Line>) -> Result<(), AllocError>
        requires formula { HasFormula bank.now f }
        requires basic { (is_literal (formula_at bank.now f) || is_quantified (formula_at bank.now f)) ≡ true }
        ensures known { OnOk result (known_on bank.now self.new ≡ known_on bank.now self.old ++ neg (formula_at bank.now f) ∷ []) }
        ensures numbers { OnOk result (EndsWith bank.now self.old.known.items (neg (formula_at bank.now f)) self.new.known.items) }
        ensures goes_on { OnOk result ((cs : List ClassTree) (premises : List logic.Formula) (goal : logic.Formula) → Closes cs premises goal (known_on bank.now self.old ++ formula_at bank.now f ∷ []) (lines_of bank.now closing.items) → is_well_formed cs [] (formula_at bank.now f) ≡ true → GoesOn cs premises goal bank.now self.old self.new) }
    {
        let mark = self.suppose(bank, f)?;
        self.refuted(bank, mark, f, closing)
    }

    /// Begins the case of a formula that is known from now on. Gives the mark before it.
    pub fn assume(&mut self, f: FormulaId) -> Result<Mark, AllocError>
        ensures mark { IfOk result (λ m. IsMark m self.old) }
        ensures begun { OnOk result (BeginsCase [] f self.old self.new) }
    {
        let mark = self.mark();
        self.known.push(f)?;
        Ok(mark)
    }

    // The lines in front from a mark on, and then these.
    fn with_front(
        &mut self,
        alloc: Global,
        mark: Mark,
        mut lines: Vec<Line>,
    ) -> Result<Vec<Line>, AllocError>
        ensures lines { IfOk result (λ v. v.items ≡ drop mark.before self.old.before.items ++ lines.items) }
        ensures before { OnOk result (self.new.before.items ≡ take mark.before self.old.before.items) }
        ensures behind { OnOk result (self.new.behind.items ≡ self.old.behind.items) }
        ensures known { OnOk result (self.new.known.items ≡ self.old.known.items) }
    {
        let mut turned = Vec::new(alloc);
        pour(&mut lines, 0, &mut turned)?;
        pour(&mut self.before, mark.before, &mut turned)?;
        pour(&mut turned, 0, &mut lines)?;
        Ok(lines)
    }

    // The lines on both sides from a mark on, with these between them.
    fn move_out(
        &mut self,
        alloc: Global,
        mark: Mark,
        mut closing: Vec<Line>,
    ) -> Result<Vec<Line>, AllocError>
        ensures lines { IfOk result (λ v. v.items ≡ drop mark.before self.old.before.items ++ (closing.items ++ reverse (drop mark.behind self.old.behind.items))) }
        ensures before { OnOk result (self.new.before.items ≡ take mark.before self.old.before.items) }
        ensures behind { OnOk result (self.new.behind.items ≡ take mark.behind self.old.behind.items) }
        ensures known { OnOk result (self.new.known.items ≡ self.old.known.items) }
    {
        pour(&mut self.behind, mark.behind, &mut closing)?;
        let lines = self.with_front(alloc, mark, closing)?;
        Ok(lines)
    }

    /// All lines of the case that began at a mark, with these at the end of the path, which close it. The path is taken back to the mark.
    pub fn cut_out(
        &mut self,
        alloc: Global,
        mark: Mark,
        closing: Vec<Line>,
    ) -> Result<Vec<Line>, AllocError>
        ensures back { OnOk result (IsBack mark self.old self.new) }
        ensures closes { IfOk result (λ v. (cs : List ClassTree) (premises : List logic.Formula) (goal : logic.Formula) (b : Forms) (f : FormulaId) (at trial : Path) → IsTrial cs premises goal b mark [] f at trial self.old → Closes cs premises goal (known_on b self.old) (lines_of b closing.items) → Closes cs premises goal (known_on b at ++ formula_at b f ∷ []) (lines_of b v.items)) }
    {
        let lines = self.move_out(alloc, mark, closing)?;
        self.known.truncate(mark.known);
        Ok(lines)
    }
}
