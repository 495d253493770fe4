// The one case of a known `or` that isn't closed.

ghost use Rattle.std.specs.Prelude.{◌≡◌, ◌++◌, ◌∷◌, [], List, reverse, Some, OnOk, slice_get};
ghost use Rattle.ss_core.specs.Tree.{ClassTree};
ghost use Rattle.ss_logic.specs.declared.Sort.{Sort};
ghost use Rattle.ss_logic.specs.Terms.{Term};
ghost use Rattle.ss_logic.specs.Formulas.{Formula, Formulas, Or, Exists, formula_list, put};
ghost use Rattle.ss_logic_means.specs.Steps.{count_of, chosen};
ghost use Rattle.ss_terms.specs.Forms.{Forms, formula_at};
ghost use Rattle.ss_deriv.specs.Lines.{lines_of};
ghost use Rattle.ss_deriv.specs.declared.line.Line.TheVariants.{Case};
ghost use Rattle.ss_search_clashes.specs.Closing.{Closes};
ghost use Rattle.ss_search_path.specs.Paths.{known_on, GoesOn, AreCases};

use crate::path::{Path, pour, push_two};
use ss_deriv::Line;
use ss_terms::{Bank, FormulaId};
use std::alloc::AllocError;

/// One more case, which these lines close.
pub fn add_case(cases: &mut Vec<Line>, mut closing: Vec<Line>) -> Result<(), AllocError>
    ensures { OnOk result ((cs : List ClassTree) (premises : List Formula) (goal : Formula) (b : Forms) (known fs : List Formula) (f : Formula) → AreCases cs premises goal known fs (lines_of b cases.old.items) → Closes cs premises goal (known ++ f ∷ []) (lines_of b closing.items) → AreCases cs premises goal known (fs ++ f ∷ []) (lines_of b cases.new.items)) }
{
    cases.push(Line::Case)?;
    cases.append(&mut closing)?;
    Ok(())
}

/// A known `or`: its place, and how many parts it has.
#[derive(Clone, Copy)]
pub struct Branching {
    pub place: usize,
    pub count: usize,
}

impl Path {
    // Closed cases, and then one that is open.
    fn enter(&mut self, mut closed: Vec<Line>) -> Result<(), AllocError>
        ensures before { OnOk result (self.new.before.items ≡ self.old.before.items ++ (closed.items ++ Case ∷ [])) }
        ensures behind { OnOk result (self.new.behind.items ≡ self.old.behind.items) }
        ensures known { OnOk result (self.new.known.items ≡ self.old.known.items) }
    {
        self.before.append(&mut closed)?;
        self.before.push(Line::Case)?;
        Ok(())
    }

    // Closed cases for after, and what is known in the open one.
    fn leave(&mut self, mut closed: Vec<Line>, f: FormulaId) -> Result<(), AllocError>
        ensures before { OnOk result (self.new.before.items ≡ self.old.before.items) }
        ensures behind { OnOk result (self.new.behind.items ≡ self.old.behind.items ++ reverse closed.items) }
        ensures known { OnOk result (self.new.known.items ≡ self.old.known.items ++ f ∷ []) }
    {
        pour(&mut closed, 0, &mut self.behind)?;
        self.known.push(f)?;
        Ok(())
    }

    /// Of a known `or` this part is known. Each other part has a case that is closed: those in front of it, and those after it.
    pub fn unit(
        &mut self,
        bank: &Bank,
        branching: Branching,
        front: Vec<Line>,
        back: Vec<Line>,
        f: FormulaId,
    ) -> Result<(), AllocError>
        ensures known { OnOk result (self.new.known.items ≡ self.old.known.items ++ f ∷ []) }
        ensures goes_on { OnOk result ((cs : List ClassTree) (premises : List Formula) (goal : Formula) (fs : Formulas) (one two : List Formula) → slice_get (known_on bank.now self.old) branching.place ≡ Some (Or fs) → count_of fs ≡ branching.count → formula_list fs ≡ one ++ formula_at bank.now f ∷ two → AreCases cs premises goal (known_on bank.now self.old) one (lines_of bank.now front.items) → AreCases cs premises goal (known_on bank.now self.old) two (lines_of bank.now back.items) → GoesOn cs premises goal bank.now self.old self.new) }
    {
        let _ = bank;
        self.before.push(Line::Split {
            of: branching.place,
            cases: branching.count,
        })?;
        self.enter(front)?;
        self.leave(back, f)?;
        Ok(())
    }

    /// The constants of a known choice are what a known `exists` says.
    pub fn chosen(
        &mut self,
        bank: &Bank,
        exists: usize,
        choice: usize,
        f: FormulaId,
    ) -> Result<(), AllocError>
        ensures known { OnOk result (self.new.known.items ≡ self.old.known.items ++ f ∷ []) }
        ensures goes_on { OnOk result ((cs : List ClassTree) (premises : List Formula) (goal : Formula) (ss : List Sort) (body : Formula) (ts : List Term) → slice_get (known_on bank.now self.old) exists ≡ Some (Exists ss body) → slice_get (known_on bank.now self.old) choice ≡ Some (chosen ss body ts) → formula_at bank.now f ≡ put ts body → GoesOn cs premises goal bank.now self.old self.new) }
    {
        let _ = bank;
        let none = self.known.len();
        push_two(
            &mut self.before,
            Line::Split {
                of: choice,
                cases: 2,
            },
            Line::Case,
        )?;
        push_two(
            &mut self.before,
            Line::Clash {
                left: exists,
                right: none,
            },
            Line::Case,
        )?;
        self.known.push(f)?;
        Ok(())
    }
}
