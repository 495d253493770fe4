// What is reached, and where it stands.

ghost use Rattle.std.specs.Prelude.{◌≡◌, ◌≤◌, ◌∷◌, ◌++◌, [], List, length, take, IfOk, OnOk};
ghost use Rattle.std.specs.List.{Contains};
ghost use Rattle.ss_core.specs.Tree.{ClassTree};
ghost use Rattle.ss_terms.specs.Forms.{formula_at, HasFormula};
ghost use Rattle.ss_search_path.specs.Paths.{known_on, IsMark, IsSame};
ghost use Rattle.ss_search_reached.specs.Known.{merges_at};
ghost use Rattle.ss_search_reached.specs.Following.{Occur};
ghost use Rattle.ss_search_path.specs.Standing.{AreChosen, Stands};
ghost use Rattle.ss_search_reaching.specs.Reaching as spec;
ghost use Rattle.ss_search_reaching.specs.Reaching.{facts_of, reached_of, IsReaching, Shows, Grows};

use ss_search_path::{Given, Mark, Path, Standing};
use ss_search_reached::Reached;
use ss_terms::FormulaId;
use std::alloc::AllocError;

/// What is reached, where each formula of it stands among the facts of a path, and the path.
#[derive(Drop)]
pub struct Reaching {
    pub reached: Reached,
    pub standings: Vec<Standing>,
    /// The place of each that is a fact; any number for others.
    pub places: Vec<usize>,
    pub path: Path,
}

/// How much is reached, and how long the path is.
#[derive(Clone, Copy, Drop)]
pub struct Marks {
    pub reached: usize,
    pub path: Mark,
}

// The place of a fact.
fn place_of(standing: Standing) -> usize
    ensures { result ≡ spec.place_of standing }
{
    match standing {
        Standing::Fact { place, from: _from } => place,
        Standing::Guarded { origin: _origin } => 0,
    }
}

impl Reaching {
    /// Nothing is reached yet. An error is want of memory.
    pub fn new(given: &Given<'_>, path: Path) -> Result<Self, AllocError>
        ensures state { IfOk result (IsReaching given.now) }
        ensures nothing { IfOk result (λ r. reached_of given.now r ≡ []) }
        ensures path { IfOk result (λ r. IsSame path r.path) }
        ensures shows { IfOk result (λ r. (cs : List ClassTree) → AreChosen cs given.now (known_on given.now.bank.now path) → Shows cs given.now r) }
    {
        let reached = Reached::new(given.alloc, given.bank)?;
        let standings = Vec::new(given.alloc);
        let places = Vec::new(given.alloc);
        Ok(Reaching {
            reached,
            standings,
            places,
            path,
        })
    }

    /// One more formula is reached, that stands among the facts. An error is want of memory.
    pub fn enter(
        &mut self,
        given: &Given<'_>,
        f: FormulaId,
        standing: Standing,
    ) -> Result<(), AllocError>
        requires state { IsReaching given.now self.old }
        requires formula { HasFormula given.now.bank.now f }
        requires new { Contains (reached_of given.now self.old) (formula_at given.now.bank.now f) → ⊥ }
        ensures state { OnOk result (IsReaching given.now self.new) }
        ensures known { OnOk result (reached_of given.now self.new ≡ reached_of given.now self.old ++ formula_at given.now.bank.now f ∷ []) }
        ensures grows { OnOk result (Occur (reached_of given.now self.old) (formula_at given.now.bank.now f ∷ []) → Grows given.now self.old self.new) }
        ensures classes { OnOk result (self.new.reached.classes.items ≡ self.old.reached.classes.items) }
        ensures path { OnOk result (IsSame self.old.path self.new.path) }
        ensures shows { OnOk result ((cs : List ClassTree) → Shows cs given.now self.old → Stands cs given.now (facts_of given.now self.old) standing (formula_at given.now.bank.now f) → Shows cs given.now self.new) }
    {
        let place = place_of(standing);
        self.reached.add_because(given.bank, f, place)?;
        self.standings.push(standing)?;
        self.places.push(place)?;
        Ok(())
    }

    /// A formula that stands among the facts is reached from now on, where it wasn't before. An error is want of memory.
    pub fn learn(
        &mut self,
        given: &Given<'_>,
        f: FormulaId,
        standing: Standing,
    ) -> Result<(), AllocError>
        requires state { IsReaching given.now self.old }
        requires formula { HasFormula given.now.bank.now f }
        requires occurs { Occur (reached_of given.now self.old) (formula_at given.now.bank.now f ∷ []) }
        ensures grows { OnOk result (Grows given.now self.old self.new) }
        ensures known { OnOk result (Contains (reached_of given.now self.new) (formula_at given.now.bank.now f)) }
        ensures classes { OnOk result (self.new.reached.classes.items ≡ self.old.reached.classes.items) }
        ensures path { OnOk result (IsSame self.old.path self.new.path) }
        ensures still { OnOk result (length self.new.reached.known.items ≡ length self.old.reached.known.items → self.new.reached.congruence ≡ self.old.reached.congruence) }
        ensures shows { OnOk result ((cs : List ClassTree) → Shows cs given.now self.old → Stands cs given.now (facts_of given.now self.old) standing (formula_at given.now.bank.now f) → Shows cs given.now self.new) }
    {
        if self.reached.knows(given.bank, f) {
            return Ok(());
        }
        self.enter(given, f, standing)
    }

    /// Marks to which `forget` and `undo` take back.
    pub fn mark(&self) -> Marks
        ensures reached { result.reached ≡ length self.now.reached.known.items }
        ensures path { IsMark result.path self.now.path }
    {
        Marks {
            reached: self.reached.mark(),
            path: self.path.mark(),
        }
    }

    /// Takes back what is reached, but not the path. It takes no memory.
    pub fn forget(&mut self, given: &Given<'_>, marks: Marks)
        requires state { IsReaching given.now self.old }
        requires few { marks.reached ≤ length self.old.reached.known.items }
        ensures state { IsReaching given.now self.new }
        ensures reached { reached_of given.now self.new ≡ take marks.reached (reached_of given.now self.old) }
        ensures standings { self.new.standings.items ≡ take marks.reached self.old.standings.items }
        ensures merges { self.new.reached.congruence.merges ≡ take (merges_at self.old.reached.merges.items self.old.reached.congruence.merges marks.reached) self.old.reached.congruence.merges }
        ensures counts { self.new.reached.merges.items ≡ take marks.reached self.old.reached.merges.items }
        ensures path { IsSame self.old.path self.new.path }
    {
        self.reached.undo(given.bank, marks.reached);
        self.standings.truncate(marks.reached);
        self.places.truncate(marks.reached);
    }
}
