// The parts of reached `and`s.

ghost use Rattle.std.specs.Prelude.{◌≡◌, ◌<◌, ◌∷◌, [], List, length, Some, slice_get, OnOk};
ghost use Rattle.std.specs.List.{Contains};
ghost use Rattle.ss_core.specs.Tree.{ClassTree};
ghost use Rattle.ss_logic.specs.Formulas as logic;
ghost use Rattle.ss_terms.specs.declared.forms.FormulaId as ids;
ghost use Rattle.ss_terms.specs.Forms.{formula_at, formulas_at, HasFormulas};
ghost use Rattle.ss_logic.specs.Includes.{Includes};
ghost use Rattle.ss_search_reached.specs.Following.{Occur, AreSpread, IsSpread};
ghost use Rattle.ss_search_path.specs.Standing.{IsGiven, IsOpenedFact};
ghost use Rattle.ss_search_reaching.specs.Refuting.{and_of};
ghost use Rattle.ss_search_reaching.specs.Reaching.{facts_of, reached_of, start_of, place_of, IsReaching, Shows, Grows, ReachesOn, ReachesFrom};

use crate::reaching::Reaching;
use ss_search_path::{Given, Standing};
use ss_terms::{Formula, FormulaId};
use std::alloc::AllocError;

// The place of a fact, and the first choice that opens it.
fn place_and_start(standing: Standing) -> (usize, usize)
    ensures place { result.0 ≡ place_of standing }
    ensures start { result.1 ≡ start_of standing }
{
    match standing {
        Standing::Fact { place, from } => (place, from),
        Standing::Guarded { origin: _origin } => (0, 0),
    }
}

impl Reaching {
    // A part of the `and` that is the fact at a place is reached.
    fn spread_part(
        &mut self,
        given: &Given<'_>,
        place: usize,
        from: usize,
        parts: &[FormulaId],
        part: usize,
    ) -> Result<(), AllocError>
        requires given { IsGiven given.now }
        requires state { IsReaching given.now self.old }
        requires part { part < length parts.now }
        requires formulas { HasFormulas given.now.bank.now parts.now }
        requires occur { Occur (reached_of given.now self.old) (formulas_at given.now.bank.now parts.now) }
        ensures grows { OnOk result (Grows given.now self.old self.new) }
        ensures known { OnOk result ((f : ids.FormulaId) → slice_get parts.now part ≡ Some f → Contains (reached_of given.now self.new) (formula_at given.now.bank.now f)) }
        ensures classes { OnOk result (self.new.reached.classes.items ≡ self.old.reached.classes.items) }
        ensures reaches { OnOk result ((cs : List ClassTree) (premises : List logic.Formula) (goal : logic.Formula) → Shows cs given.now self.old → IsOpenedFact cs given.now (facts_of given.now self.old) place from (and_of given.now.bank.now parts.now) → ReachesOn cs premises goal given.now self.old self.new) }
    {
        let f = parts[part];
        if self.reached.knows(given.bank, f) {
            return Ok(());
        }
        let (place, from) = given.part(&mut self.path, place, from, part)?;
        self.learn(given, f, Standing::Fact { place, from })
    }

    // All parts of it are.
    fn spread_and(
        &mut self,
        given: &Given<'_>,
        place: usize,
        from: usize,
        parts: &[FormulaId],
    ) -> Result<(), AllocError>
        requires given { IsGiven given.now }
        requires state { IsReaching given.now self.old }
        requires formulas { HasFormulas given.now.bank.now parts.now }
        requires occur { Occur (reached_of given.now self.old) (formulas_at given.now.bank.now parts.now) }
        ensures grows { OnOk result (Grows given.now self.old self.new) }
        ensures known { OnOk result (Includes (reached_of given.now self.new) (formulas_at given.now.bank.now parts.now)) }
        ensures classes { OnOk result (self.new.reached.classes.items ≡ self.old.reached.classes.items) }
        ensures reaches { OnOk result ((cs : List ClassTree) (premises : List logic.Formula) (goal : logic.Formula) → Shows cs given.now self.old → IsOpenedFact cs given.now (facts_of given.now self.old) place from (and_of given.now.bank.now parts.now) → ReachesOn cs premises goal given.now self.old self.new) }
    {
        for part in 0..parts.len() {
            self.spread_part(given, place, from, parts, part)?;
        }
        Ok(())
    }

    // What follows by the form of one reached formula is reached.
    fn spread_one(&mut self, given: &Given<'_>, at: usize) -> Result<(), AllocError>
        requires given { IsGiven given.now }
        requires state { IsReaching given.now self.old }
        requires at { at < length self.old.reached.known.items }
        ensures grows { OnOk result (Grows given.now self.old self.new) }
        ensures spread { OnOk result ((f : ids.FormulaId) → slice_get self.old.reached.known.items at ≡ Some f → IsSpread (reached_of given.now self.new) (formula_at given.now.bank.now f)) }
        ensures classes { OnOk result (self.new.reached.classes.items ≡ self.old.reached.classes.items) }
        ensures reaches { OnOk result (ReachesFrom given.now self.old self.new) }
    {
        let f = self.reached.known[at];
        let (place, from) = place_and_start(self.standings[at]);
        match given.bank.formula_node(f) {
            Formula::And(parts) => self.spread_and(given, place, from, parts),
            Formula::Or(_) => Ok(()),
            Formula::Literal { .. } => Ok(()),
            Formula::Forall(_, _) => Ok(()),
            Formula::Exists(_, _) => Ok(()),
        }
    }

    /// The parts of each reached `and` are reached, also of those that become so. An error is want of memory.
    pub(crate) fn spread(&mut self, given: &Given<'_>) -> Result<(), AllocError>
        requires given { IsGiven given.now }
        requires state { IsReaching given.now self.old }
        ensures grows { OnOk result (Grows given.now self.old self.new) }
        ensures spread { OnOk result (AreSpread (reached_of given.now self.new)) }
        ensures reaches { OnOk result (ReachesFrom given.now self.old self.new) }
    {
        let mut at = 0;
        while at < self.reached.known.len() {
            self.spread_one(given, at)?;
            at += 1;
        }
        Ok(())
    }
}
