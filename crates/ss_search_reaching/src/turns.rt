// What follows in turns, until nothing more does.

ghost use Rattle.std.specs.Prelude.{◌≡◌, List, length, take, None, IfOk, IfSome, OnOk};
ghost use Rattle.ss_core.specs.Tree.{ClassTree};
ghost use Rattle.ss_logic.specs.Formulas as logic;
ghost use Rattle.ss_terms.specs.Forms.{formula_at, formulas_at, HasFormula, HasFormulas, IsBankOf};
ghost use Rattle.ss_deriv.specs.Lines.{lines_of};
ghost use Rattle.ss_equality_rules.specs.Equal.{AreClassesOf};
ghost use Rattle.ss_search_clashes.specs.Numbered.{class_of};
ghost use Rattle.ss_search_clashes.specs.Tables.{IsTable};
ghost use Rattle.ss_logic.specs.Includes.{Includes};
ghost use Rattle.ss_search_procedure_rules.specs.Closed.{basics, IsSaturated};
ghost use Rattle.ss_search_procedure_rules.specs.Clashes.{FitsClasses};
ghost use Rattle.ss_search_clashes.specs.Closing.{Closes};
ghost use Rattle.ss_search_reached.specs.Following.{Occur, HasNoSum, AreOneClass, IsOpen};
ghost use Rattle.ss_search_reached.specs.Looks.{AreHolding};
ghost use Rattle.ss_search_path.specs.Standing.{IsGiven};
ghost use Rattle.ss_search_reaching.specs.Refuting.{bank_of};
ghost use Rattle.ss_search_reaching.specs.Reaching.{facts_of, reached_of, IsReaching, Shows, Grows, ReachesOn, ReachesFrom};
ghost use Rattle.ss_search_reaching.specs.Units.{IsBeside, IsResolved, formulas_in, AllStand, UnitStanding};
ghost use Rattle.ss_search_reaching.specs.Turns.{IsAdded, Turns, TurnFrom, AreFollowing, UnitsFrom, IfOpen};

use crate::branches::{Beside, Resolved};
use crate::guarded::GuardedParts;
use crate::reaching::Reaching;
use crate::{FactParts, Refuting};
use ss_deriv::Line;
use ss_equality::Congruence;
use ss_search_clashes::{CongruenceContext, Found, Known, close, look, what_has_no_clash_fits};
use ss_search_path::{Given, Path, Standing};
use ss_search_reached::{Looking, Outcomes};
use ss_search_whole_sums::close_whole_sums;
use ss_terms::{Formula, FormulaId};
use std::alloc::AllocError;

/// What follows of all reached `or`s: lines that close the case at the end of the path, or formulas with how they stand there.
#[derive(Drop)]
pub(crate) enum Turn {
    Closed(Vec<Line>),
    Open(Vec<(FormulaId, Standing)>),
}

// Adds what follows; gives the lines that close the case, where these are found.
fn add(
    units: &mut Vec<(FormulaId, Standing)>,
    resolved: Resolved,
) -> Result<Option<Vec<Line>>, AllocError>
    ensures { IfOk result (IsAdded resolved units.old.items units.new.items) }
{
    match resolved {
        Resolved::Closed(lines) => Ok(Some(lines)),
        Resolved::One(part, standing) => {
            units.push((part, standing))?;
            Ok(None)
        }
        Resolved::Open => Ok(None),
    }
}

impl Beside<'_> {
    // What a reached formula is that stands so.
    fn unit_of(
        &self,
        congruence: &mut Congruence,
        outcomes: &mut Outcomes,
        path: &mut Path,
        standing: Standing,
        f: FormulaId,
    ) -> Result<Resolved, AllocError>
        requires beside { IsBeside self.now congruence.old }
        requires given { IsGiven self.now.refuting.given }
        requires outcomes { AreHolding self.now.looking outcomes.old }
        requires formula { HasFormula (bank_of self.now.refuting) f }
        ensures congruence { OnOk result (congruence.new ≡ congruence.old) }
        ensures outcomes { OnOk result (AreHolding self.now.looking outcomes.new) }
        ensures kept { OnOk result (take (length path.old.known.items) path.new.known.items ≡ path.old.known.items) }
        ensures branch { IfOk result (λ u. IsResolved self.now.looking (formula_at self.now.looking.bank.now f) u) }
        ensures leads { IfOk result (λ u. UnitStanding self.now congruence.old.merges path.old standing (formula_at (bank_of self.now.refuting) f) path.new u) }
    {
        match self.looking.bank.formula_node(f) {
            Formula::Or(parts) => match standing {
                Standing::Fact { place, from } => {
                    let whole = FactParts {
                        place,
                        from,
                        parts,
                        bound: f.0,
                    };
                    self.unit(congruence, outcomes, path, &whole)
                }
                Standing::Guarded { origin } => {
                    let whole = GuardedParts {
                        origin,
                        parts,
                        bound: f.0,
                    };
                    self.guarded(congruence, outcomes, path, &whole)
                }
            },
            Formula::And(_) => Ok(Resolved::Open),
            Formula::Literal { .. } => Ok(Resolved::Open),
            Formula::Forall(_, _) => Ok(Resolved::Open),
            Formula::Exists(_, _) => Ok(Resolved::Open),
        }
    }

    // The same of all known formulas, of which these are the standings.
    fn units(
        &self,
        congruence: &mut Congruence,
        path: &mut Path,
        standings: &[Standing],
    ) -> Result<Turn, AllocError>
        requires beside { IsBeside self.now congruence.old }
        requires given { IsGiven self.now.refuting.given }
        requires long { length standings.now ≡ length self.now.looking.known.now }
        ensures congruence { OnOk result (congruence.new ≡ congruence.old) }
        ensures kept { OnOk result (take (length path.old.known.items) path.new.known.items ≡ path.old.known.items) }
        ensures follows { IfOk result (AreFollowing self.now) }
        ensures leads { IfOk result (UnitsFrom self.now.refuting congruence.old.merges path.old standings.now path.new) }
    {
        let mut outcomes = Outcomes::new(self.looking.alloc);
        let mut units = Vec::new(self.looking.alloc);
        for at in 0..self.looking.known.len() {
            let f = self.looking.known[at];
            let resolved = self.unit_of(congruence, &mut outcomes, path, standings[at], f)?;
            match add(&mut units, resolved)? {
                Some(lines) => return Ok(Turn::Closed(lines)),
                None => (),
            }
        }
        Ok(Turn::Open(units))
    }
}

impl Reaching {
    // What follows of the reached `or`s beside the literals of this table.
    fn units_by(&mut self, given: &Given<'_>, table: &Known) -> Result<Turn, AllocError>
        requires given { IsGiven given.now }
        requires state { IsReaching given.now self.old }
        requires table { IsTable given.now.bank.now self.old.reached.known.items table.now }
        requires classes { AreClassesOf self.old.reached.congruence.terms self.old.reached.congruence.merges table.now.classes }
        ensures turn { IfOk result (Turns given.now self.old self.new) }
        ensures congruence { OnOk result (self.new.reached.congruence ≡ self.old.reached.congruence) }
        ensures classes { OnOk result (self.new.reached.classes.items ≡ self.old.reached.classes.items) }
        ensures reaches { IfOk result (TurnFrom given.now self.old self.new) }
    {
        let beside = Beside {
            looking: Looking {
                alloc: given.alloc,
                bank: given.bank,
                known: &self.reached.known,
                numbers: &self.reached.numbers,
                table,
            },
            refuting: Refuting {
                given: *given,
                known: &self.reached.known,
                places: &self.places,
                table,
            },
        };
        beside.units(
            &mut self.reached.congruence,
            &mut self.path,
            &self.standings,
        )
    }

    // What follows of the reached `or`s beside the reached literals; lines where these contradict each other, or an `or` is closed.
    fn units(&mut self, given: &Given<'_>) -> Result<Turn, AllocError>
        requires given { IsGiven given.now }
        requires state { IsReaching given.now self.old }
        ensures turn { IfOk result (Turns given.now self.old self.new) }
        ensures names { OnOk result (AreOneClass given.now.bank.now self.new.reached.classes.items) }
        ensures classes { OnOk result (AreClassesOf self.new.reached.congruence.terms self.new.reached.congruence.merges self.new.reached.classes.items) }
        ensures fits { IfOk result (IfOpen (FitsClasses (class_of given.now.bank.now self.new.reached.classes.items) (basics (reached_of given.now self.old)))) }
        ensures reaches { IfOk result (TurnFrom given.now self.old self.new) }
    {
        what_has_no_clash_fits(given.bank);
        let classes = self.reached.congruence.classes()?;
        self.reached.classes = Vec::from_slice(given.alloc, &classes)?;
        match look(given.alloc, given.bank, classes, &self.reached.known)? {
            Found::Clashes(clash) => {
                let count = self.path.known.len();
                let context = CongruenceContext {
                    alloc: given.alloc,
                    bank: given.bank,
                    congruence: &self.reached.congruence,
                    count,
                };
                let lines = close(&context, &self.reached.known, &self.places, clash)?;
                Ok(Turn::Closed(lines))
            }
            Found::Fits(table) => self.units_by(given, &table),
        }
    }

    // What follows is reached.
    fn learn_units(
        &mut self,
        given: &Given<'_>,
        units: &[(FormulaId, Standing)],
    ) -> Result<(), AllocError>
        requires state { IsReaching given.now self.old }
        requires has { HasFormulas given.now.bank.now (formulas_in units.now) }
        requires occur { Occur (reached_of given.now self.old) (formulas_at given.now.bank.now (formulas_in units.now)) }
        ensures grows { OnOk result (Grows given.now self.old self.new) }
        ensures known { OnOk result (Includes (reached_of given.now self.new) (formulas_at given.now.bank.now (formulas_in units.now))) }
        ensures classes { OnOk result (self.new.reached.classes.items ≡ self.old.reached.classes.items) }
        ensures still { OnOk result (length self.new.reached.known.items ≡ length self.old.reached.known.items → self.new.reached.congruence ≡ self.old.reached.congruence) }
        ensures reaches { OnOk result ((cs : List ClassTree) (premises : List logic.Formula) (goal : logic.Formula) → Shows cs given.now self.old → AllStand cs given.now (facts_of given.now self.old) units.now → ReachesOn cs premises goal given.now self.old self.new) }
    {
        for unit in units {
            self.learn(given, unit.0, unit.1)?;
        }
        Ok(())
    }

    // Lines that close the case by a sum of the reached literals and the equalities of whole numbers of one class. None only where no sum does.
    fn sums(&self, given: &Given<'_>) -> Result<Option<Vec<Line>>, AllocError>
        requires state { IsReaching given.now self.now }
        requires classes { AreClassesOf self.now.reached.congruence.terms self.now.reached.congruence.merges self.now.reached.classes.items }
        ensures none { (cs : List ClassTree) → IsBankOf cs given.now.bank.now → IfOk result (λ o. o ≡ None → HasNoSum cs (class_of given.now.bank.now self.now.reached.classes.items) (basics (reached_of given.now self.now))) }
        ensures closes { (cs : List ClassTree) → IsBankOf cs given.now.bank.now → IfOk result (λ o. IfSome o (λ v. (premises : List logic.Formula) (goal : logic.Formula) → Shows cs given.now self.now → Closes cs premises goal (facts_of given.now self.now) (lines_of given.now.bank.now v.items))) }
    {
        let count = self.path.known.len();
        let context = CongruenceContext {
            alloc: given.alloc,
            bank: given.bank,
            congruence: &self.reached.congruence,
            count,
        };
        close_whole_sums(
            &context,
            &self.reached.classes,
            &self.reached.known,
            &self.places,
        )
    }

    /// Adds what follows without a split, with its lines. Lines that close the case at the end of the path; none where nothing in it is
    /// refuted. An error is want of memory.
    pub fn reach(&mut self, given: &Given<'_>) -> Result<Option<Vec<Line>>, AllocError>
        requires given { IsGiven given.now }
        requires state { IsReaching given.now self.old }
        ensures grows { OnOk result (Grows given.now self.old self.new) }
        ensures saturated { (cs : List ClassTree) → IsBankOf cs given.now.bank.now → IfOk result (λ o. o ≡ None → IsSaturated cs (reached_of given.now self.new)) }
        ensures is_open { (cs : List ClassTree) → IsBankOf cs given.now.bank.now → IfOk result (λ o. o ≡ None → IsOpen cs given.now.bank.now self.new.reached) }
        ensures reaches { OnOk result (ReachesFrom given.now self.old self.new) }
        ensures closes { (cs : List ClassTree) → IsBankOf cs given.now.bank.now → IfOk result (λ o. IfSome o (λ v. (premises : List logic.Formula) (goal : logic.Formula) → Shows cs given.now self.old → Closes cs premises goal (facts_of given.now self.new) (lines_of given.now.bank.now v.items))) }
    {
        loop {
            let before = self.reached.mark();
            self.spread(given)?;
            let units = match self.units(given)? {
                Turn::Closed(lines) => return Ok(Some(lines)),
                Turn::Open(units) => units,
            };
            self.learn_units(given, &units)?;
            if self.reached.mark() == before {
                return self.sums(given);
            }
        }
    }
}
