// The begin of a path.

ghost use Rattle.std.specs.Prelude.{◌≡◌, [], List, length, map, IfOk, OnOk};
ghost use Rattle.ss_core.specs.Tree.{ClassTree};
ghost use Rattle.ss_logic.specs.Formulas.{Formula};
ghost use Rattle.ss_logic_means.specs.Origins.{chosen_by, AreAccepted};
ghost use Rattle.ss_terms.specs.Forms.{formula_at, formulas_at, HasFormula};
ghost use Rattle.ss_search_path.specs.Paths.{known_on, IsPath, GoesOn};
ghost use Rattle.ss_search_path.specs.Standing.{choices_in, IsGiven, AreChosen, AreStanding};
ghost use Rattle.ss_search_procedure.specs.Starting.{IsGround};

use crate::stating::{Shown, stand};
use ss_search_path::{Given, Path, Standing};
use ss_terms::FormulaId;
use std::alloc::AllocError;

/// The begin of a path, and how each formula of the ground form stands in it.
#[derive(Drop)]
pub struct Begun {
    /// The path.
    pub path: Path,
    /// How each formula stands.
    pub standings: Vec<Standing>,
}

// What the choices make known is known, in their order.
fn choose(given: &Given<'_>, path: &mut Path, chosen: &[FormulaId]) -> Result<(), AllocError>
    requires given { IsGiven given.now }
    requires chosen { formulas_at given.now.bank.now chosen.now ≡ map chosen_by (choices_in given.now) }
    requires empty { path.old.known.items ≡ [] }
    ensures known { OnOk result (known_on given.now.bank.now path.new ≡ map chosen_by (choices_in given.now)) }
    ensures goes_on { OnOk result ((cs : List ClassTree) (premises : List Formula) (goal : Formula) → AreAccepted cs premises goal (choices_in given.now) → GoesOn cs premises goal given.now.bank.now path.old path.new) }
{
    for i in 0..given.choices.len() {
        let choice = &given.choices[i];
        let constants = Vec::from_slice(given.alloc, &choice.constants)?;
        path.choice(given.bank, choice.whole, constants, chosen[i])?;
    }
    Ok(())
}

// How each formula of the ground form stands, with the lines that it needs.
fn stand_all(
    given: &Given<'_>,
    path: &mut Path,
    shown: &Shown<'_>,
    formulas: &[FormulaId],
) -> Result<Vec<Standing>, AllocError>
    requires given { IsGiven given.now }
    requires goal { HasFormula given.now.bank.now shown.now.goal }
    requires count { length given.now.origins.now ≡ length formulas.now }
    ensures long { IfOk result (λ v. length v.items ≡ length formulas.now) }
    ensures goes_on { OnOk result ((cs : List ClassTree) → IsGround cs (formulas_at given.now.bank.now shown.now.premises.now) (formula_at given.now.bank.now shown.now.goal) given.now (formulas_at given.now.bank.now formulas.now) → AreChosen cs given.now (known_on given.now.bank.now path.old) → GoesOn cs (formulas_at given.now.bank.now shown.now.premises.now) (formula_at given.now.bank.now shown.now.goal) given.now.bank.now path.old path.new) }
    ensures standing { IfOk result (λ v. (cs : List ClassTree) → IsGround cs (formulas_at given.now.bank.now shown.now.premises.now) (formula_at given.now.bank.now shown.now.goal) given.now (formulas_at given.now.bank.now formulas.now) → AreChosen cs given.now (known_on given.now.bank.now path.old) → AreStanding cs given.now (known_on given.now.bank.now path.new) (formulas_at given.now.bank.now formulas.now) v.items) }
{
    let mut standings = Vec::new(given.alloc);
    for k in 0..formulas.len() {
        let standing = stand(given, path, shown, k, formulas[k])?;
        standings.push(standing)?;
    }
    Ok(standings)
}

/// A path that makes the choices, and what the formulas of the ground form come from. With it, how each of them stands there. An error is
/// want of memory.
pub fn start(
    given: &Given<'_>,
    chosen: &[FormulaId],
    premises: &[FormulaId],
    goal: FormulaId,
    formulas: &[FormulaId],
) -> Result<Begun, AllocError>
    requires given { IsGiven given.now }
    requires chosen { formulas_at given.now.bank.now chosen.now ≡ map chosen_by (choices_in given.now) }
    requires goal { HasFormula given.now.bank.now goal }
    requires count { length given.now.origins.now ≡ length formulas.now }
    ensures long { IfOk result (λ s. length s.standings.items ≡ length formulas.now) }
    ensures path { IfOk result (λ s. (cs : List ClassTree) → IsGround cs (formulas_at given.now.bank.now premises.now) (formula_at given.now.bank.now goal) given.now (formulas_at given.now.bank.now formulas.now) → IsPath cs (formulas_at given.now.bank.now premises.now) (formula_at given.now.bank.now goal) given.now.bank.now [] s.path) }
    ensures standing { IfOk result (λ s. (cs : List ClassTree) → IsGround cs (formulas_at given.now.bank.now premises.now) (formula_at given.now.bank.now goal) given.now (formulas_at given.now.bank.now formulas.now) → AreStanding cs given.now (known_on given.now.bank.now s.path) (formulas_at given.now.bank.now formulas.now) s.standings.items) }
{
    let mut path = Path::new(given.alloc);
    choose(given, &mut path, chosen)?;
    let shown = Shown { premises, goal };
    let standings = stand_all(given, &mut path, &shown, formulas)?;
    Ok(Begun { path, standings })
}
