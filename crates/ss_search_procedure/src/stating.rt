// What the origin of a formula makes known.

ghost use Rattle.std.specs.Prelude.{◌≡◌, ◌<◌, List, None, Some, length, take, drop, slice_get, IfOk, IfSome, OnOk};
ghost use Rattle.ss_core.specs.Tree.{ClassTree};
ghost use Rattle.ss_logic.specs.Formulas.{Formula};
ghost use Rattle.ss_terms.specs.Forms.{formula_at, formulas_at, HasFormula};
ghost use Rattle.ss_deriv.specs.Lines.{line_of};
ghost use Rattle.ss_rules_opened.specs.declared.origins.Origin.{Origin};
ghost use Rattle.ss_rules_opened.specs.Views.{origin_at};
ghost use Rattle.ss_search_path.specs.Paths.{known_on, GoesOn, Makes};
ghost use Rattle.ss_search_path.specs.Standing.{choices_in, IsGiven, AreChosen, IsGuarded, Stands};
ghost use Rattle.ss_search_procedure.specs.Starting.{ComesFrom, IsStated};
ghost use Rattle.ss_logic_means.specs.Origins.{opened_by};

use ss_deriv::Line;
use ss_rules_asked::Rule;
use ss_rules_opened::Source;
use ss_search_path::{Given, Path, Standing, line_from};
use ss_terms::FormulaId;
use std::alloc::AllocError;

/// A fact, and the choice from which on it is opened.
#[derive(Clone, Copy, Drop)]
pub(crate) struct Stated {
    pub(crate) fact: FormulaId,
    pub(crate) from: usize,
}

/// The obligation, by its numbers.
#[derive(Clone, Copy)]
pub(crate) struct Shown<'a> {
    pub(crate) premises: &'a [FormulaId],
    pub(crate) goal: FormulaId,
}

// The premise with this number; any other formula where there is none.
fn premise(premises: &[FormulaId], number: usize, other: FormulaId) -> FormulaId
    ensures { (f : FormulaId) → slice_get premises.now number ≡ Some f → result ≡ f }
{
    if number < premises.len() {
        return premises[number];
    }
    other
}

// The fact that the line of an origin makes known; none where the formula is guarded.
fn fact_from(given: &Given<'_>, shown: &Shown<'_>, source: Source, f: FormulaId) -> Option<Stated>
    requires { HasFormula given.now.bank.now shown.now.goal }
    ensures some { IfSome result (λ s. (cs : List ClassTree) (o : Origin) → o.source ≡ source → ComesFrom cs (formulas_at given.now.bank.now shown.now.premises.now) (formula_at given.now.bank.now shown.now.goal) (choices_in given.now) (origin_at given.now.bank.now o) (formula_at given.now.bank.now f) → IsStated cs (formulas_at given.now.bank.now shown.now.premises.now) (formula_at given.now.bank.now shown.now.goal) (choices_in given.now) (origin_at given.now.bank.now o) (formula_at given.now.bank.now s.fact) s.from (formula_at given.now.bank.now f)) }
    ensures none { result ≡ None → (cs : List ClassTree) (o : Origin) → o.source ≡ source → ComesFrom cs (formulas_at given.now.bank.now shown.now.premises.now) (formula_at given.now.bank.now shown.now.goal) (choices_in given.now) (origin_at given.now.bank.now o) (formula_at given.now.bank.now f) → IsGuarded cs (origin_at given.now.bank.now o) (formula_at given.now.bank.now f) }
{
    match source {
        Source::Premise(number) => Some(Stated {
            fact: premise(shown.premises, number, f),
            from: 0,
        }),
        Source::Denied => Some(Stated {
            fact: given.bank.negation(shown.goal),
            from: 0,
        }),
        Source::Rule(Rule::True(_name)) => Some(Stated {
            fact: f,
            from: given.choices.len(),
        }),
        Source::Rule(Rule::Good(_name, _store)) => None,
        Source::Rule(Rule::Invariants(_store)) => None,
        Source::Forall(_whole) => None,
    }
}

// A fact that a line makes known is opened.
fn stand_fact(
    given: &Given<'_>,
    path: &mut Path,
    line: Line,
    stated: Stated,
) -> Result<Standing, AllocError>
    requires { IsGiven given.now }
    ensures kept { OnOk result (take (length path.old.known.items) path.new.known.items ≡ path.old.known.items) }
    ensures goes_on { OnOk result ((cs : List ClassTree) (premises : List Formula) (goal : Formula) → AreChosen cs given.now (known_on given.now.bank.now path.old) → Makes cs premises goal (known_on given.now.bank.now path.old) (line_of given.now.bank.now line) (formula_at given.now.bank.now stated.fact) → GoesOn cs premises goal given.now.bank.now path.old path.new) }
    ensures stands { IfOk result (λ s. (cs : List ClassTree) (premises : List Formula) (goal : Formula) (f : Formula) → AreChosen cs given.now (known_on given.now.bank.now path.old) → Makes cs premises goal (known_on given.now.bank.now path.old) (line_of given.now.bank.now line) (formula_at given.now.bank.now stated.fact) → opened_by (drop stated.from (choices_in given.now)) (formula_at given.now.bank.now stated.fact) ≡ f → Stands cs given.now (known_on given.now.bank.now path.new) s f) }
{
    let next = path.known.len();
    path.fact(given.bank, line, stated.fact)?;
    let (place, from) = given.open(path, next, stated.from)?;
    Ok(Standing::Fact { place, from })
}

/// How the formula of the origin with this number stands, with the lines that it needs.
pub(crate) fn stand(
    given: &Given<'_>,
    path: &mut Path,
    shown: &Shown<'_>,
    number: usize,
    f: FormulaId,
) -> Result<Standing, AllocError>
    requires given { IsGiven given.now }
    requires goal { HasFormula given.now.bank.now shown.now.goal }
    requires number { number < length given.now.origins.now }
    ensures kept { OnOk result (take (length path.old.known.items) path.new.known.items ≡ path.old.known.items) }
    ensures goes_on { OnOk result ((cs : List ClassTree) (o : Origin) → slice_get given.now.origins.now number ≡ Some o → ComesFrom cs (formulas_at given.now.bank.now shown.now.premises.now) (formula_at given.now.bank.now shown.now.goal) (choices_in given.now) (origin_at given.now.bank.now o) (formula_at given.now.bank.now f) → AreChosen cs given.now (known_on given.now.bank.now path.old) → GoesOn cs (formulas_at given.now.bank.now shown.now.premises.now) (formula_at given.now.bank.now shown.now.goal) given.now.bank.now path.old path.new) }
    ensures stands { IfOk result (λ s. (cs : List ClassTree) (o : Origin) → slice_get given.now.origins.now number ≡ Some o → ComesFrom cs (formulas_at given.now.bank.now shown.now.premises.now) (formula_at given.now.bank.now shown.now.goal) (choices_in given.now) (origin_at given.now.bank.now o) (formula_at given.now.bank.now f) → AreChosen cs given.now (known_on given.now.bank.now path.old) → Stands cs given.now (known_on given.now.bank.now path.new) s (formula_at given.now.bank.now f)) }
{
    let origin = &given.origins[number];
    match fact_from(given, shown, origin.source, f) {
        None => Ok(Standing::Guarded { origin: number }),
        Some(fact) => {
            let line = line_from(given.alloc, given.bank, origin, 0)?;
            stand_fact(given, path, line, fact)
        }
    }
}
