// What choices make known.

ghost use Rattle.std.specs.Prelude.{◌≡◌, ◌∷◌, [], List, map, IfOk, OnOk};
ghost use Rattle.ss_core.specs.View as view;
ghost use Rattle.ss_logic.specs.declared.Sort.{Sort};
ghost use Rattle.ss_logic.specs.Formulas as logic;
ghost use Rattle.ss_logic.specs.Formulas.{formulas_from, neg};
ghost use Rattle.ss_logic_means.specs.Origins.{chosen_by};
ghost use Rattle.ss_terms.specs.Forms.{formula_at, formulas_at, terms_at, HasFormula, HasTerms, IsBankOf, IsGrown};
ghost use Rattle.ss_rules_opened.specs.Choices.{choice_of, choices_at, HasChoices};
ghost use Rattle.ss_search_path.specs.Standing.{body_of};
ghost use Rattle.ss_search_procedure.specs.Starting.{IsSaid};

use ss_core::Classes;
use ss_rules_opened::Choice;
use ss_terms::{Bank, Formula, FormulaId, Parts, TermId};
use ss_terms_puts::put;
use std::alloc::{AllocError, Global};

/// What each choice makes known, and the body of each.
#[derive(Drop)]
pub struct Chosen {
    /// What they make known.
    pub formulas: Vec<FormulaId>,
    /// Their bodies.
    pub bodies: Vec<FormulaId>,
}

// What one choice makes known, and its body.
#[derive(Clone, Copy, Drop)]
pub(crate) struct Said {
    pub(crate) formula: FormulaId,
    pub(crate) body: FormulaId,
}

// Either there is nothing that an `exists` says, or its body holds.
fn either(
    alloc: Global,
    bank: &mut Bank,
    whole: FormulaId,
    body: FormulaId,
) -> Result<FormulaId, AllocError>
    requires whole { HasFormula bank.old whole }
    requires body { HasFormula bank.old body }
    ensures at { IfOk result (λ f. HasFormula bank.new f × (formula_at bank.new f ≡ logic.Or (formulas_from (neg (formula_at bank.old whole) ∷ formula_at bank.old body ∷ [])))) }
    ensures grown { IsGrown bank.old bank.new }
{
    let none = bank.negation(whole);
    let mut parts = Parts::new(alloc);
    parts.push(none)?;
    parts.push(body)?;
    bank.formula(Formula::Or(parts))
}

// What the choice of an `exists` with this body makes known, and that body at the constants.
fn say_exists(
    alloc: Global,
    bank: &mut Bank,
    classes: &Classes,
    whole: FormulaId,
    constants: &[TermId],
    body: FormulaId,
) -> Result<Said, AllocError>
    requires bank { IsBankOf (view.classes classes.now) bank.old }
    requires whole { HasFormula bank.old whole }
    requires constants { HasTerms bank.old constants.now }
    requires body { HasFormula bank.old body }
    requires exists { (ss : List Sort) × (formula_at bank.old whole ≡ logic.Exists ss (formula_at bank.old body)) }
    ensures said { IfOk result (λ s. IsSaid bank.new s (choice_of (formula_at bank.old whole) (terms_at bank.old constants.now))) }
    ensures grown { IsGrown bank.old bank.new }
{
    let body = put(alloc, bank, classes, constants, body)?;
    let formula = either(alloc, bank, whole, body)?;
    Ok(Said { formula, body })
}

// What a choice makes known, and its body.
fn say(
    alloc: Global,
    bank: &mut Bank,
    classes: &Classes,
    whole: FormulaId,
    constants: &[TermId],
) -> Result<Said, AllocError>
    requires bank { IsBankOf (view.classes classes.now) bank.old }
    requires whole { HasFormula bank.old whole }
    requires constants { HasTerms bank.old constants.now }
    ensures said { IfOk result (λ s. IsSaid bank.new s (choice_of (formula_at bank.old whole) (terms_at bank.old constants.now))) }
    ensures grown { IsGrown bank.old bank.new }
{
    let itself = Said {
        formula: whole,
        body: whole,
    };
    match bank.formula_node(whole) {
        Formula::Exists(_sorts, body) => {
            let body = *body;
            say_exists(alloc, bank, classes, whole, constants, body)
        }
        Formula::Literal { .. } => Ok(itself),
        Formula::And(_) => Ok(itself),
        Formula::Or(_) => Ok(itself),
        Formula::Forall(_, _) => Ok(itself),
    }
}

/// What each of the choices makes known, and the body of each, as formulas of the bank. An error is want of memory.
pub fn chosen_formulas(
    alloc: Global,
    bank: &mut Bank,
    classes: &Classes,
    choices: &[Choice],
) -> Result<Chosen, AllocError>
    requires bank { IsBankOf (view.classes classes.now) bank.old }
    requires choices { HasChoices bank.old choices.now }
    ensures has { OnOk result (HasChoices bank.new choices.now) }
    ensures formulas { IfOk result (λ r. formulas_at bank.new r.formulas.items ≡ map chosen_by (choices_at bank.new choices.now)) }
    ensures bodies { IfOk result (λ r. formulas_at bank.new r.bodies.items ≡ map body_of (choices_at bank.new choices.now)) }
    ensures grown { IsGrown bank.old bank.new }
{
    let mut formulas = Vec::new(alloc);
    let mut bodies = Vec::new(alloc);
    for choice in choices {
        let said = say(alloc, bank, classes, choice.whole, &choice.constants)?;
        formulas.push(said.formula)?;
        bodies.push(said.body)?;
    }
    Ok(Chosen { formulas, bodies })
}
