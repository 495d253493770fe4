// The formulas with which a ground form starts.

ghost use Rattle.std.specs.Prelude.{◌≡◌, [], ◌∷◌, ◌++◌, map, IfOk};
ghost use Rattle.ss_core.specs.View as view;
ghost use Rattle.ss_logic.specs.Formulas.{neg};
ghost use Rattle.ss_logic.specs.Occurring.{all_terms};
ghost use Rattle.ss_logic.specs.Opened as spec;
ghost use Rattle.ss_logic_means.specs.Sorts.{AreWellFormed};
ghost use Rattle.ss_logic_means.specs.Origins.{opened_by, AreAccepted};
ghost use Rattle.ss_terms.specs.Forms.{terms_at, formula_at, formulas_at, HasTerms, HasFormula, HasFormulas, IsGrown, IsBankOf};
ghost use Rattle.ss_rules_opened.specs.Choices.{choices_at, HasChoices};
ghost use Rattle.ss_rules_opened.specs.Opening.{IsOpening};

use crate::opening::{Choice, Opening, open_all};
use ss_core::Classes;
use ss_rules_occurring::{all_atoms, terms};
use ss_terms::{Bank, FormulaId, TermId};
use std::alloc::{AllocError, Global};

// The premises and the denied goal.
fn denied(
    alloc: Global,
    bank: &Bank,
    premises: &[FormulaId],
    goal: FormulaId,
) -> Result<Vec<FormulaId>, AllocError>
    requires premises { HasFormulas bank.now premises.now }
    requires goal { HasFormula bank.now goal }
    ensures has { IfOk result (λ v. HasFormulas bank.now v.items) }
    ensures are { IfOk result (λ v. formulas_at bank.now v.items ≡ formulas_at bank.now premises.now ++ neg (formula_at bank.now goal) ∷ []) }
{
    let mut all = Vec::from_slice(alloc, premises)?;
    let other = bank.negation(goal);
    all.push(other)?;
    Ok(all)
}

// The terms of formulas, inside quantified ones too.
fn used_terms(alloc: Global, bank: &Bank, fs: &[FormulaId]) -> Result<Vec<TermId>, AllocError>
    requires { HasFormulas bank.now fs.now }
    ensures has { IfOk result (λ v. HasTerms bank.now v.items) }
    ensures are { IfOk result (λ v. terms_at bank.now v.items ≡ all_terms (formulas_at bank.now fs.now)) }
{
    let atoms = all_atoms(alloc, bank, fs)?;
    let found = terms(alloc, bank, &atoms.list)?;
    Vec::from_slice(alloc, &found.list)
}

// What there is at first.
fn at_first(alloc: Global, bank: &Bank, list: Vec<FormulaId>) -> Result<Opening, AllocError>
    requires { HasFormulas bank.now list.items }
    ensures { IfOk result (λ r. IsOpening bank.now r (all_terms (formulas_at bank.now list.items)) (formulas_at bank.now list.items)) }
{
    let used = used_terms(alloc, bank, &list)?;
    Ok(Opening { used, list })
}

/// The formulas with which a ground form starts.
#[derive(Drop)]
pub struct Started {
    /// The premises and the denied goal, opened.
    pub formulas: Vec<FormulaId>,
    /// The choices by which they were opened, in their order.
    pub choices: Vec<Choice>,
}

/// The premises and the denied goal, each `exists` opened at fresh constants. Where they are well formed, the lines that make these choices
/// are steps of a derivation. An error is want of memory.
pub fn start(
    alloc: Global,
    bank: &mut Bank,
    classes: &Classes,
    premises: &[FormulaId],
    goal: FormulaId,
) -> Result<Started, AllocError>
    requires bank { IsBankOf (view.classes classes.now) bank.old }
    requires premises { HasFormulas bank.old premises.now }
    requires goal { HasFormula bank.old goal }
    ensures has { IfOk result (λ r. HasFormulas bank.new r.formulas.items) }
    ensures are { IfOk result (λ r. formulas_at bank.new r.formulas.items ≡ spec.start (formulas_at bank.old premises.now) (formula_at bank.old goal)) }
    ensures has_choices { IfOk result (λ r. HasChoices bank.new r.choices.items) }
    ensures opened { IfOk result (λ r. formulas_at bank.new r.formulas.items ≡ map (opened_by (choices_at bank.new r.choices.items)) (formulas_at bank.old premises.now ++ neg (formula_at bank.old goal) ∷ [])) }
    ensures accepted { IfOk result (λ r. AreWellFormed (view.classes classes.now) [] (formula_at bank.old goal ∷ formulas_at bank.old premises.now) → AreAccepted (view.classes classes.now) (formulas_at bank.old premises.now) (formula_at bank.old goal) (choices_at bank.new r.choices.items)) }
    ensures grown { IsGrown bank.old bank.new }
{
    let list = denied(alloc, bank, premises, goal)?;
    let mut state = at_first(alloc, bank, list)?;
    let mut choices = Vec::new(alloc);
    open_all(alloc, bank, classes, &mut state, &mut choices)?;
    let Opening { used, list } = state;
    drop(used);
    Ok(Started {
        formulas: list,
        choices,
    })
}
