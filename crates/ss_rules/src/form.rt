// The ground form.

ghost use Rattle.std.specs.Prelude.{◌≡◌, ◌+◌, ◌<◌, [], ◌∷◌, ◌++◌, map, option_and_then, List, IfOk, IfSome, OnOk};
ghost use Rattle.ss_core.specs.Chain.{IsWithinLimits};
ghost use Rattle.ss_core.specs.Tree.{ClassTree};
ghost use Rattle.ss_core.specs.View as view;
ghost use Rattle.ss_logic.specs.Formulas as logic;
ghost use Rattle.ss_logic.specs.Ground.{closed, rounds_of, ground_form};
ghost use Rattle.ss_logic.specs.Occurring.{with_formulas};
ghost use Rattle.ss_logic.specs.Opened as opened;
ghost use Rattle.ss_logic_means.specs.Sorts.{AreWellFormed};
ghost use Rattle.ss_logic_means.specs.Origins as words;
ghost use Rattle.ss_logic_means.specs.Origins.{AreAccepted};
ghost use Rattle.ss_terms.specs.Forms.{formula_at, formulas_at, HasFormula, HasFormulas, IsGrown, IsBankOf};
ghost use Rattle.ss_rules_occurring.specs.Found.{formulas_of, HasFound, Holds};
ghost use Rattle.ss_rules_opened.specs.Choices.{choices_at, HasChoices};
ghost use Rattle.ss_rules_opened.specs.Views.{ComeFrom, StillCome};
ghost use Rattle.ss_rules.specs.Comes.{Comes};
ghost use Rattle.ss_rules.specs.Grounds.{ground_at, grounded_at, start_source, HasGround, IsGrounded};

use crate::Made;
use crate::ground_context::GroundContext;
use crate::rounds::closed_rounds;
use ss_core::Classes;
use ss_rules_occurring::FormulaList;
use ss_rules_opened::{Choice, Origin, OriginList, Source, Started, add_from, start};
use ss_terms::{Bank, FormulaId};
use std::alloc::{AllocError, Global};

/// The ground form of an obligation.
#[derive(Drop)]
pub enum GroundForm {
    /// Its formulas.
    Formulas(Vec<FormulaId>),
    /// It has more formulas than were allowed.
    TooMany,
}

/// The ground form of an obligation, and where each formula of it comes from.
#[derive(Drop)]
pub struct Grounded {
    /// Its formulas.
    pub formulas: Vec<FormulaId>,
    /// Where each of them comes from.
    pub origins: Vec<Origin>,
    /// The choices with which it starts, in their order.
    pub choices: Vec<Choice>,
}

// The list with which a ground form starts, and the choices.
#[derive(Drop)]
struct Begun {
    listed: OriginList,
    choices: Vec<Choice>,
}

// What the formula at this place of so many comes from at the start: the last is the denied goal.
fn source_at(place: usize, count: usize) -> Source
    requires { place < count }
    ensures { result ≡ start_source place count }
{
    if place + 1 == count {
        return Source::Denied;
    }
    Source::Premise(place)
}

// The formulas, each once, and where each comes from.
fn each_once(alloc: Global, bank: &Bank, fs: &[FormulaId]) -> Result<OriginList, AllocError>
    requires { HasFormulas bank.now fs.now }
    ensures list { IfOk result (λ listed. Holds bank.now listed.list (with_formulas [] (formulas_at bank.now fs.now))) }
    ensures noted { IfOk result (λ listed. (cs : List ClassTree) (premises : List logic.Formula) (goal : logic.Formula) (choices : List words.Choice) → formulas_at bank.now fs.now ≡ map (words.opened_by choices) (premises ++ logic.neg goal ∷ []) → ComeFrom cs premises goal choices bank.now (formulas_of bank.now listed.list) listed.origins.items) }
{
    let list = FormulaList::new(alloc, bank);
    let origins = Vec::new(alloc);
    let mut listed = OriginList { list, origins };
    let count = fs.len();
    for place in 0..count {
        let source = source_at(place, count);
        add_from(alloc, bank, &mut listed, fs[place], source, &[])?;
    }
    Ok(listed)
}

// What there is at the start.
fn begin(
    alloc: Global,
    bank: &mut Bank,
    classes: &Classes,
    premises: &[FormulaId],
    goal: FormulaId,
) -> Result<Begun, AllocError>
    requires bank { IsBankOf (view.classes classes.now) bank.old }
    requires premises { HasFormulas bank.old premises.now }
    requires goal { HasFormula bank.old goal }
    ensures at { IfOk result (λ r. Holds bank.new r.listed.list (with_formulas [] (opened.start (formulas_at bank.old premises.now) (formula_at bank.old goal)))) }
    ensures noted { IfOk result (λ r. IsGrounded (view.classes classes.now) (formulas_at bank.old premises.now) (formula_at bank.old goal) bank.new (formulas_of bank.new r.listed.list) r.listed.origins.items r.choices.items) }
    ensures grown { IsGrown bank.old bank.new }
{
    let started = start(alloc, bank, classes, premises, goal)?;
    let Started { formulas, choices } = started;
    let listed = each_once(alloc, bank, &formulas)?;
    Ok(Begun { listed, choices })
}

// The formulas alone.
fn formulas_alone(bank: &Bank, found: Option<Grounded>) -> GroundForm
    requires { IfSome found (λ g. HasFormulas bank.now g.formulas.items) }
    ensures at { ground_at bank.now result ≡ grounded_at bank.now found }
    ensures in_bank { HasGround bank.now result }
{
    let _ = bank;
    match found {
        Some(grounded) => {
            let Grounded {
                formulas,
                origins,
                choices,
            } = grounded;
            drop(origins);
            drop(choices);
            GroundForm::Formulas(formulas)
        }
        None => GroundForm::TooMany,
    }
}

// Closes the list and does so many rounds. Answers whether there were never more formulas than the context's limit.
fn go_on(
    context: &GroundContext<'_>,
    bank: &mut Bank,
    begun: &mut Begun,
    rounds: usize,
) -> Result<bool, AllocError>
    requires bank { IsBankOf (view.classes context.now.classes.now) bank.old }
    requires limits { IsWithinLimits (view.classes context.now.classes.now) }
    requires list { HasFound bank.old begun.old.listed.list }
    ensures done { IfOk result (λ few. Comes bank.new few begun.new.listed.list (option_and_then (rounds_of (view.classes context.now.classes.now) context.now.limit rounds) (closed (view.classes context.now.classes.now) context.now.limit (formulas_of bank.old begun.old.listed.list)))) }
    ensures noted { OnOk result (StillCome (view.classes context.now.classes.now) bank.old (formulas_of bank.old begun.old.listed.list) begun.old.listed.origins.items bank.new (formulas_of bank.new begun.new.listed.list) begun.new.listed.origins.items) }
    ensures choices { begun.new.choices.items ≡ begun.old.choices.items }
    ensures grown { IsGrown bank.old bank.new }
{
    let mut made = Made::new(context.alloc);
    closed_rounds(context, bank, &mut begun.listed, &mut made, rounds)
}

/// The ground form of an obligation after so many rounds, and where each formula of it comes from. None where it has more formulas than
/// the context's limit. Where the premises and the goal are well formed, the lines that make the choices are steps of a derivation. An
/// error is want of memory; what the bank had before stays.
pub fn ground_with_origins(
    context: &GroundContext<'_>,
    bank: &mut Bank,
    premises: &[FormulaId],
    goal: FormulaId,
    rounds: usize,
) -> Result<Option<Grounded>, AllocError>
    requires bank { IsBankOf (view.classes context.now.classes.now) bank.old }
    requires limits { IsWithinLimits (view.classes context.now.classes.now) }
    requires premises { HasFormulas bank.old premises.now }
    requires goal { HasFormula bank.old goal }
    ensures exact { IfOk result (λ o. grounded_at bank.new o ≡ ground_form (view.classes context.now.classes.now) (formulas_at bank.old premises.now) (formula_at bank.old goal) rounds context.now.limit) }
    ensures in_bank { IfOk result (λ o. IfSome o (λ g. HasFormulas bank.new g.formulas.items)) }
    ensures has_choices { IfOk result (λ o. IfSome o (λ g. HasChoices bank.new g.choices.items)) }
    ensures origins { IfOk result (λ o. IfSome o (λ g. ComeFrom (view.classes context.now.classes.now) (formulas_at bank.old premises.now) (formula_at bank.old goal) (choices_at bank.new g.choices.items) bank.new (formulas_at bank.new g.formulas.items) g.origins.items)) }
    ensures accepted { IfOk result (λ o. IfSome o (λ g. AreWellFormed (view.classes context.now.classes.now) [] (formula_at bank.old goal ∷ formulas_at bank.old premises.now) → AreAccepted (view.classes context.now.classes.now) (formulas_at bank.old premises.now) (formula_at bank.old goal) (choices_at bank.new g.choices.items))) }
    ensures grown { IsGrown bank.old bank.new }
{
    let mut begun = begin(context.alloc, bank, context.classes, premises, goal)?;
    let few = go_on(context, bank, &mut begun, rounds)?;
    if !few {
        return Ok(None);
    }
    let Begun { listed, choices } = begun;
    let OriginList { list, origins } = listed;
    let FormulaList { list, numbers } = list;
    drop(numbers);
    Ok(Some(Grounded {
        formulas: list,
        origins,
        choices,
    }))
}

/// The ground form of an obligation after so many rounds, where it has no more formulas than the context's limit. An error is want of
/// memory; what the bank had before stays.
pub fn ground(
    context: &GroundContext<'_>,
    bank: &mut Bank,
    premises: &[FormulaId],
    goal: FormulaId,
    rounds: usize,
) -> Result<GroundForm, AllocError>
    requires bank { IsBankOf (view.classes context.now.classes.now) bank.old }
    requires limits { IsWithinLimits (view.classes context.now.classes.now) }
    requires premises { HasFormulas bank.old premises.now }
    requires goal { HasFormula bank.old goal }
    ensures exact { IfOk result (λ g. ground_at bank.new g ≡ ground_form (view.classes context.now.classes.now) (formulas_at bank.old premises.now) (formula_at bank.old goal) rounds context.now.limit) }
    ensures in_bank { IfOk result (HasGround bank.new) }
    ensures grown { IsGrown bank.old bank.new }
{
    let found = ground_with_origins(context, bank, premises, goal, rounds)?;
    Ok(formulas_alone(bank, found))
}
