// Values of locals and of fields in models.

ghost use Rattle.std.specs.Prelude.{OnOk, IfOk, length};
ghost use Rattle.ss_core.specs.View as view;
ghost use Rattle.ss_core.specs.Chain.{IsWithinLimits};
ghost use Rattle.ss_terms.specs.Forms.{HasFormulas, IsBankOf, IsGrown};
ghost use Rattle.ss_vcgen_builder.specs.Builder.{IsPlaced};
ghost use Rattle.ss_vcgen_builder.specs.Built.{IsWithin};

use ss_core::Core;
use ss_report_values::{Position, Reading, values_text};
use ss_rules::{GroundStop, ground};
use ss_rules_occurring::{atoms, terms};
use ss_search_answers::Countered;
use ss_terms::{Bank, FormulaId};
use ss_top_sources::read_program;
use ss_top_words::Limits;
use ss_vcgen::{Located, Positions, locate};
use ss_vcgen_builder::{Listed, Obligations};
use std::alloc::{AllocError, Global};

// How many obligations have their values told.
const MOST_OBLIGATIONS: usize = 20;

// The values in a model of these formulas, which are a ground form.
fn values_of(
    alloc: Global,
    bank: &Bank,
    formulas: &[FormulaId],
    classes: &[usize],
    position: &Position<'_>,
) -> Result<String, AllocError>
    requires formulas { HasFormulas bank.now formulas.now }
    requires limits { IsWithinLimits (view.classes position.now.core.now.classes) }
{
    let atoms = atoms(alloc, bank, formulas)?;
    let terms = terms(alloc, bank, &atoms.list)?;
    let reading = Reading {
        terms: &terms.list,
        classes,
    };
    values_text(alloc, bank, &reading, position)
}

// The classes of a model that refutes an obligation, where this stands, and the limits of its ground form.
#[derive(Clone, Copy)]
struct Refuting<'a> {
    classes: &'a [usize],
    located: &'a Located,
    limits: Limits,
}

// The values in a model that refutes the ground form of an obligation.
fn text_of(
    alloc: Global,
    bank: &mut Bank,
    trail: &[FormulaId],
    core: &Core,
    listed: &Listed,
    refuting: &Refuting<'_>,
) -> Result<String, AllocError>
    requires bank { IsBankOf (view.classes core.now.classes) bank.old }
    requires limits { IsWithinLimits (view.classes core.now.classes) }
    requires trail { HasFormulas bank.old trail.now }
    requires placed { IsPlaced bank.old (length trail.now) listed.now }
    ensures grown { IsGrown bank.old bank.new }
{
    let Some(body) = core.bodies.get(listed.body.0 as usize) else {
        return Ok(String::new(alloc));
    };
    let position = Position {
        core,
        body,
        locals: &refuting.located.locals,
        store: refuting.located.store,
    };
    let obligation = listed.obligation(trail);
    let Limits {
        rounds,
        instances,
        ..
    } = refuting.limits;
    match ground(alloc, bank, core, &obligation, rounds, instances) {
        Ok(formulas) => values_of(alloc, bank, &formulas, refuting.classes, &position),
        Err(GroundStop::TooMany { .. }) => Ok(String::new(alloc)),
        Err(GroundStop::Memory) => Err(AllocError),
    }
}

// The numbers of the obligations whose values are told.
fn told_numbers(alloc: Global, countered: &[Countered]) -> Result<Vec<usize>, AllocError> {
    let mut numbers = Vec::new(alloc);
    for one in countered {
        if numbers.len() < MOST_OBLIGATIONS {
            numbers.push(one.obligation)?;
        }
    }
    Ok(numbers)
}

// The text of an obligation, where there is one of this number.
fn text_at(
    alloc: Global,
    obligations: &mut Obligations,
    core: &Core,
    one: &Countered,
    located: &Located,
    limits: Limits,
) -> Result<String, AllocError>
    requires bank { IsBankOf (view.classes core.now.classes) obligations.old.bank }
    requires limits { IsWithinLimits (view.classes core.now.classes) }
    requires within { IsWithin obligations.old }
    ensures bank { IsBankOf (view.classes core.now.classes) obligations.new.bank }
    ensures within { IsWithin obligations.new }
{
    let Obligations { bank, trail, list } = obligations;
    let Some(listed) = list.get(one.obligation) else {
        return Ok(String::new(alloc));
    };
    let refuting = Refuting {
        classes: &one.model.classes,
        located,
        limits,
    };
    text_of(alloc, bank, trail, core, listed, &refuting)
}

// A text for each obligation whose values are told.
fn texts_of(
    alloc: Global,
    core: &Core,
    countered: &[Countered],
    limits: Limits,
) -> Result<Vec<String>, AllocError>
    requires { IsWithinLimits (view.classes core.now.classes) }
{
    let numbers = told_numbers(alloc, countered)?;
    let Positions {
        mut obligations,
        located,
    } = locate(alloc, core, numbers)?;
    let mut texts = Vec::new(alloc);
    for place in 0..located.len() {
        if let Some(one) = countered.get(place) {
            let text = text_at(alloc, &mut obligations, core, one, &located[place], limits)?;
            texts.push(text)?;
        }
    }
    Ok(texts)
}

/// The values that the models give to the locals and fields of the program of a source, as `x = 3, this.n = 5`. There is a text for each of the first
/// twenty obligations that a model refutes, in their order. It is empty where none has a value there. The limits are those of the verdict.
/// An error is want of memory.
pub fn model_texts(
    alloc: Global,
    source: &[u8],
    countered: &[Countered],
    limits: Limits,
) -> Result<Vec<String>, AllocError> {
    match read_program(alloc, source) {
        Ok(core) => texts_of(alloc, &core, countered, limits),
        Err(_) => Ok(Vec::new(alloc)),
    }
}
