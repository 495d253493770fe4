// The text of a verdict.

ghost use Rattle.std.specs.Prelude.{◌≡◌, ◌+◌, ◌<◌, ◌++◌, ℕ, List, IfOk, OnOk, string_bytes, slice_get};
ghost use Rattle.ss_core.specs.View as view;
ghost use Rattle.ss_report_names.specs.Names.{name_of_body};
ghost use Rattle.ss_terms.specs.declared.forms.FormulaId.{FormulaId};
ghost use Rattle.ss_terms.specs.Forms.{Forms};
ghost use Rattle.ss_vcgen_builder.specs.Builder.{obligation_at, obligations_at};
ghost use Rattle.ss_vcgen_builder.specs.Built.{trees};
ghost use Rattle.ss_search_answers.specs.Listed.{countered_numbers, countered_of, undecided_numbers, undecided_of, AreRisingFrom};
ghost use Rattle.ss_report.specs.Verdict.{verdict_text as verdict_of, listed_text as lines_of, line_of, is_countered, budget_of, class_of_body};

use crate::texts::{Check, push_not_proved, push_undecided};
use ss_core::{BodyId, Core};
use ss_search_answers::{Budget, Countered, Undecided, Verdict};
use ss_vcgen_builder::{Listed, Obligations};
use std::alloc::{AllocError, Global};

// The name of a body's class, or nothing where there is none.
fn class_name(program: &Core, id: BodyId) -> &str
    ensures { result.now ≡ class_of_body (view.core program.now) (slice_get (view.core program.now).bodies id.0) }
{
    let Some(found) = program.bodies.get(id.0 as usize) else {
        return "";
    };
    match program.classes.declared(found.class) {
        Some(class) => class.name.as_str(),
        None => "",
    }
}

// The name of a body, or nothing where there is none.
fn body_name(program: &Core, id: BodyId) -> &str
    ensures { result.now ≡ name_of_body (slice_get (view.core program.now).bodies id.0) }
{
    match program.bodies.get(id.0 as usize) {
        Some(found) => found.name.as_str(),
        None => "",
    }
}

// Adds the line of an obligation: whether a model refutes it, and which budget wasn't enough.
fn push_line(
    alloc: Global,
    text: &mut String,
    program: &Core,
    obligation: &Listed,
    refuted: bool,
    over: Option<Budget>,
) -> Result<(), AllocError>
    ensures { (b : Forms) (trail : List FormulaId) → OnOk result (string_bytes text.new ≡ string_bytes text.old ++ line_of (view.core program.now) (obligation_at b trail obligation.now) refuted over) }
{
    let class = class_name(program, obligation.body);
    let body = body_name(program, obligation.body);
    let check = Check {
        kind: obligation.kind,
        place: obligation.place,
        class,
        body,
    };
    if refuted {
        return push_not_proved(text, &check);
    }
    match over {
        Some(over) => push_undecided(alloc, text, &check, over),
        None => Ok(()),
    }
}

// Whether a model refutes the obligation of this number, which none that is listed comes before; and those after it.
fn next_countered(rest: &[Countered], number: usize) -> (bool, &[Countered])
    requires { AreRisingFrom number (countered_numbers rest.now) }
    ensures refuted { result.0 ≡ is_countered rest.now number }
    ensures rising { AreRisingFrom (number + 1) (countered_numbers result.1.now) }
    ensures same { (k : ℕ) → number < k → is_countered result.1.now k ≡ is_countered rest.now k }
{
    let [first, others @ ..] = rest else {
        return (false, rest);
    };
    if first.obligation == number {
        (true, others)
    } else {
        (false, rest)
    }
}

// Which budget wasn't enough for the obligation of this number; and those after it.
fn next_undecided(rest: &[Undecided], number: usize) -> (Option<Budget>, &[Undecided])
    requires { AreRisingFrom number (undecided_numbers rest.now) }
    ensures over { result.0 ≡ budget_of rest.now number }
    ensures rising { AreRisingFrom (number + 1) (undecided_numbers result.1.now) }
    ensures same { (k : ℕ) → number < k → budget_of result.1.now k ≡ budget_of rest.now k }
{
    let [first, others @ ..] = rest else {
        return (None, rest);
    };
    if first.obligation == number {
        (Some(first.cause), others)
    } else {
        (None, rest)
    }
}

// The lines of the listed obligations of a list.
fn listed_lines(
    alloc: Global,
    program: &Core,
    list: &[Listed],
    countered: &[Countered],
    undecided: &[Undecided],
) -> Result<String, AllocError>
    requires countered { AreRisingFrom 0 (countered_numbers countered.now) }
    requires undecided { AreRisingFrom 0 (undecided_numbers undecided.now) }
    ensures { (b : Forms) (trail : List FormulaId) → IfOk result (λ text. string_bytes text ≡ lines_of (view.core program.now) (obligations_at b trail list.now) countered.now undecided.now) }
{
    let mut text = String::new(alloc);
    let mut countered = countered;
    let mut undecided = undecided;
    for (number, obligation) in list.iter().enumerate() {
        let (refuted, other_countered) = next_countered(countered, number);
        let (over, other_undecided) = next_undecided(undecided, number);
        push_line(alloc, &mut text, program, obligation, refuted, over)?;
        countered = other_countered;
        undecided = other_undecided;
    }
    Ok(text)
}

// The lines of the listed obligations, as bytes.
fn listed_text(
    alloc: Global,
    program: &Core,
    obligations: &Obligations,
    countered: &[Countered],
    undecided: &[Undecided],
) -> Result<Vec<u8>, AllocError>
    requires countered { AreRisingFrom 0 (countered_numbers countered.now) }
    requires undecided { AreRisingFrom 0 (undecided_numbers undecided.now) }
    ensures { IfOk result (λ text. text.items ≡ lines_of (view.core program.now) (trees obligations.now) countered.now undecided.now) }
{
    let text = listed_lines(alloc, program, &obligations.list, countered, undecided)?;
    Ok(text.into_bytes())
}

/// The text of a verdict: the line `verified`, or a line for each listed obligation, in order of number. An error is want of memory.
pub fn verdict_text(
    alloc: Global,
    program: &Core,
    obligations: &Obligations,
    verdict: &Verdict,
) -> Result<Vec<u8>, AllocError>
    requires countered { AreRisingFrom 0 (countered_numbers (countered_of verdict.now)) }
    requires undecided { AreRisingFrom 0 (undecided_numbers (undecided_of verdict.now)) }
    ensures { IfOk result (λ text. text.items ≡ verdict_of (view.core program.now) (trees obligations.now) verdict.now) }
{
    match verdict {
        Verdict::Verified(_) => Vec::from_slice(alloc, b"verified\n"),
        Verdict::Unproved {
            countered,
            undecided,
        } => listed_text(alloc, program, obligations, countered, undecided),
        Verdict::Undecided(undecided) => {
            listed_text(alloc, program, obligations, &[], undecided)
        }
        Verdict::Memory => Ok(Vec::new(alloc)),
    }
}
