// Where words of conditions stand in an expression.

ghost use Rattle.std.specs.Prelude.{◌≡◌, ◌++◌, OnOk, map};
ghost use Rattle.ss_core.specs.View.{word_tree};
ghost use Rattle.ss_typed.specs.Tree.{arguments};
ghost use Rattle.ss_typed.specs.View.{expr};
ghost use Rattle.ss_owners_rules.specs.Words.{allows_question, allows_old, allows_result, allows_state, unless, misplaced, misplaced_each};
ghost use Rattle.ss_owners.specs.Parts.{allowed_of, link_words, links_words, step_words, steps_words};

use ss_core::{Place, StateWord};
use ss_typed::{TypedExpr, TypedLink, TypedStep};
use std::alloc::AllocError;

/// Which words of conditions may stand somewhere. Each allows what the one before it allows.
#[derive(Clone, Copy)]
pub enum Allowed {
    NoWord,
    /// Questions about levels and owners.
    Questions,
    /// `old` and `IsNew` too.
    OfEntry,
    /// `result` too.
    EveryWord,
}

// ---- one word

fn allows_question(allowed: Allowed) -> bool
    ensures { result ≡ allows_question (allowed_of allowed) }
{
    match allowed {
        Allowed::NoWord => false,
        Allowed::Questions | Allowed::OfEntry | Allowed::EveryWord => true,
    }
}

fn allows_old(allowed: Allowed) -> bool
    ensures { result ≡ allows_old (allowed_of allowed) }
{
    match allowed {
        Allowed::NoWord | Allowed::Questions => false,
        Allowed::OfEntry | Allowed::EveryWord => true,
    }
}

fn allows_result(allowed: Allowed) -> bool
    ensures { result ≡ allows_result (allowed_of allowed) }
{
    match allowed {
        Allowed::NoWord | Allowed::Questions | Allowed::OfEntry => false,
        Allowed::EveryWord => true,
    }
}

fn allows_state(allowed: Allowed, word: StateWord) -> bool
    ensures { result ≡ allows_state (allowed_of allowed) (word_tree word) }
{
    match word {
        StateWord::New => allows_old(allowed),
        StateWord::Consistent
        | StateWord::Committed
        | StateWord::Level(_)
        | StateWord::Packed(_)
        | StateWord::Unowned => allows_question(allowed),
    }
}

fn note_unless(is_allowed: bool, place: Place, found: &mut Vec<Place>) -> Result<(), AllocError>
    ensures { OnOk result (found.new.items ≡ found.old.items ++ unless is_allowed place) }
{
    if is_allowed {
        return Ok(());
    }
    found.push(place)?;
    Ok(())
}

// ---- expressions

/// Adds the places of the words in the expression that aren't allowed there.
#[cycle(words)]
pub fn find_words(allowed: Allowed, e: &TypedExpr, found: &mut Vec<Place>) -> Result<(), AllocError>
    ensures { OnOk result (found.new.items ≡ found.old.items ++ misplaced (allowed_of allowed) (expr e.now)) }
{
    match e {
        TypedExpr::Result(place, _) => note_unless(allows_result(allowed), *place, found),
        TypedExpr::Old(place, inner) => {
            find_in_word(allows_old(allowed), *place, allowed, inner, found)
        }
        TypedExpr::State(place, word, inner) => {
            find_in_word(allows_state(allowed, *word), *place, allowed, inner, found)
        }
        TypedExpr::Owners(place, _, a, b) => {
            note_unless(allows_question(allowed), *place, found)?;
            find_words(allowed, a, found)?;
            find_words(allowed, b, found)
        }
        TypedExpr::Iff(_, a, b) | TypedExpr::Implies(_, a, b) => {
            find_words(allowed, a, found)?;
            find_words(allowed, b, found)
        }
        TypedExpr::Negate(_, inner)
        | TypedExpr::Not(_, inner)
        | TypedExpr::Cast(_, _, _, inner)
        | TypedExpr::NewArray(_, _, inner) => find_words(allowed, inner, found),
        TypedExpr::Chain(_, first, links) => {
            find_words(allowed, first, found)?;
            find_in_links(allowed, links, found)
        }
        TypedExpr::Path(_, first, steps) => {
            find_words(allowed, first, found)?;
            find_in_steps(allowed, steps, found)
        }
        TypedExpr::Quantified(_, _, _, low, high, member) => {
            find_words(allowed, low, found)?;
            find_words(allowed, high, found)?;
            find_words(allowed, member, found)
        }
        TypedExpr::New(_, _, list)
        | TypedExpr::Static(_, _, _, list)
        | TypedExpr::Base(_, _, _, list) => find_in_each(allowed, list, found),
        _ => Ok(()),
    }
}

// A word at this place, and its operand.
#[cycle(words)]
fn find_in_word(
    is_allowed: bool,
    place: Place,
    allowed: Allowed,
    operand: &TypedExpr,
    found: &mut Vec<Place>,
) -> Result<(), AllocError>
    ensures { OnOk result (found.new.items ≡ found.old.items ++ (unless is_allowed place ++ misplaced (allowed_of allowed) (expr operand.now))) }
{
    note_unless(is_allowed, place, found)?;
    find_words(allowed, operand, found)
}

// What stands after the first operand of a chain.
#[cycle(words)]
fn find_in_links(
    allowed: Allowed,
    links: &[TypedLink],
    found: &mut Vec<Place>,
) -> Result<(), AllocError>
    ensures { OnOk result (found.new.items ≡ found.old.items ++ links_words (allowed_of allowed) links.now) }
{
    for link in links {
        find_in_link(allowed, link, found)?;
    }
    Ok(())
}

#[cycle(words)]
fn find_in_link(
    allowed: Allowed,
    link: &TypedLink,
    found: &mut Vec<Place>,
) -> Result<(), AllocError>
    ensures { OnOk result (found.new.items ≡ found.old.items ++ link_words (allowed_of allowed) link.now) }
{
    match link {
        TypedLink::Operation(_, operand) => find_words(allowed, operand, found),
        TypedLink::Is(_) | TypedLink::As(_) => Ok(()),
    }
}

// What stands after the beginning of a path.
#[cycle(words)]
fn find_in_steps(
    allowed: Allowed,
    steps: &[TypedStep],
    found: &mut Vec<Place>,
) -> Result<(), AllocError>
    ensures { OnOk result (found.new.items ≡ found.old.items ++ steps_words (allowed_of allowed) steps.now) }
{
    for step in steps {
        find_in_step(allowed, step, found)?;
    }
    Ok(())
}

#[cycle(words)]
fn find_in_step(
    allowed: Allowed,
    step: &TypedStep,
    found: &mut Vec<Place>,
) -> Result<(), AllocError>
    ensures { OnOk result (found.new.items ≡ found.old.items ++ step_words (allowed_of allowed) step.now) }
{
    match step {
        TypedStep::Field(..) | TypedStep::Length => Ok(()),
        TypedStep::Element(index) => find_words(allowed, index, found),
        TypedStep::Call(_, _, list) => find_in_each(allowed, list, found),
    }
}

/// Adds those in these arguments.
#[cycle(words)]
pub fn find_in_each(
    allowed: Allowed,
    list: &[TypedExpr],
    found: &mut Vec<Place>,
) -> Result<(), AllocError>
    ensures { OnOk result (found.new.items ≡ found.old.items ++ misplaced_each (allowed_of allowed) (arguments (map expr list.now))) }
{
    for e in list {
        find_words(allowed, e, found)?;
    }
    Ok(())
}
