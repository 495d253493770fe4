// What contradicts classes of terms.

ghost use Rattle.std.specs.Prelude.{◌≡◌, ◌<◌, ◌+◌, [], length, None, IfOk, IfSome, if◌then◌else◌};
ghost use Rattle.ss_terms.specs.Forms.{HasFormulas};
ghost use Rattle.ss_search_procedure_rules.specs.Clashes.{Classing};
ghost use Rattle.ss_search_clashes.specs.declared.clashes.Clash.TheVariants as clash;
ghost use Rattle.ss_search_clashes.specs.Numbered.{class_of, IsClassing, HasNoClash, AreValuesApart};
ghost use Rattle.ss_search_clashes.specs.Tables.{Tabulates};
ghost use Rattle.ss_search_clashes.specs.Found.{IsClash, IsFound};

use crate::equalities::differs;
use crate::known::Known;
use crate::says::said_by;
use crate::signatures::{Said, Signatures};
use crate::values::find_values;
use ss_terms::{Bank, FormulaId, TermId};
use std::alloc::{AllocError, Global};

/// A contradiction between known formulas and classes of terms. Formulas are named by their places.
#[derive(Clone, Copy, Drop)]
pub enum Clash {
    /// The known formula says that two terms of one class differ.
    Differs(usize),
    /// One of the known formulas denies the other. They are an atom and a negated atom of one name at arguments in the same classes, or a quantified
    /// formula and its negation.
    Opposed(usize, usize),
    /// These different values are in one class.
    Values(TermId, TermId),
}

/// What known formulas say where nothing contradicts the classes, or what does.
#[derive(Drop)]
pub enum Found {
    Fits(Known),
    Clashes(Clash),
}

// The contradiction of two formulas, of which the first says that something holds or that it doesn't, and the second the opposite.
fn opposed(i: usize, j: usize, holds: bool) -> Clash
    ensures { result ≡ (if holds then clash.Opposed i j else clash.Opposed j i) }
{
    if holds {
        Clash::Opposed(i, j)
    } else {
        Clash::Opposed(j, i)
    }
}

// Enters what the known formula at a place says. What contradicts it.
fn enter(
    alloc: Global,
    bank: &Bank,
    classes: &[usize],
    known: &[FormulaId],
    said: &mut Signatures,
    place: usize,
) -> Result<Option<Clash>, AllocError>
    requires known { HasFormulas bank.now known.now }
    requires place { place < length known.now }
    ensures none { (class : Classing) → IsClassing bank.now classes.now class → Tabulates bank.now class known.now place said.old → IfOk result (λ o. o ≡ None → Tabulates bank.now class known.now (place + 1) said.new) }
    ensures some { (class : Classing) → IsClassing bank.now classes.now class → Tabulates bank.now class known.now place said.old → IfOk result (λ o. IfSome o (IsClash bank.now class known.now)) }
{
    bank.numbers_are_apart();
    let f = known[place];
    if differs(bank, classes, f) {
        return Ok(Some(Clash::Differs(place)));
    }
    let Some(saying) = said_by(alloc, bank, classes, f)? else {
        return Ok(None);
    };
    let holds = saying.holds;
    match said.say(saying.signature, Said { place, holds })? {
        Some(other) => Ok(Some(opposed(place, other, holds))),
        None => Ok(None),
    }
}

// Enters what the known formulas say. What contradicts it.
fn tabulate(
    alloc: Global,
    bank: &Bank,
    classes: &[usize],
    known: &[FormulaId],
    said: &mut Signatures,
) -> Result<Option<Clash>, AllocError>
    requires known { HasFormulas bank.now known.now }
    requires empty { said.old ≡ [] }
    ensures none { (class : Classing) → IsClassing bank.now classes.now class → IfOk result (λ o. o ≡ None → Tabulates bank.now class known.now (length known.now) said.new) }
    ensures some { (class : Classing) → IsClassing bank.now classes.now class → IfOk result (λ o. IfSome o (IsClash bank.now class known.now)) }
{
    for place in 0..known.len() {
        if let Some(clash) = enter(alloc, bank, classes, known, said, place)? {
            return Ok(Some(clash));
        }
    }
    Ok(None)
}

// The same, and what contradicts the values of the bank.
fn tabulate_all(
    alloc: Global,
    bank: &Bank,
    classes: &[usize],
    known: &[FormulaId],
    said: &mut Signatures,
) -> Result<Option<Clash>, AllocError>
    requires known { HasFormulas bank.now known.now }
    requires empty { said.old ≡ [] }
    ensures none { (class : Classing) → IsClassing bank.now classes.now class → IfOk result (λ o. o ≡ None → Tabulates bank.now class known.now (length known.now) said.new × AreValuesApart bank.now class) }
    ensures some { (class : Classing) → IsClassing bank.now classes.now class → IfOk result (λ o. IfSome o (IsClash bank.now class known.now)) }
{
    if let Some(clash) = tabulate(alloc, bank, classes, known, said)? {
        return Ok(Some(clash));
    }
    match find_values(alloc, bank, classes)? {
        Some((s, t)) => Ok(Some(Clash::Values(s, t))),
        None => Ok(None),
    }
}

/// What the known formulas say at these classes, or what contradicts the classes among them and the values of the bank. It takes
/// time in proportion to what is known and to the terms of the bank. An error is want of memory.
pub fn look(
    alloc: Global,
    bank: &Bank,
    classes: Vec<usize>,
    known: &[FormulaId],
) -> Result<Found, AllocError>
    requires { HasFormulas bank.now known.now }
    ensures { IfOk result (IsFound bank.now classes.items known.now) }
{
    bank.numbers_are_apart();
    let mut said = Signatures::new(alloc);
    match tabulate_all(alloc, bank, &classes, known, &mut said)? {
        Some(clash) => Ok(Found::Clashes(clash)),
        None => Ok(Found::Fits(Known::new(alloc, classes, said))),
    }
}

/// What contradicts the classes among the known formulas and the values of the bank; none only where nothing does. An error is
/// want of memory.
pub fn find_clash(
    alloc: Global,
    bank: &Bank,
    classes: &[usize],
    known: &[FormulaId],
) -> Result<Option<Clash>, AllocError>
    requires { HasFormulas bank.now known.now }
    ensures none { IfOk result (λ o. o ≡ None → HasNoClash bank.now (class_of bank.now classes.now) known.now) }
    ensures some { IfOk result (λ o. IfSome o (IsClash bank.now (class_of bank.now classes.now) known.now)) }
{
    bank.numbers_are_apart();
    let mut said = Signatures::new(alloc);
    tabulate_all(alloc, bank, classes, known, &mut said)
}
