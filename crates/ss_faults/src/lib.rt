//! Faults of a source, and which of them is answered.
#![tactic(auto)]

ghost use Rattle.std.specs.Prelude.{◌≡◌, Option, Some, None, IfOk};
ghost use Rattle.ss_faults.specs.declared.Fault as fault;
ghost use Rattle.ss_faults.specs.First.{comes_before, earlier, first_fault, Answers};

use ss_core::{FrontStop, Place};
use std::alloc::AllocError;

/// A fault of a source: the number of its rule, and its place.
#[derive(Clone, Copy, Debug, PartialEq, Eq)]
pub struct Fault {
    pub rule: u16,
    pub place: Place,
}

/// Whether `f` comes before `g`: its place does, or they have one place and its rule has the lower number.
pub fn comes_before(f: Fault, g: Fault) -> bool
    ensures { result ≡ comes_before f g }
{
    if f.place.line != g.place.line {
        return f.place.line < g.place.line;
    }
    if f.place.column != g.place.column {
        return f.place.column < g.place.column;
    }
    f.rule < g.rule
}

/// The first fault of these, None where there is none.
pub fn first_fault(faults: &[Fault]) -> Option<Fault>
    ensures { result ≡ first_fault faults.now }
{
    let mut first = None;
    for fault in faults.iter().rev().copied() {
        first = Some(earlier(fault, first));
    }
    first
}

// Of the two the one that comes first.
fn earlier(fault: Fault, other: Option<Fault>) -> Fault
    ensures { result ≡ earlier fault other }
{
    match other {
        Some(other) => {
            if comes_before(other, fault) {
                other
            } else {
                fault
            }
        }
        None => fault,
    }
}

/// What a phase answers that has found this first fault, or none, or had no memory.
pub fn answer(found: Result<Option<Fault>, AllocError>) -> Result<(), FrontStop>
    ensures { (o : Option fault.Fault) → IfOk found (λ f. f ≡ o) → Answers o result }
{
    match found? {
        None => Ok(()),
        Some(Fault { rule, place }) => Err(FrontStop::Refused { rule, place }),
    }
}
