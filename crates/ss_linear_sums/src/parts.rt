// Sums of sums.

ghost use Rattle.std.specs.Prelude.{◌≡◌, ◌<◌, length, true, false, IfOk};
ghost use Rattle.ss_logic.specs.Sums as sums;
ghost use Rattle.ss_terms.specs.Forms.{HasTerm};
ghost use Rattle.ss_linear_sums.specs.Linear.{part_at, parts_at, sum_at, HasParts, Became};
ghost use Rattle.ss_linear_sums.specs.Parts.{IsPlaceOf, IsRaised, IsPushed};

use crate::forms::{LinearSum, Part};
use crate::numbers::plus_times;
use ss_terms::{Bank, TermId};
use std::alloc::AllocError;

/// The place of the part of a term.
fn place_of(bank: &Bank, parts: &[Part], t: TermId) -> Option<usize>
    requires parts { HasParts bank.now parts.now }
    requires term { HasTerm bank.now t }
    ensures { IsPlaceOf bank.now t parts.now result }
{
    for i in 0..parts.len() {
        let part = parts[i];
        if bank.is_same_term(part.term, t) {
            return Some(i);
        }
    }
    None
}

/// Adds so many times a part's coefficient to the one at a place.
fn raise(parts: &mut Vec<Part>, i: usize, n: i128, added: Part) -> bool
    requires { i < length parts.old.items }
    ensures { IsRaised result i n added.coefficient parts.old.items parts.new.items }
{
    let part = parts[i];
    match plus_times(part.coefficient, n, added.coefficient) {
        Some(raised) => {
            parts[i] = Part {
                term: part.term,
                coefficient: raised,
            };
            true
        }
        None => false,
    }
}

/// Adds so many times a part as a new one.
fn push(parts: &mut Vec<Part>, n: i128, part: Part) -> Result<bool, AllocError>
    ensures { IfOk result (λ yes. IsPushed yes n part parts.old.items parts.new.items) }
{
    match plus_times(0, n, part.coefficient) {
        Some(coefficient) => {
            parts.push(Part {
                term: part.term,
                coefficient,
            })?;
            Ok(true)
        }
        None => Ok(false),
    }
}

/// Adds so many times a part. No where a number leaves 128 bits.
fn add_part(bank: &Bank, parts: &mut Vec<Part>, n: i128, part: Part) -> Result<bool, AllocError>
    requires parts { HasParts bank.now parts.old.items }
    requires term { HasTerm bank.now part.term }
    ensures has { IfOk result (λ _. HasParts bank.now parts.new.items) }
    ensures added { IfOk result (λ yes. Became yes (sums.add_part n (part_at bank.now part) (parts_at bank.now parts.old.items)) (parts_at bank.now parts.new.items)) }
{
    match place_of(bank, parts, part.term) {
        Some(i) => Ok(raise(parts, i, n, part)),
        None => push(parts, n, part),
    }
}

/// Adds so many times each of the parts.
fn add_parts(
    bank: &Bank,
    parts: &mut Vec<Part>,
    n: i128,
    others: &[Part],
) -> Result<bool, AllocError>
    requires parts { HasParts bank.now parts.old.items }
    requires others { HasParts bank.now others.now }
    ensures has { IfOk result (λ _. HasParts bank.now parts.new.items) }
    ensures added { IfOk result (λ yes. Became yes (sums.add_parts n (parts_at bank.now others.now) (parts_at bank.now parts.old.items)) (parts_at bank.now parts.new.items)) }
{
    for part in others {
        match add_part(bank, parts, n, *part) {
            Ok(true) => {}
            Ok(false) => return Ok(false),
            Err(e) => return Err(e),
        }
    }
    Ok(true)
}

/// Adds so many times a number.
fn raise_constant(sum: &mut LinearSum, n: i128, constant: i128) -> bool
    ensures parts { sum.new.parts.items ≡ sum.old.parts.items }
    ensures raised { Became result (sums.plus_times sum.old.constant n constant) sum.new.constant }
{
    match plus_times(sum.constant, n, constant) {
        Some(raised) => {
            sum.constant = raised;
            true
        }
        None => false,
    }
}

/// Adds so many times a sum to another. No where a number leaves 128 bits; then what is left of the sum has no meaning.
pub fn add_times(
    bank: &Bank,
    sum: &mut LinearSum,
    n: i128,
    other: &LinearSum,
) -> Result<bool, AllocError>
    requires sum { HasParts bank.now sum.old.parts.items }
    requires other { HasParts bank.now other.now.parts.items }
    ensures has { IfOk result (λ _. HasParts bank.now sum.new.parts.items) }
    ensures added { IfOk result (λ yes. Became yes (sums.add_times (sum_at bank.now sum.old) n (sum_at bank.now other.now)) (sum_at bank.now sum.new)) }
{
    match add_parts(bank, &mut sum.parts, n, &other.parts) {
        Ok(true) => Ok(raise_constant(sum, n, other.constant)),
        Ok(false) => Ok(false),
        Err(e) => Err(e),
    }
}
