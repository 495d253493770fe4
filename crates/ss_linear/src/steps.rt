// Sums one after the other: whether they end in a contradiction.

ghost use Rattle.std.specs.Prelude.{◌≡◌, pos, neg_ℤ, List, [], ◌∷◌, true, false, Some, length, ◌+◌, ◌<◌, ◌≤◌, IsTrue, IsFalse, IfOk, IfSome};
ghost use Rattle.std.specs.Int.{int_div_euclid, int_rem_euclid, is_positive};
ghost use Rattle.ss_core.specs.Tree.{ClassTree};
ghost use Rattle.ss_logic.specs.Formulas.{Formula};
ghost use Rattle.ss_logic.specs.Sums as sums;
ghost use Rattle.ss_logic.specs.Shapes.{when};
ghost use Rattle.ss_terms.specs.Forms.{term_at, HasTerm};
ghost use Rattle.ss_linear_sums.specs.Linear.{part_at, parts_at, sum_at, HasParts};
ghost use Rattle.ss_linear_sums.specs.Parts.{with_coefficient};
ghost use Rattle.ss_linear_sums.specs.Weighted.{divided_part, IsDividedOnto};
ghost use Rattle.ss_linear_sums.specs.Table.{AreKept};
ghost use Rattle.ss_linear_rules.specs.Two as two;
ghost use Rattle.ss_linear_rules.specs.Two.{Refute};
ghost use Rattle.ss_linear.specs.Contradictions.{HaveParts, IsContradiction, sums_of};
ghost use Rattle.ss_linear.specs.Results.{AreFacts, AreOthers, AreNext, IsResult};

use crate::adding::weighted;
use crate::ends::is_one;
use crate::facts::{is_zero, is_zero_part, wide};
use crate::few::is_false;
use ss_deriv::Sum;
use ss_linear_sums::{LinearSum, Part, SumFact, SumTable, linear};
use ss_terms::{Bank, TermId};
use std::alloc::{AllocError, Global};

// Whether a number is above 0.
fn is_above(n: i64) -> bool
    ensures { result ≡ is_positive n }
{
    n > 0
}

// Whether a number is 1.
fn is_unit(n: i64) -> bool
    ensures { result ≡ two.is_one n }
{
    n == 1
}

// ---- what a sum gives

// Whether a part is the term once.
fn is_once(bank: &Bank, part: Part, t: TermId) -> bool
    requires part { HasTerm bank.now part.term }
    requires term { HasTerm bank.now t }
    ensures { IsTrue result → part_at bank.now part ≡ (term_at bank.now t, pos 1) }
{
    if !is_one(part.coefficient) {
        return false;
    }
    bank.is_same_term(part.term, t)
}

// Whether a part alone is the term once.
fn is_only(bank: &Bank, part: Part, rest: &[Part], t: TermId) -> bool
    requires part { HasTerm bank.now part.term }
    requires term { HasTerm bank.now t }
    ensures { IsTrue result → parts_at bank.now (part ∷ rest.now) ≡ (term_at bank.now t, pos 1) ∷ [] }
{
    match rest {
        [] => is_once(bank, part, t),
        [_, ..] => false,
    }
}

// Whether parts are the term once.
fn is_term(bank: &Bank, parts: &[Part], t: TermId) -> bool
    requires parts { HasParts bank.now parts.now }
    requires term { HasTerm bank.now t }
    ensures { IsTrue result → parts_at bank.now parts.now ≡ (term_at bank.now t, pos 1) ∷ [] }
{
    match parts {
        [] => false,
        [part, rest @ ..] => is_only(bank, *part, rest, t),
    }
}

// Whether a term is no sum.
fn is_alone(alloc: Global, bank: &Bank, table: &mut SumTable, t: TermId) -> Result<bool, AllocError>
    requires term { HasTerm bank.now t }
    requires kept { AreKept bank.now table.old.kept.items }
    ensures kept { IfOk result (λ _. AreKept bank.now table.new.kept.items) }
    ensures alone { IfOk result (λ yes. IsTrue yes → sums.linear (term_at bank.now t) ≡ Some (sums.term_sum (term_at bank.now t))) }
{
    let found = linear(alloc, bank, table, t)?;
    let Some(sum) = found else {
        return Ok(false);
    };
    if !is_zero(sum.constant) {
        return Ok(false);
    }
    Ok(is_term(bank, &sum.parts, t))
}

// Whether no part is of the term.
fn are_others(bank: &Bank, parts: &[Part], t: TermId) -> bool
    requires parts { HasParts bank.now parts.now }
    requires term { HasTerm bank.now t }
    ensures { IsTrue result → AreOthers (term_at bank.now t) (parts_at bank.now parts.now) }
{
    for part in parts {
        if bank.is_same_term(part.term, t) {
            return false;
        }
    }
    true
}

// The quotient, rounded down.
fn floor(a: i128, d: i128) -> i128
    requires { is_positive d ≡ true }
    ensures { result ≡ int_div_euclid a d }
{
    a.div_euclid(d)
}

// The quotient, where nothing remains.
fn quotient(a: i128, d: i128) -> Option<i128>
    requires { is_positive d ≡ true }
    ensures { result ≡ when (sums.is_zero (int_rem_euclid a d)) (int_div_euclid a d) }
{
    if is_zero(a.rem_euclid(d)) {
        Some(floor(a, d))
    } else {
        None
    }
}

// A part with another coefficient.
fn changed(part: Part, coefficient: i128) -> Part
    ensures { result ≡ with_coefficient coefficient part }
{
    Part {
        term: part.term,
        coefficient,
    }
}

// Whether the bank's term is no sum, and no part is of it.
fn is_next(
    alloc: Global,
    bank: &Bank,
    table: &mut SumTable,
    made: &[Part],
    t: TermId,
) -> Result<bool, AllocError>
    requires made { HasParts bank.now made.now }
    requires term { HasTerm bank.now t }
    requires kept { AreKept bank.now table.old.kept.items }
    ensures kept { IfOk result (λ _. AreKept bank.now table.new.kept.items) }
    ensures alone { IfOk result (λ yes. IsTrue yes → sums.linear (term_at bank.now t) ≡ Some (sums.term_sum (term_at bank.now t))) }
    ensures others { IfOk result (λ yes. IsTrue yes → AreOthers (term_at bank.now t) (parts_at bank.now made.now)) }
{
    if are_others(bank, made, t) {
        is_alone(alloc, bank, table, t)
    } else {
        Ok(false)
    }
}

// Adds a part that is divided. No where the divisor doesn't divide it, or where its term is a sum or has a part.
fn push_next(
    alloc: Global,
    bank: &Bank,
    table: &mut SumTable,
    made: &mut Vec<Part>,
    d: i128,
    part: Part,
) -> Result<bool, AllocError>
    requires divisor { is_positive d ≡ true }
    requires made { HasParts bank.now made.old.items }
    requires part { HasTerm bank.now part.term }
    requires kept { AreKept bank.now table.old.kept.items }
    ensures kept { IfOk result (λ _. AreKept bank.now table.new.kept.items) }
    ensures divided { IfOk result (λ yes. IsTrue yes → IsDividedOnto true (divided_part d part) made.old.items made.new.items) }
    ensures next { IfOk result (λ yes. IsTrue yes → AreNext [] (parts_at bank.now made.old.items) → AreNext [] (parts_at bank.now made.new.items)) }
{
    if is_zero_part(part) {
        return Ok(true);
    }
    let Some(coefficient) = quotient(part.coefficient, d) else {
        return Ok(false);
    };
    let before = made.as_slice();
    let is_new = is_next(alloc, bank, table, before, part.term)?;
    if !is_new {
        return Ok(false);
    }
    made.push(changed(part, coefficient))?;
    Ok(true)
}

// The parts divided, where the divisor divides each, none is a sum and none comes twice.
fn divided(
    alloc: Global,
    bank: &Bank,
    d: i128,
    parts: &[Part],
) -> Result<Option<Vec<Part>>, AllocError>
    requires divisor { is_positive d ≡ true }
    requires parts { HasParts bank.now parts.now }
    ensures has { IfOk result (λ o. IfSome o (λ v. HasParts bank.now v.items)) }
    ensures next { IfOk result (λ o. IfSome o (λ v. AreNext [] (parts_at bank.now v.items))) }
    ensures divided { IfOk result (λ o. IfSome o (λ v. sums.divided d (parts_at bank.now parts.now) ≡ Some (parts_at bank.now v.items))) }
{
    let mut table = SumTable::new(alloc);
    let mut made = Vec::new(alloc);
    for part in parts {
        match push_next(alloc, bank, &mut table, &mut made, d, *part) {
            Ok(true) => {}
            Ok(false) => return Ok(None),
            Err(e) => return Err(e),
        }
    }
    Ok(Some(made))
}

// A number with the other sign.
fn negated(a: i128) -> Option<i128>
    ensures { result ≡ sums.checked (neg_ℤ a) }
{
    a.checked_neg()
}

// That parts and a number are at most 0.
fn at_most(parts: Vec<Part>, constant: i128) -> SumFact
    ensures equality { result.is_equality ≡ false }
    ensures parts { result.sum.parts.items ≡ parts.items }
    ensures constant { result.sum.constant ≡ constant }
{
    SumFact {
        is_equality: false,
        sum: LinearSum { parts, constant },
    }
}

// What a sum that is at most 0 gives, divided.
fn bounded(
    alloc: Global,
    bank: &Bank,
    d: i128,
    sum: &LinearSum,
) -> Result<Option<SumFact>, AllocError>
    requires divisor { is_positive d ≡ true }
    requires parts { HasParts bank.now sum.now.parts.items }
    ensures parts { IfOk result (λ o. IfSome o (λ f. HasParts bank.now f.sum.parts.items)) }
    ensures gives { (cs : List ClassTree) → IfOk result (IsResult cs bank.now (sums.bounded d (sum_at bank.now sum.now))) }
{
    let Some(most) = negated(sum.constant) else {
        return Ok(None);
    };
    let quotient = floor(most, d);
    let Some(constant) = negated(quotient) else {
        return Ok(None);
    };
    let Some(parts) = divided(alloc, bank, d, &sum.parts)? else {
        return Ok(None);
    };
    Ok(Some(at_most(parts, constant)))
}

// The fact that a sum gives.
fn result_of(
    alloc: Global,
    bank: &Bank,
    facts: &[Option<SumFact>],
    sum: &Sum,
) -> Result<Option<SumFact>, AllocError>
    requires { HaveParts bank.now facts.now }
    ensures parts { IfOk result (λ o. IfSome o (λ f. HasParts bank.now f.sum.parts.items)) }
    ensures gives { (cs : List ClassTree) (known : List Formula) → AreFacts cs bank.now known facts.now → IfOk result (IsResult cs bank.now (sums.sum_of cs known sum.now.divisor sum.now.parts.items)) }
{
    if !is_above(sum.divisor) {
        return Ok(None);
    }
    let found = weighted(alloc, bank, facts, &sum.parts)?;
    let Some(total) = found else {
        return Ok(None);
    };
    bounded(alloc, bank, wide(sum.divisor), &total)
}

// Whether a sum with the divisor 1 is a contradiction.
fn is_last(
    alloc: Global,
    bank: &Bank,
    facts: &[Option<SumFact>],
    sum: &Sum,
) -> Result<bool, AllocError>
    requires { HaveParts bank.now facts.now }
    ensures { (cs : List ClassTree) (known : List Formula) → AreFacts cs bank.now known facts.now → IfOk result (λ yes. IsTrue yes → (sum.now.divisor ≡ pos 1) × IsContradiction cs known sum.now.parts.items) }
{
    if !is_unit(sum.divisor) {
        return Ok(false);
    }
    let found = weighted(alloc, bank, facts, &sum.parts)?;
    let Some(total) = found else {
        return Ok(false);
    };
    Ok(is_false(&total))
}

// Whether there is a sum after the one at a place.
fn has_next(sums: &[Sum], i: usize) -> bool
    requires { i < length sums.now }
    ensures { IsFalse result → length sums.now ≤ i + 1 }
{
    i < sums.len() - 1
}

/// Whether sums, each over the facts and what the sums before it give, end in a contradiction.
pub(crate) fn is_end(
    alloc: Global,
    bank: &Bank,
    facts: &mut Vec<Option<SumFact>>,
    sums: &[Sum],
) -> Result<bool, AllocError>
    requires { HaveParts bank.now facts.old.items }
    ensures { (cs : List ClassTree) (known : List Formula) → AreFacts cs bank.now known facts.old.items → IfOk result (λ yes. IsTrue yes → Refute cs known (sums_of sums.now)) }
{
    for (i, sum) in sums.iter().enumerate() {
        let read = facts.as_slice();
        if !has_next(sums, i) {
            return is_last(alloc, bank, read, sum);
        }
        let found = result_of(alloc, bank, read, sum)?;
        let Some(fact) = found else {
            return Ok(false);
        };
        facts.push(Some(fact))?;
    }
    Ok(false)
}
