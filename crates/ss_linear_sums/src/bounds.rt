// What weighted sums give.

ghost use Rattle.std.specs.Prelude.{◌≡◌, List, [], ◌∷◌, true, option_map, IfOk};
ghost use Rattle.std.specs.Int.{int_div_euclid, int_rem_euclid, is_positive};
ghost use Rattle.ss_core.specs.Tree.{ClassTree};
ghost use Rattle.ss_logic.specs.Terms.{Add, app};
ghost use Rattle.ss_logic.specs.Shapes as shapes;
ghost use Rattle.ss_logic.specs.Shapes.{when};
ghost use Rattle.ss_logic.specs.Sums as sums;
ghost use Rattle.ss_terms.specs.Forms.{term_at, formula_at, formulas_at, HasTerm, HasFormula, HasFormulas, IsGrown, IsBankOf, IsFormulaNumber};
ghost use Rattle.ss_linear_sums.specs.Linear.{part_at, parts_at, sum_at, HasParts};
ghost use Rattle.ss_linear_sums.specs.Weighted.{divided_part, IsDividedOnto, AreDivided};

use crate::adding::weighted;
use crate::forms::{LinearSum, Part};
use crate::numbers::{is_zero, negated, wide};
use ss_terms::{Bank, FormulaId, Predicate, Symbol, TermId};
use std::alloc::{AllocError, Global};

/// The quotient, rounded down.
fn floor(a: i128, d: i128) -> i128
    requires { is_positive d ≡ true }
    ensures { result ≡ int_div_euclid a d }
{
    a.div_euclid(d)
}

/// The quotient, where nothing remains.
fn quotient(a: i128, d: i128) -> Option<i128>
    requires { is_positive d ≡ true }
    ensures { result ≡ when (sums.is_zero (int_rem_euclid a d)) (int_div_euclid a d) }
{
    if is_zero(a.rem_euclid(d)) {
        Some(floor(a, d))
    } else {
        None
    }
}

/// Adds a part that is divided. No where the divisor doesn't divide it.
fn push_divided(made: &mut Vec<Part>, d: i128, part: Part) -> Result<bool, AllocError>
    requires { is_positive d ≡ true }
    ensures { IfOk result (λ yes. IsDividedOnto yes (divided_part d part) made.old.items made.new.items) }
{
    if is_zero(part.coefficient) {
        return Ok(true);
    }
    match quotient(part.coefficient, d) {
        Some(coefficient) => {
            made.push(Part {
                term: part.term,
                coefficient,
            })?;
            Ok(true)
        }
        None => Ok(false),
    }
}

/// The parts divided, where the divisor divides each.
fn divided(
    alloc: Global,
    bank: &Bank,
    d: i128,
    parts: &[Part],
) -> Result<Option<Vec<Part>>, AllocError>
    requires divisor { is_positive d ≡ true }
    requires parts { HasParts bank.now parts.now }
    ensures { IfOk result (λ o. AreDivided bank.now (option_map (λ v. v.items) o) (sums.divided d (parts_at bank.now parts.now))) }
{
    let mut made = Vec::new(alloc);
    let _ = bank;
    for part in parts {
        match push_divided(&mut made, d, *part) {
            Ok(true) => {}
            Ok(false) => return Ok(None),
            Err(e) => return Err(e),
        }
    }
    Ok(Some(made))
}

/// A part as a term.
fn multiple(bank: &mut Bank, part: Part) -> Result<TermId, AllocError>
    requires { HasTerm bank.old part.term }
    ensures at { IfOk result (λ t. HasTerm bank.new t × (term_at bank.new t ≡ sums.multiple (part_at bank.old part))) }
    ensures grown { IsGrown bank.old bank.new }
{
    let n = bank.number(part.coefficient)?;
    bank.apply(Symbol::Multiply, &[n, part.term])
}

/// A term and a part as a term.
fn plus(bank: &mut Bank, x: TermId, part: Part) -> Result<TermId, AllocError>
    requires term { HasTerm bank.old x }
    requires part { HasTerm bank.old part.term }
    ensures at { IfOk result (λ t. HasTerm bank.new t × (term_at bank.new t ≡ app Add (term_at bank.old x ∷ sums.multiple (part_at bank.old part) ∷ []))) }
    ensures grown { IsGrown bank.old bank.new }
{
    let y = multiple(bank, part)?;
    bank.apply(Symbol::Add, &[x, y])
}

/// A term and parts as a term.
fn sum_onto(bank: &mut Bank, x: TermId, parts: &[Part]) -> Result<TermId, AllocError>
    requires term { HasTerm bank.old x }
    requires parts { HasParts bank.old parts.now }
    ensures at { IfOk result (λ t. HasTerm bank.new t × (term_at bank.new t ≡ sums.sum_onto (term_at bank.old x) (parts_at bank.old parts.now))) }
    ensures grown { IsGrown bank.old bank.new }
{
    let mut made = x;
    for part in parts {
        let more = plus(bank, made, *part)?;
        made = more;
    }
    Ok(made)
}

/// Parts as a term.
fn sum_term(bank: &mut Bank, parts: &[Part]) -> Result<TermId, AllocError>
    requires { HasParts bank.old parts.now }
    ensures at { IfOk result (λ t. HasTerm bank.new t × (term_at bank.new t ≡ sums.sum_term (parts_at bank.old parts.now))) }
    ensures grown { IsGrown bank.old bank.new }
{
    match parts {
        [] => bank.number(0),
        [part, parts @ ..] => {
            let first = multiple(bank, *part)?;
            sum_onto(bank, first, parts)
        }
    }
}

/// That parts are at most a number.
fn at_most(bank: &mut Bank, parts: &[Part], k: i128) -> Result<FormulaId, AllocError>
    requires { HasParts bank.old parts.now }
    ensures at { IfOk result (λ f. HasFormula bank.new f × (formula_at bank.new f ≡ shapes.at_most (sums.sum_term (parts_at bank.old parts.now)) (shapes.number k))) }
    ensures grown { IsGrown bank.old bank.new }
{
    let x = sum_term(bank, parts)?;
    let y = bank.number(k)?;
    bank.atom(true, Predicate::AtMost, &[x, y])
}

/// What a sum that is at most 0 gives, divided.
fn bounded(
    alloc: Global,
    bank: &mut Bank,
    d: i128,
    sum: &LinearSum,
) -> Result<Option<FormulaId>, AllocError>
    requires divisor { is_positive d ≡ true }
    requires parts { HasParts bank.old sum.now.parts.items }
    ensures at { IfOk result (λ o. IsFormulaNumber bank.new (sums.bounded d (sum_at bank.old sum.now)) o) }
    ensures grown { IsGrown bank.old bank.new }
{
    let Some(k) = negated(sum.constant) else {
        return Ok(None);
    };
    let Some(parts) = divided(alloc, bank, d, &sum.parts)? else {
        return Ok(None);
    };
    let f = at_most(bank, &parts, floor(k, d))?;
    Ok(Some(f))
}

/// What the weighted sum of known facts gives, divided and rounded down: each part is a fact's place and its weight. None where a fact says
/// nothing of a sum or can't have its weight, where the divisor isn't above 0 or doesn't divide each coefficient, and where a number on
/// the way leaves 128 bits.
pub fn sum(
    alloc: Global,
    bank: &mut Bank,
    known: &[FormulaId],
    parts: &[(usize, i64)],
    divisor: i64,
) -> Result<Option<FormulaId>, AllocError>
    requires { HasFormulas bank.old known.now }
    ensures at { (cs : List ClassTree) → IsBankOf cs bank.old → IfOk result (λ o. IsFormulaNumber bank.new (sums.sum_of cs (formulas_at bank.old known.now) divisor parts.now) o) }
    ensures grown { IsGrown bank.old bank.new }
{
    if divisor <= 0 {
        return Ok(None);
    }
    let Some(total) = weighted(alloc, bank, known, parts)? else {
        return Ok(None);
    };
    bounded(alloc, bank, wide(divisor), &total)
}
