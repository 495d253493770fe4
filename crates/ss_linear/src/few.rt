// Contradictions of one or two facts.

ghost use Rattle.std.specs.Prelude.{◌≡◌, ◌⊎◌, ◌<◌, ℕ, ℤ, pos, ◌+ℤ◌, ◌*ℤ◌, ◌<ℤ◌, ◌≤ℤ◌, List, [], ◌∷◌, length, Some, IsTrue, IsFalse, IfOk, IfSome};
ghost use Rattle.ss_core.specs.Tree.{ClassTree};
ghost use Rattle.ss_logic.specs.Formulas.{Formula};
ghost use Rattle.ss_terms.specs.Forms.{Forms, term_at};
ghost use Rattle.ss_linear_sums.specs.Linear as linear;
ghost use Rattle.ss_linear_sums.specs.Linear.{HasParts, IsFactOf};
ghost use Rattle.ss_linear_rules.specs.Two as two;
ghost use Rattle.ss_linear_rules.specs.Two.{IsUnit};
ghost use Rattle.ss_linear_rules.specs.Few.{IsNone, AreZero, one_at};
ghost use Rattle.ss_linear_rules.specs.Valued.{parts_at};
ghost use Rattle.ss_linear.specs.Contradictions.{HaveParts, IsTested, AreWeights, IsWeight, IsFreeOf, IsFreeAlone, IsFreeOfAll, IsClear, IsContradictionOr};
ghost use Rattle.ss_linear_network.specs.Made.{AreNodesOf, numbers_at};
ghost use Rattle.ss_linear.specs.Results.{AreFacts};

use crate::adding::weighted;
use crate::facts::{coefficient_of, is_zero, is_zero_part, wide};
use crate::meeting::is_met;
use ss_linear_network::Numbers;
use ss_linear_sums::{LinearSum, Part, SumFact};
use ss_terms::Bank;
use std::alloc::{AllocError, Global};

// The facts among which contradictions are looked for, over a bank.
#[derive(Clone, Copy)]
struct FactContext<'a> {
    alloc: Global,
    bank: &'a Bank,
    facts: &'a [Option<SumFact>],
}

// A number with its weight. None where that leaves 128 bits.
fn times(w: i64, n: i128) -> Option<i128>
    ensures { IfSome result (λ z. z ≡ w *ℤ n) }
{
    wide(w).checked_mul(n)
}

// Two numbers with weights, together. None where a number leaves 128 bits.
fn together(a: i128, w: i64, b: i128, u: i64) -> Option<i128>
    ensures { IfSome result (λ z. z ≡ (w *ℤ a) +ℤ (u *ℤ b)) }
{
    match times(w, a) {
        Some(x) => match times(u, b) {
            Some(y) => x.checked_add(y),
            None => None,
        },
        None => None,
    }
}

// Whether two numbers with weights may be above 0 together.
fn may_be_above(a: i128, w: i64, b: i128, u: i64) -> bool
    ensures { IsFalse result → ((w *ℤ a) +ℤ (u *ℤ b)) ≤ℤ pos 0 }
{
    match together(a, w, b, u) {
        Some(sum) => sum > 0,
        None => true,
    }
}

// Whether a part may cancel in the sum of two facts with weights.
fn may_cancel(bank: &Bank, p: Part, a: &[Part], w: i64, b: &[Part], u: i64) -> bool
    requires part { HasParts bank.now (p ∷ []) }
    requires first { HasParts bank.now a.now }
    requires second { HasParts bank.now b.now }
    ensures { IsFalse result → ((w *ℤ parts_at (one_at (term_at bank.now p.term)) (linear.parts_at bank.now a.now)) +ℤ (u *ℤ parts_at (one_at (term_at bank.now p.term)) (linear.parts_at bank.now b.now))) ≡ pos 0 → ⊥ }
{
    match (
        coefficient_of(bank, a, p.term),
        coefficient_of(bank, b, p.term),
    ) {
        (Some(c), Some(d)) => match together(c, w, d, u) {
            Some(sum) => is_zero(sum),
            None => true,
        },
        _ => true,
    }
}

// Whether two numbers are of one size.
fn are_alike(c: i128, d: i128) -> bool
    ensures { (w u : ℤ) → IsUnit w → IsUnit u → IsFalse result → ((w *ℤ c) +ℤ (u *ℤ d)) ≡ pos 0 → ⊥ }
{
    c.unsigned_abs() == d.unsigned_abs()
}

// Whether a part may cancel in the sum of two facts with any weights.
fn may_match(bank: &Bank, p: Part, a: &[Part], b: &[Part]) -> bool
    requires part { HasParts bank.now (p ∷ []) }
    requires first { HasParts bank.now a.now }
    requires second { HasParts bank.now b.now }
    ensures { (w u : ℤ) → IsUnit w → IsUnit u → IsFalse result → ((w *ℤ parts_at (one_at (term_at bank.now p.term)) (linear.parts_at bank.now a.now)) +ℤ (u *ℤ parts_at (one_at (term_at bank.now p.term)) (linear.parts_at bank.now b.now))) ≡ pos 0 → ⊥ }
{
    match (
        coefficient_of(bank, a, p.term),
        coefficient_of(bank, b, p.term),
    ) {
        (Some(c), Some(d)) => are_alike(c, d),
        _ => true,
    }
}

// The first part that counts.
fn first_left(parts: &[Part]) -> Option<Part>
    ensures { (b : Forms) → HasParts b parts.now → IfSome result (λ p. HasParts b (p ∷ [])) }
{
    for p in parts {
        if !is_zero(p.coefficient) {
            return Some(*p);
        }
    }
    None
}

// Whether two facts with weights may be a contradiction, by their numbers and the first part that counts.
fn may_contradict(bank: &Bank, a: &SumFact, w: i64, b: &SumFact, u: i64) -> bool
    requires first { HasParts bank.now a.now.sum.parts.items }
    requires second { HasParts bank.now b.now.sum.parts.items }
    ensures { (cs : List ClassTree) (known : List Formula) (i j : ℕ) → two.fact_at cs known i ≡ Some (linear.fact_at bank.now a.now) → two.fact_at cs known j ≡ Some (linear.fact_at bank.now b.now) → IsFalse result → IsNone cs known ((i, w) ∷ (j, u) ∷ []) }
{
    if !may_be_above(a.sum.constant, w, b.sum.constant, u) {
        return false;
    }
    match first_left(&a.sum.parts) {
        Some(p) => may_cancel(bank, p, &a.sum.parts, w, &b.sum.parts, u),
        None => true,
    }
}

// Whether two facts may be a contradiction with any weights, by the first part that counts.
fn may_meet(bank: &Bank, a: &SumFact, b: &SumFact) -> bool
    requires first { HasParts bank.now a.now.sum.parts.items }
    requires second { HasParts bank.now b.now.sum.parts.items }
    ensures { (cs : List ClassTree) (known : List Formula) (i j : ℕ) → two.fact_at cs known i ≡ Some (linear.fact_at bank.now a.now) → two.fact_at cs known j ≡ Some (linear.fact_at bank.now b.now) → (w u : ℤ) → IsUnit w → IsUnit u → IsFalse result → IsNone cs known ((i, w) ∷ (j, u) ∷ []) }
{
    match first_left(&a.sum.parts) {
        Some(p) => may_match(bank, p, &a.sum.parts, &b.sum.parts),
        None => true,
    }
}

// Whether no part has a coefficient.
fn are_zero(parts: &[Part]) -> bool
    ensures zero { (b : Forms) → IsTrue result → AreZero (linear.parts_at b parts.now) }
    ensures other { (b : Forms) → IsFalse result → AreZero (linear.parts_at b parts.now) → ⊥ }
{
    for p in parts {
        if !is_zero_part(*p) {
            return false;
        }
    }
    true
}

/// Whether a sum without parts is above 0.
pub(crate) fn is_false(sum: &LinearSum) -> bool
    ensures parts { (b : Forms) → IsTrue result → AreZero (linear.parts_at b sum.now.parts.items) }
    ensures above { IsTrue result → pos 0 <ℤ sum.now.constant }
    ensures other { (b : Forms) → IsFalse result → AreZero (linear.parts_at b sum.now.parts.items) → pos 0 <ℤ sum.now.constant → ⊥ }
{
    if are_zero(&sum.parts) {
        sum.constant > 0
    } else {
        false
    }
}

// Whether the sum of known facts with these weights is a contradiction.
fn is_contradiction(context: &FactContext<'_>, parts: &[(usize, i64)]) -> Result<bool, AllocError>
    requires { HaveParts context.now.bank.now context.now.facts.now }
    ensures { (cs : List ClassTree) (known : List Formula) → AreFacts cs context.now.bank.now known context.now.facts.now → IfOk result (IsTested cs known parts.now) }
{
    let found = weighted(context.alloc, context.bank, context.facts, parts)?;
    match found {
        Some(sum) => Ok(is_false(&sum)),
        None => Ok(false),
    }
}

// Whether the sum of two facts with these weights is a contradiction.
fn is_pair(
    context: &FactContext<'_>,
    a: &SumFact,
    b: &SumFact,
    first: (usize, i64),
    second: (usize, i64),
) -> Result<bool, AllocError>
    requires facts { HaveParts context.now.bank.now context.now.facts.now }
    requires parts { HasParts context.now.bank.now a.now.sum.parts.items }
    requires others { HasParts context.now.bank.now b.now.sum.parts.items }
    ensures { (cs : List ClassTree) (known : List Formula) → AreFacts cs context.now.bank.now known context.now.facts.now → two.fact_at cs known first.0 ≡ Some (linear.fact_at context.now.bank.now a.now) → two.fact_at cs known second.0 ≡ Some (linear.fact_at context.now.bank.now b.now) → IfOk result (IsTested cs known (first ∷ second ∷ [])) }
{
    if may_contradict(context.bank, a, first.1, b, second.1) {
        is_contradiction(context, &[first, second])
    } else {
        Ok(false)
    }
}

// The weights of two facts with which their sum is a contradiction.
fn of_two(
    context: &FactContext<'_>,
    a: &SumFact,
    b: &SumFact,
    i: usize,
    j: usize,
) -> Result<Option<(i64, i64)>, AllocError>
    requires facts { HaveParts context.now.bank.now context.now.facts.now }
    requires parts { HasParts context.now.bank.now a.now.sum.parts.items }
    requires others { HasParts context.now.bank.now b.now.sum.parts.items }
    ensures { (cs : List ClassTree) (known : List Formula) → AreFacts cs context.now.bank.now known context.now.facts.now → two.fact_at cs known i ≡ Some (linear.fact_at context.now.bank.now a.now) → two.fact_at cs known j ≡ Some (linear.fact_at context.now.bank.now b.now) → IfOk result (AreWeights cs known i j) }
{
    if is_pair(context, a, b, (i, 1), (j, 1))? {
        return Ok(Some((1, 1)));
    }
    if is_pair(context, a, b, (i, 1), (j, -1))? {
        return Ok(Some((1, -1)));
    }
    if is_pair(context, a, b, (i, -1), (j, 1))? {
        return Ok(Some((-1, 1)));
    }
    if is_pair(context, a, b, (i, -1), (j, -1))? {
        return Ok(Some((-1, -1)));
    }
    Ok(None)
}

// The weight of a fact with which it is a contradiction by itself.
fn of_one(context: &FactContext<'_>, i: usize) -> Result<Option<i64>, AllocError>
    requires { HaveParts context.now.bank.now context.now.facts.now }
    ensures { (cs : List ClassTree) (known : List Formula) → AreFacts cs context.now.bank.now known context.now.facts.now → IfOk result (IsWeight cs known i) }
{
    if is_contradiction(context, &[(i, 1)])? {
        return Ok(Some(1));
    }
    if is_contradiction(context, &[(i, -1)])? {
        return Ok(Some(-1));
    }
    Ok(None)
}

// One fact with its weight.
fn one(alloc: Global, first: (usize, i64)) -> Result<Vec<(usize, i64)>, AllocError>
    ensures { IfOk result (λ v. v.items ≡ first ∷ []) }
{
    let mut parts = Vec::new(alloc);
    parts.push(first)?;
    Ok(parts)
}

// Two facts with their weights.
fn pair(
    alloc: Global,
    i: usize,
    j: usize,
    weights: (i64, i64),
) -> Result<Vec<(usize, i64)>, AllocError>
    ensures { IfOk result (λ v. v.items ≡ (i, weights.0) ∷ (j, weights.1) ∷ []) }
{
    let mut parts = Vec::new(alloc);
    parts.push((i, weights.0))?;
    parts.push((j, weights.1))?;
    Ok(parts)
}

// A contradiction of two facts.
fn of_facts(
    context: &FactContext<'_>,
    a: &SumFact,
    b: &SumFact,
    i: usize,
    j: usize,
) -> Result<Option<Vec<(usize, i64)>>, AllocError>
    requires facts { HaveParts context.now.bank.now context.now.facts.now }
    requires parts { HasParts context.now.bank.now a.now.sum.parts.items }
    requires others { HasParts context.now.bank.now b.now.sum.parts.items }
    ensures { (cs : List ClassTree) (known : List Formula) → AreFacts cs context.now.bank.now known context.now.facts.now → two.fact_at cs known i ≡ Some (linear.fact_at context.now.bank.now a.now) → two.fact_at cs known j ≡ Some (linear.fact_at context.now.bank.now b.now) → IfOk result (IsContradictionOr cs known (IsFreeOf cs known i j)) }
{
    if !may_meet(context.bank, a, b) {
        return Ok(None);
    }
    match of_two(context, a, b, i, j)? {
        Some(weights) => Ok(Some(pair(context.alloc, i, j, weights)?)),
        None => Ok(None),
    }
}

// A contradiction of a fact and the one at another place.
fn with_other(
    context: &FactContext<'_>,
    a: &SumFact,
    other: &Option<SumFact>,
    i: usize,
    j: usize,
) -> Result<Option<Vec<(usize, i64)>>, AllocError>
    requires facts { HaveParts context.now.bank.now context.now.facts.now }
    requires parts { HasParts context.now.bank.now a.now.sum.parts.items }
    requires others { IfSome other.now (λ f. HasParts context.now.bank.now f.sum.parts.items) }
    ensures { (cs : List ClassTree) (known : List Formula) → AreFacts cs context.now.bank.now known context.now.facts.now → two.fact_at cs known i ≡ Some (linear.fact_at context.now.bank.now a.now) → IsFactOf context.now.bank.now other.now (two.fact_at cs known j) → IfOk result (IsContradictionOr cs known (IsFreeOf cs known i j)) }
{
    match other {
        Some(b) => of_facts(context, a, b, i, j),
        None => Ok(None),
    }
}

// A contradiction of a fact and another one.
fn with_second(
    context: &FactContext<'_>,
    i: usize,
    a: &SumFact,
) -> Result<Option<Vec<(usize, i64)>>, AllocError>
    requires facts { HaveParts context.now.bank.now context.now.facts.now }
    requires parts { HasParts context.now.bank.now a.now.sum.parts.items }
    ensures { (cs : List ClassTree) (known : List Formula) → AreFacts cs context.now.bank.now known context.now.facts.now → two.fact_at cs known i ≡ Some (linear.fact_at context.now.bank.now a.now) → IfOk result (IsContradictionOr cs known ((j : ℕ) → IsFreeOf cs known i j)) }
{
    let facts = context.facts;
    for (j, other) in facts.iter().enumerate() {
        match with_other(context, a, other, i, j)? {
            Some(parts) => return Ok(Some(parts)),
            None => {}
        }
    }
    Ok(None)
}

// A contradiction of the fact at another place and this one.
fn before(
    context: &FactContext<'_>,
    a: &SumFact,
    other: &Option<SumFact>,
    i: usize,
    j: usize,
) -> Result<Option<Vec<(usize, i64)>>, AllocError>
    requires facts { HaveParts context.now.bank.now context.now.facts.now }
    requires parts { HasParts context.now.bank.now a.now.sum.parts.items }
    requires others { IfSome other.now (λ f. HasParts context.now.bank.now f.sum.parts.items) }
    ensures { (cs : List ClassTree) (known : List Formula) → AreFacts cs context.now.bank.now known context.now.facts.now → two.fact_at cs known i ≡ Some (linear.fact_at context.now.bank.now a.now) → IsFactOf context.now.bank.now other.now (two.fact_at cs known j) → IfOk result (IsContradictionOr cs known (IsFreeOf cs known j i)) }
{
    match other {
        Some(b) => of_facts(context, b, a, j, i),
        None => Ok(None),
    }
}

// A contradiction of another fact and this one.
fn with_first(
    context: &FactContext<'_>,
    i: usize,
    a: &SumFact,
) -> Result<Option<Vec<(usize, i64)>>, AllocError>
    requires facts { HaveParts context.now.bank.now context.now.facts.now }
    requires parts { HasParts context.now.bank.now a.now.sum.parts.items }
    ensures { (cs : List ClassTree) (known : List Formula) → AreFacts cs context.now.bank.now known context.now.facts.now → two.fact_at cs known i ≡ Some (linear.fact_at context.now.bank.now a.now) → IfOk result (IsContradictionOr cs known ((j : ℕ) → IsFreeOf cs known j i)) }
{
    let facts = context.facts;
    for (j, other) in facts.iter().enumerate() {
        match before(context, a, other, i, j)? {
            Some(parts) => return Ok(Some(parts)),
            None => {}
        }
    }
    Ok(None)
}

// A contradiction of a fact and another one, in any order.
fn with_any(
    context: &FactContext<'_>,
    i: usize,
    a: &SumFact,
) -> Result<Option<Vec<(usize, i64)>>, AllocError>
    requires facts { HaveParts context.now.bank.now context.now.facts.now }
    requires parts { HasParts context.now.bank.now a.now.sum.parts.items }
    ensures { (cs : List ClassTree) (known : List Formula) → AreFacts cs context.now.bank.now known context.now.facts.now → two.fact_at cs known i ≡ Some (linear.fact_at context.now.bank.now a.now) → IfOk result (IsContradictionOr cs known (IsFreeOfAll cs known i)) }
{
    match with_second(context, i, a)? {
        Some(parts) => Ok(Some(parts)),
        None => with_first(context, i, a),
    }
}

// A contradiction of a fact alone, or with another one.
fn of_other(
    context: &FactContext<'_>,
    i: usize,
    a: &SumFact,
) -> Result<Option<Vec<(usize, i64)>>, AllocError>
    requires facts { HaveParts context.now.bank.now context.now.facts.now }
    requires parts { HasParts context.now.bank.now a.now.sum.parts.items }
    ensures { (cs : List ClassTree) (known : List Formula) → AreFacts cs context.now.bank.now known context.now.facts.now → two.fact_at cs known i ≡ Some (linear.fact_at context.now.bank.now a.now) → IfOk result (IsContradictionOr cs known (IsFreeAlone cs known i × IsFreeOfAll cs known i)) }
{
    match of_one(context, i)? {
        Some(w) => Ok(Some(one(context.alloc, (i, w))?)),
        None => with_any(context, i, a),
    }
}

// The same of a fact that these numbers may meet. Then it is no contradiction with others that they meet.
fn of_fact(
    context: &FactContext<'_>,
    i: usize,
    a: &SumFact,
    numbers: &Numbers,
) -> Result<Option<Vec<(usize, i64)>>, AllocError>
    requires facts { HaveParts context.now.bank.now context.now.facts.now }
    requires nodes { AreNodesOf context.now.bank.now numbers.now.nodes }
    requires parts { HasParts context.now.bank.now a.now.sum.parts.items }
    ensures { (cs : List ClassTree) (known : List Formula) → AreFacts cs context.now.bank.now known context.now.facts.now → two.fact_at cs known i ≡ Some (linear.fact_at context.now.bank.now a.now) → IfOk result (IsContradictionOr cs known (IsClear cs known (numbers_at context.now.bank.now numbers.now) i)) }
{
    if is_met(context.bank, numbers, a) {
        Ok(None)
    } else {
        of_other(context, i, a)
    }
}

// A contradiction of the fact at a place alone, or with another one.
fn of_place(
    context: &FactContext<'_>,
    i: usize,
    first: &Option<SumFact>,
    numbers: &Numbers,
) -> Result<Option<Vec<(usize, i64)>>, AllocError>
    requires facts { HaveParts context.now.bank.now context.now.facts.now }
    requires nodes { AreNodesOf context.now.bank.now numbers.now.nodes }
    requires first { IfSome first.now (λ f. HasParts context.now.bank.now f.sum.parts.items) }
    ensures { (cs : List ClassTree) (known : List Formula) → AreFacts cs context.now.bank.now known context.now.facts.now → IsFactOf context.now.bank.now first.now (two.fact_at cs known i) → IfOk result (IsContradictionOr cs known (IsClear cs known (numbers_at context.now.bank.now numbers.now) i)) }
{
    match first {
        Some(a) => of_fact(context, i, a, numbers),
        None => Ok(None),
    }
}

/// One or two known facts and weights with which their sum is a contradiction. None only where there are no such but of
/// facts that these numbers meet.
pub(crate) fn of_few(
    alloc: Global,
    bank: &Bank,
    facts: &[Option<SumFact>],
    numbers: &Numbers,
) -> Result<Option<Vec<(usize, i64)>>, AllocError>
    requires facts { HaveParts bank.now facts.now }
    requires nodes { AreNodesOf bank.now numbers.now.nodes }
    ensures { (cs : List ClassTree) (known : List Formula) → AreFacts cs bank.now known facts.now → IfOk result (IsContradictionOr cs known ((i : ℕ) → IsClear cs known (numbers_at bank.now numbers.now) i)) }
{
    let context = FactContext { alloc, bank, facts };
    for (i, first) in facts.iter().enumerate() {
        match of_place(&context, i, first, numbers)? {
            Some(parts) => return Ok(Some(parts)),
            None => {}
        }
    }
    Ok(None)
}
