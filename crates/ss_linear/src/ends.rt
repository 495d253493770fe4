// The two terms of which a sum is the difference.

ghost use Rattle.std.specs.Prelude.{◌≡◌, true, false, ◌&&◌, ◌||◌, ◌^◌, nat_lt, unsigned_abs, [], ◌∷◌, IfOk, IfSome, IfNone};
ghost use Rattle.ss_terms.specs.Forms.{Forms};
ghost use Rattle.ss_linear_sums.specs.Linear as linear;
ghost use Rattle.ss_linear_sums.specs.Linear.{HasParts};
ghost use Rattle.ss_linear_rules.specs.Two as two;
ghost use Rattle.ss_linear.specs.Contradictions.{AreEnds};

use crate::facts::parts_left;
use ss_linear_sums::{LinearSum, Part};
use ss_terms::TermId;
use std::alloc::{AllocError, Global};

/// A term with coefficient 1, and one with coefficient -1, where a sum has them.
#[derive(Clone, Copy)]
pub(crate) struct Ends {
    pub(crate) plus: Option<TermId>,
    pub(crate) minus: Option<TermId>,
}

/// Whether a number is 1.
pub(crate) fn is_one(n: i128) -> bool
    ensures { result ≡ two.is_one n }
{
    n == 1
}

fn is_less_one(n: i128) -> bool
    ensures { result ≡ two.is_less_one n }
{
    n == -1
}

// Whether a number is below 2 ^ 64 in size.
fn is_small(n: i128) -> bool
    ensures { result ≡ nat_lt (unsigned_abs n) (2 ^ 64) }
{
    n.unsigned_abs() < 1 << 64
}

// The one term of a part.
fn one_end(p: Part) -> Option<Ends>
    ensures none { (b : Forms) → IfNone result (two.are_opposite (linear.parts_at b (p ∷ [])) ≡ false) }
    ensures some { (b : Forms) → HasParts b (p ∷ []) → IfSome result (λ e. (two.are_opposite (linear.parts_at b (p ∷ [])) ≡ true) × AreEnds b (linear.parts_at b (p ∷ [])) e) }
{
    if is_one(p.coefficient) {
        Some(Ends {
            plus: Some(p.term),
            minus: None,
        })
    } else if is_less_one(p.coefficient) {
        Some(Ends {
            plus: None,
            minus: Some(p.term),
        })
    } else {
        None
    }
}

// The terms of two parts, of which the first has coefficient 1 and the second -1.
fn two_ends(p: Part, q: Part) -> Option<Ends>
    ensures none { (b : Forms) → IfNone result ((two.is_one p.coefficient && two.is_less_one q.coefficient) ≡ false) }
    ensures some { (b : Forms) → HasParts b (p ∷ q ∷ []) → IfSome result (λ e. ((two.is_one p.coefficient && two.is_less_one q.coefficient) ≡ true) × AreEnds b (linear.parts_at b (p ∷ q ∷ [])) e) }
{
    if is_one(p.coefficient) && is_less_one(q.coefficient) {
        Some(Ends {
            plus: Some(p.term),
            minus: Some(q.term),
        })
    } else {
        None
    }
}

// The terms of two parts, in either order.
fn either_ends(p: Part, q: Part) -> Option<Ends>
    ensures none { (b : Forms) → IfNone result (two.are_opposite (linear.parts_at b (p ∷ q ∷ [])) ≡ false) }
    ensures some { (b : Forms) → HasParts b (p ∷ q ∷ []) → IfSome result (λ e. (two.are_opposite (linear.parts_at b (p ∷ q ∷ [])) ≡ true) × AreEnds b (linear.parts_at b (p ∷ q ∷ [])) e) }
{
    match two_ends(p, q) {
        Some(ends) => Some(ends),
        None => two_ends(q, p),
    }
}

// The terms of two parts and others.
fn ends_of_two(p: Part, q: Part, rest: &[Part]) -> Option<Ends>
    ensures none { (b : Forms) → IfNone result (two.are_opposite (linear.parts_at b (p ∷ q ∷ rest.now)) ≡ false) }
    ensures some { (b : Forms) → HasParts b (p ∷ q ∷ rest.now) → IfSome result (λ e. (two.are_opposite (linear.parts_at b (p ∷ q ∷ rest.now)) ≡ true) × AreEnds b (linear.parts_at b (p ∷ q ∷ rest.now)) e) }
{
    match rest {
        [] => either_ends(p, q),
        [_, ..] => None,
    }
}

// The terms of a part and others.
fn ends_of_one(p: Part, rest: &[Part]) -> Option<Ends>
    ensures none { (b : Forms) → IfNone result (two.are_opposite (linear.parts_at b (p ∷ rest.now)) ≡ false) }
    ensures some { (b : Forms) → HasParts b (p ∷ rest.now) → IfSome result (λ e. (two.are_opposite (linear.parts_at b (p ∷ rest.now)) ≡ true) × AreEnds b (linear.parts_at b (p ∷ rest.now)) e) }
{
    match rest {
        [] => one_end(p),
        [q, rest @ ..] => ends_of_two(p, *q, rest),
    }
}

// The terms of parts that have coefficients.
fn ends_of(parts: &[Part]) -> Option<Ends>
    ensures none { (b : Forms) → IfNone result (two.are_opposite (linear.parts_at b parts.now) ≡ false) }
    ensures some { (b : Forms) → HasParts b parts.now → IfSome result (λ e. (two.are_opposite (linear.parts_at b parts.now) ≡ true) × AreEnds b (linear.parts_at b parts.now) e) }
{
    match parts {
        [] => Some(Ends {
            plus: None,
            minus: None,
        }),
        [p, rest @ ..] => ends_of_one(*p, rest),
    }
}

/// The terms of which a sum is the difference, where it is one, with a number below 2 ^ 64 in size.
pub(crate) fn find_ends(alloc: Global, sum: &LinearSum) -> Result<Option<Ends>, AllocError>
    ensures none { (b : Forms) → IfOk result (λ o. IfNone o ((two.are_opposite (two.parts_left (linear.parts_at b sum.now.parts.items)) && nat_lt (unsigned_abs sum.now.constant) (2 ^ 64)) ≡ false)) }
    ensures some { (b : Forms) → HasParts b sum.now.parts.items → IfOk result (λ o. IfSome o (λ e. ((two.are_opposite (two.parts_left (linear.parts_at b sum.now.parts.items)) && nat_lt (unsigned_abs sum.now.constant) (2 ^ 64)) ≡ true) × AreEnds b (linear.parts_at b sum.now.parts.items) e)) }
{
    if is_small(sum.constant) {
        let left = parts_left(alloc, &sum.parts)?;
        Ok(ends_of(&left))
    } else {
        Ok(None)
    }
}
