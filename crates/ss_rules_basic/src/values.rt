// What is known of whole numbers and truth values.

ghost use Rattle.std.specs.Prelude.{◌≡◌, ◌≢◌, ◌-◌, pos, neg_ℤ, unsigned_abs, List, IfOk};
ghost use Rattle.ss_core.specs.Tree.{ClassTree};
ghost use Rattle.ss_logic.specs.Rules.{three_ways, two_valued, division, apart_of, bool_of, quorem_of};
ghost use Rattle.ss_terms.specs.Forms.{term_at, terms_at, formula_at, HasTerm, HasTerms, HasFormula, IsGrown, IsBankOf};
ghost use Rattle.ss_terms.specs.Numbered.{IsNumberOf};

use crate::arguments::literal;
use crate::{Claim, Clause, Plan, Slot, fill};
use ss_logic::Sort;
use ss_terms::{Bank, FormulaId, Predicate, Symbol, TermId};
use std::alloc::{AllocError, Global};

// They are equal, or one is below the other.
fn three_ways_at(alloc: Global, b: &mut Bank, x: TermId, y: TermId) -> Result<FormulaId, AllocError>
    requires left { HasTerm b.old x }
    requires right { HasTerm b.old y }
    ensures at { IfOk result (λ f. HasFormula b.new f × (formula_at b.new f ≡ three_ways (term_at b.old x) (term_at b.old y))) }
    ensures grown { IsGrown b.old b.new }
{
    let (x, y) = (Slot::Known(x), Slot::Known(y));
    let plans = [
        Plan::Leaf(Symbol::Number(1)),
        Plan::Two(Symbol::Add, x, Slot::Made(0)),
        Plan::Two(Symbol::Add, y, Slot::Made(0)),
    ];
    let clause = Clause::IfTwo(
        Claim::Not(Predicate::Equal, x, y),
        Claim::Not(Predicate::AtMost, Slot::Made(1), y),
        Claim::Is(Predicate::AtMost, Slot::Made(2), x),
    );
    fill(alloc, b, &plans, &[clause])
}

/// Two whole numbers are equal, or one is below the other. An error is want of memory.
pub fn apart_rule(
    alloc: Global,
    b: &mut Bank,
    arguments: &[TermId],
) -> Result<Option<FormulaId>, AllocError>
    requires { HasTerms b.old arguments.now }
    ensures at { (cs : List ClassTree) → IsBankOf cs b.old → IfOk result (λ o. IsNumberOf b.new o (apart_of cs (terms_at b.old arguments.now))) }
    ensures grown { IsGrown b.old b.new }
{
    let [x, y] = arguments else {
        return Ok(None);
    };
    if !b.have_sorts(&[Sort::Whole, Sort::Whole], &[*x, *y]) {
        return Ok(None);
    }
    let f = three_ways_at(alloc, b, *x, *y)?;
    Ok(Some(f))
}

// One less than the absolute value.
fn most_remainder(d: i128) -> i128
    requires { d ≢ pos 0 }
    ensures { result ≡ pos (unsigned_abs d - 1) }
{
    if d > 0 { d - 1 } else { -(d + 1) }
}

// The negation of that.
fn least_remainder(d: i128) -> i128
    requires { d ≢ pos 0 }
    ensures { result ≡ neg_ℤ (pos (unsigned_abs d - 1)) }
{
    if d > 0 { -(d - 1) } else { d + 1 }
}

// The number is the divisor times the quotient, and the remainder.
fn division_at(alloc: Global, b: &mut Bank, x: TermId, d: i128) -> Result<FormulaId, AllocError>
    requires number { HasTerm b.old x }
    requires divisor { d ≢ pos 0 }
    ensures at { IfOk result (λ f. HasFormula b.new f × (formula_at b.new f ≡ division (term_at b.old x) d)) }
    ensures grown { IsGrown b.old b.new }
{
    let most = most_remainder(d);
    let least = least_remainder(d);
    let x = Slot::Known(x);
    let (divisor, quotient, remainder) = (Slot::Made(0), Slot::Made(1), Slot::Made(2));
    let plans = [
        Plan::Leaf(Symbol::Number(d)),
        Plan::Two(Symbol::Quotient, x, divisor),
        Plan::Two(Symbol::Remainder, x, divisor),
        Plan::Two(Symbol::Multiply, divisor, quotient),
        Plan::Two(Symbol::Add, Slot::Made(3), remainder),
        Plan::Leaf(Symbol::Number(0)),
        Plan::Leaf(Symbol::Number(most)),
        Plan::Leaf(Symbol::Number(least)),
    ];
    let zero = Slot::Made(5);
    let clauses = [
        Clause::Fact(Claim::Is(Predicate::Equal, x, Slot::Made(4))),
        Clause::If(
            Claim::Is(Predicate::AtMost, zero, x),
            Claim::Is(Predicate::AtMost, zero, remainder),
        ),
        Clause::If(
            Claim::Is(Predicate::AtMost, x, zero),
            Claim::Is(Predicate::AtMost, remainder, zero),
        ),
        Clause::Fact(Claim::Is(Predicate::AtMost, remainder, Slot::Made(6))),
        Clause::Fact(Claim::Is(Predicate::AtMost, Slot::Made(7), remainder)),
    ];
    fill(alloc, b, &plans, &clauses)
}

/// A quotient by a literal other than 0, and its remainder. An error is want of memory.
pub fn quorem_rule(
    alloc: Global,
    b: &mut Bank,
    arguments: &[TermId],
) -> Result<Option<FormulaId>, AllocError>
    requires { HasTerms b.old arguments.now }
    ensures at { (cs : List ClassTree) → IsBankOf cs b.old → IfOk result (λ o. IsNumberOf b.new o (quorem_of cs (terms_at b.old arguments.now))) }
    ensures grown { IsGrown b.old b.new }
{
    let [x, y] = arguments else {
        return Ok(None);
    };
    if !b.have_sorts(&[Sort::Whole], &[*x]) {
        return Ok(None);
    }
    let Some(d) = literal(b, *y) else {
        return Ok(None);
    };
    if d == 0 {
        return Ok(None);
    }
    let f = division_at(alloc, b, *x, d)?;
    Ok(Some(f))
}

// It is true or false.
fn two_valued_at(alloc: Global, b: &mut Bank, x: TermId) -> Result<FormulaId, AllocError>
    requires { HasTerm b.old x }
    ensures at { IfOk result (λ f. HasFormula b.new f × (formula_at b.new f ≡ two_valued (term_at b.old x))) }
    ensures grown { IsGrown b.old b.new }
{
    let x = Slot::Known(x);
    let plans = [
        Plan::Leaf(Symbol::Fixed(true)),
        Plan::Leaf(Symbol::Fixed(false)),
    ];
    let clause = Clause::If(
        Claim::Not(Predicate::Equal, x, Slot::Made(0)),
        Claim::Is(Predicate::Equal, x, Slot::Made(1)),
    );
    fill(alloc, b, &plans, &[clause])
}

/// A truth value is true or false. An error is want of memory.
pub fn bool_rule(
    alloc: Global,
    b: &mut Bank,
    arguments: &[TermId],
) -> Result<Option<FormulaId>, AllocError>
    requires { HasTerms b.old arguments.now }
    ensures at { (cs : List ClassTree) → IsBankOf cs b.old → IfOk result (λ o. IsNumberOf b.new o (bool_of cs (terms_at b.old arguments.now))) }
    ensures grown { IsGrown b.old b.new }
{
    let [x] = arguments else {
        return Ok(None);
    };
    if !b.have_sorts(&[Sort::Truth], &[*x]) {
        return Ok(None);
    }
    let f = two_valued_at(alloc, b, *x)?;
    Ok(Some(f))
}
