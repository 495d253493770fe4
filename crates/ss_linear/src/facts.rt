// What the known facts say of sums.

ghost use Rattle.std.specs.Prelude.{◌≡◌, ◌+ℤ◌, List, [], ◌∷◌, ◌++◌, OnOk, IfOk, IfSome};
ghost use Rattle.ss_core.specs.Tree.{ClassTree};
ghost use Rattle.ss_logic.specs.Formulas.{Formula};
ghost use Rattle.ss_logic.specs.Sums as sums;
ghost use Rattle.ss_terms.specs.Forms.{Forms, term_at, formulas_at, HasTerm, HasFormulas, IsBankOf};
ghost use Rattle.ss_linear_sums.specs.Linear as linear;
ghost use Rattle.ss_linear_sums.specs.Linear.{HasParts};
ghost use Rattle.ss_linear_rules.specs.Two as two;
ghost use Rattle.ss_linear_rules.specs.Few.{one_at};
ghost use Rattle.ss_linear_rules.specs.Valued as valued;
ghost use Rattle.ss_linear.specs.Contradictions.{equalities_at, HasPairs, HaveParts};
ghost use Rattle.ss_linear.specs.Results.{AreFacts};

use ss_linear_sums::{Part, SumFact, SumTable, equality_fact, sum_fact};
use ss_terms::{Bank, FormulaId, TermId};
use std::alloc::{AllocError, Global};

/// What each formula says of a sum, if anything.
pub(crate) fn read_formulas(
    alloc: Global,
    bank: &Bank,
    known: &[FormulaId],
) -> Result<Vec<Option<SumFact>>, AllocError>
    requires { HasFormulas bank.now known.now }
    ensures parts { IfOk result (λ v. HaveParts bank.now v.items) }
    ensures read { (cs : List ClassTree) → IsBankOf cs bank.now → IfOk result (λ v. AreFacts cs bank.now (formulas_at bank.now known.now) v.items) }
{
    let mut table = SumTable::new(alloc);
    let mut facts = Vec::new(alloc);
    for f in known {
        let fact = sum_fact(alloc, bank, &mut table, *f)?;
        facts.push(fact)?;
    }
    Ok(facts)
}

// Adds what the equality of each pair of terms says.
fn add_equalities(
    alloc: Global,
    bank: &Bank,
    equalities: &[(TermId, TermId)],
    facts: &mut Vec<Option<SumFact>>,
) -> Result<(), AllocError>
    requires terms { HasPairs bank.now equalities.now }
    requires parts { HaveParts bank.now facts.old.items }
    ensures parts { OnOk result (HaveParts bank.now facts.new.items) }
    ensures read { (cs : List ClassTree) (known : List Formula) → IsBankOf cs bank.now → AreFacts cs bank.now known facts.old.items → OnOk result (AreFacts cs bank.now (known ++ equalities_at bank.now equalities.now) facts.new.items) }
{
    let mut table = SumTable::new(alloc);
    for pair in equalities {
        let fact = equality_fact(alloc, bank, &mut table, pair.0, pair.1)?;
        facts.push(fact)?;
    }
    Ok(())
}

/// The same, and after it what the equality of each pair of terms says.
pub(crate) fn read_all(
    alloc: Global,
    bank: &Bank,
    known: &[FormulaId],
    equalities: &[(TermId, TermId)],
) -> Result<Vec<Option<SumFact>>, AllocError>
    requires known { HasFormulas bank.now known.now }
    requires terms { HasPairs bank.now equalities.now }
    ensures parts { IfOk result (λ v. HaveParts bank.now v.items) }
    ensures read { (cs : List ClassTree) → IsBankOf cs bank.now → IfOk result (λ v. AreFacts cs bank.now (formulas_at bank.now known.now ++ equalities_at bank.now equalities.now) v.items) }
{
    let mut facts = read_formulas(alloc, bank, known)?;
    add_equalities(alloc, bank, equalities, &mut facts)?;
    Ok(facts)
}

/// The number with more bits.
pub(crate) fn wide(n: i64) -> i128
    ensures { result ≡ n }
{
    n as i128
}

/// Whether a number is 0.
pub(crate) fn is_zero(n: i128) -> bool
    ensures { result ≡ sums.is_zero n }
{
    n == 0
}

/// Whether a part has no coefficient.
pub(crate) fn is_zero_part(part: Part) -> bool
    ensures { result ≡ sums.is_zero part.coefficient }
{
    is_zero(part.coefficient)
}

// Adds a part, where it has a coefficient.
fn push_left(left: &mut Vec<Part>, part: Part) -> Result<(), AllocError>
    ensures left { (b : Forms) → OnOk result (linear.parts_at b left.new.items ≡ linear.parts_at b left.old.items ++ two.parts_left (linear.parts_at b (part ∷ []))) }
    ensures has { (b : Forms) → HasParts b (part ∷ []) → HasParts b left.old.items → OnOk result (HasParts b left.new.items) }
{
    if is_zero(part.coefficient) {
        return Ok(());
    }
    left.push(part)?;
    Ok(())
}

/// The parts with a coefficient.
pub(crate) fn parts_left(alloc: Global, parts: &[Part]) -> Result<Vec<Part>, AllocError>
    ensures left { (b : Forms) → IfOk result (λ v. linear.parts_at b v.items ≡ two.parts_left (linear.parts_at b parts.now)) }
    ensures has { (b : Forms) → HasParts b parts.now → IfOk result (λ v. HasParts b v.items) }
{
    let mut left = Vec::new(alloc);
    for part in parts {
        push_left(&mut left, *part)?;
    }
    Ok(left)
}

// A number, and the coefficient of a part where it is one of a term. None where that leaves 128 bits.
fn with_part(bank: &Bank, sum: i128, part: Part, t: TermId) -> Option<i128>
    requires part { HasParts bank.now (part ∷ []) }
    requires term { HasTerm bank.now t }
    ensures { IfSome result (λ c. c ≡ sum +ℤ valued.parts_at (one_at (term_at bank.now t)) (linear.parts_at bank.now (part ∷ []))) }
{
    if bank.is_same_term(part.term, t) {
        sum.checked_add(part.coefficient)
    } else {
        Some(sum)
    }
}

/// The coefficient of a term among parts. None where a sum leaves 128 bits.
pub(crate) fn coefficient_of(bank: &Bank, parts: &[Part], t: TermId) -> Option<i128>
    requires parts { HasParts bank.now parts.now }
    requires term { HasTerm bank.now t }
    ensures { IfSome result (λ c. c ≡ valued.parts_at (one_at (term_at bank.now t)) (linear.parts_at bank.now parts.now)) }
{
    let mut sum = 0i128;
    for part in parts {
        sum = with_part(bank, sum, *part, t)?;
    }
    Some(sum)
}
