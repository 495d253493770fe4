// What formulas say of sums.

ghost use Rattle.std.specs.Prelude.{◌≡◌, pos, List, [], ◌∷◌, length, Option, Some, true, IfOk, IfSome};
ghost use Rattle.ss_core.specs.Tree.{ClassTree};
ghost use Rattle.ss_logic.specs.Terms.{terms_from};
ghost use Rattle.ss_logic.specs.Formulas as logic;
ghost use Rattle.ss_logic.specs.Shapes.{equal};
ghost use Rattle.ss_logic.specs.Sums as sums;
ghost use Rattle.ss_terms.specs.Forms.{Forms, predicate_of, term_at, terms_at, formula_at, HasTerm, HasTerms, HasFormula, IsBankOf};
ghost use Rattle.ss_linear_sums.specs.Linear.{HasParts, IsSumOf, IsFactOf};
ghost use Rattle.ss_linear_sums.specs.Table.{AreKept};
ghost use Rattle.ss_linear_sums.specs.Readings.{comparison_of, fact_from, IsCompared};

use crate::forms::{LinearSum, SumFact, number_sum};
use crate::summed::{added, both};
use crate::table::SumTable;
use ss_logic::Sort;
use ss_terms::{Bank, Formula, FormulaId, Predicate, TermId};
use std::alloc::{AllocError, Global};

/// How two whole numbers are compared: the first is at most the second, or above it, or they are equal.
#[derive(Clone, Copy)]
pub enum Comparison {
    AtMost,
    Above,
    Equal,
}

/// Two terms that are compared.
#[derive(Clone, Copy)]
pub struct Compared {
    pub comparison: Comparison,
    pub left: TermId,
    pub right: TermId,
}

fn comparison_by(holds: bool, predicate: Predicate) -> Option<Comparison>
    ensures { result ≡ comparison_of holds predicate }
{
    match predicate {
        Predicate::AtMost => {
            if holds {
                Some(Comparison::AtMost)
            } else {
                Some(Comparison::Above)
            }
        }
        Predicate::Equal => { if holds { Some(Comparison::Equal) } else { None } }
        _ => None,
    }
}

/// An equality, where it is of whole numbers.
fn equality(bank: &Bank, left: TermId, right: TermId) -> Option<Compared>
    requires left { HasTerm bank.now left }
    requires right { HasTerm bank.now right }
    ensures terms { IfSome result (λ c. HasTerm bank.now c.left × HasTerm bank.now c.right) }
    ensures fact { (cs : List ClassTree) → IsBankOf cs bank.now → IsCompared cs bank.now (logic.Literal true logic.Equal (terms_from (term_at bank.now left ∷ term_at bank.now right ∷ []))) result }
{
    match bank.sort(left) {
        Sort::Whole => Some(Compared {
            comparison: Comparison::Equal,
            left,
            right,
        }),
        _ => None,
    }
}

/// Two terms, compared as a literal of them says.
fn compared_two(
    bank: &Bank,
    holds: bool,
    predicate: Predicate,
    left: TermId,
    right: TermId,
) -> Option<Compared>
    requires left { HasTerm bank.now left }
    requires right { HasTerm bank.now right }
    ensures terms { IfSome result (λ c. HasTerm bank.now c.left × HasTerm bank.now c.right) }
    ensures fact { (cs : List ClassTree) → IsBankOf cs bank.now → IsCompared cs bank.now (logic.Literal holds (predicate_of predicate) (terms_from (term_at bank.now left ∷ term_at bank.now right ∷ []))) result }
{
    match comparison_by(holds, predicate) {
        Some(Comparison::Equal) => equality(bank, left, right),
        Some(comparison) => Some(Compared {
            comparison,
            left,
            right,
        }),
        None => None,
    }
}

/// A literal of other than two terms compares none.
fn not_compared(bank: &Bank, holds: bool, predicate: Predicate, ts: &[TermId]) -> Option<Compared>
    requires { length ts.now ≡ 2 → ⊥ }
    ensures terms { IfSome result (λ c. HasTerm bank.now c.left × HasTerm bank.now c.right) }
    ensures fact { (cs : List ClassTree) → IsCompared cs bank.now (logic.Literal holds (predicate_of predicate) (terms_from (terms_at bank.now ts.now))) result }
{
    let _ = bank;
    let _ = holds;
    let _ = predicate;
    let _ = ts;
    None
}

/// The terms that a literal compares.
fn compared_all(bank: &Bank, holds: bool, predicate: Predicate, ts: &[TermId]) -> Option<Compared>
    requires { HasTerms bank.now ts.now }
    ensures terms { IfSome result (λ c. HasTerm bank.now c.left × HasTerm bank.now c.right) }
    ensures fact { (cs : List ClassTree) → IsBankOf cs bank.now → IsCompared cs bank.now (logic.Literal holds (predicate_of predicate) (terms_from (terms_at bank.now ts.now))) result }
{
    match ts {
        [left, right] => compared_two(bank, holds, predicate, *left, *right),
        _ => not_compared(bank, holds, predicate, ts),
    }
}

/// The terms that a formula compares.
fn read_comparison(bank: &Bank, f: FormulaId) -> Option<Compared>
    requires { HasFormula bank.now f }
    ensures terms { IfSome result (λ c. HasTerm bank.now c.left × HasTerm bank.now c.right) }
    ensures fact { (cs : List ClassTree) → IsBankOf cs bank.now → IsCompared cs bank.now (formula_at bank.now f) result }
{
    match bank.formula_node(f) {
        Formula::Literal {
            holds,
            predicate,
            arguments,
        } => compared_all(bank, *holds, *predicate, arguments),
        _ => None,
    }
}

/// The fact of a sum.
fn of_sum(is_equality: bool, sum: Option<LinearSum>) -> Option<SumFact>
    ensures { (b : Forms) (a : Option sums.LinearSum) → IsSumOf b sum a → IsFactOf b result (sums.sum_fact is_equality a) }
{
    match sum {
        Some(sum) => Some(SumFact { is_equality, sum }),
        None => None,
    }
}

/// The difference of two terms, and 1.
fn above(
    alloc: Global,
    bank: &Bank,
    table: &mut SumTable,
    left: TermId,
    right: TermId,
) -> Result<Option<LinearSum>, AllocError>
    requires left { HasTerm bank.now left }
    requires right { HasTerm bank.now right }
    requires kept { AreKept bank.now table.old.kept.items }
    ensures kept { IfOk result (λ _. AreKept bank.now table.new.kept.items) }
    ensures sum { IfOk result (λ o. IsSumOf bank.now o (sums.sum_times (sums.difference (term_at bank.now left) (term_at bank.now right)) (pos 1) (Some (sums.number_sum (pos 1))))) }
{
    let Some(sum) = both(alloc, bank, table, left, -1, right)? else {
        return Ok(None);
    };
    let one = number_sum(alloc, 1);
    added(bank, sum, 1, &one)
}

/// What two compared terms say of a sum.
fn fact_of(
    alloc: Global,
    bank: &Bank,
    table: &mut SumTable,
    c: Compared,
) -> Result<Option<SumFact>, AllocError>
    requires left { HasTerm bank.now c.left }
    requires right { HasTerm bank.now c.right }
    requires kept { AreKept bank.now table.old.kept.items }
    ensures kept { IfOk result (λ _. AreKept bank.now table.new.kept.items) }
    ensures fact { IfOk result (λ o. IsFactOf bank.now o (fact_from c.comparison (term_at bank.now c.left) (term_at bank.now c.right))) }
{
    match c.comparison {
        Comparison::AtMost => {
            let sum = both(alloc, bank, table, c.left, -1, c.right)?;
            Ok(of_sum(false, sum))
        }
        Comparison::Above => {
            let sum = above(alloc, bank, table, c.right, c.left)?;
            Ok(of_sum(false, sum))
        }
        Comparison::Equal => {
            let sum = both(alloc, bank, table, c.left, -1, c.right)?;
            Ok(of_sum(true, sum))
        }
    }
}

/// What a formula says of a sum, where it does and no number on the way leaves 128 bits.
pub fn sum_fact(
    alloc: Global,
    bank: &Bank,
    table: &mut SumTable,
    f: FormulaId,
) -> Result<Option<SumFact>, AllocError>
    requires formula { HasFormula bank.now f }
    requires kept { AreKept bank.now table.old.kept.items }
    ensures kept { IfOk result (λ _. AreKept bank.now table.new.kept.items) }
    ensures terms { IfOk result (λ o. IfSome o (λ fact. HasParts bank.now fact.sum.parts.items)) }
    ensures fact { (cs : List ClassTree) → IsBankOf cs bank.now → IfOk result (λ o. IsFactOf bank.now o (sums.sum_fact_of cs (formula_at bank.now f))) }
{
    match read_comparison(bank, f) {
        Some(c) => fact_of(alloc, bank, table, c),
        None => Ok(None),
    }
}

/// What the equality of two terms says of a sum, where they are whole numbers and no number on the way leaves 128 bits.
pub fn equality_fact(
    alloc: Global,
    bank: &Bank,
    table: &mut SumTable,
    left: TermId,
    right: TermId,
) -> Result<Option<SumFact>, AllocError>
    requires left { HasTerm bank.now left }
    requires right { HasTerm bank.now right }
    requires kept { AreKept bank.now table.old.kept.items }
    ensures kept { IfOk result (λ _. AreKept bank.now table.new.kept.items) }
    ensures terms { IfOk result (λ o. IfSome o (λ fact. HasParts bank.now fact.sum.parts.items)) }
    ensures fact { (cs : List ClassTree) → IsBankOf cs bank.now → IfOk result (λ o. IsFactOf bank.now o (sums.sum_fact_of cs (equal (term_at bank.now left) (term_at bank.now right)))) }
{
    match equality(bank, left, right) {
        Some(c) => fact_of(alloc, bank, table, c),
        None => Ok(None),
    }
}
