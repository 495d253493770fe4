// Where terms and formulas stand, found by their forms.

ghost use Rattle.std.specs.Prelude.{◌≡◌, ℕ, ◌<◌, ◌^◌, ◌≢◌, ◌∷◌, ◌++◌, [], Some, None, length, map, slice_get, IfOk, IfSome, OnOk, OnErr};
ghost use Rattle.indexmap.specs.IndexMap.{keys};
ghost use Rattle.ss_terms.specs.Forms.{shape_of, term_shape};

use crate::bank::{Beside, BesideTerm};
use crate::forms::{Formula, Term};
use indexmap::IndexMap;
use std::alloc::AllocError;

pub(crate) fn place_of_term(terms: &IndexMap<Term, BesideTerm>, term: &Term) -> Option<usize>
    ensures found { IfSome result (λ k. slice_get (map term_shape (keys terms.now)) k ≡ Some (term_shape term.now)) }
    ensures absent { result ≡ None → (k : ℕ) → slice_get (map term_shape (keys terms.now)) k ≢ Some (term_shape term.now) }
{
    terms.get_index_of(term)
}

pub(crate) fn add_term(
    terms: &mut IndexMap<Term, BesideTerm>,
    term: Term,
    beside: BesideTerm,
) -> Result<usize, AllocError>
    requires { (k : ℕ) → slice_get (map term_shape (keys terms.old)) k ≢ Some (term_shape term) }
    ensures number { IfOk result (λ k. k ≡ length terms.old.entries) }
    ensures added { OnOk result (terms.new.entries ≡ terms.old.entries ++ (term, beside) ∷ []) }
    ensures same { OnErr result (terms.new.entries ≡ terms.old.entries) }
{
    let number = terms.len();
    terms.insert(term, beside)?;
    Ok(number)
}

pub(crate) fn place_of_formula(
    formulas: &IndexMap<Formula, Beside>,
    formula: &Formula,
) -> Option<usize>
    ensures found { IfSome result (λ k. slice_get (map shape_of (keys formulas.now)) k ≡ Some (shape_of formula.now)) }
    ensures absent { result ≡ None → (k : ℕ) → slice_get (map shape_of (keys formulas.now)) k ≢ Some (shape_of formula.now) }
    ensures small { IfSome result (λ k. k < 2 ^ 63) }
{
    let _count = formulas.len();
    formulas.get_index_of(formula)
}

pub(crate) fn add_formula(
    formulas: &mut IndexMap<Formula, Beside>,
    formula: Formula,
    beside: Beside,
) -> Result<usize, AllocError>
    requires { (k : ℕ) → slice_get (map shape_of (keys formulas.old)) k ≢ Some (shape_of formula) }
    ensures number { IfOk result (λ k. k ≡ length formulas.old.entries) }
    ensures small { IfOk result (λ k. k < 2 ^ 63) }
    ensures added { OnOk result (formulas.new.entries ≡ formulas.old.entries ++ (formula, beside) ∷ []) }
    ensures same { OnErr result (formulas.new.entries ≡ formulas.old.entries) }
{
    let number = formulas.len();
    formulas.insert(formula, beside)?;
    Ok(number)
}
