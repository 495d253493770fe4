// Whether terms are well sorted, and formulas well formed, where the names that are bound around them have these sorts.

ghost use Rattle.std.specs.Prelude.{◌≡◌, ℕ, ◌*◌, ◌≤◌, List, [], length, map, IfOk, ◌++◌, ◌&&◌};
ghost use Rattle.ss_core.specs.Tree.{ClassTree};
ghost use Rattle.ss_logic.specs.Terms as tree;
ghost use Rattle.ss_logic.specs.Terms.{terms_from};
ghost use Rattle.ss_logic.specs.Formulas as logic;
ghost use Rattle.ss_logic.specs.Formulas.{formulas_from};
ghost use Rattle.ss_terms.specs.Forms.{shape_of, symbol_of, predicate_of, term_at, terms_at, formula_of, formula_at, formulas_at, HasTerm, HasTerms, HasFormula, AreTermsBelow, AreBelow, ShapeBelow, IsBankOf};

use crate::bank::Bank;
use crate::forms::{Formula, FormulaId, Predicate, Symbol, Term, TermId};
use crate::sorts::{are_bound_sorts, result_sort, takes, takes_sorts};
use ss_logic::Sort;
use std::alloc::{AllocError, Global};

// The sorts, one list after the other.
fn joined(alloc: Global, xs: &[Sort], ys: &[Sort]) -> Result<Vec<Sort>, AllocError>
    ensures { IfOk result (λ v. v.items ≡ xs.now ++ ys.now) }
{
    let mut all = Vec::from_slice(alloc, xs)?;
    all.extend_from_slice(ys)?;
    Ok(all)
}

impl Bank {
    // The sort of a term.
    fn sort_under(&self, bound: &[Sort], t: TermId) -> Sort
        requires { HasTerm self.now t }
        ensures { (cs : List ClassTree) → IsBankOf cs self.now → result ≡ tree.sort_of cs bound.now (term_at self.now t) }
    {
        if bound.is_empty() {
            return self.sort(t);
        }
        match self.term_node(t) {
            Term::Bound(k) => match bound.get(*k) {
                Some(sort) => *sort,
                None => Sort::Rest,
            },
            Term::App(symbol, _) => result_sort(self.fields(), *symbol),
        }
    }

    // The sorts of terms.
    fn sorts_under(&self, bound: &[Sort], ts: &[TermId]) -> Result<Vec<Sort>, AllocError>
        requires { HasTerms self.now ts.now }
        ensures { (cs : List ClassTree) → IsBankOf cs self.now → IfOk result (λ v. v.items ≡ map (tree.sort_of cs bound.now) (terms_at self.now ts.now)) }
    {
        let mut sorts = Vec::new(self.allocator());
        for t in ts {
            sorts.push(self.sort_under(bound, *t))?;
        }
        Ok(sorts)
    }

    // Whether the function takes terms of these sorts.
    fn takes_terms(&self, bound: &[Sort], symbol: Symbol, ts: &[TermId]) -> Result<bool, AllocError>
        requires { HasTerms self.now ts.now }
        ensures { (cs : List ClassTree) → IsBankOf cs self.now → IfOk result (λ v. v ≡ tree.takes cs (symbol_of symbol) (map (tree.sort_of cs bound.now) (terms_at self.now ts.now))) }
    {
        match ts {
            [] => Ok(takes(self.fields(), symbol, &[])),
            [x] => {
                let sort = self.sort_under(bound, *x);
                Ok(takes(self.fields(), symbol, &[sort]))
            }
            [x, y] => {
                let first = self.sort_under(bound, *x);
                let second = self.sort_under(bound, *y);
                Ok(takes(self.fields(), symbol, &[first, second]))
            }
            _ => {
                let sorts = self.sorts_under(bound, ts)?;
                Ok(takes(self.fields(), symbol, &sorts))
            }
        }
    }

    // Whether an atom takes terms of these sorts.
    fn atom_takes(
        &self,
        bound: &[Sort],
        predicate: Predicate,
        ts: &[TermId],
    ) -> Result<bool, AllocError>
        requires { HasTerms self.now ts.now }
        ensures { (cs : List ClassTree) → IsBankOf cs self.now → IfOk result (λ v. v ≡ logic.takes_sorts (predicate_of predicate) (map (tree.sort_of cs bound.now) (terms_at self.now ts.now))) }
    {
        match ts {
            [x] => {
                let sort = self.sort_under(bound, *x);
                Ok(takes_sorts(predicate, &[sort]))
            }
            [x, y] => {
                let first = self.sort_under(bound, *x);
                let second = self.sort_under(bound, *y);
                Ok(takes_sorts(predicate, &[first, second]))
            }
            _ => {
                let sorts = self.sorts_under(bound, ts)?;
                Ok(takes_sorts(predicate, &sorts))
            }
        }
    }

    // Whether the terms are well sorted, and no name in them is unbound.
    fn are_closed(&self, ts: &[TermId]) -> bool
        requires { HasTerms self.now ts.now }
        ensures { (cs : List ClassTree) → IsBankOf cs self.now → result ≡ tree.are_well_sorted cs [] (terms_from (terms_at self.now ts.now)) }
    {
        for t in ts {
            if !self.is_well_sorted(*t) {
                return false;
            }
        }
        true
    }

    // Whether a term is well sorted.
    #[cycle(sorting)]
    fn is_sorted_under(&self, bound: &[Sort], t: TermId) -> Result<bool, AllocError>
        requires { HasTerm self.now t }
        ensures { (cs : List ClassTree) → IsBankOf cs self.now → IfOk result (λ v. v ≡ tree.is_well_sorted cs bound.now (term_at self.now t)) }
    {
        if self.is_well_sorted(t) {
            return Ok(true);
        }
        match self.term_node(t) {
            Term::Bound(k) => Ok(*k < bound.len()),
            Term::App(symbol, arguments) => {
                self.is_applied_under(bound, *symbol, arguments, t.0)
            }
        }
    }

    // Whether the function takes these arguments, and they are well sorted. Each is below the number `below`.
    #[cycle(sorting)]
    pub(crate) fn is_applied_under(
        &self,
        bound: &[Sort],
        symbol: Symbol,
        arguments: &[TermId],
        below: usize,
    ) -> Result<bool, AllocError>
        requires below { AreTermsBelow below arguments.now }
        requires there { below ≤ length self.now.terms }
        ensures { (cs : List ClassTree) → IsBankOf cs self.now → IfOk result (λ v. v ≡ tree.is_well_sorted cs bound.now (tree.App (symbol_of symbol) (terms_from (terms_at self.now arguments.now)))) }
    {
        let is_taken = self.takes_terms(bound, symbol, arguments)?;
        if !is_taken {
            return Ok(false);
        }
        self.are_sorted_under(bound, arguments, below)
    }

    // Whether the terms, each below the number `below`, are well sorted.
    #[cycle(sorting)]
    fn are_sorted_under(
        &self,
        bound: &[Sort],
        ts: &[TermId],
        below: usize,
    ) -> Result<bool, AllocError>
        requires below { AreTermsBelow below ts.now }
        requires there { below ≤ length self.now.terms }
        ensures { (cs : List ClassTree) → IsBankOf cs self.now → IfOk result (λ v. v ≡ tree.are_well_sorted cs bound.now (terms_from (terms_at self.now ts.now))) }
    {
        if bound.is_empty() {
            return Ok(self.are_closed(ts));
        }
        for t in ts {
            if !self.is_sorted_under(bound, *t)? {
                return Ok(false);
            }
        }
        Ok(true)
    }

    // Whether an atom takes these terms, and they are well sorted.
    fn is_atom_under(
        &self,
        bound: &[Sort],
        predicate: Predicate,
        arguments: &[TermId],
    ) -> Result<bool, AllocError>
        requires { HasTerms self.now arguments.now }
        ensures { (cs : List ClassTree) → IsBankOf cs self.now → IfOk result (λ v. v ≡ (logic.takes_sorts (predicate_of predicate) (map (tree.sort_of cs bound.now) (terms_at self.now arguments.now)) && tree.are_well_sorted cs bound.now (terms_from (terms_at self.now arguments.now)))) }
    {
        let is_taken = self.atom_takes(bound, predicate, arguments)?;
        if !is_taken {
            return Ok(false);
        }
        self.are_sorted_under(bound, arguments, self.term_count())
    }

    // Whether a formula is well formed.
    #[cycle(forming)]
    fn is_formed_under(&self, bound: &[Sort], f: FormulaId) -> Result<bool, AllocError>
        requires { HasFormula self.now f }
        ensures { (cs : List ClassTree) → IsBankOf cs self.now → IfOk result (λ v. v ≡ logic.is_well_formed cs bound.now (formula_at self.now f)) }
    {
        if bound.is_empty() {
            return Ok(self.is_well_formed(f));
        }
        self.is_form_under(bound, self.formula_node(f), f.0)
    }

    // Whether the formula of a form is well formed. Its parts are below the number `below`.
    #[cycle(forming)]
    pub(crate) fn is_form_under(
        &self,
        bound: &[Sort],
        form: &Formula,
        below: usize,
    ) -> Result<bool, AllocError>
        requires below { ShapeBelow (length self.now.terms) below (shape_of form.now) }
        requires there { below ≤ length self.now.formulas * 2 }
        ensures { (cs : List ClassTree) → IsBankOf cs self.now → IfOk result (λ v. v ≡ logic.is_well_formed cs bound.now (formula_of (term_at self.now) (formula_at self.now) (shape_of form.now))) }
    {
        match form {
            Formula::Literal {
                predicate,
                arguments,
                ..
            } => self.is_atom_under(bound, *predicate, arguments),
            Formula::And(parts) => self.are_formed_under(bound, parts, below),
            Formula::Or(parts) => self.are_formed_under(bound, parts, below),
            Formula::Forall(sorts, body) => self.is_body_under(bound, sorts, *body),
            Formula::Exists(sorts, body) => self.is_body_under(bound, sorts, *body),
        }
    }

    // Whether the formulas, each below the number `below`, are well formed.
    #[cycle(forming)]
    fn are_formed_under(
        &self,
        bound: &[Sort],
        fs: &[FormulaId],
        below: usize,
    ) -> Result<bool, AllocError>
        requires below { AreBelow below fs.now }
        requires there { below ≤ length self.now.formulas * 2 }
        ensures { (cs : List ClassTree) → IsBankOf cs self.now → IfOk result (λ v. v ≡ logic.are_well_formed cs bound.now (formulas_from (formulas_at self.now fs.now))) }
    {
        for f in fs {
            if !self.is_formed_under(bound, *f)? {
                return Ok(false);
            }
        }
        Ok(true)
    }

    // Whether the body of a quantifier is well formed, which binds names of these sorts.
    #[cycle(forming)]
    fn is_body_under(
        &self,
        bound: &[Sort],
        sorts: &[Sort],
        body: FormulaId,
    ) -> Result<bool, AllocError>
        requires { HasFormula self.now body }
        ensures { (cs : List ClassTree) → IsBankOf cs self.now → IfOk result (λ v. v ≡ (logic.are_bound_sorts sorts.now && logic.is_well_formed cs (bound.now ++ sorts.now) (formula_at self.now body))) }
    {
        if !are_bound_sorts(sorts) {
            return Ok(false);
        }
        let all = joined(self.allocator(), bound, sorts)?;
        self.is_formed_under(&all, body)
    }
}
