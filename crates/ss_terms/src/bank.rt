// Terms and formulas, each with one number.

ghost use Rattle.std.specs.Prelude.{◌≡◌, ℕ, ◌*◌, ◌<◌, ◌≤◌, ◌^◌, List, [], length, map, IfOk, true, false, IsTrue, ◌↔◌, ◌&&◌};
ghost use Rattle.ss_core.specs.Tree.{ClassTree};
ghost use Rattle.ss_logic.specs.Terms as tree;
ghost use Rattle.ss_logic.specs.Terms.{terms_from};
ghost use Rattle.ss_logic.specs.Formulas as logic;
ghost use Rattle.ss_logic.specs.Formulas.{neg, formulas_from};
ghost use Rattle.ss_logic.specs.Equal.{same_term, same_formula};
ghost use Rattle.ss_terms.specs.Forms.{Forms, LiteralShape, term_shape, shape_of, term_of, term_at, terms_at, formula_of, formula_at, pair_at, HasTerm, HasTerms, HasFormula, HasFormulas, HasArguments, HasParts, IsTermForm, IsFormulaForm, IsGrown, IsBankOf, AreNamed, IsClosed, front, opposite_shape, other, is_plain};
ghost use Rattle.ss_terms.specs.Bank.{IsBesideTerm};
ghost use Rattle.ss_terms.specs.Apart.{AreApart};
ghost use Rattle.ss_terms.specs.Highest.{highest, highest_of_term};

use crate::constants::number_of;
use crate::forms::{Formula, FormulaId, Predicate, Term, TermId};
use crate::index::{add_formula, add_term, place_of_formula, place_of_term};
use crate::lists::{Arguments, Parts};
use crate::sorts::{field_sort, has_field, result_sort, same_sort};
use indexmap::IndexMap;
use ss_logic::Sort;
use std::alloc::{AllocError, Global};
use std::marker::Model;

/// What stands beside a term: its sort, and whether it is well sorted and has no bound name. Also the greatest number of a
/// constant in it.
#[derive(Clone, Copy, Drop)]
pub(crate) struct BesideTerm {
    pub(crate) sort: Sort,
    pub(crate) is_well_sorted: bool,
    pub(crate) highest: u32,
}

/// What stands beside a formula: the form of its negation, and whether both are well formed and no name in them is unbound.
/// Also the greatest number of a constant in them, and how many terms there were when it came.
#[derive(Drop)]
pub(crate) struct Beside {
    pub(crate) negation: Formula,
    pub(crate) is_well_formed: bool,
    pub(crate) highest: u32,
    pub(crate) terms: usize,
}

/// How far a bank reaches: how many terms it has, and how many formulas, a formula and its negation counted once.
#[derive(Clone, Copy, Drop)]
pub struct BankMark {
    pub terms: usize,
    pub formulas: usize,
}

/// Terms and formulas with numbers, over the fields of a program. Equal ones have equal numbers, and a number keeps what it
/// stands for until that is forgotten. Each formula stands with its negation. But for `forget`, no call takes longer in a
/// larger bank.
#[derive(Drop)]
pub struct Bank {
    alloc: Global,
    fields: Vec<Sort>,
    terms: IndexMap<Term, BesideTerm>,
    formulas: IndexMap<Formula, Beside>,
}

impl Model for Bank {
    ghost use Rattle.std.specs.Prelude.{map};
    ghost use Rattle.indexmap.specs.IndexMap.{keys};
    ghost use Rattle.ss_terms.specs.Forms.{Forms, term_shape, shape_of};
    ghost use Rattle.ss_terms.specs.Bank.{IsBank};

    ghost Value = { Forms };

    ghost view = { λ b. record { fields = b.fields.items; terms = map term_shape (keys b.terms); formulas = map shape_of (keys b.formulas) } };

    ghost invariant = { λ b. IsBank b.fields.items b.terms.entries b.formulas.entries };
}

impl Bank {
    /// A bank with no term and no formula, over a program whose fields have these sorts.
    pub fn new(alloc: Global, fields: Vec<Sort>) -> Self
        ensures { result ≡ record { fields = fields.items; terms = []; formulas = [] } }
    {
        Bank {
            alloc,
            fields,
            terms: IndexMap::new(alloc),
            formulas: IndexMap::new(alloc),
        }
    }

    /// How many terms there are. Their numbers are those below.
    pub fn term_count(&self) -> usize
        ensures { result ≡ length self.now.terms }
    {
        self.terms.len()
    }

    /// How many formulas there are, negations counted. Their numbers are those below.
    pub fn formula_count(&self) -> usize
        ensures { result ≡ length self.now.formulas * 2 }
    {
        self.formulas.len() * 2
    }

    /// Whether a number stands for a term here.
    pub fn has_term(&self, t: TermId) -> bool
        ensures { IsTrue result ↔ HasTerm self.now t }
    {
        t.0 < self.terms.len()
    }

    /// Whether a number stands for a formula here.
    pub fn has_formula(&self, f: FormulaId) -> bool
        ensures { IsTrue result ↔ HasFormula self.now f }
    {
        f.0 / 2 < self.formulas.len()
    }

    /// The form of a term.
    pub fn term_node(&self, t: TermId) -> &Term
        requires { HasTerm self.now t }
        ensures { IsTermForm self.now t result.now }
    {
        let (form, _beside) = self.terms.get_index(t.0).unwrap();
        form
    }

    /// The form of a formula.
    pub fn formula_node(&self, f: FormulaId) -> &Formula
        requires { HasFormula self.now f }
        ensures { IsFormulaForm self.now f result.now }
    {
        let (plain, beside) = self.formulas.get_index(f.0 / 2).unwrap();
        if f.0 % 2 == 0 {
            plain
        } else {
            &beside.negation
        }
    }

    /// The number of a formula's negation.
    pub fn negation(&self, f: FormulaId) -> FormulaId
        requires { HasFormula self.now f }
        ensures in_bank { HasFormula self.now result }
        ensures negation { formula_at self.now result ≡ neg (formula_at self.now f) }
    {
        let _formulas = &self.formulas;
        opposite(f)
    }

    /// Whether two numbers stand for one term.
    pub fn is_same_term(&self, x: TermId, y: TermId) -> bool
        requires left { HasTerm self.now x }
        requires right { HasTerm self.now y }
        ensures { result ≡ same_term (term_at self.now x) (term_at self.now y) }
    {
        let _terms = &self.terms;
        x.0 == y.0
    }

    /// Whether two numbers stand for one formula.
    pub fn is_same_formula(&self, x: FormulaId, y: FormulaId) -> bool
        requires left { HasFormula self.now x }
        requires right { HasFormula self.now y }
        ensures { result ≡ same_formula (formula_at self.now x) (formula_at self.now y) }
    {
        let _formulas = &self.formulas;
        x.0 == y.0
    }

    /// Equal terms have equal numbers, and so have equal formulas.
    pub fn numbers_are_apart(&self)
        ensures { AreApart self.now }
    {
        let _terms = &self.terms;
    }

    // What stands beside a term.
    fn beside_term(&self, t: TermId) -> BesideTerm
        requires { HasTerm self.now t }
        ensures { IsBesideTerm self.now (term_at self.now t) result }
    {
        self.terms[t.0]
    }

    /// The sort of a term, where no bound name has one.
    pub fn sort(&self, t: TermId) -> Sort
        requires { HasTerm self.now t }
        ensures { (cs : List ClassTree) → IsBankOf cs self.now → result ≡ tree.sort_of cs [] (term_at self.now t) }
    {
        self.beside_term(t).sort
    }

    /// Whether each function in a term takes its arguments, and no name in it is unbound.
    pub fn is_well_sorted(&self, t: TermId) -> bool
        requires { HasTerm self.now t }
        ensures { (cs : List ClassTree) → IsBankOf cs self.now → result ≡ tree.is_well_sorted cs [] (term_at self.now t) }
    {
        self.beside_term(t).is_well_sorted
    }

    /// Whether each part of a formula has the sort that its place asks for, and no name in it is unbound.
    pub fn is_well_formed(&self, f: FormulaId) -> bool
        requires { HasFormula self.now f }
        ensures { (cs : List ClassTree) → IsBankOf cs self.now → result ≡ logic.is_well_formed cs [] (formula_at self.now f) }
    {
        self.formulas[f.0 / 2].is_well_formed
    }

    /// The greatest number of a constant in a formula; 0 where it has none.
    pub fn highest(&self, f: FormulaId) -> usize
        requires { HasFormula self.now f }
        ensures { result ≡ highest (formula_at self.now f) }
    {
        self.kept_highest(f) as usize
    }

    // The same, as it is kept.
    pub(crate) fn kept_highest(&self, f: FormulaId) -> u32
        requires { HasFormula self.now f }
        ensures { result ≡ highest (formula_at self.now f) }
    {
        self.formulas[f.0 / 2].highest
    }

    // The greatest number of a constant in a term.
    pub(crate) fn highest_of_term(&self, t: TermId) -> u32
        requires { HasTerm self.now t }
        ensures { result ≡ highest_of_term (term_at self.now t) }
    {
        self.beside_term(t).highest
    }

    /// Whether the terms have these sorts, one by one, are well sorted, and have no unbound name.
    pub fn have_sorts(&self, sorts: &[Sort], ts: &[TermId]) -> bool
        requires { HasTerms self.now ts.now }
        ensures { (cs : List ClassTree) → IsBankOf cs self.now → result ≡ tree.have_sorts cs sorts.now (terms_at self.now ts.now) }
    {
        match sorts {
            [] => match ts {
                [] => true,
                [_, ..] => false,
            },
            [sort, sorts @ ..] => match ts {
                [] => false,
                [t, ts @ ..] => self.has_sort(*t, *sort) && self.have_sorts(sorts, ts),
            },
        }
    }

    // Whether the term is well sorted, of this sort.
    fn has_sort(&self, t: TermId, sort: Sort) -> bool
        requires { HasTerm self.now t }
        ensures { (cs : List ClassTree) → IsBankOf cs self.now → result ≡ (tree.same_sort (tree.sort_of cs [] (term_at self.now t)) sort && tree.is_well_sorted cs [] (term_at self.now t)) }
    {
        let beside = self.beside_term(t);
        same_sort(beside.sort, sort) && beside.is_well_sorted
    }

    /// How far the bank reaches.
    pub fn mark(&self) -> BankMark
        ensures terms { result.terms ≡ length self.now.terms }
        ensures formulas { result.formulas ≡ length self.now.formulas }
    {
        BankMark {
            terms: self.terms.len(),
            formulas: self.formulas.len(),
        }
    }

    /// Forgets the terms and formulas after the mark, and answers whether it did. It does where the bank reaches the mark, and
    /// all terms stand before it that were there when the last formula before it came. Else the bank stays as it was.
    pub fn forget(&mut self, mark: BankMark) -> bool
        ensures forgotten { IsTrue result → self.new ≡ front mark.terms mark.formulas self.old }
        ensures closed { IsTrue result → IsClosed mark.terms mark.formulas self.old }
        ensures same { result ≡ false → self.new ≡ self.old }
        ensures grown { (marked : Forms) → IsGrown marked self.old → length marked.terms ≤ mark.terms → length marked.formulas ≤ mark.formulas → IsGrown marked self.new }
    {
        if !self.is_closed(mark) {
            return false;
        }
        self.terms.truncate(mark.terms);
        self.formulas.truncate(mark.formulas);
        true
    }

    // Whether the bank reaches the mark, and all terms stand before it that were there when the last formula before it came.
    // Then no formula before it names a term after it.
    fn is_closed(&self, mark: BankMark) -> bool
        ensures { IsTrue result → IsClosed mark.terms mark.formulas self.now }
    {
        let end = self.mark();
        if mark.terms > end.terms {
            return false;
        }
        if mark.formulas > end.formulas {
            return false;
        }
        self.terms_before(mark.formulas) <= mark.terms
    }

    // How many terms there were when the last of the first formulas came, so many. They name terms below this number alone.
    fn terms_before(&self, formulas: usize) -> usize
        requires { formulas ≤ length self.now.formulas }
        ensures { AreNamed result formulas self.now }
    {
        if formulas == 0 {
            0
        } else {
            self.formulas[formulas - 1].terms
        }
    }

    // The sorts of the program's fields.
    pub(crate) fn fields(&self) -> &[Sort]
        ensures { result.now ≡ self.now.fields }
    {
        &self.fields
    }

    /// Whether the program has the field.
    pub fn is_field(&self, f: u32) -> bool
        ensures { (cs : List ClassTree) → IsBankOf cs self.now → result ≡ tree.has_field cs f }
    {
        has_field(self.fields(), f)
    }

    /// The sort of a field.
    pub fn sort_of_field(&self, f: u32) -> Sort
        ensures { (cs : List ClassTree) → IsBankOf cs self.now → result ≡ tree.field_sort cs f }
    {
        field_sort(self.fields(), f)
    }

    // The allocator.
    pub(crate) fn allocator(&self) -> Global {
        self.alloc
    }

    /// The number of the term with this form, which is added where it is new. An error is want of memory, and so counts a
    /// constant's number that doesn't fit into 32 bits; what the bank had before stays.
    pub fn term(&mut self, node: Term) -> Result<TermId, AllocError>
        requires { HasArguments self.old (term_shape node) }
        ensures at { IfOk result (λ t. HasTerm self.new t × (term_at self.new t ≡ term_of (term_at self.old) (term_shape node))) }
        ensures grown { IsGrown self.old self.new }
    {
        if let Some(number) = place_of_term(&self.terms, &node) {
            return Ok(TermId(number));
        }
        let beside = self.beside_form(&node)?;
        let number = add_term(&mut self.terms, node, beside)?;
        Ok(TermId(number))
    }

    // What stands beside the term of a form.
    fn beside_form(&self, node: &Term) -> Result<BesideTerm, AllocError>
        requires { HasArguments self.now (term_shape node.now) }
        ensures { IfOk result (λ e. IsBesideTerm self.now (term_of (term_at self.now) (term_shape node.now)) e) }
    {
        match node {
            Term::Bound(_) => Ok(BesideTerm {
                sort: Sort::Rest,
                is_well_sorted: false,
                highest: 0,
            }),
            Term::App(symbol, arguments) => {
                let is_well_sorted = self.is_applied_under(
                    &[],
                    *symbol,
                    arguments,
                    self.term_count(),
                )?;
                let own = number_of(*symbol)?;
                let highest = own.max(self.highest_of_terms(arguments));
                Ok(BesideTerm {
                    sort: result_sort(self.fields(), *symbol),
                    is_well_sorted,
                    highest,
                })
            }
        }
    }

    /// The number of the formula with this form, which is added where it is new, together with its negation. An error is
    /// want of memory; what the bank had before stays.
    pub fn formula(&mut self, node: Formula) -> Result<FormulaId, AllocError>
        requires { HasParts self.old (shape_of node) }
        ensures at { IfOk result (λ f. HasFormula self.new f × (formula_at self.new f ≡ formula_of (term_at self.old) (formula_at self.old) (shape_of node))) }
        ensures grown { IsGrown self.old self.new }
    {
        match node {
            Formula::Literal {
                holds,
                predicate,
                arguments,
            } => self.literal(holds, predicate, arguments),
            Formula::And(parts) => {
                let number = self.pair(Formula::And(parts))?;
                Ok(FormulaId(number * 2))
            }
            Formula::Or(parts) => {
                let others = opposites(self.alloc, &parts)?;
                let number = self.pair(Formula::And(others))?;
                Ok(FormulaId(number * 2 + 1))
            }
            Formula::Forall(sorts, body) => {
                let number = self.pair(Formula::Forall(sorts, body))?;
                Ok(FormulaId(number * 2))
            }
            Formula::Exists(sorts, body) => {
                let number = self.pair(Formula::Forall(sorts, opposite(body)))?;
                Ok(FormulaId(number * 2 + 1))
            }
        }
    }

    // The number of an atom, or of its negation.
    fn literal(
        &mut self,
        holds: bool,
        predicate: Predicate,
        arguments: Arguments,
    ) -> Result<FormulaId, AllocError>
        requires { HasTerms self.old arguments.items }
        ensures at { IfOk result (λ f. HasFormula self.new f × (formula_at self.new f ≡ formula_of (term_at self.old) (formula_at self.old) (LiteralShape holds predicate arguments.items))) }
        ensures grown { IsGrown self.old self.new }
    {
        let plain = Formula::Literal {
            holds: true,
            predicate,
            arguments,
        };
        let number = self.pair(plain)?;
        if holds {
            Ok(FormulaId(number * 2))
        } else {
            Ok(FormulaId(number * 2 + 1))
        }
    }

    // The number of the formula that stands with its negation, both added where they are new.
    fn pair(&mut self, plain: Formula) -> Result<usize, AllocError>
        requires plain { is_plain (shape_of plain) ≡ true }
        requires parts { HasParts self.old (shape_of plain) }
        ensures in_bank { IfOk result (λ k. k < length self.new.formulas) }
        ensures small { IfOk result (λ k. k < 2 ^ 63) }
        ensures at { IfOk result (λ k. pair_at self.new k ≡ formula_of (term_at self.old) (formula_at self.old) (shape_of plain)) }
        ensures grown { IsGrown self.old self.new }
    {
        if let Some(number) = place_of_formula(&self.formulas, &plain) {
            return Ok(number);
        }
        let negation = negated(self.alloc, &plain)?;
        let is_well_formed = self.is_form_under(&[], &plain, self.formula_count())?;
        let highest = self.highest_of_form(&plain);
        let terms = self.term_count();
        let beside = Beside {
            negation,
            is_well_formed,
            highest,
            terms,
        };
        let number = add_formula(&mut self.formulas, plain, beside)?;
        Ok(number)
    }
}

// The form of the negation.
fn negated(alloc: Global, form: &Formula) -> Result<Formula, AllocError>
    ensures { IfOk result (λ n. shape_of n ≡ opposite_shape (shape_of form.now)) }
{
    match form {
        Formula::Literal {
            holds,
            predicate,
            arguments,
        } => {
            let arguments = Arguments::from_slice(alloc, arguments)?;
            Ok(Formula::Literal {
                holds: !*holds,
                predicate: *predicate,
                arguments,
            })
        }
        Formula::And(parts) => {
            let others = opposites(alloc, parts)?;
            Ok(Formula::Or(others))
        }
        Formula::Or(parts) => {
            let others = opposites(alloc, parts)?;
            Ok(Formula::And(others))
        }
        Formula::Forall(sorts, body) => {
            let sorts = Vec::from_slice(alloc, sorts)?;
            Ok(Formula::Exists(sorts, opposite(*body)))
        }
        Formula::Exists(sorts, body) => {
            let sorts = Vec::from_slice(alloc, sorts)?;
            Ok(Formula::Forall(sorts, opposite(*body)))
        }
    }
}

// The number beside.
fn opposite(f: FormulaId) -> FormulaId
    ensures { result ≡ other f }
{
    FormulaId(f.0 / 2 * 2 + (1 - f.0 % 2))
}

// The numbers of the negations.
fn opposites(alloc: Global, fs: &[FormulaId]) -> Result<Parts, AllocError>
    ensures { IfOk result (λ v. v.items ≡ map other fs.now) }
{
    let mut others = Parts::with_capacity(alloc, fs.len())?;
    for f in fs {
        others.push(opposite(*f))?;
    }
    Ok(others)
}
