// Terms and formulas, made by what they say.

ghost use Rattle.std.specs.Prelude.{◌≡◌, [], ◌∷◌, IfOk};
ghost use Rattle.ss_logic.specs.Terms as tree;
ghost use Rattle.ss_logic.specs.Terms.{terms_from, app};
ghost use Rattle.ss_logic.specs.Formulas as logic;
ghost use Rattle.ss_logic.specs.Formulas.{formulas_from, atom};
ghost use Rattle.ss_terms.specs.Forms.{symbol_of, predicate_of, term_at, terms_at, formula_at, formulas_at, HasTerm, HasTerms, HasFormula, HasFormulas, IsGrown};

use crate::bank::Bank;
use crate::forms::{Formula, FormulaId, Predicate, Symbol, Term, TermId};
use crate::lists::{Arguments, Parts};
use ss_logic::Sort;
use std::alloc::AllocError;

impl Bank {
    /// The function at these arguments.
    pub fn apply(&mut self, symbol: Symbol, arguments: &[TermId]) -> Result<TermId, AllocError>
        requires { HasTerms self.old arguments.now }
        ensures at { IfOk result (λ t. HasTerm self.new t × (term_at self.new t ≡ app (symbol_of symbol) (terms_at self.old arguments.now))) }
        ensures grown { IsGrown self.old self.new }
    {
        let copied = Arguments::from_slice(self.allocator(), arguments)?;
        self.term(Term::App(symbol, copied))
    }

    /// An atom of these terms, or its negation.
    pub fn atom(
        &mut self,
        holds: bool,
        predicate: Predicate,
        arguments: &[TermId],
    ) -> Result<FormulaId, AllocError>
        requires { HasTerms self.old arguments.now }
        ensures at { IfOk result (λ f. HasFormula self.new f × (formula_at self.new f ≡ logic.Literal holds (predicate_of predicate) (terms_from (terms_at self.old arguments.now)))) }
        ensures grown { IsGrown self.old self.new }
    {
        let copied = Arguments::from_slice(self.allocator(), arguments)?;
        self.formula(Formula::Literal {
            holds,
            predicate,
            arguments: copied,
        })
    }

    /// The whole number.
    pub fn number(&mut self, n: i128) -> Result<TermId, AllocError>
        ensures at { IfOk result (λ t. HasTerm self.new t × (term_at self.new t ≡ app (tree.Number n) [])) }
        ensures grown { IsGrown self.old self.new }
    {
        self.apply(Symbol::Number(n), &[])
    }

    /// Null.
    pub fn null(&mut self) -> Result<TermId, AllocError>
        ensures at { IfOk result (λ t. HasTerm self.new t × (term_at self.new t ≡ app tree.Null [])) }
        ensures grown { IsGrown self.old self.new }
    {
        self.apply(Symbol::Null, &[])
    }

    /// The class of this number.
    pub fn class_name(&mut self, class: u16) -> Result<TermId, AllocError>
        ensures at { IfOk result (λ t. HasTerm self.new t × (term_at self.new t ≡ app (tree.ClassName class) [])) }
        ensures grown { IsGrown self.old self.new }
    {
        self.apply(Symbol::ClassName(class), &[])
    }

    /// What a field of an object holds in a store.
    pub fn read(&mut self, store: TermId, object: TermId, field: u32) -> Result<TermId, AllocError>
        requires store { HasTerm self.old store }
        requires object { HasTerm self.old object }
        ensures at { IfOk result (λ t. HasTerm self.new t × (term_at self.new t ≡ app (tree.Field field) (term_at self.old store ∷ term_at self.old object ∷ []))) }
        ensures grown { IsGrown self.old self.new }
    {
        self.apply(Symbol::Field(field), &[store, object])
    }

    /// That the two terms are equal.
    pub fn equality(&mut self, left: TermId, right: TermId) -> Result<FormulaId, AllocError>
        requires left { HasTerm self.old left }
        requires right { HasTerm self.old right }
        ensures at { IfOk result (λ f. HasFormula self.new f × (formula_at self.new f ≡ atom logic.Equal (term_at self.old left ∷ term_at self.old right ∷ []))) }
        ensures grown { IsGrown self.old self.new }
    {
        self.atom(true, Predicate::Equal, &[left, right])
    }

    /// Each of these.
    pub fn and(&mut self, parts: &[FormulaId]) -> Result<FormulaId, AllocError>
        requires { HasFormulas self.old parts.now }
        ensures at { IfOk result (λ f. HasFormula self.new f × (formula_at self.new f ≡ logic.And (formulas_from (formulas_at self.old parts.now)))) }
        ensures grown { IsGrown self.old self.new }
    {
        let copied = Parts::from_slice(self.allocator(), parts)?;
        self.formula(Formula::And(copied))
    }

    /// One of these.
    pub fn or(&mut self, parts: &[FormulaId]) -> Result<FormulaId, AllocError>
        requires { HasFormulas self.old parts.now }
        ensures at { IfOk result (λ f. HasFormula self.new f × (formula_at self.new f ≡ logic.Or (formulas_from (formulas_at self.old parts.now)))) }
        ensures grown { IsGrown self.old self.new }
    {
        let copied = Parts::from_slice(self.allocator(), parts)?;
        self.formula(Formula::Or(copied))
    }

    /// The formula, for all values of bound names of these sorts.
    pub fn forall(&mut self, sorts: &[Sort], body: FormulaId) -> Result<FormulaId, AllocError>
        requires { HasFormula self.old body }
        ensures at { IfOk result (λ f. HasFormula self.new f × (formula_at self.new f ≡ logic.Forall sorts.now (formula_at self.old body))) }
        ensures grown { IsGrown self.old self.new }
    {
        let copied = Vec::from_slice(self.allocator(), sorts)?;
        self.formula(Formula::Forall(copied, body))
    }
}
