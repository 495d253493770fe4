// New constants, locals, the store, and terms for what is meant.

ghost use Rattle.std.specs.Prelude.{◌≡◌, ◌+◌, ◌++◌, [], ◌∷◌, IfOk, OnOk, IfSome, slice_get, slice_set, option_map};
ghost use Rattle.ss_terms.specs.Forms.{term_at, HasTerm, IsGrown};
ghost use Rattle.ss_vcgen_heaps.specs.Positions as spec;
ghost use Rattle.ss_vcgen_express.specs.Numbers.{meant_at, HasMeant, IsTerm, IsFormula};
ghost use Rattle.ss_vcgen_known.specs.Views.{known_of};
ghost use Rattle.ss_vcgen_builder.specs.Builder.{counters_of, local_at, position_at, IsFine, Becomes};
ghost use Rattle.ss_terms.specs.Numbered.{HasTermOf};

use crate::builder::{Builder, Counters};
use crate::guard::{Guard, good};
use ss_logic::Sort;
use ss_terms::{Bank, FormulaId, Symbol, TermId};
use ss_vcgen_express::{Meant, Relation, Saying, has_truth_of, over, said};
use ss_vcgen_known::Known;
use std::alloc::{AllocError, Global};

// The next number; past the largest one there is no memory for so many.
pub(crate) fn after(number: usize) -> Result<usize, AllocError>
    ensures { IfOk result (λ n. n ≡ number + 1) }
{
    number.checked_add(1).ok_or(AllocError)
}

impl Counters {
    // The number of the next new constant of the sort.
    fn number(self, sort: Sort) -> usize
        ensures { result ≡ spec.number_of sort (counters_of self) }
    {
        match sort {
            Sort::Store => self.stores,
            Sort::Whole => self.wholes,
            Sort::Truth => self.truths,
            Sort::Rest => self.things,
        }
    }

    // The number of the next new constant of the sort is the one after.
    fn with_next(self, sort: Sort, next: usize) -> Counters
        requires { next ≡ spec.number_of sort (counters_of self) + 1 }
        ensures { counters_of result ≡ spec.raised sort (counters_of self) }
    {
        match sort {
            Sort::Store => Counters {
                stores: next,
                ..self
            },
            Sort::Whole => Counters {
                wholes: next,
                ..self
            },
            Sort::Truth => Counters {
                truths: next,
                ..self
            },
            Sort::Rest => Counters {
                things: next,
                ..self
            },
        }
    }
}

// One of the locals has this value.
fn put(locals: &mut Vec<Option<TermId>>, x: usize, t: TermId)
    ensures { locals.new.items ≡ slice_set locals.old.items x (Some t) }
{
    if x < locals.len() {
        locals[x] = Some(t);
    }
}

// The local with this number, if there is one.
fn found(locals: &[Option<TermId>], x: usize) -> Option<Option<TermId>>
    ensures { result ≡ slice_get locals.now x }
{
    locals.get(x).copied()
}

// The term that was found, or null.
fn or_null(bank: &mut Bank, found: Option<Option<TermId>>) -> Result<TermId, AllocError>
    requires { IfSome found (λ l. HasTermOf bank.old l) }
    ensures at { IfOk result (λ t. IsTerm bank.new t (λ b. spec.term_or_null (option_map (local_at b) found))) }
    ensures grown { IsGrown bank.old bank.new }
{
    match found {
        Some(Some(t)) => Ok(t),
        Some(None) => bank.apply(Symbol::Null, &[]),
        None => bank.apply(Symbol::Null, &[]),
    }
}

// That the term has this truth value.
fn has_truth(
    alloc: Global,
    bank: &mut Bank,
    t: TermId,
    meant: &Meant,
) -> Result<FormulaId, AllocError>
    requires term { HasTerm bank.old t }
    requires meant { HasMeant bank.old meant.now }
    ensures at { IfOk result (λ f. IsFormula bank.new f (λ b. spec.has_value Sort.Truth (term_at b t) (meant_at b meant.now))) }
    ensures grown { IsGrown bank.old bank.new }
{
    let f = said(alloc, bank, meant)?;
    has_truth_of(bank, t, f)
}

// That the term has the value, which is a truth value or not.
fn has_value(
    alloc: Global,
    bank: &mut Bank,
    sort: Sort,
    t: TermId,
    meant: &Meant,
) -> Result<FormulaId, AllocError>
    requires term { HasTerm bank.old t }
    requires meant { HasMeant bank.old meant.now }
    ensures at { IfOk result (λ f. IsFormula bank.new f (λ b. spec.has_value sort (term_at b t) (meant_at b meant.now))) }
    ensures grown { IsGrown bank.old bank.new }
{
    let equal = Saying::Behind(Relation::Equal, t);
    match sort {
        Sort::Truth => has_truth(alloc, bank, t, meant),
        Sort::Store => over(alloc, bank, meant, equal),
        Sort::Whole => over(alloc, bank, meant, equal),
        Sort::Rest => over(alloc, bank, meant, equal),
    }
}

impl Builder {
    /// The next new constant of the sort.
    pub fn new_term(&mut self, sort: Sort) -> Result<TermId, AllocError>
        requires { IsFine self.old }
        ensures at { IfOk result (λ t. IsTerm self.new.bank t (λ b. spec.new_term sort (position_at b self.old))) }
        ensures becomes { IfOk result (λ t. Becomes self.old self.new (λ b. spec.with_new sort (position_at b self.old))) }
    {
        let number = self.next.number(sort);
        let next = after(number)?;
        let t = self.bank.apply(Symbol::Constant(sort, number), &[])?;
        self.next = self.next.with_next(sort, next);
        Ok(t)
    }

    /// The local has this value.
    pub fn set_local(&mut self, x: usize, t: TermId)
        requires fine { IsFine self.old }
        requires term { HasTerm self.old.bank t }
        ensures { Becomes self.old self.new (λ b. spec.set_local x (term_at b t) (position_at b self.old)) }
    {
        put(&mut self.locals, x, t);
    }

    /// One local more.
    pub fn add_local(&mut self, local: Option<TermId>) -> Result<(), AllocError>
        requires fine { IsFine self.old }
        requires local { HasTermOf self.old.bank local }
        ensures { OnOk result (Becomes self.old self.new (λ b. record (position_at b self.old) { locals = (position_at b self.old).locals ++ local_at b local ∷ [] })) }
    {
        self.locals.push(local)?;
        Ok(())
    }

    /// The term of a local; a local without a value isn't read.
    pub fn local_term(&mut self, x: usize) -> Result<TermId, AllocError>
        requires { IsFine self.old }
        ensures at { IfOk result (λ t. IsTerm self.new.bank t (λ b. spec.local_term x (position_at b self.old))) }
        ensures stays { Becomes self.old self.new (λ b. position_at b self.old) }
    {
        let found = found(&self.locals, x);
        or_null(&mut self.bank, found)
    }

    /// The store is this one.
    pub fn set_store(&mut self, s: TermId)
        requires fine { IsFine self.old }
        requires store { HasTerm self.old.bank s }
        ensures { Becomes self.old self.new (λ b. spec.set_store (term_at b s) (position_at b self.old)) }
    {
        self.store = s;
    }

    // That a store is good.
    fn good(&mut self, s: TermId) -> Result<FormulaId, AllocError>
        requires fine { IsFine self.old }
        requires store { HasTerm self.old.bank s }
        ensures at { IfOk result (λ f. IsFormula self.new.bank f (λ b. spec.good (term_at b s))) }
        ensures stays { Becomes self.old self.new (λ b. position_at b self.old) }
    {
        good(&mut self.bank, s)
    }

    /// The store is this one, which is good.
    pub fn with_store(&mut self, s: TermId) -> Result<(), AllocError>
        requires fine { IsFine self.old }
        requires store { HasTerm self.old.bank s }
        ensures { OnOk result (Becomes self.old self.new (λ b. spec.with_store (term_at b s) (position_at b self.old))) }
    {
        let f = self.good(s)?;
        self.set_store(s);
        self.assume(f)
    }

    /// This is known of the locals.
    pub fn set_known(&mut self, known: Known)
        requires { IsFine self.old }
        ensures { Becomes self.old self.new (λ b. record (position_at b self.old) { known = known_of known }) }
    {
        self.known = known;
    }

    /// Nothing is reached from here on.
    pub fn end(&mut self)
        requires { IsFine self.old }
        ensures { Becomes self.old self.new (λ b. spec.ended (position_at b self.old)) }
    {
        self.guard = Guard::Never;
    }

    // That the term has the value.
    fn has_value(&mut self, sort: Sort, t: TermId, meant: &Meant) -> Result<FormulaId, AllocError>
        requires fine { IsFine self.old }
        requires term { HasTerm self.old.bank t }
        requires meant { HasMeant self.old.bank meant.now }
        ensures at { IfOk result (λ f. IsFormula self.new.bank f (λ b. spec.has_value sort (term_at b t) (meant_at b meant.now))) }
        ensures stays { Becomes self.old self.new (λ b. position_at b self.old) }
    {
        has_value(self.alloc, &mut self.bank, sort, t, meant)
    }

    /// A new constant of the sort, which has this value.
    pub fn define(&mut self, sort: Sort, meant: &Meant) -> Result<TermId, AllocError>
        requires fine { IsFine self.old }
        requires meant { HasMeant self.old.bank meant.now }
        ensures at { IfOk result (λ t. IsTerm self.new.bank t (λ b. spec.new_term sort (position_at b self.old))) }
        ensures becomes { IfOk result (λ t. Becomes self.old self.new (λ b. spec.define sort (meant_at b meant.now) (position_at b self.old))) }
    {
        let t = self.new_term(sort)?;
        let f = self.has_value(sort, t, meant)?;
        self.assume(f)?;
        Ok(t)
    }

    /// The term for what is meant: its own, or a new constant.
    pub fn settle(&mut self, sort: Sort, meant: &Meant) -> Result<TermId, AllocError>
        requires fine { IsFine self.old }
        requires meant { HasMeant self.old.bank meant.now }
        ensures at { IfOk result (λ t. IsTerm self.new.bank t (λ b. spec.term_for sort (meant_at b meant.now) (position_at b self.old))) }
        ensures becomes { IfOk result (λ t. Becomes self.old self.new (λ b. spec.with_term sort (meant_at b meant.now) (position_at b self.old))) }
    {
        match meant {
            Meant::One(t) => Ok(*t),
            Meant::Either(_) => self.define(sort, meant),
            Meant::Says(_) | Meant::All(_) | Meant::Any(_) => self.define(sort, meant),
        }
    }
}
