// What is the same over two stores.

ghost use Rattle.std.specs.Prelude.{◌≡◌, [], ◌∷◌, IfOk};
ghost use Rattle.ss_logic.specs.Terms.{app, terms_from};
ghost use Rattle.ss_logic.specs.Formulas.{Literal, Committed};
ghost use Rattle.ss_logic.specs.Shapes.{equal, committed, level_of, type_of};
ghost use Rattle.ss_logic.specs.Frames.{the_object, the_index, array_kept, iff};
ghost use Rattle.ss_logic.specs.Express.{and_of};
ghost use Rattle.ss_terms.specs.Forms.{term_at, symbol_of, HasTerm, IsGrown};
ghost use Rattle.ss_frames.specs.Calls.{call_at, HasCall, IsTerm, IsMade};

use crate::calls::CallTerms;
use ss_logic::Sort;
use ss_rules_basic::{Claim, Clause, Plan, Slot, fill};
use ss_terms::{Bank, FormulaId, Predicate, Symbol, TermId};
use std::alloc::{AllocError, Global};

// The read of the object gives over the later store what it gives over the earlier one.
pub(crate) fn same_reads(
    alloc: Global,
    b: &mut Bank,
    symbol: Symbol,
    m: &CallTerms,
    object: TermId,
) -> Result<FormulaId, AllocError>
    requires call { HasCall b.old m.now }
    requires object { IsTerm b.old object the_object }
    ensures at { IfOk result (λ f. IsMade b.new f (equal (app (symbol_of symbol) (term_at b.old m.now.after ∷ the_object ∷ [])) (app (symbol_of symbol) (term_at b.old m.now.before ∷ the_object ∷ [])))) }
    ensures grown { IsGrown b.old b.new }
{
    let (s, r, o) = (
        Slot::Known(m.before),
        Slot::Known(m.after),
        Slot::Known(object),
    );
    let same = Clause::Fact(Claim::Is(Predicate::Equal, Slot::Made(0), Slot::Made(1)));
    fill(
        alloc,
        b,
        &[Plan::Two(symbol, r, o), Plan::Two(symbol, s, o)],
        &[same],
    )
}

// The elements at the index are the same, of each sort.
pub(crate) fn same_elements(
    alloc: Global,
    b: &mut Bank,
    m: &CallTerms,
    object: TermId,
    index: TermId,
) -> Result<FormulaId, AllocError>
    requires call { HasCall b.old m.now }
    requires object { IsTerm b.old object the_object }
    requires index { IsTerm b.old index the_index }
    ensures at { IfOk result (λ f. IsMade b.new f (array_kept (call_at b.old m.now))) }
    ensures grown { IsGrown b.old b.new }
{
    let (s, r) = (Slot::Known(m.before), Slot::Known(m.after));
    let (o, i) = (Slot::Known(object), Slot::Known(index));
    let (things, wholes, truths) = (
        Symbol::Element(Sort::Rest),
        Symbol::Element(Sort::Whole),
        Symbol::Element(Sort::Truth),
    );
    let plans = [
        Plan::Three(things, r, o, i),
        Plan::Three(things, s, o, i),
        Plan::Three(wholes, r, o, i),
        Plan::Three(wholes, s, o, i),
        Plan::Three(truths, r, o, i),
        Plan::Three(truths, s, o, i),
    ];
    let clauses = [
        Clause::Fact(Claim::Is(Predicate::Equal, Slot::Made(0), Slot::Made(1))),
        Clause::Fact(Claim::Is(Predicate::Equal, Slot::Made(2), Slot::Made(3))),
        Clause::Fact(Claim::Is(Predicate::Equal, Slot::Made(4), Slot::Made(5))),
    ];
    fill(alloc, b, &plans, &clauses)
}

// The object is committed in both stores, or in neither.
pub(crate) fn same_committed(
    alloc: Global,
    b: &mut Bank,
    m: &CallTerms,
    object: TermId,
) -> Result<FormulaId, AllocError>
    requires call { HasCall b.old m.now }
    requires object { IsTerm b.old object the_object }
    ensures at { IfOk result (λ f. IsMade b.new f (iff (committed (term_at b.old m.now.after) the_object) (committed (term_at b.old m.now.before) the_object))) }
    ensures grown { IsGrown b.old b.new }
{
    let both = are_committed(alloc, b, true, m, object)?;
    let neither = are_committed(alloc, b, false, m, object)?;
    b.or(&[both, neither])
}

// The object is committed in both stores, or it isn't in either.
fn are_committed(
    alloc: Global,
    b: &mut Bank,
    holds: bool,
    m: &CallTerms,
    object: TermId,
) -> Result<FormulaId, AllocError>
    requires call { HasCall b.old m.now }
    requires object { IsTerm b.old object the_object }
    ensures at { IfOk result (λ f. IsMade b.new f (and_of (Literal holds Committed (terms_from (term_at b.old m.now.after ∷ the_object ∷ [])) ∷ Literal holds Committed (terms_from (term_at b.old m.now.before ∷ the_object ∷ [])) ∷ []))) }
    ensures grown { IsGrown b.old b.new }
{
    let (s, r, o) = (
        Slot::Known(m.before),
        Slot::Known(m.after),
        Slot::Known(object),
    );
    let p = Predicate::Committed;
    if holds {
        let clauses = [
            Clause::Fact(Claim::Is(p, r, o)),
            Clause::Fact(Claim::Is(p, s, o)),
        ];
        return fill(alloc, b, &[], &clauses);
    }
    let clauses = [
        Clause::Fact(Claim::Not(p, r, o)),
        Clause::Fact(Claim::Not(p, s, o)),
    ];
    fill(alloc, b, &[], &clauses)
}

// The object is at its full level in the later store.
pub(crate) fn is_full(
    alloc: Global,
    b: &mut Bank,
    m: &CallTerms,
    object: TermId,
) -> Result<FormulaId, AllocError>
    requires call { HasCall b.old m.now }
    requires object { IsTerm b.old object the_object }
    ensures at { IfOk result (λ f. IsMade b.new f (equal (level_of (term_at b.old m.now.after) the_object) (type_of the_object))) }
    ensures grown { IsGrown b.old b.new }
{
    let (r, o) = (Slot::Known(m.after), Slot::Known(object));
    let same = Clause::Fact(Claim::Is(Predicate::Equal, Slot::Made(0), Slot::Made(1)));
    fill(
        alloc,
        b,
        &[Plan::Two(Symbol::Level, r, o), Plan::One(Symbol::TypeOf, o)],
        &[same],
    )
}
