// Elements are in range, allocated and of their classes.

ghost use Rattle.std.specs.Prelude.{◌≡◌, ◌<◌, ◌≤◌, ◌+◌, ◌*◌, List, [], ◌∷◌, Some, map, length, IfOk};
ghost use Rattle.ss_core.specs.Chain.{most_classes};
ghost use Rattle.ss_core.specs.View as view;
ghost use Rattle.ss_logic.specs.declared.Sort.TheVariants as sort;
ghost use Rattle.ss_logic.specs.Terms as tree;
ghost use Rattle.ss_logic.specs.Terms.{app};
ghost use Rattle.ss_logic.specs.Shapes.{all_of, allocated};
ghost use Rattle.ss_logic.specs.Good.{arrays_of_references, element_typed, in_range, typed_element};
ghost use Rattle.ss_terms.specs.Forms.{term_at, formula_at, formulas_at, HasTerm, HasFormula, HasFormulas, IsGrown};
ghost use Rattle.ss_terms.specs.Numbered.{IsNumberOf};
ghost use Rattle.ss_rules_good.specs.Fields.{element_of, element_allocated};

use ss_core::Classes;
use ss_logic::Sort;
use ss_rules_basic::{Claim, Clause, Plan, Slot, fill};
use ss_terms::{Bank, FormulaId, Predicate, Symbol, TermId};
use std::alloc::{AllocError, Global};

// A whole number of an array is in range.
fn element_in_range(
    alloc: Global,
    b: &mut Bank,
    s: TermId,
    a: TermId,
    i: TermId,
) -> Result<FormulaId, AllocError>
    requires store { HasTerm b.old s }
    requires array { HasTerm b.old a }
    requires index { HasTerm b.old i }
    ensures at { IfOk result (λ r. HasFormula b.new r × (formula_at b.new r ≡ all_of (in_range (allocated (term_at b.old s) (term_at b.old a) ∷ []) (app (tree.Element sort.Whole) (term_at b.old s ∷ term_at b.old a ∷ term_at b.old i ∷ []))))) }
    ensures grown { IsGrown b.old b.new }
{
    let (s, a, i) = (Slot::Known(s), Slot::Known(a), Slot::Known(i));
    let plans = [
        Plan::Three(Symbol::Element(Sort::Whole), s, a, i),
        Plan::Leaf(Symbol::Number(-2147483648)),
        Plan::Leaf(Symbol::Number(2147483647)),
    ];
    let is_allocated = Claim::Is(Predicate::Allocated, s, a);
    let clauses = [
        Clause::If(
            is_allocated,
            Claim::Is(Predicate::AtMost, Slot::Made(1), Slot::Made(0)),
        ),
        Clause::If(
            is_allocated,
            Claim::Is(Predicate::AtMost, Slot::Made(0), Slot::Made(2)),
        ),
    ];
    fill(alloc, b, &plans, &clauses)
}

// An element that isn't null is allocated.
fn element_there(
    alloc: Global,
    b: &mut Bank,
    place: (TermId, TermId, TermId),
) -> Result<FormulaId, AllocError>
    requires store { HasTerm b.old place.0 }
    requires array { HasTerm b.old place.1 }
    requires index { HasTerm b.old place.2 }
    ensures at { IfOk result (λ r. HasFormula b.new r × (formula_at b.new r ≡ element_allocated (term_at b.old place.0) (term_at b.old place.1) (term_at b.old place.2))) }
    ensures grown { IsGrown b.old b.new }
{
    let (s, a, i) = place;
    let (s, a, i) = (Slot::Known(s), Slot::Known(a), Slot::Known(i));
    let plans = [
        Plan::Three(Symbol::Element(Sort::Rest), s, a, i),
        Plan::Leaf(Symbol::Null),
    ];
    let clause = Clause::IfTwo(
        Claim::Is(Predicate::Allocated, s, a),
        Claim::Not(Predicate::Equal, Slot::Made(0), Slot::Made(1)),
        Claim::Is(Predicate::Allocated, s, Slot::Made(0)),
    );
    fill(alloc, b, &plans, &[clause])
}

// What the elements of an array of references are of.
fn class_of_elements(t: u16) -> u16
    ensures { result ≡ element_class t }
{
    if t == 3 { 0 } else { t.saturating_sub(1) }
}

ghost use Rattle.ss_logic.specs.Objects.{element_class};

// An element that isn't null is of the class that an array of this class asks for.
fn element_of_class(
    alloc: Global,
    b: &mut Bank,
    place: (TermId, TermId, TermId),
    t: u16,
) -> Result<FormulaId, AllocError>
    requires store { HasTerm b.old place.0 }
    requires array { HasTerm b.old place.1 }
    requires index { HasTerm b.old place.2 }
    ensures at { IfOk result (λ r. HasFormula b.new r × (formula_at b.new r ≡ element_of (term_at b.old place.0) (term_at b.old place.1) (term_at b.old place.2) t)) }
    ensures grown { IsGrown b.old b.new }
{
    let (s, a, i) = place;
    let class = class_of_elements(t);
    let (s, a, i) = (Slot::Known(s), Slot::Known(a), Slot::Known(i));
    let plans = [
        Plan::Three(Symbol::Element(Sort::Rest), s, a, i),
        Plan::Leaf(Symbol::Null),
        Plan::One(Symbol::TypeOf, a),
        Plan::Leaf(Symbol::ClassName(t)),
        Plan::One(Symbol::TypeOf, Slot::Made(0)),
        Plan::Leaf(Symbol::ClassName(class)),
    ];
    let clause = Clause::IfThree(
        Claim::Is(Predicate::Allocated, s, a),
        Claim::Is(Predicate::Equal, Slot::Made(2), Slot::Made(3)),
        Claim::Not(Predicate::Equal, Slot::Made(0), Slot::Made(1)),
        Claim::Is(Predicate::Sub, Slot::Made(4), Slot::Made(5)),
    );
    fill(alloc, b, &plans, &[clause])
}

// The class of the array of this declared class, by its place.
fn array_class(k: usize) -> u16
    requires { k < most_classes }
    ensures { result ≡ 5 + 2 * k }
{
    5 + 2 * k as u16
}

// The classes of arrays of references.
fn arrays(alloc: Global, classes: &Classes) -> Result<Vec<u16>, AllocError>
    requires { length (view.classes classes.now) ≤ most_classes }
    ensures { IfOk result (λ v. v.items ≡ arrays_of_references (view.classes classes.now)) }
{
    let mut found = Vec::new(alloc);
    found.push(3)?;
    for k in 0..classes.list.len() {
        found.push(array_class(k))?;
    }
    Ok(found)
}

// One sentence for each of these classes, after those made before.
fn elements_of_classes(
    alloc: Global,
    b: &mut Bank,
    place: (TermId, TermId, TermId),
    arrays: &[u16],
) -> Result<Vec<FormulaId>, AllocError>
    requires store { HasTerm b.old place.0 }
    requires array { HasTerm b.old place.1 }
    requires index { HasTerm b.old place.2 }
    ensures there { IfOk result (λ v. HasFormulas b.new v.items) }
    ensures at { IfOk result (λ v. formulas_at b.new v.items ≡ element_allocated (term_at b.old place.0) (term_at b.old place.1) (term_at b.old place.2) ∷ map (element_of (term_at b.old place.0) (term_at b.old place.1) (term_at b.old place.2)) arrays.now) }
    ensures grown { IsGrown b.old b.new }
{
    let mut made = Vec::new(alloc);
    let first = element_there(alloc, b, place)?;
    made.push(first)?;
    for t in arrays {
        let f = element_of_class(alloc, b, place, *t)?;
        made.push(f)?;
    }
    Ok(made)
}

// What is known of an element of this sort.
pub(crate) fn typed_element_at(
    alloc: Global,
    b: &mut Bank,
    classes: &Classes,
    sort: Sort,
    place: (TermId, TermId, TermId),
) -> Result<Option<FormulaId>, AllocError>
    requires classes { length (view.classes classes.now) ≤ most_classes }
    requires store { HasTerm b.old place.0 }
    requires array { HasTerm b.old place.1 }
    requires index { HasTerm b.old place.2 }
    ensures at { IfOk result (λ r. IsNumberOf b.new r (typed_element (view.classes classes.now) (term_at b.old place.0) (term_at b.old place.1) (term_at b.old place.2) sort)) }
    ensures grown { IsGrown b.old b.new }
{
    match sort {
        Sort::Whole => {
            let r = element_in_range(alloc, b, place.0, place.1, place.2)?;
            Ok(Some(r))
        }
        Sort::Rest => {
            let r = element_typed_at(alloc, b, classes, place)?;
            Ok(Some(r))
        }
        _ => Ok(None),
    }
}

// An element that isn't null is allocated, and of the class that the array asks for.
fn element_typed_at(
    alloc: Global,
    b: &mut Bank,
    classes: &Classes,
    place: (TermId, TermId, TermId),
) -> Result<FormulaId, AllocError>
    requires classes { length (view.classes classes.now) ≤ most_classes }
    requires store { HasTerm b.old place.0 }
    requires array { HasTerm b.old place.1 }
    requires index { HasTerm b.old place.2 }
    ensures at { IfOk result (λ r. HasFormula b.new r × (Some (formula_at b.new r) ≡ typed_element (view.classes classes.now) (term_at b.old place.0) (term_at b.old place.1) (term_at b.old place.2) sort.Rest)) }
    ensures grown { IsGrown b.old b.new }
{
    let arrays = arrays(alloc, classes)?;
    let made = elements_of_classes(alloc, b, place, &arrays)?;
    b.and(&made)
}
