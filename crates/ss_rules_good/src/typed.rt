// Values are in range, allocated and of their classes.

ghost use Rattle.std.specs.Prelude.{◌≡◌, ◌≤◌, ◌^◌, Option, Some, None, List, [], ◌∷◌, map, length, IfOk};
ghost use Rattle.ss_core.specs.Tree.{ClassTree};
ghost use Rattle.ss_core.specs.Chain.{most_classes, all_fields};
ghost use Rattle.ss_core.specs.View as view;
ghost use Rattle.ss_logic.specs.declared.Sort.TheVariants as sort;
ghost use Rattle.ss_logic.specs.Terms as tree;
ghost use Rattle.ss_logic.specs.Terms.{app};
ghost use Rattle.ss_logic.specs.Shapes.{class_of_term};
ghost use Rattle.ss_logic.specs.Reads.{look_from, is_look};
ghost use Rattle.ss_logic.specs.Good.{arrays_of_references, element_typed, typed_field, typed_element, level_typed, length_typed, typed_look, typed_read, typed_level, owner_allocated, typed_of};
ghost use Rattle.ss_store_rules.specs.Changes.{field_type};
ghost use Rattle.ss_terms.specs.Forms.{term_at, terms_at, formula_at, HasTerm, HasTerms, HasFormula, HasFormulas, formulas_at, IsGrown, IsBankOf};
ghost use Rattle.ss_terms.specs.Numbered.{IsNumberOf};
ghost use Rattle.ss_rules_basic.specs.Looks.{look_in, HasLook};

use crate::elements::typed_element_at;
use ss_core::{Classes, Ty};
use ss_logic::Sort;
use ss_rules_basic::{
    Claim, Clause, Look, Plan, Slot, class_name, class_of_field, fill, natural, read_named,
    type_of_field,
};
use ss_terms::{Bank, FormulaId, Predicate, Symbol, TermId};
use std::alloc::{AllocError, Global};

// A field holds a number in range, or refers to an allocated object of its class.
fn typed_field_at(
    alloc: Global,
    b: &mut Bank,
    classes: &Classes,
    s: TermId,
    o: TermId,
    f: u32,
) -> Result<Option<FormulaId>, AllocError>
    requires classes { length (view.classes classes.now) ≤ most_classes }
    requires store { HasTerm b.old s }
    requires object { HasTerm b.old o }
    ensures at { IfOk result (λ r. IsNumberOf b.new r (typed_field (view.classes classes.now) (term_at b.old s) (term_at b.old o) f (field_type (view.classes classes.now) f))) }
    ensures grown { IsGrown b.old b.new }
{
    let declaring = class_of_field(classes, f);
    match type_of_field(classes, f) {
        Ty::Int => {
            let r = field_in_range(alloc, b, declaring, s, o, f)?;
            Ok(Some(r))
        }
        Ty::Ref { class, .. } => {
            let r = field_of_class(alloc, b, (declaring, class.0), s, o, f)?;
            Ok(Some(r))
        }
        _ => Ok(None),
    }
}

ghost use Rattle.std.specs.Prelude.{ℕ, ◌++◌};
ghost use Rattle.ss_logic.specs.Shapes.{all_of, class_term, type_of, null_term, sub_atom, allocated, differ, given};
ghost use Rattle.ss_logic.specs.Good.{field_term, in_range};
ghost use Rattle.ss_rules_good.specs.Fields.{of_class, field_typed};

// A field of whole numbers is in range.
fn field_in_range(
    alloc: Global,
    b: &mut Bank,
    declaring: u16,
    s: TermId,
    o: TermId,
    f: u32,
) -> Result<FormulaId, AllocError>
    requires store { HasTerm b.old s }
    requires object { HasTerm b.old o }
    ensures at { IfOk result (λ r. HasFormula b.new r × (formula_at b.new r ≡ all_of (in_range (of_class declaring (term_at b.old s) (term_at b.old o)) (field_term (term_at b.old s) (term_at b.old o) f)))) }
    ensures grown { IsGrown b.old b.new }
{
    let (s, o, x) = (Slot::Known(s), Slot::Known(o), Slot::Made(2));
    let plans = [
        Plan::One(Symbol::TypeOf, o),
        Plan::Leaf(Symbol::ClassName(declaring)),
        Plan::Two(Symbol::Field(f), s, o),
        Plan::Leaf(Symbol::Number(-2147483648)),
        Plan::Leaf(Symbol::Number(2147483647)),
    ];
    let allocated = Claim::Is(Predicate::Allocated, s, o);
    let of_class = Claim::Is(Predicate::Sub, Slot::Made(0), Slot::Made(1));
    let clauses = [
        Clause::IfTwo(
            allocated,
            of_class,
            Claim::Is(Predicate::AtMost, Slot::Made(3), x),
        ),
        Clause::IfTwo(
            allocated,
            of_class,
            Claim::Is(Predicate::AtMost, x, Slot::Made(4)),
        ),
    ];
    fill(alloc, b, &plans, &clauses)
}

// A field of references refers to an allocated object of the class.
fn field_of_class(
    alloc: Global,
    b: &mut Bank,
    named: (u16, u16),
    s: TermId,
    o: TermId,
    f: u32,
) -> Result<FormulaId, AllocError>
    requires store { HasTerm b.old s }
    requires object { HasTerm b.old o }
    ensures at { IfOk result (λ r. HasFormula b.new r × (formula_at b.new r ≡ all_of (field_typed (of_class named.0 (term_at b.old s) (term_at b.old o)) (term_at b.old s) (field_term (term_at b.old s) (term_at b.old o) f) named.1))) }
    ensures grown { IsGrown b.old b.new }
{
    let (declaring, class) = named;
    let (s, o, x) = (Slot::Known(s), Slot::Known(o), Slot::Made(2));
    let plans = [
        Plan::One(Symbol::TypeOf, o),
        Plan::Leaf(Symbol::ClassName(declaring)),
        Plan::Two(Symbol::Field(f), s, o),
        Plan::Leaf(Symbol::Null),
        Plan::One(Symbol::TypeOf, x),
        Plan::Leaf(Symbol::ClassName(class)),
    ];
    let is_allocated = Claim::Is(Predicate::Allocated, s, o);
    let of_class = Claim::Is(Predicate::Sub, Slot::Made(0), Slot::Made(1));
    let some = Claim::Not(Predicate::Equal, x, Slot::Made(3));
    let clauses = [
        Clause::IfThree(
            is_allocated,
            of_class,
            some,
            Claim::Is(Predicate::Allocated, s, x),
        ),
        Clause::IfThree(
            is_allocated,
            of_class,
            some,
            Claim::Is(Predicate::Sub, Slot::Made(4), Slot::Made(5)),
        ),
    ];
    fill(alloc, b, &plans, &clauses)
}

// The class of an object is below its level.
fn level_typed_at(
    alloc: Global,
    b: &mut Bank,
    s: TermId,
    o: TermId,
) -> Result<FormulaId, AllocError>
    requires store { HasTerm b.old s }
    requires object { HasTerm b.old o }
    ensures at { IfOk result (λ r. HasFormula b.new r × (formula_at b.new r ≡ level_typed (term_at b.old s) (term_at b.old o))) }
    ensures grown { IsGrown b.old b.new }
{
    let (s, o) = (Slot::Known(s), Slot::Known(o));
    let plans = [Plan::One(Symbol::TypeOf, o), Plan::Two(Symbol::Level, s, o)];
    let clause = Clause::If(
        Claim::Is(Predicate::Allocated, s, o),
        Claim::Is(Predicate::Sub, Slot::Made(0), Slot::Made(1)),
    );
    fill(alloc, b, &plans, &[clause])
}

// A length is in range.
fn length_typed_at(
    alloc: Global,
    b: &mut Bank,
    s: TermId,
    a: TermId,
) -> Result<FormulaId, AllocError>
    requires store { HasTerm b.old s }
    requires array { HasTerm b.old a }
    ensures at { IfOk result (λ r. HasFormula b.new r × (formula_at b.new r ≡ length_typed (term_at b.old s) (term_at b.old a))) }
    ensures grown { IsGrown b.old b.new }
{
    let (s, a) = (Slot::Known(s), Slot::Known(a));
    let plans = [
        Plan::One(Symbol::Length, a),
        Plan::Leaf(Symbol::Number(0)),
        Plan::Leaf(Symbol::Number(2147483647)),
    ];
    let is_allocated = Claim::Is(Predicate::Allocated, s, a);
    let clauses = [
        Clause::If(
            is_allocated,
            Claim::Is(Predicate::AtMost, Slot::Made(1), Slot::Made(0)),
        ),
        Clause::If(
            is_allocated,
            Claim::Is(Predicate::AtMost, Slot::Made(0), Slot::Made(2)),
        ),
    ];
    fill(alloc, b, &plans, &clauses)
}

// Where the level of the object is the class, its class is below that.
fn level_named(
    alloc: Global,
    b: &mut Bank,
    s: TermId,
    o: TermId,
    t: u16,
) -> Result<FormulaId, AllocError>
    requires store { HasTerm b.old s }
    requires object { HasTerm b.old o }
    ensures at { IfOk result (λ r. HasFormula b.new r × (formula_at b.new r ≡ level_at (term_at b.old s) (term_at b.old o) t)) }
    ensures grown { IsGrown b.old b.new }
{
    let (s, o) = (Slot::Known(s), Slot::Known(o));
    let plans = [
        Plan::Two(Symbol::Level, s, o),
        Plan::Leaf(Symbol::ClassName(t)),
        Plan::One(Symbol::TypeOf, o),
    ];
    let clause = Clause::IfTwo(
        Claim::Is(Predicate::Allocated, s, o),
        Claim::Is(Predicate::Equal, Slot::Made(0), Slot::Made(1)),
        Claim::Is(Predicate::Sub, Slot::Made(2), Slot::Made(1)),
    );
    fill(alloc, b, &plans, &[clause])
}

ghost use Rattle.ss_logic.specs.Good.{level_at};

// The object of an owner is allocated.
fn owner_allocated_at(
    alloc: Global,
    b: &mut Bank,
    s: TermId,
    p: TermId,
    owner: (TermId, TermId),
) -> Result<FormulaId, AllocError>
    requires store { HasTerm b.old s }
    requires object { HasTerm b.old p }
    requires owner { HasTerm b.old owner.0 }
    requires class { HasTerm b.old owner.1 }
    ensures at { IfOk result (λ r. HasFormula b.new r × (formula_at b.new r ≡ owner_allocated (term_at b.old s) (term_at b.old p) (term_at b.old owner.0) (term_at b.old owner.1))) }
    ensures grown { IsGrown b.old b.new }
{
    let (s, p) = (Slot::Known(s), Slot::Known(p));
    let (o, t) = (Slot::Known(owner.0), Slot::Known(owner.1));
    let plans = [
        Plan::Two(Symbol::Owner, s, p),
        Plan::Two(Symbol::Pair, o, t),
    ];
    let clause = Clause::IfTwo(
        Claim::Is(Predicate::Allocated, s, p),
        Claim::Is(Predicate::Equal, Slot::Made(0), Slot::Made(1)),
        Claim::Is(Predicate::Allocated, s, o),
    );
    fill(alloc, b, &plans, &[clause])
}

// What is known of the read.
fn typed_read_at(
    alloc: Global,
    b: &mut Bank,
    classes: &Classes,
    s: TermId,
    look: Look,
) -> Result<Option<FormulaId>, AllocError>
    requires classes { length (view.classes classes.now) ≤ most_classes }
    requires store { HasTerm b.old s }
    requires look { HasLook b.old look }
    ensures at { IfOk result (λ r. IsNumberOf b.new r (typed_look (view.classes classes.now) (term_at b.old s) (look_in b.old look))) }
    ensures grown { IsGrown b.old b.new }
{
    match look {
        Look::Field(o, f) => typed_field_at(alloc, b, classes, s, o, f),
        Look::Element(sort, a, i) => typed_element_at(alloc, b, classes, sort, (s, a, i)),
        Look::Level(o) => {
            let r = level_typed_at(alloc, b, s, o)?;
            Ok(Some(r))
        }
        Look::Length(a) => {
            let r = length_typed_at(alloc, b, s, a)?;
            Ok(Some(r))
        }
        _ => Ok(None),
    }
}

// The rule on a read that a literal and the other arguments name.
fn typed_named(
    alloc: Global,
    b: &mut Bank,
    classes: &Classes,
    s: TermId,
    kind: TermId,
    arguments: &[TermId],
) -> Result<Option<FormulaId>, AllocError>
    requires bank { IsBankOf (view.classes classes.now) b.old }
    requires classes { length (view.classes classes.now) ≤ most_classes }
    requires fields { length (all_fields (view.classes classes.now)) ≤ 2 ^ 32 }
    requires store { HasTerm b.old s }
    requires kind { HasTerm b.old kind }
    requires arguments { HasTerms b.old arguments.now }
    ensures at { IfOk result (λ r. IsNumberOf b.new r (typed_read (view.classes classes.now) (term_at b.old s) (look_from (term_at b.old kind) (terms_at b.old arguments.now)))) }
    ensures grown { IsGrown b.old b.new }
{
    match read_named(b, classes, kind, arguments) {
        Some(look) => typed_read_at(alloc, b, classes, s, look),
        None => Ok(None),
    }
}

// Whether the literal is this number.
fn is_literal(b: &Bank, t: TermId, number: u128) -> bool
    requires { HasTerm b.now t }
    ensures { result ≡ is_number number (term_at b.now t) }
{
    match natural(b, t) {
        Some(n) => n == number,
        None => false,
    }
}

ghost use Rattle.ss_logic.specs.Good.{is_number};

// The rule on a read of two arguments, or a level that is known.
fn typed_two(
    alloc: Global,
    b: &mut Bank,
    classes: &Classes,
    s: TermId,
    kind: TermId,
    read: (TermId, TermId),
) -> Result<Option<FormulaId>, AllocError>
    requires bank { IsBankOf (view.classes classes.now) b.old }
    requires classes { length (view.classes classes.now) ≤ most_classes }
    requires fields { length (all_fields (view.classes classes.now)) ≤ 2 ^ 32 }
    requires store { HasTerm b.old s }
    requires kind { HasTerm b.old kind }
    requires first { HasTerm b.old read.0 }
    requires second { HasTerm b.old read.1 }
    ensures at { IfOk result (λ r. IsNumberOf b.new r (typed_of (view.classes classes.now) (term_at b.old s) (term_at b.old kind ∷ term_at b.old read.0 ∷ term_at b.old read.1 ∷ []))) }
    ensures grown { IsGrown b.old b.new }
{
    let (o, t) = read;
    if !is_literal(b, kind, 2) || !b.have_sorts(&[Sort::Rest], &[o]) {
        return typed_named(alloc, b, classes, s, kind, &[o, t]);
    }
    let Some(t) = class_name(b, t) else {
        return Ok(None);
    };
    let r = level_named(alloc, b, s, o, t)?;
    Ok(Some(r))
}

// The rule on an owner.
fn typed_owner(
    alloc: Global,
    b: &mut Bank,
    s: TermId,
    kind: TermId,
    p: TermId,
    owner: (TermId, TermId),
) -> Result<Option<FormulaId>, AllocError>
    requires store { HasTerm b.old s }
    requires kind { HasTerm b.old kind }
    requires object { HasTerm b.old p }
    requires owner { HasTerm b.old owner.0 }
    requires class { HasTerm b.old owner.1 }
    ensures at { (cs : List ClassTree) → IsBankOf cs b.old → IfOk result (λ r. IsNumberOf b.new r (typed_of cs (term_at b.old s) (term_at b.old kind ∷ term_at b.old p ∷ term_at b.old owner.0 ∷ term_at b.old owner.1 ∷ []))) }
    ensures grown { IsGrown b.old b.new }
{
    let (o, t) = owner;
    if !is_literal(b, kind, 3) || !b.have_sorts(&[Sort::Rest, Sort::Rest, Sort::Rest], &[p, o, t]) {
        return Ok(None);
    }
    let r = owner_allocated_at(alloc, b, s, p, owner)?;
    Ok(Some(r))
}

// The rule on values.
pub(crate) fn typed_rule(
    alloc: Global,
    b: &mut Bank,
    classes: &Classes,
    s: TermId,
    arguments: &[TermId],
) -> Result<Option<FormulaId>, AllocError>
    requires bank { IsBankOf (view.classes classes.now) b.old }
    requires classes { length (view.classes classes.now) ≤ most_classes }
    requires fields { length (all_fields (view.classes classes.now)) ≤ 2 ^ 32 }
    requires store { HasTerm b.old s }
    requires arguments { HasTerms b.old arguments.now }
    ensures at { IfOk result (λ r. IsNumberOf b.new r (typed_of (view.classes classes.now) (term_at b.old s) (terms_at b.old arguments.now))) }
    ensures grown { IsGrown b.old b.new }
{
    match arguments {
        [kind] => typed_named(alloc, b, classes, s, *kind, &[]),
        [kind, o] => typed_named(alloc, b, classes, s, *kind, &[*o]),
        [kind, o, t] => typed_two(alloc, b, classes, s, *kind, (*o, *t)),
        [kind, p, o, t] => typed_owner(alloc, b, s, *kind, *p, (*o, *t)),
        _ => Ok(None),
    }
}
