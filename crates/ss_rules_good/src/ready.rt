// Fields of ready objects aren't null, and values refer to ready objects.

ghost use Rattle.std.specs.Prelude.{◌≡◌, ◌≤◌, ◌^◌, Some, true, length, IfOk};
ghost use Rattle.ss_core.specs.Chain.{most_classes, all_fields};
ghost use Rattle.ss_core.specs.View as view;
ghost use Rattle.ss_logic.specs.Reads.{is_look};
ghost use Rattle.ss_logic.specs.Good.{ready_look, ready_of, ready_field};
ghost use Rattle.ss_store_rules.specs.Changes.{field_type};
ghost use Rattle.ss_terms.specs.Forms.{term_at, terms_at, HasTerm, HasTerms, IsGrown, IsBankOf};
ghost use Rattle.ss_terms.specs.Numbered.{IsNumberOf};
ghost use Rattle.ss_rules_basic.specs.Looks.{look_in, HasLook};

use ss_core::{Classes, Ty};
use ss_logic::Sort;
use ss_rules_basic::{
    Claim, Clause, Look, Plan, Slot, class_of_field, fill, read_named, type_of_field,
};
use ss_terms::{Bank, FormulaId, Predicate, Symbol, TermId};
use std::alloc::{AllocError, Global};

// A field refers to a ready object, and isn't null in a ready one where its type says so.
fn ready_field_at(
    alloc: Global,
    b: &mut Bank,
    classes: &Classes,
    s: TermId,
    o: TermId,
    f: u32,
) -> Result<Option<FormulaId>, AllocError>
    requires classes { length (view.classes classes.now) ≤ most_classes }
    requires store { HasTerm b.old s }
    requires object { HasTerm b.old o }
    ensures at { IfOk result (λ r. IsNumberOf b.new r (ready_field (view.classes classes.now) (term_at b.old s) (term_at b.old o) f (field_type (view.classes classes.now) f))) }
    ensures grown { IsGrown b.old b.new }
{
    let Ty::Ref { non_null, .. } = type_of_field(classes, f) else {
        return Ok(None);
    };
    let class = class_of_field(classes, f);
    let (s, o) = (Slot::Known(s), Slot::Known(o));
    let (x, null) = (Slot::Made(2), Slot::Made(3));
    let plans = [
        Plan::One(Symbol::TypeOf, o),
        Plan::Leaf(Symbol::ClassName(class)),
        Plan::Two(Symbol::Field(f), s, o),
        Plan::Leaf(Symbol::Null),
    ];
    let allocated = Claim::Is(Predicate::Allocated, s, o);
    let of_class = Claim::Is(Predicate::Sub, Slot::Made(0), Slot::Made(1));
    let some = Claim::Not(Predicate::Equal, x, null);
    let refers = Clause::IfThree(allocated, of_class, some, Claim::Is(Predicate::Ready, s, x));
    if non_null {
        let ready = Claim::Is(Predicate::Ready, s, o);
        let is_some = Clause::IfThree(allocated, of_class, ready, some);
        let r = fill(alloc, b, &plans, &[refers, is_some])?;
        return Ok(Some(r));
    }
    let r = fill(alloc, b, &plans, &[refers])?;
    Ok(Some(r))
}

// An element refers to a ready object.
fn ready_element(
    alloc: Global,
    b: &mut Bank,
    s: TermId,
    a: TermId,
    i: TermId,
) -> Result<Option<FormulaId>, AllocError>
    requires store { HasTerm b.old s }
    requires array { HasTerm b.old a }
    requires index { HasTerm b.old i }
    ensures at { IfOk result (λ r. IsNumberOf b.new r (Some (element_ready (term_at b.old s) (term_at b.old a) (term_at b.old i)))) }
    ensures grown { IsGrown b.old b.new }
{
    let (s, a, i) = (Slot::Known(s), Slot::Known(a), Slot::Known(i));
    let plans = [
        Plan::Three(Symbol::Element(Sort::Rest), s, a, i),
        Plan::Leaf(Symbol::Null),
    ];
    let clause = Clause::IfTwo(
        Claim::Is(Predicate::Allocated, s, a),
        Claim::Not(Predicate::Equal, Slot::Made(0), Slot::Made(1)),
        Claim::Is(Predicate::Ready, s, Slot::Made(0)),
    );
    let r = fill(alloc, b, &plans, &[clause])?;
    Ok(Some(r))
}

ghost use Rattle.ss_rules_good.specs.Fields.{element_ready};

// What is known of the read.
fn ready_read(
    alloc: Global,
    b: &mut Bank,
    classes: &Classes,
    s: TermId,
    look: Look,
) -> Result<Option<FormulaId>, AllocError>
    requires classes { length (view.classes classes.now) ≤ most_classes }
    requires store { HasTerm b.old s }
    requires look { HasLook b.old look }
    ensures at { IfOk result (λ r. IsNumberOf b.new r (ready_look (view.classes classes.now) (term_at b.old s) (look_in b.old look))) }
    ensures grown { IsGrown b.old b.new }
{
    match look {
        Look::Field(o, f) => ready_field_at(alloc, b, classes, s, o, f),
        Look::Element(Sort::Rest, a, i) => ready_element(alloc, b, s, a, i),
        _ => Ok(None),
    }
}

// The rule on ready objects.
pub(crate) fn ready_rule(
    alloc: Global,
    b: &mut Bank,
    classes: &Classes,
    s: TermId,
    arguments: &[TermId],
) -> Result<Option<FormulaId>, AllocError>
    requires bank { IsBankOf (view.classes classes.now) b.old }
    requires classes { length (view.classes classes.now) ≤ most_classes }
    requires fields { length (all_fields (view.classes classes.now)) ≤ 2 ^ 32 }
    requires store { HasTerm b.old s }
    requires arguments { HasTerms b.old arguments.now }
    ensures at { IfOk result (λ r. IsNumberOf b.new r (ready_of (view.classes classes.now) (term_at b.old s) (terms_at b.old arguments.now))) }
    ensures grown { IsGrown b.old b.new }
{
    match arguments {
        [kind, rest @ ..] => ready_named(alloc, b, classes, s, *kind, rest),
        [] => Ok(None),
    }
}

// The rule on a read that a literal and the other arguments name.
fn ready_named(
    alloc: Global,
    b: &mut Bank,
    classes: &Classes,
    s: TermId,
    kind: TermId,
    arguments: &[TermId],
) -> Result<Option<FormulaId>, AllocError>
    requires bank { IsBankOf (view.classes classes.now) b.old }
    requires classes { length (view.classes classes.now) ≤ most_classes }
    requires fields { length (all_fields (view.classes classes.now)) ≤ 2 ^ 32 }
    requires store { HasTerm b.old s }
    requires kind { HasTerm b.old kind }
    requires arguments { HasTerms b.old arguments.now }
    ensures at { IfOk result (λ r. IsNumberOf b.new r (good.ready_read (view.classes classes.now) (term_at b.old s) (look_from (term_at b.old kind) (terms_at b.old arguments.now)))) }
    ensures grown { IsGrown b.old b.new }
{
    match read_named(b, classes, kind, arguments) {
        Some(look) => ready_read(alloc, b, classes, s, look),
        None => Ok(None),
    }
}

ghost use Rattle.ss_logic.specs.Good as good;
ghost use Rattle.ss_logic.specs.Reads.{look_from};
