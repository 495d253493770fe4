// What a marked field refers to has the owner that the mark says.

ghost use Rattle.std.specs.Prelude.{◌≡◌, ◌≤◌, ◌^◌, length, IfOk};
ghost use Rattle.ss_core.specs.Chain.{most_classes, all_fields};
ghost use Rattle.ss_core.specs.View as view;
ghost use Rattle.ss_store_rules.specs.Changes.{field_mark, field_type};
ghost use Rattle.ss_logic.specs.Good.{marked, marks_of};
ghost use Rattle.ss_terms.specs.Forms.{term_at, terms_at, HasTerm, HasTerms, IsGrown, IsBankOf};
ghost use Rattle.ss_terms.specs.Numbered.{IsNumberOf};

use ss_core::{Classes, Mark, is_class_type};
use ss_logic::Sort;
use ss_rules_basic::{
    Claim, Clause, Plan, Slot, class_of_field, field_named, fill, mark_of_field, type_of_field,
};
use ss_terms::{Bank, FormulaId, Predicate, Symbol, TermId};
use std::alloc::{AllocError, Global};

// The owner that the mark of the field says.
fn marked_at(
    alloc: Global,
    b: &mut Bank,
    classes: &Classes,
    s: TermId,
    o: TermId,
    f: u32,
) -> Result<Option<FormulaId>, AllocError>
    requires classes { length (view.classes classes.now) ≤ most_classes }
    requires store { HasTerm b.old s }
    requires object { HasTerm b.old o }
    ensures at { IfOk result (λ r. IsNumberOf b.new r (marked (view.classes classes.now) (term_at b.old s) (term_at b.old o) f (field_mark (view.classes classes.now) f))) }
    ensures grown { IsGrown b.old b.new }
{
    let owner = match mark_of_field(classes, f) {
        Mark::Plain => return Ok(None),
        Mark::Rep => Plan::Two(Symbol::Pair, Slot::Known(o), Slot::Made(1)),
        Mark::Peer => Plan::Two(Symbol::Owner, Slot::Known(s), Slot::Known(o)),
    };
    let class = class_of_field(classes, f);
    let (s, o) = (Slot::Known(s), Slot::Known(o));
    let plans = [
        Plan::One(Symbol::TypeOf, o),
        Plan::Leaf(Symbol::ClassName(class)),
        Plan::Two(Symbol::Field(f), s, o),
        Plan::Leaf(Symbol::Null),
        Plan::Two(Symbol::Owner, s, Slot::Made(2)),
        owner,
    ];
    let clause = Clause::IfThree(
        Claim::Is(Predicate::Allocated, s, o),
        Claim::Is(Predicate::Sub, Slot::Made(0), Slot::Made(1)),
        Claim::Not(Predicate::Equal, Slot::Made(2), Slot::Made(3)),
        Claim::Is(Predicate::Equal, Slot::Made(4), Slot::Made(5)),
    );
    let r = fill(alloc, b, &plans, &[clause])?;
    Ok(Some(r))
}

// The rule on marked fields.
pub(crate) fn marks_rule(
    alloc: Global,
    b: &mut Bank,
    classes: &Classes,
    s: TermId,
    arguments: &[TermId],
) -> Result<Option<FormulaId>, AllocError>
    requires bank { IsBankOf (view.classes classes.now) b.old }
    requires classes { length (view.classes classes.now) ≤ most_classes }
    requires fields { length (all_fields (view.classes classes.now)) ≤ 2 ^ 32 }
    requires store { HasTerm b.old s }
    requires arguments { HasTerms b.old arguments.now }
    ensures at { IfOk result (λ r. IsNumberOf b.new r (marks_of (view.classes classes.now) (term_at b.old s) (terms_at b.old arguments.now))) }
    ensures grown { IsGrown b.old b.new }
{
    let [o, f] = arguments else {
        return Ok(None);
    };
    let Some(f) = field_named(b, classes, *f) else {
        return Ok(None);
    };
    if !is_class_type(type_of_field(classes, f)) || !b.have_sorts(&[Sort::Rest], &[*o]) {
        return Ok(None);
    }
    marked_at(alloc, b, classes, s, *o, f)
}
