// The instances of the rules on good stores.

ghost use Rattle.std.specs.Prelude.{◌≡◌, ◌≤◌, ◌^◌, length, IfOk};
ghost use Rattle.ss_core.specs.Chain.{most_classes, all_fields};
ghost use Rattle.ss_core.specs.View as view;
ghost use Rattle.ss_logic.specs.GoodRules.{good_sentence, good_instance_of};
ghost use Rattle.ss_terms.specs.Forms.{term_at, terms_at, HasTerm, HasTerms, IsGrown, IsBankOf};
ghost use Rattle.ss_terms.specs.Numbered.{IsNumberOf};

use crate::full::full_rule;
use crate::marks::marks_rule;
use crate::owned::owned_rule;
use crate::ready::ready_rule;
use crate::typed::typed_rule;
use ss_core::Classes;
use ss_logic::{GoodRule, Sort};
use ss_terms::{Bank, FormulaId, TermId};
use std::alloc::{AllocError, Global};

// What the rule says of these arguments.
fn sentence(
    alloc: Global,
    b: &mut Bank,
    classes: &Classes,
    rule: GoodRule,
    store: TermId,
    arguments: &[TermId],
) -> Result<Option<FormulaId>, AllocError>
    requires bank { IsBankOf (view.classes classes.now) b.old }
    requires classes { length (view.classes classes.now) ≤ most_classes }
    requires fields { length (all_fields (view.classes classes.now)) ≤ 2 ^ 32 }
    requires store { HasTerm b.old store }
    requires arguments { HasTerms b.old arguments.now }
    ensures at { IfOk result (λ r. IsNumberOf b.new r (good_sentence (view.classes classes.now) rule (term_at b.old store) (terms_at b.old arguments.now))) }
    ensures grown { IsGrown b.old b.new }
{
    match rule {
        GoodRule::Full => full_rule(alloc, b, store, arguments),
        GoodRule::Owned => owned_rule(alloc, b, store, arguments),
        GoodRule::Marks => marks_rule(alloc, b, classes, store, arguments),
        GoodRule::Typed => typed_rule(alloc, b, classes, store, arguments),
        GoodRule::Ready => ready_rule(alloc, b, classes, store, arguments),
    }
}

/// What the rule says of a good store and these arguments, where they fit it. An error is want of memory.
pub fn good_sentence_at(
    alloc: Global,
    b: &mut Bank,
    classes: &Classes,
    rule: GoodRule,
    store: TermId,
    arguments: &[TermId],
) -> Result<Option<FormulaId>, AllocError>
    requires bank { IsBankOf (view.classes classes.now) b.old }
    requires classes { length (view.classes classes.now) ≤ most_classes }
    requires fields { length (all_fields (view.classes classes.now)) ≤ 2 ^ 32 }
    requires store { HasTerm b.old store }
    requires arguments { HasTerms b.old arguments.now }
    ensures at { IfOk result (λ r. IsNumberOf b.new r (good_instance_of (view.classes classes.now) rule (term_at b.old store) (terms_at b.old arguments.now))) }
    ensures grown { IsGrown b.old b.new }
{
    if !b.have_sorts(&[Sort::Store], &[store]) {
        return Ok(None);
    }
    sentence(alloc, b, classes, rule, store, arguments)
}
