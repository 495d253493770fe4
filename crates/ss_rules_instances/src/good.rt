// The instances of the rules on good stores.

ghost use Rattle.std.specs.Prelude.{◌≡◌, IfOk};
ghost use Rattle.ss_core.specs.Chain.{IsWithinLimits};
ghost use Rattle.ss_core.specs.View as view;
ghost use Rattle.ss_logic.specs.GoodRules.{good_instance_of};
ghost use Rattle.ss_terms.specs.Forms.{term_at, terms_at, HasTerm, HasTerms, IsFormulaNumber, IsGrown, IsBankOf};

use ss_core::Classes;
use ss_logic::GoodRule;
use ss_rules_good::good_sentence_at;
use ss_terms::{Bank, FormulaId, TermId};
use std::alloc::{AllocError, Global};

/// What a rule says of a good store and these arguments, where they fit it. An error is want of memory; what the bank had before stays.
pub fn good_instance(
    alloc: Global,
    b: &mut Bank,
    classes: &Classes,
    rule: GoodRule,
    store: TermId,
    arguments: &[TermId],
) -> Result<Option<FormulaId>, AllocError>
    requires bank { IsBankOf (view.classes classes.now) b.old }
    requires limits { IsWithinLimits (view.classes classes.now) }
    requires store { HasTerm b.old store }
    requires arguments { HasTerms b.old arguments.now }
    ensures at { IfOk result (λ o. IsFormulaNumber b.new (good_instance_of (view.classes classes.now) rule (term_at b.old store) (terms_at b.old arguments.now)) o) }
    ensures grown { IsGrown b.old b.new }
{
    good_sentence_at(alloc, b, classes, rule, store, arguments)
}
