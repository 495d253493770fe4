// A committed object is at its full level.

ghost use Rattle.std.specs.Prelude.{◌≡◌, List, IfOk};
ghost use Rattle.ss_core.specs.Tree.{ClassTree};
ghost use Rattle.ss_logic.specs.Good.{full_level, full_of};
ghost use Rattle.ss_terms.specs.Forms.{term_at, terms_at, formula_at, HasTerm, HasTerms, HasFormula, IsGrown, IsBankOf};
ghost use Rattle.ss_terms.specs.Numbered.{IsNumberOf};

use ss_logic::Sort;
use ss_rules_basic::{Claim, Clause, Plan, Slot, fill};
use ss_terms::{Bank, FormulaId, Predicate, Symbol, TermId};
use std::alloc::{AllocError, Global};

// The level of the object is its class.
fn full_level_at(alloc: Global, b: &mut Bank, s: TermId, o: TermId) -> Result<FormulaId, AllocError>
    requires store { HasTerm b.old s }
    requires object { HasTerm b.old o }
    ensures at { IfOk result (λ f. HasFormula b.new f × (formula_at b.new f ≡ full_level (term_at b.old s) (term_at b.old o))) }
    ensures grown { IsGrown b.old b.new }
{
    let (s, o) = (Slot::Known(s), Slot::Known(o));
    let plans = [Plan::Two(Symbol::Level, s, o), Plan::One(Symbol::TypeOf, o)];
    let clause = Clause::IfTwo(
        Claim::Is(Predicate::Allocated, s, o),
        Claim::Is(Predicate::Committed, s, o),
        Claim::Is(Predicate::Equal, Slot::Made(0), Slot::Made(1)),
    );
    fill(alloc, b, &plans, &[clause])
}

// The rule on committed objects.
pub(crate) fn full_rule(
    alloc: Global,
    b: &mut Bank,
    s: TermId,
    arguments: &[TermId],
) -> Result<Option<FormulaId>, AllocError>
    requires store { HasTerm b.old s }
    requires arguments { HasTerms b.old arguments.now }
    ensures at { (cs : List ClassTree) → IsBankOf cs b.old → IfOk result (λ r. IsNumberOf b.new r (full_of cs (term_at b.old s) (terms_at b.old arguments.now))) }
    ensures grown { IsGrown b.old b.new }
{
    let [o] = arguments else {
        return Ok(None);
    };
    if !b.have_sorts(&[Sort::Rest], &[*o]) {
        return Ok(None);
    }
    let f = full_level_at(alloc, b, s, *o)?;
    Ok(Some(f))
}
