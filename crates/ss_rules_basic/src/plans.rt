// Plans of terms, and the terms made of them.

ghost use Rattle.std.specs.Prelude.{◌≡◌, [], length, IfOk};
ghost use Rattle.ss_terms.specs.Forms.{term_at, terms_at, HasTerm, HasTerms, IsGrown};
ghost use Rattle.ss_rules_basic.specs.Plans.{slot_id, slot_value, plan_at, planned, HasPlan, HasPlans};

use ss_terms::{Bank, Symbol, TermId};
use std::alloc::{AllocError, Global};

/// A term that is in the bank, or the result of a plan.
#[derive(Clone, Copy)]
pub enum Slot {
    /// The term with this number.
    Known(TermId),
    /// The result of this plan, counted from 0.
    Made(usize),
}

/// A term to be made: a function at its arguments. An argument may be the result of an earlier plan.
#[derive(Clone, Copy)]
pub enum Plan {
    /// Without arguments.
    Leaf(Symbol),
    /// At one argument.
    One(Symbol, Slot),
    /// At two.
    Two(Symbol, Slot, Slot),
    /// At three.
    Three(Symbol, Slot, Slot, Slot),
}

impl Slot {
    // The number, where the plans have these results.
    pub(crate) fn resolve(self, made: &[TermId]) -> TermId
        ensures { result ≡ slot_id made.now self }
    {
        match self {
            Slot::Known(t) => t,
            Slot::Made(number) => made.get(number).copied().unwrap_or(TermId(0)),
        }
    }
}

impl Plan {
    // The term in the bank.
    fn make(self, b: &mut Bank, made: &[TermId]) -> Result<TermId, AllocError>
        requires made { HasTerms b.old made.now }
        requires plan { HasPlan b.old (length made.now) self }
        ensures at { IfOk result (λ t. HasTerm b.new t × (term_at b.new t ≡ plan_at (slot_value (term_at b.old) (terms_at b.old made.now)) self)) }
        ensures grown { IsGrown b.old b.new }
    {
        match self {
            Plan::Leaf(symbol) => b.apply(symbol, &[]),
            Plan::One(symbol, x) => {
                let x = x.resolve(made);
                b.apply(symbol, &[x])
            }
            Plan::Two(symbol, x, y) => {
                let x = x.resolve(made);
                let y = y.resolve(made);
                b.apply(symbol, &[x, y])
            }
            Plan::Three(symbol, x, y, z) => {
                let x = x.resolve(made);
                let y = y.resolve(made);
                let z = z.resolve(made);
                b.apply(symbol, &[x, y, z])
            }
        }
    }
}

// The results of the plans, in order.
pub(crate) fn make_terms(
    alloc: Global,
    b: &mut Bank,
    plans: &[Plan],
) -> Result<Vec<TermId>, AllocError>
    requires { HasPlans b.old 0 plans.now }
    ensures there { IfOk result (λ v. HasTerms b.new v.items) }
    ensures at { IfOk result (λ v. terms_at b.new v.items ≡ planned (term_at b.old) [] plans.now) }
    ensures grown { IsGrown b.old b.new }
{
    let mut made = Vec::with_capacity(alloc, plans.len())?;
    for plan in plans {
        let t = plan.make(b, &made)?;
        made.push(t)?;
    }
    Ok(made)
}
