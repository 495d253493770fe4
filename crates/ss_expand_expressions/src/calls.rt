// Where calls stand in an expression.

ghost use Rattle.std.specs.Prelude.{◌≡◌, ◌||◌};
ghost use Rattle.ss_core.specs.declared.names.Place.{Place};
ghost use Rattle.ss_typed.specs.Tree.{ExprTree};
ghost use Rattle.ss_typed.specs.View.{expr};
ghost use Rattle.ss_expand_rules.specs.Calls as calls;
ghost use Rattle.ss_typed.specs.Parts.{link_after, linked, step_after, stepped};

use ss_typed::{TypedExpr, TypedLink, TypedStep};

/// Whether a call or a `new` stands in the expression.
#[cycle(calls)]
pub fn has_call(e: &TypedExpr) -> bool
    ensures { result ≡ calls.has_call (expr e.now) }
{
    match e {
        TypedExpr::Int(..)
        | TypedExpr::Bool(..)
        | TypedExpr::Null(..)
        | TypedExpr::This(..)
        | TypedExpr::Local(..)
        | TypedExpr::Result(..)
        | TypedExpr::Bound(..) => false,
        TypedExpr::Iff(_, a, b) => has_call(a) || has_call(b),
        TypedExpr::Implies(_, a, b) => has_call(a) || has_call(b),
        TypedExpr::Chain(_, first, links) => has_call(first) || links_have_call(links),
        TypedExpr::Negate(_, e) => has_call(e),
        TypedExpr::Not(_, e) => has_call(e),
        TypedExpr::Cast(_, _, _, e) => has_call(e),
        TypedExpr::Path(_, first, steps) => has_call(first) || steps_have_call(steps),
        TypedExpr::Old(_, e) => has_call(e),
        TypedExpr::Quantified(_, _, _, low, high, e) => {
            has_call(low) || has_call(high) || has_call(e)
        }
        TypedExpr::State(_, _, e) => has_call(e),
        TypedExpr::Owners(_, _, a, b) => has_call(a) || has_call(b),
        TypedExpr::New(..)
        | TypedExpr::NewArray(..)
        | TypedExpr::Static(..)
        | TypedExpr::Base(..) => true,
    }
}

/// Whether one stands in the operands of these links.
#[cycle(calls)]
pub fn links_have_call(links: &[TypedLink]) -> bool
    ensures { (p : Place) → (before : ExprTree) → calls.has_call (linked p before links.now) ≡ (calls.has_call before || result) }
{
    for link in links {
        if link_has_call(link) {
            return true;
        }
    }
    false
}

/// Whether one stands in the operand of this link.
#[cycle(calls)]
pub fn link_has_call(link: &TypedLink) -> bool
    ensures { (p : Place) → (before : ExprTree) → calls.has_call (link_after link.now p before) ≡ (calls.has_call before || result) }
{
    match link {
        TypedLink::Operation(_, e) => has_call(e),
        TypedLink::Is(_) | TypedLink::As(_) => false,
    }
}

/// Whether one stands in these steps, or one of them is a call.
#[cycle(calls)]
pub fn steps_have_call(steps: &[TypedStep]) -> bool
    ensures { (p : Place) → (before : ExprTree) → calls.has_call (stepped p before steps.now) ≡ (calls.has_call before || result) }
{
    for step in steps {
        if step_has_call(step) {
            return true;
        }
    }
    false
}

/// Whether one stands in this step, or it is a call.
#[cycle(calls)]
pub fn step_has_call(step: &TypedStep) -> bool
    ensures { (p : Place) → (before : ExprTree) → calls.has_call (step_after step.now p before) ≡ (calls.has_call before || result) }
{
    match step {
        TypedStep::Element(e) => has_call(e),
        TypedStep::Call(..) => true,
        TypedStep::Field(..) | TypedStep::Length => false,
    }
}
