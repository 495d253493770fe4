// Where `this` stands in an expression.

ghost use Rattle.std.specs.Prelude.{◌≡◌, ◌||◌, map};
ghost use Rattle.ss_core.specs.declared.names.Place.{Place};
ghost use Rattle.ss_typed.specs.Tree.{ExprTree, arguments};
ghost use Rattle.ss_typed.specs.View.{expr};
ghost use Rattle.ss_typed.specs.Shapes as shapes;
ghost use Rattle.ss_typed.specs.Parts.{link_after, linked, step_after, stepped};

use crate::expr::{TypedExpr, TypedLink, TypedStep};

/// Whether `this` stands in it, or a call of a method of the class above on `this`.
#[cycle(mentions)]
pub fn mentions_this(e: &TypedExpr) -> bool
    ensures { result ≡ shapes.mentions_this (expr e.now) }
{
    match e {
        TypedExpr::Int(..)
        | TypedExpr::Bool(..)
        | TypedExpr::Null(..)
        | TypedExpr::Local(..)
        | TypedExpr::Result(..)
        | TypedExpr::Bound(..) => false,
        TypedExpr::This(..) => true,
        TypedExpr::Iff(_, a, b) => mentions_this(a) || mentions_this(b),
        TypedExpr::Implies(_, a, b) => mentions_this(a) || mentions_this(b),
        TypedExpr::Chain(_, first, links) => links_mention_this(mentions_this(first), links),
        TypedExpr::Negate(_, e) => mentions_this(e),
        TypedExpr::Not(_, e) => mentions_this(e),
        TypedExpr::Cast(_, _, _, e) => mentions_this(e),
        TypedExpr::Path(_, first, steps) => steps_mention_this(mentions_this(first), steps),
        TypedExpr::Old(_, e) => mentions_this(e),
        TypedExpr::Quantified(_, _, _, low, high, e) => {
            mentions_this(low) || mentions_this(high) || mentions_this(e)
        }
        TypedExpr::State(_, _, e) => mentions_this(e),
        TypedExpr::Owners(_, _, a, b) => mentions_this(a) || mentions_this(b),
        TypedExpr::New(_, _, es) => mention_this(es),
        TypedExpr::NewArray(_, _, e) => mentions_this(e),
        TypedExpr::Static(_, _, _, es) => mention_this(es),
        TypedExpr::Base(..) => true,
    }
}

// Whether it stands in one of these.
#[cycle(mentions)]
fn mention_this(es: &[TypedExpr]) -> bool
    ensures { result ≡ shapes.mention_this (arguments (map expr es.now)) }
{
    for e in es {
        if mentions_this(e) {
            return true;
        }
    }
    false
}

// Whether it stands in the first operand, as is told, or in these links.
#[cycle(mentions)]
fn links_mention_this(first: bool, links: &[TypedLink]) -> bool
    ensures { (p : Place) → (before : ExprTree) → shapes.mentions_this before ≡ first → shapes.mentions_this (linked p before links.now) ≡ result }
{
    let mut found = first;
    for link in links {
        found = link_mentions_this(found, link);
    }
    found
}

#[cycle(mentions)]
fn link_mentions_this(first: bool, link: &TypedLink) -> bool
    ensures { (p : Place) → (before : ExprTree) → shapes.mentions_this before ≡ first → shapes.mentions_this (link_after link.now p before) ≡ result }
{
    match link {
        TypedLink::Operation(_, e) => first || mentions_this(e),
        TypedLink::Is(_) | TypedLink::As(_) => first,
    }
}

// Whether it stands in the beginning of a path, as is told, or in these steps.
#[cycle(mentions)]
fn steps_mention_this(first: bool, steps: &[TypedStep]) -> bool
    ensures { (p : Place) → (before : ExprTree) → shapes.mentions_this before ≡ first → shapes.mentions_this (stepped p before steps.now) ≡ result }
{
    let mut found = first;
    for step in steps {
        found = step_mentions_this(found, step);
    }
    found
}

#[cycle(mentions)]
fn step_mentions_this(first: bool, step: &TypedStep) -> bool
    ensures { (p : Place) → (before : ExprTree) → shapes.mentions_this before ≡ first → shapes.mentions_this (step_after step.now p before) ≡ result }
{
    match step {
        TypedStep::Element(e) => first || mentions_this(e),
        TypedStep::Call(_, _, es) => first || mention_this(es),
        TypedStep::Field(..) | TypedStep::Length => first,
    }
}
