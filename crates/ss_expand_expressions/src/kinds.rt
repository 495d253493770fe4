// What an expression is outermost.

ghost use Rattle.std.specs.Prelude.{◌≡◌};
ghost use Rattle.ss_core.specs.declared.names.Place.{Place};
ghost use Rattle.ss_typed.specs.Tree.{ExprTree};
ghost use Rattle.ss_typed.specs.View.{expr};
ghost use Rattle.ss_expand_rules.specs.Calls as calls;
ghost use Rattle.ss_typed.specs.Parts.{link_after};

use ss_core::Operator;
use ss_typed::{TypedExpr, TypedLink};

/// Whether it is an operation whose right side is evaluated only where its left side asks for it.
pub fn is_lazy(e: &TypedExpr) -> bool
    ensures { result ≡ calls.is_lazy (expr e.now) }
{
    match e {
        TypedExpr::Implies(..) => true,
        TypedExpr::Chain(_, first, links) => match links.last() {
            Some(link) => is_lazy_link(link),
            None => is_lazy(first),
        },
        TypedExpr::Path(_, first, steps) => {
            if steps.is_empty() {
                is_lazy(first)
            } else {
                false
            }
        }
        TypedExpr::Int(..)
        | TypedExpr::Bool(..)
        | TypedExpr::Null(..)
        | TypedExpr::This(..)
        | TypedExpr::Local(..)
        | TypedExpr::Result(..)
        | TypedExpr::Bound(..)
        | TypedExpr::Iff(..)
        | TypedExpr::Negate(..)
        | TypedExpr::Not(..)
        | TypedExpr::Cast(..)
        | TypedExpr::Old(..)
        | TypedExpr::Quantified(..)
        | TypedExpr::State(..)
        | TypedExpr::Owners(..)
        | TypedExpr::New(..)
        | TypedExpr::NewArray(..)
        | TypedExpr::Static(..)
        | TypedExpr::Base(..) => false,
    }
}

/// Whether an operand with this link after it is such an operation.
pub fn is_lazy_link(link: &TypedLink) -> bool
    ensures { (p : Place) → (before : ExprTree) → calls.is_lazy (link_after link.now p before) ≡ result }
{
    match link {
        TypedLink::Operation(operator, _) => is_lazy_operator(*operator),
        TypedLink::Is(_) | TypedLink::As(_) => false,
    }
}

/// Whether the operator is `&&` or `||`.
pub fn is_lazy_operator(operator: Operator) -> bool
    ensures { result ≡ calls.is_lazy_operator operator }
{
    match operator {
        Operator::And | Operator::Or => true,
        Operator::Equal
        | Operator::NotEqual
        | Operator::Less
        | Operator::LessEqual
        | Operator::Greater
        | Operator::GreaterEqual
        | Operator::Add
        | Operator::Subtract
        | Operator::Multiply
        | Operator::Divide
        | Operator::Remainder => false,
    }
}
