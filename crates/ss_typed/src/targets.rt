// The local or the field of `this` that an expression is, chains and paths without parts set aside.

ghost use Rattle.std.specs.Prelude.{◌≡◌, ◌<◌, length, map, option_map};
ghost use Rattle.ss_core.specs.declared.names.Place.{Place as PlaceValue};
ghost use Rattle.ss_typed.specs.View.{expr, grouped};
ghost use Rattle.ss_typed.specs.Shapes.{local_of, own_field};
ghost use Rattle.ss_typed.specs.Parts.{step_after};

use crate::expr::{TypedExpr, TypedStep};
use crate::shapes::is_this;
use ss_core::FieldId;

/// The local that the expression is, where it is one.
pub fn local_of(e: &TypedExpr) -> Option<usize>
    ensures { result ≡ local_of (expr e.now) }
{
    match e {
        TypedExpr::Local(_, local, _) => Some(*local),
        TypedExpr::Chain(_, first, links) => {
            if links.is_empty() {
                local_of(first)
            } else {
                None
            }
        }
        TypedExpr::Path(_, first, steps) => {
            if steps.is_empty() {
                local_of(first)
            } else {
                None
            }
        }
        TypedExpr::Int(..)
        | TypedExpr::Bool(..)
        | TypedExpr::Null(..)
        | TypedExpr::This(..)
        | TypedExpr::Result(..)
        | TypedExpr::Bound(..)
        | TypedExpr::Iff(..)
        | TypedExpr::Implies(..)
        | TypedExpr::Negate(..)
        | TypedExpr::Not(..)
        | TypedExpr::Cast(..)
        | TypedExpr::Old(..)
        | TypedExpr::Quantified(..)
        | TypedExpr::State(..)
        | TypedExpr::Owners(..)
        | TypedExpr::New(..)
        | TypedExpr::NewArray(..)
        | TypedExpr::Static(..)
        | TypedExpr::Base(..) => None,
    }
}

/// The field of `this` that the expression is, where it is one.
pub fn own_field(e: &TypedExpr) -> Option<FieldId>
    ensures { option_map (λ f. f.0) result ≡ own_field (expr e.now) }
{
    match e {
        TypedExpr::Chain(_, first, links) => {
            if links.is_empty() {
                own_field(first)
            } else {
                None
            }
        }
        TypedExpr::Path(_, first, steps) => {
            if steps.is_empty() {
                own_field(first)
            } else {
                field_along(first, steps)
            }
        }
        TypedExpr::Int(..)
        | TypedExpr::Bool(..)
        | TypedExpr::Null(..)
        | TypedExpr::This(..)
        | TypedExpr::Local(..)
        | TypedExpr::Result(..)
        | TypedExpr::Bound(..)
        | TypedExpr::Iff(..)
        | TypedExpr::Implies(..)
        | TypedExpr::Negate(..)
        | TypedExpr::Not(..)
        | TypedExpr::Cast(..)
        | TypedExpr::Old(..)
        | TypedExpr::Quantified(..)
        | TypedExpr::State(..)
        | TypedExpr::Owners(..)
        | TypedExpr::New(..)
        | TypedExpr::NewArray(..)
        | TypedExpr::Static(..)
        | TypedExpr::Base(..) => None,
    }
}

// The same of a path with at least one step: a path with more is no field of `this`.
fn field_along(first: &TypedExpr, steps: &[TypedStep]) -> Option<FieldId>
    requires { 0 < length steps.now }
    ensures { (p : PlaceValue) → option_map (λ f. f.0) result ≡ own_field (grouped p (expr first.now) (map step_after steps.now)) }
{
    if steps.len() == 1 {
        field_after(first, &steps[0])
    } else {
        None
    }
}

// The same of a path with this one step.
fn field_after(first: &TypedExpr, step: &TypedStep) -> Option<FieldId>
    ensures { (p : PlaceValue) → option_map (λ f. f.0) result ≡ own_field (step_after step.now p (expr first.now)) }
{
    match step {
        TypedStep::Field(field, _) => { if is_this(first) { Some(*field) } else { None } }
        TypedStep::Element(_) | TypedStep::Length | TypedStep::Call(..) => None,
    }
}
