// Fields that a `modifies` clause names.

ghost use Rattle.std.specs.Prelude.{◌≡◌, ◌-◌, ◌++◌, ◌∷◌, [], ◌<◌, IfSome, IfNone, length, map, take};
ghost use Rattle.ss_core.specs.declared.names.Place.{Place as PlaceValue};
ghost use Rattle.ss_typed.specs.Tree.{ExprTree, OneOf, AllOf};
ghost use Rattle.ss_typed.specs.View as view;
ghost use Rattle.ss_typed.specs.View.{grouped};
ghost use Rattle.ss_resolver_rules.specs.Programs.{one_of};
ghost use Rattle.ss_typed.specs.Parts.{step_after as typed_step};

use ss_core::{FieldId, Place};
use ss_typed::{TypedExpr, TypedModifies, TypedStep};

// The field that a step reads.
fn field_of(step: &TypedStep) -> Option<FieldId>
    ensures some { IfSome result (λ f. (at : PlaceValue) → (o : ExprTree) → one_of (typed_step step.now at o) ≡ OneOf o f.0) }
    ensures none { IfNone result ((at : PlaceValue) → (o : ExprTree) → one_of (typed_step step.now at o) ≡ AllOf (typed_step step.now at o)) }
{
    match step {
        TypedStep::Field(field, _) => Some(*field),
        TypedStep::Element(_) | TypedStep::Length | TypedStep::Call(..) => None,
    }
}

// The last step, and those before it.
fn split_last(steps: &[TypedStep]) -> Option<(&TypedStep, &[TypedStep])>
    ensures some { IfSome result (λ x. steps.now ≡ x.1.now ++ x.0.now ∷ []) }
    ensures none { IfNone result (steps.now ≡ []) }
{
    match steps {
        [front @ .., last] => Some((last, front)),
        [] => None,
    }
}

// The field that the last of these steps reads.
fn last_field(steps: &[TypedStep]) -> Option<FieldId>
    requires { 0 < length steps.now }
    ensures some { IfSome result (λ f. (at : PlaceValue) → (o : ExprTree)
        → one_of (grouped at o (map typed_step steps.now)) ≡ OneOf (grouped at o (map typed_step (take (length steps.now - 1) steps.now))) f.0) }
    ensures none { IfNone result ((at : PlaceValue) → (o : ExprTree)
        → one_of (grouped at o (map typed_step steps.now)) ≡ AllOf (grouped at o (map typed_step steps.now))) }
{
    match split_last(steps) {
        Some((last, _)) => field_of(last),
        None => unreachable!(),
    }
}

// A path without its last step.
fn shorter(place: Place, first: Box<TypedExpr>, steps: Vec<TypedStep>) -> TypedExpr
    ensures { view.expr result ≡ grouped place (view.expr first.value) (map typed_step (take (length steps.items - 1) steps.items)) }
{
    let mut steps = steps;
    let _last = steps.pop();
    if steps.is_empty() {
        Box::into_inner(first)
    } else {
        TypedExpr::Path(place, first, steps)
    }
}

// A path with at least one step.
fn one_of_path(place: Place, first: Box<TypedExpr>, steps: Vec<TypedStep>) -> TypedModifies
    requires { 0 < length steps.items }
    ensures { view.modified result ≡ one_of (grouped place (view.expr first.value) (map typed_step steps.items)) }
{
    match last_field(&steps) {
        Some(field) => TypedModifies::Field(shorter(place, first, steps), field),
        None => TypedModifies::All(TypedExpr::Path(place, first, steps)),
    }
}

/// `o.f`, where the read is one of a field.
pub(crate) fn one_of(value: TypedExpr) -> TypedModifies
    ensures { view.modified result ≡ one_of (view.expr value) }
{
    match value {
        TypedExpr::Path(place, first, steps) => {
            if steps.is_empty() {
                one_of(Box::into_inner(first))
            } else {
                one_of_path(place, first, steps)
            }
        }
        TypedExpr::Chain(place, first, links) => {
            if links.is_empty() {
                one_of(Box::into_inner(first))
            } else {
                TypedModifies::All(TypedExpr::Chain(place, first, links))
            }
        }
        other => TypedModifies::All(other),
    }
}
