// Operations on values that stand in temporaries.

ghost use Rattle.std.specs.Prelude.{◌≡◌, IfOk};
ghost use Rattle.ss_core.specs.Tree as tree;
ghost use Rattle.ss_core.specs.View as core;
ghost use Rattle.ss_core.specs.Parts as core_parts;

use crate::expressions::whole_chain;
use ss_core::{ClassId, Expr, FieldId, Link, Operator, Place, Step};
use std::alloc::{AllocError, Global};

/// A value with one link after it.
pub fn with_link(alloc: Global, place: Place, value: Expr, link: Link) -> Result<Expr, AllocError>
    ensures { IfOk result (λ r. core.expr r ≡ core_parts.link_after link place (core.expr value)) }
{
    let mut links = Vec::new(alloc);
    links.push(link)?;
    Ok(whole_chain(place, Box::new(alloc, value)?, links))
}

// A path with these steps.
fn stepped(place: Place, first: Box<Expr>, steps: Vec<Step>) -> Expr
    ensures { core.expr result ≡ core_parts.path_front place (core.expr first.value) steps.items }
{
    Expr::Path(place, first, steps)
}

/// A value with one step after it.
pub fn with_step(alloc: Global, place: Place, value: Expr, step: Step) -> Result<Expr, AllocError>
    ensures { IfOk result (λ r. core.expr r ≡ core_parts.step_after step place (core.expr value)) }
{
    let mut steps = Vec::new(alloc);
    steps.push(step)?;
    Ok(stepped(place, Box::new(alloc, value)?, steps))
}

/// The operation on two values.
pub fn binary(
    alloc: Global,
    place: Place,
    operator: Operator,
    left: Expr,
    right: Expr,
) -> Result<Expr, AllocError>
    ensures { IfOk result (λ r. core.expr r ≡ tree.BinaryExpr place operator (core.expr left) (core.expr right)) }
{
    with_link(alloc, place, left, Link::Operation(operator, right))
}

/// `a is T`
pub fn is_of(alloc: Global, place: Place, value: Expr, class: ClassId) -> Result<Expr, AllocError>
    ensures { IfOk result (λ r. core.expr r ≡ tree.IsExpr place (core.expr value) class.0) }
{
    with_link(alloc, place, value, Link::Is(class))
}

/// `a as T`
pub fn as_of(alloc: Global, place: Place, value: Expr, class: ClassId) -> Result<Expr, AllocError>
    ensures { IfOk result (λ r. core.expr r ≡ tree.AsExpr place (core.expr value) class.0) }
{
    with_link(alloc, place, value, Link::As(class))
}

/// `o.f`
pub fn field_of(
    alloc: Global,
    place: Place,
    object: Expr,
    field: FieldId,
) -> Result<Expr, AllocError>
    ensures { IfOk result (λ r. core.expr r ≡ tree.FieldExpr place (core.expr object) field.0) }
{
    with_step(alloc, place, object, Step::Field(field))
}

/// `a[i]`
pub fn element_of(alloc: Global, place: Place, array: Expr, index: Expr) -> Result<Expr, AllocError>
    ensures { IfOk result (λ r. core.expr r ≡ tree.ElementExpr place (core.expr array) (core.expr index)) }
{
    with_step(alloc, place, array, Step::Element(index))
}

/// `a.Length`
pub fn length_of(alloc: Global, place: Place, array: Expr) -> Result<Expr, AllocError>
    ensures { IfOk result (λ r. core.expr r ≡ tree.LengthExpr place (core.expr array)) }
{
    with_step(alloc, place, array, Step::Length)
}

/// `a <==> b`
pub fn iff_of(alloc: Global, place: Place, left: Expr, right: Expr) -> Result<Expr, AllocError>
    ensures { IfOk result (λ r. core.expr r ≡ tree.IffExpr place (core.expr left) (core.expr right)) }
{
    let left = Box::new(alloc, left)?;
    Ok(Expr::Iff(place, left, Box::new(alloc, right)?))
}

/// `-a`
pub fn negate_of(alloc: Global, place: Place, value: Expr) -> Result<Expr, AllocError>
    ensures { IfOk result (λ r. core.expr r ≡ tree.NegateExpr place (core.expr value)) }
{
    Ok(Expr::Negate(place, Box::new(alloc, value)?))
}

/// `!a`
pub fn not_of(alloc: Global, place: Place, value: Expr) -> Result<Expr, AllocError>
    ensures { IfOk result (λ r. core.expr r ≡ tree.NotExpr place (core.expr value)) }
{
    Ok(Expr::Not(place, Box::new(alloc, value)?))
}

/// `(T)a`, or `(T!)a` where null doesn't pass.
pub fn cast_of(
    alloc: Global,
    place: Place,
    class: ClassId,
    non_null: bool,
    value: Expr,
) -> Result<Expr, AllocError>
    ensures { IfOk result (λ r. core.expr r ≡ tree.CastExpr place class.0 non_null (core.expr value)) }
{
    Ok(Expr::Cast(place, class, non_null, Box::new(alloc, value)?))
}
