// Literals, quantifiers and the classes that arguments name.

ghost use Rattle.std.specs.Prelude.{◌≡◌, IfOk, unwrap_or, slice_get};
ghost use Rattle.ss_ast.specs.Expressions.{name_tree};
ghost use Rattle.ss_typed.specs.Tree.{QuantifiedOf};
ghost use Rattle.ss_typed.specs.View as view;
ghost use Rattle.ss_resolver_rules.specs.Expressions.{as_int};
ghost use Rattle.ss_resolver_expressions.specs.Environments.{numbers_of};

use crate::build::boxed;
use crate::calls::Asked;
use ss_ast::{Name, Quantifier};
use ss_core::{ClassId, Place};
use ss_typed::TypedExpr;
use std::alloc::{AllocError, Global};

/// A literal as an `int`.
pub(crate) fn as_int(n: i64) -> i32
    ensures { result ≡ as_int n }
{
    if n > i64::from(i32::MAX) || n < i64::from(i32::MIN) {
        i32::MAX
    } else {
        n as i32
    }
}

/// The bounds of a quantifier.
#[derive(Drop)]
pub(crate) struct Bounds {
    pub(crate) low: Box<TypedExpr>,
    pub(crate) high: Box<TypedExpr>,
}

/// A quantifier.
pub(crate) fn quantified(
    alloc: Global,
    place: Place,
    quantifier: Quantifier,
    name: &Name,
    bounds: Bounds,
    member: Box<TypedExpr>,
) -> Result<Box<TypedExpr>, AllocError>
    ensures { IfOk result (λ e. view.expr e.value ≡ QuantifiedOf place quantifier (name_tree name.now).text (view.expr bounds.low.value) (view.expr bounds.high.value) (view.expr member.value)) }
{
    let Bounds { low, high } = bounds;
    let name = String::from_str(alloc, name.text.as_str())?;
    Ok(boxed(
        alloc,
        TypedExpr::Quantified(place, quantifier, name, low, high, member),
    )?)
}

fn class_at(classes: &[ClassId], place: usize) -> ClassId
    ensures { result.0 ≡ unwrap_or (slice_get (numbers_of classes.now) place) 0 }
{
    match classes.get(place) {
        Some(class) => *class,
        None => ClassId(0),
    }
}

/// The classes that the first and the third argument name.
pub fn asked_of(classes: &[ClassId]) -> Asked
    ensures first { result.first.0 ≡ unwrap_or (slice_get (numbers_of classes.now) 0) 0 }
    ensures third { result.third.0 ≡ unwrap_or (slice_get (numbers_of classes.now) 2) 0 }
{
    Asked {
        first: class_at(classes, 0),
        third: class_at(classes, 2),
    }
}
