// Simple statements by their parts, in boxes.

ghost use Rattle.std.specs.Prelude.{◌≡◌, IfOk, map};
ghost use Rattle.ss_typed.specs.Tree.{AssignOf, StepOf, AloneOf, PrintOf, PrintTextOf, BaseCallOf, DeclareFirst, SimpleFirst, arguments};
ghost use Rattle.ss_typed.specs.View as view;
ghost use Rattle.ss_resolver_statements.specs.Boxes.{value_of};

use crate::built::value_in;
use ss_ast::{AssignOperator, StepOperator};
use ss_core::Place;
use ss_typed::{TypedDeclarator, TypedExpr, TypedInit, TypedSimple};
use std::alloc::{AllocError, Global};

// The simple statement in a box.
fn boxed(alloc: Global, simple: TypedSimple) -> Result<Box<TypedSimple>, AllocError>
    ensures { IfOk result (λ s. view.simple_of s.value ≡ view.simple_of simple) }
{
    Ok(Box::new(alloc, simple)?)
}

/// `a = e`, `a += e` and their kind.
pub(crate) fn assign_of(
    alloc: Global,
    target: Box<TypedExpr>,
    operator: AssignOperator,
    value: Box<TypedExpr>,
) -> Result<Box<TypedSimple>, AllocError>
    ensures { IfOk result (λ s. view.simple_of s.value ≡ AssignOf (view.expr target.value) operator (view.expr value.value)) }
{
    let target = Box::into_inner(target);
    let value = Box::into_inner(value);
    Ok(boxed(alloc, TypedSimple::Assign(target, operator, value))?)
}

/// `a++` and `a--`
pub(crate) fn step_of(
    alloc: Global,
    target: Box<TypedExpr>,
    operator: StepOperator,
) -> Result<Box<TypedSimple>, AllocError>
    ensures { IfOk result (λ s. view.simple_of s.value ≡ StepOf (view.expr target.value) operator) }
{
    let target = Box::into_inner(target);
    Ok(boxed(alloc, TypedSimple::Step(target, operator))?)
}

/// A call or a `new` alone.
pub(crate) fn alone_of(alloc: Global, whole: Box<TypedExpr>) -> Result<Box<TypedSimple>, AllocError>
    ensures { IfOk result (λ s. view.simple_of s.value ≡ AloneOf (view.expr whole.value)) }
{
    let whole = Box::into_inner(whole);
    Ok(boxed(alloc, TypedSimple::Alone(whole))?)
}

/// A value that is printed, or a line end alone.
pub(crate) fn print_of(
    alloc: Global,
    place: Place,
    value: Option<Box<TypedExpr>>,
    line: bool,
) -> Result<Box<TypedSimple>, AllocError>
    ensures { IfOk result (λ s. view.simple_of s.value ≡ PrintOf place (value_of value) line) }
{
    let value = value_in(value);
    Ok(boxed(alloc, TypedSimple::Print(place, value, line))?)
}

/// Bytes that are printed.
pub(crate) fn print_text_of(
    alloc: Global,
    place: Place,
    text: &[u8],
    line: bool,
) -> Result<Box<TypedSimple>, AllocError>
    ensures { IfOk result (λ s. view.simple_of s.value ≡ PrintTextOf place text.now line) }
{
    let text = Vec::from_slice(alloc, text)?;
    Ok(boxed(alloc, TypedSimple::PrintText(place, text, line))?)
}

/// `base(a, b)`
pub(crate) fn base_call_of(
    alloc: Global,
    place: Place,
    values: Vec<TypedExpr>,
) -> Result<Box<TypedSimple>, AllocError>
    ensures { IfOk result (λ s. view.simple_of s.value ≡ BaseCallOf place (arguments (view.exprs values.items))) }
{
    Ok(boxed(alloc, TypedSimple::Base(place, values))?)
}

/// A declaration that a `for` begins with.
pub(crate) fn declare_first(
    alloc: Global,
    list: Vec<TypedDeclarator>,
) -> Result<Box<TypedInit>, AllocError>
    ensures { IfOk result (λ i. view.init_of i.value ≡ DeclareFirst (map view.declarator list.items)) }
{
    Ok(Box::new(alloc, TypedInit::Declare(list))?)
}

/// A simple statement that a `for` begins with.
pub(crate) fn simple_first(
    alloc: Global,
    simple: Box<TypedSimple>,
) -> Result<Box<TypedInit>, AllocError>
    ensures { IfOk result (λ i. view.init_of i.value ≡ SimpleFirst (view.simple_of simple.value)) }
{
    let simple = Box::into_inner(simple);
    Ok(Box::new(alloc, TypedInit::Simple(simple))?)
}
