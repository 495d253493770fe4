// What an expression becomes of its parts.

ghost use Rattle.std.specs.Prelude.{◌≡◌, ◌++◌, [], ◌∷◌, ℕ, List, IfOk, OnOk, Some, None, length, map};
ghost use Rattle.ss_core.specs.declared.names.Place.{Place as PlaceValue};
ghost use Rattle.ss_core.specs.declared.names.Ty.TheVariants as ty;
ghost use Rattle.ss_ast.specs.Expressions.{ExprTree, ThisOf, ResultOf, ParenOf, OldOf, BinaryOf, IsOf, AsOf, ElementOf, CallOf, CastOf, NewOf, NewArrayOf, arguments, name_tree, type_tree, type_name_tree};
ghost use Rattle.ss_typed.specs.Tree.{IntOf, BoolOf, NullOf, NegateOf, NotOf, IffOf, ImpliesOf};
ghost use Rattle.ss_typed.specs.Tree as typed;
ghost use Rattle.ss_typed.specs.View as view;
ghost use Rattle.ss_resolver_rules.specs.Expressions as resolved;
ghost use Rattle.ss_resolver_rules.specs.Expressions.{as_int, class_named_by};
ghost use Rattle.ss_resolver_expressions.specs.LocalContext.{LocalContext};
ghost use Rattle.ss_resolver_expressions.specs.Environments.{AnOther, env_of, part, part_view, numbers_of};

use crate::bare::this;
use crate::build::{add_link, add_step, add_value, boxed};
use crate::context::ResolutionContext;
use crate::finishing::{called, finish, part_call_type, part_class};
use crate::leaves::{Bounds, as_int, asked_of, quantified};
use crate::local_names::LocalNames;
use crate::parts::{Part, part_type};
use ss_ast::{Name, Operator, Quantifier, TypeName, TypeRef};
use ss_core::{ClassId, Place};
use ss_resolver_tables::{array_class, class_id, written_class};
use ss_tables_lookup::StaticType;
use ss_tables_scopes::{new_type, type_of_cast, type_of_element};
use ss_typed::{TypedExpr, TypedLink, TypedStep};
use std::alloc::{AllocError, Global};

// ---- without parts

pub(crate) fn number<'p>(alloc: Global, place: Place, n: i64) -> Result<Part<'p>, AllocError>
    ensures { IfOk result (λ r. part_view r ≡ AnOther (Some ty.Int) (IntOf place (as_int n))) }
{
    Ok(Part::Other(
        Some(StaticType::Int),
        boxed(alloc, TypedExpr::Int(place, as_int(n)))?,
    ))
}

pub(crate) fn truth<'p>(alloc: Global, place: Place, b: bool) -> Result<Part<'p>, AllocError>
    ensures { IfOk result (λ r. part_view r ≡ AnOther (Some ty.Bool) (BoolOf place b)) }
{
    Ok(Part::Other(
        Some(StaticType::Bool),
        boxed(alloc, TypedExpr::Bool(place, b))?,
    ))
}

pub(crate) fn null<'p>(alloc: Global, place: Place) -> Result<Part<'p>, AllocError>
    ensures { IfOk result (λ r. part_view r ≡ AnOther (Some ty.Null) (NullOf place)) }
{
    Ok(Part::Other(
        Some(StaticType::Null),
        boxed(alloc, TypedExpr::Null(place))?,
    ))
}

pub(crate) fn text<'p>(alloc: Global, place: Place) -> Result<Part<'p>, AllocError>
    ensures { IfOk result (λ r. part_view r ≡ AnOther None (NullOf place)) }
{
    Ok(Part::Other(None, boxed(alloc, TypedExpr::Null(place))?))
}

pub(crate) fn this_word<'p>(
    context: &ResolutionContext<'_, '_>,
    place: Place,
) -> Result<Part<'p>, AllocError>
    ensures { (a : LocalContext) → IfOk result (λ r. part_view r ≡ part (env_of context.now a) (ThisOf place)) }
{
    let whole = boxed(context.within.alloc, this(context, place))?;
    Ok(Part::Other(context.within.this_type(), whole))
}

pub(crate) fn outcome<'p>(
    context: &ResolutionContext<'_, '_>,
    place: Place,
) -> Result<Part<'p>, AllocError>
    ensures { (a : LocalContext) → IfOk result (λ r. part_view r ≡ part (env_of context.now a) (ResultOf place)) }
{
    let whole = boxed(
        context.within.alloc,
        TypedExpr::Result(place, context.outcome),
    )?;
    Ok(Part::Other(context.within.outcome, whole))
}

// ---- of one part or several

// How many arguments are given.
fn count_of(values: &[TypedExpr]) -> usize
    ensures { result ≡ length values.now }
{
    values.len()
}

fn old_value(
    alloc: Global,
    place: Place,
    value: Box<TypedExpr>,
) -> Result<Box<TypedExpr>, AllocError>
    ensures { IfOk result (λ e. view.expr e.value ≡ typed.OldOf place (view.expr value.value)) }
{
    Ok(boxed(alloc, TypedExpr::Old(place, value))?)
}

fn cast_value(
    alloc: Global,
    place: Place,
    class: ClassId,
    non_null: bool,
    value: Box<TypedExpr>,
) -> Result<Box<TypedExpr>, AllocError>
    ensures { IfOk result (λ e. view.expr e.value ≡ typed.CastOf place class.0 non_null (view.expr value.value)) }
{
    Ok(boxed(alloc, TypedExpr::Cast(place, class, non_null, value))?)
}

fn new_value(
    alloc: Global,
    place: Place,
    class: ClassId,
    values: Vec<TypedExpr>,
) -> Result<Box<TypedExpr>, AllocError>
    ensures { IfOk result (λ e. view.expr e.value ≡ typed.NewOf place class.0 (typed.arguments (view.exprs values.items))) }
{
    Ok(boxed(alloc, TypedExpr::New(place, class, values))?)
}

fn new_array_value(
    alloc: Global,
    place: Place,
    class: ClassId,
    length: Box<TypedExpr>,
) -> Result<Box<TypedExpr>, AllocError>
    ensures { IfOk result (λ e. view.expr e.value ≡ typed.NewArrayOf place class.0 (view.expr length.value)) }
{
    Ok(boxed(alloc, TypedExpr::NewArray(place, class, length))?)
}

pub(crate) fn in_parentheses<'p>(
    context: &ResolutionContext<'_, '_>,
    names: &LocalNames,
    inner: Part<'p>,
) -> Result<Part<'p>, AllocError>
    ensures { (at : PlaceValue) → (t : ExprTree) → part_view inner.entry ≡ part (env_of context.now names.now) t
        → IfOk result (λ r. part_view r ≡ part (env_of context.now names.now) (ParenOf at t)) }
{
    let ty = part_type(context, names, &inner);
    let value = finish(context, names, inner)?;
    Ok(Part::Other(ty, value))
}

pub(crate) fn old<'p>(
    context: &ResolutionContext<'_, '_>,
    names: &LocalNames,
    place: Place,
    inner: Part<'p>,
) -> Result<Part<'p>, AllocError>
    ensures { (t : ExprTree) → part_view inner.entry ≡ part (env_of context.now names.now) t
        → IfOk result (λ r. part_view r ≡ part (env_of context.now names.now) (OldOf place t)) }
{
    let ty = part_type(context, names, &inner);
    let value = finish(context, names, inner)?;
    let whole = old_value(context.within.alloc, place, value)?;
    Ok(Part::Other(ty, whole))
}

pub(crate) fn negate<'p>(
    alloc: Global,
    place: Place,
    inner: Box<TypedExpr>,
) -> Result<Part<'p>, AllocError>
    ensures { IfOk result (λ r. part_view r ≡ AnOther (Some ty.Int) (NegateOf place (view.expr inner.value))) }
{
    let whole = boxed(alloc, TypedExpr::Negate(place, inner))?;
    Ok(Part::Other(Some(StaticType::Int), whole))
}

pub(crate) fn not<'p>(
    alloc: Global,
    place: Place,
    inner: Box<TypedExpr>,
) -> Result<Part<'p>, AllocError>
    ensures { IfOk result (λ r. part_view r ≡ AnOther (Some ty.Bool) (NotOf place (view.expr inner.value))) }
{
    let whole = boxed(alloc, TypedExpr::Not(place, inner))?;
    Ok(Part::Other(Some(StaticType::Bool), whole))
}

pub(crate) fn iff<'p>(
    alloc: Global,
    place: Place,
    a: Box<TypedExpr>,
    b: Box<TypedExpr>,
) -> Result<Part<'p>, AllocError>
    ensures { IfOk result (λ r. part_view r ≡ AnOther (Some ty.Bool) (IffOf place (view.expr a.value) (view.expr b.value))) }
{
    let whole = boxed(alloc, TypedExpr::Iff(place, a, b))?;
    Ok(Part::Other(Some(StaticType::Bool), whole))
}

pub(crate) fn implies<'p>(
    alloc: Global,
    place: Place,
    a: Box<TypedExpr>,
    b: Box<TypedExpr>,
) -> Result<Part<'p>, AllocError>
    ensures { IfOk result (λ r. part_view r ≡ AnOther (Some ty.Bool) (ImpliesOf place (view.expr a.value) (view.expr b.value))) }
{
    let whole = boxed(alloc, TypedExpr::Implies(place, a, b))?;
    Ok(Part::Other(Some(StaticType::Bool), whole))
}

pub(crate) fn cast<'p>(
    context: &ResolutionContext<'_, '_>,
    place: Place,
    ty: &TypeRef,
    inner: Box<TypedExpr>,
) -> Result<Part<'p>, AllocError>
    ensures { (a : LocalContext) → (t : ExprTree) → view.expr inner.value ≡ resolved.expr (env_of context.now a) t
        → IfOk result (λ r. part_view r ≡ part (env_of context.now a) (CastOf place (type_tree ty.now) t)) }
{
    let tables = context.within.tables;
    let class = written_class(tables, ty);
    let known = type_of_cast(tables, ty);
    let whole = cast_value(context.within.alloc, place, class, ty.non_null, inner)?;
    Ok(Part::Other(known, whole))
}

pub(crate) fn new_object<'p>(
    context: &ResolutionContext<'_, '_>,
    place: Place,
    name: &Name,
    values: Vec<TypedExpr>,
) -> Result<Part<'p>, AllocError>
    ensures { (a : LocalContext) → (es : List ExprTree) → view.exprs values.items ≡ map (resolved.expr (env_of context.now a)) es
        → IfOk result (λ r. part_view r ≡ part (env_of context.now a) (NewOf place (name_tree name.now) (arguments es))) }
{
    let tables = context.within.tables;
    let text = name.text.as_str();
    let class = class_id(tables, text);
    let count = count_of(&values);
    let ty = new_type(tables, count, text);
    let whole = new_value(context.within.alloc, place, class, values)?;
    Ok(Part::Other(ty, whole))
}

pub(crate) fn new_array<'p>(
    context: &ResolutionContext<'_, '_>,
    place: Place,
    name: &TypeName,
    length: Box<TypedExpr>,
) -> Result<Part<'p>, AllocError>
    ensures { (a : LocalContext) → (at : PlaceValue) → (t : ExprTree) → view.expr length.value ≡ resolved.expr (env_of context.now a) t
        → IfOk result (λ r. part_view r ≡ part (env_of context.now a) (NewArrayOf place at (type_name_tree name.now) t)) }
{
    let tables = context.within.tables;
    let class = array_class(tables, name);
    let ty = tables.array_type(true, name);
    let whole = new_array_value(context.within.alloc, place, class, length)?;
    Ok(Part::Other(ty, whole))
}

pub(crate) fn quantified_part<'p>(
    context: &ResolutionContext<'_, '_>,
    place: Place,
    quantifier: Quantifier,
    name: &Name,
    bounds: Bounds,
    member: Box<TypedExpr>,
) -> Result<Part<'p>, AllocError>
    ensures { IfOk result (λ r. part_view r ≡ AnOther (Some ty.Bool) (typed.QuantifiedOf place quantifier (name_tree name.now).text (view.expr bounds.low.value) (view.expr bounds.high.value) (view.expr member.value))) }
{
    let alloc = context.within.alloc;
    let whole = quantified(alloc, place, quantifier, name, bounds, member)?;
    Ok(Part::Other(Some(StaticType::Bool), whole))
}

// ---- with what stands after the first part

/// An operation.
pub(crate) fn operation(
    context: &ResolutionContext<'_, '_>,
    names: &LocalNames,
    place: Place,
    before: Part<'_>,
    operator: Operator,
    right: Box<TypedExpr>,
) -> Result<Box<TypedExpr>, AllocError>
    ensures { (t : ExprTree) → (u : ExprTree) → part_view before.entry ≡ part (env_of context.now names.now) t → view.expr right.value ≡ resolved.expr (env_of context.now names.now) u
        → IfOk result (λ r. view.expr r.value ≡ resolved.expr (env_of context.now names.now) (BinaryOf place operator t u)) }
{
    let left = finish(context, names, before)?;
    let link = TypedLink::Operation(operator, Box::into_inner(right));
    let whole = add_link(context.within.alloc, place, left, link)?;
    Ok(whole)
}

/// `is T` after an expression.
pub(crate) fn is_of(
    context: &ResolutionContext<'_, '_>,
    names: &LocalNames,
    place: Place,
    before: Part<'_>,
    ty: &TypeRef,
) -> Result<Box<TypedExpr>, AllocError>
    ensures { (t : ExprTree) → part_view before.entry ≡ part (env_of context.now names.now) t
        → IfOk result (λ r. view.expr r.value ≡ resolved.expr (env_of context.now names.now) (IsOf place t (type_tree ty.now))) }
{
    let left = finish(context, names, before)?;
    let class = written_class(context.within.tables, ty);
    let whole = add_link(context.within.alloc, place, left, TypedLink::Is(class))?;
    Ok(whole)
}

/// `as T` after an expression.
pub(crate) fn as_of(
    context: &ResolutionContext<'_, '_>,
    names: &LocalNames,
    place: Place,
    before: Part<'_>,
    ty: &TypeRef,
) -> Result<Box<TypedExpr>, AllocError>
    ensures { (t : ExprTree) → part_view before.entry ≡ part (env_of context.now names.now) t
        → IfOk result (λ r. view.expr r.value ≡ resolved.expr (env_of context.now names.now) (AsOf place t (type_tree ty.now))) }
{
    let left = finish(context, names, before)?;
    let class = written_class(context.within.tables, ty);
    let whole = add_link(context.within.alloc, place, left, TypedLink::As(class))?;
    Ok(whole)
}

pub(crate) fn element<'p>(
    context: &ResolutionContext<'_, '_>,
    names: &LocalNames,
    place: Place,
    before: Part<'p>,
    index: Box<TypedExpr>,
) -> Result<Part<'p>, AllocError>
    ensures { (t : ExprTree) → (u : ExprTree) → part_view before.entry ≡ part (env_of context.now names.now) t → view.expr index.value ≡ resolved.expr (env_of context.now names.now) u
        → IfOk result (λ r. part_view r ≡ part (env_of context.now names.now) (ElementOf place t u)) }
{
    let array = part_type(context, names, &before);
    let ty = type_of_element(array);
    let object = finish(context, names, before)?;
    let step = TypedStep::Element(Box::into_inner(index));
    let whole = add_step(context.within.alloc, place, object, step)?;
    Ok(Part::Other(ty, whole))
}

/// The arguments of a call, and the classes that they name.
#[derive(Drop)]
pub struct Given {
    pub values: Vec<TypedExpr>,
    pub classes: Vec<ClassId>,
}

/// One more argument.
pub(crate) fn add_given(
    context: &ResolutionContext<'_, '_>,
    names: &LocalNames,
    given: &mut Given,
    argument: Part<'_>,
) -> Result<(), AllocError>
    ensures values { (t : ExprTree) → part_view argument.entry ≡ part (env_of context.now names.now) t
        → OnOk result (view.exprs given.new.values.items ≡ view.exprs given.old.values.items ++ resolved.expr (env_of context.now names.now) t ∷ []) }
    ensures classes { (t : ExprTree) → part_view argument.entry ≡ part (env_of context.now names.now) t
        → OnOk result (numbers_of given.new.classes.items ≡ numbers_of given.old.classes.items ++ class_named_by (env_of context.now names.now) t ∷ []) }
{
    let class = part_class(context, names, &argument);
    given.classes.push(class)?;
    let value = finish(context, names, argument)?;
    add_value(&mut given.values, value)?;
    Ok(())
}

/// A call.
pub(crate) fn call<'p>(
    context: &ResolutionContext<'_, '_>,
    names: &LocalNames,
    place: Place,
    before: Part<'p>,
    given: Given,
) -> Result<Part<'p>, AllocError>
    ensures { (t : ExprTree) → (es : List ExprTree) → part_view before.entry ≡ part (env_of context.now names.now) t
        → view.exprs given.values.items ≡ map (resolved.expr (env_of context.now names.now)) es
        → numbers_of given.classes.items ≡ map (class_named_by (env_of context.now names.now)) es
        → IfOk result (λ r. part_view r ≡ part (env_of context.now names.now) (CallOf place t (arguments es))) }
{
    let count = count_of(&given.values);
    let ty = part_call_type(context, names, &before, count);
    let asked = asked_of(&given.classes);
    let whole = called(context, names, place, before, asked, given.values)?;
    Ok(Part::Other(ty, whole))
}
