// Expressions.

ghost use Rattle.std.specs.Prelude.{◌≡◌, Some, IfOk, OnOk, map};
ghost use Rattle.ss_core.specs.declared.names.Place.{Place as PlaceValue};
ghost use Rattle.ss_core.specs.declared.names.Ty.TheVariants as ty;
ghost use Rattle.ss_ast.specs.Expressions.{ExprTree, ParenOf, OldOf, CastOf, NewOf, NewArrayOf, grouped, expr_tree, name_tree, type_tree, type_name_tree, arguments};
ghost use Rattle.ss_typed.specs.Tree.{NegateOf, NotOf, IffOf, ImpliesOf};
ghost use Rattle.ss_typed.specs.View as view;
ghost use Rattle.ss_resolver_rules.specs.Names.{within};
ghost use Rattle.ss_resolver_rules.specs.Expressions as resolved;
ghost use Rattle.ss_resolver_rules.specs.Expressions.{class_named_by};
ghost use Rattle.ss_resolver_expressions.specs.Environments.{AnOther, env_of, part, part_view, numbers_of};
ghost use Rattle.ss_ast.specs.Parts.{link_after, postfix_after};

use crate::build::add_value;
use crate::context::ResolutionContext;
use crate::finishing::{dotted, finish};
use crate::leaves::Bounds;
use crate::local_names::LocalNames;
use crate::parts::Part;
use crate::wholes::{
    Given, add_given, as_of, call, cast, element, iff, implies, in_parentheses, is_of, negate,
    new_array, new_object, not, null, number, old, operation, outcome, quantified_part, text,
    this_word, truth,
};
use ss_ast::{Expr, Link, Name, Postfix, TypeName, TypeRef};
use ss_core::Place;
use ss_tables_scopes::link_type;
use ss_typed::TypedExpr;
use std::alloc::AllocError;

/// An expression up to what may stand after it.
#[cycle(expr)]
pub fn walk<'p>(
    context: &ResolutionContext<'_, 'p>,
    names: &mut LocalNames,
    e: &'p Expr,
) -> Result<Part<'p>, AllocError>
    ensures part { IfOk result (λ r. part_view r ≡ part (env_of context.now names.old) (expr_tree e.now)) }
    ensures kept { OnOk result (names.new ≡ names.old) }
{
    match e {
        Expr::Name(place, name) => Ok(Part::Name(*place, name.as_str())),
        Expr::Base(place) => Ok(Part::Base(*place)),
        Expr::Path(place, first, postfixes) => {
            let before = walk(context, names, first)?;
            Ok(walk_postfixes(context, names, *place, before, postfixes)?)
        }
        Expr::Chain(place, first, links) => {
            let before = walk(context, names, first)?;
            Ok(walk_links(context, names, *place, before, links)?)
        }
        Expr::Number(place, n) => Ok(number(context.within.alloc, *place, *n)?),
        Expr::Truth(place, b) => Ok(truth(context.within.alloc, *place, *b)?),
        Expr::Null(place) => Ok(null(context.within.alloc, *place)?),
        Expr::Text(place, _) => Ok(text(context.within.alloc, *place)?),
        Expr::This(place) => Ok(this_word(context, *place)?),
        Expr::Result(place) => Ok(outcome(context, *place)?),
        Expr::Paren(_, inner) => Ok(walk_paren(context, names, inner)?),
        Expr::Old(place, inner) => Ok(walk_old(context, names, *place, inner)?),
        Expr::Negate(place, inner) => Ok(walk_negate(context, names, *place, inner)?),
        Expr::Not(place, inner) => Ok(walk_not(context, names, *place, inner)?),
        Expr::Iff(place, a, b) => {
            let left = resolve_boxed(context, names, a)?;
            Ok(walk_iff(context, names, *place, b, left)?)
        }
        Expr::Implies(place, a, b) => {
            let left = resolve_boxed(context, names, a)?;
            Ok(walk_implies(context, names, *place, b, left)?)
        }
        Expr::Cast(place, ty, inner) => Ok(walk_cast(context, names, *place, ty, inner)?),
        Expr::New(place, name, list) => Ok(walk_new(context, names, *place, name, list)?),
        Expr::NewArray(at, _, ty, size) => Ok(walk_array(context, names, *at, ty, size)?),
        Expr::Quantified(place, quantifier, name, low, high, member) => {
            let low = resolve_boxed(context, names, low)?;
            let bounds = resolve_bounds(context, names, high, low)?;
            let member = resolve_member(context, names, name, member)?;
            Ok(quantified_part(context, *place, *quantifier, name, bounds, member)?)
        }
    }
}

// An expression in parentheses, at any place.
#[cycle(expr)]
fn walk_paren<'p>(
    context: &ResolutionContext<'_, 'p>,
    names: &mut LocalNames,
    e: &'p Expr,
) -> Result<Part<'p>, AllocError>
    ensures part { (at : PlaceValue) → IfOk result (λ r. part_view r ≡ part (env_of context.now names.old) (ParenOf at (expr_tree e.now))) }
    ensures kept { OnOk result (names.new ≡ names.old) }
{
    let inner = walk(context, names, e)?;
    let whole = in_parentheses(context, names, inner)?;
    Ok(whole)
}

// `old(..)`.
#[cycle(expr)]
fn walk_old<'p>(
    context: &ResolutionContext<'_, 'p>,
    names: &mut LocalNames,
    place: Place,
    e: &'p Expr,
) -> Result<Part<'p>, AllocError>
    ensures part { IfOk result (λ r. part_view r ≡ part (env_of context.now names.old) (OldOf place (expr_tree e.now))) }
    ensures kept { OnOk result (names.new ≡ names.old) }
{
    let inner = walk(context, names, e)?;
    let whole = old(context, names, place, inner)?;
    Ok(whole)
}

// A minus before an expression.
#[cycle(expr)]
fn walk_negate<'p>(
    context: &ResolutionContext<'_, 'p>,
    names: &mut LocalNames,
    place: Place,
    e: &'p Expr,
) -> Result<Part<'p>, AllocError>
    ensures part { IfOk result (λ r. part_view r ≡ AnOther (Some ty.Int) (NegateOf place (resolved.expr (env_of context.now names.old) (expr_tree e.now)))) }
    ensures kept { OnOk result (names.new ≡ names.old) }
{
    let inner = resolve_boxed(context, names, e)?;
    let whole = negate(context.within.alloc, place, inner)?;
    Ok(whole)
}

// A `!` before an expression.
#[cycle(expr)]
fn walk_not<'p>(
    context: &ResolutionContext<'_, 'p>,
    names: &mut LocalNames,
    place: Place,
    e: &'p Expr,
) -> Result<Part<'p>, AllocError>
    ensures part { IfOk result (λ r. part_view r ≡ AnOther (Some ty.Bool) (NotOf place (resolved.expr (env_of context.now names.old) (expr_tree e.now)))) }
    ensures kept { OnOk result (names.new ≡ names.old) }
{
    let inner = resolve_boxed(context, names, e)?;
    let whole = not(context.within.alloc, place, inner)?;
    Ok(whole)
}

// What stands after the left side of an `<==>`.
#[cycle(expr)]
fn walk_iff<'p>(
    context: &ResolutionContext<'_, 'p>,
    names: &mut LocalNames,
    place: Place,
    e: &'p Expr,
    left: Box<TypedExpr>,
) -> Result<Part<'p>, AllocError>
    ensures part { IfOk result (λ r. part_view r ≡ AnOther (Some ty.Bool) (IffOf place (view.expr left.value) (resolved.expr (env_of context.now names.old) (expr_tree e.now)))) }
    ensures kept { OnOk result (names.new ≡ names.old) }
{
    let right = resolve_boxed(context, names, e)?;
    let whole = iff(context.within.alloc, place, left, right)?;
    Ok(whole)
}

// What stands after the left side of an `==>`.
#[cycle(expr)]
fn walk_implies<'p>(
    context: &ResolutionContext<'_, 'p>,
    names: &mut LocalNames,
    place: Place,
    e: &'p Expr,
    left: Box<TypedExpr>,
) -> Result<Part<'p>, AllocError>
    ensures part { IfOk result (λ r. part_view r ≡ AnOther (Some ty.Bool) (ImpliesOf place (view.expr left.value) (resolved.expr (env_of context.now names.old) (expr_tree e.now)))) }
    ensures kept { OnOk result (names.new ≡ names.old) }
{
    let right = resolve_boxed(context, names, e)?;
    let whole = implies(context.within.alloc, place, left, right)?;
    Ok(whole)
}

// A cast to a written type.
#[cycle(expr)]
fn walk_cast<'p>(
    context: &ResolutionContext<'_, 'p>,
    names: &mut LocalNames,
    place: Place,
    to: &TypeRef,
    e: &'p Expr,
) -> Result<Part<'p>, AllocError>
    ensures part { IfOk result (λ r. part_view r ≡ part (env_of context.now names.old) (CastOf place (type_tree to.now) (expr_tree e.now))) }
    ensures kept { OnOk result (names.new ≡ names.old) }
{
    let inner = resolve_boxed(context, names, e)?;
    let whole = cast(context, place, to, inner)?;
    Ok(whole)
}

// A new object.
#[cycle(expr)]
fn walk_new<'p>(
    context: &ResolutionContext<'_, 'p>,
    names: &mut LocalNames,
    place: Place,
    name: &Name,
    written: &'p [Expr],
) -> Result<Part<'p>, AllocError>
    ensures part { IfOk result (λ r. part_view r ≡ part (env_of context.now names.old) (NewOf place (name_tree name.now) (arguments (map expr_tree written.now)))) }
    ensures kept { OnOk result (names.new ≡ names.old) }
{
    let values = resolve_values(context, names, written)?;
    let whole = new_object(context, place, name, values)?;
    Ok(whole)
}

// A new array, whose type of elements is at any place.
#[cycle(expr)]
fn walk_array<'p>(
    context: &ResolutionContext<'_, 'p>,
    names: &mut LocalNames,
    place: Place,
    name: &TypeName,
    e: &'p Expr,
) -> Result<Part<'p>, AllocError>
    ensures part { (at : PlaceValue) → IfOk result (λ r. part_view r ≡ part (env_of context.now names.old) (NewArrayOf place at (type_name_tree name.now) (expr_tree e.now))) }
    ensures kept { OnOk result (names.new ≡ names.old) }
{
    let length = resolve_boxed(context, names, e)?;
    let whole = new_array(context, place, name, length)?;
    Ok(whole)
}

/// The tree of an expression, in a box.
#[cycle(expr)]
pub fn resolve_boxed<'p>(
    context: &ResolutionContext<'_, 'p>,
    names: &mut LocalNames,
    e: &'p Expr,
) -> Result<Box<TypedExpr>, AllocError>
    ensures tree { IfOk result (λ r. view.expr r.value ≡ resolved.expr (env_of context.now names.old) (expr_tree e.now)) }
    ensures kept { OnOk result (names.new ≡ names.old) }
{
    let whole = walk(context, names, e)?;
    let tree = finish(context, names, whole)?;
    Ok(tree)
}

// The bounds of a quantifier, of which the lower one is resolved.
#[cycle(expr)]
fn resolve_bounds<'p>(
    context: &ResolutionContext<'_, 'p>,
    names: &mut LocalNames,
    e: &'p Expr,
    low: Box<TypedExpr>,
) -> Result<Bounds, AllocError>
    ensures low { IfOk result (λ r. view.expr r.low.value ≡ view.expr low.value) }
    ensures high { IfOk result (λ r. view.expr r.high.value ≡ resolved.expr (env_of context.now names.old) (expr_tree e.now)) }
    ensures kept { OnOk result (names.new ≡ names.old) }
{
    let high = resolve_boxed(context, names, e)?;
    Ok(Bounds { low, high })
}

// The member of a quantifier.
#[cycle(expr)]
fn resolve_member<'p>(
    context: &ResolutionContext<'_, 'p>,
    names: &mut LocalNames,
    name: &Name,
    e: &'p Expr,
) -> Result<Box<TypedExpr>, AllocError>
    ensures tree { IfOk result (λ r. view.expr r.value ≡ resolved.expr (within (env_of context.now names.old) (name_tree name.now)) (expr_tree e.now)) }
    ensures kept { OnOk result (names.new ≡ names.old) }
{
    names.enter_member(context.within.alloc, name.text.as_str())?;
    let inner = resolve_boxed(context, names, e)?;
    names.leave_member();
    Ok(inner)
}

// What stands after the first operand of a chain.
#[cycle(expr)]
fn walk_links<'p>(
    context: &ResolutionContext<'_, 'p>,
    names: &mut LocalNames,
    place: Place,
    first: Part<'p>,
    links: &'p [Link],
) -> Result<Part<'p>, AllocError>
    ensures part { (t : ExprTree) → part_view first.entry ≡ part (env_of context.now names.old) t
        → IfOk result (λ r. part_view r ≡ part (env_of context.now names.old) (grouped place t (map link_after links.now))) }
    ensures kept { OnOk result (names.new ≡ names.old) }
{
    let mut before = first;
    for link in links {
        before = walk_link(context, names, place, before, link)?;
    }
    Ok(before)
}

#[cycle(expr)]
fn walk_link<'p>(
    context: &ResolutionContext<'_, 'p>,
    names: &mut LocalNames,
    place: Place,
    before: Part<'p>,
    link: &'p Link,
) -> Result<Part<'p>, AllocError>
    ensures part { (t : ExprTree) → part_view before.entry ≡ part (env_of context.now names.old) t
        → IfOk result (λ r. part_view r ≡ part (env_of context.now names.old) (link_after link.now place t)) }
    ensures kept { OnOk result (names.new ≡ names.old) }
{
    let known = link_type(context.within, link);
    match link {
        Link::Operation(operator, operand) => {
            let right = resolve_boxed(context, names, operand)?;
            let whole = operation(context, names, place, before, *operator, right)?;
            Ok(Part::Other(known, whole))
        }
        Link::Is(ty) => {
            let whole = is_of(context, names, place, before, ty)?;
            Ok(Part::Other(known, whole))
        }
        Link::As(ty) => {
            let whole = as_of(context, names, place, before, ty)?;
            Ok(Part::Other(known, whole))
        }
    }
}

/// What stands after the beginning of a path.
#[cycle(expr)]
pub fn walk_postfixes<'p>(
    context: &ResolutionContext<'_, 'p>,
    names: &mut LocalNames,
    place: Place,
    first: Part<'p>,
    postfixes: &'p [Postfix],
) -> Result<Part<'p>, AllocError>
    ensures part { (t : ExprTree) → part_view first.entry ≡ part (env_of context.now names.old) t
        → IfOk result (λ r. part_view r ≡ part (env_of context.now names.old) (grouped place t (map postfix_after postfixes.now))) }
    ensures kept { OnOk result (names.new ≡ names.old) }
{
    let mut before = first;
    for postfix in postfixes {
        before = walk_postfix(context, names, place, before, postfix)?;
    }
    Ok(before)
}

#[cycle(expr)]
fn walk_postfix<'p>(
    context: &ResolutionContext<'_, 'p>,
    names: &mut LocalNames,
    place: Place,
    before: Part<'p>,
    postfix: &'p Postfix,
) -> Result<Part<'p>, AllocError>
    ensures part { (t : ExprTree) → part_view before.entry ≡ part (env_of context.now names.old) t
        → IfOk result (λ r. part_view r ≡ part (env_of context.now names.old) (postfix_after postfix.now place t)) }
    ensures kept { OnOk result (names.new ≡ names.old) }
{
    match postfix {
        Postfix::Member(name) => {
            let longer = dotted(context, names, place, before, name)?;
            Ok(longer)
        }
        Postfix::Element(index) => {
            let index = resolve_boxed(context, names, index)?;
            let longer = element(context, names, place, before, index)?;
            Ok(longer)
        }
        Postfix::Call(written) => {
            let given = resolve_given(context, names, written)?;
            let longer = call(context, names, place, before, given)?;
            Ok(longer)
        }
    }
}

/// Arguments of a `new` or of a base constructor.
#[cycle(expr)]
pub fn resolve_values<'p>(
    context: &ResolutionContext<'_, 'p>,
    names: &mut LocalNames,
    written: &'p [Expr],
) -> Result<Vec<TypedExpr>, AllocError>
    ensures trees { IfOk result (λ v. view.exprs v.items ≡ map (resolved.expr (env_of context.now names.old)) (map expr_tree written.now)) }
    ensures kept { OnOk result (names.new ≡ names.old) }
{
    let mut values = Vec::new(context.within.alloc);
    for argument in written {
        let value = resolve_boxed(context, names, argument)?;
        add_value(&mut values, value)?;
    }
    Ok(values)
}

/// Arguments of a call, and the classes that they name.
#[cycle(expr)]
pub fn resolve_given<'p>(
    context: &ResolutionContext<'_, 'p>,
    names: &mut LocalNames,
    written: &'p [Expr],
) -> Result<Given, AllocError>
    ensures values { IfOk result (λ g. view.exprs g.values.items ≡ map (resolved.expr (env_of context.now names.old)) (map expr_tree written.now)) }
    ensures classes { IfOk result (λ g. numbers_of g.classes.items ≡ map (class_named_by (env_of context.now names.old)) (map expr_tree written.now)) }
    ensures kept { OnOk result (names.new ≡ names.old) }
{
    let values = Vec::new(context.within.alloc);
    let classes = Vec::new(context.within.alloc);
    let mut given = Given { values, classes };
    for argument in written {
        let part = walk(context, names, argument)?;
        add_given(context, names, &mut given, part)?;
    }
    Ok(given)
}

/// The tree of an expression.
pub fn resolve<'p>(
    context: &ResolutionContext<'_, 'p>,
    names: &mut LocalNames,
    e: &'p Expr,
) -> Result<TypedExpr, AllocError>
    ensures tree { IfOk result (λ r. view.expr r ≡ resolved.expr (env_of context.now names.old) (expr_tree e.now)) }
    ensures kept { OnOk result (names.new ≡ names.old) }
{
    let tree = resolve_boxed(context, names, e)?;
    Ok(Box::into_inner(tree))
}
