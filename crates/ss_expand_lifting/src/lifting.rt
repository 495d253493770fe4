// Lifting of calls: each call is a statement of its own before the expression in which it stands. What is evaluated before it is
// put into temporaries, so that everything happens in the order of the source.

ghost use Rattle.std.specs.Prelude.{◌≡◌, ◌||◌, IfOk, List, Option, true, false};
ghost use Rattle.ss_core.specs.declared.names.Ty.{Ty};
ghost use Rattle.ss_core.specs.Tree as core;
ghost use Rattle.ss_typed.specs.Tree as tree;
ghost use Rattle.ss_typed.specs.Tree.{ExprTree};
ghost use Rattle.ss_typed.specs.View as typed;
ghost use Rattle.ss_typed.specs.Shapes.{place_of};
ghost use Rattle.ss_expand_rules.specs.Calls as calls;
ghost use Rattle.ss_expand_rules.specs.Lifting as elab;
ghost use Rattle.ss_expand_expressions.specs.Parameters.{param_types};
ghost use Rattle.ss_expand_expressions.specs.Views.{numbers_of};
ghost use Rattle.ss_typed.specs.Parts.{link_after, linked, step_after, stepped};
ghost use Rattle.ss_expand_expressions.specs.Sources.{stmts_of, lifted_by, valued_by, listed_by, lifted_after, valued_after, listed_after};
ghost use Rattle.ss_expand_expressions.specs.Operands.{IsOperand, IsBegun, valued_as};
ghost use Rattle.ss_expand_lifting.specs.Contexts.{context_of};
ghost use Rattle.ss_expand_lifting.specs.Fronts.{LinksGoOn, StepsGoOn};
ghost use Rattle.ss_expand_lifting.specs.Operations.{test_of, size_of, values_of};

use crate::code::Code;
use crate::context::ElaborationContext;
use crate::fronts::{front_of_chain, front_of_path, links_after, steps_after};
use crate::operations::{
    are_kept, is_and, keep_receiver, lazy_test, operand_as, operand_field, operand_is,
    operand_length, plain_all,
};
use ss_core::{BodyId, Callee, ClassId, Expr, Operator, Place, Ty};
use ss_expand_bodies::{above_of, method_at, number_in_table, number_of_written, params_in};
use ss_expand_expressions::{
    LazyRight, Operand, Source, any_object, begin_lazy, binary, cast_of, class_of_type, dispatched,
    element_of, end_lazy, first_type, has_call, have_call, iff_of, is_lazy, is_lazy_link,
    is_lazy_operator, keep, negate_of, not_of, other_params, plain, valued,
};
use ss_typed::{
    TypedExpr, TypedLink, TypedParam, TypedStep, body_at, constructor_of, link_type, place_of,
    step_type, type_of,
};
use std::alloc::AllocError;

/// What the expression is lifted to, after the code so far. Without a call it stays as it is.
#[cycle(lifting)]
pub fn right_side(
    context: &ElaborationContext<'_>,
    e: &TypedExpr,
    code: &mut Code,
    made: &mut Vec<Ty>,
) -> Result<Source, AllocError>
    ensures { IfOk result (λ r. lifted_by code.new.statements made.new r
        ≡ lifted_after (stmts_of code.old.statements) (elab.right_side (context_of context.now) (typed.expr e.now) made.old.items)) }
{
    if has_call(e) {
        let source = lift(context, e, code, made)?;
        Ok(source)
    } else {
        let value = plain(context.alloc, context.numbers, e)?;
        Ok(Source::Pure(value))
    }
}

// An expression with a call inside.
#[cycle(lifting)]
fn lift(
    context: &ElaborationContext<'_>,
    e: &TypedExpr,
    code: &mut Code,
    made: &mut Vec<Ty>,
) -> Result<Source, AllocError>
    ensures { calls.has_call (typed.expr e.now) ≡ true → IfOk result (λ r. lifted_by code.new.statements made.new r
        ≡ lifted_after (stmts_of code.old.statements) (elab.lifted (context_of context.now) (typed.expr e.now) made.old.items)) }
{
    match e {
        TypedExpr::Iff(place, a, b) => {
            let left = lift_kept(context, any_object(), a, code, made)?;
            Ok(lift_iff(context, *place, b, left, code, made)?)
        }
        TypedExpr::Implies(place, a, b) => {
            let begun = begin_implication(context, *place, a, code, made)?;
            Ok(lift_lazily(context, begun, b, code, made)?)
        }
        TypedExpr::Chain(place, first, links) => {
            let operand = lift_operand(context, first, code, made)?;
            let list = links.as_slice();
            let front = front_of_chain(context.alloc, context.numbers, *place, operand, list)?;
            let rest = links_after(list, front.length);
            Ok(lift_chain(context, *place, rest, front.operand, code, made)?)
        }
        TypedExpr::Negate(place, e) => Ok(lift_negate(context, *place, e, code, made)?),
        TypedExpr::Not(place, e) => Ok(lift_not(context, *place, e, code, made)?),
        TypedExpr::Cast(place, class, non_null, e) => {
            let value = lift_kept(context, any_object(), e, code, made)?;
            let cast = cast_of(context.alloc, *place, *class, *non_null, value)?;
            Ok(Source::Pure(cast))
        }
        TypedExpr::Path(place, first, steps) => {
            let operand = lift_operand(context, first, code, made)?;
            let list = steps.as_slice();
            let front = front_of_path(context.alloc, context.numbers, *place, operand, list)?;
            let rest = steps_after(list, front.length);
            Ok(lift_path(context, *place, rest, front.operand, code, made)?)
        }
        TypedExpr::New(place, class, es) => Ok(lift_new(context, *place, *class, es, code, made)?),
        TypedExpr::NewArray(at, class, e) => Ok(lift_array(context, *at, *class, e, code, made)?),
        TypedExpr::Static(at, body, _, es) => Ok(lift_static(context, *at, *body, es, code, made)?),
        TypedExpr::Base(at, method, _, es) => Ok(lift_base(context, *at, *method, es, code, made)?),
        _ => {
            let value = plain(context.alloc, context.numbers, e)?;
            Ok(Source::Pure(value))
        }
    }
}

// The right side of an `<==>`, whose left side is a value, and the whole.
#[cycle(lifting)]
fn lift_iff(
    context: &ElaborationContext<'_>,
    place: Place,
    b: &TypedExpr,
    left: Expr,
    code: &mut Code,
    made: &mut Vec<Ty>,
) -> Result<Source, AllocError>
    ensures { (a : ExprTree) → (before : List core.StmtTree) → (types : List Ty)
        → valued_by code.old.statements made.old left ≡ valued_after before (elab.operand (numbers_of context.now.numbers.now) elab.any_object a (elab.lifted (context_of context.now) a) types)
        → IfOk result (λ r. lifted_by code.new.statements made.new r ≡ lifted_after before (elab.lifted (context_of context.now) (tree.IffOf place a (typed.expr b.now)) types)) }
{
    let right = lift_kept(context, any_object(), b, code, made)?;
    let value = iff_of(context.alloc, place, left, right)?;
    Ok(Source::Pure(value))
}

// Begins `a ==> b` at this place: `!a` is put into a temporary, and b is done where that fails.
#[cycle(lifting)]
fn begin_implication(
    context: &ElaborationContext<'_>,
    place: Place,
    a: &TypedExpr,
    code: &mut Code,
    made: &mut Vec<Ty>,
) -> Result<LazyLeft, AllocError>
    ensures place { IfOk result (λ r. r.place ≡ place) }
    ensures holds { IfOk result (λ r. r.holds ≡ false) }
    ensures begun { IfOk result (λ r. IsBegun (numbers_of context.now.numbers.now) (place_of (typed.expr a.now))
        (lifted_after (stmts_of code.old.statements) (elab.negated (numbers_of context.now.numbers.now) (typed.expr a.now) (elab.lifted (context_of context.now) (typed.expr a.now)) made.old.items))
        r.x (stmts_of code.new.statements) made.new.items) }
{
    let negated = lift_negated(context, a, code, made)?;
    let x = begin_lazy(
        context.numbers,
        &mut code.statements,
        made,
        place_of(a),
        negated,
    )?;
    Ok(LazyLeft {
        place,
        holds: false,
        x,
    })
}

// What a chain is lifted to, of which these links are left.
#[cycle(lifting)]
fn lift_chain(
    context: &ElaborationContext<'_>,
    place: Place,
    links: &[TypedLink],
    first: Operand,
    code: &mut Code,
    made: &mut Vec<Ty>,
) -> Result<Source, AllocError>
    ensures { (e : ExprTree) → (before : List core.StmtTree) → (types : List Ty)
        → IsOperand (context_of context.now) e before types code.old.statements made.old first → LinksGoOn place e links.now
        → IfOk result (λ r. lifted_by code.new.statements made.new r ≡ lifted_after before (elab.right_side (context_of context.now) (linked place e links.now) types)) }
{
    let whole = lift_links(context, place, links, first, code, made)?;
    Ok(whole.source)
}

// What a path is lifted to, of which these steps are left.
#[cycle(lifting)]
fn lift_path(
    context: &ElaborationContext<'_>,
    place: Place,
    steps: &[TypedStep],
    first: Operand,
    code: &mut Code,
    made: &mut Vec<Ty>,
) -> Result<Source, AllocError>
    ensures { (e : ExprTree) → (before : List core.StmtTree) → (types : List Ty)
        → IsOperand (context_of context.now) e before types code.old.statements made.old first → StepsGoOn place e steps.now
        → IfOk result (λ r. lifted_by code.new.statements made.new r ≡ lifted_after before (elab.right_side (context_of context.now) (stepped place e steps.now) types)) }
{
    let whole = lift_steps(context, place, steps, first, code, made)?;
    Ok(whole.source)
}

// A minus before an expression.
#[cycle(lifting)]
fn lift_negate(
    context: &ElaborationContext<'_>,
    place: Place,
    e: &TypedExpr,
    code: &mut Code,
    made: &mut Vec<Ty>,
) -> Result<Source, AllocError>
    ensures { IfOk result (λ r. lifted_by code.new.statements made.new r
        ≡ lifted_after (stmts_of code.old.statements) (elab.lifted (context_of context.now) (tree.NegateOf place (typed.expr e.now)) made.old.items)) }
{
    let value = lift_kept(context, any_object(), e, code, made)?;
    let negated = negate_of(context.alloc, place, value)?;
    Ok(Source::Pure(negated))
}

// A `!` before an expression.
#[cycle(lifting)]
fn lift_not(
    context: &ElaborationContext<'_>,
    place: Place,
    e: &TypedExpr,
    code: &mut Code,
    made: &mut Vec<Ty>,
) -> Result<Source, AllocError>
    ensures { IfOk result (λ r. lifted_by code.new.statements made.new r
        ≡ lifted_after (stmts_of code.old.statements) (elab.lifted (context_of context.now) (tree.NotOf place (typed.expr e.now)) made.old.items)) }
{
    let value = lift_kept(context, any_object(), e, code, made)?;
    let negated = not_of(context.alloc, place, value)?;
    Ok(Source::Pure(negated))
}

// A new object.
#[cycle(lifting)]
fn lift_new(
    context: &ElaborationContext<'_>,
    place: Place,
    class: ClassId,
    es: &[TypedExpr],
    code: &mut Code,
    made: &mut Vec<Ty>,
) -> Result<Source, AllocError>
    ensures { IfOk result (λ r. lifted_by code.new.statements made.new r
        ≡ lifted_after (stmts_of code.old.statements) (elab.lifted (context_of context.now) (tree.NewOf place class.0 (tree.arguments (typed.exprs es.now))) made.old.items)) }
{
    let params = params_in(constructor_of(context.program, class));
    let values = arguments(context, params, es, code, made)?;
    Ok(Source::Created(place, class, values))
}

// A new array.
#[cycle(lifting)]
fn lift_array(
    context: &ElaborationContext<'_>,
    place: Place,
    class: ClassId,
    e: &TypedExpr,
    code: &mut Code,
    made: &mut Vec<Ty>,
) -> Result<Source, AllocError>
    ensures { IfOk result (λ r. lifted_by code.new.statements made.new r
        ≡ lifted_after (stmts_of code.old.statements) (elab.lifted (context_of context.now) (tree.NewArrayOf place class.0 (typed.expr e.now)) made.old.items)) }
{
    let size = lift_size(context, e, code, made)?;
    Ok(Source::CreatedArray(place, class, size))
}

// A call of a static method, whose result is of any type.
#[cycle(lifting)]
fn lift_static(
    context: &ElaborationContext<'_>,
    place: Place,
    number: BodyId,
    es: &[TypedExpr],
    code: &mut Code,
    made: &mut Vec<Ty>,
) -> Result<Source, AllocError>
    ensures { (t : Option Ty) → IfOk result (λ r. lifted_by code.new.statements made.new r
        ≡ lifted_after (stmts_of code.old.statements) (elab.lifted (context_of context.now) (tree.StaticOf place number.0 t (tree.arguments (typed.exprs es.now))) made.old.items)) }
{
    let params = params_in(body_at(context.program, number));
    let values = arguments(context, params, es, code, made)?;
    let callee = number_of_written(context.program, context.origins, number)?;
    Ok(Source::Called(place, Callee::Static(callee), values))
}

// A call of a method of the class above, whose result is of any type.
#[cycle(lifting)]
fn lift_base(
    context: &ElaborationContext<'_>,
    place: Place,
    method: usize,
    es: &[TypedExpr],
    code: &mut Code,
    made: &mut Vec<Ty>,
) -> Result<Source, AllocError>
    ensures { (t : Option Ty) → IfOk result (λ r. lifted_by code.new.statements made.new r
        ≡ lifted_after (stmts_of code.old.statements) (elab.lifted (context_of context.now) (tree.BaseOf place method t (tree.arguments (typed.exprs es.now))) made.old.items)) }
{
    let above = above_of(context.program, context.body.class);
    let params = params_in(method_at(context.program, above, method));
    let values = arguments(context, params, es, code, made)?;
    let callee = number_in_table(context.program, context.origins, above, method)?;
    Ok(Source::Called(place, Callee::Base(callee), values))
}

// The expression, with what is known of it.
#[cycle(lifting)]
pub(crate) fn lift_operand(
    context: &ElaborationContext<'_>,
    e: &TypedExpr,
    code: &mut Code,
    made: &mut Vec<Ty>,
) -> Result<Operand, AllocError>
    ensures { IfOk result (λ o. IsOperand (context_of context.now) (typed.expr e.now) (stmts_of code.old.statements) made.old.items code.new.statements made.new o) }
{
    let source = right_side(context, e, code, made)?;
    Ok(Operand {
        source,
        place: place_of(e),
        ty: type_of(e),
        has_call: has_call(e),
        is_lazy: is_lazy(e),
    })
}

// An operand of an operation with a call inside.
#[cycle(lifting)]
fn lift_kept(
    context: &ElaborationContext<'_>,
    wanted: Ty,
    e: &TypedExpr,
    code: &mut Code,
    made: &mut Vec<Ty>,
) -> Result<Expr, AllocError>
    ensures { IfOk result (λ v. valued_by code.new.statements made.new v
        ≡ valued_after (stmts_of code.old.statements) (elab.operand (numbers_of context.now.numbers.now) wanted (typed.expr e.now) (elab.lifted (context_of context.now) (typed.expr e.now)) made.old.items)) }
{
    let operand = lift_operand(context, e, code, made)?;
    let value = keep(context.numbers, &mut code.statements, made, wanted, operand)?;
    Ok(value)
}

// `!a`, which with a call inside has a in a temporary.
#[cycle(lifting)]
fn lift_negated(
    context: &ElaborationContext<'_>,
    a: &TypedExpr,
    code: &mut Code,
    made: &mut Vec<Ty>,
) -> Result<Source, AllocError>
    ensures { IfOk result (λ r. lifted_by code.new.statements made.new r
        ≡ lifted_after (stmts_of code.old.statements) (elab.negated (numbers_of context.now.numbers.now) (typed.expr a.now) (elab.lifted (context_of context.now) (typed.expr a.now)) made.old.items)) }
{
    if has_call(a) {
        let value = lift_kept(context, Ty::Bool, a, code, made)?;
        let negated = not_of(context.alloc, place_of(a), value)?;
        Ok(Source::Pure(negated))
    } else {
        let value = plain(context.alloc, context.numbers, a)?;
        let negated = not_of(context.alloc, place_of(a), value)?;
        Ok(Source::Pure(negated))
    }
}

// The size of a new array, which with a call inside is in a temporary.
#[cycle(lifting)]
fn lift_size(
    context: &ElaborationContext<'_>,
    e: &TypedExpr,
    code: &mut Code,
    made: &mut Vec<Ty>,
) -> Result<Expr, AllocError>
    ensures { IfOk result (λ v. valued_by code.new.statements made.new v
        ≡ valued_after (stmts_of code.old.statements) (size_of (context_of context.now) (typed.expr e.now) made.old.items)) }
{
    if has_call(e) {
        let value = lift_kept(context, any_object(), e, code, made)?;
        Ok(value)
    } else {
        let value = plain(context.alloc, context.numbers, e)?;
        Ok(value)
    }
}

// The left side of a lazy operation at this place: it is in the local x, and the right side is done where that holds, or where it
// fails.
#[derive(Clone, Copy)]
struct LazyLeft {
    place: Place,
    holds: bool,
    x: usize,
}

// The right side of a lazy operation, whose left side is in the local x: `if (test of x) { x = b; }`.
#[cycle(lifting)]
fn lift_lazily(
    context: &ElaborationContext<'_>,
    left: LazyLeft,
    b: &TypedExpr,
    code: &mut Code,
    made: &mut Vec<Ty>,
) -> Result<Source, AllocError>
    ensures { IfOk result (λ r. lifted_by code.new.statements made.new r
        ≡ elab.lazily_in left.place (typed.expr b.now) (test_of left.place left.holds) left.x (valued_as (stmts_of code.old.statements) (core.LocalExpr left.place left.x) made.old.items) (elab.right_side (context_of context.now) (typed.expr b.now))) }
{
    let LazyLeft { place, holds, x } = left;
    let mut inner = Code::new(context.alloc);
    let source = right_side(context, b, &mut inner, made)?;
    let test = lazy_test(context.alloc, place, holds, x)?;
    let right = LazyRight {
        place: place_of(b),
        code: inner.statements,
        source,
    };
    let before = &mut code.statements;
    let value = end_lazy(context.alloc, before, place, test, x, right)?;
    Ok(value)
}

// The links of a chain, each of which is an operation with a call in it or before it.
#[cycle(lifting)]
fn lift_links(
    context: &ElaborationContext<'_>,
    place: Place,
    links: &[TypedLink],
    first: Operand,
    code: &mut Code,
    made: &mut Vec<Ty>,
) -> Result<Operand, AllocError>
    ensures { (e : ExprTree) → (before : List core.StmtTree) → (types : List Ty)
        → IsOperand (context_of context.now) e before types code.old.statements made.old first → LinksGoOn place e links.now
        → IfOk result (λ o. IsOperand (context_of context.now) (linked place e links.now) before types code.new.statements made.new o) }
{
    let mut operand = first;
    for link in links {
        operand = lift_link(context, place, link, operand, code, made)?;
    }
    Ok(operand)
}

// A link after an operand.
#[cycle(lifting)]
fn lift_link(
    context: &ElaborationContext<'_>,
    place: Place,
    link: &TypedLink,
    operand: Operand,
    code: &mut Code,
    made: &mut Vec<Ty>,
) -> Result<Operand, AllocError>
    ensures { (e : ExprTree) → (before : List core.StmtTree) → (types : List Ty)
        → IsOperand (context_of context.now) e before types code.old.statements made.old operand
        → calls.has_call (link_after link.now place e) ≡ true
        → IfOk result (λ o. IsOperand (context_of context.now) (link_after link.now place e) before types code.new.statements made.new o) }
{
    let source = lift_after(context, place, link, operand, code, made)?;
    Ok(Operand {
        source,
        place,
        ty: Some(link_type(link)),
        has_call: true,
        is_lazy: is_lazy_link(link),
    })
}

// The operation of a link with a call in it or before it.
#[cycle(lifting)]
fn lift_after(
    context: &ElaborationContext<'_>,
    place: Place,
    link: &TypedLink,
    operand: Operand,
    code: &mut Code,
    made: &mut Vec<Ty>,
) -> Result<Source, AllocError>
    ensures { (e : ExprTree) → (before : List core.StmtTree) → (types : List Ty)
        → IsOperand (context_of context.now) e before types code.old.statements made.old operand
        → IfOk result (λ r. lifted_by code.new.statements made.new r ≡ lifted_after before (elab.lifted (context_of context.now) (link_after link.now place e) types)) }
{
    match link {
        TypedLink::Operation(operator, b) => {
            let placed = PlacedOperator {
                place,
                operator: *operator,
            };
            let source = lift_operation(context, placed, b, operand, code, made)?;
            Ok(source)
        }
        TypedLink::Is(class) => {
            let before = &mut code.statements;
            let source = operand_is(context, place, *class, operand, before, made)?;
            Ok(source)
        }
        TypedLink::As(class) => {
            let before = &mut code.statements;
            let source = operand_as(context, place, *class, operand, before, made)?;
            Ok(source)
        }
    }
}

/// An operator at its place.
#[derive(Clone, Copy)]
pub(crate) struct PlacedOperator {
    pub(crate) place: Place,
    pub(crate) operator: Operator,
}

// An operation on an operand that stands before it.
#[cycle(lifting)]
pub(crate) fn lift_operation(
    context: &ElaborationContext<'_>,
    placed: PlacedOperator,
    b: &TypedExpr,
    operand: Operand,
    code: &mut Code,
    made: &mut Vec<Ty>,
) -> Result<Source, AllocError>
    ensures { (e : ExprTree) → (before : List core.StmtTree) → (types : List Ty)
        → IsOperand (context_of context.now) e before types code.old.statements made.old operand
        → IfOk result (λ r. lifted_by code.new.statements made.new r ≡ lifted_after before (elab.lifted (context_of context.now) (tree.BinaryOf placed.place placed.operator e (typed.expr b.now)) types)) }
{
    let PlacedOperator { place, operator } = placed;
    let numbers = context.numbers;
    if is_lazy_operator(operator) {
        let x = begin_lazy(
            numbers,
            &mut code.statements,
            made,
            operand.place,
            operand.source,
        )?;
        let holds = is_and(operator);
        let begun = LazyLeft { place, holds, x };
        let source = lift_lazily(context, begun, b, code, made)?;
        Ok(source)
    } else {
        let left = keep(numbers, &mut code.statements, made, any_object(), operand)?;
        let right = lift_kept(context, any_object(), b, code, made)?;
        let value = binary(context.alloc, place, operator, left, right)?;
        Ok(Source::Pure(value))
    }
}

// The steps of a path, each of which has a call in it or before it, or is one.
#[cycle(lifting)]
pub(crate) fn lift_steps(
    context: &ElaborationContext<'_>,
    place: Place,
    steps: &[TypedStep],
    first: Operand,
    code: &mut Code,
    made: &mut Vec<Ty>,
) -> Result<Operand, AllocError>
    ensures { (e : ExprTree) → (before : List core.StmtTree) → (types : List Ty)
        → IsOperand (context_of context.now) e before types code.old.statements made.old first → StepsGoOn place e steps.now
        → IfOk result (λ o. IsOperand (context_of context.now) (stepped place e steps.now) before types code.new.statements made.new o) }
{
    let mut operand = first;
    for step in steps {
        operand = lift_step(context, place, step, operand, code, made)?;
    }
    Ok(operand)
}

// A step after an operand.
#[cycle(lifting)]
fn lift_step(
    context: &ElaborationContext<'_>,
    place: Place,
    step: &TypedStep,
    operand: Operand,
    code: &mut Code,
    made: &mut Vec<Ty>,
) -> Result<Operand, AllocError>
    ensures { (e : ExprTree) → (before : List core.StmtTree) → (types : List Ty)
        → IsOperand (context_of context.now) e before types code.old.statements made.old operand
        → calls.has_call (step_after step.now place e) ≡ true
        → IfOk result (λ o. IsOperand (context_of context.now) (step_after step.now place e) before types code.new.statements made.new o) }
{
    let ty = step_type(operand.ty, step);
    let source = lift_onward(context, place, step, operand, code, made)?;
    Ok(Operand {
        source,
        place,
        ty,
        has_call: true,
        is_lazy: false,
    })
}

// The value of a step with a call in it or before it, or which is one.
#[cycle(lifting)]
fn lift_onward(
    context: &ElaborationContext<'_>,
    place: Place,
    step: &TypedStep,
    operand: Operand,
    code: &mut Code,
    made: &mut Vec<Ty>,
) -> Result<Source, AllocError>
    ensures { (e : ExprTree) → (before : List core.StmtTree) → (types : List Ty)
        → IsOperand (context_of context.now) e before types code.old.statements made.old operand
        → IfOk result (λ r. lifted_by code.new.statements made.new r ≡ lifted_after before (elab.lifted (context_of context.now) (step_after step.now place e) types)) }
{
    match step {
        TypedStep::Field(field, _) => {
            let before = &mut code.statements;
            let source = operand_field(context, place, *field, operand, before, made)?;
            Ok(source)
        }
        TypedStep::Element(index) => {
            let source = lift_element(context, place, index, operand, code, made)?;
            Ok(source)
        }
        TypedStep::Length => {
            let before = &mut code.statements;
            let source = operand_length(context, place, operand, before, made)?;
            Ok(source)
        }
        TypedStep::Call(method, _, es) => {
            let placed = PlacedMethod {
                place,
                method: *method,
            };
            let source = lift_call(context, placed, es, operand, code, made)?;
            Ok(source)
        }
    }
}

// An element of an operand that stands before it.
#[cycle(lifting)]
fn lift_element(
    context: &ElaborationContext<'_>,
    place: Place,
    index: &TypedExpr,
    operand: Operand,
    code: &mut Code,
    made: &mut Vec<Ty>,
) -> Result<Source, AllocError>
    ensures { (e : ExprTree) → (before : List core.StmtTree) → (types : List Ty)
        → IsOperand (context_of context.now) e before types code.old.statements made.old operand
        → IfOk result (λ r. lifted_by code.new.statements made.new r ≡ lifted_after before (elab.lifted (context_of context.now) (tree.ElementOf place e (typed.expr index.now)) types)) }
{
    let array = keep(
        context.numbers,
        &mut code.statements,
        made,
        any_object(),
        operand,
    )?;
    let index = lift_kept(context, any_object(), index, code, made)?;
    let value = element_of(context.alloc, place, array, index)?;
    Ok(Source::Pure(value))
}

// A call at its place, of the method at this place of the table.
#[derive(Clone, Copy)]
struct PlacedMethod {
    place: Place,
    method: usize,
}

// A call of a method on an operand that stands before it: the receiver, and then the arguments.
#[cycle(lifting)]
fn lift_call(
    context: &ElaborationContext<'_>,
    placed: PlacedMethod,
    es: &[TypedExpr],
    operand: Operand,
    code: &mut Code,
    made: &mut Vec<Ty>,
) -> Result<Source, AllocError>
    ensures { (e : ExprTree) → (t : Option Ty) → (before : List core.StmtTree) → (types : List Ty)
        → IsOperand (context_of context.now) e before types code.old.statements made.old operand
        → IfOk result (λ r. lifted_by code.new.statements made.new r ≡ lifted_after before (elab.lifted (context_of context.now) (tree.CallOf placed.place e placed.method t (tree.arguments (typed.exprs es.now))) types)) }
{
    let PlacedMethod { place, method } = placed;
    let class = class_of_type(operand.ty);
    let params = params_in(method_at(context.program, class, method));
    let in_arguments = have_call(es);
    let kept = are_kept(operand.has_call, in_arguments);
    let before = &mut code.statements;
    let receiver = keep_receiver(context.numbers, in_arguments, operand, before, made)?;
    let values = lift_values(context, params, kept, es, code, made)?;
    Ok(dispatched(place, class, method, receiver, values))
}

// Arguments for these parameters, all of them in temporaries.
#[cycle(lifting)]
fn lift_all(
    context: &ElaborationContext<'_>,
    params: &[TypedParam],
    es: &[TypedExpr],
    code: &mut Code,
    made: &mut Vec<Ty>,
) -> Result<Vec<Expr>, AllocError>
    ensures { IfOk result (λ vs. listed_by code.new.statements made.new vs
        ≡ listed_after (stmts_of code.old.statements) (elab.in_temporaries (context_of context.now) (param_types params.now) (tree.arguments (typed.exprs es.now)) made.old.items)) }
{
    let mut values = Vec::new(context.alloc);
    let mut rest = params;
    for e in es {
        let value = lift_kept(context, first_type(rest), e, code, made)?;
        values.push(value)?;
        rest = other_params(rest);
    }
    Ok(values)
}

// Arguments for these parameters: all of them in temporaries, or as they are.
#[cycle(lifting)]
fn lift_values(
    context: &ElaborationContext<'_>,
    params: &[TypedParam],
    kept: bool,
    es: &[TypedExpr],
    code: &mut Code,
    made: &mut Vec<Ty>,
) -> Result<Vec<Expr>, AllocError>
    ensures { IfOk result (λ vs. listed_by code.new.statements made.new vs
        ≡ listed_after (stmts_of code.old.statements) (values_of (context_of context.now) (param_types params.now) kept (tree.arguments (typed.exprs es.now)) made.old.items)) }
{
    if kept {
        let values = lift_all(context, params, es, code, made)?;
        Ok(values)
    } else {
        let values = plain_all(context.alloc, context.numbers, es)?;
        Ok(values)
    }
}

/// Arguments for these parameters: without calls they stay as they are, and otherwise all of them are in temporaries.
#[cycle(lifting)]
pub fn arguments(
    context: &ElaborationContext<'_>,
    params: &[TypedParam],
    es: &[TypedExpr],
    code: &mut Code,
    made: &mut Vec<Ty>,
) -> Result<Vec<Expr>, AllocError>
    ensures { IfOk result (λ vs. listed_by code.new.statements made.new vs
        ≡ listed_after (stmts_of code.old.statements) (elab.arguments_of (context_of context.now) (param_types params.now) (tree.arguments (typed.exprs es.now)) made.old.items)) }
{
    let values = lift_values(context, params, have_call(es), es, code, made)?;
    Ok(values)
}

/// Its value as an expression: that of a call is in a temporary.
pub fn value(
    context: &ElaborationContext<'_>,
    e: &TypedExpr,
    code: &mut Code,
    made: &mut Vec<Ty>,
) -> Result<Expr, AllocError>
    ensures { IfOk result (λ v. valued_by code.new.statements made.new v
        ≡ valued_after (stmts_of code.old.statements) (elab.value (context_of context.now) (typed.expr e.now) made.old.items)) }
{
    let source = right_side(context, e, code, made)?;
    let before = &mut code.statements;
    let value = valued(
        context.numbers,
        before,
        made,
        place_of(e),
        type_of(e),
        source,
    )?;
    Ok(value)
}
