// Expressions: the faults inside them, and what is seen of them.

ghost use Rattle.std.specs.Prelude.{◌≡◌, ◌++◌, false, Option, Some, List, IfOk, OnOk, map, option_map};
ghost use Rattle.ss_core.specs.Chain.{above};
ghost use Rattle.ss_typed.specs.Tree.{ExprTree, NotOf, OldOf, BinaryOf, ElementOf, CallOf, arguments};
ghost use Rattle.ss_typed.specs.View.{expr, grouped};
ghost use Rattle.ss_nonnull_rules.specs.NonNull.{is_set_result, known_right};
ghost use Rattle.ss_nonnull_rules.specs.Faults.{inside, handed, wanted_if, parameters, body_in_table, constructor_parameters};
ghost use Rattle.ss_typed.specs.Parts.{link_after, step_after};
ghost use Rattle.ss_nonnull_seen.specs.Called.{called_types};
ghost use Rattle.ss_nonnull_seen.specs.Codes.{path_of, context_of, seen_of};
ghost use Rattle.ss_nonnull_seen.specs.Seen.{Leads, seen, plain, by_type};

use ss_core::{BodyId, ClassId, Operator, Place, Ty, is_non_null, is_non_null_type};
use ss_faults::Fault;
use ss_nonnull_seen::{
    Called, Known, NullContext, Seen, aged, base_method, called, class_tested, constructor,
    element_read, field_read, learn_side, learnt_at, literal, local_read, method_of, negated,
    note_lacking, null_literal, operated, plain, static_method, this_object, type_at,
};
use ss_typed::{TypedExpr, TypedLink, TypedStep, class_type, place_of, type_of};
use std::alloc::{AllocError, Global};

// A truth value or a number that says nothing.
fn value(alloc: Global, place: Place, ty: Ty) -> Seen
    ensures { seen_of result ≡ plain place (Some ty) false }
{
    plain(alloc, place, Some(ty), false)
}

// Whether `result` of this type is never null; that of a body that has none fits everything.
fn is_set_result(ty: Option<Ty>) -> bool
    ensures { result ≡ is_set_result ty }
{
    match ty {
        Some(ty) => is_non_null(ty),
        None => true,
    }
}

// What is seen of an expression by its place and its type alone.
fn by_type(alloc: Global, e: &TypedExpr) -> Seen
    ensures { seen_of result ≡ by_type (expr e.now) }
{
    let ty = type_of(e);
    plain(alloc, place_of(e), ty, is_non_null_type(ty))
}

/// Notes the faults inside an expression, and says what is seen of it.
#[cycle(expr)]
pub fn check(
    context: &NullContext<'_>,
    known: &Option<Known>,
    found: &mut Vec<Fault>,
    e: &TypedExpr,
) -> Result<Seen, AllocError>
    ensures seen { IfOk result (λ v. seen_of v ≡ seen (context_of context.now) (path_of known.now) (expr e.now)) }
    ensures noted { OnOk result (found.new.items ≡ found.old.items ++ inside (context_of context.now) (path_of known.now) (expr e.now)) }
{
    let alloc = context.alloc;
    match e {
        TypedExpr::Int(place, _) | TypedExpr::Bound(place, _) => Ok(value(alloc, *place, Ty::Int)),
        TypedExpr::Bool(place, truth) => Ok(literal(alloc, *place, *truth)),
        TypedExpr::Null(place) => Ok(null_literal(alloc, *place)),
        TypedExpr::This(place, class) => Ok(this_object(alloc, *place, *class)),
        TypedExpr::Local(place, local, ty) => Ok(local_read(alloc, known, *place, *local, *ty)),
        TypedExpr::Result(place, ty) => Ok(plain(alloc, *place, *ty, is_set_result(*ty))),
        TypedExpr::Iff(_, a, b) | TypedExpr::Implies(_, a, b) | TypedExpr::Owners(_, _, a, b) => {
            check(context, known, found, a)?;
            Ok(check_last(context, known, found, b, e)?)
        }
        TypedExpr::Chain(place, first, links) => {
            let head = check(context, known, found, first)?;
            Ok(check_links(context, known, found, *place, head, links)?)
        }
        TypedExpr::Negate(_, inner) => Ok(check_last(context, known, found, inner, e)?),
        TypedExpr::Not(at, inner) => Ok(check_not(context, known, found, *at, inner)?),
        TypedExpr::Cast(_, _, _, inner) => Ok(check_last(context, known, found, inner, e)?),
        TypedExpr::Path(place, first, steps) => {
            let head = check(context, known, found, first)?;
            Ok(check_steps(context, known, found, *place, head, steps)?)
        }
        TypedExpr::Old(at, inner) => Ok(check_old(context, known, found, *at, inner)?),
        TypedExpr::Quantified(_, _, _, low, high, member) => {
            check(context, known, found, low)?;
            check(context, known, found, high)?;
            Ok(check_last(context, known, found, member, e)?)
        }
        TypedExpr::State(_, _, inner) => Ok(check_last(context, known, found, inner, e)?),
        TypedExpr::New(_, class, list) => Ok(make(context, known, found, list, *class, e)?),
        TypedExpr::NewArray(_, _, size) => Ok(check_last(context, known, found, size, e)?),
        TypedExpr::Static(_, number, _, list) => {
            Ok(check_static(context, known, found, list, *number, e)?)
        }
        TypedExpr::Base(_, method, _, list) => {
            Ok(check_base(context, known, found, list, *method, e)?)
        }
    }
}

// The last operand of an expression of which nothing is seen but its place and its type.
#[cycle(expr)]
fn check_last(
    context: &NullContext<'_>,
    known: &Option<Known>,
    found: &mut Vec<Fault>,
    operand: &TypedExpr,
    whole: &TypedExpr,
) -> Result<Seen, AllocError>
    ensures seen { IfOk result (λ v. seen_of v ≡ by_type (expr whole.now)) }
    ensures noted { OnOk result (found.new.items ≡ found.old.items ++ inside (context_of context.now) (path_of known.now) (expr operand.now)) }
{
    check(context, known, found, operand)?;
    Ok(by_type(context.alloc, whole))
}

// A `!` before an expression.
#[cycle(expr)]
fn check_not(
    context: &NullContext<'_>,
    known: &Option<Known>,
    found: &mut Vec<Fault>,
    place: Place,
    e: &TypedExpr,
) -> Result<Seen, AllocError>
    ensures seen { IfOk result (λ v. seen_of v ≡ seen (context_of context.now) (path_of known.now) (NotOf place (expr e.now))) }
    ensures noted { OnOk result (found.new.items ≡ found.old.items ++ inside (context_of context.now) (path_of known.now) (expr e.now)) }
{
    let head = check(context, known, found, e)?;
    Ok(negated(place, head))
}

// `old(..)`.
#[cycle(expr)]
fn check_old(
    context: &NullContext<'_>,
    known: &Option<Known>,
    found: &mut Vec<Fault>,
    place: Place,
    e: &TypedExpr,
) -> Result<Seen, AllocError>
    ensures seen { IfOk result (λ v. seen_of v ≡ seen (context_of context.now) (path_of known.now) (OldOf place (expr e.now))) }
    ensures noted { OnOk result (found.new.items ≡ found.old.items ++ inside (context_of context.now) (path_of known.now) (OldOf place (expr e.now))) }
{
    let before = NullContext {
        alloc: context.alloc,
        program: context.program,
        class: context.class,
        numbers: context.numbers,
        constructs: context.constructs,
        in_old: true,
        result: context.result,
    };
    let head = check(&before, known, found, e)?;
    Ok(aged(context.alloc, place, &head))
}

// A new object of this class, made with these arguments.
#[cycle(expr)]
fn make(
    context: &NullContext<'_>,
    known: &Option<Known>,
    found: &mut Vec<Fault>,
    list: &[TypedExpr],
    class: ClassId,
    whole: &TypedExpr,
) -> Result<Seen, AllocError>
    ensures seen { IfOk result (λ v. seen_of v ≡ by_type (expr whole.now)) }
    ensures noted { OnOk result (found.new.items ≡ found.old.items
        ++ handed (context_of context.now) (path_of known.now) (arguments (map expr list.now)) (constructor_parameters (context_of context.now).program class.0)) }
{
    let entered = constructor(context.program, class);
    check_arguments(context, known, found, entered, list)?;
    Ok(by_type(context.alloc, whole))
}

// A call of the static method with this number.
#[cycle(expr)]
fn check_static(
    context: &NullContext<'_>,
    known: &Option<Known>,
    found: &mut Vec<Fault>,
    list: &[TypedExpr],
    number: BodyId,
    whole: &TypedExpr,
) -> Result<Seen, AllocError>
    ensures seen { IfOk result (λ v. seen_of v ≡ by_type (expr whole.now)) }
    ensures noted { OnOk result (found.new.items ≡ found.old.items
        ++ handed (context_of context.now) (path_of known.now) (arguments (map expr list.now)) (parameters (context_of context.now).program (Some number.0))) }
{
    let entered = static_method(context.program, Some(number));
    check_arguments(context, known, found, entered, list)?;
    Ok(by_type(context.alloc, whole))
}

// A call of the method at this place of the table of the class above.
#[cycle(expr)]
fn check_base(
    context: &NullContext<'_>,
    known: &Option<Known>,
    found: &mut Vec<Fault>,
    list: &[TypedExpr],
    method: usize,
    whole: &TypedExpr,
) -> Result<Seen, AllocError>
    ensures seen { IfOk result (λ v. seen_of v ≡ by_type (expr whole.now)) }
    ensures noted { OnOk result (found.new.items ≡ found.old.items
        ++ handed (context_of context.now) (path_of known.now) (arguments (map expr list.now))
        (parameters (context_of context.now).program (body_in_table (context_of context.now).program (above (context_of context.now).program.classes (context_of context.now).class) method))) }
{
    let entered = base_method(context.program, context.class, method);
    check_arguments(context, known, found, entered, list)?;
    Ok(by_type(context.alloc, whole))
}

/// The same, and a fault where it may be null and a value of this type is wanted.
#[cycle(expr)]
pub fn check_wanted(
    context: &NullContext<'_>,
    known: &Option<Known>,
    found: &mut Vec<Fault>,
    wanted: Option<Ty>,
    e: &TypedExpr,
) -> Result<Seen, AllocError>
    ensures seen { IfOk result (λ v. seen_of v ≡ seen (context_of context.now) (path_of known.now) (expr e.now)) }
    ensures noted { OnOk result (found.new.items ≡ found.old.items
        ++ (inside (context_of context.now) (path_of known.now) (expr e.now) ++ wanted_if (context_of context.now) (path_of known.now) (expr e.now) wanted)) }
{
    let head = check(context, known, found, e)?;
    note_lacking(found, wanted, &head)?;
    Ok(head)
}

// The links of a chain, after its first operand.
#[cycle(expr)]
fn check_links(
    context: &NullContext<'_>,
    known: &Option<Known>,
    found: &mut Vec<Fault>,
    place: Place,
    first: Seen,
    links: &[TypedLink],
) -> Result<Seen, AllocError>
    ensures { IfOk result (λ v. Leads (context_of context.now) (path_of known.now) found.old.items (seen_of first) found.new.items (seen_of v)
        (λ (e : ExprTree). grouped place e (map link_after links.now))) }
{
    let mut head = first;
    for link in links {
        head = check_link(context, known, found, place, head, link)?;
    }
    Ok(head)
}

#[cycle(expr)]
fn check_link(
    context: &NullContext<'_>,
    known: &Option<Known>,
    found: &mut Vec<Fault>,
    place: Place,
    head: Seen,
    link: &TypedLink,
) -> Result<Seen, AllocError>
    ensures { IfOk result (λ v. Leads (context_of context.now) (path_of known.now) found.old.items (seen_of head) found.new.items (seen_of v) (link_after link.now place)) }
{
    let alloc = context.alloc;
    match link {
        TypedLink::Operation(operator, right) => {
            let placed = PlacedOperator {
                place,
                operator: *operator,
            };
            let longer = check_operation(context, known, found, head, placed, right)?;
            Ok(longer)
        }
        TypedLink::Is(_) => {
            let longer = class_tested(alloc, place, &head)?;
            Ok(longer)
        }
        TypedLink::As(class) => Ok(plain(alloc, place, Some(class_type(*class, false)), false)),
    }
}

// An operator at its place.
#[derive(Clone, Copy)]
struct PlacedOperator {
    place: Place,
    operator: Operator,
}

#[cycle(expr)]
fn check_operation(
    context: &NullContext<'_>,
    known: &Option<Known>,
    found: &mut Vec<Fault>,
    head: Seen,
    placed: PlacedOperator,
    operand: &TypedExpr,
) -> Result<Seen, AllocError>
    ensures { IfOk result (λ v. Leads (context_of context.now) (path_of known.now) found.old.items (seen_of head) found.new.items (seen_of v)
        (λ (e : ExprTree). BinaryOf placed.place placed.operator e (expr operand.now))) }
{
    let PlacedOperator { place, operator } = placed;
    let right = check_right(context, known, found, operator, &head, operand)?;
    let whole = operated(context.alloc, place, operator, head, right)?;
    Ok(whole)
}

// The right operand, which is read only where the left one leads to it.
#[cycle(expr)]
fn check_right(
    context: &NullContext<'_>,
    known: &Option<Known>,
    found: &mut Vec<Fault>,
    operator: Operator,
    head: &Seen,
    operand: &TypedExpr,
) -> Result<Seen, AllocError>
    ensures seen { IfOk result (λ v. (left : ExprTree) → seen_of head.now ≡ seen (context_of context.now) (path_of known.now) left
        → seen_of v ≡ seen (context_of context.now) (option_map (known_right operator left) (path_of known.now)) (expr operand.now)) }
    ensures noted { OnOk result ((left : ExprTree) → seen_of head.now ≡ seen (context_of context.now) (path_of known.now) left
        → found.new.items ≡ found.old.items ++ inside (context_of context.now) (option_map (known_right operator left) (path_of known.now)) (expr operand.now)) }
{
    match learnt_at(operator) {
        Some(truth) => {
            let more = learn_side(known, head, truth)?;
            let right = check(context, &more, found, operand)?;
            Ok(right)
        }
        None => {
            let right = check(context, known, found, operand)?;
            Ok(right)
        }
    }
}

// The steps of a path, after what it begins with.
#[cycle(expr)]
fn check_steps(
    context: &NullContext<'_>,
    known: &Option<Known>,
    found: &mut Vec<Fault>,
    place: Place,
    first: Seen,
    steps: &[TypedStep],
) -> Result<Seen, AllocError>
    ensures { IfOk result (λ v. Leads (context_of context.now) (path_of known.now) found.old.items (seen_of first) found.new.items (seen_of v)
        (λ (e : ExprTree). grouped place e (map step_after steps.now))) }
{
    let mut head = first;
    for step in steps {
        head = check_step(context, known, found, place, head, step)?;
    }
    Ok(head)
}

#[cycle(expr)]
fn check_step(
    context: &NullContext<'_>,
    known: &Option<Known>,
    found: &mut Vec<Fault>,
    place: Place,
    head: Seen,
    step: &TypedStep,
) -> Result<Seen, AllocError>
    ensures { IfOk result (λ v. Leads (context_of context.now) (path_of known.now) found.old.items (seen_of head) found.new.items (seen_of v) (step_after step.now place)) }
{
    match step {
        TypedStep::Field(field, ty) => { Ok(field_read(context, known, place, *field, *ty, &head)) }
        TypedStep::Element(index) => {
            check(context, known, found, index)?;
            Ok(element_read(context.alloc, place, &head))
        }
        TypedStep::Length => Ok(value(context.alloc, place, Ty::Int)),
        TypedStep::Call(method, ty, list) => {
            let entered = method_of(context.program, head.ty, *method);
            check_arguments(context, known, found, entered, list)?;
            Ok(called(context.alloc, place, *ty))
        }
    }
}

/// Each argument stands where a value of its parameter's type is wanted.
#[cycle(expr)]
pub fn check_arguments(
    context: &NullContext<'_>,
    known: &Option<Known>,
    found: &mut Vec<Fault>,
    entered: Called<'_>,
    list: &[TypedExpr],
) -> Result<(), AllocError>
    ensures { OnOk result (found.new.items ≡ found.old.items
        ++ handed (context_of context.now) (path_of known.now) (arguments (map expr list.now)) (called_types entered.entry)) }
{
    for (i, e) in list.iter().enumerate() {
        let wanted = type_at(entered, i);
        check_wanted(context, known, found, wanted, e)?;
    }
    Ok(())
}
