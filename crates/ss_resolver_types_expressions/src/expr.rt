// Expressions: the faults within them, and what is known of them.

ghost use Rattle.std.specs.Prelude.{◌≡◌, ◌++◌, ◌&&◌, true, List, Some, IfOk, OnOk, map, option_map};
ghost use Rattle.ss_core.specs.declared.names.Ty.TheVariants as ty;
ghost use Rattle.ss_ast.specs.Expressions.{ExprTree, ElementOf, CallOf, NewOf, grouped, expr_tree, name_tree, type_tree, type_name_tree, arguments};
ghost use Rattle.ss_ast.specs.Programs.{ClassTree};
ghost use Rattle.ss_tables.specs.Statics.{static, cast_type};
ghost use Rattle.ss_tables.specs.Types.{array_type, written_type};
ghost use Rattle.ss_tables_scopes.specs.Names.{Names};
ghost use Rattle.ss_tables_scopes.specs.Views.{callee_of};
ghost use Rattle.ss_tables_lookup.specs.Classes.{trees};
ghost use Rattle.ss_tables_lookup.specs.Views.{type_of};
ghost use Rattle.ss_ast.specs.Parts.{link_after, postfix_after};
ghost use Rattle.ss_resolver_types_heads.specs.Faults.{bad_type, call_in_condition, fault_where};
ghost use Rattle.ss_resolver_types_heads.specs.Wants.{AnInt, ABool, AReference, AnyValue, known, bare};
ghost use Rattle.ss_resolver_types_heads.specs.Calls.{wants_of, whole_call, argument_wants};
ghost use Rattle.ss_resolver_types_heads.specs.Expressions.{AsValue, AsCallee, faults, faults_as, argument_where, argument_faults, condition_faults, no_class, is_text, operand};
ghost use Rattle.ss_resolver_types_heads.specs.Heads.{ending, value_at, AValueOf, Leads, names_class, is_printed, within_bound, call, operation_faults, call_faults};
ghost use Rattle.ss_resolver_types_heads.specs.Codes.{want_of, known_of, context_of, called_of, head_of};

use crate::shapes::{is_name, is_text, place_within};
use ss_ast::{Expr, Link, Name, Operator, Postfix, TypeName, TypeRef};
use ss_core::Place;
use ss_faults::Fault;
use ss_resolver_types_heads::{
    Called, ExprContext, Form, Head, Known, Want, call_new, called_at, callee_at, gives_nothing,
    is_question, is_wrong_call, note_bad_type, note_call, note_class_test, note_misfit,
    note_no_class, note_operands, settle, settle_as, value, walk_dot, want_at,
};
use ss_tables_lookup::{StaticType, Tables};
use ss_tables_scopes::{
    Callee, LocalInfo, Scopes, call_type, called_with, count, link_type, new_type, type_of_cast,
    type_of_element,
};
use std::alloc::AllocError;

// An expression that isn't a path.
fn other<'e>(place: Place, ty: Option<StaticType>) -> Head<'e>
    ensures { head_of result ≡ AValueOf Form.Other (value_at place (option_map type_of ty)) }
{
    Head::Value(Form::Other, value(place, ty))
}

// A word of this type, which where it is a fault doesn't stand there.
fn word<'e>(
    found: &mut Vec<Fault>,
    is_fault: bool,
    place: Place,
    ty: Option<StaticType>,
) -> Result<Head<'e>, AllocError>
    ensures head { IfOk result (λ h. head_of h ≡ AValueOf Form.Other (value_at place (option_map type_of ty))) }
    ensures noted { OnOk result (found.new.items ≡ found.old.items ++ fault_where is_fault (bad_type place)) }
{
    note_bad_type(found, is_fault, place)?;
    Ok(other(place, ty))
}

// ---- calls

// A call of this with so many arguments.
fn call<'e>(tables: &Tables<'_>, place: Place, number: usize, callee: Callee<'_>) -> Head<'e>
    ensures { head_of result ≡ call (trees tables.now) place number (callee_of callee.entry) }
{
    let called = called_with(number, callee);
    let known = Known {
        place,
        ty: call_type(tables, called),
        is_nothing: gives_nothing(called),
    };
    Head::Value(Form::Call(is_question(callee)), known)
}

// Notes a call in a condition.
fn note_in_condition(
    context: &ExprContext<'_, '_>,
    found: &mut Vec<Fault>,
    place: Place,
    is_call: bool,
) -> Result<(), AllocError>
    ensures { OnOk result (found.new.items ≡ found.old.items ++ fault_where (context.now.in_condition && is_call) (call_in_condition place)) }
{
    note_call(found, context.in_condition && is_call, place)
}

// Notes a call in a condition, and a call that is at fault as a whole.
fn note_whole(
    context: &ExprContext<'_, '_>,
    found: &mut Vec<Fault>,
    place: Place,
    is_call: bool,
    number: usize,
    called: Called<'_>,
) -> Result<(), AllocError>
    ensures { OnOk result ((names : Names) → found.new.items ≡ found.old.items
        ++ (condition_faults (context_of context.now names) place is_call ++ whole_call place number (called_of (trees context.now.within.tables.now) called.entry))) }
{
    note_in_condition(context, found, place, is_call)?;
    note_bad_type(found, is_wrong_call(number, called), place)
}

// Of a call at fault nothing is wanted of its arguments.
fn unless_wrong<'p>(number: usize, called: Called<'p>) -> Called<'p>
    ensures { (cs : List ClassTree) → wants_of (called_of cs result) ≡ argument_wants number (called_of cs called.entry) }
{
    if is_wrong_call(number, called) {
        Called::Unknown
    } else {
        called
    }
}

// Whether the argument is to name a class.
fn names_class(want: Want) -> bool
    ensures { result ≡ names_class (want_of want) }
{
    match want {
        Want::ClassName => true,
        Want::AnInt
        | Want::ABool
        | Want::AReference
        | Want::AnArray
        | Want::AnyValue
        | Want::OfType(_)
        | Want::Printable
        | Want::OfDeclared
        | Want::OfClass(_) => false,
    }
}

fn is_printed(want: Want) -> bool
    ensures { result ≡ is_printed (want_of want) }
{
    match want {
        Want::Printable => true,
        Want::AnInt
        | Want::ABool
        | Want::AReference
        | Want::AnArray
        | Want::AnyValue
        | Want::OfType(_)
        | Want::OfDeclared
        | Want::OfClass(_)
        | Want::ClassName => false,
    }
}

// Whether the argument is a string that is printed.
fn is_printed_text(want: Want, e: &Expr) -> bool
    ensures { result ≡ (is_printed (want_of want) && is_text (bare (expr_tree e.now))) }
{
    is_printed(want) && is_text(e)
}

// ---- expressions

/// Notes the faults within an expression that it has where it is called, and says how it ends.
#[cycle(expr)]
pub fn walk<'e>(
    context: &ExprContext<'_, '_>,
    locals: &mut Scopes,
    found: &mut Vec<Fault>,
    e: &'e Expr,
) -> Result<Head<'e>, AllocError>
    ensures head { IfOk result (λ h. head_of h ≡ ending (context_of context.now locals.old).scope (expr_tree e.now)) }
    ensures noted { OnOk result (found.new.items ≡ found.old.items ++ faults (context_of context.now locals.old) AsCallee (expr_tree e.now)) }
    ensures same { OnOk result (locals.new ≡ locals.old) }
{
    match e {
        Expr::Iff(place, a, b) | Expr::Implies(place, a, b) => {
            check_as(context, locals, found, Want::ABool, a)?;
            walk_truth(context, locals, found, *place, b)
        }
        Expr::Chain(place, first, links) => {
            let head = walk(context, locals, found, first)?;
            Ok(walk_links(context, locals, found, *place, head, links)?)
        }
        Expr::Negate(place, inner) => walk_whole(context, locals, found, *place, inner),
        Expr::Not(place, inner) => walk_truth(context, locals, found, *place, inner),
        Expr::Cast(place, ty, inner) => walk_cast(context, locals, found, *place, ty, inner),
        Expr::Path(place, first, postfixes) => {
            let head = walk(context, locals, found, first)?;
            Ok(walk_postfixes(context, locals, found, *place, head, postfixes)?)
        }
        Expr::Name(place, name) => Ok(Head::Name(*place, name)),
        Expr::Base(place) => Ok(Head::Base(*place)),
        Expr::Number(place, _) => Ok(other(*place, Some(StaticType::Int))),
        Expr::Text(place, _) => Ok(word(found, true, *place, None)?),
        Expr::Truth(place, _) => Ok(other(*place, Some(StaticType::Bool))),
        Expr::Null(place) => Ok(other(*place, Some(StaticType::Null))),
        Expr::This(at) => Ok(word(found, context.is_static, *at, context.within.this_type())?),
        Expr::Result(at) => Ok(word(found, context.lacks_result, *at, context.within.outcome)?),
        Expr::Paren(_, inner) => walk_paren(context, locals, found, inner),
        Expr::Old(place, inner) => walk_old(context, locals, found, *place, inner),
        Expr::New(place, name, list) => walk_new(context, locals, found, *place, name, list),
        Expr::NewArray(at, _, ty, size) => walk_array(context, locals, found, *at, ty, size),
        Expr::Quantified(place, _, name, low, high, body) => {
            let inner = ExprContext {
                in_condition: true,
                ..*context
            };
            check_as(&inner, locals, found, Want::AnInt, low)?;
            check_as(&inner, locals, found, Want::AnInt, high)?;
            check_bound(&inner, locals, found, name, body)?;
            Ok(other(*place, Some(StaticType::Bool)))
        }
    }
}

// The last operand of an operation on truth values that gives one.
#[cycle(expr)]
fn walk_truth<'e>(
    context: &ExprContext<'_, '_>,
    locals: &mut Scopes,
    found: &mut Vec<Fault>,
    place: Place,
    e: &Expr,
) -> Result<Head<'e>, AllocError>
    ensures head { IfOk result (λ h. head_of h ≡ AValueOf Form.Other (value_at place (Some ty.Bool))) }
    ensures noted { OnOk result (found.new.items ≡ found.old.items ++ faults_as (context_of context.now locals.old) ABool (expr_tree e.now)) }
    ensures same { OnOk result (locals.new ≡ locals.old) }
{
    check_as(context, locals, found, Want::ABool, e)?;
    Ok(other(place, Some(StaticType::Bool)))
}

// A minus before a number.
#[cycle(expr)]
fn walk_whole<'e>(
    context: &ExprContext<'_, '_>,
    locals: &mut Scopes,
    found: &mut Vec<Fault>,
    place: Place,
    e: &Expr,
) -> Result<Head<'e>, AllocError>
    ensures head { IfOk result (λ h. head_of h ≡ AValueOf Form.Other (value_at place (Some ty.Int))) }
    ensures noted { OnOk result (found.new.items ≡ found.old.items ++ faults_as (context_of context.now locals.old) AnInt (expr_tree e.now)) }
    ensures same { OnOk result (locals.new ≡ locals.old) }
{
    check_as(context, locals, found, Want::AnInt, e)?;
    Ok(other(place, Some(StaticType::Int)))
}

// An expression in parentheses.
#[cycle(expr)]
fn walk_paren<'e>(
    context: &ExprContext<'_, '_>,
    locals: &mut Scopes,
    found: &mut Vec<Fault>,
    e: &Expr,
) -> Result<Head<'e>, AllocError>
    ensures head { IfOk result (λ h. head_of h ≡ AValueOf Form.Other (known (context_of context.now locals.old).scope (expr_tree e.now))) }
    ensures noted { OnOk result (found.new.items ≡ found.old.items ++ faults (context_of context.now locals.old) AsValue (expr_tree e.now)) }
    ensures same { OnOk result (locals.new ≡ locals.old) }
{
    let known = check(context, locals, found, e)?;
    Ok(Head::Value(Form::Other, known))
}

// `old(..)`.
#[cycle(expr)]
fn walk_old<'e>(
    context: &ExprContext<'_, '_>,
    locals: &mut Scopes,
    found: &mut Vec<Fault>,
    place: Place,
    e: &Expr,
) -> Result<Head<'e>, AllocError>
    ensures head { IfOk result (λ h. head_of h ≡ AValueOf Form.Other (value_at place (static (context_of context.now locals.old).scope (expr_tree e.now)))) }
    ensures noted { OnOk result (found.new.items ≡ found.old.items ++ faults_as (context_of context.now locals.old) AnyValue (expr_tree e.now)) }
    ensures same { OnOk result (locals.new ≡ locals.old) }
{
    let known = check_as(context, locals, found, Want::AnyValue, e)?;
    Ok(other(place, known.ty))
}

// A cast to a type, which is one of references.
#[cycle(expr)]
fn walk_cast<'e>(
    context: &ExprContext<'_, '_>,
    locals: &mut Scopes,
    found: &mut Vec<Fault>,
    place: Place,
    to: &TypeRef,
    e: &Expr,
) -> Result<Head<'e>, AllocError>
    ensures head { IfOk result (λ h. head_of h ≡ AValueOf Form.Other (value_at place (cast_type (written_type (trees context.now.within.tables.now) (type_tree to.now))))) }
    ensures noted { OnOk result (found.new.items ≡ found.old.items ++ (no_class (type_tree to.now) ++ faults_as (context_of context.now locals.old) AReference (expr_tree e.now))) }
    ensures same { OnOk result (locals.new ≡ locals.old) }
{
    note_no_class(found, to)?;
    check_as(context, locals, found, Want::AReference, e)?;
    Ok(other(place, type_of_cast(context.within.tables, to)))
}

// A new object of the class of this name.
#[cycle(expr)]
fn walk_new<'e>(
    context: &ExprContext<'_, '_>,
    locals: &mut Scopes,
    found: &mut Vec<Fault>,
    place: Place,
    name: &Name,
    list: &[Expr],
) -> Result<Head<'e>, AllocError>
    ensures head { IfOk result (λ h. head_of h ≡ ending (context_of context.now locals.old).scope (NewOf place (name_tree name.now) (arguments (map expr_tree list.now)))) }
    ensures noted { OnOk result (found.new.items ≡ found.old.items ++ faults (context_of context.now locals.old) AsCallee (NewOf place (name_tree name.now) (arguments (map expr_tree list.now)))) }
    ensures same { OnOk result (locals.new ≡ locals.old) }
{
    let called = call_new(context.within.tables, name.text.as_str());
    let placed = PlacedCall {
        place,
        is_call: true,
        called,
    };
    check_call(context, locals, found, placed, list)?;
    let ty = new_type(context.within.tables, count(list), name.text.as_str());
    Ok(Head::Value(Form::New, value(place, ty)))
}

// A new array of elements of this type.
#[cycle(expr)]
fn walk_array<'e>(
    context: &ExprContext<'_, '_>,
    locals: &mut Scopes,
    found: &mut Vec<Fault>,
    place: Place,
    name: &TypeName,
    e: &Expr,
) -> Result<Head<'e>, AllocError>
    ensures head { IfOk result (λ h. head_of h ≡ AValueOf Form.New (value_at place (array_type (trees context.now.within.tables.now) true (type_name_tree name.now)))) }
    ensures noted { OnOk result (found.new.items ≡ found.old.items
        ++ (condition_faults (context_of context.now locals.old) place true ++ faults_as (context_of context.now locals.old) AnInt (expr_tree e.now))) }
    ensures same { OnOk result (locals.new ≡ locals.old) }
{
    note_in_condition(context, found, place, true)?;
    check_as(context, locals, found, Want::AnInt, e)?;
    let ty = context.within.tables.array_type(true, name);
    Ok(Head::Value(Form::New, value(place, ty)))
}

/// Notes the faults of an expression whose value is read, and says what is known of it.
#[cycle(expr)]
pub fn check(
    context: &ExprContext<'_, '_>,
    locals: &mut Scopes,
    found: &mut Vec<Fault>,
    e: &Expr,
) -> Result<Known, AllocError>
    ensures known { IfOk result (λ v. known_of v ≡ known (context_of context.now locals.old).scope (expr_tree e.now)) }
    ensures noted { OnOk result (found.new.items ≡ found.old.items ++ faults (context_of context.now locals.old) AsValue (expr_tree e.now)) }
    ensures same { OnOk result (locals.new ≡ locals.old) }
{
    let head = walk(context, locals, found, e)?;
    let known = settle(context, locals, found, head)?;
    Ok(known)
}

/// The same, and that it isn't what is wanted where it stands.
#[cycle(expr)]
pub fn check_as(
    context: &ExprContext<'_, '_>,
    locals: &mut Scopes,
    found: &mut Vec<Fault>,
    want: Want,
    e: &Expr,
) -> Result<Known, AllocError>
    ensures known { IfOk result (λ v. known_of v ≡ known (context_of context.now locals.old).scope (expr_tree e.now)) }
    ensures noted { OnOk result (found.new.items ≡ found.old.items ++ faults_as (context_of context.now locals.old) (want_of want) (expr_tree e.now)) }
    ensures same { OnOk result (locals.new ≡ locals.old) }
{
    let known = check(context, locals, found, e)?;
    note_misfit(context.within.tables, found, want, known)?;
    Ok(known)
}

// The member of a quantifier, in whose scope the bound name is.
#[cycle(expr)]
fn check_bound(
    context: &ExprContext<'_, '_>,
    locals: &mut Scopes,
    found: &mut Vec<Fault>,
    name: &Name,
    body: &Expr,
) -> Result<(), AllocError>
    ensures noted { OnOk result (found.new.items ≡ found.old.items ++ faults_as (within_bound (context_of context.now locals.old) (name_tree name.now)) ABool (expr_tree body.now)) }
    ensures same { OnOk result (locals.new ≡ locals.old) }
{
    let known = LocalInfo {
        ty: Some(StaticType::Int),
        is_param: false,
    };
    locals.enter(context.within.alloc)?;
    locals.declare(context.within.alloc, name.text.as_str(), known)?;
    check_as(context, locals, found, Want::ABool, body)?;
    locals.leave();
    Ok(())
}

// The links of a chain, after its first operand.
#[cycle(expr)]
fn walk_links<'e>(
    context: &ExprContext<'_, '_>,
    locals: &mut Scopes,
    found: &mut Vec<Fault>,
    place: Place,
    first: Head<'e>,
    links: &'e [Link],
) -> Result<Head<'e>, AllocError>
    ensures walked { IfOk result (λ h. Leads (context_of context.now locals.old) found.old.items (head_of first.entry) found.new.items (head_of h)
        (λ (e : ExprTree). grouped place e (map link_after links.now))) }
    ensures same { OnOk result (locals.new ≡ locals.old) }
{
    let mut head = first;
    for link in links {
        head = walk_link(context, locals, found, place, head, link)?;
    }
    Ok(head)
}

#[cycle(expr)]
fn walk_link<'e>(
    context: &ExprContext<'_, '_>,
    locals: &mut Scopes,
    found: &mut Vec<Fault>,
    place: Place,
    head: Head<'e>,
    link: &'e Link,
) -> Result<Head<'e>, AllocError>
    ensures walked { IfOk result (λ h. Leads (context_of context.now locals.old) found.old.items (head_of head.entry) found.new.items (head_of h)
        (link_after link.now place)) }
    ensures same { OnOk result (locals.new ≡ locals.old) }
{
    let known = link_type(context.within, link);
    let longer = other(place, known);
    match link {
        Link::Operation(operator, right) => {
            let placed = PlacedOperator {
                place,
                operator: *operator,
            };
            check_operation(context, locals, found, head, placed, right)?;
            Ok(longer)
        }
        Link::Is(ty) => {
            note_class_test(context, locals, found, head, ty)?;
            Ok(longer)
        }
        Link::As(ty) => {
            note_class_test(context, locals, found, head, ty)?;
            Ok(longer)
        }
    }
}

// An operator at its place.
#[derive(Clone, Copy)]
struct PlacedOperator {
    place: Place,
    operator: Operator,
}

// An operation after its first operand.
#[cycle(expr)]
fn check_operation(
    context: &ExprContext<'_, '_>,
    locals: &mut Scopes,
    found: &mut Vec<Fault>,
    head: Head<'_>,
    placed: PlacedOperator,
    second: &Expr,
) -> Result<(), AllocError>
    ensures noted { OnOk result (found.new.items ≡ found.old.items ++ operation_faults (context_of context.now locals.old) placed.place (operand placed.operator) (head_of head.entry) (expr_tree second.now)) }
    ensures same { OnOk result (locals.new ≡ locals.old) }
{
    let PlacedOperator { place, operator } = placed;
    let left = settle(context, locals, found, head)?;
    let right = check(context, locals, found, second)?;
    note_operands(context.within.tables, found, place, operator, left, right)?;
    Ok(())
}

// The postfixes of a path, after what it begins with.
#[cycle(expr)]
fn walk_postfixes<'e>(
    context: &ExprContext<'_, '_>,
    locals: &mut Scopes,
    found: &mut Vec<Fault>,
    place: Place,
    first: Head<'e>,
    postfixes: &'e [Postfix],
) -> Result<Head<'e>, AllocError>
    ensures walked { IfOk result (λ h. Leads (context_of context.now locals.old) found.old.items (head_of first.entry) found.new.items (head_of h)
        (λ (e : ExprTree). grouped place e (map postfix_after postfixes.now))) }
    ensures same { OnOk result (locals.new ≡ locals.old) }
{
    let mut head = first;
    for postfix in postfixes {
        head = walk_postfix(context, locals, found, place, head, postfix)?;
    }
    Ok(head)
}

#[cycle(expr)]
fn walk_postfix<'e>(
    context: &ExprContext<'_, '_>,
    locals: &mut Scopes,
    found: &mut Vec<Fault>,
    place: Place,
    head: Head<'e>,
    postfix: &'e Postfix,
) -> Result<Head<'e>, AllocError>
    ensures walked { IfOk result (λ h. Leads (context_of context.now locals.old) found.old.items (head_of head.entry) found.new.items (head_of h)
        (postfix_after postfix.now place)) }
    ensures same { OnOk result (locals.new ≡ locals.old) }
{
    match postfix {
        Postfix::Member(name) => {
            let longer = walk_dot(context, locals, found, place, head, name)?;
            Ok(longer)
        }
        Postfix::Element(index) => {
            let longer = walk_element(context, locals, found, place, head, index)?;
            Ok(longer)
        }
        Postfix::Call(list) => {
            let longer = walk_call(context, locals, found, place, head, list)?;
            Ok(longer)
        }
    }
}

#[cycle(expr)]
fn walk_element<'e>(
    context: &ExprContext<'_, '_>,
    locals: &mut Scopes,
    found: &mut Vec<Fault>,
    place: Place,
    head: Head<'e>,
    index: &'e Expr,
) -> Result<Head<'e>, AllocError>
    ensures walked { IfOk result (λ h. Leads (context_of context.now locals.old) found.old.items (head_of head.entry) found.new.items (head_of h)
        (λ (e : ExprTree). ElementOf place e (expr_tree index.now))) }
    ensures same { OnOk result (locals.new ≡ locals.old) }
{
    let known = settle_as(context, locals, found, Want::AnArray, head)?;
    check_as(context, locals, found, Want::AnInt, index)?;
    Ok(Head::Value(Form::Element, value(place, type_of_element(known.ty))))
}

#[cycle(expr)]
fn walk_call<'e>(
    context: &ExprContext<'_, '_>,
    locals: &mut Scopes,
    found: &mut Vec<Fault>,
    place: Place,
    head: Head<'e>,
    list: &'e [Expr],
) -> Result<Head<'e>, AllocError>
    ensures walked { IfOk result (λ h. Leads (context_of context.now locals.old) found.old.items (head_of head.entry) found.new.items (head_of h)
        (λ (e : ExprTree). CallOf place e (arguments (map expr_tree list.now)))) }
    ensures same { OnOk result (locals.new ≡ locals.old) }
{
    let callee = callee_at(context, locals, head);
    let number = count(list);
    let called = called_at(context, locals, number, head);
    let placed = PlacedCall {
        place,
        is_call: !is_question(callee),
        called,
    };
    check_call(context, locals, found, placed, list)?;
    Ok(call(context.within.tables, place, number, callee))
}

/// A call at its place: whether it is one that no condition has, and what is called.
#[derive(Clone, Copy)]
pub struct PlacedCall<'p> {
    pub place: Place,
    pub is_call: bool,
    pub called: Called<'p>,
}

/// Notes the faults of a call besides those of what is called.
#[cycle(expr)]
pub fn check_call(
    context: &ExprContext<'_, '_>,
    locals: &mut Scopes,
    found: &mut Vec<Fault>,
    placed: PlacedCall<'_>,
    list: &[Expr],
) -> Result<(), AllocError>
    ensures noted { OnOk result (found.new.items ≡ found.old.items ++ call_faults (context_of context.now locals.old) placed.entry.place placed.entry.is_call
        (called_of (trees context.now.within.tables.now) placed.entry.called) (arguments (map expr_tree list.now))) }
    ensures same { OnOk result (locals.new ≡ locals.old) }
{
    let PlacedCall {
        place,
        is_call,
        called,
    } = placed;
    let number = count(list);
    note_whole(context, found, place, is_call, number, called)?;
    let wanted = unless_wrong(number, called);
    check_arguments(context, locals, found, wanted, list)?;
    Ok(())
}

// Each argument is what is wanted in its place.
#[cycle(expr)]
fn check_arguments(
    context: &ExprContext<'_, '_>,
    locals: &mut Scopes,
    found: &mut Vec<Fault>,
    called: Called<'_>,
    list: &[Expr],
) -> Result<(), AllocError>
    ensures noted { OnOk result (found.new.items ≡ found.old.items ++ argument_faults (context_of context.now locals.old)
        (wants_of (called_of (trees context.now.within.tables.now) called.entry)) (arguments (map expr_tree list.now))) }
    ensures same { OnOk result (locals.new ≡ locals.old) }
{
    for (i, e) in list.iter().enumerate() {
        let want = want_at(context.within.tables, called, i);
        check_argument(context, locals, found, want, e)?;
    }
    Ok(())
}

#[cycle(expr)]
fn check_argument(
    context: &ExprContext<'_, '_>,
    locals: &mut Scopes,
    found: &mut Vec<Fault>,
    want: Option<Want>,
    e: &Expr,
) -> Result<(), AllocError>
    ensures noted { OnOk result (found.new.items ≡ found.old.items ++ argument_where (context_of context.now locals.old) (option_map want_of want) (expr_tree e.now)) }
    ensures same { OnOk result (locals.new ≡ locals.old) }
{
    let Some(want) = want else {
        check(context, locals, found, e)?;
        return Ok(());
    };
    if names_class(want) {
        note_bad_type(found, !is_name(e), place_within(e))?;
        return Ok(());
    }
    if is_printed_text(want, e) {
        return Ok(());
    }
    check_as(context, locals, found, want, e)?;
    Ok(())
}
