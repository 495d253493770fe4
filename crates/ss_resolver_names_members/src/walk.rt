// Unknown names in expressions.

ghost use Rattle.std.specs.Prelude.{◌≡◌, ◌++◌, true, None, Some, map, IfOk, OnOk, option_map, if◌then◌else◌};
ghost use Rattle.ss_ast.specs.Expressions.{ExprTree, MemberOf, grouped, expr_tree, type_tree, type_name_tree, arguments, name_tree};
ghost use Rattle.ss_tables.specs.Scopes.{Scope, within_quantifier};
ghost use Rattle.ss_tables.specs.Classes.{class_named};
ghost use Rattle.ss_tables.specs.Types.{array_type, written_type};
ghost use Rattle.ss_tables.specs.Statics.{static, count, new_type, cast_type};
ghost use Rattle.ss_tables_lookup.specs.Classes.{trees};
ghost use Rattle.ss_tables_lookup.specs.Views.{type_of};
ghost use Rattle.ss_tables_scopes.specs.Views.{scope_of};
ghost use Rattle.ss_resolver_names_rules.specs.Faults.{Faults, class_faults, type_name_faults, type_faults};
ghost use Rattle.ss_resolver_names_rules.specs.Expressions.{expr_faults, class_named_by, argument_faults, after_argument, arguments_faults};
ghost use Rattle.ss_resolver_names_rules.specs.Prefixes.{AnOther, prefix, settled};
ghost use Rattle.ss_ast.specs.Parts.{link_after, postfix_after};
ghost use Rattle.ss_resolver_scoping.specs.Views.{prefix_view};

use crate::found::{
    add_asked, add_called, add_dotted, add_pending, check_class, check_type, check_type_name,
};
use ss_ast::{Expr, Link, Name, Postfix, TypeName, TypeRef};
use ss_core::Place;
use ss_faults::Fault;
use ss_resolver_scoping::{
    Prefix, bare_place, prefix_asked, prefix_callee, prefix_receiver, prefix_value,
};
use ss_tables_lookup::StaticType;
use ss_tables_scopes::{
    ClassContext, LocalInfo, Scopes, call_type, called_with, count, link_type, new_type,
    type_of_cast, type_of_element,
};
use std::alloc::AllocError;

// A dot and a name after the beginning of a path.
fn walk_member<'a>(
    context: ClassContext<'_, '_>,
    locals: &Scopes,
    faults: &mut Vec<Fault>,
    place: Place,
    before: Prefix<'a>,
    name: &'a Name,
) -> Result<Prefix<'a>, AllocError>
    ensures noted { (e : ExprTree) → (found : Faults) → faults.old.items ≡ found ++ settled (scope_of context.entry locals.now) e → prefix_view before.entry ≡ prefix (scope_of context.entry locals.now) e
        → OnOk result (faults.new.items ≡ found ++ settled (scope_of context.entry locals.now) (MemberOf place e (name_tree name.now))) }
    ensures begun { (e : ExprTree) → prefix_view before.entry ≡ prefix (scope_of context.entry locals.now) e
        → IfOk result (λ r. prefix_view r ≡ prefix (scope_of context.entry locals.now) (MemberOf place e (name_tree name.now))) }
{
    let receiver = prefix_receiver(context, locals, before);
    add_dotted(context, locals, faults, before, receiver, name)?;
    Ok(Prefix::Member(bare_place(before), receiver, name))
}

/// The faults of an expression, up to those that the next part of a path decides.
#[cycle(expr)]
pub fn walk<'a>(
    context: ClassContext<'_, '_>,
    locals: &mut Scopes,
    faults: &mut Vec<Fault>,
    e: &'a Expr,
) -> Result<Prefix<'a>, AllocError>
    ensures noted { OnOk result (faults.new.items ≡ faults.old.items ++ settled (scope_of context.entry locals.old) (expr_tree e.now)) }
    ensures begun { IfOk result (λ r. prefix_view r ≡ prefix (scope_of context.entry locals.old) (expr_tree e.now)) }
    ensures kept { OnOk result (locals.new ≡ locals.old) }
{
    match e {
        Expr::Iff(_, a, b) | Expr::Implies(_, a, b) => {
            check(context, locals, faults, a)?;
            walk_operand(context, locals, faults, StaticType::Bool, b)
        }
        Expr::Chain(place, first, links) => {
            let before = walk(context, locals, faults, first)?;
            walk_links(context, locals, faults, *place, before, links)
        }
        Expr::Path(place, first, postfixes) => {
            let before = walk(context, locals, faults, first)?;
            walk_postfixes(context, locals, faults, *place, before, postfixes)
        }
        Expr::Negate(_, e) => walk_operand(context, locals, faults, StaticType::Int, e),
        Expr::Not(_, e) => walk_operand(context, locals, faults, StaticType::Bool, e),
        Expr::Cast(_, ty, e) => walk_cast(context, locals, faults, ty, e),
        Expr::Paren(_, e) | Expr::Old(_, e) => walk_paren(context, locals, faults, e),
        Expr::New(_, name, exprs) => walk_new(context, locals, faults, name, exprs),
        Expr::NewArray(_, place, name, length) => {
            walk_new_array(context, locals, faults, *place, name, length)
        }
        Expr::Quantified(_, _, name, low, high, body) => {
            check(context, locals, faults, low)?;
            check(context, locals, faults, high)?;
            check_member(context, locals, faults, name, body)?;
            Ok(Prefix::Value(Some(StaticType::Bool)))
        }
        Expr::Number(..) => Ok(Prefix::Value(Some(StaticType::Int))),
        Expr::Text(..) => Ok(Prefix::Value(None)),
        Expr::Truth(..) => Ok(Prefix::Value(Some(StaticType::Bool))),
        Expr::Null(_) => Ok(Prefix::Value(Some(StaticType::Null))),
        Expr::This(_) => Ok(Prefix::Value(context.this_type())),
        Expr::Base(_) => Ok(Prefix::Base),
        Expr::Result(_) => Ok(Prefix::Value(context.outcome)),
        Expr::Name(place, name) => Ok(Prefix::Name(*place, name)),
    }
}

// The operand of an operation of this type.
#[cycle(expr)]
fn walk_operand<'a>(
    context: ClassContext<'_, '_>,
    locals: &mut Scopes,
    faults: &mut Vec<Fault>,
    ty: StaticType,
    e: &Expr,
) -> Result<Prefix<'a>, AllocError>
    ensures noted { OnOk result (faults.new.items ≡ faults.old.items ++ expr_faults (scope_of context.entry locals.old) (expr_tree e.now)) }
    ensures begun { IfOk result (λ r. prefix_view r ≡ AnOther (Some (type_of ty))) }
    ensures kept { OnOk result (locals.new ≡ locals.old) }
{
    check(context, locals, faults, e)?;
    Ok(Prefix::Value(Some(ty)))
}

// A cast to a written type.
#[cycle(expr)]
fn walk_cast<'a>(
    context: ClassContext<'_, '_>,
    locals: &mut Scopes,
    faults: &mut Vec<Fault>,
    ty: &TypeRef,
    e: &Expr,
) -> Result<Prefix<'a>, AllocError>
    ensures noted { OnOk result (faults.new.items ≡ faults.old.items ++ (type_faults (trees context.entry.tables.now) (type_tree ty.now) ++ expr_faults (scope_of context.entry locals.old) (expr_tree e.now))) }
    ensures begun { IfOk result (λ r. prefix_view r ≡ AnOther (cast_type (written_type (trees context.entry.tables.now) (type_tree ty.now)))) }
    ensures kept { OnOk result (locals.new ≡ locals.old) }
{
    check_type(context.tables, faults, ty)?;
    check(context, locals, faults, e)?;
    Ok(Prefix::Value(type_of_cast(context.tables, ty)))
}

// An expression in parentheses, or inside `old`.
#[cycle(expr)]
fn walk_paren<'a>(
    context: ClassContext<'_, '_>,
    locals: &mut Scopes,
    faults: &mut Vec<Fault>,
    e: &Expr,
) -> Result<Prefix<'a>, AllocError>
    ensures noted { OnOk result (faults.new.items ≡ faults.old.items ++ expr_faults (scope_of context.entry locals.old) (expr_tree e.now)) }
    ensures begun { IfOk result (λ r. prefix_view r ≡ AnOther (static (scope_of context.entry locals.old) (expr_tree e.now))) }
    ensures kept { OnOk result (locals.new ≡ locals.old) }
{
    let ty = check(context, locals, faults, e)?;
    Ok(Prefix::Value(ty))
}

// A new object of the class of this name.
#[cycle(expr)]
fn walk_new<'a>(
    context: ClassContext<'_, '_>,
    locals: &mut Scopes,
    faults: &mut Vec<Fault>,
    name: &Name,
    exprs: &[Expr],
) -> Result<Prefix<'a>, AllocError>
    ensures noted { OnOk result (faults.new.items ≡ faults.old.items
        ++ (class_faults (trees context.entry.tables.now) (name_tree name.now).text (name_tree name.now).place ++ arguments_faults (scope_of context.entry locals.old) None (arguments (map expr_tree exprs.now)))) }
    ensures begun { IfOk result (λ r. prefix_view r ≡ AnOther (new_type (trees context.entry.tables.now) (count (arguments (map expr_tree exprs.now))) (class_named (trees context.entry.tables.now) (name_tree name.now).text))) }
    ensures kept { OnOk result (locals.new ≡ locals.old) }
{
    check_class(context.tables, faults, name.text.as_str(), name.place)?;
    check_arguments(context, locals, faults, None, exprs)?;
    Ok(Prefix::Value(new_type(context.tables, count(exprs), name.text.as_str())))
}

// A new array of elements of this type.
#[cycle(expr)]
fn walk_new_array<'a>(
    context: ClassContext<'_, '_>,
    locals: &mut Scopes,
    faults: &mut Vec<Fault>,
    place: Place,
    name: &TypeName,
    length: &Expr,
) -> Result<Prefix<'a>, AllocError>
    ensures noted { OnOk result (faults.new.items ≡ faults.old.items
        ++ (type_name_faults (trees context.entry.tables.now) place (type_name_tree name.now) ++ expr_faults (scope_of context.entry locals.old) (expr_tree length.now))) }
    ensures begun { IfOk result (λ r. prefix_view r ≡ AnOther (array_type (trees context.entry.tables.now) true (type_name_tree name.now))) }
    ensures kept { OnOk result (locals.new ≡ locals.old) }
{
    check_type_name(context.tables, faults, place, name)?;
    check(context, locals, faults, length)?;
    Ok(Prefix::Value(context.tables.array_type(true, name)))
}

/// The faults of an expression whose value is read, and its static type.
#[cycle(expr)]
pub fn check(
    context: ClassContext<'_, '_>,
    locals: &mut Scopes,
    faults: &mut Vec<Fault>,
    e: &Expr,
) -> Result<Option<StaticType>, AllocError>
    ensures noted { OnOk result (faults.new.items ≡ faults.old.items ++ expr_faults (scope_of context.entry locals.old) (expr_tree e.now)) }
    ensures typed { IfOk result (λ r. option_map type_of r ≡ static (scope_of context.entry locals.old) (expr_tree e.now)) }
    ensures kept { OnOk result (locals.new ≡ locals.old) }
{
    let read = walk(context, locals, faults, e)?;
    add_pending(context, locals, faults, read)?;
    Ok(prefix_value(context, locals, read))
}

// The member of a quantifier, in which the bound name is an `int`.
#[cycle(expr)]
fn check_member(
    context: ClassContext<'_, '_>,
    locals: &mut Scopes,
    faults: &mut Vec<Fault>,
    name: &Name,
    body: &Expr,
) -> Result<(), AllocError>
    ensures noted { OnOk result (faults.new.items ≡ faults.old.items ++ expr_faults (within_quantifier (scope_of context.entry locals.old) (name_tree name.now)) (expr_tree body.now)) }
    ensures kept { OnOk result (locals.new ≡ locals.old) }
{
    locals.enter(context.alloc)?;
    let local = LocalInfo {
        ty: Some(StaticType::Int),
        is_param: false,
    };
    locals.declare(context.alloc, name.text.as_str(), local)?;
    check(context, locals, faults, body)?;
    locals.leave();
    Ok(())
}

// What stands after the first operand of a chain.
#[cycle(expr)]
fn walk_links<'a>(
    context: ClassContext<'_, '_>,
    locals: &mut Scopes,
    faults: &mut Vec<Fault>,
    place: Place,
    first: Prefix<'a>,
    links: &'a [Link],
) -> Result<Prefix<'a>, AllocError>
    ensures noted { (e : ExprTree) → (found : Faults) → faults.old.items ≡ found ++ settled (scope_of context.entry locals.old) e → prefix_view first.entry ≡ prefix (scope_of context.entry locals.old) e
        → OnOk result (faults.new.items ≡ found ++ settled (scope_of context.entry locals.old) (grouped place e (map link_after links.now))) }
    ensures begun { (e : ExprTree) → prefix_view first.entry ≡ prefix (scope_of context.entry locals.old) e
        → IfOk result (λ r. prefix_view r ≡ prefix (scope_of context.entry locals.old) (grouped place e (map link_after links.now))) }
    ensures kept { OnOk result (locals.new ≡ locals.old) }
{
    let mut before = first;
    for link in links {
        before = walk_link(context, locals, faults, place, before, link)?;
    }
    Ok(before)
}

#[cycle(expr)]
fn walk_link<'a>(
    context: ClassContext<'_, '_>,
    locals: &mut Scopes,
    faults: &mut Vec<Fault>,
    place: Place,
    before: Prefix<'a>,
    link: &'a Link,
) -> Result<Prefix<'a>, AllocError>
    ensures noted { (e : ExprTree) → (found : Faults) → faults.old.items ≡ found ++ settled (scope_of context.entry locals.old) e → prefix_view before.entry ≡ prefix (scope_of context.entry locals.old) e
        → OnOk result (faults.new.items ≡ found ++ settled (scope_of context.entry locals.old) (link_after link.now place e)) }
    ensures begun { (e : ExprTree) → IfOk result (λ r. prefix_view r ≡ prefix (scope_of context.entry locals.old) (link_after link.now place e)) }
    ensures kept { OnOk result (locals.new ≡ locals.old) }
{
    add_pending(context, locals, faults, before)?;
    let known = link_type(context, link);
    match link {
        Link::Operation(_, operand) => {
            check(context, locals, faults, operand)?;
            Ok(Prefix::Value(known))
        }
        Link::Is(ty) => {
            check_type(context.tables, faults, ty)?;
            Ok(Prefix::Value(known))
        }
        Link::As(ty) => {
            check_type(context.tables, faults, ty)?;
            Ok(Prefix::Value(known))
        }
    }
}

// What stands after the beginning of a path.
#[cycle(expr)]
fn walk_postfixes<'a>(
    context: ClassContext<'_, '_>,
    locals: &mut Scopes,
    faults: &mut Vec<Fault>,
    place: Place,
    first: Prefix<'a>,
    postfixes: &'a [Postfix],
) -> Result<Prefix<'a>, AllocError>
    ensures noted { (e : ExprTree) → (found : Faults) → faults.old.items ≡ found ++ settled (scope_of context.entry locals.old) e → prefix_view first.entry ≡ prefix (scope_of context.entry locals.old) e
        → OnOk result (faults.new.items ≡ found ++ settled (scope_of context.entry locals.old) (grouped place e (map postfix_after postfixes.now))) }
    ensures begun { (e : ExprTree) → prefix_view first.entry ≡ prefix (scope_of context.entry locals.old) e
        → IfOk result (λ r. prefix_view r ≡ prefix (scope_of context.entry locals.old) (grouped place e (map postfix_after postfixes.now))) }
    ensures kept { OnOk result (locals.new ≡ locals.old) }
{
    let mut before = first;
    for postfix in postfixes {
        before = walk_postfix(context, locals, faults, place, before, postfix)?;
    }
    Ok(before)
}

#[cycle(expr)]
fn walk_postfix<'a>(
    context: ClassContext<'_, '_>,
    locals: &mut Scopes,
    faults: &mut Vec<Fault>,
    place: Place,
    before: Prefix<'a>,
    postfix: &'a Postfix,
) -> Result<Prefix<'a>, AllocError>
    ensures noted { (e : ExprTree) → (found : Faults) → faults.old.items ≡ found ++ settled (scope_of context.entry locals.old) e → prefix_view before.entry ≡ prefix (scope_of context.entry locals.old) e
        → OnOk result (faults.new.items ≡ found ++ settled (scope_of context.entry locals.old) (postfix_after postfix.now place e)) }
    ensures begun { (e : ExprTree) → prefix_view before.entry ≡ prefix (scope_of context.entry locals.old) e
        → IfOk result (λ r. prefix_view r ≡ prefix (scope_of context.entry locals.old) (postfix_after postfix.now place e)) }
    ensures kept { OnOk result (locals.new ≡ locals.old) }
{
    match postfix {
        Postfix::Member(name) => walk_member(context, locals, faults, place, before, name),
        Postfix::Element(index) => {
            add_pending(context, locals, faults, before)?;
            let ty = prefix_value(context, locals, before);
            check(context, locals, faults, index)?;
            Ok(Prefix::Value(type_of_element(ty)))
        }
        Postfix::Call(arguments) => {
            add_called(context, locals, faults, before)?;
            let callee = called_with(count(arguments), prefix_callee(context, locals, before));
            let ty = call_type(context.tables, callee);
            let asked = prefix_asked(before);
            check_arguments(context, locals, faults, asked, arguments)?;
            Ok(Prefix::Value(ty))
        }
    }
}

// Arguments, of which one may name a class.
#[cycle(expr)]
pub fn check_arguments(
    context: ClassContext<'_, '_>,
    locals: &mut Scopes,
    faults: &mut Vec<Fault>,
    asked: Option<usize>,
    exprs: &[Expr],
) -> Result<(), AllocError>
    ensures noted { OnOk result (faults.new.items ≡ faults.old.items ++ arguments_faults (scope_of context.entry locals.old) asked (arguments (map expr_tree exprs.now))) }
    ensures kept { OnOk result (locals.new ≡ locals.old) }
{
    let mut which = asked;
    for argument in exprs {
        check_argument(context, locals, faults, which, argument)?;
        which = after_argument(which);
    }
    Ok(())
}

#[cycle(expr)]
fn check_argument(
    context: ClassContext<'_, '_>,
    locals: &mut Scopes,
    faults: &mut Vec<Fault>,
    which: Option<usize>,
    argument: &Expr,
) -> Result<(), AllocError>
    ensures noted { OnOk result (faults.new.items ≡ faults.old.items ++ argument_faults (scope_of context.entry locals.old) which (expr_tree argument.now) (expr_faults (scope_of context.entry locals.old) (expr_tree argument.now))) }
    ensures kept { OnOk result (locals.new ≡ locals.old) }
{
    if names_class(which) {
        let named = walk(context, locals, faults, argument)?;
        return add_asked(context, locals, faults, named);
    }
    check(context, locals, faults, argument)?;
    Ok(())
}

// Whether the argument is the one that names a class.
fn names_class(which: Option<usize>) -> bool
    ensures { (s : Scope) → (e : ExprTree) → (fs : Faults) → argument_faults s which e fs ≡ (if result then class_named_by s e fs else fs) }
{
    match which {
        Some(number) => number == 0,
        None => false,
    }
}

// The number of the argument that names a class, counted from the next one.
fn after_argument(which: Option<usize>) -> Option<usize>
    ensures { result ≡ after_argument which }
{
    match which {
        Some(number) => { if number == 0 { None } else { Some(number - 1) } }
        None => None,
    }
}
