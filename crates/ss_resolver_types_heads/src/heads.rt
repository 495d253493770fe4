// Paths, read from the left.

ghost use Rattle.std.specs.Prelude.{◌≡◌, ◌++◌, IfOk, OnOk, None, option_map};
ghost use Rattle.ss_ast.specs.Expressions.{ExprTree, MemberOf, name_tree, type_tree};
ghost use Rattle.ss_tables_lookup.specs.Classes.{trees};
ghost use Rattle.ss_tables_lookup.specs.Views.{type_of};
ghost use Rattle.ss_tables_scopes.specs.Views.{receiver_of, callee_of};
ghost use Rattle.ss_tables.specs.Statics.{name_receiver};
ghost use Rattle.ss_resolver_types_heads.specs.Expressions.{is_misused, is_method_name, reads_method, is_no_read, is_wrong_read, word_faults, is_value_receiver};
ghost use Rattle.ss_resolver_types_heads.specs.Heads.{value_at, known_at, receiver_at, callee_at, called_at, rest_read, rest_dot, rest_as, class_test_faults, dotted, dot_faults, Leads};
ghost use Rattle.ss_resolver_types_heads.specs.Codes.{want_of, known_of, context_of, called_of, head_of};

use crate::calls::{Called, call_member, call_name, class_of_known, has_no_members};
use crate::context::ExprContext;
use crate::operations::note_no_class;
use crate::wants::{Known, Want, note_bad_type, note_misfit};
use ss_ast::{Name, TypeRef};
use ss_core::Place;
use ss_faults::Fault;
use ss_tables_lookup::{StaticType, Tables, declared_place};
use ss_tables_scopes::{
    Callee, Receiver, Scopes, is_state_call, is_state_read, member_callee, name_callee,
    name_receiver, name_type, read_type,
};
use std::alloc::AllocError;

/// What an expression is that ends neither with a bare name nor with a name after a dot.
#[derive(Clone, Copy)]
pub enum Form {
    Element,
    /// A call, and whether it is a question about states or owners.
    Call(bool),
    New,
    Other,
}

/// How an expression ends, which decides what may still be made of it.
#[derive(Clone, Copy)]
pub enum Head<'e> {
    /// A bare name.
    Name(Place, &'e String),
    /// The word `base`.
    Base(Place),
    /// A name after a dot, with what stands before the dot.
    Member(Place, Receiver, Known, &'e Name),
    /// It ends otherwise.
    Value(Form, Known),
}

/// A value of this type.
pub fn value(place: Place, ty: Option<StaticType>) -> Known
    ensures { known_of result ≡ value_at place (option_map type_of ty) }
{
    Known {
        place,
        ty,
        is_nothing: false,
    }
}

// Whether a bare name means a method that isn't called, or a field of `this` where there is no `this`.
fn is_misused(context: &ExprContext<'_, '_>, locals: &Scopes, name: &str) -> bool
    ensures { result ≡ is_misused (context_of context.now locals.now) name.now }
{
    if locals.find(name).is_some() {
        return false;
    }
    if context
        .within
        .tables
        .field_of(context.within.class, name)
        .is_some()
    {
        return context.is_static;
    }
    context
        .within
        .tables
        .method_of(context.within.class, name)
        .is_some()
}

// Whether a declared class has no field of the name, but a method.
fn is_method_name(tables: &Tables<'_>, name: &str, class: Option<usize>) -> bool
    ensures { result ≡ is_method_name (trees tables.now) name.now class }
{
    match class {
        Some(class) => {
            tables.field_of(class, name).is_none() && tables.method_of(class, name).is_some()
        }
        None => false,
    }
}

// The same of the class with this number.
fn reads_method(tables: &Tables<'_>, name: &str, class: Option<usize>) -> bool
    ensures { result ≡ reads_method (trees tables.now) name.now class }
{
    match class {
        Some(number) => is_method_name(tables, name, declared_place(number)),
        None => false,
    }
}

fn is_no_read(tables: &Tables<'_>, known: Known, name: &str) -> bool
    ensures { result ≡ is_no_read (trees tables.now) (known_of known) name.now }
{
    if is_state_read(name) {
        return false;
    }
    is_state_call(name)
        || has_no_members(known)
        || reads_method(tables, name, class_of_known(known))
}

// Whether a name after a dot can't be read.
fn is_wrong_read(tables: &Tables<'_>, known: Known, name: &str, receiver: Receiver) -> bool
    ensures { result ≡ is_wrong_read (trees tables.now) (known_of known) name.now (receiver_of receiver) }
{
    match receiver {
        Receiver::Console | Receiver::Owner | Receiver::Base => true,
        Receiver::Class(_) => false,
        Receiver::Value(_) => is_no_read(tables, known, name),
    }
}

fn is_value(receiver: Receiver) -> bool
    ensures { result ≡ is_value_receiver (receiver_of receiver) }
{
    match receiver {
        Receiver::Value(_) => true,
        Receiver::Console | Receiver::Owner | Receiver::Base | Receiver::Class(_) => false,
    }
}

// Whether a bare name before a dot stands for a value.
fn stands_for_value(context: &ExprContext<'_, '_>, locals: &Scopes, name: &str) -> bool
    ensures { result ≡ is_value_receiver (name_receiver (context_of context.now locals.now).scope name.now None) }
{
    is_value(name_receiver(context.within, locals, name, None))
}

// Notes a state word after what is no reference.
fn note_word(
    tables: &Tables<'_>,
    found: &mut Vec<Fault>,
    known: Known,
    name: &str,
    receiver: Receiver,
) -> Result<(), AllocError>
    ensures { OnOk result (found.new.items ≡ found.old.items ++ word_faults (trees tables.now) (known_of known) name.now (receiver_of receiver)) }
{
    if is_value(receiver) && is_state_read(name) {
        return note_misfit(tables, found, Want::AReference, known);
    }
    Ok(())
}

// What is known of the expression.
fn known_at(context: &ExprContext<'_, '_>, locals: &Scopes, head: Head<'_>) -> Known
    ensures { known_of result ≡ known_at (context_of context.now locals.now).scope (head_of head.entry) }
{
    match head {
        Head::Name(place, name) => value(place, name_type(context.within, locals, name.as_str())),
        Head::Base(place) => value(place, None),
        Head::Member(place, receiver, _, name) => value(
            place,
            read_type(context.within.tables, name.text.as_str(), receiver),
        ),
        Head::Value(_, known) => known,
    }
}

// What it is before a dot.
fn receiver_at(context: &ExprContext<'_, '_>, locals: &Scopes, head: Head<'_>) -> Receiver
    ensures { receiver_of result ≡ receiver_at (context_of context.now locals.now).scope (head_of head.entry) }
{
    match head {
        Head::Name(_, name) => {
            let ty = name_type(context.within, locals, name.as_str());
            name_receiver(context.within, locals, name.as_str(), ty)
        }
        Head::Base(_) => Receiver::Base,
        Head::Member(_, receiver, _, name) => Receiver::Value(read_type(
            context.within.tables,
            name.text.as_str(),
            receiver,
        )),
        Head::Value(_, known) => Receiver::Value(known.ty),
    }
}

/// What a call of it calls.
pub fn callee_at<'p>(context: &ExprContext<'_, 'p>, locals: &Scopes, head: Head<'_>) -> Callee<'p>
    ensures { callee_of result ≡ callee_at (context_of context.now locals.now).scope (head_of head.entry) }
{
    match head {
        Head::Name(_, name) => name_callee(context.within, locals, name.as_str()),
        Head::Base(_) => Callee::Base,
        Head::Member(_, receiver, _, name) => {
            member_callee(context.within, name.text.as_str(), receiver)
        }
        Head::Value(..) => Callee::Nothing,
    }
}

/// What a call of it with so many arguments means.
pub fn called_at<'p>(
    context: &ExprContext<'_, 'p>,
    locals: &Scopes,
    count: usize,
    head: Head<'_>,
) -> Called<'p>
    ensures { called_of (trees context.now.within.tables.now) result ≡ called_at (context_of context.now locals.now) count (head_of head.entry) }
{
    match head {
        Head::Name(_, name) => call_name(context, locals, name.as_str()),
        Head::Member(_, receiver, known, name) => {
            call_member(context, locals, count, known, name.text.as_str(), receiver)
        }
        Head::Base(_) | Head::Value(..) => Called::Refused,
    }
}

// Notes the faults that it has where its value is read, besides those where it is called.
fn note_read(
    context: &ExprContext<'_, '_>,
    locals: &Scopes,
    found: &mut Vec<Fault>,
    head: Head<'_>,
) -> Result<(), AllocError>
    ensures { OnOk result (found.new.items ≡ found.old.items ++ rest_read (context_of context.now locals.now) (head_of head.entry)) }
{
    match head {
        Head::Name(place, name) => {
            note_bad_type(found, is_misused(context, locals, name.as_str()), place)
        }
        Head::Base(place) => note_bad_type(found, true, place),
        Head::Member(place, receiver, known, name) => {
            let tables = context.within.tables;
            let is_fault = is_wrong_read(tables, known, name.text.as_str(), receiver);
            note_bad_type(found, is_fault, place)
        }
        Head::Value(..) => Ok(()),
    }
}

/// Notes the faults that it has where its value is read, besides those where it is called, and says what is known of it.
pub fn settle(
    context: &ExprContext<'_, '_>,
    locals: &Scopes,
    found: &mut Vec<Fault>,
    head: Head<'_>,
) -> Result<Known, AllocError>
    ensures known { IfOk result (λ v. known_of v ≡ known_at (context_of context.now locals.now).scope (head_of head.entry)) }
    ensures noted { OnOk result (found.new.items ≡ found.old.items ++ rest_read (context_of context.now locals.now) (head_of head.entry)) }
{
    note_read(context, locals, found, head)?;
    Ok(known_at(context, locals, head))
}

/// The same, and that it isn't what is wanted.
pub fn settle_as(
    context: &ExprContext<'_, '_>,
    locals: &Scopes,
    found: &mut Vec<Fault>,
    want: Want,
    head: Head<'_>,
) -> Result<Known, AllocError>
    ensures known { IfOk result (λ v. known_of v ≡ known_at (context_of context.now locals.now).scope (head_of head.entry)) }
    ensures noted { OnOk result (found.new.items ≡ found.old.items ++ rest_as (context_of context.now locals.now) (want_of want) (head_of head.entry)) }
{
    let known = settle(context, locals, found, head)?;
    note_misfit(context.within.tables, found, want, known)?;
    Ok(known)
}

// Notes the faults that it has before a dot, besides those where it is called.
fn note_before_dot(
    context: &ExprContext<'_, '_>,
    locals: &Scopes,
    found: &mut Vec<Fault>,
    head: Head<'_>,
) -> Result<(), AllocError>
    ensures { OnOk result (found.new.items ≡ found.old.items ++ rest_dot (context_of context.now locals.now) (head_of head.entry)) }
{
    match head {
        Head::Name(place, name) => {
            if stands_for_value(context, locals, name.as_str()) {
                return note_bad_type(found, is_misused(context, locals, name.as_str()), place);
            }
            Ok(())
        }
        Head::Member(place, receiver, known, name) => {
            let tables = context.within.tables;
            let is_fault = is_wrong_read(tables, known, name.text.as_str(), receiver);
            note_bad_type(found, is_fault, place)
        }
        Head::Base(_) | Head::Value(..) => Ok(()),
    }
}

// A dot and a name after an expression.
fn dot<'e>(
    context: &ExprContext<'_, '_>,
    locals: &Scopes,
    found: &mut Vec<Fault>,
    place: Place,
    head: Head<'_>,
    name: &'e Name,
) -> Result<Head<'e>, AllocError>
    ensures head { IfOk result (λ h. head_of h ≡ dotted (context_of context.now locals.now).scope place (head_of head.entry) (name_tree name.now)) }
    ensures noted { OnOk result (found.new.items ≡ found.old.items ++ dot_faults (context_of context.now locals.now) (head_of head.entry) (name_tree name.now)) }
{
    note_before_dot(context, locals, found, head)?;
    let known = known_at(context, locals, head);
    let receiver = receiver_at(context, locals, head);
    note_word(
        context.within.tables,
        found,
        known,
        name.text.as_str(),
        receiver,
    )?;
    Ok(Head::Member(place, receiver, known, name))
}

/// A dot and a name after an expression.
pub fn walk_dot<'e>(
    context: &ExprContext<'_, '_>,
    locals: &Scopes,
    found: &mut Vec<Fault>,
    place: Place,
    head: Head<'_>,
    name: &'e Name,
) -> Result<Head<'e>, AllocError>
    ensures { IfOk result (λ h. Leads (context_of context.now locals.now) found.old.items (head_of head.entry) found.new.items (head_of h)
        (λ (e : ExprTree). MemberOf place e (name_tree name.now))) }
{
    let longer = dot(context, locals, found, place, head, name)?;
    Ok(longer)
}

/// Notes that it is no reference, and a type that no reference has.
pub fn note_class_test(
    context: &ExprContext<'_, '_>,
    locals: &Scopes,
    found: &mut Vec<Fault>,
    head: Head<'_>,
    ty: &TypeRef,
) -> Result<(), AllocError>
    ensures { OnOk result (found.new.items ≡ found.old.items ++ class_test_faults (context_of context.now locals.now) (head_of head.entry) (type_tree ty.now)) }
{
    settle_as(context, locals, found, Want::AReference, head)?;
    note_no_class(found, ty)
}
