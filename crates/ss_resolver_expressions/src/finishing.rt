// What an expression along a path becomes.

ghost use Rattle.std.specs.Prelude.{◌≡◌, IfOk, option_map};
ghost use Rattle.ss_ast.specs.Expressions.{Arguments, ExprTree, MemberOf, name_tree};
ghost use Rattle.ss_tables.specs.Statics.{call_type, called_with};
ghost use Rattle.ss_tables_lookup.specs.Views.{type_of};
ghost use Rattle.ss_typed.specs.View as view;
ghost use Rattle.ss_resolver_rules.specs.Numbers.{class_in};
ghost use Rattle.ss_resolver_rules.specs.Expressions.{first_class, third_class};
ghost use Rattle.ss_resolver_expressions.specs.Environments.{env_of, given, part, part_value, part_callee, part_called, part_view, part_class};

use crate::bare::{bare_name, member, this};
use crate::build::{boxed, null_tree};
use crate::calls::{Asked, WrittenCall, called_after, called_bare};
use crate::context::ResolutionContext;
use crate::local_names::LocalNames;
use crate::parts::{Part, part_receiver, part_type};
use ss_ast::Name;
use ss_core::{ClassId, Place};
use ss_resolver_tables::class_id;
use ss_tables_lookup::StaticType;
use ss_tables_scopes::{call_type, called_with, class_of_type, member_callee, name_callee};
use ss_typed::TypedExpr;
use std::alloc::AllocError;

// The number of the class of a type.
fn number_of(ty: Option<StaticType>) -> usize
    ensures { result ≡ class_in (option_map type_of ty) }
{
    match class_of_type(ty) {
        Some(class) => class,
        None => 0,
    }
}

/// The tree of an expression whose value is read.
pub fn finish(
    context: &ResolutionContext<'_, '_>,
    names: &LocalNames,
    part: Part<'_>,
) -> Result<Box<TypedExpr>, AllocError>
    ensures { IfOk result (λ e. view.expr e.value ≡ part_value (env_of context.now names.now) (part_view part.entry)) }
{
    match part {
        Part::Name(place, name) => bare_name(context, names, place, name),
        Part::Base(place) => Ok(boxed(context.within.alloc, this(context, place))?),
        Part::Member {
            place,
            ty,
            object,
            name,
            ..
        } => { member(context, place, object, name, number_of(ty)) }
        Part::Other(_, value) => Ok(value),
    }
}

/// The tree of a call of it.
pub fn called(
    context: &ResolutionContext<'_, '_>,
    names: &LocalNames,
    place: Place,
    part: Part<'_>,
    asked: Asked,
    args: Vec<TypedExpr>,
) -> Result<Box<TypedExpr>, AllocError>
    ensures { (es : Arguments) → asked.first.0 ≡ first_class (env_of context.now names.now) es → asked.third.0 ≡ third_class (env_of context.now names.now) es
        → IfOk result (λ r. view.expr r.value ≡ part_called (env_of context.now names.now) place es (given args.items) (part_view part.entry)) }
{
    match part {
        Part::Name(at, name) => {
            let callee = name_callee(context.within, names.names(), name);
            called_bare(context, place, at, args, callee)
        }
        Part::Member {
            receiver,
            object,
            name,
            ..
        } => {
            let callee = member_callee(context.within, name, receiver);
            let call = WrittenCall {
                place,
                object,
                args,
            };
            called_after(context, receiver, call, name, asked, callee)
        }
        Part::Base(_) | Part::Other(..) => null_tree(context.within.alloc, place),
    }
}

/// The class that it names where it is an argument of a question.
pub fn part_class(
    context: &ResolutionContext<'_, '_>,
    names: &LocalNames,
    part: &Part<'_>,
) -> ClassId
    ensures { result.0 ≡ part_class (env_of context.now names.now) (part_view part.now) }
{
    let _names = names.names();
    match part {
        Part::Name(_, name) => class_id(context.within.tables, name),
        Part::Base(_) | Part::Member { .. } | Part::Other(..) => ClassId(0),
    }
}

/// A member after a dot.
pub fn dotted<'p>(
    context: &ResolutionContext<'_, '_>,
    names: &LocalNames,
    place: Place,
    before: Part<'_>,
    name: &'p Name,
) -> Result<Part<'p>, AllocError>
    ensures { (t : ExprTree) → part_view before.entry ≡ part (env_of context.now names.now) t
        → IfOk result (λ r. part_view r ≡ part (env_of context.now names.now) (MemberOf place t (name_tree name.now))) }
{
    let receiver = part_receiver(context, names, &before);
    let ty = part_type(context, names, &before);
    let object = finish(context, names, before)?;
    Ok(Part::Member {
        place,
        receiver,
        ty,
        object,
        name: name.text.as_str(),
    })
}

/// The static type of a call of it with so many arguments.
pub fn part_call_type(
    context: &ResolutionContext<'_, '_>,
    names: &LocalNames,
    part: &Part<'_>,
    count: usize,
) -> Option<StaticType>
    ensures { option_map type_of result ≡ call_type (env_of context.now names.now).scope.classes (called_with count (part_callee (env_of context.now names.now) (part_view part.now))) }
{
    let tables = context.within.tables;
    match part {
        Part::Name(_, name) => {
            let callee = name_callee(context.within, names.names(), name);
            call_type(tables, called_with(count, callee))
        }
        Part::Member { receiver, name, .. } => {
            let callee = member_callee(context.within, name, *receiver);
            call_type(tables, called_with(count, callee))
        }
        Part::Base(_) | Part::Other(..) => None,
    }
}
