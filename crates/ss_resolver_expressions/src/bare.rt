// Bare names and members.

ghost use Rattle.std.specs.Prelude.{◌≡◌, IfOk, option_map};
ghost use Rattle.ss_core.specs.View.{word_tree};
ghost use Rattle.ss_tables.specs.Classes.{class_number};
ghost use Rattle.ss_tables_lookup.specs.Views.{declared_field};
ghost use Rattle.ss_typed.specs.Tree.{ThisOf};
ghost use Rattle.ss_typed.specs.View as view;
ghost use Rattle.ss_resolver_expressions.specs.LocalContext.{LocalContext};
ghost use Rattle.ss_resolver_expressions.specs.Environments.{env_of};
ghost use Rattle.ss_resolver_rules.specs.Expressions.{read_field, known_or_field, bare_name, field_after, state_word, state_question, member};

use crate::build::{add_step, boxed, null_tree};
use crate::context::ResolutionContext;
use crate::local_names::LocalNames;
use ss_core::{ClassId, Place, StateWord};
use ss_resolver_rules::Known;
use ss_resolver_tables::{class_number, field_id, type_id};
use ss_tables_lookup::{FieldRef, declared_place, is_array_number};
use ss_tables_scopes::is_state_read;
use ss_typed::{TypedExpr, TypedStep};
use std::alloc::AllocError;

/// The object of the class in which a place is.
pub(crate) fn this(context: &ResolutionContext<'_, '_>, place: Place) -> TypedExpr
    ensures { view.expr result ≡ ThisOf place (class_number context.now.within.class) }
{
    TypedExpr::This(place, class_number(context.within.class))
}

// A field of what stands before the dot.
fn read_field(
    context: &ResolutionContext<'_, '_>,
    place: Place,
    object: Box<TypedExpr>,
    field: Option<(usize, FieldRef<'_>)>,
) -> Result<Box<TypedExpr>, AllocError>
    ensures { (a : LocalContext) → IfOk result (λ e. view.expr e.value ≡ read_field (env_of context.now a) place (view.expr object.value) (option_map declared_field field.entry)) }
{
    let Some((class, field)) = field else {
        return null_tree(context.within.alloc, place);
    };
    let tables = context.within.tables;
    let number = field_id(
        tables,
        context.fields,
        class,
        field.declarator.name.text.as_str(),
    );
    let ty = type_id(tables, field.ty);
    add_step(
        context.within.alloc,
        place,
        object,
        TypedStep::Field(number, ty),
    )
}

fn known_or_field(
    context: &ResolutionContext<'_, '_>,
    place: Place,
    name: &str,
    known: Option<Known>,
) -> Result<Box<TypedExpr>, AllocError>
    ensures { (a : LocalContext) → IfOk result (λ e. view.expr e.value ≡ known_or_field (env_of context.now a) place name.now known) }
{
    match known {
        Some(Known::Variable(number, ty)) => Ok(boxed(
            context.within.alloc,
            TypedExpr::Local(place, number, ty),
        )?),
        Some(Known::BoundName(number)) => Ok(boxed(
            context.within.alloc,
            TypedExpr::Bound(place, number),
        )?),
        None => {
            let field = context.within.tables.field_of(context.within.class, name);
            let object = boxed(context.within.alloc, this(context, place))?;
            read_field(context, place, object, field)
        }
    }
}

/// A bare name: a local, else a field of `this`.
pub(crate) fn bare_name(
    context: &ResolutionContext<'_, '_>,
    names: &LocalNames,
    place: Place,
    name: &str,
) -> Result<Box<TypedExpr>, AllocError>
    ensures { IfOk result (λ e. view.expr e.value ≡ bare_name (env_of context.now names.now) place name.now) }
{
    known_or_field(context, place, name, names.find(name))
}

fn field_after(
    context: &ResolutionContext<'_, '_>,
    place: Place,
    object: Box<TypedExpr>,
    name: &str,
    class: Option<usize>,
) -> Result<Box<TypedExpr>, AllocError>
    ensures { (a : LocalContext) → IfOk result (λ e. view.expr e.value ≡ field_after (env_of context.now a) place (view.expr object.value) name.now class) }
{
    match class {
        None => Ok(object),
        Some(class) => {
            let field = context.within.tables.field_of(class, name);
            read_field(context, place, object, field)
        }
    }
}

fn state_word(name: &str) -> StateWord
    ensures { word_tree result ≡ state_word name.now }
{
    if name == "IsConsistent" {
        StateWord::Consistent
    } else if name == "IsCommitted" {
        StateWord::Committed
    } else {
        StateWord::New
    }
}

/// A state word that asks for a class.
pub(crate) fn state_question(name: &str, class: ClassId) -> StateWord
    ensures { word_tree result ≡ state_question name.now class.0 }
{
    if name == "IsLevel" {
        StateWord::Level(class)
    } else {
        StateWord::Packed(class)
    }
}

/// What is read after a dot of an object or array of the class with this number.
pub(crate) fn member(
    context: &ResolutionContext<'_, '_>,
    place: Place,
    object: Box<TypedExpr>,
    name: &str,
    class: usize,
) -> Result<Box<TypedExpr>, AllocError>
    ensures { (a : LocalContext) → IfOk result (λ e. view.expr e.value ≡ member (env_of context.now a) place (view.expr object.value) name.now class) }
{
    if is_state_read(name) {
        let word = state_word(name);
        return Ok(boxed(context.within.alloc, TypedExpr::State(place, word, object))?);
    }
    if is_array_number(class) {
        return add_step(context.within.alloc, place, object, TypedStep::Length);
    }
    field_after(context, place, object, name, declared_place(class))
}
