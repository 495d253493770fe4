// Calls.

ghost use Rattle.std.specs.Prelude.{◌≡◌, IfOk, option_map, option_and_then, codes, if◌then◌else◌};
ghost use Rattle.std.specs.Str.{bytes_eq};
ghost use Rattle.ss_ast.specs.Expressions.{Arguments};
ghost use Rattle.ss_core.specs.Tree.{SameOwner, OwnedAt, Unowned};
ghost use Rattle.ss_core.specs.View.{owners_tree};
ghost use Rattle.ss_tables.specs.Classes.{declared_place};
ghost use Rattle.ss_tables.specs.Types.{class_of};
ghost use Rattle.ss_tables_lookup.specs.Views.{type_of};
ghost use Rattle.ss_typed.specs.Tree.{StateOf, OwnersOf};
ghost use Rattle.ss_resolver_rules.specs.Names.{Env};
ghost use Rattle.ss_tables_lookup.specs.Classes.{trees};
ghost use Rattle.ss_tables_lookup.specs.Views.{declared_method};
ghost use Rattle.ss_tables_scopes.specs.Views.{receiver_of, callee_of};
ghost use Rattle.ss_typed.specs.View as view;
ghost use Rattle.ss_resolver_expressions.specs.LocalContext.{LocalContext};
ghost use Rattle.ss_resolver_expressions.specs.Environments.{env_of, given};
ghost use Rattle.ss_resolver_rules.specs.Expressions.{first_class, third_class, state_question, method_call, base_call, place_or_own, call_of, owner_question, question, called_after, called_bare};

use crate::bare::{state_question, this};
use crate::build::{add_step, boxed, null_tree};
use crate::context::ResolutionContext;
use ss_core::{ClassId, OwnerTest, Place, StateWord};
use ss_resolver_tables::{method_id, result_type, table_place};
use ss_tables_lookup::{MethodRef, StaticType};
use ss_tables_scopes::{Callee, Receiver, class_of_type, is_static, place_of_class};
use ss_typed::{TypedExpr, TypedStep};
use std::alloc::{AllocError, Global};

/// The classes that the first and the third argument name.
#[derive(Clone, Copy)]
pub struct Asked {
    pub first: ClassId,
    pub third: ClassId,
}

/// A call as it is written: its place, the object before it, and the arguments.
#[derive(Drop)]
pub(crate) struct WrittenCall {
    pub(crate) place: Place,
    pub(crate) object: Box<TypedExpr>,
    pub(crate) args: Vec<TypedExpr>,
}

// A call of a method of the class with this number, on an object where the method isn't static.
fn method_call(
    context: &ResolutionContext<'_, '_>,
    class: usize,
    call: WrittenCall,
    declared: usize,
    method: MethodRef<'_>,
) -> Result<Box<TypedExpr>, AllocError>
    ensures { (a : LocalContext) → IfOk result (λ e. view.expr e.value ≡ method_call (env_of context.now a) call.place class (view.expr call.object.value) (given call.args.items) (declared_method (declared, method.entry))) }
{
    let WrittenCall {
        place,
        object,
        args,
    } = call;
    let tables = context.within.tables;
    let name = method.method.name.text.as_str();
    let ty = result_type(tables, &method.method.returns);
    if is_static(method) {
        let body = method_id(tables, context.bodies, declared, name);
        return Ok(boxed(
            context.within.alloc,
            TypedExpr::Static(place, body, ty, args),
        )?);
    }
    let step = TypedStep::Call(table_place(tables, context.tables, class, name), ty, args);
    add_step(context.within.alloc, place, object, step)
}

// A call of a method of the class above, on `this`.
fn base_call(
    context: &ResolutionContext<'_, '_>,
    place: Place,
    args: Vec<TypedExpr>,
    declared: usize,
    method: MethodRef<'_>,
    above: Option<usize>,
) -> TypedExpr
    ensures { (a : LocalContext) → view.expr result ≡ base_call (env_of context.now a) place (given args.items) (declared_method (declared, method.entry)) above }
{
    let Some(class) = above else {
        return TypedExpr::Null(place);
    };
    let name = method.method.name.text.as_str();
    let tables = context.within.tables;
    let ty = result_type(tables, &method.method.returns);
    TypedExpr::Base(
        place,
        table_place(tables, context.tables, class, name),
        ty,
        args,
    )
}

// The class in which a method of a value of this type is looked up.
fn class_of_value(context: &ResolutionContext<'_, '_>, ty: Option<StaticType>) -> usize
    ensures { (a : LocalContext) → result ≡ place_or_own (env_of context.now a) (option_and_then declared_place (option_and_then class_of (option_map type_of ty))) }
{
    match place_of_class(class_of_type(ty)) {
        Some(class) => class,
        None => context.within.class,
    }
}

// A method that is called, by what stands before the dot.
fn call_of(
    context: &ResolutionContext<'_, '_>,
    receiver: Receiver,
    call: WrittenCall,
    declared: usize,
    method: MethodRef<'_>,
) -> Result<Box<TypedExpr>, AllocError>
    ensures { (a : LocalContext) → IfOk result (λ e. view.expr e.value ≡ call_of (env_of context.now a) call.place (receiver_of receiver) (view.expr call.object.value) (given call.args.items) (declared_method (declared, method.entry))) }
{
    match receiver {
        Receiver::Base => {
            let above = context.within.tables.above(context.within.class);
            let whole = base_call(context, call.place, call.args, declared, method, above);
            Ok(boxed(context.within.alloc, whole)?)
        }
        Receiver::Class(class) => method_call(context, class, call, declared, method),
        Receiver::Value(ty) => {
            let class = class_of_value(context, ty);
            method_call(context, class, call, declared, method)
        }
        Receiver::Console | Receiver::Owner => null_tree(context.within.alloc, call.place),
    }
}

// Two objects whose owners are compared.
fn owners(
    alloc: Global,
    place: Place,
    test: OwnerTest,
    a: Box<TypedExpr>,
    b: Box<TypedExpr>,
) -> Result<Box<TypedExpr>, AllocError>
    ensures { IfOk result (λ e. view.expr e.value ≡ OwnersOf place (owners_tree test) (view.expr a.value) (view.expr b.value)) }
{
    Ok(boxed(alloc, TypedExpr::Owners(place, test, a, b))?)
}

fn owner_test(name: &str, class: ClassId) -> OwnerTest
    ensures { owners_tree result ≡ (if bytes_eq name.now (codes "Same") then SameOwner else OwnedAt class.0) }
{
    if name == "Same" {
        OwnerTest::Same
    } else {
        OwnerTest::Is(class)
    }
}

fn unowned(
    alloc: Global,
    place: Place,
    object: Box<TypedExpr>,
) -> Result<Box<TypedExpr>, AllocError>
    ensures { IfOk result (λ r. view.expr r.value ≡ StateOf place Unowned (view.expr object.value)) }
{
    Ok(boxed(alloc, TypedExpr::State(place, StateWord::Unowned, object))?)
}

fn owner_question(
    alloc: Global,
    place: Place,
    name: &str,
    third: ClassId,
    args: Vec<TypedExpr>,
) -> Result<Box<TypedExpr>, AllocError>
    ensures { (e : Env) → (es : Arguments) → third.0 ≡ third_class e es
        → IfOk result (λ r. view.expr r.value ≡ owner_question e place name.now es (given args.items)) }
{
    let mut args = args;
    if args.is_empty() {
        return null_tree(alloc, place);
    }
    let first = boxed(alloc, args.remove(0))?;
    if args.is_empty() {
        return unowned(alloc, place, first);
    }
    let second = boxed(alloc, args.remove(0))?;
    owners(alloc, place, owner_test(name, third), first, second)
}

fn state_asked(
    alloc: Global,
    place: Place,
    object: Box<TypedExpr>,
    name: &str,
    first: ClassId,
) -> Result<Box<TypedExpr>, AllocError>
    ensures { IfOk result (λ r. view.expr r.value ≡ StateOf place (state_question name.now first.0) (view.expr object.value)) }
{
    let word = state_question(name, first);
    Ok(boxed(alloc, TypedExpr::State(place, word, object))?)
}

// A state word or a question about owners.
fn question(
    alloc: Global,
    receiver: Receiver,
    call: WrittenCall,
    name: &str,
    asked: Asked,
) -> Result<Box<TypedExpr>, AllocError>
    ensures { (e : Env) → (es : Arguments) → asked.first.0 ≡ first_class e es → asked.third.0 ≡ third_class e es
        → IfOk result (λ r. view.expr r.value ≡ question e call.place (receiver_of receiver) (view.expr call.object.value) name.now es (given call.args.items)) }
{
    match receiver {
        Receiver::Owner => owner_question(alloc, call.place, name, asked.third, call.args),
        Receiver::Base | Receiver::Class(_) | Receiver::Value(_) => {
            state_asked(alloc, call.place, call.object, name, asked.first)
        }
        Receiver::Console => null_tree(alloc, call.place),
    }
}

// What is called after a dot.
pub(crate) fn called_after(
    context: &ResolutionContext<'_, '_>,
    receiver: Receiver,
    call: WrittenCall,
    name: &str,
    asked: Asked,
    callee: Callee<'_>,
) -> Result<Box<TypedExpr>, AllocError>
    ensures { (a : LocalContext) → (es : Arguments) → asked.first.0 ≡ first_class (env_of context.now a) es → asked.third.0 ≡ third_class (env_of context.now a) es
        → IfOk result (λ r. view.expr r.value ≡ called_after (env_of context.now a) call.place (receiver_of receiver) (view.expr call.object.value) name.now es (given call.args.items) (callee_of callee.entry)) }
{
    match callee {
        Callee::Method(declared, method) => call_of(context, receiver, call, declared, method),
        Callee::Word(_) => question(context.within.alloc, receiver, call, name, asked),
        Callee::Print(_) | Callee::Base => null_tree(context.within.alloc, call.place),
        Callee::Nothing => {
            let step = TypedStep::Call(0, None, call.args);
            add_step(context.within.alloc, call.place, call.object, step)
        }
    }
}

// A method of the class or of one above, called by its bare name.
pub(crate) fn called_bare(
    context: &ResolutionContext<'_, '_>,
    place: Place,
    at: Place,
    args: Vec<TypedExpr>,
    callee: Callee<'_>,
) -> Result<Box<TypedExpr>, AllocError>
    ensures { (a : LocalContext) → IfOk result (λ r. view.expr r.value ≡ called_bare (env_of context.now a) place at (given args.items) (callee_of callee.entry)) }
{
    match callee {
        Callee::Method(declared, method) => {
            let object = boxed(context.within.alloc, this(context, at))?;
            let call = WrittenCall {
                place,
                object,
                args,
            };
            method_call(context, context.within.class, call, declared, method)
        }
        Callee::Word(_) | Callee::Print(_) | Callee::Base | Callee::Nothing => null_tree(
            context.within.alloc,
            place,
        ),
    }
}
