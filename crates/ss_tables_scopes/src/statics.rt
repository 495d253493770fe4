// Static types of names and members, and what a call calls.

ghost use Rattle.std.specs.Prelude.{◌≡◌, length, map, option_map, option_and_then};
ghost use Rattle.ss_tables.specs.Classes.{class_named, field_of, declared_place};
ghost use Rattle.ss_ast.specs.Expressions.{type_tree, expr_tree, arguments};
ghost use Rattle.ss_tables.specs.Statics.{is_member, is_known, class_or_value, name_receiver, type_of_field, unless_refused, name_type, field_type, member_type, read_type, TheConsole, TheOwner, method_callee, is_of_kind, kind_callee, name_callee, method_at, owner_count, has_levels, may_have_levels, level_callee, member_callee, count, takes, called_with, result_type, question_type, call_type, params_of_first, constructor_params, new_type, reference_only, cast_type};
ghost use Rattle.ss_tables.specs.Types.{class_of};
ghost use Rattle.ss_tables_lookup.specs.Classes.{trees};
ghost use Rattle.ss_tables.specs.Members.{is_static};
ghost use Rattle.ss_tables.specs.Scopes.{Scope};
ghost use Rattle.ss_tables_lookup.specs.Views.{type_of, method_tree, constructor_tree, declared_field, declared_method};
ghost use Rattle.ss_tables_scopes.specs.Names.{Names};
ghost use Rattle.ss_tables_scopes.specs.Views.{scope_of, receiver_of, callee_of};

use crate::class_context::ClassContext;
use crate::local::{Scopes, local_type};
use crate::modifiers::is_static_word;
use crate::words::{
    is_console, is_length, is_owner, is_owner_word, is_print, is_state_call, is_state_read,
    is_state_word,
};
use ss_ast::{Expr, TypeRef};
use ss_tables_lookup::{
    ConstructorRef, FieldRef, MethodRef, StaticType, Tables, class_of, declared_place,
    is_array_number,
};

/// What stands before a dot.
#[derive(Clone, Copy)]
pub enum Receiver {
    /// The word `Console`, which no local hides.
    Console,
    /// The word `Owner`.
    Owner,
    /// The word `base`.
    Base,
    /// A class, by its place.
    Class(usize),
    /// Any other expression, with its static type.
    Value(Option<StaticType>),
}

/// What a call calls.
#[derive(Clone, Copy)]
pub enum Callee<'p> {
    /// A method, with the class that declares it.
    Method(usize, MethodRef<'p>),
    /// `Console.Write`, or `Console.WriteLine`, where it is a line.
    Print(bool),
    /// A question about owners, or a state word that asks for a class, with the number of arguments that it takes.
    /// That is 0 where it asks about what isn't known.
    Word(usize),
    /// `base(..)`.
    Base,
    /// Nothing that can be called.
    Nothing,
}

/// Whether a bare name may mean a member of the class or of one above.
pub fn is_member(tables: &Tables<'_>, class: usize, name: &str) -> bool
    ensures { result ≡ is_member (trees tables.now) class name.now }
{
    tables.field_of(class, name).is_some() || tables.method_of(class, name).is_some()
}

/// Whether a bare name means something.
pub fn is_known(context: ClassContext<'_, '_>, locals: &Scopes, name: &str) -> bool
    ensures { result ≡ is_known (scope_of context.entry locals.now) name.now }
{
    locals.find(name).is_some() || is_member(context.tables, context.class, name)
}

fn class_or_value(class: Option<usize>, ty: Option<StaticType>) -> Receiver
    ensures { receiver_of result ≡ class_or_value class (option_map type_of ty) }
{
    match class {
        Some(class) => Receiver::Class(class),
        None => Receiver::Value(ty),
    }
}

/// What a bare name is before a dot.
pub fn name_receiver(
    context: ClassContext<'_, '_>,
    locals: &Scopes,
    name: &str,
    ty: Option<StaticType>,
) -> Receiver
    ensures { receiver_of result ≡ name_receiver (scope_of context.entry locals.now) name.now (option_map type_of ty) }
{
    if locals.find(name).is_some() {
        return Receiver::Value(ty);
    }
    if is_console(name) {
        return Receiver::Console;
    }
    if is_owner(name) {
        return Receiver::Owner;
    }
    if is_member(context.tables, context.class, name) {
        return Receiver::Value(ty);
    }
    class_or_value(context.tables.class_named(name), ty)
}

fn type_of_field(tables: &Tables<'_>, field: Option<(usize, FieldRef<'_>)>) -> Option<StaticType>
    ensures { option_map type_of result ≡ type_of_field (trees tables.now) (option_map declared_field field.entry) }
{
    match field {
        Some((_, field)) => tables.written_type(field.ty),
        None => None,
    }
}

// A field of `this`.
fn this_field_type(context: ClassContext<'_, '_>, name: &str) -> Option<StaticType>
    ensures { option_map type_of result ≡ unless_refused context.entry.refuses_members
        (type_of_field (trees context.entry.tables.now) (field_of (trees context.entry.tables.now) context.entry.class name.now)) }
{
    if context.refuses_members {
        return None;
    }
    type_of_field(context.tables, context.tables.field_of(context.class, name))
}

/// The static type of a bare name: that of a local, else that of a field of `this`.
pub fn name_type(context: ClassContext<'_, '_>, locals: &Scopes, name: &str) -> Option<StaticType>
    ensures { option_map type_of result ≡ name_type (scope_of context.entry locals.now) name.now }
{
    match locals.find(name) {
        Some(local) => local_type(local),
        None => this_field_type(context, name),
    }
}

fn field_type(tables: &Tables<'_>, name: &str, class: Option<usize>) -> Option<StaticType>
    ensures { option_map type_of result ≡ field_type (trees tables.now) name.now class }
{
    match class {
        Some(class) => type_of_field(tables, tables.field_of(class, name)),
        None => None,
    }
}

// A member of an object of the class with this number.
fn member_type(tables: &Tables<'_>, name: &str, class: Option<usize>) -> Option<StaticType>
    ensures { option_map type_of result ≡ member_type (trees tables.now) name.now class }
{
    let Some(number) = class else {
        return None;
    };
    if !is_array_number(number) {
        return field_type(tables, name, declared_place(number));
    }
    if is_length(name) {
        Some(StaticType::Int)
    } else {
        None
    }
}

/// The number of the class of a value of this type.
pub fn class_of_type(ty: Option<StaticType>) -> Option<usize>
    ensures { result ≡ option_and_then class_of (option_map type_of ty) }
{
    match ty {
        Some(ty) => class_of(ty),
        None => None,
    }
}

fn value_type(tables: &Tables<'_>, name: &str, ty: Option<StaticType>) -> Option<StaticType>
    ensures { option_map type_of result ≡ read_type (trees tables.now) name.now (receiver_of (Receiver.Value ty)) }
{
    if is_state_read(name) {
        return Some(StaticType::Bool);
    }
    if is_state_call(name) {
        return None;
    }
    member_type(tables, name, class_of_type(ty))
}

/// The static type of what is read after a dot.
pub fn read_type(tables: &Tables<'_>, name: &str, receiver: Receiver) -> Option<StaticType>
    ensures { option_map type_of result ≡ read_type (trees tables.now) name.now (receiver_of receiver) }
{
    match receiver {
        Receiver::Console | Receiver::Owner | Receiver::Base | Receiver::Class(_) => None,
        Receiver::Value(ty) => value_type(tables, name, ty),
    }
}

// A method called by its bare name: one that isn't static is called on `this`.
fn method_callee<'p>(refuses_members: bool, method: Option<(usize, MethodRef<'p>)>) -> Callee<'p>
    ensures { callee_of result ≡ method_callee refuses_members (option_map declared_method method.entry) }
{
    match method {
        Some((class, method)) => {
            if refuses_members && !is_static(method) {
                Callee::Nothing
            } else {
                Callee::Method(class, method)
            }
        }
        None => Callee::Nothing,
    }
}

/// Whether a method is static, or isn't.
pub fn is_of_kind(wants_static: bool, method: MethodRef<'_>) -> bool
    ensures { result ≡ is_of_kind wants_static (method_tree method.entry) }
{
    if wants_static {
        is_static(method)
    } else {
        !is_static(method)
    }
}

/// Whether a method is static.
pub fn is_static(method: MethodRef<'_>) -> bool
    ensures { result ≡ is_static (method_tree method.entry) }
{
    is_static_word(&method.member.modifiers)
}

// A method that has to be static, or not to be.
fn kind_callee<'p>(wants_static: bool, method: Option<(usize, MethodRef<'p>)>) -> Callee<'p>
    ensures { callee_of result ≡ kind_callee wants_static (option_map declared_method method.entry) }
{
    match method {
        Some((class, method)) => {
            if is_of_kind(wants_static, method) {
                Callee::Method(class, method)
            } else {
                Callee::Nothing
            }
        }
        None => Callee::Nothing,
    }
}

/// What a call of a bare name calls.
pub fn name_callee<'p>(context: ClassContext<'_, 'p>, locals: &Scopes, name: &str) -> Callee<'p>
    ensures { callee_of result ≡ name_callee (scope_of context.entry locals.now) name.now }
{
    if locals.find(name).is_some() {
        return Callee::Nothing;
    }
    if context.tables.field_of(context.class, name).is_some() {
        return Callee::Nothing;
    }
    method_callee(
        context.refuses_members,
        context.tables.method_of(context.class, name),
    )
}

fn method_at<'p>(tables: &Tables<'p>, name: &str, class: Option<usize>) -> Callee<'p>
    ensures { callee_of result ≡ method_at (trees tables.now) name.now class }
{
    match class {
        Some(class) => kind_callee(false, tables.method_of(class, name)),
        None => Callee::Nothing,
    }
}

/// The place of the declared class with this number.
pub fn place_of_class(class: Option<usize>) -> Option<usize>
    ensures { result ≡ option_and_then declared_place class }
{
    match class {
        Some(class) => declared_place(class),
        None => None,
    }
}

fn owner_count(name: &str) -> usize
    ensures { result ≡ owner_count name.now }
{
    if name == "Is" {
        3
    } else if name == "Same" {
        2
    } else {
        1
    }
}

fn has_levels(ty: StaticType) -> bool
    ensures { result ≡ has_levels (type_of ty) }
{
    match ty {
        StaticType::Int | StaticType::Bool => false,
        StaticType::Null | StaticType::Ref { .. } => true,
    }
}

/// Whether it may be asked whether a value of this type is at a level, or nothing is known of it.
pub fn may_have_levels(ty: Option<StaticType>) -> bool
    ensures { result ≡ may_have_levels (option_map type_of ty) }
{
    match ty {
        Some(ty) => has_levels(ty),
        None => true,
    }
}

// A question about the level of a value.
fn level_callee<'p>(ty: Option<StaticType>) -> Callee<'p>
    ensures { callee_of result ≡ level_callee (option_map type_of ty) }
{
    let Some(ty) = ty else {
        return Callee::Word(0);
    };
    if has_levels(ty) {
        Callee::Word(1)
    } else {
        Callee::Nothing
    }
}

// A method or a state word of a value.
fn value_callee<'p>(context: ClassContext<'_, 'p>, name: &str, ty: Option<StaticType>) -> Callee<'p>
    ensures { (names : Names) → callee_of result ≡ member_callee (scope_of context.entry names) name.now (receiver_of (Receiver.Value ty)) }
{
    if is_state_call(name) {
        return level_callee(ty);
    }
    if is_state_read(name) {
        return Callee::Nothing;
    }
    method_at(context.tables, name, place_of_class(class_of_type(ty)))
}

fn base_callee<'p>(context: ClassContext<'_, 'p>, name: &str) -> Callee<'p>
    ensures { (names : Names) → callee_of result ≡ member_callee (scope_of context.entry names) name.now (receiver_of Receiver.Base) }
{
    if context.refuses_members || is_state_word(name) {
        return Callee::Nothing;
    }
    kind_callee(false, context.tables.inherited_method(context.class, name))
}

fn class_callee<'p>(context: ClassContext<'_, 'p>, class: usize, name: &str) -> Callee<'p>
    ensures { (names : Names) → callee_of result ≡ member_callee (scope_of context.entry names) name.now (receiver_of (Receiver.Class class)) }
{
    if is_state_word(name) {
        return Callee::Nothing;
    }
    kind_callee(true, context.tables.method_of(class, name))
}

fn console_callee<'p>(name: &str) -> Callee<'p>
    ensures { (s : Scope) → callee_of result ≡ member_callee s name.now TheConsole }
{
    if is_print(name) {
        Callee::Print(name == "WriteLine")
    } else {
        Callee::Nothing
    }
}

fn owner_callee<'p>(name: &str) -> Callee<'p>
    ensures { (s : Scope) → callee_of result ≡ member_callee s name.now TheOwner }
{
    if is_owner_word(name) {
        Callee::Word(owner_count(name))
    } else {
        Callee::Nothing
    }
}

/// What a call of what stands after a dot calls.
pub fn member_callee<'p>(
    context: ClassContext<'_, 'p>,
    name: &str,
    receiver: Receiver,
) -> Callee<'p>
    ensures { (names : Names) → callee_of result ≡ member_callee (scope_of context.entry names) name.now (receiver_of receiver) }
{
    match receiver {
        Receiver::Console => console_callee(name),
        Receiver::Owner => owner_callee(name),
        Receiver::Base => base_callee(context, name),
        Receiver::Class(class) => class_callee(context, class, name),
        Receiver::Value(ty) => value_callee(context, name, ty),
    }
}

/// How many arguments there are.
pub fn count(list: &[Expr]) -> usize
    ensures { result ≡ count (arguments (map expr_tree list.now)) }
{
    list.len()
}

fn takes(count: usize, callee: Callee<'_>) -> bool
    ensures { result ≡ takes count (callee_of callee.entry) }
{
    match callee {
        Callee::Method(_, method) => count == method.method.params.len(),
        Callee::Print(is_line) => count == 1 || (is_line && count == 0),
        Callee::Word(taken) => count == taken,
        Callee::Base | Callee::Nothing => false,
    }
}

/// What a call with so many arguments calls: nothing where it takes another number of them.
pub fn called_with(count: usize, callee: Callee<'_>) -> Callee<'_>
    ensures { callee_of result ≡ called_with count (callee_of callee.entry) }
{
    if takes(count, callee) {
        callee
    } else {
        Callee::Nothing
    }
}

/// The type of what a method gives.
pub fn result_type(tables: &Tables<'_>, ty: &Option<TypeRef>) -> Option<StaticType>
    ensures { option_map type_of result ≡ result_type (trees tables.now) (option_map type_tree ty.now) }
{
    match ty {
        Some(ty) => tables.written_type(ty),
        None => None,
    }
}

// The type of a question that takes so many arguments.
fn question_type(taken: usize) -> Option<StaticType>
    ensures { option_map type_of result ≡ question_type taken }
{
    if taken == 0 {
        None
    } else {
        Some(StaticType::Bool)
    }
}

/// The static type of a call.
pub fn call_type(tables: &Tables<'_>, callee: Callee<'_>) -> Option<StaticType>
    ensures { option_map type_of result ≡ call_type (trees tables.now) (callee_of callee.entry) }
{
    match callee {
        Callee::Method(_, method) => result_type(tables, &method.method.returns),
        Callee::Word(taken) => question_type(taken),
        Callee::Print(_) | Callee::Base | Callee::Nothing => None,
    }
}

fn count_params(constructor: Option<&ConstructorRef<'_>>) -> usize
    ensures { result ≡ length (params_of_first (option_map (λ c. constructor_tree c.now) constructor.entry)) }
{
    match constructor {
        Some(constructor) => constructor.constructor.params.len(),
        None => 0,
    }
}

// How many parameters the constructor of a class has.
fn constructor_count(tables: &Tables<'_>, class: usize) -> usize
    ensures { result ≡ length (constructor_params (trees tables.now) class) }
{
    match tables.shelf(class) {
        Some(shelf) => count_params(shelf.constructors.first()),
        None => 0,
    }
}

/// The static type of a new object of the class of this name, with so many arguments.
pub fn new_type(tables: &Tables<'_>, count: usize, name: &str) -> Option<StaticType>
    ensures { option_map type_of result ≡ new_type (trees tables.now) count (class_named (trees tables.now) name.now) }
{
    match tables.class_named(name) {
        Some(class) => {
            if count == constructor_count(tables, class) {
                Some(StaticType::Ref {
                    class: tables.class_number(class),
                    non_null: true,
                })
            } else {
                None
            }
        }
        None => None,
    }
}

fn reference_only(ty: StaticType) -> Option<StaticType>
    ensures { option_map type_of result ≡ reference_only (type_of ty) }
{
    match ty {
        StaticType::Ref { class, non_null } => Some(StaticType::Ref { class, non_null }),
        StaticType::Int | StaticType::Bool | StaticType::Null => None,
    }
}

/// The static type of a cast to a type.
pub fn cast_type(ty: Option<StaticType>) -> Option<StaticType>
    ensures { option_map type_of result ≡ cast_type (option_map type_of ty) }
{
    match ty {
        Some(ty) => reference_only(ty),
        None => None,
    }
}
