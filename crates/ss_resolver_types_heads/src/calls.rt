// What a call takes.

ghost use Rattle.std.specs.Prelude.{◌≡◌, List, map, option_map, length, slice_get, ◌∷◌, []};
ghost use Rattle.ss_ast.specs.Programs.{ClassTree, param_tree};
ghost use Rattle.ss_tables.specs.Classes.{class_named};
ghost use Rattle.ss_tables_lookup.specs.Classes.{trees};
ghost use Rattle.ss_tables_lookup.specs.Views.{type_of, constructor_tree, declared_field, declared_method};
ghost use Rattle.ss_tables.specs.Types.{written_type};
ghost use Rattle.ss_tables.specs.Statics.{params_of_first};
ghost use Rattle.ss_resolver_types_heads.specs.Wants.{OfType};
ghost use Rattle.ss_resolver_types_heads.specs.Calls.{Taking, asks_level, taking, method_or_field, called_on_class, called_name, called_console, called_owner, called_base, is_memberless, has_no_members, called_on_object, called_value, called_member, constructed, base_wants, constructor_wants, param_wants, is_wrong_call, wants_of, called_method, class_of_known, takes_nothing};
ghost use Rattle.ss_resolver_types_heads.specs.Codes.{want_of, known_of, context_of, called_of, question_wants};
ghost use Rattle.ss_tables_scopes.specs.Views.{receiver_of};

use crate::context::ExprContext;
use crate::wants::{Known, Want};
use ss_ast::Param;
use ss_tables_lookup::{
    ConstructorRef, FieldRef, MethodRef, StaticType, Tables, class_of, declared_place,
    is_array_number,
};
use ss_tables_scopes::{
    Receiver, Scopes, is_length, is_of_kind, is_state_call, is_state_read, is_state_word,
    is_static, may_have_levels,
};

/// What is asked of objects, or written.
#[derive(Clone, Copy, Debug, PartialEq, Eq)]
pub enum Question {
    /// `Console.Write(e)` and `Console.WriteLine(e)`
    Print,
    /// Nothing is taken, as by `Console.WriteLine()`.
    Nothing,
    /// `Owner.None(e)`
    OfOne,
    /// `Owner.Same(a, b)`
    OfTwo,
    /// `Owner.Is(a, b, T)`
    OfTwoAtClass,
    /// `e.IsLevel(T)` and `e.IsPacked(T)`
    AtClass,
}

/// What a call means.
#[derive(Clone, Copy)]
pub enum Called<'p> {
    /// A method or a constructor with these parameters.
    Method(&'p [Param]),
    Word(Question),
    /// No call that can stand there.
    Refused,
    /// A call of something unknown.
    Unknown,
}

// A method that has to be static, or not to be.
fn take_method<'p>(wants_static: bool, method: (usize, MethodRef<'p>)) -> Called<'p>
    ensures { (cs : List ClassTree) → called_of cs result ≡ taking cs wants_static (declared_method method.entry) }
{
    let (_, method) = method;
    if is_of_kind(wants_static, method) {
        Called::Method(&method.method.params)
    } else {
        Called::Refused
    }
}

fn take_member<'p>(
    wants_static: bool,
    method: Option<(usize, MethodRef<'p>)>,
    field: Option<(usize, FieldRef<'p>)>,
) -> Called<'p>
    ensures { (cs : List ClassTree) → called_of cs result ≡ method_or_field cs wants_static (option_map declared_method method.entry) (option_map declared_field field.entry) }
{
    match method {
        Some(method) => take_method(wants_static, method),
        None => match field {
            Some(_) => Called::Refused,
            None => Called::Unknown,
        },
    }
}

// A method of a class.
fn call_on_class<'p>(
    tables: &Tables<'p>,
    wants_static: bool,
    class: usize,
    name: &str,
) -> Called<'p>
    ensures { called_of (trees tables.now) result ≡ called_on_class (trees tables.now) wants_static class name.now }
{
    take_member(
        wants_static,
        tables.method_of(class, name),
        tables.field_of(class, name),
    )
}

// A bare name that means a method, where it does.
fn call_named<'p>(is_in_static: bool, method: Option<(usize, MethodRef<'p>)>) -> Called<'p>
    ensures { (cs : List ClassTree) → called_of cs result ≡ called_method cs is_in_static (option_map declared_method method.entry) }
{
    match method {
        Some((_, method)) => {
            if is_in_static && !is_static(method) {
                Called::Refused
            } else {
                Called::Method(&method.method.params)
            }
        }
        None => Called::Unknown,
    }
}

/// A call of a bare name.
pub fn call_name<'p>(context: &ExprContext<'_, 'p>, locals: &Scopes, name: &str) -> Called<'p>
    ensures { called_of (trees context.now.within.tables.now) result ≡ called_name (context_of context.now locals.now) name.now }
{
    if locals.find(name).is_some() {
        return Called::Refused;
    }
    if context
        .within
        .tables
        .field_of(context.within.class, name)
        .is_some()
    {
        return Called::Refused;
    }
    call_named(
        context.is_static,
        context.within.tables.method_of(context.within.class, name),
    )
}

fn call_console<'p>(count: usize, name: &str) -> Called<'p>
    ensures { (cs : List ClassTree) → called_of cs result ≡ called_console count name.now }
{
    if name == "Write" {
        return Called::Word(Question::Print);
    }
    if name == "WriteLine" {
        if count == 0 {
            return Called::Word(Question::Nothing);
        }
        return Called::Word(Question::Print);
    }
    Called::Unknown
}

fn call_owner<'p>(name: &str) -> Called<'p>
    ensures { (cs : List ClassTree) → called_of cs result ≡ called_owner name.now }
{
    if name == "None" {
        return Called::Word(Question::OfOne);
    }
    if name == "Same" {
        return Called::Word(Question::OfTwo);
    }
    if name == "Is" {
        return Called::Word(Question::OfTwoAtClass);
    }
    Called::Unknown
}

fn call_base<'p>(context: &ExprContext<'_, 'p>, locals: &Scopes, name: &str) -> Called<'p>
    ensures { called_of (trees context.now.within.tables.now) result ≡ called_base (context_of context.now locals.now) name.now }
{
    if context.is_static || is_state_word(name) {
        return Called::Refused;
    }
    take_member(
        false,
        context
            .within
            .tables
            .inherited_method(context.within.class, name),
        context
            .within
            .tables
            .inherited_field(context.within.class, name),
    )
}

fn is_memberless(ty: StaticType) -> bool
    ensures { result ≡ is_memberless (type_of ty) }
{
    match ty {
        StaticType::Int | StaticType::Bool | StaticType::Null => true,
        StaticType::Ref { .. } => false,
    }
}

/// Whether a value has no members.
pub fn has_no_members(known: Known) -> bool
    ensures { result ≡ has_no_members (known_of known) }
{
    match known.ty {
        Some(ty) => is_memberless(ty),
        None => known.is_nothing,
    }
}

// A method of an object of this class.
fn call_on_object<'p>(tables: &Tables<'p>, name: &str, class: Option<usize>) -> Called<'p>
    ensures { called_of (trees tables.now) result ≡ called_on_object (trees tables.now) name.now class }
{
    let Some(number) = class else {
        return Called::Unknown;
    };
    if is_array_number(number) {
        if is_length(name) {
            return Called::Refused;
        }
        return Called::Unknown;
    }
    match declared_place(number) {
        Some(class) => call_on_class(tables, false, class, name),
        None => Called::Unknown,
    }
}

/// The number of the class of a value, where that is known.
pub fn class_of_known(known: Known) -> Option<usize>
    ensures { result ≡ class_of_known (known_of known) }
{
    match known.ty {
        Some(ty) => class_of(ty),
        None => None,
    }
}

// A question about the level of a value.
fn ask_level<'p>(known: Known) -> Called<'p>
    ensures { (cs : List ClassTree) → called_of cs result ≡ asks_level (known_of known) }
{
    if !known.is_nothing && may_have_levels(known.ty) {
        Called::Word(Question::AtClass)
    } else {
        Called::Refused
    }
}

// A method or a state word of a value.
fn call_value<'p>(tables: &Tables<'p>, known: Known, name: &str) -> Called<'p>
    ensures { called_of (trees tables.now) result ≡ called_value (trees tables.now) (known_of known) name.now }
{
    if is_state_read(name) {
        return Called::Refused;
    }
    if is_state_call(name) {
        return ask_level(known);
    }
    if has_no_members(known) {
        return Called::Refused;
    }
    call_on_object(tables, name, class_of_known(known))
}

/// A call of what stands after a dot.
pub fn call_member<'p>(
    context: &ExprContext<'_, 'p>,
    locals: &Scopes,
    count: usize,
    known: Known,
    name: &str,
    receiver: Receiver,
) -> Called<'p>
    ensures { called_of (trees context.now.within.tables.now) result
        ≡ called_member (context_of context.now locals.now) count (known_of known) name.now (receiver_of receiver) }
{
    match receiver {
        Receiver::Console => call_console(count, name),
        Receiver::Owner => call_owner(name),
        Receiver::Base => call_base(context, locals, name),
        Receiver::Class(class) => {
            if is_state_word(name) {
                Called::Unknown
            } else {
                call_on_class(context.within.tables, true, class, name)
            }
        }
        Receiver::Value(_) => call_value(context.within.tables, known, name),
    }
}

// What a constructor takes, where one is written.
fn call_constructor_ref<'p>(constructor: Option<&ConstructorRef<'p>>) -> Called<'p>
    ensures { (cs : List ClassTree) → called_of cs result ≡ Taking (param_wants cs (params_of_first (option_map (λ c. constructor_tree c.now) constructor.entry))) }
{
    match constructor {
        Some(constructor) => Called::Method(&constructor.constructor.params),
        None => Called::Word(Question::Nothing),
    }
}

// What the constructor of a class takes.
fn call_constructor<'p>(tables: &Tables<'p>, class: usize) -> Called<'p>
    ensures { called_of (trees tables.now) result ≡ Taking (constructor_wants (trees tables.now) class) }
{
    match tables.shelf(class) {
        Some(shelf) => call_constructor_ref(shelf.constructors.first()),
        None => Called::Word(Question::Nothing),
    }
}

/// A `new` of a class.
pub fn call_new<'p>(tables: &Tables<'p>, name: &str) -> Called<'p>
    ensures { called_of (trees tables.now) result ≡ constructed (trees tables.now) (class_named (trees tables.now) name.now) }
{
    match tables.class_named(name) {
        Some(class) => call_constructor(tables, class),
        None => Called::Unknown,
    }
}

/// What `base(..)` takes in a constructor of a class.
pub fn call_above<'p>(tables: &Tables<'p>, class: usize) -> Called<'p>
    ensures { called_of (trees tables.now) result ≡ Taking (base_wants (trees tables.now) class) }
{
    match tables.above(class) {
        Some(above) => call_constructor(tables, above),
        None => Called::Word(Question::Nothing),
    }
}

// How many arguments a word takes.
fn question_count(question: Question) -> usize
    ensures { result ≡ length (question_wants question) }
{
    match question {
        Question::Nothing => 0,
        Question::Print | Question::OfOne | Question::AtClass => 1,
        Question::OfTwo => 2,
        Question::OfTwoAtClass => 3,
    }
}

/// Whether the whole call is at fault.
pub fn is_wrong_call(count: usize, called: Called<'_>) -> bool
    ensures { (cs : List ClassTree) → result ≡ is_wrong_call count (called_of cs called.entry) }
{
    match called {
        Called::Method(params) => count != params.len(),
        Called::Word(question) => count != question_count(question),
        Called::Refused => true,
        Called::Unknown => false,
    }
}

// What is wanted of an argument of a word.
fn question_want(question: Question, i: usize) -> Option<Want>
    ensures { option_map want_of result ≡ slice_get (question_wants question) i }
{
    match question {
        Question::Nothing => None,
        Question::Print => only(Want::Printable, i),
        Question::OfOne => only(Want::AReference, i),
        Question::AtClass => only(Want::ClassName, i),
        Question::OfTwo => match i {
            0 | 1 => Some(Want::AReference),
            _ => None,
        },
        Question::OfTwoAtClass => match i {
            0 | 1 => Some(Want::AReference),
            2 => Some(Want::ClassName),
            _ => None,
        },
    }
}

// The want of a lone argument.
fn only(want: Want, i: usize) -> Option<Want>
    ensures { option_map want_of result ≡ slice_get (want_of want ∷ []) i }
{
    if i == 0 { Some(want) } else { None }
}

// The parameter at this place.
fn param_at(params: &[Param], i: usize) -> Option<&Param>
    ensures { option_map (λ p. param_tree p.now) result ≡ slice_get (map param_tree params.now) i }
{
    params.get(i)
}

// What is wanted of its argument.
fn param_want(tables: &Tables<'_>, param: Option<&Param>) -> Option<Want>
    ensures { option_map want_of result ≡ option_map (λ p. OfType (written_type (trees tables.now) p.ty)) (option_map (λ p. param_tree p.now) param.entry) }
{
    match param {
        Some(param) => Some(Want::OfType(tables.written_type(&param.ty))),
        None => None,
    }
}

/// What is wanted of the argument at this place.
pub fn want_at(tables: &Tables<'_>, called: Called<'_>, i: usize) -> Option<Want>
    ensures { option_map want_of result ≡ slice_get (wants_of (called_of (trees tables.now) called.entry)) i }
{
    match called {
        Called::Method(params) => param_want(tables, param_at(params, i)),
        Called::Word(question) => question_want(question, i),
        Called::Refused | Called::Unknown => None,
    }
}

/// Whether a call takes no arguments.
pub fn takes_nothing(called: Called<'_>) -> bool
    ensures { (cs : List ClassTree) → result ≡ takes_nothing (wants_of (called_of cs called.entry)) }
{
    match called {
        Called::Method(params) => params.is_empty(),
        Called::Word(question) => question_count(question) == 0,
        Called::Refused | Called::Unknown => true,
    }
}
