// Classes by number, and the bodies that calls name.

ghost use Rattle.std.specs.Prelude.{◌≡◌, List, map, Option, None, option_map, slice_get};
ghost use Rattle.ss_core.specs.View.{classes, class_of, entry_of};
ghost use Rattle.ss_core.specs.Chain.{declared, above};
ghost use Rattle.ss_typed.specs.Lookups.{param_types_in};
ghost use Rattle.ss_typed.specs.View.{typed, body, members, param};
ghost use Rattle.ss_typed.specs.Constructors.{written_constructor};
ghost use Rattle.ss_nonnull_rules.specs.Faults.{parameters, body_of_entry, table_of, body_in_table, method_of, constructor_parameters};
ghost use Rattle.ss_nonnull_rules.specs.Faults.{class_of as class_of_type};
ghost use Rattle.ss_nonnull_seen.specs.Called.{called_types};

use ss_core::{BodyId, Class, ClassId, Classes, Entry, Ty, declared_place};
use ss_typed::{Typed, TypedBody, TypedClass, TypedParam, body_at, members_of};

/// What a call enters: a body with these parameters, or none that is known.
#[derive(Clone, Copy)]
pub enum Called<'p> {
    Method(&'p [TypedParam]),
    Nothing,
}

// The class at this place of the list.
fn class_at(list: &Classes, place: usize) -> Option<&Class>
    ensures { option_map (λ c. class_of c.now) result ≡ slice_get (classes list.now) place }
{
    list.list.get(place)
}

// The declared class of this number, which may be past those of `ClassId`.
fn declared(list: &Classes, class: usize) -> Option<&Class>
    ensures { option_map (λ c. class_of c.now) result ≡ declared (classes list.now) class }
{
    match declared_place(class) {
        Some(place) => class_at(list, place),
        None => None,
    }
}

/// The class above: `object` where the class isn't declared.
pub fn above(list: &Classes, class: usize) -> ClassId
    ensures { result.0 ≡ above (classes list.now) class }
{
    match declared(list, class) {
        Some(class) => class.above,
        None => ClassId(0),
    }
}

fn called_by(called: Option<&TypedBody>) -> Called<'_>
    ensures { called_types result ≡ param_types_in (option_map (λ b. body b.now) called.entry) }
{
    match called {
        Some(called) => Called::Method(&called.params),
        None => Called::Nothing,
    }
}

/// What a call of the written body of this number calls, if there is one.
pub fn static_method(program: &Typed, number: Option<BodyId>) -> Called<'_>
    ensures { called_types result ≡ parameters (typed program.now) (option_map (λ n. n.0) number) }
{
    match number {
        Some(number) => called_by(body_at(program, number)),
        None => Called::Nothing,
    }
}

/// The entry at this place of the table of the class.
pub fn entry_at(class: &Class, place: usize) -> Option<&Entry>
    ensures { option_map (λ e. entry_of e.now) result ≡ slice_get (class_of class.now).table place }
{
    class.table.get(place)
}

/// The body that the entry names.
pub fn body_of_entry(entry: Option<&Entry>) -> Option<BodyId>
    ensures { option_map (λ n. n.0) result ≡ body_of_entry (option_map (λ e. entry_of e.now) entry.entry) }
{
    match entry {
        Some(entry) => Some(entry.body),
        None => None,
    }
}

// The body at this place of the table of the class.
fn body_in_table(program: &Typed, class: ClassId, place: usize) -> Option<BodyId>
    ensures { option_map (λ n. n.0) result ≡ body_in_table (typed program.now) class.0 place }
{
    body_of_entry(program.classes.table(class).get(place))
}

/// What a call of the method at this place of the table of the receiver's class calls.
pub fn method_of(program: &Typed, receiver: Option<Ty>, place: usize) -> Called<'_>
    ensures { called_types result ≡ parameters (typed program.now) (method_of (typed program.now) (class_of_type receiver) place) }
{
    match receiver {
        Some(Ty::Ref { class, .. }) => {
            static_method(program, body_in_table(program, class, place))
        }
        Some(Ty::Int | Ty::Bool | Ty::Null) | None => Called::Nothing,
    }
}

/// What a call by `base` calls, in this class, at this place of the table of the class above.
pub fn base_method(program: &Typed, class: usize, place: usize) -> Called<'_>
    ensures { called_types result ≡ parameters (typed program.now) (body_in_table (typed program.now) (above (typed program.now).classes class) place) }
{
    static_method(
        program,
        body_in_table(program, above(&program.classes, class), place),
    )
}

fn written_constructor(class: Option<&TypedClass>) -> Option<BodyId>
    ensures { option_map (λ n. n.0) result ≡ written_constructor (option_map (λ c. members c.now) class.entry) }
{
    match class {
        Some(class) => class.constructor,
        None => None,
    }
}

/// The constructor of the class, where one is written.
pub fn constructor(program: &Typed, class: ClassId) -> Called<'_>
    ensures { called_types result ≡ constructor_parameters (typed program.now) class.0 }
{
    static_method(program, written_constructor(members_of(program, class)))
}

fn param_at(params: &[TypedParam], place: usize) -> Option<&TypedParam>
    ensures { option_map (λ p. param p.now) result ≡ slice_get (map param params.now) place }
{
    params.get(place)
}

fn type_of_param(taken: Option<&TypedParam>) -> Option<Ty>
    ensures { result ≡ option_map (λ x. x.ty) (option_map (λ p. param p.now) taken.entry) }
{
    match taken {
        Some(taken) => Some(taken.ty),
        None => None,
    }
}

/// The type of the parameter at this place of what is called.
pub fn type_at(called: Called<'_>, place: usize) -> Option<Ty>
    ensures { result ≡ slice_get (called_types called.entry) place }
{
    match called {
        Called::Method(params) => type_of_param(param_at(params, place)),
        Called::Nothing => None,
    }
}
