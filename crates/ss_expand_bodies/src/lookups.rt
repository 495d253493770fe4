// What is looked up in a resolved program.

ghost use Rattle.std.specs.Prelude.{◌≡◌, ◌≤◌, length, map, option_map};
ghost use Rattle.ss_core.specs.View as core;
ghost use Rattle.ss_core.specs.Chain.{in_class, most_classes};
ghost use Rattle.ss_typed.specs.Tree.{ParamTree};
ghost use Rattle.ss_typed.specs.View as typed;
ghost use Rattle.ss_expand_rules.specs.Program as elab;
ghost use Rattle.ss_typed.specs.Lookups as asked;
ghost use Rattle.ss_expand_rules.specs.Simple as simple;
ghost use Rattle.ss_expand_rules.specs.Contracts as contracts;

use ss_core::{ClassId, Entry, Field, FieldId};
use ss_typed::{Typed, TypedBody, TypedParam, body_at, constructor_of};

/// The class above.
pub fn above_of(program: &Typed, class: ClassId) -> ClassId
    ensures { result.0 ≡ elab.above_of (typed.typed program.now) class.0 }
{
    program.classes.above(class)
}

/// The table of the class's methods, which names written bodies.
pub fn table(program: &Typed, class: ClassId) -> &[Entry]
    ensures { map core.entry_of result.now ≡ elab.table (typed.typed program.now) class.0 }
{
    program.classes.table(class)
}

/// The written body that stands at this place of the class's table.
pub fn method_at(program: &Typed, class: ClassId, place: usize) -> Option<&TypedBody>
    ensures { option_map (λ b. typed.body b.now) result ≡ elab.method_at (typed.typed program.now) class.0 place }
{
    match table(program, class).get(place) {
        Some(entry) => body_at(program, entry.body),
        None => None,
    }
}

/// The field of this number, with the class that declares it.
pub fn field_at(program: &Typed, field: FieldId) -> Option<(ClassId, &Field)>
    requires few_classes { length (core.classes program.now.classes) ≤ most_classes }
    ensures { option_map (λ p. in_class p.0.0 (core.field_of p.1.now)) result ≡ elab.field_at (typed.typed program.now) field.0 }
{
    program.classes.field(field)
}

/// The parameters of the body, where there is one.
pub fn params_in(body: Option<&TypedBody>) -> &[TypedParam]
    ensures { map (λ (q : ParamTree). q.ty) (map typed.param result.now) ≡ asked.param_types_in (option_map (λ b. typed.body b.now) body.entry) }
{
    match body {
        Some(body) => body.params.as_slice(),
        None => &[],
    }
}

/// Whether the constructor of the class is delayed.
pub fn has_delayed_constructor(program: &Typed, class: ClassId) -> bool
    ensures { result ≡ simple.has_delayed_constructor (typed.typed program.now) class.0 }
{
    match constructor_of(program, class) {
        Some(body) => body.flags.delayed,
        None => true,
    }
}

/// Whether the class itself declares what is looked up.
pub fn is_declared_by(class: ClassId, body: Option<&TypedBody>) -> bool
    ensures { result ≡ elab.is_declared_by class.0 (option_map (λ b. typed.body b.now) body.entry) }
{
    match body {
        Some(body) => body.class == class,
        None => false,
    }
}

/// Whether a class that inherits it has a body of its own for it.
pub fn is_wrapped(body: Option<&TypedBody>) -> bool
    ensures { result ≡ elab.is_wrapped (option_map (λ b. typed.body b.now) body.entry) }
{
    match body {
        Some(body) => {
            !body.flags.is_static && !body.flags.pure && !body.flags.no_default_contract
        }
        None => false,
    }
}

/// Whether the class has a body of its own for what stands in its table.
pub fn is_own(class: ClassId, body: Option<&TypedBody>) -> bool
    ensures { result ≡ elab.is_own class.0 (option_map (λ b. typed.body b.now) body.entry) }
{
    is_declared_by(class, body) || is_wrapped(body)
}

/// What the class declares at this place of its table.
pub fn declared_at(program: &Typed, place: usize, class: ClassId) -> Option<&TypedBody>
    ensures { option_map (λ b. typed.body b.now) result ≡ contracts.declared_at (typed.typed program.now) place class.0 }
{
    let body = method_at(program, class, place);
    if is_declared_by(class, body) {
        body
    } else {
        None
    }
}
