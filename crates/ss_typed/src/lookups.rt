// What is looked up in a resolved program.

ghost use Rattle.std.specs.Prelude.{◌≡◌, option_map, slice_get};
ghost use Rattle.ss_core.specs.View.{class_of};
ghost use Rattle.ss_typed.specs.View.{body, members, typed};
ghost use Rattle.ss_typed.specs.Lookups as asked;

use crate::body::TypedBody;
use crate::program::{Typed, TypedClass};
use ss_core::{BodyId, Class, ClassId};

/// The written body of this number.
pub fn body_at(program: &Typed, number: BodyId) -> Option<&TypedBody>
    ensures { option_map (λ b. body b.now) result ≡ asked.body_at (typed program.now) number.0 }
{
    program.bodies.get(number.0 as usize)
}

/// The entry at this place of the table of classes.
pub fn class_at(program: &Typed, place: usize) -> Option<&Class>
    ensures { option_map (λ c. class_of c.now) result ≡ slice_get (typed program.now).classes place }
{
    program.classes.list.get(place)
}

/// What the class at this place has beside its entry.
pub fn members_in(program: &Typed, place: usize) -> Option<&TypedClass>
    ensures { option_map (λ m. members m.now) result ≡ slice_get (typed program.now).members place }
{
    program.members.get(place)
}

/// What a declared class has beside its entry in the table of classes.
pub fn members_of(program: &Typed, class: ClassId) -> Option<&TypedClass>
    ensures { option_map (λ m. members m.now) result ≡ asked.members_of (typed program.now) class.0 }
{
    match program.classes.declared(class) {
        Some(_) => members_in(program, class.list_place()),
        None => None,
    }
}

/// The constructor that the class writes.
pub fn constructor_of(program: &Typed, class: ClassId) -> Option<&TypedBody>
    ensures { option_map (λ b. body b.now) result ≡ asked.constructor_of (typed program.now) class.0 }
{
    match members_of(program, class) {
        Some(found) => match found.constructor {
            Some(number) => body_at(program, number),
            None => None,
        },
        None => None,
    }
}
