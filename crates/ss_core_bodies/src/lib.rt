//! Bodies of a core program, by number, by class and by place in a table.
#![tactic(auto)]

ghost use Rattle.std.specs.Prelude.{◌≡◌, option_map};
ghost use Rattle.ss_core.specs.View as view;
ghost use Rattle.ss_store_rules.specs.Typed as typed;

use ss_core::{Body, BodyId, ClassId, Core};

/// The body with this number.
pub fn body_at(core: &Core, number: BodyId) -> Option<&Body>
    ensures { option_map (λ b. view.body b.now) result ≡ typed.body_at (view.core core.now) number.0 }
{
    core.bodies.get(number.0 as usize)
}

/// The body at this place of the table of the class.
pub fn method_at(core: &Core, class: ClassId, place: usize) -> Option<&Body>
    ensures { option_map (λ b. view.body b.now) result ≡ typed.method_at (view.core core.now) class.0 place }
{
    let entry = core.classes.table(class).get(place)?;
    body_at(core, entry.body)
}

/// The first constructor of the class.
pub fn constructor_of(core: &Core, class: ClassId) -> Option<&Body>
    ensures { option_map (λ b. view.body b.now) result ≡ typed.constructor_of (view.core core.now) class.0 }
{
    for body in &core.bodies {
        if body.flags.ctor && body.class == class {
            return Some(body);
        }
    }
    None
}
