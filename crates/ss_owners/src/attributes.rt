// Which attributes may not stand where they do.

ghost use Rattle.std.specs.Prelude.{◌≡◌, ◌++◌, OnOk, map, codes};
ghost use Rattle.std.specs.Str.{bytes_eq};
ghost use Rattle.ss_ast.specs.Expressions.{name_tree};
ghost use Rattle.ss_owners_rules.specs.Attributes.{is_mark, excludes, is_excluded, is_bad, bad_attributes};
ghost use Rattle.ss_owners.specs.Bearers.{names_of, places_if};

use ss_ast::Name;
use ss_core::{Place, Ty, is_class_type};
use std::alloc::AllocError;

/// What an attribute stands on.
#[derive(Clone, Copy)]
pub enum Bearer {
    /// A field of this type.
    Field(Ty),
    /// A parameter of this type.
    Param(Ty),
    Constructor,
    Method,
    Invariant,
}

fn is_mark(name: &str) -> bool
    ensures { result ≡ is_mark name.now }
{
    name == "Rep" || name == "Peer"
}

// Whether an attribute of this name may stand there.
fn may_stand(on: Bearer, name: &str) -> bool
    ensures { result ≡ names_of on name.now }
{
    match on {
        Bearer::Field(ty) => is_class_type(ty) && is_mark(name),
        Bearer::Param(ty) => is_class_type(ty) && name == "Captured",
        Bearer::Constructor => name == "NotDelayed",
        Bearer::Method => name == "Pure" || name == "NoDefaultContract",
        Bearer::Invariant => false,
    }
}

// Whether it is the same attribute, or the other mark.
fn excludes(earlier: &str, name: &str) -> bool
    ensures { result ≡ excludes earlier.now name.now }
{
    earlier == name || is_mark(earlier) && is_mark(name)
}

// Whether one of these excludes it. The last of them is looked at first, so that the searches of all attributes of a place together
// take a time that grows as their number.
fn is_excluded(before: &[Name], name: &str) -> bool
    ensures { result ≡ is_excluded (map name_tree before.now) name.now }
{
    let mut left = before.len();
    while left > 0 {
        left -= 1;
        if excludes(before[left].text.as_str(), name) {
            return true;
        }
    }
    false
}

fn is_bad(on: Bearer, before: &[Name], attribute: &Name) -> bool
    ensures { result ≡ is_bad (names_of on) (map name_tree before.now) (name_tree attribute.now) }
{
    let name = attribute.text.as_str();
    !may_stand(on, name) || is_excluded(before, name)
}

// Adds the place where that is so.
fn add_if(is_bad: bool, place: Place, found: &mut Vec<Place>) -> Result<(), AllocError>
    ensures { OnOk result (found.new.items ≡ found.old.items ++ places_if is_bad place) }
{
    if is_bad {
        found.push(place)?;
    }
    Ok(())
}

/// Adds the places of the attributes that may not stand there, or not after those before them.
pub fn find_bad(on: Bearer, attributes: &[Name], found: &mut Vec<Place>) -> Result<(), AllocError>
    ensures { OnOk result (found.new.items ≡ found.old.items ++ bad_attributes (names_of on) (map name_tree attributes.now)) }
{
    for (place, attribute) in attributes.iter().enumerate() {
        let is_fault = is_bad(on, &attributes[..place], attribute);
        add_if(is_fault, attribute.place, found)?;
    }
    Ok(())
}
