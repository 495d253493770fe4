// What objects were.
ghost use Rattle.std.specs.Prelude.{◌≡◌, option_copied};
ghost use Rattle.ss_journal.specs.Places.{at_place};

use ss_core::ClassId;
use ss_store::Slot;
use ss_store_rules::Value;
use std::marker::Model;

/// What the object at this position was, beside its class, its fields and its elements.
#[derive(Clone, Copy)]
pub struct OldHeader {
    pub position: u32,
    pub level: ClassId,
    pub committed: bool,
    /// The number of a group beside 65535, or an object and a class.
    pub owner: (u32, u16),
    pub ready: bool,
}

/// The fields and the elements that the object at this position had.
#[derive(Drop)]
pub struct OldContent {
    pub position: u32,
    pub fields: Vec<Slot>,
    pub elements: Vec<Value>,
}

impl Model for OldContent {
    ghost use Rattle.ss_journal.specs.Shapes as shape;

    ghost Value = { shape.OldContent };

    ghost view = { λ c. record { position = c.position; fields = c.fields.items; elements = c.elements.items } };
}

/// The entry at this place.
pub(crate) fn nth_header(headers: &[OldHeader], place: Option<usize>) -> Option<OldHeader>
    ensures { result ≡ at_place headers.now place }
{
    match place {
        Some(place) => headers.get(place).copied(),
        None => None,
    }
}

/// The entry at this place.
pub(crate) fn nth_content(contents: &[OldContent], place: Option<usize>) -> Option<&OldContent>
    ensures { option_copied result ≡ at_place contents.now place }
{
    match place {
        Some(place) => contents.get(place),
        None => None,
    }
}
