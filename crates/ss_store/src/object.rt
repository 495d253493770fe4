// Objects.
ghost use Rattle.std.specs.Prelude.{◌≡◌, ◌<◌, ◌^◌, length};

use ss_core::{ClassId, FieldId};
use ss_store_rules::{Owner, Value};
use std::marker::Model;

/// Stands in place of a class where the owner is a group.
pub const NO_CLASS: u16 = 65535;

/// A field of an object.
#[derive(Drop)]
pub struct Slot {
    pub(crate) field: FieldId,
    pub(crate) value: Value,
}

impl Model for Slot {
    ghost use Rattle.ss_store_rules.specs.Store as model;

    ghost Value = { model.Slot };

    ghost view = { λ x. record { field = x.field.0; content = x.value } };
}

impl Slot {
    /// The number of the field.
    pub fn field(&self) -> FieldId
        ensures { result.0 ≡ self.now.field }
    {
        self.field
    }

    /// What it holds.
    pub fn value(&self) -> Value
        ensures { result ≡ self.now.content }
    {
        self.value
    }
}

/// An object, or an array.
#[derive(Drop)]
pub(crate) struct Object {
    pub(crate) class: ClassId,
    pub(crate) fields: Vec<Slot>,
    pub(crate) elements: Vec<Value>,
    pub(crate) level: ClassId,
    pub(crate) committed: bool,
    pub(crate) owner: Owner,
    pub(crate) ready: bool,
}

impl Model for Object {
    ghost use Rattle.ss_store_rules.specs.Store as model;
    ghost use Rattle.ss_store.specs.Shapes.{IsObject};

    ghost Value = { model.Object };

    ghost view = { λ x. record {
      class = x.class.0;
      fields = x.fields.items;
      elements = x.elements.items;
      level = x.level.0;
      committed = x.committed;
      owner = x.owner;
      ready = x.ready;
    } };

    ghost invariant = { λ x. IsObject x.elements.items x.owner };
}

impl Object {
    ghost use Rattle.ss_store.specs.Shapes.{owner_of_pair};

    /// The owner as the number of a group beside `NO_CLASS`, or as an object and a class.
    pub(crate) fn owner_pair(&self) -> (u32, u16)
        ensures { owner_of_pair result ≡ self.now.owner }
    {
        match self.owner {
            Owner::Group(g) => (g, NO_CLASS),
            Owner::Owned(o, t) => (o, t.0),
        }
    }

    /// How many elements the array has.
    pub(crate) fn length(&self) -> u32
        ensures count { result ≡ length self.now.elements }
        ensures short { result < 2 ^ 31 }
    {
        self.elements.len() as u32
    }
}
