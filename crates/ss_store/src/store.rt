// Stores.
ghost use Rattle.std.specs.Prelude.{◌≡◌, ◌<◌, ◌^◌, [], length, option_copied, slice_get, IfSome};
ghost use Rattle.ss_store_rules.specs.Store.{slot_value};
ghost use Rattle.ss_store_rules.specs.Reads.{object_at};
ghost use Rattle.ss_store.specs.Listed.{HoldsNoOther};

use crate::before::Before;
use crate::object::{NO_CLASS, Object, Slot};
use ss_core::{ClassId, FieldId};
use ss_store_lists::Lists;
use ss_store_rules::Value;
use std::alloc::Global;
use std::marker::Model;

/// A list of objects, to which references are positions. Past its end a read gives no fields, no elements, and the class `object`.
#[derive(Drop)]
pub struct Store {
    pub(crate) objects: Vec<Object>,
    /// Room for the fields of objects to come.
    pub(crate) spare: Vec<Vec<Slot>>,
    /// The objects that may be below their full level, and each by what holds it.
    pub(crate) lists: Lists,
}

impl Model for Store {
    ghost use Rattle.std.specs.Prelude.{length};
    ghost use Rattle.ss_store.specs.Shapes.{Contents};
    ghost use Rattle.ss_store.specs.Listed.{IsStore};

    ghost Value = { Contents };

    ghost view = { λ s. record { objects = s.objects.items; spare = length s.spare.items } };

    ghost invariant = { λ s. IsStore s.objects s.spare s.lists };
}

impl Store {
    /// A store without objects.
    pub fn new(alloc: Global) -> Store
        ensures { result ≡ record { objects = []; spare = 0 } }
    {
        Store {
            objects: Vec::new(alloc),
            spare: Vec::new(alloc),
            lists: Lists::new(alloc),
        }
    }

    /// The object at the position.
    pub(crate) fn object(&self, o: u32) -> Option<&Object>
        ensures { option_copied result ≡ slice_get self.now.objects o }
    {
        self.objects.get(o as usize)
    }

    /// Positions that include all objects that the one at `k` holds beside itself: those that it owns, and the members of its
    /// group. None where every object has to be looked at.
    pub fn held_by(&self, k: u32) -> Option<&[u32]>
        ensures { IfSome result (λ ps. HoldsNoOther self.now.objects k ps.now) }
    {
        self.lists.held(k)
    }

    /// How many objects there are.
    pub fn count(&self) -> usize
        ensures { result ≡ length self.now.objects }
    {
        self.objects.len()
    }

    /// The fields of the object.
    pub fn fields_of(&self, o: u32) -> &[Slot]
        ensures { result.now ≡ (object_at self.now.objects o).fields }
    {
        match self.object(o) {
            Some(x) => &x.fields,
            None => &[],
        }
    }

    /// The elements of the array.
    pub fn elements_of(&self, a: u32) -> &[Value]
        ensures items { result.now ≡ (object_at self.now.objects a).elements }
        ensures short { length result.now < 2 ^ 31 }
    {
        match self.object(a) {
            Some(x) => &x.elements,
            None => &[],
        }
    }

    /// The class of the object.
    pub fn class_of(&self, o: u32) -> ClassId
        ensures { result.0 ≡ (object_at self.now.objects o).class }
    {
        match self.object(o) {
            Some(x) => x.class,
            None => ClassId(0),
        }
    }

    /// Whether the object is ready.
    pub fn is_ready(&self, o: u32) -> bool
        ensures { result ≡ (object_at self.now.objects o).ready }
    {
        match self.object(o) {
            Some(x) => x.ready,
            None => false,
        }
    }

    /// The length of the array.
    pub fn length_of(&self, a: u32) -> u32
        ensures count { result ≡ length (object_at self.now.objects a).elements }
        ensures short { result < 2 ^ 31 }
    {
        match self.object(a) {
            Some(x) => x.length(),
            None => 0,
        }
    }
}

/// The content of the first slot of the field.
pub fn slot_value(fields: &[Slot], f: FieldId) -> Option<Value>
    ensures { result ≡ slot_value fields.now f.0 }
{
    for slot in fields {
        if slot.field == f {
            return Some(slot.value);
        }
    }
    None
}

impl Before for Store {
    ghost told = { λ s. s.objects };

    fn field(&self, o: u32, f: FieldId) -> Value {
        match self.object(o) {
            Some(x) => slot_value(&x.fields, f).unwrap_or(Value::Null),
            None => Value::Null,
        }
    }

    fn element(&self, a: u32, i: u32) -> Value {
        match self.object(a) {
            Some(x) => x.elements.get(i as usize).copied().unwrap_or(Value::Null),
            None => Value::Null,
        }
    }

    fn level(&self, o: u32) -> ClassId {
        match self.object(o) {
            Some(x) => x.level,
            None => ClassId(0),
        }
    }

    fn committed(&self, o: u32) -> bool {
        match self.object(o) {
            Some(x) => x.committed,
            None => false,
        }
    }

    fn owner(&self, o: u32) -> (u32, u16) {
        match self.object(o) {
            Some(x) => x.owner_pair(),
            None => (0, NO_CLASS),
        }
    }

    fn allocated(&self, o: u32) -> bool {
        (o as usize) < self.objects.len()
    }
}
